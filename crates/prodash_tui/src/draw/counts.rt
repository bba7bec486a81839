//! What the headline counts.

/// How many tasks run, wait for something, and have no progress of their own.
#[derive(Clone, Copy)]
pub(crate) struct Counts {
    pub(crate) running: usize,
    pub(crate) waiting: usize,
    pub(crate) groups: usize,
}
