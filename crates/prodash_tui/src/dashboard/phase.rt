//! How far a dashboard is.

/// Whether a dashboard is running.
#[derive(Clone, Copy, Debug)]
pub(crate) enum Phase {
    /// It takes events, and draws frames.
    Running,
    /// It has stopped, and is still to be closed.
    Stopped,
    /// It was closed.
    Closed,
}
