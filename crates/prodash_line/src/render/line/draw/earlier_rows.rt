//! The rows that a tick sees, and what was remembered before it.
use crate::render::line::draw::latest_rows::KeptLines;
use prodash_base::progress::{Rows, Step};

/// The rows that a tick sees.
#[derive(Drop)]
pub(crate) enum SeenRows {
    /// These.
    All(Rows),
    /// Those that are remembered, with these steps, the first of which is that of the first row.
    Steps(Vec<Step>),
}

/// The rows that were remembered before those of a tick.
#[derive(Drop)]
pub(crate) enum EarlierRows {
    /// Other rows, if there were any.
    Others(Option<Rows>),
    /// The same rows, with these steps.
    Same(Vec<Step>),
}

/// What was remembered before the rows of a tick.
#[derive(Drop)]
pub(crate) struct Earlier {
    pub(crate) rows: EarlierRows,
    /// The lines that these rows were drawn in, as far as a frame may copy them.
    pub(crate) kept: KeptLines,
}
