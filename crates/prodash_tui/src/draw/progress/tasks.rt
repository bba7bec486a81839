//! What a progress pane shows.
use prodash_base::progress::Row;
use prodash_base::time::Moment;
use prodash_base::unit::display::Throughput;

/// What a progress pane shows.
#[derive(Clone, Copy)]
pub struct Tasks<'a> {
    /// The rows of the tree, in strictly ascending order of their keys.
    pub rows: &'a [Row],
    /// The throughput of each row, if it has one. A row behind the end of the list has none.
    pub rates: &'a [Option<Throughput>],
    /// The moment for which times are told.
    pub at: Moment,
}
