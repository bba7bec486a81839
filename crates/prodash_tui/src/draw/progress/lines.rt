//! What the lines of a progress pane share.
use prodash_base::time::Moment;
use prodash_core::render::tui::Rect;

/// How far a progress pane is scrolled, and how wide its tree is.
#[derive(Clone, Copy, Debug, Default, PartialEq, Eq)]
pub struct Scroll {
    /// How many rows are skipped before the first one that is shown.
    pub offset: u16,
    /// How many columns the tree has; 0 if that isn't known.
    pub tree_columns: u16,
}

/// Lines of a grid that show rows.
#[derive(Clone, Copy)]
pub(crate) struct Lines {
    /// Where the lines are, one for each row of the rectangle.
    pub(crate) area: Rect,
    /// How many rows are skipped before the first one that is shown.
    pub(crate) offset: u16,
    /// The columns of the widest amount.
    pub(crate) amount_columns: u16,
    /// The moment for which times are told.
    pub(crate) at: Moment,
}
