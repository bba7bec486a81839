//! Where a terminal writes.
use crate::style::Style;

/// Where the cursor of a terminal is, counted from 0, and the style in which it writes.
#[derive(Clone, Copy)]
pub(crate) struct Cursor {
    pub(crate) row: u16,
    /// Behind a character in the last column this is the number of columns.
    pub(crate) column: u16,
    pub(crate) style: Style,
}
