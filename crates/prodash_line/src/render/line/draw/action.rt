//! What a frame does after its messages, and what it leaves to the next one.
use crate::render::line::draw::latest_rows::RowLine;
use prodash_base::timing::Timer;

/// What a frame does after its messages.
#[derive(Clone, Copy, Debug, PartialEq, Eq)]
pub(crate) enum Action {
    /// It leaves the lines on screen.
    Leave,
    /// It draws rows in their place.
    Redraw,
    /// It erases them.
    Erase,
    /// It blanks them and closes the renderer.
    Close,
}

/// What the body of a frame leaves to the next one.
#[derive(Drop)]
pub(crate) struct Drawn {
    /// The width of each line on screen.
    pub(crate) widths: Vec<u16>,
    /// The greatest midpoint of the frame drawn last.
    pub(crate) midpoint: u16,
    /// Whether the rows of tasks have been erased since they were last drawn.
    pub(crate) rows_erased: bool,
    /// What the frame does after its messages.
    pub(crate) action: Action,
    /// The lines of rows that the next frame may copy.
    pub(crate) lines: Vec<RowLine>,
}

/// What the composed frame of a tick leaves to the next one.
#[derive(Drop)]
pub(crate) struct Composed {
    /// What its body leaves.
    pub(crate) drawn: Drawn,
    /// The widths of the latest origins.
    pub(crate) origin_widths: Vec<u16>,
    /// The timer that has seen the rows of the tick, if times are shown.
    pub(crate) timer: Option<Timer>,
    /// Whether it leaves the lines on screen because the tick saw the rows that are remembered.
    pub(crate) rows_stay: bool,
}
