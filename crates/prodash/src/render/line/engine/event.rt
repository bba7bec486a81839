//! The events for which an engine draws a frame.
use crate::time::Moment;

/// An event for which an engine draws a frame.
#[derive(Clone, Copy, Debug)]
pub enum EngineEvent {
    /// Looks at the root: prints its new messages, and draws its rows if they are shown and have
    /// changed. Without a root it closes the renderer.
    Tick {
        /// The moment of the frame.
        at: Moment,
        /// Whether the rows are shown or hidden. Hidden rows are remembered, and not drawn.
        show: bool,
    },
    /// Sets the size of the terminal, and draws the rows of the latest tick if they are shown.
    Resize {
        /// The moment of the frame.
        at: Moment,
        /// Whether the rows are shown or hidden.
        show: bool,
        /// The columns of the terminal.
        columns: u16,
        /// The rows of the terminal.
        rows: u16,
    },
    /// Closes the renderer.
    Quit {
        /// The moment of the frame.
        at: Moment,
    },
}
