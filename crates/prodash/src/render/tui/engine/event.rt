//! The events for which an engine takes a step, and what it has done then.
use crate::render::tui::Event;
use crate::time::Moment;

/// An event for which an engine takes a step.
#[derive(Clone, Debug, Drop)]
pub enum EngineEvent {
    /// Hands an event to the dashboard. If it answers `Redraw`, a frame is drawn; if `Skip`,
    /// nothing; and if `Stop`, the terminal is left.
    Handle {
        /// The moment of the frame.
        at: Moment,
        /// The event.
        event: Event,
    },
    /// Sets the size of the terminal, and draws a whole frame.
    Resize {
        /// The moment of the frame.
        at: Moment,
        /// The columns of the terminal.
        columns: u16,
        /// The rows of the terminal.
        rows: u16,
    },
    /// Leaves the terminal.
    Quit {
        /// The moment at which it is left.
        at: Moment,
    },
}

/// What an engine has done for an event.
#[derive(Clone, Copy, Debug, PartialEq, Eq)]
pub enum EngineAnswer {
    /// It has drawn a frame.
    Drawn,
    /// It has drawn nothing, since nothing has changed.
    Skipped,
    /// It has left the terminal. Every further event is refused.
    Ended,
}
