//! The dashboard: a machine that turns keys and other events into the state to draw.
//!
//! It draws nothing itself. A caller hands each event to `State::handle`, draws the state if the
//! answer is `Redraw`, and leaves if it is `Stop`.
mod event;
mod options;
mod prefix;
mod state;

pub use event::{Answer, Event, Interrupt, Key, KeyCode, Line, Rect};
pub use options::Options;
pub use prefix::{level_prefix, push_level_prefix};
pub use state::{InterruptMode, State};

/// The vertical line that a dashboard draws between columns.
pub const VERTICAL_LINE: &str = "│";
