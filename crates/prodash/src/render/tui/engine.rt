//! Draws a dashboard from threads of its own: one frame per interval, and one for each event that
//! changes what it shows, until it is left, the root is gone or the renderer's handle ends it.
mod event;
mod handle;
mod mailbox;
mod step;
mod threads;

pub use event::{EngineAnswer, EngineEvent};
pub use handle::JoinHandle;
pub use step::Engine;
pub use threads::{StackSizes, render, render_with_stacks};
