//! Draws a tree from threads of its own: one frame per interval, until the root is gone or the
//! renderer's handle ends it.
mod event;
mod handle;
mod mailbox;
mod options;
mod step;
mod threads;

pub use event::EngineEvent;
pub use handle::JoinHandle;
pub use options::{
    ColorChoice, Environment, Options, StandardStreams, StreamKind, VariableSource, Variables,
};
pub use step::Engine;
pub use threads::{StackSizes, render, render_with_stacks};
