//! The line renderer: a row for each task, below the messages.
pub mod draw;
pub mod engine;
pub mod page;

pub use engine::{
    ColorChoice, Environment, JoinHandle, Options, StackSizes, StandardStreams, StreamKind,
    VariableSource, Variables, render, render_with_stacks,
};
