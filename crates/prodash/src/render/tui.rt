//! The dashboard, which fills a terminal: a tree of tasks with their progress, messages, and lines
//! of information.
//!
//! [`render`] draws it from threads of its own. Without threads an [`engine::Engine`] takes one
//! step for each event, and a [`Dashboard`] draws frames of [`Contents`] that its caller has.
pub mod engine;

pub use engine::{JoinHandle, StackSizes, render, render_with_stacks};
pub use prodash_core::render::tui::{
    Answer, Event, Interrupt, InterruptMode, Key, KeyCode, Line, Options, Rect, State,
    VERTICAL_LINE, level_prefix, push_level_prefix,
};
pub use prodash_tui::{Contents, Dashboard};
