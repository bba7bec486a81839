//! Frames of messages and rows, and the screens that they are written to.
pub use prodash_line::render::line::draw::{
    Answer, Input, MemoryScreen, Options, OverWrite, Screen, State, all, safe_char, tick_with_steps,
};
