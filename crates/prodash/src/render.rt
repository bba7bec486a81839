//! Renderers.
pub mod line;
pub mod plain;
mod threads;
pub mod tui;
