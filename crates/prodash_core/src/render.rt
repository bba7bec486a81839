//! The dashboard.
pub mod tui;
