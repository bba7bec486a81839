//! The dashboard, and its panes.
pub mod all;
mod bounds;
mod counts;
pub mod headline;
pub mod information;
mod input;
pub mod messages;
mod parts;
pub mod progress;

pub use bounds::Bounds;
pub use input::Input;
