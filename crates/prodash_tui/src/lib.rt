//! A grid of cells for a dashboard, and the words that draw on it.
#![tactic(auto)]

mod calls;
mod cell;
mod cursor;
mod dashboard;
pub mod draw;
mod drawn_row;
mod frame;
mod grid;
mod grid_row;
pub mod laws;
mod offset;
mod packed;
pub mod rect;
mod row;
mod screen;
mod sign;
mod style;
mod text;
mod word;

pub use cell::{Cell, Joined};
pub use dashboard::{Contents, Dashboard};
pub use frame::{push_difference, push_first};
pub use grid::Grid;
pub use offset::sanitize_offset;
pub use packed::PackedCell;
pub use screen::Screen;
pub use sign::{Sign, spell};
pub use style::{Color, Style};
pub use text::block_width;
