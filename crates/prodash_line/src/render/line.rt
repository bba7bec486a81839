mod byte_buffer;
pub mod draw;
mod gap_buffer;
pub mod page;
pub mod terminal;
