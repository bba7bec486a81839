//! The signs that frames are made of, the bytes that spell them, and the page that they write.
pub use prodash_line::render::line::page::{
    Cell, CharColumns, Color, Fault, Joined, Page, Sign, Style, UnicodeWidth, read, spell,
};
