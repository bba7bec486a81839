//! The words that draw on a row of a grid.
ghost use Rattle.std.specs.Prelude.{◌≡◌, true};

use crate::style::{Color, Style, same_style};

/// What is drawn in some columns of a row.
#[derive(Clone, Copy)]
pub(crate) enum Word {
    /// A text, cut off at the last column.
    Text(Style),
    /// A text, with an ellipsis if it has more.
    Shortened(Style),
    /// A character, as often as it fits.
    Filling(char, Style),
    /// Another background.
    Background(Color),
}

/// Returns whether two words are the same.
#[inline(always)]
pub(crate) fn same_word(a: Word, b: Word) -> bool
    ensures { result ≡ true → a ≡ b }
{
    match (a, b) {
        (Word::Text(style), Word::Text(other)) => same_style(style, other),
        (Word::Shortened(style), Word::Shortened(other)) => same_style(style, other),
        (Word::Filling(c, style), Word::Filling(d, other)) => c == d && same_style(style, other),
        (Word::Background(color), Word::Background(other)) => color == other,
        _ => false,
    }
}
