//! How many columns a terminal gives characters.
ghost use Rattle.std.specs.Prelude.{◌≡◌, ℕ};
ghost use Rattle.prodash_line.specs.CellRows.{char_columns};

use unicode_width::UnicodeWidthChar;

/// How many columns a terminal gives each character.
///
/// A terminal that gives U+00AD, the soft hyphen, a column of its own:
///
/// ```rust
/// struct ShownHyphen;
///
/// impl CharColumns for ShownHyphen {
///     ghost given = { λ _ c. if nat_eq c 0xAD then 1 else char_columns c };
///
///     fn columns(&self, c: char) -> usize {
///         if c == '\u{ad}' { 1 } else { UnicodeWidth.columns(c) }
///     }
/// }
/// ```
pub trait CharColumns {
    /// How many columns each character is given.
    ghost given: { Self → ℕ → ℕ };

    /// Returns how many columns the terminal gives a character. More than two count as two.
    fn columns(&self, c: char) -> usize
        ensures { result ≡ given self.now c };
}

/// The columns that the renderer counts for a character by itself: those of Unicode Standard Annex
/// 11, East Asian Width, and none for control characters.
#[derive(Clone, Copy, Debug)]
pub struct UnicodeWidth;

impl CharColumns for UnicodeWidth {
    ghost given = { λ _. char_columns };

    fn columns(&self, c: char) -> usize {
        c.width().unwrap_or(0)
    }
}
