//! How many columns a text has.
ghost use Rattle.std.specs.Prelude.{◌≡◌, ◌<◌, ◌≤◌, min, nat_le};
ghost use Rattle.prodash_line.specs.CellRows.{char_columns, text_columns};
ghost use Rattle.prodash_line.specs.DrawnLines.{safe_char};
ghost use Rattle.prodash_line.specs.plumbing.Writing.{is_printable};
ghost use Rattle.prodash_tui.specs.Frames.{is_certain};
ghost use Rattle.prodash_tui.specs.Texts.{block_width, drawn_text};

use prodash_line::render::line::draw::safe_char;
use prodash_line::render::line::page::{CharColumns, UnicodeWidth};

/// Returns whether every terminal shows a character in one column: printable ASCII, box drawing and
/// block elements. Others have as many columns as `unicode_width` counts, or as the terminal takes
/// them for.
#[inline(always)]
pub(crate) fn is_certain(c: char) -> bool
    ensures { result ≡ is_certain c }
{
    matches!(c, ' '..='~' | '\u{2500}'..='\u{259F}')
}

/// Returns how many columns a character has, at most 2. For one that every terminal shows in one
/// column nothing is looked up.
#[tactic(auto, using(crate::proofs::CertainChars::column_of_certain))]
#[inline(always)]
pub(crate) fn columns_of(c: char) -> usize
    ensures value { result ≡ min (char_columns c) 2 }
    ensures few { result ≤ 2 }
{
    if is_certain(c) {
        return 1;
    }
    UnicodeWidth.columns(c).min(2)
}

/// Returns a character as it is drawn: U+FFFD in place of an unsafe one. None that every terminal
/// shows in one column is unsafe.
#[tactic(auto, using(crate::proofs::CertainChars::certain_as_drawn))]
#[inline(always)]
pub(crate) fn drawn_char(c: char) -> char
    ensures { result ≡ safe_char c }
{
    if is_certain(c) {
        return c;
    }
    safe_char(c)
}

/// Returns how many columns a character has as it is drawn, at most 2.
#[tactic(auto, using(crate::proofs::CertainChars::column_as_drawn))]
#[inline(always)]
fn drawn_columns(c: char) -> usize
    ensures value { result ≡ min (char_columns (safe_char c)) 2 }
    ensures few { result ≤ 2 }
{
    if is_certain(c) {
        return 1;
    }
    other_columns(c)
}

/// Does what `drawn_columns` does for a character that isn't certain.
#[inline(never)]
fn other_columns(c: char) -> usize
    ensures value { result ≡ min (char_columns (safe_char c)) 2 }
    ensures few { result ≤ 2 }
{
    columns_of(drawn_char(c))
}

/// Returns whether the bytes are all printable ASCII characters.
pub(crate) fn is_all_printable(text: &[u8]) -> bool
    ensures { result ≡ is_printable text.now }
{
    for byte in text {
        if *byte < 0x20 || 0x7e < *byte {
            return false;
        }
    }
    true
}

/// Returns how many columns a text has, at most 65536.
pub(crate) fn text_columns(text: &str) -> u32
    ensures { result ≡ min (text_columns char_columns (drawn_text text.now)) 65536 }
{
    if is_all_printable(text.as_bytes()) {
        return text.len().min(65536) as u32;
    }
    let mut columns = 0;
    for c in text.chars() {
        let more = drawn_columns(c) as u32;
        columns = (columns + more).min(65536);
    }
    columns
}

/// Returns whether a text has at most so many columns. One that would have no more if each of its
/// characters was wide is not measured.
pub(crate) fn fits(text: &str, columns: usize) -> bool
    requires { columns < 65536 }
    ensures { result
        ≡ nat_le (text_columns char_columns (drawn_text text.now)) columns }
{
    if text.len() <= columns / 2 {
        return true;
    }
    text_columns(text) as usize <= columns
}

/// Returns how many columns a text has as it is drawn, at most 65535.
pub fn block_width(text: &str) -> u16
    ensures { result ≡ block_width text.now }
{
    text_columns(text).min(65535) as u16
}
