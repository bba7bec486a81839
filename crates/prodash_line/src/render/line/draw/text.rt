//! The widths of texts, and their longest prefixes of a width.
ghost use Rattle.std.specs.Prelude.{◌≡◌, ◌≤◌, ◌+◌, ◌-◌, ◌∷◌, [], ◌++◌, chars, false, length, take, IfSome};
ghost use Rattle.unicode_width.specs.Width.{str_width};
ghost use Rattle.std.specs.Bool.{then_some};
ghost use Rattle.std.specs.Int.{is_in_range};
ghost use Rattle.std.specs.Str.{IsUtf8};
ghost use Rattle.prodash_line.specs.Lines.{piece, capped, columns_of, longest_prefix};
ghost use Rattle.prodash_line.specs.plumbing.AddedWidths.{AddsWidth, adds_its_width};
ghost use Rattle.prodash_line.specs.plumbing.Writing.{is_printable};

use unicode_width::{UnicodeWidthChar, UnicodeWidthStr};

/// Whether a byte is a printable ASCII character.
#[inline]
fn is_printable(byte: u8) -> bool
    ensures { result ≡ is_in_range 0x20 0x7E byte }
{
    0x20 <= byte && byte <= 0x7e
}

/// Whether the bytes are all printable ASCII characters. No branch stands between them, so that many
/// are compared at once.
#[inline(always)]
fn is_block_printable(block: &[u8]) -> bool
    ensures { result ≡ is_printable block.now }
{
    let mut printable = true;
    for byte in block {
        printable &= is_printable(*byte);
    }
    printable
}

/// How many bytes of a long text are compared at once.
const BLOCK: usize = 32;

/// Whether the bytes are all printable ASCII characters.
pub(crate) fn is_all_printable(text: &[u8]) -> bool
    ensures { result ≡ is_printable text.now }
{
    let mut left = text;
    'blocks: while left.len() >= BLOCK {
        let (block, others) = left.split_at(BLOCK);
        if !is_block_printable(block) {
            return false;
        }
        left = others;
    }
    'eights: while left.len() > 16 {
        let (eight, others) = left.split_at(8);
        if !is_block_printable(eight) {
            return false;
        }
        left = others;
    }
    match left.len() {
        8.. => are_ends_printable(left, 8),
        4..8 => are_ends_printable(left, 4),
        _ => is_block_printable(left),
    }
}

/// Whether the bytes are all printable ASCII characters: the first `size` of them, and the last. These
/// may overlap, and there are no others.
#[inline(always)]
fn are_ends_printable(text: &[u8], size: usize) -> bool
    requires some { size ≤ length text.now }
    requires few { length text.now ≤ size + size }
    ensures { result ≡ is_printable text.now }
{
    let first = is_block_printable(&text[..size]);
    let last = is_block_printable(&text[text.len() - size..]);
    first & last
}

/// Returns the width of a text, in columns.
pub(crate) fn uncapped_width(text: &str) -> usize
    ensures { result ≡ str_width false (chars text.now) }
{
    if is_all_printable(text.as_bytes()) {
        text.len()
    } else {
        text.width()
    }
}

/// Returns the width of a text whose bytes are all printable ASCII characters, in columns, at most
/// 65535; `None` of any other text.
pub(crate) fn printable_width(text: &str) -> Option<u16>
    ensures { result
        ≡ then_some (is_printable text.now) (columns_of (piece (chars text.now) ∷ [])) }
{
    if is_all_printable(text.as_bytes()) {
        Some(capped(text.len()))
    } else {
        None
    }
}

/// Returns the width of a text, in columns, at most 65535.
pub(crate) fn text_width(text: &str) -> u16
    ensures { result ≡ columns_of (piece (chars text.now) ∷ []) }
{
    capped(uncapped_width(text))
}

/// Returns this width, or 65535 if that is less.
pub(crate) fn capped(width: usize) -> u16
    ensures { result ≡ capped width }
{
    width.min(usize::from(u16::MAX)) as u16
}

/// Whether a character is one of those that are known to make any text wider by their own width. It
/// is none of those that may end a sequence with a width of its own, as emoji do.
fn adds_its_width(c: char) -> bool
    ensures { result ≡ adds_its_width c }
{
    match c {
        ' '..='~' | '\u{A1}'..='\u{337}' | '\u{339}'..='\u{5DB}' => true,
        '\u{900}'..='\u{177F}' | '\u{1A11}'..='\u{2319}' => true,
        '\u{2D70}'..='\u{A4FB}' | '\u{A4FE}'..='\u{FB3B}' => true,
        '\u{FF00}'..='\u{FFFD}' | '\u{20000}'..='\u{3FFFD}' => true,
        _ => false,
    }
}

/// Returns by how many columns a character makes any text wider, if that is known.
fn added_width(c: char) -> Option<usize>
    ensures { IfSome result (AddsWidth c) }
{
    if adds_its_width(c) { c.width() } else { None }
}

/// Returns the width of a text, given that of the text with one more character.
fn width_before(text: &str, last: char, width: usize) -> usize
    requires { width ≡ str_width false (chars text.now ++ last ∷ []) }
    ensures { result ≡ str_width false (chars text.now) }
{
    match added_width(last) {
        Some(added) => width - added,
        None => uncapped_width(text),
    }
}

/// Returns a text without its last character, and the width of that, given the width of the text.
fn without_last_char(text: &str, width: usize) -> (&str, usize)
    requires { width ≡ str_width false (chars text.now) }
    ensures text { chars result.0.now ≡ take (length (chars text.now) - 1) (chars text.now) }
    ensures utf8 { IsUtf8 result.0.now }
    ensures width { result.1 ≡ str_width false (chars result.0.now) }
{
    let mut characters = text.chars();
    match characters.next_back() {
        None => (text, width),
        Some(last) => {
            let rest = characters.as_str();
            (rest, width_before(rest, last, width))
        }
    }
}

/// Returns the longest prefix of a text that is at most `columns` wide, and its width. `width` is
/// the width of the text.
pub(crate) fn longest_prefix(text: &str, width: usize, columns: u16) -> (&str, usize)
    requires { width ≡ str_width false (chars text.now) }
    ensures text { chars result.0.now ≡ longest_prefix columns (chars text.now) }
    ensures width { result.1 ≡ str_width false (chars result.0.now) }
{
    let columns = usize::from(columns);
    if is_all_printable(text.as_bytes()) {
        let length = columns.min(text.len());
        return (&text[..length], length);
    }
    let (mut prefix, mut left) = (text, width);
    while left > columns {
        (prefix, left) = without_last_char(prefix, left);
    }
    (prefix, left)
}
