//! The cells of a grid as it holds them, each in a number.
ghost use Rattle.std.specs.Prelude.{◌≡◌, ◌↔◌, ◌≤◌, ◌<◌, ◌+◌, ◌*◌, ◌-◌, ◌^◌, IsTrue, length, slice_get};
ghost use Rattle.std.specs.Char.{IsScalar};
ghost use Rattle.std.specs.List.{AllByRecursion};
ghost use Rattle.std.specs.Cmp.{partial_equiv_from_equiv};
ghost use Rattle.prodash_base.specs.plumbing.EqualityTests.{equivalence};
ghost use Rattle.prodash_tui.specs.Cells.{blank_cell, cell_of, is_half, joined_by, on_background, same_cell};
ghost use Rattle.prodash_tui.specs.plumbing.PackedCells.{IsScalarIfAny, char_base, color_digit, color_of_digit, digit_at, packed_chars, style_digit, style_of_digit, unpacked_chars};
ghost use Rattle.prodash_tui.specs.plumbing.SameCells as same;

use crate::cell::{Cell, Joined, MOST_JOINED};
use crate::style::{Color, Style};
use std::marker::Model;

/// What the digit of a character is below.
const CHAR_BASE: u128 = 0x20_0000;

/// What the digit of a style is below.
const STYLE_BASE: u128 = 128;

/// A cell of a grid, in sixteen bytes. Contracts see it as the `Cell` that `get` returns.
///
/// It is a number whose digits are, from the lowest on, its character, its style, and those that
/// have joined it. The second half of a character is 0.
#[derive(Drop)]
pub struct PackedCell {
    code: u128,
}

impl Model for PackedCell {
    ghost use Rattle.prodash_tui.specs.declared.cell.Cell.{Cell};

    ghost Value = { Cell };

    ghost use Rattle.prodash_tui.specs.plumbing.PackedCells.{IsPacked, unpacked_cell};

    ghost view = { λ cell. unpacked_cell cell.code };

    ghost invariant = { λ cell. IsPacked cell.code };
}

/// Returns the digit of a colour.
fn color_digit(color: Option<Color>) -> u8
    ensures value { result ≡ color_digit color }
    ensures low { result < 7 }
{
    match color {
        None => 0,
        Some(Color::Black) => 1,
        Some(Color::Red) => 2,
        Some(Color::Green) => 3,
        Some(Color::Yellow) => 4,
        Some(Color::White) => 5,
        Some(Color::LightRed) => 6,
    }
}

/// Returns the colour of a digit.
fn color_of_digit(digit: u8) -> Option<Color>
    ensures { result ≡ color_of_digit digit }
{
    match digit {
        1 => Some(Color::Black),
        2 => Some(Color::Red),
        3 => Some(Color::Green),
        4 => Some(Color::Yellow),
        5 => Some(Color::White),
        6 => Some(Color::LightRed),
        _ => None,
    }
}

/// Returns the digit of a style.
fn style_digit(style: Style) -> u8
    ensures value { result ≡ style_digit style }
    ensures low { result < 128 }
{
    let bold = if style.bold { 1 } else { 0 };
    bold + 2 * (color_digit(style.foreground) + 8 * color_digit(style.background))
}

/// Returns the style of a digit.
fn style_of_digit(digit: u8) -> Style
    ensures { result ≡ style_of_digit digit }
{
    Style {
        bold: digit % 2 == 1,
        foreground: color_of_digit(digit / 2 % 8),
        background: color_of_digit(digit / 2 / 8),
    }
}

/// Returns the character of a digit.
fn char_of_digit(digit: u32) -> char
    requires { IsScalar (digit - 1) }
    ensures { result ≡ digit - 1 }
{
    char::from_u32(digit.saturating_sub(1)).unwrap_or(' ')
}

/// Returns the number of a cell with a character, of which those that have joined it are a number.
fn code_of(c: char, joined: u128, style: Style) -> u128
    requires { joined < 2 ^ 84 }
    ensures { result ≡ (c + 1) + char_base * (style_digit style + 128 * joined) }
{
    let look = u128::from(style_digit(style)) + STYLE_BASE * joined;
    u128::from(c as u32) + 1 + CHAR_BASE * look
}

/// Returns the digit of the character at an index; 0 if there are fewer.
fn digit_at(chars: &[char], index: usize) -> u128
    ensures value { result ≡ digit_at chars.now index }
    ensures low { result < char_base }
    ensures scalar { IsScalarIfAny (slice_get chars.now index) }
{
    match chars.get(index) {
        Some(c) => u128::from(*c as u32) + 1,
        None => 0,
    }
}

/// Returns up to four characters as the digits of a number, the first one last.
fn packed_chars(chars: &[char]) -> u128
    requires { length chars.now ≤ 4 }
    ensures value { result ≡ packed_chars chars.now }
    ensures low { result < 2 ^ 84 }
    ensures scalars { AllByRecursion IsScalar chars.now }
{
    let last = digit_at(chars, 2) + CHAR_BASE * digit_at(chars, 3);
    digit_at(chars, 0) + CHAR_BASE * (digit_at(chars, 1) + CHAR_BASE * last)
}

/// Returns the characters whose digits a number has, up to four.
fn unpacked_chars(code: u128) -> Joined
    requires { AllByRecursion IsScalar (unpacked_chars 4 code) }
    ensures { result ≡ unpacked_chars 4 code }
{
    let mut joined = Joined::new();
    let mut left = code;
    for _ in 0..MOST_JOINED {
        let digit = (left % CHAR_BASE) as u32;
        if digit == 0 {
            return joined;
        }
        joined.push(char_of_digit(digit));
        left /= CHAR_BASE;
    }
    joined
}

/// Packs a cell with a character.
fn packed(c: char, joined: &Joined, style: Style) -> PackedCell
    ensures { result ≡ Cell.Holds c joined.now style }
{
    let joined = packed_chars(joined.as_slice());
    PackedCell {
        code: code_of(c, joined, style),
    }
}

/// Returns a cell with a character by itself.
pub(crate) fn cell_of(c: char, style: Style) -> PackedCell
    ensures { result ≡ cell_of style c }
{
    PackedCell {
        code: code_of(c, 0, style),
    }
}

/// Returns a blank cell.
pub(crate) fn blank_cell() -> PackedCell
    ensures { result ≡ blank_cell }
{
    cell_of(' ', Style::new())
}

/// Returns the second half of a character.
pub(crate) fn half_cell() -> PackedCell
    ensures { result ≡ Cell.Half }
{
    PackedCell { code: 0 }
}

/// Whether a cell is the second half of a character.
pub(crate) fn is_half(cell: &PackedCell) -> bool
    ensures { result ≡ is_half cell.now }
{
    cell.code % CHAR_BASE == 0
}

/// Joins a character to the one in a cell.
pub(crate) fn join_cell(cell: &mut PackedCell, c: char)
    ensures { cell.new ≡ joined_by c cell.old }
{
    match cell.get() {
        Cell::Holds(own, mut joined, style) => {
            joined.push(c);
            *cell = packed(own, &joined, style);
        }
        Cell::Half => {}
    }
}

/// Changes the background of a cell's character.
pub(crate) fn color_cell(cell: &mut PackedCell, color: Color)
    ensures { cell.new ≡ on_background color cell.old }
{
    match cell.get() {
        Cell::Holds(c, joined, style) => *cell = packed(c, &joined, style.bg(color)),
        Cell::Half => {}
    }
}

impl PackedCell {
    /// Returns the cell.
    #[inline(always)]
    pub fn get(&self) -> Cell
        ensures { result ≡ self.now }
    {
        let own = (self.code % CHAR_BASE) as u32;
        if own == 0 {
            return Cell::Half;
        }
        let look = self.code / CHAR_BASE;
        let style = style_of_digit((look % STYLE_BASE) as u8);
        Cell::Holds(char_of_digit(own), unpacked_chars(look / STYLE_BASE), style)
    }
}

impl PartialEq for PackedCell {
    ghost eq = { same_cell };

    ghost laws = { partial_equiv_from_equiv (equivalence same.cells) };

    /// Returns whether both are the same character with the same joined ones and the same style, or
    /// both are second halves.
    fn eq(&self, other: &PackedCell) -> bool
        ensures value { result ≡ same_cell self.now other.now }
        ensures exact { IsTrue result ↔ (self.now ≡ other.now) }
    {
        self.code == other.code
    }
}

impl Eq for PackedCell {
    ghost laws = { equivalence same.cells };
}
