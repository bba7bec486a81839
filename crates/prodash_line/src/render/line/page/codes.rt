//! The codes of styles.
ghost use Rattle.std.specs.Prelude.{◌≡◌, [], filter_map, MatchOption, IsTrue, ◌↔◌};
ghost use Rattle.prodash_line.specs.Styles.{color_code, style_codes};
ghost use Rattle.prodash_line.specs.plumbing.SignReading.{NoColor, AddsNone, AddsCode};

use super::style::{Color, Style};

/// Returns the code of a colour.
fn color_code(color: Color) -> u8
    ensures { result ≡ color_code color }
{
    match color {
        Color::Red => 31,
        Color::Green => 32,
        Color::Yellow => 33,
        Color::Cyan => 36,
        Color::White => 37,
    }
}

/// Returns the colour that has this code.
fn color_of(code: u16) -> Option<Color>
    ensures { MatchOption result (NoColor code) (λ color. color_code color ≡ code) }
{
    match code {
        31 => Some(Color::Red),
        32 => Some(Color::Green),
        33 => Some(Color::Yellow),
        36 => Some(Color::Cyan),
        37 => Some(Color::White),
        _ => None,
    }
}

/// Returns the codes that the style has, in ascending order.
pub(super) fn codes_of(style: Style) -> [Option<u8>; 4]
    ensures { filter_map (λ code. code) result ≡ style_codes style }
{
    [
        style.bold.then_some(1),
        style.dim.then_some(2),
        style.color.map(color_code),
        style.on_yellow.then_some(43),
    ]
}

/// Returns the style with one more code, if that code comes after all that the style has.
pub(super) fn with_code(style: Style, code: u16) -> Option<Style>
    ensures { MatchOption result (AddsNone style code) (AddsCode style code) }
{
    // Whether the style has this code, or one that comes after it.
    let has_color = style.color.is_some() || style.on_yellow;
    let has_dim = style.dim || has_color;
    let has_bold = style.bold || has_dim;
    match code {
        1 if !has_bold => Some(style.bold()),
        2 if !has_dim => Some(style.dimmed()),
        43 if !style.on_yellow => Some(style.on_yellow()),
        _ if !has_color => Some(style.fg(color_of(code)?)),
        _ => None,
    }
}

impl Style {
    /// Returns whether the style has no code.
    pub fn is_plain(self) -> bool
        ensures { IsTrue result ↔ (style_codes self ≡ []) }
    {
        !self.bold && !self.dim && self.color.is_none() && !self.on_yellow
    }
}
