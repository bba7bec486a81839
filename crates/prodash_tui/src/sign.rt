//! Signs for a terminal, and the bytes that spell them.
//!
//! A call named `push_..` that runs out of memory may have appended a part of its bytes, and leaves
//! what the buffer held before.
ghost use Rattle.std.specs.Prelude.{◌≡◌, ◌+◌, ◌++◌, IfOk, IsOkUnless, OnOk};
ghost use Rattle.std.specs.Fmt.{decimal};
ghost use Rattle.prodash_base.specs.Appending.{IsPrefix};
ghost use Rattle.prodash_tui.specs.Signs.{code_parameter, color_number, move_parameters, spelling, spelling_of, style_parameters};

use crate::style::{Color, Style};
use itoa::Buffer;
use prodash_base::Refusal;
use std::alloc::{AllocError, Global};

/// A character or a control function of ECMA-48. What is drawn on a terminal is a list of signs.
#[derive(Clone, Copy, Debug, PartialEq, Eq)]
pub enum Sign {
    /// A character, in UTF-8.
    Char(char),
    /// CUP, `CSI row ; column H`: the cursor goes to this row and column, counted from 0.
    MoveTo(u16, u16),
    /// SGR, `CSI 0 ; .. m`: characters are written in this style.
    SetStyle(Style),
    /// ED, `CSI 2 J`: blanks all cells.
    EraseScreen,
    /// `CSI ? 1049 h`: shows the alternate screen, blank. The main one is kept with its cursor.
    EnterAlternate,
    /// `CSI ? 1049 l`: shows the main screen with the cursor that it had.
    LeaveAlternate,
    /// `CSI ? 25 l`: hides the cursor.
    HideCursor,
    /// `CSI ? 25 h`: shows the cursor.
    ShowCursor,
    /// DECAWM reset, `CSI ? 7 l`: a character past the last column goes into the last columns.
    NoWrap,
    /// DECAWM, `CSI ? 7 h`: a character past the last column goes to the next row.
    Wrap,
}

/// Returns the number of a colour among the codes of SGR.
fn color_number(color: Color) -> u8
    ensures { result ≡ color_number color }
{
    match color {
        Color::Black => 0,
        Color::Red => 1,
        Color::Green => 2,
        Color::Yellow => 3,
        Color::White => 7,
        Color::LightRed => 61,
    }
}

/// Returns the code of a colour of characters.
fn foreground_code(color: Color) -> u8
    ensures { result ≡ 30 + color_number color }
{
    30 + color_number(color)
}

/// Returns the code of a colour behind characters.
fn background_code(color: Color) -> u8
    ensures { result ≡ 40 + color_number color }
{
    40 + color_number(color)
}

/// Appends a number in decimal. Fails if out of memory.
fn push_number(out: &mut Vec<u8>, number: u32) -> Result<(), AllocError>
    ensures ok { OnOk result (out.new.items ≡ out.old.items ++ decimal number) }
    ensures kept { IsPrefix out.old.items out.new.items }
{
    let mut digits = Buffer::new();
    out.extend_from_slice(digits.format(number).as_bytes())?;
    Ok(())
}

/// Appends a code behind a `;`, if there is one. Fails if out of memory.
fn push_code(out: &mut Vec<u8>, code: Option<u8>) -> Result<(), AllocError>
    ensures ok { OnOk result (out.new.items ≡ out.old.items ++ code_parameter code) }
    ensures kept { IsPrefix out.old.items out.new.items }
{
    let Some(code) = code else {
        return Ok(());
    };
    out.push(b';')?;
    push_number(out, u32::from(code))
}

/// Appends the parameters that set a style. Fails if out of memory.
fn push_style_parameters(out: &mut Vec<u8>, style: Style) -> Result<(), AllocError>
    ensures ok { OnOk result (out.new.items ≡ out.old.items ++ style_parameters style) }
    ensures kept { IsPrefix out.old.items out.new.items }
{
    out.push(b'0')?;
    push_code(out, style.bold.then_some(1))?;
    push_code(out, style.foreground.map(foreground_code))?;
    push_code(out, style.background.map(background_code))
}

/// Appends the parameters of a motion. Fails if out of memory.
fn push_move_parameters(out: &mut Vec<u8>, row: u16, column: u16) -> Result<(), AllocError>
    ensures ok { OnOk result (out.new.items ≡ out.old.items ++ move_parameters row column) }
    ensures kept { IsPrefix out.old.items out.new.items }
{
    push_number(out, u32::from(row) + 1)?;
    out.push(b';')?;
    push_number(out, u32::from(column) + 1)
}

/// Appends the bytes of a sign. Fails if out of memory.
pub(crate) fn push_sign(out: &mut Vec<u8>, sign: Sign) -> Result<(), AllocError>
    ensures ok { OnOk result (out.new.items ≡ out.old.items ++ spelling_of sign) }
    ensures kept { IsPrefix out.old.items out.new.items }
{
    match sign {
        Sign::Char(c) => {
            let mut buffer = [0; 4];
            out.extend_from_slice(c.encode_utf8(&mut buffer).as_bytes())?;
        }
        Sign::MoveTo(row, column) => {
            out.extend_from_slice(b"\x1b[")?;
            push_move_parameters(out, row, column)?;
            out.push(b'H')?;
        }
        Sign::SetStyle(style) => {
            out.extend_from_slice(b"\x1b[")?;
            push_style_parameters(out, style)?;
            out.push(b'm')?;
        }
        Sign::EraseScreen => out.extend_from_slice(b"\x1b[2J")?,
        Sign::EnterAlternate => out.extend_from_slice(b"\x1b[?1049h")?,
        Sign::LeaveAlternate => out.extend_from_slice(b"\x1b[?1049l")?,
        Sign::HideCursor => out.extend_from_slice(b"\x1b[?25l")?,
        Sign::ShowCursor => out.extend_from_slice(b"\x1b[?25h")?,
        Sign::NoWrap => out.extend_from_slice(b"\x1b[?7l")?,
        Sign::Wrap => out.extend_from_slice(b"\x1b[?7h")?,
    }
    Ok(())
}

/// Appends the bytes of signs. Fails if out of memory.
pub(crate) fn push_signs(out: &mut Vec<u8>, signs: &[Sign]) -> Result<(), AllocError>
    ensures ok { OnOk result (out.new.items ≡ out.old.items ++ spelling signs.now) }
    ensures kept { IsPrefix out.old.items out.new.items }
{
    for sign in signs {
        push_sign(out, *sign)?;
    }
    Ok(())
}

/// Returns the bytes that spell the signs.
///
/// `Memory`: out of memory.
pub fn spell(alloc: Global, signs: &[Sign]) -> Result<Vec<u8>, Refusal>
    ensures ok { IfOk result (λ bytes. bytes.items ≡ spelling signs.now) }
    ensures reason { IsOkUnless result Refusal.Memory }
{
    let mut out = Vec::new(alloc);
    push_signs(&mut out, signs)?;
    Ok(out)
}
