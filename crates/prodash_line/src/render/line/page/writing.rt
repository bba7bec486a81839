//! Spells signs as bytes.
ghost use Rattle.std.specs.Prelude.{◌≡◌, ◌∷◌, [], ◌++◌, IfOk, IsOkUnless, OnOk};
ghost use Rattle.std.specs.Fmt.{decimal};
ghost use Rattle.prodash_line.specs.Signs.{sequence, spelling, spelling_of};
ghost use Rattle.prodash_line.specs.Styles.{color_code, style_parameters};
ghost use Rattle.prodash_line.specs.declared.render.line.page.sign.Sign.TheVariants.{Open, Reset};

use super::codes::codes_of;
use super::sign::Sign;
use super::style::{Color, Style};
use crate::render::line::byte_buffer::{ByteBuffer, ESCAPE};
use itoa::Buffer;
use prodash_base::Refusal;
use std::alloc::{AllocError, Global};

/// Appends the control sequence that moves the cursor up by `rows` rows. Fails if out of memory.
fn push_up(out: &mut ByteBuffer, rows: u16) -> Result<(), AllocError>
    ensures { OnOk result (out.new ≡ out.old ++ sequence (decimal rows) 65) }
{
    let mut digits = Buffer::new();
    out.extend_from_slice(b"\x1b[")?;
    out.extend_from_slice(digits.format(rows).as_bytes())?;
    out.push(b'A')?;
    Ok(())
}

/// Appends the codes of a style. Fails if out of memory.
fn push_codes(out: &mut ByteBuffer, style: Style) -> Result<(), AllocError>
    ensures { OnOk result (out.new ≡ out.old ++ style_parameters style) }
{
    let mut separator = b"".as_slice();
    for code in codes_of(style) {
        let Some(code) = code else { continue };
        out.extend_from_slice(separator)?;
        let mut digits = Buffer::new();
        out.extend_from_slice(digits.format(code).as_bytes())?;
        separator = b";";
    }
    Ok(())
}

/// Appends the control sequence that begins a style, code by code. Fails if out of memory.
fn push_style(out: &mut ByteBuffer, style: Style) -> Result<(), AllocError>
    ensures { OnOk result (out.new ≡ out.old ++ spelling_of (Open style)) }
{
    out.extend_from_slice(b"\x1b[")?;
    push_codes(out, style)?;
    out.push(b'm')?;
    Ok(())
}

/// Returns the last digit of the code of a colour, whose first is 3.
#[inline]
pub(crate) fn last_digit(color: Color) -> u8
    ensures { decimal (color_code color) ≡ 51 ∷ result ∷ [] }
{
    match color {
        Color::Red => b'1',
        Color::Green => b'2',
        Color::Yellow => b'3',
        Color::Cyan => b'6',
        Color::White => b'7',
    }
}

/// Appends the control sequence that begins a style. Fails if out of memory.
///
/// The sequences of a row's styles are written in one piece.
#[inline(always)]
pub(crate) fn push_open(out: &mut ByteBuffer, style: Style) -> Result<(), AllocError>
    ensures { OnOk result (out.new ≡ out.old ++ spelling_of (Open style)) }
{
    if style.on_yellow {
        return push_style(out, style);
    }
    match (style.bold, style.dim, style.color) {
        (false, false, Some(color)) => {
            out.extend_from_slice(&[ESCAPE, b'[', b'3', last_digit(color), b'm'])
        }
        (true, false, Some(color)) => {
            out.extend_from_slice(&[ESCAPE, b'[', b'1', b';', b'3', last_digit(color), b'm'])
        }
        (false, true, Some(color)) => {
            out.extend_from_slice(&[ESCAPE, b'[', b'2', b';', b'3', last_digit(color), b'm'])
        }
        (true, true, None) => out.extend_from_slice(b"\x1b[1;2m"),
        _ => push_style(out, style),
    }
}

/// Appends the control sequence that ends a style. Fails if out of memory.
pub(crate) fn push_reset(out: &mut ByteBuffer) -> Result<(), AllocError>
    ensures { OnOk result (out.new ≡ out.old ++ spelling_of Reset) }
{
    out.extend_from_slice(b"\x1b[0m")
}

/// Appends the bytes of a sign. Fails if out of memory.
pub(crate) fn push_sign(out: &mut ByteBuffer, sign: Sign) -> Result<(), AllocError>
    ensures { OnOk result (out.new ≡ out.old ++ spelling_of sign) }
{
    match sign {
        Sign::Char(c) => {
            let mut buffer = [0; 4];
            out.extend_from_slice(c.encode_utf8(&mut buffer).as_bytes())
        }
        Sign::LineFeed => out.push(b'\n'),
        Sign::CarriageReturn => out.push(b'\r'),
        Sign::Up(n) => push_up(out, n),
        Sign::EraseLine => out.extend_from_slice(b"\x1b[2K"),
        Sign::EraseBelow => out.extend_from_slice(b"\x1b[J"),
        Sign::HideCursor => out.extend_from_slice(b"\x1b[?25l"),
        Sign::ShowCursor => out.extend_from_slice(b"\x1b[?25h"),
        Sign::NoWrap => out.extend_from_slice(b"\x1b[?7l"),
        Sign::Wrap => out.extend_from_slice(b"\x1b[?7h"),
        Sign::BeginUpdate => out.extend_from_slice(b"\x1b[?2026h"),
        Sign::EndUpdate => out.extend_from_slice(b"\x1b[?2026l"),
        Sign::Open(style) => push_open(out, style),
        Sign::Reset => push_reset(out),
    }
}

/// Returns the bytes that spell the signs.
///
/// `Memory`: out of memory.
pub fn spell(alloc: Global, signs: &[Sign]) -> Result<Vec<u8>, Refusal>
    ensures ok { IfOk result (λ bytes. bytes.items ≡ spelling signs.now) }
    ensures reason { IsOkUnless result Refusal.Memory }
{
    let mut out = ByteBuffer::new(alloc);
    for sign in signs {
        push_sign(&mut out, *sign)?;
    }
    Ok(out.into_vec())
}
