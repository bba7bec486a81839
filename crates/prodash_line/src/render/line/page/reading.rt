//! Reads bytes as signs.
ghost use Rattle.std.specs.Prelude.{◌≡◌, ◌++◌, length, drop, MatchOption};
ghost use Rattle.std.specs.Char.{encode_utf8};
ghost use Rattle.std.specs.List.{prefix_len};
ghost use Rattle.prodash_line.specs.Reading.{Reads, GivesSpelled};
ghost use Rattle.prodash_line.specs.plumbing.SignReading.{NoCharAt, NoSignAt, IsSignAt, NoSequenceAt, IsSequenceAt, NoLongerText, NoNumber, IsNumber, NoStyle, IsStyle, MakesSign, is_parameter};

use super::codes::with_code;
use super::sign::Sign;
use super::style::Style;
use std::alloc::{AllocError, AllocFailed, Global};

/// Why bytes could not be read as signs.
#[derive(Clone, Copy, Debug, PartialEq, Eq)]
pub enum Fault {
    /// The bytes before this index spell signs, and no sign begins at it.
    At(usize),
    /// Out of memory.
    Memory,
}

impl From<AllocError> for Fault {
    ghost use Rattle.prodash_line.specs.declared.render.line.page.reading.Fault.TheVariants.{Memory};

    ghost from_gives = { λ _ e. e ≡ Memory };

    fn from(_error: AllocError) -> Fault {
        Fault::Memory
    }
}

impl<T: Drop> From<AllocFailed<T>> for Fault {
    ghost use Rattle.prodash_line.specs.declared.render.line.page.reading.Fault.TheVariants.{Memory};

    ghost from_gives = { λ _ e. e ≡ Memory };

    fn from(_error: AllocFailed<T>) -> Fault {
        Fault::Memory
    }
}

/// Returns the longest prefix that is text.
fn text_prefix(bytes: &[u8]) -> &str
    ensures begins { bytes.now ≡ result.now ++ drop (length result.now) bytes.now }
    ensures longest { NoLongerText bytes.now (length result.now) }
{
    match str::from_utf8(bytes) {
        Ok(text) => text,
        Err(error) => match str::from_utf8(&bytes[..error.valid_up_to()]) {
            Ok(text) => text,
            Err(_) => unreachable!(),
        },
    }
}

/// Returns the character that the bytes begin with, and the bytes after it.
fn char_at(bytes: &[u8]) -> Option<(char, &[u8])>
    ensures { MatchOption result (NoCharAt bytes.now)
        (λ x. bytes.now ≡ encode_utf8 x.0 ++ x.1.now) }
{
    let prefix = &bytes[..bytes.len().min(4)];
    let c = text_prefix(prefix).chars().next()?;
    Some((c, &bytes[c.len_utf8()..]))
}

/// Returns the number from 1 to 65535 that the digits spell, without leading zeros.
fn number_of(digits: &[u8]) -> Option<u16>
    ensures { MatchOption result (NoNumber digits.now) (IsNumber digits.now) }
{
    if digits.is_empty() || digits[0] <= b'0' {
        return None;
    }
    str::from_utf8(digits).ok()?.parse::<u16>().ok()
}

/// Returns the style whose codes these are, which has at least one.
fn style_of(parameters: &[u8]) -> Option<Style>
    ensures { MatchOption result (NoStyle parameters.now) (IsStyle parameters.now) }
{
    let mut style = Style::new();
    for digits in parameters.split(|b| *b == b';') {
        style = with_code(style, number_of(digits)?)?;
    }
    Some(style)
}

/// Returns the sign whose sequence has these parameters and this final byte.
fn sign_of(parameters: &[u8], final_byte: u8) -> Option<Sign>
    ensures { MakesSign parameters.now final_byte result }
{
    let is_two = parameters == b"2".as_slice();
    let is_cursor = parameters == b"?25".as_slice();
    let is_wrap = parameters == b"?7".as_slice();
    let is_update = parameters == b"?2026".as_slice();
    let is_zero = parameters == b"0".as_slice();
    match final_byte {
        b'A' => Some(Sign::Up(number_of(parameters)?)),
        b'K' if is_two => Some(Sign::EraseLine),
        b'l' if is_cursor => Some(Sign::HideCursor),
        b'l' if is_wrap => Some(Sign::NoWrap),
        b'l' if is_update => Some(Sign::EndUpdate),
        b'h' if is_cursor => Some(Sign::ShowCursor),
        b'h' if is_wrap => Some(Sign::Wrap),
        b'h' if is_update => Some(Sign::BeginUpdate),
        b'm' if is_zero => Some(Sign::Reset),
        b'm' => Some(Sign::Open(style_of(parameters)?)),
        b'J' if parameters.is_empty() => Some(Sign::EraseBelow),
        _ => None,
    }
}

fn is_parameter(byte: u8) -> bool
    ensures { result ≡ is_parameter byte }
{
    matches!(byte, b'0'..=b'?')
}

/// Returns how many parameter bytes the bytes begin with.
fn parameters_len(bytes: &[u8]) -> usize
    ensures { result ≡ prefix_len is_parameter bytes.now }
{
    bytes.iter().take_while(|b| is_parameter(**b)).count()
}

/// Returns the sign whose sequence begins with `ESC [` and goes on with these bytes, and the bytes
/// after it.
fn sequence_at(bytes: &[u8]) -> Option<(Sign, &[u8])>
    ensures { MatchOption result (NoSequenceAt bytes.now)
        (λ x. IsSequenceAt bytes.now x.0 x.1.now) }
{
    let len = parameters_len(bytes);
    if len >= bytes.len() {
        return None;
    }
    let sign = sign_of(&bytes[..len], bytes[len])?;
    Some((sign, &bytes[len + 1..]))
}

/// Returns the sign that the bytes begin with, and the bytes after it.
fn sign_at(bytes: &[u8]) -> Option<(Sign, &[u8])>
    ensures { MatchOption result (NoSignAt bytes.now) (λ x. IsSignAt bytes.now x.0 x.1.now) }
{
    if bytes.is_empty() {
        return None;
    }
    match bytes[0] {
        b'\n' => Some((Sign::LineFeed, &bytes[1..])),
        b'\r' => Some((Sign::CarriageReturn, &bytes[1..])),
        0x1b => sequence_at(bytes.strip_prefix(b"\x1b[")?),
        _ => {
            let (c, rest) = char_at(bytes)?;
            if c.is_control() {
                return None;
            }
            Some((Sign::Char(c), rest))
        }
    }
}

/// Reads bytes as signs.
///
/// ```rust
/// // A character, a line feed, and up by one row.
/// let signs = read(alloc, b"a\n\x1b[1A")?;
/// // `At(1)`: a tab is no sign.
/// let fault = read(alloc, b"a\t");
/// ```
///
/// `At(n)`: the first `n` bytes are the longest prefix that signs spell. `Memory`: out of memory.
pub fn read(alloc: Global, bytes: &[u8]) -> Result<Vec<Sign>, Fault>
    // What is read are proper signs that spell the bytes, and a fault is at the end of the longest
    // prefix that such signs spell.
    ensures reads { Reads bytes.now result }
    // If proper signs spell the bytes, they are read, unless it is out of memory.
    ensures only { GivesSpelled bytes.now result }
{
    let mut signs = Vec::new(alloc);
    let mut rest = bytes;
    while !rest.is_empty() {
        match sign_at(rest) {
            Some((sign, more)) => {
                signs.push(sign)?;
                rest = more;
            }
            None => return Err(Fault::At(bytes.len() - rest.len())),
        }
    }
    Ok(signs)
}
