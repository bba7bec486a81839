//! Texts and numerals that are appended to a string.
//!
//! A call named `push_..` that runs out of memory may have appended a part of its text, and leaves
//! what the string held before. A call named `append_..` appends its whole text or nothing.
ghost use Rattle.std.specs.Prelude.{◌≡◌, ◌+◌, ◌*◌, ◌/◌, ◌%◌, ◌^◌, ◌<◌, ◌≤◌, ◌∷◌, [], ◌++◌, max, min, OnOk, OnErr, string_bytes, take};
ghost use Rattle.prodash_base.specs.Appending.{Appends};
ghost use Rattle.prodash_base.specs.plumbing.Pushing.{Pushes};
ghost use Rattle.std.specs.Fmt.{decimal};
ghost use Rattle.std.specs.Str.{IsAscii};
ghost use Rattle.std.specs.String.Boundary.{IsSplitPoint};
ghost use Rattle.prodash_base.specs.Numerals.{last_digits, without_zeros, after_point, cut, fraction_text};

use itoa::Buffer;
use std::alloc::AllocError;
use std::str;

/// Truncates the string to the length that it had before a call that appended to it, if that call
/// was refused. Returns what the call returned.
pub(crate) fn undo_if_refused(
    out: &mut String,
    length: usize,
    appended: Result<(), AllocError>,
) -> Result<(), AllocError>
    requires { IsSplitPoint (string_bytes out.old) length }
    ensures same { result ≡ appended }
    ensures ok { OnOk result (string_bytes out.new ≡ string_bytes out.old) }
    ensures err { OnErr result (string_bytes out.new ≡ take length (string_bytes out.old)) }
{
    if appended.is_err() {
        out.truncate(length);
    }
    appended
}

/// Appends a text.
#[inline(always)]
pub(crate) fn push_text(out: &mut String, text: &str) -> Result<(), AllocError>
    ensures { Pushes result out.old text.now out.new }
{
    out.push_str(text)
}

/// Appends an ASCII character.
#[inline(always)]
pub(crate) fn push_ascii(out: &mut String, byte: u8) -> Result<(), AllocError>
    requires { byte < 128 }
    ensures { Pushes result out.old (byte ∷ []) out.new }
{
    out.push(byte as char)
}

/// Appends ASCII characters.
#[inline(always)]
pub(crate) fn push_ascii_bytes(out: &mut String, bytes: &[u8]) -> Result<(), AllocError>
    requires { IsAscii bytes.now }
    ensures { Pushes result out.old bytes.now out.new }
{
    out.push_str(unsafe { str::from_utf8_unchecked(bytes) })
}

/// Appends a number in decimal digits.
#[inline(always)]
pub(crate) fn push_decimal(out: &mut String, n: u64) -> Result<(), AllocError>
    ensures { Pushes result out.old (decimal n) out.new }
{
    if n < 100 {
        return push_below_100(out, n);
    }
    push_from_100(out, n)
}

/// Does what `push_decimal` does for a number from 100 on.
#[inline(never)]
fn push_from_100(out: &mut String, n: u64) -> Result<(), AllocError>
    requires { 100 ≤ n }
    ensures { Pushes result out.old (decimal n) out.new }
{
    if n < 10_000 {
        push_below_100(out, n / 100)?;
        return push_two_digits(out, n % 100);
    }
    push_large(out, n)
}

/// Does what `push_decimal` does for a large number.
#[cold]
#[inline(never)]
fn push_large(out: &mut String, n: u64) -> Result<(), AllocError>
    ensures { Pushes result out.old (decimal n) out.new }
{
    push_text(out, Buffer::new().format(n))
}

/// Appends a number in decimal digits, or nothing if out of memory.
#[inline(always)]
pub(crate) fn append_decimal(out: &mut String, n: u128) -> Result<(), AllocError>
    ensures ok { OnOk result (Appends out.old (decimal n) out.new) }
    ensures err { OnErr result (string_bytes out.new ≡ string_bytes out.old) }
{
    let Ok(n) = u64::try_from(n) else {
        return out.push_str(Buffer::new().format(n));
    };
    let length = out.len();
    let appended = push_decimal(out, n);
    undo_if_refused(out, length, appended)
}

/// Appends a number below 100 in decimal digits.
#[inline(always)]
pub(crate) fn push_below_100(out: &mut String, n: u64) -> Result<(), AllocError>
    requires { n < 100 }
    ensures { Pushes result out.old (decimal n) out.new }
{
    if n >= 10 {
        return push_two_digits(out, n);
    }
    push_ascii(out, b'0' + n as u8)
}

/// Appends a number below 100 in decimal digits, and an ASCII character.
#[inline(always)]
pub(crate) fn push_below_100_and(out: &mut String, n: u64, byte: u8) -> Result<(), AllocError>
    requires small { n < 100 }
    requires ascii { byte < 128 }
    ensures { Pushes result out.old (decimal n ++ byte ∷ []) out.new }
{
    if n < 10 {
        return push_ascii_bytes(out, &[b'0' + n as u8, byte]);
    }
    push_ascii_bytes(out, &[b'0' + (n / 10) as u8, b'0' + (n % 10) as u8, byte])
}

/// Appends the two digits of a number below 100, the first of which may be a zero.
#[inline(always)]
pub(crate) fn push_two_digits(out: &mut String, n: u64) -> Result<(), AllocError>
    requires { n < 100 }
    ensures { Pushes result out.old (last_digits 2 n) out.new }
{
    push_ascii_bytes(out, &[b'0' + (n / 10) as u8, b'0' + (n % 10) as u8])
}

/// Returns the last two digits of a number.
#[inline(always)]
fn last_two_digits(n: u128) -> u64
    ensures { result ≡ n % 100 }
{
    match u64::try_from(n) {
        Ok(n) => n % 100,
        Err(_) => (n % 100) as u64,
    }
}

/// Appends the last digits of a number, with leading zeros if it has fewer than `places`.
pub(crate) fn push_last_digits(out: &mut String, places: u8, n: u128) -> Result<(), AllocError>
    ensures { Pushes result out.old (last_digits places n) out.new }
{
    match places {
        0 => Ok(()),
        1 => push_ascii(out, b'0' + (n % 10) as u8),
        2 => push_two_digits(out, last_two_digits(n)),
        _ => {
            push_last_digits(out, places - 1, n / 10)?;
            push_ascii(out, b'0' + (n % 10) as u8)
        }
    }
}

/// Appends a decimal point and the last digits of a number, or nothing if `places` is 0.
pub(crate) fn push_after_point(out: &mut String, places: u8, n: u128) -> Result<(), AllocError>
    ensures { Pushes result out.old (after_point (last_digits places n)) out.new }
{
    if places == 0 {
        return Ok(());
    }
    push_ascii(out, b'.')?;
    push_last_digits(out, places, n)
}

/// Appends a decimal point and the last digits of a number, without the zeros at their end.
pub(crate) fn push_without_zeros(out: &mut String, places: u8, n: u128) -> Result<(), AllocError>
    ensures { Pushes result out.old (after_point (without_zeros (last_digits places n))) out.new }
{
    if places > 0 && n % 10 == 0 {
        push_without_zeros(out, places - 1, n / 10)
    } else {
        push_after_point(out, places, n)
    }
}

/// Appends a quotient with exactly as many decimals as `places`, rounded down.
#[inline(always)]
pub(crate) fn push_cut(out: &mut String, places: u8, a: u64, b: u64) -> Result<(), AllocError>
    requires some { 0 < b }
    requires few { places ≤ 6 }
    ensures { Pushes result out.old (cut places a b) out.new }
{
    push_decimal(out, a / b)?;
    let power = power_of_ten(places);
    match a.checked_mul(power) {
        Some(product) => push_short_after_point(out, places, product / b),
        None => push_after_point(
            out,
            places,
            u128::from(a) * u128::from(power) / u128::from(b),
        ),
    }
}

/// Returns a power of ten.
#[inline(always)]
fn power_of_ten(places: u8) -> u64
    requires { places ≤ 6 }
    ensures { result ≡ 10 ^ places }
{
    match places {
        0 => 1,
        1 => 10,
        2 => 100,
        3 => 1_000,
        4 => 10_000,
        5 => 100_000,
        _ => 1_000_000,
    }
}

/// Does what `push_after_point` does for a number that has 64 bits, and quickly so for at most two
/// places.
#[inline(always)]
fn push_short_after_point(out: &mut String, places: u8, n: u64) -> Result<(), AllocError>
    ensures { Pushes result out.old (after_point (last_digits places n)) out.new }
{
    match places {
        1 => push_ascii_bytes(out, &[b'.', b'0' + (n % 10) as u8]),
        2 => push_ascii_bytes(
            out,
            &[b'.', b'0' + (n / 10 % 10) as u8, b'0' + (n % 10) as u8],
        ),
        _ => push_after_point(out, places, u128::from(n)),
    }
}

/// Appends a quotient with at most three decimals, rounded down, without zeros at the end. The
/// divisor 0 counts as 1.
#[inline(never)]
pub(crate) fn push_fraction(out: &mut String, a: u64, b: u64) -> Result<(), AllocError>
    ensures { Pushes result out.old (fraction_text a b) out.new }
{
    let b = b.max(1);
    push_decimal(out, a / b)?;
    push_without_zeros(out, 3, u128::from(a) * 1000 / u128::from(b))
}
