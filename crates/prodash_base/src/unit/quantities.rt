//! Percentages, bytes, large numbers and durations.
ghost use Rattle.std.specs.Prelude.{◌≡◌, ◌<◌, ◌≤◌, codes, IfSome, ◌∷◌, [], OnOk, OnErr, string_bytes};
ghost use Rattle.prodash_base.specs.Appending.{Appends};
ghost use Rattle.prodash_base.specs.plumbing.Durations.{hours_text};
ghost use Rattle.prodash_base.specs.plumbing.Pushing.{Pushes};
ghost use Rattle.prodash_base.specs.Quantities.{percentage_of, scale_of, scaled, bytes_text, human_text, duration_part, duration_text};

use crate::appending::{
    push_ascii, push_below_100_and, push_cut, push_decimal, push_text, undo_if_refused,
};
use std::alloc::AllocError;

/// Returns how many hundredths of the bound the value is, rounded down, at most 2^64 - 1. With the
/// bound 0 it is 0 for the value 0, and else 2^64 - 1.
pub(super) fn percentage_of(value: u64, bound: u64) -> u64
    ensures { result ≡ percentage_of value bound }
{
    if bound == 0 {
        return if value == 0 { 0 } else { u64::MAX };
    }
    match value.checked_mul(100) {
        Some(hundredfold) => hundredfold / bound,
        None => large_percentage_of(value, bound),
    }
}

/// Does what `percentage_of` does for a large value.
#[cold]
#[inline(never)]
fn large_percentage_of(value: u64, bound: u64) -> u64
    requires { 0 < bound }
    ensures { result ≡ percentage_of value bound }
{
    let percentage = 100 * u128::from(value) / u128::from(bound);
    percentage.min(u128::from(u64::MAX)) as u64
}

/// Returns the greatest power of 1000 that is at most `n`, with its letter, or `None` if `n` is
/// less than 1000.
fn scale_of(n: u64) -> Option<(u64, u8)>
    ensures value { result ≡ scale_of n }
    ensures power { IfSome result (λ s. 0 < s.0) }
    ensures ascii { IfSome result (λ s. s.1 < 128) }
{
    match n {
        0..1_000 => None,
        1_000..1_000_000 => Some((1_000, b'k')),
        1_000_000..1_000_000_000 => Some((1_000_000, b'M')),
        1_000_000_000..1_000_000_000_000 => Some((1_000_000_000, b'G')),
        1_000_000_000_000..1_000_000_000_000_000 => Some((1_000_000_000_000, b'T')),
        1_000_000_000_000_000..1_000_000_000_000_000_000 => Some((1_000_000_000_000_000, b'P')),
        _ => Some((1_000_000_000_000_000_000, b'E')),
    }
}

/// Appends a number over its scale with exactly as many decimals as `places`, and the letter; or
/// the number as it is if it is less than 1000.
#[inline(always)]
fn push_scaled(out: &mut String, places: u8, n: u64) -> Result<(), AllocError>
    requires { places ≤ 6 }
    ensures { Pushes result out.old (scaled places n (scale_of n)) out.new }
{
    let Some((power, letter)) = scale_of(n) else {
        return push_decimal(out, n);
    };
    push_cut(out, places, n, power)?;
    push_ascii(out, letter)
}

/// Appends a number of bytes, as `18.4EB`.
fn push_bytes(out: &mut String, n: u64) -> Result<(), AllocError>
    ensures { Pushes result out.old (bytes_text n) out.new }
{
    if n < 100 {
        return push_below_100_and(out, n, b'B');
    }
    push_scaled(out, 1, n)?;
    push_ascii(out, b'B')
}

/// Appends a number of bytes, as `18.4EB`, or nothing.
pub(super) fn append_bytes(out: &mut String, n: u64) -> Result<(), AllocError>
    ensures ok { OnOk result (Appends out.old (bytes_text n) out.new) }
    ensures err { OnErr result (string_bytes out.new ≡ string_bytes out.old) }
{
    let length = out.len();
    let appended = push_bytes(out, n);
    undo_if_refused(out, length, appended)
}

/// Appends a large number, as `2.54M`, or nothing. More than six decimals count as six.
pub(super) fn append_human(out: &mut String, decimals: u8, n: u64) -> Result<(), AllocError>
    ensures ok { OnOk result (Appends out.old (human_text decimals n) out.new) }
    ensures err { OnErr result (string_bytes out.new ≡ string_bytes out.old) }
{
    let length = out.len();
    let appended = push_scaled(out, decimals.min(6), n);
    undo_if_refused(out, length, appended)
}

/// Appends a number of days, as `7d`; nothing if it is zero.
#[inline(always)]
fn push_days(out: &mut String, n: u64) -> Result<(), AllocError>
    ensures { Pushes result out.old (duration_part n (codes "d")) out.new }
{
    if n == 0 {
        return Ok(());
    }
    push_decimal(out, n)?;
    push_ascii(out, b'd')
}

/// Appends a part of a duration that is below 100, as `20m`; nothing if it is zero.
#[inline(always)]
fn push_duration_part(out: &mut String, n: u64, letter: u8) -> Result<(), AllocError>
    requires small { n < 100 }
    requires ascii { letter < 128 }
    ensures { Pushes result out.old (duration_part n (letter ∷ [])) out.new }
{
    if n == 0 {
        return Ok(());
    }
    push_below_100_and(out, n, letter)
}

/// Appends a number of hours in days and hours, as `7d4h`; nothing if it is zero.
#[inline(always)]
fn push_hours(out: &mut String, n: u64) -> Result<(), AllocError>
    ensures { Pushes result out.old (hours_text n) out.new }
{
    if n == 0 {
        return Ok(());
    }
    push_days_and_hours(out, n)
}

/// Does what `push_hours` does if there are some.
#[inline(never)]
fn push_days_and_hours(out: &mut String, n: u64) -> Result<(), AllocError>
    ensures { Pushes result out.old (hours_text n) out.new }
{
    push_days(out, n / 24)?;
    push_duration_part(out, n % 24, b'h')
}

/// Appends a number of seconds, as `7d4h20m10s`.
fn push_duration(out: &mut String, n: u64) -> Result<(), AllocError>
    ensures { Pushes result out.old (duration_text n) out.new }
{
    if n == 0 {
        return push_text(out, "0s");
    }
    push_hours(out, n / 3600)?;
    push_duration_part(out, n / 60 % 60, b'm')?;
    push_duration_part(out, n % 60, b's')
}

/// Appends a number of seconds, as `7d4h20m10s`, or nothing.
pub(super) fn append_duration(out: &mut String, n: u64) -> Result<(), AllocError>
    ensures ok { OnOk result (Appends out.old (duration_text n) out.new) }
    ensures err { OnErr result (string_bytes out.new ≡ string_bytes out.old) }
{
    let length = out.len();
    let appended = push_duration(out, n);
    undo_if_refused(out, length, appended)
}
