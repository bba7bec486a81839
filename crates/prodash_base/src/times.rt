//! Lengths of time as texts, and how long work still takes.
ghost use Rattle.std.specs.Prelude.{◌≡◌, ◌<◌, ◌∷◌, ◌++◌, [], IfOk, OnOk, string_bytes};
ghost use Rattle.prodash_base.specs.Appending.{Appends};
ghost use Rattle.prodash_base.specs.Numerals.{last_digits};
ghost use Rattle.prodash_base.specs.plumbing.Pushing.{Pushes};
ghost use Rattle.prodash_base.specs.Times.{seconds_text, duration_text, hours_text, stopwatch_text, rounded_up, remaining_seconds, is_past, finished_at};

use crate::appending::{
    push_ascii, push_below_100, push_decimal, push_last_digits, push_text, push_two_digits,
};
use crate::progress::Step;
use std::alloc::{AllocError, Global};

/// Returns a number of seconds in its two largest units, rounded down, as `42s` or `2m10s`. Fails
/// if out of memory.
pub fn seconds_text(alloc: Global, seconds: u64) -> Result<String, AllocError>
    ensures { IfOk result (λ text. string_bytes text ≡ seconds_text seconds) }
{
    let mut text = String::new(alloc);
    push_seconds(&mut text, seconds)?;
    Ok(text)
}

/// Returns a number of nanoseconds, rounded down: below ten seconds with tenths, as `3.2s`. Fails
/// if out of memory.
pub fn duration_text(alloc: Global, nanoseconds: u64) -> Result<String, AllocError>
    ensures { IfOk result (λ text. string_bytes text ≡ duration_text nanoseconds) }
{
    let mut text = String::new(alloc);
    push_duration(&mut text, nanoseconds)?;
    Ok(text)
}

/// Returns a number of nanoseconds as the time on a stopwatch, as `[00:42]` or `[1:02:03]`. Fails
/// if out of memory.
pub fn stopwatch_text(alloc: Global, nanoseconds: u64) -> Result<String, AllocError>
    ensures { IfOk result (λ text. string_bytes text ≡ stopwatch_text nanoseconds) }
{
    let mut text = String::new(alloc);
    push_stopwatch(&mut text, nanoseconds)?;
    Ok(text)
}

/// The greatest number of seconds that is said of work that is left: 99 days.
const MOST_REMAINING: u64 = 99 * 86400;

/// Returns the seconds that `left` steps still take, rounded up, if `done` steps took so many
/// nanoseconds: at most 99 days, and `None` if no step was done.
pub fn remaining_seconds(left: Step, done: Step, nanoseconds: u64) -> Option<u64>
    ensures { result ≡ remaining_seconds left done nanoseconds }
{
    if done == 0 {
        return None;
    }
    let work = u128::from(left) * u128::from(nanoseconds);
    let seconds = rounded_up(work, u128::from(done) * 1_000_000_000);
    Some(seconds.min(u128::from(MOST_REMAINING)) as u64)
}

/// Returns whether a step is at its bound or past it.
pub fn is_past(step: Step, bound: Option<Step>) -> bool
    ensures { result ≡ is_past step bound }
{
    match bound {
        None => false,
        Some(bound) => bound <= step,
    }
}

/// Returns when a task was first seen at its bound, if it is there: when it was before, or now.
pub fn finished_at(is_done: bool, before: Option<u64>, now: u64) -> Option<u64>
    ensures { result ≡ finished_at is_done before now }
{
    if is_done {
        Some(before.unwrap_or(now))
    } else {
        None
    }
}

/// Returns a quotient rounded up.
fn rounded_up(a: u128, b: u128) -> u128
    requires { 0 < b }
    ensures { result ≡ rounded_up a b }
{
    match (u64::try_from(a), u64::try_from(b)) {
        // a division of 64 bits is much quicker than one of 128
        (Ok(a), Ok(b)) => u128::from(a.div_ceil(b)),
        _ => a.div_ceil(b),
    }
}

/// Appends a number of seconds in its two largest units, rounded down.
pub(crate) fn push_seconds(out: &mut String, seconds: u64) -> Result<(), AllocError>
    ensures { Pushes result out.old (seconds_text seconds) out.new }
{
    if seconds < 60 {
        push_below_100(out, seconds)?;
        push_ascii(out, b's')
    } else if seconds < 3600 {
        push_below_100(out, seconds / 60)?;
        push_part(out, b'm', seconds % 60, b's')
    } else if seconds < 86400 {
        push_below_100(out, seconds / 3600)?;
        push_part(out, b'h', seconds / 60 % 60, b'm')
    } else {
        push_decimal(out, seconds / 86400)?;
        push_part(out, b'd', seconds / 3600 % 24, b'h')
    }
}

/// Appends the letter of a unit, and a number of the next smaller unit in two digits, with its
/// letter.
fn push_part(out: &mut String, unit: u8, n: u64, smaller: u8) -> Result<(), AllocError>
    requires below { n < 100 }
    requires unit { unit < 128 }
    requires smaller { smaller < 128 }
    ensures { Pushes result out.old (unit ∷ (last_digits 2 n ++ smaller ∷ [])) out.new }
{
    push_ascii(out, unit)?;
    push_two_digits(out, n)?;
    push_ascii(out, smaller)
}

/// Appends a number of nanoseconds, rounded down: below ten seconds with tenths.
fn push_duration(out: &mut String, nanoseconds: u64) -> Result<(), AllocError>
    ensures { Pushes result out.old (duration_text nanoseconds) out.new }
{
    let seconds = nanoseconds / 1_000_000_000;
    if nanoseconds >= 10_000_000_000 {
        return push_seconds(out, seconds);
    }
    push_decimal(out, seconds)?;
    push_text(out, ".")?;
    push_decimal(out, nanoseconds / 100_000_000 % 10)?;
    push_text(out, "s")
}

/// Appends a number of nanoseconds as the time on a stopwatch.
fn push_stopwatch(out: &mut String, nanoseconds: u64) -> Result<(), AllocError>
    ensures { Pushes result out.old (stopwatch_text nanoseconds) out.new }
{
    let seconds = nanoseconds / 1_000_000_000;
    push_text(out, "[")?;
    push_hours(out, seconds)?;
    push_last_digits(out, 2, u128::from(seconds / 60 % 60))?;
    push_text(out, ":")?;
    push_last_digits(out, 2, u128::from(seconds % 60))?;
    push_text(out, "]")
}

/// Appends whole hours and a colon, or nothing below an hour.
fn push_hours(out: &mut String, seconds: u64) -> Result<(), AllocError>
    ensures { Pushes result out.old (hours_text seconds) out.new }
{
    if seconds < 3600 {
        return Ok(());
    }
    push_decimal(out, seconds / 3600)?;
    push_text(out, ":")
}
