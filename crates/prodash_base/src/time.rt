//! Moments, clocks, and moments as texts.
ghost use Rattle.std.specs.Prelude.{◌≡◌, ◌/◌, pos, length, unsigned_abs, OnOk, IfOk, string_bytes, IsOkUnless};
ghost use Rattle.prodash_base.specs.plumbing.Pushing.{Pushes};
ghost use Rattle.prodash_base.specs.plumbing.Dates.{calendar_date};
ghost use Rattle.jiff_core.specs.Date.{epoch_day};
ghost use Rattle.prodash_base.specs.Moments.{IsDateTimeText, seconds_of, day_of, date_text, clock_text, time_text};

use crate::appending::{push_ascii, push_last_digits};
use crate::refusal::Refusal;
use jiff_core::civil::{Date, DateTime};
use std::alloc::{AllocError, Global};

/// A point in time: nanoseconds since 1970-01-01T00:00:00 in UTC.
pub type Moment = u64;

/// The length in bytes of the text of a time of day, such as `23:34:33`.
pub const DATE_TIME_HMS: usize = 8;

/// Tells the time and sleeps. Contracts say neither which moment a clock returns nor how long it
/// sleeps.
pub trait Clock {
    /// Returns the moment now.
    fn now(&self) -> Moment;

    /// Sleeps for `nanoseconds`.
    fn sleep(&self, nanoseconds: u64);
}

/// Returns the time of day of a moment in UTC, as `23:34:33`. Fractions of a second are dropped.
///
/// # Errors
///
/// `Memory`, if out of memory.
pub fn format_time_for_messages(alloc: Global, at: Moment) -> Result<String, Refusal>
    ensures ok { IfOk result (λ text. string_bytes text ≡ time_text at) }
    ensures length { IfOk result (λ text. length (string_bytes text) ≡ DATE_TIME_HMS) }
    ensures reason { IsOkUnless result Refusal.Memory }
{
    let mut time = String::new(alloc);
    push_clock(&mut time, at / NANOSECONDS_PER_SECOND)?;
    Ok(time)
}

/// Returns the date and the time of day of a moment in UTC, as `2554-07-21T23:34:33`. Fractions of
/// a second are dropped.
///
/// # Errors
///
/// `Memory`, if out of memory.
pub fn format_now_datetime_seconds(alloc: Global, at: Moment) -> Result<String, Refusal>
    ensures ok { IfOk result (λ text. IsDateTimeText at (string_bytes text)) }
    ensures reason { IsOkUnless result Refusal.Memory }
{
    let mut text = String::new(alloc);
    push_date(&mut text, date_of(at))?;
    push_ascii(&mut text, b'T')?;
    push_clock(&mut text, at / NANOSECONDS_PER_SECOND)?;
    Ok(text)
}

const NANOSECONDS_PER_SECOND: u64 = 1_000_000_000;

/// Returns the date of a moment.
fn date_of(at: Moment) -> Date
    ensures { epoch_day result ≡ pos (day_of at) }
{
    DateTime::from_nanosecond_in_range(i128::from(at)).date
}

/// Appends a date, as `2554-07-21`.
fn push_date(out: &mut String, date: Date) -> Result<(), AllocError>
    ensures { Pushes result out.old (date_text (calendar_date date)) out.new }
{
    push_last_digits(out, 4, u128::from(date.year.unsigned_abs()))?;
    push_ascii(out, b'-')?;
    push_last_digits(out, 2, u128::from(date.month))?;
    push_ascii(out, b'-')?;
    push_last_digits(out, 2, u128::from(date.day))
}

/// Appends the time of day of a second since 1970, as `23:34:33`.
fn push_clock(out: &mut String, seconds: u64) -> Result<(), AllocError>
    ensures { Pushes result out.old (clock_text seconds) out.new }
{
    push_last_digits(out, 2, u128::from(seconds / 3600 % 24))?;
    push_ascii(out, b':')?;
    push_last_digits(out, 2, u128::from(seconds / 60 % 60))?;
    push_ascii(out, b':')?;
    push_last_digits(out, 2, u128::from(seconds % 60))
}
