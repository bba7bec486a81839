//! The message that says how fast steps were done.
ghost use Rattle.std.specs.Prelude.{◌≡◌, OnOk, IfOk, codes, option_copied, string_bytes, IsOkUnless};
ghost use Rattle.prodash_base.specs.plumbing.Pushing.{Pushes};
ghost use Rattle.prodash_base.specs.ThroughputMessages.{rate_of, seconds_text, amount_text, done_text, message_text, done_message};

use super::display::values::{push_spaced_unit, push_value};
use super::{DisplayValue, Unit};
use crate::appending::{push_ascii, push_decimal, push_last_digits, push_text};
use crate::progress::Step;
use crate::refusal::Refusal;
use crate::time::Moment;
use std::alloc::{AllocError, Global};

/// Returns the message that says how fast steps were done, as
/// `done 10 items in 2.50s (4 items/s)`. Steps are shown in `unit`, or as plain `items` if there is
/// none. The time from `start` to `now` is in seconds, rounded to hundredths, halves rounded up,
/// and is 0 if `now` is before `start`. The steps in a second are rounded down and are at most
/// 2^64 - 1. In a time of 0 they are 0 if no step was done, and else 2^64 - 1.
///
/// # Errors
///
/// `Refusal::Memory` if out of memory.
pub fn throughput_message(
    alloc: Global,
    start: Moment,
    now: Moment,
    step: Step,
    unit: Option<&Unit>,
) -> Result<String, Refusal>
    ensures ok { IfOk result (λ s.
        string_bytes s ≡ done_message (option_copied unit.entry) step start now) }
    ensures reason { IsOkUnless result Refusal.Memory }
{
    let mut text = String::new(alloc);
    let elapsed = now.saturating_sub(start);
    match unit {
        None => push_message(&"items", &mut text, step, elapsed)?,
        Some(unit) => push_message(&unit.kind, &mut text, step, elapsed)?,
    }
    Ok(text)
}

/// Returns the steps in a second, rounded down, at most 2^64 - 1.
fn rate_of(step: Step, nanoseconds: u64) -> u64
    ensures { result ≡ rate_of step nanoseconds }
{
    if nanoseconds == 0 {
        return if step == 0 { 0 } else { u64::MAX };
    }
    let rate = u128::from(step) * 1_000_000_000 / u128::from(nanoseconds);
    rate.min(u128::from(u64::MAX)) as u64
}

/// Appends a number of nanoseconds in seconds, as `2.50`.
fn push_seconds(out: &mut String, nanoseconds: u64) -> Result<(), AllocError>
    ensures { Pushes result out.old (seconds_text nanoseconds) out.new }
{
    let hundredths = (u128::from(nanoseconds) + 5_000_000) / 10_000_000;
    push_decimal(out, (hundredths / 100) as u64)?;
    push_ascii(out, b'.')?;
    push_last_digits(out, 2, hundredths)
}

/// Appends a value, and the unit of a number of steps, as `10 items`.
fn push_amount<K: DisplayValue>(
    kind: &K,
    out: &mut String,
    value: Step,
    step: Step,
) -> Result<(), AllocError>
    ensures { Pushes result out.old (amount_text (K.shown kind.now) value step) out.new }
{
    push_value(kind, out, value, None)?;
    push_spaced_unit(kind, out, step)
}

/// Appends what was done, and how long it took, as `done 10 items in 2.50`.
fn push_done<K: DisplayValue>(
    kind: &K,
    out: &mut String,
    step: Step,
    nanoseconds: u64,
) -> Result<(), AllocError>
    ensures { Pushes result out.old (done_text (K.shown kind.now) step nanoseconds) out.new }
{
    push_text(out, "done ")?;
    push_amount(kind, out, step, step)?;
    push_text(out, " in ")?;
    push_seconds(out, nanoseconds)
}

/// Appends the whole message.
fn push_message<K: DisplayValue>(
    kind: &K,
    out: &mut String,
    step: Step,
    nanoseconds: u64,
) -> Result<(), AllocError>
    ensures { Pushes result out.old (message_text (K.shown kind.now) step nanoseconds) out.new }
{
    push_done(kind, out, step, nanoseconds)?;
    push_text(out, "s (")?;
    push_amount(kind, out, rate_of(step, nanoseconds), step)?;
    push_text(out, "/s)")
}
