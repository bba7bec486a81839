//! Values of any kind, with their bounds, units, percentages and throughputs, appended to a string.
ghost use Rattle.std.specs.Prelude.{◌≡◌, OnOk, OnErr, string_bytes, IsOkUnless};
ghost use Rattle.prodash_base.specs.Appending.{Appends};
ghost use Rattle.prodash_base.specs.plumbing.Pushing.{Pushes};
ghost use Rattle.prodash_base.specs.Displays.{amount, same_location, percentage_at, throughput_at, placed_percentage, placed_throughput, text_at, bound_text, values_text, unit_text, spaced, all_text, part_text};

use super::{Amount, Location, Mode, Part, Throughput};
use crate::appending::{push_ascii, undo_if_refused};
use crate::progress::Step;
use crate::refusal::Refusal;
use crate::unit::DisplayValue;
use crate::unit::quantities::percentage_of;
use std::alloc::AllocError;

/// Appends a value of any kind in full: the value with its bound, a space and the unit if the unit
/// is not empty, and the percentage and the throughput as `mode` says. There is no percentage
/// without a bound.
///
/// # Errors
///
/// `Refusal::Memory` if out of memory. Then `out` is unchanged.
pub fn append<K: DisplayValue>(
    out: &mut String,
    kind: &K,
    mode: Option<Mode>,
    value: Step,
    bound: Option<Step>,
    throughput: Option<Throughput>,
) -> Result<(), Refusal>
    ensures ok { OnOk result
        (Appends out.old (all_text (K.shown kind.now) mode (amount value bound throughput))
        out.new) }
    ensures err { OnErr result (string_bytes out.new ≡ string_bytes out.old) }
    ensures reason { IsOkUnless result Refusal.Memory }
{
    append_part(out, kind, Part::All, mode, amount(value, bound, throughput))
}

/// Appends a value of any kind with its bound, after the percentage and the throughput if `mode`
/// shows them before the value.
///
/// # Errors
///
/// `Refusal::Memory` if out of memory. Then `out` is unchanged.
#[inline(always)]
pub fn append_values<K: DisplayValue>(
    out: &mut String,
    kind: &K,
    mode: Option<Mode>,
    value: Step,
    bound: Option<Step>,
    throughput: Option<Throughput>,
) -> Result<(), Refusal>
    ensures ok { OnOk result
        (Appends out.old (values_text (K.shown kind.now) mode (amount value bound throughput))
        out.new) }
    ensures err { OnErr result (string_bytes out.new ≡ string_bytes out.old) }
    ensures reason { IsOkUnless result Refusal.Memory }
{
    append_part(
        out,
        kind,
        Part::Values,
        mode,
        amount(value, bound, throughput),
    )
}

/// Appends the unit of a value of any kind, before the percentage and the throughput if `mode`
/// shows them after the unit.
///
/// # Errors
///
/// `Refusal::Memory` if out of memory. Then `out` is unchanged.
#[inline(always)]
pub fn append_unit<K: DisplayValue>(
    out: &mut String,
    kind: &K,
    mode: Option<Mode>,
    value: Step,
    bound: Option<Step>,
    throughput: Option<Throughput>,
) -> Result<(), Refusal>
    ensures ok { OnOk result
        (Appends out.old (unit_text (K.shown kind.now) mode (amount value bound throughput))
        out.new) }
    ensures err { OnErr result (string_bytes out.new ≡ string_bytes out.old) }
    ensures reason { IsOkUnless result Refusal.Memory }
{
    append_part(
        out,
        kind,
        Part::UnitAlone,
        mode,
        amount(value, bound, throughput),
    )
}

/// Appends a part of a value of any kind, as the call for that part does.
///
/// # Errors
///
/// `Refusal::Memory` if out of memory. Then `out` is unchanged.
#[inline(always)]
pub(in crate::unit) fn append_part<K: DisplayValue>(
    out: &mut String,
    kind: &K,
    part: Part,
    mode: Option<Mode>,
    amount: Amount,
) -> Result<(), Refusal>
    ensures ok { OnOk result
        (Appends out.old (part_text part (K.shown kind.now) mode amount) out.new) }
    ensures err { OnErr result (string_bytes out.new ≡ string_bytes out.old) }
    ensures reason { IsOkUnless result Refusal.Memory }
{
    let length = out.len();
    let appended = push_part(kind, out, part, mode, amount);
    undo_if_refused(out, length, appended)?;
    Ok(())
}

/// Returns a value with its bound and its throughput.
pub(in crate::unit) fn amount(
    value: Step,
    bound: Option<Step>,
    throughput: Option<Throughput>,
) -> Amount
    ensures { result ≡ amount value bound throughput }
{
    Amount {
        value,
        bound,
        throughput,
    }
}

/// Returns whether two locations are the same.
fn same_location(a: Location, b: Location) -> bool
    ensures { result ≡ same_location a b }
{
    matches!(
        (a, b),
        (Location::BeforeValue, Location::BeforeValue) | (Location::AfterUnit, Location::AfterUnit)
    )
}

/// Returns the percentage that is shown at a location, if any.
#[inline(always)]
fn percentage_at(
    mode: Option<Mode>,
    location: Location,
    value: Step,
    bound: Option<Step>,
) -> Option<u64>
    ensures { result ≡ percentage_at mode location value bound }
{
    let mode = mode?;
    let bound = bound?;
    if mode.percentage && same_location(mode.location, location) {
        Some(percentage_of(value, bound))
    } else {
        None
    }
}

/// Returns the throughput that is shown at a location, if any.
fn throughput_at(
    mode: Option<Mode>,
    location: Location,
    throughput: Option<Throughput>,
) -> Option<Throughput>
    ensures { result ≡ throughput_at mode location throughput }
{
    let mode = mode?;
    if mode.throughput && same_location(mode.location, location) {
        throughput
    } else {
        None
    }
}

/// Appends a percentage, if there is one, and the space beside it.
#[inline(always)]
fn push_percentage<K: DisplayValue>(
    kind: &K,
    out: &mut String,
    location: Location,
    percentage: Option<u64>,
) -> Result<(), AllocError>
    ensures { Pushes result out.old
        (placed_percentage (K.shown kind.now) location percentage) out.new }
{
    let Some(percentage) = percentage else {
        return Ok(());
    };
    match location {
        Location::BeforeValue => {
            kind.display_percentage(out, percentage)?;
            push_ascii(out, b' ')
        }
        Location::AfterUnit => {
            push_ascii(out, b' ')?;
            kind.display_percentage(out, percentage)
        }
    }
}

/// Appends a throughput, if there is one, and the space beside it.
fn push_throughput<K: DisplayValue>(
    kind: &K,
    out: &mut String,
    location: Location,
    throughput: Option<Throughput>,
) -> Result<(), AllocError>
    ensures { Pushes result out.old
        (placed_throughput (K.shown kind.now) location throughput) out.new }
{
    let Some(throughput) = throughput else {
        return Ok(());
    };
    match location {
        Location::BeforeValue => {
            kind.display_throughput(out, &throughput)?;
            push_ascii(out, b' ')
        }
        Location::AfterUnit => {
            push_ascii(out, b' ')?;
            kind.display_throughput(out, &throughput)
        }
    }
}

/// Appends the percentage and the throughput that are shown at a location.
#[inline(always)]
fn push_at<K: DisplayValue>(
    kind: &K,
    out: &mut String,
    mode: Option<Mode>,
    location: Location,
    amount: Amount,
) -> Result<(), AllocError>
    ensures { Pushes result out.old (text_at (K.shown kind.now) mode location amount) out.new }
{
    let percentage = percentage_at(mode, location, amount.value, amount.bound);
    push_percentage(kind, out, location, percentage)?;
    push_throughput(
        kind,
        out,
        location,
        throughput_at(mode, location, amount.throughput),
    )
}

/// Appends the separator and the bound, if there is a bound.
#[inline(always)]
fn push_bound<K: DisplayValue>(
    kind: &K,
    out: &mut String,
    value: Step,
    bound: Option<Step>,
) -> Result<(), AllocError>
    ensures { Pushes result out.old (bound_text (K.shown kind.now) value bound) out.new }
{
    let Some(upper) = bound else {
        return Ok(());
    };
    kind.separator(out, value, bound)?;
    kind.display_upper_bound(out, upper, value)
}

/// Appends the value.
#[inline(always)]
pub(in crate::unit) fn push_value<K: DisplayValue>(
    kind: &K,
    out: &mut String,
    value: Step,
    bound: Option<Step>,
) -> Result<(), AllocError>
    ensures { Pushes result out.old ((K.shown kind.now).value value bound) out.new }
{
    kind.display_current_value(out, value, bound)
}

/// Appends the value with its bound, and what is shown before it.
#[inline(always)]
fn push_values<K: DisplayValue>(
    kind: &K,
    out: &mut String,
    mode: Option<Mode>,
    amount: Amount,
) -> Result<(), AllocError>
    ensures { Pushes result out.old (values_text (K.shown kind.now) mode amount) out.new }
{
    push_at(kind, out, mode, Location::BeforeValue, amount)?;
    push_value(kind, out, amount.value, amount.bound)?;
    push_bound(kind, out, amount.value, amount.bound)
}

/// Appends the unit, and what is shown after it.
#[inline(always)]
fn push_unit<K: DisplayValue>(
    kind: &K,
    out: &mut String,
    mode: Option<Mode>,
    amount: Amount,
) -> Result<(), AllocError>
    ensures { Pushes result out.old (unit_text (K.shown kind.now) mode amount) out.new }
{
    kind.display_unit(out, amount.value)?;
    push_at(kind, out, mode, Location::AfterUnit, amount)
}

/// Appends a space and the unit; nothing if the unit is empty.
pub(in crate::unit) fn push_spaced_unit<K: DisplayValue>(
    kind: &K,
    out: &mut String,
    value: Step,
) -> Result<(), AllocError>
    ensures { Pushes result out.old (spaced ((K.shown kind.now).unit value)) out.new }
{
    let length = out.len();
    push_ascii(out, b' ')?;
    let start = out.len();
    kind.display_unit(out, value)?;
    if out.len() == start {
        out.truncate(length);
    }
    Ok(())
}

/// Appends a part of a value.
#[inline(always)]
fn push_part<K: DisplayValue>(
    kind: &K,
    out: &mut String,
    part: Part,
    mode: Option<Mode>,
    amount: Amount,
) -> Result<(), AllocError>
    ensures { Pushes result out.old (part_text part (K.shown kind.now) mode amount) out.new }
{
    match part {
        Part::All => {
            push_values(kind, out, mode, amount)?;
            push_spaced_unit(kind, out, amount.value)?;
            push_at(kind, out, mode, Location::AfterUnit, amount)
        }
        Part::Values => push_values(kind, out, mode, amount),
        Part::UnitAlone => push_unit(kind, out, mode, amount),
    }
}
