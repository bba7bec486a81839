//! What a label shows: plain numbers and a name, as `3/10 items`. A kind of your own calls these
//! for what it shows as a label does, and [`DisplayValue::label_throughput`] for throughputs.
//!
//! Each call that is out of memory returns an `AllocError` and leaves the string unchanged.
ghost use Rattle.std.specs.Prelude.{◌≡◌, codes, OnOk, OnErr, string_bytes};
ghost use Rattle.prodash_base.specs.Appending.{Appends};
ghost use Rattle.prodash_base.specs.plumbing.Pushing.{Pushes};
ghost use Rattle.std.specs.Fmt.{decimal};
ghost use Rattle.prodash_base.specs.Shown.{label_shown, label_percentage, label_fraction, label_time_unit, unless_one};

use super::DisplayValue;
use super::display::Throughput;
use crate::appending::{
    append_decimal, push_ascii_bytes, push_decimal, push_text, undo_if_refused,
};
use crate::progress::Step;
use std::alloc::AllocError;

/// Appends a value as a plain number.
pub fn display_current_value(out: &mut String, value: Step) -> Result<(), AllocError>
    ensures ok { OnOk result (Appends out.old (decimal value) out.new) }
    ensures err { OnErr result (string_bytes out.new ≡ string_bytes out.old) }
{
    append_decimal(out, u128::from(value))
}

/// Appends the separator `/`.
pub fn separator(out: &mut String) -> Result<(), AllocError>
    ensures ok { OnOk result (Appends out.old (codes "/") out.new) }
    ensures err { OnErr result (string_bytes out.new ≡ string_bytes out.old) }
{
    out.push_str("/")
}

/// Appends an upper bound as a plain number.
pub fn display_upper_bound(out: &mut String, upper_bound: Step) -> Result<(), AllocError>
    ensures ok { OnOk result (Appends out.old (decimal upper_bound) out.new) }
    ensures err { OnErr result (string_bytes out.new ≡ string_bytes out.old) }
{
    append_decimal(out, u128::from(upper_bound))
}

/// Appends a percentage, as `[30%]`.
pub fn display_percentage(out: &mut String, percentage: u64) -> Result<(), AllocError>
    ensures ok { OnOk result (Appends out.old (label_percentage percentage) out.new) }
    ensures err { OnErr result (string_bytes out.new ≡ string_bytes out.old) }
{
    let length = out.len();
    let appended = push_percentage(out, percentage);
    undo_if_refused(out, length, appended)
}

/// Appends a percentage.
fn push_percentage(out: &mut String, percentage: u64) -> Result<(), AllocError>
    ensures { Pushes result out.old (label_percentage percentage) out.new }
{
    if percentage < 10 {
        return push_ascii_bytes(out, &[b'[', b'0' + percentage as u8, b'%', b']']);
    }
    if percentage < 100 {
        let first = b'0' + (percentage / 10) as u8;
        let last = b'0' + (percentage % 10) as u8;
        return push_ascii_bytes(out, &[b'[', first, last, b'%', b']']);
    }
    push_large_percentage(out, percentage)
}

/// Does what `push_percentage` does for a large percentage.
#[inline(never)]
fn push_large_percentage(out: &mut String, percentage: u64) -> Result<(), AllocError>
    ensures { Pushes result out.old (label_percentage percentage) out.new }
{
    push_text(out, "[")?;
    push_decimal(out, percentage)?;
    push_text(out, "%]")
}

/// Returns the greatest of hours (`h`), minutes (`m`) and seconds (`s`) of which a number of
/// nanoseconds has at least one, and else milliseconds (`ms`). The pair is the quotient that says
/// how many: of whole seconds, and of whole milliseconds for `ms`. It is `None` if that is one.
pub fn fraction_and_time_unit(nanoseconds: u64) -> (Option<(u64, u64)>, &'static str)
    ensures fraction { result.0 ≡ label_fraction nanoseconds }
    ensures time_unit { result.1.now ≡ label_time_unit nanoseconds }
{
    let seconds = nanoseconds / 1_000_000_000;
    if seconds / 3600 > 0 {
        (unless_one(seconds, 3600), "h")
    } else if seconds / 60 > 0 {
        (unless_one(seconds, 60), "m")
    } else if seconds > 0 {
        (unless_one(seconds, 1), "s")
    } else {
        (unless_one(nanoseconds / 1_000_000, 1), "ms")
    }
}

/// Returns a quotient, or `None` if it is one.
fn unless_one(a: u64, b: u64) -> Option<(u64, u64)>
    ensures { result ≡ unless_one a b }
{
    if a == b { None } else { Some((a, b)) }
}

impl DisplayValue for &'static str {
    ghost shown = { λ name. label_shown name.now };

    fn display_current_value(
        &self,
        out: &mut String,
        value: Step,
        _upper: Option<Step>,
    ) -> Result<(), AllocError> {
        self::display_current_value(out, value)
    }

    fn separator(
        &self,
        out: &mut String,
        _value: Step,
        _upper: Option<Step>,
    ) -> Result<(), AllocError> {
        self::separator(out)
    }

    fn display_upper_bound(
        &self,
        out: &mut String,
        upper_bound: Step,
        _value: Step,
    ) -> Result<(), AllocError> {
        self::display_upper_bound(out, upper_bound)
    }

    fn display_unit(&self, out: &mut String, _value: Step) -> Result<(), AllocError> {
        out.push_str(*self)
    }

    fn display_percentage(&self, out: &mut String, percentage: u64) -> Result<(), AllocError> {
        self::display_percentage(out, percentage)
    }

    fn fraction_and_time_unit(&self, nanoseconds: u64) -> (Option<(u64, u64)>, &'static str) {
        self::fraction_and_time_unit(nanoseconds)
    }

    fn display_throughput(
        &self,
        out: &mut String,
        throughput: &Throughput,
    ) -> Result<(), AllocError> {
        self.label_throughput(out, throughput)
    }
}
