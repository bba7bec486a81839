ghost use Rattle.std.specs.Prelude.{◌≡◌, OnOk, OnErr, codes, string_bytes};
ghost use Rattle.prodash_base.specs.Appending.{Appends, IsPrefix};
ghost use Rattle.prodash_base.specs.plumbing.Pushing.{Pushes};
ghost use Rattle.prodash_base.specs.Shown.{Shown, throughput_text, timespan_text, optional_fraction};

use super::display::Throughput;
use crate::appending::{push_ascii, push_fraction, push_text, undo_if_refused};
use crate::progress::Step;
use std::alloc::AllocError;

/// A kind of unit: how values, bounds, units, percentages and throughputs are shown.
///
/// Each call but `fraction_and_time_unit` appends a text to `out`. If it is out of memory, it
/// returns an `AllocError` and leaves `out` unchanged. The ghost member `shown` says which texts
/// these are. For a call that shows the same as a label, [`label_texts`](super::label_texts) has
/// a function of the same name, and [`label_throughput`](DisplayValue::label_throughput) is that
/// for throughputs.
///
/// ```rust
/// let mut text = String::new(alloc);
/// Bytes.display_current_value(&mut text, 1999, None)?;
/// assert_eq!(rt; text.as_str(), "1.9kB");
/// ```
pub trait DisplayValue {
    /// The text of each call.
    ghost shown: { Self → Shown };

    /// Appends a value. Its upper bound, if known, is context and is not shown.
    fn display_current_value(
        &self,
        out: &mut String,
        value: Step,
        upper: Option<Step>,
    ) -> Result<(), AllocError>
        ensures ok { OnOk result (Appends out.old ((shown self.now).value value upper) out.new) }
        ensures err { OnErr result (string_bytes out.new ≡ string_bytes out.old) };

    /// Appends what separates a value from its upper bound. Both are context.
    fn separator(
        &self,
        out: &mut String,
        value: Step,
        upper: Option<Step>,
    ) -> Result<(), AllocError>
        ensures ok { OnOk result
            (Appends out.old ((shown self.now).separator value upper) out.new) }
        ensures err { OnErr result (string_bytes out.new ≡ string_bytes out.old) };

    /// Appends an upper bound. The value is context and is not shown.
    fn display_upper_bound(
        &self,
        out: &mut String,
        upper_bound: Step,
        value: Step,
    ) -> Result<(), AllocError>
        ensures ok { OnOk result
            (Appends out.old ((shown self.now).upper_bound upper_bound value) out.new) }
        ensures err { OnErr result (string_bytes out.new ≡ string_bytes out.old) };

    /// Appends the unit of a value, which is context and is not shown.
    fn display_unit(&self, out: &mut String, value: Step) -> Result<(), AllocError>
        ensures ok { OnOk result (Appends out.old ((shown self.now).unit value) out.new) }
        ensures err { OnErr result (string_bytes out.new ≡ string_bytes out.old) };

    /// Appends a percentage.
    fn display_percentage(&self, out: &mut String, percentage: u64) -> Result<(), AllocError>
        ensures ok { OnOk result
            (Appends out.old ((shown self.now).percentage percentage) out.new) }
        ensures err { OnErr result (string_bytes out.new ≡ string_bytes out.old) };

    /// Returns the time unit in which a number of nanoseconds is shown, and a quotient that says
    /// how many of that unit they are, or `None` if they are one.
    fn fraction_and_time_unit(&self, nanoseconds: u64) -> (Option<(u64, u64)>, &'static str)
        ensures fraction { result.0 ≡ (shown self.now).fraction nanoseconds }
        ensures time_unit { result.1.now ≡ (shown self.now).time_unit nanoseconds };

    /// Appends a throughput.
    fn display_throughput(
        &self,
        out: &mut String,
        throughput: &Throughput,
    ) -> Result<(), AllocError>
        ensures ok { OnOk result
            (Appends out.old ((shown self.now).throughput throughput.now) out.new) }
        ensures err { OnErr result (string_bytes out.new ≡ string_bytes out.old) };

    /// Appends a throughput as a label shows it, as `|5/1.5m|`, with the change and the time unit
    /// of this kind.
    fn label_throughput(&self, out: &mut String, throughput: &Throughput) -> Result<(), AllocError>
        ensures ok { OnOk result
            (Appends out.old (throughput_text (shown self.now) throughput.now) out.new) }
        ensures err { OnErr result (string_bytes out.new ≡ string_bytes out.old) }
    {
        let length = out.len();
        let appended = self.push_throughput(out, throughput);
        undo_if_refused(out, length, appended)
    }

    /// Appends what [`label_throughput`](DisplayValue::label_throughput) does. If it is out of
    /// memory, a part of that text may have been appended.
    fn push_throughput(&self, out: &mut String, throughput: &Throughput) -> Result<(), AllocError>
        ensures ok { OnOk result
            (Appends out.old (throughput_text (shown self.now) throughput.now) out.new) }
        ensures kept { IsPrefix (string_bytes out.old) (string_bytes out.new) }
    {
        let (fraction, time_unit) = self.fraction_and_time_unit(throughput.timespan);
        push_ascii(out, b'|')?;
        self.display_current_value(out, throughput.value_change_in_timespan, None)?;
        push_timespan(out, fraction, time_unit)
    }
}

/// Appends the second part of a throughput, as `/1.5m|`.
#[inline(always)]
fn push_timespan(
    out: &mut String,
    fraction: Option<(u64, u64)>,
    time_unit: &str,
) -> Result<(), AllocError>
    ensures { Pushes result out.old (timespan_text fraction time_unit.now) out.new }
{
    push_ascii(out, b'/')?;
    push_optional_fraction(out, fraction)?;
    push_time_unit(out, time_unit)?;
    push_ascii(out, b'|')
}

/// Appends a time unit, and one of a single character without a call.
#[inline(always)]
fn push_time_unit(out: &mut String, time_unit: &str) -> Result<(), AllocError>
    ensures { Pushes result out.old time_unit.now out.new }
{
    match time_unit.as_bytes() {
        [byte] if *byte < 128 => push_ascii(out, *byte),
        _ => push_text(out, time_unit),
    }
}

/// Appends a fraction, if there is one.
#[inline(always)]
fn push_optional_fraction(out: &mut String, fraction: Option<(u64, u64)>) -> Result<(), AllocError>
    ensures { Pushes result out.old (optional_fraction fraction) out.new }
{
    match fraction {
        None => Ok(()),
        Some((a, b)) => push_fraction(out, a, b),
    }
}
