ghost use Rattle.std.specs.Prelude.{◌≡◌, map, OnOk, OnErr, string_bytes, ok_or, IfErr};
ghost use Rattle.std.specs.Option.{option_map};
ghost use Rattle.prodash_base.specs.Appending.{Appends};
ghost use Rattle.prodash_base.specs.plumbing.Pushing.{Pushes};
ghost use Rattle.prodash_base.specs.Scales.{checked_scales, scale_at, scale_fault, scales_fault, scaled_text, scales_of, scaling_of};
ghost use Rattle.prodash_base.specs.Shown.{scaled_shown};

use super::display::Throughput;
use super::{DisplayValue, label_texts};
use crate::appending::{push_cut, push_decimal, push_text, undo_if_refused};
use crate::progress::Step;
use std::alloc::AllocError;
use thiserror::Error;

/// How values are shown from `factor` on: divided by it, and with a suffix.
#[derive(Debug, Clone, Copy, PartialEq, Eq)]
pub struct Scale {
    /// The number that values are divided by.
    pub factor: u64,
    /// The number of decimals, at most six.
    pub decimals: u8,
    /// The text behind the number.
    pub suffix: &'static str,
}

/// How the values of a [`Scaled`] are shown.
#[derive(Debug, Clone, Copy, PartialEq, Eq)]
pub struct Scales {
    /// The text between a value and its bound.
    pub separator: &'static str,
    /// The scales, in the order of their factors. Without any, values are plain numbers.
    pub scales: &'static [Scale],
}

/// Why [`Scaled::new`] refuses scales. They are counted from 1.
#[derive(Clone, Copy, Debug, PartialEq, Eq, Error)]
pub enum ScaleError {
    /// The factor of this scale is 0.
    #[error("scale {0}: the factor is 0")]
    ZeroFactor(usize),
    /// The factor of this scale isn't above that of the scale before it.
    #[error("scale {0}: the factor isn't above the one before it")]
    FactorNotRising(usize),
    /// This scale has more than six decimals.
    #[error("scale {0}: there are more than six decimals")]
    TooManyDecimals(usize),
}

/// Shows values in scales of your own, as `1.5 KiB/2.0 MiB`, `12.34 EUR` or `21.5 °C`. A value is
/// shown in the last scale whose factor is at most the value, and below the first factor in the
/// first scale: divided by the factor, rounded down, with exactly as many decimals as the scale
/// says, and its suffix.
///
/// ```rust
/// static BINARY: Scales = Scales {
///     separator: "/",
///     scales: &[
///         Scale { factor: 1, decimals: 0, suffix: " B" },
///         Scale { factor: 1 << 10, decimals: 1, suffix: " KiB" },
///         Scale { factor: 1 << 20, decimals: 1, suffix: " MiB" },
///     ],
/// };
/// let unit = dynamic(Kind::Scaled(Scaled::new(&BINARY, "")?));
/// // 1536 of 2097152 is "1.5 KiB/2.0 MiB"
/// ```
#[derive(Debug, Clone, Copy, PartialEq, Eq)]
pub struct Scaled {
    name: &'static str,
    scales: &'static Scales,
}

impl Scaled {
    /// Returns a kind that shows values in these scales, with this name.
    ///
    /// # Errors
    ///
    /// What is wrong with the first scale that is: its factor is 0, or isn't above the factor of
    /// the scale before it, or it has more than six decimals.
    pub fn new(scales: &'static Scales, name: &'static str) -> Result<Scaled, ScaleError>
        ensures { result ≡ checked_scales (record { name = name.entry; scales = scales.entry }) }
    {
        match fault_of(scales.scales) {
            None => Ok(Scaled { name, scales }),
            Some(fault) => Err(fault),
        }
    }
}

/// Returns what is wrong with the first scale that is wrong, if one is.
fn fault_of(scales: &[Scale]) -> Option<ScaleError>
    ensures { result ≡ scales_fault 1 0 scales.now }
{
    let mut before = 0;
    for (place, scale) in scales.iter().enumerate() {
        let fault = scale_fault(place + 1, before, scale);
        if fault.is_some() {
            return fault;
        }
        before = scale.factor;
    }
    None
}

/// Returns what is wrong with a scale that has this number and comes after one with this factor, if
/// something is.
fn scale_fault(number: usize, before: u64, scale: &Scale) -> Option<ScaleError>
    ensures { result ≡ scale_fault number before scale.now }
{
    if scale.factor == 0 {
        Some(ScaleError::ZeroFactor(number))
    } else if scale.factor <= before {
        Some(ScaleError::FactorNotRising(number))
    } else if scale.decimals > 6 {
        Some(ScaleError::TooManyDecimals(number))
    } else {
        None
    }
}

/// Returns the scale in which a value is shown: the last whose factor is at most the value, or else
/// the first.
fn scale_at(scales: &[Scale], n: u64) -> Option<&Scale>
    ensures { option_map (λ scale. scaling_of scale.now) result
        ≡ scale_at (map scaling_of scales.now) n }
{
    match scales.iter().rev().find(|scale| scale.factor <= n) {
        Some(scale) => Some(scale),
        None => scales.first(),
    }
}

/// Appends a value in its scale, as `1.5 KiB`.
fn push_scaled(out: &mut String, scales: &[Scale], n: u64) -> Result<(), AllocError>
    ensures { Pushes result out.old (scaled_text (map scaling_of scales.now) n) out.new }
{
    let Some(scale) = scale_at(scales, n) else {
        return push_decimal(out, n);
    };
    push_cut(out, scale.decimals.min(6), n, scale.factor.max(1))?;
    push_text(out, scale.suffix)
}

/// Appends a value in its scale, as `1.5 KiB`, or nothing.
fn append_scaled(out: &mut String, scales: &[Scale], n: u64) -> Result<(), AllocError>
    ensures ok { OnOk result (Appends out.old (scaled_text (map scaling_of scales.now) n) out.new) }
    ensures err { OnErr result (string_bytes out.new ≡ string_bytes out.old) }
{
    let length = out.len();
    let appended = push_scaled(out, scales, n);
    undo_if_refused(out, length, appended)
}

impl DisplayValue for Scaled {
    ghost shown = { λ scaled. scaled_shown (scales_of scaled) scaled.name.now };

    fn display_current_value(
        &self,
        out: &mut String,
        value: Step,
        _upper: Option<Step>,
    ) -> Result<(), AllocError> {
        append_scaled(out, self.scales.scales, value)
    }

    fn separator(
        &self,
        out: &mut String,
        _value: Step,
        _upper: Option<Step>,
    ) -> Result<(), AllocError> {
        out.push_str(self.scales.separator)
    }

    fn display_upper_bound(
        &self,
        out: &mut String,
        upper_bound: Step,
        _value: Step,
    ) -> Result<(), AllocError> {
        append_scaled(out, self.scales.scales, upper_bound)
    }

    fn display_unit(&self, out: &mut String, _value: Step) -> Result<(), AllocError> {
        out.push_str(self.name)
    }

    fn display_percentage(&self, out: &mut String, percentage: u64) -> Result<(), AllocError> {
        label_texts::display_percentage(out, percentage)
    }

    fn fraction_and_time_unit(&self, nanoseconds: u64) -> (Option<(u64, u64)>, &'static str) {
        label_texts::fraction_and_time_unit(nanoseconds)
    }

    fn display_throughput(
        &self,
        out: &mut String,
        throughput: &Throughput,
    ) -> Result<(), AllocError> {
        self.label_throughput(out, throughput)
    }
}
