//! Large numbers in a short form, as `2.54M`.
ghost use Rattle.std.specs.Prelude.{◌≡◌};
ghost use Rattle.prodash_base.specs.Shown.{human_shown};

use super::display::Throughput;
use super::quantities::append_human;
use super::{DisplayValue, label_texts};
use crate::progress::Step;
use std::alloc::AllocError;

/// How large numbers are shown.
#[derive(Debug, Clone, Copy, PartialEq, Eq)]
pub struct Formatter {
    /// The number of decimals of a number with a letter. More than six count as six.
    pub decimals: u8,
}

impl Default for Formatter {
    /// Returns a formatter with two decimals.
    fn default() -> Formatter
        ensures { result ≡ record { decimals = 2 } }
    {
        Formatter { decimals: 2 }
    }
}

/// Shows values as large numbers, as `2.54M objects`: below 1000 as they are, else over the
/// greatest power of 1000 up to `E` that is at most the value, rounded down.
#[derive(Debug, Clone, Copy, PartialEq, Eq)]
pub struct Human {
    /// The name of the unit.
    pub name: &'static str,
    /// How the numbers are shown.
    pub formatter: Formatter,
}

impl Human {
    /// Returns a kind with this formatter and this name.
    pub fn new(formatter: Formatter, name: &'static str) -> Human
        ensures name { result.name ≡ name.entry }
        ensures formatter { result.formatter ≡ formatter }
    {
        Human { name, formatter }
    }
}

impl DisplayValue for Human {
    ghost shown = { λ human. human_shown human.formatter.decimals human.name.now };

    fn display_current_value(
        &self,
        out: &mut String,
        value: Step,
        _upper: Option<Step>,
    ) -> Result<(), AllocError> {
        append_human(out, self.formatter.decimals, value)
    }

    fn separator(
        &self,
        out: &mut String,
        _value: Step,
        _upper: Option<Step>,
    ) -> Result<(), AllocError> {
        label_texts::separator(out)
    }

    fn display_upper_bound(
        &self,
        out: &mut String,
        upper_bound: Step,
        _value: Step,
    ) -> Result<(), AllocError> {
        append_human(out, self.formatter.decimals, upper_bound)
    }

    fn display_unit(&self, out: &mut String, _value: Step) -> Result<(), AllocError> {
        out.push_str(self.name)
    }

    fn display_percentage(&self, out: &mut String, percentage: u64) -> Result<(), AllocError> {
        label_texts::display_percentage(out, percentage)
    }

    fn fraction_and_time_unit(&self, nanoseconds: u64) -> (Option<(u64, u64)>, &'static str) {
        label_texts::fraction_and_time_unit(nanoseconds)
    }

    fn display_throughput(
        &self,
        out: &mut String,
        throughput: &Throughput,
    ) -> Result<(), AllocError> {
        self.label_throughput(out, throughput)
    }
}
