ghost use Rattle.std.specs.Prelude.{◌≡◌};
ghost use Rattle.prodash_base.specs.Shown.{range_shown};

use super::display::Throughput;
use super::{DisplayValue, label_texts};
use crate::appending::append_decimal;
use crate::progress::Step;
use std::alloc::AllocError;

/// Shows zero-based values as one-based ones, and bounds as they are, as `2 of 5 steps`.
#[derive(Debug, Clone, Copy, Default, PartialEq, Eq, PartialOrd, Ord)]
pub struct Range {
    /// The name of the unit.
    pub name: &'static str,
}

impl Range {
    /// Returns a range with this name.
    pub fn new(name: &'static str) -> Range
        ensures { result.name ≡ name.entry }
    {
        Range { name }
    }
}

impl DisplayValue for Range {
    ghost shown = { λ range. range_shown range.name.now };

    fn display_current_value(
        &self,
        out: &mut String,
        value: Step,
        _upper: Option<Step>,
    ) -> Result<(), AllocError> {
        append_decimal(out, u128::from(value) + 1)
    }

    fn separator(
        &self,
        out: &mut String,
        _value: Step,
        _upper: Option<Step>,
    ) -> Result<(), AllocError> {
        out.push_str(" of ")
    }

    fn display_upper_bound(
        &self,
        out: &mut String,
        upper_bound: Step,
        _value: Step,
    ) -> Result<(), AllocError> {
        label_texts::display_upper_bound(out, upper_bound)
    }

    fn display_unit(&self, out: &mut String, _value: Step) -> Result<(), AllocError> {
        out.push_str(self.name)
    }

    fn display_percentage(&self, out: &mut String, percentage: u64) -> Result<(), AllocError> {
        label_texts::display_percentage(out, percentage)
    }

    fn fraction_and_time_unit(&self, nanoseconds: u64) -> (Option<(u64, u64)>, &'static str) {
        label_texts::fraction_and_time_unit(nanoseconds)
    }

    fn display_throughput(
        &self,
        out: &mut String,
        throughput: &Throughput,
    ) -> Result<(), AllocError> {
        self.label_throughput(out, throughput)
    }
}
