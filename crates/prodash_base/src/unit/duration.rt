ghost use Rattle.prodash_base.specs.Shown.{duration_shown};

use super::display::Throughput;
use super::quantities::append_duration;
use super::{DisplayValue, label_texts};
use crate::progress::Step;
use std::alloc::AllocError;

/// Shows values as numbers of seconds, as `7d4h20m10s`: in days, hours, minutes and seconds,
/// without those that are zero; 0 is `0s`. The separator is ` of `.
#[derive(Debug, Clone, Copy, Default, PartialEq, Eq, PartialOrd, Ord)]
pub struct Duration;

impl DisplayValue for Duration {
    ghost shown = { λ _. duration_shown };

    fn display_current_value(
        &self,
        out: &mut String,
        value: Step,
        _upper: Option<Step>,
    ) -> Result<(), AllocError> {
        append_duration(out, value)
    }

    fn separator(
        &self,
        out: &mut String,
        _value: Step,
        _upper: Option<Step>,
    ) -> Result<(), AllocError> {
        out.push_str(" of ")
    }

    fn display_upper_bound(
        &self,
        out: &mut String,
        upper_bound: Step,
        _value: Step,
    ) -> Result<(), AllocError> {
        append_duration(out, upper_bound)
    }

    fn display_unit(&self, _out: &mut String, _value: Step) -> Result<(), AllocError> {
        Ok(())
    }

    fn display_percentage(&self, out: &mut String, percentage: u64) -> Result<(), AllocError> {
        label_texts::display_percentage(out, percentage)
    }

    fn fraction_and_time_unit(&self, nanoseconds: u64) -> (Option<(u64, u64)>, &'static str) {
        label_texts::fraction_and_time_unit(nanoseconds)
    }

    fn display_throughput(
        &self,
        out: &mut String,
        throughput: &Throughput,
    ) -> Result<(), AllocError> {
        self.label_throughput(out, throughput)
    }
}
