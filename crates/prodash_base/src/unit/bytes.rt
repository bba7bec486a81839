ghost use Rattle.prodash_base.specs.Shown.{bytes_shown};

use super::display::Throughput;
use super::quantities::append_bytes;
use super::{DisplayValue, label_texts};
use crate::progress::Step;
use std::alloc::AllocError;

/// Shows values as numbers of bytes, as `1.9kB`: below 1000 as they are, else over the greatest
/// power of 1000 up to `EB` that is at most the value, with one decimal, rounded down.
#[derive(Debug, Clone, Copy, Default, PartialEq, Eq, PartialOrd, Ord)]
pub struct Bytes;

impl DisplayValue for Bytes {
    ghost shown = { λ _. bytes_shown };

    fn display_current_value(
        &self,
        out: &mut String,
        value: Step,
        _upper: Option<Step>,
    ) -> Result<(), AllocError> {
        append_bytes(out, value)
    }

    fn separator(
        &self,
        out: &mut String,
        _value: Step,
        _upper: Option<Step>,
    ) -> Result<(), AllocError> {
        label_texts::separator(out)
    }

    fn display_upper_bound(
        &self,
        out: &mut String,
        upper_bound: Step,
        _value: Step,
    ) -> Result<(), AllocError> {
        append_bytes(out, upper_bound)
    }

    fn display_unit(&self, _out: &mut String, _value: Step) -> Result<(), AllocError> {
        Ok(())
    }

    fn display_percentage(&self, out: &mut String, percentage: u64) -> Result<(), AllocError> {
        label_texts::display_percentage(out, percentage)
    }

    fn fraction_and_time_unit(&self, nanoseconds: u64) -> (Option<(u64, u64)>, &'static str) {
        label_texts::fraction_and_time_unit(nanoseconds)
    }

    fn display_throughput(
        &self,
        out: &mut String,
        throughput: &Throughput,
    ) -> Result<(), AllocError> {
        self.label_throughput(out, throughput)
    }
}
