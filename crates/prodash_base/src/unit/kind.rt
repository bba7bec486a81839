ghost use Rattle.prodash_base.specs.Kinds.{kind_shown};

use super::display::Throughput;
use super::{Bytes, DisplayValue, Duration, Human, Range, Scaled};
use crate::progress::Step;
use std::alloc::AllocError;

/// A kind of unit.
#[derive(Debug, Clone, Copy, PartialEq, Eq)]
pub enum Kind {
    /// Plain numbers and this name, as `3/10 items`.
    Label(&'static str),
    /// Numbers of bytes, as `1.9kB`.
    Bytes(Bytes),
    /// Numbers of seconds, as `7d4h20m10s`.
    Duration(Duration),
    /// Large numbers and a name, as `2.54M objects`.
    Human(Human),
    /// Values shown from one and a name, as `2 of 5 steps`.
    Range(Range),
    /// Values in scales of your own, as `1.5 KiB`.
    Scaled(Scaled),
}

impl DisplayValue for Kind {
    ghost shown = { kind_shown };

    fn display_current_value(
        &self,
        out: &mut String,
        value: Step,
        upper: Option<Step>,
    ) -> Result<(), AllocError> {
        match self {
            Kind::Label(kind) => kind.display_current_value(out, value, upper),
            Kind::Bytes(kind) => kind.display_current_value(out, value, upper),
            Kind::Duration(kind) => kind.display_current_value(out, value, upper),
            Kind::Human(kind) => kind.display_current_value(out, value, upper),
            Kind::Range(kind) => kind.display_current_value(out, value, upper),
            Kind::Scaled(kind) => kind.display_current_value(out, value, upper),
        }
    }

    #[inline(always)]
    fn separator(
        &self,
        out: &mut String,
        value: Step,
        upper: Option<Step>,
    ) -> Result<(), AllocError> {
        match self {
            Kind::Label(kind) => kind.separator(out, value, upper),
            Kind::Bytes(kind) => kind.separator(out, value, upper),
            Kind::Duration(kind) => kind.separator(out, value, upper),
            Kind::Human(kind) => kind.separator(out, value, upper),
            Kind::Range(kind) => kind.separator(out, value, upper),
            Kind::Scaled(kind) => kind.separator(out, value, upper),
        }
    }

    #[inline(always)]
    fn display_upper_bound(
        &self,
        out: &mut String,
        upper_bound: Step,
        value: Step,
    ) -> Result<(), AllocError> {
        match self {
            Kind::Label(kind) => kind.display_upper_bound(out, upper_bound, value),
            Kind::Bytes(kind) => kind.display_upper_bound(out, upper_bound, value),
            Kind::Duration(kind) => kind.display_upper_bound(out, upper_bound, value),
            Kind::Human(kind) => kind.display_upper_bound(out, upper_bound, value),
            Kind::Range(kind) => kind.display_upper_bound(out, upper_bound, value),
            Kind::Scaled(kind) => kind.display_upper_bound(out, upper_bound, value),
        }
    }

    fn display_unit(&self, out: &mut String, value: Step) -> Result<(), AllocError> {
        match self {
            Kind::Label(kind) => kind.display_unit(out, value),
            Kind::Bytes(kind) => kind.display_unit(out, value),
            Kind::Duration(kind) => kind.display_unit(out, value),
            Kind::Human(kind) => kind.display_unit(out, value),
            Kind::Range(kind) => kind.display_unit(out, value),
            Kind::Scaled(kind) => kind.display_unit(out, value),
        }
    }

    fn display_percentage(&self, out: &mut String, percentage: u64) -> Result<(), AllocError> {
        match self {
            Kind::Label(kind) => kind.display_percentage(out, percentage),
            Kind::Bytes(kind) => kind.display_percentage(out, percentage),
            Kind::Duration(kind) => kind.display_percentage(out, percentage),
            Kind::Human(kind) => kind.display_percentage(out, percentage),
            Kind::Range(kind) => kind.display_percentage(out, percentage),
            Kind::Scaled(kind) => kind.display_percentage(out, percentage),
        }
    }

    fn fraction_and_time_unit(&self, nanoseconds: u64) -> (Option<(u64, u64)>, &'static str) {
        match self {
            Kind::Label(kind) => kind.fraction_and_time_unit(nanoseconds),
            Kind::Bytes(kind) => kind.fraction_and_time_unit(nanoseconds),
            Kind::Duration(kind) => kind.fraction_and_time_unit(nanoseconds),
            Kind::Human(kind) => kind.fraction_and_time_unit(nanoseconds),
            Kind::Range(kind) => kind.fraction_and_time_unit(nanoseconds),
            Kind::Scaled(kind) => kind.fraction_and_time_unit(nanoseconds),
        }
    }

    fn display_throughput(
        &self,
        out: &mut String,
        throughput: &Throughput,
    ) -> Result<(), AllocError> {
        match self {
            Kind::Label(kind) => kind.display_throughput(out, throughput),
            Kind::Bytes(kind) => kind.display_throughput(out, throughput),
            Kind::Duration(kind) => kind.display_throughput(out, throughput),
            Kind::Human(kind) => kind.display_throughput(out, throughput),
            Kind::Range(kind) => kind.display_throughput(out, throughput),
            Kind::Scaled(kind) => kind.display_throughput(out, throughput),
        }
    }
}
