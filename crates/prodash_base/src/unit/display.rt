//! How a value is displayed with its bound, its unit, its percentage and its throughput.
ghost use Rattle.std.specs.Prelude.{◌≡◌, true, false};

pub(super) mod values;

pub use super::units::UnitDisplay;
use crate::progress::Step;
pub use values::{append, append_unit, append_values};

/// Where the percentage and the throughput are shown.
#[derive(Debug, Clone, Copy, PartialEq, Eq, PartialOrd, Ord, Hash)]
pub enum Location {
    /// Before the value.
    BeforeValue,
    /// After the unit.
    AfterUnit,
}

/// A change of a value in a timespan.
#[derive(Debug, Clone, Copy, PartialEq, Eq, PartialOrd, Ord)]
pub struct Throughput {
    /// The change of the value from the start of the timespan to its end.
    pub value_change_in_timespan: Step,
    /// The length of the timespan in nanoseconds.
    pub timespan: u64,
}

impl Throughput {
    /// Returns a change of `value_change_in_timespan` in `timespan` nanoseconds.
    pub fn new(value_change_in_timespan: Step, timespan: u64) -> Throughput
        ensures change { result.value_change_in_timespan ≡ value_change_in_timespan }
        ensures timespan { result.timespan ≡ timespan }
    {
        Throughput {
            value_change_in_timespan,
            timespan,
        }
    }
}

/// A value, with its bound and its throughput if known.
#[derive(Clone, Copy)]
pub(super) struct Amount {
    pub(super) value: Step,
    pub(super) bound: Option<Step>,
    pub(super) throughput: Option<Throughput>,
}

/// The part of a value that is displayed.
#[derive(Clone, Copy)]
pub(super) enum Part {
    /// The value with its bound, and the unit.
    All,
    /// The value with its bound.
    Values,
    /// The unit.
    UnitAlone,
}

/// Whether a percentage and a throughput are shown with a value, and where.
///
/// ```rust
/// let mode = Mode::with_percentage().and_throughput().show_before_value();
/// // "[30%] |5/s| 3/10 items"
/// ```
#[derive(Debug, Clone, Copy, PartialEq, Eq, PartialOrd, Ord, Hash)]
pub struct Mode {
    pub(super) location: Location,
    pub(super) percentage: bool,
    pub(super) throughput: bool,
}

/// A mode that shows neither.
const NEITHER: Mode = Mode {
    location: Location::AfterUnit,
    percentage: false,
    throughput: false,
};

impl Mode {
    /// Returns a mode that shows the percentage alone, after the unit.
    pub fn with_percentage() -> Mode
        ensures { result
            ≡ record { location = Location.AfterUnit; percentage = true; throughput = false } }
    {
        NEITHER.and_percentage()
    }

    /// Returns a mode that shows the throughput alone, after the unit.
    pub fn with_throughput() -> Mode
        ensures { result
            ≡ record { location = Location.AfterUnit; percentage = false; throughput = true } }
    {
        NEITHER.and_throughput()
    }

    /// Returns this mode with the percentage shown.
    pub fn and_percentage(self) -> Mode
        ensures { result ≡ record self { percentage = true } }
    {
        Mode {
            percentage: true,
            ..self
        }
    }

    /// Returns this mode with the throughput shown.
    pub fn and_throughput(self) -> Mode
        ensures { result ≡ record self { throughput = true } }
    {
        Mode {
            throughput: true,
            ..self
        }
    }

    /// Returns this mode with both shown before the value.
    pub fn show_before_value(self) -> Mode
        ensures { result ≡ record self { location = Location.BeforeValue } }
    {
        Mode {
            location: Location::BeforeValue,
            ..self
        }
    }
}
