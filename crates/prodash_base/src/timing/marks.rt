//! The latest marks of a task: what it had done, about a second apart.
ghost use Rattle.std.specs.Prelude.{◌≡◌, length};
ghost use Rattle.prodash_base.specs.Timers.{kept_marks, with_mark, earliest_mark};

use crate::progress::Step;
use crate::throughput::ONE_SECOND;

/// How many marks are kept of a task.
pub(crate) const KEPT_MARKS: usize = 16;

/// The step of a task at a moment.
#[derive(Clone, Copy, Debug, PartialEq, Eq)]
pub struct Mark {
    /// The moment, in the time of the timer.
    pub at: u64,
    /// The step.
    pub step: Step,
}

/// Adds a mark to others, the latest first, if it comes more than a second after the latest one.
/// The earliest is then dropped.
pub(crate) fn add_mark(marks: &mut [Mark; KEPT_MARKS], mark: Mark)
    requires { length marks.old ≡ kept_marks }
    ensures { marks.new ≡ with_mark mark marks.old }
{
    if mark.at.saturating_sub(marks[0].at) > ONE_SECOND {
        marks.copy_within(..KEPT_MARKS - 1, 1);
        marks[0] = mark;
    }
}

/// Returns the earliest mark.
pub(crate) fn earliest_mark(marks: &[Mark; KEPT_MARKS]) -> Mark
    requires { length marks.now ≡ kept_marks }
    ensures { (d : _) → result ≡ earliest_mark d marks.now }
{
    marks[KEPT_MARKS - 1]
}
