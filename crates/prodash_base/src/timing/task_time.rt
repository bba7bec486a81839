//! What a row says of its task's time.
ghost use Rattle.std.specs.Prelude.{OnOk, ◌≡◌};
ghost use Rattle.prodash_base.specs.Appending.{Appends};
ghost use Rattle.prodash_base.specs.plumbing.Pushing.{Pushes};
ghost use Rattle.prodash_base.specs.Times.{elapsed_text, left_text, stalled_text, time_text};

use crate::appending::push_text;
use crate::times::push_seconds;
use std::alloc::AllocError;

/// What a row says of its task's time, in whole seconds.
#[derive(Clone, Copy, Debug, PartialEq, Eq)]
pub struct TaskTime {
    /// Whether the task has finished.
    pub has_finished: bool,
    /// How long it took if it has finished, or else has run so far.
    pub elapsed: u64,
    /// How long the rest takes, if that is known.
    pub remaining: Option<u64>,
    /// For how long there was no step, if there was none for long.
    pub stalled: Option<u64>,
}

impl TaskTime {
    /// Appends the text, as `1m05s, 2m10s left`, `32s, no step for 12s` or `in 3m15s`. Fails if out
    /// of memory; a part may have been appended then.
    pub fn append_to(&self, out: &mut String) -> Result<(), AllocError>
        ensures { OnOk result (Appends out.old (time_text self.now) out.new) }
    {
        push_elapsed(out, self.has_finished, self.elapsed)?;
        push_left(out, self.remaining)?;
        push_stalled(out, self.stalled)
    }
}

/// Appends how long a task has run, as `42s`, or how long it took, as `in 42s`.
fn push_elapsed(out: &mut String, has_finished: bool, seconds: u64) -> Result<(), AllocError>
    ensures { Pushes result out.old (elapsed_text has_finished seconds) out.new }
{
    if has_finished {
        push_text(out, "in ")?;
    }
    push_seconds(out, seconds)
}

/// Appends how long the rest takes, as `, 12s left`; nothing if that isn't known.
pub(crate) fn push_left(out: &mut String, remaining: Option<u64>) -> Result<(), AllocError>
    ensures { Pushes result out.old (left_text remaining) out.new }
{
    let Some(seconds) = remaining else {
        return Ok(());
    };
    push_text(out, ", ")?;
    push_seconds(out, seconds)?;
    push_text(out, " left")
}

/// Appends for how long there was no step, as `, no step for 12s`; nothing if there were steps.
fn push_stalled(out: &mut String, stalled: Option<u64>) -> Result<(), AllocError>
    ensures { Pushes result out.old (stalled_text stalled) out.new }
{
    let Some(seconds) = stalled else {
        return Ok(());
    };
    push_text(out, ", no step for ")?;
    push_seconds(out, seconds)
}
