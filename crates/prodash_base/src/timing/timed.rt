//! What is known of the time of one task.
ghost use Rattle.std.specs.Prelude.{◌≡◌, Some};
ghost use Rattle.prodash_base.specs.Rows.{progress_of, phase_of};
ghost use Rattle.prodash_base.specs.Timers.{first_timing, later_timing, begins_anew, next_timing, stalled_for, remaining_of, time_elapsed, time_in, time_by};

use crate::progress::{Key, State, Step, Value};
use crate::times::{finished_at, is_past, remaining_seconds};
use crate::timing::TaskTime;
use crate::timing::marks::{KEPT_MARKS, Mark, add_mark, earliest_mark};
use crate::unit::Unit;
use std::alloc::AllocError;
use std::marker::Model;

/// The nanoseconds without a step from which on a task has stalled.
const STALL_LIMIT: u64 = 10_000_000_000;

/// What is known of a task. Its moments are in the time of the timer. Contracts see its path, and
/// what is known.
#[derive(Debug, Drop)]
pub(crate) struct Timed {
    pub(crate) key: Key,
    /// When the task began.
    began: u64,
    /// Its step at the latest tick.
    step: Step,
    /// The unit of its steps.
    unit: Option<Unit>,
    /// When its step changed last.
    stepped: u64,
    /// When it was first seen at its bound, if it is there.
    finished: Option<u64>,
    /// The latest marks, the latest first.
    marks: [Mark; KEPT_MARKS],
}

impl Model for Timed {
    ghost use Rattle.std.specs.Prelude.{◌≡◌, length};
    ghost use Rattle.std.specs.Option.{option_map};
    ghost use Rattle.prodash_base.specs.Path.{Path};
    ghost use Rattle.prodash_base.specs.Units.{measure_of};
    ghost use Rattle.prodash_base.specs.Timers.{Timing, kept_marks};

    ghost Value = { Path × Timing };

    ghost view = { λ t. (
      t.key,
      record {
        began = t.began;
        step = t.step;
        unit = option_map measure_of t.unit;
        stepped = t.stepped;
        finished = t.finished;
        marks = t.marks;
      },
    ) };

    ghost invariant = { λ t. length t.marks ≡ kept_marks };
}

impl Clone for Timed {
    ghost is_clone = { λ timed copy. copy ≡ timed };

    fn clone(&self) -> Result<Timed, AllocError> {
        Ok(self.copy(self.key))
    }
}

impl Timed {
    /// Returns the same of a task with this key.
    #[inline(always)]
    pub(crate) fn copy(&self, key: Key) -> Timed
        ensures { result ≡ (key, self.now.1) }
    {
        Timed {
            key,
            began: self.began,
            step: self.step,
            unit: self.unit,
            stepped: self.stepped,
            finished: self.finished,
            marks: self.marks,
        }
    }

    /// Returns a task after a tick that has seen its progress.
    pub(crate) fn next(&self, key: Key, now: u64, value: &Value) -> Timed
        ensures { result ≡ (key, next_timing (Some self.now.1) now (progress_of value.now)) }
    {
        let mut timed = self.copy(key);
        timed.see(now, value);
        timed
    }

    /// Makes this the task after a tick that has seen its progress.
    pub(crate) fn see(&mut self, now: u64, value: &Value)
        ensures { self.new
            ≡ (self.old.0, next_timing (Some self.old.1) now (progress_of value.now)) }
    {
        if self.begins_anew(value) {
            *self = Timed::first(self.key, now, value);
        } else {
            self.go_on(now, value);
        }
    }

    /// Returns a task that begins now.
    pub(crate) fn first(key: Key, now: u64, value: &Value) -> Timed
        ensures { result ≡ (key, first_timing now (progress_of value.now)) }
    {
        let step = value.step;
        Timed {
            key,
            began: now,
            step,
            unit: value.unit,
            stepped: now,
            finished: finished_at(is_past(step, value.done_at), None, now),
            marks: [Mark { at: now, step }; KEPT_MARKS],
        }
    }

    /// Makes this the task as it goes on.
    fn go_on(&mut self, now: u64, value: &Value)
        ensures { self.new ≡ (self.old.0, later_timing self.old.1 now (progress_of value.now)) }
    {
        let step = value.step;
        if step != self.step {
            self.stepped = now;
        }
        self.step = step;
        self.finished = finished_at(is_past(step, value.done_at), self.finished, now);
        add_mark(&mut self.marks, Mark { at: now, step });
    }

    /// Returns whether the task begins anew with this progress.
    fn begins_anew(&self, value: &Value) -> bool
        ensures { result ≡ begins_anew self.now.1 (progress_of value.now) }
    {
        self.unit != value.unit || value.step < self.step
    }

    /// Returns the task's time: how long it took if it has finished, or else has run.
    pub(crate) fn time(&self, now: u64, value: &Value) -> TaskTime
        ensures { result ≡ time_by self.now.1.finished self.now.1 now (progress_of value.now) }
    {
        match self.finished {
            Some(finished) => TaskTime {
                has_finished: true,
                ..time_elapsed(finished.saturating_sub(self.began))
            },
            None => self.time_in(value.state, now, value.done_at),
        }
    }

    /// Returns the time of a task that hasn't finished, in this state.
    fn time_in(&self, state: State, now: u64, bound: Option<Step>) -> TaskTime
        ensures { result ≡ time_in (phase_of state) self.now.1 now bound }
    {
        let elapsed = time_elapsed(now.saturating_sub(self.began));
        match state {
            State::Running => TaskTime {
                remaining: self.remaining(now, bound),
                stalled: stalled_for(now.saturating_sub(self.stepped)),
                ..elapsed
            },
            State::Halted(_, _) | State::Blocked(_, _) => elapsed,
        }
    }

    /// Returns the seconds that the rest takes, as the steps since the earliest mark took.
    fn remaining(&self, now: u64, bound: Option<Step>) -> Option<u64>
        ensures { result ≡ remaining_of self.now.1 now bound }
    {
        let first = earliest_mark(&self.marks);
        remaining_seconds(
            bound?.saturating_sub(self.step),
            self.step.saturating_sub(first.step),
            now.saturating_sub(first.at),
        )
    }
}

/// Returns the time of a task that has run for this many nanoseconds.
fn time_elapsed(nanoseconds: u64) -> TaskTime
    ensures { result ≡ time_elapsed nanoseconds }
{
    TaskTime {
        has_finished: false,
        elapsed: nanoseconds / 1_000_000_000,
        remaining: None,
        stalled: None,
    }
}

/// Returns the seconds for which there was no step, if there was none for long.
fn stalled_for(nanoseconds: u64) -> Option<u64>
    ensures { result ≡ stalled_for nanoseconds }
{
    (nanoseconds >= STALL_LIMIT).then_some(nanoseconds / 1_000_000_000)
}
