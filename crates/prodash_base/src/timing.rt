//! Since when the tasks that a renderer sees go on, and what their rows say of that.
ghost use Rattle.std.specs.Prelude.{◌≡◌, IfOk, IsOkUnless};
ghost use Rattle.prodash_base.specs.Rows.{rows_of, row_of};
ghost use Rattle.prodash_base.specs.Timers.{new_timer, time_at, timer_after, row_time, goes_on, HoldsMarks};

mod marks;
mod table;
mod task_time;
mod timed;

use crate::progress::Row;
use crate::refusal::Refusal;
use crate::time::Moment;
use crate::times::is_past;
use std::alloc::Global;
use std::marker::Model;
use table::{find, with_timings};
pub use task_time::TaskTime;
use timed::Timed;

/// Remembers of each task since when it goes on, when its step changed last and what it has done
/// lately, from tick to tick. Contracts see the moment of the latest tick, the time of the timer
/// then, and what is known of each path, in order.
///
/// The timer has a time of its own, to which each tick adds the time since the tick before. A clock
/// that goes back adds nothing.
///
/// A task begins at the first tick that sees its row with progress, and begins anew at one that
/// sees it in another unit, or at a step below the one that it had. It doesn't begin anew with
/// another bound, since a bound may grow while work is found.
///
/// ```rust
/// let timer = Timer::new(alloc);
/// let timer = timer.after(alloc, 0, rows)?;
/// let mut likely = 0;
/// let time = timer.row_time(5_000_000_000, &rows[0], &mut likely);
/// ```
#[derive(Drop)]
pub struct Timer {
    updated_at: Option<Moment>,
    /// The time of the timer at that moment, in nanoseconds.
    time: u64,
    /// What is known of each key, sorted by key.
    timings: Vec<Timed>,
}

impl Model for Timer {
    ghost use Rattle.prodash_base.specs.Timers.{TimerState};
    ghost use Rattle.prodash_base.specs.plumbing.TimedTables.{IsTable};

    ghost Value = { TimerState };

    ghost view = { λ t.
        record { updated_at = t.updated_at; time = t.time; timings = t.timings.items } };

    ghost invariant = { λ t. IsTable t.timings.items };
}

impl Timer {
    /// Returns a timer that has seen nothing.
    pub fn new(alloc: Global) -> Timer
        ensures { result ≡ new_timer }
    {
        Timer {
            updated_at: None,
            time: 0,
            timings: Vec::new(alloc),
        }
    }

    /// Returns an equal timer.
    ///
    /// # Errors
    ///
    /// `Memory`, if out of memory.
    pub fn copy(&self) -> Result<Timer, Refusal>
        ensures ok { IfOk result (λ copy. copy ≡ self.now) }
        ensures reason { IsOkUnless result Refusal.Memory }
    {
        Ok(Timer {
            updated_at: self.updated_at,
            time: self.time,
            timings: self.timings.clone()?,
        })
    }

    /// Returns the timer after a tick that has seen these rows. It forgets each task whose row isn't
    /// among them or has no progress. Of a task it keeps sixteen marks, however often it is called.
    ///
    /// # Errors
    ///
    /// `Memory`, if out of memory.
    pub fn after(&self, alloc: Global, at: Moment, rows: &[Row]) -> Result<Timer, Refusal>
        ensures ok { IfOk result (λ timer. timer ≡ timer_after self.now at (rows_of rows.now)) }
        ensures bound { IfOk result (λ timer. HoldsMarks timer.timings) }
        ensures reason { IsOkUnless result Refusal.Memory }
    {
        let now = self.time_at(at);
        Ok(Timer {
            updated_at: Some(at),
            time: now,
            timings: with_timings(alloc, &self.timings, now, rows)?,
        })
    }

    /// Returns what a row of the latest tick says of its time at a moment, or `None` if it has no
    /// progress. Its task is looked for first at the index `likely`, which is then the one after it.
    pub fn row_time(&self, at: Moment, row: &Row, likely: &mut usize) -> Option<TaskTime>
        ensures { result ≡ row_time self.now at (row_of row.now) }
    {
        let value = row.progress.as_ref()?;
        let timed = find(&self.timings, &row.key, likely)?;
        Some(timed.time(self.time_at(at), value))
    }

    /// Returns the time of the timer at a moment.
    fn time_at(&self, at: Moment) -> u64
        ensures { result ≡ time_at self.now at }
    {
        let passed = match self.updated_at {
            Some(before) => at.saturating_sub(before),
            None => 0,
        };
        self.time.saturating_add(passed)
    }
}

/// Returns whether the time of a row goes on: that of one with progress does until it has finished.
pub fn goes_on(row: &Row) -> bool
    ensures { result ≡ goes_on (row_of row.now).1.progress }
{
    match &row.progress {
        Some(value) => !is_past(value.step, value.done_at),
        None => false,
    }
}
