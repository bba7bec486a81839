//! Counters of steps, which are changed without a lock.
ghost use Rattle.std.specs.Prelude.{IsOkUnless};

use crate::progress::{Step, StepShared};
use prodash_base::Refusal;
use std::sync::Arc;
use std::sync::atomic::Ordering;

/// The counter of an item or a log. Each call except `counter` is one atomic operation, and none
/// waits for the lock of a tree, so that code that must not wait can report its steps.
///
/// ```rust
/// let steps = item.steps();
/// steps.set(3);
/// steps.inc();
/// assert_eq!(rt; steps.step(), 4);
/// ```
#[derive(Drop)]
pub struct Steps {
    counter: StepShared,
}

impl Steps {
    /// Returns steps that are counted by this counter.
    pub(crate) fn new(counter: StepShared) -> Steps {
        Steps { counter }
    }

    /// Sets the counter to a step.
    pub fn set(&self, step: Step) {
        self.counter.store(step, Ordering::SeqCst);
    }

    /// Adds `step` to the counter. The sum wraps around at 2^64.
    pub fn inc_by(&self, step: Step) {
        self.counter.fetch_add(step, Ordering::SeqCst);
    }

    /// Adds 1 to the counter. The sum wraps around at 2^64.
    pub fn inc(&self) {
        self.inc_by(1);
    }

    /// Returns the current step.
    pub fn step(&self) -> Step {
        self.counter.load(Ordering::SeqCst)
    }

    /// Returns another owner of the counter.
    ///
    /// # Errors
    ///
    /// `Memory`, if the counter's reference count is at its limit.
    pub fn counter(&self) -> Result<StepShared, Refusal>
        ensures { IsOkUnless result Refusal.Memory }
    {
        Ok(Arc::try_clone(&self.counter)?)
    }
}
