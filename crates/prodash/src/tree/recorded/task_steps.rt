//! The counters of tasks of recorded trees.
ghost use Rattle.std.specs.Prelude.{IsOkUnless};

use crate::progress::{AtomicStep, Step, StepShared};
use prodash_base::Refusal;
use prodash_core::tree::Event;
use std::alloc::{AllocFailed, Global};
use std::sync::Arc;
use std::sync::atomic::Ordering;

/// The counter of a task, which has other owners, and the step to which the journal leads. They
/// differ by what these owners have counted. The calls are made under the lock of a recorder.
#[derive(Drop)]
pub(crate) struct TaskSteps {
    counter: StepShared,
    recorded: AtomicStep,
}

/// What an event does to the step of its item.
#[derive(Clone, Copy)]
pub(crate) enum StepChange {
    /// It sets the step.
    To(Step),
    /// It adds to the step.
    By(Step),
}

impl TaskSteps {
    /// Returns a counter at step 0.
    pub(crate) fn new(alloc: Global) -> Result<TaskSteps, AllocFailed<AtomicStep>> {
        Ok(TaskSteps {
            counter: Arc::new(alloc, AtomicStep::new(0))?,
            recorded: AtomicStep::new(0),
        })
    }

    /// Returns what other owners have added to the counter, modulo 2^64, that the journal lacks.
    pub(crate) fn unrecorded(&self) -> Step {
        let recorded = self.recorded.load(Ordering::SeqCst);
        self.counter.load(Ordering::SeqCst).wrapping_sub(recorded)
    }

    /// Notes that the journal has steps which the counter has.
    pub(crate) fn add_recorded(&self, step: Step) {
        self.recorded.fetch_add(step, Ordering::SeqCst);
    }

    /// Follows an event that has an entry.
    pub(crate) fn follow(&self, change: StepChange) {
        match change {
            StepChange::To(step) => {
                self.recorded.store(step, Ordering::SeqCst);
                self.counter.store(step, Ordering::SeqCst);
            }
            StepChange::By(step) => {
                self.recorded.fetch_add(step, Ordering::SeqCst);
                self.counter.fetch_add(step, Ordering::SeqCst);
            }
        }
    }

    /// Returns another owner of the counter.
    pub(crate) fn counter(&self) -> Result<StepShared, Refusal>
        ensures { IsOkUnless result Refusal.Memory }
    {
        Ok(Arc::try_clone(&self.counter)?)
    }
}

impl StepChange {
    /// Returns what an event does to the step of its item.
    pub(crate) fn of(event: &Event) -> StepChange {
        match event {
            Event::Init { .. } => StepChange::To(0),
            Event::Set { step, .. } => StepChange::To(*step),
            Event::IncBy { step, .. } => StepChange::By(*step),
            _ => StepChange::By(0),
        }
    }
}
