//! Boxed progress, which forwards each call.
ghost use Rattle.prodash_core.specs.Traits.{Becomes};

use crate::traits::count::Count;
use crate::traits::progress::Progress;
use prodash_base::Refusal;
use prodash_base::messages::MessageLevel;
use prodash_base::progress::{Id, Step, StepShared};
use prodash_base::time::Moment;
use prodash_base::unit::Unit;
use std::alloc::Global;

/// Boxed progress of a type that is not known.
pub type BoxedProgress = Box<dyn Progress + Drop>;

impl Count for BoxedProgress {
    ghost was_set = { λ it step. (Progress-box it).Count.was_set it.value step };

    ghost was_raised = { λ it step. (Progress-box it).Count.was_raised it.value step };

    ghost shows = { λ it step. (Progress-box it).Count.shows it.value step };

    ghost counts_in = { λ it counter. (Progress-box it).Count.counts_in it.value counter };

    fn set(&self, step: Step) {
        (**self).set(step)
    }

    fn step(&self) -> Step {
        (**self).step()
    }

    fn inc_by(&self, step: Step) {
        (**self).inc_by(step)
    }

    fn inc(&self) {
        (**self).inc()
    }

    fn counter(&self, alloc: Global) -> Result<StepShared, Refusal> {
        (**self).counter(alloc)
    }
}

impl Progress for BoxedProgress {
    ghost begins = { λ it max unit after.
        Becomes it ((Progress-box it).Progress.begins it.value max unit) after };

    ghost has_unit = { λ it unit. (Progress-box it).Progress.has_unit it.value unit };

    ghost has_bound = { λ it max. (Progress-box it).Progress.has_bound it.value max };

    ghost gets_bound = { λ it max before after.
        Becomes it ((Progress-box it).Progress.gets_bound it.value max before) after };

    ghost gets_name = { λ it name after.
        Becomes it ((Progress-box it).Progress.gets_name it.value name) after };

    ghost has_name = { λ it name. (Progress-box it).Progress.has_name it.value name };

    ghost has_id = { λ it id. (Progress-box it).Progress.has_id it.value id };

    ghost was_sent = { λ it at level text. (Progress-box it).Progress.was_sent it.value at level text };

    fn init(&mut self, max: Option<Step>, unit: Option<Unit>) {
        (**self).init(max, unit)
    }

    fn unit(&self) -> Option<Unit> {
        (**self).unit()
    }

    fn max(&self) -> Option<Step> {
        (**self).max()
    }

    fn set_max(&mut self, max: Option<Step>) -> Option<Step> {
        (**self).set_max(max)
    }

    fn set_name(&mut self, alloc: Global, name: &str) -> Result<(), Refusal> {
        (**self).set_name(alloc, name)
    }

    fn name(&self, alloc: Global) -> Result<Option<String>, Refusal> {
        (**self).name(alloc)
    }

    fn id(&self) -> Id {
        (**self).id()
    }

    fn message(
        &self,
        alloc: Global,
        at: Moment,
        level: MessageLevel,
        message: &str,
    ) -> Result<(), Refusal> {
        (**self).message(alloc, at, level, message)
    }

    fn info(&self, alloc: Global, at: Moment, message: &str) -> Result<(), Refusal> {
        (**self).info(alloc, at, message)
    }

    fn done(&self, alloc: Global, at: Moment, message: &str) -> Result<(), Refusal> {
        (**self).done(alloc, at, message)
    }

    fn fail(&self, alloc: Global, at: Moment, message: &str) -> Result<(), Refusal> {
        (**self).fail(alloc, at, message)
    }

    fn show_throughput(&self, alloc: Global, start: Moment, now: Moment) -> Result<(), Refusal> {
        (**self).show_throughput(alloc, start, now)
    }

    fn show_throughput_with(
        &self,
        alloc: Global,
        start: Moment,
        now: Moment,
        step: Step,
        unit: Option<Unit>,
        level: MessageLevel,
    ) -> Result<(), Refusal> {
        (**self).show_throughput_with(alloc, start, now, step, unit, level)
    }
}
