//! References to progress, which forward each call.
use crate::traits::count::Count;
use crate::traits::progress::{NestedProgress, Progress};
use prodash_base::Refusal;
use prodash_base::messages::MessageLevel;
use prodash_base::progress::{Id, Step, StepShared};
use prodash_base::time::Moment;
use prodash_base::unit::Unit;
use std::alloc::Global;

impl<T: Count> Count for &T {
    ghost was_set = { λ it step. T.was_set it.now step };

    ghost was_raised = { λ it step. T.was_raised it.now step };

    ghost shows = { λ it step. T.shows it.now step };

    ghost counts_in = { λ it counter. T.counts_in it.now counter };

    fn set(&self, step: Step) {
        (**self).set(step)
    }

    fn step(&self) -> Step {
        (**self).step()
    }

    fn inc_by(&self, step: Step) {
        (**self).inc_by(step)
    }

    fn inc(&self) {
        (**self).inc()
    }

    fn counter(&self, alloc: Global) -> Result<StepShared, Refusal> {
        (**self).counter(alloc)
    }
}

impl<T: Count> Count for &mut T {
    ghost was_set = { λ it step. T.was_set it.now step };

    ghost was_raised = { λ it step. T.was_raised it.now step };

    ghost shows = { λ it step. T.shows it.now step };

    ghost counts_in = { λ it counter. T.counts_in it.now counter };

    fn set(&self, step: Step) {
        (**self).set(step)
    }

    fn step(&self) -> Step {
        (**self).step()
    }

    fn inc_by(&self, step: Step) {
        (**self).inc_by(step)
    }

    fn inc(&self) {
        (**self).inc()
    }

    fn counter(&self, alloc: Global) -> Result<StepShared, Refusal> {
        (**self).counter(alloc)
    }
}

impl<T: Progress> Progress for &mut T {
    ghost begins = { λ it max unit after. T.begins it.now max unit after.now };

    ghost has_unit = { λ it unit. T.has_unit it.now unit };

    ghost has_bound = { λ it max. T.has_bound it.now max };

    ghost gets_bound = { λ it max before after. T.gets_bound it.now max before after.now };

    ghost gets_name = { λ it name after. T.gets_name it.now name after.now };

    ghost has_name = { λ it name. T.has_name it.now name };

    ghost has_id = { λ it id. T.has_id it.now id };

    ghost was_sent = { λ it at level text. T.was_sent it.now at level text };

    fn init(&mut self, max: Option<Step>, unit: Option<Unit>) {
        (**self).init(max, unit)
    }

    fn unit(&self) -> Option<Unit> {
        (**self).unit()
    }

    fn max(&self) -> Option<Step> {
        (**self).max()
    }

    fn set_max(&mut self, max: Option<Step>) -> Option<Step> {
        (**self).set_max(max)
    }

    fn set_name(&mut self, alloc: Global, name: &str) -> Result<(), Refusal> {
        (**self).set_name(alloc, name)
    }

    fn name(&self, alloc: Global) -> Result<Option<String>, Refusal> {
        (**self).name(alloc)
    }

    fn id(&self) -> Id {
        (**self).id()
    }

    fn message(
        &self,
        alloc: Global,
        at: Moment,
        level: MessageLevel,
        message: &str,
    ) -> Result<(), Refusal> {
        (**self).message(alloc, at, level, message)
    }

    fn info(&self, alloc: Global, at: Moment, message: &str) -> Result<(), Refusal> {
        (**self).info(alloc, at, message)
    }

    fn done(&self, alloc: Global, at: Moment, message: &str) -> Result<(), Refusal> {
        (**self).done(alloc, at, message)
    }

    fn fail(&self, alloc: Global, at: Moment, message: &str) -> Result<(), Refusal> {
        (**self).fail(alloc, at, message)
    }

    fn show_throughput(&self, alloc: Global, start: Moment, now: Moment) -> Result<(), Refusal> {
        (**self).show_throughput(alloc, start, now)
    }

    fn show_throughput_with(
        &self,
        alloc: Global,
        start: Moment,
        now: Moment,
        step: Step,
        unit: Option<Unit>,
        level: MessageLevel,
    ) -> Result<(), Refusal> {
        (**self).show_throughput_with(alloc, start, now, step, unit, level)
    }
}

impl<T: NestedProgress> NestedProgress for &mut T {
    type SubProgress = T::SubProgress;

    ghost gets_child = { λ it name id after child. T.gets_child it.now name id after.now child };

    fn add_child(&mut self, alloc: Global, name: &str) -> Result<T::SubProgress, Refusal> {
        (**self).add_child(alloc, name)
    }

    fn add_child_with_id(
        &mut self,
        alloc: Global,
        name: &str,
        id: Id,
    ) -> Result<T::SubProgress, Refusal> {
        (**self).add_child_with_id(alloc, name, id)
    }
}
