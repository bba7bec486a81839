//! A log as a progress.
ghost use Rattle.std.specs.Prelude.{◌≡◌};
ghost use Rattle.prodash.specs.Logs.{child_log, Renames, IsSecondPart};

use super::Log;
use crate::messages::MessageLevel;
use crate::progress::{Id, Step, StepShared};
use crate::time::{Clock, Moment};
use crate::unit::{Unit, throughput_message};
use log::Log as Logger;
use prodash_base::Refusal;
use prodash_core::traits::{Count, NestedProgress, Progress};
use std::alloc::Global;

impl<L: Logger + Drop, K: Clock + Drop> Count for Log<L, K> {
    fn set(&self, step: Step) {
        Log::set(self, step);
    }

    fn step(&self) -> Step {
        Log::step(self)
    }

    fn inc_by(&self, step: Step) {
        Log::inc_by(self, step);
    }

    fn counter(&self, _alloc: Global) -> Result<StepShared, Refusal> {
        Log::counter(self)
    }
}

impl<L: Logger + Drop + Send + Sync, K: Clock + Drop + Send + Sync> Progress for Log<L, K> {
    ghost begins = { λ log max unit after. after ≡ record log { max = max; unit = unit } };

    ghost has_unit = { λ log unit. unit ≡ log.unit };

    ghost has_bound = { λ log max. max ≡ log.max };

    ghost gets_bound = { λ log max before after. (before ≡ log.max)
        × (after ≡ record log { max = max }) };

    ghost gets_name = { Renames };

    ghost has_name = { λ log name. IsSecondPart log.name name };

    ghost has_id = { λ log id. id ≡ log.id };

    fn init(&mut self, max: Option<Step>, unit: Option<Unit>) {
        Log::init(self, max, unit);
    }

    fn unit(&self) -> Option<Unit> {
        Log::unit(self)
    }

    fn max(&self) -> Option<Step> {
        Log::max(self)
    }

    fn set_max(&mut self, max: Option<Step>) -> Option<Step> {
        Log::set_max(self, max)
    }

    fn set_name(&mut self, alloc: Global, name: &str) -> Result<(), Refusal> {
        Log::set_name(self, alloc, name)
    }

    fn name(&self, alloc: Global) -> Result<Option<String>, Refusal> {
        Log::name(self, alloc)
    }

    fn id(&self) -> Id {
        Log::id(self)
    }

    fn message(
        &self,
        alloc: Global,
        at: Moment,
        level: MessageLevel,
        message: &str,
    ) -> Result<(), Refusal> {
        Log::message(self, alloc, at, level, message)
    }

    fn show_throughput_with(
        &self,
        alloc: Global,
        start: Moment,
        now: Moment,
        step: Step,
        unit: Option<Unit>,
        level: MessageLevel,
    ) -> Result<(), Refusal> {
        let text = throughput_message(alloc, start, now, step, unit.as_ref())?;
        Log::message(self, alloc, now, level, &text)
    }
}

impl<L: Logger + Drop + Send + Sync, K: Clock + Drop + Send + Sync> NestedProgress for Log<L, K> {
    type SubProgress = Log<L, K>;

    ghost gets_child = { λ log name id after child. (after ≡ log)
        × (child ≡ child_log log name id child.steps) };

    fn add_child(&mut self, alloc: Global, name: &str) -> Result<Log<L, K>, Refusal> {
        Log::add_child(self, alloc, name)
    }

    fn add_child_with_id(
        &mut self,
        alloc: Global,
        name: &str,
        id: Id,
    ) -> Result<Log<L, K>, Refusal> {
        Log::add_child_with_id(self, alloc, name, id)
    }
}
