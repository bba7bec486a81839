//! The traits of progress for tasks of recorded trees. A call means its entry in the journal.
ghost use Rattle.std.specs.Prelude.{◌≡◌};
ghost use Rattle.prodash_core.specs.declared.tree.event.Event.TheVariants.{Init, SetName, SetMax, Set, IncBy, Message, Name, Id, Step, Max};
ghost use Rattle.prodash_core.specs.declared.tree.event.Event.TheVariants as events;
ghost use Rattle.prodash.specs.Recorders.{InCallTurn, AddsTask, Tells, Makes, Reads, step_in, bound_in, unit_in, id_in, name_in};

use crate::messages::MessageLevel;
use crate::progress::{Id, Step, StepShared, UNKNOWN};
use crate::time::Moment;
use crate::tree::recorded::ledgers::TreeLedger;
use crate::tree::recorded::replies::{bound_in, id_in, name_in, step_in, told_as, unit_in};
use crate::tree::recorded::task::RecordedTask;
use crate::tree::recorded::turns::TakesRecorderTurns;
use crate::unit::{Unit, throughput_message};
use prodash_base::{Refusal, Text};
use prodash_core::traits::{Count, NestedProgress, Progress};
use prodash_core::tree::Event;
use std::alloc::Global;
use std::sync::ledger::Ledger;

impl<R: TakesRecorderTurns, C: TreeLedger, S: Ledger> Count for RecordedTask<R, C, S> {
    ghost was_set = { λ task step. Tells R.found R.left task (Set task step) };

    ghost was_raised = { λ task step. Tells R.found R.left task (IncBy task step) };

    ghost shows = { λ task step. Reads R.found R.left task (Step task) step_in step };

    #[tactic(auto, using(crate::proofs::CallTurns::calling))]
    fn set(&self, step: Step) {
        let item = self.handle();
        let _ = self.tell(Event::Set { item, step });
    }

    #[tactic(auto, using(crate::proofs::CallTurns::calling))]
    fn step(&self) -> Step {
        let item = self.handle();
        step_in(self.tell(Event::Step { item }))
    }

    #[tactic(auto, using(crate::proofs::CallTurns::calling))]
    fn inc_by(&self, step: Step) {
        let item = self.handle();
        let _ = self.tell(Event::IncBy { item, step });
    }

    /// Returns another owner of the counter, which is at the step that the task has. What is added
    /// to it gets an entry of its own, an `IncBy`, before that of the task's next call, apart from
    /// `add_child`, or before the task is dropped.
    ///
    /// # Errors
    ///
    /// `Memory`, if the counter's reference count is at its limit.
    fn counter(&self, _alloc: Global) -> Result<StepShared, Refusal> {
        self.steps().counter()
    }
}

impl<
    R: TakesRecorderTurns + Send + Sync,
    C: TreeLedger + Send + Sync,
    S: Ledger + Send + Sync,
> Progress for RecordedTask<R, C, S> {
    ghost begins = { λ task max unit after.
        (after ≡ task) × Tells R.found R.left task (Init task max unit) };

    ghost has_unit = { λ task unit. Reads R.found R.left task (events.Unit task) unit_in unit };

    ghost has_bound = { λ task max. Reads R.found R.left task (Max task) bound_in max };

    ghost gets_bound = { λ task max before after.
        (after ≡ task) × Reads R.found R.left task (SetMax task max) bound_in before };

    ghost gets_name = { λ task name after.
        (after ≡ task) × Makes R.found R.left task (SetName task name) };

    ghost has_name = { λ task name. Reads R.found R.left task (Name task) name_in name };

    ghost has_id = { λ task id. Reads R.found R.left task (Id task) id_in id };

    ghost was_sent = { λ task at level text.
        Makes R.found R.left task (Message task at level text) };

    #[tactic(auto, using(crate::proofs::CallTurns::calling))]
    fn init(&mut self, max: Option<Step>, unit: Option<Unit>) {
        let item = self.handle();
        let _ = self.tell(Event::Init { item, max, unit });
    }

    #[tactic(auto, using(crate::proofs::CallTurns::calling))]
    fn unit(&self) -> Option<Unit> {
        let item = self.handle();
        unit_in(self.tell(Event::Unit { item }))
    }

    #[tactic(auto, using(crate::proofs::CallTurns::calling))]
    fn max(&self) -> Option<Step> {
        let item = self.handle();
        bound_in(self.tell(Event::Max { item }))
    }

    #[tactic(auto, using(crate::proofs::CallTurns::calling))]
    fn set_max(&mut self, max: Option<Step>) -> Option<Step> {
        let item = self.handle();
        bound_in(self.tell(Event::SetMax { item, max }))
    }

    #[tactic(auto, using(crate::proofs::CallTurns::calling))]
    fn set_name(&mut self, alloc: Global, name: &str) -> Result<(), Refusal> {
        let (item, name) = (self.handle(), Text::from_str(alloc, name)?);
        match self.call(alloc, Event::SetName { item, name }) {
            Ok(_) => Ok(()),
            Err(_) => Err(Refusal::Memory),
        }
    }

    #[tactic(auto, using(crate::proofs::CallTurns::calling))]
    fn name(&self, alloc: Global) -> Result<Option<String>, Refusal> {
        let item = self.handle();
        name_in(self.call(alloc, Event::Name { item }))
    }

    #[tactic(auto, using(crate::proofs::CallTurns::calling))]
    fn id(&self) -> Id {
        let item = self.handle();
        id_in(self.tell(Event::Id { item }))
    }

    #[tactic(auto, using(crate::proofs::CallTurns::calling))]
    fn message(
        &self,
        alloc: Global,
        at: Moment,
        level: MessageLevel,
        message: &str,
    ) -> Result<(), Refusal> {
        let (item, text) = (self.handle(), Text::from_str(alloc, message)?);
        told_as(self.call(
            alloc,
            Event::Message {
                item,
                at,
                level,
                text,
            },
        ))
    }

    fn show_throughput_with(
        &self,
        alloc: Global,
        start: Moment,
        now: Moment,
        step: Step,
        unit: Option<Unit>,
        level: MessageLevel,
    ) -> Result<(), Refusal> {
        let text = throughput_message(alloc, start, now, step, unit.as_ref())?;
        self.message(alloc, now, level, &text)
    }
}

impl<
    R: TakesRecorderTurns + Send + Sync,
    C: TreeLedger + Send + Sync,
    S: Ledger + Send + Sync,
> NestedProgress for RecordedTask<R, C, S> {
    type SubProgress = RecordedTask<R, C, S>;

    ghost gets_child = { λ task name id after child.
        (after ≡ task) × InCallTurn R.found R.left (AddsTask task name id child) };

    fn add_child(&mut self, alloc: Global, name: &str) -> Result<RecordedTask<R, C, S>, Refusal> {
        self.add_below(alloc, name, UNKNOWN)
            .or(Err(Refusal::Memory))
    }

    fn add_child_with_id(
        &mut self,
        alloc: Global,
        name: &str,
        id: Id,
    ) -> Result<RecordedTask<R, C, S>, Refusal> {
        self.add_below(alloc, name, id).or(Err(Refusal::Memory))
    }
}
