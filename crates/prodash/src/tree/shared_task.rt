//! Tasks of the locked tree, without a runtime.
ghost use Rattle.std.specs.Prelude.{◌≡◌, OnOk, OnErr, IfOk, IfErr, IsOkUnless};
ghost use Rattle.prodash_base.specs.Refusals.{RefusesMessage};
ghost use Rattle.prodash_base.specs.Rows.{phase_of};
ghost use Rattle.prodash.specs.Items.{new_place, next_path, with_child};
ghost use Rattle.prodash.specs.Turns.{HasId, HasBound, HasUnit, Begins, SetsName, SetsBound, SetsPhase, Sends, AddsBelow};
ghost use Rattle.prodash.specs.plumbing.LockedCalls.{ChangesNothing};
ghost use Rattle.prodash.specs.plumbing.CountedTurns.{TakesOne, TakesAtMostOne, LooksOnce, Tries, Gets, HasNameOf, RemovesTask};

use crate::messages::MessageLevel;
use crate::progress::{Id, Key, State, Step, key};
use crate::time::Moment;
use crate::tree::locked::LockedTree;
use crate::tree::steps::Steps;
use crate::tree::turns::CountsTurns;
use crate::unit::Unit;
use prodash_base::Refusal;
use std::alloc::Global;
use std::marker::Model;
use std::sync::{Arc, Mutex};

/// What an item has besides its runtime. Each call that needs the tree is handed what it takes its
/// turns by. Contracts see the path, and the number of the next child.
#[derive(Drop)]
pub struct SharedTask {
    lock: Arc<Mutex<LockedTree>>,
    key: Key,
    next_child: u32,
    slot: usize,
    steps: Steps,
}

impl Model for SharedTask {
    ghost use Rattle.prodash.specs.Items.{Place};

    ghost Value = { Place };

    ghost view = { λ task. record { path = task.key; next_child = task.next_child } };
}

impl SharedTask {
    /// Returns the task at a key, with the slot and the steps of its item.
    pub(crate) fn new(
        lock: Arc<Mutex<LockedTree>>,
        key: Key,
        slot: usize,
        steps: Steps,
    ) -> SharedTask
        ensures { result ≡ new_place key }
    {
        SharedTask {
            lock,
            key,
            next_child: 0,
            slot,
            steps,
        }
    }

    /// Returns the key of the task.
    pub(crate) fn key(&self) -> Key
        ensures { result ≡ self.now.path }
    {
        self.key
    }

    /// Returns the counter of the task's item.
    pub(crate) fn steps(&self) -> &Steps {
        &self.steps
    }

    /// Begins the progress of the task, and sets its step to 0.
    #[tactic(auto, using(crate::proofs::TurnLaws::taking))]
    pub(crate) fn init<T: CountsTurns>(&self, turns: &mut T, max: Option<Step>, unit: Option<Unit>)
        ensures { TakesOne T.took turns.old turns.new (Begins self.now.path max unit) }
    {
        let mut tree = turns.begin(&self.lock);
        if tree.init(self.key, self.slot, max, unit) {
            self.steps.set(0);
        }
        turns.end(tree);
    }

    /// Sets the name of the task.
    #[tactic(auto, using(crate::proofs::TurnLaws::taking))]
    pub(crate) fn set_name<T: CountsTurns>(
        &self,
        turns: &mut T,
        alloc: Global,
        name: &str,
    ) -> Result<(), Refusal>
        ensures turn { Tries T.took turns.old turns.new result
            (SetsName self.now.path name.now) }
        ensures reason { IsOkUnless result Refusal.Memory }
    {
        let mut tree = turns.begin(&self.lock);
        let named = tree.table.set_name(alloc, self.key, name);
        turns.end(tree);
        named
    }

    /// Returns a copy of the task's name, or `None` if the task is gone.
    #[tactic(auto, using(crate::proofs::TurnLaws::taking))]
    pub(crate) fn name<T: CountsTurns>(
        &self,
        turns: &mut T,
        alloc: Global,
    ) -> Result<Option<String>, Refusal>
        ensures turn { Gets T.took turns.old turns.new result
            (HasNameOf self.now.path) }
        ensures reason { IsOkUnless result Refusal.Memory }
    {
        let tree = turns.begin(&self.lock);
        let name = tree.name(alloc, self.key);
        turns.end(tree);
        name
    }

    /// Returns the identifier of the task, or `UNKNOWN` if the task is gone.
    #[tactic(auto, using(crate::proofs::TurnLaws::taking))]
    pub(crate) fn id<T: CountsTurns>(&self, turns: &mut T) -> Id
        ensures { LooksOnce T.took turns.old turns.new (HasId self.now.path result) }
    {
        let tree = turns.begin(&self.lock);
        let id = tree.table.id(self.key);
        turns.end(tree);
        id
    }

    /// Returns the bound of the task's progress, if it has progress and a bound.
    #[tactic(auto, using(crate::proofs::TurnLaws::taking))]
    pub(crate) fn max<T: CountsTurns>(&self, turns: &mut T) -> Option<Step>
        ensures { LooksOnce T.took turns.old turns.new (HasBound self.now.path result) }
    {
        let tree = turns.begin(&self.lock);
        let max = tree.table.max(self.key);
        turns.end(tree);
        max
    }

    /// Returns the unit of the task's progress, if it has progress and a unit.
    #[tactic(auto, using(crate::proofs::TurnLaws::taking))]
    pub(crate) fn unit<T: CountsTurns>(&self, turns: &mut T) -> Option<Unit>
        ensures { LooksOnce T.took turns.old turns.new (HasUnit self.now.path result) }
    {
        let tree = turns.begin(&self.lock);
        let unit = tree.table.unit(self.key);
        turns.end(tree);
        unit
    }

    /// Sets the bound of the task's progress, if it has progress, and returns the previous one.
    #[tactic(auto, using(crate::proofs::TurnLaws::taking))]
    pub(crate) fn set_max<T: CountsTurns>(&self, turns: &mut T, max: Option<Step>) -> Option<Step>
        ensures { TakesOne T.took turns.old turns.new (SetsBound self.now.path max result) }
    {
        let mut tree = turns.begin(&self.lock);
        let before = tree.table.set_max(self.key, max);
        turns.end(tree);
        before
    }

    /// Sets the state of the task's progress, if it has any.
    #[tactic(auto, using(crate::proofs::TurnLaws::taking))]
    pub(crate) fn set_state<T: CountsTurns>(&self, turns: &mut T, state: State)
        ensures { TakesOne T.took turns.old turns.new
            (SetsPhase self.now.path (phase_of state)) }
    {
        let mut tree = turns.begin(&self.lock);
        tree.table.set_state(self.key, state);
        turns.end(tree);
    }

    /// Adds a task below this one.
    #[tactic(auto, using(crate::proofs::TurnLaws::taking))]
    pub(crate) fn add_child<T: CountsTurns>(
        &mut self,
        turns: &mut T,
        alloc: Global,
        name: &str,
        id: Id,
    ) -> Result<SharedTask, Refusal>
        ensures child { IfOk result (λ child. child ≡ new_place (next_path self.old)) }
        ensures ok { OnOk result (self.new ≡ with_child self.old) }
        ensures added { OnOk result
            (TakesOne T.took turns.old turns.new (AddsBelow self.old name.now id)) }
        ensures refused { OnErr result
            (TakesAtMostOne T.took turns.old turns.new ChangesNothing) }
        ensures err { OnErr result (self.new ≡ self.old) }
        ensures reason { IsOkUnless result Refusal.Memory }
    {
        let lock = Arc::try_clone(&self.lock)?;
        let key = self.key.add_child(self.next_child);
        let mut tree = turns.begin(&self.lock);
        let added = tree.insert_task(alloc, key, name, id);
        turns.end(tree);
        let (slot, steps) = added?;
        self.next_child = key::next_id(self.next_child);
        Ok(SharedTask::new(lock, key, slot, steps))
    }

    /// Sends a message of the task.
    #[tactic(auto, using(crate::proofs::TurnLaws::taking))]
    pub(crate) fn message<T: CountsTurns>(
        &self,
        turns: &mut T,
        alloc: Global,
        at: Moment,
        level: MessageLevel,
        message: &str,
    ) -> Result<(), Refusal>
        ensures turn { Tries T.took turns.old turns.new result
            (Sends self.now.path at level message.now) }
        ensures reason { IfErr result RefusesMessage }
    {
        let mut tree = turns.begin(&self.lock);
        let sent = tree.message(alloc, self.key, at, level, message);
        turns.end(tree);
        sent
    }

    /// Removes the task, and frees the slot of its item.
    #[tactic(auto, using(crate::proofs::TurnLaws::taking))]
    pub(crate) fn remove<T: CountsTurns>(&self, turns: &mut T)
        ensures { TakesOne T.took turns.old turns.new (RemovesTask self.now.path) }
    {
        let mut tree = turns.begin(&self.lock);
        tree.remove_task(self.key, self.slot);
        turns.end(tree);
    }
}
