//! Items of the locked tree.
ghost use Rattle.std.specs.Prelude.{◌≡◌, OnOk, OnErr, IfOk, IfErr, true, is_some, option_map, string_bytes, IsOkUnless};
ghost use Rattle.prodash_base.specs.Refusals.{RefusesMessage};
ghost use Rattle.prodash_base.specs.declared.messages.MessageLevel.TheVariants.{Info, Failure, Success};
ghost use Rattle.prodash_base.specs.Rows.{Blocked, Halted, Running, phase_of, unknown_id};
ghost use Rattle.prodash.specs.Items.{new_place, next_path, with_child};
ghost use Rattle.prodash.specs.Turns.{Finds, Changes, HasName, HasId, HasBound, HasUnit, Stays, Begins, SetsName, SetsBound, SetsPhase, Sends, AddsBelow};

use crate::messages::MessageLevel;
use crate::progress::{Id, Key, State, Step, StepShared, UNKNOWN};
use crate::time::Moment;
use crate::tree::shared_task::SharedTask;
use crate::tree::steps::Steps;
use crate::tree::turns::{TakesTurns, Turns};
use crate::unit::Unit;
use prodash_base::Refusal;
use std::alloc::Global;
use std::fmt;
use std::marker::Model;
use std::sync::Wait;

/// An item of the tree. Dropping it removes its task, but not the tasks below it. Its drop and all
/// calls except those on its step may wait for the lock of the tree. Contracts see its path and the
/// number of its next child.
///
/// ```rust
/// let mut task = root.add_child(alloc, "task")?;
/// task.init(Some(2), None);
/// let part = task.add_child(alloc, "part")?;
/// part.init(None, None);
/// task.inc();
/// task.done(alloc, now, "half of it")?;
/// ```
pub struct Item<R: Wait + Clone + Drop> {
    rt: R,
    task: SharedTask,
}

impl<R: Wait + Clone + Drop> Model for Item<R> {
    ghost use Rattle.prodash.specs.Items.{Place};

    ghost Value = { Place };

    ghost view = { λ item. item.task };
}

impl<R: TakesTurns> Item<R> {
    /// Returns the item of a task.
    pub(crate) fn new(rt: R, task: SharedTask) -> Item<R>
        ensures { result ≡ task }
    {
        Item { rt, task }
    }

    /// Returns the key of the item.
    pub fn key(&self) -> Key
        ensures { result ≡ self.now.path }
    {
        self.task.key()
    }

    /// Begins the progress of the item, and sets its step to 0. Without a bound and a unit the item
    /// has no progress. Nothing happens if the item's task is gone.
    pub fn init(&self, max: Option<Step>, unit: Option<Unit>)
        ensures { Changes R.found R.left (Begins self.now.path max unit) }
    {
        self.task.init(&mut Turns::new(&self.rt), max, unit);
    }

    /// Sets the name of the item. Nothing happens if the item's task is gone.
    ///
    /// # Errors
    ///
    /// `Memory`, if there is no memory for the name. Nothing has changed then.
    pub fn set_name(&self, alloc: Global, name: &str) -> Result<(), Refusal>
        ensures ok { OnOk result (Changes R.found R.left (SetsName self.now.path name.now)) }
        ensures err { OnErr result (Changes R.found R.left Stays) }
        ensures reason { IsOkUnless result Refusal.Memory }
    {
        self.task.set_name(&mut Turns::new(&self.rt), alloc, name)
    }

    /// Returns a copy of the item's name, or `None` if the item's task is gone.
    ///
    /// # Errors
    ///
    /// `Memory`, if there is no memory for the copy.
    pub fn name(&self, alloc: Global) -> Result<Option<String>, Refusal>
        ensures ok { IfOk result (λ n.
            Finds R.found (HasName self.now.path (option_map string_bytes n))) }
        ensures reason { IsOkUnless result Refusal.Memory }
    {
        self.task.name(&mut Turns::new(&self.rt), alloc)
    }

    /// Returns the identifier of the item, or `UNKNOWN` if the item's task is gone.
    pub fn id(&self) -> Id
        ensures { Finds R.found (HasId self.now.path result) }
    {
        self.task.id(&mut Turns::new(&self.rt))
    }

    /// Returns the bound of the item's progress, if it has progress and a bound.
    pub fn max(&self) -> Option<Step>
        ensures { Finds R.found (HasBound self.now.path result) }
    {
        self.task.max(&mut Turns::new(&self.rt))
    }

    /// Returns the unit of the item's progress, if it has progress and a unit.
    pub fn unit(&self) -> Option<Unit>
        ensures { Finds R.found (HasUnit self.now.path result) }
    {
        self.task.unit(&mut Turns::new(&self.rt))
    }

    /// Sets the bound of the item's progress, if it has progress, and returns the previous one.
    pub fn set_max(&self, max: Option<Step>) -> Option<Step>
        ensures { Changes R.found R.left (SetsBound self.now.path max result) }
    {
        self.task.set_max(&mut Turns::new(&self.rt), max)
    }

    /// Marks the item's progress, if it has any, as blocked: it can't continue and can't be
    /// interrupted. `eta` is the moment at which it is expected to continue, if known.
    pub fn blocked(&self, reason: &'static str, eta: Option<Moment>)
        ensures { Changes R.found R.left (SetsPhase self.now.path (Blocked reason.now eta)) }
    {
        self.set_state(State::Blocked(reason, eta));
    }

    /// Marks the item's progress, if it has any, as halted: it can't continue, but can be
    /// interrupted. `eta` is the moment at which it is expected to continue, if known.
    pub fn halted(&self, reason: &'static str, eta: Option<Moment>)
        ensures { Changes R.found R.left (SetsPhase self.now.path (Halted reason.now eta)) }
    {
        self.set_state(State::Halted(reason, eta));
    }

    /// Marks the item's progress, if it has any, as running.
    pub fn running(&self)
        ensures { Changes R.found R.left (SetsPhase self.now.path Running) }
    {
        self.set_state(State::Running);
    }

    fn set_state(&self, state: State)
        ensures { Changes R.found R.left (SetsPhase self.now.path (phase_of state)) }
    {
        self.task.set_state(&mut Turns::new(&self.rt), state);
    }

    /// Sets the step of the item without taking the lock, even before `init`.
    pub fn set(&self, step: Step) {
        self.task.steps().set(step);
    }

    /// Adds `step` to the item's counter without taking the lock. The sum wraps around at 2^64.
    pub fn inc_by(&self, step: Step) {
        self.task.steps().inc_by(step);
    }

    /// Adds 1 to the item's counter without taking the lock. The sum wraps around at 2^64.
    pub fn inc(&self) {
        self.task.steps().inc();
    }

    /// Returns the step of the item without taking the lock. Always `Some`.
    pub fn step(&self) -> Option<Step>
        ensures { is_some result ≡ true }
    {
        Some(self.task.steps().step())
    }

    /// Returns the item's counter, whose calls never wait.
    pub fn steps(&self) -> &Steps {
        self.task.steps()
    }

    /// Returns another owner of the item's counter.
    ///
    /// # Errors
    ///
    /// `Memory`, if the counter's reference count is at its limit.
    pub fn counter(&self) -> Result<StepShared, Refusal>
        ensures { IsOkUnless result Refusal.Memory }
    {
        self.task.steps().counter()
    }

    /// Adds an item below this one. A child of an item at the sixth level gets that item's path
    /// with the last number replaced, and replaces the entry that is there.
    ///
    /// # Errors
    ///
    /// `Memory`, if there is no memory for it. No child number is used up then.
    pub fn add_child(&mut self, alloc: Global, name: &str) -> Result<Item<R>, Refusal>
        ensures child { IfOk result (λ child. child ≡ new_place (next_path self.old)) }
        ensures ok { OnOk result (self.new ≡ with_child self.old) }
        ensures added { OnOk result
            (Changes R.found R.left (AddsBelow self.old name.now unknown_id)) }
        ensures err { OnErr result (self.new ≡ self.old) }
        ensures reason { IsOkUnless result Refusal.Memory }
    {
        self.add_child_with_id(alloc, name, UNKNOWN)
    }

    /// Does what `add_child` does, and gives the item an identifier.
    ///
    /// # Errors
    ///
    /// `Memory`, if there is no memory for it. No child number is used up then.
    pub fn add_child_with_id(
        &mut self,
        alloc: Global,
        name: &str,
        id: Id,
    ) -> Result<Item<R>, Refusal>
        ensures child { IfOk result (λ child. child ≡ new_place (next_path self.old)) }
        ensures ok { OnOk result (self.new ≡ with_child self.old) }
        ensures added { OnOk result
            (Changes R.found R.left (AddsBelow self.old name.now id)) }
        ensures err { OnErr result (self.new ≡ self.old) }
        ensures reason { IsOkUnless result Refusal.Memory }
    {
        let rt = self.rt.clone()?;
        let turns = &mut Turns::new(&self.rt);
        let task = self.task.add_child(turns, alloc, name, id)?;
        Ok(Item::new(rt, task))
    }

    /// Sends a message from the item. Its origin is the item's name, or empty if the item's task is
    /// gone.
    ///
    /// # Errors
    ///
    /// `TooManyMessages`, if 2^64 - 1 messages have been sent. `Memory`, if there is no memory for
    /// it.
    pub fn message(
        &self,
        alloc: Global,
        at: Moment,
        level: MessageLevel,
        message: &str,
    ) -> Result<(), Refusal>
        ensures ok { OnOk result
            (Changes R.found R.left (Sends self.now.path at level message.now)) }
        ensures err { OnErr result (Changes R.found R.left Stays) }
        ensures reason { IfErr result RefusesMessage }
    {
        let turns = &mut Turns::new(&self.rt);
        self.task.message(turns, alloc, at, level, message)
    }

    /// Sends a message of severity `Success`: the task is done.
    ///
    /// # Errors
    ///
    /// As `message`.
    pub fn done(&mut self, alloc: Global, at: Moment, message: &str) -> Result<(), Refusal>
        ensures ok { OnOk result
            (Changes R.found R.left (Sends self.old.path at Success message.now)) }
        ensures kept { self.new ≡ self.old }
        ensures reason { IfErr result RefusesMessage }
    {
        self.message(alloc, at, MessageLevel::Success, message)
    }

    /// Sends a message of severity `Failure`: the task has failed.
    ///
    /// # Errors
    ///
    /// As `message`.
    pub fn fail(&mut self, alloc: Global, at: Moment, message: &str) -> Result<(), Refusal>
        ensures ok { OnOk result
            (Changes R.found R.left (Sends self.old.path at Failure message.now)) }
        ensures kept { self.new ≡ self.old }
        ensures reason { IfErr result RefusesMessage }
    {
        self.message(alloc, at, MessageLevel::Failure, message)
    }

    /// Sends a message of severity `Info` about the task.
    ///
    /// # Errors
    ///
    /// As `message`.
    pub fn info(&mut self, alloc: Global, at: Moment, message: &str) -> Result<(), Refusal>
        ensures ok { OnOk result
            (Changes R.found R.left (Sends self.old.path at Info message.now)) }
        ensures kept { self.new ≡ self.old }
        ensures reason { IfErr result RefusesMessage }
    {
        self.message(alloc, at, MessageLevel::Info, message)
    }
}

impl<R: Wait + Clone + Drop> fmt::Debug for Item<R> {
    /// Writes the key and the step.
    fn fmt<W: fmt::Write>(&self, f: &mut fmt::Formatter<W>) -> fmt::Result {
        f.debug_struct("Item")
            .field("key", &self.task.key())
            .field("step", &self.task.steps().step())
            .finish_non_exhaustive()
    }
}

impl<R: Wait + Clone + Drop> Drop for Item<R> {
    /// Removes the item's task.
    fn drop(self) {
        self.task.remove(&mut Turns::new(&self.rt));
        let Item { rt: _, task: _ } = self;
    }
}
