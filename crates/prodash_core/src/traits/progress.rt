ghost use Rattle.std.specs.Prelude.{◌≡◌, IfOk, IfErr, OnOk, OnErr, string_bytes, IsOkUnless};
ghost use Rattle.prodash_base.specs.Refusals.{RefusesMessage};
ghost use Rattle.std.specs.Option.{option_map};
ghost use Rattle.prodash_base.specs.declared.messages.MessageLevel.TheVariants.{Info, Failure, Success};
ghost use Rattle.prodash_base.specs.Rows.{unknown_id};
ghost use Rattle.prodash_base.specs.ThroughputMessages.{done_message};
ghost use Rattle.prodash_core.specs.Traits.{SendsThroughput};

use crate::traits::count::Count;
use prodash_base::Refusal;
use prodash_base::messages::MessageLevel;
use prodash_base::progress::{Id, Step};
use prodash_base::time::Moment;
use prodash_base::unit::{Unit, throughput_message};
use std::alloc::Global;

/// The progress of a task.
///
/// ```rust
/// fn count<P: Progress>(alloc: Global, task: &mut P, now: Moment) -> Result<(), Refusal> {
///     task.init(Some(10), None);
///     task.inc_by(10);
///     task.done(alloc, now, "counted")
/// }
/// ```
pub trait Progress: Count + Send + Sync {
    ghost use Rattle.std.specs.Prelude.{ℕ, List, Option};
    ghost use Rattle.prodash_base.specs.declared.messages.MessageLevel.{MessageLevel};
    ghost use Rattle.prodash_base.specs.declared.unit.units.Unit as units;

    /// What `init` makes of the progress.
    ghost begins: { Self → Option ℕ → Option units.Unit → Self → Type 0 } = { λ _ _ _ _. Unit {0} };

    /// The units that it may have, if any.
    ghost has_unit: { Self → Option units.Unit → Type 0 } = { λ _ _. Unit {0} };

    /// The bounds that it may have, if any.
    ghost has_bound: { Self → Option ℕ → Type 0 } = { λ _ _. Unit {0} };

    /// What `set_max` makes of the progress, and what it may return.
    ghost gets_bound: { Self → Option ℕ → Option ℕ → Self → Type 0 } = { λ _ _ _ _. Unit {0} };

    /// What `set_name` makes of the progress.
    ghost gets_name: { Self → List ℕ → Self → Type 0 } = { λ _ _ _. Unit {0} };

    /// The names that it may have, if any.
    ghost has_name: { Self → Option (List ℕ) → Type 0 } = { λ _ _. Unit {0} };

    /// The identifiers that it may have.
    ghost has_id: { Self → List ℕ → Type 0 } = { λ _ _. Unit {0} };

    /// A message was sent at a moment, with a level and a text.
    ghost was_sent: { Self → ℕ → MessageLevel → List ℕ → Type 0 } = { λ _ _ _ _. Unit {0} };

    /// Begins the progress, with a bound and a unit, if known.
    fn init(&mut self, max: Option<Step>, unit: Option<Unit>)
        ensures { begins self.old max unit self.new };

    /// Returns the unit of the steps, if there is one.
    fn unit(&self) -> Option<Unit>
        ensures { has_unit self.now result };

    /// Returns the step at which the task is done, if known.
    fn max(&self) -> Option<Step>
        ensures { has_bound self.now result };

    /// Sets the step at which the task is done, and returns the previous one.
    fn set_max(&mut self, max: Option<Step>) -> Option<Step>
        ensures { gets_bound self.old max result self.new };

    /// Sets the name.
    ///
    /// # Errors
    ///
    /// `Memory`, if there is no memory for the name; then nothing changes.
    fn set_name(&mut self, alloc: Global, name: &str) -> Result<(), Refusal>
        ensures ok { OnOk result (gets_name self.old name.now self.new) }
        ensures err { OnErr result (self.new ≡ self.old) }
        ensures reason { IsOkUnless result Refusal.Memory };

    /// Returns a copy of the name, if there is one.
    ///
    /// # Errors
    ///
    /// `Memory`, if there is no memory for the copy.
    fn name(&self, alloc: Global) -> Result<Option<String>, Refusal>
        ensures ok { IfOk result (λ name.
            has_name self.now (option_map (λ text. string_bytes text) name)) }
        ensures reason { IsOkUnless result Refusal.Memory };

    /// Returns the identifier, or `UNKNOWN` if there is none.
    fn id(&self) -> Id
        ensures { has_id self.now result };

    /// Sends a message.
    ///
    /// # Errors
    ///
    /// `TooManyMessages`, if 2^64 - 1 messages were sent already. `Memory`, if there is no memory
    /// for it.
    fn message(
        &self,
        alloc: Global,
        at: Moment,
        level: MessageLevel,
        message: &str,
    ) -> Result<(), Refusal>
        ensures ok { OnOk result (was_sent self.now at level message.now) }
        ensures reason { IfErr result RefusesMessage };

    /// Sends a message with information about the task, with the severity `Info`.
    ///
    /// # Errors
    ///
    /// As `message`.
    fn info(&self, alloc: Global, at: Moment, message: &str) -> Result<(), Refusal>
        ensures ok { OnOk result (was_sent self.now at Info message.now) }
        ensures reason { IfErr result RefusesMessage }
    {
        self.message(alloc, at, MessageLevel::Info, message)
    }

    /// Sends a message that the task is done, with the severity `Success`.
    ///
    /// # Errors
    ///
    /// As `message`.
    fn done(&self, alloc: Global, at: Moment, message: &str) -> Result<(), Refusal>
        ensures ok { OnOk result (was_sent self.now at Success message.now) }
        ensures reason { IfErr result RefusesMessage }
    {
        self.message(alloc, at, MessageLevel::Success, message)
    }

    /// Sends a message that the task has failed, with the severity `Failure`.
    ///
    /// # Errors
    ///
    /// As `message`.
    fn fail(&self, alloc: Global, at: Moment, message: &str) -> Result<(), Refusal>
        ensures ok { OnOk result (was_sent self.now at Failure message.now) }
        ensures reason { IfErr result RefusesMessage }
    {
        self.message(alloc, at, MessageLevel::Failure, message)
    }

    /// Sends a message that says how fast the task's steps were done from `start` to `now`, at the
    /// moment `now` and the severity `Info`, as `done 10 items in 2.50s (4 items/s)`.
    ///
    /// # Errors
    ///
    /// As `message`. If there is no memory for the text, nothing is sent.
    fn show_throughput(&self, alloc: Global, start: Moment, now: Moment) -> Result<(), Refusal>
        ensures ok { OnOk result (SendsThroughput (Self.shows self.now) (has_unit self.now)
            (was_sent self.now now Info) start now) }
        ensures reason { IfErr result RefusesMessage }
    {
        let step = self.step();
        let unit = self.unit();
        self.show_throughput_with(alloc, start, now, step, unit, MessageLevel::Info)
    }

    /// Sends a message that says how fast `step` steps were done from `start` to `now`, at the
    /// moment `now`. The steps are shown in `unit`, or as plain `items` if there is none.
    ///
    /// # Errors
    ///
    /// As `message`. If there is no memory for the text, nothing is sent.
    fn show_throughput_with(
        &self,
        alloc: Global,
        start: Moment,
        now: Moment,
        step: Step,
        unit: Option<Unit>,
        level: MessageLevel,
    ) -> Result<(), Refusal>
        ensures ok { OnOk result (was_sent self.now now level
            (done_message unit step start now)) }
        ensures reason { IfErr result RefusesMessage }
    {
        let text = throughput_message(alloc, start, now, step, unit.as_ref())?;
        self.message(alloc, now, level, &text)
    }
}

/// The progress of a task that can have tasks below it.
///
/// ```rust
/// let mut part = task.add_child(alloc, "part")?;
/// part.init(Some(3), None);
/// ```
pub trait NestedProgress: Progress {
    ghost use Rattle.std.specs.Prelude.{ℕ, List};

    /// The progress of a task below.
    type SubProgress;

    /// What a child with a name and an identifier makes of the progress, and the child.
    ghost gets_child: { Self → List ℕ → List ℕ → Self → Self.SubProgress → Type 0 } = { λ _ _ _ _ _. Unit {0} };

    /// Adds a task below, without an identifier.
    ///
    /// # Errors
    ///
    /// `Memory`, if there is no memory for it; then nothing changes.
    fn add_child(&mut self, alloc: Global, name: &str) -> Result<Self::SubProgress, Refusal>
        ensures ok { IfOk result (λ child. gets_child self.old name.now unknown_id self.new child) }
        ensures err { OnErr result (self.new ≡ self.old) }
        ensures reason { IsOkUnless result Refusal.Memory };

    /// Adds a task below.
    ///
    /// # Errors
    ///
    /// `Memory`, if there is no memory for it; then nothing changes.
    fn add_child_with_id(
        &mut self,
        alloc: Global,
        name: &str,
        id: Id,
    ) -> Result<Self::SubProgress, Refusal>
        ensures ok { IfOk result (λ child. gets_child self.old name.now id self.new child) }
        ensures err { OnErr result (self.new ≡ self.old) }
        ensures reason { IsOkUnless result Refusal.Memory };
}
