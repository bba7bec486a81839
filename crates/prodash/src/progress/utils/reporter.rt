//! Progress that supplies the allocator and the clock of its calls.
ghost use Rattle.std.specs.Prelude.{◌≡◌, OnOk, OnErr, IfOk, IfErr, option_map, string_bytes, IsOkUnless};
ghost use Rattle.prodash_base.specs.Refusals.{RefusesMessage};
ghost use Rattle.prodash_base.specs.Rows.{unknown_id};
ghost use Rattle.prodash_base.specs.declared.messages.MessageLevel.TheVariants.{Info, Failure, Success};
ghost use Rattle.prodash.specs.Reporters.{SendsAtSomeMoment, ReportsThroughput, ReportsSteps, GetsReporter, GetsFormatted};

use crate::messages::MessageLevel;
use crate::progress::{Id, Step, StepShared};
use crate::time::{Clock, Moment};
use crate::unit::Unit;
use prodash_base::Refusal;
use prodash_core::traits::{Count, NestedProgress, Progress};
use std::alloc::Global;
use std::fmt::Display;
use std::sync::Arc;

/// Progress with an allocator and a clock, so that its calls take the arguments of the Rust
/// crate's. Messages are sent at the current moment of the clock. A child is a reporter with the
/// same allocator and the same clock.
///
/// It isn't a [`Progress`] itself, whose calls of the same names take more. Pass its field
/// `progress` to code that asks for one.
///
/// ```rust
/// let mut job = Reporter::new(alloc, root.add_child(alloc, "job")?, clock);
/// job.init(Some(2), None);
/// let part = job.add_child("part")?;
/// part.info("a part begins")?;
/// job.inc();
/// ```
#[derive(Drop)]
pub struct Reporter<P, K> {
    /// The progress that each call is forwarded to.
    pub progress: P,
    alloc: Global,
    clock: Arc<K>,
}

impl<P, K> Reporter<P, K> {
    /// Returns a reporter that forwards its calls to `progress`.
    pub fn new(alloc: Global, progress: P, clock: Arc<K>) -> Reporter<P, K>
        ensures { result.progress ≡ progress }
    {
        Reporter {
            progress,
            alloc,
            clock,
        }
    }

    /// Returns the allocator, for example for `format!`.
    pub fn alloc(&self) -> Global {
        self.alloc
    }
}

impl<P, K: Clock + Drop> Reporter<P, K> {
    /// Returns the progress.
    pub fn into_progress(self) -> P
        ensures { result ≡ self.progress }
    {
        let Reporter { progress, .. } = self;
        progress
    }

    /// Returns the current moment of the clock.
    pub fn now(&self) -> Moment {
        self.clock.now()
    }

    /// Sleeps by the clock, for a time in nanoseconds.
    pub fn sleep(&self, nanoseconds: u64) {
        self.clock.sleep(nanoseconds);
    }
}

impl<P: Count, K> Reporter<P, K> {
    /// Sets the step.
    pub fn set(&self, step: Step)
        ensures { P.was_set self.now.progress step }
    {
        self.progress.set(step)
    }

    /// Returns the step.
    pub fn step(&self) -> Step
        ensures { P.shows self.now.progress result }
    {
        self.progress.step()
    }

    /// Adds `step` steps to the counter.
    pub fn inc_by(&self, step: Step)
        ensures { P.was_raised self.now.progress step }
    {
        self.progress.inc_by(step)
    }

    /// Adds 1 to the step.
    pub fn inc(&self)
        ensures { P.was_raised self.now.progress 1 }
    {
        self.progress.inc()
    }

    /// Returns another owner of the counter.
    ///
    /// # Errors
    ///
    /// `Memory`, if there is no memory for it.
    pub fn counter(&self) -> Result<StepShared, Refusal>
        ensures ok { IfOk result (λ counter. P.counts_in self.now.progress counter) }
        ensures reason { IsOkUnless result Refusal.Memory }
    {
        self.progress.counter(self.alloc)
    }
}

impl<P: Progress, K: Clock + Drop> Reporter<P, K> {
    /// Begins the progress, with a bound and a unit, if known.
    pub fn init(&mut self, max: Option<Step>, unit: Option<Unit>)
        ensures { P.begins self.old.progress max unit self.new.progress }
    {
        self.progress.init(max, unit)
    }

    /// Returns the unit of the steps, if there is one.
    pub fn unit(&self) -> Option<Unit>
        ensures { P.has_unit self.now.progress result }
    {
        self.progress.unit()
    }

    /// Returns the step at which the task is done, if known.
    pub fn max(&self) -> Option<Step>
        ensures { P.has_bound self.now.progress result }
    {
        self.progress.max()
    }

    /// Sets the step at which the task is done, and returns the previous one.
    pub fn set_max(&mut self, max: Option<Step>) -> Option<Step>
        ensures { P.gets_bound self.old.progress max result self.new.progress }
    {
        self.progress.set_max(max)
    }

    /// Sets the name.
    ///
    /// # Errors
    ///
    /// `Memory`, if there is no memory for the name; then nothing changes.
    pub fn set_name(&mut self, name: &str) -> Result<(), Refusal>
        ensures ok { OnOk result (P.gets_name self.old.progress name.now self.new.progress) }
        ensures err { OnErr result (self.new ≡ self.old) }
        ensures reason { IsOkUnless result Refusal.Memory }
    {
        self.progress.set_name(self.alloc, name)
    }

    /// Returns a copy of the name, if there is one.
    ///
    /// # Errors
    ///
    /// `Memory`, if there is no memory for the copy.
    pub fn name(&self) -> Result<Option<String>, Refusal>
        ensures ok { IfOk result (λ name.
            P.has_name self.now.progress (option_map string_bytes name)) }
        ensures reason { IsOkUnless result Refusal.Memory }
    {
        self.progress.name(self.alloc)
    }

    /// Returns the identifier, or `UNKNOWN` if there is none.
    pub fn id(&self) -> Id
        ensures { P.has_id self.now.progress result }
    {
        self.progress.id()
    }

    /// Sends a message.
    ///
    /// # Errors
    ///
    /// `TooManyMessages`, if 2^64 - 1 messages were sent already. `Memory`, if there is no memory
    /// for it.
    pub fn message(&self, level: MessageLevel, message: &str) -> Result<(), Refusal>
        ensures ok { OnOk result
            (SendsAtSomeMoment P.was_sent self.now.progress level message.now) }
        ensures reason { IfErr result RefusesMessage }
    {
        let at = self.clock.now();
        self.progress.message(self.alloc, at, level, message)
    }

    /// Sends a message with information about the task, with the severity `Info`.
    ///
    /// # Errors
    ///
    /// As `message`.
    pub fn info(&self, message: &str) -> Result<(), Refusal>
        ensures ok { OnOk result
            (SendsAtSomeMoment P.was_sent self.now.progress Info message.now) }
        ensures reason { IfErr result RefusesMessage }
    {
        let at = self.clock.now();
        self.progress.info(self.alloc, at, message)
    }

    /// Sends a message that the task is done, with the severity `Success`.
    ///
    /// # Errors
    ///
    /// As `message`.
    pub fn done(&self, message: &str) -> Result<(), Refusal>
        ensures ok { OnOk result
            (SendsAtSomeMoment P.was_sent self.now.progress Success message.now) }
        ensures reason { IfErr result RefusesMessage }
    {
        let at = self.clock.now();
        self.progress.done(self.alloc, at, message)
    }

    /// Sends a message that the task has failed, with the severity `Failure`.
    ///
    /// # Errors
    ///
    /// As `message`.
    pub fn fail(&self, message: &str) -> Result<(), Refusal>
        ensures ok { OnOk result
            (SendsAtSomeMoment P.was_sent self.now.progress Failure message.now) }
        ensures reason { IfErr result RefusesMessage }
    {
        let at = self.clock.now();
        self.progress.fail(self.alloc, at, message)
    }

    /// Sends a message that says how fast the task's steps were done from `start` to now, with the
    /// severity `Info`, such as `done 10 items in 2.50s (4 items/s)`.
    ///
    /// # Errors
    ///
    /// As `message`. If there is no memory for the text, nothing is sent.
    pub fn show_throughput(&self, start: Moment) -> Result<(), Refusal>
        ensures ok { OnOk result
            (ReportsThroughput P.shows P.has_unit P.was_sent self.now.progress start) }
        ensures reason { IfErr result RefusesMessage }
    {
        let now = self.clock.now();
        self.progress.show_throughput(self.alloc, start, now)
    }

    /// Sends a message that says how fast `step` steps were done from `start` to now. The steps are
    /// shown in `unit`, or as plain `items` if there is none.
    ///
    /// # Errors
    ///
    /// As `message`. If there is no memory for the text, nothing is sent.
    pub fn show_throughput_with(
        &self,
        start: Moment,
        step: Step,
        unit: Option<Unit>,
        level: MessageLevel,
    ) -> Result<(), Refusal>
        ensures ok { OnOk result
            (ReportsSteps P.was_sent self.now.progress level unit step start) }
        ensures reason { IfErr result RefusesMessage }
    {
        let now = self.clock.now();
        self.progress
            .show_throughput_with(self.alloc, start, now, step, unit, level)
    }
}

impl<P: NestedProgress, K: Clock + Drop> Reporter<P, K> {
    /// Adds a task below, without an identifier.
    ///
    /// # Errors
    ///
    /// `Memory`, if there is no memory for it; then nothing changes.
    pub fn add_child(&mut self, name: &str) -> Result<Reporter<P::SubProgress, K>, Refusal>
        ensures ok { IfOk result
            (GetsReporter P.gets_child self.old name.now unknown_id self.new) }
        ensures err { OnErr result (self.new ≡ self.old) }
        ensures reason { IsOkUnless result Refusal.Memory }
    {
        let clock = Arc::try_clone(&self.clock)?;
        let progress = self.progress.add_child(self.alloc, name)?;
        Ok(Reporter {
            progress,
            alloc: self.alloc,
            clock,
        })
    }

    /// Adds a task below, without an identifier, under a name that is formatted.
    ///
    /// ```rust
    /// let part = job.add_child_fmt(format_args!("part {n}"))?;
    /// ```
    ///
    /// # Errors
    ///
    /// `Memory`, if there is no memory for it or for its name; then nothing changes.
    pub fn add_child_fmt<D: Display + Drop>(
        &mut self,
        name: D,
    ) -> Result<Reporter<P::SubProgress, K>, Refusal>
        ensures ok { IfOk result
            (GetsFormatted P.gets_child self.old (D.output name) self.new) }
        ensures err { OnErr result (self.new ≡ self.old) }
        ensures reason { IsOkUnless result Refusal.Memory }
    {
        let name = name.to_string(self.alloc)?;
        self.add_child(&name)
    }

    /// Adds a task below.
    ///
    /// # Errors
    ///
    /// `Memory`, if there is no memory for it; then nothing changes.
    pub fn add_child_with_id(
        &mut self,
        name: &str,
        id: Id,
    ) -> Result<Reporter<P::SubProgress, K>, Refusal>
        ensures ok { IfOk result (GetsReporter P.gets_child self.old name.now id self.new) }
        ensures err { OnErr result (self.new ≡ self.old) }
        ensures reason { IsOkUnless result Refusal.Memory }
    {
        let clock = Arc::try_clone(&self.clock)?;
        let progress = self.progress.add_child_with_id(self.alloc, name, id)?;
        Ok(Reporter {
            progress,
            alloc: self.alloc,
            clock,
        })
    }
}
