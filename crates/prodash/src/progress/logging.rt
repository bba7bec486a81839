//! Progress that is logged in lines.
ghost use Rattle.std.specs.Prelude.{◌≡◌, OnOk, OnErr, IfOk, IfErr, option_map, string_bytes, IsOkUnless};
ghost use Rattle.prodash_base.specs.Refusals.{RefusesThread};
ghost use Rattle.prodash.specs.Logs.{new_log, child_log, message_text, IsLineOf, Renames, IsSecondPart};

mod names;
mod texts;
mod ticker;
mod traits;

use crate::messages::MessageLevel;
use crate::progress::{AtomicStep, Id, Step, StepShared, UNKNOWN};
use crate::time::{Clock, Moment};
use crate::tree::Steps;
use crate::unit::Unit;
use log::{Log as Logger, error, info};
use prodash_base::{Refusal, Text};
use std::alloc::Global;
use std::marker::{Model, PhantomData};
use std::mem;
use std::sync::atomic::{AtomicBool, Ordering};
use std::sync::{Arc, Wait};
use std::thread::Threads;

/// The size of the stack of the thread that a log starts, in bytes.
const STACK_SIZE: usize = 1 << 20;

/// Progress whose steps are logged as lines, and whose messages are logged as they are sent. A log
/// and all logs below it together log at most one step per half second of the clock `K`. It needs
/// no tree and no renderer. Contracts see which counter it has, and not the step.
///
/// ```rust
/// let mut log = Log::new(&rt, alloc, "main", None, logger, clock)?;
/// log.init(Some(10), None);
/// log.set(3);
/// // logs `main → 3 / 10`
/// ```
#[derive(Drop)]
pub struct Log<L: Logger + Drop, K: Clock + Drop> {
    alloc: Global,
    name: Text,
    id: Id,
    max: Option<Step>,
    unit: Option<Unit>,
    level: usize,
    max_level: Option<usize>,
    steps: Steps,
    /// Whether the next step is logged.
    trigger: Arc<AtomicBool>,
    logger: Arc<L>,
    clock: PhantomData<K>,
}

impl<L: Logger + Drop, K: Clock + Drop> Model for Log<L, K> {
    ghost use Rattle.prodash.specs.Logs.{LogState};

    ghost Value = { LogState };

    ghost view = { λ log. record {
      name = log.name;
      id = log.id;
      max = log.max;
      unit = log.unit;
      level = log.level;
      max_level = log.max_level;
      steps = log.steps;
    } };
}

impl<L: Logger + Drop, K: Clock + Drop + Send + Sync + 'static> Log<L, K> {
    /// Returns a log with this name. Its steps and those of the logs below it are logged down to
    /// `max_level`, or at all levels if that is `None`. It starts a thread, which ends after the
    /// last of these logs is dropped.
    ///
    /// # Errors
    ///
    /// `Memory`, if there is no memory for it. `NoThread`, if the thread can't be started.
    pub fn new<R: Threads + Wait + Clone + Drop + Send + Sync + 'static>(
        rt: &R,
        alloc: Global,
        name: &str,
        max_level: Option<usize>,
        logger: L,
        clock: Arc<K>,
    ) -> Result<Log<L, K>, Refusal>
        ensures ok { IfOk result (λ log.
            log ≡ new_log name.now UNKNOWN 0 max_level log.steps) }
        ensures reason { IfErr result RefusesThread }
    {
        Log::with_stack_size(rt, alloc, name, max_level, logger, clock, STACK_SIZE)
    }

    /// Does what `new` does. The stack of the thread has `stack_size` bytes.
    ///
    /// # Errors
    ///
    /// As `new`: a thread whose stack is too large for the system can't be started.
    pub fn with_stack_size<R: Threads + Wait + Clone + Drop + Send + Sync + 'static>(
        rt: &R,
        alloc: Global,
        name: &str,
        max_level: Option<usize>,
        logger: L,
        clock: Arc<K>,
        stack_size: usize,
    ) -> Result<Log<L, K>, Refusal>
        ensures ok { IfOk result (λ log.
            log ≡ new_log name.now UNKNOWN 0 max_level log.steps) }
        ensures reason { IfErr result RefusesThread }
    {
        let log = Log {
            alloc,
            name: Text::from_str(alloc, name)?,
            id: UNKNOWN,
            max: None,
            unit: None,
            level: 0,
            max_level,
            steps: Steps::new(Arc::new(alloc, AtomicStep::new(0))?),
            trigger: Arc::new(alloc, AtomicBool::new(true))?,
            logger: Arc::new(alloc, logger)?,
            clock: PhantomData,
        };
        ticker::start_ticker(rt, Arc::try_clone(&log.trigger)?, clock, stack_size)?;
        Ok(log)
    }
}

impl<L: Logger + Drop, K: Clock + Drop> Log<L, K> {
    /// Returns the line that would be logged now, such as `main::work → 3 / 10`.
    ///
    /// # Errors
    ///
    /// `Memory`, if there is no memory for it.
    pub fn line(&self, alloc: Global) -> Result<String, Refusal>
        ensures ok { IfOk result (λ line. IsLineOf self.now (string_bytes line)) }
        ensures reason { IsOkUnless result Refusal.Memory }
    {
        texts::step_line(alloc, self.name.as_str(), self.max, self.unit, self.step())
    }

    /// Returns the line of a message, such as `✓main::work → done`.
    ///
    /// # Errors
    ///
    /// `Memory`, if there is no memory for it.
    pub fn message_line(
        &self,
        alloc: Global,
        level: MessageLevel,
        message: &str,
    ) -> Result<String, Refusal>
        ensures ok { IfOk result (λ it.
            string_bytes it ≡ message_text self.now.name level message.now) }
        ensures reason { IsOkUnless result Refusal.Memory }
    {
        texts::message_line(alloc, self.name.as_str(), level, message)
    }

    /// Sets the step, and logs its line if one is due.
    pub fn set(&self, step: Step) {
        self.steps.set(step);
        self.log_step();
    }

    /// Adds `step` to the counter, and logs the line of the sum if one is due. The sum wraps around
    /// at 2^64.
    pub fn inc_by(&self, step: Step) {
        self.steps.inc_by(step);
        self.log_step();
    }

    /// Adds 1 to the counter, as `inc_by` does.
    pub fn inc(&self) {
        self.inc_by(1);
    }

    /// Returns the step.
    pub fn step(&self) -> Step {
        self.steps.step()
    }

    /// Returns another owner of the counter. Changes made through it log no line.
    ///
    /// # Errors
    ///
    /// `Memory`, if the counter's reference count is at its limit.
    pub fn counter(&self) -> Result<StepShared, Refusal>
        ensures { IsOkUnless result Refusal.Memory }
    {
        self.steps.counter()
    }

    /// Sets the bound and the unit. The step stays as it is.
    pub fn init(&mut self, max: Option<Step>, unit: Option<Unit>)
        ensures { self.new ≡ record self.old { max = max; unit = unit } }
    {
        self.max = max;
        self.unit = unit;
    }

    /// Returns the unit, if there is one.
    pub fn unit(&self) -> Option<Unit>
        ensures { result ≡ self.now.unit }
    {
        self.unit
    }

    /// Returns the bound, if there is one.
    pub fn max(&self) -> Option<Step>
        ensures { result ≡ self.now.max }
    {
        self.max
    }

    /// Sets the bound, and returns the previous one.
    pub fn set_max(&mut self, max: Option<Step>) -> Option<Step>
        ensures previous { result ≡ self.old.max }
        ensures set { self.new ≡ record self.old { max = max } }
    {
        mem::replace(&mut self.max, max)
    }

    /// Returns the identifier.
    pub fn id(&self) -> Id
        ensures { result ≡ self.now.id }
    {
        self.id
    }

    /// Replaces everything after the first part of the joined name: both `main` and `main::work`,
    /// set to `rest`, become `main::rest`.
    ///
    /// # Errors
    ///
    /// `Memory`, if there is no memory for the name. Nothing has changed then.
    pub fn set_name(&mut self, alloc: Global, name: &str) -> Result<(), Refusal>
        ensures ok { OnOk result (Renames self.old name.now self.new) }
        ensures err { OnErr result (self.new ≡ self.old) }
        ensures reason { IsOkUnless result Refusal.Memory }
    {
        let first = names::first_part(self.name.as_str());
        self.name = names::joined(alloc, first, name)?;
        Ok(())
    }

    /// Returns a copy of the second part of the joined name, or `None` if it has only one part. For
    /// `main::work::part` that is `work`.
    ///
    /// # Errors
    ///
    /// `Memory`, if there is no memory for the copy.
    pub fn name(&self, alloc: Global) -> Result<Option<String>, Refusal>
        ensures ok { IfOk result (λ name.
            IsSecondPart self.now.name (option_map string_bytes name)) }
        ensures reason { IsOkUnless result Refusal.Memory }
    {
        match names::second_part(self.name.as_str()) {
            None => Ok(None),
            Some(second) => Ok(Some(String::from_str(alloc, second)?)),
        }
    }

    /// Logs a message, as an error if it is a failure and as information otherwise. Its moment
    /// isn't logged.
    ///
    /// # Errors
    ///
    /// `Memory`, if there is no memory for its line. Nothing is logged then.
    pub fn message(
        &self,
        alloc: Global,
        _at: Moment,
        level: MessageLevel,
        message: &str,
    ) -> Result<(), Refusal>
        ensures { IsOkUnless result Refusal.Memory }
    {
        let line = self.message_line(alloc, level, message)?;
        match level {
            MessageLevel::Failure => error!(self.logger; "{line}"),
            MessageLevel::Info | MessageLevel::Success => info!(self.logger; "{line}"),
        }
        Ok(())
    }

    /// Returns a log below this one, at step 0, without a bound or a unit. Together they log at
    /// most one step per half second.
    ///
    /// # Errors
    ///
    /// `Memory`, if there is no memory for it.
    pub fn add_child(&self, alloc: Global, name: &str) -> Result<Log<L, K>, Refusal>
        ensures ok { IfOk result (λ child.
            child ≡ child_log self.now name.now UNKNOWN child.steps) }
        ensures reason { IsOkUnless result Refusal.Memory }
    {
        self.add_child_with_id(alloc, name, UNKNOWN)
    }

    /// Does what `add_child` does, and gives the log an identifier.
    ///
    /// # Errors
    ///
    /// `Memory`, if there is no memory for it.
    pub fn add_child_with_id(&self, alloc: Global, name: &str, id: Id) -> Result<Log<L, K>, Refusal>
        ensures ok { IfOk result (λ child.
            child ≡ child_log self.now name.now id child.steps) }
        ensures reason { IsOkUnless result Refusal.Memory }
    {
        Ok(Log {
            alloc: self.alloc,
            name: names::joined(alloc, self.name.as_str(), name)?,
            id,
            max: None,
            unit: None,
            level: self.level.saturating_add(1),
            max_level: self.max_level,
            steps: Steps::new(Arc::new(alloc, AtomicStep::new(0))?),
            trigger: Arc::try_clone(&self.trigger)?,
            logger: Arc::try_clone(&self.logger)?,
            clock: PhantomData,
        })
    }

    /// Logs the current line and clears the trigger, if steps of this level are logged and the
    /// trigger is set. If there is no memory for the line, it is skipped.
    fn log_step(&self) {
        if self.max_level.is_some_and(|most| self.level > most) {
            return;
        }
        if self.trigger.swap(false, Ordering::SeqCst) {
            if let Ok(line) = self.line(self.alloc) {
                info!(self.logger; "{line}");
            }
        }
    }
}
