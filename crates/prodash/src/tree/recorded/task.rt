//! Tasks of recorded trees.
ghost use Rattle.std.specs.Prelude.{◌≡◌, false, IfOk, IfErr, OnOk};
ghost use Rattle.prodash_core.specs.Trees.{is_frame};
ghost use Rattle.prodash_core.specs.declared.tree.event.Event.TheVariants.{AddChild, Blocked, Halted, Running};
ghost use Rattle.prodash.specs.Recorders.{InCallTurn, KeepsTaskCall, AddsTask, Makes, RefusesKept};

use crate::progress::Id;
use crate::time::Moment;
use crate::tree::recorded::kept_calls::KeptCalls;
use crate::tree::recorded::ledgers::TreeLedger;
use crate::tree::recorded::task_steps::{StepChange, TaskSteps};
use crate::tree::recorded::turns::TakesRecorderTurns;
use prodash_base::{Refusal, Text};
use prodash_core::tree::{Event, Handle, Reply};
use std::alloc::Global;
use std::marker::Model;
use std::sync::ledger::Ledger;
use std::sync::{Arc, Mutex, Wait};

/// A task of a recorded tree, as progress. Each call of its traits is one call on the tree, with
/// an entry in the journal and a receipt that its [`Recorder`] keeps, also a call that only reads.
/// Dropping it drops the item. All calls may wait for the locks of the recorder and of the tree.
///
/// If a call is refused, there is no entry, and nothing has changed. The recorder keeps the first
/// refusal, which [`RecordedCalls`] has: calls without a `Result` can't return it. Then a read
/// returns 0 or `None`, as for a locked item that is gone. Calls with a `Result` return `Memory` in
/// place of a refusal that their trait doesn't name.
///
/// [`Recorder`]: crate::tree::recorded::Recorder
/// [`RecordedCalls`]: crate::tree::recorded::RecordedCalls
pub struct RecordedTask<R: Wait + Clone + Drop, C: TreeLedger, S: Ledger> {
    rt: R,
    alloc: Global,
    calls: Arc<Mutex<KeptCalls<C, S>>>,
    item: Handle,
    steps: TaskSteps,
}

impl<R: Wait + Clone + Drop, C: TreeLedger, S: Ledger> Model for RecordedTask<R, C, S> {
    ghost use Rattle.std.specs.Prelude.{ℕ};

    ghost Value = { ℕ };

    ghost view = { λ task. task.item };
}

impl<R: TakesRecorderTurns, C: TreeLedger, S: Ledger> RecordedTask<R, C, S> {
    /// Returns the handle of the item, which the events of the journal have.
    pub fn handle(&self) -> Handle
        ensures { result ≡ self.now }
    {
        self.item
    }

    /// Marks the task's progress, if it has any, as blocked: it can't continue and can't be
    /// interrupted. `eta` is the moment at which it is expected to continue, if known.
    ///
    /// # Errors
    ///
    /// As `RecordedItem::call`.
    #[tactic(auto, using(crate::proofs::CallTurns::calling))]
    pub fn blocked(&self, reason: &'static str, eta: Option<Moment>) -> Result<(), Refusal>
        ensures ok { OnOk result (Makes R.found R.left self.now (Blocked self.now reason.entry eta)) }
        ensures reason { IfErr result (RefusesKept (Blocked self.now reason.entry eta)) }
    {
        let item = self.item;
        self.call(self.alloc, Event::Blocked { item, reason, eta })?;
        Ok(())
    }

    /// Marks the task's progress, if it has any, as halted: it can't continue, but can be
    /// interrupted. `eta` is the moment at which it is expected to continue, if known.
    ///
    /// # Errors
    ///
    /// As `RecordedItem::call`.
    #[tactic(auto, using(crate::proofs::CallTurns::calling))]
    pub fn halted(&self, reason: &'static str, eta: Option<Moment>) -> Result<(), Refusal>
        ensures ok { OnOk result (Makes R.found R.left self.now (Halted self.now reason.entry eta)) }
        ensures reason { IfErr result (RefusesKept (Halted self.now reason.entry eta)) }
    {
        let item = self.item;
        self.call(self.alloc, Event::Halted { item, reason, eta })?;
        Ok(())
    }

    /// Marks the task's progress, if it has any, as running.
    ///
    /// # Errors
    ///
    /// As `RecordedItem::call`.
    #[tactic(auto, using(crate::proofs::CallTurns::calling))]
    pub fn running(&self) -> Result<(), Refusal>
        ensures ok { OnOk result (Makes R.found R.left self.now (Running self.now)) }
        ensures reason { IfErr result (RefusesKept (Running self.now)) }
    {
        self.call(self.alloc, Event::Running { item: self.item })?;
        Ok(())
    }

    /// Makes a call.
    #[tactic(auto, using(crate::proofs::CallTurns::turning))]
    pub(crate) fn call(&self, alloc: Global, event: Event) -> Result<Reply, Refusal>
        requires { is_frame event ≡ false }
        ensures made { InCallTurn R.found R.left (KeepsTaskCall self.now event result) }
        ensures reason { IfErr result (RefusesKept event) }
    {
        let (mut calls, turn) = self.rt.begin_recorder_turn(&self.calls);
        let change = StepChange::of(&event);
        calls.collect_steps(&self.rt, alloc, self.item, &self.steps);
        let made = calls.call(&self.rt, alloc, event);
        if made.is_ok() {
            self.steps.follow(change);
        }
        self.rt.end_recorder_turn(calls, turn);
        made
    }

    /// Makes a call that needs no memory of the caller's.
    pub(crate) fn tell(&self, event: Event) -> Result<Reply, Refusal>
        requires { is_frame event ≡ false }
        ensures { InCallTurn R.found R.left (KeepsTaskCall self.now event result) }
    {
        self.call(self.alloc, event)
    }

    /// Adds a task below this one.
    pub(crate) fn add_below(
        &self,
        alloc: Global,
        name: &str,
        id: Id,
    ) -> Result<RecordedTask<R, C, S>, Refusal>
        ensures { IfOk result
            (λ task. InCallTurn R.found R.left (AddsTask self.now name.now id task)) }
    {
        add_task(&self.rt, alloc, &self.calls, self.item, name, id)
    }

    /// Returns the counter, which has other owners.
    pub(crate) fn steps(&self) -> &TaskSteps {
        &self.steps
    }
}

/// Adds a task below the root or another task, and returns it.
#[tactic(auto, using(crate::proofs::CallTurns::turning))]
pub(crate) fn add_task<R: TakesRecorderTurns, C: TreeLedger, S: Ledger>(
    rt: &R,
    alloc: Global,
    calls: &Arc<Mutex<KeptCalls<C, S>>>,
    parent: Handle,
    name: &str,
    id: Id,
) -> Result<RecordedTask<R, C, S>, Refusal>
    ensures ok { IfOk result
        (λ task. InCallTurn R.found R.left (AddsTask parent name.now id task)) }
    ensures reason { IfErr result (RefusesKept (AddChild parent name.now id)) }
{
    let kept_rt = rt.clone()?;
    let kept_calls = Arc::try_clone(calls)?;
    let steps = TaskSteps::new(alloc)?;
    let name = Text::from_str(alloc, name)?;
    let (mut locked, turn) = rt.begin_recorder_turn(calls);
    let made = locked.call(rt, alloc, Event::AddChild { parent, name, id });
    rt.end_recorder_turn(locked, turn);
    match made? {
        Reply::Made(item) => Ok(RecordedTask {
            rt: kept_rt,
            alloc,
            calls: kept_calls,
            item,
            steps,
        }),
        // a task that is added has a handle
        _ => Err(Refusal::Memory),
    }
}

impl<R: Wait + Clone + Drop, C: TreeLedger, S: Ledger> Drop for RecordedTask<R, C, S> {
    /// Drops the item.
    fn drop(self) {
        let (rt, alloc, item) = (&self.rt, self.alloc, self.item);
        let mut calls = self.calls.lock(rt);
        calls.collect_steps(rt, alloc, item, &self.steps);
        let _ = calls.call(rt, alloc, Event::Drop { item });
        drop(calls);
        let RecordedTask {
            rt: _,
            alloc: _,
            calls: _,
            item: _,
            steps: _,
        } = self;
    }
}
