//! Recorders: the calls of tasks on a recorded tree, and what is kept of them.
ghost use Rattle.std.specs.Prelude.{◌≡◌, IfOk, IfErr};
ghost use Rattle.prodash_base.specs.Rows.{unknown_id};
ghost use Rattle.prodash_core.specs.declared.tree.event.Event.TheVariants.{AddChild};
ghost use Rattle.prodash.specs.Journals.{new_caller};
ghost use Rattle.prodash.specs.Recorders.{InCallTurn, AddsTask, RefusesKept, Rises, tally_of};

use crate::progress::{Id, UNKNOWN};
use crate::tree::recorded::kept_calls::{KeptCalls, RecordedCalls};
use crate::tree::recorded::ledgers::TreeLedger;
use crate::tree::recorded::root::RecordedItem;
use crate::tree::recorded::task::{RecordedTask, add_task};
use crate::tree::recorded::turns::TakesRecorderTurns;
use prodash_base::Refusal;
use std::alloc::{AllocFailed, Global};
use std::sync::ledger::Ledger;
use std::sync::{Arc, Mutex, Wait};

/// Makes the calls of tasks on a recorded tree, through an item of the tree, and keeps their
/// receipts. Its tasks are [`RecordedTask`]s, which are progress: code that is generic over
/// `Progress` or `NestedProgress` reports by them, in any threads.
///
/// ```rust
/// let recorder = Recorder::new(rt, alloc, root.share(&rt)?)?;
/// let job = recorder.add_child(alloc, "job")?;
/// work_on(job);
/// if let Ok(calls) = recorder.finish() {
///     shares.push(calls.share)?;
/// }
/// ```
#[derive(Drop)]
pub struct Recorder<R: Wait + Clone + Drop, C: TreeLedger, S: Ledger> {
    rt: R,
    calls: Arc<Mutex<KeptCalls<C, S>>>,
}

impl<R: TakesRecorderTurns, C: TreeLedger, S: Ledger> Recorder<R, C, S> {
    /// Returns a recorder whose calls are those of an item.
    ///
    /// # Errors
    ///
    /// The item, if there is no memory for the recorder. `?` makes of it `Refusal::Memory`, and
    /// drops it, so that its share is missing when the tree is closed.
    pub fn new(
        rt: R,
        alloc: Global,
        item: RecordedItem<C, S>,
    ) -> Result<Recorder<R, C, S>, AllocFailed<RecordedItem<C, S>>>
        requires { item ≡ new_caller }
    {
        match Arc::new(alloc, Mutex::new(KeptCalls::new(alloc, item))) {
            Ok(calls) => Ok(Recorder { rt, calls }),
            Err(refused) => {
                let value = refused.value.into_inner().into_item();
                Err(AllocFailed { value })
            }
        }
    }

    /// Adds a task below the root, without an identifier.
    ///
    /// # Errors
    ///
    /// `Memory`, if there is no memory for it. `Gone`, if the root was dropped. `TooManyHandles`,
    /// if the item has made 2^64-1 calls.
    pub fn add_child(&self, alloc: Global, name: &str) -> Result<RecordedTask<R, C, S>, Refusal>
        ensures ok { IfOk result
            (λ task. InCallTurn R.found R.left (AddsTask 0 name.now unknown_id task)) }
        ensures reason { IfErr result (RefusesKept (AddChild 0 name.now unknown_id)) }
    {
        self.add_child_with_id(alloc, name, UNKNOWN)
    }

    /// Adds a task below the root.
    ///
    /// # Errors
    ///
    /// As `add_child`.
    pub fn add_child_with_id(
        &self,
        alloc: Global,
        name: &str,
        id: Id,
    ) -> Result<RecordedTask<R, C, S>, Refusal>
        ensures ok { IfOk result
            (λ task. InCallTurn R.found R.left (AddsTask 0 name.now id task)) }
        ensures reason { IfErr result (RefusesKept (AddChild 0 name.now id)) }
    {
        add_task(&self.rt, alloc, &self.calls, 0, name, id)
    }

    /// Returns what was recorded, once all tasks of the recorder were dropped.
    ///
    /// # Errors
    ///
    /// The recorder, if a task is left.
    pub fn finish(self) -> Result<RecordedCalls<C, S>, Recorder<R, C, S>>
        ensures share { IfOk result (λ calls. calls.share ≡ tally_of calls.receipts.items) }
        ensures order { IfOk result (λ calls. Rises calls.receipts.items) }
    {
        let Recorder { rt, calls } = self;
        match Arc::try_unwrap(calls) {
            Ok(calls) => Ok(calls.into_inner().into_calls()),
            Err(calls) => Err(Recorder { rt, calls }),
        }
    }
}
