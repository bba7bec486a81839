//! What a recorder keeps of its calls.
ghost use Rattle.std.specs.Prelude.{◌≡◌, Ok, false, IfOk, IfErr, OnErr};
ghost use Rattle.prodash_core.specs.Trees.{is_frame};
ghost use Rattle.prodash.specs.Journals.{new_caller};
ghost use Rattle.prodash.specs.Recorders.{nothing_kept, with_refusal, KeepsCall, CollectsSteps, RefusesKept, tally_of, Rises};

use crate::tree::recorded::ledgers::TreeLedger;
use crate::tree::recorded::receipt::Receipt;
use crate::tree::recorded::root::RecordedItem;
use crate::tree::recorded::share::Share;
use crate::tree::recorded::task_steps::TaskSteps;
use prodash_base::Refusal;
use prodash_core::tree::{Event, Handle, Reply};
use std::alloc::Global;
use std::marker::Model;
use std::sync::Wait;
use std::sync::ledger::Ledger;

/// What a recorder has recorded.
#[derive(Drop)]
pub struct RecordedCalls<C: TreeLedger, S: Ledger> {
    /// The share of the recorder's item, by which the tree is closed.
    pub share: Share<C, S>,
    /// The receipts of all calls that were accepted, in order.
    pub receipts: Vec<Receipt<C>>,
    /// Why the first of the calls was refused that were. If there is one, the journal lacks what a
    /// task reported.
    pub refusal: Option<Refusal>,
}

/// The item that a recorder calls, the receipts so far, and the first refusal.
#[derive(Drop)]
pub struct KeptCalls<C: TreeLedger, S: Ledger> {
    item: RecordedItem<C, S>,
    receipts: Vec<Receipt<C>>,
    refusal: Option<Refusal>,
}

impl<C: TreeLedger, S: Ledger> Model for KeptCalls<C, S> {
    ghost use Rattle.std.specs.Prelude.{◌≡◌, None};
    ghost use Rattle.prodash.specs.Recorders.{Kept, tally_of, last_of, Rises};

    ghost Value = { Kept };

    ghost view = { λ k. record { receipts = k.receipts.items; refusal = k.refusal } };

    ghost invariant = { λ k. (k.item.tally ≡ tally_of k.receipts.items)
        × (k.item.last ≡ last_of None k.receipts.items) × Rises k.receipts.items };
}

impl<C: TreeLedger, S: Ledger> KeptCalls<C, S> {
    /// Returns what is kept of no call.
    pub(crate) fn new(alloc: Global, item: RecordedItem<C, S>) -> KeptCalls<C, S>
        requires { item ≡ new_caller }
        ensures { result ≡ nothing_kept }
    {
        KeptCalls {
            item,
            receipts: Vec::new(alloc),
            refusal: None,
        }
    }

    /// Makes a call, and keeps its receipt, or its refusal if it is the first.
    pub(crate) fn call<R: Wait>(
        &mut self,
        rt: &R,
        alloc: Global,
        event: Event,
    ) -> Result<Reply, Refusal>
        requires { is_frame event ≡ false }
        ensures kept { KeepsCall event result self.old self.new }
        ensures reason { IfErr result (RefusesKept event) }
    {
        match self.call_item(rt, alloc, event) {
            Ok(reply) => Ok(reply),
            Err(refusal) => {
                self.keep_refusal(refusal);
                Err(refusal)
            }
        }
    }

    /// Keeps a refusal if it is the first.
    fn keep_refusal(&mut self, refusal: Refusal)
        ensures { self.new ≡ with_refusal self.old refusal }
    {
        if self.refusal.is_none() {
            self.refusal = Some(refusal);
        }
    }

    /// Makes a call, and keeps its receipt.
    #[tactic(auto, using(crate::proofs::KeptCallLaws::keeping))]
    fn call_item<R: Wait>(&mut self, rt: &R, alloc: Global, event: Event) -> Result<Reply, Refusal>
        requires { is_frame event ≡ false }
        ensures ok { IfOk result (λ reply. KeepsCall event (Ok reply) self.old self.new) }
        ensures err { OnErr result (self.new ≡ self.old) }
        ensures reason { IfErr result (RefusesKept event) }
    {
        let KeptCalls { item, receipts, .. } = self;
        receipts.reserve(1)?;
        let (reply, receipt) = item.call(rt, alloc, event)?;
        receipts.push_reserved(receipt);
        Ok(reply)
    }

    /// Adds to an item what other owners of its counter have counted. If that is refused, it is
    /// added by a later call.
    pub(crate) fn collect_steps<R: Wait>(
        &mut self,
        rt: &R,
        alloc: Global,
        item: Handle,
        steps: &TaskSteps,
    )
        ensures { CollectsSteps item self.old self.new }
    {
        let step = steps.unrecorded();
        if step != 0 && self.call(rt, alloc, Event::IncBy { item, step }).is_ok() {
            steps.add_recorded(step);
        }
    }

    /// Returns what was recorded.
    pub(crate) fn into_calls(self) -> RecordedCalls<C, S>
        ensures share { result.share ≡ tally_of result.receipts.items }
        ensures order { Rises result.receipts.items }
        ensures kept { (result.receipts.items ≡ self.receipts) × (result.refusal ≡ self.refusal) }
    {
        let KeptCalls {
            item,
            receipts,
            refusal,
        } = self;
        RecordedCalls {
            share: item.give_back(),
            receipts,
            refusal,
        }
    }

    /// Returns the item.
    pub(crate) fn into_item(self) -> RecordedItem<C, S> {
        let KeptCalls { item, .. } = self;
        item
    }
}
