//! A recorded tree whose journal is taken out.
ghost use Rattle.std.specs.Prelude.{◌≡◌, IfOk, IsOkUnless};
ghost use Rattle.prodash.specs.Journals.{Replays};
ghost use Rattle.prodash.specs.Views.{owned_by, tasks_of};
ghost use Rattle.prodash.specs.plumbing.Histories.{IsOpen, calls_in, recorded_after};
ghost use Rattle.prodash.specs.plumbing.SeenTrees.{IsSeen};

use crate::messages::{MessageCopyState, Messages};
use crate::progress::Rows;
use crate::tree::recorded::history::HistoryPrefix;
use crate::tree::recorded::ledgers::TreeLedger;
use crate::tree::recorded::look_receipt::LookReceipt;
use crate::tree::recorded::shown::{Looked, count_tasks};
use prodash_base::Refusal;
use prodash_core::tree::TreeState;
use std::alloc::Global;
use std::marker::Model;

/// A recorded tree as its last call left it, and the history of its calls. Contracts see the tree
/// and the calls.
#[derive(Drop)]
pub(crate) struct ClosedRecording<C: TreeLedger> {
    tree: TreeState,
    history: HistoryPrefix<C>,
}

impl<C: TreeLedger> Model for ClosedRecording<C> {
    ghost use Rattle.std.specs.Coded.{codes};
    ghost use Rattle.std.specs.FinMap as finite;
    ghost use Rattle.prodash.specs.Journals.{Recorded, Replays};
    ghost use Rattle.prodash.specs.plumbing.Histories.{IsOpen, calls_in, recorded_after};

    ghost Value = { Recorded };

    ghost coded = { Prim.hlevel (codes, finite.code) };

    ghost view = { λ s. recorded_after C.message_buffer_capacity s.tree s.history };

    ghost invariant = { λ s. IsOpen s.history
        × Replays C.message_buffer_capacity (calls_in s.history) s.tree };
}

impl<C: TreeLedger> ClosedRecording<C> {
    /// Returns a tree to which the calls of a history led.
    pub(crate) fn new(tree: TreeState, history: HistoryPrefix<C>) -> ClosedRecording<C>
        requires open { IsOpen history }
        requires replays { Replays C.message_buffer_capacity (calls_in history) tree }
        ensures { result ≡ recorded_after C.message_buffer_capacity tree history }
    {
        ClosedRecording { tree, history }
    }

    /// Returns what a frame sees of the tree, and the receipt.
    pub(crate) fn look(
        &self,
        spare: (Rows, Messages),
        previous: Option<MessageCopyState>,
    ) -> Result<(Option<Looked>, LookReceipt<C>), Refusal>
        ensures ok { IfOk result (IsSeen C.message_buffer_capacity previous (owned_by 0 self.now)) }
        ensures reason { IsOkUnless result Refusal.Memory }
    {
        let seen = self.tree.look(spare, previous)?;
        Ok((seen, LookReceipt::new(self.history.duplicate())))
    }

    /// Returns the number of tasks that a view shows.
    pub(crate) fn num_tasks(&mut self, alloc: Global) -> usize
        ensures value { result ≡ tasks_of self.old.tree }
        ensures kept { self.new ≡ self.old }
    {
        count_tasks(&mut self.tree, alloc)
    }
}
