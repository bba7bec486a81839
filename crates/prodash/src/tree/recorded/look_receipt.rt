//! Receipts of looks at recorded trees.
ghost use Rattle.std.specs.Prelude.{◌≡◌, length};
ghost use Rattle.prodash.specs.plumbing.Histories.{IsOpen, calls_in};

use crate::tree::recorded::history::HistoryPrefix;
use crate::tree::recorded::ledgers::TreeLedger;
use std::marker::Model;

/// What a view gets for a look: which calls on the tree had been accepted by then. They are the
/// first entries of the journal, as [`Journal::begins_with`] says of each receipt. Contracts see
/// these entries. A receipt of another tree has another type.
///
/// [`Journal::begins_with`]: crate::tree::recorded::Journal::begins_with
#[derive(Drop)]
pub struct LookReceipt<C: TreeLedger> {
    prefix: HistoryPrefix<C>,
}

impl<C: TreeLedger> Model for LookReceipt<C> {
    ghost use Rattle.std.specs.Prelude.{List};
    ghost use Rattle.prodash_core.specs.declared.tree.event.Event.{Event};
    ghost use Rattle.prodash_core.specs.declared.tree.event.Reply.{Reply};
    ghost use Rattle.prodash.specs.plumbing.Histories.{IsOpen, calls_in};

    ghost Value = { List (Event × Reply) };

    ghost view = { λ r. calls_in r.prefix };

    ghost invariant = { λ r. IsOpen r.prefix };
}

impl<C: TreeLedger> LookReceipt<C> {
    /// Returns the receipt of a look at a tree with this history.
    pub(crate) fn new(prefix: HistoryPrefix<C>) -> LookReceipt<C>
        requires { IsOpen prefix }
        ensures { result ≡ calls_in prefix }
    {
        LookReceipt { prefix }
    }

    /// Returns the number of calls that had been accepted.
    #[tactic(auto, using(crate::proofs::CallLaws::calls_length))]
    pub fn calls(&self) -> u64
        ensures { result ≡ length self.now }
    {
        self.prefix.len()
    }

    /// Returns the history before the look.
    pub(crate) fn prefix(&self) -> &HistoryPrefix<C>
        ensures open { IsOpen result.now }
        ensures entries { calls_in result.now ≡ self.now }
    {
        &self.prefix
    }
}
