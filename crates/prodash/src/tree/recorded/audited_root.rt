//! Weak roots whose looks have receipts.
ghost use Rattle.std.specs.Prelude.{IfOk, IfErr};
ghost use Rattle.prodash_base.specs.Refusals.{RefusesHandle};
ghost use Rattle.prodash.specs.Journals.{Replays};
ghost use Rattle.prodash.specs.Views.{SeesTree};

use crate::messages::{MessageCopyState, Messages};
use crate::progress::Rows;
use crate::tree::recorded::ledgers::TreeLedger;
use crate::tree::recorded::look_receipt::LookReceipt;
use crate::tree::recorded::turns::TakesViewTurns;
use crate::tree::recorded::view::WeakView;
use prodash_base::Refusal;
use std::sync::ledger::Ledger;

/// A weak root of a tree that is audited: a look has a receipt, which says what tree it saw.
pub trait AuditedRoot {
    ghost use Rattle.prodash_core.specs.Trees.{Tree};

    /// The receipt of a look.
    type Receipt;

    /// The receipt is that of a look at this tree.
    ghost is_of: { Self.Receipt → Tree → Type 0 };

    /// Returns what a frame sees of the tree: the rows, the messages since `previous`, or all that
    /// are kept if that is `None`, and the state for the next look. Returns no rows and no messages
    /// once the root was dropped, and no receipt either if the weak root finds no root. The memory
    /// of `spare` is reused, whatever it contains.
    ///
    /// # Errors
    ///
    /// `TooManyHandles`, if the root has 2^64 - 1 owners. `Memory`, if there is no memory for the
    /// copies.
    fn see(
        &self,
        spare: (Rows, Messages),
        previous: Option<MessageCopyState>,
    ) -> Result<
        (
            Option<(Rows, Messages, MessageCopyState)>,
            Option<Self::Receipt>,
        ),
        Refusal,
    >
        ensures ok { IfOk result (λ r. SeesTree is_of previous r.1 r.0) }
        ensures reason { IfErr result RefusesHandle };
}

impl<R: TakesViewTurns, C: TreeLedger, S: Ledger> AuditedRoot for WeakView<R, C, S> {
    type Receipt = LookReceipt<C>;

    ghost is_of = { λ receipt t. Replays C.message_buffer_capacity receipt t };

    fn see(
        &self,
        spare: (Rows, Messages),
        previous: Option<MessageCopyState>,
    ) -> Result<
        (
            Option<(Rows, Messages, MessageCopyState)>,
            Option<LookReceipt<C>>,
        ),
        Refusal,
    > {
        let Some(view) = self.upgrade()? else {
            return Ok((None, None));
        };
        let (seen, receipt) = view.see(spare, previous)?;
        Ok((seen, Some(receipt)))
    }
}
