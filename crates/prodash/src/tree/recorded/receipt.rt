//! Receipts of calls on recorded trees.
ghost use Rattle.std.specs.Prelude.{◌≡◌};
ghost use Rattle.prodash.specs.plumbing.Histories.{HasCallAt};

use crate::tree::recorded::history::HistoryPrefix;
use crate::tree::recorded::ledgers::TreeLedger;
use prodash_core::tree::{Event, Reply};
use std::marker::Model;

/// What a caller of a recorded tree gets for an accepted call: the event, the reply, and the number
/// of the call's entry in the journal, counted from 0. `Journal::agrees` looks it up. A receipt of
/// another tree has another type.
#[derive(Drop)]
pub struct Receipt<C: TreeLedger> {
    number: u64,
    entry: (Event, Reply),
    prefix: HistoryPrefix<C>,
}

impl<C: TreeLedger> Model for Receipt<C> {
    ghost use Rattle.prodash.specs.Journals.{Received};
    ghost use Rattle.prodash.specs.plumbing.Histories.{HasCallAt};

    ghost Value = { Received };

    ghost view = { λ r. record { number = r.number; event = r.entry.0; reply = r.entry.1 } };

    ghost invariant = { λ r. HasCallAt r.prefix r.number r.entry };
}

impl<C: TreeLedger> Receipt<C> {
    /// Returns the receipt of the call that has this number in a prefix of the history.
    pub(crate) fn new(number: u64, entry: (Event, Reply), prefix: HistoryPrefix<C>) -> Receipt<C>
        requires { HasCallAt prefix number entry }
        ensures { result ≡ record { number = number; event = entry.0; reply = entry.1 } }
    {
        Receipt {
            number,
            entry,
            prefix,
        }
    }

    /// Returns the number of the call's entry in the journal, counted from 0.
    pub fn number(&self) -> u64
        ensures { result ≡ self.now.number }
    {
        self.number
    }

    /// Returns the event of the call.
    pub fn event(&self) -> &Event
        ensures { result.now ≡ self.now.event }
    {
        &self.entry.0
    }

    /// Returns the reply to the call.
    pub fn reply(&self) -> &Reply
        ensures { result.now ≡ self.now.reply }
    {
        &self.entry.1
    }

    /// Returns a prefix of the history that has the call at the receipt's number.
    pub(crate) fn prefix(&self) -> &HistoryPrefix<C>
        ensures { HasCallAt result.now self.now.number (self.now.event, self.now.reply) }
    {
        &self.prefix
    }
}
