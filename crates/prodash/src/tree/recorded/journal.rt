//! Journals of recorded trees.
ghost use Rattle.std.specs.Prelude.{◌≡◌, ◌≤◌, true, length};
ghost use Rattle.prodash.specs.plumbing.Histories.{ended};
ghost use Rattle.prodash.specs.Journals.{IsJournal, HasEntryOf};
ghost use Rattle.prodash.specs.Views.{IsFront};

use crate::tree::recorded::history::HistoryPrefix;
use crate::tree::recorded::ledgers::TreeLedger;
use crate::tree::recorded::look_receipt::LookReceipt;
use crate::tree::recorded::receipt::Receipt;
use prodash_core::tree::{Event, Reply};
use std::marker::Model;

/// The events that a recorded tree accepted, in order, each with its reply. One thread could have
/// made these calls: a tree without tasks, which keeps as many messages as this one, accepts each
/// event in turn with its reply. Contracts see the list.
#[derive(Drop)]
pub struct Journal<C: TreeLedger> {
    entries: Vec<(Event, Reply)>,
    history: HistoryPrefix<C>,
}

impl<C: TreeLedger> Model for Journal<C> {
    ghost use Rattle.std.specs.Prelude.{◌≡◌, List};
    ghost use Rattle.prodash_core.specs.declared.tree.event.Event.{Event};
    ghost use Rattle.prodash_core.specs.declared.tree.event.Reply.{Reply};
    ghost use Rattle.prodash.specs.plumbing.Histories.{ended};
    ghost use Rattle.prodash.specs.Journals.{IsJournal};

    ghost Value = { List (Event × Reply) };

    ghost view = { λ j. j.entries.items };

    ghost invariant = { λ j. IsJournal C.message_buffer_capacity j.entries.items
        × (j.history ≡ ended j.entries.items) };
}

impl<C: TreeLedger> Journal<C> {
    /// Returns the journal of a tree, whose history has ended.
    pub(crate) fn new(entries: Vec<(Event, Reply)>, history: HistoryPrefix<C>) -> Journal<C>
        requires replays { IsJournal C.message_buffer_capacity entries.items }
        requires history { history ≡ ended entries.items }
        ensures { result ≡ entries.items }
    {
        Journal { entries, history }
    }

    /// Returns the events and their replies.
    pub fn entries(&self) -> &[(Event, Reply)]
        ensures same { result.now ≡ self.now }
        ensures replays { IsJournal C.message_buffer_capacity self.now }
    {
        self.entries.as_slice()
    }

    /// Returns whether there is an entry at the receipt's number. There always is, and it has the
    /// receipt's event and reply: a receipt of another tree has another type.
    pub fn agrees(&self, receipt: &Receipt<C>) -> bool
        ensures value { result ≡ true }
        ensures entry { HasEntryOf self.now receipt.now }
    {
        self.history.covers(receipt.prefix());
        receipt.number() < self.entries.len() as u64
    }

    /// Returns whether there are as many entries as the look saw. There always are, and those that
    /// it saw are the first of the journal, so its rows and its messages are those of a tree which
    /// accepts these entries. A receipt of another tree has another type.
    pub fn begins_with(&self, look: &LookReceipt<C>) -> bool
        ensures value { result ≡ true }
        ensures front { IsFront look.now self.now }
        ensures length { length look.now ≤ length self.now }
    {
        self.history.covers(look.prefix());
        look.calls() <= self.entries.len() as u64
    }
}
