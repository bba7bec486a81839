//! What the items of a recorded tree have done.
ghost use Rattle.std.specs.Prelude.{◌≡◌, ◌+◌, ◌<◌, ◌≤◌};
ghost use Rattle.prodash.specs.Journals.{no_calls, with_call, amount_of};

use crate::tree::recorded::ledgers::TreeLedger;
use prodash_core::tree::Event;
use std::marker::Model;
use std::sync::ledger;
use std::sync::ledger::{Book, Ledger};

/// What an item of a recorded tree has done. It has one part of each ledger of the tree, so a share
/// of another tree has another type. Contracts see the number of the calls and their sum.
#[derive(Drop)]
pub struct Share<C: TreeLedger, S: Ledger> {
    calls: u64,
    sum: u128,
    call_part: ledger::Share<C>,
    sum_part: ledger::Share<S>,
}

impl<C: TreeLedger, S: Ledger> Model for Share<C, S> {
    ghost use Rattle.std.specs.Prelude.{◌≡◌, ◌*◌, ◌≤◌};
    ghost use Rattle.prodash.specs.Journals.{Tally};

    ghost Value = { Tally };

    ghost view = { λ s. record { calls = s.calls; sum = s.sum } };

    ghost invariant = { λ s. (s.call_part.parts ≡ 1) × (s.sum_part.parts ≡ 1)
        × (s.call_part.amount ≡ s.calls) × (s.sum_part.amount ≡ s.sum)
        × (s.sum ≤ s.calls * 18446744073709551615) };
}

impl<C: TreeLedger, S: Ledger> Share<C, S> {
    /// Returns the share of an item that has made no call, which has these parts.
    pub(crate) fn new(call_part: ledger::Share<C>, sum_part: ledger::Share<S>) -> Share<C, S>
        requires calls { (call_part.parts ≡ 1) × (call_part.amount ≡ 0) }
        requires sums { (sum_part.parts ≡ 1) × (sum_part.amount ≡ 0) }
        ensures { result ≡ no_calls }
    {
        Share {
            calls: 0,
            sum: 0,
            call_part,
            sum_part,
        }
    }

    /// Returns the number of the item's calls that were accepted.
    pub fn calls(&self) -> u64
        ensures { result ≡ self.now.calls }
    {
        self.calls
    }

    /// Returns the sum of the steps of the item's `IncBy` events that were accepted.
    pub fn sum(&self) -> u128
        ensures { result ≡ self.now.sum }
    {
        self.sum
    }

    /// Counts an accepted call.
    pub(crate) fn count_call(&mut self, event: &Event, calls: &mut Book<C>, sums: &mut Book<S>)
        requires { self.old.calls < u64.MAX }
        ensures after { self.new ≡ with_call self.old event.now }
        ensures calls { calls.new.total ≡ calls.old.total + 1 }
        ensures sums { sums.new.total ≡ sums.old.total + amount_of event.now }
    {
        let amount = amount_of(event);
        calls.add(&mut self.call_part, 1);
        sums.add(&mut self.sum_part, amount);
        self.calls += 1;
        self.sum += u128::from(amount);
    }

    /// Proof only: no other token has all parts of the ledger of calls.
    pub(crate) fn show_part(&mut self, other: &mut ledger::Share<C>)
        ensures { other.old.parts + 1 ≤ C.parts }
    {
        self.call_part.give(other, 0, 0);
    }

    /// Returns the parts of both ledgers.
    pub(crate) fn into_parts(self) -> (ledger::Share<C>, ledger::Share<S>)
        ensures calls { (result.0.parts ≡ 1) × (result.0.amount ≡ self.calls) }
        ensures sums { (result.1.parts ≡ 1) × (result.1.amount ≡ self.sum) }
    {
        let Share {
            calls: _,
            sum: _,
            call_part,
            sum_part,
        } = self;
        (call_part, sum_part)
    }
}

/// Returns what an event adds to the counter of an item.
fn amount_of(event: &Event) -> u64
    ensures { result ≡ amount_of event.now }
{
    match event {
        Event::IncBy { step, .. } => *step,
        _ => 0,
    }
}
