//! The parts of the ledgers of a recorded tree that no share has.
ghost use Rattle.std.specs.Prelude.{◌≡◌, ◌+◌, ◌<◌, ◌≤◌, ◌↔◌, IsTrue, length};
ghost use Rattle.prodash.specs.declared.tree.recorded.ledgers.TheConstants.{PARTS};
ghost use Rattle.prodash.specs.Journals.{no_calls, calls_of, sum_of};

use crate::tree::recorded::ledgers::{PARTS, TreeLedger};
use crate::tree::recorded::share::Share;
use std::marker::Model;
use std::snapshot::Snapshot;
use std::sync::ledger::Ledger;
use std::sync::{Mutex, MutexGuard, Wait, ledger};

/// The parts of the ledgers that no share has yet. They have a lock of their own.
#[derive(Drop)]
pub(crate) struct UnsharedParts<C: TreeLedger, S: Ledger> {
    /// The number of shares that have been made.
    made: u64,
    call_part: ledger::Share<C>,
    sum_part: ledger::Share<S>,
    ghost calls: { call_part.parts + made ≡ PARTS },
    ghost sums: { sum_part.parts + made ≡ PARTS },
    ghost no_calls: { call_part.amount ≡ 0 },
    ghost no_sum: { sum_part.amount ≡ 0 },
}

/// The parts that no share has yet, under a lock. Contracts see how many shares had been made before
/// they came under it.
#[derive(Drop)]
pub(crate) struct LockedParts<C: TreeLedger, S: Ledger> {
    parts: Mutex<UnsharedParts<C, S>>,
    before: Snapshot<u64>,
}

impl<C: TreeLedger, S: Ledger> Model for LockedParts<C, S> {
    ghost use Rattle.std.specs.Prelude.{ℕ};

    ghost Value = { ℕ };

    ghost view = { λ locked. locked.before.value };
}

impl<C: TreeLedger, S: Ledger> LockedParts<C, S> {
    /// Returns these parts under a lock.
    pub(crate) fn new(parts: UnsharedParts<C, S>) -> LockedParts<C, S>
        ensures { result ≡ parts.made }
    {
        let before = Snapshot::of(&parts.made);
        LockedParts {
            parts: Mutex::new(parts),
            before,
        }
    }

    /// Takes the lock.
    pub(crate) fn lock<R: Wait>(&self, rt: &R) -> MutexGuard<'_, UnsharedParts<C, S>> {
        self.parts.lock(rt)
    }

    /// Returns the parts.
    pub(crate) fn into_parts(self) -> UnsharedParts<C, S> {
        let LockedParts { parts, before: _ } = self;
        parts.into_inner()
    }
}

impl<C: TreeLedger, S: Ledger> UnsharedParts<C, S> {
    /// Returns all parts of the ledgers: no share has been made yet.
    pub(crate) fn new(
        call_part: ledger::Share<C>,
        sum_part: ledger::Share<S>,
    ) -> UnsharedParts<C, S>
        requires calls { (call_part.parts ≡ PARTS) × (call_part.amount ≡ 0) }
        requires sums { (sum_part.parts ≡ PARTS) × (sum_part.amount ≡ 0) }
        ensures { result.made ≡ 0 }
    {
        UnsharedParts {
            made: 0,
            call_part,
            sum_part,
        }
    }

    /// Returns whether all shares have been made that can be.
    pub(crate) fn is_exhausted(&self) -> bool
        ensures { IsTrue result ↔ (self.now.made ≡ PARTS) }
    {
        self.made == PARTS
    }

    /// Splits off the share of an item that has made no call.
    pub(crate) fn split_share(&mut self) -> Share<C, S>
        requires { self.old.made < PARTS }
        ensures share { result ≡ no_calls }
        ensures made { self.new.made ≡ self.old.made + 1 }
    {
        let UnsharedParts {
            made,
            call_part,
            sum_part,
        } = self;
        let calls = call_part.split_off(1, 0);
        let sums = sum_part.split_off(1, 0);
        *made += 1;
        Share::new(calls, sums)
    }

    /// Returns whether there are at least as many shares as have been made.
    pub(crate) fn is_complete_with(&self, shares: &[Share<C, S>]) -> bool
        ensures { IsTrue result ↔ (self.now.made ≤ length shares.now) }
    {
        self.made <= shares.len() as u64
    }

    /// Merges these parts with those of the shares.
    pub(crate) fn merge_shares(
        self,
        shares: Vec<Share<C, S>>,
    ) -> (ledger::Share<C>, ledger::Share<S>)
        requires { self.made ≤ length shares.items }
        ensures call_parts { PARTS ≤ result.0.parts }
        ensures calls { result.0.amount ≡ calls_of shares.items }
        ensures sum_parts { PARTS ≤ result.1.parts }
        ensures sums { result.1.amount ≡ sum_of shares.items }
    {
        let UnsharedParts {
            made: _,
            call_part,
            sum_part,
        } = self;
        let mut calls = call_part;
        let mut sums = sum_part;
        for share in shares {
            let (call_part, sum_part) = share.into_parts();
            calls.merge(call_part);
            sums.merge(sum_part);
        }
        (calls, sums)
    }
}
