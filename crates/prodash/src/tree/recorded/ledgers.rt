//! The ledgers of a recorded tree.
ghost use Rattle.std.specs.Prelude.{◌≡◌, ℕ};
ghost use Rattle.prodash.specs.declared.tree.recorded.ledgers.TheConstants.{PARTS};

use crate::tree::recorded::history::History;
use std::marker::{Brand, PhantomData};
use std::sync::ledger::{Blank, Ledger};

/// The number of parts of each ledger of a tree, one for each share. It is the number of shares
/// that can be made.
pub(crate) const PARTS: u64 = u64::MAX;

/// The ledger of the calls on a recorded tree, which names the tree. Contracts read from it how
/// many messages the tree keeps, and which history is its own.
pub trait TreeLedger: Ledger {
    ghost use Rattle.logbook.specs.Pages.{Book};

    ghost message_buffer_capacity: { ℕ };

    ghost history: { Book };
}

impl TreeLedger for Brand {
    ghost message_buffer_capacity = { 0 };

    ghost history = { record { number = 0; log_name = 0; cells_name = 0 } };
}

/// The ledgers of a tree that is to be recorded, one of calls and one of sums, and its history. The
/// ledgers have 2^64-1 parts each, one for each share.
#[derive(Drop)]
pub struct Ledgers {
    /// The ledger of calls, which names the tree.
    pub calls: Blank,
    /// The ledger of sums.
    pub sums: Blank,
    /// The history of the tree.
    pub history: History,
    ghost call_parts: { calls.parts ≡ PARTS },
    ghost sum_parts: { sums.parts ≡ PARTS },
}

impl Ledgers {
    /// Returns new ledgers and an empty history.
    pub fn new() -> Ledgers {
        Ledgers {
            calls: Blank::new(PARTS),
            sums: Blank::new(PARTS),
            history: History::new(),
        }
    }
}

/// A proof that a ledger has `PARTS` parts.
#[derive(Drop)]
pub(crate) struct PartCount<L: Ledger> {
    ledger: PhantomData<L>,
    ghost parts: { L.parts ≡ PARTS },
}

impl<L: Ledger> PartCount<L> {
    pub(crate) fn new() -> PartCount<L>
        requires { L.parts ≡ PARTS }
    {
        PartCount {
            ledger: PhantomData,
        }
    }

    /// Proof only: the ledger has `PARTS` parts.
    pub(crate) fn show_parts(&self)
        ensures { L.parts ≡ PARTS }
    {
        let _ = &self.ledger;
    }
}
