//! Receipts: callers find their own calls in the journal.
use crate::fixtures::{assert_reply, assert_same};
use crate::recorded::{Replay, Round, Work, add_task, make_call, run_on_new_tree};
use prodash::tree::recorded::{Journal, Receipt, RecordedItem, TreeLedger};
use prodash::tree::{Event, Reply};
use std::alloc::Global;
use std::process::Abort;
use std::sync::Wait;
use std::sync::ledger::Ledger;

const ONE_ITEM: &[Round] = &[Round {
    workers: 1,
    work: Work::OneItem,
    calls: 4,
    sum: 4,
}];

#[test]
fn receipts_of_one_item_are_in_order(rt: HostRuntime) {
    run_on_new_tree(rt, rt.alloc(), ONE_ITEM, 4, Replay::Step(7));
}

/// Adds a task, sets its step to 3, adds 4, and asks for the step.
pub(crate) fn call_in_order<C: TreeLedger, S: Ledger, R: Wait + Abort>(
    rt: &R,
    alloc: Global,
    item: &mut RecordedItem<C, S>,
    receipts: &mut Vec<Receipt<C>>,
) {
    add_task(rt, alloc, item, receipts, "task");
    make_call(rt, alloc, item, receipts, Event::Set { item: 1, step: 3 });
    make_call(rt, alloc, item, receipts, Event::IncBy { item: 1, step: 4 });
    let step = make_call(rt, alloc, item, receipts, Event::Step { item: 1 });
    assert_reply(rt, &step, &Reply::Step(7), "step");
}

/// Asserts that an entry of the journal is the call of a receipt.
fn assert_found<C: TreeLedger>(rt: &impl Abort, journal: &Journal<C>, receipt: &Receipt<C>) {
    let number = receipt.number();
    assert_same(rt, journal.agrees(receipt), true, number);
    let is_found = match journal.entries().get(number as usize) {
        Some((event, reply)) => *event == *receipt.event() && *reply == *receipt.reply(),
        None => false,
    };
    assert_same(rt, is_found, true, number);
}

/// Asserts that the numbers of a worker's receipts ascend.
pub(crate) fn assert_rising<C: TreeLedger>(rt: &impl Abort, receipts: &[Receipt<C>]) {
    let mut least = 0u64;
    for receipt in receipts {
        assert_same(rt, least <= receipt.number(), true, receipt.number());
        least = receipt.number().wrapping_add(1);
    }
}

/// Asserts that these are the numbers from 0 on, in any order.
fn assert_all(rt: &impl Abort, mut numbers: Vec<u64>) {
    numbers.sort_unstable();
    let mut want = 0u64;
    for number in &numbers {
        assert_same(rt, *number, want, "number");
        want = want.wrapping_add(1);
    }
}

/// Asserts that a journal has this many entries, and one receipt for each.
pub(crate) fn assert_receipts<C: TreeLedger>(
    rt: &impl Abort,
    alloc: Global,
    journal: &Journal<C>,
    receipts: &[Receipt<C>],
    entries: usize,
) {
    assert_same(rt, journal.entries().len(), entries, "entries");
    assert_same(rt, receipts.len(), entries, "receipts");
    let mut numbers = Vec::new(alloc);
    for receipt in receipts {
        assert_found(rt, journal, receipt);
        numbers.push(receipt.number()).expect(rt, "memory");
    }
    assert_all(rt, numbers);
}
