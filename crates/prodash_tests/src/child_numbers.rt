//! More children of the root of a recorded tree than 16 bits count.
use crate::fixtures::{assert_same, key_at};
use crate::recorded::{Replay, Round, Work, add_task, make_call, run_on_new_tree};
use prodash::progress::Rows;
use prodash::tree::Event;
use prodash::tree::recorded::{Receipt, RecordedItem, TreeLedger};
use std::alloc::Global;
use std::process::Abort;
use std::sync::Wait;
use std::sync::ledger::Ledger;

const CHILDREN: &[Round] = &[Round {
    workers: 1,
    work: Work::Children,
    calls: 65539,
    sum: 0,
}];

#[test]
fn the_child_after_65536_has_a_place_of_its_own(rt: HostRuntime) {
    run_on_new_tree(rt, rt.alloc(), CHILDREN, 65539, Replay::Children);
}

/// Adds 65537 tasks, drops the first, and begins the progress of the last.
pub(crate) fn call_children<C: TreeLedger, S: Ledger, R: Wait + Abort>(
    rt: &R,
    alloc: Global,
    item: &mut RecordedItem<C, S>,
    receipts: &mut Vec<Receipt<C>>,
) {
    for _ in 0..65536u32 {
        add_task(rt, alloc, item, receipts, "more");
    }
    let last = add_task(rt, alloc, item, receipts, "Z");
    make_call(rt, alloc, item, receipts, Event::Drop { item: 1 });
    let (max, unit) = (Some(1), None);
    make_call(
        rt,
        alloc,
        item,
        receipts,
        Event::Init {
            item: last,
            max,
            unit,
        },
    );
}

/// Asserts that the last of 65536 rows is that of the child after 65536 others, with progress.
pub(crate) fn assert_last_row(rt: &impl Abort, rows: &Rows) {
    assert_same(rt, rows.as_slice().len(), 65536, "rows");
    let row = rows.as_slice().last().expect(rt, "a row");
    assert_same(rt, row.key, key_at(&[65536]), "key");
    assert_same(rt, row.name.as_str(), "Z", "name");
    assert_same(rt, row.progress.is_some(), true, "progress");
}
