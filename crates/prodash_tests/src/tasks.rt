//! Tasks of recorded trees: progress whose calls have entries in the journal.
ghost use Rattle.std.specs.Prelude.{◌≡◌};

use crate::fixtures::assert_same;
use crate::receipts::{assert_receipts, assert_rising};
use crate::recorded::make_call;
use crate::traits::{NOW, assert_reaches_item};
use crate::wrappers::Stopped;
use prodash::messages::MessageLevel;
use prodash::progress::Reporter;
use prodash::tree::Event;
use prodash::tree::recorded::{
    Ledgers, Receipt, RecordedCalls, RecordedItem, RecordedRoot, RecordedTask, Recorder, Share,
    TreeLedger,
};
use prodash::tree::root::Options;
use prodash::{Count, NestedProgress, Progress, Refusal};
use std::alloc::Global;
use std::marker::Brand;
use std::process::Abort;
use std::sync::atomic::Ordering;
use std::sync::ledger::Ledger;
use std::sync::{Arc, Wait};
use std::thread;
use std::thread::Threads;

/// What is called, and what the recorder and the journal have then.
#[derive(Clone, Copy)]
struct Case {
    calls: Calls,
    /// The receipts of the recorder.
    receipts: usize,
    sum: u128,
    refusal: Option<Refusal>,
    /// The entries that are not the recorder's.
    others: usize,
}

/// What is called.
#[derive(Clone, Copy)]
enum Calls {
    /// Each call of a task.
    Each,
    /// A task whose counter has another owner.
    Counter,
    /// A task whose item another item of the tree has dropped.
    Dropped,
    /// Parts in four threads, by reporters.
    Threads,
}

#[test]
fn each_call_has_an_entry(rt: HostRuntime) {
    let case = Case {
        calls: Calls::Each,
        receipts: 24,
        sum: 3,
        refusal: None,
        others: 0,
    };
    report_on_new_tree(rt, rt.alloc(), case);
}

#[test]
fn steps_of_the_counter_have_entries(rt: HostRuntime) {
    let case = Case {
        calls: Calls::Counter,
        receipts: 8,
        sum: 10,
        refusal: None,
        others: 0,
    };
    report_on_new_tree(rt, rt.alloc(), case);
}

#[test]
fn a_refusal_is_kept(rt: HostRuntime) {
    let case = Case {
        calls: Calls::Dropped,
        receipts: 3,
        sum: 0,
        refusal: Some(Refusal::Gone),
        others: 1,
    };
    report_on_new_tree(rt, rt.alloc(), case);
}

#[test]
fn threads_report_by_one_recorder(rt: HostRuntime) {
    let case = Case {
        calls: Calls::Threads,
        receipts: 56,
        sum: 40,
        refusal: None,
        others: 0,
    };
    report_on_new_tree(rt, rt.alloc(), case);
}

/// Makes the calls of a case on a new tree, whose ledgers have types of their own.
fn report_on_new_tree<R: Threads + Wait + Abort + Copy + Send + Sync + 'static>(
    rt: R,
    alloc: Global,
    case: Case,
) {
    report_on_tree::<Brand, Brand, R>(rt, alloc, Ledgers::new(), case);
}

fn report_on_tree<
    C: TreeLedger + Send + Sync + 'static,
    S: Ledger + Send + Sync + 'static,
    R: Threads + Wait + Abort + Copy + Send + Sync + 'static,
>(rt: R, alloc: Global, ledgers: Ledgers, case: Case)
    requires calls { (ledgers.calls.name ≡ C.name) × (ledgers.calls.parts ≡ C.parts) }
    requires sums { (ledgers.sums.name ≡ S.name) × (ledgers.sums.parts ≡ S.parts) }
    requires history { ledgers.history.seen.book ≡ C.history }
    requires capacity { C.message_buffer_capacity ≡ 20 }
{
    let root = RecordedRoot::<C, S>::new(alloc, ledgers, &Options::default());
    let root = root.expect(&rt, "no refusal");
    let mut other = root.share(&rt).expect(&rt, "no refusal");
    let mut receipts = Vec::new(alloc);
    let calls = record_calls(rt, alloc, &root, &mut other, &mut receipts, case.calls);
    assert_recorded(&rt, &calls, &case);
    assert_same(&rt, receipts.len(), case.others, "other entries");
    let RecordedCalls {
        share,
        receipts: mut own,
        ..
    } = calls;
    receipts.append(&mut own).expect(&rt, "memory");
    let mut shares = Vec::new(alloc);
    shares.push(share).expect(&rt, "memory");
    shares.push(other.give_back()).expect(&rt, "memory");
    assert_journal(&rt, alloc, root, shares, &receipts);
}

/// Returns what a recorder has recorded of these calls. It can't be finished while it has a task.
fn record_calls<
    C: TreeLedger + Send + Sync + 'static,
    S: Ledger + Send + Sync + 'static,
    R: Threads + Wait + Abort + Copy + Send + Sync + 'static,
>(
    rt: R,
    alloc: Global,
    root: &RecordedRoot<C, S>,
    other: &mut RecordedItem<C, S>,
    receipts: &mut Vec<Receipt<C>>,
    calls: Calls,
) -> RecordedCalls<C, S> {
    let item = root.share(&rt).expect(&rt, "no refusal");
    let recorder = Recorder::new(rt, alloc, item).ok().expect(&rt, "memory");
    let task = recorder.add_child(alloc, "task").expect(&rt, "no refusal");
    let recorder = recorder.finish().err().expect(&rt, "a task is left");
    match calls {
        Calls::Each => call_each_kind(&rt, alloc, task),
        Calls::Counter => count_by_others(&rt, alloc, task),
        Calls::Dropped => call_dropped(&rt, alloc, task, other, receipts),
        Calls::Threads => work_in_threads(rt, alloc, task),
    }
    let last = recorder.add_child_with_id(alloc, "last", *b"LAST");
    drop(last.expect(&rt, "no refusal"));
    recorder.finish().ok().expect(&rt, "no task is left")
}

/// Makes each call of a task, and drops it: 21 calls.
fn call_each_kind<
    R: Wait + Abort + Copy + Send + Sync,
    C: TreeLedger + Send + Sync,
    S: Ledger + Send + Sync,
>(rt: &R, alloc: Global, mut task: RecordedTask<R, C, S>) {
    assert_reaches_item(rt, alloc, &mut task);
    task.blocked("lock", None).expect(rt, "no refusal");
    task.halted("lock", Some(NOW)).expect(rt, "no refusal");
    task.running().expect(rt, "no refusal");
}

/// Adds to the counter of a task before a call, and before its drop.
fn count_by_others<
    R: Wait + Abort + Copy + Send + Sync,
    C: TreeLedger + Send + Sync,
    S: Ledger + Send + Sync,
>(rt: &R, alloc: Global, task: RecordedTask<R, C, S>) {
    let counter = task.counter(alloc).expect(rt, "no refusal");
    counter.fetch_add(5, Ordering::SeqCst);
    task.inc();
    assert_same(rt, counter.load(Ordering::SeqCst), 6, "counter");
    assert_same(rt, task.step(), 6, "step");
    counter.fetch_add(4, Ordering::SeqCst);
}

/// Makes calls of a task whose item is dropped.
fn call_dropped<
    R: Wait + Abort + Copy + Send + Sync,
    C: TreeLedger + Send + Sync,
    S: Ledger + Send + Sync,
>(
    rt: &R,
    alloc: Global,
    mut task: RecordedTask<R, C, S>,
    other: &mut RecordedItem<C, S>,
    receipts: &mut Vec<Receipt<C>>,
) {
    let item = task.handle();
    make_call(rt, alloc, other, receipts, Event::Drop { item });
    task.set(3);
    assert_same(rt, task.step(), 0, "step");
    assert_same(rt, task.max(), None, "bound");
    let sent = task.message(alloc, NOW, MessageLevel::Info, "lost");
    assert_same(rt, sent.err(), Some(Refusal::Memory), "a message");
    let named = task.set_name(alloc, "other");
    assert_same(rt, named.err(), Some(Refusal::Memory), "a name");
    let child = task.add_child(alloc, "child").err();
    assert_same(rt, child, Some(Refusal::Memory), "a child");
}

/// Works in four threads, each at a part of its own: 53 calls.
fn work_in_threads<
    R: Threads + Wait + Abort + Copy + Send + Sync + 'static,
    C: TreeLedger + Send + Sync + 'static,
    S: Ledger + Send + Sync + 'static,
>(rt: R, alloc: Global, task: RecordedTask<R, C, S>) {
    let mut job = Reporter::new(alloc, task, Stopped::at(&rt, alloc, NOW));
    let mut threads = Vec::new(alloc);
    for name in ["one", "two", "three", "four"] {
        let part = job.add_child(name).expect(&rt, "no refusal");
        let thread = thread::spawn(&rt, move || work_at(&rt, part));
        threads
            .push(thread.expect(&rt, "a thread"))
            .expect(&rt, "memory");
    }
    for thread in threads {
        thread.join(&rt);
    }
}

/// Takes ten steps, and sends a message.
fn work_at<P: Progress + Drop>(rt: &impl Abort, part: Reporter<P, Stopped>) {
    for _ in 0..10 {
        part.inc();
    }
    part.done("is done").expect(rt, "no refusal");
}

/// Asserts what a recorder has recorded.
fn assert_recorded<C: TreeLedger, S: Ledger>(
    rt: &impl Abort,
    calls: &RecordedCalls<C, S>,
    case: &Case,
) {
    assert_rising(rt, &calls.receipts);
    assert_same(rt, calls.receipts.len(), case.receipts, "receipts");
    assert_same(rt, calls.share.calls(), case.receipts as u64, "calls");
    assert_same(rt, calls.share.sum(), case.sum, "sum");
    assert_same(rt, calls.refusal, case.refusal, "refusal");
}

/// Asserts that the journal of a tree has these receipts, and no other entries.
fn assert_journal<C: TreeLedger, S: Ledger>(
    rt: &(impl Wait + Abort),
    alloc: Global,
    root: RecordedRoot<C, S>,
    shares: Vec<Share<C, S>>,
    receipts: &[Receipt<C>],
) {
    let journal = root.close(rt, shares).ok().expect(rt, "a journal");
    assert_receipts(rt, alloc, &journal, receipts, receipts.len());
}
