//! Recorded trees: workers of many threads, and journals that a sequential tree replays.
ghost use Rattle.std.specs.Prelude.{◌≡◌, false};
ghost use Rattle.prodash_core.specs.Trees.{is_frame};

use crate::child_numbers::{assert_last_row, call_children};
use crate::fixtures::{assert_reply, assert_same};
use crate::mirror::{KINDS, event_of_kind};
use crate::receipts::{assert_receipts, assert_rising, call_in_order};
use prodash::progress::{Rows, UNKNOWN};
use prodash::tree::recorded::{
    Journal, Ledgers, Receipt, RecordedItem, RecordedRoot, Share, TreeLedger, Unclosed,
};
use prodash::tree::root::Options;
use prodash::tree::{Event, Handle, Reply, RootOptions, TreeState};
use prodash::{Refusal, Text};
use std::alloc::Global;
use std::marker::Brand;
use std::process::Abort;
use std::sync::Wait;
use std::sync::ledger::Ledger;
use std::thread;
use std::thread::{JoinHandle, Threads};

/// What a worker does with its item.
#[derive(Clone, Copy)]
pub(crate) enum Work {
    /// Adds the first task.
    AddFirst,
    /// Adds 3 to the step of the first task, that many times.
    Steps(u32),
    /// Makes a call of each kind on each of that many tasks.
    Mixed(u32),
    /// Takes a snapshot.
    Snapshot,
    /// Drops the first task.
    DropFirst,
    /// Makes a call at the first task, which was dropped.
    CallDropped,
    /// Adds more children to the root than 16 bits count.
    Children,
    /// Makes four calls of which the step of the first task is 7.
    OneItem,
}

/// Workers that run side by side, and what each has done.
#[derive(Clone, Copy)]
pub(crate) struct Round {
    pub workers: u32,
    pub work: Work,
    pub calls: u64,
    pub sum: u128,
}

/// What the replay of a journal ends with.
#[derive(Clone, Copy)]
pub(crate) enum Replay {
    /// The replies of the journal.
    Replies,
    /// This step of the first task.
    Step(u64),
    /// That many rows, those of the last call, a snapshot.
    Rows(usize),
    /// The row of the child after 65536 others.
    Children,
}

const ADD_FIRST: Round = Round {
    workers: 1,
    work: Work::AddFirst,
    calls: 1,
    sum: 0,
};

const TWO: &[Round] = &[
    ADD_FIRST,
    Round {
        workers: 2,
        work: Work::Steps(1000),
        calls: 1000,
        sum: 3000,
    },
];

const EIGHT: &[Round] = &[
    ADD_FIRST,
    Round {
        workers: 8,
        work: Work::Steps(250),
        calls: 250,
        sum: 750,
    },
];

const SNAPSHOT: Round = Round {
    workers: 1,
    work: Work::Snapshot,
    calls: 1,
    sum: 0,
};

const MIXED: &[Round] = &[
    Round {
        workers: 8,
        work: Work::Mixed(20),
        calls: 410,
        sum: 40,
    },
    SNAPSHOT,
];

const CROWD: &[Round] = &[
    Round {
        workers: 64,
        work: Work::Mixed(4),
        calls: 82,
        sum: 8,
    },
    SNAPSHOT,
];

const DROPPED: &[Round] = &[
    ADD_FIRST,
    Round {
        workers: 1,
        work: Work::DropFirst,
        calls: 1,
        sum: 0,
    },
    Round {
        workers: 1,
        work: Work::CallDropped,
        calls: 0,
        sum: 0,
    },
];

#[test]
fn two_workers_have_one_journal(rt: HostRuntime) {
    run_on_new_tree(rt, rt.alloc(), TWO, 2001, Replay::Step(6000));
}

#[test]
fn eight_workers_have_one_journal(rt: HostRuntime) {
    run_on_new_tree(rt, rt.alloc(), EIGHT, 2001, Replay::Step(6000));
}

#[test]
fn mixed_calls_have_one_journal(rt: HostRuntime) {
    run_on_new_tree(rt, rt.alloc(), MIXED, 3281, Replay::Rows(240));
}

#[test]
fn a_crowd_has_one_journal(rt: HostRuntime) {
    run_on_new_tree(rt, rt.alloc(), CROWD, 5249, Replay::Rows(384));
}

#[test]
fn a_refused_call_does_not_count(rt: HostRuntime) {
    run_on_new_tree(rt, rt.alloc(), DROPPED, 2, Replay::Replies);
}

#[test]
fn a_tree_without_shares_closes(rt: HostRuntime) {
    run_on_new_tree(rt, rt.alloc(), &[], 0, Replay::Replies);
}

/// Makes the calls of these rounds on a new tree, whose ledgers have types of their own, and
/// asserts how many entries its journal has, and what its replay ends with.
pub(crate) fn run_on_new_tree<R: Threads + Wait + Abort + Copy + Send + Sync + 'static>(
    rt: R,
    alloc: Global,
    rounds: &[Round],
    entries: usize,
    replay: Replay,
) {
    run_on_tree::<Brand, Brand, R>(rt, alloc, Ledgers::new(), rounds, entries, replay);
}

fn run_on_tree<
    C: TreeLedger + Send + Sync + 'static,
    S: Ledger + Send + Sync + 'static,
    R: Threads + Wait + Abort + Copy + Send + Sync + 'static,
>(rt: R, alloc: Global, ledgers: Ledgers, rounds: &[Round], entries: usize, replay: Replay)
    requires calls { (ledgers.calls.name ≡ C.name) × (ledgers.calls.parts ≡ C.parts) }
    requires sums { (ledgers.sums.name ≡ S.name) × (ledgers.sums.parts ≡ S.parts) }
    requires history { ledgers.history.seen.book ≡ C.history }
    requires capacity { C.message_buffer_capacity ≡ 20 }
{
    let root = RecordedRoot::<C, S>::new(alloc, ledgers, &Options::default());
    let root = root.expect(&rt, "no refusal");
    let (mut shares, mut receipts) = (Vec::new(alloc), Vec::new(alloc));
    work_in_rounds(rt, alloc, &root, rounds, &mut shares, &mut receipts);
    let journal = close_tree(&rt, root, shares);
    assert_receipts(&rt, alloc, &journal, &receipts, entries);
    assert_replay(&rt, alloc, &journal, &receipts, replay);
}

/// Makes a call, keeps its receipt, and returns the reply.
pub(crate) fn make_call<C: TreeLedger, S: Ledger, R: Wait + Abort>(
    rt: &R,
    alloc: Global,
    item: &mut RecordedItem<C, S>,
    receipts: &mut Vec<Receipt<C>>,
    event: Event,
) -> Reply
    requires { is_frame event ≡ false }
{
    let (reply, receipt) = item.call(rt, alloc, event).expect(rt, "no refusal");
    receipts.push(receipt).expect(rt, "memory");
    reply
}

/// Adds a task below the root, and returns its handle.
pub(crate) fn add_task<C: TreeLedger, S: Ledger, R: Wait + Abort>(
    rt: &R,
    alloc: Global,
    item: &mut RecordedItem<C, S>,
    receipts: &mut Vec<Receipt<C>>,
    name: &str,
) -> Handle {
    let name = Text::from_str(alloc, name).expect(rt, "memory");
    let (parent, id) = (0, UNKNOWN);
    let event = Event::AddChild { parent, name, id };
    match make_call(rt, alloc, item, receipts, event) {
        Reply::Made(handle) => handle,
        _ => panic!(rt; "no handle"),
    }
}

/// Adds the first task of a tree, by its first call.
fn add_first<C: TreeLedger, S: Ledger, R: Wait + Abort>(
    rt: &R,
    alloc: Global,
    item: &mut RecordedItem<C, S>,
    receipts: &mut Vec<Receipt<C>>,
) {
    assert_same(rt, add_task(rt, alloc, item, receipts, "task"), 1, "handle");
    let first = receipts.as_slice().last().expect(rt, "a receipt");
    assert_same(rt, first.number(), 0, "the first number");
}

/// Adds 3 to the step of the first task, that many times.
fn call_steps<C: TreeLedger, S: Ledger, R: Wait + Abort>(
    rt: &R,
    alloc: Global,
    item: &mut RecordedItem<C, S>,
    receipts: &mut Vec<Receipt<C>>,
    each: u32,
) {
    for _ in 0..each {
        make_call(rt, alloc, item, receipts, Event::IncBy { item: 1, step: 3 });
    }
}

/// Makes a call of each kind but the drop on a task of its own.
fn call_each_kind<C: TreeLedger, S: Ledger, R: Wait + Abort>(
    rt: &R,
    alloc: Global,
    item: &mut RecordedItem<C, S>,
    receipts: &mut Vec<Receipt<C>>,
    task: Handle,
) {
    for kind in 0..KINDS - 1 {
        let event = event_of_kind(alloc, kind, task, 2).expect(rt, "memory");
        assert!(rt; !event.is_frame(), "a frame");
        make_call(rt, alloc, item, receipts, event);
    }
}

/// Makes a call of each kind on this many tasks of its own. Every second task is dropped.
fn call_mixed<C: TreeLedger, S: Ledger, R: Wait + Abort>(
    rt: &R,
    alloc: Global,
    item: &mut RecordedItem<C, S>,
    receipts: &mut Vec<Receipt<C>>,
    tasks: u32,
) {
    for number in 0..tasks {
        let task = add_task(rt, alloc, item, receipts, "task");
        call_each_kind(rt, alloc, item, receipts, task);
        if number % 2 == 0 {
            make_call(rt, alloc, item, receipts, Event::Drop { item: task });
        }
    }
}

/// Asserts that a call at a handle that another item made and dropped is refused.
fn assert_gone<C: TreeLedger, S: Ledger, R: Wait + Abort>(
    rt: &R,
    alloc: Global,
    item: &mut RecordedItem<C, S>,
) {
    let refusal = item
        .call(rt, alloc, Event::IncBy { item: 1, step: 3 })
        .err();
    assert_same(rt, refusal, Some(Refusal::Gone), "a dropped item");
}

/// Does a worker's work.
fn do_work<C: TreeLedger, S: Ledger, R: Wait + Abort>(
    rt: &R,
    alloc: Global,
    item: &mut RecordedItem<C, S>,
    receipts: &mut Vec<Receipt<C>>,
    work: Work,
) {
    match work {
        Work::AddFirst => add_first(rt, alloc, item, receipts),
        Work::Steps(each) => call_steps(rt, alloc, item, receipts, each),
        Work::Mixed(times) => call_mixed(rt, alloc, item, receipts, times),
        Work::Snapshot => drop(make_call(rt, alloc, item, receipts, Event::Snapshot)),
        Work::DropFirst => drop(make_call(rt, alloc, item, receipts, Event::Drop { item: 1 })),
        Work::CallDropped => assert_gone(rt, alloc, item),
        Work::Children => call_children(rt, alloc, item, receipts),
        Work::OneItem => call_in_order(rt, alloc, item, receipts),
    }
}

/// A worker's share and its receipts.
type WorkerResult<C, S> = (Share<C, S>, Vec<Receipt<C>>);

/// The threads of workers, each of which returns a result.
type RunningWorkers<C, S> = Vec<JoinHandle<WorkerResult<C, S>>>;

/// A worker in a thread of its own.
fn run_worker<C: TreeLedger, S: Ledger, R: Wait + Abort>(
    rt: &R,
    alloc: Global,
    mut item: RecordedItem<C, S>,
    work: Work,
) -> WorkerResult<C, S> {
    let mut receipts = Vec::new(alloc);
    do_work(rt, alloc, &mut item, &mut receipts, work);
    (item.give_back(), receipts)
}

/// Begins the workers of a round.
fn start_round<
    C: TreeLedger + Send + Sync + 'static,
    S: Ledger + Send + Sync + 'static,
    R: Threads + Wait + Abort + Copy + Send + Sync + 'static,
>(rt: R, alloc: Global, root: &RecordedRoot<C, S>, round: &Round) -> RunningWorkers<C, S> {
    let mut running = Vec::new(alloc);
    let work = round.work;
    for _ in 0..round.workers {
        let item = root.share(&rt).expect(&rt, "no refusal");
        let worker = thread::spawn(&rt, move || run_worker(&rt, alloc, item, work));
        running
            .push(worker.expect(&rt, "a thread"))
            .expect(&rt, "memory");
    }
    running
}

/// Takes a worker's share and its receipts, and asserts that these are in order, and that the share
/// has the calls and the sum of the round.
fn collect_result<C: TreeLedger, S: Ledger>(
    rt: &impl Abort,
    round: &Round,
    worked: WorkerResult<C, S>,
    shares: &mut Vec<Share<C, S>>,
    receipts: &mut Vec<Receipt<C>>,
) {
    let (share, mut given) = worked;
    assert_same(rt, share.calls(), round.calls, "calls");
    assert_same(rt, share.sum(), round.sum, "sum");
    assert_rising(rt, &given);
    shares.push(share).expect(rt, "memory");
    receipts.append(&mut given).expect(rt, "memory");
}

/// Waits for the workers of a round, and collects their results.
fn join_round<C: TreeLedger, S: Ledger, R: Threads + Wait + Abort>(
    rt: &R,
    round: &Round,
    running: RunningWorkers<C, S>,
    shares: &mut Vec<Share<C, S>>,
    receipts: &mut Vec<Receipt<C>>,
) {
    for worker in running {
        collect_result(rt, round, worker.join(rt), shares, receipts);
    }
}

/// Has workers make the calls of each round, and collects their results.
fn work_in_rounds<
    C: TreeLedger + Send + Sync + 'static,
    S: Ledger + Send + Sync + 'static,
    R: Threads + Wait + Abort + Copy + Send + Sync + 'static,
>(
    rt: R,
    alloc: Global,
    root: &RecordedRoot<C, S>,
    rounds: &[Round],
    shares: &mut Vec<Share<C, S>>,
    receipts: &mut Vec<Receipt<C>>,
) {
    for round in rounds {
        let running = start_round(rt, alloc, root, round);
        join_round(&rt, round, running, shares, receipts);
    }
}

/// Asserts that a tree can't be closed with these shares, and that they are handed back.
fn assert_unclosed<C: TreeLedger, S: Ledger>(
    rt: &(impl Wait + Abort),
    root: RecordedRoot<C, S>,
    shares: Vec<Share<C, S>>,
) -> Unclosed<C, S> {
    let given = shares.len();
    let unclosed = root.close(rt, shares).err().expect(rt, "a refusal");
    assert_same(rt, unclosed.shares.len(), given, "shares");
    unclosed
}

/// Closes a tree with all its shares, after it was refused without the last, if there is one.
fn close_tree<C: TreeLedger, S: Ledger>(
    rt: &(impl Wait + Abort),
    root: RecordedRoot<C, S>,
    shares: Vec<Share<C, S>>,
) -> Journal<C> {
    let mut shares = shares;
    match shares.pop() {
        Some(last) => {
            let unclosed = assert_unclosed(rt, root, shares);
            let mut shares = unclosed.shares;
            shares.push(last).expect(rt, "memory");
            close_whole(rt, unclosed.root, shares)
        }
        None => close_whole(rt, root, shares),
    }
}

/// Closes a tree with all its shares.
fn close_whole<C: TreeLedger, S: Ledger>(
    rt: &(impl Wait + Abort),
    root: RecordedRoot<C, S>,
    shares: Vec<Share<C, S>>,
) -> Journal<C> {
    let closed = root.close(rt, shares).ok();
    closed.expect(rt, "a journal")
}

/// Asserts that a tree replies to an event of no frame as an entry says.
fn assert_replayed(
    rt: &impl Abort,
    alloc: Global,
    tree: &mut TreeState,
    event: &Event,
    want: &Reply,
) {
    assert!(rt; !event.is_frame(), "a frame");
    let got = tree.apply(alloc, event).expect(rt, "no refusal");
    assert!(rt; got == *want, "another reply");
}

/// A new tree that gets the events of a journal has its replies.
fn replay_journal<C: TreeLedger>(
    rt: &impl Abort,
    alloc: Global,
    journal: &Journal<C>,
) -> TreeState {
    let mut tree = TreeState::new(alloc, &RootOptions::default()).expect(rt, "no refusal");
    for (event, reply) in journal.entries() {
        assert_replayed(rt, alloc, &mut tree, event, reply);
    }
    tree
}

/// Asserts that the first task of a tree has this step.
fn assert_step(rt: &impl Abort, alloc: Global, tree: &mut TreeState, want: u64) {
    let step = tree
        .apply(alloc, &Event::Step { item: 1 })
        .expect(rt, "no refusal");
    assert_reply(rt, &step, &Reply::Step(want), "counter");
}

/// Asserts that there are that many rows, those of the snapshot that the last receipt has.
fn assert_rows<C: TreeLedger>(rt: &impl Abort, rows: Rows, want: usize, receipts: &[Receipt<C>]) {
    assert_same(rt, rows.as_slice().len(), want, "rows");
    let last = receipts.last().expect(rt, "a receipt");
    assert_reply(rt, last.reply(), &Reply::Rows(rows), "rows of the replay");
}

/// Asserts that the replay of a journal has its replies, and what it ends with.
fn assert_replay<C: TreeLedger>(
    rt: &impl Abort,
    alloc: Global,
    journal: &Journal<C>,
    receipts: &[Receipt<C>],
    replay: Replay,
) {
    let mut tree = replay_journal(rt, alloc, journal);
    match replay {
        Replay::Replies => {}
        Replay::Step(want) => assert_step(rt, alloc, &mut tree, want),
        Replay::Rows(want) => {
            let rows = tree.rows(alloc).expect(rt, "no refusal");
            assert_rows(rt, rows, want, receipts);
        }
        Replay::Children => {
            let rows = tree.rows(alloc).expect(rt, "no refusal");
            assert_last_row(rt, &rows);
        }
    }
    drop(tree);
}
