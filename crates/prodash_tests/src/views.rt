//! Views of recorded trees: what they show after each call, what an engine draws over them, and
//! what they show once the tree is closed.
ghost use Rattle.std.specs.Prelude.{◌≡◌, false};
ghost use Rattle.prodash_core.specs.Trees.{is_frame};

use crate::fixtures::{TERMINAL, assert_same};
use crate::recorded::{add_task, make_call};
use prodash::messages::{MessageCopyState, MessageLevel, Messages};
use prodash::progress::Rows;
use prodash::render::line::draw::{Answer, MemoryScreen};
use prodash::render::line::engine::{Engine, EngineEvent};
use prodash::tree::recorded::{
    AuditedRoot, Journal, Ledgers, Receipt, RecordedItem, RecordedRoot, RecordedView, TreeLedger,
};
use prodash::tree::root::Options;
use prodash::tree::{Event, Reply, RootOptions, SessionOptions, run};
use prodash::{Root, Text, WeakRoot};
use std::alloc::Global;
use std::marker::Brand;
use std::process::Abort;
use std::sync::Wait;
use std::sync::ledger::Ledger;

/// `task` at 3 of 10 and its message, on 40 columns.
const FRAME: &str = " task three\n task 3/10 [=======>-------------------]\n\x1b[1A";

#[test]
fn a_view_shows_each_call(rt: HostRuntime) {
    view_new_tree(rt, rt.alloc());
}

/// Looks at a new tree, whose ledgers have types of their own.
fn view_new_tree<R: Wait + Abort + Copy>(rt: R, alloc: Global) {
    view_tree::<Brand, Brand, R>(rt, alloc, Ledgers::new());
}

fn view_tree<C: TreeLedger, S: Ledger, R: Wait + Abort + Copy>(
    rt: R,
    alloc: Global,
    ledgers: Ledgers,
)
    requires calls { (ledgers.calls.name ≡ C.name) × (ledgers.calls.parts ≡ C.parts) }
    requires sums { (ledgers.sums.name ≡ S.name) × (ledgers.sums.parts ≡ S.parts) }
    requires history { ledgers.history.seen.book ≡ C.history }
    requires capacity { C.message_buffer_capacity ≡ 20 }
{
    let root = RecordedRoot::<C, S>::new(alloc, ledgers, &Options::default());
    let root = root.expect(&rt, "no refusal");
    let view = root.view(&rt, alloc).expect(&rt, "no refusal");
    let weak = view.downgrade().expect(&rt, "no refusal");
    let mut item = root.share(&rt).expect(&rt, "no refusal");
    let mut receipts = Vec::new(alloc);
    assert_counts(&rt, &view, 0);
    add_task(&rt, alloc, &mut item, &mut receipts, "task");
    assert_look(&rt, alloc, &view, None, (1, 0, 0), 1);
    begin_task(&rt, alloc, &mut item, &mut receipts);
    assert_look(&rt, alloc, &view, None, (1, 1, 1), 4);
    assert_look(
        &rt,
        alloc,
        &view,
        Some(MessageCopyState::new(1)),
        (1, 0, 1),
        4,
    );
    assert_counts(&rt, &view, 1);
    assert_lists(&rt, alloc, &view);
    assert_frames(&rt, alloc, &view);
    let mut shares = Vec::new(alloc);
    shares.push(item.give_back()).expect(&rt, "memory");
    let journal = root.close(&rt, shares).ok().expect(&rt, "a journal");
    assert_same(&rt, journal.entries().len(), 4, "a look is no entry");
    assert_session(&rt, alloc, &journal);
    assert_closed(&rt, alloc, &view, &journal);
    let is_found = weak.upgrade().expect(&rt, "no refusal").is_some();
    assert_same(&rt, is_found, true, "a view is left");
    drop(view);
    let is_found = weak.upgrade().expect(&rt, "no refusal").is_some();
    assert_same(&rt, is_found, false, "no view is left");
}

/// Begins the first task, sets its step and sends a message, by three calls.
fn begin_task<C: TreeLedger, S: Ledger, R: Wait + Abort>(
    rt: &R,
    alloc: Global,
    item: &mut RecordedItem<C, S>,
    receipts: &mut Vec<Receipt<C>>,
) {
    let (max, unit) = (Some(10), None);
    make_call(
        rt,
        alloc,
        item,
        receipts,
        Event::Init { item: 1, max, unit },
    );
    make_call(rt, alloc, item, receipts, Event::Set { item: 1, step: 3 });
    let (level, text) = (MessageLevel::Info, Text::from_str(alloc, "three"));
    let text = text.expect(rt, "memory");
    make_call(
        rt,
        alloc,
        item,
        receipts,
        Event::Message {
            item: 1,
            at: 0,
            level,
            text,
        },
    );
}

/// Asserts how many rows and messages a look shows, how many messages were sent, and how many calls
/// its receipt has.
fn assert_look<R: Wait + Abort + Copy, C: TreeLedger, S: Ledger>(
    rt: &R,
    alloc: Global,
    view: &RecordedView<R, C, S>,
    previous: Option<MessageCopyState>,
    shown: (usize, usize, u64),
    calls: u64,
) {
    let spare = (Rows::new(Vec::new(alloc)), Messages::new(Vec::new(alloc)));
    let look = view.look_with_receipt(spare, previous);
    let ((rows, messages, sent), receipt) = look.expect(rt, "no refusal");
    let found = (
        rows.as_slice().len(),
        messages.as_slice().len(),
        sent.pushed(),
    );
    assert_same(rt, found == shown, true, "what a look shows");
    assert_same(rt, receipt.calls(), calls, "calls");
}

/// Asserts how many tasks a view shows, and how many messages its tree keeps.
fn assert_counts<R: Wait + Abort + Copy, C: TreeLedger, S: Ledger>(
    rt: &R,
    view: &RecordedView<R, C, S>,
    tasks: usize,
) {
    assert_same(rt, view.num_tasks(), tasks, "tasks");
    assert_same(rt, view.messages_capacity(), 20, "capacity");
}

/// Asserts that the lists of a view have one row and one message.
fn assert_lists<R: Wait + Abort + Copy, C: TreeLedger, S: Ledger>(
    rt: &R,
    alloc: Global,
    view: &RecordedView<R, C, S>,
) {
    let (mut rows, mut messages) = (Vec::new(alloc), Vec::new(alloc));
    view.sorted_snapshot(&mut rows).expect(rt, "no refusal");
    view.copy_messages(&mut messages).expect(rt, "no refusal");
    assert_same(rt, (rows.len(), messages.len()) == (1, 1), true, "lists");
    let sent = view.copy_new_messages(&mut messages, None);
    assert_same(rt, sent.expect(rt, "no refusal").pushed(), 1, "sent");
    let seen = view.snapshot_and_new_messages(&mut rows, &mut messages, None);
    assert_same(rt, seen.expect(rt, "no refusal").pushed(), 1, "seen");
}

/// Asserts that the first frame of an engine over a view is `FRAME`, and how many calls the receipt
/// of its tick has.
fn assert_frames<R: Wait + Abort + Copy, C: TreeLedger, S: Ledger>(
    rt: &R,
    alloc: Global,
    view: &RecordedView<R, C, S>,
) {
    let weak = view.downgrade().expect(rt, "no refusal");
    let frame = frame_of(rt, alloc, weak);
    assert_same(
        rt,
        frame.as_slice() == FRAME.as_bytes(),
        true,
        "the frame of a step",
    );
    let weak = view.downgrade().expect(rt, "no refusal");
    let receipt = assert_tick(rt, alloc, weak, &frame);
    assert_same(rt, receipt.calls(), 4, "calls of a tick");
}

/// Returns the bytes of the first frame of an engine, which a step draws.
fn frame_of<W: WeakRoot + Drop>(rt: &impl Abort, alloc: Global, weak: W) -> Vec<u8>
where
    W::Root: Root + Drop,
{
    let screen = MemoryScreen::new(alloc, 4096).expect(rt, "memory");
    let mut engine = Engine::new(alloc, screen, weak, TERMINAL, false).expect(rt, "memory");
    let drawn = engine.step(EngineEvent::Tick { at: 0, show: true });
    assert_same(rt, drawn, Ok(Answer::Drawn), "a step");
    let mut bytes = Vec::new(alloc);
    let taken = engine.screen().bytes();
    bytes.extend_from_slice(taken).expect(rt, "memory");
    drop(engine);
    bytes
}

/// Asserts that the first tick of an engine draws this frame, and returns the receipt of its look.
fn assert_tick<W: WeakRoot + AuditedRoot<Receipt: Drop> + Drop>(
    rt: &impl Abort,
    alloc: Global,
    weak: W,
    frame: &[u8],
) -> W::Receipt
where
    W::Root: Root + Drop,
{
    let screen = MemoryScreen::new(alloc, 4096).expect(rt, "memory");
    let mut engine = Engine::new(alloc, screen, weak, TERMINAL, false).expect(rt, "memory");
    let (answer, receipt) = engine.tick(0, true).expect(rt, "a frame");
    assert_same(rt, answer, Answer::Drawn, "a tick");
    let is_same = engine.screen().bytes() == frame;
    assert_same(rt, is_same, true, "the frame of a tick");
    drop(engine);
    receipt.expect(rt, "a receipt")
}

/// Asserts that a session which applies the events of a journal draws `FRAME`.
fn assert_session<C: TreeLedger>(rt: &impl Abort, alloc: Global, journal: &Journal<C>) {
    let mut events = Vec::new(alloc);
    for (event, _) in journal.entries() {
        let event = event.clone().expect(rt, "memory");
        events.push(event).expect(rt, "memory");
    }
    let tick = Event::Tick { at: 0, show: true };
    events.push(tick).expect(rt, "memory");
    let mut screen = MemoryScreen::new(alloc, 4096).expect(rt, "memory");
    let options = SessionOptions {
        root: RootOptions::default(),
        draw: TERMINAL,
        throughput: false,
    };
    let replies = run(alloc, &options, &events, &mut screen);
    assert_same(rt, replies.is_ok(), true, "a run");
    let is_same = screen.bytes() == FRAME.as_bytes();
    assert_same(rt, is_same, true, "the frame of a session");
}

/// Asserts that a view shows the tree that was closed, and that its look saw the whole journal.
fn assert_closed<R: Wait + Abort + Copy, C: TreeLedger, S: Ledger>(
    rt: &R,
    alloc: Global,
    view: &RecordedView<R, C, S>,
    journal: &Journal<C>,
) {
    assert_look(rt, alloc, view, None, (1, 1, 1), 4);
    assert_counts(rt, view, 1);
    let spare = (Rows::new(Vec::new(alloc)), Messages::new(Vec::new(alloc)));
    let (_, receipt) = view.look_with_receipt(spare, None).expect(rt, "no refusal");
    assert_same(
        rt,
        journal.begins_with(&receipt),
        true,
        "the front of the journal",
    );
}
