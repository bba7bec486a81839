//! What references and boxes of progress deliver, and roots and weak handles behind their traits.
use crate::fixtures::{assert_name, assert_same, root_with_task};
use prodash::messages::MessageLevel;
use prodash::progress::{AtomicStep, Id, Step, StepShared};
use prodash::time::Moment;
use prodash::unit::{Unit, label};
use prodash::{BoxedProgress, Count, NestedProgress, Progress, Refusal, Root, WeakRoot, tree};
use std::alloc::Global;
use std::process::Abort;
use std::sync::atomic::Ordering;
use std::sync::{Arc, Wait};

/// The moment at which work begins that is done at `NOW`.
pub(crate) const START: Moment = 1_000_000_000;

/// The moment at which messages are sent.
pub(crate) const NOW: Moment = 3_500_000_000;

/// Makes each call of a counter that changes it. What it is set to first is gone then.
fn count_each<C: Count>(progress: &C) {
    progress.set(3);
    progress.set(7);
    progress.inc_by(2);
    progress.inc();
}

/// Makes each call that sends.
fn send_each<P: Progress>(rt: &impl Abort, alloc: Global, progress: &P) {
    progress
        .message(alloc, NOW, MessageLevel::Failure, "sent")
        .expect(rt, "no refusal");
    progress.info(alloc, NOW, "sent").expect(rt, "no refusal");
    progress.done(alloc, NOW, "sent").expect(rt, "no refusal");
    progress.fail(alloc, NOW, "sent").expect(rt, "no refusal");
    progress
        .show_throughput(alloc, START, NOW)
        .expect(rt, "no refusal");
    let unit = Some(label("items"));
    progress
        .show_throughput_with(alloc, START, NOW, 5, unit, MessageLevel::Success)
        .expect(rt, "no refusal");
}

/// Makes each call that changes a progress or sends.
pub(crate) fn call_each<P: Progress>(rt: &impl Abort, alloc: Global, progress: &mut P) {
    progress.init(Some(10), Some(label("items")));
    progress.set_max(Some(20));
    progress.set_name(alloc, "other").expect(rt, "no refusal");
    count_each(progress);
    send_each(rt, alloc, progress);
}

/// A message in short: its moment, level and text.
pub(crate) type Sent = (Moment, MessageLevel, &'static str);

/// Asserts that the tree has these messages.
pub(crate) fn assert_sent<R: Wait + Clone + Drop>(
    rt: &impl Abort,
    alloc: Global,
    root: &tree::Root<R>,
    want: &[Sent],
) {
    let mut messages = Vec::new(alloc);
    root.copy_messages(alloc, &mut messages)
        .expect(rt, "no refusal");
    assert_same(rt, messages.len(), want.len(), "messages");
    for (message, (time, level, text)) in messages.iter().zip(want.iter()) {
        assert_same(rt, message.message.as_str(), *text, "text");
        assert_same(rt, message.time, *time, *text);
        assert_same(rt, message.level, *level, *text);
    }
}

/// Asserts that a progress is at a step, and so is its counter.
pub(crate) fn assert_step<C: Count>(rt: &impl Abort, alloc: Global, progress: &C, want: Step) {
    let counter = progress.counter(alloc).expect(rt, "no refusal");
    assert_same(rt, progress.step(), want, "step");
    assert_same(rt, counter.load(Ordering::SeqCst), want, "counter");
}

/// What `call_each` sends.
pub(crate) const EACH: &[Sent] = &[
    (NOW, MessageLevel::Failure, "sent"),
    (NOW, MessageLevel::Info, "sent"),
    (NOW, MessageLevel::Success, "sent"),
    (NOW, MessageLevel::Failure, "sent"),
    (
        NOW,
        MessageLevel::Info,
        "done 10 items in 2.50s (4 items/s)",
    ),
    (
        NOW,
        MessageLevel::Success,
        "done 5 items in 2.50s (2 items/s)",
    ),
];

/// Asserts that each call that changes an item reaches it once. What they send is `EACH`.
pub(crate) fn assert_reaches_item<P: Progress>(rt: &impl Abort, alloc: Global, progress: &mut P) {
    call_each(rt, alloc, progress);
    assert_step(rt, alloc, progress, 10);
    assert_name(rt, alloc, progress, Some("other"));
}

#[test]
fn references_reach_the_item(rt: HostRuntime) {
    let (root, mut item) = root_with_task(rt, rt.alloc());
    assert_reaches_item(&rt, rt.alloc(), &mut &mut item);
    assert_sent(&rt, rt.alloc(), &root, EACH);
}

/// Progress whose step says which calls were made: each kind has a decimal place of its own. A call
/// counts if its arguments are those of the tests. `show_throughput` has the default body, which
/// sends with the severity `Info`.
#[derive(Drop)]
pub(crate) struct Tally {
    calls: StepShared,
}

impl Tally {
    pub(crate) fn new(rt: &impl Abort, alloc: Global) -> Tally {
        Tally {
            calls: Arc::new(alloc, AtomicStep::new(0)).expect(rt, "memory"),
        }
    }

    /// Counts a call, if its arguments are those of the tests.
    fn count(&self, place: u64, counts: bool) {
        if counts {
            self.calls.fetch_add(place, Ordering::SeqCst);
        }
    }
}

impl Count for Tally {
    fn set(&self, step: Step) {
        self.count(1, step == 7);
    }

    fn step(&self) -> Step {
        self.calls.load(Ordering::SeqCst)
    }

    fn inc_by(&self, step: Step) {
        self.count(10, step == 2);
    }

    fn inc(&self) {
        self.count(100, true);
    }

    fn counter(&self, _alloc: Global) -> Result<StepShared, Refusal> {
        Ok(Arc::try_clone(&self.calls)?)
    }
}

impl Progress for Tally {
    fn init(&mut self, max: Option<Step>, unit: Option<Unit>) {
        self.count(1000, max == Some(10) && unit == Some(label("items")));
    }

    fn unit(&self) -> Option<Unit> {
        Some(label("items"))
    }

    fn max(&self) -> Option<Step> {
        Some(10)
    }

    fn set_max(&mut self, max: Option<Step>) -> Option<Step> {
        self.count(10_000, max == Some(20));
        Some(10)
    }

    fn set_name(&mut self, _alloc: Global, name: &str) -> Result<(), Refusal> {
        self.count(100_000, name == "other");
        Ok(())
    }

    fn name(&self, alloc: Global) -> Result<Option<String>, Refusal> {
        Ok(Some(String::from_str(alloc, "tally")?))
    }

    fn id(&self) -> Id {
        *b"TALL"
    }

    fn message(
        &self,
        _alloc: Global,
        at: Moment,
        level: MessageLevel,
        message: &str,
    ) -> Result<(), Refusal> {
        let is_failure = level == MessageLevel::Failure;
        self.count(1_000_000, at == NOW && is_failure && message == "sent");
        Ok(())
    }

    fn info(&self, _alloc: Global, at: Moment, message: &str) -> Result<(), Refusal> {
        self.count(10_000_000, at == NOW && message == "sent");
        Ok(())
    }

    fn done(&self, _alloc: Global, at: Moment, message: &str) -> Result<(), Refusal> {
        self.count(100_000_000, at == NOW && message == "sent");
        Ok(())
    }

    fn fail(&self, _alloc: Global, at: Moment, message: &str) -> Result<(), Refusal> {
        self.count(1_000_000_000, at == NOW && message == "sent");
        Ok(())
    }

    fn show_throughput_with(
        &self,
        _alloc: Global,
        start: Moment,
        now: Moment,
        step: Step,
        unit: Option<Unit>,
        level: MessageLevel,
    ) -> Result<(), Refusal> {
        let is_right = start == START && now == NOW && unit == Some(label("items"));
        match level {
            MessageLevel::Info => self.count(10_000_000_000, is_right),
            MessageLevel::Success => self.count(100_000_000_000, is_right && step == 5),
            MessageLevel::Failure => {}
        }
        Ok(())
    }
}

/// What a `Tally` is at after one call of each kind of a counter.
const COUNTED: Step = 111;

/// What a `Tally` is at after one call of each kind.
pub(crate) const ALL_CALLED: Step = 111_111_111_111;

/// Asserts that each call reaches the `Tally` inside once, with its arguments.
fn assert_hands_all_on<P: Progress>(rt: &impl Abort, alloc: Global, progress: &mut P) {
    call_each(rt, alloc, progress);
    assert_step(rt, alloc, progress, ALL_CALLED);
    assert_name(rt, alloc, progress, Some("tally"));
    assert_same(rt, progress.unit(), Some(label("items")), "unit");
    assert_same(rt, progress.max(), Some(10), "bound");
    assert_same(rt, progress.id(), *b"TALL", "identifier");
}

#[test]
fn references_hand_all_on(rt: HostRuntime) {
    let alloc: Global = rt.alloc();
    let tally = Tally::new(&rt, alloc);
    count_each(&&tally);
    assert_step(&rt, alloc, &&tally, COUNTED);
    let mut tally = Tally::new(&rt, alloc);
    assert_hands_all_on(&rt, alloc, &mut &mut tally);
}

#[test]
fn boxes_hand_all_on(rt: HostRuntime) {
    let alloc: Global = rt.alloc();
    let tally = Tally::new(&rt, alloc);
    let mut boxed: BoxedProgress = Box::new(alloc, tally).expect(&rt, "memory");
    assert_hands_all_on(&rt, alloc, &mut boxed);
}

/// Adds a part without an identifier, which is dropped, and then one with an identifier.
fn add_parts<P: NestedProgress>(rt: &impl Abort, alloc: Global, progress: &mut P) -> P::SubProgress
where
    P::SubProgress: Drop,
{
    progress.add_child(alloc, "part").expect(rt, "no refusal");
    let part = progress.add_child_with_id(alloc, "part", *b"PART");
    part.expect(rt, "no refusal")
}

/// Asserts that each call on the tree behind a weak handle gives two tasks and one message.
fn assert_has_part<W: WeakRoot>(rt: &impl Abort, alloc: Global, weak: &W)
where
    W::Root: Root + Drop,
{
    let found = weak.upgrade().expect(rt, "no refusal");
    let root = found.expect(rt, "an owner");
    assert_same(rt, root.num_tasks(), 2, "tasks");
    assert_same(rt, root.messages_capacity(), 20, "capacity");
    let (mut rows, mut messages) = (Vec::new(alloc), Vec::new(alloc));
    let state = root
        .snapshot_and_new_messages(alloc, &mut rows, &mut messages, None)
        .expect(rt, "no refusal");
    assert_same(rt, rows.len(), 2, "rows of a look");
    assert_same(rt, messages.len(), 1, "messages of a look");
    root.sorted_snapshot(alloc, &mut rows)
        .expect(rt, "no refusal");
    root.copy_messages(alloc, &mut messages)
        .expect(rt, "no refusal");
    assert_same(rt, rows.len(), 2, "rows");
    assert_same(rt, messages.len(), 1, "messages");
    root.copy_new_messages(alloc, &mut messages, Some(state))
        .expect(rt, "no refusal");
    assert_same(rt, messages.len(), 0, "new messages");
}

#[test]
fn trees_behind_their_traits(rt: HostRuntime) {
    let alloc: Global = rt.alloc();
    let (root, mut item) = root_with_task(rt, alloc);
    let mut part = add_parts(&rt, alloc, &mut &mut item);
    part.info(alloc, 5, "three").expect(&rt, "no refusal");
    let weak = Root::downgrade(&root).expect(&rt, "no refusal");
    assert_has_part(&rt, alloc, &weak);
}
