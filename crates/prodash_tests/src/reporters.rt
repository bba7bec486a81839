//! What reporters hand to the progress inside, and the moments at which they send.
use crate::fixtures::{assert_same, root_with_task};
use crate::traits::{ALL_CALLED, NOW, START, Sent, Tally, assert_sent};
use crate::wrappers::Stopped;
use prodash::messages::MessageLevel;
use prodash::progress::Reporter;
use prodash::unit::label;
use prodash::{NestedProgress, Progress};
use std::process::Abort;
use std::sync::atomic::Ordering;

/// A reporter of progress that says which calls it got.
type Tallied = Reporter<Tally, Stopped>;

/// Makes each call that changes the progress.
fn change_each(rt: &impl Abort, reporter: &mut Tallied) {
    reporter.init(Some(10), Some(label("items")));
    reporter.set_max(Some(20));
    reporter.set_name("other").expect(rt, "no refusal");
    reporter.set(7);
    reporter.inc_by(2);
    reporter.inc();
}

/// Makes each call that sends.
fn send_each(rt: &impl Abort, reporter: &Tallied) {
    reporter
        .message(MessageLevel::Failure, "sent")
        .expect(rt, "no refusal");
    reporter.info("sent").expect(rt, "no refusal");
    reporter.done("sent").expect(rt, "no refusal");
    reporter.fail("sent").expect(rt, "no refusal");
    reporter.show_throughput(START).expect(rt, "no refusal");
    let unit = Some(label("items"));
    reporter
        .show_throughput_with(START, 5, unit, MessageLevel::Success)
        .expect(rt, "no refusal");
}

/// Asserts that the progress has got each call once, and that its name and counter are given.
fn assert_all_called(rt: &impl Abort, reporter: &Tallied) {
    let counter = reporter.counter().expect(rt, "no refusal");
    assert_same(rt, reporter.step(), ALL_CALLED, "step");
    assert_same(rt, counter.load(Ordering::SeqCst), ALL_CALLED, "counter");
    let name = reporter.name().expect(rt, "no refusal");
    assert_same(rt, name.as_deref(), Some("tally"), "name");
}

/// Each call that changes or sends reaches the progress once, at the moment of the clock.
#[test]
fn reporters_hand_all_on(rt: HostRuntime) {
    let alloc = rt.alloc();
    let clock = Stopped::at(&rt, alloc, NOW);
    let mut reporter = Reporter::new(alloc, Tally::new(&rt, alloc), clock);
    assert_same(&rt, reporter.now(), NOW, "moment");
    change_each(&rt, &mut reporter);
    send_each(&rt, &reporter);
    assert_all_called(&rt, &reporter);
    assert_same(&rt, reporter.into_progress().id(), *b"TALL", "progress");
}

/// What an item sends by the default bodies, and then an item below one below it.
const SENT: &[Sent] = &[
    (1, MessageLevel::Info, "one"),
    (2, MessageLevel::Success, "two"),
    (3, MessageLevel::Failure, "three"),
    (
        2_500_000_000,
        MessageLevel::Info,
        "done 10 steps in 2.50s (4 steps/s)",
    ),
    (
        2_500_000_000,
        MessageLevel::Failure,
        "done 5 parts in 2.50s (2 parts/s)",
    ),
    (2_500_000_005, MessageLevel::Info, "five"),
];

/// Sends what the default bodies send, each message one nanosecond after the one before.
fn send_defaults<P: Progress>(rt: &impl Abort, reporter: &mut Reporter<P, Stopped>) {
    reporter.init(None, Some(label("steps")));
    reporter.sleep(1);
    reporter.info("one").expect(rt, "no refusal");
    reporter.sleep(1);
    reporter.done("two").expect(rt, "no refusal");
    reporter.sleep(1);
    reporter.fail("three").expect(rt, "no refusal");
    reporter.set(10);
    reporter.sleep(2_499_999_997);
    reporter.show_throughput(0).expect(rt, "no refusal");
    let unit = Some(label("parts"));
    reporter
        .show_throughput_with(0, 5, unit, MessageLevel::Failure)
        .expect(rt, "no refusal");
}

/// Sends a message from a part of a part, five nanoseconds later.
fn send_below<P: NestedProgress>(rt: &impl Abort, reporter: &mut Reporter<P, Stopped>)
where
    P::SubProgress: NestedProgress + Drop,
    <P::SubProgress as NestedProgress>::SubProgress: Progress + Drop,
{
    let mut part = reporter.add_child("part").expect(rt, "no refusal");
    let smaller = part.add_child_with_id("smaller", *b"SMAL");
    reporter.sleep(5);
    let smaller = smaller.expect(rt, "no refusal");
    smaller.info("five").expect(rt, "no refusal");
}

/// A child goes by the clock of its parent.
#[test]
fn reporters_send_at_the_moment_of_the_clock(rt: HostRuntime) {
    let alloc = rt.alloc();
    let (root, item) = root_with_task(rt, rt.alloc());
    let mut reporter = Reporter::new(alloc, item, Stopped::at(&rt, alloc, 0));
    send_defaults(&rt, &mut reporter);
    send_below(&rt, &mut reporter);
    assert_sent(&rt, alloc, &root, SENT);
}
