//! Progress that is logged: lines, names, what the logger gets, and when.
use crate::fixtures::{Host, assert_same, share};
use crate::waiting::{Collected, Collector, SoleOwner, SteppedClock, assert_soon};
use prodash::messages::MessageLevel;
use prodash::progress::{AnyProgress, Log, Step};
use prodash::{Count, NestedProgress, Progress, unit};
use std::alloc::Global;
use std::process::Abort;
use std::rt;
use std::sync::atomic::Ordering;
use std::sync::{Arc, Wait};

/// How long the thread of a log sleeps, in nanoseconds.
const TURN: u64 = 500_000_000;

/// Progress that the collector logs.
type Logged<R> = Log<Collector<R>, SteppedClock<R>>;

/// A log, what its logger got, and its clock, on which no sleep ends.
#[derive(Drop)]
struct Bench<R: Host> {
    log: Logged<R>,
    collected: Arc<Collected>,
    clock: Arc<SteppedClock<R>>,
}

fn make_bench<R: Host>(rt: &R, alloc: Global, name: &str, max_level: Option<usize>) -> Bench<R> {
    let collected = Collected::new(rt, alloc, true);
    let logger = Collector::new(rt, alloc, &collected);
    let clock = SteppedClock::new(rt, alloc, TURN);
    let log = Log::new(rt, alloc, name, max_level, logger, share(rt, &clock));
    Bench {
        log: log.expect(rt, "no refusal"),
        collected,
        clock,
    }
}

/// A log named `work` below another.
fn add_work<R: Wait + rt::Clock + Drop>(
    rt: &impl Abort,
    alloc: Global,
    log: &Logged<R>,
) -> Logged<R> {
    log.add_child_with_id(alloc, "work", *b"WORK")
        .expect(rt, "no refusal")
}

/// Asserts that the logger got these lines, and lets the thread end.
fn assert_logged<R: Host>(rt: &R, bench: &Bench<R>, want: &str) {
    let lines = bench.collected.bytes.lock(rt);
    assert_same(rt, lines.as_slice(), want.as_bytes(), want);
    bench.clock.end_all();
}

/// Messages that are sent at once.
const SENT: &[(MessageLevel, &str)] = &[
    (MessageLevel::Failure, "no"),
    (MessageLevel::Info, "so"),
    (MessageLevel::Success, "yes"),
];

#[test]
fn messages_at_levels(rt: HostRuntime) {
    let alloc: Global = rt.alloc();
    let bench = make_bench(&rt, alloc, "main", Some(0));
    let work = add_work(&rt, alloc, &bench.log);
    for (level, text) in SENT {
        work.message(alloc, 0, *level, text)
            .expect(&rt, "no refusal");
    }
    let want = "ERROR 𐄂main::work → no\nINFO ℹmain::work → so\nINFO ✓main::work → yes\n";
    assert_logged(&rt, &bench, want);
    drop(work);
    drop(bench);
}

/// A joined name, its second part, and the line of step 3 of 10 once the name is set to `x`.
const NAMES: &[(&str, Option<&str>, &str)] = &[
    ("main", None, "main::x → 3 / 10"),
    ("main::a", Some("a"), "main::x → 3 / 10"),
    ("main::a::b", Some("a"), "main::x → 3 / 10"),
    ("::a:b", Some("a:b"), "::x → 3 / 10"),
];

fn assert_name<R: Host>(rt: &R, alloc: Global, name: &str, second: Option<&str>, line: &str) {
    let mut log = make_bench(rt, alloc, name, None).log;
    log.set(3);
    log.init(Some(10), None);
    let got = log.name(alloc).expect(rt, "no refusal");
    assert_same(rt, got.as_deref(), second, name);
    log.set_name(alloc, "x").expect(rt, "no refusal");
    let got = log.line(alloc).expect(rt, "no refusal");
    assert_same(rt, got.as_str(), line, name);
    drop(log);
}

/// The first part of a name stays, and so does the step once there is a bound.
#[test]
fn names(rt: HostRuntime) {
    for (name, second, line) in NAMES {
        assert_name(&rt, rt.alloc(), name, *second, line);
    }
}

/// The first step is logged, the second isn't, nor is a child's.
#[test]
fn one_line_for_each_turn(rt: HostRuntime) {
    let alloc: Global = rt.alloc();
    let bench = make_bench(&rt, alloc, "main", None);
    let work = add_work(&rt, alloc, &bench.log);
    bench.log.set(3);
    bench.log.inc_by(2);
    work.inc();
    assert_same(&rt, bench.log.step(), 5, "step");
    assert_same(&rt, work.step(), 1, "step of the child");
    assert_logged(&rt, &bench, "INFO main → 3\n");
    drop(work);
    drop(bench);
}

/// A child begins at step 0, whichever step its parent is at, and logs that.
#[test]
fn children_begin_at_zero(rt: HostRuntime) {
    let alloc: Global = rt.alloc();
    let bench = make_bench(&rt, alloc, "main", Some(0));
    bench.log.set(3);
    let work = add_work(&rt, alloc, &bench.log);
    assert_same(&rt, work.step(), 0, "step of a child");
    work.inc();
    assert_same(&rt, work.step(), 1, "next step of a child");
    assert_same(&rt, bench.log.step(), 3, "step of the parent");
    drop(work);
    assert_logged(&rt, &bench, "INFO main → 3\n");
    drop(bench);
}

/// A message is logged beside the line that is due, and not in place of it.
#[test]
fn messages_leave_a_line_due(rt: HostRuntime) {
    let alloc: Global = rt.alloc();
    let bench = make_bench(&rt, alloc, "main", None);
    bench
        .log
        .message(alloc, 0, MessageLevel::Info, "so")
        .expect(&rt, "no refusal");
    bench.log.set(1);
    assert_logged(&rt, &bench, "INFO ℹmain → so\nINFO main → 1\n");
    drop(bench);
}

/// Deeper than the greatest level no step is logged, and the line of the others stays due.
#[test]
fn levels_that_are_logged(rt: HostRuntime) {
    let alloc: Global = rt.alloc();
    let bench = make_bench(&rt, alloc, "main", Some(1));
    let work = add_work(&rt, alloc, &bench.log);
    let part = add_work(&rt, alloc, &work);
    part.set(1);
    work.set(2);
    assert_logged(&rt, &bench, "INFO main::work → 2\n");
    drop(part);
    drop(work);
    drop(bench);
}

/// Reports progress on a child, by the traits alone.
fn report_steps<P: NestedProgress>(rt: &impl Abort, alloc: Global, progress: &mut P) -> Step
where
    P::SubProgress: Progress + Drop,
{
    let mut work = progress.add_child(alloc, "work").expect(rt, "no refusal");
    work.init(Some(10), None);
    work.inc_by(3);
    work.fail(alloc, 0, "no").expect(rt, "no refusal");
    work.show_throughput(alloc, 0, 2_500_000_000)
        .expect(rt, "no refusal");
    let step = work.step();
    drop(work);
    step
}

#[test]
fn logs_are_progress(rt: HostRuntime) {
    let mut bench = make_bench(&rt, rt.alloc(), "main", None);
    let step = report_steps(&rt, rt.alloc(), &mut bench.log);
    assert_same(&rt, step, 3, "step");
    let want = "INFO main::work → 3 / 10\nERROR 𐄂main::work → no\n\
INFO ℹmain::work → done 3 items in 2.50s (1 items/s)\n";
    assert_logged(&rt, &bench, want);
    drop(bench);
}

/// Progress of any kind, whose logs are collected.
type Any<R> = AnyProgress<R, Collector<R>, SteppedClock<R>>;

/// Makes each call that changes a progress or sends a message.
fn call_each<P: Progress>(rt: &impl Abort, alloc: Global, progress: &mut P) {
    progress.init(Some(10), Some(unit::label("items")));
    progress.set(3);
    progress.set(u64::MAX);
    progress.inc_by(4);
    progress.inc();
    progress.set_name(alloc, "other").expect(rt, "no refusal");
    let failure = MessageLevel::Failure;
    progress
        .message(alloc, 1, failure, "sent")
        .expect(rt, "no refusal");
    let unit = Some(unit::label("parts"));
    let shown = progress.show_throughput_with(alloc, 0, 2_500_000_000, 10, unit, failure);
    shown.expect(rt, "no refusal");
}

/// What the logger gets of two on which each call is made.
const EACH_CALL: &str = "INFO main::work → 3/10 items\n\
ERROR 𐄂main::other → sent\n\
ERROR 𐄂main::other → done 10 parts in 2.50s (4 parts/s)\n\
ERROR 𐄂main::other → sent\n\
ERROR 𐄂main::other → done 10 parts in 2.50s (4 parts/s)\n";

/// Makes each call on a progress, and asserts the step, the name and the unit that it then has.
fn assert_each_call<P: Progress>(rt: &impl Abort, alloc: Global, progress: &mut P) {
    call_each(rt, alloc, progress);
    let counter = progress.counter(alloc).expect(rt, "no refusal");
    assert_same(rt, progress.step(), 4, "step");
    counter.store(8, Ordering::SeqCst);
    assert_same(rt, progress.step(), 8, "step by the counter");
    let name = progress.name(alloc).expect(rt, "no refusal");
    assert_same(rt, name.as_deref(), Some("other"), "name");
    assert_same(rt, progress.unit(), Some(unit::label("items")), "unit");
    assert_same(rt, progress.set_max(Some(20)), Some(10), "bound before");
    assert_same(rt, progress.max(), Some(20), "bound");
    assert_same(rt, progress.id(), *b"WORK", "identifier");
}

#[test]
fn calls_reach_the_log(rt: HostRuntime) {
    let alloc: Global = rt.alloc();
    let bench = make_bench(&rt, alloc, "main", None);
    let mut work = add_work(&rt, alloc, &bench.log);
    assert_each_call(&rt, alloc, &mut work);
    let mut any: Any<HostRuntime> = AnyProgress::Log(add_work(&rt, alloc, &bench.log));
    assert_each_call(&rt, alloc, &mut any);
    assert_logged(&rt, &bench, EACH_CALL);
    drop(any);
    drop(work);
    drop(bench);
}

/// The thread of a log sleeps for half a second before each line, and ends with the log.
#[test]
fn a_line_is_due_after_each_sleep(rt: HostRuntime) {
    let Bench {
        log,
        collected,
        clock,
    } = make_bench(&rt, rt.alloc(), "main", None);
    log.set(1);
    clock.assert_begun(1);
    let length = clock.length.load(Ordering::SeqCst);
    assert_same(&rt, length, TURN, "length of a sleep");
    log.set(2);
    clock.end(1);
    clock.assert_begun(2);
    log.set(3);
    let lines = "INFO main → 1\nINFO main → 3\n".as_bytes();
    assert_same(&rt, collected.bytes.lock(&rt).as_slice(), lines, "lines");
    drop(log);
    clock.end(2);
    assert_soon(&rt, &SoleOwner(&clock), "the thread ends");
}
