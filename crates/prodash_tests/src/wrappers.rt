//! Progress that wraps other progress, or none.
use crate::fixtures::{ShortRow, assert_name, assert_rows, assert_same, root_with_task};
use crate::traits::{EACH, Sent, assert_reaches_item, assert_sent, assert_step, call_each};
use prodash::messages::MessageLevel;
use prodash::progress::{AnyProgress, Discard, DoOrDiscard, Either, ThroughputOnDrop};
use prodash::time::{Clock, Moment};
use prodash::tree::{Item, Root};
use prodash::{Count, NestedProgress, Progress};
use std::alloc::Global;
use std::process::Abort;
use std::sync::atomic::{AtomicU64, Ordering};
use std::sync::{Arc, Wait};

/// A clock that goes on only when it is waited for.
#[derive(Drop)]
pub(crate) struct Stopped {
    now: AtomicU64,
}

/// Progress of any kind, whose logs are written by the runtime.
type Any = AnyProgress<HostRuntime, HostRuntime, Stopped>;

impl Clock for Stopped {
    fn now(&self) -> Moment {
        self.now.load(Ordering::SeqCst)
    }

    fn sleep(&self, nanoseconds: u64) {
        self.now.fetch_add(nanoseconds, Ordering::SeqCst);
    }
}

impl Stopped {
    /// A clock at this moment.
    pub(crate) fn at(rt: &impl Abort, alloc: Global, now: Moment) -> Arc<Stopped> {
        let now = AtomicU64::new(now);
        Arc::new(alloc, Stopped { now }).expect(rt, "memory")
    }
}

/// Asserts that all calls reach the item in the wrapper, which sends no more than they do, and that
/// it gets a child.
fn assert_wraps<P: NestedProgress + Drop, R: Wait + Clone + Drop>(
    rt: &impl Abort,
    alloc: Global,
    root: Root<R>,
    mut progress: P,
)
where
    P::SubProgress: Drop,
{
    assert_reaches_item(rt, alloc, &mut progress);
    assert_sent(rt, alloc, &root, EACH);
    let _part = progress.add_child(alloc, "part").expect(rt, "no refusal");
    assert_same(rt, root.num_tasks(), 2, "tasks");
}

#[test]
fn either_wraps_an_item(rt: HostRuntime) {
    let (root, item) = root_with_task(rt, rt.alloc());
    let left: Either<Item<HostRuntime>, Discard> = Either::Left(item);
    assert_wraps(&rt, rt.alloc(), root, left);
}

#[test]
fn either_wraps_an_item_on_its_right(rt: HostRuntime) {
    let (root, item) = root_with_task(rt, rt.alloc());
    let right: Either<Discard, Item<HostRuntime>> = Either::Right(item);
    assert_wraps(&rt, rt.alloc(), root, right);
}

#[test]
fn do_or_discard_wraps_an_item(rt: HostRuntime) {
    let (root, item) = root_with_task(rt, rt.alloc());
    assert_wraps(&rt, rt.alloc(), root, DoOrDiscard::from(Some(item)));
}

#[test]
fn any_progress_wraps_an_item(rt: HostRuntime) {
    let (root, item) = root_with_task(rt, rt.alloc());
    let any: Any = AnyProgress::Item(item);
    assert_wraps(&rt, rt.alloc(), root, any);
}

#[test]
fn throughput_on_drop_wraps_an_item(rt: HostRuntime) {
    let (root, item) = root_with_task(rt, rt.alloc());
    let clock = Stopped::at(&rt, rt.alloc(), 0);
    let timed = ThroughputOnDrop::new(rt.alloc(), item, clock);
    assert_wraps(&rt, rt.alloc(), root, timed);
}

const PART: &[ShortRow] = &[(&[0], "task", None), (&[0, 0], "part", None)];

#[test]
fn children_of_left_items_are_left_items(rt: HostRuntime) {
    let alloc: Global = rt.alloc();
    let (root, item) = root_with_task(rt, alloc);
    let mut left: Either<Item<HostRuntime>, Discard> = Either::Left(item);
    let part = left.add_child(alloc, "part").expect(&rt, "no refusal");
    assert_same(&rt, matches!(part, Either::Left(_)), true, "a left child");
    let mut rows = Vec::new(alloc);
    root.sorted_snapshot(alloc, &mut rows)
        .expect(&rt, "no refusal");
    assert_rows(&rt, alloc, &rows, PART);
}

/// Asserts that the progress stays as it was, whatever is called, and so does its child.
fn assert_discards<P: NestedProgress + Drop>(rt: &impl Abort, alloc: Global, mut progress: P)
where
    P::SubProgress: Progress + Drop,
{
    call_each(rt, alloc, &mut progress);
    assert_step(rt, alloc, &progress, 0);
    let child = progress.add_child_with_id(alloc, "part", *b"PART");
    let mut child = child.expect(rt, "no refusal");
    call_each(rt, alloc, &mut child);
    assert_step(rt, alloc, &child, 0);
    assert_name(rt, alloc, &child, None);
}

#[test]
fn discarded_progress_stays(rt: HostRuntime) {
    let alloc: Global = rt.alloc();
    assert_discards(&rt, alloc, Discard);
    let right: Either<Discard, Discard> = Either::Right(Discard);
    assert_discards(&rt, alloc, right);
    let none: DoOrDiscard<Discard> = DoOrDiscard::from(None);
    assert_discards(&rt, alloc, none);
    let any: Any = AnyProgress::Discard(Discard);
    assert_discards(&rt, alloc, any);
}

#[test]
fn progress_is_taken_once(rt: HostRuntime) {
    let mut done = DoOrDiscard::from(Some(5u64));
    assert_same(&rt, done.take(), Some(5), "taken");
    assert_same(&rt, done.take(), None, "taken twice");
    assert_same(&rt, done.into_inner(), None, "what is in it");
}

/// What the drops of two parts and of their parent send.
const FAST: &[Sent] = &[
    (
        2_500_000_000,
        MessageLevel::Info,
        "done 0 items in 1.50s (0 items/s)",
    ),
    (
        2_500_000_000,
        MessageLevel::Info,
        "done 3 items in 1.50s (2 items/s)",
    ),
    (
        2_500_000_000,
        MessageLevel::Info,
        "done 10 items in 2.50s (4 items/s)",
    ),
];

/// A new tree, and its task, which reports its throughput when it is dropped.
fn root_with_timed_task<R: Wait + Abort + Copy + Drop + Send + Sync>(
    rt: R,
    alloc: Global,
    clock: &Arc<Stopped>,
) -> (Root<R>, ThroughputOnDrop<Item<R>, Stopped>) {
    let (root, item) = root_with_task(rt, alloc);
    let clock = Arc::try_clone(clock).expect(&rt, "memory");
    (root, ThroughputOnDrop::new(alloc, item, clock))
}

/// The time of a child counts from when it was made.
#[test]
fn drops_say_how_fast_it_was(rt: HostRuntime) {
    let alloc: Global = rt.alloc();
    let clock = Stopped::at(&rt, alloc, 0);
    let (root, mut timed) = root_with_timed_task(rt, alloc, &clock);
    timed.set(10);
    clock.sleep(1_000_000_000);
    let part = timed.add_child(alloc, "part").expect(&rt, "no refusal");
    part.set(3);
    let idle = timed.add_child_with_id(alloc, "idle", *b"IDLE");
    let idle = idle.expect(&rt, "no refusal");
    clock.sleep(1_500_000_000);
    drop(idle);
    drop(part);
    drop(timed);
    assert_sent(&rt, alloc, &root, FAST);
}

/// What a drop sends half a second after the first moment.
const IN_NO_TIME: &[Sent] = &[(
    500_000_000,
    MessageLevel::Info,
    "done 1 items in 0.00s (18446744073709551615 items/s)",
)];

/// On a clock that goes back no time has passed.
#[test]
fn a_clock_that_goes_back_counts_no_time(rt: HostRuntime) {
    let clock = Stopped::at(&rt, rt.alloc(), 2_000_000_000);
    let (root, timed) = root_with_timed_task(rt, rt.alloc(), &clock);
    timed.set(1);
    clock.now.store(500_000_000, Ordering::SeqCst);
    drop(timed);
    assert_sent(&rt, rt.alloc(), &root, IN_NO_TIME);
}
