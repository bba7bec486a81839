//! The room that threads have on their stacks for a writer, a logger and a clock of the caller's.
use crate::engine::{FRAME, assert_drawn, options};
use crate::fixtures::{Host, arc, assert_same, downgrade, make_tree, share};
use crate::waiting::{Collected, Collector, Reaches, SoleOwner, SteppedClock, assert_soon};
use prodash::progress::Log;
use prodash::render::line::{Options, render};
use prodash::time::{Clock, Moment};
use std::alloc::Global;
use std::io::{self, Write};
use std::process::Abort;
use std::sync::Arc;
use std::sync::atomic::{AtomicU64, Ordering};

/// How deep calls go. Without optimization that takes more than 64 KiB, and with it maybe nothing.
const DEPTH: u64 = 2000;

/// Returns the exclusive or of the numbers up to this one, each in a call below the one of the
/// next.
fn exclusive_or(number: u64) -> u64 {
    if number == 0 {
        return 0;
    }
    exclusive_or(number - 1) ^ number
}

/// Takes room on the stack, and returns whether it was there.
fn takes_room(depth: u64) -> bool {
    exclusive_or(depth) == depth
}

/// A writer whose calls take room.
#[derive(Drop)]
struct DeepWriter<R: Host> {
    out: Collector<R>,
}

impl<R: Host> Write for DeepWriter<R> {
    fn write(&mut self, bytes: &[u8]) -> io::Result<usize> {
        if !takes_room(DEPTH) {
            return Ok(0);
        }
        self.out.write(bytes)
    }

    fn flush(&mut self) -> io::Result<()> {
        self.out.flush()
    }
}

/// A clock whose sleeps take room, and which counts them.
#[derive(Drop)]
struct DeepClock<R: Host> {
    clock: Arc<SteppedClock<R>>,
    sleeps: AtomicU64,
}

impl<R: Host> Clock for DeepClock<R> {
    fn now(&self) -> Moment {
        self.clock.now()
    }

    fn sleep(&self, nanoseconds: u64) {
        if takes_room(DEPTH) {
            self.sleeps.fetch_add(1, Ordering::SeqCst);
        }
        self.clock.sleep(nanoseconds);
    }
}

/// A clock whose sleeps of any length end at once.
fn make_clock<R: Host>(rt: &R, alloc: Global) -> Arc<DeepClock<R>> {
    let clock = SteppedClock::new(rt, alloc, 0);
    let sleeps = AtomicU64::new(0);
    arc(rt, alloc, DeepClock { clock, sleeps })
}

/// Asserts that sleeps of a clock soon have this number.
fn assert_sleeps<R: Host>(rt: &R, clock: &Arc<DeepClock<R>>, count: u64) {
    assert_soon(rt, &Reaches(&clock.sleeps, count), "sleeps");
}

/// The event loop, the ticker and the thread that waits for the delay. Off a terminal the message is
/// all that is written, whether or not the delay has passed.
#[test]
fn threads_of_a_renderer_have_room(rt: HostRuntime) {
    let alloc: Global = rt.alloc();
    let (root, mut item) = make_tree(&rt, alloc);
    item.info(alloc, 0, "one").expect(&rt, "no refusal");
    let collected = Collected::new(&rt, alloc, true);
    let clock = make_clock(&rt, alloc);
    let out = DeepWriter {
        out: Collector::new(&rt, alloc, &collected),
    };
    let options = Options {
        initial_delay: Some(FRAME),
        output_is_terminal: false,
        ..options()
    };
    let theirs = share(&rt, &clock);
    let weak = downgrade(&rt, &root);
    let handle = render(rt, alloc, out, weak, theirs, options).expect(&rt, "no refusal");
    assert_drawn(&rt, &collected, &[" task one\n"]);
    assert_sleeps(&rt, &clock, 3);
    drop(handle);
    assert_soon(&rt, &SoleOwner(&clock), "the threads end");
    drop(item);
}

/// The thread that a log starts.
#[test]
fn the_thread_of_a_log_has_room(rt: HostRuntime) {
    let alloc: Global = rt.alloc();
    let collected = Collected::new(&rt, alloc, true);
    let logger = Collector::new(&rt, alloc, &collected);
    let clock = make_clock(&rt, alloc);
    let log = Log::new(&rt, alloc, "main", None, logger, share(&rt, &clock));
    let log = log.expect(&rt, "no refusal");
    assert_sleeps(&rt, &clock, 2);
    drop(log);
    assert_soon(&rt, &SoleOwner(&clock), "the thread ends");
    assert_same(&rt, Arc::strong_count(&collected), 1, "owners of the list");
}
