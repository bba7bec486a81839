//! What the tests of threads wait with: a loop, a clock, and a writer that is also a logger and
//! keeps what it gets.
use crate::fixtures::{Host, arc, assert_same, share};
use log::kv::Source;
use log::span::Spans;
use log::{Log as Logger, Metadata, Record};
use prodash::time::{Clock, Moment};
use std::alloc::Global;
use std::fmt::Display;
use std::io::{self, Error, ErrorKind, Write};
use std::process::Abort;
use std::sync::atomic::{AtomicBool, AtomicU64, Ordering};
use std::sync::{Arc, Mutex, Wait};
use std::time::Duration;
use std::{rt, thread};

/// A condition that a test waits for. A closure in its place would be four functions to prove.
pub(crate) trait Awaited {
    fn holds(&self) -> bool;
}

/// Waits until the condition holds, for at most ten seconds, and returns whether it does.
pub(crate) fn holds_soon<R: rt::Clock, A: Awaited>(rt: &R, awaited: &A) -> bool {
    for _ in 0..10000u32 {
        if awaited.holds() {
            return true;
        }
        thread::sleep(rt, Duration::from_millis(1));
    }
    awaited.holds()
}

/// Asserts that the condition holds soon; `of` says what is awaited.
pub(crate) fn assert_soon<R: rt::Clock + Abort, A: Awaited>(rt: &R, awaited: &A, of: &str) {
    assert_same(rt, holds_soon(rt, awaited), true, of);
}

impl Awaited for AtomicBool {
    fn holds(&self) -> bool {
        self.load(Ordering::SeqCst)
    }
}

/// A counter, and what it reaches.
#[derive(Clone, Copy)]
pub(crate) struct Reaches<'a>(pub &'a AtomicU64, pub u64);

impl Awaited for Reaches<'_> {
    fn holds(&self) -> bool {
        self.0.load(Ordering::SeqCst) >= self.1
    }
}

/// The only owner of a value, once the others are gone.
#[derive(Drop)]
pub(crate) struct SoleOwner<'a, T>(pub &'a Arc<T>);

impl<T> Awaited for SoleOwner<'_, T> {
    fn holds(&self) -> bool {
        Arc::strong_count(self.0) == 1
    }
}

/// A clock that the test sets, at first to the first moment, on which as many sleeps of one length
/// end as the test lets end, or each after twenty seconds. A sleep of another length takes a
/// millisecond.
#[derive(Drop)]
pub(crate) struct SteppedClock<R: rt::Clock + Drop> {
    rt: R,
    /// The length of the sleeps that wait, in nanoseconds.
    stepped: u64,
    /// How many sleeps have begun.
    begun: AtomicU64,
    /// How many may end.
    ending: AtomicU64,
    /// Whether the first goes on though it may end.
    first_goes_on: AtomicBool,
    /// The length of the latest sleep, in nanoseconds.
    pub length: AtomicU64,
    /// The moment that it is.
    moment: AtomicU64,
}

impl<R: Host> SteppedClock<R> {
    /// A clock on which no sleep of this length ends.
    pub(crate) fn new(rt: &R, alloc: Global, stepped: u64) -> Arc<SteppedClock<R>> {
        let clock = SteppedClock {
            rt: *rt,
            stepped,
            begun: AtomicU64::new(0),
            ending: AtomicU64::new(0),
            first_goes_on: AtomicBool::new(false),
            length: AtomicU64::new(0),
            moment: AtomicU64::new(0),
        };
        arc(rt, alloc, clock)
    }

    /// Asserts that this many sleeps begin soon.
    pub(crate) fn assert_begun(&self, count: u64) {
        assert_soon(&self.rt, &Reaches(&self.begun, count), "sleeps");
    }
}

impl<R: rt::Clock + Drop> SteppedClock<R> {
    /// Makes it this moment.
    pub(crate) fn set_moment(&self, moment: Moment) {
        self.moment.store(moment, Ordering::SeqCst);
    }

    /// Lets the first sleeps end, this many.
    pub(crate) fn end(&self, count: u64) {
        self.ending.store(count, Ordering::SeqCst);
    }

    /// Lets one more sleep end.
    pub(crate) fn end_next(&self) {
        self.ending.fetch_add(1, Ordering::SeqCst);
    }

    /// Lets all sleeps end.
    pub(crate) fn end_all(&self) {
        self.end(u64::MAX);
    }

    /// Lets the first sleep end too, after `end_all_but_first`.
    pub(crate) fn end_first(&self) {
        self.first_goes_on.store(false, Ordering::SeqCst);
    }

    /// Lets all sleeps end but the first, which goes on.
    pub(crate) fn end_all_but_first(&self) {
        self.first_goes_on.store(true, Ordering::SeqCst);
        self.end_all();
    }

    /// Waits until this many sleeps may end, at most twenty seconds.
    fn wait_for(&self, count: u64) {
        let may_end = MayEnd(self, count);
        if !holds_soon(&self.rt, &may_end) {
            holds_soon(&self.rt, &may_end);
        }
    }
}

impl<R: rt::Clock + Drop> Clock for SteppedClock<R> {
    fn now(&self) -> Moment {
        self.moment.load(Ordering::SeqCst)
    }

    fn sleep(&self, nanoseconds: u64) {
        self.length.store(nanoseconds, Ordering::SeqCst);
        let before = self.begun.fetch_add(1, Ordering::SeqCst);
        if nanoseconds == self.stepped {
            self.wait_for(before.saturating_add(1));
        } else {
            thread::sleep(&self.rt, Duration::from_millis(1));
        }
    }
}

/// A clock on which a sleep may end, by its number from 1.
#[derive(Drop)]
struct MayEnd<'a, R: rt::Clock + Drop>(&'a SteppedClock<R>, u64);

impl<R: rt::Clock + Drop> Awaited for MayEnd<'_, R> {
    fn holds(&self) -> bool {
        let goes_on = self.1 == 1 && self.0.first_goes_on.load(Ordering::SeqCst);
        !goes_on && self.0.ending.load(Ordering::SeqCst) >= self.1
    }
}

/// What a collector shares with its test.
#[derive(Drop)]
pub(crate) struct Collected {
    pub bytes: Mutex<Vec<u8>>,
    /// Whether a write has begun.
    pub has_begun: AtomicBool,
    /// Whether a write may end.
    pub is_open: AtomicBool,
}

impl Collected {
    pub(crate) fn new(rt: &impl Abort, alloc: Global, is_open: bool) -> Arc<Collected> {
        let collected = Collected {
            bytes: Mutex::new(Vec::new(alloc)),
            has_begun: AtomicBool::new(false),
            is_open: AtomicBool::new(is_open),
        };
        arc(rt, alloc, collected)
    }

    /// Lets all writes end.
    pub(crate) fn open(&self) {
        self.is_open.store(true, Ordering::SeqCst);
    }
}

/// What is collected, and the texts that it holds, one after another.
#[derive(Drop)]
pub(crate) struct Holds<'a, R: Wait>(pub &'a R, pub &'a Collected, pub &'a [&'a str]);

impl<R: Wait> Awaited for Holds<'_, R> {
    fn holds(&self) -> bool {
        are_texts(self.1.bytes.lock(self.0).as_slice(), self.2)
    }
}

/// What is collected, and the bytes that it is.
#[derive(Drop)]
pub(crate) struct HoldsBytes<'a, R: Wait>(pub &'a R, pub &'a Collected, pub &'a [u8]);

impl<R: Wait> Awaited for HoldsBytes<'_, R> {
    fn holds(&self) -> bool {
        self.1.bytes.lock(self.0).as_slice() == self.2
    }
}

/// Whether bytes are those of these texts.
fn are_texts(bytes: &[u8], texts: &[&str]) -> bool {
    let mut rest = bytes;
    for text in texts {
        match rest.strip_prefix(text.as_bytes()) {
            Some(after) => rest = after,
            None => return false,
        }
    }
    rest.is_empty()
}

/// Keeps what is written or logged: of a record its level and its text, on a line of its own. A
/// write waits until it is let through, a record doesn't.
#[derive(Drop)]
pub(crate) struct Collector<R: Wait + rt::Clock + Drop> {
    rt: R,
    alloc: Global,
    collected: Arc<Collected>,
}

impl<R: Host> Collector<R> {
    pub(crate) fn new(rt: &R, alloc: Global, collected: &Arc<Collected>) -> Collector<R> {
        Collector {
            rt: *rt,
            alloc,
            collected: share(rt, collected),
        }
    }
}

impl<R: Wait + rt::Clock + Drop> Write for Collector<R> {
    fn write(&mut self, bytes: &[u8]) -> io::Result<usize> {
        self.collected.has_begun.store(true, Ordering::SeqCst);
        if !holds_soon(&self.rt, &self.collected.is_open) {
            return Err(Error::from(ErrorKind::TimedOut));
        }
        self.collected
            .bytes
            .lock(&self.rt)
            .extend_from_slice(bytes)?;
        Ok(bytes.len())
    }

    fn flush(&mut self) -> io::Result<()> {
        Ok(())
    }
}

impl<R: Wait + rt::Clock + Drop> Logger for Collector<R> {
    fn enabled(&self, _metadata: &Metadata<'_>) -> bool {
        true
    }

    fn log<D: Display, K: Source, S: Spans>(&self, record: &Record<'_, D, K, S>) {
        let (level, args) = (record.level(), record.args());
        if let Ok(line) = format!(in self.alloc; "{level} {args}\n") {
            let bytes = line.as_str().as_bytes();
            let _ = self.collected.bytes.lock(&self.rt).extend_from_slice(bytes);
        }
    }

    fn flush(&self) {}

    fn target(&self) -> &str {
        ""
    }
}
