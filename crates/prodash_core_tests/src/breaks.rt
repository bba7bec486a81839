//! Screens that break after each byte of a run, and at each of its flushes.
use crate::fixtures::{FakeScreen, TERMINAL, assert_same};
use crate::runs::{MEASURED, RUNS};
use crate::transcripts::{apply_event, events_of, new_session, options, run_events};
use prodash_base::Refusal;
use prodash_core::tree::{Event, Reply, SessionOptions};
use prodash_line::render::line::draw::{self, MemoryScreen, OverWrite};
use std::alloc::Global;
use std::io::{self, Error, ErrorKind, Write};
use std::process::Abort;

/// An event of a run, and how many bytes the run has written after it.
#[derive(Drop)]
struct Step {
    is_frame: bool,
    reply: Reply,
    end: usize,
}

/// What a session does on a screen that doesn't break.
#[derive(Drop)]
struct Whole {
    events: Vec<Event>,
    steps: Vec<Step>,
    screen: MemoryScreen,
}

/// Runs a transcript on a screen that doesn't break.
fn run_whole(rt: &impl Abort, alloc: Global, options: &SessionOptions, transcript: &str) -> Whole {
    let events = events_of(rt, alloc, transcript, "\n");
    let mut session = new_session(rt, alloc, options);
    let mut screen = MemoryScreen::new(alloc, 0).expect(rt, "memory");
    let mut steps = Vec::new(alloc);
    for event in &events {
        let step = Step {
            is_frame: event.is_frame(),
            reply: apply_event(alloc, &mut session, event, &mut screen),
            end: screen.bytes().len(),
        };
        steps.push(step).expect(rt, "memory");
    }
    drop(session);
    Whole {
        events,
        steps,
        screen,
    }
}

/// Asserts that a run has the first `taken` bytes of the whole one, and its replies. But the frames
/// that end after `kept` bytes are broken.
fn assert_broken(
    rt: &impl Abort,
    whole: &Whole,
    replies: &[Reply],
    bytes: &[u8],
    taken: usize,
    kept: usize,
) {
    let broken = Reply::Refused(Refusal::Broken);
    assert_same(rt, Some(bytes), whole.screen.bytes().get(..taken), kept);
    assert_same(rt, replies.len(), whole.steps.len(), kept);
    for (reply, step) in replies.iter().zip(whole.steps.iter()) {
        let is_broken = step.is_frame && step.end > kept;
        assert!(rt; *reply == *(if is_broken { &broken } else { &step.reply }));
    }
}

/// A writer that takes a byte at a time, until it has taken or flushed as often as it may.
#[derive(Drop)]
struct FailingWriter {
    bytes: Vec<u8>,
    writes_left: usize,
    flushes_left: usize,
    /// Whether it takes no byte then, in place of an error.
    is_full: bool,
}

impl Write for FailingWriter {
    fn write(&mut self, bytes: &[u8]) -> io::Result<usize> {
        let taken = bytes.len().min(self.writes_left).min(1);
        if taken == 0 && !self.is_full {
            return Err(Error::from(ErrorKind::BrokenPipe));
        }
        self.bytes.extend_from_slice(&bytes[..taken])?;
        self.writes_left -= taken;
        Ok(taken)
    }

    fn flush(&mut self) -> io::Result<()> {
        if self.flushes_left == 0 {
            return Err(Error::from(ErrorKind::BrokenPipe));
        }
        self.flushes_left -= 1;
        Ok(())
    }
}

/// Asserts that a run over a writer, which may be written and flushed this often, ends as it
/// should.
fn assert_over_writer(
    rt: &impl Abort,
    alloc: Global,
    options: &SessionOptions,
    whole: &Whole,
    (writes_left, flushes_left, is_full): (usize, usize, bool),
    (taken, kept): (usize, usize),
) {
    let mut screen = OverWrite::new(FailingWriter {
        bytes: Vec::new(alloc),
        writes_left,
        flushes_left,
        is_full,
    });
    let replies = run_events(rt, alloc, options, &whole.events, &mut screen);
    let writer = screen.into_inner();
    assert_broken(rt, whole, &replies, &writer.bytes, taken, kept);
}

/// Asserts that a run on a screen that takes this many bytes, or over such a writer, ends as it
/// should.
fn assert_breaks_after(
    rt: &impl Abort,
    alloc: Global,
    options: &SessionOptions,
    whole: &Whole,
    taken: usize,
) {
    for at_once in [1, usize::MAX] {
        let mut screen = FakeScreen::new(alloc, at_once, taken, true).expect(rt, "memory");
        let replies = run_events(rt, alloc, options, &whole.events, &mut screen);
        assert_broken(rt, whole, &replies, &screen.bytes, taken, taken);
    }
    for is_full in [false, true] {
        let writer = (taken, usize::MAX, is_full);
        assert_over_writer(rt, alloc, options, whole, writer, (taken, taken));
    }
}

/// Asserts that runs of a transcript do what a session does on screens that take all bytes, and end
/// as they should on screens that break after each byte, and at each flush.
fn assert_breaks(rt: &impl Abort, alloc: Global, options: &SessionOptions, transcript: &str) {
    let whole = run_whole(rt, alloc, options, transcript);
    for taken in 0..=whole.screen.bytes().len() {
        assert_breaks_after(rt, alloc, options, &whole, taken);
    }
    let (mut flushes, mut kept): (usize, usize) = (0, 0);
    for step in &whole.steps {
        if step.end > kept {
            let writer = (usize::MAX, flushes, false);
            assert_over_writer(rt, alloc, options, &whole, writer, (step.end, kept));
            flushes = flushes.saturating_add(1);
            kept = step.end;
        }
    }
}

#[test]
fn runs_end_where_a_screen_breaks(rt: HostRuntime) {
    for transcript in RUNS {
        assert_breaks(&rt, rt.alloc(), &options(20), transcript);
    }
}

#[test]
fn coloured_runs_end_where_a_screen_breaks(rt: HostRuntime) {
    let options = SessionOptions {
        draw: draw::Options {
            colored: true,
            timestamp: true,
            ..TERMINAL
        },
        throughput: true,
        ..options(2)
    };
    for transcript in RUNS {
        assert_breaks(&rt, rt.alloc(), &options, transcript);
    }
    assert_breaks(&rt, rt.alloc(), &options, MEASURED)
}
