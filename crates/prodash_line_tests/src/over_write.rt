use crate::drawings::Ask::{Print, Quit, Show};
use crate::drawings::{Ask, Task, draw, renderer};
use crate::fixtures::{assert_debug, assert_same};
use Outcome::{Fails, Takes};
use prodash_base::Refusal;
use prodash_line::render::line::draw::{Answer, MemoryScreen, OverWrite, Screen};
use std::alloc::Global;
use std::io::{self, Error, ErrorKind, Write};
use std::process::Abort;

/// What a writer does with a write.
#[derive(Clone, Copy, Debug)]
enum Outcome {
    /// It takes at most this many bytes.
    Takes(usize),
    /// It returns an error of this kind.
    Fails(ErrorKind),
}

/// A writer whose writes do what a list says; after its end they do what its last entry says.
#[derive(Drop)]
struct FakeWriter {
    bytes: Vec<u8>,
    outcomes: &'static [Outcome],
    flushes: bool,
    /// How often it was asked to write, and to flush.
    calls: (usize, usize),
}

impl FakeWriter {
    fn new(alloc: Global, outcomes: &'static [Outcome], flushes: bool) -> FakeWriter {
        FakeWriter {
            bytes: Vec::new(alloc),
            outcomes,
            flushes,
            calls: (0, 0),
        }
    }
}

impl Write for FakeWriter {
    fn write(&mut self, buf: &[u8]) -> io::Result<usize> {
        self.calls.0 = self.calls.0.saturating_add(1);
        let Some((outcome, rest)) = self.outcomes.split_first() else {
            return Ok(0);
        };
        if !rest.is_empty() {
            self.outcomes = rest;
        }
        match outcome {
            Takes(most) => {
                let count = buf.len().min(*most);
                self.bytes.extend_from_slice(&buf[..count])?;
                Ok(count)
            }
            Fails(kind) => Err(Error::from(*kind)),
        }
    }

    fn flush(&mut self) -> io::Result<()> {
        self.calls.1 = self.calls.1.saturating_add(1);
        if self.flushes {
            Ok(())
        } else {
            Err(Error::from(ErrorKind::Interrupted))
        }
    }
}

/// A writer whose every call returns an error.
#[derive(Debug, Drop)]
struct BadWriter;

impl Write for BadWriter {
    fn write(&mut self, _buf: &[u8]) -> io::Result<usize> {
        Err(Error::from(ErrorKind::Interrupted))
    }

    fn flush(&mut self) -> io::Result<()> {
        Err(Error::from(ErrorKind::Interrupted))
    }
}

/// What a writer does, whether it flushes, what is returned of puts of `abcd` until one is refused
/// or the list ends, then of a flush; the bytes that the writer has in the end, and its calls.
#[derive(Clone, Copy)]
struct Row(
    &'static [Outcome],
    bool,
    &'static [Result<usize, Refusal>],
    Result<(), Refusal>,
    &'static str,
    (usize, usize),
);

const BROKEN: Result<usize, Refusal> = Err(Refusal::Broken);

const UNFLUSHED: Result<(), Refusal> = Err(Refusal::Broken);

#[rattlefmt::skip]
const ROWS: &[Row] = &[
    Row(&[Takes(9)], true, &[Ok(4)], Ok(()), "abcd", (1, 1)),
    // a short write is no fault
    Row(&[Takes(3)], true, &[Ok(3), Ok(3)], Ok(()), "abcabc", (2, 1)),
    Row(&[Takes(1), Takes(4)], true, &[Ok(1), Ok(4)], Ok(()), "aabcd", (2, 1)),
    // nothing taken is, and so is an error, an interrupted write too
    Row(&[Takes(0)], true, &[BROKEN], UNFLUSHED, "", (1, 0)),
    Row(&[Takes(2), Takes(0), Takes(4)], true, &[Ok(2), BROKEN], UNFLUSHED, "ab", (2, 0)),
    Row(&[Fails(ErrorKind::Interrupted), Takes(4)], true, &[BROKEN], UNFLUSHED, "", (1, 0)),
    Row(&[Takes(4), Fails(ErrorKind::Interrupted)], true, &[Ok(4), BROKEN], UNFLUSHED, "abcd", (2, 0)),
    Row(&[Fails(ErrorKind::WouldBlock)], true, &[BROKEN], UNFLUSHED, "", (1, 0)),
    // a refused flush
    Row(&[Takes(4)], false, &[Ok(4)], UNFLUSHED, "abcd", (1, 1)),
];

/// A put of these bytes returns this, and breaks the screen if it is refused.
fn assert_put<W: Write>(
    rt: &impl Abort,
    screen: &mut OverWrite<W>,
    bytes: &[u8],
    want: Result<usize, Refusal>,
) {
    assert_same(rt, screen.put(bytes), want, "put");
    assert_same(rt, screen.is_broken(), want.is_err(), "broken by a put");
}

/// A flush returns this, and breaks the screen if it is refused.
fn assert_flush<W: Write>(rt: &impl Abort, screen: &mut OverWrite<W>, want: Result<(), Refusal>) {
    assert_same(rt, screen.flush(), want, "flush");
    assert_same(rt, screen.is_broken(), want.is_err(), "broken by a flush");
}

/// Once broken it stays broken.
fn assert_stays_broken(rt: &impl Abort, screen: &mut OverWrite<FakeWriter>) {
    assert_put(rt, screen, b"abcd", BROKEN);
    assert_put(rt, screen, b"", BROKEN);
    assert_flush(rt, screen, UNFLUSHED);
}

/// Puts until one is refused or the list ends, then flushes. Once the screen is broken, it no
/// longer calls its writer.
fn assert_row(rt: &impl Abort, alloc: Global, row: &Row) {
    let Row(outcomes, flushes, puts, flushed, bytes, calls) = *row;
    let mut screen = OverWrite::new(FakeWriter::new(alloc, outcomes, flushes));
    assert_same(rt, screen.is_broken(), false, outcomes);
    for want in puts {
        assert_put(rt, &mut screen, b"abcd", *want);
    }
    assert_flush(rt, &mut screen, flushed);
    if flushed.is_err() {
        assert_stays_broken(rt, &mut screen);
    }
    let writer = screen.into_inner();
    assert_same(rt, writer.bytes.as_slice(), bytes.as_bytes(), outcomes);
    assert_same(rt, writer.calls, calls, outcomes);
    drop(writer);
}

#[test]
fn over_write_breaks_with_its_writer(rt: HostRuntime) {
    for row in ROWS {
        assert_row(&rt, rt.alloc(), row);
    }
}

#[test]
fn over_write_may_take_no_bytes_of_none(rt: HostRuntime) {
    let mut screen = OverWrite::new(FakeWriter::new(rt.alloc(), &[Takes(0)], true));
    assert_put(&rt, &mut screen, b"", Ok(0));
    drop(screen);
}

const TASK: Task = ("task", Some((3, Some(10))));

#[rattlefmt::skip]
const FRAMES: &[(Ask, Answer)] = &[
    (Show(&[TASK]), Answer::Drawn),
    (Print(&[("task", "one")], &[("task", Some((4, Some(10))))]), Answer::Drawn),
    (Show(&[]), Answer::Drawn),
    (Quit, Answer::Ended),
];

/// A new renderer draws all frames on a screen.
fn assert_frames<S: Screen>(rt: &impl Abort, alloc: Global, screen: &mut S) {
    let mut state = renderer(alloc, (40, 24));
    for (ask, want) in FRAMES {
        let got = draw(rt, alloc, screen, &mut state, *ask);
        assert_same(rt, got, Ok(*want), "frame");
    }
    drop(state);
}

#[test]
fn over_write_has_the_bytes_of_a_memory_screen(rt: HostRuntime) {
    let alloc = rt.alloc();
    let mut memory = MemoryScreen::new(alloc, 400).expect(&rt, "memory");
    assert_frames(&rt, alloc, &mut memory);
    let mut slow = OverWrite::new(FakeWriter::new(alloc, &[Takes(1)], true));
    assert_frames(&rt, alloc, &mut slow);
    let slow = slow.into_inner();
    assert_same(&rt, slow.bytes.as_slice(), memory.bytes(), "slow");
    assert_same(&rt, slow.calls.0, memory.bytes().len(), "writes");
    assert_same(&rt, slow.calls.1, FRAMES.len(), "flushes");
    drop(slow);
    drop(memory);
}

#[test]
fn over_write_says_whether_it_is_broken(rt: HostRuntime) {
    let alloc = rt.alloc();
    let mut screen = OverWrite::new(BadWriter);
    let (whole, broken) = (
        "OverWrite { writer: BadWriter, broken: false }",
        "OverWrite { writer: BadWriter, broken: true }",
    );
    assert_debug(&rt, alloc, &screen, whole);
    assert_put(&rt, &mut screen, b"abcd", BROKEN);
    assert_debug(&rt, alloc, &screen, broken);
}

/// A line of 5000 columns, a line feed, and up by one row.
const LONG_FRAME: usize = 5000 + 1 + 4;

#[test]
fn long_frame_is_flushed_once(rt: HostRuntime) {
    let mut screen = OverWrite::new(FakeWriter::new(rt.alloc(), &[Takes(usize::MAX)], true));
    let mut state = renderer(rt.alloc(), (5000, 24));
    let got = draw(&rt, rt.alloc(), &mut screen, &mut state, Show(&[TASK]));
    assert_same(&rt, got, Ok(Answer::Drawn), "long frame");
    let writer = screen.into_inner();
    assert_same(&rt, writer.bytes.len(), LONG_FRAME, "bytes");
    assert_same(&rt, writer.calls, (2, 1), "calls");
    drop(writer);
    drop(state);
}

const BREAKS: &[Outcome] = &[Takes(5), Fails(ErrorKind::Interrupted)];

const AFTER: &[Ask] = &[Show(&[TASK]), Show(&[]), Quit];

#[test]
fn renderer_ends_once_its_writer_fails(rt: HostRuntime) {
    let mut screen = OverWrite::new(FakeWriter::new(rt.alloc(), BREAKS, true));
    let mut state = renderer(rt.alloc(), (40, 24));
    for ask in AFTER {
        let answer = draw(&rt, rt.alloc(), &mut screen, &mut state, *ask);
        assert_same(&rt, answer, Err(Refusal::Broken), "answer");
        assert_same(&rt, state.ended(), Some(Refusal::Broken), "end");
    }
    let writer = screen.into_inner();
    assert_same(&rt, writer.bytes.as_slice(), b" task".as_slice(), "bytes");
    assert_same(&rt, writer.calls, (2, 0), "calls");
    drop(writer);
    drop(state);
}
