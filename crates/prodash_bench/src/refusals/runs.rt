//! Whole runs of events, whose frames are written on a screen in memory.
use prodash::Refusal;
use prodash::render::line::draw::{self, MemoryScreen};
use prodash::tree::{Event, Reply, RootOptions, SessionOptions, run as run_events};
use prodash_fixtures::{Calls, TERMINAL};
use prodash_programs::Fault;
use prodash_script::{Labels, parse};
use std::alloc::Global;

/// The bytes that a screen has room for: those of all frames.
const ROOM: usize = 8192;

/// A script: the columns of its terminal, its events and the bytes of its frames.
type Script = (u16, &'static str, &'static str);

/// A message that takes the place of a row, rows whose bars begin further to the right, a row that
/// goes and a quit, messages of origins of different widths, and a throughput.
#[rattlefmt::skip]
const SCRIPTS: &[Script] = &[
    (
        40,
        "add 0 task; init 1 10 -; set 1 3; tick 0; info 1 0 one; set 1 4; tick 0",
        " task 3/10 [=======>-------------------]\n\x1b[1A \
task one                               \n \
task 4/10 [==========>----------------]\n\x1b[1A",
    ),
    (
        30,
        "add 0 a; init 1 10 -; set 1 3; add 0 long; init 2 10 -; set 2 10; tick 0; set 1 4; tick 0",
        " a 3/10 [=====>--------------]\n long 10/10 [===============>]\n\x1b[2A \
a     4/10 [======>---------]\n long 10/10 [===============>]\n\x1b[2A",
    ),
    (
        40,
        "add 0 task; init 1 10 -; set 1 3; add 0 next; init 2 10 -; set 2 3; tick 0; drop 2; \
tick 0; hold 0; quit 0; tick 0",
        " task 3/10 [=======>-------------------]\n next 3/10 [=======>-------------------]\n\x1b[2A \
task 3/10 [=======>-------------------]\n                                        \n\x1b[2A                                        \
\n\x1b[1A\x1b[2K\r",
    ),
    (
        40,
        "add 0 ab; info 1 0 x; add 0 task; info 2 0 y; add 0 c; info 3 0 z; hold 0",
        " ab x\n task y\n    c z\n",
    ),
    (
        40,
        "add 0 t; init 1 100 items/s; tick 0; set 1 10; tick 400000000; set 1 20; \
tick 800000000; set 1 30; tick 1200000000; set 1 50; tick 1600000000",
        " t 0/100 items [>----------------------]\n\x1b[1A \
t 10/100 items [==>-------------------]\n\x1b[1A \
t 20/100 items [====>-----------------]\n\x1b[1A \
t 30/100 items [======>---------------]\n\x1b[1A \
t 50/100 items |33/s| [=======>-------]\n\x1b[1A",
    ),
];

/// Runs each script.
pub(crate) fn run(alloc: Global, calls: &mut Calls) -> Result<(), Fault> {
    for (columns, lines, bytes) in SCRIPTS {
        let events = events_of(alloc, lines)?;
        run_once(alloc, *columns, &events, bytes, calls)?;
    }
    Ok(())
}

/// Runs events. A run that is refused memory has written nothing. One whose events are refused
/// replies to the others, and writes, as one without these events.
fn run_once(
    alloc: Global,
    columns: u16,
    events: &[Event],
    bytes: &str,
    calls: &mut Calls,
) -> Result<(), Fault> {
    calls.begin("run");
    let mut screen = MemoryScreen::new(alloc, ROOM)?;
    let replies = match run_events(alloc, &options(columns), events, &mut screen) {
        Ok(replies) => replies,
        Err(refusal) => {
            calls.refuse(refusal, screen.bytes().is_empty());
            return Ok(());
        }
    };
    if replies.iter().any(is_refused_memory) {
        let is_right = runs_as_without(alloc, columns, events, &replies, screen.bytes())?;
        calls.refuse(Refusal::Memory, is_right);
    } else {
        calls.expect(screen.bytes() == bytes.as_bytes());
    }
    Ok(())
}

/// Returns whether a run of the events that were not refused memory has their replies, and writes
/// these bytes.
fn runs_as_without(
    alloc: Global,
    columns: u16,
    events: &[Event],
    replies: &[Reply],
    bytes: &[u8],
) -> Result<bool, Fault> {
    let (mut others, mut theirs) = (Vec::new(alloc), Vec::new(alloc));
    for (event, reply) in events.iter().zip(replies) {
        if !is_refused_memory(reply) {
            others.push(event.clone()?)?;
            theirs.push(reply.clone()?)?;
        }
    }
    let mut screen = MemoryScreen::new(alloc, ROOM)?;
    let again = run_events(alloc, &options(columns), &others, &mut screen)?;
    Ok(again == theirs && screen.bytes() == bytes)
}

fn is_refused_memory(reply: &Reply) -> bool {
    matches!(reply, Reply::Refused(Refusal::Memory))
}

/// Returns the options of a run to a terminal of this many columns, which measures throughput.
fn options(columns: u16) -> SessionOptions {
    SessionOptions {
        root: RootOptions::default(),
        draw: draw::Options {
            terminal_dimensions: (columns, 20),
            ..TERMINAL
        },
        throughput: true,
    }
}

/// Returns the events of the lines of a script.
fn events_of(alloc: Global, lines: &str) -> Result<Vec<Event>, Fault> {
    let (mut events, mut labels) = (Vec::new(alloc), Labels::new(alloc));
    for line in lines.split("; ") {
        if let Some(event) = parse(alloc, &mut labels, line)? {
            events.push(event)?;
        }
    }
    Ok(events)
}
