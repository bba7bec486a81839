//! Transcripts: lines of an event, ` -> `, and the reply to it as `Debug` writes it; if the event
//! writes a frame, ` -> ` and its bytes as a string literal follow.
use crate::fixtures::{TERMINAL, assert_same, cells};
use prodash_base::Text;
use prodash_base::messages::MessageCopyState;
use prodash_core::tree::{Event, Reply, RootOptions, Session, SessionOptions, run};
use prodash_line::render::line::draw::{MemoryScreen, Screen};
use prodash_script::{Labels, REASON, number, parse};
use std::alloc::Global;
use std::process::Abort;

/// Parses an event: a line of `prodash_script`, or one that has no line there.
pub(crate) fn event_of(rt: &impl Abort, alloc: Global, line: &str) -> Event {
    if let Some(event) = parse(alloc, &mut Labels::new(alloc), line).expect(rt, "memory") {
        return event;
    }
    let (word, rest) = line.split_once(' ').unwrap_or((line, ""));
    match word {
        "child" => child(rt, alloc, rest),
        _ => unwritten_event(word, rest).expect(rt, "an event"),
    }
}

/// An event that adds a child of the root with an identifier.
fn child(rt: &impl Abort, alloc: Global, name: &str) -> Event {
    Event::AddChild {
        parent: 0,
        name: Text::from_str(alloc, name).expect(rt, "memory"),
        id: [1, 2, 3, 4],
    }
}

/// Parses a query of the tree or of an item, or a resize that shows no rows. `lock` and `pause`
/// mark an item as blocked and as halted for another reason than a line of `prodash_script` does,
/// `wait` and `sleep` until the moment 7.
fn unwritten_event(word: &str, rest: &str) -> Option<Event> {
    let item = number(rest).unwrap_or(0);
    Some(match word {
        "tasks?" => Event::NumTasks,
        "snapshot" => Event::Snapshot,
        "messages" => Event::CopyMessages,
        "new" => Event::CopyNew {
            previous: number(rest).map(MessageCopyState::new),
        },
        "name?" => Event::Name { item },
        "id?" => Event::Id { item },
        "step?" => Event::Step { item },
        "max?" => Event::Max { item },
        "unit?" => Event::Unit { item },
        "lock" => Event::Blocked {
            item,
            reason: "lock",
            eta: None,
        },
        "wait" => Event::Blocked {
            item,
            reason: REASON,
            eta: Some(7),
        },
        "pause" => Event::Halted {
            item,
            reason: "pause",
            eta: None,
        },
        "sleep" => Event::Halted {
            item,
            reason: REASON,
            eta: Some(7),
        },
        "hidden" => hidden_resize(rest)?,
        _ => return None,
    })
}

/// Parses the columns and rows of a resize that shows no rows.
fn hidden_resize(size: &str) -> Option<Event> {
    let (columns, rows) = size.split_once(' ')?;
    Some(Event::Resize {
        at: 0,
        show: false,
        columns: number(columns)?.min(65535) as u16,
        rows: number(rows)?.min(65535) as u16,
    })
}

/// Returns the event of a line of a transcript, or of a line that has no reply.
fn asked(line: &str) -> &str {
    match line.split_once(" -> ") {
        Some((asked, _)) => asked,
        None => line,
    }
}

/// Returns the events of the lines that a text has between separators.
pub(crate) fn events_of(rt: &impl Abort, alloc: Global, text: &str, separator: &str) -> Vec<Event> {
    let mut events = Vec::new(alloc);
    for line in text.split(separator) {
        let event = event_of(rt, alloc, asked(line));
        events.push(event).expect(rt, "memory");
    }
    events
}

/// 40 columns, and room for this many messages.
pub(crate) fn options(message_buffer_capacity: usize) -> SessionOptions {
    SessionOptions {
        root: RootOptions {
            initial_capacity: 100,
            message_buffer_capacity,
        },
        draw: TERMINAL,
        throughput: false,
    }
}

/// A new session. Like the two functions below it has no clauses, so that callers stay cheap.
pub(crate) fn new_session(rt: &impl Abort, alloc: Global, options: &SessionOptions) -> Session {
    Session::new(alloc, options).expect(rt, "no refusal")
}

/// Applies an event to a session.
pub(crate) fn apply_event(
    alloc: Global,
    session: &mut Session,
    event: &Event,
    screen: &mut MemoryScreen,
) -> Reply {
    session.apply(alloc, event, screen)
}

/// Runs events on a screen.
pub(crate) fn run_events<S: Screen>(
    rt: &impl Abort,
    alloc: Global,
    options: &SessionOptions,
    events: &[Event],
    screen: &mut S,
) -> Vec<Reply> {
    run(alloc, options, events, screen).expect(rt, "no refusal")
}

/// Runs the events of a line, with `; ` between two of them, on a screen.
pub(crate) fn run_line<S: Screen>(
    rt: &impl Abort,
    alloc: Global,
    options: &SessionOptions,
    line: &str,
    screen: &mut S,
) -> Vec<Reply> {
    let events = events_of(rt, alloc, line, "; ");
    run_events(rt, alloc, options, &events, screen)
}

/// Applies an event to a session, and returns what a transcript has after it.
pub(crate) fn line_after(
    rt: &impl Abort,
    alloc: Global,
    session: &mut Session,
    event: &Event,
) -> String {
    let mut screen = MemoryScreen::new(alloc, 0).expect(rt, "memory");
    let reply = apply_event(alloc, session, event, &mut screen);
    let bytes = str::from_utf8(screen.bytes()).expect(rt, "UTF-8");
    format!(in alloc; "{reply:?} -> {bytes:?}").expect(rt, "memory")
}

/// Asserts that a session replies and draws as a line of a transcript says.
fn assert_line(rt: &impl Abort, alloc: Global, session: &mut Session, line: &str) {
    let (asked, told) = cells(rt, line);
    let event = event_of(rt, alloc, asked);
    let got = line_after(rt, alloc, session, &event);
    assert_same(rt, got.as_str().trim_end_matches(" -> \"\""), told, asked);
}

/// Asserts that a session replies and draws as in the transcript.
pub(crate) fn assert_session(
    rt: &impl Abort,
    alloc: Global,
    session: &mut Session,
    transcript: &str,
) {
    for line in transcript.lines() {
        assert_line(rt, alloc, session, line);
    }
}
