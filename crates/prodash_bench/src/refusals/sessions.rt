//! Events of a session, whose frames are written on a screen in memory.
use prodash::messages::MessageLevel;
use prodash::progress::UNKNOWN;
use prodash::render::line::draw::{self, MemoryScreen};
use prodash::time::Moment;
use prodash::tree::{Event, Reply, RootOptions, Session, SessionOptions};
use prodash::unit::display::Mode;
use prodash::unit::label_and_mode;
use prodash::{Refusal, Text};
use prodash_fixtures::Calls;
use prodash_programs::Fault;
use std::alloc::Global;

/// The bytes that a screen has room for: those of all frames.
const ROOM: usize = 8192;

/// How many events are applied.
const EVENTS: u64 = 27;

/// The nanoseconds between two events.
const TURN: u64 = 300_000_000;

/// A session, and the screen that its frames are written on.
#[derive(Drop)]
struct Drawn {
    session: Session,
    screen: MemoryScreen,
}

/// Applies all events to two sessions.
pub(crate) fn run(alloc: Global, calls: &mut Calls) -> Result<(), Fault> {
    let mut first = new_session(alloc, calls)?;
    let applied = apply_to_another(alloc, &mut first, calls);
    drop(first);
    applied
}

/// Makes a second session, and applies all events to both.
fn apply_to_another(alloc: Global, first: &mut Drawn, calls: &mut Calls) -> Result<(), Fault> {
    let mut second = new_session(alloc, calls)?;
    let applied = apply_all(alloc, first, &mut second, calls);
    drop(second);
    applied
}

/// Applies all events to two sessions, and after each goes on with a copy of the first.
fn apply_all(
    alloc: Global,
    first: &mut Drawn,
    second: &mut Drawn,
    calls: &mut Calls,
) -> Result<(), Fault> {
    for place in 0..EVENTS {
        let event = event_at(alloc, place)?;
        apply_to_both(alloc, &event, first, second, calls);
        drop(event);
        replace_by_copy(alloc, &mut first.session, calls)?;
    }
    calls.expect(!first.screen.bytes().is_empty());
    Ok(())
}

/// Applies an event to two sessions. At most one of them is refused memory, and both must reply and
/// write the same.
fn apply_to_both(
    alloc: Global,
    event: &Event,
    first: &mut Drawn,
    second: &mut Drawn,
    calls: &mut Calls,
) {
    let reply = apply_event(alloc, first, event, calls);
    let other = apply_event(alloc, second, event, calls);
    calls.expect(reply == other && !is_refused(&reply));
    calls.expect(first.screen.bytes() == second.screen.bytes());
    drop(other);
    drop(reply);
}

/// Makes a session that keeps two messages, shows times, and measures throughput.
fn new_session(alloc: Global, calls: &mut Calls) -> Result<Drawn, Fault> {
    calls.begin("Session::new");
    let options = SessionOptions {
        root: RootOptions {
            initial_capacity: 2,
            message_buffer_capacity: 2,
        },
        draw: draw::Options {
            timestamp: true,
            ..draw::Options::default()
        },
        throughput: true,
    };
    let screen = MemoryScreen::new(alloc, ROOM)?;
    let session = match Session::new(alloc, &options) {
        Ok(session) => session,
        Err(refusal) => {
            let again = Session::new(alloc, &options);
            calls.refuse(refusal, again.is_ok());
            again?
        }
    };
    Ok(Drawn { session, screen })
}

/// Applies an event.
fn apply_event(alloc: Global, drawn: &mut Drawn, event: &Event, calls: &mut Calls) -> Reply {
    calls.begin("Session::apply");
    let written = drawn.screen.bytes().len();
    let reply = drawn.session.apply(alloc, event, &mut drawn.screen);
    let Reply::Refused(refusal) = reply else {
        return reply;
    };
    let is_unwritten = drawn.screen.bytes().len() == written;
    let again = drawn.session.apply(alloc, event, &mut drawn.screen);
    calls.refuse(refusal, is_unwritten && !is_refused(&again));
    drop(reply);
    again
}

fn is_refused(reply: &Reply) -> bool {
    matches!(reply, Reply::Refused(_))
}

/// Replaces a session with a copy of it.
fn replace_by_copy(alloc: Global, session: &mut Session, calls: &mut Calls) -> Result<(), Fault> {
    *session = copy_session(alloc, session, calls)?;
    Ok(())
}

/// Copies a session.
fn copy_session(alloc: Global, session: &Session, calls: &mut Calls) -> Result<Session, Fault> {
    calls.begin("Session::deep_clone");
    let refusal = match session.deep_clone(alloc) {
        Ok(copy) => return Ok(copy),
        Err(refusal) => refusal,
    };
    let again = session.deep_clone(alloc);
    calls.refuse(refusal, again.is_ok());
    Ok(again?)
}

/// Returns the event at a place: a frame, a look at the tree, or a change of it.
fn event_at(alloc: Global, place: u64) -> Result<Event, Refusal> {
    let at = place.wrapping_mul(TURN);
    match frame_at(place, at).or(read_at(place)) {
        Some(event) => Ok(event),
        None => change_at(alloc, place, at),
    }
}

/// Returns the frame that the event at a place draws: each third does, and some others.
fn frame_at(place: u64, at: Moment) -> Option<Event> {
    match place {
        20 => Some(Event::Resize {
            at,
            show: true,
            columns: 60,
            rows: 9,
        }),
        26 => Some(Event::Quit { at }),
        _ if place % 3 == 2 => Some(Event::Tick { at, show: true }),
        _ => None,
    }
}

/// Returns what the event at a place copies, if it only looks at the tree.
fn read_at(place: u64) -> Option<Event> {
    match place {
        9 => Some(Event::Snapshot),
        10 => Some(Event::CopyMessages),
        12 => Some(Event::CopyNew { previous: None }),
        15 => Some(Event::Name { item: 2 }),
        _ => None,
    }
}

/// Returns how the event at a place changes the tree.
fn change_at(alloc: Global, place: u64, at: Moment) -> Result<Event, Refusal> {
    let unit = label_and_mode("items", Mode::with_throughput());
    Ok(match place {
        0 | 4 => Event::AddChild {
            parent: place / 4,
            name: Text::from_str(alloc, "a task that compresses all of the files")?,
            id: UNKNOWN,
        },
        1 => Event::Init {
            item: 1,
            max: Some(40),
            unit: Some(unit),
        },
        3 | 6 | 13 => Event::Message {
            item: 1,
            at,
            level: MessageLevel::Success,
            text: Text::from_str(alloc, "is on its way to the last of all the files")?,
        },
        7 => Event::SetName {
            item: 2,
            name: Text::from_str(
                alloc,
                "a part with a name that is longer than that of its task",
            )?,
        },
        18 => Event::Drop { item: 2 },
        _ => Event::Set {
            item: 1,
            step: place,
        },
    })
}
