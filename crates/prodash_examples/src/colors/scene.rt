//! The tasks that are drawn, and what happens to them.
use prodash::Text;
use prodash::messages::MessageLevel::{self, Failure, Info, Success};
use prodash::progress::{Step, UNKNOWN};
use prodash::time::Moment;
use prodash::tree::Event;
use prodash::unit::display::Mode;
use prodash::unit::human::Formatter;
use prodash::unit::{
    Bytes, Duration, Human, Kind, Range, Unit, dynamic, dynamic_and_mode, label, label_and_mode,
};
use std::alloc::{AllocError, Global};

/// What a row shows of a task's progress.
#[derive(Clone, Copy)]
enum Shown {
    /// Nothing: the task has no progress.
    Name,
    /// The step and the bound.
    Steps,
    /// Bytes, and how many in a second.
    Bytes,
    /// Things, and the percentage of them that is done.
    Percent(&'static str),
    /// Things, and how many in a second.
    Rate(&'static str),
    /// Many things, in short.
    Many(&'static str),
    /// One of some things.
    Range(&'static str),
    /// Seconds, as a time.
    Time,
}

/// The handle of a task, that of the task above it or 0, its name, what its row shows, its bound,
/// and the steps that it makes before each frame.
struct Task(u64, u64, &'static str, Shown, Option<Step>, Step);

const TASKS: &[Task] = &[
    Task(1, 0, "clone", Shown::Name, None, 0),
    Task(2, 1, "receive", Shown::Bytes, Some(24_000_000), 5_300_000),
    Task(3, 1, "index", Shown::Many("objects"), None, 411_000),
    Task(4, 1, "resolve", Shown::Rate("deltas"), Some(9000), 1450),
    Task(5, 1, "check out", Shown::Percent("files"), Some(940), 204),
    Task(6, 0, "build", Shown::Range("steps"), Some(6), 1),
    Task(7, 6, "compile", Shown::Steps, Some(120), 21),
    Task(8, 6, "link", Shown::Steps, Some(12), 1),
    Task(9, 6, "test", Shown::Percent("tests"), Some(350), 40),
    Task(10, 0, "sign", Shown::Time, Some(90), 18),
];

/// The handle of the task that is blocked.
const BLOCKED: u64 = 8;

/// The handle of the task that is halted.
const HALTED: u64 = 9;

/// How many frames are drawn.
const FRAMES: u16 = 4;

/// The frame before which a message is sent, counted from 0, the handle of its task, its severity
/// and its text.
const MESSAGES: &[(u16, u64, MessageLevel, &str)] = &[
    (0, 2, Info, "24 MB from origin"),
    (1, 9, Failure, "keys::wrap: left 65535, right 0"),
    (2, 7, Info, "4 warnings"),
    (3, 5, Success, "no conflicts"),
];

/// Returns the events: the tasks are added, and then make steps, send messages and are drawn.
pub fn events(alloc: Global) -> Result<Vec<Event>, AllocError> {
    let mut events = Vec::new(alloc);
    push_tasks(alloc, &mut events)?;
    for frame in 0..FRAMES {
        push_steps(&mut events)?;
        push_messages(alloc, &mut events, frame)?;
        events.push(Event::Tick {
            at: moment(frame),
            show: true,
        })?;
    }
    Ok(events)
}

/// Appends the events that add all tasks and begin their progress.
fn push_tasks(alloc: Global, events: &mut Vec<Event>) -> Result<(), AllocError> {
    for Task(item, parent, name, shown, max, _) in TASKS {
        events.push(Event::AddChild {
            parent: *parent,
            name: Text::from_str(alloc, name)?,
            id: UNKNOWN,
        })?;
        events.push(Event::Init {
            item: *item,
            max: *max,
            unit: unit(*shown),
        })?;
    }
    events.push(Event::Blocked {
        item: BLOCKED,
        reason: "compiles",
        eta: None,
    })?;
    events.push(Event::Halted {
        item: HALTED,
        reason: "a test failed",
        eta: None,
    })?;
    Ok(())
}

/// Returns the unit in which a row shows the progress.
fn unit(shown: Shown) -> Option<Unit> {
    match shown {
        Shown::Name | Shown::Steps => None,
        Shown::Bytes => Some(dynamic_and_mode(Kind::Bytes(Bytes), Mode::with_throughput())),
        Shown::Percent(name) => Some(label_and_mode(name, Mode::with_percentage())),
        Shown::Rate(name) => Some(label_and_mode(name, Mode::with_throughput())),
        Shown::Many(name) => Some(dynamic(Kind::Human(Human::new(Formatter::default(), name)))),
        Shown::Range(name) => Some(dynamic(Kind::Range(Range::new(name)))),
        Shown::Time => Some(dynamic(Kind::Duration(Duration))),
    }
}

/// Appends the events that let all tasks make their steps.
fn push_steps(events: &mut Vec<Event>) -> Result<(), AllocError> {
    for Task(item, _, _, _, _, step) in TASKS {
        events.push(Event::IncBy {
            item: *item,
            step: *step,
        })?;
    }
    Ok(())
}

/// Appends the messages that are sent before a frame.
fn push_messages(alloc: Global, events: &mut Vec<Event>, before: u16) -> Result<(), AllocError> {
    for (frame, item, level, text) in MESSAGES {
        if *frame == before {
            events.push(Event::Message {
                item: *item,
                at: moment(before),
                level: *level,
                text: Text::from_str(alloc, text)?,
            })?;
        }
    }
    Ok(())
}

/// Returns the moment of a frame, counted from 0: two seconds after that of the frame before.
fn moment(frame: u16) -> Moment {
    (FIRST + 2 * u64::from(frame)) * 1_000_000_000
}

/// The second of the first frame, which is 13:45:07.
const FIRST: u64 = 49_507;
