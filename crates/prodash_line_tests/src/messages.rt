use crate::fixtures::{assert_same, message, text_of_length};
use How::{All, New, Next, Since};
use prodash_base::Refusal;
use prodash_base::messages::{Message, MessageCopyState, MessageLevel, MessageRingBuffer};
use std::alloc::Global;
use std::process::Abort;

/// How the messages of a ring are copied.
#[derive(Clone, Copy)]
enum How {
    /// All of them.
    All,
    /// The new ones, without a state.
    New,
    /// The new ones, with the state of the copy before.
    Next,
    /// The new ones, with the state in which this many pushes were seen.
    Since(u64),
}

/// Pushes, a copy after them, and what it gives.
type Turn = (&'static [&'static str], How, &'static [&'static str]);

/// The capacity of a ring, and turns on it.
#[rattlefmt::skip]
const RINGS: &[(usize, &[Turn])] = &[
    (2, &[(&["one", "two", "three"], All, &["two", "three"])]),
    (2, &[
        (&["one", "two", "three"], New, &["two", "three"]),
        (&["four"], Next, &["four"]),
        (&["five"], Next, &["five"]),
        (&["six"], New, &["five", "six"]),
        (&[], Next, &[]),
        (&["1", "2", "3"], Next, &["2", "3"]),
    ]),
    (3, &[(&["a", "b"], New, &["a", "b"]), (&["c", "d"], Next, &["c", "d"])]),
    (0, &[(&["x"], All, &[]), (&[], Since(0), &[])]),
    (2, &[(&["one"], Since(9), &[]), (&[], All, &["one"])]),
    (3, &[
        (&["a", "b", "c"], Since(u64::MAX), &[]),
        (&[], Since(1), &["b", "c"]),
        (&[], All, &["a", "b", "c"]),
    ]),
];

/// Replaces the list by a copy, and returns the state for the next one.
fn copy(
    rt: &impl Abort,
    alloc: Global,
    ring: &MessageRingBuffer,
    out: &mut Vec<Message>,
    how: How,
    before: Option<MessageCopyState>,
) -> Option<MessageCopyState> {
    let previous = match how {
        All => {
            ring.copy_all(alloc, out).expect(rt, "no refusal");
            return before;
        }
        New => None,
        Next => before,
        Since(pushed) => Some(MessageCopyState::new(pushed)),
    };
    let state = ring.copy_new(alloc, out, previous).expect(rt, "no refusal");
    assert_same(rt, state.pushed(), ring.pushed(), "pushed");
    Some(state)
}

/// Messages with these texts, as the tests push them.
fn failures(rt: &impl Abort, alloc: Global, texts: &[&str]) -> Vec<Message> {
    let mut failures = Vec::new(alloc);
    for text in texts {
        failures
            .push(message(alloc, 7, MessageLevel::Failure, "task", text).expect(rt, "memory"))
            .expect(rt, "memory");
    }
    failures
}

/// Pushes messages with these texts, and counts them.
fn push(alloc: Global, ring: &mut MessageRingBuffer, texts: &[&str]) -> Result<u64, Refusal> {
    let mut pushed: u64 = 0;
    for text in texts {
        ring.push_overwrite(alloc, 7, MessageLevel::Failure, "task", text)?;
        pushed = pushed.saturating_add(1);
    }
    Ok(pushed)
}

fn assert_turns(rt: &impl Abort, alloc: Global, capacity: usize, turns: &'static [Turn]) {
    let mut ring = MessageRingBuffer::with_capacity(alloc, capacity).expect(rt, "memory");
    assert_same(rt, ring.capacity(), capacity, "capacity");
    let mut out = failures(rt, alloc, &["before"]);
    let mut state = None;
    let mut pushed: u64 = 0;
    for (pushes, how, given) in turns {
        pushed = pushed.saturating_add(push(alloc, &mut ring, pushes).expect(rt, "memory"));
        state = copy(rt, alloc, &ring, &mut out, *how, state);
        assert_same(rt, ring.pushed(), pushed, *pushes);
        assert_same(
            rt,
            out.as_slice(),
            failures(rt, alloc, given).as_slice(),
            *pushes,
        );
    }
}

#[test]
fn rings_keep_the_latest_messages(rt: HostRuntime) {
    for (capacity, turns) in RINGS {
        assert_turns(&rt, rt.alloc(), *capacity, turns);
    }
}

/// The bytes of an origin and of a message, each of which a ring takes while there is memory.
const LENGTHS: &[(usize, usize)] = &[(0, 0), (5, 1001), (1001, 5), (70_000, 70_000)];

#[test]
fn rings_take_long_messages(rt: HostRuntime) {
    let alloc = rt.alloc();
    let mut ring = MessageRingBuffer::with_capacity(alloc, 1).expect(&rt, "memory");
    for (origin, text) in LENGTHS {
        let origin = text_of_length(&rt, alloc, *origin);
        let text = text_of_length(&rt, alloc, *text);
        let (origin, text) = (origin.as_str(), text.as_str());
        ring.push_overwrite(alloc, 7, MessageLevel::Info, origin, text)
            .expect(&rt, "no refusal");
        let mut out = Vec::new(alloc);
        ring.copy_all(alloc, &mut out).expect(&rt, "no refusal");
        let want = message(alloc, 7, MessageLevel::Info, origin, text).expect(&rt, "memory");
        assert!(rt; out.as_slice() == [want].as_slice());
    }
}
