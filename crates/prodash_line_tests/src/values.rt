use crate::fixtures::{
    Progress, ShortRow, assert_ascending, assert_debug, assert_distinct, assert_hashed,
    assert_same, clones, key_at, message, messages, row, rows,
};
use prodash_base::messages::{Message, MessageCopyState, MessageLevel, MessageRingBuffer};
use prodash_base::progress::{Id, Row, State, UNKNOWN, Value};
use prodash_base::unit::{Unit, label};
use prodash_base::{Refusal, Text};
use std::alloc::{AllocError, Global};
use std::process::Abort;

const STATES: &[State] = &[
    State::Blocked("a", None),
    State::Blocked("a", Some(0)),
    State::Blocked("a", Some(1)),
    State::Blocked("b", None),
    State::Halted("a", None),
    State::Halted("a", Some(0)),
    State::Halted("a", Some(1)),
    State::Halted("b", None),
    State::Running,
];

#[test]
fn levels_and_states_are_ordered(rt: HostRuntime) {
    let levels = [
        MessageLevel::Info,
        MessageLevel::Failure,
        MessageLevel::Success,
    ];
    assert_ascending(&rt, &levels);
    assert_ascending(&rt, STATES);
    assert_hashed(&rt, rt.alloc(), STATES)
}

/// A fraction needs a bound.
#[test]
fn defaults(rt: HostRuntime) {
    assert_same(&rt, UNKNOWN, [0, 0, 0, 0], "identifier");
    assert_same(&rt, State::default(), State::Running, "state");
    assert_same(
        &rt,
        Value::default(),
        value(0, None, None, State::Running),
        "value",
    );
    let mut value = Value::default();
    value.step = 3;
    assert_same(&rt, value.fraction(), None, "no bound");
    value.done_at = Some(10);
    assert_same(&rt, value.fraction(), Some((3, 10)), "a bound");
}

const TEXTS: &[(Refusal, &str)] = &[
    (Refusal::Memory, "no memory"),
    (Refusal::TooManyMessages, "too many messages"),
    (Refusal::Gone, "no such handle"),
    (Refusal::Closed, "renderer is closed"),
    (Refusal::Broken, "output is broken"),
    (Refusal::TooManyHandles, "too many handles"),
    (Refusal::NoThread, "no thread"),
];

#[test]
fn refusals_have_texts(rt: HostRuntime) {
    for (refusal, want) in TEXTS {
        let text = format!(in rt.alloc(); "{refusal}").expect(&rt, "memory");
        assert_same(&rt, text.as_str(), *want, *refusal);
    }
    assert_same(
        &rt,
        Refusal::from(AllocError),
        Refusal::Memory,
        "allocation",
    );
}

const REFUSALS: &[Refusal] = &[
    Refusal::Memory,
    Refusal::TooManyMessages,
    Refusal::Gone,
    Refusal::Closed,
    Refusal::Broken,
    Refusal::TooManyHandles,
    Refusal::NoThread,
];

fn value(step: u64, done_at: Option<u64>, unit: Option<Unit>, state: State) -> Value {
    Value {
        step,
        done_at,
        unit,
        state,
    }
}

/// Values that differ in one field each.
fn some_values(rt: &impl Abort, alloc: Global) -> Vec<Value> {
    vec![in alloc;
        value(3, Some(10), None, State::Running),
        value(4, Some(10), None, State::Running),
        value(3, Some(11), None, State::Running),
        value(3, None, None, State::Running),
        value(3, Some(10), None, State::Halted("a", None)),
        value(3, Some(10), Some(label("items")), State::Running),
    ]
    .expect(rt, "memory")
}

const ROWS: &[(&[u32], &str, Id, Progress)] = &[
    (&[1, 2], "a", UNKNOWN, None),
    (&[1, 3], "a", UNKNOWN, None),
    (&[1, 2], "b", UNKNOWN, None),
    (&[1, 2], "a", [0, 0, 0, 1], None),
    (&[1, 2], "a", UNKNOWN, Some((3, None))),
];

/// Rows that differ in one field each.
fn some_rows(rt: &impl Abort, alloc: Global) -> Vec<Row> {
    let mut rows = Vec::new(alloc);
    for (numbers, name, id, progress) in ROWS {
        let mut row = row(alloc, key_at(numbers), name, *progress).expect(rt, "memory");
        let id = *id;
        row.id = id;
        rows.push(row).expect(rt, "memory");
    }
    rows
}

/// Messages that differ in one field each.
fn some_messages(rt: &impl Abort, alloc: Global) -> Vec<Message> {
    let mut messages = Vec::new(alloc);
    for (time, level, origin, text) in [
        (1, MessageLevel::Info, "task", "text"),
        (2, MessageLevel::Info, "task", "text"),
        (1, MessageLevel::Success, "task", "text"),
        (1, MessageLevel::Info, "text", "text"),
        (1, MessageLevel::Info, "task", "task"),
    ] {
        messages
            .push(message(alloc, time, level, origin, text).expect(rt, "memory"))
            .expect(rt, "memory");
    }
    messages
}

/// Asserts that each value equals its clone, and no other one.
fn assert_cloned<T: PartialEq + Clone + Drop>(rt: &impl Abort, alloc: Global, values: &[T]) {
    let copies = clones(alloc, values).expect(rt, "memory");
    assert_distinct(rt, values, &copies);
}

#[test]
fn values_differ_by_any_field(rt: HostRuntime) {
    let alloc = rt.alloc();
    let states = [MessageCopyState::new(0), MessageCopyState::new(1)];
    assert_distinct(&rt, REFUSALS, REFUSALS);
    assert_distinct(&rt, &states, &states);
    assert_cloned(&rt, alloc, &some_values(&rt, alloc));
    assert_cloned(&rt, alloc, &some_rows(&rt, alloc));
    assert_cloned(&rt, alloc, &some_messages(&rt, alloc));
}

const LISTED: &[ShortRow] = &[(&[1], "a", Some((3, Some(10)))), (&[2], "b", None)];

#[test]
fn rings_show_the_messages_that_they_keep(rt: HostRuntime) {
    let alloc = rt.alloc();
    let mut ring = MessageRingBuffer::with_capacity(alloc, 1).expect(&rt, "memory");
    ring.push_overwrite(alloc, 5, MessageLevel::Info, "task", "begins")
        .expect(&rt, "no refusal");
    ring.push_overwrite(alloc, 9, MessageLevel::Success, "task", "ends")
        .expect(&rt, "no refusal");
    let want = r#"MessageRingBuffer { ring: [Message 9 Success "task" "ends"], pushed: 2 }"#;
    assert_debug(&rt, alloc, &ring, want);
}

/// The numbers of a key, an identifier, a step with a bound and a state, and the row's `Debug`.
#[rattlefmt::skip]
const ROW_TEXTS: &[(&[u32], Id, Option<(u64, Option<u64>, State)>, &str)] = &[
    (&[], UNKNOWN, None, r#"Row [] "task""#),
    (&[0, 1], [1, 2, 3, 4], None, r#"Row [0, 1] "task" id [1, 2, 3, 4]"#),
    (&[0], UNKNOWN, Some((3, None, State::Running)), r#"Row [0] "task" 3"#),
    (&[0], UNKNOWN, Some((3, Some(10), State::Running)), r#"Row [0] "task" 3/10"#),
    (&[0], UNKNOWN, Some((3, Some(10), State::Halted("a", None))),
        r#"Row [0] "task" 3/10 Halted("a", None)"#),
];

/// A row of `task` at the key with these numbers.
fn task(rt: &impl Abort, alloc: Global, numbers: &[u32]) -> Row {
    row(alloc, key_at(numbers), "task", None).expect(rt, "memory")
}

#[test]
fn rows_have_short_debug_texts(rt: HostRuntime) {
    let alloc = rt.alloc();
    for (numbers, id, progress, want) in ROW_TEXTS {
        let mut row = task(&rt, alloc, numbers);
        row.id = *id;
        if let Some((step, done_at, state)) = progress {
            row.progress = Some(value(*step, *done_at, None, *state));
        }
        assert_debug(&rt, alloc, &row, want);
    }
    let mut measured = task(&rt, alloc, &[0]);
    measured.progress = Some(value(3, None, Some(label("items")), State::Running));
    let want = r#"Row [0] "task" 3 Unit { kind: Label("items"), mode: None }"#;
    assert_debug(&rt, alloc, &measured, want);
}

#[test]
fn lists_have_short_debug_texts(rt: HostRuntime) {
    let alloc = rt.alloc();
    let rows = rows(alloc, LISTED).expect(&rt, "memory");
    let messages = messages(alloc, &[("a", "x"), ("b", "y")]).expect(&rt, "memory");
    let lines = r#"Messages [Message 0 Info "a" "x", Message 0 Info "b" "y"]"#;
    assert_debug(&rt, alloc, &rows, r#"Rows [Row [1] "a" 3/10, Row [2] "b"]"#);
    assert_debug(&rt, alloc, &messages, lines);
    assert_debug(&rt, alloc, &key_at(&[0, 1]), "Key [0, 1]");
    assert_debug(
        &rt,
        alloc,
        &Text::from_str(alloc, "a \"b\"").expect(&rt, "memory"),
        r#""a \"b\"""#,
    );
}
