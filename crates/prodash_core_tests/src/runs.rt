//! Sessions and runs.
use crate::fixtures::{FakeScreen, assert_same, assert_shown};
use crate::transcripts::{
    apply_event, assert_session, event_of, line_after, new_session, options, run_line,
};
use prodash_core::tree::{Event, Session, SessionOptions};
use prodash_line::render::line::draw::MemoryScreen;
use std::alloc::Global;
use std::process::Abort;

pub(crate) const RUNS: &[&str] = &[
    // a task is drawn, and a message takes the place of its row
    r#"add 0 task -> Made(1)
init 1 10 - -> Done
set 1 3 -> Done
tick 0 -> Drawn -> " task 3/10 [=======>-------------------]\n\u{1b}[1A"
info 1 0 one -> Done
set 1 4 -> Done
tick 0 -> Drawn -> " task one                               \n task 4/10 [==========>----------------]\n\u{1b}[1A"
snapshot -> Rows(Rows [Row [0] "task" 4/10])"#,
    // the row of a dropped item goes, rows below it stay, and the next child has the next number
    r#"add 0 a -> Made(1)
add 1 b -> Made(2)
tick 0 -> Drawn -> " a\n  b\n\u{1b}[2A"
drop 1 -> Done
tick 0 -> Drawn -> "  b\n   \n\u{1b}[2A"
snapshot -> Rows(Rows [Row [0, 0] "b"])
add 0 c -> Made(3)
tick 0 -> Drawn -> "  b\n c\n\u{1b}[2A"
drop 2 -> Done
drop 3 -> Done
tick 0 -> Drawn -> "   \n  \n\u{1b}[2A""#,
    // an item below a dropped one goes on
    r#"add 0 a -> Made(1)
add 1 b -> Made(2)
drop 1 -> Done
info 2 0 x -> Done
hold 0 -> Drawn -> " b x\n""#,
    // a child at the seventh level replaces its parent's entry, so dropping it removes that
    r#"add 0 1 -> Made(1)
add 1 2 -> Made(2)
add 2 3 -> Made(3)
add 3 4 -> Made(4)
add 4 5 -> Made(5)
add 5 6 -> Made(6)
add 6 x -> Made(7)
drop 7 -> Done
info 6 0 m -> Done
hold 0 -> Drawn -> "  m\n""#,
    // each message is printed once
    r#"add 0 a -> Made(1)
info 1 0 x -> Done
hold 0 -> Drawn -> " a x\n"
info 1 0 y -> Done
hold 0 -> Drawn -> " a y\n"
hold 0 -> Drawn"#,
    // copies of messages
    r#"add 0 a -> Made(1)
info 1 0 x -> Done
info 1 0 y -> Done
messages -> Messages(Messages [Message 0 Info "a" "x", Message 0 Info "a" "y"])
new - -> New(Messages [Message 0 Info "a" "x", Message 0 Info "a" "y"], MessageCopyState { seen: 2 })
new 1 -> New(Messages [Message 0 Info "a" "y"], MessageCopyState { seen: 2 })
new 9 -> New(Messages [], MessageCopyState { seen: 2 })"#,
    // an item that was not made yet, and one that was dropped
    "add 1 below -> Refused(Gone)
set 1 3 -> Refused(Gone)
init 1 10 - -> Refused(Gone)
add 0 a -> Made(1)
set 2 1 -> Refused(Gone)
set 0 1 -> Refused(Gone)
drop 1 -> Done
drop 1 -> Refused(Gone)
add 1 below -> Refused(Gone)",
    // without a root the renderer closes, and prints no message that no tick has seen; items go on
    r#"add 0 a -> Made(1)
tick 0 -> Drawn -> " a\n\u{1b}[1A"
info 1 0 x -> Done
droproot -> Done
droproot -> Refused(Gone)
add 0 b -> Refused(Gone)
snapshot -> Refused(Gone)
messages -> Refused(Gone)
new - -> Refused(Gone)
add 1 c -> Made(2)
info 1 0 y -> Done
set 1 3 -> Done
hold 0 -> Ended -> "  \n\u{1b}[1A\u{1b}[2K\r"
tick 0 -> Refused(Closed)
hold 0 -> Refused(Closed)
quit 0 -> Refused(Closed)
drop 1 -> Done
set 2 3 -> Done"#,
    // a quit closes the renderer, and the tree goes on
    r#"add 0 a -> Made(1)
quit 0 -> Ended -> "\u{1b}[2K\r"
tick 0 -> Refused(Closed)
quit 0 -> Refused(Closed)
set 1 3 -> Done
snapshot -> Rows(Rows [Row [0] "a"])"#,
];

/// What events make of tasks.
const TASKS: &[&str] = &[
    // what events make of an item without progress, of one with it, and once the root is dropped
    r#"tasks? -> Count(0)
child a -> Made(1)
set 1 18446744073709551615 -> Done
inc 1 2 -> Done
step? 1 -> Step(1)
max 1 7 -> Bound(None)
max? 1 -> Bound(None)
unit? 1 -> Unit(None)
pause 1 -> Done
snapshot -> Rows(Rows [Row [0] "a" id [1, 2, 3, 4]])
init 1 10 - -> Done
inc 1 3 -> Done
step? 1 -> Step(3)
max? 1 -> Bound(Some(10))
max 1 7 -> Bound(Some(10))
max 1 - -> Bound(Some(7))
max 1 8 -> Bound(None)
lock 1 -> Done
snapshot -> Rows(Rows [Row [0] "a" id [1, 2, 3, 4] 3/8 Blocked("lock", None)])
wait 1 -> Done
snapshot -> Rows(Rows [Row [0] "a" id [1, 2, 3, 4] 3/8 Blocked("replay", Some(7))])
pause 1 -> Done
snapshot -> Rows(Rows [Row [0] "a" id [1, 2, 3, 4] 3/8 Halted("pause", None)])
sleep 1 -> Done
snapshot -> Rows(Rows [Row [0] "a" id [1, 2, 3, 4] 3/8 Halted("replay", Some(7))])
running 1 -> Done
name 1 b -> Done
snapshot -> Rows(Rows [Row [0] "b" id [1, 2, 3, 4] 3/8])
name? 1 -> Name(Some("b"))
id? 1 -> Id([1, 2, 3, 4])
tasks? -> Count(1)
droproot -> Done
tasks? -> Refused(Gone)
name? 1 -> Name(Some("b"))
inc 1 1 -> Done
step? 1 -> Step(4)
init 1 - bytes -> Done
unit? 1 -> Unit(Some(Unit { kind: Bytes(Bytes), mode: None }))"#,
    // units with a percentage and a throughput, before the value and after the unit
    r#"add 0 a -> Made(1)
init 1 - a%/s -> Done
unit? 1 -> Unit(Some(Unit { kind: Label("a"), mode: Some(Mode { location: AfterUnit, percentage: true, throughput: true }) }))
init 1 - /sa -> Done
unit? 1 -> Unit(Some(Unit { kind: Label("a"), mode: Some(Mode { location: BeforeValue, percentage: false, throughput: true }) }))
init 1 - %/sa -> Done
unit? 1 -> Unit(Some(Unit { kind: Label("a"), mode: Some(Mode { location: BeforeValue, percentage: true, throughput: true }) }))"#,
    // a child of the sixth level takes the place of its parent, and loses its entry with it
    r#"add 0 a -> Made(1)
add 1 b -> Made(2)
add 2 c -> Made(3)
add 3 d -> Made(4)
add 4 e -> Made(5)
add 5 parent -> Made(6)
tasks? -> Count(6)
add 6 child -> Made(7)
tasks? -> Count(6)
name? 6 -> Name(Some("child"))
name? 7 -> Name(Some("child"))
drop 1 -> Done
drop 2 -> Done
drop 3 -> Done
drop 4 -> Done
snapshot -> Rows(Rows [Row [0, 0, 0, 0, 0] "e", Row [0, 0, 0, 0, 0, 0] "child"])
drop 6 -> Done
tasks? -> Count(1)
name? 7 -> Name(None)
id? 7 -> Id([0, 0, 0, 0])
set 7 5 -> Done
init 7 10 - -> Done
max 7 10 -> Bound(None)
name 7 Z -> Done
running 7 -> Done
name? 7 -> Name(None)
max? 7 -> Bound(None)
step? 7 -> Step(5)
tasks? -> Count(1)"#,
];

/// The events of an item, whose handle goes in the place of `ITEM`.
const OF_ITEMS: &str = "drop ITEM
init ITEM 1 -
name ITEM b
max ITEM 1
set ITEM 1
inc ITEM 1
blocked ITEM
halted ITEM
running ITEM
info ITEM 0 x
name? ITEM
id? ITEM
step? ITEM
max? ITEM
unit? ITEM";

/// With a ring of two messages.
const LATEST: &str = r#"add 0 a -> Made(1)
info 1 0 x -> Done
info 1 0 y -> Done
info 1 0 z -> Done
hold 0 -> Drawn -> " a y\n a z\n""#;

/// The rate is that of the latest second.
pub(crate) const MEASURED: &str = r#"add 0 t -> Made(1)
init 1 100 items/s -> Done
tick 0 -> Drawn -> " t 0/100 items [>----------------------]\n\u{1b}[1A"
set 1 10 -> Done
tick 400000000 -> Drawn -> " t 10/100 items [==>-------------------]\n\u{1b}[1A"
set 1 20 -> Done
tick 800000000 -> Drawn -> " t 20/100 items [====>-----------------]\n\u{1b}[1A"
set 1 30 -> Done
tick 1200000000 -> Drawn -> " t 30/100 items [======>---------------]\n\u{1b}[1A"
set 1 50 -> Done
tick 1600000000 -> Drawn -> " t 50/100 items |33/s| [=======>-------]\n\u{1b}[1A""#;

/// Asserts that a new session replies and draws as in a transcript.
fn assert_new_session(rt: &impl Abort, alloc: Global, options: &SessionOptions, transcript: &str) {
    let mut session = new_session(rt, alloc, options);
    assert_session(rt, alloc, &mut session, transcript);
    drop(session);
}

#[test]
fn sessions_have_replies_and_frames(rt: HostRuntime) {
    for transcript in RUNS {
        assert_new_session(&rt, rt.alloc(), &options(20), transcript);
    }
    for transcript in TASKS {
        assert_new_session(&rt, rt.alloc(), &options(20), transcript);
    }
    assert_new_session(&rt, rt.alloc(), &options(2), LATEST)
}

/// Asserts that an event of `OF_ITEMS` is refused for a handle without an item.
fn assert_gone(rt: &impl Abort, alloc: Global, session: &mut Session, item: u32, event: &str) {
    let (word, rest) = event.split_once("ITEM").expect(rt, "an item");
    let line = format!(in alloc; "{word}{item}{rest} -> Refused(Gone)").expect(rt, "memory");
    assert_session(rt, alloc, session, line.as_str());
}

/// The root has no item, the first one was dropped, and no second one was made.
#[test]
fn events_need_an_item(rt: HostRuntime) {
    let mut session = new_session(&rt, rt.alloc(), &options(20));
    assert_session(
        &rt,
        rt.alloc(),
        &mut session,
        "add 0 a -> Made(1)\ndrop 1 -> Done",
    );
    for item in 0..3 {
        for event in OF_ITEMS.lines() {
            assert_gone(&rt, rt.alloc(), &mut session, item, event);
        }
    }
    drop(session);
}

#[test]
fn frames_show_throughput(rt: HostRuntime) {
    let options = SessionOptions {
        throughput: true,
        ..options(20)
    };
    assert_new_session(&rt, rt.alloc(), &options, MEASURED)
}

/// What comes after the first child of the root and 65535 others.
const AFTER_ALL: &str = r#"add 0 Z -> Made(65537)
name? 1 -> Name(Some("A"))
tasks? -> Count(65537)
drop 1 -> Done
tasks? -> Count(65536)
name? 65537 -> Name(Some("Z"))
init 65537 1 - -> Done
max? 65537 -> Bound(Some(1))"#;

/// Applies an event that writes nothing, whatever the reply.
fn apply(alloc: Global, session: &mut Session, event: &Event, screen: &mut MemoryScreen) {
    apply_event(alloc, session, event, screen);
}

/// Adds 65535 children to the root.
fn add_children(rt: &impl Abort, alloc: Global, session: &mut Session) {
    let mut screen = MemoryScreen::new(alloc, 0).expect(rt, "memory");
    let child = event_of(rt, alloc, "add 0 a");
    for _ in 0..65535 {
        apply(alloc, session, &child, &mut screen);
    }
}

/// Asserts that the last row is that of the 65537th child of the root, which has got a progress.
fn assert_last_row(rt: &impl Abort, alloc: Global, session: &mut Session) {
    let event = event_of(rt, alloc, "snapshot");
    let got = line_after(rt, alloc, session, &event);
    let has_row = got.as_str().contains(r#", Row [65536] "Z" 0/1])"#);
    assert_same(rt, has_row, true, "last row");
}

#[test]
fn the_child_after_65536_has_a_place_of_its_own(rt: HostRuntime) {
    let mut session = new_session(&rt, rt.alloc(), &options(20));
    assert_session(&rt, rt.alloc(), &mut session, "add 0 A -> Made(1)");
    add_children(&rt, rt.alloc(), &mut session);
    assert_session(&rt, rt.alloc(), &mut session, AFTER_ALL);
    assert_last_row(&rt, rt.alloc(), &mut session);
    drop(session);
}

/// Events on a screen that breaks once it has taken five bytes.
const BREAKS: &str = "add 0 task; init 1 10 -; set 1 3; tick 0; tick 0; step? 1; snapshot";

/// The replies to them.
const BROKEN: &str = "[Made(1), Done, Done, Refused(Broken), Refused(Broken), Step(3), \
Rows(Rows [Row [0] \"task\" 3/10])]";

#[test]
fn a_broken_screen_leaves_the_tree(rt: HostRuntime) {
    let mut screen = FakeScreen::new(rt.alloc(), 200, 5, true).expect(&rt, "memory");
    let replies = run_line(&rt, rt.alloc(), &options(20), BREAKS, &mut screen);
    assert_shown(&rt, rt.alloc(), &replies, BROKEN);
    assert_same(&rt, screen.bytes.as_slice(), b" task", "bytes");
}
