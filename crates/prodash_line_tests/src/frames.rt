use crate::drawings::Ask::{Hide, Print, Quit, Rootless, Show};
use crate::drawings::{Ask, Drawing, Task, assert_draws, assert_draws_with, draw, renderer};
use crate::fixtures::{MESSAGE_FRAME, Progress, TASK_FRAME, TERMINAL, assert_same};
use prodash_base::Refusal;
use prodash_base::messages::MessageCopyState;
use prodash_line::render::line::draw::{MemoryScreen, Options, State};
use std::alloc::Global;
use std::process::Abort;

const THREE_OF_TEN: Progress = Some((3, Some(10)));

const FOUR_OF_TEN: Progress = Some((4, Some(10)));

const TEN_OF_TEN: Progress = Some((10, Some(10)));

const TASK: Task = ("task", THREE_OF_TEN);

const CLOSED: Result<&str, Refusal> = Err(Refusal::Closed);

/// The line of `task` is erased, and the renderer closes.
const TASK_CLOSED: &str = "                                        \n\x1b[1A\x1b[2K\r";

/// `a` and `long` on 30 columns, and `a` a step further.
const LONG_FRAME: &str = " a 3/10 [=====>--------------]\n long 10/10 [===============>]\n\x1b[2A";

const ALIGNED_FRAME: &str =
    " a     4/10 [======>---------]\n long 10/10 [===============>]\n\x1b[2A";

/// `task` and `next` on 40 columns, and `next` is gone.
const NEXT_FRAME: &str = " task 3/10 [=======>-------------------]\n \
next 3/10 [=======>-------------------]\n\x1b[2A";

const NEXT_GONE_FRAME: &str =
    " task 3/10 [=======>-------------------]\n                                        \n\x1b[2A";

#[rattlefmt::skip]
const ROWS: &[Drawing] = &[
    // rows that were on screen before are not drawn again
    Drawing((40, 24), &[(Show(&[TASK]), Ok(TASK_FRAME)), (Show(&[TASK]), Ok(""))]),
    // nor are rows that were hidden, until they change
    Drawing((40, 24), &[
        (Hide(&[("task", Some((0, Some(10))))]), Ok("")),
        (Show(&[("task", Some((0, Some(10))))]), Ok("")),
        (Show(&[TASK]), Ok(TASK_FRAME)),
    ]),
    // no rows
    Drawing((40, 24), &[(Show(&[]), Ok(""))]),
    // a bound of zero fills the bar
    Drawing((20, 24), &[(Show(&[("t", Some((0, Some(0))))]), Ok(" t 0/0 [==========>]\n\x1b[1A"))]),
    // a row is cut at the terminal's width: in its bar, before its bar, in its values
    Drawing((8, 24), &[(Show(&[("t", THREE_OF_TEN)]), Ok(" t 3/10 \n\x1b[1A"))]),
    Drawing((7, 24), &[(Show(&[("t", THREE_OF_TEN)]), Ok(" t 3/10\n\x1b[1A"))]),
    Drawing((5, 24), &[(Show(&[("t", THREE_OF_TEN)]), Ok(" t 3/\n\x1b[1A"))]),
    // a character of two columns isn't cut in its middle, and the next line is padded to three
    // columns
    Drawing((4, 24), &[
        (Show(&[("日本", None)]), Ok(" 日\n\x1b[1A")),
        (Show(&[("a", None)]), Ok(" a \n\x1b[1A")),
    ]),
    // the midpoint is that of the whole row
    Drawing((7, 24), &[
        (Show(&[("abcde", THREE_OF_TEN), ("t", None)]), Ok(" abcde \n t\n\x1b[2A")),
        (Show(&[("t", THREE_OF_TEN)]), Ok(" t     \n  \n\x1b[2A")),
    ]),
    // no column at all
    Drawing((0, 24), &[(Show(&[("t", THREE_OF_TEN)]), Ok("\n\x1b[1A"))]),
];

#[test]
fn rows_are_cut_at_the_width(rt: HostRuntime) {
    assert_draws(&rt, rt.alloc(), ROWS)
}

#[rattlefmt::skip]
const UNBOUNDED: &[Drawing] = &[
    // without a bound, a cell for each number from the step on, the last one first
    Drawing((40, 24), &[(Show(&[("t", Some((3, None)))]), Ok(" t 3 [   ===   ===   ===   ===   ===   ]\n\x1b[1A"))]),
    Drawing((18, 24), &[(Show(&[("t", Some((2, None)))]), Ok(" t 2 [=   ===   =]\n\x1b[1A")), (Show(&[("t", Some((3, None)))]), Ok(" t 3 [==   ===   ]\n\x1b[1A"))]),
    // no cell from 2^64-1 on
    Drawing((40, 24), &[(Show(&[("t", Some((18446744073709551612, None)))]), Ok(" t 18446744073709551612 [===]\n\x1b[1A"))]),
    Drawing((40, 24), &[(Show(&[("t", Some((18446744073709551615, None)))]), Ok(" t 18446744073709551615 []\n\x1b[1A"))]),
    // such a bar with two columns left, with one, and no bar with none
    Drawing((6, 24), &[(Show(&[("t", Some((3, None)))]), Ok(" t 3 [\n\x1b[1A"))]),
    Drawing((5, 24), &[(Show(&[("t", Some((3, None)))]), Ok(" t 3 \n\x1b[1A"))]),
    Drawing((4, 24), &[(Show(&[("t", Some((3, None)))]), Ok(" t 3\n\x1b[1A"))]),
];

#[test]
fn bars_without_a_bound(rt: HostRuntime) {
    assert_draws(&rt, rt.alloc(), UNBOUNDED)
}

/// Rows whose bars have at most 40 columns.
#[rattlefmt::skip]
const AT_MOST_FORTY: &[Drawing] = &[
    Drawing((100, 24), &[
        (Show(&[TASK]), Ok(" task 3/10 [==========>--------------------------]\n\x1b[1A")),
        (Show(&[("t", Some((3, None)))]), Ok(" t       3 [ ===   ===   ===   ===   ===   ===   ]\n\x1b[1A")),
    ]),
    Drawing((30, 24), &[(Show(&[TASK]), Ok(" task 3/10 [====>------------]\n\x1b[1A"))]),
];

/// Rows that have no bars, since three columns have no room for one.
#[rattlefmt::skip]
const AT_MOST_THREE: &[Drawing] = &[
    Drawing((40, 24), &[
        (Show(&[TASK]), Ok(" task 3/10\n\x1b[1A")),
        (Show(&[("t", Some((3, None)))]), Ok(" t       3\n\x1b[1A")),
    ]),
];

#[test]
fn bars_have_at_most_as_many_columns_as_the_options_say(rt: HostRuntime) {
    let forty = Options {
        bar_columns: Some(40),
        ..TERMINAL
    };
    assert_draws_with(&rt, rt.alloc(), forty, AT_MOST_FORTY);
    let three = Options {
        bar_columns: Some(3),
        ..TERMINAL
    };
    assert_draws_with(&rt, rt.alloc(), three, AT_MOST_THREE)
}

#[rattlefmt::skip]
const NARROWER: &[Drawing] = &[
    // two characters of two columns each, then a narrower line
    Drawing((40, 24), &[
        (Show(&[("日本", None)]), Ok(" 日本\n\x1b[1A")),
        (Show(&[("a", None)]), Ok(" a   \n\x1b[1A")),
    ]),
    // a row goes, and then the last one
    Drawing((40, 24), &[
        (Show(&[("a", None), ("b", None)]), Ok(" a\n b\n\x1b[2A")),
        (Show(&[("a", None)]), Ok(" a\n  \n\x1b[2A")),
        (Show(&[]), Ok("  \n\x1b[1A")),
    ]),
    // values are aligned to the greatest midpoint of the frame before
    Drawing((30, 24), &[
        (Show(&[("a", THREE_OF_TEN), ("long", TEN_OF_TEN)]), Ok(LONG_FRAME)),
        (Show(&[("a", FOUR_OF_TEN), ("long", TEN_OF_TEN)]), Ok(ALIGNED_FRAME)),
    ]),
];

#[test]
fn what_a_row_leaves_is_blanked(rt: HostRuntime) {
    assert_draws(&rt, rt.alloc(), NARROWER)
}

#[rattlefmt::skip]
const CLOSING: &[Drawing] = &[
    // a message takes the place of the row, which is drawn below it
    Drawing((40, 20), &[
        (Show(&[TASK]), Ok(TASK_FRAME)),
        (Print(&[("task", "one")], &[("task", FOUR_OF_TEN)]), Ok(MESSAGE_FRAME)),
    ]),
    // a closing frame with no row on screen, and inputs after it
    Drawing((40, 20), &[
        (Print(&[("test", "one")], &[]), Ok(" test one\n")),
        (Quit, Ok("\x1b[2K\r")),
        (Print(&[("test", "two")], &[TASK]), CLOSED),
        (Quit, CLOSED),
    ]),
    // closing frames erase the rows on screen, shown or hidden
    Drawing((40, 20), &[
        (Show(&[TASK, ("next", THREE_OF_TEN)]), Ok(NEXT_FRAME)),
        (Show(&[TASK]), Ok(NEXT_GONE_FRAME)),
        (Hide(&[TASK]), Ok("")),
        (Quit, Ok(TASK_CLOSED)),
        (Show(&[TASK]), CLOSED),
    ]),
    Drawing((40, 20), &[
        (Show(&[TASK]), Ok(TASK_FRAME)),
        (Rootless(false), Ok(TASK_CLOSED)),
        (Rootless(true), CLOSED),
    ]),
    Drawing((40, 20), &[(Show(&[TASK]), Ok(TASK_FRAME)), (Rootless(true), Ok(TASK_CLOSED))]),
];

#[test]
fn messages_and_closing_frames(rt: HostRuntime) {
    assert_draws(&rt, rt.alloc(), CLOSING)
}

/// Inputs, how many messages were seen after each, and why the renderer has ended.
#[rattlefmt::skip]
const SEEN: &[(Ask, u64, Option<Refusal>)] = &[
    (Print(&[("a", "one"), ("a", "two")], &[TASK]), 2, None),
    (Print(&[("a", "three")], &[]), 1, None),
    (Quit, 1, Some(Refusal::Closed)),
    (Show(&[TASK]), 1, Some(Refusal::Closed)),
];

/// A renderer has seen this many messages, if it has seen any, and has ended for this reason.
fn assert_saw(rt: &impl Abort, state: &State, seen: Option<u64>, ended: Option<Refusal>) {
    let want = match seen {
        Some(pushed) => Some(MessageCopyState::new(pushed)),
        None => None,
    };
    assert_same(rt, state.seen(), want, "seen");
    assert_same(rt, state.ended(), ended, "ended");
}

#[test]
fn says_what_it_saw_and_why_it_ended(rt: HostRuntime) {
    let mut screen = MemoryScreen::new(rt.alloc(), 200).expect(&rt, "memory");
    let mut state = renderer(rt.alloc(), (40, 20));
    assert_saw(&rt, &state, None, None);
    for (ask, seen, ended) in SEEN {
        let _ = draw(&rt, rt.alloc(), &mut screen, &mut state, *ask);
        assert_saw(&rt, &state, Some(*seen), *ended);
    }
    drop(state);
    drop(screen);
}

/// Inputs, and how many rows are spare after each: those of the tick before.
#[rattlefmt::skip]
const SPARE: &[(Ask, (usize, usize))] = &[
    (Show(&[TASK, ("next", None)]), (0, 0)),
    (Hide(&[TASK]), (2, 0)),
    (Print(&[("a", "one")], &[]), (1, 1)),
    (Quit, (0, 0)),
];

/// A renderer has this many spare rows and messages, which it gives.
fn assert_spare(rt: &impl Abort, alloc: Global, state: &mut State, counts: (usize, usize)) {
    let (rows, messages) = state.take_spare(alloc);
    assert_same(rt, rows.as_slice().len(), counts.0, "spare rows");
    assert_same(rt, messages.as_slice().len(), counts.1, "spare messages");
    drop(messages);
    drop(rows);
}

#[test]
fn rows_and_messages_that_it_needs_no_longer_are_spare(rt: HostRuntime) {
    let mut screen = MemoryScreen::new(rt.alloc(), 200).expect(&rt, "memory");
    let mut state = renderer(rt.alloc(), (40, 20));
    for (ask, counts) in SPARE {
        let _ = draw(&rt, rt.alloc(), &mut screen, &mut state, *ask);
        assert_spare(&rt, rt.alloc(), &mut state, *counts);
    }
    drop(state);
    drop(screen);
}
