//! Which rows are drawn of more than a window has room for, worked by hand.
use crate::drawings::draw_input;
use crate::fixtures::{Progress, ShortRow, TERMINAL, assert_same, messages, rows};
use prodash_base::messages::MessageCopyState;
use prodash_base::progress::{Rows, State};
use prodash_line::render::line::draw::{self, Answer, Input, MemoryScreen, Options};
use std::alloc::Global;
use std::process::Abort;

/// Defensive frames without bars in which rows of running tasks are preferred.
const OPTIONS: Options = Options {
    defensive: true,
    bar_columns: Some(0),
    prefer_running: true,
    ..TERMINAL
};

/// A step before the first one, one that isn't the last, and the last one.
const WAITS: Progress = Some((0, Some(3)));

const RUNS: Progress = Some((1, Some(3)));

const FINISHED: Progress = Some((3, Some(3)));

/// A group of a finished task, a waiting and a running one, a waiting group, and a running task.
const SOME: &[ShortRow] = &[
    (&[0], "a", None),
    (&[0, 0], "b", FINISHED),
    (&[0, 1], "c", WAITS),
    (&[0, 2], "d", RUNS),
    (&[1], "e", None),
    (&[1, 0], "f", FINISHED),
    (&[2], "g", RUNS),
];

/// A tick that shows rows.
fn tick(rt: &impl Abort, alloc: Global, rows: Rows) -> Input {
    let messages = messages(alloc, &[]).expect(rt, "memory");
    Input::Tick {
        at: 0,
        show: true,
        seen: Some((rows, messages, MessageCopyState::new(0))),
    }
}

/// A new renderer with these options draws these bytes of rows.
fn assert_drawn(rt: &impl Abort, alloc: Global, options: Options, rows: Rows, want: &str) {
    let mut state = draw::State::new(alloc, options, false);
    let mut screen = MemoryScreen::new(alloc, 400).expect(rt, "memory");
    let answer = draw_input(alloc, &mut screen, &mut state, tick(rt, alloc, rows));
    assert_same(rt, answer, Ok(Answer::Drawn), want);
    assert_same(rt, screen.bytes(), want.as_bytes(), want);
    drop((screen, state));
}

/// The rows of a window, and what is drawn of `SOME` there.
#[rattlefmt::skip]
const WINDOWS: &[(u16, &str)] = &[
    (1, "\r\x1b[?7l\x1b[J\x1b[?7h"),
    (2, "\r\x1b[?7l\x1b[2K … and 7 more\n\x1b[J\x1b[1A\x1b[?7h"),
    (3, "\r\x1b[?7l\x1b[2K  d 1/3\n\x1b[2K … and 6 more\n\x1b[J\x1b[2A\x1b[?7h"),
    (4, "\r\x1b[?7l\x1b[2K  d 1/3\n\x1b[2K g 1/3\n\x1b[2K … and 5 more\n\x1b[J\x1b[3A\x1b[?7h"),
    // the row above a running one follows, then those that wait, and the finished ones are last
    (5, "\r\x1b[?7l\x1b[2K a\n\x1b[2K  d 1/3\n\x1b[2K g 1/3\n\x1b[2K … and 4 more\n\x1b[J\x1b[4A\x1b[?7h"),
    (6, "\r\x1b[?7l\x1b[2K a\n\x1b[2K  c 0/3\n\x1b[2K  d 1/3\n\x1b[2K g 1/3\n\x1b[2K … and 3 more\n\x1b[J\x1b[5A\x1b[?7h"),
    (7, "\r\x1b[?7l\x1b[2K a\n\x1b[2K  c 0/3\n\x1b[2K  d 1/3\n\x1b[2K e\n\x1b[2K g 1/3\n\x1b[2K … and 2 more\n\x1b[J\x1b[6A\x1b[?7h"),
    // all fit
    (8, "\r\x1b[?7l\x1b[2K a\n\x1b[2K  b 3/3\n\x1b[2K  c 0/3\n\x1b[2K  d 1/3\n\x1b[2K e\n\x1b[2K  f 3/3\n\x1b[2K g 1/3\n\x1b[J\x1b[7A\x1b[?7h"),
];

#[test]
fn running_tasks_come_before_others(rt: HostRuntime) {
    let alloc = rt.alloc();
    for (height, want) in WINDOWS {
        let options = Options {
            terminal_dimensions: (40, *height),
            ..OPTIONS
        };
        let rows = rows(alloc, SOME).expect(&rt, "memory");
        assert_drawn(&rt, alloc, options, rows, want);
    }
}

#[test]
fn the_filter_of_levels_comes_first(rt: HostRuntime) {
    let alloc = rt.alloc();
    let options = Options {
        terminal_dimensions: (40, 3),
        level_filter: Some((1, 1)),
        ..OPTIONS
    };
    let rows = rows(alloc, SOME).expect(&rt, "memory");
    // `a` is above no row that is drawn
    let want = "\r\x1b[?7l\x1b[2K g 1/3\n\x1b[2K … and 2 more\n\x1b[J\x1b[2A\x1b[?7h";
    assert_drawn(&rt, alloc, options, rows, want);
}

#[test]
fn without_the_option_the_first_rows_are_drawn(rt: HostRuntime) {
    let alloc = rt.alloc();
    let options = Options {
        terminal_dimensions: (40, 4),
        prefer_running: false,
        ..OPTIONS
    };
    let rows = rows(alloc, SOME).expect(&rt, "memory");
    let want = "\r\x1b[?7l\x1b[2K a\n\x1b[2K  b 3/3\n\x1b[2K … and 5 more\n\x1b[J\x1b[3A\x1b[?7h";
    assert_drawn(&rt, alloc, options, rows, want);
}

#[test]
fn frames_that_erase_no_rows_draw_all(rt: HostRuntime) {
    let alloc = rt.alloc();
    let options = Options {
        terminal_dimensions: (40, 3),
        defensive: false,
        ..OPTIONS
    };
    let some: &[ShortRow] = &[(&[0], "a", FINISHED), (&[1], "b", WAITS), (&[2], "c", RUNS)];
    let rows = rows(alloc, some).expect(&rt, "memory");
    assert_drawn(&rt, alloc, options, rows, " a 3/3\n b 0/3\n c 1/3\n\x1b[3A");
}

#[test]
fn halted_and_blocked_tasks_wait(rt: HostRuntime) {
    let alloc = rt.alloc();
    for state in [State::Halted("", None), State::Blocked("", None)] {
        let options = Options {
            terminal_dimensions: (40, 3),
            ..OPTIONS
        };
        let some: &[ShortRow] = &[
            (&[0], "a", FINISHED),
            (&[1], "b", RUNS),
            (&[2], "c", RUNS),
            (&[3], "d", WAITS),
        ];
        let mut some = rows(alloc, some).expect(&rt, "memory").into_vec();
        for row in some.iter_mut().skip(1).take(1) {
            if let Some(value) = row.progress.as_mut() {
                value.state = state;
            }
        }
        let want = "\r\x1b[?7l\x1b[2K c 1/3\n\x1b[2K … and 3 more\n\x1b[J\x1b[2A\x1b[?7h";
        assert_drawn(&rt, alloc, options, Rows::new(some), want);
    }
}
