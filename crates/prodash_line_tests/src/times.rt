//! Rows with times: frames of one task, worked by hand.
use crate::drawings::draw_input;
use crate::fixtures::{TERMINAL, assert_same, key_at, messages, row};
use prodash_base::messages::MessageCopyState;
use prodash_base::progress::{Row, Rows, State, Value};
use prodash_base::unit::{Unit, label};
use prodash_line::render::line::draw::{self, Answer, Input, MemoryScreen, Options};
use std::alloc::Global;
use std::process::Abort;

/// A tick: its milliseconds, the step of the task `t` and its bound, and the bytes that it writes.
type Tick = (u64, u64, Option<u64>, &'static str);

/// Rows with times and without bars, on 60 columns.
const OPTIONS: Options = Options {
    terminal_dimensions: (60, 20),
    bar_columns: Some(0),
    times: true,
    ..TERMINAL
};

/// The row of a task `t`.
fn task(
    rt: &impl Abort,
    alloc: Global,
    step: u64,
    done_at: Option<u64>,
    unit: Option<Unit>,
    state: State,
) -> Row {
    let mut row = row(alloc, key_at(&[0]), "t", None).expect(rt, "memory");
    row.progress = Some(Value {
        step,
        done_at,
        unit,
        state,
    });
    row
}

/// A tick that has seen these rows and no messages.
fn tick(rt: &impl Abort, alloc: Global, milliseconds: u64, show: bool, rows: Vec<Row>) -> Input {
    Input::Tick {
        at: milliseconds.saturating_mul(1_000_000),
        show,
        seen: Some((
            Rows::new(rows),
            messages(alloc, &[]).expect(rt, "memory"),
            MessageCopyState::new(0),
        )),
    }
}

/// The renderer draws these bytes.
fn assert_input(rt: &impl Abort, alloc: Global, state: &mut draw::State, input: Input, want: &str) {
    let mut screen = MemoryScreen::new(alloc, 400).expect(rt, "memory");
    let answer = draw_input(alloc, &mut screen, state, input);
    assert_same(rt, answer, Ok(Answer::Drawn), want);
    assert_same(rt, screen.bytes(), want.as_bytes(), want);
    drop(screen);
}

/// Ticks that see one row.
fn assert_row(
    rt: &impl Abort,
    alloc: Global,
    state: &mut draw::State,
    milliseconds: u64,
    row: Row,
    want: &str,
) {
    let mut rows = Vec::new(alloc);
    rows.push(row).expect(rt, "memory");
    let input = tick(rt, alloc, milliseconds, true, rows);
    assert_input(rt, alloc, state, input, want);
}

/// Each tick of a renderer with these options writes its bytes.
fn assert_ticks(rt: &impl Abort, alloc: Global, options: Options, ticks: &[Tick]) {
    let mut state = draw::State::new(alloc, options, false);
    for (milliseconds, step, bound, want) in ticks {
        let row = task(rt, alloc, *step, *bound, None, State::Running);
        assert_row(rt, alloc, &mut state, *milliseconds, row, want);
    }
    drop(state);
}

const HUNDRED: Option<u64> = Some(100);

#[rattlefmt::skip]
const STEADY: &[Tick] = &[
    // the first tick: nothing is known of the rest
    (7_000_000, 0, HUNDRED, " t 0/100 0s\n\x1b[1A"),
    (7_001_000, 2, HUNDRED, " t 2/100 1s, 49s left\n\x1b[1A"),
    (7_002_000, 4, HUNDRED, " t 4/100 2s, 48s left\n\x1b[1A"),
    (7_003_000, 6, HUNDRED, " t 6/100 3s, 47s left\n\x1b[1A"),
    (7_004_000, 8, HUNDRED, " t 8/100 4s, 46s left\n\x1b[1A"),
    // 10 of 100 after 5 seconds
    (7_005_000, 10, HUNDRED, " t 10/100 5s, 45s left\n\x1b[1A"),
    // the task stalls: after ten seconds the row says so, and what remains grows
    (7_014_999, 10, HUNDRED, " t 10/100 14s, 2m15s left\n\x1b[1A"),
    (7_015_000, 10, HUNDRED, " t 10/100 15s, 2m15s left, no step for 10s\n\x1b[1A"),
    (7_017_000, 10, HUNDRED, " t 10/100 17s, 2m33s left, no step for 12s\n\x1b[1A"),
    // a bound that shrinks below the step: the task has finished, and its time stays
    (7_018_000, 10, Some(5), " t   10/5 in 18s                          \n\x1b[1A"),
    (7_019_000, 10, Some(5), ""),
    // a bound that grows again: the task goes on, since it began
    (7_020_000, 11, HUNDRED, " t 11/100 20s, 2m42s left\n\x1b[1A"),
    // a step that falls: the task begins anew
    (7_021_000, 3, HUNDRED, " t  3/100 0s             \n\x1b[1A"),
    (7_022_000, 3, HUNDRED, " t 3/100 1s \n\x1b[1A"),
    (7_023_000, 100, HUNDRED, " t 100/100 in 2s\n\x1b[1A"),
    (7_024_000, 101, HUNDRED, " t 101/100 in 2s\n\x1b[1A"),
];

#[test]
fn times_of_a_task(rt: HostRuntime) {
    assert_ticks(&rt, rt.alloc(), OPTIONS, STEADY)
}

#[rattlefmt::skip]
const UNKNOWN_BOUND: &[Tick] = &[
    // nothing remains without a bound
    (0, 0, None, " t 0 0s\n\x1b[1A"),
    (1_500, 10, Some(1_000), " t 10/1000 1s, 2m29s left\n\x1b[1A"),
    (3_000, 20, Some(1_000), " t 20/1000 3s, 2m27s left\n\x1b[1A"),
];

#[test]
fn a_bound_may_become_known(rt: HostRuntime) {
    assert_ticks(&rt, rt.alloc(), OPTIONS, UNKNOWN_BOUND)
}

#[test]
fn what_remains_is_by_the_last_sixteen_marks(rt: HostRuntime) {
    let alloc = rt.alloc();
    let mut state = draw::State::new(alloc, OPTIONS, false);
    for n in 0..20_u64 {
        // no step in the first ten seconds, then one at each tick, each of which is a mark
        let step = n.saturating_sub(5);
        let row = task(&rt, alloc, step, Some(1_000), None, State::Running);
        let mut rows = Vec::new(alloc);
        rows.push(row).expect(&rt, "memory");
        let input = tick(&rt, alloc, 2_000 * n, false, rows);
        assert_input(&rt, alloc, &mut state, input, "");
    }
    // 15 steps in the last 30 seconds
    let row = task(&rt, alloc, 15, Some(1_000), None, State::Running);
    let want = " t 15/1000 40s, 32m50s left\n\x1b[1A";
    assert_row(&rt, alloc, &mut state, 40_000, row, want);
    drop(state);
}

#[rattlefmt::skip]
const GREATEST: &[Tick] = &[
    (0, 0, Some(u64::MAX), " t 0/18446744073709551615 0s\n\x1b[1A"),
    (1_000, 1, Some(u64::MAX), " t 1/18446744073709551615 1s, 99d00h left\n\x1b[1A"),
    (2_000, u64::MAX, Some(u64::MAX), " t 18446744073709551615/18446744073709551615 in 2s\n\x1b[1A"),
    (3_000, u64::MAX, None, " t                      18446744073709551615 3s   \n\x1b[1A"),
];

#[test]
fn times_of_the_greatest_steps(rt: HostRuntime) {
    assert_ticks(&rt, rt.alloc(), OPTIONS, GREATEST)
}

#[rattlefmt::skip]
const CLOCK_BACK: &[Tick] = &[
    (10_000, 0, HUNDRED, " t 0/100 0s\n\x1b[1A"),
    (13_000, 1, HUNDRED, " t 1/100 3s, 4m57s left\n\x1b[1A"),
    // the clock is set back: nothing is added, and from there it goes on
    (4_000, 2, HUNDRED, " t 2/100 3s, 2m27s left\n\x1b[1A"),
    (5_000, 2, HUNDRED, " t 2/100 4s, 3m16s left\n\x1b[1A"),
];

#[test]
fn a_clock_that_goes_back_adds_nothing(rt: HostRuntime) {
    assert_ticks(&rt, rt.alloc(), OPTIONS, CLOCK_BACK)
}

/// The widths of terminals, and what a row that stalls writes there.
#[rattlefmt::skip]
const WIDTHS: &[(u16, &str)] = &[
    (60, " t 10/100 22s, 3m18s left, no step for 12s [=>-------------]\n\x1b[1A"),
    (48, " t 10/100 22s, 3m18s left, no step for 12s [>--]\n\x1b[1A"),
    // the bar gives way first
    (46, " t 10/100 22s, 3m18s left, no step for 12s [>]\n\x1b[1A"),
    (42, " t 10/100 22s, 3m18s left, no step for 12s\n\x1b[1A"),
    // then what remains
    (41, " t 10/100 22s, no step for 12s [>-------]\n\x1b[1A"),
    (40, " t 10/100 22s, no step for 12s [>------]\n\x1b[1A"),
    (30, " t 10/100 22s, no step for 12s\n\x1b[1A"),
    // then the stall
    (29, " t 10/100 22s [=>-----------]\n\x1b[1A"),
    (20, " t 10/100 22s [>---]\n\x1b[1A"),
    (13, " t 10/100 22s\n\x1b[1A"),
    // then all of it
    (12, " t 10/100 [>\n\x1b[1A"),
    (5, " t 10\n\x1b[1A"),
    (0, "\n\x1b[1A"),
];

#[test]
fn times_give_way_after_bars(rt: HostRuntime) {
    let alloc = rt.alloc();
    for (width, want) in WIDTHS {
        let options = Options {
            terminal_dimensions: (*width, 20),
            bar_columns: None,
            ..OPTIONS
        };
        let mut state = draw::State::new(alloc, options, false);
        for (milliseconds, step) in [(0, 0), (10_000, 10)] {
            let row = task(&rt, alloc, step, HUNDRED, None, State::Running);
            let mut rows = Vec::new(alloc);
            rows.push(row).expect(&rt, "memory");
            let input = tick(&rt, alloc, milliseconds, false, rows);
            assert_input(&rt, alloc, &mut state, input, "");
        }
        let row = task(&rt, alloc, 10, HUNDRED, None, State::Running);
        assert_row(&rt, alloc, &mut state, 22_000, row, want);
        drop(state);
    }
}

#[test]
fn times_in_other_states(rt: HostRuntime) {
    let alloc = rt.alloc();
    let mut state = draw::State::new(alloc, OPTIONS, false);
    let files = Some(label("files"));
    let halted = State::Halted("waits", None);
    let blocked = State::Blocked("waits", None);
    let begun = task(&rt, alloc, 0, HUNDRED, files, State::Running);
    assert_row(
        &rt,
        alloc,
        &mut state,
        0,
        begun,
        " t 0/100 files 0s\n\x1b[1A",
    );
    let waits = task(&rt, alloc, 5, HUNDRED, files, halted);
    assert_row(
        &rt,
        alloc,
        &mut state,
        5_000,
        waits,
        " t 5/100 files 5s\n\x1b[1A",
    );
    let waits = task(&rt, alloc, 5, HUNDRED, files, blocked);
    assert_row(
        &rt,
        alloc,
        &mut state,
        70_000,
        waits,
        " t 5/100 files 1m10s\n\x1b[1A",
    );
    let ended = task(&rt, alloc, 100, HUNDRED, files, blocked);
    assert_row(
        &rt,
        alloc,
        &mut state,
        71_000,
        ended,
        " t 100/100 files in 1m11s\n\x1b[1A",
    );
    // another unit: the task begins anew
    let other = task(
        &rt,
        alloc,
        100,
        HUNDRED,
        Some(label("lines")),
        State::Running,
    );
    assert_row(
        &rt,
        alloc,
        &mut state,
        72_000,
        other,
        " t 100/100 lines in 0s   \n\x1b[1A",
    );
    drop(state);
}

#[test]
fn a_task_that_is_gone_is_forgotten(rt: HostRuntime) {
    let alloc = rt.alloc();
    let mut state = draw::State::new(alloc, OPTIONS, false);
    let seen = task(&rt, alloc, 1, None, None, State::Running);
    assert_row(&rt, alloc, &mut state, 0, seen, " t 1 0s\n\x1b[1A");
    let without = row(alloc, key_at(&[0]), "t", None).expect(&rt, "memory");
    assert_row(&rt, alloc, &mut state, 1_000, without, " t     \n\x1b[1A");
    // without progress no time goes on
    let without = row(alloc, key_at(&[0]), "t", None).expect(&rt, "memory");
    assert_row(&rt, alloc, &mut state, 2_000, without, "");
    let again = task(&rt, alloc, 1, None, None, State::Running);
    assert_row(&rt, alloc, &mut state, 3_000, again, " t 1 0s\n\x1b[1A");
    // a resize shows the time at its moment, and adds nothing to it
    let resize = |milliseconds: u64| Input::Resize {
        at: milliseconds.saturating_mul(1_000_000),
        show: true,
        columns: 60,
        rows: 20,
    };
    assert_input(&rt, alloc, &mut state, resize(5_000), " t 1 2s\n\x1b[1A");
    let again = task(&rt, alloc, 1, None, None, State::Running);
    assert_row(&rt, alloc, &mut state, 6_000, again, " t 1 3s\n\x1b[1A");
    drop(state);
}
