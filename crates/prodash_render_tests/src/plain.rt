//! Plain lines of rows that are seen and dropped.
use crate::fixtures::{Host, assert_same};
use prodash::progress::Row;
use prodash::render::plain::Plain;
use prodash::time::Moment;
use prodash_fixtures::{ShortRow, key_at, row};
use std::alloc::Global;
use std::process::Abort;

/// What happens to the rows of a log.
#[derive(Clone, Copy, Debug, PartialEq, Eq)]
enum What {
    Seen,
    Renamed,
    Dropped,
}

use What::{Dropped, Renamed, Seen};

/// A second in nanoseconds.
const SECOND: Moment = 1_000_000_000;

/// The seconds since the log began, what happens to a row, and its line; empty if it has none.
const LINES: &[(u64, What, ShortRow, &str)] = &[
    (0, Seen, (&[0], "build", None), "[00:00] build started"),
    (6, Seen, (&[0, 0], "app", None), "[00:06] build/app started"),
    (6, Seen, (&[0], "build", None), ""),
    (
        42,
        Seen,
        (&[0, 0], "app", Some((3, Some(4)))),
        "[00:42] build/app 3/4 75%, 12s left",
    ),
    (72, Seen, (&[0, 0], "app", Some((3, Some(4)))), ""),
    (
        75,
        Seen,
        (&[0, 0], "app", Some((4, Some(4)))),
        "[01:15] build/app 4/4 100%, done in 1m09s",
    ),
    (80, Dropped, (&[0, 0], "app", Some((4, Some(4)))), ""),
    (
        90,
        Seen,
        (&[1], "de\u{7}ploy", None),
        "[01:30] de\u{FFFD}ploy started",
    ),
    (
        3723,
        Dropped,
        (&[1], "deploy", Some((4, Some(10)))),
        "[1:02:03] deploy 4/10 40%, stopped after 1h00m",
    ),
    (
        3723,
        Seen,
        (&[0, 1], "lib", None),
        "[1:02:03] build/lib started",
    ),
    (3723, Renamed, (&[0], "make", Some((1, Some(2)))), ""),
    (3723, Renamed, (&[2], "unknown", None), ""),
    (
        3723,
        Seen,
        (&[0, 1], "lib", Some((1, Some(2)))),
        "[1:02:03] make/lib 1/2 50%, 0s left",
    ),
    (
        3724,
        Dropped,
        (&[0], "make", None),
        "[1:02:04] make ended after 1h02m",
    ),
    (
        3725,
        Dropped,
        (&[0, 1], "lib", None),
        "[1:02:05] make/lib ended after 2.0s",
    ),
    (3725, Dropped, (&[0], "make", None), ""),
];

/// Tells a log of a row at a moment, and returns the line, or an empty text.
fn line_of(
    rt: &impl Abort,
    alloc: Global,
    log: &mut Plain,
    what: What,
    row: &Row,
    now: Moment,
) -> String {
    let line = match what {
        Seen => log.observe(alloc, row, now),
        Renamed => match log.rename(alloc, row) {
            Ok(()) => Ok(None),
            Err(refusal) => Err(refusal),
        },
        Dropped => log.end(alloc, row, now),
    };
    match line.expect(rt, "no refusal") {
        Some(line) => line,
        None => String::new(alloc),
    }
}

fn assert_lines<R: Host>(rt: &R, alloc: Global) {
    let began = 7 * SECOND;
    let mut log = Plain::new(alloc, began);
    for (seconds, what, short, want) in LINES {
        let (numbers, name, progress) = short;
        let row = row(alloc, key_at(numbers), name, *progress).expect(rt, "memory");
        let now = began.saturating_add(seconds.saturating_mul(SECOND));
        let line = line_of(rt, alloc, &mut log, *what, &row, now);
        assert_same(rt, line.as_str(), *want, *seconds);
    }
}

#[test]
fn each_row_has_its_lines(rt: HostRuntime) {
    assert_lines(&rt, rt.alloc());
}
