use crate::fixtures::{TERMINAL, assert_same, cells};
use crate::transcripts::{options, run_line};
use prodash_core::tree::SessionOptions;
use prodash_line::render::line::draw::{MemoryScreen, Options};
use std::alloc::Global;
use std::process::Abort;

/// The same for an output that is no terminal.
const PLAIN: Options = Options {
    output_is_terminal: false,
    ..TERMINAL
};

/// The same of twenty columns, which its lines may be wider than.
const PLAIN_NARROW: Options = Options {
    terminal_dimensions: (20, 20),
    ..PLAIN
};

/// A renderer that closes once there is no task.
const STOPS: Options = Options {
    keep_running_if_progress_is_empty: false,
    ..TERMINAL
};

const STOPS_PLAIN: Options = Options {
    keep_running_if_progress_is_empty: false,
    ..PLAIN
};

/// A renderer that hides the cursor.
const HIDES: Options = Options {
    hide_cursor: true,
    ..TERMINAL
};

const HIDES_PLAIN: Options = Options {
    hide_cursor: true,
    ..PLAIN
};

const HIDES_AND_STOPS: Options = Options {
    hide_cursor: true,
    ..STOPS
};

/// Only rows of the second level, on 30 columns.
const SECOND: Options = Options {
    level_filter: Some((2, 2)),
    terminal_dimensions: (30, 20),
    ..TERMINAL
};

const FIRST_TWO: Options = Options {
    level_filter: Some((1, 2)),
    ..TERMINAL
};

const STOPS_RUNS: &str =
    r#"# a tick without tasks prints its messages and closes the renderer, shown or hidden
add 0 t; info 1 0 one; drop 1; tick 0 -> Ended
" t one\n\u{1b}[2K\r"

add 0 t; info 1 0 one; drop 1; hold 0 -> Ended
" t one\n\u{1b}[2K\r"

add 0 a; add 0 b; tick 0; info 1 0 x; drop 1; drop 2; hold 0 -> Ended
" a\n b\n\u{1b}[2A a x\n  \n\u{1b}[1A\u{1b}[2K\r"

hold 0; add 0 a; tick 0 -> Refused(Closed)
"\u{1b}[2K\r"

resize 0 40 4 -> Drawn
"""#;

const HIDES_AND_STOPS_RUNS: &str = r#"add 0 t; info 1 0 one; drop 1; tick 0 -> Ended
"\u{1b}[?25l t one\n\u{1b}[?25h\u{1b}[2K\r""#;

const STOPS_PLAIN_RUNS: &str = r#"add 0 t; info 1 0 one; drop 1; tick 0 -> Ended
" t one\n""#;

const TERMINAL_RUNS: &str = r#"add 0 t; info 1 0 one; drop 1; tick 0 -> Drawn
" t one\n"

# a resize draws the rows of the latest tick at the new size if it shows them
add 0 task; init 1 10 -; set 1 3; tick 0; resize 0 30 4 -> Drawn
" task 3/10 [=======>-------------------]\n\u{1b}[1A task 3/10 [====>------------]          \n"
"\u{1b}[1A"

add 0 task; init 1 10 -; set 1 3; tick 0; set 1 4; resize 0 30 4 -> Drawn
" task 3/10 [=======>-------------------]\n\u{1b}[1A task 3/10 [====>------------]          \n"
"\u{1b}[1A"

add 0 task; init 1 10 -; set 1 3; tick 0; hidden 30 4; tick 0 -> Drawn
" task 3/10 [=======>-------------------]\n\u{1b}[1A"

add 0 t; resize 0 30 4; tick 0 -> Drawn
" t\n\u{1b}[1A"

# and prints no message
add 0 t; tick 0; info 1 0 x; resize 0 30 4; tick 0 -> Drawn
" t\n\u{1b}[1A t\n\u{1b}[1A t x\n"

add 0 t; info 1 0 x; hold 0; resize 0 30 4 -> Drawn
" t x\n t\n\u{1b}[1A"

# as many origins count as the new size has rows
add 0 task; add 0 ab; info 1 0 x; hold 0; hidden 40 0; info 2 0 y; hold 0 -> Drawn
" task x\n ab y\n"

add 0 task; add 0 ab; info 1 0 x; hold 0; hidden 40 1; info 2 0 y; hold 0 -> Drawn
" task x\n   ab y\n"

quit 0; resize 0 30 4 -> Refused(Closed)
"\u{1b}[2K\r""#;

const PLAIN_RUNS: &str = r#"# without a terminal messages alone are written
add 0 t; info 1 0 one; tick 0 -> Drawn
" t one\n"

add 0 t; tick 0; info 1 0 one; tick 0; resize 0 30 4 -> Drawn
" t one\n"

add 0 t; tick 0; quit 0 -> Ended
""

droproot; tick 0 -> Ended
""

quit 0; resize 0 30 4 -> Refused(Closed)
"""#;

const PLAIN_NARROW_RUNS: &str =
    r#"add 0 task; info 1 0 a long message of many words; hold 0 -> Drawn
" task a long message of many words\n""#;

const HIDES_RUNS: &str =
    r#"# the first frame hides the cursor, whatever it draws, and the closing one shows it
hold 0 -> Drawn
"\u{1b}[?25l"

add 0 t -> Made(1)
""

hold 0; tick 0 -> Drawn
"\u{1b}[?25l"

add 0 t; tick 0; quit 0 -> Ended
"\u{1b}[?25l t\n\u{1b}[1A  \n\u{1b}[1A\u{1b}[?25h\u{1b}[2K\r"

add 0 t; info 1 0 x; hold 0 -> Drawn
"\u{1b}[?25l t x\n"

quit 0 -> Ended
"\u{1b}[?25l\u{1b}[?25h\u{1b}[2K\r"

droproot; hold 0 -> Ended
"\u{1b}[?25l\u{1b}[?25h\u{1b}[2K\r"

hidden 30 4; hold 0 -> Drawn
"\u{1b}[?25l"

resize 0 30 4; quit 0 -> Ended
"\u{1b}[?25l\u{1b}[?25h\u{1b}[2K\r""#;

const HIDES_PLAIN_RUNS: &str = r#"hold 0; quit 0 -> Ended
"""#;

const SECOND_RUNS: &str =
    r#"# rows whose level is not in the filter are not drawn, and change no midpoint
add 0 a; add 1 b; tick 0 -> Drawn
"  b\n\u{1b}[1A"

add 0 a; tick 0 -> Drawn
""

add 0 a; add 1 b; add 0 c; tick 0; drop 2; tick 0 -> Drawn
"  b\n\u{1b}[1A   \n\u{1b}[1A"

add 0 a; add 1 b; tick 0; drop 1; tick 0 -> Drawn
"  b\n\u{1b}[1A  b\n\u{1b}[1A"

add 0 longer; init 1 9 -; add 1 b; init 2 10 -; set 2 3; tick 0; set 2 4; tick 0 -> Drawn
"  b 3/10 [=====>-------------]\n\u{1b}[1A  b 4/10 [=======>-----------]\n\u{1b}[1A""#;

const FIRST_TWO_RUNS: &str = r#"add 0 a; add 1 b; add 2 c; tick 0 -> Drawn
" a\n  b\n\u{1b}[2A""#;

/// Asserts that runs with these options reply and draw as their lines say. An empty line separates
/// two runs. A line with `#` above a run says what it and those after it show.
pub(crate) fn assert_runs(rt: &impl Abort, alloc: Global, draw: Options, runs: &str) {
    let options = SessionOptions {
        draw,
        ..options(20)
    };
    for run in runs.split("\n\n") {
        assert_run(rt, alloc, &options, without_comment(run));
    }
}

/// Returns the lines of a run after its comment, if it has one.
fn without_comment(run: &str) -> &str {
    match run.split_once('\n') {
        Some((comment, rest)) if comment.starts_with('#') => rest,
        _ => run,
    }
}

/// Asserts that a run replies and draws as its lines say. The first line has its events, with `; `
/// between two of them, ` -> `, and the reply to the last of them. The others have the bytes of its
/// frames as string literals.
fn assert_run(rt: &impl Abort, alloc: Global, options: &SessionOptions, run: &str) {
    let (asked, _) = cells(rt, run);
    let got = line_of_run(rt, alloc, options, asked);
    let want = run.replace(alloc, "\"\n\"", "").expect(rt, "memory");
    assert_same(rt, got.as_str(), want.as_str(), "run");
}

/// Runs the events of a line, and returns what a run with this line should say.
fn line_of_run(rt: &impl Abort, alloc: Global, options: &SessionOptions, asked: &str) -> String {
    let mut screen = MemoryScreen::new(alloc, 0).expect(rt, "memory");
    let replies = run_line(rt, alloc, options, asked, &mut screen);
    let last = replies.last().expect(rt, "a reply");
    let bytes = str::from_utf8(screen.bytes()).expect(rt, "UTF-8");
    format!(in alloc; "{asked} -> {last:?}\n{bytes:?}").expect(rt, "memory")
}

const RUNS: &[(Options, &str)] = &[
    (STOPS, STOPS_RUNS),
    (HIDES_AND_STOPS, HIDES_AND_STOPS_RUNS),
    (STOPS_PLAIN, STOPS_PLAIN_RUNS),
    (TERMINAL, TERMINAL_RUNS),
    (PLAIN, PLAIN_RUNS),
    (PLAIN_NARROW, PLAIN_NARROW_RUNS),
    (HIDES, HIDES_RUNS),
    (HIDES_PLAIN, HIDES_PLAIN_RUNS),
    (SECOND, SECOND_RUNS),
    (FIRST_TWO, FIRST_TWO_RUNS),
];

#[test]
fn options_have_exact_bytes(rt: HostRuntime) {
    for (draw, runs) in RUNS {
        assert_runs(&rt, rt.alloc(), *draw, runs);
    }
}
