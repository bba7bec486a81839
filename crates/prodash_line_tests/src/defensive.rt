//! Frames that erase the rows that they write on.
use crate::drawings::Ask::{Hide, Measure, Print, PrintHidden, Quit, Resize, Show};
use crate::drawings::{Ask, Drawing, Task, assert_draws, assert_draws_with, draw};
use crate::fixtures::{Progress, TERMINAL, assert_same};
use prodash_base::unit::Kind;
use prodash_line::render::line::draw::{MemoryScreen, Options, State};
use std::alloc::Global;
use std::process::Abort;

const DEFENSIVE: Options = Options {
    defensive: true,
    ..TERMINAL
};

const THREE_OF_TEN: Progress = Some((3, Some(10)));

const TASK: Task = ("task", THREE_OF_TEN);

/// Three tasks without progress, and five.
const THREE: &[Task] = &[("a", None), ("b", None), ("c", None)];

const FIVE: &[Task] = &[
    ("a", None),
    ("b", None),
    ("c", None),
    ("d", None),
    ("e", None),
];

/// `task` at 3 of 10.
const TASK_FRAME: &str =
    "\r\x1b[?7l\x1b[2K task 3/10 [=======>-------------------]\n\x1b[J\x1b[1A\x1b[?7h";

/// The message `one` of `task`, and `task` at 3 of 10.
const MESSAGE_FRAME: &str = "\r\x1b[?7l\x1b[2K task one
\x1b[2K task 3/10 [=======>-------------------]\n\x1b[J\x1b[1A\x1b[?7h";

/// The three tasks.
const THREE_FRAME: &str = "\r\x1b[?7l\x1b[2K a\n\x1b[2K b\n\x1b[2K c\n\x1b[J\x1b[3A\x1b[?7h";

#[rattlefmt::skip]
const FRAMES: &[Drawing] = &[
    // rows are drawn if they have changed, and again with or after messages
    Drawing((40, 20), &[
        (Show(&[TASK]), Ok(TASK_FRAME)),
        (Show(&[TASK]), Ok("")),
        (Print(&[("task", "one")], &[TASK]), Ok(MESSAGE_FRAME)),
        (PrintHidden(&[("task", "two")], &[TASK]), Ok("\r\x1b[?7l\x1b[2K task two\n\x1b[J\x1b[?7h")),
        (Hide(&[TASK]), Ok("")),
        (Show(&[TASK]), Ok(TASK_FRAME)),
        (Quit, Ok("\r\x1b[?7l\x1b[2K\n\x1b[J\x1b[1A\x1b[?7h")),
    ]),
    // rows that were hidden are drawn once they change
    Drawing((40, 20), &[(Hide(&[TASK]), Ok("")), (Show(&[TASK]), Ok("")), (Show(&[]), Ok("\r\x1b[?7l\x1b[J\x1b[?7h"))]),
    // rows that go are erased
    Drawing((40, 24), &[
        (Show(&[("a", None), ("b", None)]), Ok("\r\x1b[?7l\x1b[2K a\n\x1b[2K b\n\x1b[J\x1b[2A\x1b[?7h")),
        (Show(&[("a", None)]), Ok("\r\x1b[?7l\x1b[2K a\n\x1b[2K\n\x1b[J\x1b[2A\x1b[?7h")),
        (Show(&[]), Ok("\r\x1b[?7l\x1b[2K\n\x1b[J\x1b[1A\x1b[?7h")),
    ]),
    // messages are over rows, of which the others are erased
    Drawing((40, 24), &[
        (Show(THREE), Ok(THREE_FRAME)),
        (PrintHidden(&[("a", "one")], &[]), Ok("\r\x1b[?7l\x1b[2K a one\n\x1b[2K\n\x1b[2K\n\x1b[J\x1b[2A\x1b[?7h")),
    ]),
    // as many rows as fit above the last row of the window, and a line that counts the others
    Drawing((40, 4), &[(Show(THREE), Ok(THREE_FRAME))]),
    Drawing((40, 4), &[(Show(FIVE), Ok("\r\x1b[?7l\x1b[2K a\n\x1b[2K b\n\x1b[2K … and 3 more\n\x1b[J\x1b[3A\x1b[?7h"))]),
    Drawing((40, 2), &[(Show(FIVE), Ok("\r\x1b[?7l\x1b[2K … and 5 more\n\x1b[J\x1b[1A\x1b[?7h"))]),
    Drawing((40, 1), &[(Show(FIVE), Ok("\r\x1b[?7l\x1b[J\x1b[?7h"))]),
    Drawing((8, 3), &[(Show(FIVE), Ok("\r\x1b[?7l\x1b[2K a\n\x1b[2K … and 4\n\x1b[J\x1b[2A\x1b[?7h"))]),
    // no more rows are erased than the window has above its last one
    Drawing((40, 4), &[
        (Show(THREE), Ok(THREE_FRAME)),
        (Resize(40, 2), Ok("\r\x1b[?7l\x1b[2K … and 3 more\n\x1b[J\x1b[1A\x1b[?7h")),
        (Quit, Ok("\r\x1b[?7l\x1b[2K\n\x1b[J\x1b[1A\x1b[?7h")),
    ]),
];

/// Frames in ASCII. Texts are as they are.
#[rattlefmt::skip]
const ASCII: &[Drawing] = &[
    Drawing((40, 3), &[
        (Show(FIVE), Ok("\r\x1b[?7l\x1b[2K a\n\x1b[2K ... and 4 more\n\x1b[J\x1b[2A\x1b[?7h")),
        (PrintHidden(&[("é", "…")], &[]), Ok("\r\x1b[?7l\x1b[2K é …\n\x1b[2K\n\x1b[J\x1b[1A\x1b[?7h")),
    ]),
];

/// Frames that hide the cursor.
#[rattlefmt::skip]
const HIDING: &[Drawing] = &[
    Drawing((40, 20), &[
        (Hide(&[]), Ok("\x1b[?25l")),
        (Show(&[("a", None)]), Ok("\r\x1b[?7l\x1b[2K a\n\x1b[J\x1b[1A\x1b[?7h")),
        (Quit, Ok("\r\x1b[?7l\x1b[2K\n\x1b[J\x1b[1A\x1b[?25h\x1b[?7h")),
    ]),
    Drawing((40, 20), &[(Quit, Ok("\x1b[?25l\r\x1b[?7l\x1b[J\x1b[?25h\x1b[?7h"))]),
];

/// Frames on an output that isn't a terminal.
#[rattlefmt::skip]
const PLAIN: &[Drawing] = &[
    Drawing((40, 20), &[
        (Show(&[TASK]), Ok("")),
        (Print(&[("task", "one")], &[TASK]), Ok(" task one\n")),
        (Print(&[("\ttask", "\x1b[2J\u{85}")], &[TASK]), Ok(" \u{FFFD}task \u{FFFD}[2J\u{FFFD}\n")),
        (Quit, Ok("")),
    ]),
];

/// A task whose name clears a terminal.
const CLEARING: Task = ("a\x1b[2J", None);

/// Frames of texts that have unsafe characters.
#[rattlefmt::skip]
const UNSAFE: &[Drawing] = &[
    // names, origins, messages and units
    Drawing((40, 20), &[
        (Show(&[CLEARING]), Ok("\r\x1b[?7l\x1b[2K a\u{FFFD}[2J\n\x1b[J\x1b[1A\x1b[?7h")),
        (Show(&[CLEARING]), Ok("")),
        (Show(&[("\t\u{7f}\u{85}", None)]), Ok("\r\x1b[?7l\x1b[2K \u{FFFD}\u{FFFD}\u{FFFD}\n\x1b[J\x1b[1A\x1b[?7h")),
        (PrintHidden(&[("\ta", "\x1b[2J\u{85}")], &[]), Ok("\r\x1b[?7l\x1b[2K \u{FFFD}a \u{FFFD}[2J\u{FFFD}\n\x1b[J\x1b[?7h")),
    ]),
    Drawing((20, 20), &[
        (Measure(Kind::Label("i\x1bt"), 2, None), Ok("\r\x1b[?7l\x1b[2K t 2 i\u{FFFD}t [  ===   =]\n\x1b[J\x1b[1A\x1b[?7h")),
    ]),
    // bidi controls, separators, and the byte order mark
    Drawing((40, 20), &[
        (Show(&[("\u{61C}\u{200E}\u{200F}\u{202A}\u{202B}\u{202C}\u{202D}\u{202E}", None)]),
            Ok("\r\x1b[?7l\x1b[2K \u{FFFD}\u{FFFD}\u{FFFD}\u{FFFD}\u{FFFD}\u{FFFD}\u{FFFD}\u{FFFD}\n\x1b[J\x1b[1A\x1b[?7h")),
        (Show(&[("\u{2066}\u{2067}\u{2068}\u{2069}\u{2028}\u{2029}\u{FEFF}", None)]),
            Ok("\r\x1b[?7l\x1b[2K \u{FFFD}\u{FFFD}\u{FFFD}\u{FFFD}\u{FFFD}\u{FFFD}\u{FFFD}\n\x1b[J\x1b[1A\x1b[?7h")),
        (PrintHidden(&[("a\u{202E}", "b\u{2066}c")], &[]), Ok("\r\x1b[?7l\x1b[2K a\u{FFFD} b\u{FFFD}c\n\x1b[J\x1b[?7h")),
    ]),
    Drawing((20, 20), &[
        (Measure(Kind::Label("i\u{202E}t"), 2, None), Ok("\r\x1b[?7l\x1b[2K t 2 i\u{FFFD}t [  ===   =]\n\x1b[J\x1b[1A\x1b[?7h")),
    ]),
    // the characters before and after each range of them are kept
    Drawing((40, 20), &[
        (Show(&[("\u{61B}\u{61D}\u{200D}\u{2010}\u{2027}\u{202F}\u{2065}\u{206A}\u{FEFE}\u{FF00}", None)]),
            Ok("\r\x1b[?7l\x1b[2K \u{61B}\u{61D}\u{200D}\u{2010}\u{2027}\u{202F}\u{2065}\u{206A}\u{FEFE}\u{FF00}\n\x1b[J\x1b[1A\x1b[?7h")),
    ]),
    // a row has changed if only its unsafe characters have
    Drawing((40, 20), &[
        (Show(&[("a\t", None)]), Ok("\r\x1b[?7l\x1b[2K a\u{FFFD}\n\x1b[J\x1b[1A\x1b[?7h")),
        (Show(&[("a\n", None)]), Ok("\r\x1b[?7l\x1b[2K a\u{FFFD}\n\x1b[J\x1b[1A\x1b[?7h")),
    ]),
    // cut and aligned by the widths of what is written: as they are, CR and LF are one column
    Drawing((20, 20), &[
        (Show(&[("\r\n", THREE_OF_TEN)]), Ok("\r\x1b[?7l\x1b[2K \u{FFFD}\u{FFFD} 3/10 [==>------]\n\x1b[J\x1b[1A\x1b[?7h")),
        (PrintHidden(&[("abc", "x"), ("\r\n", "y")], &[]), Ok("\r\x1b[?7l\x1b[2K abc x\n\x1b[2K  \u{FFFD}\u{FFFD} y\n\x1b[J\x1b[?7h")),
    ]),
    Drawing((2, 20), &[(Show(&[("\r\n", None)]), Ok("\r\x1b[?7l\x1b[2K \u{FFFD}\n\x1b[J\x1b[1A\x1b[?7h"))]),
];

/// Such frames without the option: each byte is as it is.
#[rattlefmt::skip]
const KEPT: &[Drawing] = &[
    Drawing((20, 20), &[
        (Show(&[("a\x1b[2J\t\u{85}", None)]), Ok(" a\x1b[2J\t\u{85}\n\x1b[1A")),
        (Show(&[]), Ok("        \n\x1b[1A")),
        (PrintHidden(&[("\ta", "\x1b[2J\u{85}")], &[]), Ok(" \ta \x1b[2J\u{85}\n")),
    ]),
    Drawing((20, 20), &[(Measure(Kind::Label("i\x1bt"), 2, None), Ok(" t 2 i\x1bt [  ===   =]\n\x1b[1A"))]),
    Drawing((20, 20), &[(Show(&[("\r\n", THREE_OF_TEN)]), Ok(" \r\n 3/10 [==>-------]\n\x1b[1A"))]),
    Drawing((20, 20), &[(Show(&[("a\u{202E}b\u{2028}\u{FEFF}", None)]), Ok(" a\u{202E}b\u{2028}\u{FEFF}\n\x1b[1A"))]),
];

/// Inputs, and how many bytes the frame of each has, defensive and not: fewer where lines shrink
/// by more than that, and otherwise at most 14 more for the frame and four for each line.
#[rattlefmt::skip]
const SIZES: &[(Ask, (usize, usize))] = &[
    (Show(&[("a long name", None), ("another long name", None)]), (58, 36)),
    (Show(&[("a", None), ("b", None)]), (32, 36)),
    (Show(&[("a long name", None), ("another long name", None)]), (58, 36)),
    (Print(&[("a", "one")], &[("a", None)]), (36, 36)),
    (Show(&[TASK]), (63, 45)),
    (Show(&[]), (23, 45)),
    (Quit, (14, 5)),
];

/// Frames of synchronized updates, the first of which hides the cursor.
#[rattlefmt::skip]
const SYNCHRONIZED: &[Drawing] = &[
    Drawing((40, 20), &[
        (Show(&[("a", None)]), Ok("\x1b[?25l\x1b[?2026h\r\x1b[?7l\x1b[2K a\n\x1b[J\x1b[1A\x1b[?7h\x1b[?2026l")),
        (Show(&[("a", None)]), Ok("")),
        (Quit, Ok("\x1b[?2026h\r\x1b[?7l\x1b[2K\n\x1b[J\x1b[1A\x1b[?25h\x1b[?7h\x1b[?2026l")),
    ]),
    // a frame without rows to draw is none
    Drawing((40, 20), &[(Hide(&[]), Ok("\x1b[?25l"))]),
];

/// A message of 20 columns.
const LONG: (&str, &str) = ("task", "a long message");

/// Frames with whole messages, on ten columns.
#[rattlefmt::skip]
const WHOLE: &[Drawing] = &[
    Drawing((10, 4), &[
        (Print(&[LONG], &[("a", None)]), Ok("\r\x1b[?7h\x1b[2K\n\x1b[J\x1b[1A task a long message\n\x1b[?7l\x1b[2K a\n\x1b[J\x1b[1A\x1b[?7h")),
        (Show(&[("a name that is cut", None)]), Ok("\r\x1b[?7l\x1b[2K a name th\n\x1b[J\x1b[1A\x1b[?7h")),
        (PrintHidden(&[LONG], &[]), Ok("\r\x1b[?7h\x1b[2K\n\x1b[J\x1b[1A task a long message\n\x1b[?7l\x1b[J\x1b[?7h")),
        (Quit, Ok("\r\x1b[?7l\x1b[J\x1b[?7h")),
    ]),
    // in a window of one row there is none below the cursor's
    Drawing((10, 1), &[(Print(&[LONG], &[("a", None)]), Ok("\r\x1b[?7h\x1b[2K task a long message\n\x1b[?7l\x1b[J\x1b[?7h"))]),
];

/// Frames that are written over lines, on ten columns.
const CUT: &[Drawing] = &[Drawing((10, 4), &[(Print(&[LONG], &[]), Ok(" task a lo\n"))])];

/// Frames that are written over lines.
const NO_UPDATES: &[Drawing] = &[Drawing((40, 20), &[(Show(&[("a", None)]), Ok(" a\n\x1b[1A"))])];

/// Draws a frame, and returns how many bytes it has.
fn frame_size(rt: &impl Abort, alloc: Global, state: &mut State, ask: Ask) -> usize {
    let mut screen = MemoryScreen::new(alloc, 200).expect(rt, "memory");
    draw(rt, alloc, &mut screen, state, ask).expect(rt, "no refusal");
    let size = screen.bytes().len();
    drop(screen);
    size
}

#[test]
fn defensive_frames_have_exact_bytes(rt: HostRuntime) {
    assert_draws_with(&rt, rt.alloc(), DEFENSIVE, FRAMES)
}

#[test]
fn defensive_frames_may_be_in_ascii(rt: HostRuntime) {
    let ascii = Options {
        ascii: true,
        ..DEFENSIVE
    };
    assert_draws_with(&rt, rt.alloc(), ascii, ASCII)
}

#[test]
fn defensive_frames_hide_the_cursor(rt: HostRuntime) {
    let hiding = Options {
        hide_cursor: true,
        ..DEFENSIVE
    };
    assert_draws_with(&rt, rt.alloc(), hiding, HIDING)
}

#[test]
fn defensive_frames_may_be_updates(rt: HostRuntime) {
    let synchronized = Options {
        hide_cursor: true,
        synchronized: true,
        ..DEFENSIVE
    };
    assert_draws_with(&rt, rt.alloc(), synchronized, SYNCHRONIZED)
}

#[test]
fn other_frames_are_no_updates(rt: HostRuntime) {
    let synchronized = Options {
        synchronized: true,
        ..TERMINAL
    };
    assert_draws_with(&rt, rt.alloc(), synchronized, NO_UPDATES)
}

#[test]
fn defensive_frames_may_have_whole_messages(rt: HostRuntime) {
    let whole = Options {
        whole_messages: true,
        ..DEFENSIVE
    };
    assert_draws_with(&rt, rt.alloc(), whole, WHOLE)
}

#[test]
fn other_frames_cut_messages(rt: HostRuntime) {
    let whole = Options {
        whole_messages: true,
        ..TERMINAL
    };
    assert_draws_with(&rt, rt.alloc(), whole, CUT)
}

#[test]
fn only_terminals_have_defensive_frames(rt: HostRuntime) {
    let plain = Options {
        output_is_terminal: false,
        ..DEFENSIVE
    };
    assert_draws_with(&rt, rt.alloc(), plain, PLAIN)
}

#[test]
fn defensive_frames_have_no_unsafe_characters_of_texts(rt: HostRuntime) {
    assert_draws_with(&rt, rt.alloc(), DEFENSIVE, UNSAFE)
}

#[test]
fn other_frames_keep_unsafe_characters(rt: HostRuntime) {
    assert_draws(&rt, rt.alloc(), KEPT)
}

#[test]
fn defensive_frames_have_fewer_bytes_where_lines_shrink(rt: HostRuntime) {
    let alloc = rt.alloc();
    let mut defensive = State::new(alloc, DEFENSIVE, false);
    let mut other = State::new(alloc, TERMINAL, false);
    for (n, (ask, sizes)) in SIZES.iter().enumerate() {
        let size = frame_size(&rt, alloc, &mut defensive, *ask);
        let other_size = frame_size(&rt, alloc, &mut other, *ask);
        assert_same(&rt, (size, other_size), *sizes, n);
    }
    drop(other);
    drop(defensive);
}
