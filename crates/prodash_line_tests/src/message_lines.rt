use crate::drawings::Ask::{Print, PrintHidden, Quit, Resize, Show};
use crate::drawings::{Drawing, assert_draws, assert_draws_with};
use crate::fixtures::TERMINAL;
use prodash_line::render::line::draw::Options;

/// Messages without an origin are their texts alone.
const BARE: Options = Options {
    bare_without_origin: true,
    ..TERMINAL
};

#[rattlefmt::skip]
const LINES: &[Drawing] = &[
    // each origin is aligned to the widest up to its own
    Drawing((40, 20), &[
        (Print(&[("ab", "x"), ("task", "y"), ("c", "z")], &[]), Ok(" ab x\n task y\n    c z\n")),
        (Print(&[], &[]), Ok("")),
    ]),
    // also where no row is shown
    Drawing((40, 20), &[
        (PrintHidden(&[("ab", "x"), ("task", "y"), ("c", "z")], &[]), Ok(" ab x\n task y\n    c z\n")),
    ]),
    Drawing((40, 20), &[
        (PrintHidden(&[("test", "one")], &[("test", None)]), Ok(" test one\n")),
        (Quit, Ok("\x1b[2K\r")),
    ]),
    // with one row, the width of the last origin counts alone; with none, no width does
    Drawing((40, 1), &[
        (Print(&[("task", "x")], &[]), Ok(" task x\n")),
        (Print(&[("ab", "y")], &[]), Ok("   ab y\n")),
        (Print(&[("c", "z")], &[]), Ok("  c z\n")),
    ]),
    Drawing((40, 1), &[
        (PrintHidden(&[("task", "x")], &[]), Ok(" task x\n")),
        (PrintHidden(&[("ab", "y")], &[]), Ok("   ab y\n")),
        (PrintHidden(&[("c", "z")], &[]), Ok("  c z\n")),
    ]),
    Drawing((40, 0), &[
        (Print(&[("task", "x")], &[]), Ok(" task x\n")),
        (Print(&[("ab", "y")], &[]), Ok(" ab y\n")),
    ]),
    Drawing((40, 0), &[
        (PrintHidden(&[("task", "x")], &[]), Ok(" task x\n")),
        (PrintHidden(&[("ab", "y")], &[]), Ok(" ab y\n")),
    ]),
    // a higher terminal brings no width back: they are cut as a tick is accepted, and at a resize
    Drawing((40, 1), &[
        (Print(&[("task", "x"), ("ab", "y")], &[]), Ok(" task x\n   ab y\n")),
        (Resize(40, 20), Ok("")),
        (Print(&[("c", "z")], &[]), Ok("  c z\n")),
    ]),
    Drawing((40, 20), &[
        (Print(&[("task", "x"), ("ab", "y")], &[]), Ok(" task x\n   ab y\n")),
        (Resize(40, 1), Ok("")),
        (Resize(40, 20), Ok("")),
        (Print(&[("c", "z")], &[]), Ok("  c z\n")),
    ]),
    // a message is cut at the terminal's width: in its text, in its origin, in the spaces before it
    Drawing((20, 20), &[
        (Print(&[("task", "a long message of many words")], &[]), Ok(" task a long message\n")),
        (Resize(3, 20), Ok("")),
        (Print(&[("task", "x"), ("c", "y")], &[]), Ok(" ta\n   \n")),
    ]),
    // an origin two columns wide, and a text that begins with a combining accent: six columns, and
    // four spaces over the row of ten columns
    Drawing((40, 20), &[
        (Print(&[("abc", "x")], &[("abcdefghi", None)]), Ok(" abc x\n abcdefghi\n\x1b[1A")),
        (Print(&[("工", "\u{301}!")], &[("abcdefghi", None)]), Ok("  工 \u{301}!    \n")),
        (Show(&[]), Ok("")),
    ]),
    // one without an origin is aligned too
    Drawing((40, 20), &[
        (Print(&[("", "x"), ("task", "y"), ("", "z")], &[]), Ok("  x\n task y\n      z\n")),
    ]),
];

#[rattlefmt::skip]
const BARE_LINES: &[Drawing] = &[
    // blanks of the text stay, and those that align other messages; an empty text has an empty line
    Drawing((40, 20), &[
        (Print(&[("task", "x"), ("", "y"), ("", "  z"), ("c", "z"), ("", "")], &[]), Ok(" task x\ny\n  z\n    c z\n\n")),
        (PrintHidden(&[("", "y")], &[]), Ok("y\n")),
    ]),
    // the width of its origin is 0: with one row it counts alone
    Drawing((40, 1), &[
        (Print(&[("task", "x"), ("", "y")], &[]), Ok(" task x\ny\n")),
        (Print(&[("c", "z")], &[]), Ok(" c z\n")),
    ]),
    // it is cut at the terminal's width, and hides the line that it is printed over
    Drawing((5, 20), &[
        (Print(&[("", "a long message")], &[("task", None)]), Ok("a lon\n task\n\x1b[1A")),
        (Print(&[("", "y")], &[("task", None)]), Ok("y    \n")),
    ]),
];

#[rattlefmt::skip]
const TIMED_LINES: &[Drawing] = &[
    Drawing((40, 20), &[
        (Print(&[("task", "x"), ("", "y")], &[]), Ok(" 00:00:00 task x\n00:00:00 y\n")),
    ]),
];

#[rattlefmt::skip]
const COLORED_LINES: &[Drawing] = &[
    Drawing((40, 20), &[
        (Print(&[("", "y")], &[]), Ok("\x1b[2;37;43m00:00:00\x1b[0m \x1b[1;37my\x1b[0m\n")),
    ]),
];

#[test]
fn messages_are_printed_in_lines(rt: HostRuntime) {
    assert_draws(&rt, rt.alloc(), LINES)
}

#[test]
fn messages_without_an_origin_may_be_bare(rt: HostRuntime) {
    assert_draws_with(&rt, rt.alloc(), BARE, BARE_LINES)
}

#[test]
fn bare_messages_may_have_times_and_styles(rt: HostRuntime) {
    let timed = Options {
        timestamp: true,
        ..BARE
    };
    let colored = Options {
        colored: true,
        ..timed
    };
    assert_draws_with(&rt, rt.alloc(), timed, TIMED_LINES);
    assert_draws_with(&rt, rt.alloc(), colored, COLORED_LINES)
}
