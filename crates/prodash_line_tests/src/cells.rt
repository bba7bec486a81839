ghost use Rattle.std.specs.Prelude.{nat_eq, if◌then◌else◌};

use crate::fixtures::assert_same;
use crate::pages::{page_after, row_text};
use prodash_line::render::line::page::{CharColumns, UnicodeWidth};
use std::alloc::Global;
use std::process::Abort;

/// A terminal that disagrees with `UnicodeWidth`: it gives `w` two columns, and any other character
/// one.
struct OtherTerminal;

impl CharColumns for OtherTerminal {
    ghost given = { λ _ c. if nat_eq c 119 then 2 else 1 };

    fn columns(&self, c: char) -> usize {
        if c == 'w' { 2 } else { 1 }
    }
}

/// Three rows of ten columns full of `x`, with the cursor in the second.
const FULL: &str = "xxxxxxxxxxxxxxxxxxxxxxxxxxxxxx\x1b[1A";

/// What is written without wrapping in a row that is erased first, and the row after that: on a
/// terminal that agrees with `UnicodeWidth`, and on the other one.
#[rattlefmt::skip]
const ROWS: &[(&str, &str, &str)] = &[
    // a wide character in the last two columns, and one whose second half has no room
    ("abcdefgh日", "abcdefgh日<", "abcdefgh日 "),
    ("abcdefghi日", "abcdefghi ", "abcdefghi日"),
    ("abcdefghw", "abcdefghw ", "abcdefghw<"),
    ("abcdefghiw", "abcdefghiw", "abcdefghi "),
    // a character over a half of a wide one
    ("abcdefgh日i", "abcdefgh i", "abcdefgh日i"),
    ("日\ra", "a         ", "a         "),
    ("aww\rbcd", "bcd       ", "bcdw<     "),
    // a soft hyphen, and `e` with U+0301
    ("a\u{ad}b", "a\u{ad}b        ", "a\u{ad}b       "),
    ("e\u{301}a", "e\u{301}a        ", "e\u{301}a       "),
    // behind a wide character, and at the beginning of the row
    ("日\u{301}a", "日\u{301}<a       ", "日\u{301}a       "),
    ("\u{301}a", "a         ", "\u{301}a        "),
    // two characters past the end, which one of no column joins
    ("abcdefghijkl", "abcdefghil", "abcdefghil"),
    ("abcdefghijk\u{301}", "abcdefghik\u{301}", "abcdefghi\u{301}"),
];

/// The row that is written is this one, and the others are as they were.
fn assert_written<W: CharColumns>(
    rt: &impl Abort,
    alloc: Global,
    widths: &W,
    text: &str,
    want: &str,
) {
    let parts = [FULL, "\r\x1b[?7l\x1b[2K", text, "\n\x1b[?7h"];
    let page = page_after(rt, alloc, widths, (10, 3), &parts);
    for (n, row) in ["xxxxxxxxxx", want, "xxxxxxxxxx"].iter().enumerate() {
        assert_same(rt, row_text(rt, alloc, &page, n).as_str(), *row, text);
    }
    assert_same(rt, (page.rows(), page.cursor()), (3, (2, 0)), text);
}

#[test]
fn rows_hold_what_the_terminal_shows(rt: HostRuntime) {
    for (text, agreed, other) in ROWS {
        assert_written(&rt, rt.alloc(), &UnicodeWidth, text, agreed);
        assert_written(&rt, rt.alloc(), &OtherTerminal, text, other);
    }
}

/// A page of ten columns and six rows full of `x`, with the cursor in its second row.
const HIGH: [&str; 3] = [
    "xxxxxxxxxxxxxxxxxxxxxxxxxxxxxx",
    "xxxxxxxxxxxxxxxxxxxxxxxxxxxxxx",
    "\x1b[4A",
];

/// A frame with a message of 25 characters above two lines.
const MESSAGE: &str = "\r\x1b[?7h\x1b[2K\n\x1b[J\x1b[1Aabcdefghijklmnopqrstuvwxy\n\x1b[?7l\
    \x1b[2Ka\n\x1b[2Kb\n\x1b[J\x1b[2A\x1b[?7h";

/// The rows after that, without the blanks at their ends.
const MESSAGE_ROWS: [&str; 7] = [
    "xxxxxxxxxx",
    "abcdefghij",
    "klmnopqrst",
    "uvwxy",
    "a",
    "b",
    "",
];

#[test]
fn whole_messages_wrap(rt: HostRuntime) {
    let parts = [HIGH[0], HIGH[1], HIGH[2], MESSAGE];
    let page = page_after(&rt, rt.alloc(), &UnicodeWidth, (10, 6), &parts);
    for (n, want) in MESSAGE_ROWS.iter().enumerate() {
        let text = row_text(&rt, rt.alloc(), &page, n);
        assert_same(&rt, text.as_str().trim_end(), *want, n);
    }
    assert_same(
        &rt,
        (page.rows(), page.top(), page.cursor()),
        (7, 1, (4, 0)),
        "page",
    );
}

#[test]
fn wide_characters_without_room_wrap(rt: HostRuntime) {
    let page = page_after(&rt, rt.alloc(), &UnicodeWidth, (3, 2), &["ab日"]);
    assert_same(&rt, row_text(&rt, rt.alloc(), &page, 0).as_str(), "ab ", 0);
    assert_same(&rt, row_text(&rt, rt.alloc(), &page, 1).as_str(), "日< ", 1);
    assert_same(&rt, page.cursor(), (1, 2), "cursor");
    let other = page_after(&rt, rt.alloc(), &OtherTerminal, (3, 2), &["ab日"]);
    assert_same(&rt, row_text(&rt, rt.alloc(), &other, 0).as_str(), "ab日", 0);
    assert_same(&rt, other.cursor(), (0, 3), "cursor");
}
