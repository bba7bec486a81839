use crate::fixtures::{MESSAGE_FRAME, TASK_FRAME, assert_distinct, assert_same};
use crate::styles::{assert_fault, assert_spelled};
use prodash_line::render::line::draw::Answer;
use prodash_line::render::line::page::{Cell, CharColumns, Fault, Page, Sign, UnicodeWidth, read};
use std::alloc::Global;
use std::process::Abort;

/// The columns and rows of a page, what is written to it, and its rows without the blanks at their
/// ends, its top and its cursor after that.
type Written = (
    (u16, u16),
    &'static [&'static str],
    &'static [&'static str],
    usize,
    (usize, u16),
);

const AT_THREE: &str = " task 3/10 [=======>-------------------]";

const AT_FOUR: &str = " task 4/10 [==========>----------------]";

/// `abc` in three styles, while the cursor is hidden.
const STYLED: &str = "\x1b[?25la\x1b[1;36mb\x1b[2;37;43mc\x1b[0m\x1b[?25h";

#[rattlefmt::skip]
const WRITTEN: &[Written] = &[
    // a page of one cell
    ((1, 1), &["ab\n\x1b[5A"], &["a", "b", ""], 2, (2, 0)),
    // a line as wide as the page, in the last row of the window
    ((40, 3), &["\n\n", TASK_FRAME], &["", "", AT_THREE, ""], 1, (2, 0)),
    // a message in the place of a row, and the row below it
    ((40, 3), &["\n\n", TASK_FRAME, MESSAGE_FRAME], &["", "", " task one", AT_FOUR, ""], 2, (3, 0)),
    // the cursor stays behind the last column until the next character, or a line feed
    ((3, 2), &["abc"], &["abc", ""], 0, (0, 3)),
    ((3, 2), &["abc\nd"], &["abc", "d"], 0, (1, 1)),
    // erasing a row leaves the cursor
    ((3, 2), &["ab\x1b[2Kc"], &["  c", ""], 0, (0, 3)),
    // a carriage return clears nothing
    ((3, 2), &["ab\rc"], &["cb", ""], 0, (0, 1)),
    // without wrapping characters past the last column replace the one in it, and a line feed is
    // as ever; with it they go on in the next row
    ((3, 2), &["\x1b[?7labcde"], &["abe", ""], 0, (0, 3)),
    ((3, 2), &["\x1b[?7labcd\ne"], &["abd", "e"], 0, (1, 1)),
    ((3, 2), &["\x1b[?7labcd\x1b[?7he"], &["abd", "e"], 0, (1, 1)),
    // a page shows no styles and no hidden cursor
    ((3, 2), &[STYLED], &["abc", ""], 0, (0, 3)),
];

/// A page of this many columns and rows, with the signs of all parts written to it.
pub(crate) fn page_after<W: CharColumns>(
    rt: &impl Abort,
    alloc: Global,
    widths: &W,
    (columns, height): (u16, u16),
    parts: &[&str],
) -> Page {
    assert!(rt; columns > 0 && height > 0);
    let mut page = Page::new(alloc, columns, height).expect(rt, "memory");
    for part in parts {
        for sign in &read(alloc, part.as_bytes()).expect(rt, "no refusal") {
            page.apply(alloc, widths, sign).expect(rt, "no refusal");
        }
    }
    page
}

/// The characters of a row, with `<` for the second half of a wide one.
pub(crate) fn row_text(rt: &impl Abort, alloc: Global, page: &Page, n: usize) -> String {
    let mut text = String::new(alloc);
    for cell in page.row(n).expect(rt, "a row") {
        match cell {
            Cell::Holds(c, joined) => {
                text.push(*c).expect(rt, "memory");
                for other in joined.as_slice() {
                    text.push(*other).expect(rt, "memory");
                }
            }
            Cell::Half => text.push('<').expect(rt, "memory"),
        }
    }
    text
}

/// The page has these rows, each filled with blanks, and no others.
fn assert_rows(rt: &impl Abort, alloc: Global, page: &Page, columns: u16, rows: &[&str]) {
    assert_same(rt, page.rows(), rows.len(), "rows");
    for (n, want) in rows.iter().enumerate() {
        let text = row_text(rt, alloc, page, n);
        assert_same(rt, text.len(), columns as usize, n);
        assert_same(rt, text.as_str().trim_end(), *want, n);
    }
    assert_same(rt, page.row(rows.len()).is_none(), true, "rows");
}

#[test]
fn pages_show_what_is_written(rt: HostRuntime) {
    for (size, parts, rows, top, cursor) in WRITTEN {
        let page = page_after(&rt, rt.alloc(), &UnicodeWidth, *size, parts);
        assert_rows(&rt, rt.alloc(), &page, size.0, rows);
        assert_same(&rt, (page.top(), page.cursor()), (*top, *cursor), *parts);
    }
}

#[test]
fn pages_have_thousands_of_rows(rt: HostRuntime) {
    let high = Page::new(rt.alloc(), 1, 2000).expect(&rt, "memory");
    assert_same(&rt, (high.rows(), high.top()), (2000, 0), "high page");
    let mut page = Page::new(rt.alloc(), 1, 1).expect(&rt, "memory");
    for _ in 0..2000 {
        page.apply(rt.alloc(), &UnicodeWidth, &Sign::LineFeed)
            .expect(&rt, "no refusal");
    }
    assert_same(&rt, (page.rows(), page.top()), (2001, 2000), "long page");
    assert_same(&rt, page.cursor(), (2000, 0), "long page");
}

#[test]
fn reads_what_signs_spell(rt: HostRuntime) {
    let signs = [
        Sign::Char('a'),
        Sign::EraseLine,
        Sign::Up(65535),
        Sign::Char('é'),
        Sign::CarriageReturn,
        Sign::EraseBelow,
        Sign::LineFeed,
        Sign::NoWrap,
        Sign::Wrap,
        Sign::BeginUpdate,
        Sign::EndUpdate,
    ];
    let text = "a\x1b[2K\x1b[65535Aé\r\x1b[J\n\x1b[?7l\x1b[?7h\x1b[?2026h\x1b[?2026l";
    assert_spelled(&rt, rt.alloc(), &signs, text);
}

/// Bytes that no signs spell, and how many before the fault signs do.
#[rattlefmt::skip]
const FAULTS: &[(&[u8], usize)] = &[
    (b"ab\x1b[", 2),
    (b"\x1b[01A", 0),
    (b"\x1b[31;1m", 0),
    (b"a\xff", 1),
    (b"\x1b[65536A", 0),
    (b"\x1b[0A", 0),
    (b"\x1b[0J", 0),
    (b"\x1b[2K\x1b", 4),
    (b"\x1b[7l", 0),
    (b"\x1b[?7k", 0),
    (b"\x1b[?07h", 0),
    (b"\x1b[?2025h", 0),
];

#[test]
fn refuses_what_no_signs_spell(rt: HostRuntime) {
    for (bytes, end) in FAULTS {
        assert_fault(&rt, rt.alloc(), bytes, *end);
    }
}

#[test]
fn plain_values_differ_by_any_field(rt: HostRuntime) {
    let signs = [
        Sign::Char('a'),
        Sign::Char('b'),
        Sign::LineFeed,
        Sign::CarriageReturn,
        Sign::Up(1),
        Sign::Up(2),
        Sign::EraseLine,
        Sign::EraseBelow,
        Sign::NoWrap,
        Sign::Wrap,
        Sign::BeginUpdate,
        Sign::EndUpdate,
    ];
    let faults = [Fault::At(0), Fault::At(1), Fault::Memory];
    let answers = [Answer::Drawn, Answer::Ended];
    assert_distinct(&rt, &signs, &signs);
    assert_distinct(&rt, &faults, &faults);
    assert_distinct(&rt, &answers, &answers);
}
