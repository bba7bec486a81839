//! Calls on a page, and the reading of what is written on it.
use prodash::Refusal;
use prodash::render::line::page::{self, Cell, Page, Sign, UnicodeWidth};
use prodash_fixtures::Calls;
use prodash_programs::Fault;
use std::alloc::Global;

/// What is written: more rows than the page has, one of them wider than the page, and a character
/// that joins another one.
const TEXT: &str = "ab\n\x1b[31mlonger\x1b[0m\nc\r\x1b[1A\x1b[2Kd\n\n\ne\u{301}";

/// The rows of the page at the end.
const ROWS: &[&str] = &["ab  ", "long", "d   ", "c   ", "    ", "e\u{301}   "];

/// Reads the signs and writes them on a page.
pub(crate) fn run(alloc: Global, calls: &mut Calls) -> Result<(), Fault> {
    let signs = read(alloc, calls)?;
    let mut page = new(alloc, calls)?;
    let mut twin = Page::new(alloc, 4, 2)?;
    for sign in &signs {
        apply(alloc, &mut page, &twin, sign, calls)?;
        twin.apply(alloc, &UnicodeWidth, sign)?;
    }
    calls.expect(is_same(&page, &twin) && has_rows(&page, ROWS));
    Ok(())
}

/// Reads the bytes as signs.
fn read(alloc: Global, calls: &mut Calls) -> Result<Vec<Sign>, Fault> {
    calls.begin("page::read");
    match page::read(alloc, TEXT.as_bytes()) {
        Ok(signs) => Ok(signs),
        Err(fault) => {
            let again = page::read(alloc, TEXT.as_bytes());
            let is_right = fault == page::Fault::Memory && again.is_ok();
            calls.refuse(Refusal::Memory, is_right);
            Ok(again?)
        }
    }
}

/// Returns a page of four columns and two rows.
fn new(alloc: Global, calls: &mut Calls) -> Result<Page, Fault> {
    calls.begin("Page::new");
    match Page::new(alloc, 4, 2) {
        Ok(page) => Ok(page),
        Err(refusal) => {
            let again = Page::new(alloc, 4, 2);
            calls.refuse(refusal, again.is_ok());
            Ok(again?)
        }
    }
}

/// Writes a sign on a page that equals `twin` beforehand.
fn apply(
    alloc: Global,
    page: &mut Page,
    twin: &Page,
    sign: &Sign,
    calls: &mut Calls,
) -> Result<(), Fault> {
    calls.begin("Page::apply");
    if let Err(refusal) = page.apply(alloc, &UnicodeWidth, sign) {
        let is_unchanged = is_same(page, twin);
        let again = page.apply(alloc, &UnicodeWidth, sign);
        calls.refuse(refusal, is_unchanged && again.is_ok());
        again?;
    }
    Ok(())
}

/// Returns whether two pages have the same rows, window and cursor.
fn is_same(a: &Page, b: &Page) -> bool {
    a.rows() == b.rows()
        && a.top() == b.top()
        && a.cursor() == b.cursor()
        && (0..a.rows()).all(|n| a.row(n) == b.row(n))
}

/// Returns whether a page has just these rows.
fn has_rows(page: &Page, rows: &[&str]) -> bool {
    page.rows() == rows.len()
        && rows
            .iter()
            .enumerate()
            .all(|(n, text)| has_row(page, n, text))
}

/// Returns whether a row of a page has this text.
fn has_row(page: &Page, n: usize, text: &str) -> bool {
    let Some(row) = page.row(n) else {
        return false;
    };
    let mut left = text.chars();
    for cell in row {
        if let Cell::Holds(c, joined) = cell {
            if left.next() != Some(*c) {
                return false;
            }
            for other in joined.as_slice() {
                if left.next() != Some(*other) {
                    return false;
                }
            }
        }
    }
    left.next().is_none()
}
