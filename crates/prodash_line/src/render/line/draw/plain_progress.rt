//! A progress without styles that is written at once.
ghost use Rattle.std.specs.Prelude.{◌≡◌, ◌≤◌, length};
ghost use Rattle.std.specs.Fmt.{decimal};
ghost use Rattle.prodash_line.specs.ProgressRows.{fraction_of};
ghost use Rattle.prodash_line.specs.Lines.{capped};
ghost use Rattle.prodash_line.specs.plumbing.RowWriting.{text_length, length_of};

use crate::render::line::draw::text::capped;
use itoa::Buffer;
use prodash_base::progress::Step;

/// A text of printable ASCII characters.
#[derive(Clone, Copy, Drop)]
pub(crate) enum PlainText<'a> {
    /// A step, and a slash and its bound if it has one.
    Fraction(Step, Option<Step>),
    /// The same, a space and a label.
    Labelled(Step, Option<Step>, &'a [u8]),
    /// Another text.
    Other(&'a [u8]),
}

impl PlainText<'_> {
    /// Returns the width of the text, in columns, at most 65535.
    #[inline(always)]
    pub(crate) fn columns(&self) -> u16
        ensures { result ≡ capped (text_length self.now) }
    {
        match *self {
            PlainText::Fraction(step, done_at) => fraction_columns(step, done_at),
            PlainText::Labelled(step, done_at, label) => {
                (fraction_columns(step, done_at) + 1).saturating_add(capped(label.len()))
            }
            PlainText::Other(text) => capped(text.len()),
        }
    }
}

/// A space, padding, a text and a bar, all without styles.
#[derive(Clone, Copy, Drop)]
pub(crate) struct PlainProgress<'a> {
    /// How many spaces of padding there are.
    pub(crate) padding: u16,
    /// The values, and their unit if they have one.
    pub(crate) text: PlainText<'a>,
    /// The width of the text.
    pub(crate) columns: u16,
    /// How many cells the bar has.
    pub(crate) cells: u16,
    /// How many of them are filled, from the first on.
    pub(crate) filled: u16,
}

impl PlainProgress<'_> {
    /// Returns how many characters there are.
    #[inline(always)]
    pub(crate) fn len(&self) -> u16
        requires columns { self.now.columns ≡ text_length self.now.text }
        requires short { length_of self.now ≤ 65535 }
        ensures { result ≡ length_of self.now }
    {
        1 + self.padding + self.columns + self.cells + 4
    }
}

/// Returns the width of a step, in columns, with a slash and its bound if it has one.
#[inline(always)]
pub(crate) fn fraction_columns(step: Step, done_at: Option<Step>) -> u16
    ensures columns { result ≡ length (fraction_of step done_at) }
    ensures few { result ≤ 41 }
{
    match done_at {
        Some(bound) => count_digits(step) + 1 + count_digits(bound),
        None => count_digits(step),
    }
}

/// Returns how many digits a number has.
#[inline(always)]
fn count_digits(n: u64) -> u16
    ensures count { result ≡ length (decimal n) }
    ensures few { result ≤ 20 }
{
    match n {
        0..10 => 1,
        10..100 => 2,
        100..1_000 => 3,
        1_000..10_000 => 4,
        _ => count_more_digits(n),
    }
}

/// Does what `count_digits` does for a large number.
#[cold]
#[inline(never)]
fn count_more_digits(n: u64) -> u16
    ensures count { result ≡ length (decimal n) }
    ensures few { result ≤ 20 }
{
    Buffer::new().format(n).len() as u16
}
