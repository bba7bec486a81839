//! The rows of a grid, each with the columns of it that are known to be blank.
ghost use Rattle.std.specs.Prelude.{◌≡◌, ◌-◌, ◌^◌, ◌<◌, ◌≤◌, length, IfOk};
ghost use Rattle.prodash_tui.specs.Cells.{blank_cells, on_background};
ghost use Rattle.prodash_tui.specs.Rows.{in_part, splice};
ghost use Rattle.prodash_tui.specs.Texts.{filling, text_cut, text_shortened};
ghost use Rattle.prodash_tui.specs.plumbing.BlankParts.{IsBlankPart, IsApart};
ghost use Rattle.prodash_tui.specs.plumbing.Calls.{with_word};

use crate::packed::PackedCell;
use crate::row::Row;
use crate::style::{Color, Style};
use crate::word::Word;
use std::alloc::{AllocError, Global};
use std::marker::Model;

/// Columns of a row: those from `first` up to `last`.
#[derive(Clone, Copy)]
pub(crate) struct Span {
    pub(crate) first: usize,
    pub(crate) last: usize,
}

/// A row of a grid. The columns of `blank` have not been drawn on since they were blank, so they
/// are neither cleared nor compared. Contracts see the list of all cells.
#[derive(Drop)]
pub(crate) struct GridRow {
    row: Row,
    blank: Span,
}

impl Model for GridRow {
    ghost use Rattle.std.specs.Prelude.{List};
    ghost use Rattle.prodash_tui.specs.declared.cell.Cell.{Cell};
    ghost use Rattle.prodash_tui.specs.plumbing.BlankParts.{IsBlankPart};

    ghost Value = { List Cell };

    ghost view = { λ r. r.row };

    ghost invariant = { λ r. IsBlankPart r.blank r.row };
}

/// Returns what is left of columns without those from `x` up to `end`: the larger of what is before
/// and what is behind them.
fn without(span: Span, x: usize, end: usize) -> Span
    requires { span.first ≤ span.last }
    ensures from { span.first ≤ result.first }
    ensures order { result.first ≤ result.last }
    ensures within { result.last ≤ span.last }
    ensures apart { IsApart x end result }
{
    if end <= span.first || span.last <= x {
        return span;
    }
    let before = Span {
        first: span.first,
        last: span.first.max(x),
    };
    let behind = Span {
        first: span.last.min(end),
        last: span.last,
    };
    if behind.last - behind.first < before.last - before.first {
        return before;
    }
    behind
}

impl GridRow {
    /// Returns a blank row. Fails if out of memory.
    pub(crate) fn blank(alloc: Global, width: u16) -> Result<GridRow, AllocError>
        ensures { IfOk result (λ row. row ≡ blank_cells width) }
    {
        let row = Row::blank(alloc, width)?;
        let blank = Span {
            first: 0,
            last: usize::from(width),
        };
        Ok(GridRow { row, blank })
    }

    /// Returns the cells.
    pub(crate) fn as_slice(&self) -> &[PackedCell]
        ensures { result.now ≡ self.now }
    {
        self.row.as_slice()
    }

    /// Returns columns that are blank.
    pub(crate) fn blank_part(&self) -> Span
        ensures { IsBlankPart result self.now }
    {
        self.blank
    }

    /// Draws a word with its text.
    #[inline(always)]
    pub(crate) fn draw(&mut self, word: Word, columns: Span, text: &str)
        requires order { columns.first ≤ columns.last }
        requires end { columns.last ≤ length self.old }
        requires narrow { columns.last < 2 ^ 16 }
        ensures cells { self.new ≡ with_word word columns text.now self.old }
        ensures width { length self.new ≡ length self.old }
    {
        let (x, end) = (columns.first, columns.last);
        match word {
            Word::Text(style) => self.draw_text(x, end, text, style),
            Word::Shortened(style) => self.draw_shortened(x, end, text, style),
            Word::Filling(c, style) => self.fill(x, end, c, style),
            Word::Background(color) => self.fill_background(x, end, color),
        }
    }

    /// Draws a text in the columns from `x` up to `end`.
    fn draw_text(&mut self, x: usize, end: usize, text: &str, style: Style)
        requires order { x ≤ end }
        requires end { end ≤ length self.old }
        ensures cells { self.new ≡ splice x (text_cut style (end - x) text.now) self.old }
        ensures width { length self.new ≡ length self.old }
    {
        let behind = self.row.draw_text(x, end, text, style);
        self.blank = without(self.blank, x, behind);
    }

    /// Draws a text in the columns from `x` up to `end`, with an ellipsis if it has more.
    fn draw_shortened(&mut self, x: usize, end: usize, text: &str, style: Style)
        requires order { x ≤ end }
        requires end { end ≤ length self.old }
        requires narrow { end < 2 ^ 16 }
        ensures cells { self.new ≡ splice x (text_shortened style (end - x) text.now) self.old }
        ensures width { length self.new ≡ length self.old }
    {
        let behind = self.row.draw_shortened(x, end, text, style);
        self.blank = without(self.blank, x, behind);
    }

    /// Fills the columns from `x` up to `end` with a character.
    fn fill(&mut self, x: usize, end: usize, c: char, style: Style)
        requires order { x ≤ end }
        requires end { end ≤ length self.old }
        ensures cells { self.new ≡ splice x (filling style (end - x) c) self.old }
        ensures width { length self.new ≡ length self.old }
    {
        let behind = self.row.fill(x, end, c, style);
        self.blank = without(self.blank, x, behind);
    }

    /// Changes the background of the columns from `x` up to `end`.
    fn fill_background(&mut self, x: usize, end: usize, color: Color)
        requires order { x ≤ end }
        requires end { end ≤ length self.old }
        ensures { self.new ≡ in_part x (end - x) (on_background color) self.old }
    {
        self.row.fill_background(x, end, color);
        self.blank = without(self.blank, x, end);
    }

    /// Blanks all cells.
    pub(crate) fn clear(&mut self)
        ensures { self.new ≡ blank_cells (length self.old) }
    {
        self.row.clear_outside(self.blank.first, self.blank.last);
        self.blank = Span {
            first: 0,
            last: self.row.as_slice().len(),
        };
    }
}
