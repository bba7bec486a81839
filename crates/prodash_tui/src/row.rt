//! The cells of a row of a grid.
ghost use Rattle.std.specs.Prelude.{◌≡◌, ◌+◌, ◌-◌, ◌^◌, ◌<◌, ◌≤◌, ◌++◌, length, map, take, drop, replicate, IfOk};
ghost use Rattle.prodash_line.specs.CellRows.{char_columns};
ghost use Rattle.prodash_tui.specs.Cells.{blank_cells, cell_of, on_background};
ghost use Rattle.prodash_tui.specs.Rows.{front, healed, in_part, splice};
ghost use Rattle.prodash_tui.specs.Texts.{filling, text_cut, text_shortened};
ghost use Rattle.prodash_tui.specs.plumbing.Writing.{IsInside, after_char, pen_at};

use crate::packed::{PackedCell, blank_cell, cell_of, color_cell, half_cell, is_half, join_cell};
use crate::style::{Color, Style};
use crate::text::{columns_of, drawn_char, fits, is_all_printable};
use std::alloc::{AllocError, Global};
use std::marker::Model;

/// Where the next character of a text goes.
#[derive(Clone, Copy)]
struct Pen {
    at: usize,
    /// The column behind the last one that it may write.
    end: usize,
    /// The cell of the last character that was written, which others may join.
    last: Option<usize>,
}

/// The cells of a row. Contracts see their list.
#[derive(Drop)]
pub(crate) struct Row {
    cells: Vec<PackedCell>,
}

impl Model for Row {
    ghost use Rattle.std.specs.Prelude.{List};
    ghost use Rattle.prodash_tui.specs.declared.cell.Cell.{Cell};

    ghost Value = { List Cell };

    ghost view = { λ row. row.cells.items };
}

/// Changes the background of the cells from `first` up to `last`.
fn color_cells(cells: &mut Vec<PackedCell>, first: usize, last: usize, color: Color)
    requires order { first ≤ last }
    requires last { last ≤ length cells.old.items }
    ensures { cells.new.items
        ≡ in_part first (last - first) (on_background color) cells.old.items }
{
    for k in first..last {
        color_cell(&mut cells[k], color);
    }
}

/// Blanks all cells.
fn clear_cells(cells: &mut [PackedCell])
    ensures { cells.new ≡ blank_cells (length cells.old) }
{
    for k in 0..cells.len() {
        cells[k] = blank_cell();
    }
}

/// Writes printable ASCII characters into the cells from column `x` on, one into each.
fn write_printable(cells: &mut Vec<PackedCell>, x: usize, text: &[u8], style: Style)
    requires { x + length text.now ≤ length cells.old.items }
    ensures { cells.new.items ≡ take x cells.old.items
        ++ (map (cell_of style) text.now ++ drop (x + length text.now) cells.old.items) }
{
    for k in 0..text.len() {
        cells[x + k] = cell_of(text[k] as char, style);
    }
}

/// Blanks all cells but those from column `first` up to `last`.
fn clear_outside(cells: &mut [PackedCell], first: usize, last: usize)
    requires order { first ≤ last }
    requires last { last ≤ length cells.old }
    ensures { cells.new ≡ blank_cells first
        ++ (take (last - first) (drop first cells.old) ++ blank_cells (length cells.old - last)) }
{
    clear_cells(&mut cells[..first]);
    clear_cells(&mut cells[last..]);
}

impl Row {
    /// Returns a blank row. Fails if out of memory.
    pub(crate) fn blank(alloc: Global, width: u16) -> Result<Row, AllocError>
        ensures { IfOk result (λ row. row ≡ blank_cells width) }
    {
        let mut cells = Vec::new(alloc);
        for _ in 0..width {
            cells.push(blank_cell())?;
        }
        Ok(Row { cells })
    }

    /// Returns the cells.
    pub(crate) fn as_slice(&self) -> &[PackedCell]
        ensures { result.now ≡ self.now }
    {
        self.cells.as_slice()
    }

    /// Blanks the cell before column `x` if its other half is in that column.
    fn heal_before(&mut self, x: usize)
        requires { x ≤ length self.old }
        ensures { self.new ≡ front x self.old ++ drop x self.old }
    {
        if 0 < x && x < self.cells.len() && is_half(&self.cells[x]) {
            self.cells[x - 1] = blank_cell();
        }
    }

    /// Blanks the cell of column `x` if it is the second half of a character.
    fn heal_behind(&mut self, x: usize)
        requires { x ≤ length self.old }
        ensures { self.new ≡ take x self.old ++ healed (drop x self.old) }
    {
        if x < self.cells.len() && is_half(&self.cells[x]) {
            self.cells[x] = blank_cell();
        }
    }

    /// Writes a character where it has room.
    fn push(&mut self, pen: &mut Pen, c: char, style: Style)
        requires { IsInside self.old pen.old }
        ensures step { (self.new, pen.new)
            ≡ after_char style (char_columns c) c (self.old, pen.old) }
        ensures inside { IsInside self.new pen.new }
    {
        self.push_columns(pen, columns_of(c), c, style);
    }

    /// Writes a character of so many columns, at most 2, where it has room.
    #[inline(always)]
    fn push_columns(&mut self, pen: &mut Pen, columns: usize, c: char, style: Style)
        requires inside { IsInside self.old pen.old }
        requires few { columns ≤ 2 }
        ensures step { (self.new, pen.new) ≡ after_char style columns c (self.old, pen.old) }
        ensures inside { IsInside self.new pen.new }
    {
        if columns == 0 {
            if let Some(last) = pen.last {
                join_cell(&mut self.cells[last], c);
            }
            return;
        }
        if pen.end - pen.at < columns {
            pen.end = pen.at;
            pen.last = None;
            return;
        }
        self.cells[pen.at] = cell_of(c, style);
        if columns == 2 {
            self.cells[pen.at + 1] = half_cell();
        }
        pen.last = Some(pen.at);
        pen.at += columns;
    }

    /// Returns a pen for the columns from `x` up to `end`, and blanks what it tears at the first.
    fn begin(&mut self, x: usize, end: usize) -> Pen
        requires order { x ≤ end }
        requires end { end ≤ length self.old }
        ensures cells { self.new ≡ front x self.old ++ drop x self.old }
        ensures pen { result ≡ pen_at x end }
        ensures inside { IsInside self.new result }
    {
        self.heal_before(x);
        Pen {
            at: x,
            end,
            last: None,
        }
    }

    /// Draws printable ASCII characters in the columns from `x` up to `end`, and returns the column
    /// behind them.
    fn draw_printable(&mut self, x: usize, end: usize, text: &[u8], style: Style) -> usize
        requires order { x ≤ end }
        requires end { end ≤ length self.old }
        ensures cells { self.new
            ≡ splice x (map (cell_of style) (take (end - x) text.now)) self.old }
        ensures behind { result ≡ x + length (take (end - x) text.now) }
    {
        self.heal_before(x);
        let some = &text[..text.len().min(end - x)];
        write_printable(&mut self.cells, x, some, style);
        let behind = x + some.len();
        self.heal_behind(behind);
        behind
    }

    /// Draws a text in the columns from `x` up to `end`, and returns the column behind it.
    pub(crate) fn draw_text(&mut self, x: usize, end: usize, text: &str, style: Style) -> usize
        requires order { x ≤ end }
        requires end { end ≤ length self.old }
        ensures cells { self.new ≡ splice x (text_cut style (end - x) text.now) self.old }
        ensures behind { result ≡ x + length (text_cut style (end - x) text.now) }
        ensures width { length self.new ≡ length self.old }
    {
        let bytes = text.as_bytes();
        if is_all_printable(bytes) {
            return self.draw_printable(x, end, bytes, style);
        }
        let mut pen = self.begin(x, end);
        for c in text.chars() {
            self.push(&mut pen, drawn_char(c), style);
        }
        self.heal_behind(pen.at);
        pen.at
    }

    /// Fills the columns from `x` up to `end` with a character, and returns the column behind it.
    pub(crate) fn fill(&mut self, x: usize, end: usize, c: char, style: Style) -> usize
        requires order { x ≤ end }
        requires end { end ≤ length self.old }
        ensures cells { self.new ≡ splice x (filling style (end - x) c) self.old }
        ensures behind { result ≡ x + length (filling style (end - x) c) }
        ensures width { length self.new ≡ length self.old }
    {
        let c = drawn_char(c);
        let columns = columns_of(c);
        let room = end - x;
        let mut pen = self.begin(x, end);
        for _ in 0..room {
            self.push_columns(&mut pen, columns, c, style);
        }
        self.heal_behind(pen.at);
        pen.at
    }

    /// Draws a text in the columns from `x` up to `end`, with an ellipsis if it has more, and
    /// returns the column behind it.
    pub(crate) fn draw_shortened(&mut self, x: usize, end: usize, text: &str, style: Style) -> usize
        requires order { x ≤ end }
        requires end { end ≤ length self.old }
        requires narrow { end < 2 ^ 16 }
        ensures cells { self.new ≡ splice x (text_shortened style (end - x) text.now) self.old }
        ensures behind { result ≡ x + length (text_shortened style (end - x) text.now) }
        ensures width { length self.new ≡ length self.old }
    {
        if x == end || fits(text, end - x) {
            return self.draw_text(x, end, text, style);
        }
        let behind = self.draw_text(x, end - 1, text, style);
        self.fill(behind, behind + 1, '…', style)
    }

    /// Changes the background of the columns from `x` up to `end`.
    pub(crate) fn fill_background(&mut self, x: usize, end: usize, color: Color)
        requires order { x ≤ end }
        requires end { end ≤ length self.old }
        ensures { self.new ≡ in_part x (end - x) (on_background color) self.old }
    {
        color_cells(&mut self.cells, x, end, color);
    }

    /// Blanks all cells but those from column `first` up to `last`.
    pub(crate) fn clear_outside(&mut self, first: usize, last: usize)
        requires order { first ≤ last }
        requires last { last ≤ length self.old }
        ensures { self.new ≡ blank_cells first
            ++ (take (last - first) (drop first self.old) ++ blank_cells (length self.old - last)) }
    {
        clear_outside(&mut self.cells, first, last);
    }
}
