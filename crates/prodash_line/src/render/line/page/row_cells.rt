//! The cells of a row of a page.
ghost use Rattle.std.specs.Prelude.{◌≡◌, ◌+◌, ◌<◌, ◌≤◌, [], suc, length, IfOk, OnOk, OnErr};
ghost use Rattle.prodash_line.specs.CellRows as rows;
ghost use Rattle.prodash_line.specs.CellRows.{blank_cells, joined_by, is_half, put};
ghost use Rattle.prodash_line.specs.Terminals.{blank_after};
ghost use Rattle.prodash_line.specs.plumbing.Cells.{at_column};

use crate::render::line::page::cell::{Cell, Joined};
use std::alloc::{AllocError, Global};
use std::marker::Model;

/// The cells of a row. Contracts see their list.
#[derive(Drop)]
pub(crate) struct RowCells {
    cells: Vec<Cell>,
}

impl Model for RowCells {
    ghost use Rattle.std.specs.Prelude.{List};
    ghost use Rattle.prodash_line.specs.declared.render.line.page.cell.Cell.{Cell};

    ghost Value = { List Cell };

    ghost view = { λ row. row.cells.items };
}

/// Returns a cell with a character by itself.
fn cell_of(alloc: Global, c: char) -> Cell
    ensures { result ≡ Cell.Holds c [] }
{
    Cell::Holds(c, Joined::new(alloc))
}

/// Whether a cell is the second half of a character.
fn is_half(cell: &Cell) -> bool
    ensures { result ≡ is_half cell.now }
{
    match cell {
        Cell::Holds(..) => false,
        Cell::Half => true,
    }
}

/// Joins a character to the one in a cell. Fails if out of memory.
fn join_cell(cell: &mut Cell, c: char) -> Result<(), AllocError>
    ensures ok { OnOk result (cell.new ≡ joined_by c cell.old) }
    ensures err { OnErr result (cell.new ≡ cell.old) }
{
    match cell {
        Cell::Holds(_, joined) => joined.push(c),
        Cell::Half => Ok(()),
    }
}

impl RowCells {
    /// Returns a blank row. Fails if out of memory.
    pub(crate) fn blank(alloc: Global, width: u16) -> Result<RowCells, AllocError>
        ensures { IfOk result (λ row. row ≡ blank_cells width) }
    {
        let mut cells = Vec::new(alloc);
        for _ in 0..width {
            cells.push(cell_of(alloc, ' '))?;
        }
        Ok(RowCells { cells })
    }

    /// Returns the cells.
    pub(crate) fn as_slice(&self) -> &[Cell]
        ensures { result.now ≡ self.now }
    {
        self.cells.as_slice()
    }

    /// Blanks cell `n` if cell `k` is the second half of a character.
    fn blank_if_half(&mut self, alloc: Global, k: usize, n: usize)
        requires { n ≤ k }
        ensures cells { self.new ≡ rows.blank_if_half k n self.old }
        ensures width { length self.new ≡ length self.old }
    {
        if k < self.cells.len() && is_half(&self.cells[k]) {
            self.cells[n] = cell_of(alloc, ' ');
        }
    }

    /// Blanks the other half of what is torn where cell `k` is written.
    fn tear(&mut self, alloc: Global, k: usize)
        requires { k ≤ length self.old }
        ensures cells { self.new ≡ rows.torn k self.old }
        ensures width { length self.new ≡ length self.old }
    {
        self.blank_if_half(alloc, k, k.saturating_sub(1));
        if k < self.cells.len() {
            self.blank_if_half(alloc, k + 1, k + 1);
        }
    }

    /// Writes cell `k`.
    fn write(&mut self, alloc: Global, k: usize, cell: Cell)
        requires { k < length self.old }
        ensures cells { self.new ≡ rows.write k cell self.old }
        ensures width { length self.new ≡ length self.old }
    {
        self.tear(alloc, k);
        self.cells[k] = cell;
    }

    /// Joins a character to the one before a column, if there is one. Fails if out of memory.
    pub(crate) fn join(&mut self, column: u16, c: char) -> Result<(), AllocError>
        requires { column ≤ length self.old }
        ensures ok { OnOk result (self.new ≡ rows.join c self.old column) }
        ensures err { OnErr result (self.new ≡ self.old) }
        ensures needed { OnErr result (0 < column) }
    {
        if column == 0 {
            return Ok(());
        }
        let k = column as usize - 1;
        let n = if is_half(&self.cells[k]) {
            k.saturating_sub(1)
        } else {
            k
        };
        join_cell(&mut self.cells[n], c)
    }

    /// Writes a character of one column, and returns the column behind it. Past the last cell it
    /// replaces that cell.
    pub(crate) fn put_narrow(&mut self, alloc: Global, width: u16, column: u16, c: char) -> u16
        requires width { length self.old ≡ width }
        requires some { 0 < width }
        requires column { column ≤ width }
        ensures row { at_column self.new result ≡ put 1 width c (at_column self.old column) }
        ensures width { length self.new ≡ width }
        ensures column { result ≤ width }
    {
        let k = column.min(width - 1);
        self.write(alloc, k as usize, cell_of(alloc, c));
        k + 1
    }

    /// Writes a character of two columns, and returns the column behind it. Where it has no room it
    /// blanks the last cell.
    pub(crate) fn put_wide(&mut self, alloc: Global, width: u16, column: u16, c: char) -> u16
        requires width { length self.old ≡ width }
        requires some { 0 < width }
        requires column { column ≤ width }
        ensures row { at_column self.new result ≡ put 2 width c (at_column self.old column) }
        ensures width { length self.new ≡ width }
        ensures column { result ≤ width }
    {
        if width - column < 2 {
            self.write(alloc, width as usize - 1, cell_of(alloc, ' '));
            return width;
        }
        self.write(alloc, column as usize, cell_of(alloc, c));
        self.write(alloc, column as usize + 1, Cell::Half);
        column + 2
    }

    /// Blanks the row from a column on.
    pub(crate) fn blank_from(&mut self, alloc: Global, column: u16)
        requires { column ≤ length self.old }
        ensures cells { self.new ≡ blank_after (length self.old) column self.old }
        ensures width { length self.new ≡ length self.old }
    {
        self.tear(alloc, column as usize);
        for k in column as usize..self.cells.len() {
            self.cells[k] = cell_of(alloc, ' ');
        }
    }
}
