//! Signs, the bytes that spell them, and a page on which they are written.
ghost use Rattle.std.specs.Prelude.{◌≡◌, ◌+◌, ◌-◌, ◌<◌, ◌≤◌, length, slice_index, IfOk, IsOkUnless, OnOk, OnErr, MatchOption, IsTrue};
ghost use Rattle.std.specs.List.{All};
ghost use Rattle.prodash_line.specs.Terminals.{blank_terminal, with_cells, next_line, put_char, blank_rows_from, terminal_after_sign, adds_line, adds_char, needs_memory, IsRow};

mod cell;
mod char_columns;
mod codes;
mod reading;
mod row_cells;
mod sign;
mod style;
mod writing;

pub use cell::{Cell, Joined};
pub use char_columns::{CharColumns, UnicodeWidth};
use prodash_base::Refusal;
pub use reading::{Fault, read};
use row_cells::RowCells;
pub use sign::Sign;
use std::alloc::{AllocError, Global};
use std::marker::Model;
pub use style::{Color, Style};
pub use writing::spell;
pub(crate) use writing::{last_digit, push_open, push_reset, push_sign};

/// A page on which signs are written: all rows ever, of which the last are the window, and a
/// cursor.
///
/// A character of one column takes a cell, and one of two columns takes two. One of no column joins
/// the character before the cursor; at the beginning of a row it isn't shown. A character without
/// room goes to the next row. Without wrapping it stays in the row: in the last cell if it has one
/// column, while one of two columns blanks the last cell.
///
/// ```rust
/// // 40 columns, and a window of 4 rows.
/// let mut page = Page::new(alloc, 40, 4)?;
/// for sign in &read(alloc, b"ab\n\x1b[1A")? {
///     page.apply(alloc, &UnicodeWidth, sign)?;
/// }
/// // The row `ab` and 38 blanks, with the cursor back at its beginning.
/// let row = page.row(0);
/// let cursor = page.cursor();
/// ```
#[derive(Drop)]
pub struct Page {
    columns: u16,
    height: u16,
    rows: Vec<RowCells>,
    row: usize,
    column: u16,
    wraps: bool,
}

impl Model for Page {
    ghost use Rattle.prodash_line.specs.Terminals.{Terminal};
    ghost use Rattle.prodash_line.specs.plumbing.PageInside.{terminal, IsPage};

    ghost Value = { Terminal };

    ghost view = { terminal };

    ghost invariant = { IsPage };
}

/// Adds a blank row below the last if the row isn't there. Fails if out of memory.
fn add_row(
    alloc: Global,
    rows: &mut Vec<RowCells>,
    columns: u16,
    row: usize,
) -> Result<(), AllocError>
    ensures ok { OnOk result (rows.new.items ≡ with_cells columns row rows.old.items) }
    ensures err { OnErr result (rows.new.items ≡ rows.old.items) }
    ensures needed { OnErr result (length rows.old.items ≤ row) }
{
    if row < rows.len() {
        return Ok(());
    }
    let blank = RowCells::blank(alloc, columns)?;
    rows.push(blank)?;
    Ok(())
}

/// Blanks all rows from row `first` on.
fn blank_rows(alloc: Global, rows: &mut Vec<RowCells>, columns: u16, first: usize)
    requires { All (λ row. length row ≡ columns) rows.old.items }
    ensures { rows.new.items ≡ blank_rows_from columns first rows.old.items }
{
    for row in first..rows.len() {
        rows[row].blank_from(alloc, 0);
    }
}

impl Page {
    /// Returns a page of `rows` blank rows, all in the window, with the cursor at its beginning.
    ///
    /// `Memory`: out of memory.
    pub fn new(alloc: Global, columns: u16, rows: u16) -> Result<Self, Refusal>
        requires wide { 0 < columns }
        requires high { 0 < rows }
        ensures page { IfOk result (λ page. page ≡ blank_terminal columns rows) }
        ensures reason { IsOkUnless result Refusal.Memory }
    {
        let mut blanks = Vec::new(alloc);
        for _ in 0..rows {
            let blank = RowCells::blank(alloc, columns)?;
            blanks.push(blank)?;
        }
        Ok(Page {
            columns,
            height: rows,
            rows: blanks,
            row: 0,
            column: 0,
            wraps: true,
        })
    }

    /// Writes one sign, on a terminal that gives characters these columns.
    ///
    /// `Memory`: out of memory. The page is unchanged.
    pub fn apply<W: CharColumns>(
        &mut self,
        alloc: Global,
        widths: &W,
        sign: &Sign,
    ) -> Result<(), Refusal>
        ensures ok { OnOk result
            (self.new ≡ terminal_after_sign (W.given widths.now) sign.now self.old) }
        ensures err { OnErr result (self.new ≡ self.old) }
        ensures reason { IsOkUnless result Refusal.Memory }

        // Only a new row and a character that joins another one need memory.
        ensures needed { OnErr result
            (IsTrue (needs_memory (W.given widths.now) sign.now self.old)) }
    {
        match *sign {
            Sign::Char(c) => self.put_char(alloc, widths.columns(c), c)?,
            Sign::LineFeed => self.next_row(alloc)?,
            Sign::CarriageReturn => self.column = 0,
            Sign::Up(n) => self.row = self.row.saturating_sub(n as usize).max(self.top()),
            Sign::EraseLine => self.rows[self.row].blank_from(alloc, 0),
            Sign::EraseBelow => {
                self.rows[self.row].blank_from(alloc, self.column);
                blank_rows(alloc, &mut self.rows, self.columns, self.row + 1);
            }
            Sign::NoWrap => self.wraps = false,
            Sign::Wrap => self.wraps = true,
            Sign::HideCursor
            | Sign::ShowCursor
            | Sign::BeginUpdate
            | Sign::EndUpdate
            | Sign::Open(_)
            | Sign::Reset => {}
        }
        Ok(())
    }

    /// Puts the cursor at the beginning of the next row. Fails if out of memory.
    fn next_row(&mut self, alloc: Global) -> Result<(), AllocError>
        ensures ok { OnOk result (self.new ≡ next_line self.old) }
        ensures err { OnErr result (self.new ≡ self.old) }
        ensures needed { OnErr result (IsTrue (adds_line self.old)) }
    {
        add_row(alloc, &mut self.rows, self.columns, self.row + 1)?;
        self.row += 1;
        self.column = 0;
        Ok(())
    }

    /// Writes a character of so many columns. Fails if out of memory.
    fn put_char(&mut self, alloc: Global, columns: usize, c: char) -> Result<(), AllocError>
        ensures ok { OnOk result (self.new ≡ put_char columns c self.old) }
        ensures err { OnErr result (self.new ≡ self.old) }
        ensures needed { OnErr result (IsTrue (adds_char columns self.old)) }
    {
        if columns == 0 {
            return self.rows[self.row].join(self.column, c);
        }
        if self.wraps && ((self.columns - self.column) as usize) < columns.min(2) {
            self.next_row(alloc)?;
        }
        let row = &mut self.rows[self.row];
        self.column = if columns == 1 {
            row.put_narrow(alloc, self.columns, self.column, c)
        } else {
            row.put_wide(alloc, self.columns, self.column, c)
        };
        Ok(())
    }

    /// Returns row `n`, counted from the first row ever, or `None` if there are fewer rows.
    pub fn row(&self, n: usize) -> Option<&[Cell]>
        ensures { MatchOption result (length self.now.rows ≤ n)
            (λ row. IsRow self.now.rows n row.now) }
    {
        let row = self.rows.get(n)?;
        Some(row.as_slice())
    }

    /// Returns how many rows there have ever been.
    pub fn rows(&self) -> usize
        ensures { result ≡ length self.now.rows }
    {
        self.rows.len()
    }

    /// Returns the first row of the window, counted from the first row ever.
    pub fn top(&self) -> usize
        ensures { result ≡ length self.now.rows - self.now.height }
    {
        self.rows().saturating_sub(self.height as usize)
    }

    /// Returns the cursor's row, counted from the first row ever, and its column. After a
    /// character in the last column, the column is the number of columns.
    pub fn cursor(&self) -> (usize, u16)
        ensures { result ≡ (self.now.row, self.now.column) }
    {
        (self.row, self.column)
    }
}
