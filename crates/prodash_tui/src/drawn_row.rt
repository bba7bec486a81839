//! The rows of a grid, each with the calls that drew it.
ghost use Rattle.std.specs.Prelude.{◌≡◌, ◌↔◌, true, false, ◌-◌, ◌^◌, ◌<◌, ◌≤◌, [], ◌∷◌, ◌++◌, length, take, slice_get, IfOk, IsTrue};
ghost use Rattle.std.specs.Borrow.{sem};
ghost use Rattle.prodash_tui.specs.Cells.{blank_cells, on_background};
ghost use Rattle.prodash_tui.specs.Rows.{in_part, splice};
ghost use Rattle.prodash_tui.specs.Texts.{filling, text_cut, text_shortened};
ghost use Rattle.prodash_tui.specs.Lends.{KeepsRow};
ghost use Rattle.prodash_tui.specs.plumbing.Calls.{AreWithin, IsCallOf, played, with_word};
ghost use Rattle.prodash_tui.specs.plumbing.DrawnRows.{drawn_cells};

use crate::calls::{Call, Calls};
use crate::grid_row::{GridRow, Span};
use crate::style::{Color, Style};
use crate::word::Word;
use std::alloc::{AllocError, Global};
use std::marker::Model;

/// How often a row that was drawn otherwise again is cleared until it counts as one that is drawn
/// as before.
const PAUSE: u8 = 16;

/// A row of a grid that remembers the calls that drew its cells. After it was cleared, nothing is
/// drawn while the calls are those that are remembered. So a row that is drawn as before costs no
/// more than comparing the calls. Contracts see the list of the cells that the calls draw.
#[derive(Drop)]
pub(crate) struct DrawnRow {
    cells: GridRow,
    calls: Calls,
    /// How many of the calls were made again since the row was cleared.
    same: usize,
    /// Whether the cells are those that the calls draw. If not, they are what contracts see: there
    /// was no memory for a call, or the row is drawn otherwise each time.
    is_remembered: bool,
    /// How often it is cleared until it counts as a row that is drawn as before.
    changes: u8,
}

impl Model for DrawnRow {
    ghost use Rattle.std.specs.Prelude.{List};
    ghost use Rattle.prodash_tui.specs.declared.cell.Cell.{Cell};
    ghost use Rattle.prodash_tui.specs.plumbing.DrawnRows.{IsDrawn, shown};

    ghost Value = { List Cell };

    ghost view = { shown };

    ghost invariant = { IsDrawn };
}

/// Returns whether the call behind the first `same` ones is one of this word in these columns, with
/// this text.
#[inline(always)]
fn is_next(calls: &[Call], same: usize, word: Word, columns: Span, text: &str) -> bool
    ensures { result ≡ true → IsCallOf word columns text.now (slice_get calls.now same) }
{
    match calls.get(same) {
        Some(call) => call.is(word, columns, text),
        None => false,
    }
}

/// Draws what the calls drew.
fn replay(cells: &mut GridRow, calls: &[Call])
    requires narrow { length cells.old < 2 ^ 16 }
    requires within { AreWithin (length cells.old) calls.now }
    ensures { cells.new ≡ played calls.now cells.old }
{
    for call in calls {
        cells.draw(call.word(), call.columns(), call.text());
    }
}

/// Makes the cells those that the first `same` calls draw, and forgets the others. Returns whether
/// there were others.
fn settle(cells: &mut GridRow, calls: &mut Calls, same: usize) -> bool
    requires narrow { length cells.old < 2 ^ 16 }
    requires within { AreWithin (length cells.old) calls.old }
    requires same { same ≤ length calls.old }
    requires drawn { cells.old ≡ drawn_cells (length cells.old) calls.old }
    ensures cells { cells.new ≡ drawn_cells (length cells.old) (take same calls.old) }
    ensures calls { calls.new ≡ take same calls.old }
    ensures others { IsTrue result ↔ (same < length calls.old) }
{
    if same == calls.as_slice().len() {
        return false;
    }
    calls.truncate(same);
    cells.clear();
    replay(cells, calls.as_slice());
    true
}

/// Makes the cells those that the first `same` calls draw, and remembers these and one more. It
/// doesn't remember that one if there is no memory for it, or if the row was drawn otherwise not
/// long before. Returns whether it does.
fn remember(
    cells: &mut GridRow,
    calls: &mut Calls,
    same: usize,
    changes: &mut u8,
    word: Word,
    columns: Span,
    text: &str,
) -> bool
    requires narrow { length cells.old < 2 ^ 16 }
    requires within { AreWithin (length cells.old) calls.old }
    requires same { same ≤ length calls.old }
    requires drawn { cells.old ≡ drawn_cells (length cells.old) calls.old }
    ensures cells { cells.new ≡ drawn_cells (length cells.old) (take same calls.old) }
    ensures kept { result ≡ false → calls.new ≡ take same calls.old }
    ensures more { result ≡ true → calls.new
        ≡ take same calls.old ++ record { word = word; columns = columns; text = text.now } ∷ [] }
{
    if settle(cells, calls, same) {
        *changes = if *changes == 0 { 3 } else { PAUSE };
    }
    if *changes >= PAUSE {
        return false;
    }
    match calls.push(word, columns, text) {
        Ok(()) => true,
        Err(_) => false,
    }
}

impl DrawnRow {
    /// Returns a blank row, with memory for calls whose texts have as many bytes as it has columns.
    /// Fails if out of memory.
    pub(crate) fn blank(alloc: Global, width: u16) -> Result<DrawnRow, AllocError>
        ensures { IfOk result (λ row. row ≡ blank_cells width) }
    {
        Ok(DrawnRow {
            cells: GridRow::blank(alloc, width)?,
            calls: Calls::with_room(alloc, usize::from(width))?,
            same: 0,
            is_remembered: true,
            changes: 0,
        })
    }

    /// Returns the cells. What was not drawn again is forgotten.
    pub(crate) fn cells(&mut self) -> &GridRow
        ensures* stays { sem 𝓛 (KeepsRow self.entry) }
        ensures value { result.now ≡ self.old }
    {
        if !self.is_remembered {
            return &self.cells;
        }
        settle(&mut self.cells, &mut self.calls, self.same);
        &self.cells
    }

    /// Draws a word with its text. If the call is the next one of those that are remembered,
    /// nothing is done.
    #[inline(always)]
    fn draw(&mut self, word: Word, columns: Span, text: &str)
        requires order { columns.first ≤ columns.last }
        requires end { columns.last ≤ length self.old }
        ensures cells { self.new ≡ with_word word columns text.now self.old }
        ensures width { length self.new ≡ length self.old }
    {
        if !self.is_remembered {
            self.cells.draw(word, columns, text);
            return;
        }
        if is_next(self.calls.as_slice(), self.same, word, columns, text) {
            self.same += 1;
            return;
        }
        self.draw_anew(word, columns, text);
    }

    /// Draws a word with its text. The call is remembered in place of those that were not made
    /// again, unless there is no memory for it, or the row was drawn otherwise not long before.
    fn draw_anew(&mut self, word: Word, columns: Span, text: &str)
        requires order { columns.first ≤ columns.last }
        requires end { columns.last ≤ length self.old }
        ensures cells { self.new ≡ with_word word columns text.now self.old }
        ensures width { length self.new ≡ length self.old }
    {
        if !self.is_remembered {
            self.cells.draw(word, columns, text);
            return;
        }
        self.is_remembered = remember(
            &mut self.cells,
            &mut self.calls,
            self.same,
            &mut self.changes,
            word,
            columns,
            text,
        );
        self.same = self.calls.as_slice().len();
        self.cells.draw(word, columns, text);
    }

    /// Draws a text in the columns from `x` up to `end`.
    pub(crate) fn draw_text(&mut self, x: usize, end: usize, text: &str, style: Style)
        requires order { x ≤ end }
        requires end { end ≤ length self.old }
        ensures cells { self.new ≡ splice x (text_cut style (end - x) text.now) self.old }
        ensures width { length self.new ≡ length self.old }
    {
        let columns = Span {
            first: x,
            last: end,
        };
        self.draw(Word::Text(style), columns, text);
    }

    /// Draws a text in the columns from `x` up to `end`, with an ellipsis if it has more.
    pub(crate) fn draw_shortened(&mut self, x: usize, end: usize, text: &str, style: Style)
        requires order { x ≤ end }
        requires end { end ≤ length self.old }
        ensures cells { self.new ≡ splice x (text_shortened style (end - x) text.now) self.old }
        ensures width { length self.new ≡ length self.old }
    {
        let columns = Span {
            first: x,
            last: end,
        };
        self.draw(Word::Shortened(style), columns, text);
    }

    /// Fills the columns from `x` up to `end` with a character.
    pub(crate) fn fill(&mut self, x: usize, end: usize, c: char, style: Style)
        requires order { x ≤ end }
        requires end { end ≤ length self.old }
        ensures cells { self.new ≡ splice x (filling style (end - x) c) self.old }
        ensures width { length self.new ≡ length self.old }
    {
        let columns = Span {
            first: x,
            last: end,
        };
        self.draw(Word::Filling(c, style), columns, "");
    }

    /// Changes the background of the columns from `x` up to `end`.
    pub(crate) fn fill_background(&mut self, x: usize, end: usize, color: Color)
        requires order { x ≤ end }
        requires end { end ≤ length self.old }
        ensures { self.new ≡ in_part x (end - x) (on_background color) self.old }
    {
        let columns = Span {
            first: x,
            last: end,
        };
        self.draw(Word::Background(color), columns, "");
    }

    /// Blanks all cells. What is drawn next is compared with the calls that are remembered.
    pub(crate) fn clear(&mut self)
        ensures { self.new ≡ blank_cells (length self.old) }
    {
        self.same = 0;
        self.changes = self.changes.saturating_sub(1);
        if !self.is_remembered {
            self.calls.truncate(0);
            self.cells.clear();
            self.is_remembered = self.changes == 0;
        }
    }
}
