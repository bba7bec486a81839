//! A grid of cells, and the words that draw on it.
ghost use Rattle.std.specs.Prelude.{◌≡◌, ◌+◌, ◌-◌, ◌<◌, ◌≤◌, ◌^◌, length, replicate, IfOk, IsOkUnless, MatchOption};
ghost use Rattle.std.specs.Borrow.{sem};
ghost use Rattle.std.specs.List.{All};
ghost use Rattle.prodash_tui.specs.Cells.{blank_cells};
ghost use Rattle.prodash_tui.specs.Grids.{IsRow, IsSheet, blank_sheet, left_of, room_of, with_background, with_border, with_filling, with_shortened, with_text};
ghost use Rattle.prodash_tui.specs.Lends.{KeepsGrid};
ghost use Rattle.prodash_tui.specs.plumbing.GridInside.{colored_rows, filled_rows};

use crate::drawn_row::DrawnRow;
use crate::packed::PackedCell;
use crate::rect::{bottom_of, left_side_of, right_side_of, top_of};
use crate::style::{Color, Style};
use prodash_base::Refusal;
use prodash_core::render::tui::Rect;
use std::alloc::Global;
use std::marker::Model;

/// A grid of cells, each with a character in a style. Words draw on the part of a rectangle that is
/// on the grid.
///
/// A character of two columns has two cells. If one of them is drawn over, what is left of the
/// character is blank.
///
/// Its rows remember the calls that drew them. After `clear` nothing is drawn on a row while the
/// calls are the same, so a grid that is drawn much as before costs little.
///
/// ```rust
/// // 40 columns and 4 rows, with a title in the border.
/// let mut grid = Grid::new(alloc, 40, 4)?;
/// let area = Rect { x: 0, y: 0, width: 40, height: 4 };
/// grid.draw_border(area, Style::new());
/// grid.draw_text(Rect { x: 1, y: 0, width: 38, height: 1 }, "Progress", Style::new().bold());
/// ```
#[derive(Drop)]
pub struct Grid {
    width: u16,
    height: u16,
    pub(crate) rows: Vec<DrawnRow>,
}

impl Model for Grid {
    ghost use Rattle.prodash_tui.specs.Grids.{Sheet};

    ghost Value = { Sheet };

    ghost use Rattle.prodash_tui.specs.plumbing.GridInside.{sheet, IsGrid};

    ghost view = { sheet };

    ghost invariant = { IsGrid };
}

/// Blanks all cells of the rows.
fn clear_rows(rows: &mut Vec<DrawnRow>, width: u16)
    requires { All (λ row. length row ≡ width) rows.old.items }
    ensures { rows.new.items ≡ replicate (length rows.old.items) (blank_cells width) }
{
    for k in 0..rows.len() {
        rows[k].clear();
    }
}

/// Fills the columns from `x` up to `end` with a character, in rows `first` up to `last`.
fn fill_rows(
    rows: &mut Vec<DrawnRow>,
    first: usize,
    last: usize,
    x: usize,
    end: usize,
    c: char,
    style: Style,
)
    requires order { x ≤ end }
    requires end { All (λ row. end ≤ length row) rows.old.items }
    requires rows { first ≤ last }
    requires last { last ≤ length rows.old.items }
    ensures { rows.new.items ≡ filled_rows first last x end style c rows.old.items }
{
    for k in first..last {
        rows[k].fill(x, end, c, style);
    }
}

/// Changes the background of the columns from `x` up to `end`, in rows `first` up to `last`.
fn color_rows(
    rows: &mut Vec<DrawnRow>,
    first: usize,
    last: usize,
    x: usize,
    end: usize,
    color: Color,
)
    requires order { x ≤ end }
    requires end { All (λ row. end ≤ length row) rows.old.items }
    requires rows { first ≤ last }
    requires last { last ≤ length rows.old.items }
    ensures { rows.new.items ≡ colored_rows first last x end color rows.old.items }
{
    for k in first..last {
        rows[k].fill_background(x, end, color);
    }
}

impl Grid {
    /// Returns a grid of blank cells.
    ///
    /// `Memory`: out of memory.
    pub fn new(alloc: Global, width: u16, height: u16) -> Result<Grid, Refusal>
        ensures ok { IfOk result (λ grid. grid ≡ blank_sheet width height) }
        ensures reason { IsOkUnless result Refusal.Memory }
    {
        let mut rows = Vec::new(alloc);
        for _ in 0..height {
            let row = DrawnRow::blank(alloc, width)?;
            rows.push(row)?;
        }
        Ok(Grid {
            width,
            height,
            rows,
        })
    }

    /// Returns how many columns the grid has.
    pub fn width(&self) -> u16
        ensures value { result ≡ self.now.width }
        ensures sheet { IsSheet self.now }
    {
        self.width
    }

    /// Returns how many rows the grid has.
    pub fn height(&self) -> u16
        ensures { result ≡ self.now.height }
    {
        self.height
    }

    /// Returns the cells of row `y`, or `None` if there are fewer rows.
    pub fn row(&mut self, y: u16) -> Option<&[PackedCell]>
        ensures* stays { sem 𝓛 (KeepsGrid self.entry) }
        ensures cells { MatchOption result (self.old.height ≤ y) (λ row. IsRow self.old y row.now) }
    {
        let row = self.rows.get_mut(usize::from(y))?;
        Some(row.cells().as_slice())
    }

    /// Blanks all cells.
    pub fn clear(&mut self)
        ensures { self.new ≡ blank_sheet self.old.width self.old.height }
    {
        clear_rows(&mut self.rows, self.width);
    }

    /// Draws a text in the first row of a rectangle. What doesn't fit is cut off, and so is a
    /// character of two columns that only one is left for. U+FFFD is drawn in place of control
    /// characters and others that `safe_char` replaces.
    pub fn draw_text(&mut self, area: Rect, text: &str, style: Style)
        ensures { self.new ≡ with_text area style text.now self.old }
    {
        if area.height == 0 || area.y >= self.height {
            return;
        }
        let x = area.x.min(self.width);
        let end = x + area.width.min(self.width - x);
        let row = &mut self.rows[usize::from(area.y)];
        row.draw_text(usize::from(x), usize::from(end), text, style);
    }

    /// Draws a text in the first row of a rectangle as `draw_text` does, but with an ellipsis at
    /// the end of what is drawn if it doesn't fit.
    pub fn draw_text_with_ellipsis(&mut self, area: Rect, text: &str, style: Style)
        ensures { self.new ≡ with_shortened area style text.now self.old }
    {
        if area.height == 0 || area.y >= self.height {
            return;
        }
        let x = area.x.min(self.width);
        let end = x + area.width.min(self.width - x);
        let row = &mut self.rows[usize::from(area.y)];
        row.draw_shortened(usize::from(x), usize::from(end), text, style);
    }

    /// Fills a rectangle with a character.
    pub fn fill(&mut self, area: Rect, c: char, style: Style)
        ensures { self.new ≡ with_filling area style c self.old }
    {
        let x = area.x.min(self.width);
        let end = x + area.width.min(self.width - x);
        let y = area.y.min(self.height);
        let last = y + area.height.min(self.height - y);
        fill_rows(
            &mut self.rows,
            usize::from(y),
            usize::from(last),
            usize::from(x),
            usize::from(end),
            c,
            style,
        );
    }

    /// Changes the background of a rectangle. The characters stay.
    pub fn fill_background(&mut self, area: Rect, color: Color)
        ensures { self.new ≡ with_background area color self.old }
    {
        let x = area.x.min(self.width);
        let end = x + area.width.min(self.width - x);
        let y = area.y.min(self.height);
        let last = y + area.height.min(self.height - y);
        color_rows(
            &mut self.rows,
            usize::from(y),
            usize::from(last),
            usize::from(x),
            usize::from(end),
            color,
        );
    }

    /// Draws a border inside a rectangle.
    pub fn draw_border(&mut self, area: Rect, style: Style)
        ensures { self.new ≡ with_border area style self.old }
    {
        let (top, bottom) = (top_of(area), bottom_of(area));
        self.fill(left_side_of(area), '│', style);
        self.fill(right_side_of(area), '│', style);
        self.fill(bottom, '─', style);
        self.fill(top, '─', style);
        self.fill(right_side_of(bottom), '┘', style);
        self.fill(right_side_of(top), '┐', style);
        self.fill(left_side_of(bottom), '└', style);
        self.fill(left_side_of(top), '┌', style);
    }
}
