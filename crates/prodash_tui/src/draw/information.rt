//! The information pane.
ghost use Rattle.std.specs.Prelude.{◌≡◌};
ghost use Rattle.prodash_tui.specs.InformationPanes.{lines_bound, rows_to, blank_row_of, with_information, with_last_line, with_line, with_lines};

use crate::draw::parts::{bold, draw_head};
use crate::grid::Grid;
use crate::rect::{bottom_of, line_bound, offset_x};
use crate::style::Style;
use crate::text::block_width;
use prodash_core::render::tui::{Line, Rect};

/// Draws the information pane: the lines between its first row, which has the title and the keys
/// that hide and maximize the pane, and its last one.
///
/// A title has a line behind it, a blank row below it, and one above it unless it is the first
/// line. The last line is bold; if it is a title, it isn't drawn. Lines that don't fit are left out.
pub fn pane(lines: &[Line], bound: Rect, grid: &mut Grid)
    ensures { grid.new ≡ with_information lines.now bound grid.old }
{
    grid.fill(bottom_of(bound), '─', Style::new());
    draw_head(grid, bound, "Information", " ⨯ = [ | ▢ = { ");
    draw_lines(lines, lines_bound(bound), grid);
}

/// Returns where the lines of a pane are.
fn lines_bound(area: Rect) -> Rect
    ensures { result ≡ lines_bound area }
{
    Rect {
        x: area.x,
        y: area.y.saturating_add(1),
        width: area.width.saturating_sub(1),
        height: area.height.saturating_sub(2),
    }
}

/// Draws lines from the first row of a rectangle on.
fn draw_lines(lines: &[Line], area: Rect, grid: &mut Grid)
    ensures { grid.new ≡ with_lines area 0 lines.now grid.old }
{
    let mut row = 0;
    let mut left = lines;
    while let Some((line, rest)) = left.split_first() {
        if row >= usize::from(area.height) {
            return;
        }
        let bound = line_bound(area, row);
        match rest.first() {
            Some(next) => {
                draw_line(line, bound, grid);
                row += rows_to(line, next);
            }
            None => draw_last_line(line, bound, grid),
        }
        left = rest;
    }
}

/// Returns how many blank rows a line takes: one if it is a title.
fn blank_row_of(line: &Line) -> usize
    ensures { result ≡ blank_row_of line.now }
{
    match line {
        Line::Title(_) => 1,
        Line::Text(_) => 0,
    }
}

/// Returns how many rows the next line is below a line.
fn rows_to(line: &Line, next: &Line) -> usize
    ensures { result ≡ rows_to line.now next.now }
{
    1 + blank_row_of(line) + blank_row_of(next)
}

/// Draws a line that others follow.
fn draw_line(line: &Line, row: Rect, grid: &mut Grid)
    ensures { grid.new ≡ with_line row line.now grid.old }
{
    match line {
        Line::Title(title) => {
            let title = title.as_str();
            grid.draw_text_with_ellipsis(row, title, bold());
            let behind = offset_x(offset_x(row, block_width(title)), 1);
            grid.fill(behind, '─', Style::new());
        }
        Line::Text(text) => {
            grid.draw_text_with_ellipsis(offset_x(row, 1), text.as_str(), Style::new());
        }
    }
}

/// Draws the last line.
fn draw_last_line(line: &Line, row: Rect, grid: &mut Grid)
    ensures { grid.new ≡ with_last_line row line.now grid.old }
{
    match line {
        Line::Title(_) => {}
        Line::Text(text) => grid.draw_text_with_ellipsis(offset_x(row, 1), text.as_str(), bold()),
    }
}
