//! The tree of a progress pane.
ghost use Rattle.std.specs.Prelude.{◌≡◌, ◌+◌, ◌<◌, length, OnOk, IfOk, IsOkUnless};
ghost use Rattle.std.specs.Option.{option_map};
ghost use Rattle.prodash_base.specs.Adjacency.{IsAscending, paths_of};
ghost use Rattle.prodash_base.specs.Rows.{progress_of, rows_of};
ghost use Rattle.prodash_tui.specs.Grids.{IsSheet, with_shortened};
ghost use Rattle.prodash_tui.specs.ProgressPanes as panes;
ghost use Rattle.prodash_tui.specs.ProgressPanes.{tree_columns, with_tree, with_tree_row};
ghost use Rattle.prodash_tui.specs.RowTexts.{tree_row_columns};
ghost use Rattle.prodash_tui.specs.Texts.{block_width};

use crate::draw::parts::bold;
use crate::draw::progress::texts::write_tree_text;
use crate::grid::Grid;
use crate::rect::line_bound;
use crate::style::Style;
use prodash_base::Refusal;
use prodash_base::progress::{Row, Value};
use prodash_core::render::tui::Rect;

/// Returns how many rows from an offset on a rectangle shows.
pub(crate) fn shown_count(rows: &[Row], area: Rect, offset: u16) -> u16
    ensures { result ≡ panes.shown_count (rows_of rows.now) area offset }
{
    let left = rows.len().saturating_sub(usize::from(offset));
    left.min(usize::from(area.height)) as u16
}

/// Returns the style of a row of the tree.
fn tree_style(progress: &Option<Value>) -> Style
    ensures { result ≡ panes.tree_style (option_map progress_of progress.now) }
{
    match progress {
        None => bold(),
        Some(_) => Style::new(),
    }
}

/// Returns a line of the tree.
fn tree_line(area: Rect, line: u16) -> Rect
    ensures { result ≡ panes.tree_line area line }
{
    let bound = line_bound(area, usize::from(line));
    Rect {
        x: bound.x.saturating_sub(1),
        width: bound.width.saturating_sub(1),
        ..bound
    }
}

/// Draws a text of so many columns as `Grid::draw_text_with_ellipsis` does. One that has room is not
/// measured again.
pub(crate) fn draw_measured(grid: &mut Grid, area: Rect, text: &str, columns: u16, style: Style)
    requires { columns ≡ block_width text.now }
    ensures drawn { grid.new ≡ with_shortened area style text.now grid.old }
    ensures sheet { IsSheet grid.old }
{
    let room = area.width.min(grid.width().saturating_sub(area.x));
    if columns < u16::MAX && columns <= room {
        grid.draw_text(area, text, style);
        return;
    }
    grid.draw_text_with_ellipsis(area, text, style);
}

/// Draws a row of the tree, and returns how many columns it has, with one behind it.
fn draw_tree_row(
    grid: &mut Grid,
    text: &mut String,
    rows: &[Row],
    index: usize,
    line: Rect,
) -> Result<u16, Refusal>
    requires sorted { IsAscending (paths_of rows.now) }
    requires inside { index < length rows.now }
    ensures drawn { OnOk result
        (grid.new ≡ with_tree_row (rows_of rows.now) index line grid.old) }
    ensures columns { IfOk result (λ n. n ≡ tree_row_columns (rows_of rows.now) index) }
    ensures reason { IsOkUnless result Refusal.Memory }
{
    let columns = write_tree_text(text, rows, index)?;
    let style = tree_style(&rows[index].progress);
    draw_measured(grid, line, text.as_str(), columns, style);
    Ok(columns.saturating_add(1))
}

/// Draws the tree of the rows from an offset on, and returns how many columns the widest has, with
/// one behind it.
pub(crate) fn draw_tree(
    grid: &mut Grid,
    text: &mut String,
    rows: &[Row],
    area: Rect,
    offset: u16,
) -> Result<u16, Refusal>
    requires sorted { IsAscending (paths_of rows.now) }
    ensures drawn { OnOk result
        (grid.new ≡ with_tree (rows_of rows.now) area offset grid.old) }
    ensures columns { IfOk result (λ n. n ≡ tree_columns (rows_of rows.now) area offset) }
    ensures reason { IsOkUnless result Refusal.Memory }
{
    let mut columns = 0;
    for line in 0..shown_count(rows, area, offset) {
        let index = usize::from(offset) + usize::from(line);
        let width = draw_tree_row(grid, text, rows, index, tree_line(area, line))?;
        columns = width.max(columns);
    }
    Ok(columns)
}
