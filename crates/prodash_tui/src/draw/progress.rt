//! The progress pane of a dashboard.
ghost use Rattle.std.specs.Prelude.{◌≡◌, OnOk, IfOk, IsOkUnless};
ghost use Rattle.prodash_base.specs.Adjacency.{IsAscending, paths_of};
ghost use Rattle.prodash_base.specs.Rows.{rows_of};
ghost use Rattle.prodash_tui.specs.ProgressPanes as panes;
ghost use Rattle.prodash_tui.specs.ProgressPanes.{DrawsPane, known_columns, scrolled, with_hidden};
ghost use Rattle.prodash_tui.specs.plumbing.PaneParts.{DrawsTreeOn};
ghost use Rattle.prodash_tui.specs.plumbing.Spinners.{lines_for};

mod bar;
mod hidden;
mod lines;
mod row;
mod tasks;
mod texts;
mod tree;

use crate::grid::Grid;
use crate::offset::sanitize_offset;
use crate::rect::{bottom_of, offset_x};
use bar::first_columns;
use hidden::draw_hidden;
use lines::Lines;
pub use lines::Scroll;
use prodash_base::Refusal;
use prodash_base::progress::Row;
use prodash_base::time::Moment;
use prodash_core::render::tui::Rect;
use row::{columns_before_spinners, draw_rows};
use std::alloc::Global;
pub use tasks::Tasks;
use tree::draw_tree;

/// The fewest columns of a tree.
const LEAST_TREE_COLUMNS: u16 = 20;

/// Returns whether rows don't fit on the lines of a rectangle.
fn overflows(rows: &[Row], area: Rect) -> bool
    ensures { result ≡ panes.overflows (rows_of rows.now) area }
{
    usize::from(area.height) < rows.len()
}

/// Returns the lines of a rectangle that show rows: all but the last, if they don't fit.
fn rows_area(rows: &[Row], area: Rect) -> Rect
    ensures { result ≡ panes.rows_area (rows_of rows.now) area }
{
    if overflows(rows, area) {
        Rect {
            height: area.height.saturating_sub(1),
            ..area
        }
    } else {
        area
    }
}

/// Returns how many columns the tree has, if this many are known: a third if none are, none if a
/// third is too few, and at most half, so that a long name leaves room for the bars.
fn tree_width(area: Rect, known: u16) -> u16
    ensures { result ≡ panes.tree_width area known }
{
    let third = area.width / 3;
    if third < LEAST_TREE_COLUMNS {
        0
    } else if known == 0 {
        third
    } else {
        known.min(area.width / 2)
    }
}

/// Draws the tree on so many columns, if there are any, and returns how many the widest row has.
fn draw_tree_on(
    grid: &mut Grid,
    text: &mut String,
    rows: &[Row],
    columns: u16,
    area: Rect,
    offset: u16,
) -> Result<u16, Refusal>
    requires sorted { IsAscending (paths_of rows.now) }
    ensures drawn { OnOk result
        (DrawsTreeOn columns rows.now area offset grid.old grid.new) }
    ensures columns { IfOk result (λ n.
        n ≡ known_columns columns (rows_of rows.now) area offset) }
    ensures reason { IsOkUnless result Refusal.Memory }
{
    if columns == 0 {
        return Ok(0);
    }
    draw_tree(grid, text, rows, first_columns(area, columns), offset)
}

/// Returns the lines behind a tree of so many columns. Writes over the text.
fn lines_behind(
    alloc: Global,
    text: &mut String,
    rows: &[Row],
    columns: u16,
    area: Rect,
    offset: u16,
    at: Moment,
) -> Result<Lines, Refusal>
    ensures ok { IfOk result (λ lines.
        lines ≡ lines_for columns (rows_of rows.now) area offset at) }
    ensures reason { IsOkUnless result Refusal.Memory }
{
    let behind = offset_x(area, columns);
    let amount_columns = columns_before_spinners(alloc, text, rows, behind, offset)?;
    Ok(Lines {
        area: behind,
        offset,
        amount_columns,
        at,
    })
}

/// Draws the line that says what is hidden, if rows don't fit.
fn draw_hidden_line(
    grid: &mut Grid,
    text: &mut String,
    rows: &[Row],
    offset: u16,
    tree: u16,
    area: Rect,
) -> Result<(), Refusal>
    ensures drawn { OnOk result
        (grid.new ≡ with_hidden (rows_of rows.now) offset tree area grid.old) }
    ensures reason { IsOkUnless result Refusal.Memory }
{
    if !overflows(rows, area) {
        return Ok(());
    }
    let shown = rows_area(rows, area).height;
    draw_hidden(grid, text, rows, offset, shown, tree, bottom_of(area))
}

/// Draws tasks in a rectangle: the branches and the names of a tree on the left, if a third of the
/// rectangle has 20 columns, and behind it the progress of each row with its throughput, a bar if it
/// has a bound and a spinner if not. If the rows don't fit, the last line says how many are hidden, and how much of
/// them is done in the mean.
///
/// `scroll` is how far the rows are scrolled, and `text` memory for texts, which is written over. The
/// rows must be in strictly ascending order of their keys, as those of a snapshot are. Returns how
/// far they are scrolled now, which is no further than leaves the lines full, and how many columns
/// the widest row of the tree has, for the next frame.
///
/// `Memory`: out of memory. A part of the rows may be drawn then.
pub fn pane(
    alloc: Global,
    grid: &mut Grid,
    text: &mut String,
    tasks: &Tasks<'_>,
    scroll: Scroll,
    area: Rect,
) -> Result<Scroll, Refusal>
    requires sorted { IsAscending (paths_of tasks.now.rows.now) }
    ensures drawn { OnOk result (DrawsPane tasks.now scroll area grid.old grid.new) }
    ensures scrolled { IfOk result
        (λ s. s ≡ scrolled (rows_of tasks.now.rows.now) scroll area) }
    ensures reason { IsOkUnless result Refusal.Memory }
{
    let rows = tasks.rows;
    let shown = rows_area(rows, area);
    let offset = sanitize_offset(scroll.offset, rows.len(), shown.height);
    let tree = tree_width(area, scroll.tree_columns);
    let tree_columns = draw_tree_on(grid, text, rows, tree, shown, offset)?;
    let lines = lines_behind(alloc, text, rows, tree, shown, offset, tasks.at)?;
    draw_rows(alloc, grid, text, rows, tasks.rates, &lines)?;
    draw_hidden_line(grid, text, rows, offset, tree, area)?;
    Ok(Scroll {
        offset,
        tree_columns,
    })
}
