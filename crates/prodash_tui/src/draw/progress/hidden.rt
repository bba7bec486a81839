//! The line of a progress pane that says what is hidden.
ghost use Rattle.std.specs.Prelude.{◌≡◌, ◌+◌, ◌*◌, ◌≤◌, ◌<◌, length, OnOk, IsOkUnless};
ghost use Rattle.std.specs.Option.{option_map};
ghost use Rattle.prodash_base.specs.Rows.{progress_of, rows_of};
ghost use Rattle.prodash_tui.specs.ProgressPanes as panes;
ghost use Rattle.prodash_tui.specs.ProgressPanes.{hidden, with_text_on};
ghost use Rattle.prodash_tui.specs.plumbing.PaneParts.{DrawsOverflow};

use crate::draw::progress::bar::{bar_columns, black_on, draw_bar, draw_text_across, filled_cells};
use crate::draw::progress::texts::{KEYS, write_hidden};
use crate::grid::Grid;
use crate::rect::offset_x;
use crate::style::Color;
use crate::text::block_width;
use prodash_base::Refusal;
use prodash_base::progress::{Row, Value};
use prodash_core::render::tui::Rect;

/// How many parts the share of a row has.
const MILLIONTHS: u64 = 1_000_000;

/// Returns how much of a row is done, in millionths.
fn row_share(progress: &Option<Value>) -> u64
    ensures value { result ≡ panes.row_share (option_map progress_of progress.now) }
    ensures within { result ≤ 1000000 }
{
    let Some(value) = progress else {
        return 0;
    };
    match value.done_at {
        Some(bound) => filled_cells(MILLIONTHS, value.step, bound),
        None => 0,
    }
}

/// Returns the sum of how much of each row is done, in millionths.
fn total_share(rows: &[Row]) -> u128
    ensures value { result ≡ panes.total_share (rows_of rows.now) }
    ensures within { result ≤ length rows.now * 1000000 }
{
    let mut total = 0;
    for row in rows {
        total += u128::from(row_share(&row.progress));
    }
    total
}

/// Returns how much of the rows that aren't shown is done in the mean, in millionths.
fn mean_share(rows: &[Row], offset: u16, shown: u16) -> u64
    ensures { result ≡ panes.mean_share (hidden offset shown (rows_of rows.now)) }
{
    let above = &rows[..usize::from(offset).min(rows.len())];
    let end = usize::from(offset) + usize::from(shown);
    let below = &rows[end.min(rows.len())..];
    let count = (above.len() + below.len()).max(1);
    ((total_share(above) + total_share(below)) / count as u128) as u64
}

/// Draws a text over a bar, from this column of its rectangle on.
fn draw_text_on(grid: &mut Grid, area: Rect, filled: u16, column: u16, text: &str)
    ensures { grid.new ≡ with_text_on area filled column text.now grid.old }
{
    draw_text_across(
        grid,
        offset_x(area, column),
        filled.saturating_sub(column),
        black_on(Color::Green),
        black_on(Color::Red),
        text,
    );
}

/// Draws how many rows aren't shown, and how much of them is done, behind a tree of so many
/// columns.
pub(crate) fn draw_hidden(
    grid: &mut Grid,
    text: &mut String,
    rows: &[Row],
    offset: u16,
    shown: u16,
    tree: u16,
    area: Rect,
) -> Result<(), Refusal>
    ensures drawn { OnOk result
        (DrawsOverflow rows.now offset shown tree area grid.old grid.new) }
    ensures reason { IsOkUnless result Refusal.Memory }
{
    let end = usize::from(offset) + usize::from(shown);
    write_hidden(
        text,
        tree,
        usize::from(offset),
        rows.len().saturating_sub(end),
    )?;
    let share = mean_share(rows, offset, shown);
    draw_bar(grid, area, share, MILLIONTHS, Color::Green);
    let filled = bar_columns(area.width, share, MILLIONTHS);
    grid.fill_background(offset_x(area, filled.saturating_sub(1)), Color::Red);
    draw_text_on(grid, area, filled, tree, text.as_str());
    let keys = area.width.saturating_sub(block_width(KEYS));
    draw_text_on(grid, area, filled, keys, KEYS);
    Ok(())
}
