//! The rows of a progress pane.
ghost use Rattle.std.specs.Prelude.{◌≡◌, ◌+◌, ◌<◌, length, OnOk, IfOk, IsOkUnless};
ghost use Rattle.std.specs.Option.{option_map};
ghost use Rattle.prodash_base.specs.Adjacency.{IsAscending, paths_of};
ghost use Rattle.prodash_base.specs.Rows.{progress_of, rows_of};
ghost use Rattle.prodash_tui.specs.Cells.{plain};
ghost use Rattle.prodash_tui.specs.Grids.{with_shortened};
ghost use Rattle.prodash_tui.specs.Panes.{vertical_line};
ghost use Rattle.prodash_tui.specs.ProgressPanes as panes;
ghost use Rattle.prodash_tui.specs.ProgressPanes.{behind_branches, widest_amount, with_bounded, with_branches, with_group, with_rows};
ghost use Rattle.prodash_tui.specs.Rates.{rate_at};
ghost use Rattle.prodash_tui.specs.RowTexts.{amount_columns};
ghost use Rattle.prodash_tui.specs.Texts.{block_width};
ghost use Rattle.prodash_tui.specs.plumbing.PaneParts.{DrawsRow, DrawsValue};
ghost use Rattle.prodash_tui.specs.plumbing.Spinners.{columns_before_spinners, is_boundless, shows_spinner};

use crate::draw::parts::bold;
use crate::draw::progress::bar::{
    bar_color, bar_columns, black_on, draw_bar, draw_spinner, draw_text_across, first_columns,
    spinner_color,
};
use crate::draw::progress::lines::Lines;
use crate::draw::progress::texts::{
    has_child, write_amount, write_branches, write_label, write_title,
};
use crate::draw::progress::tree::{draw_measured, shown_count};
use crate::grid::Grid;
use crate::rect::{line_bound, offset_x};
use crate::style::Style;
use prodash_base::Refusal;
use prodash_base::progress::{Row, Step, Value};
use prodash_base::unit::display::Throughput;
use prodash_core::render::tui::{Rect, VERTICAL_LINE};
use std::alloc::Global;

/// Draws branches of so many columns over a vertical line, which only shows if there are none.
fn draw_on_line(grid: &mut Grid, line: Rect, branches: &str, columns: u16)
    requires { columns ≡ block_width branches.now }
    ensures { grid.new ≡ with_shortened line plain branches.now
        (with_shortened line plain vertical_line grid.old) }
{
    if columns > 0 {
        draw_measured(grid, line, branches, columns, Style::new());
        return;
    }
    grid.draw_text_with_ellipsis(line, VERTICAL_LINE, Style::new());
    grid.draw_text_with_ellipsis(line, branches, Style::new());
}

/// Draws the branches that lead to a row on a line, and returns what is behind them. Writes over
/// the text.
fn draw_branches(
    grid: &mut Grid,
    text: &mut String,
    rows: &[Row],
    index: usize,
    line: Rect,
) -> Result<Rect, Refusal>
    requires sorted { IsAscending (paths_of rows.now) }
    requires inside { index < length rows.now }
    ensures drawn { OnOk result
        (grid.new ≡ with_branches (rows_of rows.now) index line grid.old) }
    ensures behind { IfOk result (λ r. r ≡ behind_branches (rows_of rows.now) index line) }
    ensures reason { IsOkUnless result Refusal.Memory }
{
    let columns = write_branches(text, rows, index)?;
    draw_on_line(grid, line, text.as_str(), columns);
    Ok(offset_x(line, columns))
}

/// Returns how many columns the line of a group has.
fn rule_columns(has_child: bool, columns: u16) -> u16
    ensures { result ≡ panes.rule_columns has_child columns }
{
    if has_child {
        columns.saturating_sub(3).max(1)
    } else {
        1
    }
}

/// Draws a group: a line of so many columns, and its title over it.
fn draw_group(
    grid: &mut Grid,
    text: &mut String,
    name: &str,
    columns: u16,
    line: Rect,
) -> Result<(), Refusal>
    ensures drawn { OnOk result (grid.new ≡ with_group name.now columns line grid.old) }
    ensures reason { IsOkUnless result Refusal.Memory }
{
    write_title(text, name)?;
    let rule = first_columns(offset_x(line, 1), columns);
    grid.fill(rule, '─', Style::new());
    grid.draw_text_with_ellipsis(line, text.as_str(), bold());
    Ok(())
}

/// Draws a progress with a bound: a bar, and its label over it.
fn draw_bounded(grid: &mut Grid, value: &Value, bound: Step, label: &str, line: Rect)
    ensures { grid.new ≡ with_bounded (progress_of value.now) bound label.now line grid.old }
{
    let color = bar_color(value, bound);
    draw_bar(grid, line, value.step, bound, color);
    let columns = bar_columns(line.width, value.step, bound);
    draw_text_across(grid, line, columns, black_on(color), Style::new(), label);
}

/// Draws a progress with its label behind the branches of its line.
fn draw_value(grid: &mut Grid, value: &Value, label: &str, lines: &Lines, line: u16, behind: Rect)
    ensures { DrawsValue value.now label.now lines.now line behind grid.old grid.new }
{
    match value.done_at {
        Some(bound) => draw_bounded(grid, value, bound, label, behind),
        None => {
            grid.draw_text_with_ellipsis(behind, label, Style::new());
            let whole = line_bound(lines.area, usize::from(line));
            let place = u128::from(value.step) + u128::from(line);
            let area = offset_x(whole, lines.amount_columns);
            draw_spinner(grid, area, place, spinner_color(value));
        }
    }
}

/// Returns the throughput of a row; none of a row behind the end of the list.
fn rate_at(rates: &[Option<Throughput>], index: usize) -> Option<Throughput>
    ensures { result ≡ rate_at rates.now index }
{
    rates.get(index).copied().flatten()
}

/// Draws a row with its throughput on a line.
fn draw_row(
    alloc: Global,
    grid: &mut Grid,
    text: &mut String,
    rows: &[Row],
    rates: &[Option<Throughput>],
    lines: &Lines,
    line: u16,
) -> Result<(), Refusal>
    requires sorted { IsAscending (paths_of rows.now) }
    requires inside { lines.now.offset + line < length rows.now }
    ensures drawn { OnOk result
        (DrawsRow rows.now rates.now lines.now line grid.old grid.new) }
    ensures reason { IsOkUnless result Refusal.Memory }
{
    let index = usize::from(lines.offset) + usize::from(line);
    let bound = line_bound(lines.area, usize::from(line));
    let behind = draw_branches(grid, text, rows, index, bound)?;
    let row = &rows[index];
    match &row.progress {
        Some(value) => {
            write_label(alloc, text, lines.at, rate_at(rates, index), value)?;
            draw_value(grid, value, text.as_str(), lines, line, behind);
            Ok(())
        }
        None => {
            let columns = rule_columns(has_child(rows, index), lines.area.width);
            draw_group(grid, text, row.name.as_str(), columns, behind)
        }
    }
}

/// Draws rows with their throughputs on lines.
pub(crate) fn draw_rows(
    alloc: Global,
    grid: &mut Grid,
    text: &mut String,
    rows: &[Row],
    rates: &[Option<Throughput>],
    lines: &Lines,
) -> Result<(), Refusal>
    requires sorted { IsAscending (paths_of rows.now) }
    ensures drawn { OnOk result
        (grid.new ≡ with_rows (rows_of rows.now) rates.now lines.now grid.old) }
    ensures reason { IsOkUnless result Refusal.Memory }
{
    for line in 0..shown_count(rows, lines.area, lines.offset) {
        draw_row(alloc, grid, text, rows, rates, lines, line)?;
    }
    Ok(())
}

/// Returns how many columns the amount of a row has without its throughput; 0 of a group. Writes
/// over the text.
fn columns_of_amount(alloc: Global, text: &mut String, row: &Row) -> Result<u16, Refusal>
    ensures ok { IfOk result (λ n.
        n ≡ amount_columns (option_map progress_of row.now.progress)) }
    ensures reason { IsOkUnless result Refusal.Memory }
{
    match &row.progress {
        Some(value) => write_amount(alloc, text, value),
        None => Ok(0),
    }
}

/// Returns whether a row has a progress without a bound.
fn is_boundless(row: &Row) -> bool
    ensures { result ≡ is_boundless (option_map progress_of row.now.progress) }
{
    match &row.progress {
        Some(value) => value.done_at.is_none(),
        None => false,
    }
}

/// Returns whether a row that is shown has a progress without a bound, which is drawn as a spinner.
fn shows_spinner(rows: &[Row], area: Rect, offset: u16) -> bool
    ensures { result ≡ shows_spinner (rows_of rows.now) area offset }
{
    let mut found = false;
    for line in 0..shown_count(rows, area, offset) {
        let index = usize::from(offset) + usize::from(line);
        found = found || is_boundless(&rows[index]);
    }
    found
}

/// Returns how many columns are left free before spinners: as many as the widest amount has, or
/// none if there is no spinner. Writes over the text.
pub(crate) fn columns_before_spinners(
    alloc: Global,
    text: &mut String,
    rows: &[Row],
    area: Rect,
    offset: u16,
) -> Result<u16, Refusal>
    ensures ok { IfOk result (λ n.
        n ≡ columns_before_spinners (rows_of rows.now) area offset) }
    ensures reason { IsOkUnless result Refusal.Memory }
{
    if !shows_spinner(rows, area, offset) {
        return Ok(0);
    }
    widest_amount(alloc, text, rows, area, offset)
}

/// Returns how many columns the widest amount of the rows from an offset on has. Writes over the
/// text.
fn widest_amount(
    alloc: Global,
    text: &mut String,
    rows: &[Row],
    area: Rect,
    offset: u16,
) -> Result<u16, Refusal>
    ensures ok { IfOk result (λ n. n ≡ widest_amount (rows_of rows.now) area offset) }
    ensures reason { IsOkUnless result Refusal.Memory }
{
    let mut columns = 0;
    for line in 0..shown_count(rows, area, offset) {
        let index = usize::from(offset) + usize::from(line);
        let width = columns_of_amount(alloc, text, &rows[index])?;
        columns = width.max(columns);
    }
    Ok(columns)
}
