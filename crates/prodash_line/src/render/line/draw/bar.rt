//! The bar of a progress.
ghost use Rattle.std.specs.Prelude.{◌≡◌, ◌-◌, ◌≤◌, ◌++◌, true, OnOk};
ghost use Rattle.prodash_line.specs.ProgressRows as rows;
ghost use Rattle.prodash_line.specs.ProgressRows.{numbered_cells};
ghost use Rattle.prodash_line.specs.plumbing.RowWriting.{AppendsBar, AppendsCells};
ghost use Rattle.prodash_line.specs.plumbing.Writing.{AppendsIn, SameLine};

use crate::render::line::draw::line_writer::{LineWriter, style_of_length};
use crate::render::line::draw::styles::row_style;
use crate::render::line::page::Style;
use prodash_base::progress::{Step, Value};
use std::alloc::AllocError;

/// The columns of a bar's space and brackets.
pub(crate) const BRACKETS: u16 = 3;

/// The column of the arrow in the bar of a progress with a bound.
pub(crate) const ARROW: u16 = 1;

/// Returns the columns that a bar takes where `left` columns are left: all of them, or `most` if that
/// is fewer. A `most` without room for the brackets and the arrow leaves no bar.
#[inline(always)]
pub(crate) fn bar_columns(most: Option<u16>, left: u16) -> u16
    ensures { result ≡ rows.bar_columns most left }
{
    match most {
        None => left,
        Some(most) if most < BRACKETS + ARROW => 0,
        Some(most) => most.min(left),
    }
}

/// Appends the bar of a progress on these columns of its row, in the row's style if it is coloured.
/// It appends nothing if there are no columns. Fails if out of memory.
pub(crate) fn push_bar(
    out: &mut LineWriter,
    colored: bool,
    columns: u16,
    value: &Value,
) -> Result<(), AllocError>
    ensures { OnOk result (AppendsBar colored columns value.now out.old out.new) }
{
    if columns == 0 {
        return Ok(());
    }
    match value.done_at {
        Some(done_at) => {
            let cells = columns.saturating_sub(BRACKETS + ARROW);
            let filled = filled_cells(cells, value.step, done_at);
            push_bar_with(out, colored, value, cells, filled)
        }
        None => push_unbounded_bar(out, colored, row_style(value), columns, value.step),
    }
}

/// Appends a bar of `cells` cells, of which the first `filled` are filled, in the style of a row
/// with this progress if it is coloured.
fn push_bar_with(
    out: &mut LineWriter,
    colored: bool,
    value: &Value,
    cells: u16,
    filled: u16,
) -> Result<(), AllocError>
    requires within { filled ≤ cells }
    requires short { cells ≤ 65531 }
    ensures { OnOk result (AppendsCells colored value.now cells filled out.old out.new) }
{
    if colored {
        return push_colored_bar(out, row_style(value), cells, filled);
    }
    let count = out.count_printable(cells + (BRACKETS + ARROW));
    let count = out.push_prefix(b" [", count)?;
    let count = out.push_run_prefix(b'=', filled, b'>', count)?;
    out.push_run_prefix(b'-', cells - filled, b']', count)?;
    Ok(())
}

/// Appends a bar in this style, of `cells` cells, of which the first `filled` are filled.
fn push_colored_bar(
    out: &mut LineWriter,
    style: Style,
    cells: u16,
    filled: u16,
) -> Result<(), AllocError>
    requires within { filled ≤ cells }
    requires short { cells ≤ 65531 }
    ensures { OnOk result (AppendsIn true out.old (rows.bar_with style cells filled) out.new) }
{
    let whole = out.push_whole_bar(style, cells, filled)?;
    if whole {
        return Ok(());
    }
    out.push_printable(b" [")?;
    out.push_repeated(Some(style), b'=', filled)?;
    out.push_repeated(Some(style), b'>', 1)?;
    out.push_repeated(Some(style.dimmed()), b'-', cells - filled)?;
    out.push_printable(b"]")?;
    Ok(())
}

/// Returns how many of a bar's cells are filled: the share of the bound that the step has come to,
/// rounded down; all of them if the bound is 0.
pub(crate) fn filled_cells(cells: u16, step: Step, done_at: Step) -> u16
    ensures value { result ≡ rows.filled_cells cells step done_at }
    ensures within { result ≤ cells }
{
    if done_at == 0 {
        return cells;
    }
    let step = step.min(done_at);
    match u64::from(cells).checked_mul(step) {
        Some(product) => (product / done_at) as u16,
        None => (u128::from(cells) * u128::from(step) / u128::from(done_at)) as u16,
    }
}

/// Appends the bar of a progress without a bound on these columns: a cell for each number from
/// the step upward that is less than `Step::MAX`, as many as there are columns for, in reverse
/// order.
fn push_unbounded_bar(
    out: &mut LineWriter,
    colored: bool,
    style: Style,
    columns: u16,
    step: Step,
) -> Result<(), AllocError>
    ensures { OnOk result
        (AppendsIn colored out.old (rows.unbounded_bar style columns step) out.new) }
{
    let end = step.saturating_add(Step::from(columns.saturating_sub(BRACKETS)));
    out.push_printable(b" [")?;
    let count = out.count_printable((end - step) as u16);
    let style = style_of_length(colored.then_some(style), usize::from(count));
    out.open_style(style)?;
    push_numbered_cells(out, end - Step::from(count), end)?;
    out.reset_style(style)?;
    out.push_printable(b"]")?;
    Ok(())
}

/// Writes the cells of the numbers from `step` to below `end`, in reverse order.
fn push_numbered_cells(out: &mut LineWriter, step: Step, end: Step) -> Result<(), AllocError>
    requires { step ≤ end }
    ensures bytes { OnOk result
        (out.new.bytes ≡ out.old.bytes ++ numbered_cells step (end - step)) }
    ensures line { OnOk result (SameLine out.old out.new) }
{
    for number in (step..end).rev() {
        out.push_prefix(&[numbered_cell(number)], 1)?;
    }
    Ok(())
}

/// Returns the cell of a number: three numbers are filled cells, and the next three are spaces.
fn numbered_cell(number: Step) -> u8
    ensures { result ≡ rows.numbered_cell number }
{
    if number % 6 < 3 { b'=' } else { b' ' }
}
