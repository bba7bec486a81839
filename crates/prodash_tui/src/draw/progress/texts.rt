//! The texts of a progress pane.
//!
//! A call named `push_..` that is refused may have appended a part of its text.
ghost use Rattle.std.specs.Prelude.{◌≡◌, ◌-◌, ◌*◌, ◌++◌, ◌<◌, ◌≤◌, length, codes, None, OnOk, IfOk, IsOkUnless, string_bytes};
ghost use Rattle.prodash_base.specs.Adjacency.{IsAscending, paths_of};
ghost use Rattle.prodash_base.specs.Appending.{Appends};
ghost use Rattle.prodash_base.specs.Path.{max_level};
ghost use Rattle.prodash_base.specs.Rows.{progress_of, rows_of};
ghost use Rattle.prodash_line.specs.ProgressRows.{fraction_of};
ghost use Rattle.prodash_tui.specs.RowTexts as texts;
ghost use Rattle.prodash_tui.specs.RowTexts.{amount_text, branches_of, hidden_text, label_text, line_behind, skipped_text, title_text, tree_text, until_text, waits_text};
ghost use Rattle.prodash_tui.specs.Texts.{block_width};

use crate::text::block_width;
use itoa::Buffer;
use prodash_base::Refusal;
use prodash_base::progress::{Row, State, Step, Value};
use prodash_base::time::Moment;
use prodash_base::times::seconds_text;
use prodash_base::unit::display::Throughput;
use prodash_core::render::tui::push_level_prefix;
use std::alloc::{AllocError, Global};

/// The keys that scroll.
pub(crate) const KEYS: &str = "⇊ = d|↓ = j|⇈ = u|↑ = k ";

const NANOSECONDS_PER_SECOND: u64 = 1_000_000_000;

/// Appends the branches that lead to a row.
fn push_branches(text: &mut String, rows: &[Row], index: usize) -> Result<(), AllocError>
    requires sorted { IsAscending (paths_of rows.now) }
    requires inside { index < length rows.now }
    ensures { OnOk result (Appends text.old (branches_of (rows_of rows.now) index) text.new) }
{
    push_level_prefix(text, rows, index)
}

/// Returns how many columns the branches that lead to a row have: one for each of its levels, and
/// one between any two.
fn branch_columns(row: &Row) -> u16
    ensures value { result ≡ 2 * length row.now.key - 1 }
    ensures levels { length row.now.key ≤ max_level }
{
    (2 * u16::from(row.key.level())).saturating_sub(1)
}

/// Writes the branches that lead to a row over the text, and returns how many columns they have.
pub(crate) fn write_branches(text: &mut String, rows: &[Row], index: usize) -> Result<u16, Refusal>
    requires sorted { IsAscending (paths_of rows.now) }
    requires inside { index < length rows.now }
    ensures ok { OnOk result (string_bytes text.new ≡ branches_of (rows_of rows.now) index) }
    ensures columns { IfOk result (λ n.
        n ≡ block_width (branches_of (rows_of rows.now) index)) }
    ensures reason { IsOkUnless result Refusal.Memory }
{
    text.clear();
    push_branches(text, rows, index)?;
    Ok(branch_columns(&rows[index]))
}

/// Returns whether a row has a child with progress.
pub(crate) fn has_child(rows: &[Row], index: usize) -> bool
    requires { index < length rows.now }
    ensures { result ≡ texts.has_child (rows_of rows.now) index }
{
    let Some(next) = rows.get(index + 1) else {
        return false;
    };
    let key = &rows[index].key;
    next.progress.is_some() && key.shares_parent_with(&next.key, key.level())
}

/// Writes a row of the tree over the text, and returns how many columns it has.
pub(crate) fn write_tree_text(text: &mut String, rows: &[Row], index: usize) -> Result<u16, Refusal>
    requires sorted { IsAscending (paths_of rows.now) }
    requires inside { index < length rows.now }
    ensures ok { OnOk result (string_bytes text.new ≡ tree_text (rows_of rows.now) index) }
    ensures columns { IfOk result (λ n. n ≡ block_width (tree_text (rows_of rows.now) index)) }
    ensures reason { IsOkUnless result Refusal.Memory }
{
    text.clear();
    push_branches(text, rows, index)?;
    text.push_str(" ")?;
    let row = &rows[index];
    let name = row.name.as_str();
    text.push_str(name)?;
    Ok(block_width(name).saturating_add(branch_columns(row) + 1))
}

/// Appends a step and its bound, if there is one.
fn push_fraction(text: &mut String, step: Step, bound: Option<Step>) -> Result<(), AllocError>
    ensures { OnOk result (Appends text.old (fraction_of step bound) text.new) }
{
    text.push_str(Buffer::new().format(step))?;
    if let Some(bound) = bound {
        text.push_str("/")?;
        text.push_str(Buffer::new().format(bound))?;
    }
    Ok(())
}

/// Appends a progress in its unit, with its throughput if the unit shows one, or as a fraction if it
/// has no unit.
fn push_amount(
    alloc: Global,
    text: &mut String,
    rate: Option<Throughput>,
    value: &Value,
) -> Result<(), Refusal>
    ensures ok { OnOk result
        (Appends text.old (amount_text rate (progress_of value.now)) text.new) }
    ensures reason { IsOkUnless result Refusal.Memory }
{
    match &value.unit {
        None => Ok(push_fraction(text, value.step, value.done_at)?),
        Some(unit) => {
            let display = unit.display(alloc, value.step, value.done_at, rate);
            display.append_to(text)
        }
    }
}

/// Writes a progress without its throughput over the text, and returns how many columns it has.
pub(crate) fn write_amount(alloc: Global, text: &mut String, value: &Value) -> Result<u16, Refusal>
    ensures ok { IfOk result (λ n.
        n ≡ block_width (amount_text None (progress_of value.now))) }
    ensures reason { IsOkUnless result Refusal.Memory }
{
    text.clear();
    push_amount(alloc, text, None, value)?;
    Ok(block_width(text.as_str()))
}

/// Appends how long it takes from a moment until a task is expected to go on, if that is known and
/// not past.
fn push_until(
    alloc: Global,
    text: &mut String,
    at: Moment,
    eta: Option<Moment>,
    goes_on: &str,
) -> Result<(), Refusal>
    ensures ok { OnOk result (Appends text.old (until_text at eta goes_on.now) text.new) }
    ensures reason { IsOkUnless result Refusal.Memory }
{
    let Some(eta) = eta else {
        return Ok(());
    };
    if eta <= at {
        return Ok(());
    }
    let left = seconds_text(alloc, (eta - at) / NANOSECONDS_PER_SECOND)?;
    text.push_str(" ")?;
    text.push('→')?;
    text.push_str(" ")?;
    text.push_str(left.as_str())?;
    text.push_str(" to ")?;
    text.push_str(goes_on)?;
    Ok(())
}

/// Appends a reason in brackets.
fn push_reason(text: &mut String, reason: &str) -> Result<(), AllocError>
    ensures { OnOk result
        (Appends text.old (codes " [" ++ (reason.now ++ codes "]")) text.new) }
{
    text.push_str(" [")?;
    text.push_str(reason)?;
    text.push_str("]")
}

/// Appends why a task can't go on, and how long it takes until it can.
fn push_waits(alloc: Global, text: &mut String, at: Moment, value: &Value) -> Result<(), Refusal>
    ensures ok { OnOk result
        (Appends text.old (waits_text at (progress_of value.now).phase) text.new) }
    ensures reason { IsOkUnless result Refusal.Memory }
{
    match value.state {
        State::Blocked(reason, eta) => {
            push_reason(text, reason)?;
            push_until(alloc, text, at, eta, "unblock")
        }
        State::Halted(reason, eta) => {
            push_reason(text, reason)?;
            push_until(alloc, text, at, eta, "continue")
        }
        State::Running => Ok(()),
    }
}

/// Writes what is said of a progress with this throughput at a moment over the text.
pub(crate) fn write_label(
    alloc: Global,
    text: &mut String,
    at: Moment,
    rate: Option<Throughput>,
    value: &Value,
) -> Result<(), Refusal>
    ensures ok { OnOk result
        (string_bytes text.new ≡ label_text at rate (progress_of value.now)) }
    ensures reason { IsOkUnless result Refusal.Memory }
{
    text.clear();
    text.push_str(" ")?;
    push_amount(alloc, text, rate, value)?;
    push_waits(alloc, text, at, value)
}

/// Writes the title of a group over the text.
pub(crate) fn write_title(text: &mut String, name: &str) -> Result<(), Refusal>
    ensures ok { OnOk result (string_bytes text.new ≡ title_text name.now) }
    ensures reason { IsOkUnless result Refusal.Memory }
{
    text.clear();
    text.push_str(" ")?;
    text.push_str(name)?;
    text.push_str(" ")?;
    Ok(())
}

/// Appends a vertical line, if there is a tree before it.
fn push_line(text: &mut String, tree_columns: u16) -> Result<(), AllocError>
    ensures { OnOk result (Appends text.old (line_behind tree_columns) text.new) }
{
    if tree_columns > 0 {
        text.push('│')?;
    }
    Ok(())
}

/// Appends how many rows are skipped.
fn push_skipped(text: &mut String, above: usize) -> Result<(), AllocError>
    ensures { OnOk result (Appends text.old (skipped_text above) text.new) }
{
    text.push_str(" ")?;
    text.push('…')?;
    text.push_str(Buffer::new().format(above))?;
    text.push_str(" skipped and ")?;
    Ok(())
}

/// Writes how many rows are hidden above and below those that are shown over the text, behind a
/// vertical line if there is a tree before it.
pub(crate) fn write_hidden(
    text: &mut String,
    tree_columns: u16,
    above: usize,
    below: usize,
) -> Result<(), Refusal>
    ensures ok { OnOk result (string_bytes text.new ≡ hidden_text tree_columns above below) }
    ensures reason { IsOkUnless result Refusal.Memory }
{
    text.clear();
    push_line(text, tree_columns)?;
    push_skipped(text, above)?;
    text.push_str(Buffer::new().format(below))?;
    text.push_str(" more")?;
    Ok(())
}
