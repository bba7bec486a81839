//! The headline.
ghost use Rattle.std.specs.Prelude.{◌≡◌, ◌++◌, Some, IsOkUnless, OnErr, OnOk};
ghost use Rattle.std.specs.Fmt.{decimal};
ghost use Rattle.prodash_base.specs.Appending.{Appends};
ghost use Rattle.prodash_base.specs.Rows.{progress_of, rows_of};
ghost use Rattle.prodash_tui.specs.Headlines.{DrawsHeadline, count_words, counts_text, how_many, in_three, interrupt_text, interval_text, is_group, runs, waits};
ghost use Rattle.prodash_tui.specs.plumbing.PaneParts.{IsHeadline};

use crate::draw::counts::Counts;
use crate::draw::parts::bold;
use crate::grid::Grid;
use crate::rect::snap_to_right;
use crate::text::block_width;
use itoa::Buffer;
use prodash_base::Refusal;
use prodash_base::progress::{Row, State, Value};
use prodash_core::render::tui::{InterruptMode, Rect};
use std::alloc::AllocError;

const NANOSECONDS_PER_SECOND: u64 = 1_000_000_000;

/// Draws the headline at the right end of the first row of a rectangle, before a column that stays
/// free: what `q` does, and how many tasks run, wait for something, and are groups. If more than a
/// second is between two frames, it has that time in seconds, and `now`, the moment of this frame.
/// `interval` is the time between two frames in nanoseconds, and `text` memory for the text, which
/// is written over.
///
/// `Memory`: out of memory. The grid is then as it was.
pub fn headline(
    text: &mut String,
    rows: &[Row],
    mode: InterruptMode,
    interval: u64,
    now: &str,
    bound: Rect,
    grid: &mut Grid,
) -> Result<(), Refusal>
    ensures ok { OnOk result
        (DrawsHeadline bound mode interval now.now rows.now grid.old grid.new) }
    ensures err { OnErr result (grid.new ≡ grid.old) }
    ensures reason { IsOkUnless result Refusal.Memory }
{
    write_headline(text, rows, mode, interval, now)?;
    let text = text.as_str();
    let right = snap_to_right(bound, block_width(text).saturating_add(1));
    grid.draw_text_with_ellipsis(right, text, bold());
    Ok(())
}

/// Writes the text of the headline over the text.
fn write_headline(
    text: &mut String,
    rows: &[Row],
    mode: InterruptMode,
    interval: u64,
    now: &str,
) -> Result<(), Refusal>
    ensures ok { OnOk result (IsHeadline mode interval now.now rows.now text.new) }
    ensures reason { IsOkUnless result Refusal.Memory }
{
    text.clear();
    text.push_str(" ")?;
    text.push_str(interrupt_text(mode))?;
    text.push_str(" ")?;
    push_interval(text, interval, now)?;
    text.push_str(" ")?;
    push_counts(text, rows)?;
    text.push_str(" ")?;
    Ok(())
}

/// Returns what `q` does.
fn interrupt_text(mode: InterruptMode) -> &'static str
    ensures { result.now ≡ interrupt_text mode }
{
    match mode {
        InterruptMode::Instantly => "'q' or CTRL+c to quit",
        InterruptMode::Deferred { requested: true } => "interrupt requested - please wait",
        InterruptMode::Deferred { requested: false } => "cannot interrupt current operation",
    }
}

/// Appends how often a frame is drawn, and when this one is, if there is more than a second between
/// frames.
fn push_interval(text: &mut String, interval: u64, now: &str) -> Result<(), AllocError>
    ensures { OnOk result (Appends text.old (interval_text interval now.now) text.new) }
{
    if interval <= NANOSECONDS_PER_SECOND {
        return Ok(());
    }
    text.push_str(" Every ")?;
    text.push_str(Buffer::new().format(interval / NANOSECONDS_PER_SECOND))?;
    text.push_str("s → ")?;
    text.push_str(now)?;
    Ok(())
}

/// Appends how many tasks run, wait, and are groups, and how many there are.
fn push_counts(text: &mut String, rows: &[Row]) -> Result<(), AllocError>
    ensures { OnOk result (Appends text.old (counts_text (rows_of rows.now)) text.new) }
{
    let counts = count_tasks(rows);
    push_count_words(text, counts, rows.len())
}

/// Appends these numbers of tasks.
fn push_count_words(text: &mut String, counts: Counts, all: usize) -> Result<(), AllocError>
    ensures { OnOk result (Appends text.old
        (count_words counts.running counts.waiting counts.groups all) text.new) }
{
    push_in_three(text, counts.running)?;
    text.push_str(" running + ")?;
    push_in_three(text, counts.waiting)?;
    text.push_str(" blocked + ")?;
    push_in_three(text, counts.groups)?;
    text.push_str(" groups = ")?;
    text.push_str(Buffer::new().format(all))?;
    Ok(())
}

/// Appends a number after spaces that bring it to three columns.
fn push_in_three(text: &mut String, n: usize) -> Result<(), AllocError>
    ensures { OnOk result (Appends text.old (in_three n) text.new) }
{
    text.push_str(padding(n))?;
    text.push_str(Buffer::new().format(n))
}

/// Returns the spaces that bring a number to three columns.
fn padding(n: usize) -> &'static str
    ensures { result.now ++ decimal n ≡ in_three n }
{
    if n < 10 {
        "  "
    } else if n < 100 {
        " "
    } else {
        ""
    }
}

/// Counts the tasks that run, wait, and are groups.
fn count_tasks(rows: &[Row]) -> Counts
    ensures running { result.running ≡ how_many runs (rows_of rows.now) }
    ensures waiting { result.waiting ≡ how_many waits (rows_of rows.now) }
    ensures groups { result.groups ≡ how_many is_group (rows_of rows.now) }
{
    let (mut running, mut groups) = (0, 0);
    let mut left = rows;
    while let Some((row, rest)) = left.split_first() {
        match &row.progress {
            Some(value) => running += usize::from(runs(value)),
            None => groups += 1,
        }
        left = rest;
    }
    Counts {
        running,
        waiting: rows.len() - running - groups,
        groups,
    }
}

/// Returns whether a task with this progress runs.
fn runs(value: &Value) -> bool
    ensures { result ≡ runs (Some (progress_of value.now)) }
{
    match value.state {
        State::Running => true,
        State::Blocked(..) | State::Halted(..) => false,
    }
}
