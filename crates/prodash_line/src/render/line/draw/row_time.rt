//! The time of a row.
ghost use Rattle.std.specs.Prelude.{◌≡◌, OnOk, IsOkUnless, IfOk, string_bytes};
ghost use Rattle.prodash_base.specs.Rows.{row_of};
ghost use Rattle.prodash_base.specs.Timers.{row_time};
ghost use Rattle.prodash_line.specs.ProgressRows as rows;
ghost use Rattle.prodash_line.specs.plumbing.RowWriting.{ShowsTime, TriesTime};

use crate::render::line::draw::input::Options;
use crate::render::line::draw::line_writer::LineWriter;
use prodash_base::progress::Row;
use prodash_base::time::Moment;
use prodash_base::timing::{TaskTime, Timer};
use std::alloc::{AllocError, Global};

/// Memory for the time of one row, which that of the next row reuses.
#[derive(Drop)]
pub(crate) struct TimeTexts {
    time: String,
    /// The index at which the task of the next row is looked for first.
    likely: usize,
}

impl TimeTexts {
    /// Returns texts that are empty.
    pub(crate) fn new(alloc: Global) -> TimeTexts {
        TimeTexts {
            time: String::new(alloc),
            likely: 0,
        }
    }
}

/// Appends a space and what a row says of its time at a moment, if there is a timer, as they fit on
/// the columns that are left. Fails if out of memory.
#[inline(always)]
pub(crate) fn push_time(
    out: &mut LineWriter,
    texts: &mut TimeTexts,
    options: &Options,
    timer: &Option<Timer>,
    at: Moment,
    row: &Row,
) -> Result<(), AllocError>
    ensures { OnOk result
        (ShowsTime options.now (rows.times_at timer.now at (row_of row.now)) out.old out.new) }
{
    match timer {
        None => Ok(()),
        Some(timer) => push_timed(out, texts, options, timer, at, row),
    }
}

/// Does what `push_time` does with a timer.
#[inline(never)]
fn push_timed(
    out: &mut LineWriter,
    texts: &mut TimeTexts,
    options: &Options,
    timer: &Timer,
    at: Moment,
    row: &Row,
) -> Result<(), AllocError>
    ensures { OnOk result
        (ShowsTime options.now (row_time timer.now at (row_of row.now)) out.old out.new) }
{
    let time = timer.row_time(at, row, &mut texts.likely);
    push_task_time(out, texts, options, &time)?;
    Ok(())
}

/// Appends a space and a time, if there is one, as they fit on the columns that are left. Fails if
/// out of memory.
fn push_task_time(
    out: &mut LineWriter,
    texts: &mut TimeTexts,
    options: &Options,
    time: &Option<TaskTime>,
) -> Result<(), AllocError>
    ensures { OnOk result (ShowsTime options.now time.now out.old out.new) }
{
    let Some(time) = time else {
        return Ok(());
    };
    let (width, _) = options.terminal_dimensions;
    let left = width.saturating_sub(out.width());
    write_fitting_time(&mut texts.time, usize::from(left), time)?;
    out.push_printable(texts.time.as_str().as_bytes())?;
    Ok(())
}

/// Writes a space and a time, as they fit on so many columns: all of the time, or else without what
/// remains, or else how long the task has run alone. Writes nothing if that doesn't fit.
fn write_fitting_time(out: &mut String, columns: usize, time: &TaskTime) -> Result<(), AllocError>
    ensures { OnOk result (string_bytes out.new ≡ rows.fitting_time columns time.now) }
{
    if write_time(out, columns, time)? {
        return Ok(());
    }
    let without_remaining = TaskTime {
        remaining: None,
        ..*time
    };
    let alone = TaskTime {
        stalled: None,
        ..without_remaining
    };
    if !write_time(out, columns, &without_remaining)? && !write_time(out, columns, &alone)? {
        out.clear();
    }
    Ok(())
}

/// Writes a space and a time, and returns whether they fit on so many columns.
fn write_time(out: &mut String, columns: usize, time: &TaskTime) -> Result<bool, AllocError>
    ensures { IfOk result (TriesTime columns time.now (string_bytes out.new)) }
{
    out.clear();
    out.push(' ')?;
    time.append_to(out)?;
    Ok(out.len() <= columns)
}
