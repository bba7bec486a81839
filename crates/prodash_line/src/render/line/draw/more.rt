//! The rows that fit a window, and the line that says how many are hidden.
ghost use Rattle.std.specs.Prelude.{◌≡◌, ◌≤◌, ◌++◌, chars, codes, length, min, take, OnOk, IfOk, IsOkUnless};
ghost use Rattle.prodash_line.specs.ProgressRows as rows;
ghost use Rattle.prodash_line.specs.Lines.{columns_of};
ghost use Rattle.prodash_line.specs.Tracking.{kept_of};
ghost use Rattle.prodash_line.specs.plumbing.FrameWriting.{SplitsFitting, CountsRows, WritesMore, WritesCount, count_of, drawn_more_line};
ghost use Rattle.prodash_line.specs.plumbing.Observing.{ObservesDrawn};
ghost use Rattle.prodash_line.specs.plumbing.Writing.{DrawsLine};

use crate::render::line::draw::action::Drawn;
use crate::render::line::draw::erasing::start_row;
use crate::render::line::draw::input::Options;
use crate::render::line::draw::layout::Layout;
use crate::render::line::draw::line_writer::LineWriter;
use crate::render::line::draw::row::is_row_drawn;
use crate::render::line::draw::tracker::observe_rows;
use itoa::Buffer;
use prodash_base::Refusal;
use prodash_base::progress::{Level, Row};
use prodash_base::throughput::FrameThroughput;
use std::alloc::{AllocError, Global};

/// Returns the rows up to the last one that is drawn and fits the window, and the others.
pub(crate) fn split_fitting(
    layout: Layout,
    levels: Option<(Level, Level)>,
    rows: &[Row],
) -> (&[Row], &[Row])
    ensures { SplitsFitting layout levels rows.now result.0.now result.1.now }
{
    match layout {
        Layout::Overwriting => (rows, &[]),
        Layout::Erasing { height, .. } => {
            let height = usize::from(height);
            if count_drawn(levels, rows) < height {
                (rows, &[])
            } else {
                rows.split_at(end_of_drawn(levels, rows, height.saturating_sub(2)))
            }
        }
    }
}

/// Returns how many rows the filter of levels lets through.
pub(crate) fn count_drawn(levels: Option<(Level, Level)>, rows: &[Row]) -> usize
    ensures { result ≡ count_of levels rows.now }
{
    let mut count = 0;
    for row in rows {
        if is_row_drawn(levels, row) {
            count += 1;
        }
    }
    count
}

/// Returns the index after the first `most` rows that the filter of levels lets through.
fn end_of_drawn(levels: Option<(Level, Level)>, rows: &[Row], most: usize) -> usize
    ensures within { result ≤ length rows.now }
    ensures count { count_of levels (take result rows.now) ≡ min most (count_of levels rows.now) }
{
    let mut left = most;
    for (n, row) in rows.iter().enumerate() {
        if left == 0 {
            return n;
        }
        if is_row_drawn(levels, row) {
            left -= 1;
        }
    }
    rows.len()
}

/// Writes the line that says how many of these rows are hidden, if there are any and there is a row
/// for it, and observes them. Fails if out of memory.
pub(crate) fn write_more(
    alloc: Global,
    out: &mut LineWriter,
    tracker: &mut Option<FrameThroughput>,
    drawn: &mut Drawn,
    options: &Options,
    others: &[Row],
) -> Result<(), Refusal>
    ensures bytes { OnOk result (WritesMore options.now others.now out.old out.new) }
    ensures drawn { OnOk result (CountsRows options.now others.now drawn.old drawn.new) }
    ensures observed { OnOk result
        (ObservesDrawn options.now others.now tracker.old tracker.new) }
    ensures kept { kept_of tracker.new ≡ kept_of tracker.old }
    ensures reason { IsOkUnless result Refusal.Memory }
{
    write_hidden(out, drawn, options, others)?;
    observe_rows(alloc, tracker, options.level_filter, others)
}

/// Writes the line that says that as many rows are hidden as there are among these, if there are
/// any and there is a row for it.
pub(crate) fn write_hidden(
    out: &mut LineWriter,
    drawn: &mut Drawn,
    options: &Options,
    others: &[Row],
) -> Result<(), AllocError>
    ensures bytes { OnOk result (WritesMore options.now others.now out.old out.new) }
    ensures drawn { OnOk result (CountsRows options.now others.now drawn.old drawn.new) }
{
    let hidden = count_drawn(options.level_filter, others);
    let (_, height) = options.terminal_dimensions;
    if hidden > 0 && height >= 2 {
        drawn.widths.push(write_count(out, options, hidden)?)?;
    }
    Ok(())
}

/// Writes the line that says that `count` rows are hidden. Returns its width as it is cut.
fn write_count(out: &mut LineWriter, options: &Options, count: usize) -> Result<u16, AllocError>
    ensures bytes { OnOk result (WritesCount options.now count out.old out.new) }
    ensures width { IfOk result (λ n. n ≡ columns_of (drawn_more_line options.now count)) }
{
    start_row(out, options.layout())?;
    push_count(out, options, count)?;
    out.end_line_over(0)
}

/// Begins the line that says that `count` rows are hidden.
fn push_count(out: &mut LineWriter, options: &Options, count: usize) -> Result<(), AllocError>
    ensures { OnOk result (DrawsLine options.now out.old (rows.more_line options.now.ascii count) out.new) }
{
    let mut digits = Buffer::new();
    out.begin_line(options.width_limit());
    out.push_text(None, before_count(options.ascii))?;
    out.push_printable(digits.format(count).as_bytes())?;
    out.push_printable(b" more")?;
    Ok(())
}

/// Returns the text before the number of hidden rows, in ASCII or not.
fn before_count(ascii: bool) -> &'static str
    ensures { chars result.now ≡ codes " " ++ (rows.ellipsis ascii ++ codes " and ") }
{
    if ascii { " ... and " } else { " … and " }
}
