//! What a frame does with the tracker of throughput, if there is one.
ghost use Rattle.std.specs.Prelude.{◌≡◌, IfOk, OnOk, IsOkUnless};
ghost use Rattle.prodash_base.specs.Rows.{rows_of};
ghost use Rattle.prodash_line.specs.plumbing.Observing.{ahead_of, tracker_at, tracker_by, IsThroughputOf, ObservesRow, ObservesRows};
ghost use Rattle.prodash_line.specs.Tracking.{kept_of};

use crate::render::line::draw::action::Action;
use crate::render::line::draw::row::is_row_drawn;
use prodash_base::Refusal;
use prodash_base::progress::{Level, Row};
use prodash_base::throughput::FrameThroughput;
use prodash_base::time::Moment;
use prodash_base::unit::display;
use std::alloc::Global;

/// Begins a frame that draws rows.
pub(crate) fn begin_observing(tracker: &mut Option<FrameThroughput>, at: Moment)
    ensures kept { kept_of tracker.new ≡ kept_of tracker.old }
    ensures ahead { ahead_of tracker.new ≡ tracker_at at (kept_of tracker.old) }
{
    if let Some(tracker) = tracker {
        tracker.begin(at);
    }
}

/// Observes a row, and returns its throughput, if there is a tracker.
#[inline(always)]
pub(crate) fn observe_row(
    alloc: Global,
    tracker: &mut Option<FrameThroughput>,
    row: &Row,
) -> Result<Option<display::Throughput>, Refusal>
    ensures value { IfOk result (IsThroughputOf row.now tracker.old) }
    ensures observed { OnOk result (ObservesRow row.now tracker.old tracker.new) }
    ensures kept { kept_of tracker.new ≡ kept_of tracker.old }
    ensures reason { IsOkUnless result Refusal.Memory }
{
    let Some(tracker) = tracker else {
        return Ok(None);
    };
    let step = row.progress.as_ref().map(|value| value.step);
    tracker.observe(alloc, &row.key, step)
}

/// Observes the rows that the filter of levels lets through, if there is a tracker.
pub(crate) fn observe_rows(
    alloc: Global,
    tracker: &mut Option<FrameThroughput>,
    levels: Option<(Level, Level)>,
    rows: &[Row],
) -> Result<(), Refusal>
    ensures observed { OnOk result (ObservesRows levels rows.now tracker.old tracker.new) }
    ensures kept { kept_of tracker.new ≡ kept_of tracker.old }
    ensures reason { IsOkUnless result Refusal.Memory }
{
    for row in rows {
        if is_row_drawn(levels, row) {
            observe_row(alloc, tracker, row)?;
        }
    }
    Ok(())
}

/// Keeps what a written frame has observed of its rows, if it draws rows.
pub(crate) fn keep_observed(tracker: &mut Option<FrameThroughput>, action: Action, rows: &[Row])
    ensures { kept_of tracker.new ≡ tracker_by action tracker.old (rows_of rows.now) }
{
    if let (Some(tracker), Action::Redraw) = (tracker, action) {
        tracker.keep(rows);
    }
}
