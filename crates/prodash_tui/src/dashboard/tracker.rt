//! What a frame of a dashboard does with its tracker of throughput, if it has one.
ghost use Rattle.std.specs.Prelude.{◌≡◌, OnOk, IsOkUnless};
ghost use Rattle.prodash_line.specs.Tracking.{kept_of};
ghost use Rattle.prodash_line.specs.plumbing.Observing.{ahead_of};
ghost use Rattle.prodash_tui.specs.plumbing.Observed.{AppendsRates, AreRatesAt, ObservesEach, ObservesFrame, kept_with};

use prodash_base::Refusal;
use prodash_base::progress::Row;
use prodash_base::throughput::FrameThroughput;
use prodash_base::time::Moment;
use prodash_base::unit::display::Throughput;
use std::alloc::Global;

/// Begins a frame at a moment, observes all rows, whether they are shown or not, and writes the
/// throughput of each over `rates`; nothing if there is no tracker.
///
/// `Memory`: out of memory. What was kept of earlier frames is as it was.
pub(crate) fn observe(
    alloc: Global,
    tracker: &mut Option<FrameThroughput>,
    at: Moment,
    rows: &[Row],
    rates: &mut Vec<Option<Throughput>>,
) -> Result<(), Refusal>
    ensures ok { OnOk result (AreRatesAt at rows.now tracker.old rates.new.items) }
    ensures observed { OnOk result (ObservesFrame at rows.now tracker.old tracker.new) }
    ensures kept { kept_of tracker.new ≡ kept_of tracker.old }
    ensures reason { IsOkUnless result Refusal.Memory }
{
    rates.clear();
    match tracker {
        Some(tracker) => {
            tracker.begin(at);
            observe_rows(alloc, tracker, rows, rates)
        }
        None => Ok(()),
    }
}

/// Observes rows, and appends the throughput of each.
fn observe_rows(
    alloc: Global,
    tracker: &mut FrameThroughput,
    rows: &[Row],
    rates: &mut Vec<Option<Throughput>>,
) -> Result<(), Refusal>
    ensures ok { OnOk result
        (AppendsRates rows.now tracker.old rates.old.items rates.new.items) }
    ensures observed { OnOk result (ObservesEach rows.now tracker.old tracker.new) }
    ensures kept { tracker.new.kept ≡ tracker.old.kept }
    ensures reason { IsOkUnless result Refusal.Memory }
{
    for row in rows {
        let step = row.progress.as_ref().map(|value| value.step);
        rates.push(tracker.observe(alloc, &row.key, step)?)?;
    }
    Ok(())
}

/// Keeps what a frame has observed of these rows, and forgets all others.
pub(crate) fn keep(tracker: &mut Option<FrameThroughput>, rows: &[Row])
    ensures { kept_of tracker.new ≡ kept_with rows.now (ahead_of tracker.old) }
{
    if let Some(tracker) = tracker {
        tracker.keep(rows);
    }
}
