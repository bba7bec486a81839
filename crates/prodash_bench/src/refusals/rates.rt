//! Calls on a tracker of throughput.
use prodash::Throughput;
use prodash::progress::{Key, Step};
use prodash::unit::display;
use prodash_fixtures::Calls;
use prodash_programs::Fault;
use std::alloc::Global;

/// The nanoseconds between two frames.
const FRAME: u64 = 400_000_000;

/// The steps that are observed at each frame after the first, each with its rise in a second.
const STEPS: &[(Step, Option<Step>)] = &[
    (10, None),
    (20, None),
    (30, None),
    (50, Some(33)),
    (50, Some(33)),
    (50, Some(33)),
    (50, Some(0)),
];

/// Observes the steps of two keys, and copies the tracker before each frame.
pub(crate) fn run(alloc: Global, calls: &mut Calls) -> Result<(), Fault> {
    let (first, second) = (Key::default().add_child(0), Key::default().add_child(1));
    let mut tracker = Throughput::new(alloc);
    let mut at = 0;
    tracker.update_elapsed(at);
    for (step, rate) in STEPS {
        tracker = copy_tracker(alloc, &tracker, calls)?;
        at = at.wrapping_add(FRAME);
        tracker.update_elapsed(at);
        observe(alloc, &mut tracker, &first, *step, *rate, calls)?;
        observe(alloc, &mut tracker, &second, *step, *rate, calls)?;
    }
    Ok(())
}

/// Observes a step, which must then have this rise in a second.
fn observe(
    alloc: Global,
    tracker: &mut Throughput,
    key: &Key,
    step: Step,
    rate: Option<Step>,
    calls: &mut Calls,
) -> Result<(), Fault> {
    calls.begin("Throughput::update_and_get");
    let before = format!(in alloc; "{tracker:?}")?;
    let shown = match tracker.update_and_get(alloc, key, Some(step)) {
        Ok(shown) => shown,
        Err(refusal) => {
            let after = format!(in alloc; "{tracker:?}")?;
            let is_unchanged = before.as_str() == after.as_str();
            let again = tracker.update_and_get(alloc, key, Some(step));
            calls.refuse(refusal, is_unchanged && again.is_ok());
            again?
        }
    };
    let want = rate.map(|rise| display::Throughput::new(rise, 1_000_000_000));
    calls.expect(shown == want);
    Ok(())
}

/// Returns a copy of the tracker.
fn copy_tracker(
    alloc: Global,
    tracker: &Throughput,
    calls: &mut Calls,
) -> Result<Throughput, Fault> {
    calls.begin("Throughput::copy");
    match tracker.copy(alloc, &[]) {
        Ok(copy) => Ok(copy),
        Err(refusal) => {
            let again = tracker.copy(alloc, &[]);
            calls.refuse(refusal, again.is_ok());
            Ok(again?)
        }
    }
}
