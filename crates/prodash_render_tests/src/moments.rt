//! The moments of the frames that a renderer draws, by which throughput is measured.
use crate::engine::{FRAME, assert_drawn, options, start};
use crate::fixtures::{Host, downgrade};
use crate::waiting::{Collected, Collector, SteppedClock};
use prodash::render::line::Options;
use prodash::time::Moment;
use prodash::tree::Root;
use prodash::unit::display::Mode;
use prodash::unit::label_and_mode;
use std::alloc::Global;

/// The moments of the frames, the steps that they show, and their rows where no throughput is
/// measured.
const ROWS: &[(Moment, u64, &str)] = &[
    (0, 0, " t 0/100 items [>----------------------]\n\x1b[1A"),
    (
        400_000_000,
        10,
        " t 10/100 items [==>-------------------]\n\x1b[1A",
    ),
    (
        800_000_000,
        20,
        " t 20/100 items [====>-----------------]\n\x1b[1A",
    ),
    (
        1_200_000_000,
        30,
        " t 30/100 items [======>---------------]\n\x1b[1A",
    ),
    (
        1_600_000_000,
        50,
        " t 50/100 items [==========>-----------]\n\x1b[1A",
    ),
];

/// The last of them where throughput is measured.
const MEASURED: &str = " t 50/100 items |33/s| [=======>-------]\n\x1b[1A";

/// Asserts that a renderer draws these rows and then the last one.
fn assert_rows<R: Host>(rt: &R, alloc: Global, throughput: bool, last: &str) {
    let root = Root::new(*rt, alloc).expect(rt, "no refusal");
    let item = root.add_child(alloc, "t").expect(rt, "no refusal");
    item.init(
        Some(100),
        Some(label_and_mode("items", Mode::with_throughput())),
    );
    let collected = Collected::new(rt, alloc, true);
    let clock = SteppedClock::new(rt, alloc, FRAME);
    let out = Collector::new(rt, alloc, &collected);
    let options = Options {
        throughput,
        ..options()
    };
    let handle = start(rt, alloc, out, downgrade(rt, &root), &clock, options);
    let mut frames = Vec::new(alloc);
    for (moment, step, row) in ROWS {
        item.set(*step);
        clock.set_moment(*moment);
        clock.end(frames.len() as u64);
        let is_last = frames.len() + 1 == ROWS.len();
        frames
            .push(if is_last { last } else { *row })
            .expect(rt, "memory");
        assert_drawn(rt, &collected, &frames);
    }
    clock.end_all();
    drop(handle);
    drop(item);
}

#[test]
fn throughput_is_that_of_the_moments_of_frames(rt: HostRuntime) {
    assert_rows(&rt, rt.alloc(), true, MEASURED);
}

#[test]
fn without_the_option_no_throughput_is_drawn(rt: HostRuntime) {
    let (_, _, row) = ROWS[4];
    assert_rows(&rt, rt.alloc(), false, row);
}
