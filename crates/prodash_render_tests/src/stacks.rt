//! Threads that can't be started, since their stacks would be too large. What they were given is
//! dropped.
use crate::engine::assert_frames;
use crate::fixtures::{Host, assert_same, downgrade, make_tree, share};
use crate::waiting::{Collected, Collector, SteppedClock};
use prodash::Refusal;
use prodash::progress::Log;
use prodash::render::line::{Options, StackSizes, render_with_stacks};
use std::alloc::Global;
use std::sync::Arc;

const TOO_LARGE: usize = usize::MAX;

/// Asserts that a renderer with these stacks is refused, has written nothing, and has dropped its
/// writer and its clock.
fn assert_no_thread<R: Host>(rt: &R, alloc: Global, stacks: StackSizes) {
    let collected = Collected::new(rt, alloc, true);
    let clock = SteppedClock::new(rt, alloc, 0);
    let (root, item) = make_tree(rt, alloc);
    let options = Options {
        initial_delay: Some(1_000_000),
        ..Options::default()
    };
    let out = Collector::new(rt, alloc, &collected);
    let weak = downgrade(rt, &root);
    let theirs = share(rt, &clock);
    let refused = render_with_stacks(*rt, alloc, out, weak, theirs, options, stacks);
    assert_same(rt, refused.err(), Some(Refusal::NoThread), stacks);
    assert_frames(rt, &collected, &[]);
    assert_same(rt, Arc::strong_count(&collected), 1, stacks);
    assert_same(rt, Arc::strong_count(&clock), 1, stacks);
    drop(item);
}

/// The sizes of the stacks of the event loop, of the ticker, and of the thread of the delay.
const STACKS: &[(usize, usize, usize)] = &[
    (TOO_LARGE, 1 << 20, 1 << 20),
    (1 << 20, TOO_LARGE, 1 << 20),
    (1 << 20, 1 << 20, TOO_LARGE),
];

#[test]
fn renderers_without_a_thread_are_refused(rt: HostRuntime) {
    for (event_loop, ticker, delay) in STACKS {
        let stacks = StackSizes {
            event_loop: *event_loop,
            ticker: *ticker,
            delay: *delay,
        };
        assert_no_thread(&rt, rt.alloc(), stacks);
    }
}

#[test]
fn logs_without_a_thread_are_refused(rt: HostRuntime) {
    let alloc: Global = rt.alloc();
    let collected = Collected::new(&rt, alloc, true);
    let logger = Collector::new(&rt, alloc, &collected);
    let clock = SteppedClock::new(&rt, alloc, 0);
    let theirs = share(&rt, &clock);
    let refused = Log::with_stack_size(&rt, alloc, "main", None, logger, theirs, TOO_LARGE);
    assert_same(&rt, refused.err(), Some(Refusal::NoThread), "log");
    assert_same(
        &rt,
        Arc::strong_count(&collected),
        1,
        "owners of the logger's list",
    );
    assert_same(&rt, Arc::strong_count(&clock), 1, "owners of the clock");
}
