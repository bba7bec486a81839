//! The initial delay of a renderer: its rows are hidden until it has passed, its messages are not.
use crate::engine::{CLOSING_WIDE, Collecting, assert_drawn, make_collecting};
use crate::fixtures::{Host, TASK_FRAME, assert_same, downgrade, make_tree};
use crate::waiting::{Awaited, assert_soon};
use prodash::tree::Item;
use std::alloc::Global;
use std::process::Abort;

/// The delay in nanoseconds, unlike the frame interval.
const DELAY: u64 = 7;

/// What two messages of `task` are printed as.
const TWO_MESSAGES: &str = " task one\n task two\n";

/// A renderer that is asked for the size again at each turn, until more than the messages is
/// written. A resize draws rows that haven't changed, too, if they are shown.
#[derive(Drop)]
struct ShowsRows<'a, R: Host>(&'a R, &'a Collecting<R>);

impl<R: Host> Awaited for ShowsRows<'_, R> {
    fn holds(&self) -> bool {
        self.1.handle.resize(40, 20);
        self.1.collected.bytes.lock(self.0).len() > TWO_MESSAGES.len()
    }
}

/// Asserts that the messages are written, then the row each time, then the closing frame.
fn assert_row_below_messages(rt: &impl Abort, bytes: &[u8]) {
    let rest = bytes.strip_prefix(TWO_MESSAGES.as_bytes());
    let rest = rest.expect(rt, "messages");
    let frames = rest.strip_suffix(CLOSING_WIDE.as_bytes());
    let frames = frames.expect(rt, "a closing frame");
    for frame in frames.chunks(TASK_FRAME.len()) {
        assert_same(rt, frame, TASK_FRAME.as_bytes(), "frame");
    }
}

fn send<R: Host>(rt: &R, alloc: Global, item: &mut Item<R>, text: &str) {
    item.info(alloc, 0, text).expect(rt, "no refusal");
}

/// A tick and a resize before the delay has passed draw no row. Rows are drawn after it.
#[test]
fn rows_are_hidden_until_the_delay_has_passed(rt: HostRuntime) {
    let alloc: Global = rt.alloc();
    let (root, mut item) = make_tree(&rt, alloc);
    send(&rt, alloc, &mut item, "one");
    let it = make_collecting(&rt, alloc, downgrade(&rt, &root), true, Some(DELAY));
    assert_drawn(&rt, &it.collected, &[" task one\n"]);
    it.handle.resize(40, 20);
    send(&rt, alloc, &mut item, "two");
    assert_drawn(&rt, &it.collected, &[TWO_MESSAGES]);
    it.clock.end_all();
    assert_soon(&rt, &ShowsRows(&rt, &it), "rows");
    it.handle.shutdown_and_wait();
    assert_row_below_messages(&rt, it.collected.bytes.lock(&rt).as_slice());
    drop(item);
}
