//! What the caller that README.md shows draws.
use crate::caller::show_task;
use crate::fixtures::{TASK_FRAME, TERMINAL, assert_same};
use prodash::render::line::draw::MemoryScreen;
use prodash::tree::{RootOptions, SessionOptions};

#[test]
fn the_caller_shows_a_task(rt: HostRuntime) {
    let options = SessionOptions {
        root: RootOptions::default(),
        draw: TERMINAL,
        throughput: false,
    };
    let mut screen = MemoryScreen::new(rt.alloc(), 0).expect(&rt, "no refusal");
    show_task(rt.alloc(), &options, &mut screen).expect(&rt, "no refusal");
    assert_same(&rt, screen.bytes(), TASK_FRAME.as_bytes(), "bytes");
}
