//! Many threads that work below one tree while it is drawn, and many renderers of one tree.
use crate::engine::{CLOSING_WIDE, assert_ended, assert_frames, make_collecting};
use crate::fixtures::{Host, TASK_FRAME, assert_same, downgrade, make_tree, share};
use crate::waiting::SteppedClock;
use prodash::render::line::JoinHandle;
use prodash::tree::Root as TreeRoot;
use prodash::tree::root::Options;
use std::alloc::Global;
use std::sync::Arc;
use std::thread;
use std::time::Duration;

/// The number of threads.
const THREADS: usize = 64;

/// The number of tasks that a thread adds, one after another.
const TASKS: usize = 100;

/// The number of renderers.
const RENDERERS: usize = 1000;

/// Adds tasks, sends the message `done!` of each, lets the ticker go on, and drops the task.
fn add_and_drop_tasks<R: Host>(rt: &R, alloc: Global, root: &TreeRoot<R>, clock: &SteppedClock<R>) {
    for _ in 0..TASKS {
        let mut task = root.add_child(alloc, "task").expect(rt, "no refusal");
        task.init(Some(1), None);
        task.inc();
        task.info(alloc, 0, "done!").expect(rt, "no refusal");
        clock.end_next();
    }
}

/// Starts the threads.
fn start_crowd<R: Host>(
    rt: &R,
    alloc: Global,
    root: &TreeRoot<R>,
    clock: &Arc<SteppedClock<R>>,
) -> Vec<thread::JoinHandle<()>> {
    let mut running = Vec::new(alloc);
    for _ in 0..THREADS {
        let (rt, clock) = (*rt, share(rt, clock));
        let root = root.clone().expect(&rt, "no refusal");
        let worker = thread::spawn(&rt, move || add_and_drop_tasks(&rt, alloc, &root, &clock));
        let worker = worker.expect(&rt, "a thread");
        running.push(worker).expect(&rt, "memory");
    }
    running
}

/// Gives a renderer another size every millisecond.
fn resize<R: Host>(rt: &R, handle: &JoinHandle<R>) {
    for columns in 40..100 {
        handle.resize(columns, 10);
        thread::sleep(rt, Duration::from_millis(1));
    }
}

/// Counts the exclamation marks, which only messages have.
fn messages_in(bytes: &[u8]) -> usize {
    let mut count: usize = 0;
    for byte in bytes {
        if *byte == b'!' {
            count = count.wrapping_add(1);
        }
    }
    count
}

/// No message is lost, and no task is left, while the renderer draws and is resized. It draws at
/// most one frame for each task, and one for each size, so it can't keep the lock from the threads.
#[test]
fn a_crowd_loses_no_message(rt: HostRuntime) {
    let alloc: Global = rt.alloc();
    let kept = Options {
        message_buffer_capacity: THREADS * TASKS,
        ..Options::default()
    };
    let root = kept.create(rt, alloc).expect(&rt, "no refusal");
    let it = make_collecting(&rt, alloc, downgrade(&rt, &root), true, None);
    let running = start_crowd(&rt, alloc, &root, &it.clock);
    resize(&rt, &it.handle);
    for worker in running {
        worker.join(&rt);
    }
    it.handle.shutdown_and_wait();
    let drawn = messages_in(it.collected.bytes.lock(&rt).as_slice());
    assert_same(&rt, drawn, THREADS * TASKS, "messages");
    assert_same(&rt, root.num_tasks(), 0, "tasks");
    assert_ended(&rt, &it.clock);
}

/// Starts a renderer and ends it, and asserts that its threads end.
fn draw_once<R: Host>(rt: &R, alloc: Global, root: &TreeRoot<R>) {
    let it = make_collecting(rt, alloc, downgrade(rt, root), true, None);
    it.handle.shutdown_and_wait();
    assert_frames(rt, &it.collected, &[TASK_FRAME, CLOSING_WIDE]);
    assert_ended(rt, &it.clock);
}

/// Renderers that are started and ended one after another leave no thread behind.
#[test]
fn renderers_leave_no_thread(rt: HostRuntime) {
    let alloc: Global = rt.alloc();
    let (root, task) = make_tree(&rt, alloc);
    for _ in 0..RENDERERS {
        draw_once(&rt, alloc, &root);
    }
    drop(task);
}
