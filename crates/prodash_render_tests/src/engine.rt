//! The engine: its steps over a root that is refused now and then, and the threads of a renderer.
use crate::fixtures::{
    FakeScreen, Host, TASK_FRAME, TERMINAL, arc, assert_same, downgrade, make_tree, share,
};
use crate::waiting::{
    Awaited, Collected, Collector, Holds, Reaches, SoleOwner, SteppedClock, assert_soon, holds_soon,
};
use prodash::render::line::draw::Answer;
use prodash::render::line::engine::{Engine, EngineEvent};
use prodash::render::line::{JoinHandle, Options, render};
use prodash::tree::{Item, Root as TreeRoot, WeakHandle};
use prodash::{Refusal, Root, WeakRoot};
use std::alloc::Global;
use std::io::{self, Error, ErrorKind, Write};
use std::process::Abort;
use std::sync::Arc;
use std::sync::atomic::{AtomicU64, Ordering};
use std::thread;
use std::time::Duration;

/// A weak root that finds its root.
pub(crate) const FINDS: u64 = 0;

pub(crate) const FINDS_NONE: u64 = 1;

/// The root has as many owners as there can be.
pub(crate) const IS_FULL: u64 = 2;

/// There is no memory for one more owner.
pub(crate) const HAS_NO_MEMORY: u64 = 3;

/// What a weak root does next, and how often it was asked.
#[derive(Drop)]
pub(crate) struct Orders {
    next: AtomicU64,
    asked: AtomicU64,
}

impl Orders {
    pub(crate) fn new(rt: &impl Abort, alloc: Global, next: u64) -> Arc<Orders> {
        let orders = Orders {
            next: AtomicU64::new(next),
            asked: AtomicU64::new(0),
        };
        arc(rt, alloc, orders)
    }

    pub(crate) fn set_next(&self, next: u64) {
        self.next.store(next, Ordering::SeqCst);
    }
}

/// A weak root that finds the root of a tree, or does what it is told to do.
#[derive(Drop)]
pub(crate) struct Told<R: Host> {
    weak: WeakHandle<R>,
    orders: Arc<Orders>,
}

impl<R: Host> Told<R> {
    pub(crate) fn new(rt: &R, root: &TreeRoot<R>, orders: &Arc<Orders>) -> Told<R> {
        Told {
            weak: downgrade(rt, root),
            orders: share(rt, orders),
        }
    }
}

impl<R: Host> WeakRoot for Told<R> {
    type Root = TreeRoot<R>;

    fn upgrade(&self) -> Result<Option<TreeRoot<R>>, Refusal> {
        let next = self.orders.next.load(Ordering::SeqCst);
        self.orders.asked.fetch_add(1, Ordering::SeqCst);
        match next {
            FINDS => self.weak.upgrade(),
            FINDS_NONE => Ok(None),
            IS_FULL => Err(Refusal::TooManyHandles),
            _ => Err(Refusal::Memory),
        }
    }
}

/// A tick that shows the rows.
const TICK: EngineEvent = EngineEvent::Tick { at: 0, show: true };

/// A resize to 30 columns and 4 rows, which shows the rows.
const RESIZE: EngineEvent = EngineEvent::Resize {
    at: 0,
    show: true,
    columns: 30,
    rows: 4,
};

const QUIT: EngineEvent = EngineEvent::Quit { at: 0 };

/// What the weak root does, what is asked, what is returned, and the bytes that are written.
type Step<'a> = (u64, EngineEvent, Result<Answer, Refusal>, &'a str);

/// `task` at 3 of 10, on 30 columns where it was on 40.
const RESIZED_FRAME: &str = " task 3/10 [====>------------]          \n\x1b[1A";

/// The closing frame after that.
const CLOSING_FRAME: &str = "                              \n\x1b[1A\x1b[2K\r";

/// How many bytes the screen takes before it breaks, and the steps of an engine.
#[rattlefmt::skip]
const STEPS: &[(usize, &[Step<'static>])] = &[
    (200, &[
        (IS_FULL, TICK, Err(Refusal::TooManyHandles), ""),
        (HAS_NO_MEMORY, TICK, Err(Refusal::Memory), ""),
        (FINDS, TICK, Ok(Answer::Drawn), TASK_FRAME),
        (FINDS, TICK, Ok(Answer::Drawn), ""),
        (FINDS, RESIZE, Ok(Answer::Drawn), RESIZED_FRAME),
        (FINDS_NONE, TICK, Ok(Answer::Ended), CLOSING_FRAME),
        // the refusal of a closed renderer comes first
        (HAS_NO_MEMORY, TICK, Err(Refusal::Closed), ""),
        (IS_FULL, TICK, Err(Refusal::Closed), ""),
        (FINDS, QUIT, Err(Refusal::Closed), ""),
    ]),
    // a screen that is about to break breaks once there is a frame to write
    (5, &[
        (HAS_NO_MEMORY, TICK, Err(Refusal::Memory), ""),
        (FINDS, TICK, Err(Refusal::Broken), " task"),
        (IS_FULL, TICK, Err(Refusal::Broken), ""),
        (FINDS, RESIZE, Err(Refusal::Broken), ""),
    ]),
    (200, &[
        (FINDS, QUIT, Ok(Answer::Ended), "\x1b[2K\r"),
        (FINDS, TICK, Err(Refusal::Closed), ""),
    ]),
];

/// Asserts that an engine returns what it is to return, and writes what it is to write.
fn assert_each<W: WeakRoot + Drop>(
    rt: &impl Abort,
    alloc: Global,
    screen: FakeScreen,
    weak: W,
    orders: &Orders,
    steps: &[Step<'_>],
)
where
    W::Root: Root + Drop,
{
    let mut engine = Engine::new(alloc, screen, weak, TERMINAL, false).expect(rt, "no refusal");
    let mut before = 0;
    for (next, event, result, bytes) in steps {
        orders.set_next(*next);
        assert_same(rt, engine.step(*event), *result, *bytes);
        let taken = engine.screen().bytes.as_slice();
        assert_same(rt, taken.get(before..), Some(bytes.as_bytes()), *bytes);
        before = taken.len();
    }
    drop(engine);
}

fn assert_steps<R: Host>(rt: &R, alloc: Global, room: usize, steps: &[Step<'_>]) {
    let (root, item) = make_tree(rt, alloc);
    let orders = Orders::new(rt, alloc, FINDS);
    let weak = Told::new(rt, &root, &orders);
    let screen = FakeScreen::new(alloc, 200, room, true).expect(rt, "memory");
    assert_each(rt, alloc, screen, weak, &orders, steps);
    drop(item);
}

#[test]
fn steps_draw_or_are_refused(rt: HostRuntime) {
    for (room, steps) in STEPS {
        assert_steps(&rt, rt.alloc(), *room, steps);
    }
}

/// The nanoseconds between two frames.
pub(crate) const FRAME: u64 = 1_000_000;

/// Frames of 40 columns and 20 rows.
pub(crate) fn options() -> Options {
    Options {
        terminal_dimensions: (40, 20),
        colored: false,
        nanoseconds_per_frame: FRAME,
        ..Options::default()
    }
}

/// `task` at 4 of 10, on 40 columns.
const NEXT_FRAME: &str = " task 4/10 [==========>----------------]\n\x1b[1A";

/// The same on 30 columns.
const NEXT_NARROW: &str = " task 4/10 [======>----------]\n\x1b[1A";

/// The closing frame on 40 columns.
pub(crate) const CLOSING_WIDE: &str = "                                        \n\x1b[1A\x1b[2K\r";

/// Starts a renderer.
pub(crate) fn start<
    R: Host,
    O: Write + Drop + Send + 'static,
    T: Root + Drop + Send + 'static,
    W: WeakRoot<Root = T> + Drop + Send + 'static,
>(
    rt: &R,
    alloc: Global,
    out: O,
    weak: W,
    clock: &Arc<SteppedClock<R>>,
    options: Options,
) -> JoinHandle<R> {
    render(*rt, alloc, out, weak, share(rt, clock), options).expect(rt, "no refusal")
}

/// A renderer with its clock, and what its writer collects.
#[derive(Drop)]
pub(crate) struct Collecting<R: Host> {
    pub collected: Arc<Collected>,
    pub clock: Arc<SteppedClock<R>>,
    pub handle: JoinHandle<R>,
}

/// A renderer of this root, which holds its first write if it isn't open. The thread that waits for
/// the delay sleeps until the clock lets it go on, or the ticker if there is no delay.
pub(crate) fn make_collecting<
    R: Host,
    T: Root + Drop + Send + 'static,
    W: WeakRoot<Root = T> + Drop + Send + 'static,
>(rt: &R, alloc: Global, weak: W, is_open: bool, delay: Option<u64>) -> Collecting<R> {
    let collected = Collected::new(rt, alloc, is_open);
    let out = Collector::new(rt, alloc, &collected);
    let clock = SteppedClock::new(rt, alloc, delay.unwrap_or(FRAME));
    let options = Options {
        initial_delay: delay,
        ..options()
    };
    let handle = start(rt, alloc, out, weak, &clock, options);
    Collecting {
        collected,
        clock,
        handle,
    }
}

/// A tree, its task, its renderer with its clock, and what its writer collects.
#[derive(Drop)]
struct Drawn<R: Host> {
    root: TreeRoot<R>,
    item: Item<R>,
    collected: Arc<Collected>,
    clock: Arc<SteppedClock<R>>,
    handle: JoinHandle<R>,
}

/// A renderer of a task at 3 of 10, which has drawn it, or holds that write if it isn't open. Its
/// ticker sleeps until the clock lets it go on.
fn make_drawn<R: Host>(rt: &R, alloc: Global, is_open: bool) -> Drawn<R> {
    let (root, item) = make_tree(rt, alloc);
    let Collecting {
        collected,
        clock,
        handle,
    } = make_collecting(rt, alloc, downgrade(rt, &root), is_open, None);
    if is_open {
        assert_drawn(rt, &collected, &[TASK_FRAME]);
    } else {
        assert_soon(rt, &collected.has_begun, "first frame");
    }
    clock.assert_begun(1);
    Drawn {
        root,
        item,
        collected,
        clock,
        handle,
    }
}

/// Asserts that these frames are written.
pub(crate) fn assert_frames<R: Host>(rt: &R, collected: &Collected, frames: &[&str]) {
    let is_drawn = Holds(rt, collected, frames).holds();
    assert_same(rt, is_drawn, true, collected.bytes.lock(rt).as_slice());
}

/// Asserts that these frames are written soon.
pub(crate) fn assert_drawn<R: Host>(rt: &R, collected: &Collected, frames: &[&str]) {
    let is_drawn = holds_soon(rt, &Holds(rt, collected, frames));
    assert_same(rt, is_drawn, true, collected.bytes.lock(rt).as_slice());
}

/// Asserts that the threads of a renderer end soon, and drop their clock.
pub(crate) fn assert_ended<R: Host>(rt: &R, clock: &Arc<SteppedClock<R>>) {
    clock.end_all();
    assert_soon(rt, &SoleOwner(clock), "the ticker ends");
}

/// While the first frame is held, `render` has returned, and the tree and the handle are used. Then
/// comes the size that was asked for last, the last frame, and the closing frame.
#[test]
fn a_thread_draws(rt: HostRuntime) {
    let mut it = make_drawn(&rt, rt.alloc(), false);
    assert_same(&rt, it.root.num_tasks(), 1, "tasks");
    it.item.set(4);
    it.handle.resize(50, 5);
    it.handle.resize(30, 4);
    it.handle.shutdown();
    it.collected.open();
    it.handle.shutdown_and_wait();
    let frames = [TASK_FRAME, RESIZED_FRAME, NEXT_NARROW, CLOSING_FRAME];
    assert_frames(&rt, &it.collected, &frames);
    assert_ended(&rt, &it.clock);
    drop(it.item);
}

/// The same with a size alone: after its frame the last one has nothing new.
#[test]
fn a_thread_draws_a_size(rt: HostRuntime) {
    let it = make_drawn(&rt, rt.alloc(), false);
    assert_same(&rt, it.root.num_tasks(), 1, "tasks");
    it.handle.resize(30, 4);
    it.collected.open();
    it.handle.shutdown_and_wait();
    let frames = [TASK_FRAME, RESIZED_FRAME, CLOSING_FRAME];
    assert_frames(&rt, &it.collected, &frames);
    assert_ended(&rt, &it.clock);
    drop(it.item);
}

/// The first frame comes at once, that of a size too, and each other after a sleep of the interval.
#[test]
fn frames_are_an_interval_apart(rt: HostRuntime) {
    let it = make_drawn(&rt, rt.alloc(), true);
    let length = it.clock.length.load(Ordering::SeqCst);
    assert_same(&rt, length, FRAME, "length of a sleep");
    // in this time the event loop comes to wait
    thread::sleep(&rt, Duration::from_millis(50));
    it.handle.resize(30, 4);
    let frames = [TASK_FRAME, RESIZED_FRAME, NEXT_NARROW, CLOSING_FRAME];
    assert_drawn(&rt, &it.collected, &frames[..2]);
    it.item.set(4);
    it.clock.end(1);
    assert_drawn(&rt, &it.collected, &frames[..3]);
    it.handle.shutdown_and_wait();
    assert_frames(&rt, &it.collected, &frames);
    drop(it.item);
}

/// A handle that is dropped draws a last frame and the closing frame, and waits for them.
#[test]
fn a_drop_closes(rt: HostRuntime) {
    let it = make_drawn(&rt, rt.alloc(), true);
    it.item.set(4);
    drop(it.handle);
    assert_frames(&rt, &it.collected, &[TASK_FRAME, NEXT_FRAME, CLOSING_WIDE]);
    drop(it.item);
}

/// A renderer that is left to itself runs until its root is gone.
#[test]
fn a_detached_renderer_ends_with_its_root(rt: HostRuntime) {
    let it = make_drawn(&rt, rt.alloc(), true);
    it.handle.detach();
    it.item.set(4);
    it.clock.end(1);
    assert_drawn(&rt, &it.collected, &[TASK_FRAME, NEXT_FRAME]);
    drop(it.root);
    assert_ended(&rt, &it.clock);
    assert_drawn(&rt, &it.collected, &[TASK_FRAME, NEXT_FRAME, CLOSING_WIDE]);
    drop(it.item);
}

/// A disconnected handle asks for nothing, and still waits.
#[test]
fn a_disconnected_handle_waits(rt: HostRuntime) {
    let mut it = make_drawn(&rt, rt.alloc(), true);
    it.handle.disconnect();
    it.handle.resize(30, 4);
    it.handle.shutdown();
    it.item.set(4);
    it.clock.end(1);
    assert_drawn(&rt, &it.collected, &[TASK_FRAME, NEXT_FRAME]);
    drop(it.root);
    it.clock.end_all();
    it.handle.wait();
    assert_frames(&rt, &it.collected, &[TASK_FRAME, NEXT_FRAME, CLOSING_WIDE]);
    drop(it.item);
}

/// A forgotten renderer closes, and the drop of its handle doesn't wait for the frame that is held.
#[test]
fn a_forgotten_renderer_closes(rt: HostRuntime) {
    let mut it = make_drawn(&rt, rt.alloc(), false);
    it.handle.forget();
    drop(it.handle);
    it.collected.open();
    assert_drawn(&rt, &it.collected, &[TASK_FRAME, CLOSING_WIDE]);
    drop(it.item);
}

/// Has a frame drawn while the handle waits, and then drops the root. Returns whether the frame was
/// drawn before that.
fn draw_and_end<R: Host>(
    rt: &R,
    root: TreeRoot<R>,
    item: Item<R>,
    collected: &Collected,
    clock: &SteppedClock<R>,
) -> bool {
    // in this time the handle waits
    thread::sleep(rt, Duration::from_millis(100));
    item.set(4);
    clock.end(1);
    let is_drawn = holds_soon(rt, &Holds(rt, collected, &[TASK_FRAME, NEXT_FRAME]));
    drop(root);
    clock.end_all();
    is_drawn
}

/// A handle that waits doesn't end its renderer, which ends with its root.
#[test]
fn a_wait_ends_nothing(rt: HostRuntime) {
    let Drawn {
        root,
        item,
        collected,
        clock,
        handle,
    } = make_drawn(&rt, rt.alloc(), true);
    let theirs = share(&rt, &collected);
    let worker = thread::spawn(&rt, move || draw_and_end(&rt, root, item, &theirs, &clock));
    let worker = worker.expect(&rt, "a thread");
    handle.wait();
    assert_frames(&rt, &collected, &[TASK_FRAME, NEXT_FRAME, CLOSING_WIDE]);
    assert_same(&rt, worker.join(&rt), true, "drawn before the end");
}

/// Waits until the root has been looked for this many times.
pub(crate) fn assert_asked<R: Host>(rt: &R, orders: &Orders, count: u64) {
    assert_soon(rt, &Reaches(&orders.asked, count), "looked for a root");
}

/// Ticks without memory, or with a root that has too many owners, draw nothing and end nothing.
#[test]
fn refused_ticks_are_skipped(rt: HostRuntime) {
    let alloc: Global = rt.alloc();
    let (root, item) = make_tree(&rt, alloc);
    let orders = Orders::new(&rt, alloc, HAS_NO_MEMORY);
    let it = make_collecting(&rt, alloc, Told::new(&rt, &root, &orders), true, None);
    assert_asked(&rt, &orders, 1);
    orders.set_next(IS_FULL);
    it.clock.end(1);
    assert_asked(&rt, &orders, 2);
    orders.set_next(FINDS);
    it.clock.end(2);
    assert_drawn(&rt, &it.collected, &[TASK_FRAME]);
    it.handle.shutdown_and_wait();
    drop(item);
}

/// A last frame that finds no memory is drawn once there is memory, and then the closing frame.
#[test]
fn the_last_frame_is_tried_again(rt: HostRuntime) {
    let alloc: Global = rt.alloc();
    let (root, item) = make_tree(&rt, alloc);
    let orders = Orders::new(&rt, alloc, HAS_NO_MEMORY);
    let mut it = make_collecting(&rt, alloc, Told::new(&rt, &root, &orders), true, None);
    assert_asked(&rt, &orders, 1);
    // the ticker sleeps first, and requests no other frame
    it.clock.assert_begun(1);
    it.handle.shutdown();
    // the event loop sleeps once its last frame is refused
    it.clock.assert_begun(2);
    orders.set_next(FINDS);
    it.clock.end_all_but_first();
    assert_drawn(&rt, &it.collected, &[TASK_FRAME, CLOSING_WIDE]);
    it.clock.end_first();
    it.handle.wait();
    drop(item);
}

/// A writer that takes a number of bytes and then fails.
#[derive(Drop)]
pub(crate) struct Breaking {
    pub left: usize,
}

impl Write for Breaking {
    fn write(&mut self, bytes: &[u8]) -> io::Result<usize> {
        let count = bytes.len().min(self.left);
        if count == 0 {
            return Err(Error::from(ErrorKind::BrokenPipe));
        }
        self.left -= count;
        Ok(count)
    }

    fn flush(&mut self) -> io::Result<()> {
        Ok(())
    }
}

/// A writer that breaks in the middle of a frame ends its renderer. The tree can be drawn by
/// another.
#[test]
fn a_broken_writer_ends_its_renderer(rt: HostRuntime) {
    let alloc: Global = rt.alloc();
    let (root, item) = make_tree(&rt, alloc);
    let clock = SteppedClock::new(&rt, alloc, FRAME);
    let out = Breaking { left: 5 };
    let handle = start(&rt, alloc, out, downgrade(&rt, &root), &clock, options());
    assert_ended(&rt, &clock);
    handle.wait();
    let it = make_collecting(&rt, alloc, downgrade(&rt, &root), true, None);
    it.handle.shutdown_and_wait();
    assert_frames(&rt, &it.collected, &[TASK_FRAME, CLOSING_WIDE]);
    drop(item);
}
