//! The engine of a dashboard: its steps over a root that is refused now and then, and the threads
//! that draw it. What is to be written is what a `Dashboard` appends for the same calls.
use crate::engine::{
    Breaking, FINDS, FINDS_NONE, FRAME, HAS_NO_MEMORY, IS_FULL, Orders, Told, assert_asked,
    assert_ended,
};
use crate::fixtures::{FakeScreen, Host, assert_same, downgrade, make_tree, share};
use crate::waiting::{
    Awaited, Collected, Collector, HoldsBytes, SteppedClock, assert_soon, holds_soon,
};
use prodash::render::tui::engine::{Engine, EngineAnswer, EngineEvent};
use prodash::render::tui::{
    Answer, Contents, Dashboard, Event, JoinHandle, Key, KeyCode, Options, StackSizes, render,
    render_with_stacks,
};
use prodash::tree::{Item, Root as TreeRoot};
use prodash::{Refusal, Root, WeakRoot};
use prodash_fixtures::rows;
use std::alloc::Global;
use std::io::Write;
use std::process::Abort;
use std::sync::Arc;
use std::sync::atomic::Ordering;

/// The columns and rows of the terminal.
const SIZE: (u16, u16) = (40, 8);

fn options(rt: &impl Abort, alloc: Global) -> Options {
    Options {
        nanoseconds_per_frame: FRAME,
        ..Options::create(alloc).expect(rt, "memory")
    }
}

/// A key that writes a character.
fn key(character: char) -> Event {
    Event::Input(Key {
        code: KeyCode::Char(character),
        control: false,
        release: false,
    })
}

fn title(rt: &impl Abort, alloc: Global, text: &str) -> Event {
    Event::SetTitle(String::from_str(alloc, text).expect(rt, "memory"))
}

/// A dashboard of `task`, and the bytes that it has appended.
#[derive(Drop)]
struct Expected {
    alloc: Global,
    dashboard: Dashboard,
    bytes: Vec<u8>,
}

impl Expected {
    fn new(rt: &impl Abort, alloc: Global) -> Expected {
        let (columns, rows) = SIZE;
        Expected {
            alloc,
            dashboard: Dashboard::new(alloc, options(rt, alloc), columns, rows),
            bytes: Vec::new(alloc),
        }
    }

    /// Draws a frame of `task` at a step of 10.
    fn draw(&mut self, rt: &impl Abort, step: u64) {
        let progress = Some((step, Some(10)));
        let row = prodash_fixtures::row(
            self.alloc,
            prodash_fixtures::key_at(&[0]),
            "task",
            progress,
        );
        let rows = vec![in self.alloc; row.expect(rt, "memory")].expect(rt, "memory");
        let contents = Contents {
            rows: &rows,
            messages: &[],
            at: 0,
            time: "1970-01-01T00:00:00",
        };
        let drawn = self.dashboard.draw(self.alloc, &contents, &mut self.bytes);
        assert_same(rt, drawn, Ok(()), "a frame");
    }

    /// Handles an event, and draws a frame.
    fn handle(&mut self, rt: &impl Abort, event: Event, step: u64) {
        let answer = self.dashboard.handle(event);
        assert_same(rt, answer, Answer::Redraw, "an event");
        self.draw(rt, step);
    }

    /// Takes another size, and draws a frame.
    fn resize(&mut self, rt: &impl Abort, columns: u16, rows: u16, step: u64) {
        let resized = self.dashboard.resize(self.alloc, columns, rows);
        assert_same(rt, resized, Ok(()), "a size");
        self.draw(rt, step);
    }

    fn close(&mut self, rt: &impl Abort) {
        let closed = self.dashboard.close(&mut self.bytes);
        assert_same(rt, closed, Ok(()), "the end");
    }

    /// Asserts that this is what is written.
    fn assert_written<R: Host>(&self, rt: &R, collected: &Collected) {
        let written = HoldsBytes(rt, collected, &self.bytes).holds();
        assert_same(rt, written, true, collected.bytes.lock(rt).as_slice());
    }

    /// Asserts that this is written soon.
    fn assert_written_soon<R: Host>(&self, rt: &R, collected: &Collected) {
        let written = holds_soon(rt, &HoldsBytes(rt, collected, &self.bytes));
        assert_same(rt, written, true, collected.bytes.lock(rt).as_slice());
    }
}

/// A step of an engine: what the weak root does, what happens, and what is returned.
type Step = (u64, EngineEvent, Result<EngineAnswer, Refusal>);

fn tick() -> EngineEvent {
    let (at, event) = (0, Event::Tick);
    EngineEvent::Handle { at, event }
}

/// Takes the steps, and asserts that the engine returns what it is to return. Returns its screen's
/// bytes.
fn assert_each<W: WeakRoot + Drop>(
    rt: &impl Abort,
    alloc: Global,
    screen: FakeScreen,
    weak: W,
    orders: &Orders,
    steps: Vec<Step>,
    want: &[u8],
)
where
    W::Root: Root + Drop,
{
    let mut engine = Engine::new(alloc, screen, weak, options(rt, alloc), SIZE);
    for (next, event, result) in steps {
        orders.set_next(next);
        assert_same(rt, engine.step(event), result, next);
    }
    assert_same(rt, engine.screen().bytes.as_slice(), want, "screen");
    drop(engine);
}

/// A refused frame shows nothing, and the next one shows what the events have changed.
#[test]
fn steps_draw_or_are_refused(rt: HostRuntime) {
    let alloc: Global = rt.alloc();
    let mut want = Expected::new(&rt, alloc);
    want.draw(&rt, 3);
    want.handle(&rt, title(&rt, alloc, "one"), 3);
    want.resize(&rt, 30, 6, 3);
    want.close(&rt);
    let (at, event) = (0, title(&rt, alloc, "one"));
    let (columns, rows) = (30, 6);
    let steps = vec![in alloc;
        (IS_FULL, tick(), Err(Refusal::TooManyHandles)),
        (HAS_NO_MEMORY, tick(), Err(Refusal::Memory)),
        (FINDS, tick(), Ok(EngineAnswer::Drawn)),
        (
            HAS_NO_MEMORY,
            EngineEvent::Handle {
                at,
                event: key('x')
            },
            Ok(EngineAnswer::Skipped)
        ),
        (
            HAS_NO_MEMORY,
            EngineEvent::Handle { at, event },
            Err(Refusal::Memory)
        ),
        (FINDS, tick(), Ok(EngineAnswer::Drawn)),
        (
            IS_FULL,
            EngineEvent::Resize { at, columns, rows },
            Err(Refusal::TooManyHandles)
        ),
        (FINDS, tick(), Ok(EngineAnswer::Drawn)),
        (FINDS_NONE, tick(), Ok(EngineAnswer::Ended)),
        (HAS_NO_MEMORY, tick(), Err(Refusal::Closed)),
        (
            FINDS,
            EngineEvent::Resize { at, columns, rows },
            Err(Refusal::Closed)
        ),
        (FINDS, EngineEvent::Quit { at }, Err(Refusal::Closed)),
    ];
    let (root, item) = make_tree(&rt, alloc);
    let orders = Orders::new(&rt, alloc, FINDS);
    let weak = Told::new(&rt, &root, &orders);
    let screen = FakeScreen::new(alloc, 9, usize::MAX, true).expect(&rt, "memory");
    let steps = steps.expect(&rt, "memory");
    assert_each(&rt, alloc, screen, weak, &orders, steps, &want.bytes);
    drop(item);
}

/// A screen that breaks has a prefix of the frame. Then every event is refused.
#[test]
fn a_broken_screen_is_left(rt: HostRuntime) {
    let alloc: Global = rt.alloc();
    let mut want = Expected::new(&rt, alloc);
    want.draw(&rt, 3);
    want.bytes.truncate(20);
    let steps = vec![in alloc;
        (FINDS, tick(), Err(Refusal::Broken)),
        (IS_FULL, tick(), Err(Refusal::Broken)),
        (FINDS, EngineEvent::Quit { at: 0 }, Err(Refusal::Broken)),
    ];
    let (root, item) = make_tree(&rt, alloc);
    let orders = Orders::new(&rt, alloc, FINDS);
    let weak = Told::new(&rt, &root, &orders);
    let screen = FakeScreen::new(alloc, 9, 20, true).expect(&rt, "memory");
    let steps = steps.expect(&rt, "memory");
    assert_each(&rt, alloc, screen, weak, &orders, steps, &want.bytes);
    drop(item);
}

/// A dashboard with its clock, and what its writer collects.
#[derive(Drop)]
struct Collecting<R: Host> {
    collected: Arc<Collected>,
    clock: Arc<SteppedClock<R>>,
    handle: JoinHandle<R>,
}

/// Starts a dashboard.
fn start<
    R: Host,
    O: Write + Drop + Send + 'static,
    T: Root + Drop + Send + 'static,
    W: WeakRoot<Root = T> + Drop + Send + 'static,
>(rt: &R, alloc: Global, out: O, weak: W, clock: &Arc<SteppedClock<R>>) -> JoinHandle<R> {
    let options = options(rt, alloc);
    render(*rt, alloc, out, weak, share(rt, clock), options, SIZE).expect(rt, "no refusal")
}

/// A dashboard of this root, which holds its first write if it isn't open. The ticker sleeps until
/// the clock lets it go on.
fn make_collecting<
    R: Host,
    T: Root + Drop + Send + 'static,
    W: WeakRoot<Root = T> + Drop + Send + 'static,
>(rt: &R, alloc: Global, weak: W, is_open: bool) -> Collecting<R> {
    let collected = Collected::new(rt, alloc, is_open);
    let out = Collector::new(rt, alloc, &collected);
    let clock = SteppedClock::new(rt, alloc, FRAME);
    let handle = start(rt, alloc, out, weak, &clock);
    Collecting {
        collected,
        clock,
        handle,
    }
}

/// A tree, its task, its dashboard with what that is expected to write, and what it has written.
#[derive(Drop)]
struct Drawn<R: Host> {
    root: TreeRoot<R>,
    item: Item<R>,
    want: Expected,
    collected: Arc<Collected>,
    clock: Arc<SteppedClock<R>>,
    handle: JoinHandle<R>,
}

/// A dashboard of a task at 3 of 10, which has drawn it, or holds that write if it isn't open.
fn make_drawn<R: Host>(rt: &R, alloc: Global, is_open: bool) -> Drawn<R> {
    let (root, item) = make_tree(rt, alloc);
    let it = make_collecting(rt, alloc, downgrade(rt, &root), is_open);
    let Collecting {
        collected,
        clock,
        handle,
    } = it;
    let mut want = Expected::new(rt, alloc);
    want.draw(rt, 3);
    if is_open {
        want.assert_written_soon(rt, &collected);
    } else {
        assert_soon(rt, &collected.has_begun, "first frame");
    }
    clock.assert_begun(1);
    Drawn {
        root,
        item,
        want,
        collected,
        clock,
        handle,
    }
}

/// Asserts that an event is sent.
fn assert_sent<R: Host>(rt: &R, handle: &JoinHandle<R>, event: Event) {
    assert_same(rt, handle.send(event), Ok(()), "an event");
}

/// While the first frame is held, events, a size and a tick are requested. They come one after
/// another, a frame for each, then the last frame and the end.
#[test]
fn requests_come_in_their_order(rt: HostRuntime) {
    let alloc: Global = rt.alloc();
    let mut it = make_drawn(&rt, alloc, false);
    it.item.set(4);
    assert_sent(&rt, &it.handle, title(&rt, alloc, "one"));
    assert_sent(&rt, &it.handle, key('x'));
    // the tick comes behind the title, whose frame has the new step
    it.clock.end(1);
    it.clock.assert_begun(2);
    assert_same(&rt, it.handle.resize(30, 6), Ok(()), "a size");
    assert_sent(&rt, &it.handle, title(&rt, alloc, "two"));
    assert_same(&rt, it.handle.is_running(), true, "running");
    it.handle.shutdown();
    let refused = it.handle.send(key('j'));
    assert_same(
        &rt,
        refused,
        Err(Refusal::Closed),
        "after the end is requested",
    );
    it.collected.open();
    it.handle.shutdown_and_wait();
    it.want.handle(&rt, title(&rt, alloc, "one"), 4);
    it.want.resize(&rt, 30, 6, 4);
    it.want.handle(&rt, title(&rt, alloc, "two"), 4);
    it.want.close(&rt);
    it.want.assert_written(&rt, &it.collected);
    assert_ended(&rt, &it.clock);
    drop(it.root);
    drop(it.item);
}

/// A dashboard that has ended.
#[derive(Drop)]
struct HasEnded<'a, R: Host>(&'a JoinHandle<R>);

impl<R: Host> Awaited for HasEnded<'_, R> {
    fn holds(&self) -> bool {
        !self.0.is_running()
    }
}

/// A request to interrupt leaves the terminal, though nothing shuts the dashboard down.
#[test]
fn a_key_ends_it(rt: HostRuntime) {
    let alloc: Global = rt.alloc();
    let mut it = make_drawn(&rt, alloc, true);
    assert_sent(&rt, &it.handle, key('q'));
    assert_soon(&rt, &HasEnded(&it.handle), "the end");
    assert_same(&rt, it.handle.send(key('j')), Err(Refusal::Closed), "a key");
    assert_same(&rt, it.handle.resize(9, 9), Err(Refusal::Closed), "a size");
    it.handle.wait();
    it.want.close(&rt);
    it.want.assert_written(&rt, &it.collected);
    drop(it.root);
    drop(it.item);
}

/// A tick draws a frame after each interval, and a handle that is dropped a last one.
#[test]
fn a_drop_leaves(rt: HostRuntime) {
    let mut it = make_drawn(&rt, rt.alloc(), true);
    let length = it.clock.length.load(Ordering::SeqCst);
    assert_same(&rt, length, FRAME, "length of a sleep");
    it.item.set(4);
    it.clock.end(1);
    it.want.draw(&rt, 4);
    it.want.assert_written_soon(&rt, &it.collected);
    it.item.set(5);
    drop(it.handle);
    it.want.draw(&rt, 5);
    it.want.close(&rt);
    it.want.assert_written(&rt, &it.collected);
    drop(it.root);
    drop(it.item);
}

/// A dashboard that is left to itself runs until its root is gone.
#[test]
fn a_detached_dashboard_ends_with_its_root(rt: HostRuntime) {
    let mut it = make_drawn(&rt, rt.alloc(), true);
    it.handle.detach();
    it.item.set(4);
    it.clock.end(1);
    it.want.draw(&rt, 4);
    it.want.assert_written_soon(&rt, &it.collected);
    drop(it.root);
    assert_ended(&rt, &it.clock);
    it.want.close(&rt);
    it.want.assert_written_soon(&rt, &it.collected);
    drop(it.item);
}

/// A disconnected handle sends nothing, and still waits.
#[test]
fn a_disconnected_handle_waits(rt: HostRuntime) {
    let mut it = make_drawn(&rt, rt.alloc(), true);
    it.handle.disconnect();
    assert_same(&rt, it.handle.send(key('q')), Err(Refusal::Closed), "a key");
    it.handle.shutdown();
    it.item.set(4);
    it.clock.end(1);
    it.want.draw(&rt, 4);
    it.want.assert_written_soon(&rt, &it.collected);
    drop(it.root);
    it.clock.end_all();
    it.handle.wait();
    it.want.close(&rt);
    it.want.assert_written(&rt, &it.collected);
    drop(it.item);
}

/// A tree without tasks ends a dashboard that is to stop then, before it has drawn anything.
#[test]
fn no_rows_end_it(rt: HostRuntime) {
    let alloc: Global = rt.alloc();
    let root = TreeRoot::new(rt, alloc).expect(&rt, "no refusal");
    let it = make_collecting(&rt, alloc, downgrade(&rt, &root), true);
    it.handle.wait();
    assert_same(&rt, it.collected.has_begun.holds(), false, "written");
    assert_ended(&rt, &it.clock);
}

/// An event whose frame is refused is shown by the next frame, and the end that is refused comes
/// once there is memory.
#[test]
fn refused_frames_are_drawn_later(rt: HostRuntime) {
    let alloc: Global = rt.alloc();
    let (root, item) = make_tree(&rt, alloc);
    let orders = Orders::new(&rt, alloc, HAS_NO_MEMORY);
    let mut it = make_collecting(&rt, alloc, Told::new(&rt, &root, &orders), true);
    assert_asked(&rt, &orders, 1);
    it.clock.assert_begun(1);
    assert_sent(&rt, &it.handle, title(&rt, alloc, "one"));
    assert_asked(&rt, &orders, 2);
    orders.set_next(FINDS);
    it.clock.end(1);
    let mut want = Expected::new(&rt, alloc);
    want.handle(&rt, title(&rt, alloc, "one"), 3);
    want.assert_written_soon(&rt, &it.collected);
    it.clock.assert_begun(2);
    orders.set_next(IS_FULL);
    item.set(4);
    it.handle.shutdown();
    // the event loop sleeps once its last frame is refused
    it.clock.assert_begun(3);
    orders.set_next(FINDS);
    it.clock.end_all();
    it.handle.wait();
    want.draw(&rt, 4);
    want.close(&rt);
    want.assert_written(&rt, &it.collected);
    drop(item);
}

/// A writer that breaks in the middle of a frame ends its dashboard.
#[test]
fn a_broken_writer_ends_it(rt: HostRuntime) {
    let alloc: Global = rt.alloc();
    let (root, item) = make_tree(&rt, alloc);
    let clock = SteppedClock::new(&rt, alloc, FRAME);
    let out = Breaking { left: 5 };
    let handle = start(&rt, alloc, out, downgrade(&rt, &root), &clock);
    assert_ended(&rt, &clock);
    handle.wait();
    drop(item);
}

/// Asserts that a dashboard with these stacks is refused, has written nothing, and has dropped its
/// writer and its clock.
fn assert_no_thread<R: Host>(rt: &R, alloc: Global, stacks: StackSizes) {
    let collected = Collected::new(rt, alloc, true);
    let clock = SteppedClock::new(rt, alloc, 0);
    let (root, item) = make_tree(rt, alloc);
    let out = Collector::new(rt, alloc, &collected);
    let (weak, theirs) = (downgrade(rt, &root), share(rt, &clock));
    let options = options(rt, alloc);
    let refused = render_with_stacks(*rt, alloc, out, weak, theirs, options, SIZE, stacks);
    assert_same(rt, refused.err(), Some(Refusal::NoThread), stacks);
    assert_same(rt, collected.has_begun.holds(), false, stacks);
    assert_same(rt, Arc::strong_count(&collected), 1, stacks);
    assert_same(rt, Arc::strong_count(&clock), 1, stacks);
    drop(item);
}

#[test]
fn dashboards_without_a_thread_are_refused(rt: HostRuntime) {
    let (large, room) = (usize::MAX, 1 << 20);
    for (event_loop, ticker) in [(large, room), (room, large)] {
        let stacks = StackSizes { event_loop, ticker };
        assert_no_thread(&rt, rt.alloc(), stacks);
    }
}
