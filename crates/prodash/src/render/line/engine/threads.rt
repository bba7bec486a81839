//! The threads of a renderer: its event loop, its ticker, and the delay before rows are shown.
ghost use Rattle.std.specs.Prelude.{IfErr, IsOkUnless};
ghost use Rattle.prodash_base.specs.Refusals.{RefusesThread};

use crate::render::line::draw::{Answer, OverWrite, Screen};
use crate::render::line::engine::event::EngineEvent;
use crate::render::line::engine::handle::JoinHandle;
use crate::render::line::engine::mailbox::{Pending, Request};
use crate::render::line::engine::options::Options;
use crate::render::line::engine::step::Engine;
use crate::render::threads::{DEFAULT_STACK, Serve, Shared, start_threads};
use crate::time::{Clock, Moment};
use prodash_base::Refusal;
use prodash_core::traits::{Root, WeakRoot};
use std::alloc::Global;
use std::io::Write;
use std::sync::atomic::{AtomicBool, Ordering};
use std::sync::{Arc, Wait};
use std::thread::{Builder, Threads};

/// The stack sizes of the threads that a renderer starts, in bytes: 2 MiB each by default.
#[derive(Clone, Copy, Debug)]
pub struct StackSizes {
    /// The thread that draws.
    pub event_loop: usize,
    /// The thread that requests a frame after each frame interval.
    pub ticker: usize,
    /// The thread that shows the rows after the initial delay. Without a delay it isn't started.
    pub delay: usize,
}

impl Default for StackSizes {
    fn default() -> StackSizes {
        StackSizes {
            event_loop: DEFAULT_STACK,
            ticker: DEFAULT_STACK,
            delay: DEFAULT_STACK,
        }
    }
}

/// Draws the tree of a weak root onto a writer, from threads of its own: one frame immediately, and
/// one more after each frame interval. It ends when the root has no owner, when the writer fails,
/// when a frame sees no rows and the renderer isn't to keep running, or when the handle ends it.
///
/// A frame is skipped if it runs out of memory, or if the root has too many owners.
///
/// # Errors
///
/// - `Memory`: there is no memory for the threads.
/// - `NoThread`: a thread couldn't be started. The ones already started have ended.
///
/// After an error the arguments are dropped, and nothing is drawn.
///
/// ```rust
/// let root = Root::new(rt, alloc)?;
/// let clock = Arc::new(alloc, SystemClock::new(rt))?;
/// let handle = render(rt, alloc, stderr, root.downgrade()?, clock, Options::default())?;
/// let mut item = root.add_child(alloc, "task")?;
/// // work
/// handle.shutdown_and_wait();
/// ```
pub fn render<
    R: Wait + Threads + Clone + Drop + Send + Sync + 'static,
    O: Write + Drop + Send + 'static,
    T: Root + Drop + Send + 'static,
    W: WeakRoot<Root = T> + Drop + Send + 'static,
    K: Clock + Drop + Send + Sync + 'static,
>(
    rt: R,
    alloc: Global,
    out: O,
    weak: W,
    clock: Arc<K>,
    options: Options,
) -> Result<JoinHandle<R>, Refusal>
    ensures { IfErr result RefusesThread }
{
    render_with_stacks(rt, alloc, out, weak, clock, options, StackSizes::default())
}

/// Does what [`render`] does, in threads with these stack sizes.
///
/// # Errors
///
/// As [`render`]: a thread whose stack is too large for the system can't be started.
pub fn render_with_stacks<
    R: Wait + Threads + Clone + Drop + Send + Sync + 'static,
    O: Write + Drop + Send + 'static,
    T: Root + Drop + Send + 'static,
    W: WeakRoot<Root = T> + Drop + Send + 'static,
    K: Clock + Drop + Send + Sync + 'static,
>(
    rt: R,
    alloc: Global,
    out: O,
    weak: W,
    clock: Arc<K>,
    options: Options,
    stacks: StackSizes,
) -> Result<JoinHandle<R>, Refusal>
    ensures { IfErr result RefusesThread }
{
    let delay = options.initial_delay.unwrap_or(0);
    let shown = Arc::new(alloc, AtomicBool::new(delay == 0))?;
    let engine = delayed_engine(alloc, out, weak, &options, &shown)?;
    let interval = options.nanoseconds_per_frame;
    let shared = Shared::new(rt, alloc, clock, Pending::new(), interval)?;
    let threads = start_threads(shared, engine, stacks.event_loop, stacks.ticker)?;
    if let Err(refusal) = start_delay(&threads.shared, shown, delay, stacks.delay) {
        threads.cancel();
        return Err(refusal);
    }
    Ok(threads.begin())
}

/// Returns an engine that draws over the lines of a writer, and hides its rows until they are shown.
fn delayed_engine<O: Write + Drop, T: Root + Drop, W: WeakRoot<Root = T> + Drop>(
    alloc: Global,
    out: O,
    weak: W,
    options: &Options,
    shown: &Arc<AtomicBool>,
) -> Result<DelayedEngine<OverWrite<O>, W>, Refusal>
    ensures { IsOkUnless result Refusal.Memory }
{
    let screen = OverWrite::new(out);
    let shown = Arc::try_clone(shown)?;
    Ok(DelayedEngine {
        engine: Engine::new(alloc, screen, weak, options.draw(), options.throughput)?,
        shown,
    })
}

/// Starts the thread that shows the rows after a delay, if there is one.
fn start_delay<
    R: Wait + Threads + Clone + Drop + Send + Sync + 'static,
    K: Clock + Drop + Send + Sync + 'static,
>(
    shared: &Shared<R, Pending, K>,
    shown: Arc<AtomicBool>,
    delay: u64,
    stack: usize,
) -> Result<(), Refusal>
    ensures { IfErr result RefusesThread }
{
    if delay == 0 {
        return Ok(());
    }
    let clock = Arc::try_clone(&shared.clock)?;
    let started = Builder::new().stack_size(stack).spawn(&shared.rt, move || {
        clock.sleep(delay);
        shown.store(true, Ordering::SeqCst);
    });
    match started {
        Ok(_) => Ok(()),
        Err(_) => Err(Refusal::NoThread),
    }
}

/// An engine that hides its rows until they are to be shown.
#[derive(Drop)]
struct DelayedEngine<S: Screen + Drop, W: WeakRoot + Drop> {
    engine: Engine<S, W>,
    /// Whether the rows are shown.
    shown: Arc<AtomicBool>,
}

impl<S: Screen + Drop, W: WeakRoot + Drop> Serve<Request> for DelayedEngine<S, W>
where
    W::Root: Root + Drop,
{
    fn serve(&mut self, request: Request, at: Moment) -> Result<bool, Refusal> {
        let show = self.shown.load(Ordering::SeqCst);
        let event = match request {
            Request::Resize(columns, rows) => EngineEvent::Resize {
                at,
                show,
                columns,
                rows,
            },
            Request::Tick => EngineEvent::Tick { at, show },
            Request::Quit => EngineEvent::Quit { at },
        };
        Ok(self.engine.step(event)? == Answer::Ended)
    }
}
