//! The threads of a dashboard: its event loop and its ticker.
ghost use Rattle.std.specs.Prelude.{IfErr};
ghost use Rattle.prodash_base.specs.Refusals.{RefusesThread};

use crate::render::line::draw::{OverWrite, Screen};
use crate::render::threads::{DEFAULT_STACK, Serve, Shared, start_threads};
use crate::render::tui::engine::event::{EngineAnswer, EngineEvent};
use crate::render::tui::engine::handle::JoinHandle;
use crate::render::tui::engine::mailbox::{Queue, Request};
use crate::render::tui::engine::step::Engine;
use crate::render::tui::{Event, Options};
use crate::time::{Clock, Moment};
use prodash_base::Refusal;
use prodash_core::traits::{Root, WeakRoot};
use std::alloc::Global;
use std::io::Write;
use std::sync::{Arc, Wait};
use std::thread::Threads;

/// The stack sizes of the threads that a dashboard starts, in bytes: 2 MiB each by default.
#[derive(Clone, Copy, Debug)]
pub struct StackSizes {
    /// The thread that draws.
    pub event_loop: usize,
    /// The thread that requests a frame after each frame interval.
    pub ticker: usize,
}

impl Default for StackSizes {
    fn default() -> StackSizes {
        StackSizes {
            event_loop: DEFAULT_STACK,
            ticker: DEFAULT_STACK,
        }
    }
}

/// Draws the dashboard of the tree of a weak root onto a writer, on a terminal of so many columns
/// and rows, from threads of its own: one frame immediately, one more after each frame interval,
/// and one at once for each event and size that the handle sends, unless the event changes nothing.
/// The first frame enters the alternate screen.
///
/// It ends when an event makes it stop, when the root has no owner, when the writer fails, when a
/// frame sees no rows and the dashboard is to stop then, or when the handle ends it. It then leaves
/// the alternate screen.
///
/// A frame is skipped if it runs out of memory, or if the root has too many owners. The next one
/// shows what the events have changed.
///
/// # Errors
///
/// - `Memory`: there is no memory for the threads.
/// - `NoThread`: a thread couldn't be started. The ones already started have ended.
///
/// After an error the arguments are dropped, and nothing is drawn.
///
/// ```rust
/// let root = Root::new(rt, alloc)?;
/// let clock = Arc::new(alloc, SystemClock::new(rt))?;
/// let options = Options::create(alloc)?;
/// let handle = render(rt, alloc, stdout, root.downgrade()?, clock, options, (80, 24))?;
/// let mut item = root.add_child(alloc, "task")?;
/// // work
/// handle.shutdown_and_wait();
/// ```
pub fn render<
    R: Wait + Threads + Clone + Drop + Send + Sync + 'static,
    O: Write + Drop + Send + 'static,
    T: Root + Drop + Send + 'static,
    W: WeakRoot<Root = T> + Drop + Send + 'static,
    K: Clock + Drop + Send + Sync + 'static,
>(
    rt: R,
    alloc: Global,
    out: O,
    weak: W,
    clock: Arc<K>,
    options: Options,
    size: (u16, u16),
) -> Result<JoinHandle<R>, Refusal>
    ensures { IfErr result RefusesThread }
{
    render_with_stacks(
        rt,
        alloc,
        out,
        weak,
        clock,
        options,
        size,
        StackSizes::default(),
    )
}

/// Does what [`render`] does, in threads with these stack sizes.
///
/// # Errors
///
/// As [`render`]: a thread whose stack is too large for the system can't be started.
pub fn render_with_stacks<
    R: Wait + Threads + Clone + Drop + Send + Sync + 'static,
    O: Write + Drop + Send + 'static,
    T: Root + Drop + Send + 'static,
    W: WeakRoot<Root = T> + Drop + Send + 'static,
    K: Clock + Drop + Send + Sync + 'static,
>(
    rt: R,
    alloc: Global,
    out: O,
    weak: W,
    clock: Arc<K>,
    options: Options,
    size: (u16, u16),
    stacks: StackSizes,
) -> Result<JoinHandle<R>, Refusal>
    ensures { IfErr result RefusesThread }
{
    let interval = options.nanoseconds_per_frame;
    let engine = Engine::new(alloc, OverWrite::new(out), weak, options, size);
    let shared = Shared::new(rt, alloc, clock, Queue::new(alloc), interval)?;
    let threads = start_threads(shared, engine, stacks.event_loop, stacks.ticker)?;
    Ok(threads.begin())
}

impl<S: Screen, W: WeakRoot> Serve<Request> for Engine<S, W>
where
    W::Root: Root + Drop,
{
    fn serve(&mut self, request: Request, at: Moment) -> Result<bool, Refusal> {
        let event = match request {
            Request::Handle(event) => EngineEvent::Handle { at, event },
            Request::Resize(columns, rows) => EngineEvent::Resize { at, columns, rows },
            Request::Tick => EngineEvent::Handle {
                at,
                event: Event::Tick,
            },
            Request::Quit => EngineEvent::Quit { at },
        };
        Ok(self.step(event)? == EngineAnswer::Ended)
    }
}
