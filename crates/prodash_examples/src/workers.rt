//! Four threads work on tasks of two levels, which are drawn on standard error.
use prodash::Refusal;
use prodash::render::line::{Options, StandardStreams, StreamKind, render};
use prodash::time::{Clock, SystemClock};
use prodash::tree::{Item, Root};
use prodash_programs::Fault;
use std::alloc::Global;
use std::env;
use std::io::Write;
use std::rt::{self, Env};
use std::sync::{Arc, Wait};
use std::thread::{self, JoinHandle, Threads};

/// The names of the workers.
const WORKERS: [&str; 4] = ["compress", "fetch", "index", "verify"];

/// The steps of a part.
const STEPS: u64 = 10;

/// The nanoseconds of a step. A part takes half a second.
const STEP: u64 = 50_000_000;

/// The fault of other arguments.
const USAGE: Fault = Fault::Usage("prodash-examples workers SECONDS [messages]");

/// How long the workers work, and what is drawn.
#[derive(Clone, Copy)]
struct Request {
    seconds: u64,
    /// Whether rows are drawn. If not, messages alone are written.
    draws_rows: bool,
}

/// Runs the example. `err` is standard error.
pub fn run<R, E>(rt: &R, err: E) -> Result<(), Fault>
where
    R: Wait + Threads + Env + StandardStreams + rt::Clock + AllocGlobal,
    R: Clone + Drop + Send + Sync + 'static,
    E: Write + Drop + Send + 'static,
{
    let request = arguments(rt, rt.is_terminal(StreamKind::Stderr)).ok_or(USAGE)?;
    run_workers(rt, rt.alloc(), err, request)?;
    Ok(())
}

/// The arguments of the example, or `None` if they are others. Off a terminal no rows are drawn.
fn arguments<R: Env + AllocGlobal>(rt: &R, is_terminal: bool) -> Option<Request> {
    let mut arguments = env::args(rt).ok()?.skip(2);
    let seconds = arguments.next()?.parse().ok()?;
    let draws_rows = match arguments.next() {
        None => is_terminal,
        Some(word) if word.as_str() == "messages" => false,
        Some(_) => return None,
    };
    Some(Request {
        seconds,
        draws_rows,
    })
}

/// Works in four threads, and draws their tasks on a writer until they have ended.
fn run_workers<
    R: Wait + Threads + rt::Clock + Clone + Drop + Send + Sync + 'static,
    O: Write + Drop + Send + 'static,
>(rt: &R, alloc: Global, out: O, request: Request) -> Result<(), Refusal> {
    let root = Root::new(rt.clone()?, alloc)?;
    let clock = Arc::new(alloc, SystemClock::new(rt.clone()?))?;
    let options = Options {
        output_is_terminal: request.draws_rows,
        colored: request.draws_rows,
        defensive: true,
        ..Options::default()
    };
    let shared = Arc::try_clone(&clock)?;
    let handle = render(rt.clone()?, alloc, out, root.downgrade()?, shared, options)?;
    let mut workers = Vec::new(alloc);
    for name in &WORKERS {
        let item = root.add_child(alloc, name)?;
        workers.push(start_worker(rt, alloc, item, Arc::try_clone(&clock)?, request.seconds)?)?;
    }
    for worker in workers {
        worker.join(rt);
    }
    handle.shutdown_and_wait();
    Ok(())
}

/// Starts a worker on an item.
fn start_worker<R: Wait + Threads + rt::Clock + Clone + Drop + Send + Sync + 'static>(
    rt: &R,
    alloc: Global,
    item: Item<R>,
    clock: Arc<SystemClock<R>>,
    seconds: u64,
) -> Result<JoinHandle<()>, Refusal> {
    thread::spawn(rt, move || work(alloc, item, clock, seconds)).or(Err(Refusal::NoThread))
}

/// Works on an item, two parts a second. A part that is refused is left out.
fn work<R: Wait + rt::Clock + Clone + Drop>(
    alloc: Global,
    mut item: Item<R>,
    clock: Arc<SystemClock<R>>,
    seconds: u64,
) {
    item.init(Some(seconds.saturating_mul(2)), None);
    for _ in 0..seconds.saturating_mul(2) {
        let _ = work_part(alloc, &mut item, &clock);
        item.inc();
    }
    let _ = item.done(alloc, clock.now(), "all parts are done");
}

/// Works on a part of an item.
fn work_part<R: Wait + rt::Clock + Clone + Drop>(
    alloc: Global,
    item: &mut Item<R>,
    clock: &SystemClock<R>,
) -> Result<(), Refusal> {
    let mut part = item.add_child(alloc, "part")?;
    part.init(Some(STEPS), None);
    for _ in 0..STEPS {
        part.inc();
        clock.sleep(STEP);
    }
    part.info(alloc, clock.now(), "a part is done")
}
