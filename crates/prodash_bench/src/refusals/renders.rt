//! Renderers of a tree that threads share, and tasks that report their throughput.
use prodash::Refusal;
use prodash::messages::{Message, MessageLevel};
use prodash::progress::ThroughputOnDrop;
use prodash::render::line::{JoinHandle, Options, render};
use prodash::time::{Clock, Moment, SystemClock};
use prodash::tree::Root;
use prodash_fixtures::Calls;
use prodash_programs::Fault;
use std::alloc::Global;
use std::io::{self, Write};
use std::rt;
use std::sync::atomic::{AtomicU64, Ordering};
use std::sync::{Arc, Wait};
use std::thread::Threads;

/// A writer that counts the bytes that it gets.
#[derive(Drop)]
struct Counter {
    bytes: Arc<AtomicU64>,
}

impl Write for Counter {
    fn write(&mut self, bytes: &[u8]) -> io::Result<usize> {
        self.bytes.fetch_add(bytes.len() as u64, Ordering::SeqCst);
        Ok(bytes.len())
    }

    fn flush(&mut self) -> io::Result<()> {
        Ok(())
    }
}

/// A clock that goes on only when it is waited for.
#[derive(Drop)]
struct Stopped {
    now: AtomicU64,
}

impl Clock for Stopped {
    fn now(&self) -> Moment {
        self.now.load(Ordering::SeqCst)
    }

    fn sleep(&self, nanoseconds: u64) {
        self.now.fetch_add(nanoseconds, Ordering::SeqCst);
    }
}

/// The columns that are asked for while the renderer runs: many more than those that it has begun
/// with.
const COLUMNS: u16 = 4000;

/// Drops tasks that report their throughput, and renders what they have reported. The size that is
/// asked for last is drawn, whatever was refused.
pub(crate) fn run<R: Threads + Wait + rt::Clock + Clone + Drop + Send + Sync + 'static>(
    rt: &R,
    alloc: Global,
    calls: &mut Calls,
) -> Result<(), Fault> {
    let root = Root::new(rt.clone()?, alloc)?;
    let clock = Arc::new(alloc, SystemClock::new(rt.clone()?))?;
    let bytes = Arc::new(alloc, AtomicU64::new(0))?;
    report(alloc, &root, calls)?;
    let handle = start(rt, alloc, &root, &clock, &bytes, calls)?;
    handle.resize(COLUMNS, 8);
    let sent = send(alloc, &root, handle);
    calls.expect(sent.is_err() || bytes.load(Ordering::SeqCst) > COLUMNS as u64);
    Ok(sent?)
}

/// Sends a message from a task, and ends the renderer, which draws its row last.
fn send<R: Threads + Wait + Clone + Drop + Send + Sync + 'static>(
    alloc: Global,
    root: &Root<R>,
    handle: JoinHandle<R>,
) -> Result<(), Refusal> {
    let mut task = root.add_child(alloc, "task")?;
    task.init(Some(10), None);
    let sent = task.info(alloc, 0, "is on its way");
    handle.shutdown_and_wait();
    drop(task);
    sent
}

/// Drops two tasks. A refused report is left out, and the other one is whole.
fn report<R: Wait + Clone + Drop + Send + Sync>(
    alloc: Global,
    root: &Root<R>,
    calls: &mut Calls,
) -> Result<(), Fault> {
    let before = calls.refused;
    for _ in 0..2 {
        calls.begin("ThroughputOnDrop::drop");
        let count = messages(alloc, root)?.len();
        drop_task(alloc, root)?;
        if messages(alloc, root)?.len() == count {
            let is_first = calls.refused == before;
            calls.refuse(Refusal::Memory, is_first);
        }
    }
    calls.expect(messages(alloc, root)?.iter().all(is_report));
    Ok(())
}

/// Adds a task, and drops it after two and a half seconds, in which it has taken ten steps.
fn drop_task<R: Wait + Clone + Drop + Send + Sync>(
    alloc: Global,
    root: &Root<R>,
) -> Result<(), Refusal> {
    let now = AtomicU64::new(0);
    let clock = Arc::new(alloc, Stopped { now })?;
    let task = root.add_child(alloc, "task")?;
    task.init(Some(10), None);
    task.set(10);
    let timed = ThroughputOnDrop::new(alloc, task, Arc::try_clone(&clock)?);
    clock.sleep(2_500_000_000);
    drop(timed);
    Ok(())
}

/// Returns whether a message is the whole report of such a task.
fn is_report(message: &Message) -> bool {
    message.level == MessageLevel::Info
        && message.time == 2_500_000_000
        && message.origin.as_str() == "task"
        && message.message.as_str() == "done 10 items in 2.50s (4 items/s)"
}

/// Returns the messages of a tree.
fn messages<R: Wait + Clone + Drop>(
    alloc: Global,
    root: &Root<R>,
) -> Result<Vec<Message>, Refusal> {
    let mut messages = Vec::new(alloc);
    root.copy_messages(alloc, &mut messages)?;
    Ok(messages)
}

/// Starts a renderer. One that is refused has started no thread, and the tree works on.
fn start<R: Threads + Wait + rt::Clock + Clone + Drop + Send + Sync + 'static>(
    rt: &R,
    alloc: Global,
    root: &Root<R>,
    clock: &Arc<SystemClock<R>>,
    bytes: &Arc<AtomicU64>,
    calls: &mut Calls,
) -> Result<JoinHandle<R>, Fault> {
    calls.begin("render");
    match draw(rt, alloc, root, clock, bytes) {
        Ok(handle) => Ok(handle),
        Err(refusal) => {
            let is_unwritten = bytes.load(Ordering::SeqCst) == 0;
            root.add_child(alloc, "task")?.info(alloc, 0, "works on")?;
            let again = draw(rt, alloc, root, clock, bytes);
            // a thread that finds no memory can't be started
            let reason = match refusal {
                Refusal::NoThread => Refusal::Memory,
                other => other,
            };
            calls.refuse(reason, is_unwritten && again.is_ok());
            Ok(again?)
        }
    }
}

fn draw<R: Threads + Wait + rt::Clock + Clone + Drop + Send + Sync + 'static>(
    rt: &R,
    alloc: Global,
    root: &Root<R>,
    clock: &Arc<SystemClock<R>>,
    bytes: &Arc<AtomicU64>,
) -> Result<JoinHandle<R>, Refusal> {
    let out = Counter {
        bytes: Arc::try_clone(bytes)?,
    };
    let options = Options {
        output_is_terminal: true,
        ..Options::default()
    };
    let (weak, clock) = (root.downgrade()?, Arc::try_clone(clock)?);
    render(rt.clone()?, alloc, out, weak, clock, options)
}
