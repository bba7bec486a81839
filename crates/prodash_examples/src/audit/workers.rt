//! The workers, each in a thread of its own, and their calls.
ghost use Rattle.std.specs.Prelude.{◌≡◌, false};
ghost use Rattle.prodash_core.specs.Trees.{is_frame};

use prodash::Text;
use prodash::messages::MessageLevel;
use prodash::progress::UNKNOWN;
use prodash::time::{Clock, SystemClock};
use prodash::tree::recorded::{Receipt, RecordedItem, RecordedRoot, Share, TreeLedger};
use prodash::tree::{Event, Handle, Reply};
use prodash_programs::Fault;
use std::alloc::Global;
use std::rt;
use std::sync::Wait;
use std::sync::ledger::Ledger;
use std::thread::{self, JoinHandle, Threads};

/// The names of the workers' jobs, and how many fiftieths of a second a step of each takes.
const JOBS: [(&str, u64); 8] = [
    ("build", 1),
    ("check", 2),
    ("clean", 3),
    ("fetch", 4),
    ("index", 5),
    ("merge", 6),
    ("parse", 7),
    ("write", 8),
];

/// The steps of a job.
const STEPS: u64 = 15;

/// What a worker returns: its share of the tree, and the receipts of its calls, in order.
#[derive(Drop)]
pub(super) struct WorkerResult<C: TreeLedger, S: Ledger> {
    pub(super) share: Share<C, S>,
    pub(super) receipts: Vec<Receipt<C>>,
}

/// Runs a worker for each job, and returns their results.
pub(super) fn run_workers<
    C: TreeLedger + Send + Sync + 'static,
    S: Ledger + Send + Sync + 'static,
    R: Threads + Wait + rt::Clock + Copy + Send + Sync + 'static,
>(rt: R, alloc: Global, root: &RecordedRoot<C, S>) -> Result<Vec<WorkerResult<C, S>>, Fault> {
    let mut running = Vec::new(alloc);
    for (name, pace) in JOBS {
        let item = root.share(&rt)?;
        let receipts = Vec::new(alloc);
        let worker = Worker {
            rt,
            alloc,
            item,
            receipts,
        };
        running.push(start_worker(rt, worker, name, pace)?)?;
    }
    let mut ended = Vec::new(alloc);
    for worker in running {
        ended.push(worker.join(&rt)?)?;
    }
    Ok(ended)
}

/// Starts a worker.
fn start_worker<
    C: TreeLedger + Send + Sync + 'static,
    S: Ledger + Send + Sync + 'static,
    R: Threads + Wait + rt::Clock + Copy + Send + Sync + 'static,
>(
    rt: R,
    worker: Worker<R, C, S>,
    name: &'static str,
    pace: u64,
) -> Result<JoinHandle<Result<WorkerResult<C, S>, Fault>>, Fault> {
    thread::spawn(&rt, move || worker.do_job(name, pace)).or(Err(Fault::Thread))
}

/// A worker at its work: its item of the tree, and the receipts of its calls.
#[derive(Drop)]
struct Worker<R: Wait + rt::Clock + Copy, C: TreeLedger, S: Ledger> {
    rt: R,
    alloc: Global,
    item: RecordedItem<C, S>,
    receipts: Vec<Receipt<C>>,
}

impl<R: Wait + rt::Clock + Copy, C: TreeLedger, S: Ledger> Worker<R, C, S> {
    /// Does a job and one part of it. Makes 20 calls.
    fn do_job(self, name: &str, pace: u64) -> Result<WorkerResult<C, S>, Fault> {
        let mut worker = self;
        let job = worker.add_task(0, name)?;
        worker.take_steps(job, pace)?;
        worker.do_part(job)?;
        let Worker { item, receipts, .. } = worker;
        let share = item.give_back();
        Ok(WorkerResult { share, receipts })
    }

    /// Makes a call, and keeps its receipt.
    fn call(&mut self, event: Event) -> Result<Reply, Fault>
        requires { is_frame event ≡ false }
    {
        let (reply, receipt) = self.item.call(&self.rt, self.alloc, event)?;
        self.receipts.push(receipt)?;
        Ok(reply)
    }

    /// Adds a task below another, and returns its handle.
    fn add_task(&mut self, parent: Handle, name: &str) -> Result<Handle, Fault> {
        let (name, id) = (Text::from_str(self.alloc, name)?, UNKNOWN);
        match self.call(Event::AddChild { parent, name, id })? {
            Reply::Made(handle) => Ok(handle),
            _ => Err(Fault::Journal),
        }
    }

    /// Takes all steps of a job.
    fn take_steps(&mut self, job: Handle, pace: u64) -> Result<(), Fault> {
        let (item, max, unit) = (job, Some(STEPS), None);
        self.call(Event::Init { item, max, unit })?;
        for _ in 0..STEPS {
            SystemClock::new(self.rt).sleep(pace.wrapping_mul(20_000_000));
            self.call(Event::IncBy { item, step: 1 })?;
        }
        Ok(())
    }

    /// Adds a part of a job, sends a message from it, and drops it.
    fn do_part(&mut self, job: Handle) -> Result<(), Fault> {
        let item = self.add_task(job, "part")?;
        let (level, text) = (
            MessageLevel::Success,
            Text::from_str(self.alloc, "is done")?,
        );
        let at = SystemClock::new(self.rt).now();
        self.call(Event::Message {
            item,
            at,
            level,
            text,
        })?;
        self.call(Event::Drop { item })?;
        Ok(())
    }
}
