//! A batch runner: four threads take one job after another, and report on one recorded tree, which
//! is drawn on standard error. At the end the receipt of each call is looked up in the journal.
ghost use Rattle.std.specs.Prelude.{◌≡◌};

use prodash::progress::Reporter;
use prodash::render::line::{Options, StreamKind, render};
use prodash::time::{Clock, SystemClock};
use prodash::tree::recorded::{self, Ledgers, RecordedCalls, RecordedRoot, Recorder, TreeLedger};
use prodash::unit::label;
use prodash::{NestedProgress, Progress, Refusal, Runtime, tree};
use prodash_programs::Fault;
use std::io::Write;
use std::marker::Brand;
use std::sync::Arc;
use std::sync::atomic::AtomicU64;
use std::sync::atomic::Ordering::SeqCst;
use std::sync::ledger::Ledger;
use std::{env, thread};

/// The fault of other arguments.
const USAGE: Fault = Fault::Usage("prodash-examples batch JOBS");

/// What reports on a row of the tree.
type Task<R, C, S> = Reporter<recorded::RecordedTask<R, C, S>, SystemClock<R>>;

/// Takes jobs until none is left. Each has a row of its own, and a fiftieth of a second for a file.
fn do_jobs<P, K>(mut worker: Reporter<P, K>, left: &AtomicU64) -> Result<(), Refusal>
where
    P: NestedProgress + Drop,
    P::SubProgress: Progress + Drop,
    K: Clock + Drop,
{
    for _ in 0..u64::MAX {
        let Ok(job) = left.fetch_update(SeqCst, SeqCst, |it| it.checked_sub(1)) else {
            break;
        };
        let mut row = worker.add_child_fmt(format_args!("job {job}"))?;
        row.init(Some(10 + job % 7 * 5), Some(label("files")));
        for _ in 0..10 + job % 7 * 5 {
            row.sleep(20_000_000);
            row.inc();
        }
        row.done("is done")?;
    }
    Ok(())
}

/// Does all jobs in four threads.
fn do_all<R: Runtime, C, S>(rt: &R, mut batch: Task<R, C, S>, jobs: u64) -> Result<(), Refusal>
where
    C: TreeLedger + Send + Sync + 'static,
    S: Ledger + Send + Sync + 'static,
{
    let left = Arc::new(rt.alloc(), AtomicU64::new(jobs))?;
    let mut threads = Vec::new(rt.alloc());
    for name in ["first", "second", "third", "fourth"] {
        let (worker, left) = (batch.add_child(name)?, Arc::try_clone(&left)?);
        let thread = thread::spawn(rt, move || do_jobs(worker, &left));
        threads.push(thread.or(Err(Refusal::NoThread))?)?;
    }
    for thread in threads {
        thread.join(rt)?;
    }
    batch.done("all jobs are done")
}

/// Does all jobs on a new tree, and returns how many receipts its journal has.
fn do_recorded<C, S, R, E>(rt: R, ledgers: Ledgers, err: E, jobs: u64) -> Result<usize, Fault>
where
    C: TreeLedger + Send + Sync + 'static,
    S: Ledger + Send + Sync + 'static,
    R: Runtime,
    E: Write + Drop + Send + 'static,
    requires calls { (ledgers.calls.name ≡ C.name) × (ledgers.calls.parts ≡ C.parts) }
    requires sums { (ledgers.sums.name ≡ S.name) × (ledgers.sums.parts ≡ S.parts) }
    requires history { ledgers.history.seen.book ≡ C.history }
    requires capacity { C.message_buffer_capacity ≡ 20 }
{
    let root = RecordedRoot::<C, S>::new(rt.alloc(), ledgers, &tree::root::Options::default())?;
    let calls = do_drawn(rt, &root, err, jobs)?.ok_or(Fault::Journal)?;
    let shares = vec![in rt.alloc(); calls.share]?;
    let journal = root.close(&rt, shares).ok().ok_or(Fault::Journal)?;
    let agree = calls.receipts.iter().all(|receipt| journal.agrees(receipt));
    if !agree || calls.refusal.is_some() || calls.receipts.len() != journal.entries().len() {
        return Err(Fault::Journal);
    }
    Ok(calls.receipts.len())
}

/// Does all jobs on a tree that is drawn on standard error, and returns its calls if all are done.
fn do_drawn<C, S, R: Runtime + 'static, E: Write + Drop + Send + 'static>(
    rt: R,
    root: &RecordedRoot<C, S>,
    err: E,
    jobs: u64,
) -> Result<Option<RecordedCalls<C, S>>, Refusal>
where
    C: TreeLedger + Send + Sync + 'static,
    S: Ledger + Send + Sync + 'static,
{
    let (alloc, mut options) = (rt.alloc(), Options::detect(&rt, StreamKind::Stderr));
    options.defensive = true;
    let view = root.view(&rt, alloc)?;
    let clock = Arc::new(alloc, SystemClock::new(rt))?;
    let (weak, shared) = (view.downgrade()?, Arc::try_clone(&clock)?);
    let renderer = render(rt, alloc, err, weak, shared, options)?;
    let recorder = Recorder::new(rt, alloc, root.share(&rt)?)?;
    let batch = Reporter::new(alloc, recorder.add_child(alloc, "batch")?, clock);
    do_all(&rt, batch, jobs)?;
    renderer.shutdown_and_wait();
    Ok(recorder.finish().ok())
}

/// Runs the example. `err` is standard error.
pub fn run<R: Runtime, E: Write + Drop + Send + 'static>(rt: R, err: E) -> Result<(), Fault> {
    let word = env::args(&rt).or(Err(USAGE))?.nth(2);
    let jobs = word.and_then(|it| it.parse().ok()).ok_or(USAGE)?;
    let receipts = do_recorded::<Brand, Brand, R, E>(rt, Ledgers::new(), err, jobs)?;
    println!(rt; "{receipts} receipts agree").or(Err(Fault::Output))
}
