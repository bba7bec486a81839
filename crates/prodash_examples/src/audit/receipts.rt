//! The run of the workers on a new tree, and the check of their receipts.
ghost use Rattle.std.specs.Prelude.{◌≡◌, true, IfOk, length};

use crate::audit::workers::{WorkerResult, run_workers};
use prodash::messages::Messages;
use prodash::progress::Rows;
use prodash::render::line::{self, StandardStreams, StreamKind, render};
use prodash::time::SystemClock;
use prodash::tree::recorded::{
    Journal, Ledgers, LookReceipt, Receipt, RecordedRoot, RecordedView, TreeLedger,
};
use prodash::tree::root::Options;
use prodash_programs::Fault;
use prodash_script::to_line;
use std::alloc::Global;
use std::io::Write;
use std::marker::Brand;
use std::rt::{self, Env};
use std::sync::ledger::Ledger;
use std::sync::{Arc, Wait};
use std::thread::Threads;

/// A run in which all receipts agreed.
#[derive(Drop)]
pub(super) struct Audit {
    /// The journal as event lines.
    pub(super) lines: String,
    /// The number of receipts.
    pub(super) receipts: usize,
    /// The rows of a look that saw the whole journal.
    pub(super) rows: Rows,
}

/// Runs the workers on a new tree, which is drawn on standard error, and looks up their receipts in
/// its journal.
///
/// # Errors
///
/// `Journal`, if a receipt doesn't agree. `Thread` and `Memory`.
pub(super) fn run_audit<R, E>(rt: R, alloc: Global, err: E) -> Result<Audit, Fault>
where
    R: Threads + Wait + Env + StandardStreams + rt::Clock + Copy + Send + Sync + 'static,
    E: Write + Drop + Send + 'static,
{
    run_on_tree::<Brand, Brand, R, E>(rt, alloc, Ledgers::new(), err)
}

/// Does the same on a tree with these ledgers.
fn run_on_tree<C, S, R, E>(rt: R, alloc: Global, ledgers: Ledgers, err: E) -> Result<Audit, Fault>
where
    C: TreeLedger + Send + Sync + 'static,
    S: Ledger + Send + Sync + 'static,
    R: Threads + Wait + Env + StandardStreams + rt::Clock + Copy + Send + Sync + 'static,
    E: Write + Drop + Send + 'static,
    requires calls { (ledgers.calls.name ≡ C.name) × (ledgers.calls.parts ≡ C.parts) }
    requires sums { (ledgers.sums.name ≡ S.name) × (ledgers.sums.parts ≡ S.parts) }
    requires history { ledgers.history.seen.book ≡ C.history }
    requires capacity { C.message_buffer_capacity ≡ 20 }
{
    let root = RecordedRoot::<C, S>::new(alloc, ledgers, &Options::default())?;
    let view = root.view(&rt, alloc)?;
    let workers = run_drawn(rt, alloc, err, &root, &view)?;
    let (rows, look) = last_look(alloc, &view)?;
    let (lines, receipts) = close_tree(&rt, alloc, root, workers, &look)?;
    Ok(Audit {
        lines,
        receipts,
        rows,
    })
}

/// Runs the workers on a tree whose view is drawn on standard error, until all are done.
fn run_drawn<C, S, R, E>(
    rt: R,
    alloc: Global,
    err: E,
    root: &RecordedRoot<C, S>,
    view: &RecordedView<R, C, S>,
) -> Result<Vec<WorkerResult<C, S>>, Fault>
where
    C: TreeLedger + Send + Sync + 'static,
    S: Ledger + Send + Sync + 'static,
    R: Threads + Wait + Env + StandardStreams + rt::Clock + Copy + Send + Sync + 'static,
    E: Write + Drop + Send + 'static,
{
    let clock = Arc::new(alloc, SystemClock::new(rt))?;
    let mut options = line::Options::detect(&rt, StreamKind::Stderr);
    options.defensive = true;
    let renderer = render(rt, alloc, err, view.downgrade()?, clock, options)?;
    let workers = run_workers(rt, alloc, root)?;
    renderer.shutdown_and_wait();
    Ok(workers)
}

/// Returns the rows of a view, and the receipt of the look.
fn last_look<R: Wait + Copy, C: TreeLedger, S: Ledger>(
    alloc: Global,
    view: &RecordedView<R, C, S>,
) -> Result<(Rows, LookReceipt<C>), Fault> {
    let spare = (Rows::new(Vec::new(alloc)), Messages::new(Vec::new(alloc)));
    let (seen, look) = view.look_with_receipt(spare, None)?;
    let (rows, _, _) = seen;
    Ok((rows, look))
}

/// Closes the tree against the shares of all workers, and checks their receipts, and that the last
/// look saw all calls. Returns the lines of the journal, and how many receipts there are.
fn close_tree<C: TreeLedger, S: Ledger>(
    rt: &impl Wait,
    alloc: Global,
    root: RecordedRoot<C, S>,
    workers: Vec<WorkerResult<C, S>>,
    look: &LookReceipt<C>,
) -> Result<(String, usize), Fault> {
    let (mut shares, mut receipts) = (Vec::new(alloc), Vec::new(alloc));
    for worker in workers {
        shares.push(worker.share)?;
        receipts.push(worker.receipts)?;
    }
    let journal = root.close(rt, shares).ok().ok_or(Fault::Journal)?;
    let receipts = count_agreed(&journal, &receipts)?;
    if !journal.begins_with(look) || look.calls() != receipts as u64 {
        return Err(Fault::Journal);
    }
    Ok((event_lines(alloc, &journal)?, receipts))
}

/// Counts the receipts of all workers, which are as many as the entries of the journal.
///
/// # Errors
///
/// `Journal`, if the numbers of a worker's receipts don't ascend, if one doesn't agree or isn't
/// what the entry at its number says, or if an entry has none.
fn count_agreed<C: TreeLedger>(
    journal: &Journal<C>,
    workers: &[Vec<Receipt<C>>],
) -> Result<usize, Fault>
    ensures { IfOk result (λ count. count ≡ length journal.now) }
{
    let mut count: usize = 0;
    for receipts in workers {
        let are_right = all_agree(journal, receipts) && are_entries(journal, receipts);
        if !are_right || !numbers_ascend(receipts) {
            return Err(Fault::Journal);
        }
        count = count.wrapping_add(receipts.len());
    }
    if count != journal.entries().len() {
        return Err(Fault::Journal);
    }
    Ok(count)
}

/// Returns whether the numbers of a worker's receipts strictly ascend.
fn numbers_ascend<C: TreeLedger>(receipts: &[Receipt<C>]) -> bool {
    let mut last = None;
    for receipt in receipts {
        let number = Some(receipt.number());
        if number <= last {
            return false;
        }
        last = number;
    }
    true
}

/// Returns whether all receipts agree with the journal, which they always do.
fn all_agree<C: TreeLedger>(journal: &Journal<C>, receipts: &[Receipt<C>]) -> bool
    ensures { result ≡ true }
{
    for receipt in receipts {
        if !journal.agrees(receipt) {
            return false;
        }
    }
    true
}

/// Returns whether all receipts are what the entries at their numbers say.
fn are_entries<C: TreeLedger>(journal: &Journal<C>, receipts: &[Receipt<C>]) -> bool {
    receipts.iter().all(|receipt| is_entry(journal, receipt))
}

/// Returns whether the entry at a receipt's number has its event and its reply.
fn is_entry<C: TreeLedger>(journal: &Journal<C>, receipt: &Receipt<C>) -> bool {
    match journal.entries().get(receipt.number() as usize) {
        Some((event, reply)) => event == receipt.event() && reply == receipt.reply(),
        None => false,
    }
}

/// Returns the lines of the journal's events, each with a line feed. Every event of a worker has
/// one.
fn event_lines<C: TreeLedger>(alloc: Global, journal: &Journal<C>) -> Result<String, Fault> {
    let mut text = String::new(alloc);
    for (event, _) in journal.entries() {
        let line = to_line(alloc, event)?.ok_or(Fault::Journal)?;
        text.push_str(line.as_str())?;
        text.push_str("\n")?;
    }
    Ok(text)
}
