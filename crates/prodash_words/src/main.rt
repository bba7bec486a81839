//! Counts the words of files in four threads, each of which has a row for the file that it reads.
#![tactic(auto)]

use anyhow::{Context, bail};
use prodash::progress::{Reporter, StepShared};
use prodash::render::line::{Options, StreamKind, render};
use prodash::time::{Clock, SystemClock};
use prodash::tree::Root;
use prodash::unit::{Bytes, Kind, dynamic, label};
use prodash::{NestedProgress, Progress, Runtime};
use std::fs::{File, OpenFile};
use std::io::{BufRead, BufReader};
use std::sync::Arc;
use std::sync::atomic::Ordering;
use std::{env, thread};

/// The number of threads.
const THREADS: usize = 4;

fn main(rt: HostRuntime) -> anyhow::Result<()> {
    let alloc = rt.alloc();
    let root = Root::new(rt, alloc)?;
    let clock = Arc::new(alloc, SystemClock::new(rt))?;
    let options = Options::detect(&rt, StreamKind::Stderr);
    let (weak, shared) = (root.downgrade()?, Arc::try_clone(&clock)?);
    let renderer = render(rt, alloc, rt.stderr(), weak, shared, options)?;

    let job = Reporter::new(alloc, root.add_child(alloc, "words")?, clock);
    let words = count_all(rt, job)?;
    renderer.shutdown_and_wait();
    println!(rt; "{words} words")?;
    Ok(())
}

/// Counts the words of the files that the arguments name. The job has a step for each.
fn count_all<R, P, K>(rt: R, mut job: Reporter<P, K>) -> anyhow::Result<u64>
where
    R: Runtime,
    P: NestedProgress + Drop,
    P::SubProgress: Progress + Drop + Send + 'static,
    K: Clock + Drop + Send + Sync + 'static,
{
    let alloc = rt.alloc();
    let mut paths = Vec::new(alloc);
    for path in env::args(&rt)?.skip(1) {
        paths.push(path)?;
    }
    if paths.is_empty() {
        bail!("no file is named");
    }
    job.init(Some(paths.len() as u64), Some(label("files")));
    let paths = Arc::new(alloc, paths)?;
    let mut threads = Vec::new(alloc);
    for first in 0..THREADS {
        let (paths, files) = (Arc::try_clone(&paths)?, job.counter()?);
        let part = job.add_child_fmt(format_args!("part {first}"))?;
        let thread = thread::spawn(&rt, move || count_part(rt, &paths, first, part, &files))?;
        threads.push(thread)?;
    }
    let mut words = 0u64;
    for thread in threads {
        words = words.saturating_add(thread.join(&rt)?);
    }
    job.done(&format!(in alloc; "{words} words")?)?;
    Ok(words)
}

/// Counts the words of every fourth file, from the one at `first` on.
fn count_part<R, P, K>(
    rt: R,
    paths: &[String],
    first: usize,
    mut part: Reporter<P, K>,
    files: &StepShared,
) -> anyhow::Result<u64>
where
    R: Runtime,
    P: Progress + Drop,
    K: Clock + Drop,
{
    let mut words = 0u64;
    for path in paths.iter().skip(first).step_by(THREADS) {
        part.set_name(path)?;
        words = words.saturating_add(count_words(rt, path, &mut part).context(path)?);
        files.fetch_add(1, Ordering::SeqCst);
    }
    Ok(words)
}

/// Counts the words of a file. The row shows how many of its bytes are read.
fn count_words<R, P, K>(rt: R, path: &str, row: &mut Reporter<P, K>) -> anyhow::Result<u64>
where
    R: Runtime,
    P: Progress + Drop,
    K: Clock + Drop,
{
    let alloc = rt.alloc();
    let file = File::open(&rt, path)?;
    let bytes = file.metadata()?.len();
    row.init(Some(bytes), Some(dynamic(Kind::Bytes(Bytes))));
    let mut words = 0u64;
    for line in BufReader::new(alloc, file)?.lines(alloc) {
        let line = line?;
        words = words.saturating_add(line.split_whitespace().count() as u64);
        row.inc_by(line.len() as u64 + 1);
    }
    row.done(&format!(in alloc; "{words} words")?)?;
    Ok(words)
}
