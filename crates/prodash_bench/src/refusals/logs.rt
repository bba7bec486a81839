//! Calls on progress that is logged.
use log::kv::Source;
use log::span::Spans;
use log::{Log as Logger, Metadata, Record};
use prodash::Refusal;
use prodash::messages::MessageLevel;
use prodash::progress::{Log, Step};
use prodash::time::{Clock, Moment, SystemClock};
use prodash_fixtures::Calls;
use prodash_programs::Fault;
use std::alloc::Global;
use std::fmt::Display;
use std::rt;
use std::sync::atomic::{AtomicU64, Ordering};
use std::sync::{Arc, Wait};
use std::thread::Threads;

/// The lines that are logged, whole. The thread of the log has its second turn before the second.
const LINES: &[&str] = &[
    "main::rest → 3 / 10",
    "main::rest → 5 / 10",
    "ℹmain::rest → on its way",
];

/// What a logger gets.
#[derive(Drop)]
struct Records {
    count: AtomicU64,
    /// How many of them weren't whole.
    wrong: AtomicU64,
}

/// A logger that counts what it gets, and compares it with the lines that are logged. It does
/// without the comparison if there is no memory for it.
#[derive(Drop)]
struct Counter {
    alloc: Global,
    records: Arc<Records>,
}

impl Logger for Counter {
    fn enabled(&self, _metadata: &Metadata<'_>) -> bool {
        true
    }

    fn log<D: Display, K: Source, S: Spans>(&self, record: &Record<'_, D, K, S>) {
        self.records.count.fetch_add(1, Ordering::SeqCst);
        let args = record.args();
        if let Ok(line) = format!(in self.alloc; "{args}") {
            if !LINES.iter().any(|it| *it == line.as_str()) {
                self.records.wrong.fetch_add(1, Ordering::SeqCst);
            }
        }
    }

    fn flush(&self) {}

    fn target(&self) -> &str {
        ""
    }
}

/// The nanoseconds between two looks at whether something has happened.
const PAUSE: u64 = 1_000_000;

/// How often it is looked for.
const LOOKS: u32 = 20_000;

/// A clock at the first moment, on which as many sleeps end as are let end, or each after a long
/// time.
#[derive(Drop)]
struct SteppedClock<R: rt::Clock + Drop> {
    clock: SystemClock<R>,
    begun: AtomicU64,
    ending: AtomicU64,
}

impl<R: rt::Clock + Drop> SteppedClock<R> {
    /// Lets the first sleeps end, this many, and waits until the next one begins.
    fn end(&self, count: u64) {
        self.ending.store(count, Ordering::SeqCst);
        for _ in 0..LOOKS {
            if self.begun.load(Ordering::SeqCst) > count {
                break;
            }
            self.clock.sleep(PAUSE);
        }
    }
}

impl<R: rt::Clock + Drop + Send + Sync> Clock for SteppedClock<R> {
    fn now(&self) -> Moment {
        0
    }

    fn sleep(&self, _nanoseconds: u64) {
        let before = self.begun.fetch_add(1, Ordering::SeqCst);
        for _ in 0..LOOKS {
            if self.ending.load(Ordering::SeqCst) > before {
                break;
            }
            self.clock.sleep(PAUSE);
        }
    }
}

/// Progress whose lines are counted.
type Counted<R> = Log<Counter, SteppedClock<R>>;

/// What a log shares with its calls.
#[derive(Drop)]
struct Bench<R: rt::Clock + Drop> {
    records: Arc<Records>,
    clock: Arc<SteppedClock<R>>,
}

/// Makes each call on a log and one below it.
pub(crate) fn run<R: Threads + Wait + rt::Clock + Clone + Drop + Send + Sync + 'static>(
    rt: &R,
    alloc: Global,
    calls: &mut Calls,
) -> Result<(), Fault> {
    let bench = new_bench(rt, alloc)?;
    let log = new(rt, alloc, &bench, calls)?;
    let mut work = add_child(alloc, &log, calls)?;
    make_calls(alloc, &mut work, &bench, calls)
}

fn new_bench<R: Wait + rt::Clock + Clone + Drop>(
    rt: &R,
    alloc: Global,
) -> Result<Bench<R>, Refusal> {
    let records = Records {
        count: AtomicU64::new(0),
        wrong: AtomicU64::new(0),
    };
    let clock = SteppedClock {
        clock: SystemClock::new(rt.clone()?),
        begun: AtomicU64::new(0),
        ending: AtomicU64::new(0),
    };
    Ok(Bench {
        records: Arc::new(alloc, records)?,
        clock: Arc::new(alloc, clock)?,
    })
}

/// Makes each call on a log that is below another.
fn make_calls<R: rt::Clock + Drop + Send + Sync + 'static>(
    alloc: Global,
    work: &mut Counted<R>,
    bench: &Bench<R>,
    calls: &mut Calls,
) -> Result<(), Fault> {
    expect_line(alloc, work, "main::work → 0", calls)?;
    set_name(alloc, work, calls)?;
    name(alloc, work, calls)?;
    work.init(Some(10), None);
    set(work, 3, &bench.records, calls);
    bench.clock.end(1);
    set(work, 5, &bench.records, calls);
    expect_line(alloc, work, "main::rest → 5 / 10", calls)?;
    message_line(alloc, work, calls)?;
    message(alloc, work, &bench.records, calls)?;
    message(alloc, work, &bench.records, calls)?;
    calls.expect(bench.records.wrong.load(Ordering::SeqCst) == 0);
    Ok(())
}

/// Sets a step, whose line is due. If it is refused memory it is left out. The line of the step
/// after it isn't due, either way.
fn set<R: rt::Clock + Drop + Send + Sync + 'static>(
    work: &Counted<R>,
    step: Step,
    records: &Records,
    calls: &mut Calls,
) {
    calls.begin("Log::set");
    let before = records.count.load(Ordering::SeqCst);
    work.set(step);
    let after = records.count.load(Ordering::SeqCst);
    if after == before {
        calls.refuse(Refusal::Memory, true);
    }
    work.inc_by(0);
    calls.expect(records.count.load(Ordering::SeqCst) == after);
    calls.expect(after.wrapping_sub(before) <= 1 && work.step() == step);
}

/// Makes a log.
fn new<R: Threads + Wait + rt::Clock + Clone + Drop + Send + Sync + 'static>(
    rt: &R,
    alloc: Global,
    bench: &Bench<R>,
    calls: &mut Calls,
) -> Result<Counted<R>, Fault> {
    calls.begin("Log::new");
    match start(rt, alloc, bench) {
        Ok(log) => Ok(log),
        Err(refusal) => {
            let again = start(rt, alloc, bench);
            // a thread that finds no memory can't be started
            let reason = match refusal {
                Refusal::NoThread => Refusal::Memory,
                other => other,
            };
            calls.refuse(reason, again.is_ok());
            Ok(again?)
        }
    }
}

fn start<R: Threads + Wait + rt::Clock + Clone + Drop + Send + Sync + 'static>(
    rt: &R,
    alloc: Global,
    bench: &Bench<R>,
) -> Result<Counted<R>, Refusal> {
    let logger = Counter {
        alloc,
        records: Arc::try_clone(&bench.records)?,
    };
    let clock = Arc::try_clone(&bench.clock)?;
    Log::new(rt, alloc, "main", None, logger, clock)
}

/// Adds a log below another.
fn add_child<R: rt::Clock + Drop + Send + Sync + 'static>(
    alloc: Global,
    log: &Counted<R>,
    calls: &mut Calls,
) -> Result<Counted<R>, Fault> {
    calls.begin("Log::add_child");
    match log.add_child(alloc, "work") {
        Ok(child) => Ok(child),
        Err(refusal) => {
            let again = log.add_child(alloc, "work");
            calls.refuse(refusal, again.is_ok());
            Ok(again?)
        }
    }
}

/// Renders the line of a log, which must be this one.
fn expect_line<R: rt::Clock + Drop + Send + Sync + 'static>(
    alloc: Global,
    log: &Counted<R>,
    want: &str,
    calls: &mut Calls,
) -> Result<(), Fault> {
    calls.begin("Log::line");
    let line = match log.line(alloc) {
        Ok(line) => line,
        Err(refusal) => {
            let again = log.line(alloc);
            calls.refuse(refusal, again.is_ok());
            again?
        }
    };
    calls.expect(line.as_str() == want);
    Ok(())
}

/// Renames a log.
fn set_name<R: rt::Clock + Drop + Send + Sync + 'static>(
    alloc: Global,
    log: &mut Counted<R>,
    calls: &mut Calls,
) -> Result<(), Fault> {
    calls.begin("Log::set_name");
    if let Err(refusal) = log.set_name(alloc, "rest") {
        let line = log.line(alloc)?;
        let again = log.set_name(alloc, "rest");
        calls.refuse(refusal, line.as_str() == "main::work → 0" && again.is_ok());
        again?;
    }
    Ok(())
}

/// Copies the name of a log.
fn name<R: rt::Clock + Drop + Send + Sync + 'static>(
    alloc: Global,
    log: &Counted<R>,
    calls: &mut Calls,
) -> Result<(), Fault> {
    calls.begin("Log::name");
    let name = match log.name(alloc) {
        Ok(name) => name,
        Err(refusal) => {
            let again = log.name(alloc);
            calls.refuse(refusal, again.is_ok());
            again?
        }
    };
    calls.expect(name.is_some_and(|name| name.as_str() == "rest"));
    Ok(())
}

/// Renders the line of a message.
fn message_line<R: rt::Clock + Drop + Send + Sync + 'static>(
    alloc: Global,
    log: &Counted<R>,
    calls: &mut Calls,
) -> Result<(), Fault> {
    calls.begin("Log::message_line");
    let line = match log.message_line(alloc, MessageLevel::Success, "done") {
        Ok(line) => line,
        Err(refusal) => {
            let again = log.message_line(alloc, MessageLevel::Success, "done");
            calls.refuse(refusal, again.is_ok());
            again?
        }
    };
    calls.expect(line.as_str() == "✓main::rest → done");
    Ok(())
}

/// Logs a message.
fn message<R: rt::Clock + Drop + Send + Sync + 'static>(
    alloc: Global,
    log: &Counted<R>,
    records: &Records,
    calls: &mut Calls,
) -> Result<(), Fault> {
    calls.begin("Log::message");
    let before = records.count.load(Ordering::SeqCst);
    if let Err(refusal) = log.message(alloc, 0, MessageLevel::Info, "on its way") {
        let is_unlogged = records.count.load(Ordering::SeqCst) == before;
        let again = log.message(alloc, 0, MessageLevel::Info, "on its way");
        calls.refuse(refusal, is_unlogged && again.is_ok());
        again?;
    }
    calls.expect(records.count.load(Ordering::SeqCst) == before.wrapping_add(1));
    Ok(())
}
