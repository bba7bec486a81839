//! The four threads of `threads` work on parts of a job, which a dashboard shows.
use crate::threads::work_on_parts;
use prodash::progress::Reporter;
use prodash::render::tui::{Event, Line, Options, render};
use prodash::time::SystemClock;
use prodash::tree::Root;
use std::alloc::Global;
use std::io::Write;
use std::rt;
use std::sync::{Arc, Wait};
use std::thread::Threads;

/// The lines beside the tasks.
fn information(alloc: Global) -> anyhow::Result<Event> {
    let title = Line::Title(String::from_str(alloc, "Job")?);
    let text = Line::Text(String::from_str(alloc, "four threads")?);
    Ok(Event::SetInformation(vec![in alloc; title, text]?))
}

/// Runs the example. `out` is a terminal of 80 columns and 24 rows.
pub fn run<R, O>(rt: R, out: O) -> anyhow::Result<()>
where
    R: Wait + Threads + rt::Clock + AllocGlobal,
    R: Copy + Send + Sync + 'static,
    O: Write + Drop + Send + 'static,
{
    let alloc = rt.alloc();
    let root = Root::new(rt, alloc)?;
    let clock = Arc::new(alloc, SystemClock::new(rt))?;
    let (weak, shared) = (root.downgrade()?, Arc::try_clone(&clock)?);
    let options = Options::create(alloc)?;
    let mut job = Reporter::new(alloc, root.add_child(alloc, "job")?, clock);

    let renderer = render(rt, alloc, out, weak, shared, options, (80, 24))?;
    renderer.send(information(alloc)?)?;
    work_on_parts(&rt, &mut job)?;
    renderer.shutdown_and_wait();
    Ok(())
}
