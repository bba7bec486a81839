//! Calls of the libraries that need memory. A call that is refused memory must have changed
//! nothing, and is made again. `dev/fail-each` refuses each allocation of a case in turn.
mod engines;
mod logs;
mod messages;
mod pages;
mod rates;
mod renders;
mod runs;
mod scene;
mod sessions;
mod texts;
mod tree;

use crate::USAGE;
use prodash_fixtures::Calls;
use prodash_programs::Fault;
use std::alloc::Global;
use std::rt;
use std::sync::Wait;
use std::thread::Threads;

/// Makes the calls of the case of this name, and prints how many were refused, unless one was
/// wrong.
pub(crate) fn run<R: Threads + Wait + Print + rt::Clock + Clone + Drop + Send + Sync + 'static>(
    rt: &R,
    alloc: Global,
    case: &str,
    calls: &mut Calls,
) -> Result<(), Fault> {
    match case {
        "tree" => tree::run(rt, alloc, calls)?,
        "messages" => messages::run(alloc, calls)?,
        "rates" => rates::run(alloc, calls)?,
        "texts" => texts::run(alloc, calls)?,
        "pages" => pages::run(alloc, calls)?,
        "runs" => runs::run(alloc, calls)?,
        "sessions" => sessions::run(alloc, calls)?,
        "engines" => engines::run(alloc, calls)?,
        "logs" => logs::run(rt, alloc, calls)?,
        "renders" => renders::run(rt, alloc, calls)?,
        _ => return Err(USAGE),
    }
    if calls.wrong.is_some() {
        return Ok(());
    }
    println!(rt; "{} refused", calls.refused).or(Err(Fault::Output))
}
