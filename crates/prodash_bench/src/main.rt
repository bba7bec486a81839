//! Calls of the libraries, many at a time: `dev/bench` counts what they cost. And calls that need
//! memory, which `dev/fail-each` refuses them: the workload `recorded`, and the cases of
//! `refusals`.
#![tactic(auto)]

mod dashboards;
mod frames;
mod recorded;
mod refusals;
mod workloads;

use prodash_fixtures::Calls;
use prodash_programs::{Fault, arguments, number, report};
use std::alloc::Global;
use std::process::ExitCode;
use std::rt;
use std::sync::Wait;
use std::thread::Threads;

/// The fault of arguments that name no workload and no case.
const USAGE: Fault = Fault::Usage(
    "prodash-bench WORKLOAD TASKS COUNT | prodash-bench recorded | prodash-bench refusals CASE",
);

fn main(rt: HostRuntime) -> ExitCode {
    let mut calls = Calls::new();
    let ended = match arguments(&rt, USAGE) {
        Ok(words) => run(rt, rt.alloc(), &words, &mut calls),
        Err(fault) => Err(fault),
    };
    match (calls.wrong, ended) {
        (Some(call), _) => {
            let _ = eprintln!(&rt; "{call} is wrong");
            ExitCode::FAILURE
        }
        (None, Ok(())) => ExitCode::SUCCESS,
        (None, Err(fault)) => ExitCode::from(report(&mut rt.stderr(), fault)),
    }
}

/// Runs the workload or the case that the command line names.
fn run<R: Threads + Wait + Print + rt::Clock + Clone + Drop + Send + Sync + 'static>(
    rt: R,
    alloc: Global,
    words: &[String],
    calls: &mut Calls,
) -> Result<(), Fault> {
    match words {
        [_, name] if name.as_str() == "recorded" => recorded::run(&rt, alloc),
        [_, name, case] if name.as_str() == "refusals" => {
            refusals::run(&rt, alloc, case.as_str(), calls)
        }
        [_, name, tasks, count] => {
            let (tasks, count) = (
                number(tasks.as_str(), USAGE)?,
                number(count.as_str(), USAGE)?,
            );
            workloads::run(rt, alloc, name.as_str(), tasks, count)
        }
        _ => Err(USAGE),
    }
}
