//! Small programs that show what the libraries do. The first argument names the one that is run.
#![tactic(auto)]

mod audit;
mod batch;
mod colors;
mod dashboard;
mod primes;
mod threads;
mod workers;

use prodash_programs::{Fault, report};
use std::process::ExitCode;
use std::rt::Env;

/// The fault of a first argument that names no example.
const USAGE: Fault = Fault::Usage(
    "prodash-examples threads | dashboard | primes | workers SECONDS [messages] | batch JOBS \
     | audit [check] | colors colored|plain",
);

/// The bytes of the longest name.
const LONGEST: usize = 9;

fn main(rt: HostRuntime) -> anyhow::Result<ExitCode> {
    let ended = match example(&rt, &mut [0; LONGEST]) {
        Some("threads") => Ok(threads::run(rt, rt.stderr())?),
        Some("dashboard") => Ok(dashboard::run(rt, rt.stdout())?),
        Some("primes") => Ok(primes::run(rt, rt.stderr())?),
        Some("workers") => workers::run(&rt, rt.stderr()),
        Some("batch") => batch::run(rt, rt.stderr()),
        Some("audit") => audit::run(rt, rt.stderr(), &mut rt.stdout()),
        Some("colors") => colors::run(&rt, &mut rt.stdout()),
        _ => Err(USAGE),
    };
    Ok(match ended {
        Ok(()) => ExitCode::SUCCESS,
        Err(fault) => ExitCode::from(report(&mut rt.stderr(), fault)),
    })
}

/// Returns the first argument, which is put into `buffer`, unless it is longer. The example parses
/// the others.
fn example<'a>(rt: &impl Env, buffer: &'a mut [u8]) -> Option<&'a str> {
    let length = rt.arg(1, buffer).ok()?;
    str::from_utf8(&buffer[..length]).ok()
}
