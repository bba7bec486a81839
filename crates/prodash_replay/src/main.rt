//! Replays a list of events, one per line, and writes the frames that they draw.
#![tactic(auto)]

mod replay;

use prodash_programs::{arguments, report};
use replay::{USAGE, replay};
use std::process::ExitCode;

fn main(rt: HostRuntime) -> ExitCode {
    let status = match arguments(&rt, USAGE) {
        Ok(words) => replay(
            rt.alloc(),
            &words,
            &mut rt.reader(),
            &mut rt.stdout(),
            &mut rt.stderr(),
        ),
        Err(fault) => report(&mut rt.stderr(), fault),
    };
    ExitCode::from(status)
}
