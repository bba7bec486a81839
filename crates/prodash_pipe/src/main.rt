//! Passes standard input on to standard output, and writes event lines that count what passes.
#![tactic(auto)]

mod command_line;
mod copy;
mod failure;
mod gauge;
mod lines;
mod meter;
mod program;
mod unit;

use command_line::{Command, USAGE, parse};
use prodash_programs::{arguments, report};
use program::{pass, pass_counted};
use std::process::ExitCode;

fn main(rt: HostRuntime) -> ExitCode {
    let words = match arguments(&rt, USAGE) {
        Ok(words) => words,
        Err(fault) => return ExitCode::from(report(&mut rt.stderr(), fault)),
    };
    let (input, out, err) = (&mut rt.stdin(), &mut rt.stdout(), rt.stderr());
    let ended = match parse(&words) {
        Ok(Command::Pass) => pass(rt.alloc(), input, out, err),
        Ok(Command::Count { unit, word }) => pass_counted(rt, input, out, err, unit, word),
        Err(fault) => Err(fault),
    };
    match ended {
        Ok(status) => status,
        Err(fault) => ExitCode::from(report(&mut rt.stderr(), fault)),
    }
}
