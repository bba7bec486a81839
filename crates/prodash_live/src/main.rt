//! Shows progress on a terminal from the event lines of standard input, as they arrive.
#![tactic(auto)]

mod command_line;
mod dashboard;
mod display;
mod failure;
mod feed;
mod items;
mod line_fault;
mod options;
mod output;
mod plain_display;
mod program;
mod recorded_item;
mod recording;
mod shown;
mod signs;
mod summary;

use command_line::{Command, HELP, UsageError, parse};
use failure::Failure;
use feed::Outcome;
use options::Options;
use prodash::time::SystemClock;
use prodash_programs::{Environment, Fault, arguments, report, version_line, write_all};
use program::live;
use std::fs::File;
use std::io::{IsTerminal, Write};
use std::process::ExitCode;
use std::rt::Env;
use std::sync::Arc;

fn main(rt: HostRuntime) -> ExitCode {
    let words = match arguments(&rt, Fault::Arguments) {
        Ok(words) => words,
        Err(fault) => return report_fault(&rt, fault),
    };
    let options = match parse(&words, Environment::read(&rt)) {
        Ok(Command::Run(options)) => options,
        Ok(Command::Help) => return print(&rt, HELP),
        Ok(Command::Version) => return print_version(&rt),
        Err(error) => return report_misuse(&rt, error),
    };
    let Ok(clock) = Arc::new(rt.alloc(), SystemClock::new(rt)) else {
        return report_failure(&rt, Failure::Memory, options);
    };
    let file = match options.record.map(|path| File::create(&rt, path)) {
        None => None,
        Some(Ok(file)) => Some(file),
        Some(Err(error)) => return report_failure(&rt, Failure::Recording(error), options),
    };
    let input = rt.reader();
    let ended = if options.to_stdout {
        let is_terminal = rt.stdout().is_terminal();
        let outputs = (rt.stdout(), rt.stdout());
        live(rt, input, outputs, file, clock, options, is_terminal)
    } else {
        let is_terminal = rt.stderr().is_terminal();
        let outputs = (rt.stderr(), rt.stderr());
        live(rt, input, outputs, file, clock, options, is_terminal)
    };
    match ended {
        Ok(outcome) => report_outcome(&rt, outcome),
        Err(failure) => report_failure(&rt, failure, options),
    }
}

/// Says how the arguments are wrong, and returns the exit status.
fn report_misuse(rt: &HostRuntime, error: UsageError<'_>) -> ExitCode {
    let hint = "For more information, try '--help'.";
    let _ = writeln!(rt.stderr(), "error: {error}\n\n{hint}");
    ExitCode::from(2)
}

/// Says which line has stopped the program, if one has, and returns the exit status.
fn report_outcome(rt: &HostRuntime, outcome: Outcome) -> ExitCode {
    match outcome {
        Outcome::Ended(0) => ExitCode::from(0),
        Outcome::Unfinished => ExitCode::from(3),
        Outcome::Ended(_) => ExitCode::from(2),
        Outcome::Stopped(text) => {
            let _ = writeln!(rt.stderr(), "{text}");
            ExitCode::from(2)
        }
    }
}

/// Says why the program has failed, and returns the exit status.
fn report_failure(rt: &HostRuntime, failure: Failure, options: Options<'_>) -> ExitCode {
    let file = options.record.unwrap_or_default();
    let output = if options.to_stdout {
        "standard output"
    } else {
        "standard error"
    };
    let mut err = rt.stderr();
    let _ = match failure {
        Failure::Input(error) => writeln!(err, "cannot read standard input: {error}"),
        Failure::Output(error) => writeln!(err, "cannot write to {output}: {error}"),
        Failure::Recording(error) => writeln!(err, "cannot write {file}: {error}"),
        Failure::Memory => writeln!(err, "no memory"),
        Failure::Thread => writeln!(err, "no thread"),
    };
    ExitCode::from(1)
}

/// Says why the program has failed before it was running, and returns the exit status.
fn report_fault(rt: &HostRuntime, fault: Fault) -> ExitCode {
    ExitCode::from(report(&mut rt.stderr(), fault))
}

/// Prints the version, and returns the exit status.
fn print_version(rt: &HostRuntime) -> ExitCode {
    match version_line(rt.alloc(), "prodash-live") {
        Ok(line) => print(rt, line.as_str()),
        Err(_) => report_fault(rt, Fault::Memory),
    }
}

/// Prints a text, and returns the exit status.
fn print(rt: &HostRuntime, text: &str) -> ExitCode {
    match write_all(&mut rt.stdout(), text.as_bytes()) {
        Ok(()) => ExitCode::from(0),
        Err(fault) => report_fault(rt, fault),
    }
}
