//! The program over a reader and two writers.
use crate::copy::copy;
use crate::failure::Failure;
use crate::lines::{NoGauge, SharedCount, SharedGauge, count_line};
use crate::meter::Meter;
use crate::unit::Unit;
use prodash_programs::{Fault, write_all};
use std::alloc::Global;
use std::io::{ErrorKind, Read, Write};
use std::process::ExitCode;
use std::rt::Clock;
use std::sync::{Arc, Wait};
use std::thread::{self, Threads};

/// Passes on what there is. Returns the exit status.
pub fn pass<I: Read, O: Write, E: Write + Drop>(
    alloc: Global,
    input: &mut I,
    out: &mut O,
    mut err: E,
) -> Result<ExitCode, Fault> {
    match copy(input, out, &mut Meter::new(Unit::Bytes, NoGauge)) {
        Err(failure) if !is_closed(&failure) => {
            let line = format!(in alloc; "prodash pipe: {failure}\n")?;
            write_all(&mut err, line.as_bytes())?;
            Ok(ExitCode::FAILURE)
        }
        _ => Ok(ExitCode::SUCCESS),
    }
}

/// Passes on what there is, and counts it in event lines on `err`. The item of this word is dropped
/// at the end. Returns the exit status.
pub fn pass_counted<R, I, O, E>(
    rt: R,
    input: &mut I,
    out: &mut O,
    mut err: E,
    unit: Unit,
    word: &str,
) -> Result<ExitCode, Fault>
where
    R: Wait + Threads + Clock + AllocGlobal + Copy + Send + Sync + 'static,
    I: Read,
    O: Write,
    E: Write + Copy + Drop + Send + 'static,
{
    let alloc = rt.alloc();
    let shared = Arc::new(alloc, SharedCount::new())?;
    let mut meter = Meter::new(unit, SharedGauge(Arc::try_clone(&shared)?));
    let (theirs, their_word) = (Arc::try_clone(&shared)?, String::from_str(alloc, word)?);
    let writer = thread::spawn(&rt, move || {
        theirs.write_lines(&rt, alloc, their_word.as_str(), err)
    });
    let copied = copy(input, out, &mut meter);
    shared.end();
    if let Ok(writer) = writer {
        writer.join(&rt);
    }
    let last = count_line(alloc, word, meter.count())?;
    let (line, status) = match copied {
        Err(failure) if !is_closed(&failure) => (
            format!(in alloc; "{last}fail {word} - {failure}\ndrop {word}\n")?,
            ExitCode::FAILURE,
        ),
        _ => (format!(in alloc; "{last}drop {word}\n")?, ExitCode::SUCCESS),
    };
    write_all(&mut err, line.as_bytes())?;
    Ok(status)
}

/// Returns whether nobody reads what is written any more, which ends a copy without a word.
fn is_closed(failure: &Failure) -> bool {
    match failure {
        Failure::Output(error) => error.kind() == ErrorKind::BrokenPipe,
        Failure::Input(_) => false,
    }
}
