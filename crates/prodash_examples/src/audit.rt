//! Eight threads work below one recorded tree, which is drawn on standard error. Each keeps the
//! receipts of its calls. At the end all receipts are looked up in the journal, which is written
//! as event lines, and the last rows are those of a look that saw all of it.
mod receipts;
mod workers;

use prodash::progress::{Row, Value};
use prodash::render::line::StandardStreams;
use prodash_programs::{Fault, arguments, write_all};
use receipts::run_audit;
use std::io::Write;
use std::rt::{self, Env};
use std::sync::Wait;
use std::thread::Threads;

/// The fault of other arguments.
const USAGE: Fault = Fault::Usage("prodash-examples audit [check]");

/// Runs the example: writes the journal to `out` unless the arguments say `check`, and to `err`,
/// which is standard error, the frames. Then the last rows follow, and how many receipts there are,
/// all of which agree.
pub fn run<R, E, O>(rt: R, err: E, out: &mut O) -> Result<(), Fault>
where
    R: Threads + Wait + Env + StandardStreams + rt::Clock + Eprint + AllocGlobal,
    R: Copy + Send + Sync + 'static,
    E: Write + Drop + Send + 'static,
    O: Write,
{
    let writes_journal = writes_journal(&arguments(&rt, USAGE)?)?;
    let audit = run_audit(rt, rt.alloc(), err)?;
    if writes_journal {
        write_all(out, audit.lines.as_bytes())?;
    }
    for row in audit.rows.as_slice() {
        print_row(&rt, row);
    }
    let _ = eprintln!(&rt; "{} receipts agree", audit.receipts);
    Ok(())
}

/// Prints the name of a row, its step and its bound to standard error.
fn print_row(rt: &(impl Eprint), row: &Row) {
    let (step, max) = row
        .progress
        .as_ref()
        .and_then(Value::fraction)
        .unwrap_or((0, 0));
    let _ = eprintln!(rt; "{} {step}/{max}", row.name.as_str());
}

/// Parses the command line: the names of the program and of the example, and then `check` or
/// nothing. Returns whether the journal is to be written.
fn writes_journal(words: &[String]) -> Result<bool, Fault> {
    match words {
        [_, _] => Ok(true),
        [_, _, word] if word.as_str() == "check" => Ok(false),
        _ => Err(USAGE),
    }
}
