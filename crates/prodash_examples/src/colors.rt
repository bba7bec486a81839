//! Writes the frames of a list of events, in colour or without: ten tasks in two levels, messages
//! of each severity, and all that a row shows.
mod frames;
mod scene;

use frames::frames;
use prodash_programs::{Fault, arguments, write_all};
use std::alloc::Global;
use std::io::Write;
use std::rt::Env;

/// The fault of arguments that are not one of the two words.
const USAGE: Fault = Fault::Usage("prodash-examples colors colored|plain");

/// Runs the example: writes the bytes of all frames to `out`.
pub fn run<R: Env + Alloc<A = Global>, O: Write>(rt: &R, out: &mut O) -> Result<(), Fault> {
    let words = arguments(rt, USAGE)?;
    let bytes = frames(rt.alloc(), is_colored(&words)?)?;
    write_all(out, &bytes)
}

/// Parses the command line: the names of the program and of the example, and then `colored` or
/// `plain`.
fn is_colored(words: &[String]) -> Result<bool, Fault> {
    match words {
        [_, _, word] if word.as_str() == "colored" => Ok(true),
        [_, _, word] if word.as_str() == "plain" => Ok(false),
        _ => Err(USAGE),
    }
}
