ghost use Rattle.std.specs.Prelude.{◌≡◌, IfErr};
ghost use Rattle.std.specs.Str.Parse.{ParsesUnsigned};
ghost use Rattle.prodash_programs.specs.Faults.{IsMemoryOr};

use crate::fault::Fault;
use std::alloc::Global;
use std::rt::Env;
use std::{env, io};

/// Returns the command-line arguments, the program's name first.
///
/// # Errors
///
/// `fault`, if an argument isn't UTF-8, and `Memory`, if there is no memory for them.
pub fn arguments<R: Env + Alloc<A = Global>>(rt: &R, fault: Fault) -> Result<Vec<String>, Fault>
    ensures { IfErr result (IsMemoryOr fault) }
{
    let mut arguments = Vec::new(rt.alloc());
    match env::args(rt) {
        Ok(all) => {
            for argument in all {
                arguments.push(argument)?;
            }
            Ok(arguments)
        }
        Err(error) if error.kind() == io::ErrorKind::OutOfMemory => Err(Fault::Memory),
        Err(_) => Err(fault),
    }
}

/// Parses an argument as a number: decimal digits, perhaps behind a `+`, up to 2^64-1.
///
/// # Errors
///
/// `fault`, if it is none.
pub fn number(word: &str, fault: Fault) -> Result<u64, Fault>
    ensures number { ParsesUnsigned 64 10 word.now result }
    ensures err { IfErr result (λ it. it ≡ fault) }
{
    word.parse::<u64>().or(Err(fault))
}
