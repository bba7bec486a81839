//! What the command line asks for.
use crate::unit::Unit;
use prodash_programs::Fault;

/// The fault of other arguments.
pub const USAGE: Fault = Fault::Usage("prodash-pipe [bytes|lines WORD]");

/// What the command line asks for.
#[derive(Clone, Copy, Debug)]
pub enum Command<'a> {
    /// To pass on what there is.
    Pass,
    /// To count it too, in event lines of the item of this word.
    Count { unit: Unit, word: &'a str },
}

/// Parses the command line, the program's name first.
///
/// # Errors
///
/// `USAGE`, if it is none of these.
pub fn parse(words: &[String]) -> Result<Command<'_>, Fault> {
    match words {
        [_] => Ok(Command::Pass),
        [_, unit, word] => {
            let unit = match unit.as_str() {
                "bytes" => Unit::Bytes,
                "lines" => Unit::Lines,
                _ => return Err(USAGE),
            };
            Ok(Command::Count {
                unit,
                word: word.as_str(),
            })
        }
        _ => Err(USAGE),
    }
}
