//! What is wrong with a line, and the text that says it.
use crate::failure::Failure;
use prodash::render::line::draw::safe_char;
use prodash::tree::Handle;
use prodash::{Refusal, Text};
use prodash_script::{Argument, Mistake};
use std::alloc::{AllocError, AllocFailed, Global};
use std::fmt::{self, Write};

/// What is wrong with a line.
#[derive(Drop)]
pub enum LineFault<'a> {
    /// It has more than 65536 bytes.
    TooLong,
    /// It is the last, and has no line feed.
    CutOff,
    /// It is no command.
    Mistake(Mistake<'a>),
    /// It names an item by this number, which none has.
    NoItem(Handle),
    /// It adds an item below this one, which is on the last level.
    TooDeep(String),
    /// It needs the root, which was dropped.
    NoRoot,
    /// It gives an item this word, which another one has.
    WordInUse(Text),
}

/// Why a line had no effect.
#[derive(Drop)]
pub enum Unserved<'a> {
    /// The line is faulty.
    Fault(LineFault<'a>),
    /// The program has failed.
    Failure(Failure),
}

impl From<AllocError> for Unserved<'_> {
    fn from(error: AllocError) -> Self {
        Unserved::Failure(Failure::from(error))
    }
}

impl<T: Drop> From<AllocFailed<T>> for Unserved<'_> {
    fn from(error: AllocFailed<T>) -> Self {
        Unserved::Failure(Failure::from(error))
    }
}

impl From<Failure> for Unserved<'_> {
    fn from(failure: Failure) -> Self {
        Unserved::Failure(failure)
    }
}

impl From<Refusal> for Unserved<'_> {
    fn from(refusal: Refusal) -> Self {
        Unserved::Failure(Failure::from(refusal))
    }
}

impl fmt::Display for LineFault<'_> {
    fn fmt<W: Write>(&self, f: &mut fmt::Formatter<W>) -> fmt::Result {
        match self {
            LineFault::TooLong => f.write_str("the line is longer than 65536 bytes"),
            LineFault::CutOff => f.write_str("the line is cut off: it has no line feed"),
            LineFault::Mistake(mistake) => write_mistake(f, *mistake),
            LineFault::NoItem(0) => f.write_str("0 is the root, not an item"),
            LineFault::NoItem(handle) => write!(f, "no item {handle}"),
            LineFault::TooDeep(parent) => {
                let parent = Shown(parent.as_str());
                write!(
                    f,
                    "no item can be below {parent}, which is on the last of six levels"
                )
            }
            LineFault::NoRoot => f.write_str("the root was already dropped"),
            LineFault::WordInUse(word) => {
                let word = Shown(word.as_str());
                write!(
                    f,
                    "@{word} is the word of another item (drop it, or use --replace-words)"
                )
            }
        }
    }
}

/// Writes what is said of a mistake.
fn write_mistake<W: Write>(f: &mut fmt::Formatter<W>, mistake: Mistake<'_>) -> fmt::Result {
    match mistake {
        Mistake::UnknownCommand(word) => write!(f, "unknown command \"{}\"", Shown(word)),
        Mistake::DrawsFrame(word) => {
            let word = Shown(word);
            write!(
                f,
                "\"{word}\" isn't allowed here: prodash-live draws the frames"
            )
        }
        Mistake::Missing(Argument::Word) | Mistake::Invalid(Argument::Word, _) => {
            f.write_str("\"@\" needs a word after it, as in @file")
        }
        Mistake::Missing(argument) => {
            let (name, form) = name_and_form(argument);
            write!(f, "the {name} is missing{form}")
        }
        Mistake::Invalid(argument, word) => {
            let (name, form) = name_and_form(argument);
            write!(f, "\"{}\" is no {name}{form}", Shown(word))
        }
        Mistake::UnknownItem(word) => write!(f, "no item {}", Shown(word)),
        Mistake::Extra(text) => write!(f, "unexpected \"{}\" after droproot", Shown(text)),
    }
}

/// Returns what an argument is called, and in parentheses the form that it has.
fn name_and_form(argument: Argument) -> (&'static str, &'static str) {
    match argument {
        Argument::Word => ("word", ""),
        Argument::Item => ("item", " (its number, or @ and its word)"),
        Argument::Number => ("number", " (0 to 18446744073709551615)"),
        Argument::Max => ("maximum", " (a number, or - for none)"),
        Argument::Unit => (
            "unit",
            " (a name as files, files% or files/s, or - for none)",
        ),
        Argument::Name => ("name", ""),
        Argument::Text | Argument::Message => ("text", ""),
        Argument::Columns => ("number of columns", " (1 to 65535)"),
        Argument::Rows => ("number of rows", " (1 to 65535)"),
    }
}

/// The maximum number of characters that are shown of a line.
const SHOWN: usize = 60;

/// A text as it is shown: its first characters, with U+FFFD in place of those that a defensive frame
/// has none of.
#[derive(Clone, Copy)]
struct Shown<'a>(&'a str);

impl fmt::Display for Shown<'_> {
    fn fmt<W: Write>(&self, f: &mut fmt::Formatter<W>) -> fmt::Result {
        for c in self.0.chars().take(SHOWN) {
            f.write_char(safe_char(c))?;
        }
        Ok(())
    }
}

/// Returns what is said of a faulty line. Lines are counted from 1.
///
/// # Errors
///
/// `AllocError`, if there is no memory for it.
pub fn fault_text(
    alloc: Global,
    number: u64,
    fault: &LineFault<'_>,
    line: &str,
) -> Result<String, AllocError> {
    format!(in alloc; "line {number}: {fault}, in: {}", Shown(line))
}
