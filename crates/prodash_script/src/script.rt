//! Lines of scripts, whose items may have words for names.
ghost use Rattle.std.specs.Prelude.{◌≡◌, ℕ, IfOk, option_map};
ghost use Rattle.prodash_script.specs.Commands.{begin_of, command_of, handle_in, is_comment, named_add_of, plain_command, print_of, said_of, send_of, size_of};
ghost use Rattle.prodash_script.specs.Mistakes.{name_in, size_number_of};
ghost use Rattle.prodash_script.specs.Steps.{step_in};
ghost use Rattle.prodash_script.specs.Words.{after_prefix};
ghost use Rattle.prodash_script.specs.plumbing.Commands.{ReadsCommand, accepted_in, event_in};
ghost use Rattle.prodash_script.specs.plumbing.Readers.{plain_rest};

use crate::change::{Change, StepChange};
use crate::command::Command;
use crate::event_line::EventLine;
use crate::labels::Labels;
use crate::mistakes::first_mistake;
use crate::reading::{
    bound, cut, handle_and_name, handle_and_number, handle_and_text, parse_line, small,
};
use crate::words::{Words, number};
use prodash_base::Text;
use prodash_base::messages::MessageLevel;
use prodash_base::time::Moment;
use prodash_core::tree::Handle;
use std::alloc::{AllocError, Global};
use std::collections::HashMap;

/// The handle of each word, without its `@`.
pub type Names = HashMap<String, Handle>;

/// The words of a script: a handle is a number, or a word after `@`; a moment is a number, or `-`
/// for now.
#[derive(Clone, Copy)]
struct Script<'a> {
    names: &'a Names,
    now: Moment,
}

impl<'a> Words for Script<'a> {
    ghost use Rattle.prodash_script.specs.Commands.{handle_in, moment_in};

    ghost handle_of = { λ script. handle_in script.names.now };

    ghost moment_of = { λ script. moment_in script.now };

    fn handle(&self, word: &str) -> Option<Handle> {
        handle_of(self.names, word)
    }

    fn moment(&self, word: &str) -> Option<Moment> {
        if word == "-" {
            return Some(self.now);
        }
        number(word)
    }
}

/// Returns the handle that a word names: that of an item, after `@`, or a number.
pub(crate) fn handle_of(names: &Names, word: &str) -> Option<Handle>
    ensures { result ≡ handle_in names.now word.now }
{
    match name_of(word) {
        Some(name) => names.get(name).copied(),
        None => number(word),
    }
}

/// Returns the name in a word that begins with `@`, if it isn't empty.
pub(crate) fn name_of(word: &str) -> Option<&str>
    ensures { option_map (λ name. name.now) result ≡ name_in word.now }
{
    let name = word.strip_prefix('@')?;
    if name.is_empty() { None } else { Some(name) }
}

/// Parses a line of a script, given the names of its items and the moment that is now. The name of
/// a unit is kept in `labels`.
///
/// ```rust
/// let line = "add @file 0 a file";
/// let command = parse_command(alloc, &names, &mut labels, now, line)?;
/// assert!(rt; matches!(command, Command::Add { parent: 0, .. }));
/// ```
///
/// # Errors
///
/// `AllocError`, if there is no memory for the command.
pub fn parse_command<'a>(
    alloc: Global,
    names: &Names,
    labels: &mut Labels,
    now: Moment,
    line: &'a str,
) -> Result<Command<'a>, AllocError>
    ensures { IfOk result (λ command.
        plain_command command ≡ command_of names.now now line.now) }
{
    if is_comment(line) {
        return Ok(Command::Comment);
    }
    let script = Script { names, now };
    match accepted(alloc, script, labels, line)? {
        Some(command) => Ok(command),
        None => Ok(Command::Fault(first_mistake(names, line))),
    }
}

/// Parses a line that changes the step of an item, `set H N` or `inc H N`, given the names of the
/// items. Returns `None` for any other line, and for one with a mistake. `parse_command` reads these
/// lines too, and takes three times as long for them.
///
/// ```rust
/// let step = parse_step(&names, "set 1 3");
/// assert!(rt; matches!(step, Some((1, StepChange::Set(3)))));
/// ```
pub fn parse_step(names: &Names, line: &str) -> Option<(Handle, StepChange)>
    ensures { (now : ℕ) → result ≡ step_in (command_of names.now now line.now) }
{
    // there is no moment in these lines
    let script = Script { names, now: 0 };
    if let Some(rest) = after(line, "set ") {
        let (item, step) = handle_and_number(&script, rest)?;
        return Some((item, StepChange::Set(step)));
    }
    let (item, step) = handle_and_number(&script, after(line, "inc ")?)?;
    Some((item, StepChange::IncBy(step)))
}

/// Returns whether a line does nothing: it is empty, or begins with `#`.
fn is_comment(line: &str) -> bool
    ensures { result ≡ is_comment line.now }
{
    match line.as_bytes().first() {
        Some(first) => *first == b'#',
        None => true,
    }
}

/// Parses a line of a script, or returns `None` if it has a mistake.
fn accepted(
    alloc: Global,
    script: Script<'_>,
    labels: &mut Labels,
    line: &str,
) -> Result<Option<Command<'static>>, AllocError>
    ensures { ReadsCommand result
        (accepted_in script.entry.names.now script.entry.now line.now) }
{
    if let Some(rest) = after(line, "add @") {
        return named_add(alloc, script, rest);
    }
    if let Some(rest) = after(line, "init ") {
        return init(alloc, script, labels, rest);
    }
    if let Some(rest) = after(line, "size ") {
        return Ok(size(rest));
    }
    if let Some(rest) = after(line, "print ") {
        return print(alloc, rest);
    }
    if let Some(rest) = after(line, "info ") {
        return message(alloc, script, MessageLevel::Info, rest);
    }
    if let Some(rest) = after(line, "done ") {
        return message(alloc, script, MessageLevel::Success, rest);
    }
    if let Some(rest) = after(line, "fail ") {
        return message(alloc, script, MessageLevel::Failure, rest);
    }
    event(alloc, script, labels, line)
}

/// Returns what comes after a prefix, if a text begins with it.
pub(crate) fn after<'a>(text: &'a str, prefix: &str) -> Option<&'a str>
    ensures { option_map (λ rest. rest.now) result ≡ after_prefix prefix.now text.now }
{
    text.strip_prefix(prefix)
}

/// Parses the arguments `WORD H NAME`, after the `@` of the word.
#[tactic(auto, unfolding(crate::specs::Reading::first_of))]
fn named_add(
    alloc: Global,
    script: Script<'_>,
    rest: &str,
) -> Result<Option<Command<'static>>, AllocError>
    ensures { ReadsCommand result (named_add_of (handle_in script.entry.names.now) rest.now) }
{
    let Some((word, rest)) = cut(rest) else {
        return Ok(None);
    };
    if word.is_empty() {
        return Ok(None);
    }
    let Some((parent, name)) = handle_and_name(alloc, &script, rest)? else {
        return Ok(None);
    };
    let word = Some(Text::from_str(alloc, word)?);
    Ok(Some(Command::Add { word, parent, name }))
}

/// Parses the arguments `H MAX UNIT`. Without a unit they are as with `-`.
#[tactic(auto, unfolding(crate::specs::Reading::first_of))]
fn init(
    alloc: Global,
    script: Script<'_>,
    labels: &mut Labels,
    rest: &str,
) -> Result<Option<Command<'static>>, AllocError>
    ensures { ReadsCommand result (begin_of (handle_in script.entry.names.now) rest.now) }
{
    let Some((item, rest)) = handle_and_text(&script, rest) else {
        return Ok(None);
    };
    let (max, unit) = match cut(rest) {
        Some(parts) => parts,
        None => (rest, "-"),
    };
    let Some(max) = bound(max) else {
        return Ok(None);
    };
    match labels.script_unit_of(alloc, unit)? {
        Some(unit) => Ok(Some(Command::Change(item, Change::Init { max, unit }))),
        None => Ok(None),
    }
}

/// Parses the arguments `COLUMNS ROWS`.
#[tactic(auto, unfolding(crate::specs::Reading::first_of))]
fn size(rest: &str) -> Option<Command<'static>>
    ensures { option_map plain_command result ≡ size_of rest.now }
{
    let (columns, rows) = cut(rest)?;
    Some(Command::Size {
        columns: size_number(columns)?,
        rows: size_number(rows)?,
    })
}

/// Parses the argument `TEXT` of a line that is printed.
fn print(alloc: Global, text: &str) -> Result<Option<Command<'static>>, AllocError>
    ensures { ReadsCommand result (print_of text.now) }
{
    Ok(Some(Command::Print(Text::from_str(alloc, text)?)))
}

/// Parses the arguments `H AT TEXT` or `H TEXT`.
#[tactic(auto, unfolding(crate::specs::Reading::first_of))]
fn message(
    alloc: Global,
    script: Script<'_>,
    level: MessageLevel,
    rest: &str,
) -> Result<Option<Command<'static>>, AllocError>
    ensures { ReadsCommand result
        (send_of level (handle_in script.entry.names.now) script.entry.now rest.now) }
{
    let Some((item, words)) = handle_and_text(&script, rest) else {
        return Ok(None);
    };
    let Some((at, text)) = said(script, words) else {
        return Ok(None);
    };
    let text = Text::from_str(alloc, text)?;
    let message = Change::Message { at, level, text };
    Ok(Some(Command::Change(item, message)))
}

/// Parses the arguments `AT TEXT`, or `TEXT`, which is said now. A moment alone has no text.
#[tactic(auto, unfolding(crate::specs::Reading::first_of))]
fn said<'a>(script: Script<'_>, words: &'a str) -> Option<(Moment, &'a str)>
    ensures { option_map plain_rest result ≡ said_of script.entry.now words.now }
{
    if bound(words).is_some() {
        return None;
    }
    if let Some((word, text)) = cut(words) {
        if let Some(at) = script.moment(word) {
            return Some((at, text));
        }
    }
    Some((script.now, words))
}

/// Parses a number of columns or rows.
pub(crate) fn size_number(word: &str) -> Option<u16>
    ensures { result ≡ size_number_of word.now }
{
    let number = small(word)?;
    if number == 0 { None } else { Some(number) }
}

/// Parses a line of events that draws no frame.
fn event(
    alloc: Global,
    script: Script<'_>,
    labels: &mut Labels,
    line: &str,
) -> Result<Option<Command<'static>>, AllocError>
    ensures { ReadsCommand result (event_in script.entry.names.now script.entry.now line.now) }
{
    let Some(line) = parse_line(alloc, &script, labels, line)? else {
        return Ok(None);
    };
    let word = None;
    Ok(match line {
        EventLine::Add { parent, name } => Some(Command::Add { word, parent, name }),
        EventLine::Drop(item) => Some(Command::Drop(item)),
        EventLine::DropRoot => Some(Command::DropRoot),
        EventLine::Change(item, change) => Some(Command::Change(item, change)),
        EventLine::Tick { .. } | EventLine::Resize { .. } | EventLine::Quit(_) => None,
    })
}
