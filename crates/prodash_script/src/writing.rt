ghost use Rattle.std.specs.Prelude.{◌≡◌, ◌<◌, ◌^◌, codes, IfOk, IfSome, string_bytes, true};
ghost use Rattle.std.specs.Fmt.{decimal};
ghost use Rattle.prodash_script.specs.Lines.{GivesLine, IsLineOf, IsOneLine, bound_word, is_one_line, spaced, text_line, word_line};
ghost use Rattle.prodash_script.specs.Reading.{ReadsBack};

use crate::change::REASON;
use crate::units::word_of;
use prodash_base::messages::MessageLevel;
use prodash_base::progress::{Step, UNKNOWN};
use prodash_base::time::Moment;
use prodash_base::unit::Unit;
use prodash_core::tree::{Event, Handle};
use std::alloc::{AllocError, Global};

/// Returns the line of an event, without a line feed, which `parse` reads as this event; or `None`
/// if it has no line: a query, a resize whose rows are hidden, an identifier, another reason than
/// `REASON`, a moment at which a task continues, a unit without a word, or a text with a line feed.
///
/// ```rust
/// let line = to_line(alloc, &Event::Set { item: 1, step: 3 })?;
/// ```
///
/// # Errors
///
/// `AllocError`, if there is no memory for the line.
pub fn to_line(alloc: Global, event: &Event) -> Result<Option<String>, AllocError>
    ensures line { GivesLine result (IsLineOf event.now) }
    ensures read { ReadsBack result event.now }
{
    match event {
        Event::AddChild { parent, name, id } => {
            if *id != UNKNOWN {
                return Ok(None);
            }
            with_line(alloc, "add", *parent, name.as_str())
        }
        Event::SetName { item, name } => with_line(alloc, "name", *item, name.as_str()),
        Event::Message {
            item,
            at,
            level,
            text,
        } => message(alloc, *item, *at, *level, text.as_str()),
        Event::Init { item, max, unit } => init(alloc, *item, *max, *unit),
        Event::SetMax { item, max } => {
            let max = bound(alloc, *max)?;
            with_text(alloc, "max", *item, max.as_str())
        }
        Event::Drop { item } => with_number(alloc, "drop", *item),
        Event::Set { item, step } => with_numbers(alloc, "set", *item, *step),
        Event::IncBy { item, step } => with_numbers(alloc, "inc", *item, *step),
        Event::Blocked { item, reason, eta } => {
            if *reason != REASON || eta.is_some() {
                return Ok(None);
            }
            with_number(alloc, "blocked", *item)
        }
        Event::Halted { item, reason, eta } => {
            if *reason != REASON || eta.is_some() {
                return Ok(None);
            }
            with_number(alloc, "halted", *item)
        }
        Event::Running { item } => with_number(alloc, "running", *item),
        Event::DropRoot => Ok(Some(String::from_str(alloc, "droproot")?)),
        Event::Tick { at, show } => { with_number(alloc, if *show { "tick" } else { "hold" }, *at) }
        Event::Resize {
            at,
            show,
            columns,
            rows,
        } => {
            if *show {
                resize_line(alloc, *at, *columns, *rows)
            } else {
                Ok(None)
            }
        }
        Event::Quit { at } => with_number(alloc, "quit", *at),
        Event::Name { .. }
        | Event::Id { .. }
        | Event::Step { .. }
        | Event::Max { .. }
        | Event::Unit { .. }
        | Event::NumTasks
        | Event::Snapshot
        | Event::CopyMessages
        | Event::CopyNew { .. } => Ok(None),
    }
}

/// Returns the line of a resize whose rows are shown.
fn resize_line(
    alloc: Global,
    at: Moment,
    columns: u16,
    rows: u16,
) -> Result<Option<String>, AllocError>
    ensures { GivesLine result (IsLineOf (Event.Resize at true columns rows)) }
{
    Ok(Some(format!(in alloc; "resize {at} {columns} {rows}")?))
}

/// Returns whether a text has no line feed.
fn is_one_line(text: &str) -> bool
    ensures { result ≡ is_one_line text.now }
{
    !text.as_bytes().contains(&b'\n')
}

/// Returns the word of a bound.
fn bound(alloc: Global, max: Option<Step>) -> Result<String, AllocError>
    ensures word { IfOk result (λ word. string_bytes word ≡ bound_word max) }
    ensures fits { IfSome max (λ n. n < 2 ^ 64) }
{
    match max {
        Some(max) => format!(in alloc; "{max}"),
        None => String::from_str(alloc, "-"),
    }
}

/// Returns the line of a word and a number.
fn with_number(alloc: Global, word: &str, n: u64) -> Result<Option<String>, AllocError>
    ensures { GivesLine result (λ line. line ≡ word_line word.now n) }
{
    Ok(Some(format!(in alloc; "{word} {n}")?))
}

/// Returns the line of a word and two numbers.
fn with_numbers(alloc: Global, word: &str, n: u64, m: u64) -> Result<Option<String>, AllocError>
    ensures { GivesLine result (λ line. line ≡ text_line word.now n (decimal m)) }
{
    Ok(Some(format!(in alloc; "{word} {n} {m}")?))
}

/// Returns the line of a word, a number and a text without a line feed.
fn with_text(alloc: Global, word: &str, n: u64, text: &str) -> Result<Option<String>, AllocError>
    ensures { GivesLine result (λ line. line ≡ text_line word.now n text.now) }
{
    Ok(Some(format!(in alloc; "{word} {n} {text}")?))
}

/// Returns the line of a word, a number and a text, or `None` if the text has a line feed.
fn with_line(alloc: Global, word: &str, n: u64, text: &str) -> Result<Option<String>, AllocError>
    ensures { GivesLine result (λ line.
        (line ≡ text_line word.now n text.now) × IsOneLine text.now) }
{
    if !is_one_line(text) {
        return Ok(None);
    }
    with_text(alloc, word, n, text)
}

/// Returns the line of a message, or `None` if its text has a line feed.
fn message(
    alloc: Global,
    item: Handle,
    at: Moment,
    level: MessageLevel,
    text: &str,
) -> Result<Option<String>, AllocError>
    ensures { GivesLine result (IsLineOf (Event.Message item at level text.now)) }
{
    if !is_one_line(text) {
        return Ok(None);
    }
    let word = match level {
        MessageLevel::Info => "info",
        MessageLevel::Success => "done",
        MessageLevel::Failure => "fail",
    };
    Ok(Some(format!(in alloc; "{word} {item} {at} {text}")?))
}

/// Returns the line of an init, or `None` if its unit has no word.
fn init(
    alloc: Global,
    item: Handle,
    max: Option<Step>,
    unit: Option<Unit>,
) -> Result<Option<String>, AllocError>
    ensures line { GivesLine result (IsLineOf (Event.Init item max unit)) }
    ensures fits { IfSome max (λ n. n < 2 ^ 64) }
{
    let Some(word) = word_of(alloc, unit)? else {
        return Ok(None);
    };
    let max = bound(alloc, max)?;
    init_line(alloc, item, max.as_str(), word.as_str())
}

/// Returns the line of an init whose bound and unit have these words.
fn init_line(
    alloc: Global,
    item: Handle,
    max: &str,
    unit: &str,
) -> Result<Option<String>, AllocError>
    ensures { GivesLine result (λ it.
        it ≡ text_line (codes "init") item (spaced max.now unit.now)) }
{
    Ok(Some(format!(in alloc; "init {item} {max} {unit}")?))
}
