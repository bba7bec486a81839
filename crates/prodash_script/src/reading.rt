ghost use Rattle.std.specs.Prelude.{◌≡◌, IfOk, option_map};
ghost use Rattle.prodash_script.specs.Reading.{ReadsEvent, Reads, alone, bound_of, init_of, resize_of, cut_at_space, first_of, message_of, read_line, small_of, text_of, then_read};
ghost use Rattle.prodash_script.specs.Words.{number_of};
ghost use Rattle.prodash_script.specs.plumbing.Readers.{Says, plain_pair, plain_rest, event_by};

use crate::change::Change;
use crate::event_line::EventLine;
use crate::labels::Labels;
use crate::words::{Numbers, Words, number};
use prodash_base::Text;
use prodash_base::messages::MessageLevel;
use prodash_base::progress::Step;
use prodash_core::tree::{Event, Handle};
use std::alloc::{AllocError, Global};

/// Parses a line as an event. Its handles and moments are numbers. The name of a unit is kept in
/// `labels`. Returns `None` if the line is not an event.
///
/// ```rust
/// let event = parse(alloc, &mut labels, "set 1 3")?;
/// assert_eq!(rt; event, Some(Event::Set { item: 1, step: 3 }));
/// ```
///
/// # Errors
///
/// `AllocError`, if there is no memory for the event.
pub fn parse(alloc: Global, labels: &mut Labels, line: &str) -> Result<Option<Event>, AllocError>
    ensures { ReadsEvent result (read_line number_of number_of line.now) }
{
    match parse_line(alloc, &Numbers, labels, line)? {
        Some(line) => Ok(Some(line.into_event())),
        None => Ok(None),
    }
}

/// Parses a line of events, whose handles and moments are those that `words` names. The name of a
/// unit is kept in `labels`. Returns `None` if the line is not an event.
///
/// # Errors
///
/// `AllocError`, if there is no memory for what the line says.
pub fn parse_line<W: Words>(
    alloc: Global,
    words: &W,
    labels: &mut Labels,
    line: &str,
) -> Result<Option<EventLine>, AllocError>
    ensures { Reads result
        (read_line (W.handle_of words.now) (W.moment_of words.now) line.now) }
{
    let Some((word, rest)) = cut(line) else {
        return Ok(alone(line));
    };
    Ok(match word {
        "add" => match handle_and_name(alloc, words, rest)? {
            Some((parent, name)) => Some(EventLine::Add { parent, name }),
            None => None,
        },
        "name" => match handle_and_name(alloc, words, rest)? {
            Some((item, name)) => Some(EventLine::Change(item, Change::SetName(name))),
            None => None,
        },
        "info" => message(alloc, words, MessageLevel::Info, rest)?,
        "done" => message(alloc, words, MessageLevel::Success, rest)?,
        "fail" => message(alloc, words, MessageLevel::Failure, rest)?,
        "init" => init(alloc, words, labels, rest)?,
        _ => without_text(words, word, rest),
    })
}

/// Parses a line that takes no memory.
fn without_text<W: Words>(words: &W, word: &str, rest: &str) -> Option<EventLine>
    ensures { Says result
        (event_by (W.handle_of words.now) (W.moment_of words.now) word.now rest.now) }
{
    Some(match word {
        "drop" => EventLine::Drop(words.handle(rest)?),
        "max" => {
            let (item, max) = handle_and_bound(words, rest)?;
            EventLine::Change(item, Change::SetMax(max))
        }
        "set" => {
            let (item, step) = handle_and_number(words, rest)?;
            EventLine::Change(item, Change::Set(step))
        }
        "inc" => {
            let (item, step) = handle_and_number(words, rest)?;
            EventLine::Change(item, Change::IncBy(step))
        }
        "blocked" => EventLine::Change(words.handle(rest)?, Change::Blocked),
        "halted" => EventLine::Change(words.handle(rest)?, Change::Halted),
        "running" => EventLine::Change(words.handle(rest)?, Change::Running),
        "tick" => EventLine::Tick {
            at: words.moment(rest)?,
            show: true,
        },
        "hold" => EventLine::Tick {
            at: words.moment(rest)?,
            show: false,
        },
        "resize" => resize(words, rest)?,
        "quit" => EventLine::Quit(words.moment(rest)?),
        _ => return None,
    })
}

/// Parses a line that is a single word.
fn alone(word: &str) -> Option<EventLine>
    ensures { Says result (alone word.now) }
{
    match word {
        "droproot" => Some(EventLine::DropRoot),
        _ => None,
    }
}

/// Parses a bound: a number, or `-` for none.
pub(crate) fn bound(word: &str) -> Option<Option<Step>>
    ensures { result ≡ bound_of word.now }
{
    if word == "-" {
        return Some(None);
    }
    Some(Some(number(word)?))
}

/// Returns the text before the first space and the text after it, or `None` if there is no space.
#[tactic(auto, unfolding(crate::specs::Reading::cut_at_space))]
pub(crate) fn cut(text: &str) -> Option<(&str, &str)>
    ensures { option_map plain_pair result ≡ cut_at_space text.now }
{
    text.split_once(' ')
}

/// Parses a handle and the text after it.
#[tactic(auto, unfolding(crate::specs::Reading::first_of))]
pub(crate) fn handle_and_text<'a, W: Words>(words: &W, rest: &'a str) -> Option<(Handle, &'a str)>
    ensures { option_map plain_rest result ≡ first_of (W.handle_of words.now) rest.now }
{
    let (handle, text) = cut(rest)?;
    Some((words.handle(handle)?, text))
}

/// Parses the arguments `H NAME`.
///
/// # Errors
///
/// `AllocError`, if there is no memory for the name.
pub(crate) fn handle_and_name<W: Words>(
    alloc: Global,
    words: &W,
    rest: &str,
) -> Result<Option<(Handle, Text)>, AllocError>
    ensures { IfOk result (λ found. found ≡ then_read (W.handle_of words.now) text_of rest.now) }
{
    let Some((handle, name)) = handle_and_text(words, rest) else {
        return Ok(None);
    };
    Ok(Some((handle, Text::from_str(alloc, name)?)))
}

/// Parses the arguments `H N`.
pub(crate) fn handle_and_number<W: Words>(words: &W, rest: &str) -> Option<(Handle, Step)>
    ensures { result ≡ then_read (W.handle_of words.now) number_of rest.now }
{
    let (item, step) = handle_and_text(words, rest)?;
    Some((item, number(step)?))
}

/// Parses the arguments `H MAX`.
fn handle_and_bound<W: Words>(words: &W, rest: &str) -> Option<(Handle, Option<Step>)>
    ensures { result ≡ then_read (W.handle_of words.now) bound_of rest.now }
{
    let (item, max) = handle_and_text(words, rest)?;
    Some((item, bound(max)?))
}

/// Parses the arguments `H MAX UNIT`.
#[tactic(auto, unfolding(crate::specs::Reading::first_of))]
fn init<W: Words>(
    alloc: Global,
    words: &W,
    labels: &mut Labels,
    rest: &str,
) -> Result<Option<EventLine>, AllocError>
    ensures { Reads result (init_of (W.handle_of words.now) rest.now) }
{
    let Some((item, rest)) = handle_and_text(words, rest) else {
        return Ok(None);
    };
    let Some((max, unit)) = cut(rest) else {
        return Ok(None);
    };
    let Some(max) = bound(max) else {
        return Ok(None);
    };
    match labels.unit_of(alloc, unit)? {
        Some(unit) => Ok(Some(EventLine::Change(item, Change::Init { max, unit }))),
        None => Ok(None),
    }
}

/// Parses the arguments `H AT TEXT`.
#[tactic(auto, unfolding(crate::specs::Reading::first_of))]
fn message<W: Words>(
    alloc: Global,
    words: &W,
    level: MessageLevel,
    rest: &str,
) -> Result<Option<EventLine>, AllocError>
    ensures { Reads result
        (message_of level (W.handle_of words.now) (W.moment_of words.now) rest.now) }
{
    let Some((item, rest)) = handle_and_text(words, rest) else {
        return Ok(None);
    };
    let Some((at, text)) = cut(rest) else {
        return Ok(None);
    };
    let Some(at) = words.moment(at) else {
        return Ok(None);
    };
    let text = Text::from_str(alloc, text)?;
    let message = Change::Message { at, level, text };
    Ok(Some(EventLine::Change(item, message)))
}

/// Parses the arguments `AT COLUMNS ROWS`.
#[tactic(auto, unfolding(crate::specs::Reading::first_of))]
fn resize<W: Words>(words: &W, rest: &str) -> Option<EventLine>
    ensures { Says result (resize_of (W.moment_of words.now) rest.now) }
{
    let (at, rest) = cut(rest)?;
    let (columns, rows) = cut(rest)?;
    Some(EventLine::Resize {
        at: words.moment(at)?,
        columns: small(columns)?,
        rows: small(rows)?,
    })
}

/// Parses a number of 16 bits.
pub(crate) fn small(word: &str) -> Option<u16>
    ensures { result ≡ small_of word.now }
{
    u16::try_from(number(word)?).ok()
}
