//! The first mistake in a line of a script.
ghost use Rattle.std.specs.Prelude.{◌≡◌, option_map};
ghost use Rattle.prodash_script.specs.Commands.{handle_in};
ghost use Rattle.prodash_script.specs.Mistakes.{arguments, first_mistake, is_argument, mistake_after, mistake_in, missing, next_word, not_argument, not_command, plain_mistake, split};
ghost use Rattle.prodash_script.specs.Words.{lookup};
ghost use Rattle.prodash_script.specs.plumbing.Commands.{Finds};
ghost use Rattle.prodash_script.specs.plumbing.Readers.{plain_split, plain_text};

use crate::labels::is_unit;
use crate::mistake::{Argument, Mistake};
use crate::reading::{bound, cut};
use crate::script::{Names, after, handle_of, name_of, size_number};
use crate::words::number;

/// Returns the first mistake in a line of a script that is no command.
pub(crate) fn first_mistake<'a>(names: &Names, line: &'a str) -> Mistake<'a>
    ensures { plain_mistake result ≡ first_mistake (handle_in names.now) line.now }
{
    match mistake_in(names, line) {
        Some(mistake) => mistake,
        None => Mistake::UnknownCommand(line),
    }
}

/// Returns the first mistake in a line of a script, or `None` if it has none.
fn mistake_in<'a>(names: &Names, line: &'a str) -> Option<Mistake<'a>>
    ensures { Finds result (mistake_in (handle_in names.now) line.now) }
{
    if let Some(rest) = after(line, "add @") {
        let arguments = [Argument::Word, Argument::Item, Argument::Name];
        return mistake_after(names, &arguments, Some(rest));
    }
    let (word, rest) = split(line);
    match arguments(word) {
        Some(arguments) => mistake_after(names, arguments, rest),
        None => Some(not_command(word)),
    }
}

/// Returns the arguments after a first word, or `None` if no line of a script begins with it.
fn arguments(word: &str) -> Option<&'static [Argument]>
    ensures { option_map (λ all. all.now) result ≡ lookup arguments word.now }
{
    let arguments: &'static [Argument] = match word {
        "add" | "name" => &[Argument::Item, Argument::Name],
        "info" | "done" | "fail" => &[Argument::Item, Argument::Message],
        "print" => &[Argument::Text],
        "drop" | "blocked" | "halted" | "running" => &[Argument::Item],
        "init" => &[Argument::Item, Argument::Max, Argument::Unit],
        "max" => &[Argument::Item, Argument::Max],
        "set" | "inc" => &[Argument::Item, Argument::Number],
        "droproot" => &[],
        "size" => &[Argument::Columns, Argument::Rows],
        _ => return None,
    };
    Some(arguments)
}

/// Returns the mistake of a first word with which no line of a script begins.
fn not_command(word: &str) -> Mistake<'_>
    ensures { plain_mistake result ≡ not_command word.now }
{
    match word {
        "tick" | "hold" | "resize" | "quit" => Mistake::DrawsFrame(word),
        _ => Mistake::UnknownCommand(word),
    }
}

/// Returns the first mistake in what comes after the first space of a line, or `None` in place of
/// that if it has no space.
fn mistake_after<'a>(
    names: &Names,
    arguments: &[Argument],
    rest: Option<&'a str>,
) -> Option<Mistake<'a>>
    ensures { Finds result
        (mistake_after (handle_in names.now) arguments.now (plain_text rest.entry)) }
{
    let Some((first, more)) = arguments.split_first() else {
        return rest.map(|text| Mistake::Extra(text));
    };
    let Some(rest) = rest else {
        return missing(*first);
    };
    let (word, rest) = next_word(more, rest);
    if is_argument(names, *first, word) {
        return mistake_after(names, more, rest);
    }
    Some(not_argument(*first, word))
}

/// Returns the mistake of a line that ends before this argument, unless it may be left out.
fn missing(argument: Argument) -> Option<Mistake<'static>>
    ensures { Finds result (missing argument) }
{
    if argument == Argument::Unit {
        return None;
    }
    Some(Mistake::Missing(argument))
}

/// Returns the next word and what comes after it. The last one ends where the line does.
fn next_word<'a>(more: &[Argument], rest: &'a str) -> (&'a str, Option<&'a str>)
    ensures { plain_split result ≡ next_word more.now rest.now }
{
    if more.is_empty() {
        (rest, None)
    } else {
        split(rest)
    }
}

/// Returns the text before the first space and the text after it, if there is a space.
fn split(text: &str) -> (&str, Option<&str>)
    ensures { plain_split result ≡ split text.now }
{
    match cut(text) {
        Some((word, rest)) => (word, Some(rest)),
        None => (text, None),
    }
}

/// Returns whether a word is such an argument.
fn is_argument(names: &Names, argument: Argument, word: &str) -> bool
    ensures { result ≡ is_argument (handle_in names.now) argument word.now }
{
    match argument {
        Argument::Word => !word.is_empty(),
        Argument::Item => handle_of(names, word).is_some(),
        Argument::Max => bound(word).is_some(),
        // a moment alone has no text
        Argument::Message => bound(word).is_none(),
        Argument::Number => number(word).is_some(),
        Argument::Unit => is_unit(word),
        Argument::Name | Argument::Text => true,
        Argument::Columns | Argument::Rows => size_number(word).is_some(),
    }
}

/// Returns the mistake of a word that is not such an argument.
fn not_argument(argument: Argument, word: &str) -> Mistake<'_>
    ensures { plain_mistake result ≡ not_argument argument word.now }
{
    if argument == Argument::Item && name_of(word).is_some() {
        return Mistake::UnknownItem(word);
    }
    if argument == Argument::Message {
        return Mistake::Missing(argument);
    }
    Mistake::Invalid(argument, word)
}
