ghost use Rattle.std.specs.Prelude.{◌≡◌, ◌↔◌, IsTrue, IfOk, MatchOption, Some};
ghost use Rattle.prodash_script.specs.Lines.{GivesLine};
ghost use Rattle.prodash_script.specs.Units.{NamesUnit, label_name, name_in};
ghost use Rattle.prodash_script.specs.plumbing.Lines.{FindsWordWith};
ghost use Rattle.prodash_script.specs.plumbing.Readers.{IsKindNamed};

use crate::labels::{is_unit_name, name_and_mode};
use prodash_base::unit::human::Formatter;
use prodash_base::unit::{Bytes, Duration, Human, Kind, Range, Unit, dynamic, dynamic_and_mode};
use std::alloc::{AllocError, Global};

/// Returns the word of a unit, or `None` if it has none.
///
/// # Errors
///
/// `AllocError`, if there is no memory for the word.
pub(crate) fn word_of(alloc: Global, unit: Option<Unit>) -> Result<Option<String>, AllocError>
    ensures { GivesLine result (NamesUnit unit) }
{
    let Some(unit) = unit else {
        return Ok(Some(String::from_str(alloc, "-")?));
    };
    if let Some(word) = with_signs(alloc, "%/s", unit)? {
        return Ok(Some(word));
    }
    if let Some(word) = with_signs(alloc, "%", unit)? {
        return Ok(Some(word));
    }
    if let Some(word) = with_signs(alloc, "/s", unit)? {
        return Ok(Some(word));
    }
    with_signs(alloc, "", unit)
}

/// Returns the name of a unit with signs before it, or else after it, if that is its word.
fn with_signs(alloc: Global, signs: &str, unit: Unit) -> Result<Option<String>, AllocError>
    ensures { IfOk result (FindsWordWith signs.now unit) }
{
    let name = name_of(unit.as_display_value());
    let before = format!(in alloc; "{signs}{name}")?;
    if names(before.as_str(), unit) {
        return Ok(Some(before));
    }
    let after = format!(in alloc; "{name}{signs}")?;
    if names(after.as_str(), unit) {
        return Ok(Some(after));
    }
    Ok(None)
}

/// Returns the name of a kind of unit. A scaled one has none, so it has no word.
fn name_of(kind: &Kind) -> &'static str
    ensures { result.now ≡ name_in kind.now }
{
    match kind {
        Kind::Label(name) => label_name(name),
        Kind::Human(human) => human.name,
        Kind::Range(range) => range.name,
        Kind::Bytes(_) => "bytes",
        Kind::Duration(_) => "duration",
        Kind::Scaled(_) => "",
    }
}

/// Returns the name of a label, which is another if the label's own is the name of a range.
fn label_name(name: &'static str) -> &'static str
    ensures { result.now ≡ label_name name.now }
{
    match name {
        "steps" => "label:steps",
        _ => name,
    }
}

/// Returns whether a word is that of a unit.
fn names(word: &str, unit: Unit) -> bool
    ensures { IsTrue result ↔ NamesUnit (Some unit) word.now }
{
    let (name, mode) = name_and_mode(word);
    if word == "-" || !is_unit_name(name) {
        return false;
    }
    let Some(kind) = kind_named(name, *unit.as_display_value()) else {
        return false;
    };
    let named = match mode {
        Some(mode) => dynamic_and_mode(kind, mode),
        None => dynamic(kind),
    };
    named == unit
}

/// Returns the kind of unit that a name says, or `None` if that is a label other than this one.
fn kind_named(name: &str, kind: Kind) -> Option<Kind>
    ensures { MatchOption result (¬ IsKindNamed name.now kind) (IsKindNamed name.now) }
{
    Some(match name {
        "steps" => Kind::Range(Range::new("steps")),
        "bytes" => Kind::Bytes(Bytes),
        "duration" => Kind::Duration(Duration),
        "objects" => Kind::Human(Human::new(Formatter::default(), "objects")),
        "label:steps" => Kind::Label("steps"),
        _ => match kind {
            Kind::Label(label) if label == name => kind,
            _ => return None,
        },
    })
}
