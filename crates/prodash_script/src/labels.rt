//! The words of units, whose names are arbitrary.
ghost use Rattle.std.specs.Prelude.{◌≡◌, ℕ, IfOk, List, [], OnErr, map, option_map, true, false};
ghost use Rattle.std.specs.List.{list_all};
ghost use Rattle.prodash_script.specs.Units.{is_among, is_name_byte, is_new_label, is_new_name, is_unit_name, is_unit_word, kind_in, line_name, name_and_mode, names_after, names_with, script_unit_in, stripped_by, unit_in, with_name};
ghost use Rattle.prodash_script.specs.Words.{after_prefix, before_suffix, plain_kind, plain_unit};
ghost use Rattle.prodash_script.specs.plumbing.Names.{FindsName, KeepsName};

use crate::script::after;
use indexmap::IndexSet;
use prodash_base::unit::display::Mode;
use prodash_base::unit::human::Formatter;
use prodash_base::unit::{Bytes, Duration, Human, Kind, Range, Unit, dynamic, dynamic_and_mode};
use std::alloc::{AllocError, Global};
use std::marker::Model;
use std::str;

/// The names of units that were kept, each once. They are kept until the program ends.
#[derive(Drop)]
pub struct Labels {
    names: IndexSet<&'static str>,
}

impl Model for Labels {
    ghost Value = { List (List ℕ) };

    ghost view = { λ labels. map (λ name. name.now) labels.names.keys };
}

impl Labels {
    /// Returns an empty list of names.
    pub fn new(alloc: Global) -> Labels
        ensures { result ≡ [] }
    {
        Labels {
            names: IndexSet::new(alloc),
        }
    }

    /// Parses the word of a unit; `-` is no unit. Returns `None` if it is not such a word.
    ///
    /// # Errors
    ///
    /// `AllocError`, if there is no memory for the name of the unit, which isn't kept yet.
    pub fn unit_of(&mut self, alloc: Global, word: &str) -> Result<Option<Option<Unit>>, AllocError>
        ensures ok { IfOk result (λ found.
            option_map (option_map plain_unit) found ≡ unit_in word.now) }
        ensures names { IfOk result (λ _. self.new ≡ names_after self.old (unit_in word.now)) }
        ensures err { OnErr result (self.new ≡ self.old) }
        ensures refused { OnErr result (is_new_name self.old (unit_in word.now) ≡ true) }
    {
        if word == "-" {
            return Ok(Some(None));
        }
        let (name, mode) = name_and_mode(word);
        if !is_unit_name(name) {
            return Ok(None);
        }
        let kind = self.kind_of(alloc, name)?;
        Ok(Some(Some(shown_by(kind, mode))))
    }

    /// Parses the word of a unit in a script, where `steps` is a label, and `range:steps` the range
    /// that lines of events call `steps`. `-` is no unit. Returns `None` if it is not such a word.
    ///
    /// # Errors
    ///
    /// `AllocError`, if there is no memory for the name of the unit, which isn't kept yet.
    pub fn script_unit_of(
        &mut self,
        alloc: Global,
        word: &str,
    ) -> Result<Option<Option<Unit>>, AllocError>
        ensures ok { IfOk result (λ u.
            option_map (option_map plain_unit) u ≡ script_unit_in word.now) }
        ensures names { IfOk result (λ _.
            self.new ≡ names_after self.old (script_unit_in word.now)) }
        ensures err { OnErr result (self.new ≡ self.old) }
        ensures refused { OnErr result (is_new_name self.old (script_unit_in word.now) ≡ true) }
    {
        if word == "-" {
            return Ok(Some(None));
        }
        let (name, mode) = name_and_mode(word);
        if !is_unit_name(name) {
            return Ok(None);
        }
        let kind = self.kind_of(alloc, line_name(name))?;
        Ok(Some(Some(shown_by(kind, mode))))
    }

    /// Returns the kind of unit that a name says.
    fn kind_of(&mut self, alloc: Global, name: &str) -> Result<Kind, AllocError>
        ensures ok { IfOk result (λ kind. plain_kind kind ≡ kind_in name.now) }
        ensures names { IfOk result (λ _. self.new ≡ names_with self.old (kind_in name.now)) }
        ensures err { OnErr result (self.new ≡ self.old) }
        ensures refused { OnErr result (is_new_label self.old (kind_in name.now) ≡ true) }
    {
        Ok(match name {
            "steps" => Kind::Range(Range::new("steps")),
            "bytes" => Kind::Bytes(Bytes),
            "duration" => Kind::Duration(Duration),
            "objects" => Kind::Human(Human::new(Formatter::default(), "objects")),
            "label:steps" => Kind::Label(self.keep(alloc, "steps")?),
            _ => Kind::Label(self.keep(alloc, name)?),
        })
    }

    /// Returns the kept copy of a name, which it makes if there is none.
    fn keep(&mut self, alloc: Global, name: &str) -> Result<&'static str, AllocError>
        ensures ok { IfOk result (λ kept. kept.now ≡ name.now) }
        ensures names { IfOk result (λ _. self.new ≡ with_name name.now self.old) }
        ensures err { OnErr result (self.new ≡ self.old) }
        ensures refused { OnErr result (is_among name.now self.old ≡ false) }
    {
        if let Some(kept) = find(&self.names, name) {
            return Ok(kept);
        }
        let kept = leak(alloc, name)?;
        insert(&mut self.names, kept)?;
        Ok(kept)
    }
}

/// Returns a unit of a kind and a mode.
fn shown_by(kind: Kind, mode: Option<Mode>) -> Unit
    ensures { result ≡ record { kind = kind; mode = mode } }
{
    match mode {
        Some(mode) => dynamic_and_mode(kind, mode),
        None => dynamic(kind),
    }
}

/// Returns the name in lines of events of a kind of unit with this name in scripts.
fn line_name(name: &str) -> &str
    ensures { result.now ≡ line_name name.now }
{
    match name {
        "steps" => "label:steps",
        "range:steps" => "steps",
        _ => name,
    }
}

/// Returns the name that is equal to a text, if there is one.
fn find(names: &IndexSet<&'static str>, text: &str) -> Option<&'static str>
    ensures { FindsName names.now.keys text.now result }
{
    names.get(text).copied()
}

/// Adds a name, unless an equal one is there.
fn insert(names: &mut IndexSet<&'static str>, name: &'static str) -> Result<(), AllocError>
    ensures ok { IfOk result (λ _. KeepsName names.old.keys name.now names.new.keys) }
    ensures err { OnErr result (names.new.keys ≡ names.old.keys) }
{
    names.insert(name)?;
    Ok(())
}

/// Returns a copy of a text that is never freed.
fn leak(alloc: Global, text: &str) -> Result<&'static str, AllocError>
    ensures { IfOk result (λ kept. kept.now ≡ text.now) }
{
    let bytes: &'static [u8] = String::from_str(alloc, text)?.into_bytes().leak();
    match str::from_utf8(bytes) {
        Ok(kept) => Ok(kept),
        Err(_) => unreachable!(),
    }
}

/// Returns whether a word is that of a unit, or `-`.
pub(crate) fn is_unit(word: &str) -> bool
    ensures { result ≡ is_unit_word word.now }
{
    word == "-" || is_unit_name(name_and_mode(word).0)
}

/// Returns whether a text is a unit's name.
pub(crate) fn is_unit_name(name: &str) -> bool
    ensures { result ≡ is_unit_name name.now }
{
    !name.is_empty() && name != "-" && has_no_signs(name)
}

/// Returns whether a text has no space, no `%` and no `/`.
fn has_no_signs(text: &str) -> bool
    ensures { result ≡ list_all is_name_byte text.now }
{
    text.bytes().all(|b| b != b' ' && b != b'%' && b != b'/')
}

/// Returns a word without the signs before its name, or else those after it, and what these show.
pub(crate) fn name_and_mode(word: &str) -> (&str, Option<Mode>)
    ensures { (result.0.now, result.1) ≡ name_and_mode word.now }
{
    if let Some((name, mode)) = signs_before(word) {
        return (name, Some(mode.show_before_value()));
    }
    match signs_after(word) {
        Some((name, mode)) => (name, Some(mode)),
        None => (word, None),
    }
}

/// Returns a word without the signs that it begins with, and what they show.
fn signs_before(word: &str) -> Option<(&str, Mode)>
    ensures { option_map (λ found. (found.0.now, found.1)) result
        ≡ stripped_by after_prefix word.now }
{
    if let Some(name) = after(word, "%/s") {
        return Some((name, Mode::with_percentage().and_throughput()));
    }
    if let Some(name) = after(word, "%") {
        return Some((name, Mode::with_percentage()));
    }
    let name = after(word, "/s")?;
    Some((name, Mode::with_throughput()))
}

/// Returns a word without the signs that it ends with, and what they show.
fn signs_after(word: &str) -> Option<(&str, Mode)>
    ensures { option_map (λ found. (found.0.now, found.1)) result
        ≡ stripped_by before_suffix word.now }
{
    if let Some(name) = before(word, "%/s") {
        return Some((name, Mode::with_percentage().and_throughput()));
    }
    if let Some(name) = before(word, "%") {
        return Some((name, Mode::with_percentage()));
    }
    let name = before(word, "/s")?;
    Some((name, Mode::with_throughput()))
}

/// Returns what comes before a suffix, if a text ends with it.
fn before<'a>(text: &'a str, suffix: &str) -> Option<&'a str>
    ensures { option_map (λ front. front.now) result ≡ before_suffix suffix.now text.now }
{
    text.strip_suffix(suffix)
}
