//! Texts as they are drawn: by a defensive renderer without unsafe characters.
ghost use Rattle.std.specs.Prelude.{◌≡◌, chars, IfOk};
ghost use Rattle.std.specs.List.{list_any};
ghost use Rattle.prodash_line.specs.DrawnLines.{safe_char, drawn_chars};
ghost use Rattle.prodash_line.specs.UnsafeCharacters.{is_unsafe};
ghost use Rattle.prodash_line.specs.plumbing.Writing.{IsMeasured};

use crate::render::line::draw::measured_names::{MeasuredNames, is_short};
use crate::render::line::draw::text::{printable_width, text_width};
use std::alloc::AllocError;

/// A text as it is drawn.
#[derive(Clone, Copy, Drop)]
pub(crate) struct DrawnText<'a> {
    pub(crate) text: &'a str,
    /// The width of the text in columns, at most 65535.
    pub(crate) width: u16,
}

/// Whether a character could change what is shown of other text, or can't be seen: a control
/// character, one with Unicode's property Bidi_Control, the line separator, the paragraph
/// separator, or the byte order mark.
fn is_unsafe(c: char) -> bool
    ensures { result ≡ is_unsafe c }
{
    match c {
        '\u{61C}' | '\u{200E}'..='\u{200F}' => true,
        '\u{202A}'..='\u{202E}' | '\u{2066}'..='\u{2069}' => true,
        '\u{2028}'..='\u{2029}' | '\u{FEFF}' => true,
        _ => c.is_control(),
    }
}

/// Whether a text has an unsafe character.
fn has_unsafe(text: &str) -> bool
    ensures { result ≡ list_any is_unsafe (chars text.now) }
{
    text.chars().any(is_unsafe)
}

/// Returns a character as a defensive renderer draws it: U+FFFD in place of a control character, a
/// character with Unicode's property Bidi_Control, the line separator, the paragraph separator and
/// the byte order mark; any other character itself.
pub fn safe_char(c: char) -> char
    ensures { result ≡ safe_char c }
{
    if is_unsafe(c) { '\u{FFFD}' } else { c }
}

/// Returns a text as it is drawn. A defensive renderer draws U+FFFD in place of each unsafe
/// character; such a text is written to `replaced`. Fails if out of memory.
#[inline(always)]
pub(crate) fn drawn_text<'a>(
    defensive: bool,
    text: &'a str,
    replaced: &'a mut String,
) -> Result<DrawnText<'a>, AllocError>
    ensures text { IfOk result (λ drawn. chars drawn.text.now ≡ drawn_chars defensive text.now) }
    ensures width { IfOk result IsMeasured }
{
    match printable_width(text) {
        Some(width) => Ok(DrawnText { text, width }),
        None => drawn_other_text(defensive, text, replaced),
    }
}

/// Does what `drawn_text` does for a text with characters other than printable ASCII ones.
#[cold]
#[inline(never)]
fn drawn_other_text<'a>(
    defensive: bool,
    text: &'a str,
    replaced: &'a mut String,
) -> Result<DrawnText<'a>, AllocError>
    ensures text { IfOk result (λ drawn. chars drawn.text.now ≡ drawn_chars defensive text.now) }
    ensures width { IfOk result IsMeasured }
{
    if !defensive || !has_unsafe(text) {
        return Ok(DrawnText {
            text,
            width: text_width(text),
        });
    }
    replaced.clear();
    for c in text.chars() {
        replaced.push(safe_char(c))?;
    }
    let drawn = replaced.as_str();
    Ok(DrawnText {
        text: drawn,
        width: text_width(drawn),
    })
}

/// Does what `drawn_text` does for a name of a row. It isn't measured again if it is the one whose
/// width was kept at its place.
#[inline(always)]
pub(crate) fn drawn_name<'a>(
    defensive: bool,
    name: &'a str,
    replaced: &'a mut String,
    measured: &mut MeasuredNames,
) -> Result<DrawnText<'a>, AllocError>
    ensures text { IfOk result (λ drawn. chars drawn.text.now ≡ drawn_chars defensive name.now) }
    ensures width { IfOk result IsMeasured }
{
    match measured.next_width(name) {
        Some(width) => Ok(DrawnText { text: name, width }),
        None => drawn_new_name(defensive, name, replaced, measured),
    }
}

/// Does what `drawn_name` does for a name whose width isn't known. The width is kept, unless
/// the name is long or has unsafe characters.
#[cold]
#[inline(never)]
fn drawn_new_name<'a>(
    defensive: bool,
    name: &'a str,
    replaced: &'a mut String,
    measured: &mut MeasuredNames,
) -> Result<DrawnText<'a>, AllocError>
    ensures text { IfOk result (λ drawn. chars drawn.text.now ≡ drawn_chars defensive name.now) }
    ensures width { IfOk result IsMeasured }
{
    if !is_short(name) || has_unsafe(name) {
        return drawn_other_text(defensive, name, replaced);
    }
    let width = text_width(name);
    measured.keep(name, width)?;
    Ok(DrawnText { text: name, width })
}
