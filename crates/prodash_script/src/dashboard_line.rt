ghost use Rattle.std.specs.Prelude.{◌≡◌, IfOk, OnErr, OnOk};
ghost use Rattle.prodash_script.specs.DashboardLines.{ChangesInformation, IsEventOf, SetsInformation, char_key_of, interrupt_of, key_of, lone_line, only_char_of, plain_lines, read_dashboard_line, window_of};
ghost use Rattle.prodash_script.specs.plumbing.AddedLines.{AddsLine};

use crate::reading::{cut, small};
use crate::script::after;
use prodash_base::Text;
use prodash_core::render::tui::{Event, Interrupt, Key, KeyCode, Line, Rect};
use std::alloc::{AllocError, Global};

/// What a line for a dashboard says.
#[derive(Debug, Drop)]
pub enum DashboardLine {
    /// A key was pressed.
    Press(Key),
    /// The dashboard has this title.
    SetTitle(Text),
    /// The dashboard fills this part of the terminal.
    SetWindow(Rect),
    /// When a request to interrupt stops the dashboard.
    SetInterruptMode(Interrupt),
    /// The information has one more title.
    AddTitle(Text),
    /// The information has one more line of text.
    AddText(Text),
    /// The information has no lines.
    ClearInformation,
}

impl DashboardLine {
    /// Returns the event of the line. A line that changes the information changes `information`,
    /// and its event has a copy of that.
    ///
    /// # Errors
    ///
    /// `AllocError`, if there is no memory for the information. It is then as it was.
    pub fn into_event(self, alloc: Global, information: &mut Vec<Line>) -> Result<Event, AllocError>
        ensures event { IfOk result (IsEventOf self (plain_lines information.new.items)) }
        ensures ok { OnOk result (ChangesInformation self information.old information.new) }
        ensures err { OnErr result (information.new.items ≡ information.old.items) }
    {
        match self {
            DashboardLine::Press(key) => Ok(Event::Input(key)),
            DashboardLine::SetTitle(title) => Ok(Event::SetTitle(title.into_string()?)),
            DashboardLine::SetWindow(area) => Ok(Event::SetWindowSize(area)),
            DashboardLine::SetInterruptMode(mode) => Ok(Event::SetInterruptMode(mode)),
            DashboardLine::AddTitle(text) => join(information, Line::Title(text.into_string()?)),
            DashboardLine::AddText(text) => join(information, Line::Text(text.into_string()?)),
            DashboardLine::ClearInformation => {
                information.clear();
                Ok(Event::SetInformation(Vec::new(alloc)))
            }
        }
    }
}

/// Adds a line to the information, and returns the event that sets it.
fn join(information: &mut Vec<Line>, line: Line) -> Result<Event, AllocError>
    ensures event { IfOk result (SetsInformation (plain_lines information.new.items)) }
    ensures ok { OnOk result (AddsLine line information.old information.new) }
    ensures err { OnErr result (information.new.items ≡ information.old.items) }
{
    information.push(line)?;
    let copy: Result<_, _> = information.clone();
    match copy {
        Ok(lines) => Ok(Event::SetInformation(lines)),
        Err(error) => {
            information.pop();
            Err(error)
        }
    }
}

/// Parses a line for a dashboard. Returns `None` if the line isn't one.
///
/// ```rust
/// let line = parse_dashboard_line(alloc, "title Release 2")?;
/// assert!(rt; matches!(line, Some(DashboardLine::SetTitle(_))));
/// ```
///
/// # Errors
///
/// `AllocError`, if there is no memory for the text of the line.
pub fn parse_dashboard_line(alloc: Global, line: &str) -> Result<Option<DashboardLine>, AllocError>
    ensures { IfOk result (λ found. found ≡ read_dashboard_line line.now) }
{
    let Some((word, rest)) = cut(line) else {
        return Ok(lone_line(line));
    };
    Ok(match word {
        "title" => Some(DashboardLine::SetTitle(Text::from_str(alloc, rest)?)),
        "info_title" => Some(DashboardLine::AddTitle(Text::from_str(alloc, rest)?)),
        "info_text" => Some(DashboardLine::AddText(Text::from_str(alloc, rest)?)),
        "key" => key(rest).map(DashboardLine::Press),
        "window" => window(rest).map(DashboardLine::SetWindow),
        "interrupt" => interrupt(rest).map(DashboardLine::SetInterruptMode),
        _ => None,
    })
}

/// Parses a line that is a single word.
fn lone_line(word: &str) -> Option<DashboardLine>
    ensures { result ≡ lone_line word.now }
{
    match word {
        "info_clear" => Some(DashboardLine::ClearInformation),
        _ => None,
    }
}

/// Parses the name of a key: `esc`, `other`, a character, or a character after `ctrl-`.
fn key(name: &str) -> Option<Key>
    ensures { result ≡ key_of name.now }
{
    if let Some(name) = after(name, "ctrl-") {
        return char_key(name, true);
    }
    let code = match name {
        "esc" => KeyCode::Esc,
        "other" => KeyCode::Other,
        _ => return char_key(name, false),
    };
    Some(Key {
        code,
        control: false,
        release: false,
    })
}

/// Parses the key of a character.
fn char_key(name: &str, control: bool) -> Option<Key>
    ensures { result ≡ char_key_of control name.now }
{
    let code = KeyCode::Char(only_char(name)?);
    Some(Key {
        code,
        control,
        release: false,
    })
}

/// Returns the character of a text that has exactly one.
fn only_char(text: &str) -> Option<char>
    ensures { result ≡ only_char_of text.now }
{
    let mut chars = text.chars();
    let c = chars.next()?;
    match chars.next() {
        Some(_) => None,
        None => Some(c),
    }
}

/// Parses the arguments `X Y COLUMNS ROWS`.
#[tactic(auto, unfolding(crate::specs::Reading::first_of))]
fn window(rest: &str) -> Option<Rect>
    ensures { result ≡ window_of rest.now }
{
    let (x, rest) = cut(rest)?;
    let (y, rest) = cut(rest)?;
    let (columns, rows) = cut(rest)?;
    Some(Rect {
        x: small(x)?,
        y: small(y)?,
        width: small(columns)?,
        height: small(rows)?,
    })
}

/// Parses when a request to interrupt stops a dashboard.
fn interrupt(word: &str) -> Option<Interrupt>
    ensures { result ≡ interrupt_of word.now }
{
    match word {
        "instantly" => Some(Interrupt::Instantly),
        "deferred" => Some(Interrupt::Deferred),
        _ => None,
    }
}
