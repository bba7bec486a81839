ghost use Rattle.std.specs.Prelude.{◌<◌};

use crate::replay::command::FrameOptions;
use crate::replay::lines::{Apply, apply_lines};
use prodash_base::Refusal;
use prodash_core::tree::{Event, Reply, RootOptions, Session, SessionOptions};
use prodash_line::render::line::draw::{self, MemoryScreen};
use prodash_line::render::line::page::{Cell, Page, UnicodeWidth, read};
use prodash_programs::Fault;
use std::alloc::{AllocError, Global};
use std::io::Read;

/// A session, and the screen with the bytes of its frames.
#[derive(Drop)]
struct Replayed {
    session: Session,
    screen: MemoryScreen,
}

/// Returns a screen with the bytes of all frames that the events of the input draw.
pub(super) fn drawn<R: Read>(
    alloc: Global,
    options: &FrameOptions,
    input: &mut R,
) -> Result<MemoryScreen, Fault> {
    let mut replayed = Replayed::new(alloc, options)?;
    apply_lines(alloc, input, options.any_unit, &mut replayed)?;
    Ok(replayed.screen)
}

impl Replayed {
    /// Returns a session of an empty tree. It has drawn no frame.
    fn new(alloc: Global, options: &FrameOptions) -> Result<Replayed, Fault> {
        let session = SessionOptions {
            root: RootOptions::default(),
            draw: draw::Options {
                level_filter: None,
                terminal_dimensions: (options.columns, options.rows),
                keep_running_if_progress_is_empty: true,
                output_is_terminal: true,
                colored: options.colored,
                timestamp: false,
                hide_cursor: false,
                defensive: options.defensive,
                synchronized: false,
                whole_messages: false,
                bare_without_origin: false,
                bar_columns: None,
                ascii: false,
                times: options.times,
                prefer_running: options.prefer_running,
            },
            throughput: true,
        };
        Ok(Replayed {
            session: Session::new(alloc, &session)?,
            screen: MemoryScreen::new(alloc, 0)?,
        })
    }
}

impl Apply for Replayed {
    type Line = Event;

    /// Applies an event. One that is refused, unless for want of memory, is passed over.
    fn apply(&mut self, alloc: Global, event: Event) -> Result<(), Fault> {
        match self.session.apply(alloc, &event, &mut self.screen) {
            // A `MemoryScreen` breaks only if it can't grow.
            Reply::Refused(Refusal::Memory) | Reply::Refused(Refusal::Broken) => Err(Fault::Memory),
            _ => Ok(()),
        }
    }
}

/// Plays the bytes on a new page, and returns its rows, each with a line feed.
pub(super) fn rows_written(
    alloc: Global,
    options: &FrameOptions,
    bytes: &[u8],
) -> Result<Vec<u8>, Fault> {
    let mut page = Page::new(alloc, options.columns, options.rows)?;
    for sign in &read(alloc, bytes)? {
        page.apply(alloc, &UnicodeWidth, sign)?;
    }
    let mut text = String::new(alloc);
    for n in 0..page.rows() {
        if let Some(row) = page.row(n) {
            push_trimmed(&mut text, row)?;
        }
    }
    Ok(text.into_bytes())
}

/// Appends a row without trailing blanks, and a line feed.
fn push_trimmed(out: &mut String, row: &[Cell]) -> Result<(), AllocError> {
    let shown = row
        .iter()
        .rposition(|cell| !is_blank(cell))
        .map_or(0, |last| last + 1);
    for cell in &row[..shown] {
        if let Cell::Holds(c, joined) = cell {
            out.push(*c)?;
            for other in joined.as_slice() {
                out.push(*other)?;
            }
        }
    }
    out.push('\n')
}

/// Whether a cell is blank.
fn is_blank(cell: &Cell) -> bool {
    match cell {
        Cell::Holds(c, joined) => *c == ' ' && joined.as_slice().is_empty(),
        Cell::Half => false,
    }
}
