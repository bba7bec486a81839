//! The recording of a run: the events of its tree as event lines, and a tick for each frame.
use prodash::Text;
use prodash::progress::UNKNOWN;
use prodash::time::{Clock, Moment};
use prodash::tree::{Event, Handle};
use prodash_core::tree::RootOptions;
use prodash_script::{Change, to_line};
use std::alloc::{AllocError, Global};
use std::io;
use std::io::Write;

/// The first line of a recording, which says what it is. In a replay it changes nothing, since the
/// root has no name.
static BEGIN: &str = "name 0 prodash recording 1\n";

/// A recording, or none.
#[derive(Drop)]
pub struct Recording<W: Write + Drop> {
    alloc: Global,
    /// What it is written to; nothing if there is no recording, or if it is broken.
    out: Option<W>,
    /// Why it is broken, if it is.
    error: Option<io::Error>,
    /// The lines that aren't written yet, each with a line feed.
    lines: String,
    /// How many items were added, which is the handle that a replay has made last.
    made: Handle,
    /// The moment at which the next frame is due.
    due: Moment,
    /// The nanoseconds between frames.
    interval: u64,
    /// How many messages were sent since the latest tick.
    messages: usize,
}

impl<W: Write + Drop> Recording<W> {
    /// Returns a recording that begins now, with `interval` nanoseconds between frames.
    ///
    /// # Errors
    ///
    /// `AllocError`, if there is no memory for its first line.
    pub fn new(
        alloc: Global,
        out: Option<W>,
        now: Moment,
        interval: u64,
    ) -> Result<Recording<W>, AllocError> {
        let mut lines = String::new(alloc);
        if out.is_some() {
            lines.push_str(BEGIN)?;
        }
        Ok(Recording {
            alloc,
            out,
            error: None,
            lines,
            made: 0,
            due: now,
            interval,
            messages: 0,
        })
    }

    /// Returns why a write has failed, if one has. Nothing is recorded after it.
    pub fn error(&self) -> Option<io::Error> {
        self.error
    }

    /// Returns whether there are lines that aren't written yet.
    pub fn has_unwritten_lines(&self) -> bool {
        !self.lines.is_empty()
    }

    /// Records an item that was added below another one, and returns its handle in a replay. The
    /// handle of the root is 0.
    ///
    /// # Errors
    ///
    /// `AllocError`, if there is no memory for its line.
    pub fn append_item(&mut self, parent: Handle, name: Text) -> Result<Handle, AllocError> {
        self.append_event(&Event::AddChild {
            parent,
            name,
            id: UNKNOWN,
        })?;
        self.made = self.made.saturating_add(1);
        Ok(self.made)
    }

    /// Records a change of an item. `item` is its handle in a replay.
    ///
    /// # Errors
    ///
    /// `AllocError`, if there is no memory for its line.
    pub fn append_change<C: Into<Change> + Drop>(
        &mut self,
        item: Handle,
        change: C,
    ) -> Result<(), AllocError> {
        if self.out.is_none() {
            return Ok(());
        }
        let change: Change = change.into();
        self.append_event(&change.into_event(item))
    }

    /// Records an event that the tree has accepted, and that adds no item. It names its item by the
    /// handle in a replay.
    ///
    /// # Errors
    ///
    /// `AllocError`, if there is no memory for its line.
    pub fn append_event(&mut self, event: &Event) -> Result<(), AllocError> {
        if self.out.is_none() {
            return Ok(());
        }
        // each event of a script has a line
        let Some(line) = to_line(self.alloc, event)? else {
            return Ok(());
        };
        self.lines.push_str(line.as_str())?;
        self.lines.push('\n')?;
        if let Event::Message { .. } = event {
            self.messages = self.messages.saturating_add(1);
        }
        Ok(())
    }

    /// Records a size of the terminal, in columns and rows.
    ///
    /// # Errors
    ///
    /// `AllocError`, if there is no memory for its line.
    pub fn append_resize(&mut self, at: Moment, columns: u16, rows: u16) -> Result<(), AllocError> {
        self.append_event(&Event::Resize {
            at,
            show: true,
            columns,
            rows,
        })
    }

    /// Records a frame if one was due up to now, or if a replay keeps no more messages.
    ///
    /// # Errors
    ///
    /// `AllocError`, if there is no memory for its line.
    pub fn append_due_frame<K: Clock>(&mut self, clock: &K) -> Result<(), AllocError> {
        if self.out.is_none() {
            return Ok(());
        }
        let (due, now) = (self.due, clock.now());
        if now >= due {
            self.due = next_due(due, self.interval, now);
            self.append_tick(due)?;
        } else if self.messages >= RootOptions::default().message_buffer_capacity {
            self.append_tick(now)?;
        }
        Ok(())
    }

    /// Records a frame of a moment.
    fn append_tick(&mut self, at: Moment) -> Result<(), AllocError> {
        self.messages = 0;
        self.append_event(&Event::Tick { at, show: true })
    }

    /// Records the last frame and the closing frame, and writes all.
    ///
    /// # Errors
    ///
    /// `AllocError`, if there is no memory for their lines.
    pub fn finish<K: Clock>(&mut self, clock: &K) -> Result<(), AllocError> {
        let at = clock.now();
        self.append_tick(at)?;
        self.append_event(&Event::Quit { at })?;
        self.write_lines();
        Ok(())
    }

    /// Writes the lines that aren't written yet. The recording ends if they can't be written.
    pub fn write_lines(&mut self) {
        let Some(out) = &mut self.out else {
            return;
        };
        if let Err(error) = write_and_flush(out, self.lines.as_bytes()) {
            self.out = None;
            self.error = Some(error);
        }
        self.lines.clear();
    }
}

/// Writes all bytes, and flushes.
fn write_and_flush<W: Write>(out: &mut W, bytes: &[u8]) -> io::Result<()> {
    out.write_all(bytes)?;
    out.flush()
}

/// Returns the moment of the first frame after now, if one is due at the moment `due` and another
/// every `interval` nanoseconds, where 0 counts as 1.
fn next_due(due: Moment, interval: u64, now: Moment) -> Moment {
    let interval = interval.max(1);
    let passed = now.saturating_sub(due) / interval;
    due.saturating_add(passed.saturating_add(1).saturating_mul(interval))
}
