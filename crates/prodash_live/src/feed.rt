//! The lines of an input, served as they arrive.
use crate::failure::Failure;
use crate::items::Items;
use crate::line_fault::{LineFault, Unserved, fault_text};
use crate::options::Options;
use crate::shown::Shown;
use crate::summary::{End, Ended, Summary};
use prodash::Text;
use prodash::messages::MessageLevel;
use prodash::progress::Row;
use prodash::time::{Clock, Moment};
use prodash::tree::Handle;
use prodash_script::{
    Change, Command, DashboardLine, Labels, Lines, Next, parse_command, parse_dashboard_line,
};
use std::alloc::{AllocError, Global};
use std::io::{self, Read, Write};
use std::str;
use std::sync::Wait;
use std::thread::Threads;

/// How an input was read.
#[derive(Drop)]
pub enum Outcome {
    /// To its end. Holds the number of faulty lines.
    Ended(u64),
    /// To its end, without a faulty line, and an item that had to hasn't finished.
    Unfinished,
    /// Up to its first faulty line, of which this is said.
    Stopped(String),
}

/// What the lines of an input change: the items, and the display of them.
#[derive(Drop)]
pub struct Feed<'a, R: Wait + Threads + Clone + Drop, O: Write + Drop, W: Write + Drop, K: Clock> {
    rt: &'a R,
    alloc: Global,
    clock: &'a K,
    items: Items<R, W>,
    display: Shown<R, O>,
    /// How items have come out, if that is to be said or to be a failure.
    summary: Option<Summary>,
    /// Whether it is said.
    has_summary: bool,
    /// Whether an item that hasn't finished is a failure.
    fails_unfinished: bool,
    labels: Labels,
}

impl<'a, R: Wait + Threads + Clone + Drop, O: Write + Drop, W: Write + Drop, K: Clock> Feed<
    'a,
    R,
    O,
    W,
    K,
> {
    /// Returns a feed of these items, and of their display.
    pub fn new(
        rt: &'a R,
        alloc: Global,
        clock: &'a K,
        mut items: Items<R, W>,
        display: Shown<R, O>,
        options: &Options<'_>,
    ) -> Feed<'a, R, O, W, K> {
        let summary = if options.has_summary || options.fails_unfinished {
            Some(Summary::new(alloc, clock.now()))
        } else {
            None
        };
        if display.is_plain() || summary.is_some() {
            items.keep_dropped();
        }
        Feed {
            rt,
            alloc,
            clock,
            items,
            display,
            summary,
            has_summary: options.has_summary,
            fails_unfinished: options.fails_unfinished,
            labels: Labels::new(alloc),
        }
    }

    /// Serves each line of an input, and records what it does. A faulty line is reported in a
    /// message, or ends the program if it is strict. What is recorded is written before more input
    /// is awaited. Once the output is broken no more lines are served.
    ///
    /// # Errors
    ///
    /// The failure that ended it: of the input, or of memory.
    pub fn serve_lines<I: Read + Drop>(
        &mut self,
        input: I,
        is_strict: bool,
    ) -> Result<Outcome, Failure> {
        let mut lines = Lines::new(self.alloc, input);
        let mut faults: u64 = 0;
        let mut number: u64 = 0;
        for _ in 1..u64::MAX {
            if self.display.is_broken() {
                break;
            }
            let next = self.advance(&mut lines)?;
            if next == Next::End {
                break;
            }
            let line = without_return(lines.line());
            let text = str::from_utf8(line).ok();
            if self.serve_relayed(next, text)? {
                continue;
            }
            number = number.saturating_add(1);
            if self.change_step(next, text)? {
                continue;
            }
            let Some(fault) = self.serve_bytes(number, next, line, text)? else {
                continue;
            };
            if is_strict {
                return Ok(Outcome::Stopped(fault));
            }
            faults = faults.saturating_add(1);
            self.report_fault(fault)?;
        }
        Ok(Outcome::Ended(faults))
    }

    /// Reads the next line, and records a frame that was due before it. What is recorded is written
    /// before more input is awaited.
    fn advance<I: Read + Drop>(&mut self, lines: &mut Lines<I>) -> Result<Next, Failure> {
        if !lines.has_line() {
            self.display.write_messages(self.clock)?;
        }
        let recording = self.items.recording();
        if recording.has_unwritten_lines() && !lines.has_line() {
            recording.write_lines();
        }
        let next = match lines.advance() {
            Ok(next) => next,
            Err(error) => return Err(Failure::of_read(error)),
        };
        recording.append_due_frame(self.clock)?;
        Ok(next)
    }

    /// Does what a line says that comes from the program between a script and a dashboard, a key or
    /// the size of the terminal, if it is such a line. Returns whether it is.
    fn serve_relayed(&mut self, next: Next, text: Option<&str>) -> Result<bool, Failure> {
        let Some(line) = text.and_then(|text| text.strip_prefix(RELAYED)) else {
            return Ok(false);
        };
        if next != Next::Line || !self.display.is_dashboard() {
            return Ok(false);
        }
        let now = self.clock.now();
        if let Some(DashboardLine::Press(key)) = parse_dashboard_line(self.alloc, line)? {
            self.display.press(key)?;
        } else if let Command::Size { columns, rows } = self.parse(now, line)? {
            self.set_size(now, columns, rows)?;
        }
        Ok(true)
    }

    /// Parses a line of a script.
    fn parse<'l>(&mut self, now: Moment, line: &'l str) -> Result<Command<'l>, AllocError> {
        parse_command(self.alloc, self.items.names(), &mut self.labels, now, line)
    }

    /// Sets the columns and the rows of the terminal, and records them.
    fn set_size(&mut self, now: Moment, columns: u16, rows: u16) -> Result<(), Failure> {
        self.display.resize(columns, rows)?;
        Ok(self.items.recording().append_resize(now, columns, rows)?)
    }

    /// Changes the step of an item, if a line is UTF-8 and asks for that, as most do. Returns
    /// whether it did.
    fn change_step(&mut self, next: Next, text: Option<&str>) -> Result<bool, Failure> {
        let Some(text) = text else {
            return Ok(false);
        };
        if next == Next::Line
            && let Some(item) = self.items.change_step(text)?
        {
            self.note_change(item)?;
            return Ok(true);
        }
        Ok(false)
    }

    /// Does what a line asks for, with U+FFFD in place of what isn't UTF-8. `text` is the line if
    /// all of it is. Returns what is said of the line, if it is faulty.
    #[inline(never)]
    fn serve_bytes(
        &mut self,
        number: u64,
        next: Next,
        line: &[u8],
        text: Option<&str>,
    ) -> Result<Option<String>, Failure> {
        match text {
            Some(text) => self.serve_text(number, next, text),
            None => {
                let text = String::from_utf8_lossy(self.alloc, line)?;
                self.serve_text(number, next, text.as_str())
            }
        }
    }

    /// Does what a line asks for. Returns what is said of it, if it is faulty.
    fn serve_text(
        &mut self,
        number: u64,
        next: Next,
        line: &str,
    ) -> Result<Option<String>, Failure> {
        match self.serve(next, line) {
            Ok(()) => Ok(None),
            Err(Unserved::Fault(fault)) => Ok(Some(fault_text(self.alloc, number, &fault, line)?)),
            Err(Unserved::Failure(failure)) => Err(failure),
        }
    }

    /// Does what a line asks for, if it was read whole.
    fn serve<'l>(&mut self, next: Next, line: &'l str) -> Result<(), Unserved<'l>> {
        match next {
            Next::Line => self.serve_line(line),
            Next::TooLong => Err(Unserved::Fault(LineFault::TooLong)),
            // `set 1 10` may be the beginning of `set 1 100`
            Next::CutOff => Err(Unserved::Fault(LineFault::CutOff)),
            Next::End => Ok(()),
        }
    }

    /// Does what a whole line asks for.
    fn serve_line<'l>(&mut self, line: &'l str) -> Result<(), Unserved<'l>> {
        let (alloc, now) = (self.alloc, self.clock.now());
        match self.parse(now, line)? {
            Command::Comment => Ok(()),
            Command::Size { columns, rows } => Ok(self.set_size(now, columns, rows)?),
            Command::Add { word, parent, name } => {
                self.items.add(alloc, word, parent, name)?;
                self.note_drop()?;
                let item = self.items.last();
                Ok(self.note_item(item)?)
            }
            Command::Drop(item) => {
                self.items.drop_item(item)?;
                Ok(self.note_drop()?)
            }
            Command::DropRoot => {
                self.display.leave();
                self.display.write_messages(self.clock)?;
                self.items.drop_root()
            }
            Command::Print(text) => {
                self.make_room()?;
                self.items.print(alloc, now, text)
            }
            Command::Change(item, change) => self.change(item, change),
            Command::Fault(mistake) => match parse_dashboard_line(alloc, line)? {
                Some(line) if is_for_scripts(&line) => Ok(self.display.serve_dashboard(line)?),
                _ => Err(Unserved::Fault(LineFault::Mistake(mistake))),
            },
        }
    }

    /// Changes an item, or sends its message, and tells of what that has changed.
    fn change(&mut self, item: Handle, change: Change) -> Result<(), Unserved<'static>> {
        if let Change::Message { .. } = &change {
            self.make_room()?;
        }
        let is_renamed = matches!(&change, Change::SetName(_));
        self.items.change(self.alloc, item, change)?;
        if is_renamed && self.tells() {
            self.note_name(item)?;
        }
        Ok(self.note_change(item)?)
    }

    /// Waits until one more message can be kept. Without the root none is kept.
    fn make_room(&mut self) -> Result<(), Failure> {
        if self.items.has_root() {
            self.display.make_room(self.rt, self.clock)?;
        }
        Ok(())
    }

    /// Returns whether items are told of: in plain lines, or in a summary.
    fn tells(&self) -> bool {
        self.display.is_plain() || self.summary.is_some()
    }

    /// Tells of an item that was added.
    fn note_item(&mut self, item: Handle) -> Result<(), Failure> {
        if self.tells() {
            let row = self.items.row(self.alloc, item)?;
            self.observe(row)?;
        }
        Ok(())
    }

    /// Tells of an item if it has finished.
    #[inline(always)]
    fn note_change(&mut self, item: Handle) -> Result<(), Failure> {
        if self.tells() {
            return self.note_finished(item);
        }
        Ok(())
    }

    /// Tells of an item that has changed, if it has finished, where items are told of.
    #[inline(never)]
    fn note_finished(&mut self, item: Handle) -> Result<(), Failure> {
        let row = self.items.finished_row(self.alloc, item)?;
        self.observe(row)
    }

    /// Tells of the new name of an item, which is among the names of those below it.
    fn note_name(&mut self, item: Handle) -> Result<(), Failure> {
        if self.items.has_children(item) {
            let rows = self.items.rows()?;
            for row in rows.iter() {
                self.rename(row)?;
            }
        } else if let Some(row) = self.items.row(self.alloc, item)? {
            self.rename(&row)?;
        }
        Ok(())
    }

    /// Tells of the item that was dropped, if one was.
    fn note_drop(&mut self) -> Result<(), Failure> {
        match self.items.take_dropped() {
            None => Ok(()),
            Some(row) => self.end(&row, true),
        }
    }

    /// Tells of an item that was added or has finished.
    fn observe(&mut self, row: Option<Row>) -> Result<(), Failure> {
        let Some(row) = row else {
            return Ok(());
        };
        let now = self.clock.now();
        self.display.observe(&row, now)?;
        if let Some(summary) = &mut self.summary {
            summary.observe(&row, now)?;
        }
        Ok(())
    }

    /// Tells of the names of an item.
    fn rename(&mut self, row: &Row) -> Result<(), Failure> {
        self.display.rename(row)?;
        if let Some(summary) = &mut self.summary {
            summary.rename(row)?;
        }
        Ok(())
    }

    /// Tells of an item that was dropped, or is there at the end.
    fn end(&mut self, row: &Row, is_dropped: bool) -> Result<(), Failure> {
        let now = self.clock.now();
        self.display.end(row, now)?;
        if let Some(summary) = &mut self.summary {
            summary.end(row, now, is_dropped)?;
        }
        Ok(())
    }

    /// Tells of the items that are there at the end, and says how items have come out. Returns
    /// whether one that had to hasn't finished.
    fn sum_up(&mut self) -> Result<bool, Failure> {
        if !self.tells() {
            return Ok(false);
        }
        let rows = self.items.rows()?;
        for row in rows.iter() {
            self.end(row, false)?;
        }
        let Some(summary) = self.summary.take() else {
            return Ok(false);
        };
        if self.has_summary {
            self.say(&summary)?;
        }
        let unfinished = summary.unfinished()?;
        if !self.fails_unfinished || unfinished.is_empty() {
            return Ok(false);
        }
        let text = format!(in self.alloc; "ended, unfinished: {unfinished}")?;
        self.report_fault(text)?;
        Ok(true)
    }

    /// Says how items have come out, each in a message.
    fn say(&mut self, summary: &Summary) -> Result<(), Failure> {
        for (_, ended) in summary.outcomes() {
            self.say_outcome(ended)?;
        }
        if let Some(text) = summary.others()? {
            self.send("", MessageLevel::Success, Text::new(text))?;
        }
        Ok(())
    }

    /// Says how an item has come out.
    fn say_outcome(&mut self, ended: &Ended) -> Result<(), Failure> {
        let level = match ended.end {
            End::Finished => MessageLevel::Success,
            End::Unfinished => MessageLevel::Failure,
            End::Unknown => MessageLevel::Info,
        };
        let outcome = &ended.outcome;
        self.send(outcome.label.as_str(), level, outcome.text.clone()?)
    }

    /// Sends a message that belongs to no item.
    fn send(&mut self, origin: &str, level: MessageLevel, text: Text) -> Result<(), Failure> {
        self.make_room()?;
        let now = self.clock.now();
        self.items.send(self.alloc, origin, now, level, text)?;
        Ok(())
    }

    /// Sends a message that says the fault of a line.
    #[cold]
    #[inline(never)]
    fn report_fault(&mut self, text: String) -> Result<(), Failure> {
        self.make_room()?;
        self.items.send_failure(self.alloc, self.clock.now(), text)?;
        Ok(())
    }

    /// Says how items have come out, draws the last frames, ends the renderer, and finishes the
    /// recording. Returns whether an item that had to hasn't finished, and why the recording has
    /// failed, if it has.
    ///
    /// # Errors
    ///
    /// `Memory`, if there is no memory for it.
    pub fn close(mut self) -> Result<(bool, Option<io::Error>), Failure> {
        let is_unfinished = self.sum_up()?;
        let Feed {
            clock,
            mut items,
            display,
            ..
        } = self;
        display.close(clock)?;
        items.recording().finish(clock)?;
        Ok((is_unfinished, items.recording().error()))
    }
}

/// What a line begins with that comes from the program between a script and a dashboard, and not
/// from the script.
static RELAYED: char = '\0';

/// Returns whether a script may have this line. Keys are the user's, and the window is the whole
/// terminal.
fn is_for_scripts(line: &DashboardLine) -> bool {
    match line {
        DashboardLine::SetTitle(_)
        | DashboardLine::AddTitle(_)
        | DashboardLine::AddText(_)
        | DashboardLine::ClearInformation => true,
        DashboardLine::Press(_)
        | DashboardLine::SetWindow(_)
        | DashboardLine::SetInterruptMode(_) => false,
    }
}

/// Returns a line without the carriage return before its line feed.
fn without_return(line: &[u8]) -> &[u8] {
    line.strip_suffix(b"\r").unwrap_or(line)
}
