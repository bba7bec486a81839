//! Messages and plain lines, for an output that is no terminal. The reader writes the messages, and
//! a line when an item begins, finishes or is dropped, in the order of the lines that it reads. A
//! thread says each time that some seconds have passed what has changed.
use crate::display::MESSAGES;
use crate::output::{OutputState, Watched};
use prodash::Refusal;
use prodash::messages::Messages;
use prodash::progress::{Row, Rows};
use prodash::render::line::Options;
use prodash::render::line::draw::{self, Input, OverWrite, Screen};
use prodash::render::plain::Plain;
use prodash::time::{Clock, Moment};
use prodash::tree::{Root, WeakHandle};
use std::alloc::Global;
use std::io::Write;
use std::sync::{Arc, Mutex, Wait};
use std::thread::{Builder, Threads};

/// What is written, of which each line is written whole.
#[derive(Drop)]
pub struct Lines<R: Wait + Clone + Drop, O: Write + Drop> {
    alloc: Global,
    root: WeakHandle<R>,
    out: OverWrite<Watched<O>>,
    /// The lines of messages, which are those of frames off a terminal.
    messages: draw::State,
    log: Plain,
    /// Whether nothing is written any more.
    is_closed: bool,
}

impl<R: Wait + Clone + Drop, O: Write + Drop> Lines<R, O> {
    /// Returns what writes on an output from now on, with the lines of messages as in frames.
    pub fn new(
        alloc: Global,
        root: WeakHandle<R>,
        out: Watched<O>,
        rendering: &Options,
        now: Moment,
    ) -> Lines<R, O> {
        let options = draw::Options {
            output_is_terminal: false,
            colored: rendering.colored,
            timestamp: rendering.timestamp,
            terminal_dimensions: rendering.terminal_dimensions,
            defensive: rendering.defensive,
            bare_without_origin: rendering.bare_without_origin,
            ..draw::Options::default()
        };
        Lines {
            alloc,
            root,
            out: OverWrite::new(out),
            messages: draw::State::new(alloc, options, false),
            log: Plain::new(alloc, now),
            is_closed: false,
        }
    }

    /// Writes the messages of the tree that are new.
    ///
    /// # Errors
    ///
    /// `Memory`, if there is no memory for their lines, and `Broken`, if the output is broken.
    pub fn write_messages(&mut self, at: Moment) -> Result<(), Refusal> {
        let Some(root) = self.root.upgrade()? else {
            return Ok(());
        };
        let mut list = Vec::new(self.alloc);
        let state = root.copy_new_messages(self.alloc, &mut list, self.messages.seen())?;
        if list.is_empty() {
            return Ok(());
        }
        let rows = Rows::new(Vec::new(self.alloc));
        let frame = Input::Tick {
            at,
            show: true,
            seen: Some((rows, Messages::new(list), state)),
        };
        draw::all(self.alloc, &mut self.out, &mut self.messages, frame)?;
        Ok(())
    }

    /// Writes a line, if there is one.
    fn write_line(&mut self, line: Option<String>) -> Result<(), Refusal> {
        let Some(mut line) = line else {
            return Ok(());
        };
        line.push('\n')?;
        let mut rest = line.as_bytes();
        for _ in 0..rest.len() {
            let count = self.out.put(rest)?;
            match rest.get(count..) {
                None | Some([]) => break,
                Some(left) => rest = left,
            }
        }
        self.out.flush()
    }

    /// Writes the line of a task that is seen, if there is something to say.
    fn observe(&mut self, row: &Row, now: Moment) -> Result<(), Refusal> {
        let line = self.log.observe(self.alloc, row, now)?;
        self.write_line(line)
    }

    /// Takes the names of a task for its next line.
    fn rename(&mut self, row: &Row) -> Result<(), Refusal> {
        self.log.rename(self.alloc, row)
    }

    /// Writes the line of a task that is dropped, if there is something to say.
    fn end(&mut self, row: &Row, now: Moment) -> Result<(), Refusal> {
        let line = self.log.end(self.alloc, row, now)?;
        self.write_line(line)
    }

    /// Writes the new messages of the tree, and then what has changed of its tasks.
    fn write_changes(&mut self, now: Moment) -> Result<(), Refusal> {
        self.write_messages(now)?;
        let Some(root) = self.root.upgrade()? else {
            return Ok(());
        };
        let mut rows = Vec::new(self.alloc);
        root.sorted_snapshot(self.alloc, &mut rows)?;
        for row in rows.iter() {
            // the reader tells of those that are new
            if self.log.knows(row.key) {
                self.observe(row, now)?;
            }
        }
        Ok(())
    }
}

/// What is looked at from time to time.
trait Look {
    /// Looks at it, and returns whether it is to be looked at again.
    fn look(&mut self, now: Moment) -> bool;
}

impl<R: Wait + Clone + Drop, O: Write + Drop> Look for Lines<R, O> {
    fn look(&mut self, now: Moment) -> bool {
        if self.is_closed {
            return false;
        }
        // what was refused memory is said after the next interval
        let _ = self.write_changes(now);
        true
    }
}

/// Looks after each interval of so many nanoseconds, as long as that is wanted.
fn look_on<R: Wait + Drop, L: Look + Drop, K: Clock + Drop>(
    rt: R,
    lines: Arc<Mutex<L>>,
    clock: Arc<K>,
    interval: u64,
) {
    for _ in rt.forever() {
        clock.sleep(interval);
        if !lines.lock(&rt).look(clock.now()) {
            break;
        }
    }
}

/// Starts the thread that looks after each interval of so many nanoseconds.
fn start_to_look<
    R: Wait + Threads + Clone + Drop + Send + Sync + 'static,
    L: Look + Drop + Send + 'static,
    K: Clock + Drop + Send + Sync + 'static,
>(rt: &R, lines: &Arc<Mutex<L>>, clock: &Arc<K>, interval: u64) -> Result<(), Refusal> {
    let (their_rt, theirs, clock) = (rt.clone()?, Arc::try_clone(lines)?, Arc::try_clone(clock)?);
    let looks = move || look_on(their_rt, theirs, clock, interval);
    match Builder::new().spawn(rt, looks) {
        Ok(_) => Ok(()),
        Err(_) => Err(Refusal::NoThread),
    }
}

/// The reader's share of an output with messages and plain lines.
#[derive(Drop)]
pub struct PlainDisplay<R: Wait + Clone + Drop, O: Write + Drop> {
    rt: R,
    lines: Arc<Mutex<Lines<R, O>>>,
    output: Arc<OutputState>,
    /// How many messages were sent since the latest were written.
    sent: usize,
}

impl<
    R: Wait + Threads + Clone + Drop + Send + Sync + 'static,
    O: Write + Drop + Send + 'static,
> PlainDisplay<R, O> {
    /// Begins to write on an output, and to look at a tree after every so many seconds.
    ///
    /// # Errors
    ///
    /// `Memory`, if there is no memory for it, and `NoThread`, if there is no thread.
    pub fn start<K: Clock + Drop + Send + Sync + 'static>(
        rt: &R,
        alloc: Global,
        out: (Watched<O>, Arc<OutputState>),
        root: &Root<R>,
        clock: &Arc<K>,
        rendering: &Options,
        seconds: u64,
    ) -> Result<PlainDisplay<R, O>, Refusal> {
        let (out, output) = out;
        let lines = Lines::new(alloc, root.downgrade()?, out, rendering, clock.now());
        let lines = Arc::new(alloc, Mutex::new(lines))?;
        let interval = seconds.saturating_mul(1_000_000_000);
        start_to_look(rt, &lines, clock, interval)?;
        Ok(PlainDisplay {
            rt: rt.clone()?,
            lines,
            output,
            sent: 0,
        })
    }
}

impl<R: Wait + Clone + Drop, O: Write + Drop> PlainDisplay<R, O> {
    /// Returns whether the output is broken.
    pub fn is_broken(&self) -> bool {
        self.output.is_broken()
    }

    /// Makes room for one more message, which is written before too many are kept.
    ///
    /// # Errors
    ///
    /// `Memory`, if there is no memory for what is written.
    pub fn make_room(&mut self, now: Moment) -> Result<(), Refusal> {
        if self.sent >= MESSAGES {
            self.write_messages(now)?;
        }
        self.sent = self.sent.saturating_add(1);
        Ok(())
    }

    /// Writes the messages that were sent.
    ///
    /// # Errors
    ///
    /// `Memory`, if there is no memory for their lines.
    pub fn write_messages(&mut self, now: Moment) -> Result<(), Refusal> {
        if self.sent == 0 {
            return Ok(());
        }
        let written = self.lines.lock(&self.rt).write_messages(now);
        unless_broken(written)?;
        self.sent = 0;
        Ok(())
    }

    /// Writes the line of an item that was added or has finished, behind the messages.
    ///
    /// # Errors
    ///
    /// `Memory`, if there is no memory for it.
    pub fn observe(&mut self, row: &Row, now: Moment) -> Result<(), Refusal> {
        self.write_messages(now)?;
        let written = self.lines.lock(&self.rt).observe(row, now);
        unless_broken(written)
    }

    /// Takes the names of an item for its next line.
    ///
    /// # Errors
    ///
    /// `Memory`, if there is no memory for them.
    pub fn rename(&mut self, row: &Row) -> Result<(), Refusal> {
        self.lines.lock(&self.rt).rename(row)
    }

    /// Writes the line of an item that was dropped, behind the messages.
    ///
    /// # Errors
    ///
    /// `Memory`, if there is no memory for it.
    pub fn end(&mut self, row: &Row, now: Moment) -> Result<(), Refusal> {
        self.write_messages(now)?;
        let written = self.lines.lock(&self.rt).end(row, now);
        unless_broken(written)
    }

    /// Writes the messages. Then nothing is written any more.
    ///
    /// # Errors
    ///
    /// `Memory`, if there is no memory for their lines.
    pub fn close(mut self, now: Moment) -> Result<(), Refusal> {
        self.write_messages(now)?;
        self.lines.lock(&self.rt).is_closed = true;
        Ok(())
    }
}

/// Returns what a write returned, unless the output is broken, which its state says, too.
pub fn unless_broken(written: Result<(), Refusal>) -> Result<(), Refusal> {
    match written {
        Err(Refusal::Broken) => Ok(()),
        other => other,
    }
}
