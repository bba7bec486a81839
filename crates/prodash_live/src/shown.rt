//! What shows the items: frames, a dashboard, or on an output that is no terminal plain lines.
use crate::dashboard::Dashboard;
use crate::display::Display;
use crate::failure::Failure;
use crate::plain_display::PlainDisplay;
use prodash::progress::Row;
use prodash::render::tui::Key;
use prodash::time::{Clock, Moment};
use prodash_script::DashboardLine;
use std::io::Write;
use std::sync::Wait;
use std::thread::Threads;

/// What shows the items.
#[derive(Drop)]
pub enum Shown<R: Wait + Threads + Clone + Drop, O: Write + Drop> {
    /// Frames, from threads of their own.
    Frames(Display<R>),
    /// A dashboard, from threads of its own, and messages once it has left the terminal.
    Dashboard(Dashboard<R, O>),
    /// Messages and plain lines.
    Plain(PlainDisplay<R, O>),
}

impl<R: Wait + Threads + Clone + Drop, O: Write + Drop> Shown<R, O> {
    /// Returns whether the output is broken.
    pub fn is_broken(&self) -> bool {
        match self {
            Shown::Frames(display) => display.is_broken(),
            Shown::Dashboard(display) => display.is_broken(),
            Shown::Plain(display) => display.is_broken(),
        }
    }

    /// Returns whether plain lines are written.
    pub fn is_plain(&self) -> bool {
        matches!(self, Shown::Plain(_))
    }

    /// Returns whether a dashboard is or was shown.
    pub fn is_dashboard(&self) -> bool {
        matches!(self, Shown::Dashboard(_))
    }

    /// Sets the columns and the rows of the terminal.
    ///
    /// # Errors
    ///
    /// `Memory`, if there is no memory to tell a dashboard.
    pub fn resize(&self, columns: u16, rows: u16) -> Result<(), Failure> {
        match self {
            Shown::Frames(display) => display.resize(columns, rows),
            Shown::Dashboard(display) => display.resize(columns, rows)?,
            Shown::Plain(_) => {}
        }
        Ok(())
    }

    /// Does what a line of a script says that is for a dashboard, if there is one.
    ///
    /// # Errors
    ///
    /// `Memory`, if there is no memory for it.
    pub fn serve_dashboard(&mut self, line: DashboardLine) -> Result<(), Failure> {
        if let Shown::Dashboard(display) = self {
            display.serve(line)?;
        }
        Ok(())
    }

    /// Does what a key says, if there is a dashboard.
    ///
    /// # Errors
    ///
    /// `Memory`, if there is no memory for it.
    pub fn press(&mut self, key: Key) -> Result<(), Failure> {
        if let Shown::Dashboard(display) = self {
            display.press(key)?;
        }
        Ok(())
    }

    /// Leaves the terminal to messages, if there is a dashboard.
    pub fn leave(&mut self) {
        if let Shown::Dashboard(display) = self {
            display.leave();
        }
    }

    /// Waits until one more message can be kept.
    ///
    /// # Errors
    ///
    /// `Memory`, if there is no memory for what is written meanwhile.
    pub fn make_room<K: Clock>(&mut self, rt: &R, clock: &K) -> Result<(), Failure> {
        match self {
            Shown::Frames(display) => display.make_room(rt, clock),
            Shown::Dashboard(display) => display.make_room(clock.now())?,
            Shown::Plain(display) => display.make_room(clock.now())?,
        }
        Ok(())
    }

    /// Writes the messages that no frame will.
    ///
    /// # Errors
    ///
    /// `Memory`, if there is no memory for their lines.
    pub fn write_messages<K: Clock>(&mut self, clock: &K) -> Result<(), Failure> {
        match self {
            Shown::Frames(_) => {}
            Shown::Dashboard(display) => display.write_messages(clock.now())?,
            Shown::Plain(display) => display.write_messages(clock.now())?,
        }
        Ok(())
    }

    /// Says that an item was added or has finished.
    ///
    /// # Errors
    ///
    /// `Memory`, if there is no memory for its line.
    pub fn observe(&mut self, row: &Row, now: Moment) -> Result<(), Failure> {
        if let Shown::Plain(display) = self {
            display.observe(row, now)?;
        }
        Ok(())
    }

    /// Takes the names of an item for its next line, where there are lines.
    ///
    /// # Errors
    ///
    /// `Memory`, if there is no memory for them.
    pub fn rename(&mut self, row: &Row) -> Result<(), Failure> {
        if let Shown::Plain(display) = self {
            display.rename(row)?;
        }
        Ok(())
    }

    /// Says that an item was dropped, or is there at the end.
    ///
    /// # Errors
    ///
    /// `Memory`, if there is no memory for its line.
    pub fn end(&mut self, row: &Row, now: Moment) -> Result<(), Failure> {
        if let Shown::Plain(display) = self {
            display.end(row, now)?;
        }
        Ok(())
    }

    /// Draws the last frames, and ends the renderer; or writes the last lines.
    ///
    /// # Errors
    ///
    /// `Memory`, if there is no memory for the last lines.
    pub fn close<K: Clock>(self, clock: &K) -> Result<(), Failure> {
        match self {
            Shown::Frames(display) => display.close(),
            Shown::Dashboard(display) => display.close(clock.now())?,
            Shown::Plain(display) => display.close(clock.now())?,
        }
        Ok(())
    }
}
