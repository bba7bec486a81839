//! The dashboard of a terminal, and what is written once it has left the terminal: messages as they
//! come, as where there are no rows.
use crate::display::MESSAGES;
use crate::failure::Failure;
use crate::output::{OutputState, Watched};
use crate::plain_display::{Lines, unless_broken};
use prodash::Refusal;
use prodash::render::tui::{Answer, Event, Interrupt, JoinHandle, Key, KeyCode, Line, State};
use prodash::time::Moment;
use prodash_script::DashboardLine;
use std::alloc::{AllocError, Global};
use std::io::Write;
use std::sync::{Arc, Wait};
use std::thread::Threads;

/// The key that shows the keys, and takes them away.
const HELP: KeyCode = KeyCode::Char('?');

/// What each key does, for a pane of thirty columns.
static KEYS: [&str; 10] = [
    "j k  scroll tasks",
    "d u  the same by ten",
    "J K D U  scroll messages",
    "`  hide messages",
    "~  maximize messages",
    "[  hide this pane",
    "{  maximize this pane",
    "q Esc Ctrl-C  interrupt",
    "Ctrl-L  draw anew",
    "?  hide these keys",
];

/// A dashboard, the keys that it has got, and the messages that it leaves behind.
#[derive(Drop)]
pub struct Dashboard<R: Wait + Threads + Clone + Drop, O: Write + Drop> {
    alloc: Global,
    /// The renderer; none once the terminal was left.
    handle: Option<JoinHandle<R>>,
    /// The state that the dashboard has after the keys so far.
    state: State,
    /// The information of the script.
    information: Vec<Line>,
    /// Whether the keys are shown in its place.
    shows_keys: bool,
    /// Whether a request to interrupt leaves the terminal at once.
    leaves_on_interrupt: bool,
    /// The messages, which are written once the terminal was left.
    lines: Lines<R, O>,
    output: Arc<OutputState>,
    /// How many messages were sent since the latest were written.
    sent: usize,
}

impl<R: Wait + Threads + Clone + Drop, O: Write + Drop> Dashboard<R, O> {
    /// Returns the dashboard of a renderer, before any key. `lines` writes the messages at its end.
    pub fn new(
        alloc: Global,
        handle: JoinHandle<R>,
        lines: Lines<R, O>,
        output: Arc<OutputState>,
        leaves_on_interrupt: bool,
    ) -> Dashboard<R, O> {
        Dashboard {
            alloc,
            handle: Some(handle),
            state: State::new(alloc, String::new(alloc)),
            information: Vec::new(alloc),
            shows_keys: false,
            leaves_on_interrupt,
            lines,
            output,
            sent: 0,
        }
    }

    /// Returns whether the output is broken.
    pub fn is_broken(&self) -> bool {
        self.output.is_broken()
    }

    /// Sets the columns and the rows of the terminal, and draws all of it.
    ///
    /// # Errors
    ///
    /// `Memory`, if there is no memory to tell it.
    pub fn resize(&self, columns: u16, rows: u16) -> Result<(), Refusal> {
        match &self.handle {
            Some(handle) => unless_closed(handle.resize(columns, rows)),
            None => Ok(()),
        }
    }

    /// Does what a line of the script says.
    ///
    /// # Errors
    ///
    /// `Memory`, if there is no memory for it.
    pub fn serve(&mut self, line: DashboardLine) -> Result<(), Failure> {
        let event = line.into_event(self.alloc, &mut self.information)?;
        if self.shows_keys && matches!(event, Event::SetInformation(_)) {
            return Ok(());
        }
        self.send(event)
    }

    /// Does what a key says. The first request to interrupt leaves the terminal, or is pending from
    /// then on.
    ///
    /// # Errors
    ///
    /// `Memory`, if there is no memory for it.
    pub fn press(&mut self, key: Key) -> Result<(), Failure> {
        if key.code == HELP {
            return self.toggle_keys();
        }
        match self.state.handle(Event::Input(key)) {
            Answer::Skip => Ok(()),
            Answer::Redraw => self.send(Event::Input(key)),
            Answer::Stop if self.leaves_on_interrupt => {
                self.leave();
                Ok(())
            }
            Answer::Stop => {
                self.defer()?;
                self.state.handle(Event::Input(key));
                self.send(Event::Input(key))
            }
        }
    }

    /// Defers interrupts from now on. Until there is one the headline says which keys request it.
    fn defer(&mut self) -> Result<(), Failure> {
        let mode = Interrupt::Deferred;
        self.state.handle(Event::SetInterruptMode(mode));
        self.send(Event::SetInterruptMode(mode))
    }

    /// Shows the keys, in a pane that is hidden no more, or takes them away.
    fn toggle_keys(&mut self) -> Result<(), Failure> {
        self.shows_keys = !self.shows_keys || self.state.hide_info;
        if self.shows_keys && self.state.hide_info {
            let key = hide_key();
            self.state.handle(Event::Input(key));
            self.send(Event::Input(key))?;
        }
        let lines = if self.shows_keys {
            lines_of_keys(self.alloc)?
        } else {
            self.information.clone()?
        };
        self.send(Event::SetInformation(lines))
    }

    /// Sends an event. A dashboard that has ended by itself, since its output is broken, takes none.
    fn send(&self, event: Event) -> Result<(), Failure> {
        match &self.handle {
            Some(handle) => Ok(unless_closed(handle.send(event))?),
            None => Ok(()),
        }
    }

    /// Draws a last frame and leaves the terminal. The messages that the tree keeps are those that
    /// are written next.
    pub fn leave(&mut self) {
        if let Some(handle) = self.handle.take() {
            handle.shutdown_and_wait();
        }
    }

    /// Makes room for one more message. Once the terminal was left they are written before too many
    /// are kept.
    ///
    /// # Errors
    ///
    /// `Memory`, if there is no memory for what is written.
    pub fn make_room(&mut self, now: Moment) -> Result<(), Failure> {
        if self.sent >= MESSAGES {
            self.write_messages(now)?;
        }
        self.sent = self.sent.saturating_add(1);
        Ok(())
    }

    /// Writes the messages that were sent, if the terminal was left.
    ///
    /// # Errors
    ///
    /// `Memory`, if there is no memory for their lines.
    pub fn write_messages(&mut self, now: Moment) -> Result<(), Failure> {
        if self.handle.is_none() && self.sent > 0 {
            unless_broken(self.lines.write_messages(now))?;
            self.sent = 0;
        }
        Ok(())
    }

    /// Leaves the terminal, and writes all messages.
    ///
    /// # Errors
    ///
    /// `Memory`, if there is no memory for their lines.
    pub fn close(mut self, now: Moment) -> Result<(), Failure> {
        self.leave();
        self.write_messages(now)
    }
}

/// Returns the key that hides the information, and shows it again.
fn hide_key() -> Key {
    Key {
        code: KeyCode::Char('['),
        control: false,
        release: false,
    }
}

/// Returns the lines that say what each key does.
fn lines_of_keys(alloc: Global) -> Result<Vec<Line>, AllocError> {
    let mut lines = Vec::new(alloc);
    lines.push(Line::Title(String::from_str(alloc, "Keys")?))?;
    for text in &KEYS {
        lines.push(Line::Text(String::from_str(alloc, text)?))?;
    }
    Ok(lines)
}

/// Returns what a call of a renderer returned, unless that has ended.
fn unless_closed(told: Result<(), Refusal>) -> Result<(), Refusal> {
    match told {
        Err(Refusal::Closed) => Ok(()),
        other => other,
    }
}
