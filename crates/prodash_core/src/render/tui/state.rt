ghost use Rattle.std.specs.Prelude.{◌≡◌, []};
ghost use Rattle.prodash_core.specs.Dashboard.{new_state, press, interrupt, set_interrupt_mode, handle};

use crate::render::tui::event::{Answer, Event, Interrupt, Key, KeyCode, Line, Rect};
use std::alloc::Global;

/// How requests to interrupt are treated, and whether one is pending.
#[derive(Clone, Copy, Debug, PartialEq, Eq)]
pub enum InterruptMode {
    /// A request stops the dashboard at once.
    Instantly,
    /// A request is pending until the mode is set to `Instantly`.
    Deferred {
        /// Whether there was a request.
        requested: bool,
    },
}

/// What a dashboard shows, and how.
///
/// ```rust
/// let mut state = State::new(alloc, title);
/// state.handle(Event::SetInterruptMode(Interrupt::Deferred));
/// let q = Key { code: KeyCode::Char('q'), control: false, release: false };
/// assert_eq!(rt; state.handle(Event::Input(q)), Answer::Redraw);
/// let answer = state.handle(Event::SetInterruptMode(Interrupt::Instantly));
/// assert_eq!(rt; answer, Answer::Stop);
/// ```
#[derive(Debug, Drop)]
pub struct State {
    /// The title of the window.
    pub title: String,
    /// How many rows the list of tasks is scrolled down.
    pub task_offset: u16,
    /// How many rows the list of messages is scrolled down.
    pub message_offset: u16,
    /// Whether messages are hidden.
    pub hide_messages: bool,
    /// Whether messages fill most of the window.
    pub messages_fullscreen: bool,
    /// Whether the information is hidden.
    pub hide_info: bool,
    /// Whether the information is as wide as it can be.
    pub maximize_info: bool,
    /// The part of the terminal to fill, if one was set.
    pub window_size: Option<Rect>,
    /// The lines beside the tasks.
    pub information: Vec<Line>,
    /// How requests to interrupt are treated, and whether one is pending.
    pub interrupt_mode: InterruptMode,
}

impl State {
    /// Returns the state of a new dashboard: every switch is off, nothing is scrolled, there is
    /// neither a window size nor information, and requests to interrupt stop it at once.
    pub fn new(alloc: Global, title: String) -> State
        ensures state { result ≡ new_state title result.information }
        ensures information { result.information.items ≡ [] }
    {
        State {
            title,
            task_offset: 0,
            message_offset: 0,
            hide_messages: false,
            messages_fullscreen: false,
            hide_info: false,
            maximize_info: false,
            window_size: None,
            information: Vec::new(alloc),
            interrupt_mode: InterruptMode::Instantly,
        }
    }

    /// Handles an event, and returns what to do next. Allocates nothing.
    ///
    /// - After a tick, a new window size, title or information, the state is to be drawn.
    /// - `Esc`, `q`, and Control with `c` or `[` are requests to interrupt. The answer is `Stop`,
    ///   or `Redraw` if they are deferred; then the request is pending until the mode is
    ///   `Instantly`.
    /// - `` ` `` and `~` toggle whether messages are hidden and whether they are maximized, `[` and
    ///   `{` the same of the information.
    /// - `J`, `D`, `K` and `U` scroll messages by 1 down, 10 down, 1 up and 10 up; `j`, `d`, `k`
    ///   and `u` scroll tasks. Offsets stop at 0 and at 65535.
    /// - Any other key, and any key that is released, changes nothing, and the answer is `Skip`.
    pub fn handle(&mut self, event: Event) -> Answer
        ensures { (self.new, result) ≡ handle self.old event }
    {
        match event {
            Event::Tick => {}
            Event::Input(key) => return self.press(key),
            Event::SetWindowSize(size) => self.window_size = Some(size),
            Event::SetTitle(title) => self.title = title,
            Event::SetInformation(information) => self.information = information,
            Event::SetInterruptMode(interrupt) => return self.set_interrupt_mode(interrupt),
        }
        Answer::Redraw
    }

    /// Handles a key.
    fn press(&mut self, key: Key) -> Answer
        ensures { (self.new, result) ≡ press self.old key }
    {
        if key.release {
            return Answer::Skip;
        }
        match key.code {
            KeyCode::Esc | KeyCode::Char('q') => return self.interrupt(),
            KeyCode::Char('c' | '[') if key.control => return self.interrupt(),
            KeyCode::Char('`') => self.hide_messages = !self.hide_messages,
            KeyCode::Char('~') => self.messages_fullscreen = !self.messages_fullscreen,
            KeyCode::Char('[') => self.hide_info = !self.hide_info,
            KeyCode::Char('{') => self.maximize_info = !self.maximize_info,
            KeyCode::Char('J') => self.message_offset = self.message_offset.saturating_add(1),
            KeyCode::Char('D') => self.message_offset = self.message_offset.saturating_add(10),
            KeyCode::Char('K') => self.message_offset = self.message_offset.saturating_sub(1),
            KeyCode::Char('U') => self.message_offset = self.message_offset.saturating_sub(10),
            KeyCode::Char('j') => self.task_offset = self.task_offset.saturating_add(1),
            KeyCode::Char('d') => self.task_offset = self.task_offset.saturating_add(10),
            KeyCode::Char('k') => self.task_offset = self.task_offset.saturating_sub(1),
            KeyCode::Char('u') => self.task_offset = self.task_offset.saturating_sub(10),
            KeyCode::Char(_) | KeyCode::Other => return Answer::Skip,
        }
        Answer::Redraw
    }

    /// Stops, or records the request if requests are deferred.
    fn interrupt(&mut self) -> Answer
        ensures { (self.new, result) ≡ interrupt self.old }
    {
        match self.interrupt_mode {
            InterruptMode::Instantly => Answer::Stop,
            InterruptMode::Deferred { .. } => {
                self.interrupt_mode = InterruptMode::Deferred { requested: true };
                Answer::Redraw
            }
        }
    }

    /// Sets the mode. If it is `Instantly`, a pending request stops the dashboard now.
    fn set_interrupt_mode(&mut self, interrupt: Interrupt) -> Answer
        ensures { (self.new, result) ≡ set_interrupt_mode self.old interrupt }
    {
        match (interrupt, self.interrupt_mode) {
            (Interrupt::Instantly, InterruptMode::Deferred { requested: true }) => {
                return Answer::Stop;
            }
            (Interrupt::Instantly, _) => self.interrupt_mode = InterruptMode::Instantly,
            (Interrupt::Deferred, InterruptMode::Instantly) => {
                self.interrupt_mode = InterruptMode::Deferred { requested: false };
            }
            (Interrupt::Deferred, InterruptMode::Deferred { .. }) => {}
        }
        Answer::Redraw
    }
}
