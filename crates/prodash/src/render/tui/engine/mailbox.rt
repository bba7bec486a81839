//! The requests to the event loop, in the order in which they were made.
use crate::render::threads::Requests;
use crate::render::tui::Event;
use prodash_base::Refusal;
use std::alloc::Global;
use std::collections::VecDeque;

/// A request to the event loop.
#[derive(Drop)]
pub enum Request {
    /// Hand an event to the dashboard.
    Handle(Event),
    /// Set the size of the terminal to these columns and rows.
    Resize(u16, u16),
    /// Draw a frame.
    Tick,
    /// Leave the terminal and end.
    Quit,
}

/// The requests that the event loop has not taken yet. Those that are sent take memory; a tick and
/// a quit don't.
#[derive(Drop)]
pub struct Queue {
    /// Those that were sent, the earliest first.
    sent: VecDeque<Request>,
    /// How many of them come before the tick, if one is requested.
    before_tick: Option<usize>,
    /// Whether the end is requested, behind all others.
    quit: bool,
}

impl Queue {
    /// Returns a queue without requests.
    pub(crate) fn new(alloc: Global) -> Queue {
        Queue {
            sent: VecDeque::new(alloc),
            before_tick: None,
            quit: false,
        }
    }

    /// Takes the earliest of the requests that were sent. The tick then has one less before it.
    fn take_sent(&mut self) -> Option<Request> {
        let request = self.sent.pop_front()?;
        self.before_tick = self.before_tick.map(|count| count.saturating_sub(1));
        Some(request)
    }
}

impl Requests for Queue {
    type Request = Request;

    fn is_empty(&self) -> bool {
        self.sent.is_empty() && self.before_tick.is_none() && !self.quit
    }

    fn take(&mut self) -> Request {
        if self.before_tick == Some(0) {
            self.before_tick = None;
            return Request::Tick;
        }
        match self.take_sent() {
            Some(request) => request,
            None => {
                self.quit = false;
                Request::Quit
            }
        }
    }

    fn add(&mut self, request: Request) -> Result<(), Refusal> {
        if self.quit {
            return Err(Refusal::Closed);
        }
        Ok(self.sent.push_back(request)?)
    }

    fn add_tick(&mut self) {
        if self.before_tick.is_none() {
            self.before_tick = Some(self.sent.len());
        }
    }

    fn add_quit(&mut self) {
        // a tick that is requested already becomes the last frame
        self.before_tick = Some(self.sent.len());
        self.quit = true;
    }

    /// An event or a size isn't lost: the dashboard has taken it, and shows it in its next frame.
    fn rest(request: &Request) -> Request {
        match request {
            Request::Handle(_) | Request::Resize(..) | Request::Tick => Request::Tick,
            Request::Quit => Request::Quit,
        }
    }

    /// Of frames only the last one before a quit is requested again, since the ticker requests the
    /// others.
    fn restore(&mut self, refused: Request) -> bool {
        let is_ending = self.quit || matches!(refused, Request::Quit);
        if is_ending {
            self.add_quit();
        }
        is_ending
    }
}
