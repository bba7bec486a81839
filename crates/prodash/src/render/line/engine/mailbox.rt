//! The requests to the event loop, from the ticker and from the handle of the renderer.
ghost use Rattle.std.specs.Prelude.{◌≡◌};
ghost use Rattle.std.specs.Option.{option_or};

use crate::render::threads::Requests;
use prodash_base::Refusal;

/// A request to the event loop.
#[derive(Clone, Copy, Debug)]
pub enum Request {
    /// Set the size of the terminal to these columns and rows.
    Resize(u16, u16),
    /// Draw a frame.
    Tick,
    /// Draw the closing frame and end.
    Quit,
}

/// The requests that the event loop has not taken yet. A request takes no memory: a size replaces
/// an earlier size, and a tick or a quit that is already requested stays requested once.
#[derive(Drop)]
pub struct Pending {
    /// The size that was requested last, in columns and rows.
    size: Option<(u16, u16)>,
    tick: bool,
    quit: bool,
}

impl Pending {
    /// Returns no requests.
    pub(crate) fn new() -> Pending {
        Pending {
            size: None,
            tick: false,
            quit: false,
        }
    }

    /// Requests a size again that was refused, unless another was requested since then.
    fn restore_size(&mut self, columns: u16, rows: u16)
        ensures { self.new
            ≡ record self.old { size = option_or self.old.size (Some (columns, rows)) } }
    {
        if self.size.is_none() {
            self.size = Some((columns, rows));
        }
    }
}

impl Requests for Pending {
    type Request = Request;

    fn is_empty(&self) -> bool {
        self.size.is_none() && !self.tick && !self.quit
    }

    /// Takes the next request: a size comes before a tick, and a tick before a quit.
    fn take(&mut self) -> Request {
        if let Some((columns, rows)) = self.size.take() {
            return Request::Resize(columns, rows);
        }
        if self.tick {
            self.tick = false;
            return Request::Tick;
        }
        self.quit = false;
        Request::Quit
    }

    fn add(&mut self, request: Request) -> Result<(), Refusal> {
        match request {
            Request::Resize(columns, rows) => self.size = Some((columns, rows)),
            Request::Tick => self.add_tick(),
            Request::Quit => self.add_quit(),
        }
        Ok(())
    }

    fn add_tick(&mut self) {
        self.tick = true;
    }

    fn add_quit(&mut self) {
        self.tick = true;
        self.quit = true;
    }

    fn rest(request: &Request) -> Request {
        *request
    }

    /// A size that was requested since then stays. Of frames only the last one before a quit is
    /// requested again, since the ticker requests the others.
    fn restore(&mut self, refused: Request) -> bool {
        match refused {
            Request::Resize(columns, rows) => self.restore_size(columns, rows),
            Request::Tick if self.quit => self.tick = true,
            Request::Quit => self.quit = true,
            Request::Tick => return false,
        }
        true
    }
}
