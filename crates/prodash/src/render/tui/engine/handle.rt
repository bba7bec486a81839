//! The handle of a dashboard.
use crate::render::threads::RendererHandle;
use crate::render::tui::Event;
use crate::render::tui::engine::mailbox::{Queue, Request};
use prodash_base::Refusal;
use std::sync::Wait;
use std::thread::Threads;

/// The handle of a dashboard that draws from a thread of its own. Its closing frame leaves the
/// terminal.
///
/// ```rust
/// let mut handle = render(rt, alloc, out, root.downgrade()?, clock, options, (80, 24))?;
/// handle.send(Event::Input(key))?;
/// handle.resize(120, 40)?;
/// // work on items of the root
/// handle.shutdown_and_wait();
/// ```
pub type JoinHandle<R> = RendererHandle<R, Queue>;

impl<R: Wait + Threads + Clone + Drop> RendererHandle<R, Queue> {
    /// Sends an event, such as a key. Doesn't wait for its frame. Events and sizes are taken in the
    /// order in which they are sent.
    ///
    /// # Errors
    ///
    /// `Closed`: the dashboard has left the terminal, its end was requested, or the handle is
    /// disconnected. `Memory`: out of memory. The event is not sent then.
    pub fn send(&self, event: Event) -> Result<(), Refusal> {
        self.request(Request::Handle(event))
    }

    /// Sets the size of the terminal, in columns and rows, behind the events that were sent before.
    /// Doesn't wait for the frame.
    ///
    /// # Errors
    ///
    /// As `send`.
    pub fn resize(&self, columns: u16, rows: u16) -> Result<(), Refusal> {
        self.request(Request::Resize(columns, rows))
    }

    /// Returns whether the dashboard runs. Once it doesn't, it has left the terminal, or its output
    /// is broken.
    pub fn is_running(&self) -> bool {
        self.is_event_loop_running()
    }
}
