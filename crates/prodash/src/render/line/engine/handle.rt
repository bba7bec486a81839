//! The handle of a renderer of lines.
use crate::render::line::engine::mailbox::{Pending, Request};
use crate::render::threads::RendererHandle;
use std::sync::Wait;
use std::thread::Threads;

/// The handle of a renderer that draws lines from a thread of its own.
///
/// ```rust
/// let mut handle = render(rt, alloc, out, root.downgrade()?, clock, Options::default())?;
/// handle.resize(120, 40);
/// // work on items of the root
/// handle.shutdown_and_wait();
/// ```
pub type JoinHandle<R> = RendererHandle<R, Pending>;

impl<R: Wait + Threads + Clone + Drop> RendererHandle<R, Pending> {
    /// Sets the size of the terminal, in columns and rows, unless the handle is disconnected.
    /// Doesn't wait for the frame. If several sizes are set before a frame, the last one counts.
    pub fn resize(&self, columns: u16, rows: u16) {
        // a renderer that has ended needs no size, and neither does a disconnected handle
        let _ = self.request(Request::Resize(columns, rows));
    }
}
