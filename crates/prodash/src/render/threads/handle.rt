//! The handle of a renderer.
use crate::render::threads::mailbox::{Mailbox, Requests};
use prodash_base::Refusal;
use std::sync::{Arc, Wait};
use std::thread;
use std::thread::Threads;

/// The handle of a renderer that draws from a thread of its own. Dropping it requests a last frame
/// and the closing frame, and waits until the event loop has ended.
///
/// All calls except `disconnect` and `forget` may wait for the lock of the renderer's mailbox.
/// `wait`, `shutdown_and_wait` and the drop wait until the event loop has ended, unless the handle
/// has forgotten it. A `Q` has the requests that the event loop hasn't taken yet.
pub struct RendererHandle<R: Wait + Threads + Clone + Drop, Q: Requests<Request: Drop> + Drop> {
    rt: R,
    mailbox: Arc<Mailbox<Q>>,
    /// The event loop, if its end is to be waited for.
    event_loop: Option<thread::JoinHandle<()>>,
    /// Whether the handle may still request anything.
    is_connected: bool,
}

impl<R: Wait + Threads + Clone + Drop, Q: Requests<Request: Drop> + Drop> RendererHandle<R, Q> {
    /// Returns the handle of a renderer whose threads run.
    pub(crate) fn new(
        rt: R,
        mailbox: Arc<Mailbox<Q>>,
        event_loop: thread::JoinHandle<()>,
    ) -> RendererHandle<R, Q> {
        RendererHandle {
            rt,
            mailbox,
            event_loop: Some(event_loop),
            is_connected: true,
        }
    }

    /// Adds a request.
    ///
    /// `Closed`: the event loop has ended, its end was requested, or the handle is disconnected.
    /// `Memory`: out of memory.
    pub(crate) fn request(&self, request: Q::Request) -> Result<(), Refusal> {
        if !self.is_connected {
            return Err(Refusal::Closed);
        }
        self.mailbox.request(&self.rt, request)
    }

    /// Returns whether the event loop runs.
    pub(crate) fn is_event_loop_running(&self) -> bool {
        self.mailbox.is_running(&self.rt)
    }

    /// Waits until the event loop has ended, unless the handle has forgotten it.
    fn join(&mut self) {
        if let Some(event_loop) = self.event_loop.take() {
            event_loop.join(&self.rt);
        }
    }

    /// Detaches the renderer: `disconnect` and `forget`. It runs until it ends by itself.
    pub fn detach(mut self) {
        self.disconnect();
        self.forget();
    }

    /// Stops the handle from requesting anything more, also the end of the renderer. Its drop still
    /// waits for the event loop, unless that is forgotten.
    pub fn disconnect(&mut self) {
        self.is_connected = false;
    }

    /// Stops the handle from waiting for the event loop. Its drop still requests the end of the
    /// renderer, unless it is disconnected.
    pub fn forget(&mut self) {
        self.event_loop = None;
    }

    /// Waits until the event loop has ended by itself: its root is gone, its output is broken, it
    /// saw no rows and is to stop then, or it is a dashboard that was left.
    pub fn wait(mut self) {
        self.join();
    }

    /// Requests a last frame and the closing frame, unless the handle is disconnected. Doesn't wait
    /// for them.
    pub fn shutdown(&mut self) {
        if self.is_connected {
            self.mailbox.request_quit(&self.rt);
        }
    }

    /// Requests a last frame and the closing frame, unless the handle is disconnected, and waits
    /// until the event loop has ended.
    pub fn shutdown_and_wait(mut self) {
        self.shutdown();
        self.join();
    }
}

impl<R: Wait + Threads + Clone + Drop, Q: Requests<Request: Drop> + Drop> Drop
    for RendererHandle<R, Q> {
    /// Does what `shutdown` and `join` do.
    fn drop(mut self) {
        self.shutdown();
        self.join();
        let RendererHandle {
            rt: _,
            mailbox: _,
            event_loop: _,
            is_connected: _,
        } = self;
    }
}
