//! The requests to the thread that draws, from the ticker and from the handle of a renderer.
use prodash_base::Refusal;
use std::sync::{Condvar, Mutex, Wait};

/// Requests to an event loop.
pub trait Requests {
    type Request;

    /// Returns whether there are none.
    fn is_empty(&self) -> bool;

    /// Takes the next request. There must be one.
    fn take(&mut self) -> Self::Request;

    /// Adds a request of the handle's.
    ///
    /// `Closed`: the end was requested. `Memory`: out of memory.
    fn add(&mut self, request: Self::Request) -> Result<(), Refusal>;

    /// Requests a frame, unless one is requested already.
    fn add_tick(&mut self);

    /// Requests a last frame and then the closing frame.
    fn add_quit(&mut self);

    /// Returns what is left to request of a request that is refused.
    fn rest(request: &Self::Request) -> Self::Request;

    /// Requests again what must not be lost of what was refused, and returns whether it did.
    fn restore(&mut self, refused: Self::Request) -> bool;
}

/// Whether the threads of a renderer may run.
#[derive(Clone, Copy, Debug, PartialEq, Eq)]
enum Phase {
    /// Not all of them have been started yet.
    Starting,
    Running,
    /// One of them couldn't be started.
    Cancelled,
    /// The event loop has ended.
    Ended,
}

/// The requests that the event loop has not taken yet.
#[derive(Drop)]
struct Pending<Q: Requests<Request: Drop> + Drop> {
    phase: Phase,
    requests: Q,
}

/// The requests to one event loop.
#[derive(Drop)]
pub struct Mailbox<Q: Requests<Request: Drop> + Drop> {
    pending: Mutex<Pending<Q>>,
    changed: Condvar,
}

impl<Q: Requests<Request: Drop> + Drop> Pending<Q> {
    /// Returns whether there is nothing for the event loop to do yet.
    fn is_empty(&self) -> bool {
        match self.phase {
            Phase::Starting => true,
            Phase::Running => self.requests.is_empty(),
            Phase::Cancelled | Phase::Ended => false,
        }
    }
}

impl<Q: Requests<Request: Drop> + Drop> Mailbox<Q> {
    /// Returns a mailbox with these requests, whose threads don't run yet.
    pub(crate) fn new(requests: Q) -> Mailbox<Q> {
        let phase = Phase::Starting;
        Mailbox {
            pending: Mutex::new(Pending { phase, requests }),
            changed: Condvar::new(),
        }
    }

    /// Marks the threads as running, which lets them begin.
    pub(crate) fn mark_running<R: Wait>(&self, rt: &R) {
        self.set_phase(rt, Phase::Running);
    }

    /// Marks the start as cancelled: threads that wait for it end.
    pub(crate) fn mark_cancelled<R: Wait>(&self, rt: &R) {
        self.set_phase(rt, Phase::Cancelled);
    }

    /// Marks the event loop as ended.
    pub(crate) fn mark_ended<R: Wait>(&self, rt: &R) {
        self.set_phase(rt, Phase::Ended);
    }

    fn set_phase<R: Wait>(&self, rt: &R, phase: Phase) {
        self.pending.lock(rt).phase = phase;
        self.changed.notify_all();
    }

    /// Adds a request of the handle's.
    ///
    /// `Closed`: the event loop has ended, or its end was requested. `Memory`: out of memory.
    pub(crate) fn request<R: Wait>(&self, rt: &R, request: Q::Request) -> Result<(), Refusal> {
        let mut pending = self.pending.lock(rt);
        if pending.phase != Phase::Running {
            return Err(Refusal::Closed);
        }
        pending.requests.add(request)?;
        drop(pending);
        self.changed.notify_all();
        Ok(())
    }

    /// Requests a frame.
    pub(crate) fn request_tick<R: Wait>(&self, rt: &R) {
        self.pending.lock(rt).requests.add_tick();
        self.changed.notify_all();
    }

    /// Requests a last frame and then the closing frame.
    pub(crate) fn request_quit<R: Wait>(&self, rt: &R) {
        // both under one lock, so that a refused last frame is known to be the last
        self.pending.lock(rt).requests.add_quit();
        self.changed.notify_all();
    }

    /// Requests again what must not be lost of what was refused, and returns whether it did.
    pub(crate) fn request_again<R: Wait>(&self, rt: &R, refused: Q::Request) -> bool {
        self.pending.lock(rt).requests.restore(refused)
    }

    /// Waits for the next request and takes it. Returns `None` if the event loop is to end.
    pub(crate) fn wait_for_request<R: Wait>(&self, rt: &R) -> Option<Q::Request> {
        let mut pending = self
            .changed
            .wait_while(rt, self.pending.lock(rt), |pending| pending.is_empty());
        if pending.phase != Phase::Running {
            return None;
        }
        Some(pending.requests.take())
    }

    /// Waits until the threads are started. Returns false if the start was cancelled or the event
    /// loop has ended, so that the caller should end too.
    pub(crate) fn wait_until_started<R: Wait>(&self, rt: &R) -> bool {
        let pending = self
            .changed
            .wait_while(rt, self.pending.lock(rt), |pending| {
                pending.phase == Phase::Starting
            });
        pending.phase == Phase::Running
    }

    /// Returns whether the event loop runs.
    pub(crate) fn is_running<R: Wait>(&self, rt: &R) -> bool {
        self.pending.lock(rt).phase == Phase::Running
    }
}
