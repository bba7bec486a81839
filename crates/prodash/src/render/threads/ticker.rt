//! The ticker of a renderer, which requests its frames.
ghost use Rattle.std.specs.Prelude.{IfErr, IsOkUnless};
ghost use Rattle.prodash_base.specs.Refusals.{RefusesThread};

use crate::render::threads::mailbox::{Mailbox, Requests};
use crate::time::Clock;
use prodash_base::Refusal;
use std::alloc::Global;
use std::sync::{Arc, Wait};
use std::thread::{self, Builder, Threads};

/// What the threads of a renderer share.
#[derive(Drop)]
pub(crate) struct Shared<R: Wait + Drop, Q: Requests<Request: Drop> + Drop, K: Clock + Drop> {
    pub(crate) rt: R,
    pub(crate) mailbox: Arc<Mailbox<Q>>,
    pub(crate) clock: Arc<K>,
    /// The interval between frames, in nanoseconds.
    pub(crate) interval: u64,
}

impl<R: Wait + Clone + Drop, Q: Requests<Request: Drop> + Drop, K: Clock + Drop> Shared<R, Q, K> {
    /// Returns what threads share that don't run yet, with these requests.
    pub(crate) fn new(
        rt: R,
        alloc: Global,
        clock: Arc<K>,
        requests: Q,
        interval: u64,
    ) -> Result<Shared<R, Q, K>, Refusal>
        ensures { IsOkUnless result Refusal.Memory }
    {
        Ok(Shared {
            rt,
            mailbox: Arc::new(alloc, Mailbox::new(requests))?,
            clock,
            interval,
        })
    }

    pub(crate) fn try_clone(&self) -> Result<Shared<R, Q, K>, Refusal>
        ensures { IsOkUnless result Refusal.Memory }
    {
        Ok(Shared {
            rt: self.rt.clone()?,
            mailbox: Arc::try_clone(&self.mailbox)?,
            clock: Arc::try_clone(&self.clock)?,
            interval: self.interval,
        })
    }
}

/// Starts the thread that requests frames.
pub(crate) fn start_ticker<
    R: Wait + Threads + Clone + Drop + Send + Sync + 'static,
    M: Drop + Send + 'static,
    Q: Requests<Request = M> + Drop + Send + 'static,
    K: Clock + Drop + Send + Sync + 'static,
>(shared: &Shared<R, Q, K>, stack: usize) -> Result<thread::JoinHandle<()>, Refusal>
    ensures { IfErr result RefusesThread }
{
    let for_ticker = shared.try_clone()?;
    Builder::new()
        .stack_size(stack)
        .spawn(&shared.rt, move || run_ticker(for_ticker))
        .or(Err(Refusal::NoThread))
}

/// Requests a frame and sleeps for the frame interval, in turn, until the event loop has ended.
fn run_ticker<R: Wait + Drop, Q: Requests<Request: Drop> + Drop, K: Clock + Drop>(
    shared: Shared<R, Q, K>,
) {
    if !shared.mailbox.wait_until_started(&shared.rt) {
        return;
    }
    for _ in shared.rt.forever() {
        if !shared.mailbox.is_running(&shared.rt) {
            break;
        }
        shared.mailbox.request_tick(&shared.rt);
        shared.clock.sleep(shared.interval);
    }
}
