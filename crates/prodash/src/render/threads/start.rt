//! The start of the threads of a renderer.
ghost use Rattle.std.specs.Prelude.{IfErr};
ghost use Rattle.prodash_base.specs.Refusals.{RefusesThread};

use crate::render::threads::event_loop::{Serve, start_event_loop};
use crate::render::threads::handle::RendererHandle;
use crate::render::threads::mailbox::Requests;
use crate::render::threads::ticker::{Shared, start_ticker};
use crate::time::Clock;
use prodash_base::Refusal;
use std::sync::Wait;
use std::thread::{self, Threads};

/// The stack size of a thread that a renderer starts, in bytes, by default: 2 MiB.
pub(crate) const DEFAULT_STACK: usize = 0x20_0000;

/// The event loop and the ticker of a renderer, which wait until they may begin.
pub(crate) struct StartedThreads<
    R: Wait + Threads + Clone + Drop,
    Q: Requests<Request: Drop> + Drop,
    K: Clock + Drop,
> {
    pub(crate) shared: Shared<R, Q, K>,
    event_loop: thread::JoinHandle<()>,
    ticker: thread::JoinHandle<()>,
}

/// Starts the event loop and the ticker, in threads with these stack sizes. If the ticker can't be
/// started, the event loop has ended.
pub(crate) fn start_threads<
    R: Wait + Threads + Clone + Drop + Send + Sync + 'static,
    M: Drop + Send + 'static,
    Q: Requests<Request = M> + Drop + Send + 'static,
    K: Clock + Drop + Send + Sync + 'static,
    E: Serve<M> + Drop + Send + 'static,
>(
    shared: Shared<R, Q, K>,
    engine: E,
    event_loop_stack: usize,
    ticker_stack: usize,
) -> Result<StartedThreads<R, Q, K>, Refusal>
    ensures { IfErr result RefusesThread }
{
    let event_loop = start_event_loop(&shared, engine, event_loop_stack)?;
    match start_ticker(&shared, ticker_stack) {
        Ok(ticker) => Ok(StartedThreads {
            shared,
            event_loop,
            ticker,
        }),
        Err(refusal) => {
            shared.mailbox.mark_cancelled(&shared.rt);
            event_loop.join(&shared.rt);
            Err(refusal)
        }
    }
}

impl<
    R: Wait + Threads + Clone + Drop,
    Q: Requests<Request: Drop> + Drop,
    K: Clock + Drop,
> StartedThreads<R, Q, K> {
    /// Lets the threads begin, and returns the handle of the renderer.
    pub(crate) fn begin(self) -> RendererHandle<R, Q> {
        let StartedThreads {
            shared,
            event_loop,
            ticker: _,
        } = self;
        shared.mailbox.mark_running(&shared.rt);
        let Shared { rt, mailbox, .. } = shared;
        RendererHandle::new(rt, mailbox, event_loop)
    }

    /// Ends the threads, and waits until they have ended.
    pub(crate) fn cancel(self) {
        let StartedThreads {
            shared,
            event_loop,
            ticker,
        } = self;
        shared.mailbox.mark_cancelled(&shared.rt);
        ticker.join(&shared.rt);
        event_loop.join(&shared.rt);
    }
}
