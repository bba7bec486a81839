//! The event loop of a renderer, which draws for its requests.
ghost use Rattle.std.specs.Prelude.{IfErr};
ghost use Rattle.prodash_base.specs.Refusals.{RefusesThread};

use crate::render::threads::mailbox::Requests;
use crate::render::threads::ticker::Shared;
use crate::time::{Clock, Moment};
use prodash_base::Refusal;
use std::sync::Wait;
use std::thread::{self, Builder, Threads};

/// What draws for the requests to an event loop.
pub(crate) trait Serve<M> {
    /// Serves a request at this moment, and returns whether it was the last one.
    ///
    /// `Memory`, `TooManyHandles`: it may be requested again. Any other refusal is the last.
    fn serve(&mut self, request: M, at: Moment) -> Result<bool, Refusal>;
}

/// Starts the thread that draws.
pub(crate) fn start_event_loop<
    R: Wait + Threads + Clone + Drop + Send + Sync + 'static,
    M: Drop + Send + 'static,
    Q: Requests<Request = M> + Drop + Send + 'static,
    K: Clock + Drop + Send + Sync + 'static,
    E: Serve<M> + Drop + Send + 'static,
>(shared: &Shared<R, Q, K>, engine: E, stack: usize) -> Result<thread::JoinHandle<()>, Refusal>
    ensures { IfErr result RefusesThread }
{
    let for_loop = shared.try_clone()?;
    Builder::new()
        .stack_size(stack)
        .spawn(&shared.rt, move || run_event_loop(for_loop, engine))
        .or(Err(Refusal::NoThread))
}

/// Serves each request until the renderer has ended. What must not be lost of one that is refused
/// for lack of memory or of handles is tried again after the frame interval.
fn run_event_loop<
    R: Wait + Drop,
    M: Drop,
    Q: Requests<Request = M> + Drop,
    K: Clock + Drop,
    E: Serve<M> + Drop,
>(shared: Shared<R, Q, K>, mut engine: E) {
    for _ in shared.rt.forever() {
        let Some(request) = shared.mailbox.wait_for_request(&shared.rt) else {
            break;
        };
        let rest = Q::rest(&request);
        match engine.serve(request, shared.clock.now()) {
            Ok(false) => {}
            Err(Refusal::Memory | Refusal::TooManyHandles) => {
                if shared.mailbox.request_again(&shared.rt, rest) {
                    shared.clock.sleep(shared.interval);
                }
            }
            Ok(true) | Err(_) => break,
        }
    }
    shared.mailbox.mark_ended(&shared.rt);
}
