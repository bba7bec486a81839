//! The thread that lets a log write its next line.
ghost use Rattle.std.specs.Prelude.{IfErr};
ghost use Rattle.prodash_base.specs.Refusals.{RefusesThread};

use crate::time::Clock;
use prodash_base::Refusal;
use std::sync::atomic::{AtomicBool, Ordering};
use std::sync::{Arc, Wait};
use std::thread::{Builder, Threads};

/// The shortest time between two lines, in nanoseconds.
const INTERVAL: u64 = 500_000_000;

/// Starts a thread that sets a trigger after each interval of the clock, until it is the trigger's
/// last owner.
///
/// # Errors
///
/// `NoThread`, if the thread can't be started. `Memory`, if the reference count of the runtime is
/// at its limit.
pub(super) fn start_ticker<R, K>(
    rt: &R,
    trigger: Arc<AtomicBool>,
    clock: Arc<K>,
    stack_size: usize,
) -> Result<(), Refusal>
where
    R: Threads + Wait + Clone + Drop + Send + Sync + 'static,
    K: Clock + Drop + Send + Sync + 'static,
    ensures { IfErr result RefusesThread }
{
    let their_rt = rt.clone()?;
    let builder = Builder::new().stack_size(stack_size);
    match builder.spawn(rt, move || run_ticker(their_rt, trigger, clock)) {
        Ok(_) => Ok(()),
        Err(_) => Err(Refusal::NoThread),
    }
}

/// Sleeps and then sets the trigger, in turn, until this thread is its last owner.
fn run_ticker<R: Wait + Drop, K: Clock + Drop>(rt: R, trigger: Arc<AtomicBool>, clock: Arc<K>) {
    for _ in rt.forever() {
        clock.sleep(INTERVAL);
        if Arc::strong_count(&trigger) == 1 {
            break;
        }
        trigger.store(true, Ordering::SeqCst);
    }
}
