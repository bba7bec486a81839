//! The clock of the system.
use crate::time::{Clock, Moment};
use std::time::Duration;
use std::{rt, thread};

/// The clock of the system, in UTC, read through the runtime.
///
/// ```rust
/// let clock = Arc::new(alloc, SystemClock::new(rt))?;
/// let now = clock.now();
/// ```
#[derive(Drop)]
pub struct SystemClock<R: rt::Clock + Drop> {
    rt: R,
}

impl<R: rt::Clock + Drop> SystemClock<R> {
    /// Returns the clock of a runtime.
    pub fn new(rt: R) -> SystemClock<R> {
        SystemClock { rt }
    }
}

impl<R: rt::Clock + Drop> Clock for SystemClock<R> {
    /// Returns the current moment. It is 0 if the system's clock can't be read or shows a time
    /// before 1970, and 2^64 - 1 past the last moment of 64 bits.
    fn now(&self) -> Moment {
        match self.rt.since_1970() {
            Ok(now) => u64::try_from(now.as_nanos()).unwrap_or(u64::MAX),
            Err(_) => 0,
        }
    }

    fn sleep(&self, nanoseconds: u64) {
        thread::sleep(&self.rt, Duration::from_nanos(nanoseconds));
    }
}
