//! The clock of the system, over a runtime that tells a time of its own.
use crate::fixtures::assert_same;
use prodash::time::{Clock, SystemClock};
use std::io::{Error, ErrorKind};
use std::process::Abort;
use std::sync::atomic::{AtomicU64, Ordering};
use std::time::Duration;
use std::{io, rt};

/// A part of a runtime: a time since 1970, if it isn't before that, and the length of the last
/// sleep.
#[derive(Drop)]
struct Fixed {
    since_1970: Option<Duration>,
    slept: AtomicU64,
}

impl rt::Clock for Fixed {
    fn monotonic(&self) -> io::Result<Duration> {
        Err(Error::from(ErrorKind::Unsupported))
    }

    fn since_1970(&self) -> io::Result<Duration> {
        self.since_1970.ok_or(Error::from(ErrorKind::InvalidData))
    }

    fn sleep(&self, duration: Duration) {
        let nanoseconds = u64::try_from(duration.as_nanos()).unwrap_or(0);
        self.slept.store(nanoseconds, Ordering::SeqCst);
    }
}

/// Seconds since 1970, to which five nanoseconds are added, and the moment.
const TIMES: &[(Option<u64>, u64)] = &[
    (Some(1_718_000_000), 1_718_000_000_000_000_005),
    (None, 0),
    (Some(1 << 62), u64::MAX),
];

fn assert_now(rt: &impl Abort, seconds: Option<u64>, want: u64) {
    let fixed = Fixed {
        since_1970: match seconds {
            Some(seconds) => {
                Some(Duration::from_secs(seconds).saturating_add(Duration::from_nanos(5)))
            }
            None => None,
        },
        slept: AtomicU64::new(0),
    };
    let clock = SystemClock::new(&fixed);
    assert_same(rt, clock.now(), want, seconds);
    clock.sleep(1500);
    assert_same(rt, fixed.slept.load(Ordering::SeqCst), 1500, "sleep");
}

#[test]
fn moments_are_nanoseconds_since_1970(rt: HostRuntime) {
    for (seconds, want) in TIMES {
        assert_now(&rt, *seconds, *want);
    }
}
