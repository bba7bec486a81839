//! The event lines that show a count, written by a thread.
ghost use Rattle.std.specs.Prelude.{◌≡◌, IfOk, string_bytes};
ghost use Rattle.prodash_pipe.specs.Counts.{count_line};

use crate::gauge::Gauge;
use std::alloc::{AllocError, Global};
use std::io::Write;
use std::rt::Clock;
use std::sync::Arc;
use std::sync::atomic::{AtomicBool, AtomicU64, Ordering};
use std::thread;
use std::time::Duration;

/// How many milliseconds pass until a thread looks whether it is to end, and how many of these
/// turns from one line to the next.
const TURN: u64 = 10;

const TURNS: u64 = 10;

/// Returns the event line that sets the step of the item of this word.
///
/// # Errors
///
/// `AllocError`, if there is no memory for it.
pub fn count_line(alloc: Global, word: &str, count: u64) -> Result<String, AllocError>
    ensures { IfOk result (λ line. string_bytes line ≡ count_line word.now count) }
{
    format!(in alloc; "set {word} {count}\n")
}

/// A count that one thread changes and another one shows.
#[derive(Drop)]
pub struct SharedCount {
    count: AtomicU64,
    has_ended: AtomicBool,
}

impl SharedCount {
    /// Returns a count of nothing.
    pub fn new() -> SharedCount {
        SharedCount {
            count: AtomicU64::new(0),
            has_ended: AtomicBool::new(false),
        }
    }

    /// Ends `write_lines` in a moment.
    pub fn end(&self) {
        self.has_ended.store(true, Ordering::SeqCst);
    }

    /// Writes a line of the item of this word whenever the count has changed, at most ten in a
    /// second, until the end. A line for which there is no room is left out.
    pub fn write_lines<R: Clock, L: Write + Drop>(
        &self,
        rt: &R,
        alloc: Global,
        word: &str,
        mut lines: L,
    ) {
        let mut shown = 0;
        for turn in 0..u64::MAX {
            if self.has_ended.load(Ordering::SeqCst) {
                return;
            }
            let count = self.count.load(Ordering::SeqCst);
            if count != shown && turn % TURNS == 0 {
                if let Ok(line) = count_line(alloc, word, count) {
                    let _ = lines.write(line.as_bytes());
                    shown = count;
                }
            }
            thread::sleep(rt, Duration::from_millis(TURN));
        }
    }
}

/// What shows a count in the lines of another thread.
#[derive(Drop)]
pub struct SharedGauge(pub Arc<SharedCount>);

impl Gauge for SharedGauge {
    fn show(&mut self, count: u64) {
        self.0.count.store(count, Ordering::SeqCst);
    }
}

/// What shows nothing.
#[derive(Drop)]
pub struct NoGauge;

impl Gauge for NoGauge {
    fn show(&mut self, _count: u64) {}
}
