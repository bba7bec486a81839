//! What the reader of the lines and the threads of the renderer tell each other.
use prodash::time::{Clock, Moment};
use std::io::{self, Write};
use std::sync::Arc;
use std::sync::atomic::{AtomicBool, AtomicI32, AtomicU64, Ordering};

/// The state of the output.
#[derive(Drop)]
pub struct OutputState {
    /// How often it was flushed, which each frame that has bytes does once.
    frames: AtomicU64,
    is_broken: AtomicBool,
    /// The system's number of the error of the call that failed, or 0 if it has none.
    os_error: AtomicI32,
    /// Whether the reader waits for a frame.
    is_awaited: AtomicBool,
}

impl OutputState {
    /// Returns the state of an output that no frame was written to.
    pub fn new() -> OutputState {
        OutputState {
            frames: AtomicU64::new(0),
            is_broken: AtomicBool::new(false),
            os_error: AtomicI32::new(0),
            is_awaited: AtomicBool::new(false),
        }
    }

    /// Returns how many frames were written.
    pub fn frames(&self) -> u64 {
        self.frames.load(Ordering::SeqCst)
    }

    /// Returns whether a write or a flush has failed.
    pub fn is_broken(&self) -> bool {
        self.is_broken.load(Ordering::SeqCst)
    }

    /// Returns why a write or a flush has failed, if one has.
    pub fn error(&self) -> Option<io::Error> {
        if !self.is_broken() {
            return None;
        }
        match self.os_error.load(Ordering::SeqCst) {
            0 => Some(io::Error::from(io::ErrorKind::WriteZero)),
            code => Some(io::Error::from_raw_os_error(code)),
        }
    }

    /// Keeps that a call has failed, and the system's number of its error.
    fn set_broken(&self, os_error: Option<i32>) {
        if let Some(code) = os_error {
            self.os_error.store(code, Ordering::SeqCst);
        }
        self.is_broken.store(true, Ordering::SeqCst);
    }

    /// Says whether a frame is awaited.
    pub fn set_awaited(&self, is_awaited: bool) {
        self.is_awaited.store(is_awaited, Ordering::SeqCst);
    }
}

/// Ends a frame of a marked output. No frame has this byte.
const MARK: u8 = 0;

/// Forwards all calls to a writer, counts its flushes, and records whether a call failed or wrote
/// nothing. If the output is marked, there is a mark before each flush, which ends a frame.
#[derive(Drop)]
pub struct Watched<O: Write + Drop> {
    out: O,
    state: Arc<OutputState>,
    has_marks: bool,
}

impl<O: Write + Drop> Watched<O> {
    /// Returns a writer that keeps the state up to date.
    pub fn new(out: O, state: Arc<OutputState>, has_marks: bool) -> Watched<O> {
        Watched {
            out,
            state,
            has_marks,
        }
    }

    /// Writes a mark, if the output is marked.
    ///
    /// # Errors
    ///
    /// If the writer doesn't take it. The state says so, too.
    pub fn mark(&mut self) -> io::Result<()> {
        if self.has_marks {
            self.write_all(&[MARK])?;
        }
        Ok(())
    }
}

impl<O: Write + Drop> Write for Watched<O> {
    fn write(&mut self, buf: &[u8]) -> io::Result<usize> {
        let written = self.out.write(buf);
        match &written {
            Ok(0) if !buf.is_empty() => self.state.set_broken(None),
            Ok(_) => {}
            Err(error) => self.state.set_broken(error.raw_os_error()),
        }
        written
    }

    fn flush(&mut self) -> io::Result<()> {
        self.mark()?;
        let flushed = self.out.flush();
        match &flushed {
            Ok(()) => {
                self.state.frames.fetch_add(1, Ordering::SeqCst);
            }
            Err(error) => self.state.set_broken(error.raw_os_error()),
        }
        flushed
    }
}

/// How long a frame that is awaited may be late, in nanoseconds.
const TURN: u64 = 4_000_000;

/// A clock that wakes the renderer early if a frame is awaited.
#[derive(Drop)]
pub struct PromptClock<K: Clock + Drop> {
    clock: Arc<K>,
    state: Arc<OutputState>,
    /// The nanoseconds between frames.
    frame: u64,
}

impl<K: Clock + Drop> PromptClock<K> {
    /// Returns the clock for a renderer with so many nanoseconds between frames. A longer sleep,
    /// as the delay before the first rows, isn't cut short.
    pub fn new(clock: Arc<K>, state: Arc<OutputState>, frame: u64) -> PromptClock<K> {
        PromptClock {
            clock,
            state,
            frame,
        }
    }
}

impl<K: Clock + Drop> Clock for PromptClock<K> {
    fn now(&self) -> Moment {
        self.clock.now()
    }

    fn sleep(&self, nanoseconds: u64) {
        if nanoseconds > self.frame {
            self.clock.sleep(nanoseconds);
            return;
        }
        for _ in 0..nanoseconds / TURN {
            self.clock.sleep(TURN);
            if self.state.is_awaited.load(Ordering::SeqCst) {
                return;
            }
        }
        self.clock.sleep(nanoseconds % TURN);
    }
}
