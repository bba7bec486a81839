//! What the crates of tests build their inputs with: short forms of rows and messages, frames that
//! more than one of them expects, options, and a screen that breaks; and a record of calls, some of
//! which may run out of memory.
#![tactic(auto)]

ghost use Rattle.std.specs.Prelude.{take};

mod calls;

pub use calls::Calls;
use prodash_base::messages::{Message, MessageLevel, Messages};
use prodash_base::progress::{Key, Row, Rows, State, UNKNOWN, Value};
use prodash_base::{Refusal, Text};
use prodash_line::render::line::draw::{Options, Screen};
use std::alloc::{AllocError, Global};

/// `task` at 3 of 10, on 40 columns.
pub const TASK_FRAME: &str = " task 3/10 [=======>-------------------]\n\x1b[1A";

/// After that, the message `one` of `task`, and `task` at 4 of 10.
pub const MESSAGE_FRAME: &str = " task one                               \n \
task 4/10 [==========>----------------]\n\x1b[1A";

/// Frames on a terminal of 40 columns and 20 rows.
pub const TERMINAL: Options = Options {
    level_filter: None,
    terminal_dimensions: (40, 20),
    keep_running_if_progress_is_empty: true,
    output_is_terminal: true,
    colored: false,
    timestamp: false,
    hide_cursor: false,
    defensive: false,
    synchronized: false,
    whole_messages: false,
    bare_without_origin: false,
    bar_columns: None,
    ascii: false,
    times: false,
    prefer_running: false,
};

/// A step, and a bound if there is one.
pub type Progress = Option<(u64, Option<u64>)>;

/// The numbers of a key, a name, and a progress.
pub type ShortRow = (&'static [u32], &'static str, Progress);

/// The origin of a message, and its text.
pub type ShortMessage = (&'static str, &'static str);

/// The key with these numbers.
pub fn key_at(numbers: &[u32]) -> Key {
    let mut key = Key::default();
    for n in numbers {
        key = key.add_child(*n);
    }
    key
}

/// The row of a task that is running, if it has a progress.
pub fn row(alloc: Global, key: Key, name: &str, progress: Progress) -> Result<Row, AllocError> {
    let progress = progress.map(|(step, done_at)| Value {
        step,
        done_at,
        unit: None,
        state: State::Running,
    });
    Ok(Row {
        key,
        name: Text::from_str(alloc, name)?,
        id: UNKNOWN,
        progress,
    })
}

/// These rows, in their order.
pub fn rows(alloc: Global, short: &[ShortRow]) -> Result<Rows, AllocError> {
    let mut rows = Vec::new(alloc);
    for (numbers, name, progress) in short {
        rows.push(row(alloc, key_at(numbers), name, *progress)?)?;
    }
    Ok(Rows::new(rows))
}

/// A message.
pub fn message(
    alloc: Global,
    time: u64,
    level: MessageLevel,
    origin: &str,
    text: &str,
) -> Result<Message, AllocError> {
    Ok(Message {
        time,
        level,
        origin: Text::from_str(alloc, origin)?,
        message: Text::from_str(alloc, text)?,
    })
}

/// These messages, in their order, all of the severity `Info` and of the moment 0.
pub fn messages(alloc: Global, short: &[ShortMessage]) -> Result<Messages, AllocError> {
    let mut messages = Vec::new(alloc);
    for (origin, text) in short {
        messages.push(message(alloc, 0, MessageLevel::Info, origin, text)?)?;
    }
    Ok(Messages::new(messages))
}

/// Copies of the values.
pub fn clones<T: Clone + Drop>(alloc: Global, values: &[T]) -> Result<Vec<T>, AllocError> {
    let mut copies = Vec::new(alloc);
    for value in values {
        copies.push(value.clone()?)?;
    }
    Ok(copies)
}

/// A screen that takes at most `at_once` bytes at a time, and breaks once it has taken `left` more,
/// or when it is flushed.
#[derive(Drop)]
pub struct FakeScreen {
    /// The bytes that it has taken.
    pub bytes: Vec<u8>,
    /// How many of the bytes were flushed.
    pub flushed: usize,
    /// How many bytes it takes at a time.
    pub at_once: usize,
    /// How many bytes it still takes before it breaks.
    pub left: usize,
    /// Whether it can be flushed. If not, a flush breaks it.
    pub flushes: bool,
    /// Whether it is broken.
    pub broken: bool,
}

impl FakeScreen {
    /// Returns a screen that has taken nothing. Fails if out of memory.
    pub fn new(
        alloc: Global,
        at_once: usize,
        left: usize,
        flushes: bool,
    ) -> Result<FakeScreen, AllocError> {
        Ok(FakeScreen {
            bytes: Vec::with_capacity(alloc, 200)?,
            flushed: 0,
            at_once,
            left,
            flushes,
            broken: false,
        })
    }
}

impl Screen for FakeScreen {
    ghost state = { λ s. record {
      bytes = s.bytes.items;
      flushed = take s.flushed s.bytes.items;
      broken = s.broken;
    } };

    fn put(&mut self, bytes: &[u8]) -> Result<usize, Refusal> {
        let count = bytes.len().min(self.at_once).min(self.left);
        if self.broken || count == 0 || self.bytes.extend_from_slice(&bytes[..count]).is_err() {
            self.broken = true;
            return Err(Refusal::Broken);
        }
        self.left -= count;
        Ok(count)
    }

    fn flush(&mut self) -> Result<(), Refusal> {
        if self.broken || !self.flushes {
            self.broken = true;
            return Err(Refusal::Broken);
        }
        self.flushed = self.bytes.len();
        Ok(())
    }

    fn is_broken(&self) -> bool {
        self.broken
    }
}
