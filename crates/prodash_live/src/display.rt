//! The renderer, and the messages that it has not printed yet. The reader waits for a frame before
//! too many are kept, so that none is lost.
use crate::output::OutputState;
use prodash::render::line::JoinHandle;
use prodash::time::Clock;
use std::sync::{Arc, Wait};
use std::thread::Threads;

/// The maximum number of messages that the tree keeps.
pub const MESSAGES: usize = 8192;

/// How many messages are sent after a frame before the next one is awaited. Those that were sent
/// while a frame was drawn may be new to the next one, so the messages after two frames are kept.
const BURST: u64 = 4095;

/// The nanoseconds between two looks at whether a frame was written.
const PAUSE: u64 = 1_000_000;

/// A renderer, and the messages that were sent since the latest frame that the reader has seen.
#[derive(Drop)]
pub struct Display<R: Wait + Threads + Clone + Drop> {
    handle: JoinHandle<R>,
    output: Arc<OutputState>,
    /// How many frames were written then.
    frames: u64,
    sent: u64,
}

impl<R: Wait + Threads + Clone + Drop> Display<R> {
    /// Returns the display of a renderer on an output, before any message.
    pub fn new(handle: JoinHandle<R>, output: Arc<OutputState>) -> Display<R> {
        Display {
            handle,
            output,
            frames: 0,
            sent: 0,
        }
    }

    /// Returns whether the output is broken.
    pub fn is_broken(&self) -> bool {
        self.output.is_broken()
    }

    /// Sets the columns and the rows of the terminal.
    pub fn resize(&self, columns: u16, rows: u16) {
        self.handle.resize(columns, rows);
    }

    /// Waits until one more message can be kept, or until the output is broken.
    pub fn make_room<K: Clock>(&mut self, rt: &R, clock: &K) {
        if !self.begins_anew() && self.sent >= BURST {
            self.output.set_awaited(true);
            for _ in rt.forever() {
                if self.begins_anew() || self.is_broken() {
                    break;
                }
                clock.sleep(PAUSE);
            }
            self.output.set_awaited(false);
        }
        self.sent = self.sent.saturating_add(1);
    }

    /// Returns whether a frame was written since the last look. Messages are counted from 0 then.
    fn begins_anew(&mut self) -> bool {
        let frames = self.output.frames();
        if frames == self.frames {
            return false;
        }
        self.frames = frames;
        self.sent = 0;
        true
    }

    /// Draws the last frames, and ends the renderer.
    pub fn close(self) {
        let Display { handle, .. } = self;
        handle.shutdown_and_wait();
    }
}
