//! A bound of one word for what a program with threads and a renderer asks of its runtime.
use crate::render::line::StandardStreams;
use std::rt::{self, Env, Files};
use std::sync::Wait;
use std::thread::Threads;

/// What the runtime that `main` is given can do: threads, locks, arguments and variables, files,
/// the standard streams, the clock, printing and memory. Every type that can do these is a
/// `Runtime`, and may be copied to a thread.
///
/// It is enough for `Root::new`, `render`, `Options::detect` and `SystemClock::new`.
///
/// ```rust
/// fn work<R: Runtime>(rt: R) -> anyhow::Result<()> {
///     let root = Root::new(rt, rt.alloc())?;
/// ```
pub trait Runtime: Wait
    + Threads
    + Env
    + Files<File: Send, Dir: Send>
    + StandardStreams
    + rt::Clock
    + Print
    + AllocGlobal
    + Copy
    + Send
    + Sync
    + 'static {}

impl<R> Runtime for R
where
    R: Wait
        + Threads
        + Env
        + Files<File: Send, Dir: Send>
        + StandardStreams
        + rt::Clock
        + Print
        + AllocGlobal
        + Copy
        + Send
        + Sync
        + 'static,
{}
