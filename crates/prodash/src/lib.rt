//! Progress of many tasks, drawn on a terminal: the crate that users depend on.
//!
//! Begin with a [`tree::Root`], which threads share, and with [`render::line::render`], which draws
//! its tasks from threads of its own. A [`progress::Reporter`] wraps a task with an allocator and a
//! clock: it counts steps, sends messages and adds tasks below.
//!
//! ```
//! use prodash::progress::Reporter;
//! use prodash::render::line::{Options, StreamKind, render};
//! use prodash::time::SystemClock;
//! use prodash::tree::Root;
//! use std::sync::Arc;
//!
//! let root = Root::new(rt, alloc)?;
//! let clock = Arc::new(alloc, SystemClock::new(rt))?;
//! let (weak, shared) = (root.downgrade()?, Arc::try_clone(&clock)?);
//! let options = Options::detect(&rt, StreamKind::Stderr);
//! let renderer = render(rt, alloc, rt.stderr(), weak, shared, options)?;
//!
//! let mut job = Reporter::new(alloc, root.add_child(alloc, "job")?, clock);
//! job.init(Some(2), None);
//! for name in ["fetch", "verify"] {
//!     let part = job.add_child(name)?;
//!     // `part` can move to a thread, and its row disappears when it is dropped
//!     part.done("is done")?;
//!     job.inc();
//! }
//! renderer.shutdown_and_wait();
//! ```
//!
//! Without threads, [`tree::run`] takes what happens to the tasks as a list of [`tree::Event`]s,
//! and a [`render::line::draw::Screen`] to write to. Each event gets a [`tree::Reply`]. Each `Tick`
//! draws a row for each task, below the messages that the tasks sent. To apply events one at a
//! time, make a [`tree::Session`].
//!
//! ```
//! use prodash::Text;
//! use prodash::progress::UNKNOWN;
//! use prodash::render::line::draw::{self, MemoryScreen};
//! use prodash::tree::{Event, RootOptions, SessionOptions, run};
//!
//! let events = vec![in alloc;
//!     Event::AddChild { parent: 0, name: Text::from_str(alloc, "task")?, id: UNKNOWN },
//!     Event::Init { item: 1, max: Some(10), unit: None },
//!     Event::Set { item: 1, step: 3 },
//!     Event::Tick { at: 0, show: true },
//! ]?;
//! let options = SessionOptions {
//!     root: RootOptions::default(),
//!     draw: draw::Options {
//!         terminal_dimensions: (40, 20),
//!         colored: false,
//!         ..draw::Options::default()
//!     },
//!     throughput: false,
//! };
//! let mut screen = MemoryScreen::new(alloc, 0)?;
//! let replies = run(alloc, &options, &events, &mut screen)?;
//! // screen.bytes() is " task 3/10 [=======>-------------------]", a line feed, and ESC [1A
//! ```
//!
//! Then see [`progress`] for what a task shows, [`unit`] for values as texts, [`messages`] for what
//! tasks report, [`tree`] for the tasks without a screen, and [`render::line`] for the screen
//! without a tree.
#![tactic(auto)]

pub mod bounds;
pub mod laws;
pub mod messages;
pub mod progress;
pub mod render;
pub mod throughput;
pub mod time;
pub mod tree;
pub mod unit;

pub use bounds::Runtime;
pub use prodash_base::{Refusal, Text, Throughput};
pub use prodash_core::traits::{BoxedProgress, Count, NestedProgress, Progress, Root, WeakRoot};
pub use unit::Unit;
