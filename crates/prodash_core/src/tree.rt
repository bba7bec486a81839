//! The tree of tasks, sessions of events on it, and whole runs.
mod event;
mod handles;
mod options;
mod runs;
mod session;
mod slot;
mod state;
mod table;

pub use event::{Event, Handle, Reply};
pub use options::{RootOptions, SessionOptions};
pub use runs::run;
pub use session::Session;
pub use state::TreeState;
pub use table::{Counted, Counters, Task, TreeCore};
