//! Trees of tasks that threads share, sessions that apply events to a tree, and whole runs.
mod counter_slots;
pub mod item;
mod locked;
pub mod recorded;
pub mod root;
mod shared_task;
mod shared_tree;
mod spare_rows;
mod steps;
mod traits;
pub(crate) mod turns;

pub use item::Item;
pub use prodash_core::tree::{
    Counted, Counters, Event, Handle, Reply, RootOptions, Session, SessionOptions, Task, TreeCore,
    TreeState, run,
};
pub use root::{Root, WeakHandle};
pub use steps::Steps;
