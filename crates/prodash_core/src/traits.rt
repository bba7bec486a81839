//! The traits of the progress of a task, of the root of a tree of tasks, and of its weak handle.
mod boxed;
mod count;
mod progress;
mod references;
mod root;

pub use boxed::BoxedProgress;
pub use count::Count;
pub use progress::{NestedProgress, Progress};
pub use root::{Root, WeakRoot};
