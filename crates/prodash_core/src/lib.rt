//! The sequential core: the tree of tasks, sessions of events on it, whole runs, and the events of
//! a dashboard; and the traits of progress.
#![tactic(auto)]

pub mod laws;
pub mod render;
pub mod traits;
pub mod tree;
