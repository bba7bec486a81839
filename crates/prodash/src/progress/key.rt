//! Keys, the places of tasks in the tree, and their neighbours.
pub use prodash_base::progress::key::{Adjacency, Key, Level, SiblingLocation, next_id};
