//! The throughput of the tasks that a renderer draws.
pub use prodash_base::throughput::{FrameThroughput, Throughput};
