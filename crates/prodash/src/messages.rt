//! Messages of tasks, and the ring that keeps the latest.
pub use prodash_base::messages::{
    Message, MessageCopyState, MessageLevel, MessageRingBuffer, Messages,
};
