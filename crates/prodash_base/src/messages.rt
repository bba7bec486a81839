//! Messages of tasks, and the ring that keeps the latest of them.
mod list;
mod ring;

use crate::text::Text;
use crate::time::Moment;
pub use list::Messages;
pub use ring::{MessageCopyState, MessageRingBuffer};
use std::fmt;

/// How severe a message is.
#[derive(Clone, Copy, Debug, PartialEq, Eq, PartialOrd, Ord)]
pub enum MessageLevel {
    /// Information about a task, beyond its progress.
    Info,
    /// The task has failed. The message says why.
    Failure,
    /// The task has completed.
    Success,
}

/// A message of a task.
#[derive(Clone, PartialEq, Eq, Drop)]
pub struct Message {
    /// The moment at which it was sent.
    pub time: Moment,
    /// The severity of the message.
    pub level: MessageLevel,
    /// The name of the task that sent it.
    pub origin: Text,
    /// The text of the message.
    pub message: Text,
}

impl fmt::Debug for Message {
    /// Writes the moment, the severity, the origin and the text, as `Message 7 Info "task" "text"`.
    fn fmt<W: fmt::Write>(&self, f: &mut fmt::Formatter<W>) -> fmt::Result {
        let (time, level) = (self.time, self.level);
        write!(
            f,
            "Message {time} {level:?} {:?} {:?}",
            self.origin, self.message
        )
    }
}
