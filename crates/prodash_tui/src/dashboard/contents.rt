//! What a frame of a dashboard shows.
use prodash_base::messages::Message;
use prodash_base::progress::Row;
use prodash_base::time::Moment;

/// What a frame of a dashboard shows beside its state.
#[derive(Clone, Copy)]
pub struct Contents<'a> {
    /// The rows of the tree, in strictly ascending order of their keys.
    pub rows: &'a [Row],
    /// The messages, oldest first.
    pub messages: &'a [Message],
    /// The moment of the frame.
    pub at: Moment,
    /// The moment of the frame as a text.
    pub time: &'a str,
}
