use prodash_base::messages::Message;
use prodash_base::progress::Row;
use prodash_base::time::Moment;

/// What a frame shows beside the state of its dashboard.
#[derive(Clone, Copy)]
pub struct Input<'a> {
    /// The rows of the tree.
    pub rows: &'a [Row],
    /// The messages, oldest first.
    pub messages: &'a [Message],
    /// The interval between frames, in nanoseconds.
    pub nanoseconds_per_frame: u64,
    /// The moment of the frame.
    pub at: Moment,
    /// The moment of the frame as a text.
    pub time: &'a str,
    /// How many columns the tree of the tasks has; 0 if that isn't known.
    pub tree_columns: u16,
}
