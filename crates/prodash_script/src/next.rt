//! What reading a line ends with.

/// The maximum number of bytes of a line.
pub const LIMIT: usize = 0x1_0000;

/// What `Lines::advance` has read.
#[derive(Clone, Copy, Debug, PartialEq, Eq)]
pub enum Next {
    /// A line of at most `LIMIT` bytes.
    Line,
    /// A line of more bytes.
    TooLong,
    /// Bytes without a line feed, at the end of the stream: the line was not written whole.
    CutOff,
    /// Nothing: the stream has ended.
    End,
}
