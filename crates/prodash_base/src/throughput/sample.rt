/// The value of a key at one moment.
#[derive(Clone, Copy, Debug, PartialEq, Eq)]
pub struct Observation {
    /// The nanoseconds since the previous moment.
    pub elapsed: u64,
    /// The value.
    pub value: u64,
}

/// The rise of a value over a span of time.
#[derive(Clone, Copy, Debug, PartialEq, Eq)]
pub struct Sample {
    /// The span in nanoseconds.
    pub elapsed: u64,
    /// The rise of the value, at most `u128::MAX`.
    pub change: u128,
}
