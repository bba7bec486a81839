//! What a task shows: its key, state, value and row; and progress that wraps other progress, or
//! none.
pub mod key;
pub mod logging;
pub mod utils;

pub use key::Key;
pub use logging::Log;
pub use prodash_base::progress::{
    AtomicStep, Id, Row, Rows, State, Step, StepShared, UNKNOWN, Value,
};
pub use prodash_core::tree::Task;
pub use utils::{AnyProgress, Discard, DoOrDiscard, Either, Reporter, ThroughputOnDrop};
