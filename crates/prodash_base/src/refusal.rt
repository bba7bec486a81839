ghost use Rattle.std.specs.Prelude.{◌≡◌};
ghost use Rattle.prodash_base.specs.declared.refusal.Refusal.TheVariants.{Memory};

use std::alloc::{AllocError, AllocFailed};
use thiserror::Error;

/// The reason why a call was refused.
#[derive(Clone, Copy, Debug, PartialEq, Eq, Error)]
pub enum Refusal {
    /// The call ran out of memory. Nothing has changed.
    #[error("no memory")]
    Memory,
    /// As many messages as a `u64` can count were pushed already. Nothing has changed.
    #[error("too many messages")]
    TooManyMessages,
    /// The handle was never made or is no longer valid, or it is the root's where an item's is
    /// needed. Nothing has changed.
    #[error("no such handle")]
    Gone,
    /// The renderer has already written its closing frame. Nothing has changed.
    #[error("renderer is closed")]
    Closed,
    /// The screen is broken. From now on the renderer returns this for every frame.
    #[error("output is broken")]
    Broken,
    /// A root has 2^64 - 1 owners, a recorded tree has made 2^64 - 1 shares, or a recorded item has
    /// made 2^64 - 1 calls. Nothing has changed.
    #[error("too many handles")]
    TooManyHandles,
    /// A thread couldn't be started. Those that the call had started end.
    #[error("no thread")]
    NoThread,
}

impl From<AllocError> for Refusal {
    ghost from_gives = { λ _ e. e ≡ Memory };

    fn from(_error: AllocError) -> Refusal {
        Refusal::Memory
    }
}

impl<T: Drop> From<AllocFailed<T>> for Refusal {
    ghost from_gives = { λ _ e. e ≡ Memory };

    fn from(_error: AllocFailed<T>) -> Refusal {
        Refusal::Memory
    }
}
