//! Progress that wraps other progress, or none.
mod any_progress;
mod discard;
mod do_or_discard;
mod either;
mod reporter;
mod throughput_on_drop;

pub use any_progress::AnyProgress;
pub use discard::Discard;
pub use do_or_discard::DoOrDiscard;
pub use either::Either;
pub use reporter::Reporter;
pub use throughput_on_drop::ThroughputOnDrop;
