//! The types that all crates of prodash share: keys, rows, messages, texts, moments, units
//! and refusals.
#![tactic(auto)]

mod appending;
pub mod laws;
pub mod messages;
pub mod progress;
mod refusal;
pub mod text;
pub mod throughput;
pub mod time;
pub mod times;
pub mod timing;
pub mod unit;

pub use refusal::Refusal;
pub use text::Text;
pub use throughput::Throughput;
pub use timing::Timer;
