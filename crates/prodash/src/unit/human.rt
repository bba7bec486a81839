//! Large numbers in short, as `2.54M`.
pub use prodash_base::unit::human::{Formatter, Human};
