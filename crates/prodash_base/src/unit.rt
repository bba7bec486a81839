//! Units of values, and the texts of values with their units.
//!
//! A [`Unit`] is a [`Kind`] and a [`display::Mode`]. Its kind says how values, bounds and names are
//! shown, and its mode whether a percentage and a throughput are shown with them.
//!
//! ```rust
//! let mode = display::Mode::with_percentage().show_before_value();
//! let items = label_and_mode("items", mode);
//! let mut text = String::new(alloc);
//! items.display(alloc, 3, Some(10), None).append_to(&mut text)?;
//! assert_eq!(rt; text.as_str(), "[30%] 3/10 items");
//! ```
mod bytes;
pub mod display;
mod duration;
pub mod human;
mod kind;
pub mod label_texts;
mod message;
mod quantities;
mod range;
mod scaled;
mod traits;
mod units;

pub use bytes::Bytes;
pub use duration::Duration;
pub use human::Human;
pub use kind::Kind;
pub use message::throughput_message;
pub use range::Range;
pub use scaled::{Scale, ScaleError, Scaled, Scales};
pub use traits::DisplayValue;
pub use units::{Unit, dynamic, dynamic_and_mode, label, label_and_mode};
