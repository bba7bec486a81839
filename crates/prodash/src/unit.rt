//! Units of values, and the texts of values with their units.
pub mod display;
pub mod human;
pub mod label_texts;

pub use human::Human;
pub use prodash_base::unit::{
    Bytes, DisplayValue, Duration, Kind, Range, Scale, ScaleError, Scaled, Scales, Unit, dynamic,
    dynamic_and_mode, label, label_and_mode, throughput_message,
};
