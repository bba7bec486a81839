//! What a label shows, for kinds of your own.
pub use prodash_base::unit::label_texts::{
    display_current_value, display_percentage, display_upper_bound, fraction_and_time_unit,
    separator,
};
