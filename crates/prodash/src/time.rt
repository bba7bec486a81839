//! Moments, clocks, and moments as texts.
mod system;

pub use prodash_base::time::{
    Clock, DATE_TIME_HMS, Moment, format_now_datetime_seconds, format_time_for_messages,
};
pub use system::SystemClock;
