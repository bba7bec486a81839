//! How a value is displayed with its bound, its unit, its percentage and its throughput.
pub use prodash_base::unit::display::{
    Location, Mode, Throughput, UnitDisplay, append, append_unit, append_values,
};
