//! What the programs share: their faults, the parsing of arguments, and the writing of output.
#![tactic(auto)]

mod command_line;
mod fault;
mod output;
mod version;

pub use command_line::{arguments, number};
pub use fault::Fault;
pub use output::{report, write_all};
pub use prodash_line::render::line::terminal::{ColorChoice, Environment, dimension};
pub use version::{VERSION, version_line};
