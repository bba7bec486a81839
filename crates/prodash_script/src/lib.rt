//! Events as lines of text: `parse` reads a line, `to_line` writes it, `parse_command` reads a line
//! of a script or says what is wrong with it, and `Lines` reads lines from a stream.
#![tactic(auto)]

mod change;
mod command;
mod dashboard_line;
mod event_line;
mod labels;
mod mistake;
mod mistakes;
mod next;
mod part;
mod reading;
mod script;
mod stream;
mod units;
mod words;
mod writing;

pub use change::{Change, REASON, StepChange};
pub use command::Command;
pub use dashboard_line::{DashboardLine, parse_dashboard_line};
pub use event_line::EventLine;
pub use labels::Labels;
pub use mistake::{Argument, Mistake};
pub use next::{LIMIT, Next};
pub use reading::{parse, parse_line};
pub use script::{Names, parse_command, parse_step};
pub use stream::Lines;
pub use words::{Numbers, Words, number};
pub use writing::to_line;
