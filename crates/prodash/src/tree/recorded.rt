//! A tree on which the calls of many threads are recorded in one journal.
//!
//! Each thread has a [`RecordedItem`], and makes its calls under the lock of the tree. At the end
//! each item gives back its [`Share`], and [`RecordedRoot::close`] takes them for the [`Journal`]:
//! the events and their replies, as one thread could have made them, with as many entries as calls
//! were accepted. For each accepted call there is a [`Receipt`], by which its caller finds it in
//! the journal.
//!
//! Code that reports by the traits of progress does so on a recorded tree by a [`Recorder`], whose
//! tasks are progress. A [`RecordedView`] is a root, by which the tree is drawn.
mod audited_root;
mod closed_recording;
mod history;
mod journal;
mod kept_calls;
mod ledgers;
mod locked_recording;
mod look_receipt;
mod receipt;
mod recorder;
mod replies;
mod root;
mod share;
mod shown;
mod state;
mod task;
mod task_steps;
mod task_traits;
mod traits;
pub(crate) mod turns;
mod unshared_parts;
mod view;

pub use audited_root::AuditedRoot;
pub use history::History;
pub use journal::Journal;
pub use kept_calls::RecordedCalls;
pub use ledgers::{Ledgers, TreeLedger};
pub use look_receipt::LookReceipt;
pub use receipt::Receipt;
pub use recorder::Recorder;
pub use root::{RecordedItem, RecordedRoot, Unclosed};
pub use share::Share;
pub use state::RecordedState;
pub use task::RecordedTask;
pub use view::{RecordedView, WeakView};
