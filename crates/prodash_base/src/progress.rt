//! The contents of the tree: keys, states, values and rows.
ghost use Rattle.std.specs.Prelude.{◌≡◌, ◌↔◌, IsTrue};
ghost use Rattle.std.specs.Option.{option_map};
ghost use Rattle.prodash_base.specs.Rows.{row_of};
ghost use Rattle.prodash_base.specs.Steps.{with_step};

pub mod key;
mod rows;

use crate::text::Text;
use crate::time::Moment;
use crate::unit::Unit;
pub use key::{Key, Level};
pub use rows::Rows;
use std::fmt;
use std::sync::Arc;
use std::sync::atomic::AtomicU64;

/// The progress of a task, counted in a unit of its own.
pub type Step = u64;

/// A counter of steps that is changed by atomic operations.
pub type AtomicStep = AtomicU64;

/// An owner of a counter of steps. A counter has one or more.
pub type StepShared = Arc<AtomicStep>;

/// An identifier of an item, independent of its name and the same in every run.
pub type Id = [u8; 4];

/// The identifier of an item that has none of its own.
pub const UNKNOWN: Id = [0; 4];

/// The state of a task.
#[derive(Clone, Copy, Debug, Default, PartialEq, Eq, PartialOrd, Ord, Hash)]
pub enum State {
    /// The task can't continue and can't be interrupted. Holds the reason, and the moment at which
    /// the task is expected to continue, if known.
    Blocked(&'static str, Option<Moment>),
    /// The task can't continue, but can be interrupted. Holds the reason, and the moment at which
    /// the task is expected to continue, if known.
    Halted(&'static str, Option<Moment>),
    /// The task is running.
    #[default]
    Running,
}

/// The progress of a task at one moment.
#[derive(Clone, Debug, Default, PartialEq, Eq, Drop)]
pub struct Value {
    /// The step that the task has reached.
    pub step: Step,
    /// The step at which the task is done, if known.
    pub done_at: Option<Step>,
    /// The unit of the steps, if it has one.
    pub unit: Option<Unit>,
    /// The state of the task.
    pub state: State,
}

impl Value {
    /// Returns the step and the step at which the task is done, or `None` if the latter is
    /// unknown.
    pub fn fraction(&self) -> Option<(Step, Step)>
        ensures { result ≡ option_map (λ bound. (self.now.step, bound)) self.now.done_at }
    {
        self.done_at.map(|done_at| (self.step, done_at))
    }

    /// Writes the value as it stands in a row's `Debug`: the step, the bound and the unit if they
    /// are known, and the state unless the task is running.
    fn write_in_row<W: fmt::Write>(&self, f: &mut fmt::Formatter<W>) -> fmt::Result {
        write!(f, " {}", self.step)?;
        if let Some(done_at) = self.done_at {
            write!(f, "/{done_at}")?;
        }
        if let Some(unit) = &self.unit {
            write!(f, " {unit:?}")?;
        }
        match self.state {
            State::Running => Ok(()),
            state => write!(f, " {state:?}"),
        }
    }
}

/// One item of the tree at one moment.
#[derive(Clone, PartialEq, Eq, Drop)]
pub struct Row {
    /// The place of the item in the tree.
    pub key: Key,
    /// The name of the item.
    pub name: Text,
    /// The identifier of the item.
    pub id: Id,
    /// The progress of the item, if it has any.
    pub progress: Option<Value>,
}

impl Row {
    /// Returns whether the row has this step, or no progress.
    pub fn has_step(&self, step: Step) -> bool
        ensures { IsTrue result ↔ (with_step step (row_of self.now) ≡ row_of self.now) }
    {
        match &self.progress {
            None => true,
            Some(value) => value.step == step,
        }
    }
}

impl fmt::Debug for Row {
    /// Writes the key's numbers, the name, the identifier if it is known, and the progress if there
    /// is any, as `Row [0] "task" 3/10`. A state follows unless the task is running.
    fn fmt<W: fmt::Write>(&self, f: &mut fmt::Formatter<W>) -> fmt::Result {
        write!(f, "Row {:?} {:?}", self.key.numbers(), self.name)?;
        if self.id != UNKNOWN {
            write!(f, " id {:?}", self.id)?;
        }
        match &self.progress {
            Some(value) => value.write_in_row(f),
            None => Ok(()),
        }
    }
}
