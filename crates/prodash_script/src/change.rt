ghost use Rattle.std.specs.Prelude.{◌≡◌};
ghost use Rattle.prodash_script.specs.EventLines.{change_event};
ghost use Rattle.prodash_script.specs.Reading.{plain};

use prodash_base::Text;
use prodash_base::messages::MessageLevel;
use prodash_base::progress::Step;
use prodash_base::time::Moment;
use prodash_base::unit::Unit;
use prodash_core::tree::{Event, Handle};

/// The reason of a task that a line marks as blocked or halted.
pub const REASON: &str = "replay";

/// A change of an item, or a message that it sends.
#[derive(Debug, Drop)]
pub enum Change {
    /// Its progress begins, at step 0.
    Init {
        /// The step at which the item is done, if known.
        max: Option<Step>,
        /// The unit of the steps.
        unit: Option<Unit>,
    },
    /// It has this name.
    SetName(Text),
    /// It is done at this step, if that is known.
    SetMax(Option<Step>),
    /// Its counter is this step.
    Set(Step),
    /// Its counter is raised by this many steps.
    IncBy(Step),
    /// It is blocked.
    Blocked,
    /// It is halted.
    Halted,
    /// It is running.
    Running,
    /// It sends a message.
    Message {
        /// The time of the message.
        at: Moment,
        /// The severity of the message.
        level: MessageLevel,
        /// The text of the message.
        text: Text,
    },
}

/// A change of the step of an item.
#[derive(Clone, Copy, Debug)]
pub enum StepChange {
    /// Its counter is this step.
    Set(Step),
    /// Its counter is raised by this many steps.
    IncBy(Step),
}

impl From<StepChange> for Change {
    ghost use Rattle.prodash_script.specs.Steps.{as_change};

    ghost from_gives = { λ step change. change ≡ as_change step };

    fn from(step: StepChange) -> Change {
        match step {
            StepChange::Set(step) => Change::Set(step),
            StepChange::IncBy(step) => Change::IncBy(step),
        }
    }
}

impl Change {
    /// Returns the event that makes this change of an item.
    pub fn into_event(self, item: Handle) -> Event
        ensures { plain result ≡ change_event item self }
    {
        let (reason, eta) = (REASON, None);
        match self {
            Change::Init { max, unit } => Event::Init { item, max, unit },
            Change::SetName(name) => Event::SetName { item, name },
            Change::SetMax(max) => Event::SetMax { item, max },
            Change::Set(step) => Event::Set { item, step },
            Change::IncBy(step) => Event::IncBy { item, step },
            Change::Blocked => Event::Blocked { item, reason, eta },
            Change::Halted => Event::Halted { item, reason, eta },
            Change::Running => Event::Running { item },
            Change::Message { at, level, text } => Event::Message {
                item,
                at,
                level,
                text,
            },
        }
    }
}
