ghost use Rattle.std.specs.Prelude.{◌≡◌, false};

use prodash_base::messages::{MessageCopyState, MessageLevel, Messages};
use prodash_base::progress::{Id, Rows, Step};
use prodash_base::time::Moment;
use prodash_base::unit::Unit;
use prodash_base::{Refusal, Text};
use std::alloc::AllocError;

/// A handle for the root or an item. The root's is 0, and each `AddChild` makes the next.
pub type Handle = u64;

/// An event of a session. Only `AddChild` accepts the root's handle; the other events on a handle
/// take an item's.
#[derive(Debug, PartialEq, Eq, Drop)]
pub enum Event {
    /// Adds an item below the root or another item.
    AddChild {
        /// The handle of the parent.
        parent: Handle,
        /// The name of the item.
        name: Text,
        /// The identifier of the item.
        id: Id,
    },
    /// Removes an item, but not the items below it. Its handle is no longer valid.
    Drop {
        /// The handle of the item.
        item: Handle,
    },
    /// Begins the progress of an item, at step 0.
    Init {
        /// The handle of the item.
        item: Handle,
        /// The step at which the item is done, if known.
        max: Option<Step>,
        /// The unit of the steps. Without a unit and a `max` the item has no progress.
        unit: Option<Unit>,
    },
    /// Sets the name of an item.
    SetName {
        /// The handle of the item.
        item: Handle,
        /// The new name.
        name: Text,
    },
    /// Sets the step at which an item is done, if it has progress, and returns the previous one.
    SetMax {
        /// The handle of the item.
        item: Handle,
        /// The new step at which the item is done, if known.
        max: Option<Step>,
    },
    /// Sets the counter of an item.
    Set {
        /// The handle of the item.
        item: Handle,
        /// The new step.
        step: Step,
    },
    /// Adds to the counter of an item. The step after 2^64-1 is 0.
    IncBy {
        /// The handle of the item.
        item: Handle,
        /// The steps that are added.
        step: Step,
    },
    /// Marks the progress of an item, if it has any, as blocked.
    Blocked {
        /// The handle of the item.
        item: Handle,
        /// The reason.
        reason: &'static str,
        /// The moment at which the item is expected to continue, if known.
        eta: Option<Moment>,
    },
    /// Marks the progress of an item, if it has any, as halted.
    Halted {
        /// The handle of the item.
        item: Handle,
        /// The reason.
        reason: &'static str,
        /// The moment at which the item is expected to continue, if known.
        eta: Option<Moment>,
    },
    /// Marks the progress of an item, if it has any, as running.
    Running {
        /// The handle of the item.
        item: Handle,
    },
    /// Sends a message from an item.
    Message {
        /// The handle of the item.
        item: Handle,
        /// The time of the message.
        at: Moment,
        /// The severity of the message.
        level: MessageLevel,
        /// The text of the message.
        text: Text,
    },
    /// Returns the name of an item.
    Name {
        /// The handle of the item.
        item: Handle,
    },
    /// Returns the identifier of an item.
    Id {
        /// The handle of the item.
        item: Handle,
    },
    /// Returns the counter of an item.
    Step {
        /// The handle of the item.
        item: Handle,
    },
    /// Returns the step at which an item is done.
    Max {
        /// The handle of the item.
        item: Handle,
    },
    /// Returns the unit of an item's steps.
    Unit {
        /// The handle of the item.
        item: Handle,
    },
    /// Returns the number of items that have a row.
    NumTasks,
    /// Returns the rows of all items.
    Snapshot,
    /// Returns the messages that are kept.
    CopyMessages,
    /// Returns the messages that are new since an earlier `CopyNew`.
    CopyNew {
        /// The state that the earlier event returned. Without one all messages are new.
        previous: Option<MessageCopyState>,
    },
    /// Drops the root. Its handle is no longer valid; those of items stay valid.
    DropRoot,
    /// Draws a frame: prints the new messages, and draws the rows if they are shown and have
    /// changed. Without a root it is a closing frame, and so it is without tasks, unless the
    /// renderer is to keep running.
    Tick {
        /// The moment of the frame.
        at: Moment,
        /// Whether the rows are shown.
        show: bool,
    },
    /// Sets the size of the terminal, and draws the rows of the latest tick if they are shown.
    Resize {
        /// The moment of the frame.
        at: Moment,
        /// Whether the rows are shown.
        show: bool,
        /// The columns of the terminal.
        columns: u16,
        /// The rows of the terminal.
        rows: u16,
    },
    /// Draws a closing frame: blanks the rows on screen. Further frames are refused.
    Quit {
        /// The moment of the frame.
        at: Moment,
    },
}

/// The reply of a session to an event.
#[derive(Debug, PartialEq, Eq, Drop)]
pub enum Reply {
    /// The handle of the new item.
    Made(Handle),
    /// The event was applied.
    Done,
    /// The step at which the item is done, or was before `SetMax`; `None` if it is unknown or if
    /// the item has no row or no progress.
    Bound(Option<Step>),
    /// The name of the item, or `None` if it has no row.
    Name(Option<Text>),
    /// The identifier of the item, or `UNKNOWN` if it has no row.
    Id(Id),
    /// The counter of the item, whether or not it has a row.
    Step(Step),
    /// The unit of the item's steps, or `None` if it has none, no progress or no row.
    Unit(Option<Unit>),
    /// The number of rows.
    Count(usize),
    /// The rows, in ascending order of their keys.
    Rows(Rows),
    /// The messages that are kept, the oldest first.
    Messages(Messages),
    /// The new messages, the oldest first, and the state for the next `CopyNew`.
    New(Messages, MessageCopyState),
    /// The frame was written, if it had any bytes.
    Drawn,
    /// A closing frame was written.
    Ended,
    /// The event was refused.
    Refused(Refusal),
}

impl Event {
    ghost use Rattle.prodash_core.specs.Trees.{is_frame};

    /// Returns whether the event is a frame.
    pub fn is_frame(&self) -> bool
        ensures { result ≡ is_frame self.now }
    {
        matches!(
            self,
            Event::Tick { .. } | Event::Resize { .. } | Event::Quit { .. }
        )
    }
}

impl Clone for Event {
    ghost is_clone = { λ a b. b ≡ a };

    fn clone(&self) -> Result<Event, AllocError> {
        Ok(match self {
            Event::AddChild { parent, name, id } => Event::AddChild {
                parent: *parent,
                name: name.clone()?,
                id: *id,
            },
            Event::Drop { item } => Event::Drop { item: *item },
            Event::Init { item, max, unit } => Event::Init {
                item: *item,
                max: *max,
                unit: *unit,
            },
            Event::SetName { item, name } => Event::SetName {
                item: *item,
                name: name.clone()?,
            },
            Event::SetMax { item, max } => Event::SetMax {
                item: *item,
                max: *max,
            },
            Event::Set { item, step } => Event::Set {
                item: *item,
                step: *step,
            },
            Event::IncBy { item, step } => Event::IncBy {
                item: *item,
                step: *step,
            },
            Event::Blocked { item, reason, eta } => Event::Blocked {
                item: *item,
                reason: *reason,
                eta: *eta,
            },
            Event::Halted { item, reason, eta } => Event::Halted {
                item: *item,
                reason: *reason,
                eta: *eta,
            },
            Event::Running { item } => Event::Running { item: *item },
            Event::Message {
                item,
                at,
                level,
                text,
            } => Event::Message {
                item: *item,
                at: *at,
                level: *level,
                text: text.clone()?,
            },
            Event::Name { item } => Event::Name { item: *item },
            Event::Id { item } => Event::Id { item: *item },
            Event::Step { item } => Event::Step { item: *item },
            Event::Max { item } => Event::Max { item: *item },
            Event::Unit { item } => Event::Unit { item: *item },
            Event::NumTasks => Event::NumTasks,
            Event::Snapshot => Event::Snapshot,
            Event::CopyMessages => Event::CopyMessages,
            Event::CopyNew { previous } => Event::CopyNew {
                previous: *previous,
            },
            Event::DropRoot => Event::DropRoot,
            Event::Tick { at, show } => Event::Tick {
                at: *at,
                show: *show,
            },
            Event::Resize {
                at,
                show,
                columns,
                rows,
            } => Event::Resize {
                at: *at,
                show: *show,
                columns: *columns,
                rows: *rows,
            },
            Event::Quit { at } => Event::Quit { at: *at },
        })
    }
}

impl Clone for Reply {
    ghost use Rattle.prodash_core.specs.Replies.{owns_memory};

    ghost is_clone = { λ a b. b ≡ a };

    ghost is_infallible = { λ a. owns_memory a ≡ false };

    fn clone(&self) -> Result<Reply, AllocError> {
        Ok(match self {
            Reply::Made(handle) => Reply::Made(*handle),
            Reply::Done => Reply::Done,
            Reply::Bound(bound) => Reply::Bound(*bound),
            Reply::Name(None) => Reply::Name(None),
            Reply::Name(Some(name)) => Reply::Name(Some(name.clone()?)),
            Reply::Id(id) => Reply::Id(*id),
            Reply::Step(step) => Reply::Step(*step),
            Reply::Unit(unit) => Reply::Unit(*unit),
            Reply::Count(count) => Reply::Count(*count),
            Reply::Rows(rows) => Reply::Rows(rows.clone()?),
            Reply::Messages(messages) => Reply::Messages(messages.clone()?),
            Reply::New(messages, state) => Reply::New(messages.clone()?, *state),
            Reply::Drawn => Reply::Drawn,
            Reply::Ended => Reply::Ended,
            Reply::Refused(refusal) => Reply::Refused(*refusal),
        })
    }
}
