ghost use Rattle.std.specs.Prelude.{◌≡◌};
ghost use Rattle.prodash_script.specs.EventLines.{line_event};
ghost use Rattle.prodash_script.specs.Reading.{plain};

use crate::change::Change;
use prodash_base::Text;
use prodash_base::progress::UNKNOWN;
use prodash_base::time::Moment;
use prodash_core::tree::{Event, Handle};

/// What a line of events says.
#[derive(Debug, Drop)]
pub enum EventLine {
    /// An item is added.
    Add {
        /// The handle of its parent.
        parent: Handle,
        /// Its name.
        name: Text,
    },
    /// The item of this handle is dropped.
    Drop(Handle),
    /// The root is dropped.
    DropRoot,
    /// The item of this handle changes.
    Change(Handle, Change),
    /// A frame is drawn.
    Tick {
        /// The moment of the frame.
        at: Moment,
        /// Whether it shows the rows.
        show: bool,
    },
    /// The terminal has another size, and a frame is drawn.
    Resize {
        /// The moment of the frame.
        at: Moment,
        /// The columns of the terminal.
        columns: u16,
        /// The rows of the terminal.
        rows: u16,
    },
    /// The closing frame of this moment is drawn.
    Quit(Moment),
}

impl EventLine {
    /// Returns the event of the line.
    pub fn into_event(self) -> Event
        ensures { plain result ≡ line_event self }
    {
        match self {
            EventLine::Add { parent, name } => Event::AddChild {
                parent,
                name,
                id: UNKNOWN,
            },
            EventLine::Drop(item) => Event::Drop { item },
            EventLine::DropRoot => Event::DropRoot,
            EventLine::Change(item, change) => change.into_event(item),
            EventLine::Tick { at, show } => Event::Tick { at, show },
            EventLine::Resize { at, columns, rows } => Event::Resize {
                at,
                show: true,
                columns,
                rows,
            },
            EventLine::Quit(at) => Event::Quit { at },
        }
    }
}
