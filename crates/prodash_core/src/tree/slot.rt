ghost use Rattle.std.specs.Prelude.{◌≡◌, false};

use prodash_base::progress::{Key, Step, key};

/// What a tree keeps for a handle.
#[derive(Clone, Copy, Debug)]
pub(crate) struct Slot {
    /// The key of the task.
    pub(crate) key: Key,
    /// The step that the progress of the task shows.
    pub(crate) counter: Step,
    /// The number of the next child.
    pub(crate) next_child: u32,
    /// Whether the handle is valid.
    pub(crate) is_valid: bool,
}

impl Slot {
    ghost use Rattle.prodash_core.specs.Trees.{new_slot, with_child};

    /// Returns the slot of a new handle at a key.
    pub(crate) fn new(key: Key) -> Slot
        ensures { result ≡ new_slot key }
    {
        Slot {
            key,
            counter: 0,
            next_child: 0,
            is_valid: true,
        }
    }

    /// Returns the slot after a child was added to its handle.
    pub(crate) fn with_child(self) -> Slot
        ensures { result ≡ with_child self }
    {
        Slot {
            next_child: key::next_id(self.next_child),
            ..self
        }
    }

    /// Returns the slot with this step in its counter.
    pub(crate) fn with_counter(self, counter: Step) -> Slot
        ensures { result ≡ record self { counter = counter } }
    {
        Slot { counter, ..self }
    }

    /// Returns the slot of a handle that is no longer valid.
    pub(crate) fn invalidated(self) -> Slot
        ensures { result ≡ record self { is_valid = false } }
    {
        Slot {
            is_valid: false,
            ..self
        }
    }
}
