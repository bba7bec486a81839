ghost use Rattle.std.specs.Prelude.{◌≡◌, ◌-◌, ◌<◌, [], ◌∷◌, ◌++◌, length, take, slice_get, slice_set, OnOk, OnErr, IfOk};
ghost use Rattle.prodash_core.specs.Trees.{if_valid, new_slot};
ghost use Rattle.prodash_core.specs.plumbing.Handles.{SetsSlot, raised};

use crate::tree::event::Handle;
use crate::tree::slot::Slot;
use crate::tree::table::Counters;
use prodash_base::progress::{Key, Step};
use std::alloc::{AllocError, Global};
use std::marker::Model;

/// All handles that were made, each with its slot, in the order in which they were made.
#[derive(Drop)]
pub(crate) struct Handles {
    slots: Vec<Slot>,
}

impl Model for Handles {
    ghost use Rattle.std.specs.Prelude.{List};
    ghost use Rattle.prodash_core.specs.declared.tree.slot.Slot.{Slot};

    ghost Value = { List Slot };

    ghost view = { λ s. s.slots.items };
}

impl Handles {
    /// Returns the root's handle alone.
    pub(crate) fn new(alloc: Global) -> Result<Handles, AllocError>
        ensures { IfOk result (λ s. s ≡ new_slot [] ∷ []) }
    {
        let mut slots = Vec::new(alloc);
        slots.push(Slot::new(Key::default()))?;
        Ok(Handles { slots })
    }

    /// Returns how many handles were made, which is also the next handle.
    pub(crate) fn len(&self) -> Handle
        ensures { result ≡ length self.now }
    {
        self.slots.len() as Handle
    }

    /// Returns the slot of a handle, if the handle is valid.
    pub(crate) fn valid(&self, handle: Handle) -> Option<Slot>
        ensures { result ≡ if_valid (slice_get self.now handle) }
    {
        match self.slots.get(handle as usize) {
            Some(slot) if slot.is_valid => Some(*slot),
            _ => None,
        }
    }

    /// Sets the counter of a handle, and returns whether the handle is valid.
    pub(crate) fn set_counter(&mut self, handle: Handle, counter: Step) -> bool
        ensures { SetsSlot self.old handle (λ slot. record slot { counter = counter })
            result self.new }
    {
        match self.slots.get(handle as usize) {
            Some(slot) if slot.is_valid => {}
            _ => return false,
        }
        self.slots[handle as usize].counter = counter;
        true
    }

    /// Adds steps to the counter of a handle, and returns whether the handle is valid. The step
    /// after 2^64-1 is 0.
    pub(crate) fn add_steps(&mut self, handle: Handle, step: Step) -> bool
        ensures { SetsSlot self.old handle (raised step) result self.new }
    {
        match self.slots.get(handle as usize) {
            Some(slot) if slot.is_valid => {}
            _ => return false,
        }
        let counter = &mut self.slots[handle as usize].counter;
        *counter = counter.wrapping_add(step);
        true
    }

    /// Replaces the slot of a handle.
    pub(crate) fn put(&mut self, handle: Handle, slot: Slot)
        requires { handle < length self.old }
        ensures { self.new ≡ slice_set self.old handle slot }
    {
        self.slots[handle as usize] = slot;
    }

    /// Makes the next handle, with this slot. Without memory for it, nothing changes.
    pub(crate) fn push(&mut self, slot: Slot) -> Result<(), AllocError>
        ensures ok { OnOk result (self.new ≡ self.old ++ slot ∷ []) }
        ensures err { OnErr result (self.new ≡ self.old) }
    {
        self.slots.push(slot)?;
        Ok(())
    }

    /// Removes the handle that was made last.
    pub(crate) fn pop(&mut self)
        ensures { self.new ≡ take (length self.old - 1) self.old }
    {
        self.slots.pop();
    }
}

impl Clone for Handles {
    ghost is_clone = { λ a b. b ≡ a };

    /// Returns a copy with counters of its own.
    fn clone(&self) -> Result<Handles, AllocError> {
        let slots = self.slots.clone()?;
        Ok(Handles { slots })
    }
}

impl Counters<Handle> for Handles {
    ghost use Rattle.prodash_core.specs.Trees.{counter_at};

    ghost shows = { λ handles handle number. number ≡ counter_at handles handle };

    fn number(&self, counter: Handle) -> Step {
        self.slots
            .get(counter as usize)
            .map_or(0, |slot| slot.counter)
    }
}
