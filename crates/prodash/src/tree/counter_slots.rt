//! The counters of a locked tree.
use crate::progress::{AtomicStep, Step, StepShared};
use prodash_core::tree::Counters;
use slab::Slab;
use std::alloc::{AllocError, Global};
use std::sync::Arc;
use std::sync::atomic::Ordering;

/// The slot of an item: its counter.
#[derive(Drop)]
pub(crate) struct CounterSlot {
    /// One owner of the item's counter.
    pub(crate) counter: StepShared,
    /// The allocator for the counter of a copy.
    pub(crate) alloc: Global,
}

/// The slots of the items. A freed slot is given to a later item.
#[derive(Drop)]
pub(crate) struct CounterSlots {
    pub(crate) slab: Slab<CounterSlot>,
}

impl Clone for CounterSlot {
    ghost is_clone = { λ slot copy. Unit {0} };

    /// Returns a slot with a counter of its own, at the same step.
    fn clone(&self) -> Result<CounterSlot, AllocError> {
        let step = self.counter.load(Ordering::SeqCst);
        let counter = Arc::new(self.alloc, AtomicStep::new(step))?;
        Ok(CounterSlot {
            counter,
            alloc: self.alloc,
        })
    }
}

impl Counters<usize> for CounterSlots {
    // Another thread may change a counter at any time.
    ghost shows = { λ slots slot number. Unit {0} };

    fn number(&self, slot: usize) -> Step {
        match self.slab.get(slot) {
            None => 0,
            Some(slot) => slot.counter.load(Ordering::SeqCst),
        }
    }
}
