//! What the lock of a tree protects, and the calls on it, made by the thread that holds the lock.
ghost use Rattle.std.specs.Prelude.{◌≡◌, ◌↔◌, ◌-◌, [], Err, OnOk, OnErr, IfOk, IfSome, IfErr, is_some, option_map, string_bytes, IsOkUnless};
ghost use Rattle.std.specs.FinMap as finite;
ghost use Rattle.std.specs.Map.{keys_of};
ghost use Rattle.prodash_base.specs.Adjacency.{IsAscending, paths_of};
ghost use Rattle.prodash_base.specs.Path.{child};
ghost use Rattle.prodash_base.specs.Refusals.{RefusesMessage};
ghost use Rattle.prodash_base.specs.Rings.{new_ring, messages_since};
ghost use Rattle.prodash_base.specs.Rows.{rows_of};
ghost use Rattle.prodash_base.specs.Steps.{StepsAscend};
ghost use Rattle.prodash.specs.Locks.{InsertsTask, InsertsChild, ListsTasks, name_in, begun_at};
ghost use Rattle.prodash.specs.Turns.{HasSteps, Sends};
ghost use Rattle.prodash.specs.plumbing.LockedCalls.{NoSlots, SameFreeSlots, Removes, ChangesNothing, IsAtMessageLimit};

use crate::messages::{MessageCopyState, MessageLevel, MessageRingBuffer, Messages};
use crate::progress::{AtomicStep, Id, Key, Row, Rows, Step, key};
use crate::time::Moment;
use crate::tree::counter_slots::{CounterSlot, CounterSlots};
use crate::tree::steps::Steps;
use crate::unit::Unit;
use prodash_base::Refusal;
use prodash_core::tree::{Counted, TreeCore};
use slab::Slab;
use std::alloc::Global;
use std::sync::Arc;

/// What the lock of a tree protects: the tasks, the slots of their items, the messages, the owners
/// of the root, and the number of its next child.
#[derive(Drop)]
pub struct LockedTree {
    /// The number of owners of the root.
    pub(crate) owners: u64,
    /// The number that the root's next child gets.
    next_child: u32,
    /// The tasks. A progress names its counter by a slot.
    pub(crate) table: TreeCore<usize>,
    /// The counters of the items.
    slots: CounterSlots,
    /// The latest messages.
    pub(crate) ring: MessageRingBuffer,
}

impl LockedTree {
    /// Returns a tree without tasks, which has one owner.
    pub(crate) fn new(alloc: Global, message_buffer_capacity: usize) -> Result<LockedTree, Refusal>
        ensures owners { IfOk result (λ t. t.owners ≡ 1) }
        ensures number { IfOk result (λ t. t.next_child ≡ 0) }
        ensures table { IfOk result (λ t. t.table ≡ finite.empty) }
        ensures slots { IfOk result (λ t. NoSlots t.slots) }
        ensures ring { IfOk result (λ t. t.ring ≡ new_ring message_buffer_capacity) }
        ensures reason { IsOkUnless result Refusal.Memory }
    {
        Ok(LockedTree {
            owners: 1,
            next_child: 0,
            table: TreeCore::new(alloc),
            slots: CounterSlots {
                slab: Slab::new(alloc),
            },
            ring: MessageRingBuffer::with_capacity(alloc, message_buffer_capacity)?,
        })
    }

    /// Returns a tree with one owner, and copies of the tasks, the slots, the counters and the
    /// messages.
    pub(crate) fn deep_clone(&self, alloc: Global) -> Result<LockedTree, Refusal>
        ensures owners { IfOk result (λ t. t.owners ≡ 1) }
        ensures number { IfOk result (λ t. t.next_child ≡ self.now.next_child) }
        ensures table { IfOk result (λ t. t.table ≡ self.now.table) }
        ensures slots { IfOk result (λ t. SameFreeSlots self.now.slots t.slots) }
        ensures ring { IfOk result (λ t. t.ring ≡ self.now.ring) }
        ensures reason { IsOkUnless result Refusal.Memory }
    {
        Ok(LockedTree {
            owners: 1,
            next_child: self.next_child,
            table: self.table.clone()?,
            slots: CounterSlots {
                slab: self.slots.slab.clone()?,
            },
            ring: self.ring.deep_clone(alloc)?,
        })
    }

    /// Inserts a task without progress, and fills a slot with an owner of its item's new counter.
    /// Returns the number of the slot, and the item's own steps.
    pub(crate) fn insert_task(
        &mut self,
        alloc: Global,
        key: Key,
        name: &str,
        id: Id,
    ) -> Result<(usize, Steps), Refusal>
        ensures ok { IfOk result (λ made.
            InsertsTask self.old key name.now id made.0 self.new) }
        ensures err { OnErr result (ChangesNothing self.old self.new) }
        ensures reason { IsOkUnless result Refusal.Memory }
    {
        let counter = Arc::new(alloc, AtomicStep::new(0))?;
        let steps = Steps::new(Arc::try_clone(&counter)?);
        self.slots.slab.reserve(1)?;
        self.table.insert(alloc, key, name, id)?;
        let slot = self
            .slots
            .slab
            .insert_reserved(CounterSlot { counter, alloc });
        Ok((slot, steps))
    }

    /// Adds a child to the root. Returns its key, and what `insert_task` returns.
    pub(crate) fn add_child(
        &mut self,
        alloc: Global,
        name: &str,
        id: Id,
    ) -> Result<(Key, usize, Steps), Refusal>
        ensures key { IfOk result (λ made. made.0 ≡ child [] self.old.next_child) }
        ensures ok { IfOk result (λ made.
            InsertsChild self.old made.0 name.now id made.1 self.new) }
        ensures err { OnErr result (ChangesNothing self.old self.new) }
        ensures reason { IsOkUnless result Refusal.Memory }
    {
        let key = Key::default().add_child(self.next_child);
        let (slot, steps) = self.insert_task(alloc, key, name, id)?;
        self.next_child = key::next_id(self.next_child);
        Ok((key, slot, steps))
    }

    /// Removes the task at the key of an item, if there is one, and frees the item's slot.
    pub(crate) fn remove_task(&mut self, key: Key, slot: usize)
        ensures { Removes self.old key slot self.new }
    {
        self.slots.slab.try_remove(slot);
        self.table.remove(key);
    }

    /// Removes an owner of the root.
    pub(crate) fn remove_owner(&mut self)
        ensures { self.new ≡ record self.old { owners = self.old.owners - 1 } }
    {
        self.owners = self.owners.saturating_sub(1);
    }

    /// Replaces the contents of `out` with the rows, in ascending order of their keys. A name is
    /// copied only if `out` has a different one at that index.
    pub(crate) fn copy_rows(&self, alloc: Global, out: &mut Vec<Row>) -> Result<(), Refusal>
        ensures ascending { OnOk result (IsAscending (paths_of out.new.items)) }
        ensures tasks { OnOk result (ListsTasks self.now (rows_of out.new.items)) }
        ensures err { OnErr result (out.new.items ≡ out.old.items) }
        ensures reason { IsOkUnless result Refusal.Memory }
    {
        self.table.refill(alloc, &self.slots, out)?;
        Ok(())
    }

    /// Copies the rows as `copy_rows` does, and returns the messages sent since an earlier copy and
    /// the state for the next copy.
    pub(crate) fn copy_rows_and_new_messages(
        &self,
        alloc: Global,
        out: &mut Vec<Row>,
        previous: Option<MessageCopyState>,
    ) -> Result<(Messages, MessageCopyState), Refusal>
        ensures ascending { OnOk result (IsAscending (paths_of out.new.items)) }
        ensures tasks { OnOk result (ListsTasks self.now (rows_of out.new.items)) }
        ensures messages { IfOk result (λ news. news.0 ≡ messages_since self.now.ring previous) }
        ensures state { IfOk result (λ news. news.1 ≡ self.now.ring.pushed) }
        ensures err { OnErr result (out.new.items ≡ out.old.items) }
        ensures reason { IsOkUnless result Refusal.Memory }
    {
        let spare = Messages::new(Vec::new(alloc));
        let news = self.ring.new_messages(spare, previous)?;
        self.copy_rows(alloc, out)?;
        Ok(news)
    }

    /// Returns the rows, in ascending order of their keys; the messages sent since an earlier copy;
    /// and the state for the next copy. The memory of `spare` is reused, whatever it contains.
    pub(crate) fn look(
        &self,
        spare: (Rows, Messages),
        previous: Option<MessageCopyState>,
    ) -> Result<(Rows, Messages, MessageCopyState), Refusal>
        ensures ascending { IfOk result (λ seen. IsAscending (keys_of seen.0)) }
        ensures tasks { IfOk result (λ seen. ListsTasks self.now seen.0) }
        ensures messages { IfOk result (λ seen. seen.1 ≡ messages_since self.now.ring previous) }
        ensures state { IfOk result (λ seen. seen.2 ≡ self.now.ring.pushed) }
        ensures reason { IsOkUnless result Refusal.Memory }
    {
        let (spare_rows, spare_messages) = spare;
        let rows = self.table.rows_reusing(&self.slots, spare_rows)?;
        let (messages, state) = self.ring.new_messages(spare_messages, previous)?;
        Ok((rows, messages, state))
    }

    /// Returns what `look` returns, with the steps of the rows in place of the rows, if the rows are
    /// these but for their steps. The memory of `spare` is reused, whatever it contains.
    pub(crate) fn look_at_steps(
        &self,
        rows: &Rows,
        spare: (Vec<Step>, Messages),
        previous: Option<MessageCopyState>,
    ) -> Result<Option<(Vec<Step>, Messages, MessageCopyState)>, Refusal>
        ensures ascending { IfOk result (StepsAscend rows.now) }
        ensures seen { IfOk result (λ found. HasSteps rows.now previous found self.now) }
        ensures reason { IsOkUnless result Refusal.Memory }
    {
        let (spare_steps, spare_messages) = spare;
        let Some(steps) = self.table.steps_over(&self.slots, rows, spare_steps)? else {
            return Ok(None);
        };
        let (messages, state) = self.ring.new_messages(spare_messages, previous)?;
        Ok(Some((steps, messages, state)))
    }

    /// Begins the progress of the task at a key, whose item has a slot. Returns whether there is a
    /// task.
    pub(crate) fn init(
        &mut self,
        key: Key,
        slot: usize,
        max: Option<Step>,
        unit: Option<Unit>,
    ) -> bool
        ensures found { result ≡ is_some (finite.get self.old.table key) }
        ensures after { self.new ≡ begun_at self.old key slot max unit }
    {
        self.table.init(key, Counted::begin(slot, max, unit))
    }

    /// Returns a copy of the name of the task at a key, if there is one.
    pub(crate) fn name(&self, alloc: Global, key: Key) -> Result<Option<String>, Refusal>
        ensures ok { IfOk result (λ name. option_map string_bytes name ≡ name_in self.now key) }
        ensures reason { IsOkUnless result Refusal.Memory }
    {
        match self.table.name(key) {
            None => Ok(None),
            Some(name) => Ok(Some(String::from_str(alloc, name)?)),
        }
    }

    /// Sends a message of the task at a key.
    pub(crate) fn message(
        &mut self,
        alloc: Global,
        key: Key,
        at: Moment,
        level: MessageLevel,
        text: &str,
    ) -> Result<(), Refusal>
        ensures ok { OnOk result (Sends key at level text.now self.old self.new) }
        ensures too_many { (result ≡ Err Refusal.TooManyMessages) ↔ IsAtMessageLimit self.old }
        ensures err { OnErr result (self.new ≡ self.old) }
        ensures reason { IfErr result RefusesMessage }
    {
        let LockedTree {
            ref table,
            ref mut ring,
            ..
        } = *self;
        let origin = table.name(key).unwrap_or("");
        ring.push_overwrite(alloc, at, level, origin, text)
    }
}
