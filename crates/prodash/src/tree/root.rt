//! Owners of the tree.
ghost use Rattle.std.specs.Prelude.{◌≡◌, ◌<◌, ℕ, [], is_some, IfOk, IfSome, IfErr, OnOk, OnErr, IsOkUnless};
ghost use Rattle.std.specs.Map.{keys_of};
ghost use Rattle.prodash_base.specs.Refusals.{RefusesHandle};
ghost use Rattle.prodash_base.specs.Adjacency.{IsAscending, paths_of};
ghost use Rattle.prodash_base.specs.Path.{child, child_limit};
ghost use Rattle.prodash.specs.Items.{new_place};
ghost use Rattle.prodash_base.specs.Rows.{rows_of, unknown_id};
ghost use Rattle.prodash_base.specs.Steps.{StepsAscend};
ghost use Rattle.prodash.specs.Turns.{Finds, Changes, HasTasks, KeepsAtMost, HasRows, HasMessages, HasNews, HasRowsAndNews, HasSteps, CopiesRowsAndNews, AddsChild, GetsOwner, Upgrades};

use crate::messages::{Message, MessageCopyState, Messages};
use crate::progress::{Id, Row, Rows, Step, UNKNOWN};
use crate::tree::item::Item;
use crate::tree::locked::LockedTree;
use crate::tree::shared_tree::SharedTree;
use crate::tree::spare_rows;
use crate::tree::turns::{TakesTurns, Turns};
use prodash_base::Refusal;
use std::alloc::Global;
use std::sync::Wait;

/// Options for a tree.
#[derive(Clone, Copy, Debug)]
pub struct Options {
    /// The expected number of tasks. No memory is reserved for them.
    pub initial_capacity: usize,
    /// The greatest number of messages that are kept.
    pub message_buffer_capacity: usize,
}

impl Default for Options {
    /// Returns options for 100 tasks and 20 messages.
    fn default() -> Options
        ensures { result ≡ record { initial_capacity = 100; message_buffer_capacity = 20 } }
    {
        Options {
            initial_capacity: 100,
            message_buffer_capacity: 20,
        }
    }
}

impl Options {
    /// Returns a tree without tasks.
    ///
    /// # Errors
    ///
    /// `Memory`, if there is no memory for it.
    pub fn create<R: Wait + Clone + Drop>(self, rt: R, alloc: Global) -> Result<Root<R>, Refusal>
        ensures { IsOkUnless result Refusal.Memory }
    {
        let locked = LockedTree::new(alloc, self.message_buffer_capacity)?;
        Ok(Root {
            rt,
            tree: SharedTree::new(alloc, locked)?,
        })
    }
}

/// An owner of a tree that threads share. The tree is behind one lock: all calls except those on
/// counters may wait for it.
///
/// ```rust
/// let root = Options::default().create(rt, alloc)?;
/// let mut item = root.add_child(alloc, "task")?;
/// item.init(Some(10), None);
/// item.set(3);
/// item.info(alloc, now, "three are done")?;
/// let mut rows = Vec::new(alloc);
/// root.sorted_snapshot(alloc, &mut rows)?;
/// ```
pub struct Root<R: Wait + Clone + Drop> {
    rt: R,
    tree: SharedTree,
}

impl<R: TakesTurns> Root<R> {
    /// Returns a tree without tasks, with the default options.
    ///
    /// # Errors
    ///
    /// `Memory`, if there is no memory for it.
    pub fn new(rt: R, alloc: Global) -> Result<Root<R>, Refusal>
        ensures { IsOkUnless result Refusal.Memory }
    {
        Options::default().create(rt, alloc)
    }

    /// Adds an item below the root.
    ///
    /// # Errors
    ///
    /// `Memory`, if there is no memory for it. No child number is used up then.
    pub fn add_child(&self, alloc: Global, name: &str) -> Result<Item<R>, Refusal>
        ensures ok { IfOk result (λ item. (n : ℕ) × (n < child_limit)
            × (item ≡ new_place (child [] n))) }
        ensures added { IfOk result (λ it.
            Changes R.found R.left (AddsChild it.path name.now unknown_id)) }
        ensures reason { IsOkUnless result Refusal.Memory }
    {
        self.add_child_with_id(alloc, name, UNKNOWN)
    }

    /// Does what `add_child` does, and gives the item an identifier.
    ///
    /// # Errors
    ///
    /// `Memory`, if there is no memory for it. No child number is used up then.
    pub fn add_child_with_id(&self, alloc: Global, name: &str, id: Id) -> Result<Item<R>, Refusal>
        ensures ok { IfOk result (λ item. (n : ℕ) × (n < child_limit)
            × (item ≡ new_place (child [] n))) }
        ensures added { IfOk result (λ it.
            Changes R.found R.left (AddsChild it.path name.now id)) }
        ensures reason { IsOkUnless result Refusal.Memory }
    {
        let rt = self.rt.clone()?;
        let turns = &mut Turns::new(&self.rt);
        let task = self.tree.add_child(turns, alloc, name, id)?;
        Ok(Item::new(rt, task))
    }

    /// Returns the number of tasks. Another thread may change it at any time.
    pub fn num_tasks(&self) -> usize
        ensures { Finds R.found (HasTasks result) }
    {
        self.tree.num_tasks(&mut Turns::new(&self.rt))
    }

    /// Returns the greatest number of messages that the tree keeps.
    pub fn messages_capacity(&self) -> usize
        ensures { Finds R.found (KeepsAtMost result) }
    {
        self.tree.messages_capacity(&mut Turns::new(&self.rt))
    }

    /// Replaces the contents of `out` with the rows, in ascending order of their keys, each key
    /// once. A name is copied only if `out` has a different one at that index: if it has the rows
    /// of an earlier snapshot, and the tasks are still the same, nothing is allocated.
    ///
    /// # Errors
    ///
    /// `Memory`, if there is no memory for the rows; then `out` stays as it was.
    pub fn sorted_snapshot(&self, alloc: Global, out: &mut Vec<Row>) -> Result<(), Refusal>
        ensures ok { OnOk result (Finds R.found (HasRows (rows_of out.new.items))) }
        ensures ascending { OnOk result (IsAscending (paths_of out.new.items)) }
        ensures err { OnErr result (out.new.items ≡ out.old.items) }
        ensures reason { IsOkUnless result Refusal.Memory }
    {
        self.tree
            .sorted_snapshot(&mut Turns::new(&self.rt), alloc, out)
    }

    /// Replaces the contents of `out` with the kept messages, the oldest first.
    ///
    /// # Errors
    ///
    /// `Memory`, if there is no memory for the messages; then `out` stays as it was.
    pub fn copy_messages(&self, alloc: Global, out: &mut Vec<Message>) -> Result<(), Refusal>
        ensures ok { OnOk result (Finds R.found (HasMessages out.new.items)) }
        ensures err { OnErr result (out.new.items ≡ out.old.items) }
        ensures reason { IsOkUnless result Refusal.Memory }
    {
        self.tree
            .copy_messages(&mut Turns::new(&self.rt), alloc, out)
    }

    /// Replaces the contents of `out` with the kept messages that were sent since the copy that
    /// returned `previous`, or with all kept messages if that is `None`, the oldest first. Returns
    /// the state for the next copy.
    ///
    /// # Errors
    ///
    /// `Memory`, if there is no memory for the messages; then `out` stays as it was.
    pub fn copy_new_messages(
        &self,
        alloc: Global,
        out: &mut Vec<Message>,
        previous: Option<MessageCopyState>,
    ) -> Result<MessageCopyState, Refusal>
        ensures ok { IfOk result (λ state.
            Finds R.found (HasNews previous out.new.items state)) }
        ensures err { OnErr result (out.new.items ≡ out.old.items) }
        ensures reason { IsOkUnless result Refusal.Memory }
    {
        self.tree
            .copy_new_messages(&mut Turns::new(&self.rt), alloc, out, previous)
    }

    /// Does what `sorted_snapshot` and `copy_new_messages` do, and takes the lock once for both.
    ///
    /// # Errors
    ///
    /// `Memory`, if there is no memory for the copies; then `rows` and `messages` stay as they
    /// were.
    pub fn snapshot_and_new_messages(
        &self,
        alloc: Global,
        rows: &mut Vec<Row>,
        messages: &mut Vec<Message>,
        previous: Option<MessageCopyState>,
    ) -> Result<MessageCopyState, Refusal>
        ensures ok { IfOk result
            (CopiesRowsAndNews R.found previous rows.new.items messages.new.items) }
        ensures ascending { OnOk result (IsAscending (paths_of rows.new.items)) }
        ensures err_rows { OnErr result (rows.new.items ≡ rows.old.items) }
        ensures err_messages { OnErr result (messages.new.items ≡ messages.old.items) }
        ensures reason { IsOkUnless result Refusal.Memory }
    {
        let turns = &mut Turns::new(&self.rt);
        self.tree
            .snapshot_and_new_messages(turns, alloc, rows, messages, previous)
    }

    /// Returns the rows, the new messages and the state that `snapshot_and_new_messages` gives. It
    /// reuses the memory of `spare`, whatever it contains. A name is copied only if `spare` has a
    /// different one at that index: if it has the rows of an earlier look, and the tasks are still
    /// the same, nothing is allocated for them. Nor is anything allocated for a message if `spare`
    /// has one at that index whose texts are as long. Memory for further rows, with names of up to
    /// 30 bytes, is allocated before the look takes the lock, so other threads don't wait for it.
    ///
    /// # Errors
    ///
    /// `Memory`, if there is no memory for the copies.
    pub fn look(
        &self,
        spare: (Rows, Messages),
        previous: Option<MessageCopyState>,
    ) -> Result<(Rows, Messages, MessageCopyState), Refusal>
        ensures ok { IfOk result (λ seen.
            Finds R.found (HasRowsAndNews previous seen.0 seen.1 seen.2)) }
        ensures ascending { IfOk result (λ seen. IsAscending (keys_of seen.0)) }
        ensures reason { IsOkUnless result Refusal.Memory }
    {
        let (rows, messages) = spare;
        let rows = spare_rows::resized(rows, self.num_tasks())?;
        self.tree
            .look(&mut Turns::new(&self.rt), (rows, messages), previous)
    }

    /// Returns what `look` returns, with the steps of the rows in place of the rows, if the rows are
    /// these but for their steps: the first step is that of the first row. Returns `None` if they
    /// aren't, since tasks came, went or were changed otherwise. It reuses the memory of `spare`,
    /// whatever it contains, and takes memory for further steps before it takes the lock.
    ///
    /// # Errors
    ///
    /// `Memory`, if there is no memory for the steps or the copies.
    pub fn look_at_steps(
        &self,
        rows: &Rows,
        spare: (Vec<Step>, Messages),
        previous: Option<MessageCopyState>,
    ) -> Result<Option<(Vec<Step>, Messages, MessageCopyState)>, Refusal>
        ensures ok { IfOk result (λ found. Finds R.found (HasSteps rows.now previous found)) }
        ensures ascending { IfOk result (StepsAscend rows.now) }
        ensures reason { IsOkUnless result Refusal.Memory }
    {
        let (mut steps, messages) = spare;
        steps.clear();
        steps.reserve(rows.as_slice().len())?;
        self.tree.look_at_steps(&mut Turns::new(&self.rt), rows, (steps, messages), previous)
    }

    /// Returns an owner of a copy of the tree, with the same tasks, messages and capacity. Its
    /// counters are its own, at the same steps, and it has no items.
    ///
    /// # Errors
    ///
    /// `Memory`, if there is no memory for the copy.
    pub fn deep_clone(&self, alloc: Global) -> Result<Root<R>, Refusal>
        ensures { IsOkUnless result Refusal.Memory }
    {
        let rt = self.rt.clone()?;
        let copy = self.tree.copy_tree(&mut Turns::new(&self.rt), alloc)?;
        Ok(Root {
            rt,
            tree: SharedTree::new(alloc, copy)?,
        })
    }

    /// Returns a weak handle, which upgrades while the tree has an owner.
    ///
    /// # Errors
    ///
    /// `Memory`, if the reference count of the tree or of its runtime is at its limit.
    pub fn downgrade(&self) -> Result<WeakHandle<R>, Refusal>
        ensures { IsOkUnless result Refusal.Memory }
    {
        Ok(WeakHandle {
            rt: self.rt.clone()?,
            tree: self.tree.try_clone()?,
        })
    }

    /// Returns another owner of the tree.
    ///
    /// # Errors
    ///
    /// `TooManyHandles`, if there are 2^64 - 1 owners. `Memory`, if the reference count of the tree
    /// or of its runtime is at its limit.
    pub fn clone(&self) -> Result<Root<R>, Refusal>
        ensures ok { OnOk result (Changes R.found R.left GetsOwner) }
        ensures reason { IfErr result RefusesHandle }
    {
        let (rt, tree) = self.tree.add_owner(&mut Turns::new(&self.rt), &self.rt)?;
        Ok(Root { rt, tree })
    }
}

/// A weak handle, which upgrades to a [`Root`] while the tree has an owner. Items don't count as
/// owners.
#[derive(Drop)]
pub struct WeakHandle<R: Wait + Clone + Drop> {
    rt: R,
    tree: SharedTree,
}

impl<R: TakesTurns> WeakHandle<R> {
    /// Returns another owner of the tree, or `None` if it has none left.
    ///
    /// # Errors
    ///
    /// `TooManyHandles`, if there are 2^64 - 1 owners. `Memory`, if the reference count of the tree
    /// or of its runtime is at its limit.
    pub fn upgrade(&self) -> Result<Option<Root<R>>, Refusal>
        ensures ok { IfOk result (λ root. Changes R.found R.left (Upgrades (is_some root))) }
        ensures reason { IfErr result RefusesHandle }
    {
        match self.tree.upgrade(&mut Turns::new(&self.rt), &self.rt)? {
            Some((rt, tree)) => Ok(Some(Root { rt, tree })),
            None => Ok(None),
        }
    }
}

impl<R: Wait + Clone + Drop> Drop for Root<R> {
    /// Removes an owner of the tree.
    fn drop(self) {
        self.tree.remove_owner(&mut Turns::new(&self.rt));
        let Root { rt: _, tree: _ } = self;
    }
}
