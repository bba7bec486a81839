//! Views of recorded trees, and their weak handles.
ghost use Rattle.std.specs.Prelude.{◌≡◌, Some, IfOk, IfErr, OnOk, OnErr, is_some, IsOkUnless};
ghost use Rattle.std.specs.Map.{keys_of};
ghost use Rattle.prodash_base.specs.Adjacency.{IsAscending, paths_of};
ghost use Rattle.prodash_base.specs.Refusals.{RefusesHandle};
ghost use Rattle.prodash.specs.Views.{InOneTurn, Reads, ShowsTasks, GetsView, FindsView, Copies, ReadsLook, ReadsLookAfter, ReadsRows, ReadsMessages, ReadsNews, viewed};
ghost use Rattle.prodash.specs.plumbing.SeenTrees.{ReadsSeen};

use crate::messages::{Message, MessageCopyState, Messages};
use crate::progress::{Row, Rows};
use crate::tree::recorded::ledgers::TreeLedger;
use crate::tree::recorded::locked_recording::LockedRecording;
use crate::tree::recorded::look_receipt::LookReceipt;
use crate::tree::recorded::shown::{Looked, show_or_nothing};
use crate::tree::recorded::turns::TakesViewTurns;
use prodash_base::Refusal;
use std::alloc::Global;
use std::sync::ledger::Ledger;
use std::sync::{Arc, Mutex, Wait};

/// A root by which a recorded tree is drawn. It is an owner of the tree for weak handles, and
/// neither items nor the [`RecordedRoot`](crate::tree::recorded::RecordedRoot) are. A look is one
/// turn at the lock of the tree, and no entry of the journal. Once the tree is closed, views go on
/// to show it as its last call left it.
///
/// ```rust
/// let view = root.view(&rt, alloc)?;
/// let renderer = render(rt, alloc, stderr, view.downgrade()?, clock, options)?;
/// // work
/// renderer.shutdown_and_wait();
/// ```
pub struct RecordedView<R: Wait + Clone + Drop, C: TreeLedger, S: Ledger> {
    rt: R,
    alloc: Global,
    capacity: usize,
    tree: Arc<Mutex<LockedRecording<C, S>>>,
    ghost keeps: { capacity ≡ C.message_buffer_capacity },
}

/// A weak handle of a recorded tree, which upgrades to a [`RecordedView`] while the tree has one.
#[derive(Drop)]
pub struct WeakView<R: Wait + Clone + Drop, C: TreeLedger, S: Ledger> {
    rt: R,
    alloc: Global,
    capacity: usize,
    tree: Arc<Mutex<LockedRecording<C, S>>>,
    ghost keeps: { capacity ≡ C.message_buffer_capacity },
}

impl<R: TakesViewTurns, C: TreeLedger, S: Ledger> RecordedView<R, C, S> {
    /// Returns a view of a tree, which is an owner more.
    pub(crate) fn open(
        rt: &R,
        alloc: Global,
        capacity: usize,
        shared: &Arc<Mutex<LockedRecording<C, S>>>,
    ) -> Result<RecordedView<R, C, S>, Refusal>
        requires { capacity ≡ C.message_buffer_capacity }
        ensures ok { OnOk result (InOneTurn R.found R.left GetsView) }
        ensures reason { IfErr result RefusesHandle }
    {
        let (mut tree, turn) = rt.begin_view_turn(shared);
        let view = add_view(rt, alloc, capacity, shared, &mut tree);
        rt.end_view_turn(tree, turn);
        view
    }

    /// Returns the greatest number of messages that the tree keeps.
    pub fn messages_capacity(&self) -> usize
        ensures { result ≡ C.message_buffer_capacity }
    {
        self.capacity
    }

    /// Returns the number of tasks, or 0 once the root was dropped.
    pub fn num_tasks(&self) -> usize
        ensures { Reads R.found R.left (ShowsTasks result) }
    {
        let (mut tree, turn) = self.rt.begin_view_turn(&self.tree);
        let tasks = tree.num_tasks(self.alloc);
        self.rt.end_view_turn(tree, turn);
        tasks
    }

    /// Returns the rows, in ascending order of their keys, the messages that were sent since the
    /// look that returned `previous`, or all that are kept if that is `None`, and the state for the
    /// next look. Once the root was dropped there are neither rows nor messages. The memory of
    /// `spare` is reused, whatever it contains.
    ///
    /// # Errors
    ///
    /// `Memory`, if there is no memory for the copies.
    pub fn look(
        &self,
        spare: (Rows, Messages),
        previous: Option<MessageCopyState>,
    ) -> Result<(Rows, Messages, MessageCopyState), Refusal>
        ensures ok { IfOk result (ReadsLook R.found R.left C.message_buffer_capacity previous) }
        ensures ascending { IfOk result (λ shown. IsAscending (keys_of shown.0)) }
        ensures reason { IsOkUnless result Refusal.Memory }
    {
        let (shown, _receipt) = self.look_with_receipt(spare, previous)?;
        Ok(shown)
    }

    /// Does what `look` does, and returns a receipt of the calls that led to what it shows.
    ///
    /// # Errors
    ///
    /// `Memory`, if there is no memory for the copies.
    pub fn look_with_receipt(
        &self,
        spare: (Rows, Messages),
        previous: Option<MessageCopyState>,
    ) -> Result<((Rows, Messages, MessageCopyState), LookReceipt<C>), Refusal>
        ensures ok { IfOk result
            (ReadsLookAfter R.found R.left C.message_buffer_capacity previous) }
        ensures ascending { IfOk result (λ r. IsAscending (keys_of r.0.0)) }
        ensures reason { IsOkUnless result Refusal.Memory }
    {
        let last = previous;
        let (seen, receipt) = self.see(spare, previous)?;
        let shown = show_or_nothing(self.alloc, seen, last);
        Ok((shown, receipt))
    }

    /// Returns what a frame sees of the tree: what a look shows, or `None` once the root was
    /// dropped. Returns a receipt of the calls that led to it too.
    pub(crate) fn see(
        &self,
        spare: (Rows, Messages),
        previous: Option<MessageCopyState>,
    ) -> Result<(Option<Looked>, LookReceipt<C>), Refusal>
        ensures ok { IfOk result (ReadsSeen R.found R.left C.message_buffer_capacity previous) }
        ensures reason { IsOkUnless result Refusal.Memory }
    {
        let (tree, turn) = self.rt.begin_view_turn(&self.tree);
        let seen = tree.look(spare, previous);
        self.rt.end_view_turn(tree, turn);
        seen
    }

    /// Replaces the contents of `out` with the rows of one look.
    ///
    /// # Errors
    ///
    /// `Memory`, if there is no memory for the copies; then `out` stays as it was.
    pub fn sorted_snapshot(&self, out: &mut Vec<Row>) -> Result<(), Refusal>
        ensures ok { OnOk result
            (ReadsRows R.found R.left C.message_buffer_capacity out.new) }
        ensures ascending { OnOk result (IsAscending (paths_of out.new.items)) }
        ensures err { OnErr result (out.new.items ≡ out.old.items) }
        ensures reason { IsOkUnless result Refusal.Memory }
    {
        let (rows, _, _) = self.look(self.no_spare(), None)?;
        *out = rows.into_vec();
        Ok(())
    }

    /// Replaces the contents of `out` with the messages of one look, all that are kept.
    ///
    /// # Errors
    ///
    /// `Memory`, if there is no memory for the copies; then `out` stays as it was.
    pub fn copy_messages(&self, out: &mut Vec<Message>) -> Result<(), Refusal>
        ensures ok { OnOk result
            (ReadsMessages R.found R.left C.message_buffer_capacity out.new) }
        ensures err { OnErr result (out.new.items ≡ out.old.items) }
        ensures reason { IsOkUnless result Refusal.Memory }
    {
        let (_, messages, _) = self.look(self.no_spare(), None)?;
        *out = messages.into_vec();
        Ok(())
    }

    /// Replaces the contents of `out` with the messages of one look, those that were sent since
    /// the copy that returned `previous`, or all that are kept if that is `None`. Returns the state
    /// for the next copy.
    ///
    /// # Errors
    ///
    /// `Memory`, if there is no memory for the copies; then `out` stays as it was.
    pub fn copy_new_messages(
        &self,
        out: &mut Vec<Message>,
        previous: Option<MessageCopyState>,
    ) -> Result<MessageCopyState, Refusal>
        ensures ok { IfOk result
            (ReadsNews R.found R.left C.message_buffer_capacity previous out.new) }
        ensures err { OnErr result (out.new.items ≡ out.old.items) }
        ensures reason { IsOkUnless result Refusal.Memory }
    {
        let (_, messages, sent) = self.look(self.no_spare(), previous)?;
        *out = messages.into_vec();
        Ok(sent)
    }

    /// Does what `sorted_snapshot` and `copy_new_messages` do, in one look.
    ///
    /// # Errors
    ///
    /// `Memory`, if there is no memory for the copies; then both lists stay as they were.
    pub fn snapshot_and_new_messages(
        &self,
        rows: &mut Vec<Row>,
        messages: &mut Vec<Message>,
        previous: Option<MessageCopyState>,
    ) -> Result<MessageCopyState, Refusal>
        ensures ok { Copies R.found R.left C.message_buffer_capacity previous
            rows.new messages.new result }
        ensures ascending { OnOk result (IsAscending (paths_of rows.new.items)) }
        ensures err_rows { OnErr result (rows.new.items ≡ rows.old.items) }
        ensures err_messages { OnErr result (messages.new.items ≡ messages.old.items) }
        ensures reason { IsOkUnless result Refusal.Memory }
    {
        let (seen_rows, seen_messages, state) = self.look(self.no_spare(), previous)?;
        *rows = seen_rows.into_vec();
        *messages = seen_messages.into_vec();
        Ok(state)
    }

    /// Returns lists without memory.
    fn no_spare(&self) -> (Rows, Messages) {
        (
            Rows::new(Vec::new(self.alloc)),
            Messages::new(Vec::new(self.alloc)),
        )
    }

    /// Returns a weak handle, which upgrades while the tree has a view.
    ///
    /// # Errors
    ///
    /// `Memory`, if the reference count of the tree or of its runtime is at its limit.
    pub fn downgrade(&self) -> Result<WeakView<R, C, S>, Refusal>
        ensures { IsOkUnless result Refusal.Memory }
    {
        Ok(WeakView {
            rt: self.rt.clone()?,
            alloc: self.alloc,
            capacity: self.capacity,
            tree: Arc::try_clone(&self.tree)?,
        })
    }

    /// Returns another view of the tree.
    ///
    /// # Errors
    ///
    /// `TooManyHandles`, if there are 2^64 - 1 views. `Memory`, if the reference count of the tree
    /// or of its runtime is at its limit.
    pub fn clone(&self) -> Result<RecordedView<R, C, S>, Refusal>
        ensures ok { OnOk result (InOneTurn R.found R.left GetsView) }
        ensures reason { IfErr result RefusesHandle }
    {
        RecordedView::open(&self.rt, self.alloc, self.capacity, &self.tree)
    }
}

impl<R: TakesViewTurns, C: TreeLedger, S: Ledger> WeakView<R, C, S> {
    /// Returns another view of the tree, or `None` if it has none left.
    ///
    /// # Errors
    ///
    /// `TooManyHandles`, if there are 2^64 - 1 views. `Memory`, if the reference count of the tree
    /// or of its runtime is at its limit.
    pub fn upgrade(&self) -> Result<Option<RecordedView<R, C, S>>, Refusal>
        ensures ok { IfOk result (λ view.
            InOneTurn R.found R.left (FindsView (is_some view))) }
        ensures reason { IfErr result RefusesHandle }
    {
        let (mut tree, turn) = self.rt.begin_view_turn(&self.tree);
        let view = find_view(&self.rt, self.alloc, self.capacity, &self.tree, &mut tree);
        self.rt.end_view_turn(tree, turn);
        view
    }
}

/// Adds a view to a tree, and returns it.
fn add_view<R: Wait + Clone + Drop, C: TreeLedger, S: Ledger>(
    rt: &R,
    alloc: Global,
    capacity: usize,
    shared: &Arc<Mutex<LockedRecording<C, S>>>,
    locked: &mut LockedRecording<C, S>,
) -> Result<RecordedView<R, C, S>, Refusal>
    requires { capacity ≡ C.message_buffer_capacity }
    ensures ok { OnOk result (GetsView
        (viewed locked.old.owners locked.old.state locked.old.last)
        (viewed locked.new.owners locked.new.state locked.new.last)) }
    ensures reason { IfErr result RefusesHandle }
{
    let rt = rt.clone()?;
    let tree = Arc::try_clone(shared)?;
    locked.add_owner()?;
    Ok(RecordedView {
        rt,
        alloc,
        capacity,
        tree,
    })
}

/// Adds a view to a tree that has one, and returns it. Returns `None` if the tree has none left.
fn find_view<R: Wait + Clone + Drop, C: TreeLedger, S: Ledger>(
    rt: &R,
    alloc: Global,
    capacity: usize,
    shared: &Arc<Mutex<LockedRecording<C, S>>>,
    locked: &mut LockedRecording<C, S>,
) -> Result<Option<RecordedView<R, C, S>>, Refusal>
    requires { capacity ≡ C.message_buffer_capacity }
    ensures ok { IfOk result (λ view. FindsView (is_some view)
        (viewed locked.old.owners locked.old.state locked.old.last)
        (viewed locked.new.owners locked.new.state locked.new.last)) }
    ensures reason { IfErr result RefusesHandle }
{
    if locked.owners() == 0 {
        return Ok(None);
    }
    Ok(Some(add_view(rt, alloc, capacity, shared, locked)?))
}

impl<R: Wait + Clone + Drop, C: TreeLedger, S: Ledger> Drop for RecordedView<R, C, S> {
    /// Removes an owner of the tree.
    fn drop(self) {
        self.tree.lock(&self.rt).remove_owner();
        let RecordedView {
            rt: _,
            alloc: _,
            capacity: _,
            tree: _,
        } = self;
    }
}
