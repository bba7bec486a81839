//! A tree beside its journal.
ghost use Rattle.std.specs.Prelude.{◌≡◌, ◌≢◌, ◌++◌, ◌∷◌, [], Ok, Err, None, false, IfOk, IfErr, OnErr, IfSome, IfNone, length, IsOkUnless};
ghost use Rattle.prodash_core.specs.Trees.{new_tree, is_frame, snapshot_of, Applies};
ghost use Rattle.prodash_core.specs.Refusals.{refusal_of};
ghost use Rattle.prodash_core.specs.Replies.{owns_memory};
ghost use Rattle.prodash.specs.Journals.{Replays};
ghost use Rattle.prodash.specs.Views.{tasks_of};

use crate::messages::{MessageCopyState, Messages};
use crate::progress::Rows;
use crate::tree::recorded::shown::count_tasks;
use crate::tree::root::Options;
use prodash_base::Refusal;
use prodash_core::tree::{Event, Reply, RootOptions, TreeState};
use std::alloc::Global;
use std::marker::Model;

/// A tree that keeps a journal of the events that it accepted, each with its reply. Contracts see
/// the tree, the journal, and how many messages the tree keeps. The journal replays: applied to a
/// tree without tasks, its events have its replies and lead to this tree.
///
/// ```rust
/// let mut state = RecordedState::new(alloc, &Options::default())?;
/// let name = Text::from_str(alloc, "task")?;
/// state.apply(alloc, &Event::AddChild { parent: 0, name, id: UNKNOWN })?;
/// assert_eq!(rt; state.entries().len(), 1);
/// ```
#[derive(Drop)]
pub struct RecordedState {
    capacity: usize,
    tree: TreeState,
    entries: Vec<(Event, Reply)>,
}

impl Model for RecordedState {
    ghost use Rattle.prodash.specs.Journals.{Recorded, Replays};
    ghost use Rattle.std.specs.Coded.{codes};
    ghost use Rattle.std.specs.FinMap as finite;

    ghost Value = { Recorded };

    ghost coded = { Prim.hlevel (codes, finite.code) };

    ghost view = { λ s.
        record { capacity = s.capacity; tree = s.tree; entries = s.entries.items } };

    ghost invariant = { λ s. Replays s.capacity s.entries.items s.tree };
}

impl RecordedState {
    /// Returns a tree without tasks, and an empty journal.
    ///
    /// # Errors
    ///
    /// `Memory`, if there is no memory for it.
    pub fn new(alloc: Global, options: &Options) -> Result<RecordedState, Refusal>
        ensures tree { IfOk result (λ s. s.tree ≡ new_tree options.now.message_buffer_capacity) }
        ensures capacity { IfOk result (λ s.
            s.capacity ≡ options.now.message_buffer_capacity) }
        ensures entries { IfOk result (λ s. s.entries ≡ []) }
        ensures reason { IsOkUnless result Refusal.Memory }
    {
        let options = RootOptions {
            initial_capacity: options.initial_capacity,
            message_buffer_capacity: options.message_buffer_capacity,
        };
        Ok(RecordedState {
            capacity: options.message_buffer_capacity,
            tree: TreeState::new(alloc, &options)?,
            entries: Vec::new(alloc),
        })
    }

    /// Applies an event that is no frame, appends it to the journal with its reply, and returns
    /// the reply.
    ///
    /// # Errors
    ///
    /// As `TreeState::apply`, and `Memory` also if there is no memory for the entry. An event that
    /// is refused leaves the tree and the journal as they were.
    pub fn apply(&mut self, alloc: Global, event: &Event) -> Result<Reply, Refusal>
        requires { is_frame event.now ≡ false }
        ensures reply { IfOk result (λ r. Applies self.old.tree event.now (Ok r) self.new.tree) }
        ensures entry { IfOk result (λ r.
            self.new.entries ≡ self.old.entries ++ (event.now, r) ∷ []) }
        ensures capacity { self.new.capacity ≡ self.old.capacity }
        ensures err { OnErr result (self.new ≡ self.old) }
        ensures refused { IfSome (refusal_of self.old.tree event.now) (λ e. result ≡ Err e) }
        ensures memory { IfNone (refusal_of self.old.tree event.now)
            (IsOkUnless result Refusal.Memory) }
        ensures handles { IfErr result (λ e. e ≢ Refusal.TooManyHandles) }
    {
        let (reply, _) = self.apply_and_copy(alloc, event)?;
        Ok(reply)
    }

    /// Applies an event as `apply`, and returns the reply and a copy of it.
    #[tactic(auto, using(crate::proofs::JournalLaws::applying))]
    pub(crate) fn apply_and_copy(
        &mut self,
        alloc: Global,
        event: &Event,
    ) -> Result<(Reply, Reply), Refusal>
        requires { is_frame event.now ≡ false }
        ensures reply { IfOk result (λ r. Applies self.old.tree event.now (Ok r.0) self.new.tree) }
        ensures copy { IfOk result (λ r. r.1 ≡ r.0) }
        ensures entry { IfOk result (λ r.
            self.new.entries ≡ self.old.entries ++ (event.now, r.0) ∷ []) }
        ensures capacity { self.new.capacity ≡ self.old.capacity }
        ensures err { OnErr result (self.new ≡ self.old) }
        ensures refused { IfSome (refusal_of self.old.tree event.now) (λ e. result ≡ Err e) }
        ensures memory { IfNone (refusal_of self.old.tree event.now)
            (IsOkUnless result Refusal.Memory) }
        ensures handles { IfErr result (λ e. e ≢ Refusal.TooManyHandles) }
    {
        let RecordedState { tree, entries, .. } = self;
        if let Some(refusal) = tree.refusal(event) {
            return Err(refusal);
        }
        entries.reserve(1)?;
        let kept = event.clone()?;
        let (reply, first, second) = apply_accepted(tree, alloc, event)?;
        entries.push_reserved((kept, reply));
        Ok((first, second))
    }

    /// Returns the journal so far.
    pub fn entries(&self) -> &[(Event, Reply)]
        ensures same { result.now ≡ self.now.entries }
        ensures replays { Replays self.now.capacity self.now.entries self.now.tree }
    {
        self.entries.as_slice()
    }

    /// Returns what a frame sees of the tree, in the memory of `spare`.
    pub(crate) fn look(
        &self,
        spare: (Rows, Messages),
        previous: Option<MessageCopyState>,
    ) -> Result<Option<(Rows, Messages, MessageCopyState)>, Refusal>
        ensures ok { IfOk result (λ seen. seen ≡ snapshot_of self.now.tree previous) }
        ensures replays { Replays self.now.capacity self.now.entries self.now.tree }
        ensures reason { IsOkUnless result Refusal.Memory }
    {
        self.tree.look(spare, previous)
    }

    /// Returns the number of tasks that a view shows.
    pub(crate) fn num_tasks(&mut self, alloc: Global) -> usize
        ensures value { result ≡ tasks_of self.old.tree }
        ensures kept { self.new ≡ self.old }
    {
        count_tasks(&mut self.tree, alloc)
    }

    /// Returns the tree and the journal.
    pub(crate) fn into_parts(self) -> (TreeState, Vec<(Event, Reply)>)
        ensures tree { result.0 ≡ self.tree }
        ensures same { result.1.items ≡ self.entries }
        ensures replays { Replays self.capacity result.1.items result.0 }
    {
        let RecordedState {
            capacity: _,
            tree,
            entries,
        } = self;
        (tree, entries)
    }
}

/// Applies an event that the tree doesn't refuse, and returns the reply and two copies of it. An
/// event that is refused leaves the tree as it was.
#[tactic(auto, using(crate::proofs::JournalLaws::copying))]
fn apply_accepted(
    tree: &mut TreeState,
    alloc: Global,
    event: &Event,
) -> Result<(Reply, Reply, Reply), Refusal>
    requires frame { is_frame event.now ≡ false }
    requires refused { refusal_of tree.old event.now ≡ None }
    ensures reply { IfOk result (λ r. Applies tree.old event.now (Ok r.0) tree.new) }
    ensures copies { IfOk result (λ r. (r.1 ≡ r.0) × (r.2 ≡ r.0)) }
    ensures err { OnErr result (tree.new ≡ tree.old) }
    ensures reason { IsOkUnless result Refusal.Memory }
{
    copy_reply(tree.apply(alloc, event)?)
}

/// Returns a reply and two copies of it. A reply that owns no memory can always be copied.
fn copy_reply(reply: Reply) -> Result<(Reply, Reply, Reply), Refusal>
    ensures reply { IfOk result (λ r. r.0 ≡ reply) }
    ensures copies { IfOk result (λ r. (r.1 ≡ reply) × (r.2 ≡ reply)) }
    ensures owned { OnErr result (owns_memory reply ≢ false) }
    ensures reason { IsOkUnless result Refusal.Memory }
{
    let first = reply.clone()?;
    let second = reply.clone()?;
    Ok((reply, first, second))
}
