ghost use Rattle.std.specs.Prelude.{◌≡◌, ℕ, List, None, IfOk, IfSome, IfErr, OnOk, OnErr, IsOkUnless};
ghost use Rattle.std.specs.Map.{keys_of};
ghost use Rattle.prodash_base.specs.Refusals.{RefusesHandle};
ghost use Rattle.prodash_base.specs.Adjacency.{IsAscending, paths_of};
ghost use Rattle.prodash_base.specs.Rows.{PathRow, rows_of};
ghost use Rattle.prodash_base.specs.Steps.{OfSeenSteps, StepsAscend};

use prodash_base::Refusal;
use prodash_base::messages::{Message, MessageCopyState, Messages};
use prodash_base::progress::{Row, Rows, Step};
use std::alloc::Global;

/// The root of a tree of tasks, as a renderer sees it.
pub trait Root {
    ghost use Rattle.std.specs.Prelude.{ℕ, List, Option};
    ghost use Rattle.prodash_base.specs.Rows.{PathRow};
    ghost use Rattle.prodash_base.specs.declared.messages.Message.{Message};

    /// The weak handle of the root.
    type WeakRoot;

    /// What one look may return, for the number of messages that were seen before, if any: the
    /// rows, the new messages, and the number of messages that were seen then.
    ghost looks: { Self → Option ℕ → List PathRow → List Message → ℕ → Type 0 } = { λ _ _ _ _ _. Unit {0} };

    /// The rows that may be returned by themselves.
    ghost has_rows: { Self → List PathRow → Type 0 } = { λ _ _. Unit {0} };

    /// The messages that may be returned by themselves.
    ghost has_messages: { Self → List Message → Type 0 } = { λ _ _. Unit {0} };

    /// What a copy of the new messages may return by itself, as `looks` without the rows.
    ghost has_news: { Self → Option ℕ → List Message → ℕ → Type 0 } = { λ _ _ _ _. Unit {0} };

    /// The numbers of tasks that may be returned.
    ghost has_tasks: { Self → ℕ → Type 0 } = { λ _ _. Unit {0} };

    /// The maximum numbers of messages that it may keep.
    ghost keeps_at_most: { Self → ℕ → Type 0 } = { λ _ _. Unit {0} };

    /// The weak handles that may be returned.
    ghost has_handle: { Self → Self.WeakRoot → Type 0 } = { λ _ _. Unit {0} };

    /// Returns the maximum number of messages that are kept.
    fn messages_capacity(&self) -> usize
        ensures { keeps_at_most self.now result };

    /// Returns the number of tasks.
    fn num_tasks(&self) -> usize
        ensures { has_tasks self.now result };

    /// Replaces the contents of `out` with the rows, in strictly ascending order of their keys.
    ///
    /// # Errors
    ///
    /// `Memory`, if there is no memory for the rows; then `out` stays as it was.
    fn sorted_snapshot(&self, alloc: Global, out: &mut Vec<Row>) -> Result<(), Refusal>
        ensures ok { OnOk result (has_rows self.now (rows_of out.new.items)) }
        ensures ascending { OnOk result (IsAscending (paths_of out.new.items)) }
        ensures err { OnErr result (out.new.items ≡ out.old.items) }
        ensures reason { IsOkUnless result Refusal.Memory };

    /// Replaces the contents of `out` with the messages that are kept, the oldest first.
    ///
    /// # Errors
    ///
    /// `Memory`, if there is no memory for the messages; then `out` stays as it was.
    fn copy_messages(&self, alloc: Global, out: &mut Vec<Message>) -> Result<(), Refusal>
        ensures ok { OnOk result (has_messages self.now out.new.items) }
        ensures err { OnErr result (out.new.items ≡ out.old.items) }
        ensures reason { IsOkUnless result Refusal.Memory };

    /// Replaces the contents of `out` with the messages that are kept and were sent since the copy
    /// that returned `previous`, the oldest first, or with all that are kept if it is `None`.
    /// Returns the state for the next copy.
    ///
    /// # Errors
    ///
    /// `Memory`, if there is no memory for the messages; then `out` stays as it was.
    fn copy_new_messages(
        &self,
        alloc: Global,
        out: &mut Vec<Message>,
        previous: Option<MessageCopyState>,
    ) -> Result<MessageCopyState, Refusal>
        ensures ok { IfOk result (λ state. has_news self.now previous out.new.items state) }
        ensures err { OnErr result (out.new.items ≡ out.old.items) }
        ensures reason { IsOkUnless result Refusal.Memory };

    /// Returns the rows, in strictly ascending order of their keys; the messages that are kept and
    /// were sent since the look that returned `previous`, the oldest first, or all that are kept if
    /// it is `None`; and the state for the next look. The contents of `spare` don't matter: its
    /// memory may hold the rows and the messages.
    ///
    /// # Errors
    ///
    /// `Memory`, if there is no memory for the copies.
    fn look(
        &self,
        alloc: Global,
        spare: (Rows, Messages),
        previous: Option<MessageCopyState>,
    ) -> Result<(Rows, Messages, MessageCopyState), Refusal>
        ensures ok { IfOk result (λ seen. looks self.now previous seen.0 seen.1 seen.2) }
        ensures ascending { IfOk result (λ seen. IsAscending (keys_of seen.0)) }
        ensures reason { IsOkUnless result Refusal.Memory };

    /// Returns what `look` returns, with the steps of the rows in place of the rows, if the rows are
    /// these but for their steps: the first step is that of the first row. Returns `None` if they
    /// aren't, or if the root doesn't compare rows. The contents of `spare` don't matter: its memory
    /// may hold the steps and the messages.
    ///
    /// # Errors
    ///
    /// `Memory`, if there is no memory for the steps or the copies.
    fn look_at_steps(
        &self,
        rows: &Rows,
        spare: (Vec<Step>, Messages),
        previous: Option<MessageCopyState>,
    ) -> Result<Option<(Vec<Step>, Messages, MessageCopyState)>, Refusal>
        ensures ok { IfOk result (OfSeenSteps (looks self.now previous) rows.now) }
        ensures ascending { IfOk result (StepsAscend rows.now) }
        ensures reason { IsOkUnless result Refusal.Memory }
    {
        Ok(None)
    }

    /// Does what `sorted_snapshot` and `copy_new_messages` do, in one look.
    ///
    /// # Errors
    ///
    /// `Memory`, if there is no memory for the copies; then both lists stay as they were.
    fn snapshot_and_new_messages(
        &self,
        alloc: Global,
        rows: &mut Vec<Row>,
        messages: &mut Vec<Message>,
        previous: Option<MessageCopyState>,
    ) -> Result<MessageCopyState, Refusal>
        ensures ok { IfOk result
            (looks self.now previous (rows_of rows.new.items) messages.new.items) }
        ensures ascending { OnOk result (IsAscending (paths_of rows.new.items)) }
        ensures err_rows { OnErr result (rows.new.items ≡ rows.old.items) }
        ensures err_messages { OnErr result (messages.new.items ≡ messages.old.items) }
        ensures reason { IsOkUnless result Refusal.Memory }
    {
        let spare = (Rows::new(Vec::new(alloc)), Messages::new(Vec::new(alloc)));
        let (seen_rows, seen_messages, state) = self.look(alloc, spare, previous)?;
        *rows = seen_rows.into_vec();
        *messages = seen_messages.into_vec();
        Ok(state)
    }

    /// Returns a weak handle of the root, which upgrades while the root has an owner.
    ///
    /// # Errors
    ///
    /// `Memory`, if the reference count of the root is at its limit.
    fn downgrade(&self) -> Result<Self::WeakRoot, Refusal>
        ensures ok { IfOk result (λ handle. has_handle self.now handle) }
        ensures reason { IsOkUnless result Refusal.Memory };
}

/// A weak handle of the root of a tree, which upgrades while the root has an owner.
pub trait WeakRoot {
    ghost use Rattle.std.specs.Prelude.{Option};

    /// The root of the tree.
    type Root;

    /// The root that may be found, if any.
    ghost finds: { Self → Option Self.Root → Type 0 } = { λ _ _. Unit {0} };

    /// Returns another owner of the root, or `None` if the root has none left.
    ///
    /// # Errors
    ///
    /// `TooManyHandles`, if there are 2^64 - 1 owners. `Memory`, if the reference count of the root
    /// is at its limit.
    fn upgrade(&self) -> Result<Option<Self::Root>, Refusal>
        ensures ok { IfOk result (λ root. finds self.now root) }
        ensures reason { IfErr result RefusesHandle };
}
