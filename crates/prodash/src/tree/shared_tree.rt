//! The locked tree, without a runtime.
ghost use Rattle.std.specs.Prelude.{◌≡◌, ◌↔◌, ◌<◌, ℕ, [], Err, is_some, IfOk, IfSome, IfErr, OnOk, OnErr, IsOkUnless};
ghost use Rattle.std.specs.Map.{keys_of};
ghost use Rattle.prodash_base.specs.Refusals.{RefusesHandle};
ghost use Rattle.prodash_base.specs.Adjacency.{IsAscending, paths_of};
ghost use Rattle.prodash_base.specs.Path.{child, child_limit};
ghost use Rattle.prodash_base.specs.Steps.{StepsAscend};
ghost use Rattle.prodash.specs.Items.{new_place};
ghost use Rattle.prodash.specs.Locks.{with_owner};
ghost use Rattle.prodash.specs.Turns.{HasSteps, HasTasks, KeepsAtMost, HasMessages, HasNews, AddsChild, GetsOwner, Upgrades};
ghost use Rattle.prodash.specs.plumbing.LockedCalls.{ChangesNothing, IsCopy};
ghost use Rattle.prodash.specs.plumbing.CountedTurns.{TakesOne, TakesAtMostOne, TakesOnOk, LooksOnce, Tries, Gets, Shows, HasRowCopies, HasCopies, HasCopiesAndNews, HasSeen, LosesOwner, UpgradesOrStays};

use crate::messages::{Message, MessageCopyState, Messages};
use crate::progress::{Id, Row, Rows, Step};
use crate::tree::locked::LockedTree;
use crate::tree::shared_task::SharedTask;
use crate::tree::turns::CountsTurns;
use prodash_base::Refusal;
use std::alloc::Global;
use std::sync::{Arc, Mutex};

/// What an owner of a tree has besides its runtime. Each call that needs the tree is handed what it
/// takes its turns by.
#[derive(Drop)]
pub struct SharedTree {
    lock: Arc<Mutex<LockedTree>>,
}

impl SharedTree {
    /// Returns a tree behind a lock.
    pub(crate) fn new(alloc: Global, tree: LockedTree) -> Result<SharedTree, Refusal>
        ensures { IsOkUnless result Refusal.Memory }
    {
        let lock = Arc::new(alloc, Mutex::new(tree))?;
        Ok(SharedTree { lock })
    }

    /// Returns the same tree once more.
    pub(crate) fn try_clone(&self) -> Result<SharedTree, Refusal>
        ensures { IsOkUnless result Refusal.Memory }
    {
        let lock = Arc::try_clone(&self.lock)?;
        Ok(SharedTree { lock })
    }

    /// Adds a task below the root.
    #[tactic(auto, using(crate::proofs::TurnLaws::taking))]
    pub(crate) fn add_child<T: CountsTurns>(
        &self,
        turns: &mut T,
        alloc: Global,
        name: &str,
        id: Id,
    ) -> Result<SharedTask, Refusal>
        ensures ok { IfOk result (λ task. (n : ℕ) × (n < child_limit)
            × (task ≡ new_place (child [] n))) }
        ensures added { TakesOnOk T.took turns.old turns.new result
            (λ t. AddsChild t.path name.now id) }
        ensures refused { OnErr result
            (TakesAtMostOne T.took turns.old turns.new ChangesNothing) }
        ensures reason { IsOkUnless result Refusal.Memory }
    {
        let lock = Arc::try_clone(&self.lock)?;
        let mut tree = turns.begin(&self.lock);
        let added = tree.add_child(alloc, name, id);
        turns.end(tree);
        let (key, slot, steps) = added?;
        Ok(SharedTask::new(lock, key, slot, steps))
    }

    /// Returns the number of tasks.
    #[tactic(auto, using(crate::proofs::TurnLaws::taking))]
    pub(crate) fn num_tasks<T: CountsTurns>(&self, turns: &mut T) -> usize
        ensures { LooksOnce T.took turns.old turns.new (HasTasks result) }
    {
        let tree = turns.begin(&self.lock);
        let tasks = tree.table.len();
        turns.end(tree);
        tasks
    }

    /// Returns the greatest number of messages that the tree keeps.
    #[tactic(auto, using(crate::proofs::TurnLaws::taking))]
    pub(crate) fn messages_capacity<T: CountsTurns>(&self, turns: &mut T) -> usize
        ensures { LooksOnce T.took turns.old turns.new (KeepsAtMost result) }
    {
        let tree = turns.begin(&self.lock);
        let capacity = tree.ring.capacity();
        turns.end(tree);
        capacity
    }

    /// Replaces the contents of `out` with the rows.
    #[tactic(auto, using(crate::proofs::TurnLaws::taking))]
    pub(crate) fn sorted_snapshot<T: CountsTurns>(
        &self,
        turns: &mut T,
        alloc: Global,
        out: &mut Vec<Row>,
    ) -> Result<(), Refusal>
        ensures turn { LooksOnce T.took turns.old turns.new
            (Shows result (HasRowCopies out.new.items)) }
        ensures ascending { OnOk result (IsAscending (paths_of out.new.items)) }
        ensures err { OnErr result (out.new.items ≡ out.old.items) }
        ensures reason { IsOkUnless result Refusal.Memory }
    {
        let tree = turns.begin(&self.lock);
        let copied = tree.copy_rows(alloc, out);
        turns.end(tree);
        copied
    }

    /// Replaces the contents of `out` with the kept messages.
    #[tactic(auto, using(crate::proofs::TurnLaws::taking))]
    pub(crate) fn copy_messages<T: CountsTurns>(
        &self,
        turns: &mut T,
        alloc: Global,
        out: &mut Vec<Message>,
    ) -> Result<(), Refusal>
        ensures turn { LooksOnce T.took turns.old turns.new
            (Shows result (HasMessages out.new.items)) }
        ensures err { OnErr result (out.new.items ≡ out.old.items) }
        ensures reason { IsOkUnless result Refusal.Memory }
    {
        let tree = turns.begin(&self.lock);
        let copied = tree.ring.copy_all(alloc, out);
        turns.end(tree);
        copied
    }

    /// Replaces the contents of `out` with the kept messages that were sent since an earlier copy.
    /// Returns the state for the next copy.
    #[tactic(auto, using(crate::proofs::TurnLaws::taking))]
    pub(crate) fn copy_new_messages<T: CountsTurns>(
        &self,
        turns: &mut T,
        alloc: Global,
        out: &mut Vec<Message>,
        previous: Option<MessageCopyState>,
    ) -> Result<MessageCopyState, Refusal>
        ensures turn { Gets T.took turns.old turns.new result
            (HasNews previous out.new.items) }
        ensures err { OnErr result (out.new.items ≡ out.old.items) }
        ensures reason { IsOkUnless result Refusal.Memory }
    {
        let tree = turns.begin(&self.lock);
        let state = tree.ring.copy_new(alloc, out, previous);
        turns.end(tree);
        state
    }

    /// Does what `sorted_snapshot` and `copy_new_messages` do, in one turn.
    pub(crate) fn snapshot_and_new_messages<T: CountsTurns>(
        &self,
        turns: &mut T,
        alloc: Global,
        rows: &mut Vec<Row>,
        messages: &mut Vec<Message>,
        previous: Option<MessageCopyState>,
    ) -> Result<MessageCopyState, Refusal>
        ensures turn { Gets T.took turns.old turns.new result
            (HasCopies previous rows.new messages.new) }
        ensures ascending { OnOk result (IsAscending (paths_of rows.new.items)) }
        ensures err_rows { OnErr result (rows.new.items ≡ rows.old.items) }
        ensures err_messages { OnErr result (messages.new.items ≡ messages.old.items) }
        ensures reason { IsOkUnless result Refusal.Memory }
    {
        let (news, state) = self.copy_rows_and_new_messages(turns, alloc, rows, previous)?;
        *messages = news.into_vec();
        Ok(state)
    }

    /// Replaces the contents of `rows` with the rows, and returns the new messages and the state
    /// for the next copy.
    #[tactic(auto, using(crate::proofs::TurnLaws::taking))]
    fn copy_rows_and_new_messages<T: CountsTurns>(
        &self,
        turns: &mut T,
        alloc: Global,
        rows: &mut Vec<Row>,
        previous: Option<MessageCopyState>,
    ) -> Result<(Messages, MessageCopyState), Refusal>
        ensures turn { Gets T.took turns.old turns.new result
            (HasCopiesAndNews previous rows.new.items) }
        ensures ascending { OnOk result (IsAscending (paths_of rows.new.items)) }
        ensures err { OnErr result (rows.new.items ≡ rows.old.items) }
        ensures reason { IsOkUnless result Refusal.Memory }
    {
        let tree = turns.begin(&self.lock);
        let news = tree.copy_rows_and_new_messages(alloc, rows, previous);
        turns.end(tree);
        news
    }

    /// Returns the rows, the new messages and the state for the next look. The memory of `spare` is
    /// reused, whatever it contains.
    #[tactic(auto, using(crate::proofs::TurnLaws::taking))]
    pub(crate) fn look<T: CountsTurns>(
        &self,
        turns: &mut T,
        spare: (Rows, Messages),
        previous: Option<MessageCopyState>,
    ) -> Result<(Rows, Messages, MessageCopyState), Refusal>
        ensures turn { Gets T.took turns.old turns.new result (HasSeen previous) }
        ensures ascending { IfOk result (λ seen. IsAscending (keys_of seen.0)) }
        ensures reason { IsOkUnless result Refusal.Memory }
    {
        let tree = turns.begin(&self.lock);
        let seen = tree.look(spare, previous);
        turns.end(tree);
        seen
    }

    /// Returns what `look` returns, with the steps of the rows in place of the rows, if the rows are
    /// these but for their steps. The memory of `spare` is reused, whatever it contains.
    #[tactic(auto, using(crate::proofs::TurnLaws::taking))]
    pub(crate) fn look_at_steps<T: CountsTurns>(
        &self,
        turns: &mut T,
        rows: &Rows,
        spare: (Vec<Step>, Messages),
        previous: Option<MessageCopyState>,
    ) -> Result<Option<(Vec<Step>, Messages, MessageCopyState)>, Refusal>
        ensures turn { Gets T.took turns.old turns.new result (HasSteps rows.now previous) }
        ensures ascending { IfOk result (StepsAscend rows.now) }
        ensures reason { IsOkUnless result Refusal.Memory }
    {
        let tree = turns.begin(&self.lock);
        let seen = tree.look_at_steps(rows, spare, previous);
        turns.end(tree);
        seen
    }

    /// Returns a copy of the tree, which has one owner, and counters of its own.
    #[tactic(auto, using(crate::proofs::TurnLaws::taking))]
    pub(crate) fn copy_tree<T: CountsTurns>(
        &self,
        turns: &mut T,
        alloc: Global,
    ) -> Result<LockedTree, Refusal>
        ensures turn { Gets T.took turns.old turns.new result IsCopy }
        ensures reason { IsOkUnless result Refusal.Memory }
    {
        let tree = turns.begin(&self.lock);
        let copy = tree.deep_clone(alloc);
        turns.end(tree);
        copy
    }

    /// Adds an owner of the tree, and returns what it has.
    #[tactic(auto, using(crate::proofs::TurnLaws::taking))]
    pub(crate) fn add_owner<T: CountsTurns, R: Clone + Drop>(
        &self,
        turns: &mut T,
        rt: &R,
    ) -> Result<(R, SharedTree), Refusal>
        ensures turn { Tries T.took turns.old turns.new result GetsOwner }
        ensures reason { IfErr result RefusesHandle }
    {
        let mut tree = turns.begin(&self.lock);
        let owner = self.count_owner(rt, &mut tree);
        turns.end(tree);
        owner
    }

    /// Adds an owner of the tree if it has one, and returns what it has. Returns `None` if the tree
    /// has no owner left.
    #[tactic(auto, using(crate::proofs::TurnLaws::taking))]
    pub(crate) fn upgrade<T: CountsTurns, R: Clone + Drop>(
        &self,
        turns: &mut T,
        rt: &R,
    ) -> Result<Option<(R, SharedTree)>, Refusal>
        ensures turn { TakesOne T.took turns.old turns.new (UpgradesOrStays result) }
        ensures reason { IfErr result RefusesHandle }
    {
        let mut tree = turns.begin(&self.lock);
        let owner = self.count_owner_if_owned(rt, &mut tree);
        turns.end(tree);
        owner
    }

    /// Removes an owner of the tree.
    #[tactic(auto, using(crate::proofs::TurnLaws::taking))]
    pub(crate) fn remove_owner<T: CountsTurns>(&self, turns: &mut T)
        ensures { TakesOne T.took turns.old turns.new LosesOwner }
    {
        let mut tree = turns.begin(&self.lock);
        tree.remove_owner();
        turns.end(tree);
    }

    /// Counts an owner of the tree, which is under the lock. Returns what the new owner has.
    fn count_owner<R: Clone + Drop>(
        &self,
        rt: &R,
        locked: &mut LockedTree,
    ) -> Result<(R, SharedTree), Refusal>
        ensures ok { OnOk result (locked.new ≡ with_owner locked.old) }
        ensures err { OnErr result (locked.new ≡ locked.old) }
        ensures full { (result ≡ Err Refusal.TooManyHandles) ↔ (locked.old.owners ≡ u64.MAX) }
        ensures reason { IfErr result RefusesHandle }
    {
        if locked.owners == u64::MAX {
            return Err(Refusal::TooManyHandles);
        }
        let rt = rt.clone()?;
        let tree = self.try_clone()?;
        locked.owners += 1;
        Ok((rt, tree))
    }

    /// Counts an owner of the tree, which is under the lock, if it has one. Returns what the new
    /// owner has.
    fn count_owner_if_owned<R: Clone + Drop>(
        &self,
        rt: &R,
        locked: &mut LockedTree,
    ) -> Result<Option<(R, SharedTree)>, Refusal>
        ensures ok { IfOk result (λ owner. Upgrades (is_some owner) locked.old locked.new) }
        ensures err { OnErr result (locked.new ≡ locked.old) }
        ensures full { (result ≡ Err Refusal.TooManyHandles) ↔ (locked.old.owners ≡ u64.MAX) }
        ensures reason { IfErr result RefusesHandle }
    {
        if locked.owners == 0 {
            return Ok(None);
        }
        Ok(Some(self.count_owner(rt, locked)?))
    }
}
