//! Owners of recorded trees, and their items.
ghost use Rattle.std.specs.Prelude.{◌≡◌, ◌+◌, ◌<◌, ◌↔◌, [], Err, false, IfOk, IfErr, OnOk, OnErr, length, IsOkUnless};
ghost use Rattle.prodash.specs.declared.tree.recorded.ledgers.TheConstants.{PARTS};
ghost use Rattle.prodash_base.specs.Refusals.{RefusesHandle};
ghost use Rattle.prodash_core.specs.Trees.{is_frame};
ghost use Rattle.prodash.specs.Views.{InOneTurn, GetsView};
ghost use Rattle.prodash.specs.Journals.{IsJournal, IsAfter, RefusesCall, new_caller, after_call, amount, calls_of, sum_of};

use crate::tree::recorded::history::HistoryPrefix;
use crate::tree::recorded::journal::Journal;
use crate::tree::recorded::ledgers::{Ledgers, TreeLedger};
use crate::tree::recorded::locked_recording::LockedRecording;
use crate::tree::recorded::receipt::Receipt;
use crate::tree::recorded::share::Share;
use crate::tree::recorded::state::RecordedState;
use crate::tree::recorded::turns::TakesViewTurns;
use crate::tree::recorded::unshared_parts::{LockedParts, UnsharedParts};
use crate::tree::recorded::view::RecordedView;
use crate::tree::root::Options;
use prodash_base::Refusal;
use prodash_core::tree::{Event, Reply};
use std::alloc::Global;
use std::marker::Model;
use std::sync::ledger::Ledger;
use std::sync::{Arc, Mutex, Wait};

/// The owner of a recorded tree. Its two ledgers, of calls and of sums, name the tree. Contracts see
/// how many shares had been made when it was opened: none of a new tree, and if `close` returns the
/// owner, all that have been made so far.
///
/// ```rust
/// let root = RecordedRoot::<C, S>::new(alloc, ledgers, &Options::default())?;
/// let mut item = root.share(&rt)?;
/// let name = Text::from_str(alloc, "task")?;
/// let (made, receipt) = item.call(&rt, alloc, Event::AddChild { parent: 0, name, id: UNKNOWN })?;
/// let mut shares = Vec::new(alloc);
/// shares.push(item.give_back())?;
/// if let Ok(journal) = root.close(&rt, shares) {
///     assert!(rt; journal.agrees(&receipt));
/// }
/// ```
#[derive(Drop)]
pub struct RecordedRoot<C: TreeLedger, S: Ledger> {
    tree: Arc<Mutex<LockedRecording<C, S>>>,
    unshared: LockedParts<C, S>,
    /// The empty history, which is all that a new item has seen.
    start: HistoryPrefix<C>,
    /// The greatest number of messages that the tree keeps.
    capacity: usize,
}

impl<C: TreeLedger, S: Ledger> Model for RecordedRoot<C, S> {
    ghost use Rattle.std.specs.Prelude.{◌≡◌, []};
    ghost use Rattle.prodash.specs.Journals.{Opened};

    ghost Value = { Opened };

    ghost view = { λ root. record { made = root.unshared } };

    ghost invariant = { λ root. (root.start ≡ [])
        × (root.capacity ≡ C.message_buffer_capacity) };
}

/// Makes calls on a recorded tree. Contracts see how many calls were accepted, their sum, and the
/// number of the last one.
#[derive(Drop)]
pub struct RecordedItem<C: TreeLedger, S: Ledger> {
    tree: Arc<Mutex<LockedRecording<C, S>>>,
    share: Share<C, S>,
    /// The history up to its last call.
    seen: HistoryPrefix<C>,
}

impl<C: TreeLedger, S: Ledger> Model for RecordedItem<C, S> {
    ghost use Rattle.prodash.specs.Journals.{Caller};
    ghost use Rattle.prodash.specs.plumbing.Histories.{last_number};

    ghost Value = { Caller };

    ghost view = { λ item. record { tally = item.share; last = last_number item.seen } };
}

/// What `close` returns if shares are missing: the root, and the shares that were given. Once the
/// missing shares are added, the root can be closed.
#[derive(Drop)]
pub struct Unclosed<C: TreeLedger, S: Ledger> {
    /// The root.
    pub root: RecordedRoot<C, S>,
    /// The shares that were given.
    pub shares: Vec<Share<C, S>>,
}

impl<C: TreeLedger, S: Ledger> RecordedRoot<C, S> {
    /// Returns a tree without tasks, and an empty journal.
    ///
    /// # Errors
    ///
    /// `Memory`, if there is no memory for it.
    pub fn new(
        alloc: Global,
        ledgers: Ledgers,
        options: &Options,
    ) -> Result<RecordedRoot<C, S>, Refusal>
        requires calls { (ledgers.calls.name ≡ C.name) × (ledgers.calls.parts ≡ C.parts) }
        requires sums { (ledgers.sums.name ≡ S.name) × (ledgers.sums.parts ≡ S.parts) }
        requires history { ledgers.history.seen.book ≡ C.history }
        requires capacity { options.now.message_buffer_capacity ≡ C.message_buffer_capacity }
        ensures made { IfOk result (λ root. root.made ≡ 0) }
        ensures reason { IsOkUnless result Refusal.Memory }
    {
        let state = RecordedState::new(alloc, options)?;
        let Ledgers {
            calls,
            sums,
            history,
        } = ledgers;
        let (calls, mut call_part) = calls.open::<C>();
        let (sums, sum_part) = sums.open::<S>();
        let (word, start) = history.of_tree::<C>();
        let of_tree = (word, start.duplicate());
        let locked = LockedRecording::new(state, calls, sums, call_part.empty(), of_tree);
        let tree = Arc::new(alloc, Mutex::new(locked))?;
        let unshared = LockedParts::new(UnsharedParts::new(call_part, sum_part));
        Ok(RecordedRoot {
            tree,
            unshared,
            start,
            capacity: options.message_buffer_capacity,
        })
    }

    /// Returns an item that makes calls on the tree. May wait for a lock that only `share` takes.
    ///
    /// # Errors
    ///
    /// `TooManyHandles`, if 2^64-1 shares have been made. `Memory`, if the reference count of the
    /// tree is at its limit.
    pub fn share<R: Wait>(&self, rt: &R) -> Result<RecordedItem<C, S>, Refusal>
        ensures ok { IfOk result (λ item. item ≡ new_caller) }
        ensures reason { IfErr result RefusesHandle }
    {
        make_item(&self.tree, &mut self.unshared.lock(rt), &self.start)
    }

    /// Returns a view of the tree, by which it is drawn. May wait for the lock of the tree.
    ///
    /// # Errors
    ///
    /// `TooManyHandles`, if there are 2^64-1 views. `Memory`, if the reference count of the tree is
    /// at its limit.
    pub fn view<R: TakesViewTurns>(
        &self,
        rt: &R,
        alloc: Global,
    ) -> Result<RecordedView<R, C, S>, Refusal>
        ensures ok { OnOk result (InOneTurn R.found R.left GetsView) }
        ensures reason { IfErr result RefusesHandle }
    {
        RecordedView::open(rt, alloc, self.capacity, &self.tree)
    }

    /// Returns the journal of all calls, if `shares` has all shares that have been made: an empty
    /// list, if none has. Views don't matter, and go on to show the tree as it is then. May wait for
    /// the lock of the tree. If the history had an entry that the journal lacks, this call would
    /// never return, as `RecordedItem::call`.
    ///
    /// # Errors
    ///
    /// The root and the shares, exactly if there are fewer shares than have been made.
    pub fn close<R: Wait>(
        self,
        rt: &R,
        shares: Vec<Share<C, S>>,
    ) -> Result<Journal<C>, Unclosed<C, S>>
        ensures replays { IfOk result (λ j. IsJournal C.message_buffer_capacity j) }
        ensures count { IfOk result (λ j. length j ≡ calls_of shares.items) }
        ensures amount { IfOk result (λ j. amount j ≡ sum_of shares.items) }
        ensures err { IfErr result (λ u. u.shares ≡ shares) }
        ensures missing { IfErr result (λ u. length shares.items < u.root.made) }
    {
        let RecordedRoot {
            tree,
            unshared,
            start,
            capacity,
        } = self;
        let unshared = unshared.into_parts();
        if !unshared.is_complete_with(&shares) {
            let unshared = LockedParts::new(unshared);
            let root = RecordedRoot {
                tree,
                unshared,
                start,
                capacity,
            };
            return Err(Unclosed { root, shares });
        }
        let (calls, sums) = unshared.merge_shares(shares);
        let journal = tree.lock(rt).take_journal(rt, calls, sums);
        // shows that it replays
        let _ = journal.entries();
        Ok(journal)
    }
}

impl<C: TreeLedger, S: Ledger> RecordedItem<C, S> {
    /// Applies an event that is no frame, and returns the reply, and a receipt by which the call is
    /// found in the journal. The numbers of the receipts rise from call to call. A refused event
    /// gets no entry in the journal.
    ///
    /// May wait for the lock of the tree. Under the lock, this call would never return if the
    /// history had an entry that the journal lacks. Only calls that hold the lock append one, and
    /// they append it to both, but no contract rules that case out.
    ///
    /// # Errors
    ///
    /// `TooManyHandles`, if the item has made 2^64-1 calls. Then `Gone`, `TooManyMessages` and
    /// `Memory`, as `RecordedState::apply`.
    pub fn call<R: Wait>(
        &mut self,
        rt: &R,
        alloc: Global,
        event: Event,
    ) -> Result<(Reply, Receipt<C>), Refusal>
        requires { is_frame event ≡ false }
        ensures ok { IfOk result (λ r. self.new ≡ after_call self.old event r.1.number) }
        ensures receipt { IfOk result (λ r. (r.1.event ≡ event) × (r.1.reply ≡ r.0)) }
        ensures number { IfOk result (λ r. IsAfter self.old.last r.1.number) }
        ensures err { OnErr result (self.new ≡ self.old) }
        ensures full { (self.old.tally.calls ≡ u64.MAX) ↔ (result ≡ Err Refusal.TooManyHandles) }
        ensures reason { IfErr result (RefusesCall event) }
    {
        let RecordedItem { tree, share, seen } = self;
        tree.lock(rt).call(rt, alloc, event, share, seen)
    }

    /// Returns the item's share, which says what the item has done.
    pub fn give_back(self) -> Share<C, S>
        ensures { result ≡ self.tally }
    {
        let RecordedItem {
            tree: _,
            share: given,
            seen: _,
        } = self;
        given
    }
}

/// Returns an item that makes calls on a tree, with a share that is split off. It has
/// seen nothing of the history but its start.
fn make_item<C: TreeLedger, S: Ledger>(
    tree: &Arc<Mutex<LockedRecording<C, S>>>,
    unshared: &mut UnsharedParts<C, S>,
    start: &HistoryPrefix<C>,
) -> Result<RecordedItem<C, S>, Refusal>
    requires { start.now ≡ [] }
    ensures item { IfOk result (λ item. item ≡ new_caller) }
    ensures ok { OnOk result (unshared.new.made ≡ unshared.old.made + 1) }
    ensures err { OnErr result (unshared.new ≡ unshared.old) }
    ensures full { (result ≡ Err Refusal.TooManyHandles) ↔ (unshared.old.made ≡ PARTS) }
    ensures reason { IfErr result RefusesHandle }
{
    if unshared.is_exhausted() {
        return Err(Refusal::TooManyHandles);
    }
    let tree = Arc::try_clone(tree)?;
    let share = unshared.split_share();
    Ok(RecordedItem {
        tree,
        share,
        seen: start.duplicate(),
    })
}
