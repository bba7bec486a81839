//! What the lock of a recorded tree protects.
ghost use Rattle.std.specs.Prelude.{◌≡◌, ◌≢◌, ◌≤◌, ◌<◌, ◌+◌, ◌-◌, ◌↔◌, [], Some, Err, true, false, is_some, IfOk, IfErr, OnOk, OnErr, IsOkUnless, length};
ghost use Rattle.std.specs.Option.{ForSome, ForNone};
ghost use Rattle.prodash_core.specs.Trees.{is_frame};
ghost use Rattle.prodash.specs.plumbing.Histories.{IsOpen, history_of, ended, last_number};
ghost use Rattle.prodash_core.specs.Refusals.{refusal_of};
ghost use Rattle.prodash.specs.declared.tree.recorded.ledgers.TheConstants.{PARTS};
ghost use Rattle.prodash.specs.Views.{Sees, viewed, owned_by, tasks_of};
ghost use Rattle.prodash.specs.plumbing.SeenTrees.{IsSeen};
ghost use Rattle.prodash.specs.Journals.{IsAfter, RefusesOn, RefusesCall, MayRefuse, with_call, amount};
ghost use Rattle.prodash_base.specs.Refusals.{RefusesHandle};
ghost use Rattle.prodash.specs.plumbing.Recordings.{Records, RecordsIn, IsReceiptOf};

use crate::messages::{MessageCopyState, Messages};
use crate::progress::Rows;
use crate::tree::recorded::closed_recording::ClosedRecording;
use crate::tree::recorded::history::{HistoryLength, HistoryPrefix};
use crate::tree::recorded::journal::Journal;
use crate::tree::recorded::ledgers::{PARTS, PartCount, TreeLedger};
use crate::tree::recorded::look_receipt::LookReceipt;
use crate::tree::recorded::receipt::Receipt;
use crate::tree::recorded::share::Share;
use crate::tree::recorded::shown::Looked;
use crate::tree::recorded::state::RecordedState;
use prodash_base::Refusal;
use prodash_core::tree::{Event, Reply};
use std::alloc::Global;
use std::sync::ledger::{Book, Ledger};
use std::sync::{Wait, ledger};

/// What the lock of a recorded tree protects: the tree with its journal, its history, and the
/// totals of all calls. Once the journal is taken out, no share has a part of the ledgers.
#[derive(Drop)]
pub struct LockedRecording<C: TreeLedger, S: Ledger> {
    /// The number of views.
    owners: u64,
    state: Option<RecordedState>,
    /// The tree, once the journal is taken out.
    last: Option<ClosedRecording<C>>,
    calls: Book<C>,
    sums: Book<S>,
    /// All parts of the ledger of calls, once the journal is taken out.
    all: ledger::Share<C>,
    word: HistoryLength<C>,
    /// The history, without its end once the journal is taken out.
    history: HistoryPrefix<C>,
    call_parts: PartCount<C>,
    sum_parts: PartCount<S>,
    ghost opened: { ForSome state (λ s. s.capacity ≡ C.message_buffer_capacity) },
    ghost counted: { ForSome state (λ s. calls.total ≡ length s.entries) },
    ghost summed: { ForSome state (λ s. sums.total ≡ amount s.entries) },
    ghost known: { ForSome state (λ s. history ≡ history_of s.entries) },
    ghost taken: { ForNone state (all.parts ≡ PARTS) },
    ghost shown: { ForNone state (is_some last ≡ true) },
    ghost open: { IsOpen history },
}

impl<C: TreeLedger, S: Ledger> LockedRecording<C, S> {
    /// Returns a tree with an empty journal.
    pub(crate) fn new(
        state: RecordedState,
        calls: Book<C>,
        sums: Book<S>,
        none: ledger::Share<C>,
        of_tree: (HistoryLength<C>, HistoryPrefix<C>),
    ) -> LockedRecording<C, S>
        requires opened { (state.capacity ≡ C.message_buffer_capacity) × (state.entries ≡ []) }
        requires calls { (calls.total ≡ 0) × (C.parts ≡ PARTS) }
        requires sums { (sums.total ≡ 0) × (S.parts ≡ PARTS) }
        requires history { of_tree.1 ≡ [] }
    {
        let (word, history) = of_tree;
        LockedRecording {
            owners: 0,
            state: Some(state),
            last: None,
            calls,
            sums,
            all: none,
            word,
            history,
            call_parts: PartCount::new(),
            sum_parts: PartCount::new(),
        }
    }

    /// Applies an event that is no frame, for the item that has the share and saw the history up to
    /// its last call, and returns the reply and the receipt. Then the item saw the history up to
    /// this call.
    #[tactic(auto, using(crate::proofs::JournalLaws::counting))]
    pub(crate) fn call<R: Wait>(
        &mut self,
        rt: &R,
        alloc: Global,
        event: Event,
        share: &mut Share<C, S>,
        seen: &mut HistoryPrefix<C>,
    ) -> Result<(Reply, Receipt<C>), Refusal>
        requires { is_frame event ≡ false }
        ensures reply { IfOk result (λ r. RecordsIn self.old.state event r.0 self.new.state) }
        ensures receipt { IfOk result (λ r. IsReceiptOf self.old.state event r.0 r.1) }
        ensures number { IfOk result (λ r. IsAfter (last_number seen.old) r.1.number) }
        ensures seen { IfOk result (λ r. last_number seen.new ≡ Some r.1.number) }
        ensures ok { OnOk result (share.new ≡ with_call share.old event) }
        ensures err { OnErr result ((share.new ≡ share.old) × (self.new.state ≡ self.old.state)) }
        ensures unseen { OnErr result (seen.new ≡ seen.old) }
        ensures full { (share.old.calls ≡ u64.MAX) ↔ (result ≡ Err Refusal.TooManyHandles) }
        ensures reason { IfErr result (RefusesOn self.old.state event) }
        ensures refused { IfErr result (RefusesCall event) }
    {
        if share.calls() == u64::MAX {
            return Err(Refusal::TooManyHandles);
        }
        self.call_parts.show_parts();
        let LockedRecording {
            state,
            calls,
            sums,
            all,
            word,
            history,
            ..
        } = self;
        match state {
            Some(state) => {
                let (reply, receipt) = record_call(rt, alloc, event, state, word, history, seen)?;
                share.count_call(receipt.event(), calls, sums);
                Ok((reply, receipt))
            }
            None => {
                share.show_part(all);
                unreachable!()
            }
        }
    }

    /// Returns what a frame sees of the tree, and the receipt.
    pub(crate) fn look(
        &self,
        spare: (Rows, Messages),
        previous: Option<MessageCopyState>,
    ) -> Result<(Option<Looked>, LookReceipt<C>), Refusal>
        ensures ok { IfOk result (λ r. Sees C.message_buffer_capacity previous r.1 r.0
            (viewed self.now.owners self.now.state self.now.last)) }
        ensures reason { IsOkUnless result Refusal.Memory }
    {
        match &self.state {
            Some(state) => look_at_open(state, &self.history, spare, previous),
            None => match &self.last {
                Some(last) => last.look(spare, previous),
                None => unreachable!(),
            },
        }
    }

    /// Returns the number of tasks that a view shows.
    pub(crate) fn num_tasks(&mut self, alloc: Global) -> usize
        ensures value { result ≡ tasks_of
            (viewed self.old.owners self.old.state self.old.last).tree }
        ensures owners { self.new.owners ≡ self.old.owners }
        ensures state { self.new.state ≡ self.old.state }
        ensures last { self.new.last ≡ self.old.last }
    {
        let LockedRecording { state, last, .. } = self;
        match state {
            Some(state) => state.num_tasks(alloc),
            None => match last {
                Some(last) => last.num_tasks(alloc),
                None => unreachable!(),
            },
        }
    }

    /// Adds a view.
    pub(crate) fn add_owner(&mut self) -> Result<(), Refusal>
        ensures ok { OnOk result (self.new.owners ≡ self.old.owners + 1) }
        ensures err { OnErr result (self.new.owners ≡ self.old.owners) }
        ensures state { self.new.state ≡ self.old.state }
        ensures last { self.new.last ≡ self.old.last }
        ensures full { (result ≡ Err Refusal.TooManyHandles) ↔ (self.old.owners ≡ u64.MAX) }
        ensures reason { IfErr result RefusesHandle }
    {
        if self.owners == u64::MAX {
            return Err(Refusal::TooManyHandles);
        }
        self.owners += 1;
        Ok(())
    }

    /// Returns the number of views.
    pub(crate) fn owners(&self) -> u64
        ensures { result ≡ self.now.owners }
    {
        self.owners
    }

    /// Removes a view.
    pub(crate) fn remove_owner(&mut self)
        ensures owners { self.new.owners ≡ self.old.owners - 1 }
        ensures state { self.new.state ≡ self.old.state }
        ensures last { self.new.last ≡ self.old.last }
    {
        self.owners = self.owners.saturating_sub(1);
    }

    /// Takes the journal out, in exchange for all parts of the ledgers.
    pub(crate) fn take_journal<R: Wait>(
        &mut self,
        rt: &R,
        mut calls: ledger::Share<C>,
        mut sums: ledger::Share<S>,
    ) -> Journal<C>
        requires calls { PARTS ≤ calls.parts }
        requires sums { PARTS ≤ sums.parts }
        ensures count { length result ≡ calls.amount }
        ensures sum { amount result ≡ sums.amount }
        ensures entries { result ≡ (viewed self.new.owners self.new.state self.new.last).entries }
        ensures kept { viewed self.new.owners self.new.state self.new.last
            ≡ viewed self.old.owners self.old.state self.old.last }
    {
        self.call_parts.show_parts();
        self.sum_parts.show_parts();
        let mut no_calls = calls.empty();
        calls.give(&mut no_calls, 0, 0);
        let mut no_sums = sums.empty();
        sums.give(&mut no_sums, 0, 0);
        match self.state.take() {
            Some(state) => {
                self.calls.audit(&mut calls);
                self.sums.audit(&mut sums);
                self.all = calls;
                let history = ended_history(rt, &self.word, &self.history, &state);
                let (last, journal) = split_recording(state, &self.history, history);
                self.last = Some(last);
                journal
            }
            None => {
                self.all.give(&mut calls, 0, 0);
                unreachable!()
            }
        }
    }
}

/// Returns the tree and the journal of a recording, which has this history and its end.
#[tactic(auto, using(crate::proofs::CallLaws::closing))]
fn split_recording<C: TreeLedger>(
    state: RecordedState,
    history: &HistoryPrefix<C>,
    whole: HistoryPrefix<C>,
) -> (ClosedRecording<C>, Journal<C>)
    requires capacity { state.capacity ≡ C.message_buffer_capacity }
    requires known { history.now ≡ history_of state.entries }
    requires whole { whole ≡ ended state.entries }
    ensures last { result.0 ≡ state }
    ensures entries { result.1 ≡ state.entries }
{
    let (tree, entries) = state.into_parts();
    let last = ClosedRecording::new(tree, history.duplicate());
    (last, Journal::new(entries, whole))
}

/// Returns what a frame sees of a tree with its journal, and the receipt.
#[tactic(auto, using(crate::proofs::CallLaws::looking_open))]
fn look_at_open<C: TreeLedger>(
    state: &RecordedState,
    history: &HistoryPrefix<C>,
    spare: (Rows, Messages),
    previous: Option<MessageCopyState>,
) -> Result<(Option<Looked>, LookReceipt<C>), Refusal>
    requires capacity { state.now.capacity ≡ C.message_buffer_capacity }
    requires known { history.now ≡ history_of state.now.entries }
    ensures ok { IfOk result (IsSeen C.message_buffer_capacity previous (owned_by 0 state.now)) }
    ensures reason { IsOkUnless result Refusal.Memory }
{
    let seen = state.look(spare, previous)?;
    Ok((seen, LookReceipt::new(history.duplicate())))
}

/// Applies an event that is no frame, and appends it to the journal and to the history. Returns the
/// reply and the receipt, whose number is greater than that of the last call that was seen.
#[tactic(auto, using(crate::proofs::HistoryLaws::appending))]
fn record_call<C: TreeLedger, R: Wait>(
    rt: &R,
    alloc: Global,
    event: Event,
    state: &mut RecordedState,
    word: &HistoryLength<C>,
    history: &mut HistoryPrefix<C>,
    seen: &mut HistoryPrefix<C>,
) -> Result<(Reply, Receipt<C>), Refusal>
    requires frame { is_frame event ≡ false }
    requires known { history.old ≡ history_of state.old.entries }
    ensures reply { IfOk result (λ r. Records state.old event r.0 state.new) }
    ensures receipt { IfOk result (λ r. IsReceiptOf (Some state.old) event r.0 r.1) }
    ensures number { IfOk result (λ r. IsAfter (last_number seen.old) r.1.number) }
    ensures seen { IfOk result (λ r. last_number seen.new ≡ Some r.1.number) }
    ensures capacity { state.new.capacity ≡ state.old.capacity }
    ensures history { history.new ≡ history_of state.new.entries }
    ensures err { OnErr result ((state.new ≡ state.old) × (seen.new ≡ seen.old)) }
    ensures reason { IfErr result (MayRefuse (refusal_of state.old.tree event)) }
    ensures handles { IfErr result (λ e. e ≢ Refusal.TooManyHandles) }
{
    let number = state.entries().len() as u64;
    let (reply, copy) = state.apply_and_copy(alloc, &event)?;
    let entry = (event, copy);
    history.append_call(rt, word, seen, &entry);
    *seen = history.duplicate();
    Ok((reply, Receipt::new(number, entry, history.duplicate())))
}

/// Returns the history of a tree with its end appended.
#[tactic(auto, using(crate::proofs::HistoryLaws::appending))]
fn ended_history<C: TreeLedger, R: Wait>(
    rt: &R,
    word: &HistoryLength<C>,
    history: &HistoryPrefix<C>,
    state: &RecordedState,
) -> HistoryPrefix<C>
    requires known { history.now ≡ history_of state.now.entries }
    ensures { result ≡ ended state.now.entries }
{
    let mut history = history.duplicate();
    // the journal is a slice in memory, so its history has the room that `append_end` requires
    let _len = state.entries().len();
    history.append_end(rt, word);
    history
}
