//! Turns of views at the lock of a recorded tree, and of tasks at that of their recorder.
ghost use Rattle.std.specs.Sync.Mutex.{mutex_guard_value};
ghost use Rattle.prodash.specs.Views.{viewed};

use crate::tree::recorded::kept_calls::KeptCalls;
use crate::tree::recorded::ledgers::TreeLedger;
use crate::tree::recorded::locked_recording::LockedRecording;
use crate::tree::turns::Turn;
use std::sync::ledger::Ledger;
use std::sync::{Mutex, MutexGuard, Wait};

/// A runtime by whose turns views find a recorded tree. Every type that meets these bounds is one.
///
/// What a turn found and left is known only of the turns that the calls give, as of those of
/// [`TakesTurns`](crate::tree::turns::TakesTurns).
pub trait TakesViewTurns: Wait + Clone + Drop {
    ghost use Rattle.prodash.specs.Views.{Viewed};
    ghost use Rattle.prodash.specs.declared.tree.turns.Turn.{Turn};

    /// The recorded tree was under the lock when the turn began.
    ghost found: { Turn → Viewed → Type 0 };

    /// The recorded tree was under the lock when the turn ended.
    ghost left: { Turn → Viewed → Type 0 };

    /// Begins a turn, once no other thread has one at the lock.
    fn begin_view_turn<'a, C: TreeLedger, S: Ledger>(
        &self,
        lock: &'a Mutex<LockedRecording<C, S>>,
    ) -> (MutexGuard<'a, LockedRecording<C, S>>, Turn)
        ensures { found result.1 (viewed (mutex_guard_value result.0).owners
            (mutex_guard_value result.0).state (mutex_guard_value result.0).last) };

    /// Ends a turn.
    fn end_view_turn<C: TreeLedger, S: Ledger>(
        &self,
        tree: MutexGuard<'_, LockedRecording<C, S>>,
        turn: Turn,
    )
        ensures { left turn (viewed (mutex_guard_value tree.entry).owners
            (mutex_guard_value tree.entry).state (mutex_guard_value tree.entry).last) };
}

impl<R: Wait + Clone + Drop> TakesViewTurns for R {
    ghost found = { λ turn tree. Unit {0} };

    ghost left = { λ turn tree. Unit {0} };

    fn begin_view_turn<'a, C: TreeLedger, S: Ledger>(
        &self,
        lock: &'a Mutex<LockedRecording<C, S>>,
    ) -> (MutexGuard<'a, LockedRecording<C, S>>, Turn) {
        (lock.lock(self), Turn::new())
    }

    fn end_view_turn<C: TreeLedger, S: Ledger>(
        &self,
        _tree: MutexGuard<'_, LockedRecording<C, S>>,
        _turn: Turn,
    ) {}
}

/// A runtime by whose turns the tasks of a recorder make their calls. Every type that meets these
/// bounds is one.
///
/// What a turn found and left is known only of the turns that the calls give, as of those of
/// [`TakesTurns`](crate::tree::turns::TakesTurns).
pub trait TakesRecorderTurns: Wait + Clone + Drop {
    ghost use Rattle.prodash.specs.Recorders.{Kept};
    ghost use Rattle.prodash.specs.declared.tree.turns.Turn.{Turn};

    /// This was kept when the turn began.
    ghost found: { Turn → Kept → Type 0 };

    /// This was kept when the turn ended.
    ghost left: { Turn → Kept → Type 0 };

    /// Begins a turn, once no other thread has one at the lock.
    fn begin_recorder_turn<'a, C: TreeLedger, S: Ledger>(
        &self,
        lock: &'a Mutex<KeptCalls<C, S>>,
    ) -> (MutexGuard<'a, KeptCalls<C, S>>, Turn)
        ensures { found result.1 (mutex_guard_value result.0) };

    /// Ends a turn.
    fn end_recorder_turn<C: TreeLedger, S: Ledger>(
        &self,
        calls: MutexGuard<'_, KeptCalls<C, S>>,
        turn: Turn,
    )
        ensures { left turn (mutex_guard_value calls.entry) };
}

impl<R: Wait + Clone + Drop> TakesRecorderTurns for R {
    ghost found = { λ turn kept. Unit {0} };

    ghost left = { λ turn kept. Unit {0} };

    fn begin_recorder_turn<'a, C: TreeLedger, S: Ledger>(
        &self,
        lock: &'a Mutex<KeptCalls<C, S>>,
    ) -> (MutexGuard<'a, KeptCalls<C, S>>, Turn) {
        (lock.lock(self), Turn::new())
    }

    fn end_recorder_turn<C: TreeLedger, S: Ledger>(
        &self,
        _calls: MutexGuard<'_, KeptCalls<C, S>>,
        _turn: Turn,
    ) {}
}
