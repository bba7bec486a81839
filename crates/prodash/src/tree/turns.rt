//! Turns at the lock of a tree.
ghost use Rattle.std.specs.Sync.Mutex.{mutex_guard_value};
ghost use Rattle.prodash.specs.plumbing.CountedTurns.{BeginsTurn, EndsTurn, WereTaken};

use crate::tree::locked::LockedTree;
use std::sync::{Mutex, MutexGuard, Wait};

/// A turn at a lock. No clause says what its number is, so that one turn isn't known to be another.
#[derive(Clone, Copy)]
pub struct Turn {
    number: u8,
}

impl Turn {
    /// Returns a turn.
    pub(crate) fn new() -> Turn {
        Turn { number: 0 }
    }
}

/// A runtime whose threads take turns at the lock of a tree. Every type that meets
/// these bounds is one.
///
/// What a turn found and left is known only of the turns that the calls give. So a clause that
/// names a turn says what one thread did between taking the lock and releasing it.
pub trait TakesTurns: Wait + Clone + Drop {
    ghost use Rattle.prodash.specs.declared.tree.locked.LockedTree.{LockedTree};
    ghost use Rattle.prodash.specs.declared.tree.turns.Turn.{Turn};

    /// The tree was under the lock when the turn began.
    ghost found: { Turn → LockedTree → Type 0 };

    /// The tree was under the lock when the turn ended.
    ghost left: { Turn → LockedTree → Type 0 };

    /// Begins a turn, once no other thread has one at the lock.
    fn begin_turn<'a>(&self, lock: &'a Mutex<LockedTree>) -> (MutexGuard<'a, LockedTree>, Turn)
        ensures { found result.1 (mutex_guard_value result.0) };

    /// Ends a turn.
    fn end_turn(&self, tree: MutexGuard<'_, LockedTree>, turn: Turn)
        ensures { left turn (mutex_guard_value tree.entry) };
}

impl<R: Wait + Clone + Drop> TakesTurns for R {
    ghost found = { λ turn tree. Unit {0} };

    ghost left = { λ turn tree. Unit {0} };

    fn begin_turn<'a>(&self, lock: &'a Mutex<LockedTree>) -> (MutexGuard<'a, LockedTree>, Turn) {
        (lock.lock(self), Turn { number: 0 })
    }

    fn end_turn(&self, _tree: MutexGuard<'_, LockedTree>, _turn: Turn) {}
}

/// What a call takes its turns by. It has no `Wait`, so generic code gets at a tree only by a turn.
/// Which turns it took is known only by its own calls, so a clause says how many turns a call took,
/// and what each of them found and left.
pub trait CountsTurns {
    ghost use Rattle.prodash.specs.plumbing.CountedTurns.{Taken};
    ghost use Rattle.prodash.specs.declared.tree.locked.LockedTree.{LockedTree};

    /// It took these turns.
    ghost took: { Self → Taken → Type 0 };

    /// It took these turns, and has one that found this tree.
    ghost has_turn: { Self → Taken → LockedTree → Type 0 };

    /// Begins a turn, once no other thread has one at the lock.
    fn begin<'a>(&mut self, lock: &'a Mutex<LockedTree>) -> MutexGuard<'a, LockedTree>
        ensures { BeginsTurn took has_turn self.old self.new (mutex_guard_value result) };

    /// Ends the turn.
    fn end(&mut self, tree: MutexGuard<'_, LockedTree>)
        ensures { EndsTurn took has_turn self.old self.new (mutex_guard_value tree.entry) };
}

/// The turns of one call, which a runtime takes.
#[derive(Drop)]
pub struct Turns<'a, R: TakesTurns> {
    rt: &'a R,
    /// The latest turn, if there is one.
    turn: Turn,
}

impl<'a, R: TakesTurns> Turns<'a, R> {
    /// Returns the turns of a call that has taken none.
    pub(crate) fn new(rt: &'a R) -> Turns<'a, R> {
        Turns {
            rt,
            turn: Turn::new(),
        }
    }
}

impl<R: TakesTurns> CountsTurns for Turns<'_, R> {
    ghost took = { λ _ taken. WereTaken R.found R.left taken };

    ghost has_turn = { λ turns taken tree.
        WereTaken R.found R.left taken × R.found turns.turn tree };

    fn begin<'a>(&mut self, lock: &'a Mutex<LockedTree>) -> MutexGuard<'a, LockedTree> {
        let (tree, turn) = self.rt.begin_turn(lock);
        self.turn = turn;
        tree
    }

    fn end(&mut self, tree: MutexGuard<'_, LockedTree>) {
        self.rt.end_turn(tree, self.turn);
    }
}
