//! The history of a recorded tree: a list of its accepted calls that only grows. Apart from its
//! length it exists only in proofs.
ghost use Rattle.std.specs.Prelude.{◌≡◌, ◌<◌, ◌^◌, ◌++◌, ◌∷◌, [], length, None};
ghost use mathlib.Core.List.{IsPrefix};
ghost use Rattle.prodash.specs.plumbing.Histories.{AppendsOrIsLonger, IsOpen, IsOrderly, ended, length_word};
ghost use Rattle.prodash.specs.declared.tree.recorded.history.HistoryEntry.TheVariants.{Call, End};

use crate::tree::recorded::ledgers::TreeLedger;
use logbook::{Gain, Offer, Plain, Play, Rule, Seen, Start, Word};
use prodash_core::tree::{Event, Reply};
use std::convert::Infallible;
use std::marker::{Model, PhantomData};
use std::sync::Wait;

/// An entry of a history: an accepted call with its reply, or the mark that no further call
/// follows. No value of this type is ever made.
pub(crate) enum HistoryEntry {
    /// A call that was accepted.
    Call((Event, Reply)),
    /// The end.
    End,
}

/// The rule of a history: one word has its length, and nothing follows its end.
pub(crate) struct HistoryRule;

impl Rule<HistoryEntry, u64> for HistoryRule {
    ghost use Rattle.std.specs.Prelude.{[]};
    ghost use base.Fml.{ftrue};
    ghost use Rattle.prodash.specs.plumbing.Histories.{IsKept};

    ghost holds = { λ cells log. IsKept cells log };

    ghost first = { [] };

    ghost hinted = { λ n log. Unit {0} };

    ghost shows = { λ log. [] };

    ghost keeps = { λ names log. ftrue };

    ghost moves = { λ ask before after answer. Unit {0} };
}

/// What an append gains: nothing beyond what it has seen.
struct NoGain;

impl Gain<HistoryEntry, u64> for NoGain {
    ghost use base.Fml.{ftrue};

    ghost after = { λ names about answer. ftrue };
}

/// The step that appends an entry.
struct Append;

impl Play<HistoryEntry, u64> for Append {
    ghost use Rattle.prodash.specs.plumbing.Histories.{Appends};

    ghost then = { Appends };
}

impl Plain<(Event, Reply), HistoryEntry, u64> for Append {
    ghost use Rattle.std.specs.Prelude.{None};
    ghost use Rattle.prodash.specs.declared.tree.recorded.history.HistoryEntry.TheVariants.{Call};

    ghost ask = { λ entry. Call entry };

    ghost state = { λ entry. None };
}

impl Plain<(), HistoryEntry, u64> for Append {
    ghost use Rattle.std.specs.Prelude.{None};
    ghost use Rattle.prodash.specs.declared.tree.recorded.history.HistoryEntry.TheVariants.{End};

    ghost ask = { λ entry. End };

    ghost state = { λ entry. None };
}

/// The empty history of a tree that is to be recorded.
#[derive(Drop)]
pub struct History {
    word: Word<HistoryEntry, u64, HistoryRule>,
    seen: Seen<HistoryEntry, u64, HistoryRule>,
    ghost empty: { seen.log ≡ [] },
    ghost alone: { seen.names ≡ [] },
    ghost counted: { word ≡ length_word seen.book },
}

impl History {
    /// Returns an empty history, different from every other.
    pub fn new() -> History {
        let (seen, mut first, _second) = Seen::open(Start::alone(), 0, 0);
        History {
            word: Word::tracked(0, &mut first),
            seen,
        }
    }

    /// Returns the length of the history of this tree, and its empty prefix.
    pub(crate) fn of_tree<C: TreeLedger>(self) -> (HistoryLength<C>, HistoryPrefix<C>)
        requires { self.seen.book ≡ C.history }
        ensures { result.1 ≡ [] }
    {
        let History { word, seen } = self;
        let word = HistoryLength {
            word,
            tree: PhantomData,
        };
        let prefix = HistoryPrefix {
            len: 0,
            seen,
            tree: PhantomData,
        };
        (word, prefix)
    }
}

/// The length of the history of a tree.
#[derive(Drop)]
pub(crate) struct HistoryLength<C: TreeLedger> {
    word: Word<HistoryEntry, u64, HistoryRule>,
    tree: PhantomData<C>,
    ghost counted: { word ≡ length_word C.history },
}

/// A prefix of the history of a tree. Contracts see its entries.
#[derive(Drop)]
pub(crate) struct HistoryPrefix<C: TreeLedger> {
    len: u64,
    seen: Seen<HistoryEntry, u64, HistoryRule>,
    tree: PhantomData<C>,
}

impl<C: TreeLedger> Model for HistoryPrefix<C> {
    ghost use Rattle.std.specs.Prelude.{◌≡◌, List, [], length};
    ghost use Rattle.prodash.specs.declared.tree.recorded.history.HistoryEntry.{HistoryEntry};
    ghost use Rattle.prodash.specs.plumbing.Histories.{IsOrderly};

    ghost Value = { List HistoryEntry };

    ghost view = { λ p. p.seen.log };

    ghost invariant = { λ p. (p.len ≡ length p.seen.log) × (p.seen.book ≡ C.history)
        × (p.seen.names ≡ []) × IsOrderly p.seen.log };
}

impl<C: TreeLedger> HistoryPrefix<C> {
    /// Returns another copy of this prefix.
    pub(crate) fn duplicate(&self) -> HistoryPrefix<C>
        ensures { result ≡ self.now }
    {
        HistoryPrefix {
            len: self.len,
            seen: self.seen.again(),
            tree: PhantomData,
        }
    }

    /// Returns the number of entries.
    pub(crate) fn len(&self) -> u64
        ensures { result ≡ length self.now }
    {
        self.len
    }

    /// Proof only: every prefix of the history is one of the whole history.
    pub(crate) fn covers(&self, other: &HistoryPrefix<C>)
        ensures { (entries : _) → self.now ≡ ended entries → IsPrefix other.now self.now }
    {
        let mut both = self.seen.again();
        both.learn(&other.seen);
    }

    /// Appends a call to the whole history, which is this prefix. So every other prefix is one of
    /// this prefix, as is `earlier`. If the history is longer, which the lock of its tree rules
    /// out, this call never returns.
    pub(crate) fn append_call<R: Wait>(
        &mut self,
        rt: &R,
        word: &HistoryLength<C>,
        earlier: &HistoryPrefix<C>,
        entry: &(Event, Reply),
    )
        requires room { length self.old < 2 ^ 63 }
        requires open { IsOpen self.old }
        ensures more { self.new ≡ self.old ++ Call entry.now ∷ [] }
        ensures earlier { IsPrefix earlier.now self.old }
    {
        let offer = self.seen.plain::<NoGain, (Event, Reply), Append>(entry);
        if !self.try_append(word, earlier, offer) {
            match block_forever(rt) {}
        }
    }

    /// Appends the end to the whole history, which is this prefix. If the history is longer, this
    /// call never returns, as `append_call`.
    pub(crate) fn append_end<R: Wait>(&mut self, rt: &R, word: &HistoryLength<C>)
        requires room { length self.old < 2 ^ 63 }
        requires open { IsOpen self.old }
        ensures { self.new ≡ self.old ++ End ∷ [] }
    {
        let offer = self.seen.plain::<NoGain, (), Append>(&());
        let earlier = self.duplicate();
        if !self.try_append(word, &earlier, offer) {
            match block_forever(rt) {}
        }
    }

    /// Appends the entry that is offered if this prefix is the whole history, and returns whether
    /// it is. It learns of the other prefix before, so the whole history has that one.
    fn try_append(
        &mut self,
        word: &HistoryLength<C>,
        earlier: &HistoryPrefix<C>,
        mut offer: Offer<HistoryEntry, u64, HistoryRule, NoGain>,
    ) -> bool
        requires room { length self.old < 2 ^ 63 }
        requires open { IsOpen self.old }
        requires offered { (offer.names ≡ []) × (offer.state ≡ None) }
        ensures { AppendsOrIsLonger result self.old earlier.now offer.ask self.new }
    {
        let before = self.len;
        self.seen.learn(&earlier.seen);
        let mut pen = self.seen.no_pen();
        let found = word
            .word
            .compare_exchange::<Append, NoGain>(
                before,
                before + 1,
                &mut self.seen,
                &mut offer,
                &mut pen,
            );
        self.len = if found == before { before + 1 } else { found };
        found == before
    }
}

/// Never returns.
fn block_forever<R: Wait>(rt: &R) -> Infallible {
    for _ in rt.forever() {}
    unreachable!()
}
