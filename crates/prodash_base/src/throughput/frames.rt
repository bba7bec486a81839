//! The throughput of the rows of frames that may be refused.
ghost use Rattle.std.specs.Prelude.{◌≡◌, ◌≤◌, ◌+◌, length, OnOk, OnErr, IfOk, IsSome, IsOkUnless};
ghost use Rattle.prodash_base.specs.Rows.{rows_of};
ghost use Rattle.prodash_base.specs.Held.{AreFew};
ghost use Rattle.prodash_base.specs.Trackers.{observation_of, throughput_of, held_samples, HoldsRecent};
ghost use Rattle.prodash_base.specs.FrameTrackers.{new_frame_tracker, begin, observe_pending, keep};

use crate::progress::{Key, Row, Step};
use crate::refusal::Refusal;
use crate::throughput::history::{Change, History, Listed};
use crate::throughput::kept::Kept;
use crate::throughput::keys::{
    add_observation, keep_all, kept_samples, retain_listed, take_back_all,
};
use crate::throughput::rate::ONE_SECOND;
use crate::throughput::{elapsed_since, observation_of};
use crate::time::Moment;
use crate::unit::display;
use std::alloc::Global;
use std::fmt::{self, Debug, Formatter};
use std::marker::Model;

/// Measures throughput as [`Throughput`](crate::throughput::Throughput) does, for frames that may
/// be refused: what a frame observes is pending until the frame is kept, and a frame that isn't kept
/// leaves no trace in the next one. Keeping a frame takes no memory. Contracts see the tracker as it
/// was kept and the one with what is pending.
///
/// ```rust
/// let mut tracker = FrameThroughput::new(alloc);
/// tracker.begin(0);
/// let throughput = tracker.observe(alloc, &row.key, Some(10))?;
/// tracker.keep(rows);
/// ```
#[derive(Drop)]
pub struct FrameThroughput {
    /// The moment and the elapsed time of the last kept frame.
    updated_before: (Option<Moment>, Option<u64>),
    /// Those of the frame being drawn.
    updated: (Option<Moment>, Option<u64>),
    /// What is kept of each key, sorted by key.
    kept: Vec<Kept>,
    /// The index at which the next key is expected.
    next: usize,
    /// Whether something was observed since the last kept frame.
    is_pending: bool,
    /// All observations of these keys in the frames that were kept.
    history_before: History,
    /// The same, and those of the frame being drawn.
    history: History,
}

impl Model for FrameThroughput {
    ghost use Rattle.std.specs.FinMap as finite;
    ghost use Rattle.std.specs.Coded.{codes};
    ghost use Rattle.prodash_base.specs.FrameTrackers.{FrameTracker};
    ghost use Rattle.prodash_base.specs.plumbing.KeptTables.{KeepsBoth, summaries_of, entries_before};

    ghost Value = { FrameTracker };

    ghost coded = { Prim.hlevel (codes, finite.code) };

    ghost view = { λ t. record {
      kept = record {
        updated_at = t.updated_before.0;
        elapsed = t.updated_before.1;
        observations = t.history_before.observations;
        held = finite.from_entries (entries_before t.kept.items);
      };
      pending = record {
        updated_at = t.updated.0;
        elapsed = t.updated.1;
        observations = t.history.observations;
        held = summaries_of t.kept.items;
      };
    } };

    ghost invariant = { λ t. KeepsBoth t.history_before.observations t.history.observations
        t.is_pending t.kept.items };
}

impl FrameThroughput {
    /// Returns a tracker that has observed nothing.
    pub fn new(alloc: Global) -> FrameThroughput
        ensures { result ≡ new_frame_tracker }
    {
        FrameThroughput {
            updated_before: (None, None),
            updated: (None, None),
            kept: Vec::new(alloc),
            next: 0,
            is_pending: false,
            history_before: History::new(),
            history: History::new(),
        }
    }

    /// Returns an equal tracker.
    ///
    /// # Errors
    ///
    /// `Memory`, if out of memory.
    pub fn copy(&self) -> Result<FrameThroughput, Refusal>
        ensures ok { IfOk result (λ copy. copy ≡ self.now) }
        ensures reason { IsOkUnless result Refusal.Memory }
    {
        Ok(FrameThroughput {
            updated_before: self.updated_before,
            updated: self.updated,
            kept: self.kept.clone()?,
            next: self.next,
            is_pending: self.is_pending,
            history_before: self.history_before.after(&Change::Nothing),
            history: self.history.after(&Change::Nothing),
        })
    }

    /// Begins a frame at a moment, and forgets what was observed since the last kept frame. The
    /// elapsed time is that since the last kept frame.
    pub fn begin(&mut self, at: Moment)
        ensures { self.new ≡ begin self.old at }
    {
        if self.is_pending {
            take_back_all(&mut self.kept);
            self.history = self.history_before.after(&Change::Nothing);
            self.is_pending = false;
        }
        self.updated = (Some(at), elapsed_since(self.updated_before.0, at));
        self.next = 0;
    }

    /// Observes the step of a key, and returns its throughput, as `Throughput::update_and_get`
    /// does.
    ///
    /// # Errors
    ///
    /// `Memory`, if out of memory. The tracker is then unchanged.
    pub fn observe(
        &mut self,
        alloc: Global,
        key: &Key,
        step: Option<Step>,
    ) -> Result<Option<display::Throughput>, Refusal>
        ensures value { IfOk result
            (λ shown. shown ≡ throughput_of self.old.pending key.now step) }
        ensures ok { OnOk result (self.new ≡ observe_pending self.old key.now step) }
        ensures err { OnErr result (self.new ≡ self.old) }
        ensures reason { IsOkUnless result Refusal.Memory }
        ensures recorded { OnErr result (IsSome (observation_of self.old.pending.elapsed step)) }
        ensures held { HoldsRecent self.new.pending key.now }
        ensures bound { AreFew (held_samples self.new.pending key.now) }
        ensures bound_before { AreFew (held_samples self.new.kept key.now) }
    {
        let Some(observation) = observation_of(self.updated.1, step) else {
            return Ok(None);
        };
        self.is_pending = true;
        let rate = add_observation(&mut self.kept, &mut self.next, alloc, *key, observation)?;
        self.history = self.history.after(&Change::Observed(*key, observation));
        Ok(rate.map(|change| display::Throughput::new(change, ONE_SECOND)))
    }

    /// Returns how many samples of a key are held in memory: those that the frame needs, and those
    /// that are needed if it isn't kept. A sample that both need counts once.
    pub fn kept_samples(&self, key: &Key) -> usize
        ensures frame { length (held_samples self.now.pending key.now) ≤ result }
        ensures before { length (held_samples self.now.kept key.now) ≤ result }
        ensures most { result ≤ length (held_samples self.now.pending key.now)
            + length (held_samples self.now.kept key.now) }
    {
        kept_samples(&self.kept, key)
    }

    /// Keeps the frame: the observations of the keys of `rows` stay, and all others are forgotten.
    pub fn keep(&mut self, rows: &[Row])
        ensures { self.new ≡ keep self.old (rows_of rows.now) }
    {
        retain_listed(&mut self.kept, rows);
        keep_all(&mut self.kept);
        self.history = self.history.among(&Listed { rows });
        self.history_before = self.history.after(&Change::Nothing);
        self.updated_before = self.updated;
        self.is_pending = false;
    }
}

impl Debug for FrameThroughput {
    fn fmt<F: fmt::Write>(&self, f: &mut Formatter<F>) -> fmt::Result {
        f.debug_struct("FrameThroughput")
            .field("updated_before", &self.updated_before)
            .field("updated", &self.updated)
            .field("kept", &self.kept)
            .finish()
    }
}
