//! The throughput of the tasks that a renderer draws.
ghost use Rattle.std.specs.Prelude.{◌≡◌, ◌≤◌, length, OnOk, OnErr, IfOk, IsSome, IsOkUnless};
ghost use Rattle.std.specs.Map.{keys_of};
ghost use Rattle.prodash_base.specs.Rows.{rows_of};
ghost use Rattle.prodash_base.specs.Held.{AreFew};
ghost use Rattle.prodash_base.specs.Trackers.{new_tracker, elapsed_since, update_elapsed, observation_of, observe, throughput_of, held_samples, HoldsRecent, reconcile, KeepsOnly};

mod frames;
mod history;
mod kept;
mod keys;
mod rate;
mod sample;
mod totals;

use crate::progress::{Key, Row, Step};
use crate::refusal::Refusal;
use crate::time::Moment;
use crate::unit::display;
pub use frames::FrameThroughput;
use history::{Change, History, Listed};
use kept::Kept;
use keys::{add_observation, kept_samples, retain_listed};
pub(crate) use rate::ONE_SECOND;
use sample::Observation;
use std::alloc::Global;
use std::fmt::{self, Debug, Formatter};
use std::marker::Model;

/// Measures the throughput of values, each under a key, which are observed at each frame. Contracts
/// see the latest moment, the elapsed time, a finite map from paths to all observations, and one to
/// what is held of them in memory.
///
/// The first observation of a key is a mark, and so is each one that comes more than a second after
/// the previous mark. The throughput changes at marks only: it is the rise over the fewest of the
/// latest observations that together take more than a second. Of a key only its latest value, its
/// rate at the last mark, and the samples after that mark are held, and a sample that takes no time
/// is added to the one before it.
///
/// ```rust
/// let mut tracker = Throughput::new(alloc);
/// tracker.update_elapsed(0);
/// tracker.update_elapsed(400_000_000);
/// assert_eq!(rt; tracker.update_and_get(alloc, &key, Some(10))?, None);
/// tracker.update_elapsed(1_600_000_000);
/// let throughput = tracker.update_and_get(alloc, &key, Some(50))?;
/// assert_eq!(rt; throughput, Some(display::Throughput::new(33, 1_000_000_000)));
/// ```
#[derive(Drop)]
pub struct Throughput {
    updated_at: Option<Moment>,
    elapsed: Option<u64>,
    /// What is kept of each key, sorted by key.
    kept: Vec<Kept>,
    /// The index at which the next key is expected.
    next: usize,
    /// All observations of these keys.
    history: History,
}

impl Model for Throughput {
    ghost use Rattle.std.specs.FinMap as finite;
    ghost use Rattle.std.specs.Coded.{codes};
    ghost use Rattle.prodash_base.specs.Trackers.{Tracker};
    ghost use Rattle.prodash_base.specs.plumbing.KeptTables.{KeepsAll, stored};

    ghost Value = { Tracker };

    ghost coded = { Prim.hlevel (codes, finite.code) };

    ghost view = { λ t. record {
      updated_at = t.updated_at;
      elapsed = t.elapsed;
      observations = t.history.observations;
      held = stored t.kept.items;
    } };

    ghost invariant = { λ t. KeepsAll t.history.observations t.kept.items };
}

impl Throughput {
    /// Returns a tracker that has observed nothing.
    pub fn new(alloc: Global) -> Throughput
        ensures { result ≡ new_tracker }
    {
        Throughput {
            updated_at: None,
            elapsed: None,
            kept: Vec::new(alloc),
            next: 0,
            history: History::new(),
        }
    }

    /// Returns an equal tracker. `_rows` is not used.
    ///
    /// # Errors
    ///
    /// `Memory`, if out of memory.
    pub fn copy(&self, _alloc: Global, _rows: &[Row]) -> Result<Throughput, Refusal>
        ensures ok { IfOk result (λ copy. copy ≡ self.now) }
        ensures reason { IsOkUnless result Refusal.Memory }
    {
        Ok(Throughput {
            updated_at: self.updated_at,
            elapsed: self.elapsed,
            kept: self.kept.clone()?,
            next: self.next,
            history: self.history.after(&Change::Nothing),
        })
    }

    /// Sets the moment of the values that are observed next, and the elapsed time since the previous
    /// moment. There is no elapsed time at the first moment, or if the clock went back.
    pub fn update_elapsed(&mut self, at: Moment)
        ensures { self.new ≡ update_elapsed self.old at }
    {
        self.elapsed = elapsed_since(self.updated_at, at);
        self.updated_at = Some(at);
        self.next = 0;
    }

    /// Observes the step of a key, and returns its throughput, with a timespan of one second.
    /// Nothing is recorded without an elapsed time or a step, and the call then returns `None`, as
    /// it does before the second mark of the key. Afterwards only the samples after the last mark of
    /// the key are held. They are few, however often it is called: each takes time, and together
    /// they take at most a second.
    ///
    /// # Errors
    ///
    /// `Memory`, if out of memory. The tracker is then unchanged.
    pub fn update_and_get(
        &mut self,
        alloc: Global,
        key: &Key,
        step: Option<Step>,
    ) -> Result<Option<display::Throughput>, Refusal>
        ensures value { IfOk result (λ shown. shown ≡ throughput_of self.old key.now step) }
        ensures ok { OnOk result (self.new ≡ observe self.old key.now step) }
        ensures err { OnErr result (self.new ≡ self.old) }
        ensures reason { IsOkUnless result Refusal.Memory }
        ensures recorded { OnErr result (IsSome (observation_of self.old.elapsed step)) }
        ensures held { HoldsRecent self.new key.now }
        ensures bound { AreFew (held_samples self.new key.now) }
    {
        let Some(observation) = observation_of(self.elapsed, step) else {
            return Ok(None);
        };
        let rate = add_observation(&mut self.kept, &mut self.next, alloc, *key, observation)?;
        self.history = self.history.after(&Change::Observed(*key, observation));
        Ok(rate.map(|change| display::Throughput::new(change, ONE_SECOND)))
    }

    /// Returns how many samples of a key are held in memory.
    pub fn kept_samples(&self, key: &Key) -> usize
        ensures { result ≡ length (held_samples self.now key.now) }
    {
        kept_samples(&self.kept, key)
    }

    /// Keeps the observations of the keys of `rows`, and of no others.
    pub fn reconcile(&mut self, rows: &[Row])
        ensures value { self.new ≡ reconcile self.old (rows_of rows.now) }
        ensures kept { KeepsOnly (keys_of (rows_of rows.now))
            self.old.observations self.new.observations }
    {
        retain_listed(&mut self.kept, rows);
        self.history = self.history.among(&Listed { rows });
    }
}

impl Debug for Throughput {
    fn fmt<F: fmt::Write>(&self, f: &mut Formatter<F>) -> fmt::Result {
        f.debug_struct("Throughput")
            .field("updated_at", &self.updated_at)
            .field("elapsed", &self.elapsed)
            .field("kept", &self.kept)
            .finish()
    }
}

/// Returns the time since the previous moment, or `None` if there is none or the clock went back.
fn elapsed_since(previous: Option<Moment>, at: Moment) -> Option<u64>
    ensures { result ≡ elapsed_since previous at }
{
    match previous {
        Some(previous) if at >= previous => Some(at - previous),
        _ => None,
    }
}

/// Returns an observation, if there are both an elapsed time and a value.
fn observation_of(elapsed: Option<u64>, value: Option<Step>) -> Option<Observation>
    ensures { result ≡ observation_of elapsed value }
{
    match (elapsed, value) {
        (Some(elapsed), Some(value)) => Some(Observation { elapsed, value }),
        _ => None,
    }
}
