//! What a tracker keeps of each key: enough for its next rates.
ghost use Rattle.std.specs.Prelude.{◌≡◌, ◌≤◌, length, OnOk, OnErr};
ghost use Rattle.prodash_base.specs.plumbing.KeptSamples.{Sums, SumsBefore, Settles, earliest, with_latest, latest_change, with_change};

use crate::progress::Key;
use crate::throughput::rate::{is_mark, rate_over};
use crate::throughput::sample::{Observation, Sample};
use crate::throughput::totals::Totals;
use std::alloc::{AllocError, Global};
use std::collections::VecDeque;

/// What is kept of a key. The observations of a frame can be taken back until the frame is kept.
#[derive(Debug, Drop)]
pub(crate) struct Kept {
    /// The key.
    pub(crate) key: Key,
    /// The samples that the next rates need, and those that are needed if the frame is taken back.
    /// The latest is first. A sample that takes no time is added to the one before it.
    pub(crate) samples: VecDeque<Sample>,
    /// The totals of all samples.
    pub(crate) latest: Totals,
    /// The number of samples when a frame was last kept, which are the earliest ones.
    pub(crate) settled: usize,
    /// The change of the latest of them at that time.
    pub(crate) settled_change: u128,
    /// The totals at that time; `None` if the key is newer.
    pub(crate) before: Option<Totals>,
    ghost sums: { Sums latest samples.items },
    ghost sums_before: { SumsBefore settled settled_change before samples.items },
    ghost settles: { Settles latest.older settled before },
}

impl Clone for Kept {
    ghost use Rattle.prodash_base.specs.plumbing.KeptTables.{IsCopy};

    ghost is_clone = { λ kept copy. IsCopy kept copy };

    fn clone(&self) -> Result<Kept, AllocError> {
        Ok(Kept {
            key: self.key,
            samples: self.samples.clone()?,
            latest: self.latest,
            settled: self.settled,
            settled_change: self.settled_change,
            before: self.before,
        })
    }
}

impl Kept {
    ghost use Rattle.std.specs.Prelude.{None, Some, IfSome, OnOk, OnErr, is_some};
    ghost use Rattle.prodash_base.specs.plumbing.Summaries.{first_summary, next_summary};
    ghost use Rattle.prodash_base.specs.plumbing.KeptTables.{summary_of, before_of};

    /// Returns what is kept after a first observation, a mark. It takes no memory.
    pub(crate) fn first(alloc: Global, key: Key, observation: Observation) -> Kept
        ensures key { result.key ≡ key }
        ensures summary { summary_of result ≡ first_summary observation }
        ensures before { before_of result ≡ None }
    {
        Kept {
            key,
            samples: VecDeque::new(alloc),
            latest: Totals {
                value: observation.value,
                older: 0,
                taken: 0,
                rate: None,
            },
            settled: 0,
            settled_change: 0,
            before: None,
        }
    }

    /// Returns the number of samples.
    pub(crate) fn samples(&self) -> usize
        ensures { result ≡ length self.now.samples.items }
    {
        self.samples.len()
    }

    /// Returns whether the key was observed by a kept frame.
    pub(crate) fn was_kept(&self) -> bool
        ensures { result ≡ is_some (before_of self.now) }
    {
        self.before.is_some()
    }

    /// Adds an observation. A mark forgets the samples of the frame. Returns an `AllocError` if out
    /// of memory, and then changes nothing that is kept.
    pub(crate) fn add(&mut self, observation: Observation) -> Result<(), AllocError>
        ensures key { self.new.key ≡ self.old.key }
        ensures ok { OnOk result
            (summary_of self.new ≡ next_summary (summary_of self.old) observation) }
        ensures err { OnErr result (summary_of self.new ≡ summary_of self.old) }
        ensures before { before_of self.new ≡ before_of self.old }
    {
        let sample = self.latest.sample(observation);
        if is_mark(self.latest.taken, sample.elapsed) {
            let rate = rate_over(sample, &self.samples);
            keep_earliest(&mut self.samples, self.settled);
            self.latest = Totals {
                value: observation.value,
                older: self.settled,
                taken: 0,
                rate: Some(rate),
            };
        } else {
            add_sample(&mut self.samples, self.latest.older, sample)?;
            self.latest = self.latest.after(observation);
        }
        Ok(())
    }

    /// Keeps the observations, and forgets the samples up to the last mark.
    pub(crate) fn keep(&mut self)
        ensures key { self.new.key ≡ self.old.key }
        ensures summary { summary_of self.new ≡ summary_of self.old }
        ensures before { before_of self.new ≡ Some (summary_of self.old) }
    {
        self.samples
            .truncate(self.samples.len() - self.latest.older);
        self.latest.older = 0;
        self.settled = self.samples.len();
        self.settled_change = latest_change(&self.samples);
        self.before = Some(self.latest);
    }

    /// Takes back the observations that haven't been kept, if some have.
    pub(crate) fn take_back(&mut self)
        ensures key { self.new.key ≡ self.old.key }
        ensures summary { IfSome (before_of self.old) (λ s. summary_of self.new ≡ s) }
        ensures before { before_of self.new ≡ before_of self.old }
    {
        if let Some(before) = self.before {
            keep_earliest(&mut self.samples, self.settled);
            set_change(&mut self.samples, self.settled_change);
            self.latest = before;
        }
    }
}

/// Keeps the `count` earliest samples, and drops the later ones.
fn keep_earliest(samples: &mut VecDeque<Sample>, count: usize)
    requires { count ≤ length samples.old.items }
    ensures { samples.new.items ≡ earliest count samples.old.items }
{
    let more = samples.len() - count;
    samples.drain(..more);
}

/// Adds a sample that is no mark to those after the last mark, which are all but the `older`
/// earliest. One that takes no time is added to the sample before it, if there is one. Returns an
/// `AllocError` if out of memory, and then changes nothing.
fn add_sample(
    samples: &mut VecDeque<Sample>,
    older: usize,
    sample: Sample,
) -> Result<(), AllocError>
    ensures ok { OnOk result (samples.new.items ≡ with_latest older sample samples.old.items) }
    ensures err { OnErr result (samples.new.items ≡ samples.old.items) }
{
    if sample.elapsed > 0 {
        samples.push_front(sample)?;
    } else if older < samples.len() {
        let change = latest_change(samples).saturating_add(sample.change);
        set_change(samples, change);
    }
    Ok(())
}

/// Returns the change of the latest sample, or 0 if there is none.
fn latest_change(samples: &VecDeque<Sample>) -> u128
    ensures { result ≡ latest_change samples.now.items }
{
    match samples.front() {
        Some(latest) => latest.change,
        None => 0,
    }
}

/// Sets the change of the latest sample, if there is one.
fn set_change(samples: &mut VecDeque<Sample>, change: u128)
    ensures { samples.new.items ≡ with_change change samples.old.items }
{
    if let Some(latest) = samples.front_mut() {
        latest.change = change;
    }
}
