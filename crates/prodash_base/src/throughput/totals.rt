//! The totals that a tracker keeps of the samples of a key.
ghost use Rattle.std.specs.Prelude.{◌≡◌, ◌+◌, ◌≤◌};
ghost use Rattle.prodash_base.specs.Samples.{one_second};
ghost use Rattle.prodash_base.specs.plumbing.KeptSamples.{sample_after, totals_after};

use crate::progress::Step;
use crate::throughput::sample::{Observation, Sample};

/// What the samples of a key add up to at one moment.
#[derive(Clone, Copy, Debug)]
pub(crate) struct Totals {
    /// The latest value.
    pub(crate) value: Step,
    /// The number of samples up to the last mark. They are kept while they can be taken back.
    pub(crate) older: usize,
    /// The nanoseconds that the samples after it take together.
    pub(crate) taken: u64,
    /// The rate at the last mark.
    pub(crate) rate: Option<u64>,
}

impl Totals {
    /// Returns the sample of one more observation.
    pub(crate) fn sample(self, observation: Observation) -> Sample
        ensures { result ≡ sample_after self observation }
    {
        Sample {
            elapsed: observation.elapsed,
            change: u128::from(observation.value.saturating_sub(self.value)),
        }
    }

    /// Returns the totals after one more observation that is no mark.
    pub(crate) fn after(self, observation: Observation) -> Totals
        requires { observation.elapsed + self.taken ≤ one_second }
        ensures { result ≡ totals_after self observation }
    {
        Totals {
            value: observation.value,
            taken: observation.elapsed + self.taken,
            ..self
        }
    }
}
