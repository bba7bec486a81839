ghost use Rattle.std.specs.Prelude.{◌≡◌, ◌∷◌, ◌*◌, ◌/◌, ◌^◌, ◌+◌, ◌-◌, ◌<◌, ◌≤◌, nat_lt, min};
ghost use Rattle.prodash_base.specs.Samples.{duration, one_second, rate_over};

use crate::throughput::sample::Sample;
use std::collections::VecDeque;

/// The span of time over which a rate is measured, in nanoseconds.
pub(crate) const ONE_SECOND: u64 = 1_000_000_000;

/// Returns whether a sample after the first is a mark, if those between it and the previous mark
/// take `recent` nanoseconds.
pub(crate) fn is_mark(recent: u64, elapsed: u64) -> bool
    requires { recent ≤ one_second }
    ensures { result ≡ nat_lt one_second (elapsed + recent) }
{
    elapsed > ONE_SECOND - recent
}

/// Returns the rate over the fewest of the latest samples that take more than a second: `latest`,
/// and those before it, of which the latest is the first of the list.
pub(crate) fn rate_over(latest: Sample, samples: &VecDeque<Sample>) -> u64
    requires { one_second < duration (latest ∷ samples.now.items) }
    ensures { result ≡ rate_over (latest ∷ samples.now.items) }
{
    let mut nanoseconds = u128::from(latest.elapsed);
    let mut change = latest.change;
    let mut index = 0;
    while index < samples.len() && nanoseconds <= u128::from(ONE_SECOND) {
        nanoseconds += u128::from(samples[index].elapsed);
        change = change.saturating_add(samples[index].change);
        index += 1;
    }
    per_second(change, nanoseconds)
}

/// Returns the change in one second, rounded down, and at most `u64::MAX`. The quotient and the
/// remainder are scaled separately, so that nothing overflows.
fn per_second(change: u128, nanoseconds: u128) -> u64
    requires over { one_second < nanoseconds }
    requires span { nanoseconds < 2 ^ 65 }
    ensures { result ≡ min (change * one_second / nanoseconds) (2 ^ 64 - 1) }
{
    let second = u128::from(ONE_SECOND);
    let whole = change / nanoseconds * second;
    let part = change % nanoseconds * second / nanoseconds;
    (whole + part).min(u128::from(u64::MAX)) as u64
}
