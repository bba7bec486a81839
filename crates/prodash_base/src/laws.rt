//! What follows from the definitions that contracts cite, for all values.
//!
//! Each function states a law in its contract and does nothing. A proof has the law after a call.
ghost use Rattle.std.specs.Prelude.{◌≡◌, ℕ, List, [], ◌∷◌, ◌++◌, drop, fold};
ghost use Rattle.prodash_base.specs.Moments.{HasOneDate};
ghost use Rattle.prodash_base.specs.Rings.{new_ring, push, ring_of, keep_last, copied_since, copied_again};
ghost use Rattle.prodash_base.specs.Samples.{IsRatedOverShortest};
ghost use Rattle.prodash_base.specs.declared.messages.Message.{Message};
ghost use Rattle.prodash_base.specs.declared.throughput.sample.Sample.{Sample};

/// A ring keeps the last of all messages that were ever pushed, at most as many as its capacity,
/// and counts them all.
pub fn rings_keep_the_last()
    ensures next { (n : ℕ) (all : List Message) (m : Message)
        → push (ring_of n all) m ≡ ring_of n (all ++ m ∷ []) }
    ensures all { (n : ℕ) (all : List Message) → fold push (new_ring n) all ≡ ring_of n all }
{}

/// A copy whose state has seen the first `seen` pushes has the last of the later messages, at most
/// as many as the ring's capacity.
pub fn copies_have_what_is_new()
    ensures { (n seen : ℕ) (ms : List Message)
        → copied_since n ms seen ≡ keep_last n (drop seen ms) }
{}

/// A second copy, with the state of the first, has the last of the messages pushed between the two,
/// at most as many as the ring's capacity, and none that was pushed before the first.
pub fn no_message_is_copied_twice()
    ensures { (n : ℕ) (before after : List Message)
        → copied_again n before after ≡ keep_last n after }
{}

/// A rate is measured over the fewest of the latest samples that take more than a second.
pub fn rates_are_over_the_latest_second()
    ensures { (samples : List Sample) → IsRatedOverShortest samples }
{}

/// No two dates have the same day number.
pub fn days_have_one_date()
    ensures { (number : ℕ) → HasOneDate number }
{}
