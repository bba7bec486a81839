ghost use Rattle.std.specs.Prelude.{IfOk, IsOkUnless};

use prodash_base::Refusal;
use prodash_base::progress::{Step, StepShared};
use std::alloc::Global;

/// Counts steps. The ghost members say what calls mean, and hold for each call that returns. A
/// wrapper defines them by those of the value that it wraps. By default they say nothing.
pub trait Count {
    ghost use Rattle.std.specs.Prelude.{ℕ};
    ghost use Rattle.prodash_core.specs.Traits.{Counter};

    /// The counter was set to this step.
    ghost was_set: { Self → ℕ → Type 0 } = { λ _ _. Unit {0} };

    /// This many steps were added to the counter.
    ghost was_raised: { Self → ℕ → Type 0 } = { λ _ _. Unit {0} };

    /// The steps that a read may return.
    ghost shows: { Self → ℕ → Type 0 } = { λ _ _. Unit {0} };

    /// The counters that may be returned.
    ghost counts_in: { Self → Counter → Type 0 } = { λ _ _. Unit {0} };

    /// Sets the step.
    fn set(&self, step: Step)
        ensures { was_set self.now step };

    /// Returns the step.
    fn step(&self) -> Step
        ensures { shows self.now result };

    /// Adds `step` steps to the counter.
    fn inc_by(&self, step: Step)
        ensures { was_raised self.now step };

    /// Adds 1 to the step.
    fn inc(&self)
        ensures { was_raised self.now 1 }
    {
        self.inc_by(1);
    }

    /// Returns another owner of the counter.
    ///
    /// # Errors
    ///
    /// `Memory`, if there is no memory for it.
    fn counter(&self, alloc: Global) -> Result<StepShared, Refusal>
        ensures ok { IfOk result (λ counter. counts_in self.now counter) }
        ensures reason { IsOkUnless result Refusal.Memory };
}
