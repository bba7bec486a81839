//! Progress that is discarded.
ghost use Rattle.std.specs.Prelude.{◌≡◌, None, Ok, false, is_err};
ghost use Rattle.prodash_base.specs.Rows.{unknown_id};

use crate::messages::MessageLevel;
use crate::progress::{AtomicStep, Id, Step, StepShared, UNKNOWN};
use crate::time::Moment;
use crate::unit::Unit;
use prodash_base::Refusal;
use prodash_core::traits::{Count, NestedProgress, Progress};
use std::alloc::Global;
use std::sync::Arc;

/// Progress that discards all calls. It is at step 0, and has no name, no unit and no bound.
#[derive(Drop)]
pub struct Discard;

impl Count for Discard {
    ghost shows = { λ _ step. step ≡ 0 };

    fn set(&self, _step: Step) {}

    fn step(&self) -> Step {
        0
    }

    fn inc_by(&self, _step: Step) {}

    /// Returns a new counter, at step 0.
    ///
    /// # Errors
    ///
    /// `Memory`, if there is no memory for it.
    fn counter(&self, alloc: Global) -> Result<StepShared, Refusal> {
        Ok(Arc::new(alloc, AtomicStep::new(0))?)
    }
}

impl Progress for Discard {
    ghost begins = { λ it _ _ after. after ≡ it };

    ghost has_unit = { λ _ unit. unit ≡ None };

    ghost has_bound = { λ _ max. max ≡ None };

    ghost gets_bound = { λ it _ before after. (before ≡ None) × (after ≡ it) };

    ghost gets_name = { λ it _ after. after ≡ it };

    ghost has_name = { λ _ name. name ≡ None };

    ghost has_id = { λ _ id. id ≡ unknown_id };

    fn init(&mut self, _max: Option<Step>, _unit: Option<Unit>) {}

    fn unit(&self) -> Option<Unit> {
        None
    }

    fn max(&self) -> Option<Step> {
        None
    }

    fn set_max(&mut self, _max: Option<Step>) -> Option<Step> {
        None
    }

    fn set_name(&mut self, _alloc: Global, _name: &str) -> Result<(), Refusal>
        ensures { is_err result ≡ false }
    {
        Ok(())
    }

    fn name(&self, _alloc: Global) -> Result<Option<String>, Refusal>
        ensures { result ≡ Ok None }
    {
        Ok(None)
    }

    fn id(&self) -> Id {
        UNKNOWN
    }

    fn message(
        &self,
        _alloc: Global,
        _at: Moment,
        _level: MessageLevel,
        _message: &str,
    ) -> Result<(), Refusal>
        ensures { is_err result ≡ false }
    {
        Ok(())
    }
}

impl NestedProgress for Discard {
    type SubProgress = Discard;

    ghost gets_child = { λ it _ _ after _. after ≡ it };

    fn add_child(&mut self, _alloc: Global, _name: &str) -> Result<Discard, Refusal>
        ensures { is_err result ≡ false }
    {
        Ok(Discard)
    }

    fn add_child_with_id(
        &mut self,
        _alloc: Global,
        _name: &str,
        _id: Id,
    ) -> Result<Discard, Refusal>
        ensures { is_err result ≡ false }
    {
        Ok(Discard)
    }
}
