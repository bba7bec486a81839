//! One of two kinds of progress.
ghost use Rattle.prodash.specs.Wrappers.{OnEither, OnBoth};

use crate::messages::MessageLevel;
use crate::progress::{Id, Step, StepShared};
use crate::time::Moment;
use crate::unit::Unit;
use prodash_base::Refusal;
use prodash_core::traits::{Count, NestedProgress, Progress};
use std::alloc::Global;

/// Progress of one kind or of another. A child is of the same kind as its parent.
#[derive(Drop)]
pub enum Either<L, R> {
    /// Progress of the first kind.
    Left(L),
    /// Progress of the second kind.
    Right(R),
}

impl<L: Count, R: Count> Count for Either<L, R> {
    ghost was_set = { λ it step. OnEither (λ l. L.was_set l step) (λ r. R.was_set r step) it };

    ghost was_raised = { λ it step.
        OnEither (λ l. L.was_raised l step) (λ r. R.was_raised r step) it };

    ghost shows = { λ it step. OnEither (λ l. L.shows l step) (λ r. R.shows r step) it };

    ghost counts_in = { λ it counter.
        OnEither (λ l. L.counts_in l counter) (λ r. R.counts_in r counter) it };

    fn set(&self, step: Step) {
        match self {
            Either::Left(left) => left.set(step),
            Either::Right(right) => right.set(step),
        }
    }

    fn step(&self) -> Step {
        match self {
            Either::Left(left) => left.step(),
            Either::Right(right) => right.step(),
        }
    }

    fn inc_by(&self, step: Step) {
        match self {
            Either::Left(left) => left.inc_by(step),
            Either::Right(right) => right.inc_by(step),
        }
    }

    fn counter(&self, alloc: Global) -> Result<StepShared, Refusal> {
        match self {
            Either::Left(left) => left.counter(alloc),
            Either::Right(right) => right.counter(alloc),
        }
    }
}

impl<L: Progress, R: Progress> Progress for Either<L, R> {
    ghost begins = { λ it max unit after.
        OnBoth (λ l m. L.begins l max unit m) (λ r s. R.begins r max unit s) it after };

    ghost has_unit = { λ it unit.
        OnEither (λ l. L.has_unit l unit) (λ r. R.has_unit r unit) it };

    ghost has_bound = { λ it max.
        OnEither (λ l. L.has_bound l max) (λ r. R.has_bound r max) it };

    ghost gets_bound = { λ it max before after.
        OnBoth (λ l m. L.gets_bound l max before m) (λ r s. R.gets_bound r max before s) it after };

    ghost gets_name = { λ it name after.
        OnBoth (λ l m. L.gets_name l name m) (λ r s. R.gets_name r name s) it after };

    ghost has_name = { λ it name.
        OnEither (λ l. L.has_name l name) (λ r. R.has_name r name) it };

    ghost has_id = { λ it id. OnEither (λ l. L.has_id l id) (λ r. R.has_id r id) it };

    ghost was_sent = { λ it at level text.
        OnEither (λ l. L.was_sent l at level text) (λ r. R.was_sent r at level text) it };

    fn init(&mut self, max: Option<Step>, unit: Option<Unit>) {
        match self {
            Either::Left(left) => left.init(max, unit),
            Either::Right(right) => right.init(max, unit),
        }
    }

    fn unit(&self) -> Option<Unit> {
        match self {
            Either::Left(left) => left.unit(),
            Either::Right(right) => right.unit(),
        }
    }

    fn max(&self) -> Option<Step> {
        match self {
            Either::Left(left) => left.max(),
            Either::Right(right) => right.max(),
        }
    }

    fn set_max(&mut self, max: Option<Step>) -> Option<Step> {
        match self {
            Either::Left(left) => left.set_max(max),
            Either::Right(right) => right.set_max(max),
        }
    }

    fn set_name(&mut self, alloc: Global, name: &str) -> Result<(), Refusal> {
        match self {
            Either::Left(left) => left.set_name(alloc, name),
            Either::Right(right) => right.set_name(alloc, name),
        }
    }

    fn name(&self, alloc: Global) -> Result<Option<String>, Refusal> {
        match self {
            Either::Left(left) => left.name(alloc),
            Either::Right(right) => right.name(alloc),
        }
    }

    fn id(&self) -> Id {
        match self {
            Either::Left(left) => left.id(),
            Either::Right(right) => right.id(),
        }
    }

    fn message(
        &self,
        alloc: Global,
        at: Moment,
        level: MessageLevel,
        message: &str,
    ) -> Result<(), Refusal> {
        match self {
            Either::Left(left) => left.message(alloc, at, level, message),
            Either::Right(right) => right.message(alloc, at, level, message),
        }
    }
}

impl<L: NestedProgress, R: NestedProgress> NestedProgress for Either<L, R> {
    type SubProgress = Either<L::SubProgress, R::SubProgress>;

    ghost gets_child = { λ it name id after child. OnBoth
        (λ l m. OnEither (λ c. L.gets_child l name id m c) (λ _. ⊥) child)
        (λ r s. OnEither (λ _. ⊥) (λ c. R.gets_child r name id s c) child)
        it after };

    fn add_child(
        &mut self,
        alloc: Global,
        name: &str,
    ) -> Result<Either<L::SubProgress, R::SubProgress>, Refusal> {
        match self {
            Either::Left(left) => Ok(Either::Left(left.add_child(alloc, name)?)),
            Either::Right(right) => Ok(Either::Right(right.add_child(alloc, name)?)),
        }
    }

    fn add_child_with_id(
        &mut self,
        alloc: Global,
        name: &str,
        id: Id,
    ) -> Result<Either<L::SubProgress, R::SubProgress>, Refusal> {
        match self {
            Either::Left(left) => Ok(Either::Left(left.add_child_with_id(alloc, name, id)?)),
            Either::Right(right) => Ok(Either::Right(right.add_child_with_id(alloc, name, id)?)),
        }
    }
}
