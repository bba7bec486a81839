//! Progress of any kind in this crate.
ghost use Rattle.std.specs.Prelude.{◌≡◌, None, List, ℕ};
ghost use Rattle.prodash_base.specs.Rows.{unknown_id};
ghost use Rattle.prodash.specs.Items.{new_place, next_path, with_child};
ghost use Rattle.prodash.specs.Logs.{child_log, joined, IsFirstPart, IsSecondPart};
ghost use Rattle.prodash.specs.Turns.{Finds, Changes, HasName, HasId, HasBound, HasUnit, Begins, SetsName, SetsBound, Sends, AddsBelow};
ghost use Rattle.prodash.specs.declared.progress.utils.any_progress.AnyProgress.TheVariants as any;
ghost use Rattle.prodash.specs.declared.tree.steps.Steps.{Steps};

use super::discard::Discard;
use crate::messages::MessageLevel;
use crate::progress::{Id, Log, Step, StepShared};
use crate::time::{Clock, Moment};
use crate::tree::Item;
use crate::tree::turns::TakesTurns;
use crate::unit::Unit;
use log::Log as Logger;
use prodash_base::Refusal;
use prodash_core::traits::{Count, NestedProgress, Progress};
use std::alloc::Global;
use std::sync::Wait;

/// Progress of any kind in this crate, for code that chooses the kind at run time. A child is of
/// the same kind as its parent.
///
/// ```rust
/// let mut any = if quiet { AnyProgress::Discard(Discard) } else { AnyProgress::Item(item) };
/// any.init(Some(10), None);
/// ```
#[derive(Drop)]
pub enum AnyProgress<R: Wait + Clone + Drop, L: Logger + Drop, K: Clock + Drop> {
    /// An item of a tree.
    Item(Item<R>),
    /// Progress that is logged.
    Log(Log<L, K>),
    /// Progress that is discarded.
    Discard(Discard),
}

impl<R: TakesTurns, L: Logger + Drop, K: Clock + Drop> Count for AnyProgress<R, L, K> {
    ghost shows = { elim [
      | any.Item _ ↦ (λ _. Unit {0})
      | any.Log _ ↦ (λ _. Unit {0})
      | any.Discard _ ↦ (λ step. step ≡ 0)
    ] };

    fn set(&self, step: Step) {
        match self {
            AnyProgress::Item(item) => Count::set(item, step),
            AnyProgress::Log(log) => Count::set(log, step),
            AnyProgress::Discard(none) => none.set(step),
        }
    }

    fn step(&self) -> Step {
        match self {
            AnyProgress::Item(item) => Count::step(item),
            AnyProgress::Log(log) => Count::step(log),
            AnyProgress::Discard(none) => none.step(),
        }
    }

    fn inc_by(&self, step: Step) {
        match self {
            AnyProgress::Item(item) => Count::inc_by(item, step),
            AnyProgress::Log(log) => Count::inc_by(log, step),
            AnyProgress::Discard(none) => none.inc_by(step),
        }
    }

    fn counter(&self, alloc: Global) -> Result<StepShared, Refusal> {
        match self {
            AnyProgress::Item(item) => Count::counter(item, alloc),
            AnyProgress::Log(log) => Count::counter(log, alloc),
            AnyProgress::Discard(none) => none.counter(alloc),
        }
    }
}

impl<R, L, K> Progress for AnyProgress<R, L, K>
where
    R: TakesTurns + Send + Sync,
    L: Logger + Drop + Send + Sync,
    K: Clock + Drop + Send + Sync,
{
    ghost begins = { elim [
      | any.Item item ↦ (λ max unit after. (after ≡ any.Item item)
          × Changes R.found R.left (Begins item.path max unit))
      | any.Log log ↦ (λ max unit after. after ≡ any.Log (record log { max = max; unit = unit }))
      | any.Discard none ↦ (λ max unit after. after ≡ any.Discard none)
    ] };

    ghost has_unit = { elim [
      | any.Item item ↦ (λ unit. Finds R.found (HasUnit item.path unit))
      | any.Log log ↦ (λ unit. unit ≡ log.unit)
      | any.Discard _ ↦ (λ unit. unit ≡ None)
    ] };

    ghost has_bound = { elim [
      | any.Item item ↦ (λ max. Finds R.found (HasBound item.path max))
      | any.Log log ↦ (λ max. max ≡ log.max)
      | any.Discard _ ↦ (λ max. max ≡ None)
    ] };

    ghost gets_bound = { elim [
      | any.Item item ↦ (λ max before after. (after ≡ any.Item item)
          × Changes R.found R.left (SetsBound item.path max before))
      | any.Log log ↦ (λ max before after.
          (before ≡ log.max) × (after ≡ any.Log (record log { max = max })))
      | any.Discard none ↦ (λ max before after. (before ≡ None) × (after ≡ any.Discard none))
    ] };

    ghost gets_name = { elim [
      | any.Item item ↦ (λ name after. (after ≡ any.Item item)
          × Changes R.found R.left (SetsName item.path name))
      | any.Log log ↦ (λ name after. (first : List ℕ) × IsFirstPart log.name first
          × (after ≡ any.Log (record log { name = joined first name })))
      | any.Discard none ↦ (λ name after. after ≡ any.Discard none)
    ] };

    ghost has_name = { elim [
      | any.Item item ↦ (λ name. Finds R.found (HasName item.path name))
      | any.Log log ↦ (λ name. IsSecondPart log.name name)
      | any.Discard _ ↦ (λ name. name ≡ None)
    ] };

    ghost has_id = { elim [
      | any.Item item ↦ (λ id. Finds R.found (HasId item.path id))
      | any.Log log ↦ (λ id. id ≡ log.id)
      | any.Discard _ ↦ (λ id. id ≡ unknown_id)
    ] };

    ghost was_sent = { elim [
      | any.Item item ↦ (λ at level text. Changes R.found R.left (Sends item.path at level text))
      | any.Log _ ↦ (λ _ _ _. Unit {0})
      | any.Discard _ ↦ (λ _ _ _. Unit {0})
    ] };

    fn init(&mut self, max: Option<Step>, unit: Option<Unit>) {
        match self {
            AnyProgress::Item(item) => Progress::init(item, max, unit),
            AnyProgress::Log(log) => Progress::init(log, max, unit),
            AnyProgress::Discard(none) => none.init(max, unit),
        }
    }

    fn unit(&self) -> Option<Unit> {
        match self {
            AnyProgress::Item(item) => Progress::unit(item),
            AnyProgress::Log(log) => Progress::unit(log),
            AnyProgress::Discard(none) => none.unit(),
        }
    }

    fn max(&self) -> Option<Step> {
        match self {
            AnyProgress::Item(item) => Progress::max(item),
            AnyProgress::Log(log) => Progress::max(log),
            AnyProgress::Discard(none) => none.max(),
        }
    }

    fn set_max(&mut self, max: Option<Step>) -> Option<Step> {
        match self {
            AnyProgress::Item(item) => Progress::set_max(item, max),
            AnyProgress::Log(log) => Progress::set_max(log, max),
            AnyProgress::Discard(none) => none.set_max(max),
        }
    }

    fn set_name(&mut self, alloc: Global, name: &str) -> Result<(), Refusal> {
        match self {
            AnyProgress::Item(item) => Progress::set_name(item, alloc, name),
            AnyProgress::Log(log) => Progress::set_name(log, alloc, name),
            AnyProgress::Discard(none) => none.set_name(alloc, name),
        }
    }

    fn name(&self, alloc: Global) -> Result<Option<String>, Refusal> {
        match self {
            AnyProgress::Item(item) => Progress::name(item, alloc),
            AnyProgress::Log(log) => Progress::name(log, alloc),
            AnyProgress::Discard(none) => none.name(alloc),
        }
    }

    fn id(&self) -> Id {
        match self {
            AnyProgress::Item(item) => Progress::id(item),
            AnyProgress::Log(log) => Progress::id(log),
            AnyProgress::Discard(none) => none.id(),
        }
    }

    fn message(
        &self,
        alloc: Global,
        at: Moment,
        level: MessageLevel,
        message: &str,
    ) -> Result<(), Refusal> {
        match self {
            AnyProgress::Item(item) => Progress::message(item, alloc, at, level, message),
            AnyProgress::Log(log) => Progress::message(log, alloc, at, level, message),
            AnyProgress::Discard(none) => none.message(alloc, at, level, message),
        }
    }

    fn show_throughput_with(
        &self,
        alloc: Global,
        start: Moment,
        now: Moment,
        step: Step,
        unit: Option<Unit>,
        level: MessageLevel,
    ) -> Result<(), Refusal> {
        match self {
            AnyProgress::Item(item) => {
                Progress::show_throughput_with(item, alloc, start, now, step, unit, level)
            }
            AnyProgress::Log(log) => {
                Progress::show_throughput_with(log, alloc, start, now, step, unit, level)
            }
            AnyProgress::Discard(none) => {
                none.show_throughput_with(alloc, start, now, step, unit, level)
            }
        }
    }
}

impl<R, L, K> NestedProgress for AnyProgress<R, L, K>
where
    R: TakesTurns + Send + Sync,
    L: Logger + Drop + Send + Sync,
    K: Clock + Drop + Send + Sync,
{
    type SubProgress = AnyProgress<R, L, K>;

    ghost gets_child = { elim [
      | any.Item item ↦ (λ name id after child.
          (after ≡ any.Item (with_child item)) × (child ≡ any.Item (new_place (next_path item)))
          × Changes R.found R.left (AddsBelow item name id))
      | any.Log log ↦ (λ name id after child.
          (after ≡ any.Log log)
          × (steps : Steps) × (child ≡ any.Log (child_log log name id steps)))
      | any.Discard none ↦ (λ name id after child.
          (after ≡ any.Discard none) × (child ≡ any.Discard none))
    ] };

    fn add_child(&mut self, alloc: Global, name: &str) -> Result<AnyProgress<R, L, K>, Refusal> {
        match self {
            AnyProgress::Item(item) => Ok(AnyProgress::Item(item.add_child(alloc, name)?)),
            AnyProgress::Log(log) => Ok(AnyProgress::Log(log.add_child(alloc, name)?)),
            AnyProgress::Discard(none) => Ok(AnyProgress::Discard(none.add_child(alloc, name)?)),
        }
    }

    fn add_child_with_id(
        &mut self,
        alloc: Global,
        name: &str,
        id: Id,
    ) -> Result<AnyProgress<R, L, K>, Refusal> {
        match self {
            AnyProgress::Item(item) => {
                Ok(AnyProgress::Item(item.add_child_with_id(alloc, name, id)?))
            }
            AnyProgress::Log(log) => Ok(AnyProgress::Log(log.add_child_with_id(alloc, name, id)?)),
            AnyProgress::Discard(none) => {
                Ok(AnyProgress::Discard(none.add_child_with_id(alloc, name, id)?))
            }
        }
    }
}
