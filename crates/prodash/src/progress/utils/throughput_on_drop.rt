//! Progress that reports its throughput.
ghost use Rattle.std.specs.Prelude.{◌≡◌};

use crate::messages::MessageLevel;
use crate::progress::{Id, Step, StepShared};
use crate::time::{Clock, Moment};
use crate::unit::Unit;
use prodash_base::Refusal;
use prodash_core::traits::{Count, NestedProgress, Progress};
use std::alloc::Global;
use std::sync::Arc;

/// Progress that sends a message about its throughput when it is dropped, such as
/// `done 10 items in 2.50s (4 items/s)`. The time is measured from its creation. If the message is
/// refused, it is skipped.
///
/// ```rust
/// let mut timed = ThroughputOnDrop::new(alloc, item, clock);
/// timed.inc_by(10);
/// drop(timed);
/// ```
pub struct ThroughputOnDrop<T: Progress + Drop, K: Clock + Drop> {
    alloc: Global,
    inner: T,
    clock: Arc<K>,
    start: Moment,
}

impl<T: Progress + Drop, K: Clock + Drop> ThroughputOnDrop<T, K> {
    /// Returns progress that forwards its calls to `inner`. Its time is measured from the current
    /// moment of `clock`, and its message is allocated with `alloc`.
    pub fn new(alloc: Global, inner: T, clock: Arc<K>) -> ThroughputOnDrop<T, K>
        ensures { result.inner ≡ inner }
    {
        let start = clock.now();
        ThroughputOnDrop {
            alloc,
            inner,
            clock,
            start,
        }
    }
}

impl<T: Progress + Drop, K: Clock + Drop> Drop for ThroughputOnDrop<T, K> {
    /// Sends the message.
    fn drop(self) {
        let now = self.clock.now();
        let _ = self.inner.show_throughput(self.alloc, self.start, now);
        let ThroughputOnDrop {
            alloc: _,
            inner: _,
            clock: _,
            start: _,
        } = self;
    }
}

impl<T: Progress + Drop, K: Clock + Drop> Count for ThroughputOnDrop<T, K> {
    ghost was_set = { λ it step. T.was_set it.inner step };

    ghost was_raised = { λ it step. T.was_raised it.inner step };

    ghost shows = { λ it step. T.shows it.inner step };

    ghost counts_in = { λ it counter. T.counts_in it.inner counter };

    fn set(&self, step: Step) {
        self.inner.set(step)
    }

    fn step(&self) -> Step {
        self.inner.step()
    }

    fn inc_by(&self, step: Step) {
        self.inner.inc_by(step)
    }

    fn counter(&self, alloc: Global) -> Result<StepShared, Refusal> {
        self.inner.counter(alloc)
    }
}

impl<T: Progress + Drop, K: Clock + Drop + Send + Sync> Progress for ThroughputOnDrop<T, K> {
    ghost begins = { λ it max unit after. T.begins it.inner max unit after.inner };

    ghost has_unit = { λ it unit. T.has_unit it.inner unit };

    ghost has_bound = { λ it max. T.has_bound it.inner max };

    ghost gets_bound = { λ it max before after. T.gets_bound it.inner max before after.inner };

    ghost gets_name = { λ it name after. T.gets_name it.inner name after.inner };

    ghost has_name = { λ it name. T.has_name it.inner name };

    ghost has_id = { λ it id. T.has_id it.inner id };

    ghost was_sent = { λ it at level text. T.was_sent it.inner at level text };

    fn init(&mut self, max: Option<Step>, unit: Option<Unit>) {
        self.inner.init(max, unit)
    }

    fn unit(&self) -> Option<Unit> {
        self.inner.unit()
    }

    fn max(&self) -> Option<Step> {
        self.inner.max()
    }

    fn set_max(&mut self, max: Option<Step>) -> Option<Step> {
        self.inner.set_max(max)
    }

    fn set_name(&mut self, alloc: Global, name: &str) -> Result<(), Refusal> {
        self.inner.set_name(alloc, name)
    }

    fn name(&self, alloc: Global) -> Result<Option<String>, Refusal> {
        self.inner.name(alloc)
    }

    fn id(&self) -> Id {
        self.inner.id()
    }

    fn message(
        &self,
        alloc: Global,
        at: Moment,
        level: MessageLevel,
        message: &str,
    ) -> Result<(), Refusal> {
        self.inner.message(alloc, at, level, message)
    }
}

impl<T: NestedProgress + Drop, K: Clock + Drop + Send + Sync> NestedProgress
    for ThroughputOnDrop<T, K>
where
    T::SubProgress: Progress + Drop,
{
    type SubProgress = ThroughputOnDrop<T::SubProgress, K>;

    ghost gets_child = { λ it name id after child.
        T.gets_child it.inner name id after.inner child.inner };

    fn add_child(
        &mut self,
        alloc: Global,
        name: &str,
    ) -> Result<ThroughputOnDrop<T::SubProgress, K>, Refusal> {
        let clock = Arc::try_clone(&self.clock)?;
        let inner = self.inner.add_child(alloc, name)?;
        let start = clock.now();
        Ok(ThroughputOnDrop {
            alloc,
            inner,
            clock,
            start,
        })
    }

    fn add_child_with_id(
        &mut self,
        alloc: Global,
        name: &str,
        id: Id,
    ) -> Result<ThroughputOnDrop<T::SubProgress, K>, Refusal> {
        let clock = Arc::try_clone(&self.clock)?;
        let inner = self.inner.add_child_with_id(alloc, name, id)?;
        let start = clock.now();
        Ok(ThroughputOnDrop {
            alloc,
            inner,
            clock,
            start,
        })
    }
}
