//! The table that the tree had before its tasks were ordered: they are hashed, and sorted at each
//! snapshot.
use prodash_base::progress::{Id, Key, Row, Rows, State, Step, UNKNOWN, Value};
use prodash_base::unit::Unit;
use prodash_base::{Refusal, Text};
use prodash_core::tree::{Counted, Counters, Task};
use std::alloc::{AllocError, Global};
use std::collections::HashMap;

/// The table of tasks, by their keys. A number names the counter of a task.
#[derive(Drop)]
pub struct HashedTable {
    tasks: HashMap<Key, Task<u64>>,
}

impl HashedTable {
    /// Returns a table without tasks.
    pub fn new(alloc: Global) -> HashedTable {
        HashedTable {
            tasks: HashMap::new(alloc),
        }
    }

    /// Inserts a task without progress, which replaces the task that the key had, if any.
    pub fn insert(&mut self, alloc: Global, key: Key, name: &str, id: Id) -> Result<(), Refusal> {
        let name = Text::from_str(alloc, name)?;
        let progress = None;
        self.tasks.insert(key, Task { name, id, progress })?;
        Ok(())
    }

    /// Removes the task at a key, and returns whether there was one.
    pub fn remove(&mut self, key: Key) -> bool {
        self.tasks.remove(&key).is_some()
    }

    /// Sets the progress of the task at a key, and returns whether there is one.
    pub fn init(&mut self, key: Key, progress: Option<Counted<u64>>) -> bool {
        match self.tasks.get_mut(&key) {
            None => false,
            Some(task) => {
                task.progress = progress;
                true
            }
        }
    }

    /// Sets the name of the task at a key, if there is one.
    pub fn set_name(&mut self, alloc: Global, key: Key, name: &str) -> Result<(), Refusal> {
        let name = Text::from_str(alloc, name)?;
        if let Some(task) = self.tasks.get_mut(&key) {
            task.name = name;
        }
        Ok(())
    }

    /// Sets the step at which the task at a key is done, if it has progress, and returns the
    /// previous one.
    pub fn set_max(&mut self, key: Key, max: Option<Step>) -> Option<Step> {
        let counted = self.tasks.get_mut(&key)?.progress.as_mut()?;
        let before = counted.done_at;
        counted.done_at = max;
        before
    }

    /// Sets the state of the task at a key, if it has progress.
    pub fn set_state(&mut self, key: Key, state: State) {
        if let Some(task) = self.tasks.get_mut(&key) {
            if let Some(counted) = &mut task.progress {
                counted.state = state;
            }
        }
    }

    /// Returns the name of the task at a key, if there is one.
    pub fn name(&self, key: Key) -> Option<&str> {
        match self.tasks.get(&key) {
            None => None,
            Some(task) => Some(task.name.as_str()),
        }
    }

    /// Returns the identifier of the task at a key, or `UNKNOWN` if there is none.
    pub fn id(&self, key: Key) -> Id {
        match self.tasks.get(&key) {
            None => UNKNOWN,
            Some(task) => task.id,
        }
    }

    /// Returns the step at which the task at a key is done, or `None` if there is no task, no
    /// progress or no such step.
    pub fn max(&self, key: Key) -> Option<Step> {
        self.tasks.get(&key)?.progress.as_ref()?.done_at
    }

    /// Returns the unit of the task at a key, or `None` if there is no task, no progress or no
    /// unit.
    pub fn unit(&self, key: Key) -> Option<Unit> {
        self.tasks.get(&key)?.progress.as_ref()?.unit
    }

    /// Returns the number of tasks.
    pub fn len(&self) -> usize {
        self.tasks.len()
    }

    /// Returns the rows, in ascending order of their keys, with the step of each counter.
    pub fn rows<N: Counters<u64>>(&self, alloc: Global, counters: &N) -> Result<Rows, Refusal> {
        let mut rows = self.hashed_rows(alloc, counters)?;
        rows.sort_unstable_by_key(|row| row.key);
        Ok(Rows::new(rows))
    }

    /// Returns the rows of the tasks, in the order of the hashed map.
    fn hashed_rows<N: Counters<u64>>(
        &self,
        alloc: Global,
        counters: &N,
    ) -> Result<Vec<Row>, AllocError> {
        let mut rows = Vec::with_capacity(alloc, self.tasks.len())?;
        for (key, task) in self.tasks.iter() {
            rows.push(row_of_task(*key, task, counters)?)?;
        }
        Ok(rows)
    }
}

/// Returns the row of a task.
fn row_of_task<N: Counters<u64>>(
    key: Key,
    task: &Task<u64>,
    counters: &N,
) -> Result<Row, AllocError> {
    let progress = match &task.progress {
        None => None,
        Some(counted) => Some(Value {
            step: counters.number(counted.counter),
            done_at: counted.done_at,
            unit: counted.unit,
            state: counted.state,
        }),
    };
    Ok(Row {
        key,
        name: task.name.clone()?,
        id: task.id,
        progress,
    })
}
