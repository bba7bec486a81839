ghost use Rattle.std.specs.Prelude.{◌↔◌, map, IsTrue, ◌≡◌, ◌≢◌, ◌≤◌, ℕ, length, vec_capacity, OnOk, OnErr, IfOk, IfSome, Ok, Some, None, List, nat_eq, is_some, IsOkUnless};
ghost use Rattle.std.specs.FinMap as finite;
ghost use Rattle.std.specs.List.{AllZip};
ghost use Rattle.std.specs.Option.{option_map};
ghost use Rattle.std.specs.BTreeMap.{IsOrdered, keys};
ghost use Rattle.prodash_base.specs.Adjacency.{paths_of};
ghost use Rattle.prodash_base.specs.Path.{Path, path_cmp};
ghost use Rattle.prodash_base.specs.Rows.{phase_of, row_of, rows_of};
ghost use Rattle.prodash_base.specs.Steps.{OfNoSteps, OfSteps};
ghost use Rattle.prodash_core.specs.plumbing.MissingNames.{missing_names, TakesName};
ghost use Rattle.prodash_core.specs.Tables.{new_entry, change_at, with_name, with_progress, with_bound, with_phase, name_at, id_of, bound_of, unit_of, counted_of, RowShows, RowsShow, ListsEachOnce, pair_of, entry_of, entry_in};
ghost use Rattle.prodash_core.specs.plumbing.TaskRows.{IsSameButStep, last_path, NoStepsShowTasks, StepShows, StepsShowTasks, ValueShows, RowShowsTask, RowsShowTasks};

use prodash_base::progress::{Id, Key, Row, Rows, State, Step, UNKNOWN, Value};
use prodash_base::unit::Unit;
use prodash_base::{Refusal, Text};
use std::alloc::{AllocError, Global};
use std::collections::{BTreeMap, VecDeque};
use std::marker::Model;

/// The progress of a task. A `C` names its counter.
#[derive(Clone, Copy, Debug)]
pub struct Counted<C> {
    /// The name of the counter of steps.
    pub counter: C,
    /// The step at which the task is done, if known.
    pub done_at: Option<Step>,
    /// The unit of the steps, if any.
    pub unit: Option<Unit>,
    /// The state of the task.
    pub state: State,
}

impl<C: Copy> Counted<C> {
    ghost use Rattle.prodash_core.specs.Tables.{new_progress};

    /// Returns the progress of a task that begins to run, or `None` if it has neither a bound nor a
    /// unit.
    pub fn begin(counter: C, max: Option<Step>, unit: Option<Unit>) -> Option<Counted<C>>
        ensures { option_map counted_of result ≡ new_progress counter max unit }
    {
        if max.is_none() && unit.is_none() {
            return None;
        }
        Some(Counted {
            counter,
            done_at: max,
            unit,
            state: State::Running,
        })
    }
}

/// A task of a table. A `C` names the counter of its progress.
#[derive(Drop)]
pub struct Task<C> {
    /// The name of the task.
    pub name: Text,
    /// The identifier of the task.
    pub id: Id,
    /// The progress of the task, if it has begun.
    pub progress: Option<Counted<C>>,
}

impl<C: Copy> Clone for Task<C> {
    ghost is_clone = { λ a b. entry_of b ≡ entry_of a };

    /// Returns a copy of the task, whose progress names the same counter.
    fn clone(&self) -> Result<Task<C>, AllocError> {
        Ok(Task {
            name: self.name.clone()?,
            id: self.id,
            progress: match &self.progress {
                None => None,
                Some(counted) => Some(Counted {
                    counter: counted.counter,
                    done_at: counted.done_at,
                    unit: counted.unit,
                    state: counted.state,
                }),
            },
        })
    }
}

impl<C: Copy> Task<C> {
    /// Returns the step at which the task is done, if it has progress and such a step.
    fn max(&self) -> Option<Step>
        ensures { result ≡ bound_of (Some (entry_of self.now)) }
    {
        match &self.progress {
            None => None,
            Some(counted) => counted.done_at,
        }
    }

    /// Returns the unit of the task's steps, if it has progress and a unit.
    fn unit(&self) -> Option<Unit>
        ensures { result ≡ unit_of (Some (entry_of self.now)) }
    {
        match &self.progress {
            None => None,
            Some(counted) => counted.unit,
        }
    }

    // What changes a task takes its box: a proof follows a write to a box that a map lends only if
    // the box is passed on.

    /// Sets the name of a task.
    fn set_name(task: &mut Box<Task<C>>, name: Text)
        ensures { entry_in task.new ≡ with_name name (entry_in task.old) }
    {
        task.name = name;
    }

    /// Sets the progress of a task.
    fn set_progress(task: &mut Box<Task<C>>, progress: Option<Counted<C>>)
        ensures { entry_in task.new
            ≡ with_progress (option_map counted_of progress) (entry_in task.old) }
    {
        task.progress = progress;
    }

    /// Sets the step at which a task is done, if it has progress, and returns the previous one.
    fn set_max(task: &mut Box<Task<C>>, max: Option<Step>) -> Option<Step>
        ensures before { result ≡ bound_of (Some (entry_in task.old)) }
        ensures after { entry_in task.new ≡ with_bound max (entry_in task.old) }
    {
        let before = task.max();
        if let Some(counted) = &mut task.progress {
            counted.done_at = max;
        }
        before
    }

    /// Sets the state of a task, if it has progress.
    fn set_state(task: &mut Box<Task<C>>, state: State)
        ensures { entry_in task.new ≡ with_phase (phase_of state) (entry_in task.old) }
    {
        if let Some(counted) = &mut task.progress {
            counted.state = state;
        }
    }
}

/// Reads counters of steps, each named by a `C`.
pub trait Counters<C> {
    /// The steps that a counter may show.
    ghost shows: { Self → C → ℕ → Type 0 };

    /// Returns the step of a counter.
    fn number(&self, counter: C) -> Step
        ensures { shows self.now counter result };
}

/// The table of tasks, by their keys. Contracts see a finite map from paths to entries.
///
/// ```rust
/// let mut table = TreeCore::new(alloc);
/// let key = Key::default().add_child(0);
/// table.insert(alloc, key, "task", UNKNOWN)?;
/// let progress = Counted { counter: 0, done_at: Some(10), unit: None, state: State::Running };
/// table.init(key, Some(progress));
/// let rows = table.rows(alloc, &counters)?;
/// ```
#[derive(Drop)]
pub struct TreeCore<C> {
    // Boxed, so that an insert or a removal moves little in the map.
    tasks: BTreeMap<Key, Box<Task<C>>>,
}

impl<C> Model for TreeCore<C> {
    ghost use Rattle.std.specs.Prelude.{map};
    ghost use Rattle.std.specs.FinMap as finite;
    ghost use Rattle.prodash_base.specs.Path.{path_cmp};
    ghost use Rattle.prodash_core.specs.Tables.{TaskEntry};
    ghost use Rattle.std.specs.Coded.{codes};

    ghost Value = { finite.FinMap path_cmp (TaskEntry C) };

    ghost coded = { Prim.hlevel (codes, finite.code, C.code) };

    ghost use Rattle.prodash_core.specs.Tables.{pair_of};

    ghost view = { λ t. finite.from_entries (map pair_of t.tasks.entries) };
}

impl<C> TreeCore<C> {
    /// Returns a table without tasks.
    pub fn new(alloc: Global) -> TreeCore<C>
        ensures { result ≡ finite.empty }
    {
        TreeCore {
            tasks: BTreeMap::new(alloc),
        }
    }
}

impl<C: Copy> Clone for TreeCore<C> {
    ghost is_clone = { λ a b. b ≡ a };

    /// Returns a table with copies of the tasks, whose progress names the same counters.
    fn clone(&self) -> Result<TreeCore<C>, AllocError> {
        let tasks = self.tasks.clone()?;
        Ok(TreeCore { tasks })
    }
}

impl<C: Copy> TreeCore<C> {
    /// Inserts a task without progress, which replaces the task that the key had, if any.
    ///
    /// # Errors
    ///
    /// `Memory`, if there is no memory for the task; then the table stays as it was.
    pub fn insert(&mut self, alloc: Global, key: Key, name: &str, id: Id) -> Result<(), Refusal>
        ensures ok { OnOk result
            (self.new ≡ finite.insert self.old key (new_entry name.now id)) }
        ensures err { OnErr result (self.new ≡ self.old) }
        ensures reason { IsOkUnless result Refusal.Memory }
    {
        let name = Text::from_str(alloc, name)?;
        let task = Task {
            name,
            id,
            progress: None,
        };
        let task = Box::new(alloc, task)?;
        self.tasks.insert(key, task)?;
        Ok(())
    }

    /// Removes the task at a key, and returns whether there was one.
    pub fn remove(&mut self, key: Key) -> bool
        ensures found { result ≡ is_some (finite.get self.old key) }
        ensures after { self.new ≡ finite.remove self.old key }
        ensures removed { finite.get self.new key ≡ None }

        // Every other path keeps its entry, also below the key.
        ensures others { (path : Path) → path ≢ key
            → finite.get self.new path ≡ finite.get self.old path }
    {
        self.tasks.remove(&key).is_some()
    }

    /// Sets the progress of the task at a key, and returns whether there is one.
    pub fn init(&mut self, key: Key, progress: Option<Counted<C>>) -> bool
        ensures found { result ≡ is_some (finite.get self.old key) }
        ensures after { self.new ≡ change_at self.old key
            (with_progress (option_map counted_of progress)) }
    {
        match self.tasks.get_mut(&key) {
            None => false,
            Some(task) => {
                Task::set_progress(task, progress);
                true
            }
        }
    }

    /// Sets the name of the task at a key, if there is one.
    ///
    /// # Errors
    ///
    /// `Memory`, if there is no memory for the name; then the table stays as it was.
    pub fn set_name(&mut self, alloc: Global, key: Key, name: &str) -> Result<(), Refusal>
        ensures ok { OnOk result (self.new ≡ change_at self.old key (with_name name.now)) }
        ensures err { OnErr result (self.new ≡ self.old) }
        ensures reason { IsOkUnless result Refusal.Memory }
    {
        let name = Text::from_str(alloc, name)?;
        if let Some(task) = self.tasks.get_mut(&key) {
            Task::set_name(task, name);
        }
        Ok(())
    }

    /// Sets the step at which the task at a key is done, if it has progress, and returns the
    /// previous one.
    pub fn set_max(&mut self, key: Key, max: Option<Step>) -> Option<Step>
        ensures before { result ≡ bound_of (finite.get self.old key) }
        ensures after { self.new ≡ change_at self.old key (with_bound max) }
    {
        match self.tasks.get_mut(&key) {
            None => None,
            Some(task) => Task::set_max(task, max),
        }
    }

    /// Sets the state of the task at a key, if it has progress.
    pub fn set_state(&mut self, key: Key, state: State)
        ensures { self.new ≡ change_at self.old key (with_phase (phase_of state)) }
    {
        if let Some(task) = self.tasks.get_mut(&key) {
            Task::set_state(task, state);
        }
    }

    /// Returns the name of the task at a key, if there is one.
    pub fn name(&self, key: Key) -> Option<&str>
        ensures { option_map (λ name. name.now) result ≡ name_at (finite.get self.now key) }
    {
        match self.tasks.get(&key) {
            None => None,
            Some(task) => Some(task.name.as_str()),
        }
    }

    /// Returns the identifier of the task at a key, or `UNKNOWN` if there is none.
    pub fn id(&self, key: Key) -> Id
        ensures { result ≡ id_of (finite.get self.now key) }
    {
        match self.tasks.get(&key) {
            None => UNKNOWN,
            Some(task) => task.id,
        }
    }

    /// Returns the step at which the task at a key is done, or `None` if there is no task, no
    /// progress or no such step.
    pub fn max(&self, key: Key) -> Option<Step>
        ensures { result ≡ bound_of (finite.get self.now key) }
    {
        match self.tasks.get(&key) {
            None => None,
            Some(task) => task.max(),
        }
    }

    /// Returns the unit of the task at a key, or `None` if there is no task, no progress or no
    /// unit.
    pub fn unit(&self, key: Key) -> Option<Unit>
        ensures { result ≡ unit_of (finite.get self.now key) }
    {
        match self.tasks.get(&key) {
            None => None,
            Some(task) => task.unit(),
        }
    }

    /// Returns the number of tasks.
    pub fn len(&self) -> usize
        ensures { result ≡ finite.len self.now }
    {
        self.tasks.len()
    }

    /// Returns whether there are no tasks.
    pub fn is_empty(&self) -> bool
        ensures { result ≡ nat_eq (finite.len self.now) 0 }
    {
        self.len() == 0
    }

    /// Returns the rows, in ascending order of their keys, with the step of each counter.
    ///
    /// # Errors
    ///
    /// `Memory`, if there is no memory for the rows.
    pub fn rows<N: Counters<C>>(&self, alloc: Global, counters: &N) -> Result<Rows, Refusal>
        ensures shows { IfOk result (λ rows. RowsShow (N.shows counters.now) self.now rows) }
        ensures each { IfOk result (λ rows. ListsEachOnce self.now rows) }
        ensures reason { IsOkUnless result Refusal.Memory }
    {
        self.rows_reusing(counters, Rows::new(Vec::new(alloc)))
    }

    /// Returns the rows as `rows` does, in the memory of `spare`, whose contents don't matter. A
    /// name is copied only if it differs from the one that `spare` has in its place.
    ///
    /// # Errors
    ///
    /// `Memory`, if there is no memory for the rows.
    pub fn rows_reusing<N: Counters<C>>(&self, counters: &N, spare: Rows) -> Result<Rows, Refusal>
        ensures shows { IfOk result (λ rows. RowsShow (N.shows counters.now) self.now rows) }
        ensures each { IfOk result (λ rows. ListsEachOnce self.now rows) }
        ensures reason { IsOkUnless result Refusal.Memory }
    {
        let rows = rows_of_tasks(&self.tasks, counters, spare.into_vec())?;
        Ok(Rows::new(rows))
    }

    /// Returns the steps of the rows that `rows` would return, if these are the same but for their
    /// steps. Returns `None` if they aren't. The memory of `spare` is reused, whatever it contains.
    ///
    /// # Errors
    ///
    /// `Memory`, if there is no memory for the steps.
    pub fn steps_over<N: Counters<C>>(
        &self,
        counters: &N,
        rows: &Rows,
        spare: Vec<Step>,
    ) -> Result<Option<Vec<Step>>, Refusal>
        ensures shows { IfOk result (OfSteps (RowsShow (N.shows counters.now) self.now) rows.now) }
        ensures each { IfOk result (OfSteps (ListsEachOnce self.now) rows.now) }

        // Without steps, there are none with which these rows show the table.
        ensures none { result ≡ Ok None
            → OfNoSteps (RowsShow (N.shows counters.now) self.now) rows.now }
        ensures reason { IsOkUnless result Refusal.Memory }
    {
        let steps = steps_of_tasks(&self.tasks, counters, rows.as_slice(), spare)?;
        Ok(steps)
    }

    /// Replaces the contents of `out` with the rows that `rows` returns. A name is copied only if it
    /// differs from the one that `out` has in its place.
    ///
    /// # Errors
    ///
    /// `Memory`, if there is no memory for the rows; then `out` stays as it was.
    pub fn refill<N: Counters<C>>(
        &self,
        alloc: Global,
        counters: &N,
        out: &mut Vec<Row>,
    ) -> Result<(), Refusal>
        ensures shows { OnOk result
            (RowsShow (N.shows counters.now) self.now (rows_of out.new.items)) }
        ensures each { OnOk result (ListsEachOnce self.now (rows_of out.new.items)) }
        ensures err { OnErr result (out.new.items ≡ out.old.items) }
        ensures reason { IsOkUnless result Refusal.Memory }
    {
        refill_rows(alloc, &self.tasks, counters, out)?;
        Ok(())
    }
}

/// Returns the value of a progress.
fn value_of<C: Copy, N: Counters<C>>(progress: &Option<Counted<C>>, counters: &N) -> Option<Value>
    ensures { ValueShows (N.shows counters.now) progress.now result }
{
    match progress {
        None => None,
        Some(counted) => Some(Value {
            step: counters.number(counted.counter),
            done_at: counted.done_at,
            unit: counted.unit,
            state: counted.state,
        }),
    }
}

/// Returns the row of a task.
fn row_of_task<C: Copy, N: Counters<C>>(
    key: Key,
    task: &Task<C>,
    counters: &N,
) -> Result<Row, AllocError>
    ensures { IfOk result (RowShowsTask (N.shows counters.now) key task.now) }
{
    Ok(Row {
        key,
        name: task.name.clone()?,
        id: task.id,
        progress: value_of(&task.progress, counters),
    })
}

/// Updates a value to that of a progress, in place.
fn update_value<C: Copy, N: Counters<C>>(value: &mut Value, counted: &Counted<C>, counters: &N)
    ensures { ValueShows (N.shows counters.now) (Some counted.now) (Some value.new) }
{
    value.step = counters.number(counted.counter);
    value.done_at = counted.done_at;
    value.unit = counted.unit;
    value.state = counted.state;
}

/// Updates a row to that of a task, apart from its name.
#[inline(always)]
fn update_below_name<C: Copy, N: Counters<C>>(
    row: &mut Row,
    key: &Key,
    task: &Task<C>,
    counters: &N,
)
    ensures { row.old.name ≡ task.now.name
        → RowShowsTask (N.shows counters.now) key.now task.now row.new }
{
    row.key = *key;
    row.id = task.id;
    if let Some(counted) = &task.progress {
        if let Some(value) = &mut row.progress {
            update_value(value, counted, counters);
            return;
        }
    }
    row.progress = value_of(&task.progress, counters);
}

/// The greatest number of bytes of a name in whose place in memory another one is copied. A longer
/// one would take that memory for as long as there is a row at its place.
const LONGEST_REPLACED: usize = 256;

/// Replaces a name with a copy of another, in the memory that it has if both are short.
fn replace_name(name: &mut Text, by: &Text) -> Result<(), AllocError>
    ensures { OnOk result (name.new ≡ by.now) }
{
    let longest = name.as_str().len().max(by.as_str().len());
    if longest <= LONGEST_REPLACED {
        name.replace_with(by)?;
    } else {
        *name = by.clone()?;
    }
    Ok(())
}

/// Updates a row to that of a task. The name is copied only if it differs.
fn update_row<C: Copy, N: Counters<C>>(
    row: &mut Row,
    key: &Key,
    task: &Task<C>,
    counters: &N,
) -> Result<(), AllocError>
    ensures { OnOk result (RowShowsTask (N.shows counters.now) key.now task.now row.new) }
{
    if row.name != task.name {
        replace_name(&mut row.name, &task.name)?;
    }
    update_below_name(row, key, task, counters);
    Ok(())
}

/// Returns the rows of the tasks, in the order of the map: `rows` with each row updated to that of
/// the task at its place, and rows added or removed at the end.
fn rows_of_tasks<C: Copy, N: Counters<C>>(
    tasks: &BTreeMap<Key, Box<Task<C>>>,
    counters: &N,
    mut rows: Vec<Row>,
) -> Result<Vec<Row>, AllocError>
    ensures rows { IfOk result (λ rows.
        RowsShowTasks (N.shows counters.now) tasks.now.entries rows.items) }
    ensures ordered { IsOrdered path_cmp tasks.now }
{
    rows.reserve(tasks.len().saturating_sub(rows.len()))?;
    let mut updated = 0;
    for (key, task) in tasks.iter() {
        let task = task.as_ref();
        if updated < rows.len() {
            update_row(&mut rows[updated], key, task, counters)?;
        } else {
            rows.push(row_of_task(*key, task, counters)?)?;
        }
        updated += 1;
    }
    rows.truncate(updated);
    Ok(rows)
}

/// Returns whether a value is that of a progress, apart from its step.
#[inline(always)]
fn is_same_but_step<C>(counted: &Counted<C>, value: &Value) -> bool
    ensures { IsTrue result ↔ IsSameButStep counted.now value.now }
{
    counted.done_at == value.done_at
        && counted.unit == value.unit
        && are_same_states(&counted.state, &value.state)
}

/// Whether two states are the same. Two running ones are told without a call.
#[inline(always)]
fn are_same_states(state: &State, other: &State) -> bool
    ensures { IsTrue result ↔ phase_of state.now ≡ phase_of other.now }
{
    match (state, other) {
        (State::Running, State::Running) => true,
        _ => state == other,
    }
}

/// Returns the step of a task, 0 without progress, if its row is this one but for the step.
#[inline(always)]
fn step_over<C: Copy, N: Counters<C>>(
    key: &Key,
    task: &Task<C>,
    counters: &N,
    row: &Row,
) -> Option<Step>
    ensures some { IfSome result (StepShows (N.shows counters.now) key.now task.now row.now) }
    ensures none { result ≡ None
        → (step : ℕ) → StepShows (N.shows counters.now) key.now task.now row.now step → ⊥ }
{
    if row.key != *key || row.id != task.id || row.name != task.name {
        return None;
    }
    match (&task.progress, &row.progress) {
        (None, None) => Some(0),
        (Some(counted), Some(value)) if is_same_but_step(counted, value) => {
            Some(counters.number(counted.counter))
        }
        _ => None,
    }
}

/// Returns whether the last row has the key of the last task, or there are neither rows nor tasks.
fn end_alike<C>(tasks: &BTreeMap<Key, Box<Task<C>>>, rows: &[Row]) -> bool
    ensures { IsTrue result ↔ last_path (keys tasks.now) ≡ last_path (paths_of rows.now) }
{
    match (tasks.last_key_value(), rows.last()) {
        (None, None) => true,
        (Some((key, _)), Some(row)) => row.key == *key,
        _ => false,
    }
}

/// Returns the steps of the tasks, in the order of the map, if their rows are these but for the
/// steps. The memory of `steps` is reused.
fn steps_of_tasks<C: Copy, N: Counters<C>>(
    tasks: &BTreeMap<Key, Box<Task<C>>>,
    counters: &N,
    rows: &[Row],
    mut steps: Vec<Step>,
) -> Result<Option<Vec<Step>>, AllocError>
    ensures some { IfOk result
        (StepsShowTasks (N.shows counters.now) tasks.now.entries rows.now) }
    ensures none { result ≡ Ok None
        → NoStepsShowTasks (N.shows counters.now) tasks.now.entries rows.now }
    ensures ordered { IsOrdered path_cmp tasks.now }
{
    // tasks mostly come at the end, and then the others needn't be compared
    if rows.len() != tasks.len() || !end_alike(tasks, rows) {
        return Ok(None);
    }
    steps.clear();
    steps.reserve(rows.len())?;
    for (key, task) in tasks.iter() {
        match step_over(key, task.as_ref(), counters, &rows[steps.len()]) {
            Some(step) => steps.push_reserved(step),
            None => return Ok(None),
        }
    }
    Ok(Some(steps))
}

/// Replaces rows with those of the tasks, in the order of the map. If out of memory, they stay as
/// they were.
fn refill_rows<C: Copy, N: Counters<C>>(
    alloc: Global,
    tasks: &BTreeMap<Key, Box<Task<C>>>,
    counters: &N,
    rows: &mut Vec<Row>,
) -> Result<(), AllocError>
    ensures rows { OnOk result
        (RowsShowTasks (N.shows counters.now) tasks.now.entries rows.new.items) }
    ensures ordered { OnOk result (IsOrdered path_cmp tasks.now) }
    ensures err { OnErr result (rows.new.items ≡ rows.old.items) }
{
    let names = missing_names(alloc, tasks, rows)?;
    rows.reserve(tasks.len().saturating_sub(rows.len()))?;
    put_rows(tasks, counters, names, rows);
    Ok(())
}

/// Returns copies of the names of tasks that the rows at their places lack, in the order of the map.
fn missing_names<C: Copy>(
    alloc: Global,
    tasks: &BTreeMap<Key, Box<Task<C>>>,
    rows: &[Row],
) -> Result<VecDeque<Text>, AllocError>
    ensures { IfOk result (λ names. names.items ≡ missing_names tasks.now.entries rows.now) }
{
    let mut names = VecDeque::new(alloc);
    let mut left = rows;
    for (_, task) in tasks.iter() {
        let task = task.as_ref();
        match left.split_first() {
            Some((row, rest)) => {
                if row.name != task.name {
                    names.push_back(task.name.clone()?)?;
                }
                left = rest;
            }
            None => names.push_back(task.name.clone()?)?,
        }
    }
    Ok(names)
}

/// Replaces rows with those of the tasks, in the order of the map, with the names that they lack.
fn put_rows<C: Copy, N: Counters<C>>(
    tasks: &BTreeMap<Key, Box<Task<C>>>,
    counters: &N,
    mut names: VecDeque<Text>,
    rows: &mut Vec<Row>,
)
    requires names { names.items ≡ missing_names tasks.now.entries rows.old.items }
    requires room { length tasks.now.entries ≤ vec_capacity rows.old }
    ensures rows { RowsShowTasks (N.shows counters.now) tasks.now.entries rows.new.items }
    ensures ordered { IsOrdered path_cmp tasks.now }
{
    let mut put = 0;
    for (key, task) in tasks.iter() {
        let task = task.as_ref();
        if put < rows.len() {
            let row = &mut rows[put];
            put_name(row, task, &mut names);
            update_below_name(row, key, task, counters);
        } else if let Some(name) = names.pop_front() {
            rows.push_reserved(Row {
                key: *key,
                name,
                id: task.id,
                progress: value_of(&task.progress, counters),
            });
        }
        put += 1;
    }
    rows.truncate(put);
}

/// Updates the name of a row to that of a task, with the first of the names if the row lacks it.
fn put_name<C>(row: &mut Row, task: &Task<C>, names: &mut VecDeque<Text>)
    ensures { TakesName row.old.name task.now.name names.old.items names.new.items row.new.name }
{
    if !names.is_empty() && row.name != task.name {
        if let Some(name) = names.pop_front() {
            row.name = name;
        }
    }
}
