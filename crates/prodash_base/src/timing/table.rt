//! A list of what is known of tasks, sorted by key.
ghost use Rattle.std.specs.Prelude.{◌≡◌, [], Some, OnOk, IfOk, IfErr, option_copied, option_map};
ghost use Rattle.std.specs.FinMap.{find, put};
ghost use Rattle.prodash_base.specs.Path.{path_cmp};
ghost use Rattle.prodash_base.specs.Rows.{rows_of, progress_of};
ghost use Rattle.prodash_base.specs.Timers.{HoldsMarks, next_timing, with_timings};
ghost use Rattle.prodash_base.specs.plumbing.TimedTables.{AreSorted, IsAt, IsNewAt, AddsRow, is_past_last};

use crate::progress::{Key, Row, Value};
use crate::timing::timed::Timed;
use std::alloc::{AllocError, Global};

/// Returns what is known of the tasks of some rows after a tick now, by what was known before.
pub(crate) fn with_timings(
    alloc: Global,
    before: &[Timed],
    now: u64,
    rows: &[Row],
) -> Result<Vec<Timed>, AllocError>
    requires sorted { AreSorted before.now }
    requires marks { HoldsMarks before.now }
    ensures sorted { IfOk result (λ timings. AreSorted timings.items) }
    ensures marks { IfOk result (λ timings. HoldsMarks timings.items) }
    ensures ok { IfOk result
        (λ timings. timings.items ≡ with_timings before.now now [] (rows_of rows.now)) }
{
    let mut timings = Vec::with_capacity(alloc, rows.len())?;
    let mut likely = 0;
    for row in rows {
        add_row(&mut timings, before, now, row, &mut likely)?;
    }
    Ok(timings)
}

/// Returns what is known of the task at a key, if anything is. It is looked for first at `likely`,
/// which is then the index after it.
pub(crate) fn find<'a>(timings: &'a [Timed], key: &Key, likely: &mut usize) -> Option<&'a Timed>
    requires { AreSorted timings.now }
    ensures { option_map (λ t. t.1) (option_copied result) ≡ find path_cmp key.now timings.now }
{
    match position(timings, key, *likely) {
        Ok(index) => {
            *likely = index.wrapping_add(1);
            Some(&timings[index])
        }
        Err(_) => None,
    }
}

/// Returns the index of a key, or else the one at which it belongs. It is looked for first at
/// `likely`, and then by binary search.
#[inline(always)]
fn position(timings: &[Timed], key: &Key, likely: usize) -> Result<usize, usize>
    requires { AreSorted timings.now }
    ensures found { IfOk result (λ index. IsAt timings.now key.now index) }
    ensures place { IfErr result (λ index. IsNewAt timings.now key.now index) }
{
    match timings.get(likely) {
        Some(timed) if timed.key == *key => Ok(likely),
        _ => search(timings, key),
    }
}

/// Returns the index of a key, or else the one at which it belongs, by binary search.
#[inline(never)]
fn search(timings: &[Timed], key: &Key) -> Result<usize, usize>
    requires { AreSorted timings.now }
    ensures found { IfOk result (λ index. IsAt timings.now key.now index) }
    ensures place { IfErr result (λ index. IsNewAt timings.now key.now index) }
{
    timings.binary_search_by_key(key, |timed| timed.key)
}

/// Adds what is known of the task of a row after a tick now, by what was known before, if the row
/// has progress. Returns an `AllocError` if out of memory.
fn add_row(
    timings: &mut Vec<Timed>,
    before: &[Timed],
    now: u64,
    row: &Row,
    likely: &mut usize,
) -> Result<(), AllocError>
    requires before { AreSorted before.now }
    requires timings { AreSorted timings.old.items }
    ensures sorted { OnOk result (AreSorted timings.new.items) }
    ensures ok { OnOk result (AddsRow before.now now row.now timings.old.items timings.new.items) }
{
    let Some(value) = &row.progress else {
        return Ok(());
    };
    match find(before, &row.key, likely) {
        Some(known) => put_next(timings, known, row.key, now, value),
        None => put(timings, Timed::first(row.key, now, value)),
    }
}

/// Puts what is known of a task after a tick that has seen its progress, by what was known of it,
/// at the place of its key. Returns an `AllocError` if out of memory.
fn put_next(
    timings: &mut Vec<Timed>,
    known: &Timed,
    key: Key,
    now: u64,
    value: &Value,
) -> Result<(), AllocError>
    requires { AreSorted timings.old.items }
    ensures sorted { OnOk result (AreSorted timings.new.items) }
    ensures ok { OnOk result (timings.new.items
        ≡ put path_cmp key (next_timing (Some known.now.1) now (progress_of value.now))
        timings.old.items) }
{
    if !is_past_last(timings, &key) {
        return put(timings, known.next(key, now, value));
    }
    // a task is large, so its copy is changed in its place
    let index = timings.len();
    timings.push(known.copy(key))?;
    timings[index].see(now, value);
    Ok(())
}

/// Puts what is known of a task at the place of its key, over what is known of it already. Returns
/// an `AllocError` if out of memory.
fn put(timings: &mut Vec<Timed>, timed: Timed) -> Result<(), AllocError>
    requires { AreSorted timings.old.items }
    ensures sorted { OnOk result (AreSorted timings.new.items) }
    ensures ok { OnOk result (timings.new.items ≡ put path_cmp timed.0 timed.1 timings.old.items) }
{
    match search(timings, &timed.key) {
        Ok(index) => timings[index] = timed,
        Err(index) => timings.insert(index, timed)?,
    }
    Ok(())
}

/// Returns whether a key is greater than that of the last task, if there is one.
fn is_past_last(timings: &[Timed], key: &Key) -> bool
    ensures { result ≡ is_past_last timings.now key.now }
{
    match timings.last() {
        None => true,
        Some(last) => last.key.cmp(key).is_lt(),
    }
}
