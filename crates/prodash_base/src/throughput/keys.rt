//! What is kept of all keys: a list sorted by key, with binary search.
ghost use Rattle.std.specs.Prelude.{◌≡◌, ◌<◌, true, length, IfOk, IfErr, OnOk, OnErr};
ghost use Rattle.std.specs.FinMap as finite;
ghost use Rattle.std.specs.List.{AllZip, filter};
ghost use Rattle.prodash_base.specs.Rows.{rows_of};
ghost use Rattle.prodash_base.specs.Trackers.{is_listed};
ghost use Rattle.prodash_base.specs.Held.{recent_in};
ghost use Rattle.prodash_base.specs.plumbing.KeptTables.{summaries_of, stored, summary_with, summaries_with, kept_before, entries_before, AreSorted, IsKept, IsTakenBack, IsAt, IsNewAt, ChangesAt, IsRateAt, AddsAt, KeepsSummaryAt, NeverDescends};

use crate::progress::{Key, Row};
use crate::throughput::kept::Kept;
use crate::throughput::sample::Observation;
use std::alloc::{AllocError, Global};

/// Adds an observation of a key, which is looked for first at the index `next`. Returns the rate,
/// and sets `next` to the index after the key. Returns an `AllocError` if out of memory, and then
/// changes nothing that is kept.
pub(crate) fn add_observation(
    kept: &mut Vec<Kept>,
    next: &mut usize,
    alloc: Global,
    key: Key,
    observation: Observation,
) -> Result<Option<u64>, AllocError>
    requires { AreSorted kept.old.items }
    ensures sorted { AreSorted kept.new.items }
    ensures rate { IfOk result (λ rate. rate
        ≡ (summary_with kept.old.items key observation).rate) }
    ensures ok { OnOk result (summaries_of kept.new.items
        ≡ summaries_with kept.old.items key observation) }
    ensures err { OnErr result (summaries_of kept.new.items ≡ summaries_of kept.old.items) }
    ensures before { entries_before kept.new.items ≡ entries_before kept.old.items }
{
    match position(kept, &key, *next) {
        Ok(index) => {
            *next = index.wrapping_add(1);
            add_to_known(kept, index, observation)
        }
        Err(index) => {
            *next = index.wrapping_add(1);
            kept.insert(index, Kept::first(alloc, key, observation))?;
            Ok(None)
        }
    }
}

/// Returns the index of a key, or else the one at which it belongs. It is looked for first at
/// `likely`, and then by binary search.
fn position(kept: &[Kept], key: &Key, likely: usize) -> Result<usize, usize>
    requires { AreSorted kept.now }
    ensures found { IfOk result (λ index. IsAt kept.now key.now index) }
    ensures place { IfErr result (λ index. IsNewAt kept.now key.now index) }
{
    match kept.get(likely) {
        Some(known) if known.key == *key => Ok(likely),
        _ => kept.binary_search_by_key(key, |known| known.key),
    }
}

/// Adds an observation of the key at an index, and returns the rate. Returns an `AllocError` if out
/// of memory, and then changes nothing that is kept.
fn add_to_known(
    kept: &mut Vec<Kept>,
    index: usize,
    observation: Observation,
) -> Result<Option<u64>, AllocError>
    requires { index < length kept.old.items }
    ensures changed { ChangesAt index kept.old.items kept.new.items }
    ensures rate { IfOk result (IsRateAt index kept.old.items observation) }
    ensures ok { OnOk result (AddsAt index observation kept.old.items kept.new.items) }
    ensures err { OnErr result (KeepsSummaryAt index kept.old.items kept.new.items) }
{
    let known = &mut kept[index];
    known.add(observation)?;
    Ok(known.latest.rate)
}

/// Keeps the observations of all keys.
pub(crate) fn keep_all(kept: &mut [Kept])
    ensures { AllZip (λ old new. IsKept old new) kept.old kept.new }
{
    for known in kept.iter_mut() {
        known.keep();
    }
}

/// Takes back the observations that haven't been kept, and forgets the keys that have no others.
pub(crate) fn take_back_all(kept: &mut Vec<Kept>)
    ensures { AllZip (λ old new. IsTakenBack old new) (kept_before kept.old.items) kept.new.items }
{
    kept.retain(|known| known.was_kept());
    take_back_each(kept);
}

/// Takes back the observations of these keys that haven't been kept.
fn take_back_each(kept: &mut [Kept])
    ensures { AllZip (λ old new. IsTakenBack old new) kept.old kept.new }
{
    for known in kept.iter_mut() {
        known.take_back();
    }
}

/// Returns the number of samples that are in memory of a key.
pub(crate) fn kept_samples(kept: &[Kept], key: &Key) -> usize
    requires { AreSorted kept.now }
    ensures { result ≡ length (recent_in (finite.get (stored kept.now) key.now)) }
{
    match kept.binary_search_by_key(key, |known| known.key) {
        Ok(index) => kept[index].samples(),
        Err(_) => 0,
    }
}

/// Keeps the keys of the rows, and no others. If some key isn't found by `are_listed`, and the rows
/// ascend by key, binary search finds each key; else they are searched one by one.
pub(crate) fn retain_listed(kept: &mut Vec<Kept>, rows: &[Row])
    ensures { kept.new.items ≡ filter (λ k. is_listed (rows_of rows.now) k.key) kept.old.items }
{
    if are_listed(kept, rows) {
        return;
    }
    if rows.is_sorted_by_key(|row| row.key) {
        kept.retain(|known| is_found(rows, &known.key));
    } else {
        kept.retain(|known| is_listed(rows, &known.key));
    }
}

/// Returns true only if the rows have all these keys. It looks through the rows once, and finds all
/// if both ascend by key.
fn are_listed(kept: &[Kept], rows: &[Row]) -> bool
    ensures { result ≡ true
        → filter (λ k. is_listed (rows_of rows.now) k.key) kept.now ≡ kept.now }
{
    let mut found = 0;
    for row in rows {
        if found < kept.len() && kept[found].key == row.key {
            found += 1;
        }
    }
    found == kept.len()
}

/// Returns whether binary search finds the key in rows that ascend by key.
fn is_found(rows: &[Row], key: &Key) -> bool
    ensures { NeverDescends rows.now → result ≡ is_listed (rows_of rows.now) key.now }
{
    rows.binary_search_by_key(key, |row| row.key).is_ok()
}

/// Returns whether one of the rows has this key.
fn is_listed(rows: &[Row], key: &Key) -> bool
    ensures { result ≡ is_listed (rows_of rows.now) key.now }
{
    rows.iter().any(|row| *key == row.key)
}
