ghost use Rattle.std.specs.Prelude.{◌≡◌, ℕ, ◌<◌, ◌≤◌, ◌-◌, ◌+◌, ◌↔◌, IsTrue, MatchOption, Some, length};
ghost use Rattle.prodash_base.specs.Adjacency as spec;
ghost use Rattle.prodash_base.specs.Adjacency.{AncestorsOnBothSidesAt, IsAscending, adjacency_at, paths_of};
ghost use Rattle.prodash_base.specs.plumbing.Branches.{path_at, at_row, HasLevel, IsSharedAbove, IsSharedBelow, StartsBranch, EndsBranch};

use crate::progress::Row;
use crate::progress::key::{Adjacency, Key, Level, SiblingLocation};

impl Key {
    /// Returns on which sides the row at `index` and its ancestors have siblings. The rows must be
    /// in strictly ascending order of their keys, as those of a snapshot are. Ancestors
    /// without a row have a level too.
    ///
    /// ```rust
    /// let rows = tree.rows(alloc)?;
    /// let adjacency = Key::adjacency(rows.as_slice(), index);
    /// assert_eq!(rt; adjacency[1], SiblingLocation::Above);
    /// ```
    pub fn adjacency(sorted: &[Row], index: usize) -> Adjacency
        requires sorted { IsAscending (paths_of sorted.now) }
        requires inside { index < length sorted.now }
        ensures value { adjacency_at (paths_of sorted.now) index ≡ Some result }
        ensures ancestors { AncestorsOnBothSidesAt (paths_of sorted.now) index result }
    {
        Adjacency(
            location(sorted, index, 1),
            location(sorted, index, 2),
            location(sorted, index, 3),
            location(sorted, index, 4),
            location(sorted, index, 5),
            location(sorted, index, 6),
        )
    }
}

/// Returns the location at a level from 1 on.
#[inline(always)]
fn location(sorted: &[Row], index: usize, level: Level) -> SiblingLocation
    requires sorted { IsAscending (paths_of sorted.now) }
    requires inside { index < length sorted.now }
    requires level { 0 < level }
    ensures { result ≡ at_row spec.location sorted.now index level }
{
    if sorted[index].key.level() < level {
        return SiblingLocation::NotFound;
    }
    known_location(sorted, index, level)
}

/// Returns the location at a level from 1 to that of the row.
fn known_location(sorted: &[Row], index: usize, level: Level) -> SiblingLocation
    requires sorted { IsAscending (paths_of sorted.now) }
    requires inside { index < length sorted.now }
    requires level { 0 < level }
    requires own { level ≤ length (path_at (paths_of sorted.now) index) }
    ensures { result ≡ at_row spec.location sorted.now index level }
{
    let own_level = sorted[index].key.level();
    let above = has_above(sorted, index, level);
    let below = has_below(sorted, index, level);
    match (above, below) {
        (true, true) => SiblingLocation::AboveAndBelow,
        (true, false) if level == own_level => SiblingLocation::Above,
        (false, true) if level == own_level => SiblingLocation::Below,
        _ => SiblingLocation::NotFound,
    }
}

/// Returns whether something is above at a level from 1 to that of the row: a sibling, the root,
/// or the row's parent.
fn has_above(sorted: &[Row], index: usize, level: Level) -> bool
    requires sorted { IsAscending (paths_of sorted.now) }
    requires inside { index < length sorted.now }
    requires level { 0 < level }
    ensures { result ≡ at_row spec.has_above sorted.now index level }
{
    level == 1
        || has_sibling_above(sorted, index, level)
        || (level == sorted[index].key.level() && has_parent(sorted, index, level))
}

/// Returns whether an earlier row is a sibling at a level from 1 on.
fn has_sibling_above(sorted: &[Row], index: usize, level: Level) -> bool
    requires sorted { IsAscending (paths_of sorted.now) }
    requires inside { index < length sorted.now }
    requires level { 0 < level }
    ensures { result ≡ at_row spec.has_sibling_before sorted.now index level }
{
    let Some(above) = shared_above(sorted, index, level - 1) else {
        return false;
    };
    if above.level() == level {
        return true;
    }
    let first = first_of_branch(sorted, &sorted[index].key, level - 1);
    has_level(sorted, first, index, level)
}

/// Returns whether the ancestor one level above a level from 1 to that of the row has a row.
fn has_parent(sorted: &[Row], index: usize, level: Level) -> bool
    requires sorted { IsAscending (paths_of sorted.now) }
    requires inside { index < length sorted.now }
    requires level { 0 < level }
    requires own { level ≤ length (path_at (paths_of sorted.now) index) }
    ensures { result ≡ at_row spec.has_parent sorted.now index level }
{
    let Some(above) = shared_above(sorted, index, level - 1) else {
        return false;
    };
    if above.level() == level - 1 {
        return true;
    }
    let first = first_of_branch(sorted, &sorted[index].key, level - 1);
    sorted[first].key.level() == level - 1
}

/// Returns whether a later row is a sibling at a level from 1 on.
fn has_below(sorted: &[Row], index: usize, level: Level) -> bool
    requires sorted { IsAscending (paths_of sorted.now) }
    requires inside { index < length sorted.now }
    requires level { 0 < level }
    ensures { result ≡ at_row spec.has_below sorted.now index level }
{
    let Some(below) = shared_below(sorted, index, level - 1) else {
        return false;
    };
    if below.level() == level {
        return true;
    }
    let end = end_of_branch(sorted, &sorted[index].key, level - 1);
    has_level(sorted, index + 1, end, level)
}

/// Returns the key of the row above one if both share their first `level` numbers. If they don't,
/// no row above shares them.
fn shared_above(sorted: &[Row], index: usize, level: Level) -> Option<&Key>
    requires sorted { IsAscending (paths_of sorted.now) }
    requires inside { index < length sorted.now }
    ensures { MatchOption result
        (StartsBranch (paths_of sorted.now) (path_at (paths_of sorted.now) index) level index)
        (λ key. IsSharedAbove (paths_of sorted.now) level index key.now) }
{
    if index == 0 {
        return None;
    }
    let above = &sorted[index - 1].key;
    if above.cmp_prefix(&sorted[index].key, level).is_lt() {
        return None;
    }
    Some(above)
}

/// Returns the key of the row below one if both share their first `level` numbers. If they don't,
/// no row below shares them.
fn shared_below(sorted: &[Row], index: usize, level: Level) -> Option<&Key>
    requires sorted { IsAscending (paths_of sorted.now) }
    requires inside { index < length sorted.now }
    ensures { MatchOption result
        (EndsBranch (paths_of sorted.now) (path_at (paths_of sorted.now) index) level (index + 1))
        (λ key. IsSharedBelow (paths_of sorted.now) level index key.now) }
{
    let next = index + 1;
    let count = sorted.len();
    if next == count {
        return None;
    }
    let below = &sorted[next].key;
    if level == 0 {
        return Some(below);
    }
    if below.cmp_prefix(&sorted[index].key, level).is_gt() {
        return None;
    }
    Some(below)
}

/// Returns whether a row from `start` up to `end` has `level` numbers. Of the rows that share
/// their first `level` numbers, it looks at the first only.
fn has_level(sorted: &[Row], start: usize, end: usize, level: Level) -> bool
    requires sorted { IsAscending (paths_of sorted.now) }
    requires inside { end ≤ length sorted.now }
    ensures { IsTrue result ↔ HasLevel (paths_of sorted.now) level start end }
{
    let mut next = start;
    while next < end {
        let key = &sorted[next].key;
        if key.level() == level {
            return true;
        }
        next = end_of_branch(sorted, key, level);
    }
    false
}

/// Returns the index of the first row whose first `level` numbers are those of the key or greater.
fn first_of_branch(sorted: &[Row], key: &Key, level: Level) -> usize
    requires sorted { IsAscending (paths_of sorted.now) }
    ensures bound { result ≤ length sorted.now }
    ensures start { StartsBranch (paths_of sorted.now) key.now level result }
{
    sorted.partition_point(|row| row.key.cmp_prefix(key, level).is_lt())
}

/// Returns the index of the first row whose first `level` numbers are greater than those of the
/// key. At level 0 no row is looked at, since all of them share no numbers.
fn end_of_branch(sorted: &[Row], key: &Key, level: Level) -> usize
    requires sorted { IsAscending (paths_of sorted.now) }
    ensures bound { result ≤ length sorted.now }
    ensures end { EndsBranch (paths_of sorted.now) key.now level result }
{
    if level == 0 {
        return sorted.len();
    }
    sorted.partition_point(|row| row.key.cmp_prefix(key, level).is_le())
}
