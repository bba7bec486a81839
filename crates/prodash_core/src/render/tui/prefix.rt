ghost use Rattle.std.specs.Prelude.{◌≡◌, ◌<◌, ◌≤◌, length, IfOk, OnOk, encode_utf8_all, string_bytes, IsOkUnless};
ghost use Rattle.prodash_base.specs.Appending.{IsPrefix};
ghost use Rattle.prodash_base.specs.plumbing.Pushing.{Pushes};
ghost use Rattle.prodash_base.specs.Path.{max_level};
ghost use Rattle.prodash_base.specs.Adjacency.{IsAscending, paths_of};
ghost use Rattle.prodash_core.specs.plumbing.BranchBytes.{branch_bytes};
ghost use Rattle.prodash_core.specs.Prefixes.{own_branch, ancestor_branch, prefix_of, AppendsPrefixAt, IsPrefixAt};

use prodash_base::Refusal;
use prodash_base::progress::key::{Adjacency, Level, SiblingLocation};
use prodash_base::progress::{Key, Row};
use std::alloc::{AllocError, Global};

/// Appends the prefix of the row at `index`, which draws the branches of the tree that lead to it:
/// a character for each of its levels, with spaces between them. The rows must be in strictly
/// ascending order of their keys, as those of a snapshot are. It takes no memory but that of the
/// string.
///
/// # Errors
///
/// `AllocError` if out of memory. A part of the prefix may have been appended then.
pub fn push_level_prefix(out: &mut String, sorted: &[Row], index: usize) -> Result<(), AllocError>
    requires sorted { IsAscending (paths_of sorted.now) }
    requires inside { index < length sorted.now }
    ensures ok { OnOk result (AppendsPrefixAt (paths_of sorted.now) index out.old out.new) }
    ensures kept { IsPrefix (string_bytes out.old) (string_bytes out.new) }
{
    let adjacency = Key::adjacency(sorted, index);
    let level = sorted[index].key.level();
    push_prefix(out, &adjacency, level)
}

/// Returns the prefix of the row at `index`, as `push_level_prefix` appends it.
///
/// # Errors
///
/// `Memory`, if there is no memory for the prefix.
pub fn level_prefix(alloc: Global, sorted: &[Row], index: usize) -> Result<String, Refusal>
    requires sorted { IsAscending (paths_of sorted.now) }
    requires inside { index < length sorted.now }
    ensures ok { IfOk result (λ s.
        IsPrefixAt (paths_of sorted.now) index (string_bytes s)) }
    ensures reason { IsOkUnless result Refusal.Memory }
{
    let mut prefix = String::new(alloc);
    push_level_prefix(&mut prefix, sorted, index)?;
    Ok(prefix)
}

/// Appends the prefix of a row of this level.
fn push_prefix(out: &mut String, adjacency: &Adjacency, level: Level) -> Result<(), AllocError>
    requires { level ≤ max_level }
    ensures { Pushes result out.old (encode_utf8_all (prefix_of adjacency.now level)) out.new }
{
    let is_orphan = adjacency.level() != level;
    let locations = [
        adjacency.0,
        adjacency.1,
        adjacency.2,
        adjacency.3,
        adjacency.4,
        adjacency.5,
    ];
    push_branches(out, is_orphan, &locations[..level as usize])
}

/// Appends the characters of all levels from the first on, the last of which is the row's own.
fn push_branches(
    text: &mut String,
    is_orphan: bool,
    locations: &[SiblingLocation],
) -> Result<(), AllocError>
    ensures { Pushes result text.old (branch_bytes is_orphan locations.now) text.new }
{
    let mut is_first = true;
    let mut left = locations;
    while let Some((location, rest)) = left.split_first() {
        if rest.is_empty() {
            text.push(own_branch(is_first, is_orphan, *location))?;
        } else {
            text.push(ancestor_branch(is_first, is_orphan, *location))?;
            text.push(' ')?;
        }
        is_first = false;
        left = rest;
    }
    Ok(())
}

/// Returns the character of the row's own level.
fn own_branch(is_first: bool, is_orphan: bool, location: SiblingLocation) -> char
    ensures { result ≡ own_branch is_first is_orphan location }
{
    match location {
        SiblingLocation::AboveAndBelow => '├',
        SiblingLocation::Above if is_first => '├',
        SiblingLocation::Above => '└',
        SiblingLocation::Below | SiblingLocation::NotFound if is_first => '│',
        SiblingLocation::Below => '┌',
        SiblingLocation::NotFound if is_orphan => ' ',
        SiblingLocation::NotFound => '·',
    }
}

/// Returns the character of an ancestor's level.
fn ancestor_branch(is_first: bool, is_orphan: bool, location: SiblingLocation) -> char
    ensures { result ≡ ancestor_branch is_first is_orphan location }
{
    match location {
        SiblingLocation::AboveAndBelow => '│',
        SiblingLocation::Above => '└',
        SiblingLocation::Below => '┌',
        SiblingLocation::NotFound if is_first => '│',
        SiblingLocation::NotFound if is_orphan => '·',
        SiblingLocation::NotFound => ' ',
    }
}
