//! Names that are joined by `::`.
ghost use Rattle.std.specs.Prelude.{◌≡◌, IfOk, option_map, IsOkUnless};
ghost use Rattle.prodash.specs.Logs.{joined, IsFirstPart, IsSecondPart};

use prodash_base::{Refusal, Text};
use std::alloc::Global;

const SEPARATOR: &str = "::";

/// Joins a name with the name below it.
pub(super) fn joined(alloc: Global, name: &str, below: &str) -> Result<Text, Refusal>
    ensures ok { IfOk result (λ text. text ≡ joined name.now below.now) }
    ensures reason { IsOkUnless result Refusal.Memory }
{
    Ok(Text::new(format!(in alloc; "{name}::{below}")?))
}

/// Returns the first part of a joined name.
pub(super) fn first_part(name: &str) -> &str
    ensures { IsFirstPart name.now result.now }
{
    match name.split_once(SEPARATOR) {
        None => name,
        Some((first, _)) => first,
    }
}

/// Returns the second part of a joined name, if it has one.
pub(super) fn second_part(name: &str) -> Option<&str>
    ensures { IsSecondPart name.now (option_map (λ second. second.now) result) }
{
    let (_, rest) = name.split_once(SEPARATOR)?;
    Some(first_part(rest))
}
