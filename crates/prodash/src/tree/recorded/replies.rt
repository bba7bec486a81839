//! What the traits of progress return for replies.
ghost use Rattle.std.specs.Prelude.{◌≡◌, IfOk, IfErr, is_ok, option_map, string_bytes, IsOkUnless};
ghost use Rattle.prodash_base.specs.Refusals.{RefusesMessage};
ghost use Rattle.prodash.specs.Recorders.{step_in, bound_in, unit_in, id_in, name_in};

use crate::progress::{Id, Step, UNKNOWN};
use crate::unit::Unit;
use prodash_base::Refusal;
use prodash_core::tree::Reply;

/// Returns the step in a reply to `Step`, or 0 if the call was refused.
pub(crate) fn step_in(made: Result<Reply, Refusal>) -> Step
    ensures { result ≡ step_in made }
{
    match made {
        Ok(Reply::Step(step)) => step,
        _ => 0,
    }
}

/// Returns the bound in a reply to `Max` or `SetMax`, or `None` if the call was refused.
pub(crate) fn bound_in(made: Result<Reply, Refusal>) -> Option<Step>
    ensures { result ≡ bound_in made }
{
    match made {
        Ok(Reply::Bound(max)) => max,
        _ => None,
    }
}

/// Returns the unit in a reply to `Unit`, or `None` if the call was refused.
pub(crate) fn unit_in(made: Result<Reply, Refusal>) -> Option<Unit>
    ensures { result ≡ unit_in made }
{
    match made {
        Ok(Reply::Unit(unit)) => unit,
        _ => None,
    }
}

/// Returns the identifier in a reply to `Id`, or `UNKNOWN` if the call was refused.
pub(crate) fn id_in(made: Result<Reply, Refusal>) -> Id
    ensures { result ≡ id_in made }
{
    match made {
        Ok(Reply::Id(id)) => id,
        _ => UNKNOWN,
    }
}

/// Returns the name in a reply to `Name`.
pub(crate) fn name_in(made: Result<Reply, Refusal>) -> Result<Option<String>, Refusal>
    ensures ok { IfOk result (λ name. option_map (λ text. string_bytes text) name ≡ name_in made) }
    ensures reason { IsOkUnless result Refusal.Memory }
{
    match made {
        Ok(Reply::Name(Some(name))) => Ok(Some(name.into_string()?)),
        Ok(_) => Ok(None),
        Err(_) => Err(Refusal::Memory),
    }
}

/// Returns why a message was refused, if it was.
pub(crate) fn told_as(made: Result<Reply, Refusal>) -> Result<(), Refusal>
    ensures ok { is_ok result ≡ is_ok made }
    ensures reason { IfErr result RefusesMessage }
{
    match made {
        Ok(_) => Ok(()),
        Err(Refusal::TooManyMessages) => Err(Refusal::TooManyMessages),
        Err(_) => Err(Refusal::Memory),
    }
}
