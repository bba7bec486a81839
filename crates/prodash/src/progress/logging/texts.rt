//! The lines of a log.
ghost use Rattle.std.specs.Prelude.{◌≡◌, ◌++◌, Some, None, IfOk, string_bytes, IsOkUnless};
ghost use Rattle.prodash.specs.Logs.{step_line, sign_of, message_text};

use crate::messages::MessageLevel;
use crate::progress::Step;
use crate::unit::Unit;
use prodash_base::Refusal;
use std::alloc::Global;

/// Returns the line of a step, such as `main::work → 3 / 10`.
pub(super) fn step_line(
    alloc: Global,
    name: &str,
    max: Option<Step>,
    unit: Option<Unit>,
    step: Step,
) -> Result<String, Refusal>
    ensures ok { IfOk result (λ line. string_bytes line ≡ step_line name.now max unit step) }
    ensures reason { IsOkUnless result Refusal.Memory }
{
    match (max, unit) {
        (max, Some(unit)) => step_line_in_unit(alloc, name, max, unit, step),
        (Some(max), None) => Ok(format!(in alloc; "{name} → {step} / {max}")?),
        (None, None) => Ok(format!(in alloc; "{name} → {step}")?),
    }
}

/// Returns the line of a step in a unit, such as `main::work → 3/10 items`.
fn step_line_in_unit(
    alloc: Global,
    name: &str,
    max: Option<Step>,
    unit: Unit,
    step: Step,
) -> Result<String, Refusal>
    ensures ok { IfOk result (λ line. string_bytes line
        ≡ step_line name.now max (Some unit) step) }
    ensures reason { IsOkUnless result Refusal.Memory }
{
    let mut value = String::new(alloc);
    unit.display(alloc, step, max, None).append_to(&mut value)?;
    Ok(format!(in alloc; "{name} → {value}")?)
}

/// Returns the line of a message, such as `✓main::work → done`.
pub(super) fn message_line(
    alloc: Global,
    name: &str,
    level: MessageLevel,
    message: &str,
) -> Result<String, Refusal>
    ensures ok { IfOk result (λ line. string_bytes line
        ≡ message_text name.now level message.now) }
    ensures reason { IsOkUnless result Refusal.Memory }
{
    let sign = sign_of(level);
    Ok(format!(in alloc; "{sign}{name} → {message}")?)
}

/// Returns the sign of a severity.
fn sign_of(level: MessageLevel) -> &'static str
    ensures { result.now ≡ sign_of level }
{
    match level {
        MessageLevel::Info => "ℹ",
        MessageLevel::Failure => "𐄂",
        MessageLevel::Success => "✓",
    }
}
