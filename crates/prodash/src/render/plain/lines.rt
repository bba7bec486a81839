//! What is said of tasks.
ghost use Rattle.std.specs.Prelude.{◌≡◌, ◌++◌, IfOk, chars, true, string_bytes, option_copied, IsOkUnless, option_map};
ghost use Rattle.std.specs.Str.{encode_utf8_all};
ghost use Rattle.prodash_base.specs.Rows.{progress_of};
ghost use Rattle.prodash_line.specs.DrawnLines.{drawn_chars};
ghost use Rattle.prodash_base.specs.Times.{is_past, left_text};
ghost use Rattle.prodash.specs.PlainLines.{reached_of, is_done, is_same, was_said, percentage_text, progress_text, remaining_of, changed_text, last_progress, outcome_text, bound_of, step_of, has_finished, ended_text, said_again, said_of, told_after, said_at_end, has_come_out, values_of, outcome_of, Says};
ghost use Rattle.prodash.specs.plumbing.SaidTexts.{progress_in, GivesText, IsOutcome};

use crate::progress::{Step, Value};
use crate::render::line::draw::safe_char;
use crate::render::plain::Outcome;
use crate::render::plain::told::{Reached, Told};
use crate::time::Moment;
use crate::unit::display;
use prodash_base::times::{duration_text, finished_at, is_past, remaining_seconds, seconds_text};
use prodash_base::{Refusal, Text};
use std::alloc::{AllocError, Global};

impl Reached {
    /// Returns how far a progress is.
    fn of(value: &Value) -> Reached
        ensures { result ≡ reached_of (progress_of value.now) }
    {
        Reached {
            step: value.step,
            done_at: value.done_at,
        }
    }

    /// Returns whether the step is at the bound or past it.
    fn is_done(self) -> bool
        ensures { result ≡ is_past self.step self.done_at }
    {
        is_past(self.step, self.done_at)
    }

    /// Returns whether the steps and the bounds are equal.
    fn is_same(self, other: Reached) -> bool
        ensures { result ≡ is_same self other }
    {
        self.step == other.step && self.done_at == other.done_at
    }
}

/// Returns whether a task has reached its bound.
fn is_done(reached: Option<Reached>) -> bool
    ensures { result ≡ is_done reached }
{
    match reached {
        None => false,
        Some(reached) => reached.is_done(),
    }
}

/// Returns how far a progress is, if there is one.
fn reached(progress: &Option<Value>) -> Option<Reached>
    ensures { result ≡ option_map reached_of (progress_in progress.now) }
{
    match progress {
        None => None,
        Some(value) => Some(Reached::of(value)),
    }
}

/// Returns the step with its bound and its unit, as `3/4 files`.
fn values_text(alloc: Global, value: &Value) -> Result<String, Refusal>
    ensures ok { GivesText result (values_of (Some (progress_of value.now))) }
    ensures reason { IsOkUnless result Refusal.Memory }
{
    let step = value.step;
    match (value.unit, value.done_at) {
        (Some(unit), bound) => {
            let mut text = String::new(alloc);
            display::append(&mut text, unit.as_display_value(), None, step, bound, None)?;
            Ok(text)
        }
        (None, Some(bound)) => Ok(format!(in alloc; "{step}/{bound}")?),
        (None, None) => Ok(format!(in alloc; "{step}")?),
    }
}

/// Returns a space and how many hundredths of the bound the step is, rounded down, as ` 75%`.
/// Nothing without a bound above 0.
fn percentage_text(alloc: Global, step: Step, bound: Option<Step>) -> Result<String, AllocError>
    ensures { IfOk result (λ text. string_bytes text ≡ percentage_text step bound) }
{
    match bound {
        None | Some(0) => Ok(String::new(alloc)),
        Some(bound) => {
            let percentage = 100 * u128::from(step) / u128::from(bound);
            let percentage = percentage.min(u128::from(u64::MAX)) as u64;
            format!(in alloc; " {percentage}%")
        }
    }
}

/// Returns how far a progress is, as ` 3/4 75%`.
fn progress_text(alloc: Global, value: &Value) -> Result<String, Refusal>
    ensures ok { GivesText result (progress_text (progress_of value.now)) }
    ensures reason { IsOkUnless result Refusal.Memory }
{
    let values = values_text(alloc, value)?;
    let percentage = percentage_text(alloc, value.step, value.done_at)?;
    Ok(format!(in alloc; " {values}{percentage}")?)
}

/// Returns how long the rest takes, as `, 12s left`, or nothing if that isn't known.
fn left_text(alloc: Global, remaining: Option<u64>) -> Result<String, AllocError>
    ensures { IfOk result (λ text. string_bytes text ≡ left_text remaining) }
{
    match remaining {
        None => Ok(String::new(alloc)),
        Some(seconds) => {
            let time = seconds_text(alloc, seconds)?;
            format!(in alloc; ", {time} left")
        }
    }
}

/// Returns the seconds that the rest of a progress takes, by what was done since the task was first
/// seen.
fn remaining_of(told: &Told, now: Moment, step: Step, bound: Option<Step>) -> Option<u64>
    ensures { result ≡ remaining_of told.now now step bound }
{
    match bound {
        None => None,
        Some(bound) => remaining_seconds(
            bound.saturating_sub(step),
            step.saturating_sub(told.first),
            now.saturating_sub(told.since),
        ),
    }
}

/// Returns what is said of a task that has gone on, as ` 3/4 75%, 12s left`.
fn changed_text(alloc: Global, told: &Told, now: Moment, value: &Value) -> Result<String, Refusal>
    ensures ok { GivesText result (changed_text told.now now (progress_of value.now)) }
    ensures reason { IsOkUnless result Refusal.Memory }
{
    let progress = progress_text(alloc, value)?;
    let remaining = remaining_of(told, now, value.step, value.done_at);
    let left = left_text(alloc, remaining)?;
    Ok(format!(in alloc; "{progress}{left}")?)
}

/// Returns the progress before an end, as ` 3/4 75%,`.
fn last_progress(alloc: Global, progress: &Option<Value>) -> Result<String, Refusal>
    ensures ok { GivesText result (last_progress (progress_in progress.now)) }
    ensures reason { IsOkUnless result Refusal.Memory }
{
    match progress {
        None => Ok(String::new(alloc)),
        Some(value) => {
            let text = progress_text(alloc, value)?;
            Ok(format!(in alloc; "{text},")?)
        }
    }
}

/// Returns what has become of a task.
fn outcome_text(is_done: bool, bound: Option<Step>) -> &'static str
    ensures { result.now ≡ outcome_text is_done bound }
{
    match (is_done, bound) {
        (true, _) => " done in ",
        (false, None) => " ended after ",
        (false, Some(_)) => " stopped after ",
    }
}

/// Returns the bound of a progress, if there is one.
fn bound_of(progress: &Option<Value>) -> Option<Step>
    ensures { result ≡ bound_of (progress_in progress.now) }
{
    match progress {
        None => None,
        Some(value) => value.done_at,
    }
}

/// Returns the step of a progress, or 0 without progress.
fn step_of(progress: &Option<Value>) -> Step
    ensures { result ≡ step_of (progress_in progress.now) }
{
    match progress {
        None => 0,
        Some(value) => value.step,
    }
}

/// Returns what is said of a task that has finished or was dropped, as ` 4/4 100%, done in 3.2s`.
fn ended_text(
    alloc: Global,
    told: &Told,
    now: Moment,
    progress: &Option<Value>,
) -> Result<String, Refusal>
    ensures ok { GivesText result (ended_text told.now now (progress_in progress.now)) }
    ensures reason { IsOkUnless result Refusal.Memory }
{
    let last = last_progress(alloc, progress)?;
    let outcome = outcome_text(is_done(reached(progress)), bound_of(progress));
    let duration = duration_text(alloc, now.saturating_sub(told.since))?;
    Ok(format!(in alloc; "{last}{outcome}{duration}")?)
}

/// Returns whether that is what was said last.
fn was_said(told: &Told, reached: Reached) -> bool
    ensures { result ≡ was_said told.now.said reached }
{
    match told.said {
        None => false,
        Some(said) => said.is_same(reached),
    }
}

/// Returns what is said of a progress that is seen again: that it has finished, or how far it is,
/// each once.
fn said_again(
    alloc: Global,
    told: &Told,
    now: Moment,
    progress: &Option<Value>,
) -> Result<Option<String>, Refusal>
    ensures ok { Says result (said_of (Some told.now) now (progress_in progress.now)) }
    ensures reason { IsOkUnless result Refusal.Memory }
{
    let Some(value) = progress else {
        return Ok(None);
    };
    let reached = Reached::of(value);
    if reached.is_done() {
        return if is_done(told.said) {
            Ok(None)
        } else {
            Ok(Some(ended_text(alloc, told, now, progress)?))
        };
    }
    if was_said(told, reached) {
        return Ok(None);
    }
    Ok(Some(changed_text(alloc, told, now, value)?))
}

/// Returns what is said of a task that is seen, if anything is: that it began, and from then on
/// what has changed.
pub(super) fn said_of(
    alloc: Global,
    told: Option<&Told>,
    now: Moment,
    progress: &Option<Value>,
) -> Result<Option<String>, Refusal>
    ensures ok { Says result
        (said_of (option_copied told.entry) now (progress_in progress.now)) }
    ensures reason { IsOkUnless result Refusal.Memory }
{
    match told {
        None => Ok(Some(String::from_str(alloc, " started")?)),
        Some(told) => said_again(alloc, told, now, progress),
    }
}

/// Returns what is known of a task once it was seen. Of a new one no progress counts as said.
pub(super) fn told_after(
    told: Option<&Told>,
    now: Moment,
    label: Text,
    progress: &Option<Value>,
) -> Told
    ensures { result
        ≡ told_after (option_copied told.entry) now label (progress_in progress.now) }
{
    match told {
        None => Told {
            label,
            since: now,
            first: step_of(progress),
            said: None,
            finished: finished_at(is_done(reached(progress)), None, now),
        },
        Some(told) => Told {
            label,
            since: told.since,
            first: told.first,
            said: reached(progress),
            finished: finished_at(is_done(reached(progress)), told.finished, now),
        },
    }
}

/// Returns what is said of a task that is dropped, if anything is: how it ended, unless that it has
/// finished was said.
pub(super) fn said_at_end(
    alloc: Global,
    told: Option<&Told>,
    now: Moment,
    progress: &Option<Value>,
) -> Result<Option<String>, Refusal>
    ensures ok { Says result
        (said_at_end (option_copied told.entry) now (progress_in progress.now)) }
    ensures reason { IsOkUnless result Refusal.Memory }
{
    let Some(told) = told else {
        return Ok(None);
    };
    if is_done(told.said) && is_done(reached(progress)) {
        return Ok(None);
    }
    Ok(Some(ended_text(alloc, told, now, progress)?))
}

/// Returns whether a task has come to its end: at its bound, or without a bound if it was dropped.
fn has_come_out(is_dropped: bool, progress: &Option<Value>) -> bool
    ensures { result ≡ has_come_out is_dropped (progress_in progress.now) }
{
    is_done(reached(progress)) || (is_dropped && bound_of(progress).is_none())
}

/// Returns the values of a progress, as `4/4 files`, or nothing without progress.
fn values_of(alloc: Global, progress: &Option<Value>) -> Result<String, Refusal>
    ensures ok { GivesText result (values_of (progress_in progress.now)) }
    ensures reason { IsOkUnless result Refusal.Memory }
{
    match progress {
        None => Ok(String::new(alloc)),
        Some(value) => values_text(alloc, value),
    }
}

/// Returns how a task has come out, as `4/4 files in 3.2s` or `stopped at 4/10 after 12s`.
fn outcome_of(
    alloc: Global,
    has_come_out: bool,
    progress: &Option<Value>,
    nanoseconds: u64,
) -> Result<String, Refusal>
    ensures ok { GivesText result (outcome_of has_come_out (progress_in progress.now) nanoseconds) }
    ensures reason { IsOkUnless result Refusal.Memory }
{
    let duration = duration_text(alloc, nanoseconds)?;
    match (has_come_out, progress) {
        (true, None) => Ok(format!(in alloc; "in {duration}")?),
        (true, Some(value)) => {
            let values = values_text(alloc, value)?;
            Ok(format!(in alloc; "{values} in {duration}")?)
        }
        (false, None) => Ok(format!(in alloc; "stopped after {duration}")?),
        (false, Some(value)) => {
            let values = values_text(alloc, value)?;
            Ok(format!(in alloc; "stopped at {values} after {duration}")?)
        }
    }
}

/// Returns the outcome of a task of which this was said. Its time ends when it reached its bound,
/// or now.
pub(super) fn known_outcome(
    alloc: Global,
    told: &Told,
    now: Moment,
    is_dropped: bool,
    label: String,
    progress: &Option<Value>,
) -> Result<Outcome, Refusal>
    ensures ok { IfOk result
        (IsOutcome told.now now is_dropped label (progress_in progress.now)) }
    ensures reason { IsOkUnless result Refusal.Memory }
{
    let finished = finished_at(is_done(reached(progress)), told.finished, now);
    let took = finished.unwrap_or(now).saturating_sub(told.since);
    let has_finished = has_come_out(is_dropped, progress);
    let text = outcome_of(alloc, has_finished, progress, took)?;
    Ok(Outcome {
        label: Text::new(label),
        has_finished,
        values: Text::new(values_of(alloc, progress)?),
        text: Text::new(text),
    })
}

/// Returns a text with U+FFFD in place of each unsafe character, as defensive frames have it.
pub(super) fn safe_text(alloc: Global, text: &str) -> Result<String, AllocError>
    ensures { IfOk result (λ safe. string_bytes safe
        ≡ encode_utf8_all (drawn_chars true text.now)) }
{
    let mut safe = String::new(alloc);
    for c in text.chars() {
        safe.push(safe_char(c))?;
    }
    Ok(safe)
}
