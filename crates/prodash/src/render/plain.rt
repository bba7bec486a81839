//! Progress in plain lines, for a log or another output that is no terminal.
ghost use Rattle.std.specs.Prelude.{◌≡◌, OnOk, OnErr, IfOk, is_some, string_bytes, IsOkUnless};
ghost use Rattle.std.specs.FinMap as finite;
ghost use Rattle.std.specs.Option.{option_map};
ghost use Rattle.prodash_base.specs.Rows.{row_of};
ghost use Rattle.prodash.specs.PlainLines.{new_log, observed_line, observed, renamed, dropped_line, dropped, labelled_line, outcome_at, Says};

mod lines;
mod told;

use crate::progress::{Key, Row};
use crate::render::plain::lines::{known_outcome, safe_text, said_at_end, said_of, told_after};
use crate::render::plain::told::Tellings;
use crate::time::Moment;
use prodash_base::times::stopwatch_text;
use prodash_base::{Refusal, Text};
use std::alloc::Global;
use std::marker::Model;

/// A log of tasks: a line when one begins, one each time that it is seen and has changed, and one
/// when it has finished or is dropped, as `[00:42] build/app 3/4 75%, 12s left`.
///
/// A task is named by its ancestors and itself, so a row is to be shown after those of its
/// ancestors. It keeps the names of those that are dropped before it. No line has a line feed, and
/// U+FFFD is in place of each unsafe character, as in defensive frames. Contracts see the moment at
/// which the log began, and what it has said of each task.
///
/// ```rust
/// let mut log = Plain::new(alloc, clock.now());
/// for row in rows {
///     if let Some(line) = log.observe(alloc, row, clock.now())? {
///         writeln!(out, "{line}")?;
///     }
/// }
/// ```
#[derive(Drop)]
pub struct Plain {
    began: Moment,
    tasks: Tellings,
}

/// How a task has come out.
#[derive(Debug, PartialEq, Eq, Drop)]
pub struct Outcome {
    /// The names of its ancestors and its own, as `build/app`.
    pub label: Text,
    /// Whether it has come to its end: it has reached its bound, or was dropped and has none.
    pub has_finished: bool,
    /// Its step with its bound and its unit, as `4/10`; empty without progress.
    pub values: Text,
    /// What it has done, and how long it took, as `4/4 files in 3.2s` or
    /// `stopped at 4/10 after 12s`.
    pub text: Text,
}

impl Model for Plain {
    ghost use Rattle.prodash.specs.PlainLines.{PlainLog};
    ghost use Rattle.std.specs.Coded.{codes};
    ghost use Rattle.std.specs.FinMap as finite;

    ghost Value = { PlainLog };

    ghost coded = { Prim.hlevel (codes, finite.code) };

    ghost view = { λ log. record { began = log.began; tasks = log.tasks } };
}

impl Plain {
    /// Returns a log that begins now, and has said nothing.
    pub fn new(alloc: Global, now: Moment) -> Plain
        ensures { result ≡ new_log now }
    {
        Plain {
            began: now,
            tasks: Tellings::new(alloc),
        }
    }

    /// Returns whether the log knows the task at a key: it was seen, and not dropped since.
    pub fn knows(&self, key: Key) -> bool
        ensures { result ≡ is_some (finite.get self.now.tasks key) }
    {
        self.tasks.get(key).is_some()
    }

    /// Returns the line of a task that is seen, if there is something to say: that it began, how
    /// far it is if that has changed since it was said, or that it has reached its bound.
    ///
    /// # Errors
    ///
    /// `Memory`, if there is no memory for it. The log stays as it was.
    pub fn observe(
        &mut self,
        alloc: Global,
        row: &Row,
        now: Moment,
    ) -> Result<Option<String>, Refusal>
        ensures line { Says result (observed_line self.old now (row_of row.now)) }
        ensures ok { OnOk result (self.new ≡ observed self.old now (row_of row.now)) }
        ensures err { OnErr result (self.new ≡ self.old) }
        ensures reason { IsOkUnless result Refusal.Memory }
    {
        let label = self.tasks.label_of(alloc, row)?;
        let told = self.tasks.get(row.key);
        let said = said_of(alloc, told, now, &row.progress)?;
        let line = self.line(alloc, now, label.as_str(), said)?;
        let after = told_after(told, now, Text::new(label), &row.progress);
        self.tasks.insert(row.key, after)?;
        Ok(line)
    }

    /// Takes the names of a task from its row, for what is said of it next. Nothing changes if the
    /// log doesn't know the task. The names of tasks below it are taken from their rows in the same
    /// way, each after those of its ancestors.
    ///
    /// # Errors
    ///
    /// `Memory`, if there is no memory for the names. The log stays as it was.
    pub fn rename(&mut self, alloc: Global, row: &Row) -> Result<(), Refusal>
        ensures ok { OnOk result (self.new ≡ renamed self.old (row_of row.now)) }
        ensures err { OnErr result (self.new ≡ self.old) }
        ensures reason { IsOkUnless result Refusal.Memory }
    {
        let Some(told) = self.tasks.get(row.key) else {
            return Ok(());
        };
        let label = self.tasks.label_of(alloc, row)?;
        let after = told.renamed(Text::new(label));
        self.tasks.insert(row.key, after)
    }

    /// Returns the line of a task that is dropped, if there is something to say: how it ended,
    /// unless a line says already that it has finished. The log forgets the task.
    ///
    /// # Errors
    ///
    /// `Memory`, if there is no memory for it. The log stays as it was.
    pub fn end(&mut self, alloc: Global, row: &Row, now: Moment) -> Result<Option<String>, Refusal>
        ensures line { Says result (dropped_line self.old now (row_of row.now)) }
        ensures ok { OnOk result (self.new ≡ dropped self.old (row_of row.now)) }
        ensures err { OnErr result (self.new ≡ self.old) }
        ensures reason { IsOkUnless result Refusal.Memory }
    {
        let label = self.tasks.label_of(alloc, row)?;
        let told = self.tasks.get(row.key);
        let said = said_at_end(alloc, told, now, &row.progress)?;
        let line = self.line(alloc, now, label.as_str(), said)?;
        self.tasks.remove(row.key);
        Ok(line)
    }

    /// Returns how a task has come out that the log knows, or `None` if it doesn't know it. Its
    /// time is from when it was first seen to when it was first seen at its bound, or else to now.
    ///
    /// # Errors
    ///
    /// `Memory`, if there is no memory for it.
    pub fn outcome(
        &self,
        alloc: Global,
        row: &Row,
        now: Moment,
        is_dropped: bool,
    ) -> Result<Option<Outcome>, Refusal>
        ensures ok { IfOk result (λ o. o ≡ outcome_at self.now now is_dropped (row_of row.now)) }
        ensures reason { IsOkUnless result Refusal.Memory }
    {
        let Some(told) = self.tasks.get(row.key) else {
            return Ok(None);
        };
        let label = self.tasks.label_of(alloc, row)?;
        let outcome = known_outcome(alloc, told, now, is_dropped, label, &row.progress)?;
        Ok(Some(outcome))
    }

    /// Returns the line of a task about which this is said, if anything is.
    fn line(
        &self,
        alloc: Global,
        now: Moment,
        label: &str,
        said: Option<String>,
    ) -> Result<Option<String>, Refusal>
        ensures ok { Says result
            (labelled_line self.now now label.now (option_map string_bytes said)) }
        ensures reason { IsOkUnless result Refusal.Memory }
    {
        let Some(said) = said else {
            return Ok(None);
        };
        let time = stopwatch_text(alloc, now.saturating_sub(self.began))?;
        let text = format!(in alloc; "{label}{said}")?;
        let text = safe_text(alloc, text.as_str())?;
        Ok(Some(format!(in alloc; "{time} {text}")?))
    }
}
