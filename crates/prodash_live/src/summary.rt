//! How the items of the first two levels have come out.
use prodash::Refusal;
use prodash::progress::{Key, Row};
use prodash::render::plain::{Outcome, Plain};
use prodash::time::Moment;
use std::alloc::{AllocError, Global};
use std::collections::BTreeMap;

/// The deepest level whose items are in a summary.
const DEEPEST: u8 = 2;

/// How many outcomes are kept. Of others that have finished only the number is.
const MOST: usize = 1000;

/// Whether an item has come to its end.
#[derive(Clone, Copy, Debug, PartialEq, Eq)]
pub enum End {
    /// It has: its step is at its maximum, or it has none and was dropped.
    Finished,
    /// It hasn't: its step is below its maximum.
    Unfinished,
    /// Nobody knows: it has no maximum, and was there when the input ended.
    Unknown,
}

/// How an item has come out.
#[derive(Drop)]
pub struct Ended {
    /// Whether it has come to its end.
    pub end: End,
    /// Its names, what it has done, and how long that took.
    pub outcome: Outcome,
}

/// The outcomes of items, and what is known of those that are there.
#[derive(Drop)]
pub struct Summary {
    alloc: Global,
    log: Plain,
    ended: BTreeMap<Key, Ended>,
    /// How many have finished whose outcomes aren't kept.
    others: u64,
}

impl Summary {
    /// Returns a summary without items.
    pub fn new(alloc: Global, now: Moment) -> Summary {
        Summary {
            alloc,
            log: Plain::new(alloc, now),
            ended: BTreeMap::new(alloc),
            others: 0,
        }
    }

    /// Notes an item that was added or has finished.
    ///
    /// # Errors
    ///
    /// `Memory`, if there is no memory for it.
    pub fn observe(&mut self, row: &Row, now: Moment) -> Result<(), Refusal> {
        if row.key.level() <= DEEPEST {
            self.log.observe(self.alloc, row, now)?;
        }
        Ok(())
    }

    /// Notes the names of an item, which may be new.
    ///
    /// # Errors
    ///
    /// `Memory`, if there is no memory for them.
    pub fn rename(&mut self, row: &Row) -> Result<(), Refusal> {
        self.log.rename(self.alloc, row)
    }

    /// Notes how an item has come out that was dropped, or is there at the end.
    ///
    /// # Errors
    ///
    /// `Memory`, if there is no memory for it.
    pub fn end(&mut self, row: &Row, now: Moment, is_dropped: bool) -> Result<(), Refusal> {
        let Some(outcome) = self.log.outcome(self.alloc, row, now, true)? else {
            return Ok(());
        };
        self.log.end(self.alloc, row, now)?;
        let end = end_of(row, &outcome, is_dropped);
        if end == End::Finished && self.ended.len() >= MOST {
            self.others = self.others.saturating_add(1);
        } else {
            self.ended.insert(row.key, Ended { end, outcome })?;
        }
        Ok(())
    }

    /// Returns the outcomes, in the order of the items.
    pub fn outcomes(&self) -> &BTreeMap<Key, Ended> {
        &self.ended
    }

    /// Returns what is said of those that have finished whose outcomes aren't kept.
    ///
    /// # Errors
    ///
    /// `AllocError`, if there is no memory for it.
    pub fn others(&self) -> Result<Option<String>, AllocError> {
        let (alloc, others) = (self.alloc, self.others);
        match others {
            0 => Ok(None),
            _ => Ok(Some(format!(in alloc; "and {others} more")?)),
        }
    }

    /// Returns the items that haven't finished, as `deploy 4/10, build/app`.
    ///
    /// # Errors
    ///
    /// `AllocError`, if there is no memory for it.
    pub fn unfinished(&self) -> Result<String, AllocError> {
        let mut text = String::new(self.alloc);
        for (_, ended) in &self.ended {
            if ended.end == End::Unfinished {
                push_item(&mut text, &ended.outcome)?;
            }
        }
        Ok(text)
    }
}

/// Returns whether an item with this outcome has come to its end.
fn end_of(row: &Row, outcome: &Outcome, is_dropped: bool) -> End {
    let has_bound = match &row.progress {
        None => false,
        Some(value) => value.done_at.is_some(),
    };
    if !outcome.has_finished {
        End::Unfinished
    } else if has_bound || is_dropped {
        End::Finished
    } else {
        End::Unknown
    }
}

/// Appends an item with its values to those before it.
fn push_item(text: &mut String, outcome: &Outcome) -> Result<(), AllocError> {
    if !text.is_empty() {
        text.push_str(", ")?;
    }
    text.push_str(outcome.label.as_str())?;
    if !outcome.values.as_str().is_empty() {
        text.push(' ')?;
        text.push_str(outcome.values.as_str())?;
    }
    Ok(())
}
