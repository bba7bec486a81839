//! What a log has said of each task.
ghost use Rattle.std.specs.Prelude.{◌≡◌, ◌-◌, length, take, OnOk, OnErr, IfOk, string_bytes, option_copied, IsOkUnless};
ghost use Rattle.std.specs.FinMap as finite;
ghost use Rattle.prodash_base.specs.Rows.{row_of};
ghost use Rattle.prodash.specs.PlainLines.{label_of};

use crate::progress::{Key, Row, Step};
use crate::time::Moment;
use prodash_base::{Refusal, Text};
use std::alloc::{AllocError, Global};
use std::collections::BTreeMap;
use std::marker::Model;

/// How far a task is.
#[derive(Clone, Copy, Debug)]
pub(crate) struct Reached {
    /// The step that it has reached.
    pub step: Step,
    /// The step at which it is done, if known.
    pub done_at: Option<Step>,
}

/// What a log has said of a task.
#[derive(Drop)]
pub(crate) struct Told {
    /// The names of its ancestors and its own.
    pub label: Text,
    /// When it was first seen.
    pub since: Moment,
    /// Its step then.
    pub first: Step,
    /// How far it was when that was said last, if it was.
    pub said: Option<Reached>,
    /// When it was first seen at its bound, if it is there.
    pub finished: Option<Moment>,
}

impl Told {
    /// Returns what was said of the task, with other names for it.
    pub fn renamed(&self, label: Text) -> Told
        ensures { result ≡ record self.now { label = label } }
    {
        Told {
            label,
            since: self.since,
            first: self.first,
            said: self.said,
            finished: self.finished,
        }
    }
}

/// What a log has said of each task. Contracts see a finite map from paths.
#[derive(Drop)]
pub(crate) struct Tellings {
    tasks: BTreeMap<Key, Told>,
}

impl Model for Tellings {
    ghost use Rattle.std.specs.FinMap as finite;
    ghost use Rattle.std.specs.Coded.{codes};
    ghost use Rattle.prodash_base.specs.Path.{path_cmp};
    ghost use Rattle.prodash.specs.declared.render.plain.told.Told.{Told};

    ghost Value = { finite.FinMap path_cmp Told };

    ghost coded = { Prim.hlevel (codes, finite.code) };

    ghost view = { λ t. finite.from_entries t.tasks.entries };
}

impl Tellings {
    /// Returns a map without tasks.
    pub fn new(alloc: Global) -> Tellings
        ensures { result ≡ finite.empty }
    {
        Tellings {
            tasks: BTreeMap::new(alloc),
        }
    }

    /// Returns what was said of the task at a key, if it is known.
    pub fn get(&self, key: Key) -> Option<&Told>
        ensures { option_copied result ≡ finite.get self.now key }
    {
        self.tasks.get(&key)
    }

    /// Keeps what was said of the task at a key. Fails if out of memory; then nothing has changed.
    pub fn insert(&mut self, key: Key, told: Told) -> Result<(), Refusal>
        ensures ok { OnOk result (self.new ≡ finite.insert self.old key told) }
        ensures err { OnErr result (self.new ≡ self.old) }
        ensures reason { IsOkUnless result Refusal.Memory }
    {
        self.tasks.insert(key, told)?;
        Ok(())
    }

    /// Forgets the task at a key.
    pub fn remove(&mut self, key: Key)
        ensures { self.new ≡ finite.remove self.old key }
    {
        self.tasks.remove(&key);
    }

    /// Returns the names of a row's ancestors and its own, as `build/app`.
    pub fn label_of(&self, alloc: Global, row: &Row) -> Result<String, AllocError>
        ensures { IfOk result (λ label. string_bytes label ≡ label_of self.now (row_of row.now)) }
    {
        let name = row.name.as_str();
        if row.key.level() <= 1 {
            return String::from_str(alloc, name);
        }
        match (self.get(parent_of(row.key)), self.get(row.key)) {
            (Some(parent), _) => format!(in alloc; "{}/{name}", parent.label.as_str()),
            (None, Some(told)) => String::from_str(alloc, told.label.as_str()),
            (None, None) => String::from_str(alloc, name),
        }
    }
}

/// Returns the key of the task above the one at a key.
fn parent_of(key: Key) -> Key
    ensures { result ≡ take (length key - 1) key }
{
    let mut parent = Key::default();
    for level in 1..key.level() {
        parent = parent.add_child(key[level]);
    }
    parent
}
