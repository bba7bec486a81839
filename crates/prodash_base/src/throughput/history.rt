//! All observations that a tracker has been given of the listed keys. Only contracts read them, and
//! they take no memory.
ghost use Rattle.std.specs.Prelude.{◌≡◌};
ghost use Rattle.std.specs.Borrow.{ftrue};
ghost use Rattle.std.specs.FinMap as finite;
ghost use Rattle.prodash_base.specs.Trackers.{Observations};
ghost use Rattle.prodash_base.specs.plumbing.ObservationCodes.{coded_observations};

use crate::progress::{Key, Row};
use crate::throughput::sample::Observation;
use std::marker::{Model, Send, Sync};

/// All observations of each key, the latest first.
#[derive(Drop)]
pub(crate) struct History {
    pub(crate) ghost observations: { Observations } by { coded_observations },
}

impl Model for History {
    ghost also_owns = { λ _. ftrue };
}

/// A change of a history.
#[derive(Clone, Copy, Drop)]
pub(crate) enum Change {
    /// None.
    Nothing,
    /// One more observation of a key.
    Observed(Key, Observation),
}

/// Rows, of whose keys the observations are kept.
#[derive(Clone, Copy, Drop)]
pub(crate) struct Listed<'a> {
    pub(crate) rows: &'a [Row],
}

// A history owns nothing, so any thread may own or share it.
unsafe impl Send for History {}

unsafe impl Sync for History {}

impl History {
    ghost use Rattle.prodash_base.specs.Rows.{rows_of};
    ghost use Rattle.prodash_base.specs.Trackers.{is_listed};
    ghost use Rattle.prodash_base.specs.plumbing.Changes.{changed_by};

    /// Returns the history of a tracker that has observed nothing.
    pub(crate) fn new() -> History
        ensures { result.observations ≡ finite.empty }
    {
        History {}
    }

    /// Returns the history with one more observation, if there is one.
    pub(crate) fn after(&self, _change: &Change) -> History
        ensures { result.observations ≡ changed_by _change.now self.now.observations }
    {
        History {}
    }

    /// Returns the history of the keys of these rows alone.
    pub(crate) fn among(&self, _listed: &Listed<'_>) -> History
        ensures { result.observations
            ≡ finite.retain_keys self.now.observations (is_listed (rows_of _listed.now.rows.now)) }
    {
        History {}
    }
}
