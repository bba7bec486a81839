//! The count of what has passed.
ghost use Rattle.std.specs.Prelude.{◌≡◌, ◌∷◌, []};
ghost use Rattle.std.specs.Io.KnownBytes.{Appends};
ghost use Rattle.prodash_pipe.specs.Counts.{Counts, MeterOf, size};
ghost use Rattle.prodash_pipe.specs.declared.unit.Unit.TheVariants.{Lines};

use crate::gauge::Gauge;
use crate::unit::Unit;
use std::marker::Model;

impl Unit {
    /// Returns how much these bytes count: themselves, or the lines that end among them.
    pub fn size(self, bytes: &[u8]) -> u64
        ensures { result ≡ size self bytes.now }
    {
        match self {
            Unit::Bytes => bytes.len() as u64,
            Unit::Lines => line_feeds(bytes),
        }
    }
}

/// Returns how many line feeds there are.
fn line_feeds(bytes: &[u8]) -> u64
    ensures { result ≡ size Lines bytes.now }
{
    let mut count = 0;
    for byte in bytes {
        if *byte == b'\n' {
            count += 1;
        }
    }
    count
}

/// Counts what has passed, and shows the count.
#[derive(Drop)]
pub struct Meter<G: Gauge + Drop> {
    unit: Unit,
    count: u64,
    gauge: G,
}

impl<G: Gauge + Drop> Model for Meter<G> {
    ghost Value = { MeterOf };

    ghost view = { λ s. record {
      unit = s.unit;
      count = s.count;
      shown = G.Gauge.shown s.gauge;
    } };
}

impl<G: Gauge + Drop> Meter<G> {
    /// Returns a meter that has counted nothing.
    pub fn new(unit: Unit, gauge: G) -> Meter<G>
        ensures { result ≡ record { unit = unit; count = 0; shown = G.Gauge.shown gauge } }
    {
        Meter {
            unit,
            count: 0,
            gauge,
        }
    }

    /// Returns the count.
    pub fn count(&self) -> u64
        ensures { result ≡ self.now.count }
    {
        self.count
    }

    /// Counts bytes that have passed, and shows the count.
    pub fn add(&mut self, bytes: &[u8])
        ensures counts { Counts bytes.now self.old self.new }
        ensures shows { Appends self.old.shown self.new.shown (self.new.count ∷ []) }
    {
        self.count = self.count.saturating_add(self.unit.size(bytes));
        self.gauge.show(self.count);
    }
}
