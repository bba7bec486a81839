//! Where counts are shown.
ghost use Rattle.std.specs.Prelude.{ℕ, List, [], ◌∷◌, Option, None};
ghost use Rattle.std.specs.Io.KnownBytes.{Appends};

/// Shows counts, each in place of the one before.
pub trait Gauge {
    /// The counts that it was given, where they are known.
    ghost shown: { Self → Option (List ℕ) } = { λ _. None };

    /// Shows a count.
    fn show(&mut self, count: u64)
        ensures { Appends (shown self.old) (shown self.new) (count ∷ []) };
}
