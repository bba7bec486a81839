//! The cells of a grid.
ghost use Rattle.std.specs.Prelude.{◌≡◌, ◌↔◌, ◌≤◌, ◌∷◌, ◌++◌, [], IsTrue, length, nat_eq, take};
ghost use Rattle.std.specs.Cmp.Lexicographic.{pointwise, nat_list_eq_equiv};
ghost use Rattle.std.specs.Cmp.{partial_equiv_from_equiv};
ghost use Rattle.prodash_tui.specs.Cells.{same_cell};
ghost use Rattle.prodash_base.specs.plumbing.EqualityTests.{equivalence};
ghost use Rattle.prodash_tui.specs.plumbing.SameCells as same;

use crate::style::Style;
use std::marker::Model;

/// How many characters of no column join the character of a cell at most.
pub const MOST_JOINED: usize = 4;

/// The characters of no column that have joined the character of a cell: the first `MOST_JOINED` of
/// them. Contracts see their list.
#[derive(Debug, Drop)]
pub struct Joined {
    chars: [char; MOST_JOINED],
    count: usize,
}

impl Model for Joined {
    ghost use Rattle.std.specs.Prelude.{◌≤◌, List, ℕ, take};

    ghost Value = { List ℕ };

    ghost view = { λ joined. take joined.count joined.chars };

    ghost invariant = { λ joined. joined.count ≤ 4 };
}

impl Joined {
    /// Returns no characters.
    pub(crate) fn new() -> Joined
        ensures { result ≡ [] }
    {
        Joined {
            chars: ['\0'; MOST_JOINED],
            count: 0,
        }
    }

    /// Appends a character, unless there are as many as there can be.
    pub(crate) fn push(&mut self, c: char)
        ensures { self.new ≡ take MOST_JOINED (self.old ++ c ∷ []) }
    {
        if self.count < MOST_JOINED {
            self.chars[self.count] = c;
            self.count += 1;
        }
    }

    /// Returns the characters, in the order in which they were written.
    pub fn as_slice(&self) -> &[char]
        ensures value { result.now ≡ self.now }
        ensures few { length result.now ≤ MOST_JOINED }
    {
        &self.chars[..self.count]
    }
}

impl PartialEq for Joined {
    ghost eq = { pointwise nat_eq };

    ghost laws = { partial_equiv_from_equiv nat_list_eq_equiv };

    #[inline(always)]
    fn eq(&self, other: &Joined) -> bool {
        (self.count == 0 && other.count == 0) || self.as_slice() == other.as_slice()
    }
}

impl Eq for Joined {
    ghost laws = { nat_list_eq_equiv };
}

/// A cell of a grid.
#[derive(Debug, Drop)]
pub enum Cell {
    /// A character, with those that have joined it, in a style. A blank cell holds a space.
    Holds(char, Joined, Style),
    /// The second half of a character of two columns.
    Half,
}

impl PartialEq for Cell {
    ghost eq = { same_cell };

    ghost laws = { partial_equiv_from_equiv (equivalence same.cells) };

    /// Returns whether both are the same character with the same joined ones and the same style, or
    /// both are second halves.
    fn eq(&self, other: &Cell) -> bool
        ensures value { result ≡ same_cell self.now other.now }
        ensures exact { IsTrue result ↔ (self.now ≡ other.now) }
    {
        match (self, other) {
            (Cell::Holds(c, joined, style), Cell::Holds(d, others, look)) => {
                c == d && joined == others && style == look
            }
            (Cell::Half, Cell::Half) => true,
            _ => false,
        }
    }
}

impl Eq for Cell {
    ghost laws = { equivalence same.cells };
}
