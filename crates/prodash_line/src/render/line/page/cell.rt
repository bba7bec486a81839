//! The cells of a page.
ghost use Rattle.std.specs.Prelude.{◌≡◌, ◌∷◌, ◌++◌, [], nat_eq, OnOk, OnErr};
ghost use Rattle.std.specs.Cmp.Lexicographic.{pointwise, nat_list_eq_equiv};
ghost use Rattle.std.specs.Cmp.{partial_equiv_from_equiv};

use std::alloc::{AllocError, Global};
use std::marker::Model;

/// The characters of no column that have joined the character of a cell. Contracts see their list.
#[derive(Debug, Drop)]
pub struct Joined {
    chars: Vec<char>,
}

impl Model for Joined {
    ghost use Rattle.std.specs.Prelude.{List, ℕ};

    ghost Value = { List ℕ };

    ghost view = { λ joined. joined.chars.items };
}

impl Joined {
    /// Returns no characters.
    pub(crate) fn new(alloc: Global) -> Joined
        ensures { result ≡ [] }
    {
        Joined {
            chars: Vec::new(alloc),
        }
    }

    /// Appends a character. Fails if out of memory.
    pub(crate) fn push(&mut self, c: char) -> Result<(), AllocError>
        ensures ok { OnOk result (self.new ≡ self.old ++ c ∷ []) }
        ensures err { OnErr result (self.new ≡ self.old) }
    {
        self.chars.push(c)?;
        Ok(())
    }

    /// Returns the characters, in the order in which they were written.
    pub fn as_slice(&self) -> &[char]
        ensures { result.now ≡ self.now }
    {
        self.chars.as_slice()
    }
}

impl PartialEq for Joined {
    ghost eq = { pointwise nat_eq };

    ghost laws = { partial_equiv_from_equiv nat_list_eq_equiv };

    fn eq(&self, other: &Joined) -> bool {
        self.chars.as_slice() == other.chars.as_slice()
    }
}

impl Eq for Joined {
    ghost laws = { nat_list_eq_equiv };
}

/// A cell of a page.
#[derive(Debug, PartialEq, Eq, Drop)]
pub enum Cell {
    /// A character, with those that have joined it. A blank cell holds a space.
    Holds(char, Joined),
    /// The second half of a character of two columns.
    Half,
}
