ghost use Rattle.std.specs.Prelude.{◌≡◌, ℕ, ◌-◌, ◌<◌, ◌≤◌, ◌↔◌, [], length, IsTrue, slice_index, nat_eq, take};
ghost use Rattle.std.specs.Ordering.{nat_cmp, as_partial_cmp};
ghost use Rattle.std.specs.Cmp.Lexicographic.{pointwise, slice_cmp, nat_list_cmp_total, nat_list_eq_equiv, texts_ties, texts_po};
ghost use Rattle.std.specs.Cmp.{partial_equiv_from_equiv};
ghost use Rattle.std.specs.Cmp.Rules.{comparing};
ghost use Rattle.std.proofs.Common.{rules};
ghost use Rattle.prodash_base.specs.Path.{max_level, IsPath, child, next_id, SharesPrefix, path_cmp};
ghost use Rattle.prodash_base.specs.plumbing.KeyHash.{key_alike};
ghost use Rattle.prodash_base.specs.plumbing.KeyWords.{number_at, word_of, word_at};
ghost use Rattle.std.specs.Hash as fed;

mod adjacency;
mod neighbours;

pub use adjacency::{Adjacency, SiblingLocation};
use std::cmp::Ordering;
use std::fmt;
use std::hash::{Hash, Hasher};
use std::marker::Model;
use std::ops::Index;

/// The depth of an item in the tree, from 0 at the root to 6: how many numbers its key has.
pub type Level = u8;

/// Returns the number of the child that is added after the one with number `n`: one more, or 0 if
/// `n` is the greatest.
pub fn next_id(n: u32) -> u32
    ensures { result ≡ next_id n }
{
    n.wrapping_add(1)
}

/// The place of an item in the tree: at most six numbers, which name the item and its ancestors
/// from the root down. Keys are ordered like slices of their numbers. Contracts see a key as the
/// list of its numbers, its path. A key takes 28 bytes.
///
/// ```rust
/// let parent = Key::default().add_child(3);
/// let key = parent.add_child(7);
/// assert_eq!(rt; key.level(), 2);
/// assert_eq!(rt; key[2], 7);
/// assert!(rt; key.shares_parent_with(&parent.add_child(8), 1));
/// ```
#[derive(Clone, Copy)]
pub struct Key {
    numbers: [u32; 6],
    level: Level,
}

impl Model for Key {
    ghost use Rattle.prodash_base.specs.Path.{Path};
    ghost use Rattle.prodash_base.specs.Key.{path_of_key, IsKey, key_of_path, key_of_path-path_of_key};

    ghost Value = { Path };

    ghost view = { path_of_key };

    ghost invariant = { IsKey };

    ghost inverse = { key_of_path };

    ghost inverse_ok = { key_of_path-path_of_key };
}

impl Default for Key {
    ghost is_default = { λ key. key ≡ [] };

    /// Returns the key of the root, which has no numbers.
    fn default() -> Key {
        Key {
            numbers: [0; 6],
            level: 0,
        }
    }
}

impl Key {
    /// Returns the key of the child with number `n`. A key of the deepest level has no children:
    /// the call then returns the key with its last number replaced by `n`.
    pub fn add_child(self, n: u32) -> Key
        ensures value { result ≡ child self n }
        ensures path { IsPath result }
    {
        let mut numbers = self.numbers;
        let level = (self.level + 1).min(Key::max_level());
        numbers[usize::from(level) - 1] = n;
        Key { numbers, level }
    }

    /// Returns the key's level, which is how many numbers it has.
    pub fn level(&self) -> Level
        ensures value { result ≡ length self.now }
        ensures bound { result ≤ max_level }
        ensures path { IsPath self.now }
    {
        self.level
    }

    /// Returns whether both keys have at least `parent_level` numbers and agree on the first
    /// `parent_level` of them.
    pub fn shares_parent_with(&self, other: &Key, parent_level: Level) -> bool
        ensures { IsTrue result ↔ SharesPrefix parent_level self.now other.now }
    {
        let level = usize::from(parent_level);
        let (own, others) = (self.numbers(), other.numbers());
        level <= own.len() && level <= others.len() && own[..level] == others[..level]
    }

    /// Returns the greatest level of a key, which is 6.
    pub const fn max_level() -> Level
        ensures { result ≡ max_level }
    {
        6
    }

    /// Returns the key's numbers, from the root down.
    pub(crate) fn numbers(&self) -> &[u32]
        ensures { result.now ≡ self.now }
    {
        &self.numbers[..usize::from(self.level)]
    }

    /// Returns the key's first two numbers, zeros past its level.
    #[inline]
    fn first_numbers(&self) -> (u32, u32)
        ensures first { result.0 ≡ number_at self.now 0 }
        ensures second { result.1 ≡ number_at self.now 1 }
        ensures path { IsPath self.now }
    {
        let [a, b, _, _, _, _] = self.numbers;
        (a, b)
    }

    /// Returns the key's last four numbers in words of two, zeros past its level, and its level.
    #[inline]
    fn later_words(&self) -> (u64, u64, Level)
        ensures second { result.0 ≡ word_at self.now 2 }
        ensures third { result.1 ≡ word_at self.now 4 }
        ensures level { result.2 ≡ length self.now }
        ensures path { IsPath self.now }
    {
        let [_, _, c, d, e, f] = self.numbers;
        (word_of(c, d), word_of(e, f), self.level)
    }

    /// Compares two keys that have the same first two numbers.
    #[inline(never)]
    fn cmp_past_first_numbers(&self, other: &Key) -> Ordering
        requires { word_at self.now 0 ≡ word_at other.now 0 }
        ensures { result ≡ path_cmp self.now other.now }
    {
        self.later_words().cmp(&other.later_words())
    }

    /// Compares the first `level` numbers of both keys, or all numbers of one that has fewer.
    pub(crate) fn cmp_prefix(&self, other: &Key, level: Level) -> Ordering
        ensures { result ≡ path_cmp (take level self.now) (take level other.now) }
    {
        self.prefix(level).cmp(other.prefix(level))
    }

    /// Returns the key's first `level` numbers, or all if it has fewer.
    fn prefix(&self, level: Level) -> &[u32]
        ensures { result.now ≡ take level self.now }
    {
        let numbers = self.numbers();
        &numbers[..usize::from(level).min(numbers.len())]
    }
}

/// Returns the word that has `high` in its higher half and `low` in its lower one.
#[inline]
fn word_of(high: u32, low: u32) -> u64
    ensures { result ≡ word_of high low }
{
    u64::from(high) * 4294967296 + u64::from(low)
}

impl Index<Level> for Key {
    type Output = u32;

    ghost can_index = { λ key level. (0 < level) × (level ≤ length key) };

    ghost index_gives = { λ key level n. n ≡ slice_index key (level - 1) };

    /// Returns the number at a level between 1 and the key's own.
    fn index(&self, level: Level) -> &u32 {
        &self.numbers[usize::from(level) - 1]
    }
}

impl Ord for Key {
    ghost cmp = { slice_cmp nat_cmp };

    ghost total = { nat_list_cmp_total };

    ghost matches_partial_cmp = { Prim.search (comparing, rules) };

    ghost matches_eq = { texts_ties };

    /// Compares the first two numbers, and then the others in pairs. A number past a key's level
    /// counts as 0, so the levels decide if all numbers are equal.
    #[inline]
    fn cmp(&self, other: &Key) -> Ordering {
        let (own, others) = (self.first_numbers(), other.first_numbers());
        if own.0 < others.0 {
            Ordering::Less
        } else if own.0 > others.0 {
            Ordering::Greater
        } else if own.1 < others.1 {
            Ordering::Less
        } else if own.1 > others.1 {
            Ordering::Greater
        } else {
            self.cmp_past_first_numbers(other)
        }
    }
}

impl PartialOrd for Key {
    ghost partial_cmp = { as_partial_cmp (slice_cmp nat_cmp) };

    ghost laws = { texts_po };

    fn partial_cmp(&self, other: &Key) -> Option<Ordering> {
        Some(self.cmp(other))
    }
}

impl PartialEq for Key {
    ghost eq = { pointwise nat_eq };

    ghost laws = { partial_equiv_from_equiv nat_list_eq_equiv };

    #[inline]
    fn eq(&self, other: &Key) -> bool {
        self.first_numbers() == other.first_numbers() && self.later_words() == other.later_words()
    }
}

impl Eq for Key {
    ghost laws = { nat_list_eq_equiv };
}

impl Hash for Key {
    ghost hash_input = { fed.slice fed.u32 };

    ghost respects_eq = { key_alike };

    fn hash<H: Hasher>(&self, state: &mut H) {
        self.numbers().hash(state);
    }
}

impl fmt::Debug for Key {
    /// Writes the key's numbers, as `Key [0, 1]`.
    fn fmt<W: fmt::Write>(&self, f: &mut fmt::Formatter<W>) -> fmt::Result {
        write!(f, "Key {:?}", self.numbers())
    }
}
