use crate::progress::key::Level;
use std::ops::{Index, IndexMut};

/// The sides on which an item or one of its ancestors has siblings in a list.
#[derive(Clone, Copy, Debug, Default, PartialEq, Eq, PartialOrd, Ord)]
pub enum SiblingLocation {
    /// Above only.
    Above,
    /// Below only.
    Below,
    /// On both sides.
    AboveAndBelow,
    /// On neither side, or for an ancestor on one side only. Also each level below the item's own.
    #[default]
    NotFound,
}

/// The sides on which an item and its ancestors have siblings, from level 1 to level 6. Above, more
/// than siblings count: the root at level 1, the parent at the item's own level, and at that of an
/// ancestor the row of that ancestor itself.
///
/// ```rust
/// let adjacency = Key::adjacency(rows.as_slice(), index);
/// if adjacency.level() != key.level() {
///     println!(rt; "no siblings, and no parent")?;
/// } else if adjacency[key.level()] == SiblingLocation::Above {
///     println!(rt; "the last of its siblings")?;
/// }
/// ```
#[derive(Clone, Copy, Debug, Default, PartialEq, Eq, PartialOrd, Ord)]
pub struct Adjacency(
    /// At level 1.
    pub SiblingLocation,
    /// At level 2.
    pub SiblingLocation,
    /// At level 3.
    pub SiblingLocation,
    /// At level 4.
    pub SiblingLocation,
    /// At level 5.
    pub SiblingLocation,
    /// At level 6.
    pub SiblingLocation,
);

impl Adjacency {
    ghost use Rattle.std.specs.Prelude.{◌≡◌};
    ghost use Rattle.std.specs.Option.{option_copied, option_copied_mut};
    ghost use Rattle.std.specs.Borrow.{sem};
    ghost use Rattle.prodash_base.specs.Adjacency.{location_at, level_of};
    ghost use Rattle.prodash_base.specs.Lends.{LendsLocationIf};

    /// Returns the highest level that isn't `NotFound`, or 0 if all are.
    pub fn level(&self) -> Level
        ensures { result ≡ level_of self.now }
    {
        if self.5 != SiblingLocation::NotFound {
            6
        } else if self.4 != SiblingLocation::NotFound {
            5
        } else if self.3 != SiblingLocation::NotFound {
            4
        } else if self.2 != SiblingLocation::NotFound {
            3
        } else if self.1 != SiblingLocation::NotFound {
            2
        } else if self.0 != SiblingLocation::NotFound {
            1
        } else {
            0
        }
    }

    /// Returns the location at a level from 1 to 6, or `None` for any other level.
    pub fn get(&self, level: Level) -> Option<&SiblingLocation>
        ensures { option_copied result ≡ location_at self.now level }
    {
        match level {
            1 => Some(&self.0),
            2 => Some(&self.1),
            3 => Some(&self.2),
            4 => Some(&self.3),
            5 => Some(&self.4),
            6 => Some(&self.5),
            _ => None,
        }
    }

    /// Returns the location at a level from 1 to 6 for writing, or `None` for any other level.
    pub fn get_mut(&mut self, level: Level) -> Option<&mut SiblingLocation>
        ensures* writes_back { sem 𝓛 (LendsLocationIf self.entry level result) }
        ensures value { option_copied_mut result ≡ location_at self.old level }
    {
        match level {
            1 => Some(&mut self.0),
            2 => Some(&mut self.1),
            3 => Some(&mut self.2),
            4 => Some(&mut self.3),
            5 => Some(&mut self.4),
            6 => Some(&mut self.5),
            _ => None,
        }
    }
}

impl Index<Level> for Adjacency {
    ghost use Rattle.std.specs.Prelude.{◌≡◌, ◌<◌, ◌≤◌, Some};
    ghost use Rattle.prodash_base.specs.Path.{max_level};
    ghost use Rattle.prodash_base.specs.Adjacency.{location_at};

    type Output = SiblingLocation;

    ghost can_index = { λ adjacency level. (0 < level) × (level ≤ max_level) };

    ghost index_gives = { λ adjacency level location. location_at adjacency level ≡ Some location };

    /// Returns the location at a level from 1 to 6.
    fn index(&self, level: Level) -> &SiblingLocation {
        match self.get(level) {
            Some(location) => location,
            None => unreachable!(),
        }
    }
}

impl IndexMut<Level> for Adjacency {
    ghost use Rattle.std.specs.Prelude.{◌≡◌, ◌<◌, ◌≤◌, Some};
    ghost use Rattle.std.specs.Borrow.{sem};
    ghost use Rattle.prodash_base.specs.Path.{max_level};
    ghost use Rattle.prodash_base.specs.Adjacency.{location_at};
    ghost use Rattle.prodash_base.specs.Lends.{LendsLocation};

    /// Returns the location at a level from 1 to 6 for writing.
    fn index_mut(&mut self, level: Level) -> &mut SiblingLocation
        requires { (0 < level) × (level ≤ max_level) }
        ensures* writes_back { sem 𝓛 (LendsLocation self.entry level result) }
        ensures value { location_at self.old level ≡ Some result.now }
    {
        match level {
            1 => &mut self.0,
            2 => &mut self.1,
            3 => &mut self.2,
            4 => &mut self.3,
            5 => &mut self.4,
            _ => &mut self.5,
        }
    }
}
