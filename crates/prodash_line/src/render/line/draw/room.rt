//! The room that a line has where it is cut.
ghost use Rattle.std.specs.Prelude.{◌≡◌};
ghost use Rattle.prodash_line.specs.plumbing.Cutting.{left_of};

/// How much of a line is still written.
#[derive(Clone, Copy, Debug)]
pub(crate) enum Room {
    /// All of it: the line isn't cut.
    Unlimited,
    /// What fits in this many columns.
    Columns(u16),
    /// Nothing, since a text didn't fit. This many columns are left blank.
    Full(u16),
}

impl Room {
    /// Returns the columns that are left, 0 if there is no limit.
    pub(crate) fn columns_left(self) -> u16
        ensures { result ≡ left_of self }
    {
        match self {
            Room::Unlimited => 0,
            Room::Columns(left) | Room::Full(left) => left,
        }
    }
}
