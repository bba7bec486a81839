ghost use Rattle.std.specs.Prelude.{◌≡◌, ◌↔◌, IsTrue};
ghost use Rattle.std.specs.Cmp.{partial_equiv_from_equiv};
ghost use Rattle.prodash_base.specs.plumbing.EqualityTests.{equivalence};
ghost use Rattle.prodash_base.specs.plumbing.SameRows as same;
ghost use Rattle.prodash_base.specs.Rows.{row_of, rows_of, same_rows};
ghost use Rattle.prodash_base.specs.Steps.{with_step, with_steps};

use crate::progress::{Row, Step};
use std::alloc::AllocError;
use std::marker::Model;
use std::{fmt, mem};

/// The rows of a snapshot. Contracts see the list of their paths and entries.
///
/// ```rust
/// let mut list = Vec::new(alloc);
/// list.push(row)?;
/// let rows = Rows::new(list);
/// assert_eq!(rt; rows.as_slice().len(), 1);
/// ```
#[derive(Drop)]
pub struct Rows {
    rows: Vec<Row>,
}

impl Model for Rows {
    ghost use Rattle.std.specs.Prelude.{List};
    ghost use Rattle.prodash_base.specs.Rows.{PathRow, rows_of};

    ghost Value = { List PathRow };

    ghost view = { λ s. rows_of s.rows.items };
}

impl Rows {
    /// Returns the rows of a list.
    pub fn new(rows: Vec<Row>) -> Rows
        ensures { result ≡ rows_of rows.items }
    {
        Rows { rows }
    }

    /// Returns the rows as a slice.
    pub fn as_slice(&self) -> &[Row]
        ensures { rows_of result.now ≡ self.now }
    {
        self.rows.as_slice()
    }

    /// Returns whether the rows have these steps, the first of which belongs to the first row. Rows
    /// without progress have every step, and so have those behind the last one.
    pub fn have_steps(&self, steps: &[Step]) -> bool
        ensures { IsTrue result ↔ (with_steps steps.now self.now ≡ self.now) }
    {
        let most = steps.len().min(self.rows.len());
        for n in 0..most {
            if !self.rows[n].has_step(steps[n]) {
                return false;
            }
        }
        true
    }

    /// Exchanges the steps of the rows for these, the first of which belongs to the first row. Rows
    /// without progress have none to exchange, and those behind the last step keep theirs.
    pub fn swap_steps(&mut self, steps: &mut [Step])
        ensures after { self.new ≡ with_steps steps.old self.old }
        ensures back { with_steps steps.new self.new ≡ self.old }
    {
        let most = steps.len().min(self.rows.len());
        for n in 0..most {
            swap_step(&mut self.rows[n], &mut steps[n]);
        }
    }

    /// Returns the rows as a list.
    pub fn into_vec(self) -> Vec<Row>
        ensures { rows_of result.items ≡ self }
    {
        self.rows
    }
}

/// Exchanges the step of a row for this one, if it has progress.
fn swap_step(row: &mut Row, step: &mut Step)
    ensures after { row_of row.new ≡ with_step step.old (row_of row.old) }
    ensures back { with_step step.new (row_of row.new) ≡ row_of row.old }
{
    if let Some(value) = &mut row.progress {
        mem::swap(&mut value.step, step);
    }
}

impl Clone for Rows {
    ghost is_clone = { λ a b. b ≡ a };

    fn clone(&self) -> Result<Rows, AllocError> {
        let rows = self.rows.clone()?;
        Ok(Rows { rows })
    }
}

impl PartialEq for Rows {
    ghost eq = { same_rows };

    ghost laws = { partial_equiv_from_equiv (equivalence same.rows) };

    /// Returns whether both have the same paths and entries.
    fn eq(&self, other: &Rows) -> bool
        ensures value { result ≡ same_rows self.now other.now }
        ensures exact { IsTrue result ↔ (self.now ≡ other.now) }
    {
        self.rows == other.rows
    }
}

impl Eq for Rows {
    ghost laws = { equivalence same.rows };
}

impl fmt::Debug for Rows {
    /// Writes the rows, as `Rows [Row [0] "task" 3/10]`.
    fn fmt<W: fmt::Write>(&self, f: &mut fmt::Formatter<W>) -> fmt::Result {
        let rows = self.as_slice();
        write!(f, "Rows {rows:?}")
    }
}
