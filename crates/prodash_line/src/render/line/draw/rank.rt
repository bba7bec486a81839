//! The ranks of rows, by which those are chosen that are drawn if not all fit.
ghost use Rattle.std.specs.Prelude.{◌≡◌, true, nat_lt};
ghost use Rattle.prodash_base.specs.Rows.{row_of, rows_of, progress_of, phase_of};
ghost use Rattle.prodash_line.specs.ProgressRows.{filtered};
ghost use Rattle.prodash_line.specs.RowRanks as ranks;
ghost use Rattle.prodash_line.specs.plumbing.Choosing as choosing;
ghost use Rattle.prodash_line.specs.plumbing.FrameWriting.{quotas_for};

use crate::render::line::draw::row::is_row_drawn;
use prodash_base::progress::{Level, Row, State, Value};
use prodash_base::times::is_past;

/// What the task of a row does.
#[derive(Clone, Copy, Debug, PartialEq, Eq)]
pub(crate) enum Standing {
    /// It runs, and has made a step.
    Running,
    /// It has no progress, has made no step, is halted or is blocked.
    Waiting,
    /// It is at its bound or past it.
    Finished,
}

/// The group of a row. If not all rows fit, those of an earlier group are drawn before those of a
/// later one.
#[derive(Clone, Copy, Debug, PartialEq, Eq)]
pub(crate) enum Rank {
    /// Its task runs.
    Running,
    /// It is above the row of a task that runs.
    AboveRunning,
    /// Its task waits.
    Waiting,
    /// It is above the row of a task that waits.
    AboveWaiting,
    /// Its task has finished.
    Finished,
}

impl Rank {
    /// Returns the number of ranks before this one.
    fn order(self) -> u8
        ensures { result ≡ ranks.order self }
    {
        match self {
            Rank::Running => 0,
            Rank::AboveRunning => 1,
            Rank::Waiting => 2,
            Rank::AboveWaiting => 3,
            Rank::Finished => 4,
        }
    }

    /// Whether this rank comes before another.
    fn is_before(self, other: Rank) -> bool
        ensures { result ≡ ranks.is_before self other }
    {
        self.order() < other.order()
    }
}

/// How many more rows of each rank are drawn.
#[derive(Clone, Copy, Debug)]
pub(crate) struct Quotas {
    running: usize,
    above_running: usize,
    waiting: usize,
    above_waiting: usize,
    finished: usize,
}

impl Quotas {
    /// Returns quotas of so many rows of each rank.
    pub(crate) fn new(rows: usize) -> Quotas
        ensures { result ≡ choosing.quotas_of rows }
    {
        Quotas {
            running: rows,
            above_running: rows,
            waiting: rows,
            above_waiting: rows,
            finished: rows,
        }
    }

    /// Takes a row of this rank from the quotas of all later ranks.
    pub(crate) fn reserve(&mut self, rank: Rank)
        ensures { self.new ≡ choosing.reserved self.old rank }
    {
        self.above_running = lessened(self.above_running, rank.is_before(Rank::AboveRunning));
        self.waiting = lessened(self.waiting, rank.is_before(Rank::Waiting));
        self.above_waiting = lessened(self.above_waiting, rank.is_before(Rank::AboveWaiting));
        self.finished = lessened(self.finished, rank.is_before(Rank::Finished));
    }

    /// Takes a row from the quota of its rank, and returns whether there was any left.
    pub(crate) fn take(&mut self, rank: Rank) -> bool
        ensures quotas { self.new ≡ choosing.taken self.old rank }
        ensures left { result ≡ nat_lt 0 (choosing.quota self.old rank) }
    {
        match rank {
            Rank::Running => take_one(&mut self.running),
            Rank::AboveRunning => take_one(&mut self.above_running),
            Rank::Waiting => take_one(&mut self.waiting),
            Rank::AboveWaiting => take_one(&mut self.above_waiting),
            Rank::Finished => take_one(&mut self.finished),
        }
    }
}

/// Returns a quota from which a row is taken, or is not.
fn lessened(quota: usize, is_taken: bool) -> usize
    ensures { result ≡ choosing.lessened is_taken quota }
{
    if is_taken {
        quota.saturating_sub(1)
    } else {
        quota
    }
}

/// Takes a row from a quota, and returns whether there was any left.
fn take_one(quota: &mut usize) -> bool
    ensures quota { quota.new ≡ choosing.lessened true quota.old }
    ensures left { result ≡ nat_lt 0 quota.old }
{
    let is_left = *quota > 0;
    *quota = quota.saturating_sub(1);
    is_left
}

/// Returns how many rows of each rank are drawn, if `most` of these are. Only those count that the
/// filter of levels lets through.
pub(crate) fn quotas_for(levels: Option<(Level, Level)>, rows: &[Row], most: usize) -> Quotas
    ensures { result ≡ quotas_for levels rows.now most }
{
    let mut quotas = Quotas::new(most);
    for (n, row) in rows.iter().enumerate() {
        if is_row_drawn(levels, row) {
            quotas.reserve(rank_of(levels, row, &rows[n + 1..]));
        }
    }
    quotas
}

/// Returns the rank of a row with these rows after it, of those that the filter of levels lets
/// through.
pub(crate) fn rank_of(levels: Option<(Level, Level)>, row: &Row, after: &[Row]) -> Rank
    ensures { result ≡ ranks.rank_of (row_of row.now) (filtered levels (rows_of after.now)) }
{
    if has_standing(row, Standing::Running) {
        Rank::Running
    } else if is_above(levels, row, Standing::Running, after) {
        Rank::AboveRunning
    } else if has_standing(row, Standing::Waiting) {
        Rank::Waiting
    } else if is_above(levels, row, Standing::Waiting, after) {
        Rank::AboveWaiting
    } else {
        Rank::Finished
    }
}

/// Whether a row is above one of a task with this standing, of the rows after it that the filter of
/// levels lets through.
#[tactic(auto, using(crate::proofs::Choosing::above_next))]
fn is_above(levels: Option<(Level, Level)>, row: &Row, standing: Standing, after: &[Row]) -> bool
    ensures { result
        ≡ ranks.is_above standing (row_of row.now) (filtered levels (rows_of after.now)) }
{
    for other in after {
        if is_row_drawn(levels, other) {
            if !is_deeper(row, other) {
                return false;
            }
            if has_standing(other, standing) {
                return true;
            }
        }
    }
    false
}

/// Whether another row is deeper in the hierarchy.
fn is_deeper(row: &Row, other: &Row) -> bool
    ensures { result ≡ ranks.is_deeper (row_of row.now) (row_of other.now) }
{
    row.key.level() < other.key.level()
}

/// Whether the task of a row has this standing.
fn has_standing(row: &Row, standing: Standing) -> bool
    ensures { result ≡ ranks.has_standing standing (row_of row.now) }
{
    match (standing_of(row), standing) {
        (Standing::Running, Standing::Running)
        | (Standing::Waiting, Standing::Waiting)
        | (Standing::Finished, Standing::Finished) => true,
        _ => false,
    }
}

/// Returns what the task of a row does.
fn standing_of(row: &Row) -> Standing
    ensures { result ≡ ranks.standing_of (row_of row.now).1.progress }
{
    match &row.progress {
        None => Standing::Waiting,
        Some(value) => standing_with(value),
    }
}

/// Returns what a task with this progress does.
fn standing_with(value: &Value) -> Standing
    ensures { result ≡ ranks.standing_with (progress_of value.now) }
{
    if is_past(value.step, value.done_at) {
        Standing::Finished
    } else if value.step > 0 && is_running(value.state) {
        Standing::Running
    } else {
        Standing::Waiting
    }
}

/// Whether a state is that of a task that runs.
fn is_running(state: State) -> bool
    ensures { result ≡ ranks.is_running (phase_of state) }
{
    match state {
        State::Running => true,
        State::Halted(_, _) | State::Blocked(_, _) => false,
    }
}
