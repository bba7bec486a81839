//! Rows that are remembered, and the lines that they were drawn in, for the next frame to copy.
ghost use Rattle.std.specs.Prelude.{◌≡◌, ◌≤◌, ◌<◌, [], List, length, Option, true, None, Some, IfSome, OnOk, slice_get};
ghost use Rattle.prodash_base.specs.Rows.{PathRow, phase_of, progress_of, row_of, rows_of, same_phase, same_progress};
ghost use Rattle.prodash_base.specs.Steps.{with_steps};
ghost use Rattle.prodash_base.specs.Units.{measure_of};
ghost use Rattle.prodash_base.specs.declared.unit.display.Throughput.{Throughput};
ghost use Rattle.prodash_line.specs.Renderer.{latest_rows, rows_changed};
ghost use Rattle.prodash_line.specs.plumbing.EarlierRows.{KeepsEarlier, changed_after, rows_before, rows_seen};
ghost use Rattle.prodash_line.specs.plumbing.KeptLines.{WasThere, drawn_in, AddsLine, AreAlike, AreAmong, AreKept, DrawAlike, IsAlso, IsLineAt, MayBeCopied, ShowsNone, are_same_units, are_same_values, kept_line, line_size};

use crate::render::line::byte_buffer::ByteBuffer;
use crate::render::line::draw::action::Action;
use crate::render::line::draw::earlier_rows::{Earlier, EarlierRows, SeenRows};
use crate::render::line::draw::input::Options;
use crate::render::line::draw::line_writer::LineWriter;
use crate::render::line::gap_buffer::GapBuffer;
use prodash_base::progress::{Row, Rows, State, Step, Value};
use prodash_base::unit::Unit;
use prodash_base::unit::display::Throughput;
use std::alloc::{AllocError, Global};
use std::marker::Model;
use std::mem;

/// How many rows are compared to tell whether most have changed.
const SAMPLES: usize = 8;

/// How large the line of a row is.
#[derive(Clone, Copy, Debug)]
pub(crate) struct LineSize {
    /// How many bytes it has, without what follows it over a wider line, and without its line feed.
    pub(crate) length: usize,
    /// How many columns it has.
    pub(crate) width: u16,
    /// The column at which the row's values end without padding.
    pub(crate) midpoint: u16,
}

/// The line of a row among the bytes of a frame. It is small, since one is kept for each row.
#[derive(Clone, Copy, Debug)]
pub(crate) struct RowLine {
    /// The index of the row.
    row: u32,
    /// The index of the line's first byte.
    start: u32,
    /// The length in its `LineSize`.
    length: u32,
    /// The width there.
    width: u16,
    /// The midpoint there.
    midpoint: u16,
}

const _: () = prove!(size_of::<RowLine>() == 16);

/// Lines of rows that the next frame may copy.
#[derive(Drop)]
pub(crate) struct KeptLines {
    /// The lines of rows that show neither a throughput nor a time.
    lines: Vec<RowLine>,
    /// The bytes of the frame that has drawn them.
    bytes: ByteBuffer,
    /// The options that it was drawn with.
    options: Options,
    /// The midpoint that values were brought to.
    midpoint: u16,
}

/// The rows at the latest accepted tick with a root, and the lines that they were drawn in, as far
/// as a frame may copy them. Contracts see the rows.
#[derive(Drop)]
pub(crate) struct LatestRows {
    rows: Option<Rows>,
    kept: KeptLines,
}

/// The rows of an earlier frame.
#[derive(Clone, Copy, Drop)]
pub(crate) struct RowsBefore<'a> {
    rows: &'a [Row],
    /// The steps that the rows had, those of the first ones; others had those that they have.
    steps: &'a [Step],
}

impl Model for LatestRows {
    ghost use Rattle.std.specs.Prelude.{List, Option};
    ghost use Rattle.prodash_base.specs.Rows.{PathRow};
    ghost use Rattle.prodash_line.specs.Renderer.{latest_rows};
    ghost use Rattle.prodash_line.specs.plumbing.KeptLines.{AreKept};

    ghost Value = { Option (List PathRow) };

    ghost view = { λ l. l.rows };

    ghost invariant = { λ l. AreKept l.kept (latest_rows l.rows) };
}

impl RowLine {
    /// Returns a line of this size, that of the row at an index, which begins at this byte.
    #[inline(always)]
    pub(crate) fn new(row: usize, start: usize, size: LineSize) -> RowLine
        requires row { row < 4294967296 }
        requires start { start < 4294967296 }
        requires length { size.length < 4294967296 }
        ensures { result ≡ kept_line row start size }
    {
        RowLine {
            row: row as u32,
            start: start as u32,
            length: size.length as u32,
            width: size.width,
            midpoint: size.midpoint,
        }
    }

    /// Returns the index of its first byte.
    #[inline(always)]
    pub(crate) fn start(&self) -> usize
        ensures start { result ≡ self.now.start }
        ensures bound { result < 4294967296 }
    {
        self.start as usize
    }

    /// Returns how large it is.
    #[inline(always)]
    fn size(&self) -> LineSize
        ensures size { result ≡ line_size self.now }
        ensures length { result.length < 4294967296 }
    {
        LineSize {
            length: self.length as usize,
            width: self.width,
            midpoint: self.midpoint,
        }
    }
}

impl KeptLines {
    /// Returns no lines.
    pub(crate) fn new(alloc: Global, options: Options) -> KeptLines
        ensures { result.lines.items ≡ [] }
    {
        KeptLines {
            lines: Vec::new(alloc),
            bytes: ByteBuffer::new(alloc),
            options,
            midpoint: 0,
        }
    }

    /// Returns whether a frame with these options and this midpoint may copy them, and there are any.
    pub(crate) fn are_for(&self, options: &Options, midpoint: u16) -> bool
        ensures { result ≡ true → MayBeCopied options.now midpoint self.now }
    {
        !self.lines.is_empty() && self.midpoint == midpoint && draw_alike(&self.options, options)
    }

    /// Takes the lines for a frame with this action. None is kept then if it draws rows, and none is
    /// taken if it doesn't.
    pub(crate) fn take_for(&mut self, alloc: Global, action: Action) -> KeptLines
        ensures taken { (rows : List PathRow) → AreKept self.old rows → AreKept result rows }
        ensures kept { (rows : List PathRow) → AreKept self.old rows → AreKept self.new rows }
    {
        let none = KeptLines::new(alloc, self.options);
        match action {
            Action::Redraw => mem::replace(self, none),
            Action::Leave | Action::Erase | Action::Close => none,
        }
    }

    /// Takes the bytes of the frame that has drawn them, of which none is left.
    pub(crate) fn take_bytes(&mut self) -> ByteBuffer
        ensures { result ≡ self.old.bytes }
    {
        self.bytes.take()
    }

    /// Takes the lines, of which none is left.
    pub(crate) fn take_lines(&mut self) -> Vec<RowLine>
        ensures lines { result ≡ self.old.lines }
        ensures bytes { self.new.bytes ≡ self.old.bytes }
    {
        let none = Vec::new(*self.lines.allocator());
        mem::replace(&mut self.lines, none)
    }
}

impl Earlier {
    /// Returns the rows.
    pub(crate) fn into_rows(self) -> EarlierRows
        ensures { result ≡ self.rows }
    {
        let Earlier { rows, .. } = self;
        rows
    }
}

impl LatestRows {
    /// Returns these rows without lines.
    pub(crate) fn new(alloc: Global, options: Options, rows: Option<Rows>) -> LatestRows
        ensures { result ≡ rows }
    {
        LatestRows {
            rows,
            kept: KeptLines::new(alloc, options),
        }
    }

    /// Returns the rows.
    pub(crate) fn rows(&self) -> &Option<Rows>
        ensures { result.now ≡ self.now }
    {
        &self.rows
    }

    /// Returns the rows as a slice, which is empty before the first tick.
    pub(crate) fn as_slice(&self) -> &[Row]
        ensures { rows_of result.now ≡ latest_rows self.now }
    {
        match &self.rows {
            None => &[],
            Some(rows) => rows.as_slice(),
        }
    }

    /// Remembers the rows that a tick sees, without lines. Returns what was remembered before.
    pub(crate) fn begin(&mut self, alloc: Global, seen: SeenRows) -> Earlier
        ensures latest { self.new ≡ Some (rows_seen seen (latest_rows self.old)) }
        ensures before { rows_before result.rows (latest_rows self.new) ≡ self.old }
        ensures lines { KeepsEarlier result.rows result.kept (latest_rows self.new) }
    {
        let none = KeptLines::new(alloc, self.kept.options);
        Earlier {
            kept: mem::replace(&mut self.kept, none),
            rows: see_rows(&mut self.rows, alloc, seen),
        }
    }

    /// Remembers again what was remembered before these rows.
    pub(crate) fn take_back(&mut self, earlier: Earlier)
        requires some { self.old ≡ Some (latest_rows self.old) }
        requires lines { KeepsEarlier earlier.rows earlier.kept (latest_rows self.old) }
        ensures { self.new ≡ rows_before earlier.rows (latest_rows self.old) }
    {
        take_rows_back(&mut self.rows, earlier.rows);
        self.kept = earlier.kept;
    }

    /// Keeps the lines of what was remembered before, as the rows are the same. Returns these rows
    /// as they were before.
    pub(crate) fn keep_earlier(&mut self, earlier: Earlier) -> EarlierRows
        requires same { rows_before earlier.rows (latest_rows self.old) ≡ self.old }
        requires lines { KeepsEarlier earlier.rows earlier.kept (latest_rows self.old) }
        ensures { self.new ≡ self.old }
    {
        let Earlier { rows, kept } = earlier;
        self.kept = kept;
        rows
    }

    /// Forgets the lines.
    pub(crate) fn forget_lines(&mut self)
        ensures { self.new ≡ self.old }
    {
        let alloc = *self.kept.lines.allocator();
        self.kept = KeptLines::new(alloc, self.kept.options);
    }

    /// Keeps the lines of the frame that was written last.
    pub(crate) fn keep_lines(
        &mut self,
        options: Options,
        midpoint: u16,
        lines: Vec<RowLine>,
        frame: &mut LineWriter,
    )
        requires { AreAmong options midpoint (latest_rows self.old) frame.old.bytes lines.items }
        ensures { self.new ≡ self.old }
    {
        self.kept.options = options;
        self.kept.midpoint = midpoint;
        self.kept.lines = lines;
        if !self.kept.lines.is_empty() {
            frame.swap_bytes(&mut self.kept.bytes);
        }
    }

    /// Returns those that were remembered before these rows, none if there weren't any.
    pub(crate) fn rows_before<'a>(&'a self, earlier: &'a EarlierRows) -> RowsBefore<'a>
        ensures { drawn_in result ≡ latest_rows (rows_before earlier.now (latest_rows self.now)) }
    {
        let (rows, steps): (&[Row], &[Step]) = match earlier {
            EarlierRows::Others(None) => (&[], &[]),
            EarlierRows::Others(Some(rows)) => (rows.as_slice(), &[]),
            EarlierRows::Same(steps) => (self.as_slice(), steps.as_slice()),
        };
        RowsBefore { rows, steps }
    }

    /// Whether these rows differ from those that were remembered before, or there were none.
    pub(crate) fn differ(&self, earlier: &EarlierRows) -> bool
        ensures { result ≡ changed_after earlier.now (latest_rows self.now) }
    {
        match earlier {
            EarlierRows::Others(None) => true,
            EarlierRows::Others(Some(before)) => match &self.rows {
                None => !before.as_slice().is_empty(),
                Some(rows) => *before != *rows,
            },
            EarlierRows::Same(steps) => match &self.rows {
                None => false,
                Some(rows) => !rows.have_steps(steps),
            },
        }
    }
}

/// Remembers the rows that a tick sees. Returns those that were remembered before.
fn see_rows(rows: &mut Option<Rows>, alloc: Global, seen: SeenRows) -> EarlierRows
    ensures latest { rows.new ≡ Some (rows_seen seen (latest_rows rows.old)) }
    ensures before { rows_before result (latest_rows rows.new) ≡ rows.old }
{
    match seen {
        SeenRows::All(seen) => EarlierRows::Others(rows.replace(seen)),
        SeenRows::Steps(mut steps) => match rows {
            Some(rows) => {
                rows.swap_steps(&mut steps);
                EarlierRows::Same(steps)
            }
            None => EarlierRows::Others(rows.replace(Rows::new(Vec::new(alloc)))),
        },
    }
}

/// Remembers the rows again that were remembered before.
fn take_rows_back(rows: &mut Option<Rows>, earlier: EarlierRows)
    requires { rows.old ≡ Some (latest_rows rows.old) }
    ensures { rows.new ≡ rows_before earlier (latest_rows rows.old) }
{
    match earlier {
        EarlierRows::Others(others) => *rows = others,
        EarlierRows::Same(mut steps) => {
            if let Some(rows) = rows {
                rows.swap_steps(&mut steps);
            }
        }
    }
}

impl<'a> RowsBefore<'a> {
    /// Returns no rows.
    pub(crate) fn none() -> RowsBefore<'a>
        ensures { drawn_in result ≡ [] }
    {
        RowsBefore {
            rows: &[],
            steps: &[],
        }
    }

    /// Whether some of a few rows, spread over all, show their values alone, and have the progress of
    /// those in their places. If not, few lines can be copied, and lines aren't worth keeping.
    pub(crate) fn resemble(&self, rows: &[Row]) -> bool {
        let step = rows.len() / SAMPLES + 1;
        let mut n = 0;
        while n < rows.len() && n < self.rows.len() {
            let (row, earlier) = (&rows[n], &self.rows[n]);
            if row.progress == earlier.progress
                && self.has_step(n, earlier)
                && shows_values_alone(row)
            {
                return true;
            }
            n += step;
        }
        false
    }

    /// Whether the row at an index had the step that it has, or no progress.
    #[inline(always)]
    fn has_step(&self, index: usize, row: &Row) -> bool
        ensures { result ≡ true → WasThere self.now index (row_of row.now) }
    {
        match self.steps.get(index) {
            None => true,
            Some(step) => row.has_step(*step),
        }
    }
}

impl<'a> RowsBefore<'a> {
    /// Returns whether a line is that of this row too.
    #[inline(always)]
    pub(crate) fn is_line_of(&self, line: &RowLine, row: &Row) -> bool
        ensures { result ≡ true → IsAlso self.now line.now (row_of row.now) }
    {
        let index = line.row as usize;
        match self.rows.get(index) {
            Some(latest) => {
                if !self.has_step(index, latest) {
                    return false;
                }
                are_alike(row, latest)
            }
            None => false,
        }
    }

    /// Returns whether the row of a line is below this one in the tree's order, or there is none.
    pub(crate) fn is_below(&self, line: &RowLine, row: &Row) -> bool {
        match self.rows.get(line.row as usize) {
            Some(earlier) => row.key < earlier.key,
            None => true,
        }
    }

    /// Returns the size of a line, if it begins at this byte, is that of this row too, and is at
    /// least as wide as one of this width.
    #[inline(always)]
    pub(crate) fn size_at(
        &self,
        line: &RowLine,
        start: usize,
        row: &Row,
        old_width: u16,
    ) -> Option<LineSize>
        ensures line { IfSome result (IsLineAt self.now line.now start (row_of row.now)) }
        ensures wide { IfSome result (λ size. old_width ≤ size.width) }
        ensures length { IfSome result (λ size. size.length < 4294967296) }
        ensures start { IfSome result (λ size. start < 4294967296) }
    {
        let size = line.size();
        if line.start() != start || size.width < old_width {
            return None;
        }
        if !self.is_line_of(line, row) {
            return None;
        }
        Some(size)
    }
}

/// Returns whether two rows are drawn alike. Progress is compared first, since it changes most often.
#[inline(always)]
fn are_alike(row: &Row, earlier: &Row) -> bool
    ensures { result ≡ true → AreAlike (row_of row.now) (row_of earlier.now) }
{
    if !is_same_progress(&row.progress, &earlier.progress) {
        return false;
    }
    if row.key.level() != earlier.key.level() {
        return false;
    }
    row.name == earlier.name
}

/// Returns whether the progress of rows is the same. What most tasks have is compared without a
/// call.
#[inline(always)]
fn is_same_progress(own: &Option<Value>, other: &Option<Value>) -> bool
    ensures { result ≡ are_same_values own.now other.now }
{
    match own {
        None => other.is_none(),
        Some(own) => match other {
            None => false,
            Some(other) => is_same_value(own, other),
        },
    }
}

/// Returns whether two values are the same.
#[inline(always)]
fn is_same_value(own: &Value, other: &Value) -> bool
    ensures { result ≡ same_progress (progress_of own.now) (progress_of other.now) }
{
    own.step == other.step
        && own.done_at == other.done_at
        && is_same_unit(&own.unit, &other.unit)
        && is_same_state(&own.state, &other.state)
}

/// Returns whether two units are the same, or there is none.
#[tactic(auto, using(prodash_base::proofs::SameKinds::same_as_unit))]
#[inline(always)]
fn is_same_unit(own: &Option<Unit>, other: &Option<Unit>) -> bool
    ensures { result ≡ are_same_units own.now other.now }
{
    match own {
        None => other.is_none(),
        Some(own) => match other {
            None => false,
            Some(other) => *own == *other,
        },
    }
}

/// Returns whether two states are the same.
#[inline(always)]
fn is_same_state(own: &State, other: &State) -> bool
    ensures { result ≡ same_phase (phase_of own.now) (phase_of other.now) }
{
    match own {
        State::Running => matches!(other, State::Running),
        State::Blocked(..) | State::Halted(..) => *own == *other,
    }
}

/// Adds the line of the row at an index, which begins at this byte and is so large, to those that
/// the next frame may copy, if it shows no throughput and these numbers have at most 32 bits. Fails
/// if out of memory.
#[inline(always)]
pub(crate) fn keep_line(
    lines: &mut GapBuffer<RowLine>,
    row: &Row,
    throughput: &Option<Throughput>,
    index: usize,
    start: usize,
    size: LineSize,
) -> Result<(), AllocError>
    ensures added { OnOk result (AddsLine (row_of row.now) throughput.now
        (kept_line index start size) lines.old.0 lines.new.0) }
    ensures left { OnOk result (lines.new.1 ≡ lines.old.1) }
{
    let most = index.max(start).max(size.length);
    if u32::try_from(most).is_ok() && shows_no_throughput(row, throughput) {
        lines.push(RowLine::new(index, start, size))?;
    }
    Ok(())
}

/// Returns whether the line of a row is the same with this throughput as without.
pub(crate) fn shows_no_throughput(row: &Row, throughput: &Option<Throughput>) -> bool
    ensures { result ≡ true → ShowsNone (row_of row.now) throughput.now }
{
    throughput.is_none() || shows_values_alone(row)
}

/// Returns whether a row shows neither a percentage nor a throughput with its values.
fn shows_values_alone(row: &Row) -> bool
    ensures { result ≡ true
        → (throughput : Option Throughput) → ShowsNone (row_of row.now) throughput }
{
    let Some(value) = &row.progress else {
        return true;
    };
    match &value.unit {
        None => true,
        Some(unit) => has_no_mode(unit),
    }
}

/// Returns whether a unit shows neither a percentage nor a throughput with its values.
fn has_no_mode(unit: &Unit) -> bool
    ensures { result ≡ true → (measure_of unit.now).mode ≡ None }
{
    unit.mode().is_none()
}

/// Returns whether the lines of rows are the same with these options as with those.
fn draw_alike(own: &Options, other: &Options) -> bool
    ensures { result ≡ true → DrawAlike own.now other.now }
{
    if own.terminal_dimensions != other.terminal_dimensions {
        return false;
    }
    if own.output_is_terminal != other.output_is_terminal {
        return false;
    }
    if own.bar_columns != other.bar_columns {
        return false;
    }
    if own.defensive != other.defensive {
        return false;
    }
    own.colored == other.colored
}
