//! Lines of an earlier frame, which are copied into the frame that takes its place.
ghost use Rattle.std.specs.Prelude.{◌≡◌, ◌≤◌, IfOk, IfSome, OnOk, length};
ghost use Rattle.prodash_base.specs.Rows.{row_of};
ghost use Rattle.prodash_line.specs.plumbing.LineCopying.{Begins, CopiesLine, FindsLine, GoesOn, HasLine, Skips, Writes, gone_of};
ghost use Rattle.prodash_line.specs.plumbing.WrittenRows.{CopiesRun, FollowsRun};

use crate::render::line::byte_buffer::ByteBuffer;
use crate::render::line::draw::action::Drawn;
use crate::render::line::draw::frame::split_first_width;
use crate::render::line::draw::latest_rows::{
    KeptLines, LineSize, RowLine, RowsBefore, shows_no_throughput,
};
use crate::render::line::draw::line_writer::LineWriter;
use crate::render::line::gap_buffer::GapBuffer;
use prodash_base::progress::{Level, Row};
use prodash_base::throughput::FrameThroughput;
use prodash_base::unit::display::Throughput;
use std::alloc::AllocError;

/// A frame whose lines are copied from an earlier one, where they are the same. It takes the place of
/// that one in memory.
#[derive(Drop)]
pub(crate) struct LineCopier<'a> {
    before: RowsBefore<'a>,
    /// The lines that the next frame may copy, and those that are left of the earlier frame.
    pub(crate) lines: GapBuffer<RowLine>,
    /// The bytes of the frame so far, and those that are left of the earlier one.
    bytes: GapBuffer<u8>,
    /// How many bytes the earlier frame had.
    end: usize,
}

/// The row that is written next, and the lines on screen that are left.
#[derive(Clone, Copy, Drop)]
pub(crate) struct NextRow<'a> {
    /// The index of the row.
    pub(crate) index: usize,
    /// The widths of the lines on screen, from the one on that it is written over.
    pub(crate) widths: &'a [u16],
}

impl<'a> LineCopier<'a> {
    /// Begins a frame after one that had these rows and has kept these lines. They are copied only if
    /// `are_alike`, that is, if the lines of rows that are alike are the same now. `out` has what has
    /// been written of the frame, and is overwritten. Fails if out of memory.
    pub(crate) fn begin(
        before: RowsBefore<'a>,
        kept: &mut KeptLines,
        are_alike: bool,
        out: &mut LineWriter,
    ) -> Result<LineCopier<'a>, AllocError>
        ensures { IfOk result (Begins before.entry kept.old are_alike out.old.bytes) }
    {
        let (lines, bytes) = (kept.take_lines(), kept.take_bytes());
        if !are_alike {
            out.move_into(bytes)?;
            let (bytes, written) = out.take_bytes().into_initialized();
            return Ok(LineCopier {
                before,
                lines: GapBuffer::after(lines, 0),
                bytes: GapBuffer::after(bytes, written),
                end: 0,
            });
        }
        let mut copier = LineCopier {
            before,
            lines: GapBuffer::over(lines),
            end: bytes.len(),
            bytes: GapBuffer::over(bytes.into_vec()),
        };
        copier.go_on();
        copier.push(out.bytes())?;
        Ok(copier)
    }

    /// Returns how many bytes the frame has so far.
    pub(crate) fn len(&self) -> usize
        ensures { result ≡ length self.now.bytes.0 }
    {
        self.bytes.len()
    }

    /// Returns how many bytes of the earlier frame are gone.
    #[inline(always)]
    fn gone(&self) -> usize
        ensures { result ≡ gone_of self.now }
    {
        self.end.saturating_sub(self.bytes.left().len())
    }

    /// Gives up the bytes before the next line of the earlier frame, and all if there is none.
    fn go_on(&mut self)
        ensures { Skips self.old self.new }
    {
        let most = self.bytes.left().len();
        let count = match self.lines.left().first() {
            None => most,
            Some(line) => line.start().saturating_sub(self.gone()).min(most),
        };
        self.bytes.give_up(count);
    }

    /// Writes the bytes of a line. Fails if out of memory.
    pub(crate) fn push(&mut self, bytes: &[u8]) -> Result<(), AllocError>
        ensures { OnOk result (Writes self.old bytes.now self.new) }
    {
        self.bytes.extend_from_slice(bytes)
    }

    /// Goes on to the first line of the earlier frame that is that of this row too, or that of a row
    /// below it.
    fn go_on_to(&mut self, row: &Row)
        ensures { Skips self.old self.new }
    {
        while let Some(line) = self.lines.left().first() {
            if self.before.is_line_of(line, row) || self.before.is_below(line, row) {
                break;
            }
            self.lines.give_up(1);
        }
        self.go_on();
    }

    /// Goes on to the line of a row, and returns its size, if one was drawn that is the same.
    pub(crate) fn find(&mut self, row: &Row, throughput: &Option<Throughput>) -> Option<LineSize>
        ensures skips { Skips self.old self.new }
        ensures line { IfSome result (HasLine self.new) }
        ensures found { IfSome result (FindsLine self.new (row_of row.now, throughput.now)) }
    {
        if !shows_no_throughput(row, throughput) {
            return None;
        }
        self.go_on_to(row);
        let line = self.lines.left().first()?;
        let size = self.before.size_at(line, self.gone(), row, 0)?;
        if self.bytes.left().len() < size.length {
            return None;
        }
        Some(size)
    }

    /// Copies the line of this size that what is left begins with, over one that is `old_width`
    /// columns wide. `out` is overwritten. Fails if out of memory.
    pub(crate) fn copy_line(
        &mut self,
        out: &mut LineWriter,
        size: LineSize,
        old_width: u16,
    ) -> Result<(), AllocError>
        requires { HasLine self.old size }
        ensures { OnOk result (CopiesLine self.old size old_width self.new) }
    {
        self.bytes.write_left(size.length);
        self.lines.give_up(1);
        self.go_on();
        out.clear_bytes();
        out.push_row_end(old_width.saturating_sub(size.width))?;
        self.push(out.bytes())
    }

    /// Copies the lines of this row and of those below it, while each line is that of the row and
    /// follows the one before among the earlier ones. Copies none if throughput is measured, levels
    /// are filtered, or there are more rows or bytes than 32 bits count. Returns the row that is
    /// written next then. Fails if out of memory.
    #[inline(never)]
    pub(crate) fn copy_run<'b>(
        &mut self,
        tracker: &Option<FrameThroughput>,
        drawn: &mut Drawn,
        levels: Option<(Level, Level)>,
        rows: &[Row],
        at: NextRow<'b>,
    ) -> Result<NextRow<'b>, AllocError>
        ensures run { IfOk result
            (CopiesRun tracker.now levels rows.now at.entry self.old drawn.old self.new drawn.new) }
        ensures left { OnOk result (GoesOn self.old self.new) }
        ensures index { IfOk result (λ next. at.entry.index ≤ next.index) }
    {
        if tracker.is_some() || levels.is_some() {
            return Ok(at);
        }
        self.go_on();
        let (written, start) = (self.bytes.len(), self.gone());
        let most = written
            .saturating_add(self.bytes.left().len())
            .max(rows.len());
        if u32::try_from(most).is_err() {
            return Ok(at);
        }
        let (mut n, mut left, mut end) = (at.index, at.widths, start);
        while let Some(size) = self.size_of(rows, n, left, end, start) {
            drawn.midpoint = drawn.midpoint.max(size.midpoint);
            drawn.widths.push(size.width)?;
            let line = RowLine::new(n, written + (end - start), size);
            self.lines.replace_first(line);
            end += size.length + 1;
            n += 1;
            left = split_first_width(left).1;
        }
        self.bytes.write_left(end - start);
        Ok(NextRow {
            index: n,
            widths: left,
        })
    }

    /// Returns the size of the next earlier line, if it is that of the `n`th row, begins at this
    /// byte, and has nothing but a line feed behind it, also over the first line on screen of these
    /// widths. The earlier frame's first `gone` bytes are gone.
    #[inline(always)]
    fn size_of(
        &self,
        rows: &[Row],
        n: usize,
        widths: &[u16],
        start: usize,
        gone: usize,
    ) -> Option<LineSize>
        requires gone { gone ≡ gone_of self.now }
        requires left { gone ≤ start }
        ensures { IfSome result (FollowsRun self.now rows.now n widths.now start) }
    {
        let row = rows.get(n)?;
        let line = self.lines.left().first()?;
        let (old_width, _) = split_first_width(widths);
        let size = self.before.size_at(line, start, row, old_width)?;
        let after = self.bytes.left().get(start + size.length - gone)?;
        if *after != b'\n' {
            return None;
        }
        Some(size)
    }

    /// Ends the frame: `out` has its bytes then. Returns the lines that the next frame may copy.
    pub(crate) fn finish(self, out: &mut LineWriter) -> Vec<RowLine>
        ensures bytes { out.new.bytes ≡ self.entry.bytes.0 }
        ensures lines { result.items ≡ self.entry.lines.0 }
    {
        let (bytes, written) = self.bytes.into_items();
        out.set_bytes(ByteBuffer::from_first(bytes, written));
        self.lines.into_written()
    }
}
