//! A writer of lines: each piece of a line is written straight into a buffer of bytes, up to where
//! the line is cut.
ghost use Rattle.std.specs.Prelude.{◌≡◌, ◌+◌, ◌-◌, ℕ, ◌∷◌, [], ◌++◌, ◌≤◌, ◌<◌, true, false, chars, length, replicate, take, OnOk, IfOk};
ghost use Rattle.prodash_line.specs.Signs.{spelling_of};
ghost use Rattle.prodash_line.specs.Lines.{piece, styled, spaces};
ghost use Rattle.prodash_line.specs.ProgressRows.{bar_with, fraction_of};
ghost use Rattle.prodash_line.specs.plumbing.Writing.{IsMeasured, line_bytes, is_printable, style_of_length, open_bytes, reset_bytes, Appends, AppendsPair, AppendsIndented, AppendsIfRoom, color_alone, indented, run, Begun, SameLine, Counts};
ghost use Rattle.prodash_line.specs.plumbing.RowWriting.{FollowsStep, after_padding, drawn_fraction, drawn_texts, text_length, length_of, progress_bytes};
ghost use Rattle.prodash_line.specs.plumbing.OverwriteBytes.{on_row, row_end, EndsOver, IsCutWidth};

use crate::render::line::byte_buffer::ByteBuffer;
use crate::render::line::draw::bar::{ARROW, BRACKETS};
use crate::render::line::draw::drawn_text::DrawnText;
use crate::render::line::draw::erasing::start_row;
use crate::render::line::draw::fitting::{fit_indented, fit_printable, fit_text};
use crate::render::line::draw::layout::Layout;
use crate::render::line::draw::measured_names::MeasuredNames;
use crate::render::line::draw::plain_progress::PlainProgress;
use crate::render::line::draw::room::Room;
use crate::render::line::draw::text::text_width;
use crate::render::line::page::{Color, Sign, Style, last_digit, push_open, push_reset, push_sign};
use itoa::Buffer;
use prodash_base::progress::{Level, Step};
use std::alloc::{AllocError, Global};
use std::mem;

/// Writes lines into one buffer, one after another, and measures the current line.
#[derive(Drop)]
pub(crate) struct LineWriter {
    bytes: ByteBuffer,
    /// The width of the line so far, before it is cut, at most 65535.
    width: u16,
    /// The columns to which the line is cut, if it is.
    limit: Option<u16>,
    /// How much of the line is still written.
    room: Room,
    /// The widths of the names that the latest frames have drawn.
    pub(crate) names: MeasuredNames,
}

impl LineWriter {
    /// Returns a writer whose buffer is empty.
    pub(crate) fn new(alloc: Global) -> LineWriter
        ensures bytes { result.bytes ≡ [] }
        ensures width { result.width ≡ 0 }
    {
        LineWriter {
            bytes: ByteBuffer::new(alloc),
            width: 0,
            limit: None,
            room: Room::Unlimited,
            names: MeasuredNames::new(alloc),
        }
    }

    /// Returns the bytes written since the buffer was last cleared.
    pub(crate) fn bytes(&self) -> &[u8]
        ensures { result.now ≡ self.now.bytes }
    {
        self.bytes.as_slice()
    }

    /// Returns how many bytes were written since the buffer was last cleared.
    pub(crate) fn len(&self) -> usize
        ensures { result ≡ length self.now.bytes }
    {
        self.bytes.len()
    }

    /// Returns the width of the line so far, before it is cut, in columns, at most 65535.
    pub(crate) fn width(&self) -> u16
        ensures { result ≡ self.now.width }
    {
        self.width
    }

    /// Begins a frame: empties the buffer and keeps its memory.
    pub(crate) fn clear(&mut self)
        ensures { self.new.bytes ≡ [] }
    {
        self.bytes.clear();
        self.names.begin_frame();
    }

    /// Empties the buffer within a frame and keeps its memory.
    pub(crate) fn clear_bytes(&mut self)
        ensures { self.new.bytes ≡ [] }
    {
        self.bytes.clear();
    }

    /// Begins a line that is cut to `limit` columns, or written whole.
    pub(crate) fn begin_line(&mut self, limit: Option<u16>)
        ensures { Begun limit self.old [] self.new }
    {
        self.width = 0;
        self.limit = limit;
        self.room = match limit {
            Some(columns) => Room::Columns(columns),
            None => Room::Unlimited,
        };
    }

    /// Begins a line that is cut to `limit` columns, or written whole. If frames erase the rows that
    /// they write on, its row is erased first. Fails if out of memory.
    pub(crate) fn begin_row(&mut self, layout: Layout, limit: Option<u16>) -> Result<(), AllocError>
        ensures { OnOk result (Begun limit (on_row layout self.old) [] self.new) }
    {
        start_row(self, layout)?;
        self.begin_line(limit);
        Ok(())
    }

    /// Appends a text to the line, in this style if there is one. Fails if out of memory.
    pub(crate) fn push_text(&mut self, style: Option<Style>, text: &str) -> Result<(), AllocError>
        ensures { OnOk result (Appends self.old (styled style (chars text.now) ∷ []) self.new) }
    {
        let width = text_width(text);
        self.push_drawn(style, &DrawnText { text, width })
    }

    /// Appends a drawn text to the line, in this style if there is one. Fails if out of memory.
    #[inline(always)]
    pub(crate) fn push_drawn(
        &mut self,
        style: Option<Style>,
        drawn: &DrawnText<'_>,
    ) -> Result<(), AllocError>
        requires { IsMeasured drawn.now }
        ensures { OnOk result
            (Appends self.old (styled style (chars drawn.now.text.now) ∷ []) self.new) }
    {
        let (prefix, room) = fit_text(self.room, drawn.text, drawn.width);
        let style = style_of_length(style, prefix.len());
        self.open_style(style)?;
        self.bytes.extend_from_slice(prefix.as_bytes())?;
        self.width = self.width.saturating_add(drawn.width);
        self.room = room;
        self.reset_style(style)?;
        Ok(())
    }

    /// Appends a drawn text in this style if there is one, a space, and a drawn text without a
    /// style. Fails if out of memory.
    pub(crate) fn push_pair(
        &mut self,
        style: Option<Style>,
        first: &DrawnText<'_>,
        second: &DrawnText<'_>,
    ) -> Result<(), AllocError>
        requires first { IsMeasured first.now }
        requires second { IsMeasured second.now }
        ensures { OnOk result (AppendsPair style first.now second.now self.old self.new) }
    {
        self.push_drawn(style, first)?;
        self.push_spaces(1)?;
        self.push_drawn(None, second)
    }

    /// Appends a space, padding, and a step, and a slash and its bound if it has one, which are
    /// this long together, in the style of values if they are coloured, if the line has room for
    /// all of it. Returns whether it has; otherwise nothing is appended. Fails if out of memory.
    #[inline(always)]
    pub(crate) fn push_whole_fraction(
        &mut self,
        colored: bool,
        padding: u16,
        step: Step,
        done_at: Option<Step>,
        count: u16,
    ) -> Result<bool, AllocError>
        requires count { count ≡ length (fraction_of step done_at) }
        requires short { 1 + padding + count ≤ 65535 }
        ensures whole { IfOk result (λ whole. whole ≡ true
            → Appends self.old (after_padding padding (drawn_fraction colored step done_at))
            self.new) }
        ensures nothing { IfOk result (λ whole. whole ≡ false → self.new ≡ self.old) }
    {
        let columns = 1 + padding + count;
        match self.room {
            Room::Columns(left) if columns <= left => {
                self.bytes
                    .push_padded_fraction(colored, padding, step, done_at, count)?;
                self.width = self.width.saturating_add(columns);
                self.room = Room::Columns(left - columns);
                Ok(true)
            }
            _ => Ok(false),
        }
    }

    /// Appends a space, padding, values in their style if they are coloured, a space and a unit,
    /// which are printable ASCII characters, if the line has room for all of it. Returns whether it
    /// has; otherwise nothing is appended. Fails if out of memory.
    #[inline(always)]
    pub(crate) fn push_whole_pair(
        &mut self,
        colored: bool,
        padding: u16,
        values: &[u8],
        unit: &[u8],
    ) -> Result<bool, AllocError>
        requires values { is_printable values.now ≡ true }
        requires unit { is_printable unit.now ≡ true }
        requires some { 0 < length values.now }
        requires short { 2 + padding + length values.now + length unit.now ≤ 65535 }
        ensures whole { IfOk result (λ whole. whole ≡ true
            → Appends self.old (after_padding padding (drawn_texts colored values.now unit.now))
            self.new) }
        ensures nothing { IfOk result (λ whole. whole ≡ false → self.new ≡ self.old) }
    {
        let columns = 2 + padding + values.len() as u16 + unit.len() as u16;
        match self.room {
            Room::Columns(left) if columns <= left => {
                self.bytes.push_padded_pair(colored, padding, values, unit)?;
                self.width = self.width.saturating_add(columns);
                self.room = Room::Columns(left - columns);
                Ok(true)
            }
            _ => Ok(false),
        }
    }

    /// Appends `padding` spaces and then a drawn text, as one piece in this style if there is one.
    /// Fails if out of memory.
    pub(crate) fn push_indented(
        &mut self,
        style: Option<Style>,
        padding: u16,
        drawn: &DrawnText<'_>,
    ) -> Result<(), AllocError>
        requires { IsMeasured drawn.now }
        ensures { OnOk result (AppendsIndented style padding drawn.now self.old self.new) }
    {
        let (spaces, prefix, room) = fit_indented(self.room, padding, drawn.text, drawn.width);
        let style = style_of_length(style, usize::from(spaces) + prefix.len());
        self.open_style(style)?;
        self.bytes.push_copies(b' ', spaces)?;
        self.bytes.extend_from_slice(prefix.as_bytes())?;
        self.width = self
            .width
            .saturating_add(padding)
            .saturating_add(drawn.width);
        self.room = room;
        self.reset_style(style)?;
        Ok(())
    }

    /// Appends a progress without styles, if the line has room for all of it. Returns whether it
    /// has; otherwise nothing is appended. Fails if out of memory.
    #[inline(always)]
    pub(crate) fn push_progress(&mut self, progress: &PlainProgress<'_>) -> Result<bool, AllocError>
        requires columns { progress.now.columns ≡ text_length progress.now.text }
        requires within { progress.now.filled ≤ progress.now.cells }
        requires short { length_of progress.now ≤ 65535 }
        ensures { IfOk result (AppendsIfRoom self.old (progress_bytes progress.now) self.new) }
    {
        let count = progress.len();
        match self.room {
            Room::Columns(left) if count <= left => {
                self.bytes.push_progress(progress)?;
                self.width = self.width.saturating_add(count);
                self.room = Room::Columns(left - count);
                Ok(true)
            }
            _ => Ok(false),
        }
    }

    /// Appends at most 65535 printable ASCII characters, whose number is their width. Fails if out
    /// of memory.
    #[inline(always)]
    pub(crate) fn push_printable(&mut self, text: &[u8]) -> Result<(), AllocError>
        requires printable { is_printable text.now ≡ true }
        requires short { length text.now ≤ 65535 }
        ensures { OnOk result (Appends self.old (piece text.now ∷ []) self.new) }
    {
        let count = self.count_printable(text.len() as u16);
        self.push_prefix(text, count)?;
        Ok(())
    }

    /// Appends at most 65535 printable ASCII characters, in this style if there is one. Fails if
    /// out of memory.
    #[inline(always)]
    pub(crate) fn push_printable_in(
        &mut self,
        style: Option<Style>,
        text: &[u8],
    ) -> Result<(), AllocError>
        requires printable { is_printable text.now ≡ true }
        requires short { length text.now ≤ 65535 }
        ensures { OnOk result (Appends self.old (styled style text.now ∷ []) self.new) }
    {
        let written = self.count_printable(text.len() as u16);
        let style = style_of_length(style, usize::from(written));
        self.open_style(style)?;
        self.push_prefix(text, written)?;
        self.reset_style(style)?;
        Ok(())
    }

    /// Appends `indent` spaces and then at most 65535 printable ASCII characters, in this style if
    /// there is one. Fails if out of memory.
    #[inline(always)]
    pub(crate) fn push_printable_behind(
        &mut self,
        indent: u16,
        style: Option<Style>,
        text: &[u8],
    ) -> Result<(), AllocError>
        requires printable { is_printable text.now ≡ true }
        requires short { length text.now ≤ 65535 }
        ensures { OnOk result
            (Appends self.old (spaces indent ∷ styled style text.now ∷ []) self.new) }
    {
        if style.is_none() {
            let whole = self.push_whole_behind(indent, text)?;
            if whole {
                return Ok(());
            }
        }
        self.push_spaces(indent)?;
        self.push_printable_in(style, text)?;
        Ok(())
    }

    /// Appends `indent` spaces and then at most 65535 printable ASCII characters, if the line has room
    /// for all of them. Returns whether it has; otherwise nothing is appended. Fails if out of memory.
    #[inline(always)]
    fn push_whole_behind(&mut self, indent: u16, text: &[u8]) -> Result<bool, AllocError>
        requires { length text.now ≤ 65535 }
        ensures { IfOk result (AppendsIfRoom self.old (indented indent text.now) self.new) }
    {
        let count = usize::from(indent) + text.len();
        match self.room {
            Room::Columns(left) if count <= usize::from(left) => {
                self.bytes.push_indented(indent, text)?;
                self.width = self.width.saturating_add(count as u16);
                self.room = Room::Columns(left - count as u16);
                Ok(true)
            }
            _ => Ok(false),
        }
    }

    /// Adds a text of `length` printable ASCII characters to the width of the line, and returns how
    /// many of them are to be written.
    pub(crate) fn count_printable(&mut self, length: u16) -> u16
        ensures { Counts self.old length result self.new }
    {
        let (count, room) = fit_printable(self.room, length);
        self.width = self.width.saturating_add(length);
        self.room = room;
        count
    }

    /// Writes the first `count` bytes of a text that has been counted, and returns how many more
    /// bytes are to be written after it. Fails if out of memory.
    pub(crate) fn push_prefix(&mut self, text: &[u8], count: u16) -> Result<u16, AllocError>
        ensures bytes { OnOk result
            (self.new.bytes ≡ self.old.bytes ++ take count text.now) }
        ensures more { IfOk result (λ more. more ≡ count - length text.now) }
        ensures line { OnOk result (SameLine self.old self.new) }
    {
        if text.len() <= usize::from(count) {
            self.bytes.extend_from_slice(text)?;
            return Ok(count - text.len() as u16);
        }
        self.bytes.extend_from_slice(&text[..usize::from(count)])?;
        Ok(0)
    }

    /// Writes the first `limit` characters of a step, and of a slash and its bound if it has one,
    /// which are `count` characters and have been counted. Fails if out of memory.
    #[inline(always)]
    pub(crate) fn push_fraction(
        &mut self,
        step: Step,
        done_at: Option<Step>,
        count: u16,
        limit: u16,
    ) -> Result<(), AllocError>
        requires { count ≡ length (fraction_of step done_at) }
        ensures bytes { OnOk result
            (self.new.bytes ≡ self.old.bytes ++ take limit (fraction_of step done_at)) }
        ensures line { OnOk result (SameLine self.old self.new) }
    {
        if limit == 0 {
            Ok(())
        } else if count <= limit {
            self.bytes.push_fraction(step, done_at, count)
        } else {
            self.push_cut_fraction(step, done_at, limit)
        }
    }

    /// Does what `push_fraction` does where the line is cut.
    #[cold]
    #[inline(never)]
    fn push_cut_fraction(
        &mut self,
        step: Step,
        done_at: Option<Step>,
        limit: u16,
    ) -> Result<(), AllocError>
        ensures bytes { OnOk result
            (self.new.bytes ≡ self.old.bytes ++ take limit (fraction_of step done_at)) }
        ensures line { OnOk result (SameLine self.old self.new) }
    {
        let mut step_digits = Buffer::new();
        let mut bound_digits = Buffer::new();
        let step = step_digits.format(step);
        let (slash, bound) = format_bound(&mut bound_digits, done_at);
        let limit = self.push_prefix(step.as_bytes(), limit)?;
        let limit = self.push_prefix(slash.as_bytes(), limit)?;
        self.push_prefix(bound.as_bytes(), limit)?;
        Ok(())
    }

    /// Writes the first `limit` bytes of a run that has been counted: a byte `count` times and then
    /// another one. Returns how many more bytes are to be written after it. Fails if out of memory.
    #[inline(always)]
    pub(crate) fn push_run_prefix(
        &mut self,
        byte: u8,
        count: u16,
        last: u8,
        limit: u16,
    ) -> Result<u16, AllocError>
        ensures bytes { OnOk result
            (self.new.bytes ≡ self.old.bytes ++ take limit (run byte count last)) }
        ensures more { IfOk result (λ more. more ≡ limit - (count + 1)) }
        ensures line { OnOk result (SameLine self.old self.new) }
    {
        if count < limit {
            self.bytes.push_copies(byte, count)?;
            self.bytes.push(last)?;
            Ok(limit - count - 1)
        } else {
            self.bytes.push_copies(byte, limit)?;
            Ok(0)
        }
    }

    /// Appends a printable ASCII character `count` times, in this style if there is one. Fails if
    /// out of memory.
    #[inline(always)]
    pub(crate) fn push_repeated(
        &mut self,
        style: Option<Style>,
        character: u8,
        count: u16,
    ) -> Result<(), AllocError>
        requires low { 32 ≤ character }
        requires high { character ≤ 126 }
        ensures { OnOk result
            (Appends self.old (styled style (replicate count character) ∷ []) self.new) }
    {
        let count = self.count_printable(count);
        self.push_run(style, character, count)?;
        Ok(())
    }

    /// Writes a printable ASCII character that has been counted `count` times, in this style if
    /// there is one. Fails if out of memory.
    #[inline(always)]
    fn push_run(
        &mut self,
        style: Option<Style>,
        character: u8,
        count: u16,
    ) -> Result<(), AllocError>
        requires low { 32 ≤ character }
        requires high { character ≤ 126 }
        ensures bytes { OnOk result (self.new.bytes
            ≡ self.old.bytes ++ line_bytes (styled style (replicate count character) ∷ [])) }
        ensures line { OnOk result (SameLine self.old self.new) }
    {
        let style = style_of_length(style, usize::from(count));
        self.open_style(style)?;
        self.bytes.push_copies(character, count)?;
        self.reset_style(style)?;
        Ok(())
    }

    /// Appends a bar of `cells` cells in this style, of which the first `filled` are filled, if the
    /// line has room for all of it. Returns whether it has; otherwise nothing is appended. Fails if
    /// out of memory.
    pub(crate) fn push_whole_bar(
        &mut self,
        style: Style,
        cells: u16,
        filled: u16,
    ) -> Result<bool, AllocError>
        requires within { filled ≤ cells }
        requires short { cells ≤ 65531 }
        ensures whole { IfOk result (λ whole. whole ≡ true
            → Appends self.old (bar_with style cells filled) self.new) }
        ensures nothing { IfOk result (λ whole. whole ≡ false → self.new ≡ self.old) }
    {
        let columns = cells + (BRACKETS + ARROW);
        match self.room {
            Room::Columns(left) if columns <= left => {
                self.push_bar(style, cells, filled)?;
                self.width = self.width.saturating_add(columns);
                self.room = Room::Columns(left - columns);
                Ok(true)
            }
            _ => Ok(false),
        }
    }

    /// Writes a bar that has been counted, of `cells` cells in this style, of which the first
    /// `filled` are filled. Fails if out of memory.
    #[inline(always)]
    fn push_bar(&mut self, style: Style, cells: u16, filled: u16) -> Result<(), AllocError>
        requires { filled ≤ cells }
        ensures bytes { OnOk result
            (self.new.bytes ≡ self.old.bytes ++ line_bytes (bar_with style cells filled)) }
        ensures line { OnOk result (SameLine self.old self.new) }
    {
        match color_alone(style) {
            Some(color) => self
                .bytes
                .push_colored_bar(last_digit(color), cells, filled),
            None => {
                // with a copy: the style of a bar in a colour is then never in memory
                let copy = style;
                self.push_bar_in_parts(copy, cells, filled)
            }
        }
    }

    /// Does what `push_bar` does, part by part.
    #[inline(never)]
    fn push_bar_in_parts(&mut self, style: Style, cells: u16, filled: u16) -> Result<(), AllocError>
        requires { filled ≤ cells }
        ensures bytes { OnOk result
            (self.new.bytes ≡ self.old.bytes ++ line_bytes (bar_with style cells filled)) }
        ensures line { OnOk result (SameLine self.old self.new) }
    {
        self.bytes.extend_from_slice(b" [")?;
        self.push_run(Some(style), b'=', filled)?;
        self.push_run(Some(style), b'>', 1)?;
        self.push_run(Some(style.dimmed()), b'-', cells - filled)?;
        self.bytes.push(b']')?;
        Ok(())
    }

    /// Appends a printable ASCII character `count` times, without a style. Fails if out of memory.
    #[inline]
    fn push_copies(&mut self, character: u8, count: u16) -> Result<(), AllocError>
        requires low { 32 ≤ character }
        requires high { character ≤ 126 }
        ensures { OnOk result
            (Appends self.old (piece (replicate count character) ∷ []) self.new) }
    {
        let count = self.count_printable(count);
        self.bytes.push_copies(character, count)?;
        Ok(())
    }

    /// Begins a style, if there is one. Fails if out of memory.
    #[inline(always)]
    pub(crate) fn open_style(&mut self, style: Option<Style>) -> Result<(), AllocError>
        ensures bytes { OnOk result
            (self.new.bytes ≡ self.old.bytes ++ open_bytes style) }
        ensures line { OnOk result (SameLine self.old self.new) }
    {
        match style {
            Some(style) => push_open(&mut self.bytes, style),
            None => Ok(()),
        }
    }

    /// Ends a style, if there is one. Fails if out of memory.
    pub(crate) fn reset_style(&mut self, style: Option<Style>) -> Result<(), AllocError>
        ensures bytes { OnOk result
            (self.new.bytes ≡ self.old.bytes ++ reset_bytes style) }
        ensures line { OnOk result (SameLine self.old self.new) }
    {
        match style {
            Some(_) => push_reset(&mut self.bytes),
            None => Ok(()),
        }
    }

    /// Appends `count` spaces. Fails if out of memory.
    pub(crate) fn push_spaces(&mut self, count: u16) -> Result<(), AllocError>
        ensures { OnOk result (Appends self.old (spaces count ∷ []) self.new) }
    {
        self.push_copies(b' ', count)
    }

    /// Appends a space, and `padding` spaces as a piece of their own. Fails if out of memory.
    pub(crate) fn push_gap(&mut self, padding: u16) -> Result<(), AllocError>
        requires { padding < 65535 }
        ensures { OnOk result (Appends self.old (spaces 1 ∷ spaces padding ∷ []) self.new) }
    {
        self.push_copies(b' ', 1 + padding)?;
        Ok(())
    }

    /// Returns the width of the line so far as it is cut, in columns, at most 65535.
    fn cut_width(&self) -> u16
        ensures { IsCutWidth self.now result }
    {
        match self.limit {
            Some(columns) => columns.saturating_sub(self.room.columns_left()),
            None => self.width,
        }
    }

    /// Ends the line, which is written over one of this width: appends spaces up to where that one
    /// ended, then a line feed. Returns the width of the line as it is cut. Fails if out of memory.
    #[inline(always)]
    pub(crate) fn end_line_over(&mut self, width: u16) -> Result<u16, AllocError>
        ensures bytes { OnOk result (EndsOver self.old width self.new) }
        ensures width { IfOk result (IsCutWidth self.old) }
    {
        let own_width = self.cut_width();
        self.bytes
            .push_copies(b' ', width.saturating_sub(own_width))?;
        self.bytes.push(b'\n')?;
        Ok(own_width)
    }

    /// Appends what follows a line: `spaces` spaces and a line feed. Fails if out of memory.
    pub(crate) fn push_row_end(&mut self, spaces: u16) -> Result<(), AllocError>
        ensures { OnOk result (self.new.bytes ≡ self.old.bytes ++ row_end spaces) }
    {
        self.bytes.push_copies(b' ', spaces)?;
        self.bytes.push(b'\n')?;
        Ok(())
    }

    /// Swaps the bytes written since the buffer was last cleared with others.
    pub(crate) fn swap_bytes(&mut self, others: &mut ByteBuffer)
        ensures own { self.new.bytes ≡ others.old }
        ensures others { others.new ≡ self.old.bytes }
    {
        mem::swap(&mut self.bytes, others);
    }

    /// Takes the bytes written since the buffer was last cleared, which is empty then.
    pub(crate) fn take_bytes(&mut self) -> ByteBuffer
        ensures taken { result ≡ self.old.bytes }
        ensures none { self.new.bytes ≡ [] }
    {
        self.bytes.take()
    }

    /// Replaces the bytes written since the buffer was last cleared.
    pub(crate) fn set_bytes(&mut self, bytes: ByteBuffer)
        ensures { self.new.bytes ≡ bytes }
    {
        self.bytes = bytes;
    }

    /// Moves the bytes into the memory of another buffer, if it has more. Fails if out of memory.
    pub(crate) fn move_into(&mut self, other: ByteBuffer) -> Result<(), AllocError>
        ensures { OnOk result (self.new.bytes ≡ self.old.bytes) }
    {
        self.bytes.move_into(other)
    }

    /// Appends a sign after the lines. Fails if out of memory.
    pub(crate) fn push_sign(&mut self, sign: Sign) -> Result<(), AllocError>
        ensures { OnOk result (self.new.bytes ≡ self.old.bytes ++ spelling_of sign) }
    {
        push_sign(&mut self.bytes, sign)
    }
}

/// Returns the style that a text of `length` bytes is written in: `None` if it is empty.
pub(crate) fn style_of_length(style: Option<Style>, length: usize) -> Option<Style>
    ensures { result ≡ style_of_length style length }
{
    if length == 0 { None } else { style }
}

/// Returns the colour of a style that is a colour of the text alone; `None` of any other style.
#[inline(always)]
fn color_alone(style: Style) -> Option<Color>
    ensures { result ≡ color_alone style }
{
    if style.bold || style.dim || style.on_yellow {
        None
    } else {
        style.color
    }
}

/// Returns what follows the digits of a step: a slash and the digits of the bound, if there is one.
fn format_bound(digits: &mut Buffer, done_at: Option<Step>) -> (&'static str, &str)
    ensures text { FollowsStep done_at (result.0.now ++ result.1.now) }
    ensures slash { is_printable result.0.now ≡ true }
    ensures bound { is_printable result.1.now ≡ true }
    ensures short { length result.0.now + length result.1.now ≤ 41 }
{
    match done_at {
        Some(bound) => ("/", digits.format(bound)),
        None => ("", ""),
    }
}
