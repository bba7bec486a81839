//! The bytes that turn what a display shows into a grid.
//!
//! A private call that runs out of memory may have appended a part of its bytes, and leaves what
//! the buffer held before.
ghost use Rattle.std.specs.Prelude.{◌≡◌, true, ◌+◌, ◌^◌, ◌<◌, ◌≤◌, ◌∷◌, ◌++◌, length, map, min, take, None, IsOkUnless, OnErr, OnOk};
ghost use Rattle.prodash_base.specs.Appending.{IsPrefix};
ghost use Rattle.prodash_tui.specs.Cells.{plain};
ghost use Rattle.prodash_tui.specs.Frames.{difference, first_frame, motion, rows_signs, style_change};
ghost use Rattle.prodash_tui.specs.declared.sign.Sign.TheVariants.{Char};
ghost use Rattle.prodash_tui.specs.plumbing.BlankParts.{IsSameWithin};
ghost use Rattle.prodash_tui.specs.plumbing.Appended.{AreCounted, Spells, all_over_blank, begins_certain, begins_wide, changes_from, clearing_at, cursor_over_blank, cursor_past, cursor_past_row, first_signs, known_behind, signs_at, signs_of_row, signs_over_blank};

use crate::cell::Cell;
use crate::cursor::Cursor;
use crate::drawn_row::DrawnRow;
use crate::grid::Grid;
use crate::grid_row::{GridRow, Span};
use crate::packed::{PackedCell, blank_cell, is_half};
use crate::sign::{Sign, push_sign};
use crate::style::{Style, same_style};
use crate::text::is_certain;
use prodash_base::Refusal;
use std::alloc::AllocError;

/// How many cells are compared without a test of where the row ends.
const RUN: usize = 8;

/// Appends a motion to a row and column, unless the cursor is known to be there.
fn push_motion(
    out: &mut Vec<u8>,
    row: u16,
    column: u16,
    cursor: Option<Cursor>,
) -> Result<(), AllocError>
    ensures ok { Spells result out.old.items (motion row column cursor) out.new.items }
    ensures kept { IsPrefix out.old.items out.new.items }
{
    if let Some(cursor) = cursor {
        if cursor.row == row && cursor.column == column {
            return Ok(());
        }
    }
    push_sign(out, Sign::MoveTo(row, column))
}

/// Appends a style, unless it is known to be the present one.
fn push_style(out: &mut Vec<u8>, style: Style, cursor: Option<Cursor>) -> Result<(), AllocError>
    ensures ok { Spells result out.old.items (style_change style cursor) out.new.items }
    ensures kept { IsPrefix out.old.items out.new.items }
{
    if let Some(cursor) = cursor {
        if same_style(cursor.style, style) {
            return Ok(());
        }
    }
    push_sign(out, Sign::SetStyle(style))
}

/// Appends characters.
fn push_chars(out: &mut Vec<u8>, chars: &[char]) -> Result<(), AllocError>
    ensures ok { Spells result out.old.items (map Char chars.now) out.new.items }
    ensures kept { IsPrefix out.old.items out.new.items }
{
    for c in chars {
        push_sign(out, Sign::Char(*c))?;
    }
    Ok(())
}

/// Returns whether the cells begin with a character that has two of them.
fn begins_wide(cells: &[PackedCell]) -> bool
    ensures { result ≡ begins_wide cells.now }
{
    match cells.get(1) {
        Some(cell) => is_half(cell),
        None => false,
    }
}

/// Returns whether the cells begin with a character that every terminal shows in one column, and
/// that no other has joined.
fn begins_certain(cells: &[PackedCell]) -> bool
    ensures { result ≡ begins_certain cells.now }
{
    let Some(first) = cells.first() else {
        return false;
    };
    let Cell::Holds(c, joined, _) = first.get() else {
        return false;
    };
    if begins_wide(cells) {
        return false;
    }
    joined.as_slice().is_empty() && is_certain(c)
}

/// Appends blanks in the cells of the character that the cells begin with, which is in row `y` and
/// column `x`, and a motion back to it, unless every terminal shows it in one column. So nothing of
/// what was shown is left there if a terminal shows it in fewer columns.
fn push_clearing(out: &mut Vec<u8>, y: u16, x: u16, cells: &[PackedCell]) -> Result<(), AllocError>
    ensures ok { Spells result out.old.items (clearing_at y x cells.now) out.new.items }
    ensures kept { IsPrefix out.old.items out.new.items }
{
    if cells.is_empty() || begins_certain(cells) {
        return Ok(());
    }
    push_sign(out, Sign::Char(' '))?;
    if begins_wide(cells) {
        push_sign(out, Sign::Char(' '))?;
    }
    push_sign(out, Sign::MoveTo(y, x))
}

/// Appends a character and those that have joined it, over blanks unless every terminal shows it in
/// one column. The cells begin with it, and are in row `y` from column `x` on.
fn push_text(
    out: &mut Vec<u8>,
    y: u16,
    x: u16,
    cells: &[PackedCell],
    c: char,
    joined: &[char],
) -> Result<(), AllocError>
    ensures ok { Spells result out.old.items
        (clearing_at y x cells.now ++ map Char (c ∷ joined.now)) out.new.items }
    ensures kept { IsPrefix out.old.items out.new.items }
{
    push_clearing(out, y, x, cells)?;
    push_sign(out, Sign::Char(c))?;
    push_chars(out, joined)
}

/// Returns where the cursor is behind the character that the cells begin with, which is in row `y`
/// and column `x`, if every terminal shows that in one column.
fn known_behind(y: u16, x: u16, cells: &[PackedCell], style: Style) -> Option<Cursor>
    requires { x + length cells.now < 2 ^ 16 }
    ensures { result ≡ known_behind y x cells.now style }
{
    if !begins_certain(cells) {
        return None;
    }
    Some(Cursor {
        row: y,
        column: x + 1,
        style,
    })
}

/// Appends the character that the cells begin with, unless the cell before was the same. It is in
/// row `y` and column `x`. The cursor is then behind it, if it is known where that is.
fn push_changed(
    out: &mut Vec<u8>,
    y: u16,
    x: u16,
    old: &PackedCell,
    cells: &[PackedCell],
    cursor: &mut Option<Cursor>,
) -> Result<(), AllocError>
    requires { x + length cells.now < 2 ^ 16 }
    ensures ok { Spells result out.old.items (signs_at y x old.now cells.now cursor.old)
        out.new.items }
    ensures cursor { OnOk result
        (cursor.new ≡ cursor_past y x old.now cells.now cursor.old) }
    ensures kept { IsPrefix out.old.items out.new.items }
{
    let Some(new) = cells.first() else {
        return Ok(());
    };
    if old == new {
        return Ok(());
    }
    let Cell::Holds(c, joined, style) = new.get() else {
        return Ok(());
    };
    push_motion(out, y, x, *cursor)?;
    push_style(out, style, *cursor)?;
    push_text(out, y, x, cells, c, joined.as_slice())?;
    *cursor = known_behind(y, x, cells, style);
    Ok(())
}

/// Returns whether the `RUN` cells of two rows from column `x` on are the same.
#[inline(always)]
fn is_same_run(old: &[PackedCell], new: &[PackedCell], x: usize) -> bool
    requires old { x + RUN ≤ length old.now }
    requires new { x + RUN ≤ length new.now }
    ensures { result ≡ true
        → changes_from x old.now new.now ≡ changes_from (x + RUN) old.now new.now }
{
    for k in 0..RUN {
        if old[x + k] != new[x + k] {
            return false;
        }
    }
    true
}

/// Returns the first column from `x` up to `end` in which two rows differ, or `end`.
fn next_change(old: &[PackedCell], new: &[PackedCell], x: usize, end: usize) -> usize
    requires order { x ≤ end }
    requires old { end ≤ length old.now }
    requires new { end ≤ length new.now }
    ensures behind { x ≤ result }
    ensures within { result ≤ end }
    ensures same { changes_from x old.now new.now ≡ changes_from result old.now new.now }
{
    let mut k = x;
    while RUN <= end - k {
        if !is_same_run(old, new, k) {
            break;
        }
        k += RUN;
    }
    while k < end && old[k] == new[k] {
        k += 1;
    }
    k
}

/// Returns columns that are blank in both rows.
fn shared_blank(old: &GridRow, new: &GridRow) -> Span
    ensures { IsSameWithin (min (length old.now) (length new.now)) result old.now new.now }
{
    let (a, b) = (old.blank_part(), new.blank_part());
    let (first, last) = (a.first.max(b.first), a.last.min(b.last));
    if last < first {
        return Span { first: 0, last: 0 };
    }
    Span { first, last }
}

/// Returns the first column from `x` up to `end` in which two rows differ, or `end`. The columns of
/// `same`, in which they don't, are not compared.
fn next_change_outside(
    old: &[PackedCell],
    new: &[PackedCell],
    same: Span,
    x: usize,
    end: usize,
) -> usize
    requires order { x ≤ end }
    requires old { end ≤ length old.now }
    requires new { end ≤ length new.now }
    requires known { IsSameWithin end same old.now new.now }
    ensures behind { x ≤ result }
    ensures within { result ≤ end }
    ensures same { changes_from x old.now new.now ≡ changes_from result old.now new.now }
{
    if same.first < x {
        return next_change(old, new, x, end);
    }
    let k = next_change(old, new, x, same.first);
    if k < same.first {
        return k;
    }
    next_change(old, new, same.last, end)
}

/// Appends the characters of row `y` that aren't those of the row before. The columns of `same`
/// are not compared.
fn push_row(
    out: &mut Vec<u8>,
    y: u16,
    old: &[PackedCell],
    new: &[PackedCell],
    same: Span,
    cursor: &mut Option<Cursor>,
) -> Result<(), AllocError>
    requires few { length new.now < 2 ^ 16 }
    requires known { IsSameWithin (min (length old.now) (length new.now)) same old.now new.now }
    ensures ok { Spells result out.old.items (signs_of_row y old.now new.now cursor.old)
        out.new.items }
    ensures cursor { OnOk result (cursor.new ≡ cursor_past_row y old.now new.now cursor.old) }
    ensures kept { IsPrefix out.old.items out.new.items }
{
    let end = old.len().min(new.len());
    let mut k = next_change_outside(old, new, same, 0, end);
    while k < end {
        push_changed(out, y, k as u16, &old[k], &new[k..], cursor)?;
        k = next_change_outside(old, new, same, k + 1, end);
    }
    Ok(())
}

/// Appends the characters of rows that aren't those of the rows before.
fn push_rows(
    out: &mut Vec<u8>,
    old: &mut [DrawnRow],
    new: &mut [DrawnRow],
) -> Result<(), AllocError>
    requires { AreCounted new.old }
    ensures ok { Spells result out.old.items (rows_signs 0 old.old new.old None) out.new.items }
    ensures before { old.new ≡ old.old }
    ensures after { new.new ≡ new.old }
    ensures kept { IsPrefix out.old.items out.new.items }
{
    let mut cursor = None;
    for y in 0..old.len().min(new.len()) {
        let (before, after) = (old[y].cells(), new[y].cells());
        let same = shared_blank(before, after);
        push_row(
            out,
            y as u16,
            before.as_slice(),
            after.as_slice(),
            same,
            &mut cursor,
        )?;
    }
    Ok(())
}

/// Appends the characters of row `y` that aren't blank cells.
fn push_row_over_blank(
    out: &mut Vec<u8>,
    y: u16,
    new: &[PackedCell],
    cursor: &mut Option<Cursor>,
) -> Result<(), AllocError>
    requires { length new.now < 2 ^ 16 }
    ensures ok { Spells result out.old.items (signs_over_blank y new.now cursor.old)
        out.new.items }
    ensures cursor { OnOk result (cursor.new ≡ cursor_over_blank y new.now cursor.old) }
    ensures kept { IsPrefix out.old.items out.new.items }
{
    let blank = blank_cell();
    for k in 0..new.len() {
        push_changed(out, y, k as u16, &blank, &new[k..], cursor)?;
    }
    Ok(())
}

/// Appends the characters of rows that aren't blank cells.
fn push_rows_over_blank(out: &mut Vec<u8>, new: &mut [DrawnRow]) -> Result<(), AllocError>
    requires { AreCounted new.old }
    ensures ok { Spells result out.old.items (all_over_blank new.old) out.new.items }
    ensures after { new.new ≡ new.old }
    ensures kept { IsPrefix out.old.items out.new.items }
{
    let mut cursor = None;
    for y in 0..new.len() {
        let row = new[y].cells();
        push_row_over_blank(out, y as u16, row.as_slice(), &mut cursor)?;
    }
    Ok(())
}

/// Appends what erases a display, and then the characters of rows that aren't blank cells.
fn push_first_rows(out: &mut Vec<u8>, new: &mut [DrawnRow]) -> Result<(), AllocError>
    requires { AreCounted new.old }
    ensures ok { Spells result out.old.items (first_signs new.old) out.new.items }
    ensures after { new.new ≡ new.old }
    ensures kept { IsPrefix out.old.items out.new.items }
{
    push_sign(out, Sign::SetStyle(Style::new()))?;
    push_sign(out, Sign::EraseScreen)?;
    push_rows_over_blank(out, new)
}

/// Truncates the buffer to the length that it had before a call that appended to it, if that call
/// was refused. Returns what the call returned.
pub(crate) fn undo_if_refused(
    out: &mut Vec<u8>,
    length: usize,
    appended: Result<(), AllocError>,
) -> Result<(), AllocError>
    ensures same { result ≡ appended }
    ensures ok { OnOk result (out.new.items ≡ out.old.items) }
    ensures err { OnErr result (out.new.items ≡ take length out.old.items) }
{
    if appended.is_err() {
        out.truncate(length);
    }
    appended
}

/// Appends the bytes that turn a display that shows the grid `before` into one that shows `after`,
/// wherever its cursor is. Only characters that differ are written. Both grids have one size, and
/// stay as they are.
///
/// `Memory`: out of memory. The buffer is then as it was.
pub fn push_difference(
    before: &mut Grid,
    after: &mut Grid,
    out: &mut Vec<u8>,
) -> Result<(), Refusal>
    ensures ok { Spells result out.old.items (difference before.old after.old) out.new.items }
    ensures before { before.new ≡ before.old }
    ensures after { after.new ≡ after.old }
    ensures err { OnErr result (out.new.items ≡ out.old.items) }
    ensures reason { IsOkUnless result Refusal.Memory }
{
    let length = out.len();
    let appended = push_rows(out, &mut before.rows, &mut after.rows);
    undo_if_refused(out, length, appended)?;
    Ok(())
}

/// Appends the bytes that erase a display of the grid's size, whatever it shows, and draw the grid,
/// which stays as it is.
///
/// `Memory`: out of memory. The buffer is then as it was.
pub fn push_first(after: &mut Grid, out: &mut Vec<u8>) -> Result<(), Refusal>
    ensures ok { Spells result out.old.items (first_frame after.old) out.new.items }
    ensures after { after.new ≡ after.old }
    ensures err { OnErr result (out.new.items ≡ out.old.items) }
    ensures reason { IsOkUnless result Refusal.Memory }
{
    let length = out.len();
    let appended = push_first_rows(out, &mut after.rows);
    undo_if_refused(out, length, appended)?;
    Ok(())
}
