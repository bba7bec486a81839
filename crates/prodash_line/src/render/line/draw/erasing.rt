//! Frames that erase the rows that they write on.
ghost use Rattle.std.specs.Prelude.{◌≡◌, OnOk};
ghost use Rattle.prodash_line.specs.Frames.{row_start, lines_start, left_over, erased_rows};
ghost use Rattle.prodash_line.specs.plumbing.FrameWriting.{AppendsSigns, StartsMessages, action_start, action_end, redraw_end};

use crate::render::line::draw::action::Action;
use crate::render::line::draw::frame::push_up;
use crate::render::line::draw::layout::Layout;
use crate::render::line::draw::line_writer::LineWriter;
use crate::render::line::page::Sign;
use std::alloc::AllocError;

/// Begins an update if frames are synchronized, moves the cursor to the beginning of its row, and
/// turns wrapping off unless messages are written whole, if a frame with this action erases rows.
pub(crate) fn start_frame(
    out: &mut LineWriter,
    layout: Layout,
    action: Action,
) -> Result<(), AllocError>
    ensures { OnOk result (AppendsSigns out.old (action_start layout action) out.new) }
{
    match (layout, action) {
        (Layout::Overwriting, _) | (_, Action::Leave) => Ok(()),
        (
            Layout::Erasing {
                synchronized,
                whole_messages,
                ..
            },
            _,
        ) => {
            if synchronized {
                out.push_sign(Sign::BeginUpdate)?;
            }
            out.push_sign(Sign::CarriageReturn)?;
            if !whole_messages {
                out.push_sign(Sign::NoWrap)?;
            }
            Ok(())
        }
    }
}

/// Turns wrapping on and blanks the rows that messages may go on in, if there are any messages and
/// they are written whole. The rows below the cursor's are erased from the next row on, since some
/// terminals keep what is erased in the window's first row.
pub(crate) fn start_messages(
    out: &mut LineWriter,
    layout: Layout,
    has_messages: bool,
) -> Result<(), AllocError>
    ensures { OnOk result (StartsMessages layout has_messages out.old out.new) }
{
    match layout {
        Layout::Erasing {
            height,
            whole_messages,
            ..
        } if has_messages && whole_messages => {
            out.push_sign(Sign::Wrap)?;
            out.push_sign(Sign::EraseLine)?;
            if height > 1 {
                out.push_sign(Sign::LineFeed)?;
                out.push_sign(Sign::EraseBelow)?;
                out.push_sign(Sign::Up(1))?;
            }
            Ok(())
        }
        _ => Ok(()),
    }
}

/// Turns wrapping off before drawn lines, if messages are written whole.
pub(crate) fn start_lines(out: &mut LineWriter, layout: Layout) -> Result<(), AllocError>
    ensures { OnOk result (AppendsSigns out.old (lines_start layout) out.new) }
{
    if layout.prints_whole() {
        out.push_sign(Sign::NoWrap)?;
    }
    Ok(())
}

/// Turns wrapping on again and ends an update that was begun, if a frame with this action erases
/// rows.
pub(crate) fn end_frame(
    out: &mut LineWriter,
    layout: Layout,
    action: Action,
) -> Result<(), AllocError>
    ensures { OnOk result (AppendsSigns out.old (action_end layout action) out.new) }
{
    match (layout, action) {
        (Layout::Overwriting, _) | (_, Action::Leave) => Ok(()),
        (Layout::Erasing { synchronized, .. }, _) => {
            out.push_sign(Sign::Wrap)?;
            if synchronized {
                out.push_sign(Sign::EndUpdate)?;
            }
            Ok(())
        }
    }
}

/// Erases the row of the next line, if frames erase the rows that they write on.
pub(crate) fn start_row(out: &mut LineWriter, layout: Layout) -> Result<(), AllocError>
    ensures { OnOk result (AppendsSigns out.old (row_start layout) out.new) }
{
    match layout {
        Layout::Overwriting => Ok(()),
        Layout::Erasing { .. } => out.push_sign(Sign::EraseLine),
    }
}

/// Ends a redraw of `drawn` lines in a window of this height: erases the rows of the lines on
/// screen that are left over, as far as the window goes, and everything below, and moves the cursor
/// up to the first line.
pub(crate) fn finish_erasing(
    out: &mut LineWriter,
    height: u16,
    on_screen: usize,
    drawn: usize,
) -> Result<(), AllocError>
    ensures { OnOk result (AppendsSigns out.old (redraw_end height on_screen drawn) out.new) }
{
    let rest = left_over(height, on_screen, drawn);
    erase_rows(out, rest)?;
    out.push_sign(Sign::EraseBelow)?;
    push_up(out, drawn + rest)?;
    Ok(())
}

/// Returns how many rows are erased below `drawn` lines if `on_screen` lines are on screen: one for
/// each line that is left over, but none in or below the window's last row.
fn left_over(height: u16, on_screen: usize, drawn: usize) -> usize
    ensures { result ≡ left_over height on_screen drawn }
{
    let above_last = usize::from(height).saturating_sub(1);
    on_screen
        .saturating_sub(drawn)
        .min(above_last.saturating_sub(drawn))
}

/// Erases `count` rows, from the cursor's on, and moves the cursor to the row below them.
fn erase_rows(out: &mut LineWriter, count: usize) -> Result<(), AllocError>
    ensures { OnOk result (AppendsSigns out.old (erased_rows count) out.new) }
{
    for _ in 0..count {
        out.push_sign(Sign::EraseLine)?;
        out.push_sign(Sign::LineFeed)?;
    }
    Ok(())
}
