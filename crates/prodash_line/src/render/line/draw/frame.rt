//! Frames: the lines of messages and rows, written over the lines on screen.
ghost use Rattle.std.specs.Prelude.{◌≡◌, ℕ, true, None, List, [], ◌++◌, drop, OnOk, IfOk, IsOkUnless};
ghost use Rattle.prodash_line.specs.declared.render.line.draw.action.Action.TheVariants.{Redraw};
ghost use Rattle.prodash_line.specs.Frames.{first_width, redraw, cursor_up};
ghost use Rattle.prodash_line.specs.DrawnLines.{prefers_running};
ghost use Rattle.prodash_line.specs.Renderer.{ending_of, latest_rows};
ghost use Rattle.prodash_line.specs.plumbing.FrameWriting.{HasKept, bytes_in, closing_signs, closing_bytes, Composes, AppendsSigns, AppendsBody, AppendsRedraw, BeginsFrame, FinishesRedraw, LeftBy, LeftByTick, LeftByAction, AddsOrigins, DrawsFitting, WritesMessages, WritesRow, WritesChosen, WritesFitting, SplitsScene, DrawsFirst, DrawsRowOf, DrawsChosen, WritesLine, IsSizeIn, KeepsOf, KeepsLinesOf, RowsStay, Extends, resize_to};
ghost use Rattle.prodash_line.specs.plumbing.EarlierRows.{ComposesTick, KeepsEarlier, KeepsLatest, LatestStay, LeftAfter};
ghost use Rattle.prodash_line.specs.plumbing.LineCopying.{HasLeft, Writes};
ghost use Rattle.prodash_line.specs.plumbing.WrittenRows.{WritesRows};
ghost use Rattle.prodash_line.specs.Tracking.{kept_of};
ghost use Rattle.prodash_line.specs.plumbing.Observing.{ObservesScene};
ghost use Rattle.prodash_line.specs.plumbing.OverwriteBytes.{blank_bytes};
ghost use Rattle.prodash_base.specs.Rows.{row_of};

use crate::render::line::draw::action::{Action, Composed, Drawn};
use crate::render::line::draw::drawn_text::drawn_text;
use crate::render::line::draw::earlier_rows::EarlierRows;
use crate::render::line::draw::erasing::{
    end_frame, finish_erasing, start_frame, start_lines, start_messages, start_row,
};
use crate::render::line::draw::input::Options;
use crate::render::line::draw::latest_rows::{KeptLines, LineSize, RowLine, RowsBefore, keep_line};
use crate::render::line::draw::layout::Layout;
use crate::render::line::draw::line_copier::{LineCopier, NextRow};
use crate::render::line::draw::line_writer::LineWriter;
use crate::render::line::draw::message::{greatest_width, push_message};
use crate::render::line::draw::more::{count_drawn, split_fitting, write_hidden, write_more};
use crate::render::line::draw::rank::{quotas_for, rank_of};
use crate::render::line::draw::row::{Measured, RowTexts, is_row_drawn, push_row};
use crate::render::line::draw::state::{Past, keep_latest};
use crate::render::line::draw::tracker::{begin_observing, observe_row};
use crate::render::line::page::Sign;
use prodash_base::Refusal;
use prodash_base::messages::{Message, MessageCopyState, Messages};
use prodash_base::progress::Row;
use prodash_base::throughput::FrameThroughput;
use prodash_base::time::Moment;
use prodash_base::timing::Timer;
use prodash_base::unit::display::Throughput;
use std::alloc::{AllocError, Global};

/// What the body of a frame is drawn from.
#[derive(Clone, Copy, Drop)]
struct Scene<'a> {
    past: &'a Past,
    /// The options, with the size of the terminal that the frame is drawn for.
    options: Options,
    /// The time of the frame.
    at: Moment,
    /// The timer of their tasks, if times are shown.
    timer: &'a Option<Timer>,
    /// The rows that are drawn if the frame draws any.
    rows: &'a [Row],
    /// The rows of the frame before.
    before: RowsBefore<'a>,
}

/// Composes the frame of a tick with a root: the messages over the lines on screen, then the rows
/// over those that are left, if they are drawn; or blanks, if the tick closes the renderer. Its rows
/// are remembered already, and `seen` has what was remembered before in their place. Fails if out
/// of memory.
pub(crate) fn compose_tick(
    out: &mut LineWriter,
    past: &Past,
    tracker: &mut Option<FrameThroughput>,
    at: Moment,
    show: bool,
    seen: &(EarlierRows, Messages, MessageCopyState),
    kept: &mut KeptLines,
) -> Result<Composed, Refusal>
    requires { KeepsEarlier seen.now.0 kept.old (latest_rows past.now.last_rows) }
    ensures bytes { OnOk result
        (ComposesTick past.now tracker.old at show seen.now out.new) }
    ensures state { IfOk result
        (LeftAfter past.now tracker.old at show seen.now tracker.new) }
    ensures lines { IfOk result (λ frame. KeepsLatest past.now out.new frame.drawn) }
    ensures rows { IfOk result (LatestStay past.now seen.now.0) }
    ensures earlier { KeepsEarlier seen.now.0 kept.new (latest_rows past.now.last_rows) }
    ensures kept { kept_of tracker.new ≡ kept_of tracker.old }
    ensures reason { IsOkUnless result Refusal.Memory }
{
    let alloc = *past.widths.allocator();
    let (_, height) = past.options.terminal_dimensions;
    let layout = past.options.layout();
    let (rows, messages) = (past.latest_rows(), seen.1.as_slice());
    let has_messages = !messages.is_empty();
    let action = past.tick_action(&seen.0, show, has_messages);
    let rows_stay = past.rows_stay(action, show);
    let kept = kept.take_for(alloc, action);
    begin_frame(out, past, layout, action)?;
    start_messages(out, layout, has_messages)?;
    let mut origin_widths = Vec::from_slice(alloc, &past.origin_widths)?;
    write_messages(
        alloc,
        out,
        &past.options,
        &mut origin_widths,
        layout.covered_widths(&past.widths),
        messages,
    )?;
    keep_latest(&mut origin_widths, usize::from(height));
    let left = widths_below(&past.widths, messages.len());
    let timer = past.timer_after(alloc, at, rows)?;
    let scene = Scene {
        past,
        options: past.options,
        at,
        timer: &timer,
        rows,
        before: past.rows_before(&seen.0),
    };
    let drawn = write_body(alloc, out, tracker, &scene, kept, action, left)?;
    end_frame(out, layout, action)?;
    Ok(Composed {
        drawn,
        origin_widths,
        timer,
        rows_stay,
    })
}

/// Composes the closing frame without messages. Fails if out of memory.
pub(crate) fn compose_closing(out: &mut LineWriter, past: &Past) -> Result<(), AllocError>
    ensures { OnOk result (out.new.bytes ≡ closing_bytes past.now) }
{
    let layout = past.options.layout();
    begin_frame(out, past, layout, Action::Close)?;
    write_closing(out, past, layout, &past.widths)?;
    end_frame(out, layout, Action::Close)?;
    Ok(())
}

/// Composes the frame of a resize: the rows of the latest tick at the new size, if they are shown
/// on a terminal. Fails if out of memory.
pub(crate) fn compose_resized(
    alloc: Global,
    out: &mut LineWriter,
    past: &Past,
    tracker: &mut Option<FrameThroughput>,
    at: Moment,
    size: (u16, u16),
    show: bool,
) -> Result<Drawn, Refusal>
    ensures bytes { OnOk result (Composes past.now tracker.old (resize_to at show size) out.new) }
    ensures state { IfOk result (LeftBy past.now tracker.old (resize_to at show size) tracker.new) }
    ensures kept { kept_of tracker.new ≡ kept_of tracker.old }
    ensures reason { IsOkUnless result Refusal.Memory }
{
    let options = Options {
        terminal_dimensions: size,
        ..past.options
    };
    let layout = options.layout();
    let action = past.resize_action(show);
    begin_frame(out, past, layout, action)?;
    let scene = Scene {
        past,
        options,
        at,
        timer: &past.timer,
        rows: past.latest_rows(),
        before: RowsBefore::none(),
    };
    let kept = KeptLines::new(alloc, options);
    let drawn = write_body(alloc, out, tracker, &scene, kept, action, &past.widths)?;
    end_frame(out, layout, action)?;
    Ok(drawn)
}

/// Begins a frame with this action: empties the buffer, hides the cursor if this frame is to hide
/// it, and moves it to the beginning of its row if the frame erases rows.
fn begin_frame(
    out: &mut LineWriter,
    past: &Past,
    layout: Layout,
    action: Action,
) -> Result<(), AllocError>
    ensures { OnOk result (BeginsFrame past.now layout action out.new) }
{
    out.clear();
    if past.hides_cursor() {
        out.push_sign(Sign::HideCursor)?;
    }
    start_frame(out, layout, action)?;
    Ok(())
}

/// Writes what a frame does after its messages, over the lines that are left on screen.
fn write_body(
    alloc: Global,
    out: &mut LineWriter,
    tracker: &mut Option<FrameThroughput>,
    scene: &Scene<'_>,
    mut kept: KeptLines,
    action: Action,
    left: &[u16],
) -> Result<Drawn, Refusal>
    requires kept { HasKept scene.now kept }
    ensures bytes { OnOk result
        (AppendsBody action scene.now tracker.old left.now out.old out.new) }
    ensures state { IfOk result
        (LeftByAction action scene.now tracker.old left.now tracker.new) }
    ensures lines { IfOk result (KeepsLinesOf scene.now out.new) }
    ensures kept { kept_of tracker.new ≡ kept_of tracker.old }
    ensures reason { IsOkUnless result Refusal.Memory }
{
    let midpoint = scene.past.midpoint();
    match action {
        Action::Leave => Ok(Drawn {
            widths: Vec::from_slice(alloc, left)?,
            midpoint,
            rows_erased: scene.past.rows_erased(),
            action,
            lines: Vec::new(alloc),
        }),
        Action::Redraw => redraw_rows(alloc, out, tracker, scene, &mut kept, left),
        Action::Erase => {
            write_no_rows(out, scene.options.layout(), left)?;
            Ok(Drawn {
                widths: Vec::new(alloc),
                midpoint,
                rows_erased: true,
                action,
                lines: Vec::new(alloc),
            })
        }
        Action::Close => {
            write_closing(out, scene.past, scene.options.layout(), left)?;
            Ok(Drawn {
                widths: Vec::new(alloc),
                midpoint,
                rows_erased: scene.past.rows_erased(),
                action,
                lines: Vec::new(alloc),
            })
        }
    }
}

/// Writes a redraw of no rows: the lines on screen are blanked, and the cursor is back at the
/// first.
fn write_no_rows(out: &mut LineWriter, layout: Layout, widths: &[u16]) -> Result<(), AllocError>
    ensures { OnOk result (AppendsSigns out.old (redraw layout widths.now []) out.new) }
{
    start_lines(out, layout)?;
    finish_redraw(out, layout, widths, 0)?;
    Ok(())
}

/// Writes the end of a closing frame: the lines on screen are blanked, and the cursor is back at
/// the first; it is shown if it is hidden, and the row of the first line is erased if it wasn't.
fn write_closing(
    out: &mut LineWriter,
    past: &Past,
    layout: Layout,
    widths: &[u16],
) -> Result<(), AllocError>
    ensures { OnOk result
        (AppendsSigns out.old (closing_signs layout past.now widths.now) out.new) }
{
    write_no_rows(out, layout, widths)?;
    write_ending(out, past)?;
    Ok(())
}

/// Writes the signs that end a closing frame.
fn write_ending(out: &mut LineWriter, past: &Past) -> Result<(), AllocError>
    ensures { OnOk result (AppendsSigns out.old (ending_of past.now) out.new) }
{
    if past.is_cursor_hidden() {
        out.push_sign(Sign::ShowCursor)?;
    }
    if past.erases_at_end() {
        out.push_sign(Sign::EraseLine)?;
        out.push_sign(Sign::CarriageReturn)?;
    }
    Ok(())
}

/// Writes the lines of messages over the lines on screen. The width of each origin is added to
/// those of earlier origins, and the origin is aligned to the greatest of them.
fn write_messages(
    alloc: Global,
    out: &mut LineWriter,
    options: &Options,
    origin_widths: &mut Vec<u16>,
    widths: &[u16],
    messages: &[Message],
) -> Result<(), Refusal>
    ensures bytes { OnOk result
        (WritesMessages options.now origin_widths.old widths.now messages.now out.old out.new) }
    ensures origins { OnOk result
        (AddsOrigins options.now messages.now origin_widths.old origin_widths.new) }
    ensures reason { IsOkUnless result Refusal.Memory }
{
    let layout = options.layout().of_messages();
    let mut replaced_origin = String::new(alloc);
    let mut replaced = String::new(alloc);
    let mut left = widths;
    let mut greatest = greatest_width(origin_widths);
    for message in messages {
        let (width, others) = split_first_width(left);
        let origin = message.origin.as_str();
        let origin = drawn_text(options.defensive, origin, &mut replaced_origin)?;
        greatest = greatest.max(origin.width);
        start_row(out, layout)?;
        push_message(
            alloc,
            out,
            &mut replaced,
            options,
            greatest,
            &origin,
            message,
        )?;
        out.end_line_over(width)?;
        origin_widths.push(origin.width)?;
        left = others;
    }
    Ok(())
}

/// Redraws the rows of a scene: writes the lines of those that fit over the lines on screen and the
/// line that says how many are hidden, blanks the lines that are left over, and moves the cursor
/// back up.
fn redraw_rows(
    alloc: Global,
    out: &mut LineWriter,
    tracker: &mut Option<FrameThroughput>,
    scene: &Scene<'_>,
    kept: &mut KeptLines,
    widths: &[u16],
) -> Result<Drawn, Refusal>
    requires kept { HasKept scene.now kept.old }
    ensures bytes { OnOk result
        (AppendsRedraw scene.now tracker.old widths.now out.old out.new) }
    ensures state { IfOk result
        (LeftByAction Redraw scene.now tracker.old widths.now tracker.new) }
    ensures lines { IfOk result (KeepsLinesOf scene.now out.new) }
    ensures kept { kept_of tracker.new ≡ kept_of tracker.old }
    ensures reason { IsOkUnless result Refusal.Memory }
{
    let layout = scene.options.layout();
    let mut drawn = Drawn {
        widths: Vec::with_capacity(alloc, scene.rows.len())?,
        midpoint: 0,
        rows_erased: false,
        action: Action::Redraw,
        lines: Vec::new(alloc),
    };
    begin_observing(tracker, scene.at);
    start_lines(out, layout)?;
    drawn.lines = write_fitting(alloc, out, tracker, &mut drawn, scene, kept, widths)?;
    finish_redraw(out, layout, widths, drawn.widths.len())?;
    Ok(drawn)
}

/// Writes the lines of the rows that are drawn and fit over the lines on screen, and the line that
/// says how many are hidden. Observes all rows that pass the filter.
fn write_fitting(
    alloc: Global,
    out: &mut LineWriter,
    tracker: &mut Option<FrameThroughput>,
    drawn: &mut Drawn,
    scene: &Scene<'_>,
    kept: &mut KeptLines,
    widths: &[u16],
) -> Result<Vec<RowLine>, Refusal>
    requires kept { HasKept scene.now kept.old }
    ensures bytes { OnOk result
        (WritesFitting scene.now tracker.old widths.now out.old out.new) }
    ensures drawn { OnOk result (DrawsFitting scene.now tracker.old drawn.old drawn.new) }
    ensures observed { OnOk result (ObservesScene scene.now tracker.old tracker.new) }
    ensures lines { IfOk result (KeepsOf scene.now scene.now.rows.now out.new) }
    ensures kept { kept_of tracker.new ≡ kept_of tracker.old }
    ensures reason { IsOkUnless result Refusal.Memory }
{
    let options = &scene.options;
    let parts = split_fitting(options.layout(), options.level_filter, scene.rows);
    if options.prefers_running() && !parts.1.is_empty() {
        write_preferred(alloc, out, tracker, drawn, scene, parts)?;
        Ok(Vec::new(alloc))
    } else {
        write_first(out, tracker, drawn, scene, kept, widths, parts)
    }
}

/// Does what `write_fitting` does if rows of running tasks aren't preferred, or all rows fit.
/// `parts` are the rows up to the last one that is drawn and fits, and the others.
#[inline(always)]
fn write_first(
    out: &mut LineWriter,
    tracker: &mut Option<FrameThroughput>,
    drawn: &mut Drawn,
    scene: &Scene<'_>,
    kept: &mut KeptLines,
    widths: &[u16],
    parts: (&[Row], &[Row]),
) -> Result<Vec<RowLine>, Refusal>
    requires kept { HasKept scene.now kept.old }
    requires split { SplitsScene scene.now parts.0.now parts.1.now }
    requires first { DrawsFirst scene.now.options parts.1.now }
    ensures bytes { OnOk result
        (WritesFitting scene.now tracker.old widths.now out.old out.new) }
    ensures drawn { OnOk result (DrawsFitting scene.now tracker.old drawn.old drawn.new) }
    ensures observed { OnOk result (ObservesScene scene.now tracker.old tracker.new) }
    ensures lines { IfOk result (KeepsOf scene.now scene.now.rows.now out.new) }
    ensures kept { kept_of tracker.new ≡ kept_of tracker.old }
    ensures reason { IsOkUnless result Refusal.Memory }
{
    let (shown, others) = parts;
    let options = &scene.options;
    let layout = options.layout();
    let covered = layout.covered_widths(widths);
    let alloc = *drawn.widths.allocator();
    let lines = write_shown(out, tracker, drawn, scene, kept, covered, shown)?;
    write_more(alloc, out, tracker, drawn, options, others)?;
    Ok(lines)
}

/// Does what `write_fitting` does if rows of running tasks are preferred. `parts` are the rows up
/// to the last one of as many as fit, and the others.
fn write_preferred(
    alloc: Global,
    out: &mut LineWriter,
    tracker: &mut Option<FrameThroughput>,
    drawn: &mut Drawn,
    scene: &Scene<'_>,
    parts: (&[Row], &[Row]),
) -> Result<(), Refusal>
    requires split { SplitsScene scene.now parts.0.now parts.1.now }
    requires preferred { prefers_running scene.now.options ≡ true }
    ensures bytes { (widths : List ℕ) → OnOk result
        (WritesFitting scene.now tracker.old widths out.old out.new) }
    ensures drawn { OnOk result (DrawsFitting scene.now tracker.old drawn.old drawn.new) }
    ensures observed { OnOk result (ObservesScene scene.now tracker.old tracker.new) }
    ensures kept { kept_of tracker.new ≡ kept_of tracker.old }
    ensures reason { IsOkUnless result Refusal.Memory }
{
    let (first, others) = parts;
    let most = count_drawn(scene.options.level_filter, first);
    write_chosen(alloc, out, tracker, drawn, scene, most)?;
    write_hidden(out, drawn, &scene.options, others)?;
    Ok(())
}

/// Writes the lines of as many rows, those of running tasks before others, each on a row of the
/// terminal that is erased first. Adds their widths to those that are drawn, and observes all rows
/// that pass the filter.
fn write_chosen(
    alloc: Global,
    out: &mut LineWriter,
    tracker: &mut Option<FrameThroughput>,
    drawn: &mut Drawn,
    scene: &Scene<'_>,
    most: usize,
) -> Result<(), Refusal>
    ensures bytes { OnOk result (WritesChosen scene.now most tracker.old out.old out.new) }
    ensures drawn { OnOk result (DrawsChosen scene.now most tracker.old drawn.old drawn.new) }
    ensures observed { OnOk result (ObservesScene scene.now tracker.old tracker.new) }
    ensures kept { kept_of tracker.new ≡ kept_of tracker.old }
    ensures reason { IsOkUnless result Refusal.Memory }
{
    let (rows, levels) = (scene.rows, scene.options.level_filter);
    let mut quotas = quotas_for(levels, rows, most);
    let mut texts = RowTexts::new(alloc);
    for (n, row) in rows.iter().enumerate() {
        if !is_row_drawn(levels, row) {
            continue;
        }
        let throughput = observe_row(alloc, tracker, row)?;
        if quotas.take(rank_of(levels, row, &rows[n + 1..])) {
            let measured = Measured {
                throughput,
                timer: scene.timer,
                at: scene.at,
            };
            write_row(out, &mut texts, drawn, scene, row, measured)?;
        }
    }
    Ok(())
}

/// Writes the line of a row over no line, and adds its width to those that are drawn.
#[inline(never)]
fn write_row(
    out: &mut LineWriter,
    texts: &mut RowTexts,
    drawn: &mut Drawn,
    scene: &Scene<'_>,
    row: &Row,
    measured: Measured<'_>,
) -> Result<(), Refusal>
    ensures bytes { OnOk result (WritesRow scene.now row.now measured.entry out.old out.new) }
    ensures drawn { OnOk result (DrawsRowOf scene.now row.now measured.entry drawn.old drawn.new) }
    ensures reason { IsOkUnless result Refusal.Memory }
{
    let midpoint = scene.past.midpoint();
    let own_midpoint = push_row(out, texts, &scene.options, midpoint, row, measured)?;
    drawn.midpoint = drawn.midpoint.max(own_midpoint);
    drawn.widths.push(out.end_line_over(0)?)?;
    Ok(())
}

/// Writes the lines of the rows that are drawn over the lines on screen. Adds their widths to
/// those that are drawn, and observes each row.
fn write_rows(
    alloc: Global,
    out: &mut LineWriter,
    tracker: &mut Option<FrameThroughput>,
    drawn: &mut Drawn,
    scene: &Scene<'_>,
    widths: &[u16],
    rows: &[Row],
) -> Result<(), Refusal>
    ensures written { OnOk result (WritesRows scene.now widths.now rows.now out.old tracker.old
        drawn.old out.new tracker.new drawn.new) }
    ensures kept { kept_of tracker.new ≡ kept_of tracker.old }
    ensures reason { IsOkUnless result Refusal.Memory }
{
    let midpoint = scene.past.midpoint();
    let options = &scene.options;
    let mut texts = RowTexts::new(alloc);
    let mut left = widths;
    for row in rows {
        if !is_row_drawn(options.level_filter, row) {
            continue;
        }
        let (old_width, others) = split_first_width(left);
        let throughput = observe_row(alloc, tracker, row)?;
        let measured = Measured {
            throughput,
            timer: scene.timer,
            at: scene.at,
        };
        let own_midpoint = push_row(out, &mut texts, options, midpoint, row, measured)?;
        drawn.midpoint = drawn.midpoint.max(own_midpoint);
        drawn.widths.push(out.end_line_over(old_width)?)?;
        left = others;
    }
    Ok(())
}

/// Does what `write_rows` does, and returns the lines that the next frame may copy. Lines that are kept
/// are copied, unless most rows have changed.
fn write_shown(
    out: &mut LineWriter,
    tracker: &mut Option<FrameThroughput>,
    drawn: &mut Drawn,
    scene: &Scene<'_>,
    kept: &mut KeptLines,
    widths: &[u16],
    rows: &[Row],
) -> Result<Vec<RowLine>, Refusal>
    requires kept { HasKept scene.now kept.old }
    ensures written { OnOk result (WritesRows scene.now widths.now rows.now out.old tracker.old
        drawn.old out.new tracker.new drawn.new) }
    ensures lines { IfOk result (KeepsOf scene.now rows.now out.new) }
    ensures kept { kept_of tracker.new ≡ kept_of tracker.old }
    ensures reason { IsOkUnless result Refusal.Memory }
{
    if scene.timer.is_some() || !scene.before.resemble(rows) {
        out.move_into(kept.take_bytes())?;
        let alloc = *drawn.widths.allocator();
        write_rows(alloc, out, tracker, drawn, scene, widths, rows)?;
        return Ok(Vec::new(alloc));
    }
    write_again(out, tracker, drawn, scene, kept, widths, rows)
}

/// Does what `write_rows` does where no times are shown, and returns the lines that the next frame
/// may copy. The line of a row that was drawn alike is copied, and those of rows that follow one
/// another are copied at once.
#[inline(never)]
fn write_again(
    out: &mut LineWriter,
    tracker: &mut Option<FrameThroughput>,
    drawn: &mut Drawn,
    scene: &Scene<'_>,
    kept: &mut KeptLines,
    widths: &[u16],
    rows: &[Row],
) -> Result<Vec<RowLine>, Refusal>
    requires timer { scene.now.timer.now ≡ None }
    requires kept { HasKept scene.now kept.old }
    ensures written { OnOk result (WritesRows scene.now widths.now rows.now out.old tracker.old
        drawn.old out.new tracker.new drawn.new) }
    ensures lines { IfOk result (KeepsOf scene.now rows.now out.new) }
    ensures kept { kept_of tracker.new ≡ kept_of tracker.old }
    ensures reason { IsOkUnless result Refusal.Memory }
{
    let alloc = *drawn.widths.allocator();
    let options = &scene.options;
    let are_alike = kept.are_for(options, scene.past.midpoint());
    let mut copier = LineCopier::begin(scene.before, kept, are_alike, out)?;
    let mut texts = RowTexts::new(alloc);
    let mut at = NextRow { index: 0, widths };
    'rows: loop {
        let next = copier.copy_run(tracker, drawn, options.level_filter, rows, at)?;
        let n = next.index;
        let Some(row) = rows.get(n) else {
            return Ok(copier.finish(out));
        };
        at = next;
        at.index += 1;
        if !is_row_drawn(options.level_filter, row) {
            continue;
        }
        let (old_width, others) = split_first_width(at.widths);
        at.widths = others;
        let throughput = observe_row(alloc, tracker, row)?;
        let start = copier.len();
        let measured = (row, throughput);
        let size = write_line(&mut copier, out, &mut texts, scene, measured, old_width)?;
        drawn.midpoint = drawn.midpoint.max(size.midpoint);
        drawn.widths.push(size.width)?;
        keep_line(&mut copier.lines, row, &throughput, n, start, size)?;
    }
}

/// Writes the line of a row with its throughput, where no times are shown. Returns how large it is.
#[inline(always)]
fn write_line(
    copier: &mut LineCopier<'_>,
    out: &mut LineWriter,
    texts: &mut RowTexts,
    scene: &Scene<'_>,
    measured: (&Row, Option<Throughput>),
    old_width: u16,
) -> Result<LineSize, Refusal>
    requires timer { scene.now.timer.now ≡ None }
    requires left { HasLeft scene.now.options scene.now.past.now.midpoint copier.old }
    ensures bytes { OnOk result (Writes copier.old
        (bytes_in scene.now (row_of measured.entry.0.now, measured.entry.1) old_width)
        copier.new) }
    ensures size { IfOk result (IsSizeIn scene.now (row_of measured.entry.0.now, measured.entry.1)) }
    ensures reason { IsOkUnless result Refusal.Memory }
{
    let (row, throughput) = measured;
    if let Some(size) = copier.find(row, &throughput) {
        copier.copy_line(out, size, old_width)?;
        return Ok(size);
    }
    out.clear_bytes();
    let size = compose_line(out, texts, scene, row, throughput, old_width)?;
    copier.push(out.bytes())?;
    Ok(size)
}

/// Composes the line of a row where no times are shown. Returns how large it is.
#[inline(never)]
fn compose_line(
    out: &mut LineWriter,
    texts: &mut RowTexts,
    scene: &Scene<'_>,
    row: &Row,
    throughput: Option<Throughput>,
    old_width: u16,
) -> Result<LineSize, Refusal>
    requires { scene.now.timer.now ≡ None }
    ensures bytes { OnOk result
        (WritesLine scene.now (row_of row.now, throughput) old_width out.old out.new) }
    ensures size { IfOk result (IsSizeIn scene.now (row_of row.now, throughput)) }
    ensures reason { IsOkUnless result Refusal.Memory }
{
    let measured = Measured {
        throughput,
        timer: scene.timer,
        at: scene.at,
    };
    let start = out.len();
    let aligned = scene.past.midpoint();
    let midpoint = push_row(out, texts, &scene.options, aligned, row, measured)?;
    let length = out.len() - start;
    let width = out.end_line_over(old_width)?;
    Ok(LineSize {
        length,
        width,
        midpoint,
    })
}

/// Blanks the lines on screen below the first `drawn` rows, and moves the cursor up to the first
/// row.
fn finish_redraw(
    out: &mut LineWriter,
    layout: Layout,
    widths: &[u16],
    drawn: usize,
) -> Result<(), AllocError>
    ensures redraw { OnOk result (FinishesRedraw layout out.old widths.now drawn out.new) }
    ensures kept { OnOk result (Extends out.old out.new) }
{
    match layout {
        Layout::Overwriting => finish_overwriting(out, widths, drawn)?,
        Layout::Erasing { height, .. } => finish_erasing(out, height, widths.len(), drawn)?,
    }
    Ok(())
}

/// Writes blanks over the lines on screen below the first `drawn` rows, and moves the cursor up
/// from below all rows to the first.
fn finish_overwriting(out: &mut LineWriter, widths: &[u16], drawn: usize) -> Result<(), AllocError>
    ensures redraw { OnOk result
        (FinishesRedraw Layout.Overwriting out.old widths.now drawn out.new) }
    ensures kept { OnOk result (Extends out.old out.new) }
{
    write_blanks(out, widths_below(widths, drawn))?;
    push_up(out, drawn.max(widths.len()))?;
    Ok(())
}

/// Writes an empty line over each line on screen.
fn write_blanks(out: &mut LineWriter, widths: &[u16]) -> Result<(), AllocError>
    ensures { OnOk result (out.new.bytes ≡ out.old.bytes ++ blank_bytes widths.now) }
{
    for width in widths {
        out.begin_line(None);
        out.end_line_over(*width)?;
    }
    Ok(())
}

/// Moves the cursor up by `rows` rows, at most 65535; by none if that is 0.
pub(super) fn push_up(out: &mut LineWriter, rows: usize) -> Result<(), AllocError>
    ensures { OnOk result (AppendsSigns out.old (cursor_up rows) out.new) }
{
    if rows > 0 {
        out.push_sign(Sign::Up(rows.min(usize::from(u16::MAX)) as u16))?;
    }
    Ok(())
}

/// Returns the width of the first line on screen, 0 if there is none, and those of the others.
pub(super) fn split_first_width(widths: &[u16]) -> (u16, &[u16])
    ensures first { result.0 ≡ first_width widths.now }
    ensures others { result.1.now ≡ drop 1 widths.now }
{
    match widths.split_first() {
        Some((width, others)) => (*width, others),
        None => (0, widths),
    }
}

/// Returns the widths of the lines on screen below the first `lines` ones.
fn widths_below(widths: &[u16], lines: usize) -> &[u16]
    ensures { result.now ≡ drop lines widths.now }
{
    &widths[lines.min(widths.len())..]
}
