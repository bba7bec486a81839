//! A dashboard, and where its parts are.
ghost use Rattle.std.specs.Prelude.{◌≡◌, IfOk, IsOkUnless, OnOk};
ghost use Rattle.prodash_base.specs.Adjacency.{IsAscending, paths_of};
ghost use Rattle.prodash_tui.specs.Dashboards.{bounds_of, headline_bound, is_small, messages_to_show, narrower, offset_in, panes_after, scroll_after, shown_information, state_after, tree_after, tree_in, whole_dashboard, with_information_in, with_offsets, with_task_pane, with_window};
ghost use Rattle.prodash_tui.specs.PaneBounds.{compute_info_bound, compute_pane_bounds, information_width, line_text, messages_room, split_below, split_right, wanted_width};
ghost use Rattle.prodash_tui.specs.plumbing.PaneParts.{DrawsMessagesIn, DrawsPanes};

use crate::draw::bounds::Bounds;
use crate::draw::headline::headline;
use crate::draw::input::Input;
use crate::draw::parts::bold;
use crate::draw::progress::{Scroll, Tasks};
use crate::draw::{information, messages, progress};
use crate::grid::Grid;
use crate::rect::{bottom_of, inner_of, offset_x, snap_to_right};
use crate::style::Style;
use crate::text::block_width;
use prodash_base::Refusal;
use prodash_base::messages::Message;
use prodash_base::unit::display::Throughput;
use prodash_core::render::tui::{Line, Rect, State};
use std::alloc::Global;

/// Draws a dashboard in a rectangle of a grid: the window with its title, the headline, the tasks,
/// the messages and the information. Of a window with less than four rows or columns only the
/// border and the title are drawn. The offsets of the tasks and of the messages are then as many as
/// are skipped. Returns how many columns the tree of the tasks has, for the next frame. `rates` are
/// the throughputs of the rows, if they have any, and `text` is memory for texts, which is written
/// over. The rows must be in strictly ascending order of their keys, as those of a snapshot are.
///
/// `Memory`: out of memory. The grid may then have a part of the dashboard, and the offsets may be
/// others.
pub fn all(
    alloc: Global,
    text: &mut String,
    state: &mut State,
    input: &Input<'_>,
    rates: &[Option<Throughput>],
    bound: Rect,
    grid: &mut Grid,
) -> Result<u16, Refusal>
    requires sorted { IsAscending (paths_of input.now.rows.now) }
    ensures ok { OnOk result
        (grid.new ≡ whole_dashboard rates.now state.old input.now bound grid.old) }
    ensures state { OnOk result (state.new ≡ state_after state.old input.now bound) }
    ensures kept { state.new
        ≡ with_offsets state.new.task_offset state.new.message_offset state.old }
    ensures tree { IfOk result (λ n. n ≡ tree_after state.old input.now bound) }
    ensures reason { IsOkUnless result Refusal.Memory }
{
    let bounds = bounds_of(state, input.messages.len(), bound);
    draw_window(bounds.window, state.title.as_str(), grid);
    if is_small(bounds.window) {
        return Ok(input.tree_columns);
    }
    draw_panes(alloc, text, state, input, rates, &bounds, grid)
}

/// Returns where the parts of a dashboard with so many messages are.
pub fn bounds_of(state: &State, messages: usize, area: Rect) -> Bounds
    ensures { result ≡ bounds_of state.now messages area }
{
    let lines = shown_information(state);
    let (window, information) = compute_info_bound(area, lines, state.maximize_info);
    let count = messages_to_show(state, messages);
    let inner = inner_of(window);
    let (tasks, messages) = compute_pane_bounds(count, inner, state.messages_fullscreen);
    Bounds {
        window,
        tasks,
        messages,
        information,
    }
}

/// Returns the information, unless it is hidden.
fn shown_information(state: &State) -> &[Line]
    ensures { result.now ≡ shown_information state.now }
{
    if state.hide_info {
        &[]
    } else {
        state.information.as_slice()
    }
}

/// Returns how many of so many messages there are to show.
fn messages_to_show(state: &State, messages: usize) -> usize
    ensures { result ≡ messages_to_show state.now messages }
{
    if state.hide_messages { 0 } else { messages }
}

/// Returns whether a window has less than four rows or columns.
fn is_small(window: Rect) -> bool
    ensures { result ≡ is_small window }
{
    window.width < 4 || window.height < 4
}

/// Returns a rectangle without its last column.
fn narrower(area: Rect) -> Rect
    ensures { result ≡ narrower area }
{
    Rect {
        width: area.width.saturating_sub(1),
        ..area
    }
}

/// Draws a window: a border with its title.
fn draw_window(area: Rect, title: &str, grid: &mut Grid)
    ensures { grid.new ≡ with_window area title.now grid.old }
{
    grid.draw_border(area, Style::new());
    grid.draw_text(narrower(offset_x(area, 1)), title, bold());
}

/// Returns where the headline is: behind the title of the window.
fn headline_bound(area: Rect, title: &str) -> Rect
    ensures { result ≡ headline_bound area title.now }
{
    offset_x(offset_x(narrower(area), block_width(title)), 2)
}

/// Draws what is inside the window, and the information. Returns how many columns the tree of the
/// tasks has.
fn draw_panes(
    alloc: Global,
    text: &mut String,
    state: &mut State,
    input: &Input<'_>,
    rates: &[Option<Throughput>],
    bounds: &Bounds,
    grid: &mut Grid,
) -> Result<u16, Refusal>
    requires sorted { IsAscending (paths_of input.now.rows.now) }
    ensures ok { OnOk result
        (DrawsPanes rates.now state.old input.now bounds.now grid.old grid.new) }
    ensures state { OnOk result (state.new ≡ panes_after state.old input.now bounds.now) }
    ensures kept { state.new
        ≡ with_offsets state.new.task_offset state.new.message_offset state.old }
    ensures tree { IfOk result (λ n. n ≡ tree_in state.old input.now bounds.now) }
    ensures reason { IsOkUnless result Refusal.Memory }
{
    let interval = input.nanoseconds_per_frame;
    let mode = state.interrupt_mode;
    let behind = headline_bound(bounds.window, state.title.as_str());
    headline(text, input.rows, mode, interval, input.time, behind, grid)?;
    let skipped = state.task_offset;
    let scroll = draw_tasks(alloc, text, input, rates, skipped, bounds.tasks, grid)?;
    state.task_offset = scroll.offset;
    let offset = &mut state.message_offset;
    draw_messages(alloc, input.messages, bounds, offset, grid)?;
    draw_information(state.information.as_slice(), bounds.information, grid);
    Ok(scroll.tree_columns)
}

/// Draws the tasks with their throughputs, of which so many are skipped, and returns how far they
/// are scrolled then.
fn draw_tasks(
    alloc: Global,
    text: &mut String,
    input: &Input<'_>,
    rates: &[Option<Throughput>],
    offset: u16,
    area: Rect,
    grid: &mut Grid,
) -> Result<Scroll, Refusal>
    requires sorted { IsAscending (paths_of input.now.rows.now) }
    ensures ok { OnOk result
        (grid.new ≡ with_task_pane rates.now input.now offset area grid.old) }
    ensures scroll { IfOk result (λ s. s ≡ scroll_after input.now offset area) }
    ensures reason { IsOkUnless result Refusal.Memory }
{
    let scroll = Scroll {
        offset,
        tree_columns: input.tree_columns,
    };
    let tasks = Tasks {
        rows: input.rows,
        rates,
        at: input.at,
    };
    progress::pane(alloc, grid, text, &tasks, scroll, area)
}

/// Draws the messages, if they are shown.
fn draw_messages(
    alloc: Global,
    messages: &[Message],
    bounds: &Bounds,
    offset: &mut u16,
    grid: &mut Grid,
) -> Result<(), Refusal>
    ensures offset { offset.new ≡ offset_in bounds.now.messages offset.old messages.now }
    ensures ok { OnOk result
        (DrawsMessagesIn bounds.now offset.old messages.now grid.old grid.new) }
    ensures reason { IsOkUnless result Refusal.Memory }
{
    match bounds.messages {
        Some(area) => {
            let overflow = bottom_of(bounds.window);
            messages::pane(alloc, messages, area, overflow, offset, grid)
        }
        None => Ok(()),
    }
}

/// Draws the information, if it is shown.
fn draw_information(lines: &[Line], area: Option<Rect>, grid: &mut Grid)
    ensures { grid.new ≡ with_information_in area lines.now grid.old }
{
    if let Some(area) = area {
        information::pane(lines, area, grid);
    }
}

/// Returns what is left of the window's rectangle beside the information, and where that is, at its
/// right: in as many columns as it needs, but at most a third of them, or all but eight if it is
/// maximized. It isn't shown if there is none, or if it would have less than a third of the columns
/// that it needs.
pub fn compute_info_bound(bound: Rect, info: &[Line], maximize: bool) -> (Rect, Option<Rect>)
    ensures { result ≡ compute_info_bound bound info.now maximize }
{
    if info.is_empty() {
        return (bound, None);
    }
    let wanted = wanted_width(info);
    let width = information_width(wanted, maximize, bound.width);
    if u32::from(width) < wanted / 3 {
        return (bound, None);
    }
    split_right(bound, width)
}

/// Returns where the tasks are inside the window, and where the messages are, below them: with a
/// row for their title and one for each, but at most a quarter of the rows, or nine tenths if they
/// are maximized. They aren't shown if there are none, or if there is no room for one.
pub fn compute_pane_bounds(messages: usize, inner: Rect, maximize: bool) -> (Rect, Option<Rect>)
    ensures { result ≡ compute_pane_bounds messages inner maximize }
{
    let room = messages_room(maximize, inner.height);
    if messages == 0 || room < 2 {
        return (inner, None);
    }
    let wanted = messages.min(65534) as u16 + 1;
    split_below(inner, room.min(wanted))
}

/// Returns the text of a line.
fn line_text(line: &Line) -> &str
    ensures { result.now ≡ line_text line.now }
{
    match line {
        Line::Title(text) | Line::Text(text) => text.as_str(),
    }
}

/// Returns how many columns the lines need, with one on each side.
fn wanted_width(lines: &[Line]) -> u32
    ensures { result ≡ wanted_width lines.now }
{
    let mut width = 0;
    let mut left = lines;
    while let Some((line, rest)) = left.split_first() {
        width = width.max(block_width(line_text(line)));
        left = rest;
    }
    u32::from(width) + 2
}

/// Returns how many columns of so many the lines take that need `wanted`.
fn information_width(wanted: u32, maximize: bool, width: u16) -> u16
    ensures { result ≡ information_width wanted maximize width }
{
    let room = if maximize {
        width.saturating_sub(8)
    } else {
        width / 3
    };
    wanted.min(u32::from(room)) as u16
}

/// Splits a rectangle into what is left of its last columns, and these.
fn split_right(area: Rect, width: u16) -> (Rect, Option<Rect>)
    ensures { result ≡ split_right area width }
{
    let left = Rect {
        width: area.width.saturating_sub(width),
        ..area
    };
    (left, Some(snap_to_right(area, width)))
}

/// Returns how many rows of so many messages take at most.
fn messages_room(maximize: bool, height: u16) -> u16
    ensures { result ≡ messages_room maximize height }
{
    if maximize {
        (u32::from(height) * 9 / 10) as u16
    } else {
        height / 4
    }
}

/// Splits a rectangle into what is above its last rows, and these.
fn split_below(area: Rect, height: u16) -> (Rect, Option<Rect>)
    ensures { result ≡ split_below area height }
{
    let left = area.height.saturating_sub(height);
    let above = Rect {
        height: left,
        ..area
    };
    let below = Rect {
        y: area.y.saturating_add(left),
        height,
        ..area
    };
    (above, Some(below))
}
