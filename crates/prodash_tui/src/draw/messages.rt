//! The messages pane.
ghost use Rattle.std.specs.Prelude.{◌≡◌, ◌+◌, ◌-◌, length, IfOk, IsOkUnless, OnOk, string_bytes};
ghost use Rattle.prodash_tui.specs.MessagePanes.{DrawsMessages, hidden_text, level_color, level_style, level_text, messages_bound, origin_width, shown_messages, skipped_messages, text_bound, with_columns, with_hidden, with_list, with_message, with_messages};

use crate::draw::parts::{bold, draw_at_right, draw_head};
use crate::grid::Grid;
use crate::offset::sanitize_offset;
use crate::rect::{line_bound, offset_x};
use crate::style::{Color, Style};
use crate::text::block_width;
use prodash_base::Refusal;
use prodash_base::messages::{Message, MessageLevel};
use prodash_base::time::format_time_for_messages;
use prodash_core::render::tui::{Rect, VERTICAL_LINE};
use std::alloc::Global;

/// How many columns the text of a message has at least, if others are before it.
const LEAST_TEXT_WIDTH: u16 = 30;

/// Draws the messages pane: below its first row, which has the title and the keys that hide and
/// maximize the pane, the messages, the newest one first. The first `offset` of them are skipped,
/// but no more than leave messages for all rows; `offset` is then as many as are skipped.
///
/// The row of a message has its time of day in UTC, its level, its origin, and its text, all texts
/// from the same column on. If less than 30 columns are left for them, each row has the text alone.
/// If some messages have no row, how many these are is drawn in the first row of `overflow`.
///
/// `Memory`: out of memory. The grid may then have a part of the pane.
pub fn pane(
    alloc: Global,
    messages: &[Message],
    bound: Rect,
    overflow: Rect,
    offset: &mut u16,
    grid: &mut Grid,
) -> Result<(), Refusal>
    ensures offset { offset.new ≡ skipped_messages offset.old bound messages.now }
    ensures ok { OnOk result
        (DrawsMessages messages.now bound overflow offset.old grid.old grid.new) }
    ensures reason { IsOkUnless result Refusal.Memory }
{
    let area = messages_bound(bound);
    *offset = sanitize_offset(*offset, messages.len(), area.height);
    draw_head(grid, bound, "Messages", " ⨯ = `| ▢ = ~ ");
    draw_list(alloc, messages, area, overflow, *offset, grid)
}

/// Returns where the messages of a pane are.
fn messages_bound(area: Rect) -> Rect
    ensures { result ≡ messages_bound area }
{
    Rect {
        y: area.y.saturating_add(1),
        height: area.height.saturating_sub(1),
        ..area
    }
}

/// Draws the messages in their rows, and the line below them.
fn draw_list(
    alloc: Global,
    messages: &[Message],
    area: Rect,
    overflow: Rect,
    skipped: u16,
    grid: &mut Grid,
) -> Result<(), Refusal>
    ensures ok { OnOk result
        (grid.new ≡ with_list area overflow skipped messages.now grid.old) }
    ensures reason { IsOkUnless result Refusal.Memory }
{
    let rows = usize::from(area.height);
    let shown = shown_messages(messages, usize::from(skipped), rows);
    draw_messages(alloc, shown, area, origin_width(shown), grid)?;
    let more = messages.len().saturating_sub(usize::from(skipped) + rows);
    draw_hidden(alloc, overflow, skipped, more, grid)
}

/// Returns the messages that are shown in so many rows, oldest first.
fn shown_messages(messages: &[Message], skipped: usize, rows: usize) -> &[Message]
    ensures { result.now ≡ shown_messages skipped rows messages.now }
{
    let shown = &messages[..messages.len().saturating_sub(skipped)];
    &shown[shown.len().saturating_sub(rows)..]
}

/// Returns the greatest width of an origin.
fn origin_width(messages: &[Message]) -> u16
    ensures { result ≡ origin_width messages.now }
{
    let mut width = 0;
    let mut left = messages;
    while let Some((message, newer)) = left.split_first() {
        width = width.max(block_width(message.origin.as_str()));
        left = newer;
    }
    width
}

/// Draws messages, the newest one, which is the last, in the first row.
fn draw_messages(
    alloc: Global,
    messages: &[Message],
    area: Rect,
    width: u16,
    grid: &mut Grid,
) -> Result<(), Refusal>
    ensures ok { OnOk result (grid.new ≡ with_messages area width messages.now grid.old) }
    ensures reason { IsOkUnless result Refusal.Memory }
{
    let mut left = messages;
    while let Some((message, newer)) = left.split_first() {
        draw_message(alloc, message, line_bound(area, newer.len()), width, grid)?;
        left = newer;
    }
    Ok(())
}

/// Returns where the text of a message is in its row, behind origins of this width.
fn text_bound(row: Rect, width: u16) -> Rect
    ensures { result ≡ text_bound row width }
{
    offset_x(offset_x(row, 16), width)
}

/// Draws a message in its row.
fn draw_message(
    alloc: Global,
    message: &Message,
    row: Rect,
    width: u16,
    grid: &mut Grid,
) -> Result<(), Refusal>
    ensures ok { OnOk result (grid.new ≡ with_message row width message.now grid.old) }
    ensures reason { IsOkUnless result Refusal.Memory }
{
    let text = message.message.as_str();
    let bound = text_bound(row, width);
    if bound.width < LEAST_TEXT_WIDTH {
        grid.draw_text_with_ellipsis(row, text, Style::new());
        return Ok(());
    }
    draw_columns(alloc, message, row, width, grid)?;
    grid.draw_text_with_ellipsis(bound, text, Style::new());
    Ok(())
}

/// Draws what is before the text of a message.
fn draw_columns(
    alloc: Global,
    message: &Message,
    row: Rect,
    width: u16,
    grid: &mut Grid,
) -> Result<(), Refusal>
    ensures ok { OnOk result (grid.new ≡ with_columns row width message.now grid.old) }
    ensures reason { IsOkUnless result Refusal.Memory }
{
    let plain = Style::new();
    let time = format_time_for_messages(alloc, message.time)?;
    grid.draw_text_with_ellipsis(row, time.as_str(), plain);
    grid.draw_text_with_ellipsis(offset_x(row, 8), VERTICAL_LINE, plain);
    let level = offset_x(row, 9);
    grid.draw_text_with_ellipsis(level, level_text(message.level), level_style(message.level));
    grid.draw_text_with_ellipsis(offset_x(row, 13), VERTICAL_LINE, plain);
    let origin = offset_x(row, 14);
    grid.draw_text_with_ellipsis(origin, message.origin.as_str(), plain);
    grid.draw_text_with_ellipsis(offset_x(origin, width), "→", plain);
    Ok(())
}

/// Returns a level as a word of four letters.
fn level_text(level: MessageLevel) -> &'static str
    ensures { result.now ≡ level_text level }
{
    match level {
        MessageLevel::Info => "info",
        MessageLevel::Failure => "fail",
        MessageLevel::Success => "done",
    }
}

/// Returns the colour behind the word of a level.
fn level_color(level: MessageLevel) -> Color
    ensures { result ≡ level_color level }
{
    match level {
        MessageLevel::Info => Color::White,
        MessageLevel::Failure => Color::Red,
        MessageLevel::Success => Color::Green,
    }
}

/// Returns the style of the word of a level.
fn level_style(level: MessageLevel) -> Style
    ensures { result ≡ level_style level }
{
    Style::new().bold().fg(Color::Black).bg(level_color(level))
}

/// Returns what is said of messages that have no row.
fn hidden_text(alloc: Global, skipped: u16, more: usize) -> Result<String, Refusal>
    ensures ok { IfOk result (λ text. string_bytes text ≡ hidden_text skipped more) }
    ensures reason { IsOkUnless result Refusal.Memory }
{
    Ok(format!(in alloc; "… {skipped} skipped and {more} more")?)
}

/// Draws how many messages have no row, if any has none.
fn draw_hidden(
    alloc: Global,
    area: Rect,
    skipped: u16,
    more: usize,
    grid: &mut Grid,
) -> Result<(), Refusal>
    ensures ok { OnOk result (grid.new ≡ with_hidden area skipped more grid.old) }
    ensures reason { IsOkUnless result Refusal.Memory }
{
    if skipped == 0 && more == 0 {
        return Ok(());
    }
    let text = hidden_text(alloc, skipped, more)?;
    grid.draw_text_with_ellipsis(offset_x(area, 1), text.as_str(), bold());
    draw_at_right(grid, area, " ⇊ = D|↓ = J|⇈ = U|↑ = K ┘");
    Ok(())
}
