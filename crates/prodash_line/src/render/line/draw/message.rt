//! The line of a message: its origin, aligned with those of other messages, and its text.
ghost use Rattle.std.specs.Prelude.{◌≡◌, OnOk, IsOkUnless};
ghost use Rattle.prodash_line.specs.MessageLines.{greatest_width, is_bare};
ghost use Rattle.prodash_line.specs.plumbing.Writing.{drawn_time, Appends, AppendsBareText, AppendsOriginAndText, DrawsMessage, IsOriginOf};

use crate::render::line::draw::drawn_text::{DrawnText, drawn_text};
use crate::render::line::draw::input::Options;
use crate::render::line::draw::line_writer::LineWriter;
use crate::render::line::draw::styles::{message_style, origin_style, time_style};
use prodash_base::Refusal;
use prodash_base::messages::Message;
use prodash_base::time::format_time_for_messages;
use std::alloc::{AllocError, Global};

/// Writes the line of a message. Its origin, which is drawn as `origin`, is right-aligned to
/// `width`, unless the message is bare. Its text, if it is drawn with other characters, is written
/// to `replaced`. Fails if out of memory.
pub(crate) fn push_message(
    alloc: Global,
    out: &mut LineWriter,
    replaced: &mut String,
    options: &Options,
    width: u16,
    origin: &DrawnText<'_>,
    message: &Message,
) -> Result<(), Refusal>
    requires { IsOriginOf options.now message.now origin.now }
    ensures line { OnOk result (DrawsMessage options.now width message.now out.old out.new) }
    ensures reason { IsOkUnless result Refusal.Memory }
{
    out.begin_line(options.message_limit());
    if is_bare(options, message) {
        push_time(alloc, out, options, message)?;
        push_bare_text(out, replaced, options, message)?;
        return Ok(());
    }
    out.push_spaces(1)?;
    push_time(alloc, out, options, message)?;
    push_origin_and_text(out, replaced, options, width, origin, message)?;
    Ok(())
}

/// Whether a message is drawn without what aligns it.
fn is_bare(options: &Options, message: &Message) -> bool
    ensures { result ≡ is_bare options.now message.now }
{
    options.bare_without_origin && message.origin.as_str().is_empty()
}

/// Appends the time of a message and a space, if times are shown.
fn push_time(
    alloc: Global,
    out: &mut LineWriter,
    options: &Options,
    message: &Message,
) -> Result<(), Refusal>
    ensures pieces { OnOk result
        (Appends out.old (drawn_time options.now message.now) out.new) }
    ensures reason { IsOkUnless result Refusal.Memory }
{
    if !options.timestamp {
        return Ok(());
    }
    let time = format_time_for_messages(alloc, message.time)?;
    let style = options.colored.then_some(time_style(message.level));
    out.push_text(style, time.as_str())?;
    out.push_spaces(1)?;
    Ok(())
}

/// Appends the origin of a message as `push_message` does, a space and the text of the message.
fn push_origin_and_text(
    out: &mut LineWriter,
    replaced: &mut String,
    options: &Options,
    width: u16,
    origin: &DrawnText<'_>,
    message: &Message,
) -> Result<(), AllocError>
    requires { IsOriginOf options.now message.now origin.now }
    ensures { OnOk result
        (AppendsOriginAndText options.now width message.now out.old out.new) }
{
    let padding = width.saturating_sub(origin.width);
    let style = options.colored.then_some(origin_style());
    out.push_indented(style, padding, origin)?;
    out.push_spaces(1)?;
    push_bare_text(out, replaced, options, message)?;
    Ok(())
}

/// Appends the text of a message alone.
fn push_bare_text(
    out: &mut LineWriter,
    replaced: &mut String,
    options: &Options,
    message: &Message,
) -> Result<(), AllocError>
    ensures { OnOk result (AppendsBareText options.now message.now out.old out.new) }
{
    let text = drawn_text(options.defensive, message.message.as_str(), replaced)?;
    let style = options.colored.then_some(message_style(message.level));
    out.push_drawn(style, &text)?;
    Ok(())
}

/// Returns the greatest of some widths, 0 if there are none.
pub(crate) fn greatest_width(widths: &[u16]) -> u16
    ensures { result ≡ greatest_width widths.now }
{
    let mut greatest = 0;
    for width in widths {
        greatest = greatest.max(*width);
    }
    greatest
}
