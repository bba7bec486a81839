//! What is written of a text where its line is cut.
ghost use Rattle.std.specs.Prelude.{◌≡◌, ◌≤◌, ◌∷◌, [], false, chars};
ghost use Rattle.unicode_width.specs.Width.{str_width};
ghost use Rattle.prodash_line.specs.Lines.{piece, columns_of};
ghost use Rattle.prodash_line.specs.plumbing.Writing.{indented, FitsPrintable};
ghost use Rattle.prodash_line.specs.plumbing.Cutting.{written_in, room_after};

use crate::render::line::draw::room::Room;
use crate::render::line::draw::text::{longest_prefix, uncapped_width};

/// Returns how many of `count` printable ASCII characters are written, and the room after them.
pub(crate) fn fit_printable(room: Room, count: u16) -> (u16, Room)
    ensures fits { FitsPrintable room count result.0 result.1 }
    ensures within { result.0 ≤ count }
{
    match room {
        Room::Unlimited => (count, room),
        Room::Columns(left) => {
            if count <= left {
                (count, Room::Columns(left - count))
            } else {
                (left, Room::Full(0))
            }
        }
        Room::Full(_) => (0, room),
    }
}

/// Returns which prefix of a text is written, and the room after it. `width` is the width of the
/// text, at most 65535.
pub(crate) fn fit_text(room: Room, text: &str, width: u16) -> (&str, Room)
    requires { width ≡ columns_of (piece (chars text.now) ∷ []) }
    ensures text { chars result.0.now ≡ written_in room (chars text.now) }
    ensures room { result.1 ≡ room_after room (chars text.now) }
{
    match room {
        Room::Unlimited => (text, room),
        Room::Columns(left) => {
            // a width below another one is less than 65535, so it is the whole width
            if width < left {
                (text, Room::Columns(left - width))
            } else {
                fit_columns(left, text, width)
            }
        }
        Room::Full(_) => ("", room),
    }
}

/// Returns how many of `padding` spaces and which prefix of the text after them are written, and
/// the room after both. `width` is the width of the text, at most 65535.
pub(crate) fn fit_indented(room: Room, padding: u16, text: &str, width: u16) -> (u16, &str, Room)
    requires { width ≡ columns_of (piece (chars text.now) ∷ []) }
    ensures text { indented result.0 (chars result.1.now)
        ≡ written_in room (indented padding (chars text.now)) }
    ensures room { result.2 ≡ room_after room (indented padding (chars text.now)) }
{
    match room {
        Room::Unlimited => (padding, text, room),
        Room::Columns(left) => {
            if left < padding {
                return (left, "", Room::Full(0));
            }
            let (prefix, room) = fit_text(Room::Columns(left - padding), text, width);
            (padding, prefix, room)
        }
        Room::Full(_) => (0, "", room),
    }
}

/// Returns what `fit_text` does where the line has `left` columns left.
#[cold]
#[inline(never)]
fn fit_columns(left: u16, text: &str, width: u16) -> (&str, Room)
    requires { width ≡ columns_of (piece (chars text.now) ∷ []) }
    ensures text { chars result.0.now ≡ written_in (Room.Columns left) (chars text.now) }
    ensures room { result.1 ≡ room_after (Room.Columns left) (chars text.now) }
{
    let whole = whole_width(text, width);
    if whole <= usize::from(left) {
        return (text, Room::Columns(left - width));
    }
    let (prefix, columns) = longest_prefix(text, whole, left);
    (prefix, Room::Full(left - columns as u16))
}

/// Returns the width of a text, in columns, given that width, at most 65535.
fn whole_width(text: &str, width: u16) -> usize
    requires { width ≡ columns_of (piece (chars text.now) ∷ []) }
    ensures { result ≡ str_width false (chars text.now) }
{
    if width < u16::MAX {
        usize::from(width)
    } else {
        uncapped_width(text)
    }
}
