//! Parts of rectangles.
ghost use Rattle.std.specs.Prelude.{◌≡◌};
ghost use Rattle.prodash_tui.specs.Rects.{top_of, bottom_of, left_side_of, right_side_of, inner_of, line_bound, offset_x, snap_to_right, intersect};

use prodash_core::render::tui::Rect;

/// Returns the first row of a rectangle.
pub fn top_of(area: Rect) -> Rect
    ensures { result ≡ top_of area }
{
    Rect {
        height: area.height.min(1),
        ..area
    }
}

/// Returns the last row of a rectangle.
pub fn bottom_of(area: Rect) -> Rect
    ensures { result ≡ bottom_of area }
{
    Rect {
        y: area.y.saturating_add(area.height.saturating_sub(1)),
        height: area.height.min(1),
        ..area
    }
}

/// Returns the first column of a rectangle.
pub fn left_side_of(area: Rect) -> Rect
    ensures { result ≡ left_side_of area }
{
    Rect {
        width: area.width.min(1),
        ..area
    }
}

/// Returns the last column of a rectangle.
pub fn right_side_of(area: Rect) -> Rect
    ensures { result ≡ right_side_of area }
{
    Rect {
        x: area.x.saturating_add(area.width.saturating_sub(1)),
        width: area.width.min(1),
        ..area
    }
}

/// Returns what is inside the border of a rectangle.
pub fn inner_of(area: Rect) -> Rect
    ensures { result ≡ inner_of area }
{
    Rect {
        x: area.x.saturating_add(1),
        y: area.y.saturating_add(1),
        width: area.width.saturating_sub(2),
        height: area.height.saturating_sub(2),
    }
}

/// Returns row `line` of a rectangle, counted from its first one and whatever its height is. Beyond
/// row 65535 it is that row, which no grid has.
pub fn line_bound(area: Rect, line: usize) -> Rect
    ensures { result ≡ line_bound area line }
{
    Rect {
        y: area.y.saturating_add(line.min(65535) as u16),
        height: 1,
        ..area
    }
}

/// Returns a rectangle without its first columns. If it has no more than these, what is left has no
/// columns.
pub fn offset_x(area: Rect, columns: u16) -> Rect
    ensures { result ≡ offset_x area columns }
{
    Rect {
        x: area.x.saturating_add(columns),
        width: area.width.saturating_sub(columns),
        ..area
    }
}

/// Returns the last columns of a rectangle, as many as `width`, or all if it has no more.
pub fn snap_to_right(area: Rect, width: u16) -> Rect
    ensures { result ≡ snap_to_right area width }
{
    offset_x(area, area.width.saturating_sub(width))
}

/// Returns the rectangle of what is in both rectangles. It has no columns or no rows if nothing is.
pub fn intersect(a: Rect, b: Rect) -> Rect
    ensures { result ≡ intersect a b }
{
    let x = a.x.max(b.x);
    let y = a.y.max(b.y);
    let a_width = a.width.saturating_sub(x - a.x);
    let b_width = b.width.saturating_sub(x - b.x);
    let a_height = a.height.saturating_sub(y - a.y);
    let b_height = b.height.saturating_sub(y - b.y);
    Rect {
        x,
        y,
        width: a_width.min(b_width),
        height: a_height.min(b_height),
    }
}
