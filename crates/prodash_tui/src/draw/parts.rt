//! What panes have in common.
ghost use Rattle.std.specs.Prelude.{◌≡◌};
ghost use Rattle.prodash_tui.specs.Panes.{bold, with_head, with_text_at_right};

use crate::grid::Grid;
use crate::rect::{snap_to_right, top_of};
use crate::style::Style;
use crate::text::block_width;
use prodash_core::render::tui::Rect;

/// Returns the bold style.
pub(crate) fn bold() -> Style
    ensures { result ≡ bold }
{
    Style::new().bold()
}

/// Draws a text at the right end of the first row of a rectangle.
pub(crate) fn draw_at_right(grid: &mut Grid, area: Rect, text: &str)
    ensures { grid.new ≡ with_text_at_right area text.now grid.old }
{
    let bound = snap_to_right(area, block_width(text));
    grid.draw_text_with_ellipsis(bound, text, bold());
}

/// Draws the first row of a pane: a line with its title at the left, and its keys at the right.
pub(crate) fn draw_head(grid: &mut Grid, area: Rect, title: &str, keys: &str)
    ensures { grid.new ≡ with_head area title.now keys.now grid.old }
{
    grid.fill(top_of(area), '─', Style::new());
    grid.draw_text(area, title, bold());
    draw_at_right(grid, area, keys);
}
