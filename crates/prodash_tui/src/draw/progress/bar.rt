//! Bars, texts over them, and spinners.
ghost use Rattle.std.specs.Prelude.{◌≡◌, ◌≤◌};
ghost use Rattle.prodash_base.specs.Rows.{progress_of};
ghost use Rattle.prodash_line.specs.ProgressRows as rows;
ghost use Rattle.prodash_tui.specs.Bars as bars;
ghost use Rattle.prodash_tui.specs.Bars.{with_bar, with_spinner, with_text_across};

use crate::grid::Grid;
use crate::rect::{left_side_of, offset_x};
use crate::style::{Color, Style};
use prodash_base::progress::{State, Step, Value};
use prodash_core::render::tui::Rect;

/// The greatest bound that times any number of cells is a `u64`.
const NARROW_BOUND: Step = u64::MAX / 65536;

/// How many columns a spinner has.
const SPINNER: u16 = 5;

/// Returns the first columns of a rectangle.
pub(crate) fn first_columns(area: Rect, columns: u16) -> Rect
    ensures { result ≡ bars.first_columns area columns }
{
    Rect {
        width: area.width.min(columns),
        ..area
    }
}

/// Returns the style of characters in a colour.
fn inked(color: Color) -> Style
    ensures { result ≡ bars.inked color }
{
    Style::new().fg(color)
}

/// Returns the style of black characters on a colour.
pub(crate) fn black_on(color: Color) -> Style
    ensures { result ≡ bars.black_on color }
{
    Style::new().bg(color).fg(Color::Black)
}

/// Returns how many of a bar's cells are filled: the share of the bound that the step has come to,
/// rounded down; all of them if the bound is 0.
pub(crate) fn filled_cells(cells: u64, step: Step, bound: Step) -> u64
    ensures value { result ≡ rows.filled_cells cells step bound }
    ensures within { result ≤ cells }
{
    if bound == 0 {
        return cells;
    }
    if step == 0 {
        return 0;
    }
    let done = step.min(bound);
    match cells.checked_mul(done) {
        Some(product) => product / bound,
        None => (u128::from(cells) * u128::from(done) / u128::from(bound)) as u64,
    }
}

/// Returns how many eighths of the cell behind the filled ones are filled, rounded to the nearest.
fn eighths(cells: u16, step: Step, bound: Step) -> u8
    ensures value { result ≡ bars.eighths cells step bound }
    ensures few { result ≤ 8 }
{
    if bound == 0 {
        return 0;
    }
    let done = step.min(bound);
    if bound <= NARROW_BOUND {
        let rest = u64::from(cells) * done % bound;
        return ((16 * rest + bound) / (2 * bound)) as u8;
    }
    let bound = u128::from(bound);
    let rest = u128::from(cells) * u128::from(done) % bound;
    ((16 * rest + bound) / (2 * bound)) as u8
}

/// Returns the character of a cell of which so many eighths are filled.
fn block(filled: u8) -> char
    requires { filled ≤ 8 }
    ensures { result ≡ bars.block filled }
{
    match filled {
        0 => ' ',
        1 => '▏',
        2 => '▎',
        3 => '▍',
        4 => '▌',
        5 => '▋',
        6 => '▊',
        7 => '▉',
        _ => '█',
    }
}

/// Returns how many of so many cells a bar takes: the filled ones, and the one behind them.
pub(crate) fn bar_columns(cells: u16, step: Step, bound: Step) -> u16
    ensures { result ≡ bars.bar_columns cells step bound }
{
    let filled = filled_cells(u64::from(cells), step, bound) as u16;
    filled.saturating_add(1).min(cells)
}

/// Draws a bar.
pub(crate) fn draw_bar(grid: &mut Grid, area: Rect, step: Step, bound: Step, color: Color)
    ensures { grid.new ≡ with_bar area step bound color grid.old }
{
    let filled = filled_cells(u64::from(area.width), step, bound) as u16;
    let behind = block(eighths(area.width, step, bound));
    grid.fill(first_columns(area, filled), '█', inked(color));
    grid.fill(left_side_of(offset_x(area, filled)), behind, inked(color));
}

/// Draws a text, of which what is in the first columns is in the style `first`, and the rest in the
/// style `rest`.
pub(crate) fn draw_text_across(
    grid: &mut Grid,
    area: Rect,
    columns: u16,
    first: Style,
    rest: Style,
    text: &str,
)
    ensures { grid.new ≡ with_text_across area columns first rest text.now grid.old }
{
    grid.draw_text(area, text, rest);
    grid.draw_text(first_columns(area, columns), text, first);
}

/// Draws a spinner on what is drawn already. It moves with the step and is at the left again after
/// as many steps as there are columns.
pub(crate) fn draw_spinner(grid: &mut Grid, area: Rect, step: u128, color: Color)
    ensures { grid.new ≡ with_spinner area step color grid.old }
{
    let skipped = (step % u128::from(area.width.max(1))) as u16;
    grid.fill_background(first_columns(offset_x(area, skipped), SPINNER), color);
}

/// Returns the colour of a task: `running`, unless it can't go on.
fn color_in(value: &Value, running: Color) -> Color
    ensures { result ≡ bars.color_in (progress_of value.now).phase running }
{
    match value.state {
        State::Blocked(..) => Color::Red,
        State::Halted(..) => Color::LightRed,
        State::Running => running,
    }
}

/// Returns the colour of the bar of a running task.
fn running_color(step: Step, bound: Step) -> Color
    ensures { result ≡ bars.running_color step bound }
{
    if 4 * u128::from(bound) <= 5 * u128::from(step) {
        Color::Green
    } else {
        Color::Yellow
    }
}

/// Returns the colour of a bar with this bound.
pub(crate) fn bar_color(value: &Value, bound: Step) -> Color
    ensures { result ≡ bars.bar_color (progress_of value.now) bound }
{
    color_in(value, running_color(value.step, bound))
}

/// Returns the colour of a spinner.
pub(crate) fn spinner_color(value: &Value) -> Color
    ensures { result ≡ bars.spinner_color (progress_of value.now) }
{
    color_in(value, Color::White)
}
