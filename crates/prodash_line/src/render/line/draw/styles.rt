//! The styles of the texts of rows and messages.
ghost use Rattle.std.specs.Prelude.{◌≡◌};
ghost use Rattle.std.specs.Option.{option_map};
ghost use Rattle.prodash_base.specs.Rows.{progress_of};
ghost use Rattle.prodash_line.specs.TextStyles as styles;

use crate::render::line::page::{Color, Style};
use prodash_base::messages::MessageLevel;
use prodash_base::progress::{State, Step, Value};

/// Returns the style of the name of a row with this progress.
pub(crate) fn name_style(progress: &Option<Value>) -> Style
    ensures { result ≡ styles.name_style (option_map progress_of progress.now) }
{
    match progress {
        None => Style::new().bold().fg(Color::White),
        Some(_) => Style::new().bold().fg(Color::Cyan),
    }
}

/// Returns the style of the values of a row.
pub(crate) fn values_style() -> Style
    ensures { result ≡ styles.values_style }
{
    Style::new().bold().dimmed()
}

/// Returns the style of a row, in which its bar is drawn.
pub(crate) fn row_style(value: &Value) -> Style
    ensures { result ≡ styles.row_style (progress_of value.now) }
{
    match value.state {
        State::Running => Style::new().fg(running_color(value.step, value.done_at)),
        State::Halted(..) => Style::new().fg(Color::Red).dimmed(),
        State::Blocked(..) => Style::new().fg(Color::Red),
    }
}

/// Returns the colour of a running row: green above four fifths of its bound.
fn running_color(step: Step, done_at: Option<Step>) -> Color
    ensures { result ≡ styles.running_color step done_at }
{
    match done_at {
        None => Color::White,
        Some(bound) if 4 * u128::from(bound) < 5 * u128::from(step) => Color::Green,
        Some(_) => Color::Yellow,
    }
}

/// Returns the style of the origin of a message.
pub(crate) fn origin_style() -> Style
    ensures { result ≡ styles.origin_style }
{
    Style::new().dimmed()
}

/// Returns the style of the text of a message of this severity.
pub(crate) fn message_style(level: MessageLevel) -> Style
    ensures { result ≡ styles.message_style level }
{
    Style::new().bold().fg(level_color(level))
}

/// Returns the style of the time of a message of this severity.
pub(crate) fn time_style(level: MessageLevel) -> Style
    ensures { result ≡ styles.time_style level }
{
    Style::new().fg(level_color(level)).dimmed().on_yellow()
}

/// Returns the colour of a severity.
fn level_color(level: MessageLevel) -> Color
    ensures { result ≡ styles.level_color level }
{
    match level {
        MessageLevel::Info => Color::White,
        MessageLevel::Success => Color::Green,
        MessageLevel::Failure => Color::Red,
    }
}
