//! How a tree is drawn, and how often.
mod detection;
mod values;

use crate::progress::key::Level;
pub use detection::StandardStreams;
pub use prodash_line::render::line::terminal::{
    ColorChoice, Environment, VariableSource, Variables,
};

/// Options for a renderer with threads of its own.
///
/// ```rust
/// let options = Options {
///     terminal_dimensions: (120, 40),
///     throughput: true,
///     ..Options::default()
/// };
/// ```
#[derive(Clone, Copy, Debug)]
pub struct Options {
    /// Whether the output is a terminal. If not, messages alone are written.
    pub output_is_terminal: bool,
    /// Whether text is written with colours and other styles.
    pub colored: bool,
    /// Whether the line of a message shows the time of day at which it was sent, in UTC.
    pub timestamp: bool,
    /// The columns and the rows of the terminal.
    pub terminal_dimensions: (u16, u16),
    /// Whether the first frame hides the cursor of a terminal. The closing frame shows it again.
    pub hide_cursor: bool,
    /// Whether each frame erases the rows of a terminal that it writes on, and all rows below
    /// them, draws no more rows than the terminal has, and lets no line wrap. Then nothing is left
    /// on screen of what other programs print between two frames, of a terminal whose size has
    /// changed, or of a line that the terminal takes for wider than its row.
    ///
    /// Also whether U+FFFD is written in place of each unsafe character of a name, an origin, a
    /// message or a text of a unit, on a terminal or not: of each control character, each
    /// character with Unicode's property Bidi_Control, U+2028, U+2029 and U+FEFF.
    pub defensive: bool,
    /// Whether each frame that erases rows is a synchronized update: a terminal that has such
    /// updates shows it only once it is whole.
    pub synchronized: bool,
    /// Whether messages are written whole, with wrapping, where frames erase rows. Then a terminal
    /// copies such a line as one, and lays it out again as its size changes. Otherwise messages are
    /// cut like all lines.
    pub whole_messages: bool,
    /// Whether a message without an origin is its text alone, behind its time if times are shown.
    /// Otherwise its text is aligned with those of other messages.
    pub bare_without_origin: bool,
    /// The greatest number of columns of a bar, with the space and the brackets around its cells.
    /// With fewer than four there are no bars. `None` draws each on all columns that are left.
    pub bar_columns: Option<u16>,
    /// Whether the line that says how many rows are hidden is written in ASCII, with three dots in
    /// place of an ellipsis. Texts are written as they are.
    pub ascii: bool,
    /// Whether a row with progress shows its time, and frames are drawn while that goes on: how
    /// long the task has run, how long the rest takes, for how long there was no step, or how long
    /// it took. The bar gives way to it.
    pub times: bool,
    /// Whether the rows of running tasks are drawn before others where not all fit, then the rows
    /// above them, those of waiting tasks, the rows above those, and last those of finished tasks.
    /// They keep their order. Otherwise the first rows are drawn.
    pub prefer_running: bool,
    /// Whether rows show the throughput of values whose unit asks for it.
    pub throughput: bool,
    /// The lowest and the highest level of the rows that are drawn, or `None` to draw all rows.
    pub level_filter: Option<(Level, Level)>,
    /// The delay until rows are drawn, in nanoseconds. Messages are printed from the start.
    pub initial_delay: Option<u64>,
    /// The interval between frames, in nanoseconds.
    pub nanoseconds_per_frame: u64,
    /// Whether the renderer keeps running after a frame that sees no rows. If not, such a frame
    /// closes it.
    pub keep_running_if_progress_is_empty: bool,
}

/// The stream that a renderer writes to.
#[derive(Clone, Copy, Debug)]
pub enum StreamKind {
    /// Standard output.
    Stdout,
    /// Standard error.
    Stderr,
}
