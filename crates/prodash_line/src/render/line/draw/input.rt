//! Inputs of the renderer, its options, and its answers.
ghost use Rattle.std.specs.Prelude.{◌≡◌};
ghost use Rattle.prodash_line.specs.DrawnLines.{limit_of, message_limit_of, erases_rows, prefers_running, layout_of};
ghost use Rattle.prodash_line.specs.Renderer.{default_options};

use crate::render::line::draw::layout::Layout;
use prodash_base::messages::{MessageCopyState, Messages};
use prodash_base::progress::{Level, Rows};
use prodash_base::time::Moment;

/// How frames are drawn.
///
/// ```rust
/// let options = Options {
///     terminal_dimensions: (120, 40),
///     ..Options::default()
/// };
/// ```
#[derive(Clone, Copy, Debug)]
pub struct Options {
    /// The lowest and the highest level of the rows that are drawn. `None` draws all rows.
    pub level_filter: Option<(Level, Level)>,
    /// The columns and the rows of the terminal. Lines that are wider are cut, if the output is a
    /// terminal.
    pub terminal_dimensions: (u16, u16),
    /// Whether the renderer keeps running after a tick that sees no rows. Otherwise such a tick
    /// closes it.
    pub keep_running_if_progress_is_empty: bool,
    /// Whether the output is a terminal. Otherwise only messages are written.
    pub output_is_terminal: bool,
    /// Whether texts are written in colours and other styles.
    pub colored: bool,
    /// Whether the line of a message shows the time of day at which it was sent, in UTC.
    pub timestamp: bool,
    /// Whether the first frame hides the cursor of a terminal. The closing frame shows it again.
    pub hide_cursor: bool,
    /// Whether each frame erases the rows of a terminal that it writes on, and all rows below
    /// them, draws no more rows than the terminal has, and lets no line wrap. Then nothing is left
    /// on screen of what other programs print between two frames, of a terminal whose size has
    /// changed, or of a line that the terminal takes for wider than its row.
    ///
    /// Also whether U+FFFD is written in place of each unsafe character of a name, an origin, a
    /// message or a text of a unit, on a terminal or not: of each control character, each
    /// character with Unicode's property Bidi_Control, U+2028, U+2029 and U+FEFF.
    pub defensive: bool,
    /// Whether each frame that erases rows is a synchronized update: a terminal that has such
    /// updates shows it only once it is whole.
    pub synchronized: bool,
    /// Whether messages are written whole, with wrapping, where frames erase rows. Then a terminal
    /// copies such a line as one, and lays it out again as its size changes. Otherwise messages are
    /// cut like all lines.
    pub whole_messages: bool,
    /// Whether a message without an origin is its text alone, behind its time if times are shown.
    /// Otherwise its text is aligned with those of other messages.
    pub bare_without_origin: bool,
    /// The greatest number of columns of a bar, with the space and the brackets around its cells.
    /// With fewer than four there are no bars. `None` draws each on all columns that are left.
    pub bar_columns: Option<u16>,
    /// Whether the line that says how many rows are hidden is written in ASCII, with three dots in
    /// place of an ellipsis. Texts are written as they are.
    pub ascii: bool,
    /// Whether a row with progress shows its time, and a tick draws while that goes on: how long
    /// the task has run, how long the rest takes, for how long there was no step, or how long it
    /// took. The bar gives way to it.
    pub times: bool,
    /// Whether the rows of running tasks are drawn before others where not all fit, then the rows
    /// above them, those of waiting tasks, the rows above those, and last those of finished tasks.
    /// They keep their order. Otherwise the first rows are drawn.
    pub prefer_running: bool,
}

impl Default for Options {
    /// Returns options for a coloured terminal of 80 columns and 20 rows. Rows of all levels are
    /// drawn, messages have no timestamps, the cursor stays visible, frames are neither
    /// defensive nor synchronized, messages are cut, and aligned without an origin too, bars take
    /// all columns that are left, rows show no times, the first rows are drawn if not all fit, and
    /// the renderer keeps running without rows.
    fn default() -> Options
        ensures { result ≡ default_options }
    {
        Options {
            level_filter: None,
            terminal_dimensions: (80, 20),
            keep_running_if_progress_is_empty: true,
            output_is_terminal: true,
            colored: true,
            timestamp: false,
            hide_cursor: false,
            defensive: false,
            synchronized: false,
            whole_messages: false,
            bare_without_origin: false,
            bar_columns: None,
            ascii: false,
            times: false,
            prefer_running: false,
        }
    }
}

impl Options {
    /// Returns the columns to which lines are cut: those of the terminal. `None` if the output
    /// isn't a terminal, since lines are then written whole.
    pub(crate) fn width_limit(&self) -> Option<u16>
        ensures { result ≡ limit_of self.now }
    {
        self.output_is_terminal
            .then_some(self.terminal_dimensions.0)
    }

    /// Returns the columns to which messages are cut. `None` if they are written whole.
    pub(crate) fn message_limit(&self) -> Option<u16>
        ensures { result ≡ message_limit_of self.now }
    {
        if self.layout().prints_whole() {
            None
        } else {
            self.width_limit()
        }
    }

    /// Whether frames erase the rows that they write on.
    pub(crate) fn erases_rows(&self) -> bool
        ensures { result ≡ erases_rows self.now }
    {
        self.defensive && self.output_is_terminal
    }

    /// Whether rows of running tasks are drawn before others where frames have room for some only.
    pub(crate) fn prefers_running(&self) -> bool
        ensures { result ≡ prefers_running self.now }
    {
        self.prefer_running && self.erases_rows()
    }

    /// Returns how frames are laid out.
    pub(crate) fn layout(&self) -> Layout
        ensures { result ≡ layout_of self.now }
    {
        if self.erases_rows() {
            Layout::Erasing {
                height: self.terminal_dimensions.1,
                synchronized: self.synchronized,
                whole_messages: self.whole_messages,
            }
        } else {
            Layout::Overwriting
        }
    }
}

/// An input of the renderer, for which it draws one frame.
#[derive(Debug, Drop)]
pub enum Input {
    /// Prints the new messages, and draws the rows if they are shown and have changed. Closes the
    /// renderer if there is no root, or if there are no rows and the renderer isn't to keep
    /// running.
    Tick {
        /// The time of the tick.
        at: Moment,
        /// Whether the rows are shown or hidden. Hidden rows are remembered but not drawn.
        show: bool,
        /// What the tick sees of a tree with a root: its rows, ascending by key; the messages that
        /// came since the state that `State::seen` returns; and the state after them.
        seen: Option<(Rows, Messages, MessageCopyState)>,
    },
    /// Sets the size of the terminal, and draws the rows of the latest tick if they are shown.
    Resize {
        /// The time of the input.
        at: Moment,
        /// Whether the rows are shown or hidden.
        show: bool,
        /// The columns of the terminal.
        columns: u16,
        /// The rows of the terminal.
        rows: u16,
    },
    /// Closes the renderer.
    Quit {
        /// The time of the input.
        at: Moment,
    },
}

/// The answer to an accepted input.
#[derive(Clone, Copy, Debug, PartialEq, Eq)]
pub enum Answer {
    /// The frame was written. It may have had no bytes.
    Drawn,
    /// The closing frame was written.
    Ended,
}
