//! What the program is asked for.
ghost use Rattle.std.specs.Prelude.{◌≡◌, Some};
ghost use Rattle.prodash_line.specs.Environments.{is_colored};

use prodash::Refusal;
use prodash::render::{line, tui};
use prodash_programs::{ColorChoice, Environment};
use std::alloc::Global;

/// The title of a dashboard whose script gives it none.
static TITLE: &str = "Progress (? = keys)";

/// Whether the output is a terminal.
#[derive(Clone, Copy, Debug, PartialEq, Eq)]
pub enum Terminal {
    /// As the system says, unless the environment says that it can't show frames.
    Auto,
    /// It is.
    Always,
    /// It is not: messages alone are written.
    Never,
}

/// What the command line and the environment ask for.
#[derive(Clone, Copy, Debug)]
pub struct Options<'a> {
    /// The columns and the rows of the terminal.
    pub dimensions: (u16, u16),
    /// The greatest number of columns of a bar.
    pub bar_columns: u16,
    /// The frames per second, at least 1.
    pub frames: u64,
    /// The milliseconds until rows are drawn.
    pub delay: u64,
    /// Whether there are colours.
    pub colors: ColorChoice,
    /// Whether signs are in ASCII.
    pub is_ascii: bool,
    /// Whether messages have their time of day.
    pub has_timestamps: bool,
    /// Whether rows on a terminal say how long their tasks have run, and still take.
    pub has_times: bool,
    /// Whether the rows of running tasks are drawn before others where not all fit.
    pub prefers_running: bool,
    /// Whether to draw on standard output in place of standard error.
    pub to_stdout: bool,
    /// Whether the first faulty line ends the program.
    pub is_strict: bool,
    /// Whether an item whose word is given to another one is dropped.
    pub replaces_words: bool,
    /// The seconds after which plain lines say what has changed, if an output that is no terminal
    /// has plain lines.
    pub plain: Option<u64>,
    /// Whether the end says how the items of the first two levels have come out.
    pub has_summary: bool,
    /// Whether an item of the first two levels that hasn't finished is a failure.
    pub fails_unfinished: bool,
    /// Whether a terminal has a dashboard in place of rows.
    pub has_dashboard: bool,
    /// Whether a request to interrupt leaves the dashboard at once.
    pub leaves_on_interrupt: bool,
    /// Whether the output has a mark at its beginning and behind each frame.
    pub has_marks: bool,
    /// Whether the output is a terminal.
    pub terminal: Terminal,
    /// Whether a terminal of this environment can show frames.
    pub shows_frames: bool,
    /// The path of the file to which the run is recorded.
    pub record: Option<&'a str>,
}

impl<'a> Options<'a> {
    /// Returns the options of a command line without words.
    pub fn of_environment(env: Environment) -> Options<'a> {
        Options {
            dimensions: (env.columns.unwrap_or(80), env.rows.unwrap_or(20)),
            bar_columns: 40,
            frames: 6,
            delay: 0,
            colors: env.colors,
            is_ascii: !env.is_utf8,
            has_timestamps: false,
            has_times: true,
            prefers_running: true,
            to_stdout: false,
            is_strict: false,
            replaces_words: false,
            plain: None,
            has_summary: false,
            fails_unfinished: false,
            has_dashboard: false,
            leaves_on_interrupt: false,
            has_marks: false,
            terminal: Terminal::Auto,
            shows_frames: env.shows_frames,
            record: None,
        }
    }

    /// Returns the options of the renderer. `is_terminal` is whether the system says that the output
    /// is a terminal.
    pub fn render(&self, is_terminal: bool) -> line::Options
        ensures colors { result.colored ≡ is_colored self.now.colors result.output_is_terminal }
        ensures size { result.terminal_dimensions ≡ self.now.dimensions }
        ensures bars { result.bar_columns ≡ Some self.now.bar_columns }
    {
        let output_is_terminal = match self.terminal {
            Terminal::Auto => is_terminal && self.shows_frames,
            Terminal::Always => true,
            Terminal::Never => false,
        };
        line::Options {
            output_is_terminal,
            colored: self.colors.is_colored(output_is_terminal),
            ascii: self.is_ascii,
            timestamp: self.has_timestamps,
            terminal_dimensions: self.dimensions,
            bar_columns: Some(self.bar_columns),
            throughput: true,
            times: self.has_times,
            prefer_running: self.prefers_running,
            defensive: true,
            synchronized: !self.has_marks,
            whole_messages: true,
            bare_without_origin: true,
            initial_delay: Some(self.delay.saturating_mul(1_000_000)),
            nanoseconds_per_frame: self.nanoseconds_per_frame(),
            ..line::Options::default()
        }
    }
    /// Returns the options of the dashboard.
    ///
    /// # Errors
    ///
    /// `Memory`, if there is no memory for its title.
    pub fn dashboard(&self, alloc: Global) -> Result<tui::Options, Refusal> {
        Ok(tui::Options {
            title: String::from_str(alloc, TITLE)?,
            nanoseconds_per_frame: self.nanoseconds_per_frame(),
            throughput: true,
            stop_if_progress_missing: false,
            ..tui::Options::create(alloc)?
        })
    }

    /// Returns the nanoseconds between frames.
    fn nanoseconds_per_frame(&self) -> u64 {
        1_000_000_000 / self.frames.max(1)
    }
}
