ghost use Rattle.std.specs.Prelude.{◌<◌};

use prodash_programs::{Fault, dimension};

/// The fault of arguments that are not a command, two dimensions and the options of the command.
pub const USAGE: Fault = Fault::Usage("prodash-replay bytes|page|dashboard COLUMNS ROWS");

/// The help of the program.
pub(super) static HELP: &str =
    "Replays event lines from standard input, and writes the frames that they draw

Usage: prodash-replay bytes|page|dashboard COLUMNS ROWS [OPTIONS]

Arguments:
  bytes          write the bytes of all frames
  page           write the rows that the frames leave on a page
  dashboard      write the bytes of all frames of a dashboard, which fills the terminal
  COLUMNS        columns of the terminal, 1 to 65535
  ROWS           rows of the terminal, 1 to 65535

Options:
  --any-unit  take units of any name, as recordings of prodash-live have
  --help      print help
  --version   print version

Options of bytes and page:
  --defensive       erase the rows that frames write on, as prodash-live does
  --colored         write colours
  --times           rows with the times of their tasks, as prodash-live draws them
  --prefer-running  with --defensive, the rows of running tasks first where not all fit

Options of dashboard:
  --interval <MILLISECONDS>  how often a frame is drawn, which the headline says if that is less
                             than once a second, 1 to 65535 [default: 100]
";

/// What a command line asks for.
#[derive(Clone, Copy, Debug)]
pub(super) enum Command {
    /// To write the frames of the events of the input.
    Frames(FrameOptions),
    /// To write the frames of a dashboard.
    Dashboard(DashboardOptions),
    /// To print `HELP`.
    Help,
    /// To print the version.
    Version,
}

/// What the program writes of the frames.
#[derive(Clone, Copy, Debug, PartialEq, Eq)]
pub(super) enum Format {
    /// The bytes.
    Bytes,
    /// The rows of a page on which they are played.
    Page,
}

/// How events are replayed.
#[derive(Clone, Copy, Debug)]
pub(super) struct FrameOptions {
    pub(super) format: Format,
    /// The columns of the terminal.
    pub(super) columns: u16,
    /// The rows of the terminal.
    pub(super) rows: u16,
    /// Whether frames are defensive.
    pub(super) defensive: bool,
    /// Whether frames have colours.
    pub(super) colored: bool,
    /// Whether units may have any name.
    pub(super) any_unit: bool,
    /// Whether rows have the times of their tasks.
    pub(super) times: bool,
    /// Whether the rows of running tasks are drawn before others where not all fit.
    pub(super) prefer_running: bool,
    ghost wide: { 0 < columns },
    ghost high: { 0 < rows },
}

/// How a dashboard is replayed.
#[derive(Clone, Copy, Debug)]
pub(super) struct DashboardOptions {
    /// The columns of the terminal.
    pub(super) columns: u16,
    /// The rows of the terminal.
    pub(super) rows: u16,
    /// Whether units may have any name.
    pub(super) any_unit: bool,
    /// The interval between frames.
    pub(super) milliseconds_per_frame: u16,
}

/// Parses the command line.
pub(super) fn parse_command_line(words: &[String]) -> Result<Command, Fault> {
    if has_word(words, "--help") {
        return Ok(Command::Help);
    }
    if has_word(words, "--version") {
        return Ok(Command::Version);
    }
    let [_, command, columns, rows, flags @ ..] = words else {
        return Err(USAGE);
    };
    let columns = dimension(columns.as_str()).ok_or(USAGE)?;
    let rows = dimension(rows.as_str()).ok_or(USAGE)?;
    Ok(match command.as_str() {
        "bytes" => Command::Frames(frame_options(Format::Bytes, columns, rows, flags)?),
        "page" => Command::Frames(frame_options(Format::Page, columns, rows, flags)?),
        "dashboard" => Command::Dashboard(dashboard_options(columns, rows, flags)?),
        _ => return Err(USAGE),
    })
}

/// Parses the options of `bytes` and `page`.
fn frame_options(
    format: Format,
    columns: u16,
    rows: u16,
    flags: &[String],
) -> Result<FrameOptions, Fault>
    requires wide { 0 < columns }
    requires high { 0 < rows }
{
    let (mut defensive, mut colored, mut any_unit) = (false, false, false);
    let (mut times, mut prefer_running) = (false, false);
    for flag in flags {
        match flag.as_str() {
            "--defensive" => defensive = true,
            "--colored" => colored = true,
            "--any-unit" => any_unit = true,
            "--times" => times = true,
            "--prefer-running" => prefer_running = true,
            _ => return Err(USAGE),
        }
    }
    Ok(FrameOptions {
        format,
        columns,
        rows,
        defensive,
        colored,
        any_unit,
        times,
        prefer_running,
    })
}

/// Parses the options of `dashboard`.
fn dashboard_options(columns: u16, rows: u16, flags: &[String]) -> Result<DashboardOptions, Fault> {
    let mut any_unit = false;
    let mut milliseconds_per_frame = 100;
    let mut flags = flags.iter();
    while let Some(flag) = flags.next() {
        match flag.as_str() {
            "--any-unit" => any_unit = true,
            "--interval" => {
                let milliseconds = flags.next().ok_or(USAGE)?;
                milliseconds_per_frame = dimension(milliseconds.as_str()).ok_or(USAGE)?;
            }
            _ => return Err(USAGE),
        }
    }
    Ok(DashboardOptions {
        columns,
        rows,
        any_unit,
        milliseconds_per_frame,
    })
}

/// Returns whether a word is among the words after the program's name.
fn has_word(words: &[String], word: &str) -> bool {
    words.iter().skip(1).any(|it| it.as_str() == word)
}
