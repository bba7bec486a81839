//! The command line.
use crate::options::{Options, Terminal};
use prodash_programs::{ColorChoice, Environment, dimension};
use std::fmt::{self, Write};

/// What a command line asks for.
#[derive(Clone, Copy, Debug)]
pub enum Command<'a> {
    /// To show the event lines of standard input.
    Run(Options<'a>),
    /// To print `HELP`.
    Help,
    /// To print the version.
    Version,
}

/// What is wrong with a command line.
#[derive(Clone, Copy, Debug)]
pub enum UsageError<'a> {
    /// This argument is no option.
    Unexpected(&'a str),
    /// This option lacks its value.
    NoValue(&'a str),
    /// An option has a value, and takes none.
    UnexpectedValue {
        /// The option.
        option: &'a str,
        /// Its value.
        value: &'a str,
    },
    /// An option has a value that it doesn't take.
    BadValue {
        /// The option.
        option: &'a str,
        /// Its value.
        value: &'a str,
    },
    /// The first of these options is given without the second, on which it depends.
    Alone(&'static str, &'static str),
}

/// The help of the program.
pub static HELP: &str = "Shows progress on a terminal from the event lines of standard input

Usage: prodash-live [OPTIONS]

Options:
      --columns <N>           columns of the terminal [default: $COLUMNS, or 80]
      --rows <N>              rows of the terminal [default: $LINES, or 20]
      --bar-columns <N>       columns of a bar at most, 0 to 65535 [default: 40]
      --fps <N>               frames in a second, 1 to 1000 [default: 6]
      --delay <MILLISECONDS>  time until rows are drawn, up to a day [default: 0]
      --no-color              no colours, as with $NO_COLOR
      --timestamps            messages with their time of day, in UTC
      --no-times              rows without the times of their tasks
      --no-prefer-running     the first rows where not all fit, not those of running tasks first
      --throughput            no effect: units that end in /s have their throughput
      --stdout                draw on standard output, not on standard error
      --strict                end at the first line that is faulty
      --replace-words         a word of one item may be given to another, which drops the first
      --terminal <WHEN>       whether the output is a terminal: auto, always or never
                              [default: auto]; if not, messages alone are written
      --plain <SECONDS>       off a terminal, a line when an item begins or ends, and after every
                              so many seconds one for each that has changed, up to a day; 0 for
                              none [default: 0]
      --summary               at the end, how each item of the first two levels has come out
      --no-summary            no such messages [default]
      --fail-unfinished       status 3 if one of these ended below its maximum, and a message of it
      --dashboard             fill the terminal with a dashboard, which is scrolled by keys;
                              its key ? shows them
      --leave-on-interrupt    with --dashboard: q, Esc and Ctrl-C leave the dashboard at once, and
                              messages are written from then on
      --record <FILE>         record the run, for prodash-replay
      --marks                 a NUL once the options are right, and one behind each frame
  -h, --help                  print help
  -V, --version               print version
";

/// Parses a command line, whose first word is the program's name. An option's value is the next
/// word, or follows `=`. If an option is given twice, the last value counts. `--help` anywhere among
/// the words asks for the help, and else `--version` for the version.
pub fn parse<'a>(words: &'a [String], env: Environment) -> Result<Command<'a>, UsageError<'a>> {
    if has_word(words, "--help") {
        return Ok(Command::Help);
    }
    if has_word(words, "--version") {
        return Ok(Command::Version);
    }
    let mut options = Options::of_environment(env);
    let mut awaits_value = None;
    for word in words.iter().skip(1) {
        let word = word.as_str();
        if let Some(option) = awaits_value.take() {
            if word.starts_with("--") {
                return Err(UsageError::NoValue(option));
            }
            set(&mut options, option, word)?;
            continue;
        }
        match (word, word.split_once('=')) {
            (_, Some((option, value))) if takes_value(option) => set(&mut options, option, value)?,
            (option, None) if takes_value(option) => awaits_value = Some(option),
            ("-h", None) => return Ok(Command::Help),
            ("-V", None) => return Ok(Command::Version),
            (flag, None) if set_flag(&mut options, flag) => {}
            (_, Some((option, value))) if set_flag(&mut options, option) => {
                return Err(UsageError::UnexpectedValue { option, value });
            }
            _ => return Err(UsageError::Unexpected(word)),
        }
    }
    match awaits_value {
        Some(option) => Err(UsageError::NoValue(option)),
        None if options.leaves_on_interrupt && !options.has_dashboard => {
            Err(UsageError::Alone("--leave-on-interrupt", "--dashboard"))
        }
        None => Ok(Command::Run(options)),
    }
}

/// Returns whether a word is among the words after the program's name.
fn has_word(words: &[String], word: &str) -> bool {
    words.iter().skip(1).any(|it| it.as_str() == word)
}

/// Sets an option without a value. Returns whether this is one.
fn set_flag(options: &mut Options<'_>, flag: &str) -> bool {
    match flag {
        "--no-color" => options.colors = ColorChoice::Never,
        "--timestamps" => options.has_timestamps = true,
        "--no-times" => options.has_times = false,
        "--no-prefer-running" => options.prefers_running = false,
        "--throughput" => {}
        "--stdout" => options.to_stdout = true,
        "--strict" => options.is_strict = true,
        "--replace-words" => options.replaces_words = true,
        "--summary" => options.has_summary = true,
        "--no-summary" => options.has_summary = false,
        "--fail-unfinished" => options.fails_unfinished = true,
        "--dashboard" => options.has_dashboard = true,
        "--leave-on-interrupt" => options.leaves_on_interrupt = true,
        "--marks" => options.has_marks = true,
        _ => return false,
    }
    true
}

/// Returns whether this is an option with a value.
fn takes_value(option: &str) -> bool {
    matches!(
        option,
        "--columns"
            | "--rows"
            | "--bar-columns"
            | "--fps"
            | "--delay"
            | "--terminal"
            | "--plain"
            | "--record"
    )
}

/// Sets an option with a value.
fn set<'a>(
    options: &mut Options<'a>,
    option: &'a str,
    value: &'a str,
) -> Result<(), UsageError<'a>> {
    let bad = UsageError::BadValue { option, value };
    match option {
        "--columns" => options.dimensions.0 = dimension(value).ok_or(bad)?,
        "--rows" => options.dimensions.1 = dimension(value).ok_or(bad)?,
        "--bar-columns" => options.bar_columns = value.parse::<u16>().ok().ok_or(bad)?,
        "--fps" => options.frames = number(value, 1, 1000).ok_or(bad)?,
        "--delay" => options.delay = number(value, 0, 86_400_000).ok_or(bad)?,
        "--terminal" => options.terminal = terminal(value).ok_or(bad)?,
        "--plain" => options.plain = positive(number(value, 0, 86_400).ok_or(bad)?),
        "--record" => options.record = Some(value),
        _ => return Err(bad),
    }
    Ok(())
}

/// Parses a number from `least` to `greatest`.
fn number(value: &str, least: u64, greatest: u64) -> Option<u64> {
    let number = value.parse::<u64>().ok()?;
    if least <= number && number <= greatest {
        Some(number)
    } else {
        None
    }
}

/// Returns a number unless it is 0.
fn positive(number: u64) -> Option<u64> {
    if number == 0 { None } else { Some(number) }
}

/// Parses whether the output is a terminal.
fn terminal(value: &str) -> Option<Terminal> {
    match value {
        "auto" => Some(Terminal::Auto),
        "always" => Some(Terminal::Always),
        "never" => Some(Terminal::Never),
        _ => None,
    }
}

/// Returns which values an option takes.
fn values_of(option: &str) -> &'static str {
    match option {
        "--bar-columns" => "a number from 0 to 65535",
        "--fps" => "a number from 1 to 1000",
        "--delay" => "a number from 0 to 86400000",
        "--terminal" => "auto, always or never",
        "--plain" => "a number from 0 to 86400",
        "--record" => "the path of a file",
        _ => "a number from 1 to 65535",
    }
}

impl fmt::Display for UsageError<'_> {
    fn fmt<W: Write>(&self, f: &mut fmt::Formatter<W>) -> fmt::Result {
        match self {
            UsageError::Unexpected(word) if word.starts_with('-') => {
                write!(f, "unexpected argument '{word}'")
            }
            UsageError::Unexpected(word) => {
                write!(
                    f,
                    "unexpected argument '{word}': the lines are read from standard input"
                )
            }
            UsageError::NoValue(option) => {
                let values = values_of(option);
                write!(f, "no value for '{option}', which takes {values}")
            }
            UsageError::UnexpectedValue { option, value } => {
                write!(
                    f,
                    "unexpected value '{value}' for '{option}', which takes none"
                )
            }
            UsageError::Alone(option, other) => write!(f, "'{option}' needs '{other}'"),
            UsageError::BadValue { option, value } => {
                let values = values_of(option);
                write!(
                    f,
                    "invalid value '{value}' for '{option}', which takes {values}"
                )
            }
        }
    }
}
