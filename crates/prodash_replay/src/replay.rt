//! Replays event lines.
mod command;
mod dashboard;
mod frames;
mod lines;

pub use command::USAGE;
use command::{Command, Format, FrameOptions, HELP, parse_command_line};
use prodash_programs::{Fault, report, version_line, write_all};
use std::alloc::Global;
use std::io::{Read, Write};

/// Runs the program: replays the lines of `input`. `words` are the program's name, and then `bytes`,
/// `page` or `dashboard`, `COLUMNS` and `ROWS`, and perhaps options of that command. `bytes` writes
/// the bytes of all frames to `out`; `page` plays them on a page of that size and writes each row
/// that it ever had, without trailing blanks; `dashboard` writes the bytes of the frames of a
/// dashboard. With `--help` anywhere among the words the help is written instead, and else with
/// `--version` the version. Returns the exit status.
///
/// If anything fails, one line on `err` says what. Unless it was `out` that failed, nothing has
/// been written to `out` then.
pub fn replay<R: Read, O: Write, E: Write>(
    alloc: Global,
    words: &[String],
    input: &mut R,
    out: &mut O,
    err: &mut E,
) -> u8 {
    match write_replay(alloc, words, input, out) {
        Ok(()) => 0,
        Err(fault) => report(err, fault),
    }
}

/// Does what `replay` does on `out`. Nothing has been written to it if anything else failed.
fn write_replay<R: Read, O: Write>(
    alloc: Global,
    words: &[String],
    input: &mut R,
    out: &mut O,
) -> Result<(), Fault> {
    match parse_command_line(words)? {
        Command::Frames(options) => write_frames(alloc, &options, input, out),
        Command::Dashboard(options) => {
            let bytes = dashboard::drawn(alloc, &options, input)?;
            write_all(out, &bytes)
        }
        Command::Help => write_all(out, HELP.as_bytes()),
        Command::Version => {
            let line = version_line(alloc, "prodash-replay")?;
            write_all(out, line.as_bytes())
        }
    }
}

/// Writes the frames of the events of the input.
fn write_frames<R: Read, O: Write>(
    alloc: Global,
    options: &FrameOptions,
    input: &mut R,
    out: &mut O,
) -> Result<(), Fault> {
    let screen = frames::drawn(alloc, options, input)?;
    match options.format {
        Format::Bytes => write_all(out, screen.bytes()),
        Format::Page => {
            let rows = frames::rows_written(alloc, options, screen.bytes())?;
            write_all(out, &rows)
        }
    }
}
