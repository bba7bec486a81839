//! The options that `detect` makes of the streams and the environment of a runtime.
use crate::fixtures::assert_same;
use prodash::render::line::{Options, StandardStreams, StreamKind};
use std::env::FillError;
use std::rt::Env;

/// A variable, and its value.
type Variable = (&'static str, &'static str);

/// A runtime whose standard error alone is a terminal, with these variables.
#[derive(Clone, Copy)]
struct Surroundings(&'static [Variable]);

impl Surroundings {
    /// The value of a variable, if it is set.
    fn value(&self, name: &str) -> Option<&'static str> {
        self.0
            .iter()
            .find(|(it, _)| *it == name)
            .map(|(_, value)| *value)
    }
}

impl StandardStreams for Surroundings {
    ghost answered = { λ _ stream is_terminal. Unit {0} };

    fn is_terminal(&self, stream: StreamKind) -> bool {
        matches!(stream, StreamKind::Stderr)
    }
}

impl Env for Surroundings {
    fn arg(&self, _i: usize, _buf: &mut [u8]) -> Result<usize, FillError> {
        Err(FillError::NotPresent)
    }

    fn var(&self, name: &str, buf: &mut [u8]) -> Result<usize, FillError> {
        let Some(value) = self.value(name) else {
            return Err(FillError::NotPresent);
        };
        let bytes = value.as_bytes();
        if bytes.len() > buf.len() {
            return Err(FillError::TooLong);
        }
        buf[..bytes.len()].copy_from_slice(bytes);
        Ok(bytes.len())
    }

    fn var_at(&self, _i: usize, _buf: &mut [u8]) -> Result<usize, FillError> {
        Err(FillError::NotPresent)
    }
}

const XTERM: Variable = ("TERM", "xterm");

/// 33 characters don't fit in the buffer.
const LONG: &str = "000000000000000000000000000000007";

/// Variables, and the size.
#[rattlefmt::skip]
const SIZES: &[(&[Variable], (u16, u16))] = &[
    (&[], (80, 20)),
    (&[("COLUMNS", "120"), ("LINES", "40")], (120, 40)),
    (&[("COLUMNS", "120")], (120, 20)),
    (&[("LINES", "65535")], (80, 65535)),
    (&[("COLUMNS", "0"), ("LINES", "65536")], (80, 20)),
    (&[("COLUMNS", "+120"), ("LINES", " 40")], (80, 20)),
    (&[("COLUMNS", ""), ("LINES", "many")], (80, 20)),
    (&[("COLUMNS", LONG), ("LINES", "007")], (80, 7)),
];

/// Variables, whether a terminal is one for frames, and whether it and another output have colours.
#[rattlefmt::skip]
const COLORS: &[(&[Variable], bool, (bool, bool))] = &[
    (&[], false, (false, false)),
    (&[("TERM", "")], false, (false, false)),
    (&[("TERM", "dumb")], false, (false, false)),
    (&[XTERM], true, (true, false)),
    (&[("TERM", "dumber")], true, (true, false)),
    (&[("TERM", LONG)], true, (true, false)),
    // NO_COLOR
    (&[XTERM, ("NO_COLOR", "1")], true, (false, false)),
    (&[XTERM, ("NO_COLOR", "0")], true, (false, false)),
    (&[XTERM, ("NO_COLOR", LONG)], true, (false, false)),
    (&[XTERM, ("NO_COLOR", "")], true, (true, false)),
    // CLICOLOR
    (&[XTERM, ("CLICOLOR", "0")], true, (false, false)),
    (&[XTERM, ("CLICOLOR", "1")], true, (true, false)),
    (&[XTERM, ("CLICOLOR", "")], true, (true, false)),
    // CLICOLOR_FORCE
    (&[XTERM, ("CLICOLOR_FORCE", "1")], true, (true, true)),
    (&[XTERM, ("CLICOLOR_FORCE", "false")], true, (true, true)),
    (&[XTERM, ("CLICOLOR_FORCE", "0")], true, (true, false)),
    (&[XTERM, ("CLICOLOR_FORCE", "")], true, (true, false)),
    // FORCE_COLOR
    (&[XTERM, ("FORCE_COLOR", "1")], true, (true, true)),
    (&[XTERM, ("FORCE_COLOR", "true")], true, (true, true)),
    (&[XTERM, ("FORCE_COLOR", "0")], true, (true, false)),
    (&[XTERM, ("FORCE_COLOR", "false")], true, (true, false)),
    (&[XTERM, ("FORCE_COLOR", "")], true, (true, false)),
    // which of them win
    (&[("TERM", "dumb"), ("FORCE_COLOR", "1")], false, (true, true)),
    (&[XTERM, ("CLICOLOR", "0"), ("CLICOLOR_FORCE", "1")], true, (true, true)),
    (&[XTERM, ("CLICOLOR", "0"), ("CLICOLOR_FORCE", "0")], true, (false, false)),
    (&[XTERM, ("FORCE_COLOR", "0"), ("CLICOLOR_FORCE", "1")], true, (true, true)),
    (&[XTERM, ("NO_COLOR", "1"), ("CLICOLOR_FORCE", "1")], true, (false, false)),
    (&[XTERM, ("NO_COLOR", "1"), ("FORCE_COLOR", "1")], true, (false, false)),
    (&[XTERM, ("NO_COLOR", ""), ("FORCE_COLOR", "1")], true, (true, true)),
];

/// Variables, and whether frames are in ASCII.
#[rattlefmt::skip]
const LOCALES: &[(&[Variable], bool)] = &[
    (&[], true),
    (&[("LANG", "C")], true),
    (&[("LANG", "C.UTF-8")], false),
    (&[("LANG", "de_DE.utf8")], false),
    (&[("LANG", "de_DE.Utf-8@euro")], false),
    (&[("LANG", "UTF-8")], false),
    (&[("LANG", "de_DE.ISO-8859-1")], true),
    (&[("LANG", "de_DE@UTF-8")], true),
    (&[("LANG", "de_DE.UTF-8.x")], true),
    (&[("LANG", "de_DE.utf-16")], true),
    (&[("LANG", LONG)], true),
    (&[("LC_CTYPE", "C.UTF-8")], false),
    (&[("LC_CTYPE", "C"), ("LANG", "C.UTF-8")], true),
    (&[("LC_CTYPE", ""), ("LANG", "C.UTF-8")], false),
    (&[("LC_ALL", "C.UTF-8")], false),
    (&[("LC_ALL", "POSIX"), ("LC_CTYPE", "C.UTF-8"), ("LANG", "C.UTF-8")], true),
    (&[("LC_ALL", "C.UTF-8"), ("LC_CTYPE", "C"), ("LANG", "C")], false),
    (&[("LC_ALL", ""), ("LC_CTYPE", "C.UTF-8"), ("LANG", "C")], false),
];

/// The options for a terminal and for another output.
fn detected(variables: &'static [Variable]) -> (Options, Options) {
    let around = Surroundings(variables);
    (
        Options::detect(&around, StreamKind::Stderr),
        Options::detect(&around, StreamKind::Stdout),
    )
}

#[test]
fn sizes_are_those_of_the_environment(rt: HostRuntime) {
    for (variables, size) in SIZES {
        let (terminal, other) = detected(*variables);
        assert_same(&rt, terminal.terminal_dimensions, *size, variables);
        assert_same(&rt, other.terminal_dimensions, *size, variables);
    }
}

#[test]
fn colors_are_those_of_the_environment(rt: HostRuntime) {
    for (variables, is_terminal, colored) in COLORS {
        let (terminal, other) = detected(*variables);
        assert_same(&rt, terminal.output_is_terminal, *is_terminal, variables);
        assert_same(&rt, other.output_is_terminal, false, variables);
        assert_same(&rt, (terminal.colored, other.colored), *colored, variables);
    }
}

#[test]
fn frames_are_in_ascii_unless_the_locale_is_one_of_utf8(rt: HostRuntime) {
    for (variables, ascii) in LOCALES {
        let (terminal, other) = detected(*variables);
        assert_same(
            &rt,
            (terminal.ascii, other.ascii),
            (*ascii, *ascii),
            variables,
        );
    }
}
