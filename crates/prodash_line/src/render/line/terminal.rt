//! What the environment of a program says about the terminal, and the words that name its size.
ghost use Rattle.std.specs.Prelude.{◌≡◌, SomeIff};
ghost use Rattle.std.specs.Str.Parse.{digits_value};
ghost use Rattle.prodash_line.specs.Dimensions.{IsDimension};
ghost use Rattle.prodash_line.specs.Environments as environments;
ghost use Rattle.prodash_line.specs.Environments.{IsSaidBy, IsReadFrom};

mod locale;
mod source;
mod variables;

use crate::render::line::terminal::locale::is_utf8_locale;
pub use crate::render::line::terminal::source::VariableSource;
pub use crate::render::line::terminal::variables::Variables;

/// The greatest number of bytes of a value that is read.
const GREATEST_LENGTH: usize = 32;

/// Whether texts have colours and other styles.
#[derive(Clone, Copy, Debug, PartialEq, Eq)]
pub enum ColorChoice {
    /// On a terminal alone.
    Auto,
    /// Off a terminal too.
    Always,
    /// Nowhere.
    Never,
}

impl ColorChoice {
    /// Returns whether texts have colours on an output that is a terminal, or is none.
    pub fn is_colored(self, is_terminal: bool) -> bool
        ensures { result ≡ environments.is_colored self is_terminal }
    {
        match self {
            ColorChoice::Auto => is_terminal,
            ColorChoice::Always => true,
            ColorChoice::Never => false,
        }
    }
}

/// What the environment says about the terminal.
#[derive(Clone, Copy, Debug, PartialEq, Eq)]
pub struct Environment {
    /// Whether texts have colours.
    pub colors: ColorChoice,
    /// Whether a terminal can show frames: `TERM` is set, and isn't `dumb`.
    pub shows_frames: bool,
    /// Whether the locale's texts are in UTF-8.
    pub is_utf8: bool,
    /// The columns of the terminal, if known.
    pub columns: Option<u16>,
    /// The rows of the terminal, if known.
    pub rows: Option<u16>,
}

impl Environment {
    /// Returns what the values of these variables say.
    ///
    /// - `NO_COLOR` disables colours unless it is empty, whatever the others say. Else
    ///   `CLICOLOR_FORCE` enables them, unless it is empty or `0`, and so does `FORCE_COLOR`, unless
    ///   it is empty, `0` or `false`. Else `CLICOLOR` disables them if it is `0`.
    /// - A terminal shows frames unless `TERM` is empty or `dumb`.
    /// - The locale is the first of `LC_ALL`, `LC_CTYPE` and `LANG` that isn't empty. It is one of
    ///   UTF-8 if its codeset is `UTF-8` or `utf8`, in letters of any case.
    /// - A size that isn't written in decimal digits alone, or isn't from 1 to 65535, is not known.
    pub fn new(variables: &Variables<'_>) -> Environment
        ensures { IsSaidBy variables.now result }
    {
        Environment {
            colors: variables.colors(),
            shows_frames: variables.shows_frames(),
            is_utf8: is_utf8_locale(variables.locale()),
            columns: dimension(variables.columns),
            rows: dimension(variables.lines),
        }
    }

    /// Reads the variables. A value that has more than 32 bytes or isn't UTF-8 counts as `?`.
    pub fn read<R: VariableSource>(rt: &R) -> Environment
        ensures { IsReadFrom (R.gave rt.now) result }
    {
        let mut no_color = [0; GREATEST_LENGTH];
        let mut clicolor = [0; GREATEST_LENGTH];
        let mut clicolor_force = [0; GREATEST_LENGTH];
        let mut force_color = [0; GREATEST_LENGTH];
        let mut term = [0; GREATEST_LENGTH];
        let mut lc_all = [0; GREATEST_LENGTH];
        let mut lc_ctype = [0; GREATEST_LENGTH];
        let mut lang = [0; GREATEST_LENGTH];
        let mut columns = [0; GREATEST_LENGTH];
        let mut lines = [0; GREATEST_LENGTH];
        Environment::new(&Variables {
            no_color: rt.variable("NO_COLOR", &mut no_color),
            clicolor: rt.variable("CLICOLOR", &mut clicolor),
            clicolor_force: rt.variable("CLICOLOR_FORCE", &mut clicolor_force),
            force_color: rt.variable("FORCE_COLOR", &mut force_color),
            term: rt.variable("TERM", &mut term),
            lc_all: rt.variable("LC_ALL", &mut lc_all),
            lc_ctype: rt.variable("LC_CTYPE", &mut lc_ctype),
            lang: rt.variable("LANG", &mut lang),
            columns: rt.variable("COLUMNS", &mut columns),
            lines: rt.variable("LINES", &mut lines),
        })
    }
}

/// Parses a number of columns or rows: decimal digits alone, from 1 to 65535.
pub fn dimension(word: &str) -> Option<u16>
    ensures { SomeIff result (IsDimension word.now) (digits_value 10 word.now) }
{
    if word.starts_with('+') {
        return None;
    }
    word.parse::<u16>().ok().filter(|n| *n > 0)
}
