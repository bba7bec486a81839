//! The variables of the environment that say what a terminal is like.
ghost use Rattle.std.specs.Prelude.{◌≡◌};
ghost use Rattle.prodash_line.specs.Environments.{forces_color, colors_of, shows_frames, locale_of};

use crate::render::line::terminal::ColorChoice;

/// The values of the variables that say what a terminal is like. A variable that isn't set has an
/// empty value.
#[derive(Clone, Copy, Drop)]
pub struct Variables<'a> {
    /// `NO_COLOR`.
    pub no_color: &'a str,
    /// `CLICOLOR`.
    pub clicolor: &'a str,
    /// `CLICOLOR_FORCE`.
    pub clicolor_force: &'a str,
    /// `FORCE_COLOR`.
    pub force_color: &'a str,
    /// `TERM`.
    pub term: &'a str,
    /// `LC_ALL`.
    pub lc_all: &'a str,
    /// `LC_CTYPE`.
    pub lc_ctype: &'a str,
    /// `LANG`.
    pub lang: &'a str,
    /// `COLUMNS`.
    pub columns: &'a str,
    /// `LINES`.
    pub lines: &'a str,
}

impl<'a> Variables<'a> {
    /// Returns whether texts have colours.
    pub(crate) fn colors(&self) -> ColorChoice
        ensures { result ≡ colors_of self.now }
    {
        if !self.no_color.is_empty() {
            ColorChoice::Never
        } else if self.forces_color() {
            ColorChoice::Always
        } else if self.clicolor == "0" {
            ColorChoice::Never
        } else {
            ColorChoice::Auto
        }
    }

    /// Returns whether `CLICOLOR_FORCE` or `FORCE_COLOR` enables colours.
    fn forces_color(&self) -> bool
        ensures { result ≡ forces_color self.now }
    {
        !matches!(self.clicolor_force, "" | "0") || !matches!(self.force_color, "" | "0" | "false")
    }

    /// Returns whether a terminal can show frames.
    pub(crate) fn shows_frames(&self) -> bool
        ensures { result ≡ shows_frames self.now }
    {
        !matches!(self.term, "" | "dumb")
    }

    /// Returns the locale of characters.
    pub(crate) fn locale(&self) -> &'a str
        ensures { result.now ≡ locale_of self.now }
    {
        if !self.lc_all.is_empty() {
            self.lc_all
        } else if !self.lc_ctype.is_empty() {
            self.lc_ctype
        } else {
            self.lang
        }
    }
}
