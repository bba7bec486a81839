//! How the character of a cell looks.
ghost use Rattle.std.specs.Prelude.{◌≡◌, true, false};
ghost use Rattle.prodash_tui.specs.Cells.{same_style};

/// A colour.
#[derive(Clone, Copy, Debug, PartialEq, Eq)]
pub enum Color {
    /// Black.
    Black,
    /// Red.
    Red,
    /// Green.
    Green,
    /// Yellow.
    Yellow,
    /// White.
    White,
    /// Light red.
    LightRed,
}

/// How the character of a cell looks.
#[derive(Clone, Copy, Debug, Default, PartialEq, Eq)]
pub struct Style {
    /// Whether the character is bold.
    pub bold: bool,
    /// The colour of the character; that of the terminal if this is `None`.
    pub foreground: Option<Color>,
    /// The colour behind the character; that of the terminal if this is `None`.
    pub background: Option<Color>,
}

impl Style {
    /// Returns the plain style: not bold, and in the colours of the terminal.
    pub const fn new() -> Style
        ensures { result ≡ record { bold = false; foreground = None; background = None } }
    {
        Style {
            bold: false,
            foreground: None,
            background: None,
        }
    }

    /// Returns the style in bold.
    pub const fn bold(self) -> Style
        ensures { result ≡ record self { bold = true } }
    {
        Style { bold: true, ..self }
    }

    /// Returns the style with this colour of the character.
    pub const fn fg(self, color: Color) -> Style
        ensures { result ≡ record self { foreground = Some color } }
    {
        Style {
            foreground: Some(color),
            ..self
        }
    }

    /// Returns the style with this colour behind the character.
    pub const fn bg(self, color: Color) -> Style
        ensures { result ≡ record self { background = Some color } }
    {
        Style {
            background: Some(color),
            ..self
        }
    }
}

/// Returns whether two styles are the same.
pub(crate) fn same_style(a: Style, b: Style) -> bool
    ensures { result ≡ same_style a b }
{
    a == b
}
