//! How a text looks.
ghost use Rattle.std.specs.Prelude.{◌≡◌, true, false, Some, None};

/// The colour of a text.
#[derive(Clone, Copy, Debug, PartialEq, Eq)]
pub enum Color {
    /// SGR 31.
    Red,
    /// SGR 32.
    Green,
    /// SGR 33.
    Yellow,
    /// SGR 36.
    Cyan,
    /// SGR 37.
    White,
}

/// How a text looks.
///
/// ```rust
/// // `CSI 1 ; 36 m`
/// let name = Sign::Open(Style::new().bold().fg(Color::Cyan));
/// ```
#[derive(Clone, Copy, Debug, Default, PartialEq, Eq)]
pub struct Style {
    /// SGR 1.
    pub bold: bool,
    /// SGR 2.
    pub dim: bool,
    /// The colour of the text.
    pub color: Option<Color>,
    /// SGR 43: the background is yellow.
    pub on_yellow: bool,
}

impl Style {
    /// Returns the plain style, which has no code.
    pub fn new() -> Self
        ensures { result ≡
            record { bold = false; dim = false; color = None; on_yellow = false } }
    {
        Style {
            bold: false,
            dim: false,
            color: None,
            on_yellow: false,
        }
    }

    /// Returns the style in bold.
    pub fn bold(self) -> Self
        ensures { result ≡ record self { bold = true } }
    {
        Style { bold: true, ..self }
    }

    /// Returns the style dimmed.
    pub fn dimmed(self) -> Self
        ensures { result ≡ record self { dim = true } }
    {
        Style { dim: true, ..self }
    }

    /// Returns the style with this colour of the text.
    pub fn fg(self, color: Color) -> Self
        ensures { result ≡ record self { color = Some color } }
    {
        Style {
            color: Some(color),
            ..self
        }
    }

    /// Returns the style on a yellow background.
    pub fn on_yellow(self) -> Self
        ensures { result ≡ record self { on_yellow = true } }
    {
        Style {
            on_yellow: true,
            ..self
        }
    }
}
