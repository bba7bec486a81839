//! How frames are laid out on a terminal.
ghost use Rattle.std.specs.Prelude.{◌≡◌};
ghost use Rattle.prodash_line.specs.DrawnLines.{prints_whole};
ghost use Rattle.prodash_line.specs.Frames.{covered, message_layout};

/// How frames are laid out.
#[derive(Clone, Copy, Debug, PartialEq, Eq)]
pub(crate) enum Layout {
    /// Lines are written over those on screen, whose widths are known.
    Overwriting,
    /// Lines are written on rows that are erased first.
    Erasing {
        /// The rows of the window.
        height: u16,
        /// Whether each frame is a synchronized update.
        synchronized: bool,
        /// Whether messages are written whole, with wrapping.
        whole_messages: bool,
    },
}

impl Layout {
    /// Returns the widths of the lines on screen that lines are written over: none on rows that are
    /// erased first.
    pub(crate) fn covered_widths(self, widths: &[u16]) -> &[u16]
        ensures { result.now ≡ covered self widths.now }
    {
        match self {
            Layout::Overwriting => widths,
            Layout::Erasing { .. } => &[],
        }
    }

    /// Whether messages are written whole, with wrapping.
    pub(crate) fn prints_whole(self) -> bool
        ensures { result ≡ prints_whole self }
    {
        match self {
            Layout::Overwriting => false,
            Layout::Erasing { whole_messages, .. } => whole_messages,
        }
    }

    /// Returns how the lines of messages are laid out: whole ones are written on rows that are
    /// blank.
    pub(crate) fn of_messages(self) -> Layout
        ensures { result ≡ message_layout self }
    {
        if self.prints_whole() {
            Layout::Overwriting
        } else {
            self
        }
    }
}
