//! Signs that say the severity of a message.
use prodash::messages::MessageLevel;
use prodash::render::line;

/// Which signs stand before the origins of messages.
#[derive(Clone, Copy, Debug, PartialEq, Eq)]
pub enum Signs {
    /// None: colours say the severity.
    Absent,
    /// `✓` and `✗`.
    Unicode,
    /// `+` and `!`.
    Ascii,
}

impl Signs {
    /// Returns the signs that go with the options of a renderer.
    pub fn for_rendering(options: &line::Options) -> Signs {
        match (options.colored, options.ascii) {
            (true, _) => Signs::Absent,
            (false, false) => Signs::Unicode,
            (false, true) => Signs::Ascii,
        }
    }

    /// Returns the sign of a severity, if it has one.
    pub fn of(self, level: MessageLevel) -> Option<&'static str> {
        match (self, level) {
            (Signs::Unicode, MessageLevel::Success) => Some("✓"),
            (Signs::Unicode, MessageLevel::Failure) => Some("✗"),
            (Signs::Ascii, MessageLevel::Success) => Some("+"),
            (Signs::Ascii, MessageLevel::Failure) => Some("!"),
            _ => None,
        }
    }
}
