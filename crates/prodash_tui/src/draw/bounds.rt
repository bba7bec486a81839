use prodash_core::render::tui::Rect;

/// Where the parts of a dashboard are.
#[derive(Clone, Copy, Debug, PartialEq, Eq)]
pub struct Bounds {
    /// The window, with its border.
    pub window: Rect,
    /// The tasks.
    pub tasks: Rect,
    /// The messages, if they are shown.
    pub messages: Option<Rect>,
    /// The information, if it is shown.
    pub information: Option<Rect>,
}
