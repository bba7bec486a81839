/// A rectangle of a terminal's cells.
#[derive(Clone, Copy, Debug, Default, PartialEq, Eq)]
pub struct Rect {
    /// The leftmost column.
    pub x: u16,
    /// The topmost row.
    pub y: u16,
    /// The number of columns.
    pub width: u16,
    /// The number of rows.
    pub height: u16,
}

/// The code of a key.
#[derive(Clone, Copy, Debug, PartialEq, Eq)]
pub enum KeyCode {
    /// A key that writes this character.
    Char(char),
    /// The escape key.
    Esc,
    /// Any other key.
    Other,
}

/// A key that was pressed or released.
#[derive(Clone, Copy, Debug, PartialEq, Eq)]
pub struct Key {
    /// Which key it is.
    pub code: KeyCode,
    /// Whether the control key was held down.
    pub control: bool,
    /// Whether the key was released, rather than pressed.
    pub release: bool,
}

/// A line of the information that is shown beside the tasks.
#[derive(Clone, Debug, PartialEq, Eq, Drop)]
pub enum Line {
    /// The title of the lines below it.
    Title(String),
    /// A line of text.
    Text(String),
}

/// When a request to interrupt the dashboard stops it.
#[derive(Clone, Copy, Debug)]
pub enum Interrupt {
    /// At once.
    Instantly,
    /// As soon as the mode is set to `Instantly`.
    Deferred,
}

/// An event of a dashboard.
#[derive(Clone, Debug, Drop)]
pub enum Event {
    /// It is time to draw a frame.
    Tick,
    /// A key was pressed or released.
    Input(Key),
    /// Sets the part of the terminal that the dashboard fills.
    SetWindowSize(Rect),
    /// Sets the title.
    SetTitle(String),
    /// Sets the lines beside the tasks.
    SetInformation(Vec<Line>),
    /// Sets when a request to interrupt stops the dashboard.
    SetInterruptMode(Interrupt),
}

/// What to do after an event.
#[derive(Clone, Copy, Debug, PartialEq, Eq)]
pub enum Answer {
    /// Draw the state.
    Redraw,
    /// Draw nothing.
    Skip,
    /// Leave the dashboard.
    Stop,
}
