use prodash_core::tree::Event;
use prodash_programs::Fault;
use prodash_script::{DashboardLine, Labels, parse, parse_dashboard_line};
use std::alloc::{AllocError, Global};
use std::io::Read;

/// What lines end in that begin an item in one of the units that are read without `--any-unit`.
static UNITS: [&str; 9] = [
    " -",
    " items",
    " items%",
    " %items",
    " items/s",
    " steps",
    " bytes",
    " duration",
    " objects",
];

/// What a line is parsed as.
pub(super) trait Parse: Drop {
    /// Parses a line. The name of a unit is kept in `labels`. Returns `None` if the line can't be
    /// parsed.
    fn parse(alloc: Global, labels: &mut Labels, line: &str) -> Result<Option<Self>, AllocError>;
}

impl Parse for Event {
    fn parse(alloc: Global, labels: &mut Labels, line: &str) -> Result<Option<Event>, AllocError> {
        parse(alloc, labels, line)
    }
}

/// A line of the input of a dashboard.
#[derive(Debug, Drop)]
pub(super) enum Input {
    /// An event of the tree, or a frame.
    Tree(Event),
    /// A line for the dashboard alone.
    Dashboard(DashboardLine),
}

impl Parse for Input {
    fn parse(alloc: Global, labels: &mut Labels, line: &str) -> Result<Option<Input>, AllocError> {
        if let Some(event) = parse(alloc, labels, line)? {
            return Ok(Some(Input::Tree(event)));
        }
        match parse_dashboard_line(alloc, line)? {
            Some(line) => Ok(Some(Input::Dashboard(line))),
            None => Ok(None),
        }
    }
}

/// What the lines of the input are applied to.
pub(super) trait Apply: Drop {
    /// What a line is parsed as.
    type Line: Parse;

    /// Applies a line.
    fn apply(&mut self, alloc: Global, line: Self::Line) -> Result<(), Fault>;
}

/// Reads the whole input, and applies each line as it is parsed.
pub(super) fn apply_lines<T: Apply, R: Read>(
    alloc: Global,
    input: &mut R,
    any_unit: bool,
    replayed: &mut T,
) -> Result<(), Fault> {
    let mut bytes = Vec::new(alloc);
    if let Err(error) = input.read_to_end(&mut bytes) {
        return Err(Fault::of_input(&error));
    }
    apply_each(alloc, &bytes, any_unit, replayed)
}

/// Parses each line and applies it. The last line may lack its line feed.
fn apply_each<T: Apply>(
    alloc: Global,
    bytes: &[u8],
    any_unit: bool,
    replayed: &mut T,
) -> Result<(), Fault> {
    let mut labels = Labels::new(alloc);
    if bytes.is_empty() {
        return Ok(());
    }
    let bytes = bytes.strip_suffix(b"\n").unwrap_or(bytes);
    for (i, line) in bytes.split(|b| *b == b'\n').enumerate() {
        let fault = Fault::Line(i as u64 + 1);
        let Ok(text) = str::from_utf8(line) else {
            return Err(fault);
        };
        match T::Line::parse(alloc, &mut labels, text)? {
            Some(it) if any_unit || has_listed_unit(text) => replayed.apply(alloc, it)?,
            _ => return Err(fault),
        }
    }
    Ok(())
}

/// Returns whether a line begins no item, or one in a unit that is read without `--any-unit`.
fn has_listed_unit(line: &str) -> bool {
    if !line.starts_with("init ") {
        return true;
    }
    for unit in &UNITS {
        if line.ends_with(*unit) {
            return true;
        }
    }
    false
}
