//! The widths of names, kept from frame to frame.
ghost use Rattle.std.specs.Prelude.{IfSome};
ghost use Rattle.prodash_line.specs.plumbing.MeasuredNames.{IsDrawnAsIs};

use std::alloc::{AllocError, Global};
use std::marker::Model;

/// The greatest length, in bytes, of a name that is kept.
const LONGEST: usize = 256;

/// Whether a name is short enough to be kept.
pub(crate) fn is_short(name: &str) -> bool {
    name.len() <= LONGEST
}

/// A name that is drawn as it is, and its width. Contracts see both.
#[derive(Drop)]
struct MeasuredName {
    name: String,
    /// The width of the name in columns, at most 65535.
    width: u16,
}

impl Model for MeasuredName {
    ghost use Rattle.std.specs.Prelude.{List, ℕ, string_bytes};
    ghost use Rattle.prodash_line.specs.plumbing.MeasuredNames.{IsDrawnAsIs};

    ghost Value = { List ℕ × ℕ };

    ghost view = { λ m. (string_bytes m.name, m.width) };

    ghost invariant = { λ m. IsDrawnAsIs (string_bytes m.name) m.width };
}

impl MeasuredName {
    /// Returns a name of this width. Fails if out of memory.
    fn new(alloc: Global, name: &str, width: u16) -> Result<MeasuredName, AllocError>
        requires { IsDrawnAsIs name.now width }
    {
        Ok(MeasuredName {
            name: String::from_str(alloc, name)?,
            width,
        })
    }

    /// Returns the width of this name if it is `name`.
    fn width_of(&self, name: &str) -> Option<u16>
        ensures { IfSome result (IsDrawnAsIs name.now) }
    {
        (self.name.as_str() == name).then_some(self.width)
    }

    /// Replaces the name with one of this width, in the memory that it has if that is enough.
    /// Fails if out of memory.
    fn replace(&mut self, name: &str, width: u16) -> Result<(), AllocError>
        requires { IsDrawnAsIs name.now width }
    {
        // if memory is refused the empty name is left
        self.width = 0;
        self.name.clear();
        self.name.push_str(name)?;
        self.width = width;
        Ok(())
    }
}

/// The widths of names that frames have drawn as they are, in the order in which the latest frame
/// has drawn them.
#[derive(Drop)]
pub(crate) struct MeasuredNames {
    alloc: Global,
    names: Vec<MeasuredName>,
    /// How many of them the frame has drawn that is composed now.
    drawn: usize,
}

impl MeasuredNames {
    /// Returns no names.
    pub(crate) fn new(alloc: Global) -> MeasuredNames {
        MeasuredNames {
            alloc,
            names: Vec::new(alloc),
            drawn: 0,
        }
    }

    /// Begins a frame.
    pub(crate) fn begin_frame(&mut self) {
        self.drawn = 0;
    }

    /// Returns the width of a name that the frame draws next, if the name at its place is the same.
    #[inline(never)]
    pub(crate) fn next_width(&mut self, name: &str) -> Option<u16>
        ensures { IfSome result (IsDrawnAsIs name.now) }
    {
        let kept = self.names.get(self.drawn)?;
        let width = kept.width_of(name)?;
        self.drawn += 1;
        Some(width)
    }

    /// Keeps the width of a name that the frame draws next, in place of the one at its place. Fails
    /// if out of memory.
    pub(crate) fn keep(&mut self, name: &str, width: u16) -> Result<(), AllocError>
        requires { IsDrawnAsIs name.now width }
    {
        if self.drawn < self.names.len() {
            self.names[self.drawn].replace(name, width)?;
            self.drawn += 1;
        } else {
            self.names
                .push(MeasuredName::new(self.alloc, name, width)?)?;
            self.drawn = self.names.len();
        }
        Ok(())
    }
}
