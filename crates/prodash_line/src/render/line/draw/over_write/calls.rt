//! The calls made on a writer. Only contracts read them, and they take no memory.
ghost use Rattle.std.specs.Prelude.{◌≡◌, List, [], ◌∷◌};
ghost use Rattle.std.specs.Borrow.{ftrue};
ghost use Rattle.prodash_line.specs.Writers.{WriterCall};

use std::marker::{Model, Send, Sync};

/// The calls made on a writer, the latest first.
#[derive(Drop)]
pub(crate) struct Calls {
    pub(crate) ghost made: { List WriterCall },
}

impl Model for Calls {
    ghost also_owns = { λ _. ftrue };
}

/// A call made on a writer.
#[derive(Clone, Copy, Drop)]
pub(crate) enum Call<'a> {
    /// A write of the bytes, and how many of them it took; `None` if it returned an error.
    Write(&'a [u8], Option<usize>),
    /// A flush, and whether it returned no error.
    Flush(bool),
}

// Calls own nothing, so any thread may own or share them.
unsafe impl Send for Calls {}

unsafe impl Sync for Calls {}

impl Calls {
    ghost use Rattle.prodash_line.specs.plumbing.Calls.{call_of};

    /// Returns no calls.
    pub(crate) fn new() -> Calls
        ensures { result.made ≡ [] }
    {
        Calls {}
    }

    /// Returns the calls, and this one after them.
    pub(crate) fn with_call(&self, _call: &Call<'_>) -> Calls
        ensures { result.made ≡ call_of _call.now ∷ self.now.made }
    {
        Calls {}
    }
}
