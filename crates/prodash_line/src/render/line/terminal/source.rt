//! Where the values of variables are read.

use std::env::FillError;
use std::rt::Env;
use std::str;

/// An environment whose variables can be read. Each [`Env`] is one.
///
/// Which values it gave is known only of what its call returns. So a clause that names a value of
/// it speaks of one that was read.
pub trait VariableSource {
    ghost use Rattle.std.specs.Prelude.{ℕ, List};

    /// The variable of this name was read, and had this value.
    ghost gave: { Self → List ℕ → List ℕ → Type 0 };

    /// Returns the value of a variable, or an empty text if it isn't set. A value that doesn't fit
    /// in the buffer or isn't UTF-8 is given as `?`.
    fn variable<'a>(&self, name: &str, buffer: &'a mut [u8]) -> &'a str
        ensures { gave self.now name.now result.now };
}

impl<R: Env> VariableSource for R {
    ghost gave = { λ _ name value. Unit {0} };

    fn variable<'a>(&self, name: &str, buffer: &'a mut [u8]) -> &'a str {
        match self.var(name, buffer) {
            Ok(length) => str::from_utf8(&buffer[..length]).unwrap_or("?"),
            Err(FillError::TooLong) => "?",
            Err(FillError::NotPresent) => "",
        }
    }
}
