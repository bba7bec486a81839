ghost use Rattle.std.specs.Prelude.{◌≡◌, IfOk, string_bytes};
ghost use Rattle.prodash_programs.specs.Versions.{version_line};

use std::alloc::{AllocError, Global};

/// The version of the programs and of their libraries.
pub const VERSION: &str = "0.1.0";

/// Returns the line that a program of this name writes if it is asked for its version.
///
/// # Errors
///
/// `AllocError`, if there is no memory for it.
pub fn version_line(alloc: Global, program: &str) -> Result<String, AllocError>
    ensures { IfOk result (λ line. string_bytes line ≡ version_line program.now) }
{
    format!(in alloc; "{program} {VERSION} (port of prodash 31.0.1)\n")
}
