ghost use Rattle.std.specs.Prelude.{◌≡◌, OnOk, IsOkUnless};
ghost use Rattle.std.specs.Io.KnownBytes.{Appends};
ghost use Rattle.prodash_programs.specs.declared.fault.Fault.TheVariants as Fault;
ghost use Rattle.prodash_programs.specs.Faults.{status_of};

use crate::fault::Fault;
use std::io::Write;

/// Writes the fault's line to `err`, and returns its exit status.
pub fn report<E: Write>(err: &mut E, fault: Fault) -> u8
    ensures { result ≡ status_of fault }
{
    let _ = writeln!(err, "{fault}");
    fault.status()
}

/// Writes all bytes and flushes.
///
/// # Errors
///
/// `Output`, if `out` refuses a write or the flush.
pub fn write_all<O: Write>(out: &mut O, bytes: &[u8]) -> Result<(), Fault>
    ensures ok { OnOk result (Appends (O.contents out.old) (O.contents out.new) bytes.now) }
    ensures err { IsOkUnless result Fault.Output }
{
    if out.write_all(bytes).is_err() || out.flush().is_err() {
        return Err(Fault::Output);
    }
    Ok(())
}
