//! The copy of what a reader has to a writer.
ghost use Rattle.prodash_pipe.specs.Copies.{Copies};
ghost use Rattle.prodash_pipe.specs.plumbing.Blocks.{Passes};

use crate::failure::Failure;
use crate::gauge::Gauge;
use crate::meter::Meter;
use std::io::{ErrorKind, Read, Write};

/// The greatest number of bytes that are read at a time.
const BLOCK: usize = 0x20000;

/// Writes all that the reader has left to the writer, and counts what is written.
///
/// # Errors
///
/// `Input`, if a read failed: all that was read is written. `Output`, if a write failed: what is
/// written is the beginning of what was read. A call that was interrupted is made again.
pub fn copy<R: Read, W: Write, G: Gauge + Drop>(
    input: &mut R,
    out: &mut W,
    meter: &mut Meter<G>,
) -> Result<(), Failure>
    ensures { Copies result (R.remaining input.old) (R.remaining input.new)
        (W.contents out.old) (W.contents out.new) meter.old meter.new }
{
    let mut block = [0; BLOCK];
    for _ in 0..u64::MAX {
        match input.read(&mut block) {
            Ok(0) => return Ok(()),
            Ok(count) => pass(&block[..count], out, meter)?,
            Err(error) if error.kind() == ErrorKind::Interrupted => {}
            Err(error) => return Err(Failure::Input(error)),
        }
    }
    Err(Failure::Input(ErrorKind::Interrupted.into()))
}

/// Writes a block, in as many parts as the writer takes it in, and counts each.
fn pass<W: Write, G: Gauge + Drop>(
    block: &[u8],
    out: &mut W,
    meter: &mut Meter<G>,
) -> Result<(), Failure>
    ensures { Passes block.now result (W.contents out.old) (W.contents out.new)
        meter.old meter.new }
{
    let mut rest = block;
    for _ in 0..u64::MAX {
        if rest.is_empty() {
            return Ok(());
        }
        match out.write(rest) {
            Ok(0) => return Err(Failure::Output(ErrorKind::WriteZero.into())),
            Ok(count) => {
                meter.add(&rest[..count]);
                rest = &rest[count..];
            }
            Err(error) if error.kind() == ErrorKind::Interrupted => {}
            Err(error) => return Err(Failure::Output(error)),
        }
    }
    Err(Failure::Output(ErrorKind::Interrupted.into()))
}
