ghost use Rattle.std.specs.Prelude.{◌≡◌, IfErr};
ghost use Rattle.prodash_programs.specs.declared.fault.Fault.TheVariants.{Memory};

use crate::colors::scene::events;
use prodash::render::line::draw::{self, MemoryScreen};
use prodash::tree::{Reply, RootOptions, SessionOptions, run};
use prodash_programs::Fault;
use std::alloc::Global;

/// The columns and rows of the terminal.
const DIMENSIONS: (u16, u16) = (80, 15);

/// Returns the bytes of the frames of all events, with or without colours.
pub fn frames(alloc: Global, colored: bool) -> Result<Vec<u8>, Fault>
    ensures { IfErr result (λ fault. fault ≡ Memory) }
{
    let options = SessionOptions {
        root: RootOptions::default(),
        draw: draw::Options {
            terminal_dimensions: DIMENSIONS,
            colored,
            timestamp: true,
            defensive: true,
            ..draw::Options::default()
        },
        throughput: true,
    };
    let events = events(alloc)?;
    let mut screen = MemoryScreen::new(alloc, 0)?;
    let replies = run(alloc, &options, &events, &mut screen)?;
    if replies.iter().any(is_refused) {
        return Err(Fault::Memory);
    }
    Ok(Vec::from_slice(alloc, screen.bytes())?)
}

/// Whether an event was refused. Those of the scene are only if there is no memory.
fn is_refused(reply: &Reply) -> bool {
    matches!(reply, Reply::Refused(_))
}
