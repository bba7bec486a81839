//! The caller that README.md shows.
ghost use Rattle.std.specs.Prelude.{◌≡◌, ℕ, List, ◌++◌, IfOk, OnErr, IsOkUnless};

use prodash::progress::UNKNOWN;
use prodash::render::line::draw::Screen;
use prodash::tree::{Event, SessionOptions as Options, run};
use prodash::{Refusal, Text};
use std::alloc::Global;

/// Draws a task at 3 of 10. Returns `Memory`, with nothing written, if it has none to begin with.
pub fn show_task<S: Screen>(alloc: Global, options: &Options, screen: &mut S) -> Result<(), Refusal>
    ensures ok { IfOk result (λ _. (bytes : List ℕ)
        × ((S.state screen.new).bytes ≡ (S.state screen.old).bytes ++ bytes)) }
    ensures err { OnErr result (S.state screen.new ≡ S.state screen.old) }
    ensures reason { IsOkUnless result Refusal.Memory }
{
    let (parent, name, id) = (0, Text::from_str(alloc, "task")?, UNKNOWN);
    let (max, unit) = (Some(10), None);
    let events = vec![in alloc;
        Event::AddChild { parent, name, id },
        Event::Init { item: 1, max, unit },
        Event::Set { item: 1, step: 3 },
        Event::Tick { at: 0, show: true },
    ]?;
    run(alloc, options, &events, screen)?;
    Ok(())
}
