//! Whole runs.
ghost use Rattle.std.specs.Prelude.{◌≡◌, OnErr, IsOkUnless};
ghost use Rattle.prodash_core.specs.Runs.{IfRan};

use crate::tree::event::{Event, Reply};
use crate::tree::options::SessionOptions;
use crate::tree::session::Session;
use prodash_base::Refusal;
use prodash_line::render::line::draw::Screen;
use std::alloc::Global;

/// Applies the events to a new session, draws its frames on the screen, and returns the reply to
/// each event, in order.
///
/// ```rust
/// let name = Text::from_str(alloc, "task")?;
/// let events = vec![in alloc;
///     Event::AddChild { parent: 0, name, id: UNKNOWN },
///     Event::Init { item: 1, max: Some(10), unit: None },
///     Event::Set { item: 1, step: 3 },
///     Event::Tick { at: 0, show: true },
/// ]?;
/// let replies = run(alloc, &options, &events, screen)?;
/// ```
///
/// # Errors
///
/// `Memory`, if there is no memory for the session or the list of replies; then nothing is
/// written. A refused event doesn't end the run: its reply is `Refused`.
pub fn run<S: Screen>(
    alloc: Global,
    options: &SessionOptions,
    events: &[Event],
    screen: &mut S,
) -> Result<Vec<Reply>, Refusal>
    // The fields of `Ran` say what a run does, one after another.
    ensures ok { IfRan options.now events.now result (S.state screen.old) (S.state screen.new) }
    ensures err { OnErr result (S.state screen.new ≡ S.state screen.old) }
    ensures reason { IsOkUnless result Refusal.Memory }
{
    // The clause on pages needs the fact that this number has 16 bits.
    let (_, _rows) = options.draw.terminal_dimensions;
    let mut session = Session::new(alloc, options)?;
    let mut replies = Vec::with_capacity(alloc, events.len())?;
    let mut left = events;
    while let Some((event, others)) = left.split_first() {
        let reply = session.apply(alloc, event, screen);
        replies.push(reply).unwrap();
        left = others;
    }
    Ok(replies)
}
