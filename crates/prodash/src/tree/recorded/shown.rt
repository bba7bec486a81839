//! What views show of a tree.
ghost use Rattle.std.specs.Prelude.{◌≡◌, None};
ghost use Rattle.prodash.specs.Views.{or_nothing, tasks_of};
ghost use Rattle.prodash.specs.plumbing.Recordings.{count_in};

use crate::messages::{MessageCopyState, Messages};
use crate::progress::Rows;
use prodash_base::Refusal;
use prodash_core::tree::{Event, Reply, TreeState};
use std::alloc::Global;

/// What a look shows: the rows, the messages, and the state for the next look.
pub(crate) type Looked = (Rows, Messages, MessageCopyState);

/// Returns what a look shows if a frame sees this: that, or neither rows nor messages and the state
/// of the look before.
pub(crate) fn show_or_nothing(
    alloc: Global,
    seen: Option<(Rows, Messages, MessageCopyState)>,
    previous: Option<MessageCopyState>,
) -> (Rows, Messages, MessageCopyState)
    ensures { result ≡ or_nothing previous seen }
{
    match seen {
        Some((rows, messages, sent)) => (rows, messages, sent),
        None => show_nothing(alloc, previous),
    }
}

/// Returns neither rows nor messages, and the state of the look before.
fn show_nothing(
    alloc: Global,
    previous: Option<MessageCopyState>,
) -> (Rows, Messages, MessageCopyState)
    ensures { result ≡ or_nothing previous None }
{
    let rows = Rows::new(Vec::new(alloc));
    let messages = Messages::new(Vec::new(alloc));
    (rows, messages, previous.unwrap_or(MessageCopyState::new(0)))
}

/// Returns the number of tasks, or 0 once the root was dropped.
#[tactic(auto, using(crate::proofs::ShownTrees::counting_tasks))]
pub(crate) fn count_tasks(tree: &mut TreeState, alloc: Global) -> usize
    ensures value { result ≡ tasks_of tree.old }
    ensures kept { tree.new ≡ tree.old }
{
    count_in(tree.apply(alloc, &Event::NumTasks))
}

/// Returns the number in a reply to `NumTasks`, or 0 if there is none.
fn count_in(reply: Result<Reply, Refusal>) -> usize
    ensures { result ≡ count_in reply }
{
    match reply {
        Ok(Reply::Count(tasks)) => tasks,
        _ => 0,
    }
}
