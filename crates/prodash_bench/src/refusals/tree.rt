//! Calls on a tree that threads share, and on its items.
mod changes;
mod children;
mod copies;
mod owners;

use prodash::Refusal;
use prodash::messages::Message;
use prodash::progress::Row;
use prodash::tree::root::Options;
use prodash::tree::{Item, Root};
use prodash_fixtures::Calls;
use prodash_programs::Fault;
use std::alloc::Global;
use std::sync::Wait;

/// The options of the tree, which keeps the latest of the messages that are sent.
const OPTIONS: Options = Options {
    initial_capacity: 4,
    message_buffer_capacity: 3,
};

/// Makes each call on a tree and its items.
pub(crate) fn run<R: Wait + Clone + Drop>(
    rt: &R,
    alloc: Global,
    calls: &mut Calls,
) -> Result<(), Fault> {
    make_empty_tree(rt, alloc, ("Root::new", 20), calls)?;
    let root = make_empty_tree(rt, alloc, ("Options::create", 3), calls)?;
    let mut item = children::add_child(&root, alloc, calls)?;
    make_calls(&root, alloc, &mut item, calls)
}

/// Makes each call on a tree that has this item.
fn make_calls<R: Wait + Clone + Drop>(
    root: &Root<R>,
    alloc: Global,
    item: &mut Item<R>,
    calls: &mut Calls,
) -> Result<(), Fault> {
    children::make_calls(root, alloc, item, calls)?;
    owners::make_calls(root, item, calls);
    changes::make_calls(root, alloc, item, calls)?;
    owners::make_calls(root, item, calls);
    copies::make_calls(root, alloc, item, calls)?;
    owners::make_calls(root, item, calls);
    Ok(())
}

/// Makes a tree without tasks, which must keep this many messages.
fn make_empty_tree<R: Wait + Clone + Drop>(
    rt: &R,
    alloc: Global,
    (call, messages): (&'static str, usize),
    calls: &mut Calls,
) -> Result<Root<R>, Fault> {
    calls.begin(call);
    let root = match make_tree(rt, alloc, call) {
        Ok(root) => root,
        Err(refusal) => {
            let again = make_tree(rt, alloc, call);
            calls.refuse(refusal, again.is_ok());
            again?
        }
    };
    calls.expect(root.num_tasks() == 0 && root.messages_capacity() == messages);
    Ok(root)
}

/// Makes a tree by a call.
fn make_tree<R: Wait + Clone + Drop>(
    rt: &R,
    alloc: Global,
    call: &str,
) -> Result<Root<R>, Refusal> {
    let rt = rt.clone()?;
    if call == "Root::new" {
        Root::new(rt, alloc)
    } else {
        OPTIONS.create(rt, alloc)
    }
}

/// What a tree shows.
#[derive(Drop)]
struct Shown {
    rows: Vec<Row>,
    messages: Vec<Message>,
}

/// Returns what a tree shows.
fn shown_by<R: Wait + Clone + Drop>(root: &Root<R>, alloc: Global) -> Result<Shown, Refusal> {
    let (mut rows, mut messages) = (Vec::new(alloc), Vec::new(alloc));
    root.sorted_snapshot(alloc, &mut rows)?;
    root.copy_messages(alloc, &mut messages)?;
    Ok(Shown { rows, messages })
}

/// Returns whether a tree shows what it showed before.
fn still_shows<R: Wait + Clone + Drop>(
    root: &Root<R>,
    alloc: Global,
    before: &Shown,
) -> Result<bool, Refusal> {
    let now = shown_by(root, alloc)?;
    Ok(now.rows == before.rows && now.messages == before.messages)
}
