//! Calls that change an item or send its messages.
use super::{shown_by, still_shows};
use prodash::Refusal;
use prodash::messages::MessageLevel;
use prodash::progress::State;
use prodash::tree::{Item, Root};
use prodash::unit::label;
use prodash_fixtures::Calls;
use prodash_programs::Fault;
use std::alloc::Global;
use std::sync::Wait;

/// The name that the item gets, which takes memory of its own.
const NAME: &str = "a job that compresses all of the files";

/// The calls that rename an item or send a message, each with the severity of what it sends.
const CHANGES: &[(&'static str, Option<MessageLevel>)] = &[
    ("Item::set_name", None),
    ("Item::info", Some(MessageLevel::Info)),
    ("Item::message", Some(MessageLevel::Info)),
    ("Item::fail", Some(MessageLevel::Failure)),
    ("Item::done", Some(MessageLevel::Success)),
];

/// Begins the progress of an item, renames it while it is blocked, and sends messages.
pub(super) fn make_calls<R: Wait + Clone + Drop>(
    root: &Root<R>,
    alloc: Global,
    item: &mut Item<R>,
    calls: &mut Calls,
) -> Result<(), Fault> {
    item.init(Some(10), Some(label("items")));
    item.set(3);
    item.blocked("disk", Some(7));
    for (call, level) in CHANGES {
        change_once(root, alloc, item, call, calls)?;
        if let Some(level) = level {
            calls.expect(is_sent(root, alloc, call, *level)?);
        }
    }
    name(alloc, item, calls)?;
    calls.begin("Item::init");
    let (max, unit) = (item.max(), item.unit());
    calls.expect(max == Some(10) && unit == Some(label("items")));
    calls.begin("Item::blocked");
    calls.expect(is_blocked(root, alloc)?);
    item.halted("disk", Some(9));
    Ok(())
}

/// Makes one of the calls. One that is refused has changed nothing of what the tree shows.
fn change_once<R: Wait + Clone + Drop>(
    root: &Root<R>,
    alloc: Global,
    item: &mut Item<R>,
    call: &'static str,
    calls: &mut Calls,
) -> Result<(), Fault> {
    calls.begin(call);
    let before = shown_by(root, alloc)?;
    if let Err(refusal) = change(alloc, item, call) {
        let is_unchanged = still_shows(root, alloc, &before)?;
        let again = change(alloc, item, call);
        calls.refuse(refusal, is_unchanged && again.is_ok());
        again?;
    }
    Ok(())
}

/// Renames an item, or sends a message, whose text is the name of the call.
fn change<R: Wait + Clone + Drop>(
    alloc: Global,
    item: &mut Item<R>,
    call: &str,
) -> Result<(), Refusal> {
    match call {
        "Item::set_name" => item.set_name(alloc, NAME),
        "Item::info" => item.info(alloc, 5, call),
        "Item::fail" => item.fail(alloc, 5, call),
        "Item::done" => item.done(alloc, 5, call),
        _ => item.message(alloc, 5, MessageLevel::Info, call),
    }
}

/// Returns whether the latest message of a tree is that of a call.
fn is_sent<R: Wait + Clone + Drop>(
    root: &Root<R>,
    alloc: Global,
    call: &str,
    level: MessageLevel,
) -> Result<bool, Refusal> {
    let sent = shown_by(root, alloc)?.messages;
    Ok(
        sent.last().is_some_and(|it| {
            it.level == level && it.origin.as_str() == NAME && it.message.as_str() == call
        }),
    )
}

/// Copies the name that an item has got.
fn name<R: Wait + Clone + Drop>(
    alloc: Global,
    item: &Item<R>,
    calls: &mut Calls,
) -> Result<(), Fault> {
    calls.begin("Item::name");
    let name = match item.name(alloc) {
        Ok(name) => name,
        Err(refusal) => {
            let again = item.name(alloc);
            calls.refuse(refusal, again.is_ok());
            again?
        }
    };
    calls.expect(name.is_some_and(|it| it.as_str() == NAME));
    Ok(())
}

/// Returns whether the first item of a tree is blocked at the step 3.
fn is_blocked<R: Wait + Clone + Drop>(root: &Root<R>, alloc: Global) -> Result<bool, Refusal> {
    let rows = shown_by(root, alloc)?.rows;
    let progress = rows.first().and_then(|row| row.progress.as_ref());
    Ok(progress.is_some_and(|it| it.step == 3 && it.state == State::Blocked("disk", Some(7))))
}
