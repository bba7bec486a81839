//! Calls that copy what a tree has.
use super::{Shown, shown_by, still_shows};
use prodash::Refusal;
use prodash::messages::{Message, MessageCopyState};
use prodash::tree::{Item, Root};
use prodash_fixtures::Calls;
use prodash_programs::Fault;
use std::alloc::Global;
use std::sync::Wait;

/// Copies the rows and the messages of a tree, and the tree.
pub(super) fn make_calls<R: Wait + Clone + Drop>(
    root: &Root<R>,
    alloc: Global,
    item: &Item<R>,
    calls: &mut Calls,
) -> Result<(), Fault> {
    sorted_snapshot(root, alloc, item, calls)?;
    copy_messages(root, alloc, calls)?;
    copy_new_messages(root, alloc, calls)?;
    snapshot_and_new_messages(root, alloc, item, calls)?;
    deep_clone(root, alloc, calls)
}

/// Copies the rows to a list that has those at an earlier step.
fn sorted_snapshot<R: Wait + Clone + Drop>(
    root: &Root<R>,
    alloc: Global,
    item: &Item<R>,
    calls: &mut Calls,
) -> Result<(), Fault> {
    calls.begin("Root::sorted_snapshot");
    let (before, mut rows) = (shown_by(root, alloc)?.rows, shown_by(root, alloc)?.rows);
    item.inc();
    if let Err(refusal) = root.sorted_snapshot(alloc, &mut rows) {
        let is_unchanged = rows == before;
        let again = root.sorted_snapshot(alloc, &mut rows);
        calls.refuse(refusal, is_unchanged && again.is_ok());
        again?;
    }
    calls.expect(rows != before && rows == shown_by(root, alloc)?.rows);
    Ok(())
}

/// Copies the messages into a list that holds only the oldest.
fn copy_messages<R: Wait + Clone + Drop>(
    root: &Root<R>,
    alloc: Global,
    calls: &mut Calls,
) -> Result<(), Fault> {
    calls.begin("Root::copy_messages");
    let (all, mut messages) = (
        shown_by(root, alloc)?.messages,
        shown_by(root, alloc)?.messages,
    );
    messages.truncate(1);
    if let Err(refusal) = root.copy_messages(alloc, &mut messages) {
        let is_unchanged = all.starts_with(&messages) && messages.len() == 1;
        let again = root.copy_messages(alloc, &mut messages);
        calls.refuse(refusal, is_unchanged && again.is_ok());
        again?;
    }
    calls.expect(messages.len() == 3 && messages == all);
    Ok(())
}

/// Copies the messages after the second into a list that holds only the oldest. The ring has lost
/// the first.
fn copy_new_messages<R: Wait + Clone + Drop>(
    root: &Root<R>,
    alloc: Global,
    calls: &mut Calls,
) -> Result<(), Fault> {
    calls.begin("Root::copy_new_messages");
    let (all, mut messages) = (
        shown_by(root, alloc)?.messages,
        shown_by(root, alloc)?.messages,
    );
    messages.truncate(1);
    let state = match copy_latest(root, alloc, &mut messages) {
        Ok(state) => state,
        Err(refusal) => {
            let is_unchanged = all.starts_with(&messages) && messages.len() == 1;
            let again = copy_latest(root, alloc, &mut messages);
            calls.refuse(refusal, is_unchanged && again.is_ok());
            again?
        }
    };
    let is_new = messages.len() == 2 && all.ends_with(&messages);
    calls.expect(is_new && state == MessageCopyState::new(4));
    Ok(())
}

fn copy_latest<R: Wait + Clone + Drop>(
    root: &Root<R>,
    alloc: Global,
    out: &mut Vec<Message>,
) -> Result<MessageCopyState, Refusal> {
    root.copy_new_messages(alloc, out, Some(MessageCopyState::new(2)))
}

/// Copies the rows to a list that has those at an earlier step, and all messages to one that has
/// none.
fn snapshot_and_new_messages<R: Wait + Clone + Drop>(
    root: &Root<R>,
    alloc: Global,
    item: &Item<R>,
    calls: &mut Calls,
) -> Result<(), Fault> {
    calls.begin("Root::snapshot_and_new_messages");
    let (before, mut rows) = (shown_by(root, alloc)?.rows, shown_by(root, alloc)?.rows);
    let mut messages = Vec::new(alloc);
    item.inc();
    if let Err(refusal) = root.snapshot_and_new_messages(alloc, &mut rows, &mut messages, None) {
        let is_unchanged = rows == before && messages.is_empty();
        let again = root.snapshot_and_new_messages(alloc, &mut rows, &mut messages, None);
        calls.refuse(refusal, is_unchanged && again.is_ok());
        again?;
    }
    let is_new = rows != before;
    let now = Shown { rows, messages };
    calls.expect(is_new && still_shows(root, alloc, &now)?);
    Ok(())
}

/// Copies the tree.
fn deep_clone<R: Wait + Clone + Drop>(
    root: &Root<R>,
    alloc: Global,
    calls: &mut Calls,
) -> Result<(), Fault> {
    calls.begin("Root::deep_clone");
    let before = shown_by(root, alloc)?;
    let copy = match root.deep_clone(alloc) {
        Ok(copy) => copy,
        Err(refusal) => {
            let is_unchanged = still_shows(root, alloc, &before)?;
            let again = root.deep_clone(alloc);
            calls.refuse(refusal, is_unchanged && again.is_ok());
            again?
        }
    };
    calls.expect(still_shows(&copy, alloc, &before)? && still_shows(root, alloc, &before)?);
    Ok(())
}
