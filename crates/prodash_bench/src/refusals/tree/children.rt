//! Calls that add items.
use super::{shown_by, still_shows};
use prodash::Refusal;
use prodash::progress::{Id, Key, UNKNOWN};
use prodash::tree::{Item, Root};
use prodash_fixtures::Calls;
use prodash_programs::Fault;
use std::alloc::Global;
use std::sync::Wait;

/// The identifier of the items that have one.
const ID: Id = *b"part";

/// A call that adds an item, and the row that it adds.
#[derive(Clone, Copy)]
struct Added {
    call: &'static str,
    numbers: &'static [u32],
    name: &'static str,
    id: Id,
}

// The names take memory of their own.

/// The first item.
const FIRST: Added = Added {
    call: "Root::add_child",
    numbers: &[0],
    name: "a task that compresses all of the files",
    id: UNKNOWN,
};

/// The others, each of which is dropped before the next is added.
const OTHERS: &[Added] = &[
    Added {
        call: "Root::add_child_with_id",
        numbers: &[1],
        name: "another task, which has an identifier",
        id: ID,
    },
    Added {
        call: "Item::add_child",
        numbers: &[0, 0],
        name: "a part of what the first task is to do",
        id: UNKNOWN,
    },
    Added {
        call: "Item::add_child_with_id",
        numbers: &[0, 1],
        name: "a part of what the first task is to do",
        id: ID,
    },
];

/// Adds an item below the root and two below another, and drops them.
pub(super) fn make_calls<R: Wait + Clone + Drop>(
    root: &Root<R>,
    alloc: Global,
    item: &mut Item<R>,
    calls: &mut Calls,
) -> Result<(), Fault> {
    for added in OTHERS {
        add_once(root, alloc, item, added, calls)?;
    }
    calls.begin("Item::drop");
    calls.expect(root.num_tasks() == 1);
    Ok(())
}

/// Adds an item below the root.
pub(super) fn add_child<R: Wait + Clone + Drop>(
    root: &Root<R>,
    alloc: Global,
    calls: &mut Calls,
) -> Result<Item<R>, Fault> {
    calls.begin(FIRST.call);
    let before = shown_by(root, alloc)?;
    let item = match root.add_child(alloc, FIRST.name) {
        Ok(item) => item,
        Err(refusal) => {
            let is_unchanged = still_shows(root, alloc, &before)?;
            let again = root.add_child(alloc, FIRST.name);
            calls.refuse(refusal, is_unchanged && again.is_ok());
            again?
        }
    };
    calls.expect(has_row(root, alloc, &FIRST)?);
    Ok(item)
}

/// Adds an item below the root or another item.
fn add_once<R: Wait + Clone + Drop>(
    root: &Root<R>,
    alloc: Global,
    item: &mut Item<R>,
    added: &Added,
    calls: &mut Calls,
) -> Result<(), Fault> {
    calls.begin(added.call);
    let before = shown_by(root, alloc)?;
    let _child = match add_by_call(root, alloc, item, added) {
        Ok(child) => child,
        Err(refusal) => {
            let is_unchanged = still_shows(root, alloc, &before)?;
            let again = add_by_call(root, alloc, item, added);
            calls.refuse(refusal, is_unchanged && again.is_ok());
            again?
        }
    };
    calls.expect(has_row(root, alloc, added)?);
    Ok(())
}

/// Adds an item by its call.
fn add_by_call<R: Wait + Clone + Drop>(
    root: &Root<R>,
    alloc: Global,
    item: &mut Item<R>,
    added: &Added,
) -> Result<Item<R>, Refusal> {
    match added.call {
        "Root::add_child_with_id" => root.add_child_with_id(alloc, added.name, added.id),
        "Item::add_child" => item.add_child(alloc, added.name),
        _ => item.add_child_with_id(alloc, added.name, added.id),
    }
}

/// Returns whether a tree has the row of an item that was added, without progress.
fn has_row<R: Wait + Clone + Drop>(
    root: &Root<R>,
    alloc: Global,
    added: &Added,
) -> Result<bool, Refusal> {
    let key = key_of(added.numbers);
    let rows = shown_by(root, alloc)?.rows;
    let found = rows.iter().find(|row| row.key == key);
    Ok(found.is_some_and(|row| {
        row.name.as_str() == added.name && row.id == added.id && row.progress.is_none()
    }))
}

/// Returns the key with these numbers.
fn key_of(numbers: &[u32]) -> Key {
    let mut key = Key::default();
    for number in numbers {
        key = key.add_child(*number);
    }
    key
}
