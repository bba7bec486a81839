//! Calls that need no memory.
use prodash::tree::{Item, Root};
use prodash_fixtures::Calls;
use std::sync::Wait;
use std::sync::atomic::Ordering;

/// Makes another owner of a tree, a weak handle of it, and another handle of an item's counter.
/// Each has to work also where a call before it was refused memory.
pub(super) fn make_calls<R: Wait + Clone + Drop>(
    root: &Root<R>,
    item: &Item<R>,
    calls: &mut Calls,
) {
    calls.begin("Root::clone");
    calls.expect(has_another_owner(root));
    calls.begin("Root::downgrade");
    calls.expect(has_weak_handle(root));
    calls.begin("Item::counter");
    calls.expect(shares_counter(item));
}

/// Returns whether a tree gets another owner, which has the same tasks.
fn has_another_owner<R: Wait + Clone + Drop>(root: &Root<R>) -> bool {
    match root.clone() {
        Ok(owner) => owner.num_tasks() == root.num_tasks(),
        Err(_) => false,
    }
}

/// Returns whether a tree gets a weak handle, which upgrades.
fn has_weak_handle<R: Wait + Clone + Drop>(root: &Root<R>) -> bool {
    let Ok(weak) = root.downgrade() else {
        return false;
    };
    match weak.upgrade() {
        Ok(owner) => owner.is_some(),
        Err(_) => false,
    }
}

/// Returns whether an item gives its counter, which shows its step.
fn shares_counter<R: Wait + Clone + Drop>(item: &Item<R>) -> bool {
    match item.counter() {
        Ok(counter) => item.step() == Some(counter.load(Ordering::SeqCst)),
        Err(_) => false,
    }
}
