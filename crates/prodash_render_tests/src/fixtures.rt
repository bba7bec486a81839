//! What the files of tests share: what they build inputs with, and an assertion.
use prodash::tree::{Item, Root, WeakHandle};
pub(crate) use prodash_fixtures::{FakeScreen, TASK_FRAME, TERMINAL};
use std::alloc::Global;
use std::fmt::Debug;
use std::process::Abort;
use std::rt;
use std::sync::{Arc, Wait};
use std::thread::Threads;

/// The runtime of a test, which only the test itself names.
pub(crate) trait Host: Wait
    + Threads
    + Abort
    + rt::Clock
    + Clone
    + Copy
    + Drop
    + Send
    + Sync
    + 'static {}

impl<R> Host for R
where
    R: Wait + Threads + Abort + rt::Clock + Clone + Copy + Drop + Send + Sync + 'static,
{}

/// Asserts that both are equal; `of` names the row of a table. A call is proved in a tenth of the
/// time that `assert_eq!` takes.
pub(crate) fn assert_same<T, N>(rt: &impl Abort, got: T, want: T, of: N)
where
    T: PartialEq + Debug + Drop,
    N: Debug + Drop,
{
    assert_eq!(rt; got, want, "of {of:?}");
}

/// The only owner of a value.
pub(crate) fn arc<T: Drop>(rt: &impl Abort, alloc: Global, value: T) -> Arc<T> {
    Arc::new(alloc, value).expect(rt, "memory")
}

/// Another owner of the same value.
pub(crate) fn share<T: Drop>(rt: &impl Abort, owner: &Arc<T>) -> Arc<T> {
    Arc::try_clone(owner).expect(rt, "memory")
}

/// A tree with `task` at 3 of 10.
pub(crate) fn make_tree<R: Host>(rt: &R, alloc: Global) -> (Root<R>, Item<R>) {
    let root = Root::new(*rt, alloc).expect(rt, "no refusal");
    let item = root.add_child(alloc, "task").expect(rt, "no refusal");
    item.init(Some(10), None);
    item.set(3);
    (root, item)
}

/// The weak handle of a tree.
pub(crate) fn downgrade<R: Host>(rt: &R, root: &Root<R>) -> WeakHandle<R> {
    root.downgrade().expect(rt, "no refusal")
}
