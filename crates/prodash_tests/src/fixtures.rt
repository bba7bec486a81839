//! What the files of tests share: what they build inputs with, and assertions.
use prodash::Progress;
use prodash::messages::Message;
use prodash::progress::Row;
use prodash::tree::{Item, Reply, Root};
pub(crate) use prodash_fixtures::{ShortMessage, ShortRow, TASK_FRAME, TERMINAL, key_at};
use prodash_fixtures::{messages, rows};
use std::alloc::Global;
use std::fmt::Debug;
use std::process::Abort;
use std::sync::Wait;

/// A new tree.
pub(crate) fn new_root<R: Wait + Abort + Copy + Drop>(rt: R, alloc: Global) -> Root<R> {
    Root::new(rt, alloc).expect(&rt, "no refusal")
}

/// A new tree, and the item of its only task.
pub(crate) fn root_with_task<R: Wait + Abort + Copy + Drop>(
    rt: R,
    alloc: Global,
) -> (Root<R>, Item<R>) {
    let root = new_root(rt, alloc);
    let item = child(&rt, alloc, &root, "task");
    (root, item)
}

/// A new child of the root.
pub(crate) fn child<R: Wait + Clone + Drop>(
    rt: &impl Abort,
    alloc: Global,
    root: &Root<R>,
    name: &str,
) -> Item<R> {
    root.add_child(alloc, name).expect(rt, "no refusal")
}

/// Asserts that both are equal; `of` names the row of a table. A call is proved in a tenth of the
/// time that `assert_eq!` takes.
pub(crate) fn assert_same<T, N>(rt: &impl Abort, got: T, want: T, of: N)
where
    T: PartialEq + Debug + Drop,
    N: Debug + Drop,
{
    assert_eq!(rt; got, want, "of {of:?}");
}

/// Asserts that both replies are equal.
pub(crate) fn assert_reply(rt: &impl Abort, got: &Reply, want: &Reply, of: &str) {
    assert_same(rt, got, want, of);
}

/// Asserts that a progress has this name, or none.
pub(crate) fn assert_name<P: Progress>(
    rt: &impl Abort,
    alloc: Global,
    progress: &P,
    want: Option<&str>,
) {
    let name = progress.name(alloc).expect(rt, "no refusal");
    assert_same(rt, name.as_deref(), want, "name");
}

/// Asserts that rows are these.
pub(crate) fn assert_rows(rt: &impl Abort, alloc: Global, got: &[Row], want: &[ShortRow]) {
    let want = rows(alloc, want).expect(rt, "memory");
    assert_same(rt, got, want.as_slice(), "rows");
}

/// Asserts that messages are these, of severity `Info` and of the first moment.
pub(crate) fn assert_messages(
    rt: &impl Abort,
    alloc: Global,
    got: &[Message],
    want: &[ShortMessage],
) {
    let want = messages(alloc, want).expect(rt, "memory");
    assert_same(rt, got, want.as_slice(), "messages");
}
