//! What the files of tests share: rows and messages in short, and assertions.
pub(crate) use prodash_fixtures::{
    FakeScreen, MESSAGE_FRAME, Progress, ShortMessage, ShortRow, TASK_FRAME, TERMINAL, clones,
    key_at, message, messages, row, rows,
};
use std::alloc::Global;
use std::collections::HashMap;
use std::fmt::Debug;
use std::hash::Hash;
use std::process::Abort;

/// Asserts that both are equal; `of` names the row of a table. A call is proved in a tenth of the
/// time that `assert_eq!` takes.
pub(crate) fn assert_same<T, N>(rt: &impl Abort, got: T, want: T, of: N)
where
    T: PartialEq + Debug + Drop,
    N: Debug + Drop,
{
    assert_eq!(rt; got, want, "of {of:?}");
}

/// Asserts that a value has this text by `Debug`.
pub(crate) fn assert_debug<T: Debug>(rt: &impl Abort, alloc: Global, value: &T, want: &str) {
    let text = format!(in alloc; "{value:?}").expect(rt, "memory");
    assert_same(rt, text.as_str(), want, "Debug");
}

/// A text of this many bytes.
pub(crate) fn text_of_length(rt: &impl Abort, alloc: Global, length: usize) -> String {
    let mut text = String::new(alloc);
    for _ in 0..length {
        text.push('x').expect(rt, "memory");
    }
    text
}

/// Asserts that each value equals the copy at its index, and no other copy.
pub(crate) fn assert_distinct<T: PartialEq>(rt: &impl Abort, values: &[T], copies: &[T]) {
    assert_same(rt, values.len(), copies.len(), "lengths");
    for (i, value) in values.iter().enumerate() {
        for (j, copy) in copies.iter().enumerate() {
            assert_same(rt, value == copy, i == j, (i, j));
        }
    }
}

/// The values ascend, and no two are equal.
pub(crate) fn assert_ascending<T: Ord>(rt: &impl Abort, values: &[T]) {
    for (i, value) in values.iter().enumerate() {
        for (j, other) in values.iter().enumerate() {
            let got = (value.cmp(other), value.partial_cmp(other), value == other);
            let want = (i.cmp(&j), Some(i.cmp(&j)), i == j);
            assert_same(rt, got, want, (i, j));
        }
    }
}

/// A map from the values to their places finds each at its own.
pub(crate) fn assert_hashed<K: Hash + Eq + Copy + Drop>(
    rt: &impl Abort,
    alloc: Global,
    values: &[K],
) {
    let mut places = HashMap::new(alloc);
    for (n, value) in values.iter().enumerate() {
        let before: Result<_, _> = places.insert(*value, n);
        assert_same(rt, before.expect(rt, "memory"), None, n);
    }
    for (n, value) in values.iter().enumerate() {
        assert_same(rt, places.get(value).copied(), Some(n), n);
    }
}
