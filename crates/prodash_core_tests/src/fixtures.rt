//! What the files of tests share: assertions, and what they take from `prodash_fixtures`.
pub(crate) use prodash_fixtures::{FakeScreen, TERMINAL, clones, key_at, row};
use std::alloc::Global;
use std::fmt::Debug;
use std::process::Abort;

/// Asserts that both are equal; `of` names the row of a table. A call is proved in a tenth of the
/// time that `assert_eq!` takes.
pub(crate) fn assert_same<T, N>(rt: &impl Abort, got: T, want: T, of: N)
where
    T: PartialEq + Debug + Drop,
    N: Debug + Drop,
{
    assert_eq!(rt; got, want, "of {of:?}");
}

/// The `Debug` text of a value.
pub(crate) fn shown<T: Debug>(rt: &impl Abort, alloc: Global, value: &T) -> String {
    format!(in alloc; "{value:?}").expect(rt, "memory")
}

/// Asserts that a value has this `Debug` text.
pub(crate) fn assert_shown<T: Debug>(rt: &impl Abort, alloc: Global, value: &T, want: &str) {
    let got = shown(rt, alloc, value);
    assert_same(rt, got.as_str(), want, "text");
}

/// Splits a line of a table at its first arrow.
pub(crate) fn cells<'a>(rt: &impl Abort, line: &'a str) -> (&'a str, &'a str) {
    line.split_once(" -> ").expect(rt, "an arrow")
}

/// Asserts that a value equals the copy at its index, and each other copy that is shown alike, but
/// no other.
pub(crate) fn assert_told_apart<T: PartialEq + Debug>(
    rt: &impl Abort,
    alloc: Global,
    values: &[T],
    copies: &[T],
) {
    assert_same(rt, values.len(), copies.len(), "lengths");
    for (i, value) in values.iter().enumerate() {
        for (j, copy) in copies.iter().enumerate() {
            let want = i == j || shown(rt, alloc, value) == shown(rt, alloc, copy);
            assert_same(rt, value == copy, want, (i, j));
        }
    }
}
