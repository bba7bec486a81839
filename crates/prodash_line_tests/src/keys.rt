use crate::fixtures::{assert_ascending, assert_hashed, assert_same, key_at};
use prodash_base::progress::Key;
use prodash_base::progress::key::next_id;
use std::process::Abort;

/// The numbers of the children on the way down, and the key's numbers.
#[rattlefmt::skip]
const CHILDREN: &[(&[u32], &[u32])] = &[
    (&[], &[]),
    (&[7], &[7]),
    (&[1, 2, 3, 4, 5, 6], &[1, 2, 3, 4, 5, 6]),
    (&[1, 2, 3, 4, 5, 6, 7], &[1, 2, 3, 4, 5, 7]),
    (&[1, 2, 3, 4, 5, 6, 7, 8], &[1, 2, 3, 4, 5, 8]),
    (&[65536, 4294967295], &[65536, 4294967295]),
];

/// The key has these numbers from level 1 on.
fn assert_numbers(rt: &impl Abort, key: Key, numbers: &[u32]) {
    let mut level: u8 = 0;
    for number in numbers {
        level = level.saturating_add(1);
        assert!(rt; 0 < level && level <= key.level());
        assert_same(rt, key[level], *number, level);
    }
}

#[test]
fn children_stay_within_six_levels(rt: HostRuntime) {
    for (children, numbers) in CHILDREN {
        let key = key_at(children);
        assert_same(&rt, key.level() as usize, numbers.len(), *children);
        assert_numbers(&rt, key, numbers);
    }
    assert_same(&rt, Key::max_level(), 6, "levels");
}

/// The number of a child, and the number of the next one.
const NEXT: &[(u32, u32)] = &[
    (0, 1),
    (65535, 65536),
    (4294967294, 4294967295),
    (4294967295, 0),
];

#[test]
fn child_numbers_rise_and_begin_again(rt: HostRuntime) {
    for (number, next) in NEXT {
        assert_same(&rt, next_id(*number), *next, *number);
    }
}

/// Keys in their order.
const ASCENDING: &[&[u32]] = &[
    &[],
    &[0],
    &[0, 0],
    &[0, 0, 0, 0, 0],
    &[0, 0, 0, 0, 0, 0],
    &[0, 0, 0, 0, 0, 1],
    &[0, 0, 0, 0, 0, 4294967295],
    &[0, 0, 0, 0, 1],
    &[0, 0, 0, 0, 1, 0],
    &[0, 0, 0, 1],
    &[0, 0, 0, 65536, 7, 7],
    &[0, 0, 1],
    &[0, 0, 1, 0],
    &[0, 4294967295, 9],
    &[1],
    &[65535, 9],
    &[65536],
    &[65536, 0],
    &[
        4294967295, 4294967295, 4294967295, 4294967295, 4294967295, 4294967295,
    ],
];

#[test]
fn wide_keys_are_ordered_by_their_numbers(rt: HostRuntime) {
    let mut keys = Vec::new(rt.alloc());
    for numbers in ASCENDING {
        keys.push(key_at(numbers)).expect(&rt, "memory");
    }
    assert_ascending(&rt, &keys);
    assert_hashed(&rt, rt.alloc(), &keys)
}

#[test]
fn keys_are_ordered_by_their_numbers(rt: HostRuntime) {
    let keys = [
        key_at(&[]),
        key_at(&[1]),
        key_at(&[1, 1]),
        key_at(&[1, 9]),
        key_at(&[2]),
        key_at(&[3, 4]),
        key_at(&[255, 9]),
        key_at(&[256]),
    ];
    assert_ascending(&rt, &keys);
    assert_hashed(&rt, rt.alloc(), &keys)
}

#[test]
fn siblings_share_their_parents(rt: HostRuntime) {
    let (key, sibling) = (key_at(&[1, 2]), key_at(&[1, 3]));
    for (level, want) in [(0, true), (1, true), (2, false), (3, false)] {
        assert_same(&rt, key.shares_parent_with(&sibling, level), want, level);
    }
}
