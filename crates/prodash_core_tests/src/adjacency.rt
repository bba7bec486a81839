ghost use Rattle.prodash_base.specs.Adjacency.{IsAscending, paths_of};

use crate::fixtures::{assert_same, key_at, row};
use prodash_base::progress::Row;
use prodash_base::progress::key::SiblingLocation::{
    Above, AboveAndBelow as Both, Below, NotFound as No,
};
use prodash_base::progress::key::{Adjacency, Key, Level};
use prodash_core::render::tui::level_prefix;
use std::alloc::Global;
use std::process::Abort;

/// The keys of rows; on which sides each row and its ancestors have siblings, the highest level at
/// which they do, and the prefix of the row.
type Case = (
    &'static [&'static [u32]],
    &'static [(Adjacency, Level, &'static str)],
);

#[rattlefmt::skip]
const CASES: &[Case] = &[
    (&[&[1], &[1, 1], &[1, 2], &[2]], &[
        (Adjacency(Both, No, No, No, No, No), 1, "├"),
        (Adjacency(Both, Both, No, No, No, No), 2, "│ ├"),
        (Adjacency(Both, Above, No, No, No, No), 2, "│ └"),
        (Adjacency(Above, No, No, No, No, No), 1, "├"),
    ]),
    // the root's row
    (&[&[], &[5]], &[
        (Adjacency(No, No, No, No, No, No), 0, ""),
        (Adjacency(Above, No, No, No, No, No), 1, "├"),
    ]),
    // an ancestor is above its own level
    (&[&[1], &[1, 1], &[1, 1, 1], &[1, 2]], &[
        (Adjacency(Above, No, No, No, No, No), 1, "├"),
        (Adjacency(No, Both, No, No, No, No), 2, "│ ├"),
        (Adjacency(No, Both, Above, No, No, No), 3, "│ │ └"),
        (Adjacency(No, Above, No, No, No, No), 2, "│ └"),
    ]),
];

/// Rows whose parents aren't there.
#[rattlefmt::skip]
const ORPHANS: &[Case] = &[
    (&[&[0, 0]], &[(Adjacency(No, No, No, No, No, No), 0, "│  ")]),
    (&[&[0, 0], &[0, 1]], &[
        (Adjacency(No, Below, No, No, No, No), 2, "│ ┌"),
        (Adjacency(No, Above, No, No, No, No), 2, "│ └"),
    ]),
    (&[&[1], &[1, 1, 1]], &[
        (Adjacency(Above, No, No, No, No, No), 1, "├"),
        (Adjacency(No, No, No, No, No, No), 0, "│ ·  "),
    ]),
    (&[&[0, 0], &[0, 1, 0], &[0, 1, 1], &[0, 2, 0], &[0, 3], &[1, 0], &[2]], &[
        (Adjacency(Both, Below, No, No, No, No), 2, "│ ┌"),
        (Adjacency(Both, Both, Below, No, No, No), 3, "│ │ ┌"),
        (Adjacency(Both, Both, Above, No, No, No), 3, "│ │ └"),
        (Adjacency(Both, Both, No, No, No, No), 2, "│ │  "),
        (Adjacency(Both, Above, No, No, No, No), 2, "│ └"),
        (Adjacency(Both, No, No, No, No, No), 1, "│  "),
        (Adjacency(Above, No, No, No, No, No), 1, "├"),
    ]),
    (&[&[3, 1, 4, 1, 5], &[3, 1, 4, 1, 5, 9], &[3, 1, 4, 1, 5, 4294967295], &[3, 2], &[4]], &[
        (Adjacency(Both, No, No, No, No, No), 1, "│ · · ·  "),
        (Adjacency(Both, No, No, No, No, Both), 6, "│         ├"),
        (Adjacency(Both, No, No, No, No, Above), 6, "│         └"),
        (Adjacency(Both, No, No, No, No, No), 1, "│  "),
        (Adjacency(Above, No, No, No, No, No), 1, "├"),
    ]),
];

/// Asserts that the keys of the rows ascend.
fn assert_sorted(rt: &impl Abort, rows: &[Row])
    ensures { IsAscending (paths_of rows.now) }
{
    for i in 1..rows.len() {
        assert!(rt; rows[i - 1].key < rows[i].key);
    }
}

/// Rows without names at these keys.
fn rows_at(rt: &impl Abort, alloc: Global, keys: &[&[u32]]) -> Vec<Row> {
    let mut rows = Vec::new(alloc);
    for numbers in keys {
        rows.push(row(alloc, key_at(numbers), "", None).expect(rt, "memory"))
            .expect(rt, "memory");
    }
    rows
}

/// Asserts that the row at an index has these neighbours, and this prefix.
fn assert_row(
    rt: &impl Abort,
    alloc: Global,
    rows: &[Row],
    index: usize,
    want: (Adjacency, Level, &str),
) {
    assert_sorted(rt, rows);
    assert!(rt; index < rows.len());
    let adjacency = Key::adjacency(rows, index);
    let prefix = level_prefix(alloc, rows, index).expect(rt, "no refusal");
    let got = (adjacency, adjacency.level(), prefix.as_str());
    assert_same(rt, got, want, index);
}

fn assert_case(rt: &impl Abort, alloc: Global, (keys, wanted): Case) {
    let rows = rows_at(rt, alloc, keys);
    assert_same(rt, rows.len(), wanted.len(), keys);
    for (index, want) in wanted.iter().enumerate() {
        assert_row(rt, alloc, &rows, index, *want);
    }
}

#[test]
fn rows_have_neighbours_and_prefixes(rt: HostRuntime) {
    for case in CASES {
        assert_case(&rt, rt.alloc(), *case);
    }
    for case in ORPHANS {
        assert_case(&rt, rt.alloc(), *case);
    }
}

#[test]
fn locations_have_an_order_and_a_default(rt: HostRuntime) {
    assert!(rt; Above < Below && Below < Both && Both < No);
    let default = Adjacency(No, No, No, No, No, No);
    assert_same(&rt, Adjacency::default(), default, "default");
}
