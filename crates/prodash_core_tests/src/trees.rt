//! The tree without a renderer.
use crate::fixtures::{assert_same, assert_shown};
use crate::transcripts::event_of;
use prodash_base::messages::MessageCopyState;
use prodash_base::progress::Key;
use prodash_base::progress::key::Adjacency;
use prodash_base::progress::key::SiblingLocation::NotFound as No;
use prodash_core::tree::{RootOptions, TreeState};
use std::alloc::Global;
use std::process::Abort;

/// The adjacency of the first row of a tree.
#[tactic(auto, using(prodash_core::proofs::AscendingRows::ascending_list))]
fn adjacency_of_first(rt: &impl Abort, alloc: Global, tree: &TreeState) -> Adjacency {
    let rows = tree.rows(alloc).expect(rt, "memory");
    let rows = rows.as_slice();
    assert!(rt; !rows.is_empty());
    Key::adjacency(rows, 0)
}

const EVENTS: &str = "add 0 a
add 1 b
init 2 10 -
set 2 3
info 1 0 x
info 2 0 y
drop 1";

/// What they leave: the rows, the messages after the first, and how many there were.
const LEFT: &str = "(Rows [Row [0, 0] \"b\" 3/10], Messages [Message 0 Info \"b\" \"y\"], \
MessageCopyState { seen: 2 })";

/// Applies an event that is no frame.
fn apply_line(rt: &impl Abort, alloc: Global, tree: &mut TreeState, line: &str) {
    let event = event_of(rt, alloc, line);
    assert!(rt; !event.is_frame());
    tree.apply(alloc, &event).expect(rt, "no refusal");
}

/// A tree after all events.
fn grown(rt: &impl Abort, alloc: Global) -> TreeState {
    let mut tree = TreeState::new(alloc, &RootOptions::default()).expect(rt, "no refusal");
    for line in EVENTS.lines() {
        apply_line(rt, alloc, &mut tree, line);
    }
    tree
}

/// Asserts that a frame sees `LEFT` if the one before has seen the first message.
fn assert_left(rt: &impl Abort, alloc: Global, tree: &TreeState) {
    let previous = Some(MessageCopyState::new(1));
    let seen = tree.snapshot_and_new_messages(alloc, previous);
    let seen = seen.expect(rt, "no refusal").expect(rt, "a root");
    assert_shown(rt, alloc, &seen, LEFT)
}

/// The parent of the only row is gone, so the row has no neighbours.
#[test]
fn a_tree_needs_no_renderer(rt: HostRuntime) {
    let tree = grown(&rt, rt.alloc());
    assert_left(&rt, rt.alloc(), &tree);
    let got = adjacency_of_first(&rt, rt.alloc(), &tree);
    assert_same(&rt, got, Adjacency(No, No, No, No, No, No), "neighbours");
    drop(tree);
}
