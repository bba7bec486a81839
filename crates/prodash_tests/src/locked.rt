//! The locked tree: owners and weak handles, items whose entry is gone, steps, and threads.
use crate::fixtures::{
    ShortMessage, ShortRow, assert_messages, assert_name, assert_rows, assert_same, child, key_at,
    new_root, root_with_task,
};
use prodash::messages::{Message, MessageLevel, Messages};
use prodash::progress::Rows;
use prodash::tree::root::{Options, WeakHandle};
use prodash::tree::{Item, Root, Steps};
use std::alloc::Global;
use std::process::Abort;
use std::sync::atomic::Ordering;
use std::sync::{Arc, Wait};
use std::thread;
use std::thread::Threads;

const CAPACITIES: &[usize] = &[0, 1, 20, 300, 70_000];

/// Asserts that a tree keeps as many messages as its options say.
fn assert_capacity<R: Wait + Abort + Copy + Drop>(
    rt: R,
    alloc: Global,
    message_buffer_capacity: usize,
) {
    let options = Options {
        initial_capacity: 100,
        message_buffer_capacity,
    };
    let root = options.create(rt, alloc).expect(&rt, "no refusal");
    assert_same(
        &rt,
        root.messages_capacity(),
        message_buffer_capacity,
        "capacity",
    );
}

#[test]
fn options_have_defaults(rt: HostRuntime) {
    let options = Options::default();
    assert_same(&rt, options.initial_capacity, 100, "tasks");
    assert_same(&rt, options.message_buffer_capacity, 20, "messages");
    for capacity in CAPACITIES {
        assert_capacity(rt, rt.alloc(), *capacity);
    }
}

/// Asserts that a weak handle finds a tree with this many tasks, or none.
fn assert_finds<R: Wait + Clone + Drop>(
    rt: &impl Abort,
    weak: &WeakHandle<R>,
    tasks: Option<usize>,
) {
    let found = match weak.upgrade().expect(rt, "no refusal") {
        Some(root) => Some(root.num_tasks()),
        None => None,
    };
    assert_same(rt, found, tasks, "tasks");
}

/// Every owner sees the task, and once the last is dropped the weak handle finds none.
#[test]
fn items_are_no_owners(rt: HostRuntime) {
    let (root, item) = root_with_task(rt, rt.alloc());
    let weak = root.downgrade().expect(&rt, "no refusal");
    let other = root.clone().expect(&rt, "no refusal");
    drop(root);
    assert_same(&rt, other.num_tasks(), 1, "tasks");
    assert_finds(&rt, &weak, Some(1));
    drop(other);
    assert_finds(&rt, &weak, None);
    assert_counts(&rt, &item);
}

/// Asserts that the item goes on without an owner.
fn assert_counts<R: Wait + Clone + Drop>(rt: &impl Abort, item: &Item<R>) {
    item.init(Some(10), None);
    item.set(5);
    item.inc_by(2);
    item.inc();
    assert_same(rt, item.step(), Some(8), "step of the item");
    assert_same(rt, item.steps().step(), 8, "step");
    item.steps().set(1);
    assert_same(rt, item.step(), Some(1), "step of the item after set");
    assert_same(rt, item.steps().step(), 1, "step after set");
    let counter = item.steps().counter().expect(rt, "no refusal");
    assert_same(
        rt,
        counter.load(Ordering::SeqCst),
        1,
        "counter of the steps",
    );
    let counter = item.counter().expect(rt, "no refusal");
    assert_same(rt, counter.load(Ordering::SeqCst), 1, "counter of the item");
}

#[test]
fn items_show_key_and_step(rt: HostRuntime) {
    let (_root, item) = root_with_task(rt, rt.alloc());
    item.set(3);
    let text = format!(in rt.alloc(); "{item:?}").expect(&rt, "memory");
    let want = "Item { key: Key [0], step: 3, .. }";
    assert_same(&rt, text.as_str(), want, "text");
}

/// A dropped item leaves nothing in the tree: the only owner of its counter is then the one that
/// asked for it.
#[test]
fn a_dropped_item_lets_go_of_its_counter(rt: HostRuntime) {
    let (root, item) = root_with_task(rt, rt.alloc());
    let counter = item.counter().expect(&rt, "no refusal");
    assert_same(&rt, Arc::strong_count(&counter), 3, "owners before");
    drop(item);
    assert_same(&rt, Arc::strong_count(&counter), 1, "owners after");
    drop(root);
}

/// Asserts that a tree keeps these messages.
fn assert_keeps<R: Wait + Clone + Drop>(
    rt: &impl Abort,
    alloc: Global,
    root: &Root<R>,
    want: &[ShortMessage],
) {
    let mut messages = Vec::new(alloc);
    root.copy_messages(alloc, &mut messages)
        .expect(rt, "no refusal");
    assert_messages(rt, alloc, &messages, want);
}

/// Sends a message of severity `Info` at the first moment.
fn send_info<R: Wait + Clone + Drop>(rt: &impl Abort, alloc: Global, item: &Item<R>, text: &str) {
    item.message(alloc, 0, MessageLevel::Info, text)
        .expect(rt, "no refusal");
}

/// Asserts that an item whose entry is gone has only a step, and that its message has no origin.
fn assert_gone<R: Wait + Clone + Drop + Send + Sync>(
    rt: &impl Abort,
    alloc: Global,
    root: &Root<R>,
    item: &Item<R>,
) {
    assert_name(rt, alloc, item, None);
    item.set(5);
    item.init(Some(10), None);
    assert_same(rt, item.step(), Some(5), "step");
    send_info(rt, alloc, item, "said");
    assert_keeps(rt, alloc, root, &[("", "said")]);
}

/// The child of an item at the sixth level takes its place, and loses its entry once that item is
/// dropped.
#[test]
fn a_child_of_the_sixth_level_loses_its_entry_with_its_parent(rt: HostRuntime) {
    let alloc: Global = rt.alloc();
    let (root, mut parent) = root_with_task(rt, alloc);
    for _ in 1..6 {
        parent = parent.add_child(alloc, "part").expect(&rt, "no refusal");
    }
    let last = parent.add_child_with_id(alloc, "last", *b"LAST");
    let last = last.expect(&rt, "no refusal");
    assert_same(&rt, root.num_tasks(), 1, "tasks");
    assert_same(&rt, parent.id(), *b"LAST", "identifier");
    drop(parent);
    assert_gone(&rt, alloc, &root, &last);
}

/// Adds this many children to the root, and returns their items.
fn add_children<R: Wait + Clone + Drop>(
    rt: &impl Abort,
    alloc: Global,
    root: &Root<R>,
    count: u32,
) -> Vec<Item<R>> {
    let mut items = Vec::new(alloc);
    for _ in 0..count {
        let item = child(rt, alloc, root, "more");
        items.push(item).expect(rt, "memory");
    }
    items
}

/// Asserts that the last row of a tree has this number below the root, the name `Z` and progress.
fn assert_last_row<R: Wait + Clone + Drop>(
    rt: &impl Abort,
    alloc: Global,
    root: &Root<R>,
    number: u32,
) {
    let mut rows = Vec::new(alloc);
    root.sorted_snapshot(alloc, &mut rows)
        .expect(rt, "no refusal");
    let row = rows.last().expect(rt, "a row");
    assert_same(rt, row.key, key_at(&[number]), "key");
    assert_same(rt, row.name.as_str(), "Z", "name");
    assert_same(rt, row.progress.is_some(), true, "progress");
}

/// After 65536 children of the root, which all stay, the next one has a number of its own, so the
/// first keeps its entry.
#[test]
fn the_child_after_65536_has_a_place_of_its_own(rt: HostRuntime) {
    let alloc: Global = rt.alloc();
    let root = new_root(rt, alloc);
    let first = child(&rt, alloc, &root, "A");
    let others = add_children(&rt, alloc, &root, 65535);
    let last = child(&rt, alloc, &root, "Z");
    assert_same(&rt, root.num_tasks(), 65537, "tasks");
    assert_name(&rt, alloc, &first, Some("A"));
    drop(others);
    drop(first);
    assert_same(&rt, root.num_tasks(), 1, "tasks that stay");
    last.init(Some(1), None);
    assert_last_row(&rt, alloc, &root, 65536);
}

/// Adds this many children to an item, and drops each before the next.
fn add_and_drop_below<R: Wait + Clone + Drop>(
    rt: &impl Abort,
    alloc: Global,
    item: &mut Item<R>,
    count: u32,
) {
    for _ in 0..count {
        item.add_child(alloc, "more").expect(rt, "no refusal");
    }
}

/// Asserts that a tree has these rows.
fn assert_has<R: Wait + Clone + Drop>(
    rt: &impl Abort,
    alloc: Global,
    root: &Root<R>,
    want: &[ShortRow],
) {
    let mut rows = Vec::new(alloc);
    root.sorted_snapshot(alloc, &mut rows)
        .expect(rt, "no refusal");
    assert_rows(rt, alloc, &rows, want);
}

const STAYING: &[ShortRow] = &[
    (&[0], "task", None),
    (&[0, 0], "first", None),
    (&[0, 200_001], "last", None),
];

/// None of 200,000 children that are added and dropped one after another takes the place of one
/// that stays.
#[test]
fn children_that_stay_keep_their_rows(rt: HostRuntime) {
    let alloc: Global = rt.alloc();
    let (root, mut item) = root_with_task(rt, alloc);
    let first = item.add_child(alloc, "first").expect(&rt, "no refusal");
    add_and_drop_below(&rt, alloc, &mut item, 200_000);
    let last = item.add_child(alloc, "last").expect(&rt, "no refusal");
    assert_has(&rt, alloc, &root, STAYING);
    drop(last);
    drop(first);
}

/// A copy of a tree keeps its capacity, and takes messages.
#[test]
fn deep_clones_take_messages(rt: HostRuntime) {
    let alloc: Global = rt.alloc();
    let root = new_root(rt, alloc);
    let copy = root.deep_clone(alloc).expect(&rt, "no refusal");
    assert_same(&rt, copy.messages_capacity(), 20, "capacity");
    let item = child(&rt, alloc, &copy, "task");
    send_info(&rt, alloc, &item, "one");
    assert_keeps(&rt, alloc, &copy, &[("task", "one")]);
}

const COPIED: &[ShortRow] = &[(&[0], "task", Some((3, Some(10))))];

/// Asserts that each look at the copy gives the row and the new messages that the tree had.
fn assert_looks<R: Wait + Clone + Drop>(rt: &impl Abort, alloc: Global, copy: &Root<R>) {
    let (mut rows, mut messages) = (Vec::new(alloc), Vec::new(alloc));
    let state = copy
        .snapshot_and_new_messages(alloc, &mut rows, &mut messages, None)
        .expect(rt, "no refusal");
    assert_rows(rt, alloc, &rows, COPIED);
    assert_messages(rt, alloc, &messages, &[("task", "one")]);
    let spare = (Rows::new(rows), Messages::new(messages));
    let (rows, messages, next) = copy.look(spare, Some(state)).expect(rt, "no refusal");
    assert_rows(rt, alloc, rows.as_slice(), COPIED);
    assert_messages(rt, alloc, messages.as_slice(), &[]);
    assert_same(rt, next.pushed(), 1, "messages sent");
}

/// A copy has counters and messages of its own, and goes on without the tree.
#[test]
fn deep_clones_are_apart(rt: HostRuntime) {
    let alloc: Global = rt.alloc();
    let (root, item) = root_with_task(rt, alloc);
    item.init(Some(10), None);
    item.set(3);
    send_info(&rt, alloc, &item, "one");
    let copy = root.deep_clone(alloc).expect(&rt, "no refusal");
    item.set(4);
    send_info(&rt, alloc, &item, "two");
    drop(item);
    drop(root);
    assert_looks(&rt, alloc, &copy);
    let other = child(&rt, alloc, &copy, "Z");
    other.init(Some(1), None);
    assert_last_row(&rt, alloc, &copy, 1);
    drop(other);
    assert_same(&rt, copy.num_tasks(), 1, "tasks");
}

/// Asserts that a look over the row of a task finds this step, or that more of the row has changed.
fn assert_step_over<R: Wait + Clone + Drop>(
    rt: &impl Abort,
    alloc: Global,
    root: &Root<R>,
    rows: &Rows,
    step: Option<u64>,
) {
    let spare = (Vec::new(alloc), Messages::new(Vec::new(alloc)));
    let found = root
        .look_at_steps(rows, spare, None)
        .expect(rt, "no refusal");
    let first = match found {
        Some((steps, _messages, _state)) => steps.first().copied(),
        None => None,
    };
    assert_same(rt, first, step, "step");
}

/// A look over rows finds their steps as long as nothing else of them has changed.
#[test]
fn looks_over_rows_find_steps(rt: HostRuntime) {
    let alloc: Global = rt.alloc();
    let (root, mut item) = root_with_task(rt, alloc);
    item.init(Some(10), None);
    let spare = (Rows::new(Vec::new(alloc)), Messages::new(Vec::new(alloc)));
    let (rows, _messages, _state) = root.look(spare, None).expect(&rt, "no refusal");
    item.set(4);
    assert_step_over(&rt, alloc, &root, &rows, Some(4));
    item.set_max(Some(11));
    assert_step_over(&rt, alloc, &root, &rows, None);
    item.set_max(Some(10));
    assert_step_over(&rt, alloc, &root, &rows, Some(4));
    let part = item.add_child(alloc, "part").expect(&rt, "no refusal");
    assert_step_over(&rt, alloc, &root, &rows, None);
    drop(part);
    drop(item);
    drop(root);
}

/// How many messages a thread sends.
const SENT_BY_EACH: u64 = 200;

/// Adds tasks with parts, sets their steps, sends two messages for each, and drops them. The
/// moments of the messages of a thread go up by one, and those of the next thread begin after them.
fn add_and_drop<R: Wait + Clone + Drop>(
    rt: &impl Abort,
    alloc: Global,
    root: &Root<R>,
    number: u64,
) {
    let first = number.wrapping_mul(SENT_BY_EACH);
    for n in 0..SENT_BY_EACH / 2 {
        let mut item = child(rt, alloc, root, "task");
        item.init(Some(100), None);
        item.set(n);
        let at = first.wrapping_add(n.wrapping_mul(2));
        item.info(alloc, at, "begun").expect(rt, "no refusal");
        let mut part = item.add_child(alloc, "part").expect(rt, "no refusal");
        part.inc();
        part.info(alloc, at.wrapping_add(1), "done")
            .expect(rt, "no refusal");
    }
}

/// Adds 3 to a counter, in a function that may not wait.
fn add_three(steps: &Steps) {
    steps.inc_by(2);
    steps.inc();
}

/// Adds 6 to the counter of an item 50,000 times, in each way.
fn count_up<R: Wait + Clone + Drop>(item: &Item<R>) {
    for _ in 0..50_000u32 {
        item.inc();
        item.inc_by(2);
        add_three(item.steps());
    }
}

/// What each of four threads does.
#[derive(Clone, Copy)]
enum Job {
    AddAndDrop,
    CountUp,
}

fn do_job<R: Wait + Clone + Drop>(
    rt: &impl Abort,
    alloc: Global,
    root: &Root<R>,
    item: &Item<R>,
    job: Job,
    number: u64,
) {
    match job {
        Job::AddAndDrop => add_and_drop(rt, alloc, root, number),
        Job::CountUp => count_up(item),
    }
}

/// Does a job in four threads.
fn run_in_four_threads<R: Threads + Wait + Abort + Copy + Drop + Send + Sync>(
    rt: R,
    alloc: Global,
    root: &Root<R>,
    item: &Item<R>,
    job: Job,
) {
    thread::scope(thread::scope_env(), &rt, |scope| {
        for number in 0..4u64 {
            let started = scope.spawn(move || do_job(&rt, alloc, root, item, job, number));
            assert_same(&rt, started.is_ok(), true, "a thread is started");
        }
    });
}

/// Asserts that the messages of each of the four threads are the last that it has sent, in their
/// order.
fn assert_last_of_each(rt: &impl Abort, messages: &[Message]) {
    // the moments of the messages before those that are looked at
    let mut before: [u64; 4] = [200, 400, 600, 800];
    for message in messages.iter().rev() {
        let number = (message.time / SENT_BY_EACH) as usize;
        let at = before.get_mut(number).expect(rt, "a thread");
        *at = at.wrapping_sub(1);
        assert_same(rt, message.time, *at, "moment of a message");
    }
}

/// No task is left, and of 800 messages the tree keeps the last 20.
#[test]
fn four_threads_share_a_root(rt: HostRuntime) {
    let (root, item) = root_with_task(rt, rt.alloc());
    run_in_four_threads(rt, rt.alloc(), &root, &item, Job::AddAndDrop);
    drop(item);
    assert_same(&rt, root.num_tasks(), 0, "tasks");
    let mut kept = Vec::new(rt.alloc());
    let state = root.copy_new_messages(rt.alloc(), &mut kept, None);
    let sent = state.expect(&rt, "no refusal").pushed();
    assert_same(&rt, kept.len(), 20, "messages");
    assert_same(&rt, sent, 800, "messages sent");
    assert_last_of_each(&rt, &kept);
}

/// No step is lost if four threads add to one counter, which wraps.
#[test]
fn four_threads_share_a_counter(rt: HostRuntime) {
    let (root, item) = root_with_task(rt, rt.alloc());
    item.set(u64::MAX);
    run_in_four_threads(rt, rt.alloc(), &root, &item, Job::CountUp);
    assert_same(&rt, item.step(), Some(1_199_999), "step");
}
