//! A locked tree and a session that get the same events: their replies are equal.
use crate::fixtures::{TERMINAL, assert_same, new_root};
use prodash::Text;
use prodash::messages::{MessageCopyState, MessageLevel, Messages};
use prodash::progress::{Id, Rows, UNKNOWN};
use prodash::render::line::draw::MemoryScreen;
use prodash::tree::{Event, Handle, Item, Reply, Root, RootOptions, Session, SessionOptions};
use prodash::unit::label;
use std::alloc::{AllocError, Global};
use std::process::Abort;
use std::sync::Wait;

/// A locked tree whose items are named by handles, as those of a session. No item has the handle 0,
/// and a dropped item's place is empty.
#[derive(Drop)]
struct MirrorTree<R: Wait + Clone + Drop> {
    root: Root<R>,
    items: Vec<Option<Item<R>>>,
    /// The names of the events that it got, and of the calls where an event has several.
    calls: Vec<&'static str>,
}

impl<R: Wait + Clone + Drop> MirrorTree<R> {
    fn new(rt: &impl Abort, alloc: Global, root: Root<R>) -> MirrorTree<R> {
        let mut items = Vec::new(alloc);
        items.push(None).expect(rt, "memory");
        MirrorTree {
            root,
            items,
            calls: Vec::new(alloc),
        }
    }

    /// Returns the last handle of an item that isn't past `wanted`, or the first if all are.
    fn handle_near(&self, wanted: u64) -> Option<Handle> {
        let mut found = None;
        for (handle, item) in self.items.iter().enumerate() {
            if item.is_some() && (found.is_none() || handle as u64 <= wanted) {
                found = Some(handle as u64);
            }
        }
        found
    }

    fn item<'a>(&'a mut self, rt: &impl Abort, handle: Handle) -> &'a mut Item<R> {
        match self.items.get_mut(handle as usize) {
            Some(Some(item)) => item,
            _ => panic!(rt; "no item"),
        }
    }

    /// Adds a child by the call with an identifier if it has one, and else by the other.
    fn child_of(
        &mut self,
        rt: &impl Abort,
        alloc: Global,
        parent: Handle,
        name: &str,
        id: Id,
    ) -> Item<R> {
        let (call, child) = match (parent, id == UNKNOWN) {
            (0, true) => ("Root::add_child", self.root.add_child(alloc, name)),
            (0, false) => (
                "Root::add_child_with_id",
                self.root.add_child_with_id(alloc, name, id),
            ),
            (_, true) => (
                "Item::add_child",
                self.item(rt, parent).add_child(alloc, name),
            ),
            (_, false) => (
                "Item::add_child_with_id",
                self.item(rt, parent).add_child_with_id(alloc, name, id),
            ),
        };
        self.calls.push(call).expect(rt, "memory");
        child.expect(rt, "no refusal")
    }

    fn add_child(
        &mut self,
        rt: &impl Abort,
        alloc: Global,
        parent: Handle,
        name: &str,
        id: Id,
    ) -> Reply {
        let made = self.items.len() as Handle;
        let child = self.child_of(rt, alloc, parent, name, id);
        self.items.push(Some(child)).expect(rt, "memory");
        Reply::Made(made)
    }

    fn drop_item(&mut self, handle: Handle) -> Reply {
        if let Some(place) = self.items.get_mut(handle as usize) {
            *place = None;
        }
        Reply::Done
    }

    /// Sends a message by `message` at an even moment, and else by the call for its level.
    fn send_message(
        &mut self,
        rt: &impl Abort,
        alloc: Global,
        handle: Handle,
        at: u64,
        level: MessageLevel,
        text: &str,
    ) -> Reply {
        let item = self.item(rt, handle);
        let (call, sent) = match level {
            _ if at % 2 == 0 => ("Item::message", item.message(alloc, at, level, text)),
            MessageLevel::Info => ("Item::info", item.info(alloc, at, text)),
            MessageLevel::Success => ("Item::done", item.done(alloc, at, text)),
            MessageLevel::Failure => ("Item::fail", item.fail(alloc, at, text)),
        };
        sent.expect(rt, "no refusal");
        self.calls.push(call).expect(rt, "memory");
        Reply::Done
    }

    /// Applies an event to items.
    fn apply_change(&mut self, rt: &impl Abort, alloc: Global, event: &Event) -> Reply {
        self.calls.push(name_of(event)).expect(rt, "memory");
        match event {
            Event::AddChild { parent, name, id } => {
                return self.add_child(rt, alloc, *parent, name.as_str(), *id);
            }
            Event::Drop { item } => return self.drop_item(*item),
            Event::Message {
                item,
                at,
                level,
                text,
            } => return self.send_message(rt, alloc, *item, *at, *level, text.as_str()),
            Event::SetMax { item, max } => {
                return Reply::Bound(self.item(rt, *item).set_max(*max));
            }
            Event::Init { item, max, unit } => self.item(rt, *item).init(*max, *unit),
            Event::SetName { item, name } => {
                let set = self.item(rt, *item).set_name(alloc, name.as_str());
                set.expect(rt, "no refusal");
            }
            Event::Set { item, step } => self.item(rt, *item).set(*step),
            Event::IncBy { item, step: 1 } => self.item(rt, *item).inc(),
            Event::IncBy { item, step } => self.item(rt, *item).inc_by(*step),
            Event::Blocked { item, reason, eta } => self.item(rt, *item).blocked(reason, *eta),
            Event::Halted { item, reason, eta } => self.item(rt, *item).halted(reason, *eta),
            Event::Running { item } => self.item(rt, *item).running(),
            _ => return self.apply_read(rt, alloc, event),
        }
        Reply::Done
    }

    /// Applies an event that only reads.
    fn apply_read(&mut self, rt: &impl Abort, alloc: Global, event: &Event) -> Reply {
        match event {
            Event::Name { item } => {
                let name = self.item(rt, *item).name(alloc);
                match name.expect(rt, "no refusal") {
                    Some(name) => Reply::Name(Some(Text::new(name))),
                    None => Reply::Name(None),
                }
            }
            Event::Id { item } => Reply::Id(self.item(rt, *item).id()),
            Event::Step { item } => Reply::Step(self.item(rt, *item).step().expect(rt, "a step")),
            Event::Max { item } => Reply::Bound(self.item(rt, *item).max()),
            Event::Unit { item } => Reply::Unit(self.item(rt, *item).unit()),
            Event::NumTasks => Reply::Count(self.root.num_tasks()),
            Event::Snapshot => {
                let mut rows = Vec::new(alloc);
                let looked = self.root.sorted_snapshot(alloc, &mut rows);
                looked.expect(rt, "no refusal");
                Reply::Rows(Rows::new(rows))
            }
            Event::CopyMessages => {
                let mut messages = Vec::new(alloc);
                let looked = self.root.copy_messages(alloc, &mut messages);
                looked.expect(rt, "no refusal");
                Reply::Messages(Messages::new(messages))
            }
            Event::CopyNew { previous } => {
                let mut messages = Vec::new(alloc);
                let looked = self.root.copy_new_messages(alloc, &mut messages, *previous);
                let state = looked.expect(rt, "no refusal");
                Reply::New(Messages::new(messages), state)
            }
            _ => panic!(rt; "no event that reads"),
        }
    }
}

/// Returns the name of an event.
fn name_of(event: &Event) -> &'static str {
    match event {
        Event::AddChild { .. } => "AddChild",
        Event::Drop { .. } => "Drop",
        Event::Init { .. } => "Init",
        Event::SetName { .. } => "SetName",
        Event::SetMax { .. } => "SetMax",
        Event::Set { .. } => "Set",
        Event::IncBy { .. } => "IncBy",
        Event::Blocked { .. } => "Blocked",
        Event::Halted { .. } => "Halted",
        Event::Running { .. } => "Running",
        Event::Message { .. } => "Message",
        Event::Name { .. } => "Name",
        Event::Id { .. } => "Id",
        Event::Step { .. } => "Step",
        Event::Max { .. } => "Max",
        Event::Unit { .. } => "Unit",
        Event::NumTasks => "NumTasks",
        Event::Snapshot => "Snapshot",
        Event::CopyMessages => "CopyMessages",
        Event::CopyNew { .. } => "CopyNew",
        Event::DropRoot => "DropRoot",
        Event::Tick { .. } => "Tick",
        Event::Resize { .. } => "Resize",
        Event::Quit { .. } => "Quit",
    }
}

/// The events of which there are at least 50: all but the frames and the drop of the root.
const EVENTS: &str = "AddChild Drop Init SetName SetMax Set IncBy Blocked Halted Running Message \
Name Id Step Max Unit NumTasks Snapshot CopyMessages CopyNew";

/// The calls of which there are at least 10, where one event has several.
const CALLS: &str = "Root::add_child Root::add_child_with_id Item::add_child \
Item::add_child_with_id Item::message Item::info Item::done Item::fail";

/// Asserts that each of these names occurs at least `least` times.
fn assert_called(rt: &impl Abort, calls: &[&str], names: &str, least: usize) {
    for name in names.split(' ') {
        let mut count: usize = 0;
        for call in calls {
            if *call == name {
                count = count.saturating_add(1);
            }
        }
        assert_same(rt, count >= least, true, (name, count));
    }
}

/// How many kinds of events there are for the handle of an item or the root. The last is the drop.
pub(crate) const KINDS: u64 = 20;

/// Returns a number that the previous one decides, spread over all bits.
fn number_after(n: u64) -> u64 {
    let n = n
        .wrapping_mul(0x9e37_79b9_7f4a_7c15)
        .wrapping_add(0x1234_5678_9abc_def1);
    n ^ (n >> 29)
}

const TEXTS: [&str; 4] = ["task", "", "long name", "ü"];

fn text_at(alloc: Global, n: u64) -> Result<Text, AllocError> {
    Text::from_str(alloc, TEXTS[(n % 4) as usize])
}

fn bound_at(n: u64) -> Option<u64> {
    if n % 3 == 0 { None } else { Some(n % 50) }
}

/// Adds a child of the root or of an item, with or without an identifier.
fn add_child_event(alloc: Global, item: Handle, n: u64) -> Result<Event, AllocError> {
    Ok(Event::AddChild {
        parent: if n % 3 == 0 { 0 } else { item },
        name: text_at(alloc, n >> 3)?,
        id: if n >> 7 & 1 == 0 { UNKNOWN } else { *b"TASK" },
    })
}

/// Sends a message of one of the levels.
fn message_event(alloc: Global, item: Handle, n: u64) -> Result<Event, AllocError> {
    Ok(Event::Message {
        item,
        at: n >> 8,
        level: match n % 3 {
            0 => MessageLevel::Info,
            1 => MessageLevel::Success,
            _ => MessageLevel::Failure,
        },
        text: text_at(alloc, n >> 3)?,
    })
}

/// Returns an event of a kind. It is on this item, or reads the tree.
pub(crate) fn event_of_kind(
    alloc: Global,
    kind: u64,
    item: Handle,
    n: u64,
) -> Result<Event, AllocError> {
    match kind {
        0 => add_child_event(alloc, item, n),
        3 => Ok(Event::SetName {
            item,
            name: text_at(alloc, n)?,
        }),
        10 => message_event(alloc, item, n),
        _ => Ok(plain_event(kind, item, n)),
    }
}

/// An event without a text.
#[rattlefmt::skip]
fn plain_event(kind: u64, item: Handle, n: u64) -> Event {
    let max = bound_at(n);
    match kind {
        1 => Event::CopyNew { previous: max.map(MessageCopyState::new) },
        2 => Event::Init { item, max, unit: if n % 3 == 0 { Some(label("items")) } else { None } },
        4 => Event::SetMax { item, max },
        5 => Event::Set { item, step: n },
        6 => Event::IncBy { item, step: n % 4 },
        7 => Event::Blocked { item, reason: "blocked", eta: max },
        8 => Event::Halted { item, reason: "halted", eta: max },
        9 => Event::Running { item },
        11 => Event::Name { item },
        12 => Event::Id { item },
        13 => Event::Step { item },
        14 => Event::Max { item },
        15 => Event::NumTasks,
        16 => Event::Snapshot,
        17 => Event::CopyMessages,
        18 => Event::Unit { item },
        _ => Event::Drop { item },
    }
}

/// Returns the kind of an event that isn't the first: each in turn, but no drops before there are
/// some items.
fn kind_of(place: u64) -> u64 {
    let kind = place % KINDS;
    if kind == KINDS - 1 && place < 20 * KINDS {
        0
    } else {
        kind
    }
}

/// A session, a screen for it, and a locked tree that gets the same events.
#[derive(Drop)]
struct Mirror<R: Wait + Clone + Drop> {
    session: Session,
    screen: MemoryScreen,
    tree: MirrorTree<R>,
}

impl<R: Wait + Clone + Drop> Mirror<R> {
    fn new(rt: &impl Abort, alloc: Global, root: Root<R>) -> Mirror<R> {
        let options = SessionOptions {
            root: RootOptions::default(),
            draw: TERMINAL,
            throughput: false,
        };
        Mirror {
            session: Session::new(alloc, &options).expect(rt, "no refusal"),
            screen: MemoryScreen::new(alloc, 0).expect(rt, "no refusal"),
            tree: MirrorTree::new(rt, alloc, root),
        }
    }

    /// The event at a place, which a number decides: on the newest item for an even number.
    fn event_at(&self, alloc: Global, place: u64, n: u64) -> Result<Event, AllocError> {
        let newest = self.tree.items.len() as u64;
        let near = if n % 2 == 0 {
            newest
        } else {
            (n >> 16).checked_rem(newest).unwrap_or(0)
        };
        match self.tree.handle_near(near) {
            Some(item) => event_of_kind(alloc, kind_of(place), item, n),
            None => event_of_kind(alloc, 0, 0, n),
        }
    }

    /// Asserts that the session gives this reply to an event, at or after the event at a place.
    fn assert_reply(
        &mut self,
        rt: &impl Abort,
        alloc: Global,
        event: &Event,
        got: Reply,
        at: (u64, &Event),
    ) {
        let want = self.session.apply(alloc, event, &mut self.screen);
        assert_same(rt, got, want, at);
    }

    /// Asserts that both reply the same to an event that only reads, after the event at a place.
    fn assert_looks(&mut self, rt: &impl Abort, alloc: Global, look: &Event, after: (u64, &Event)) {
        let got = self.tree.apply_read(rt, alloc, look);
        self.assert_reply(rt, alloc, look, got, after);
    }

    /// Asserts that both reply the same to the event at a place, and look the same after it.
    fn assert_place(&mut self, rt: &impl Abort, alloc: Global, place: u64, n: u64) {
        let event = self.event_at(alloc, place, n).expect(rt, "memory");
        let got = self.tree.apply_change(rt, alloc, &event);
        let at = (place, &event);
        self.assert_reply(rt, alloc, &event, got, at);
        self.assert_looks(rt, alloc, &Event::Snapshot, at);
        self.assert_looks(rt, alloc, &Event::CopyMessages, at);
        self.assert_looks(rt, alloc, &Event::NumTasks, at);
    }
}

/// After each of 2000 events the replies, the snapshots, the messages and the numbers of tasks of
/// both are equal. All kinds of events and calls come often.
#[test]
fn a_locked_tree_replies_as_a_session(rt: HostRuntime) {
    let alloc: Global = rt.alloc();
    let mut mirror = Mirror::new(&rt, alloc, new_root(rt, alloc));
    let mut n = 1u64;
    for place in 0..2000u64 {
        n = number_after(n);
        mirror.assert_place(&rt, alloc, place, n);
    }
    assert_same(&rt, mirror.screen.bytes().is_empty(), true, "screen");
    assert_called(&rt, &mirror.tree.calls, EVENTS, 50);
    assert_called(&rt, &mirror.tree.calls, CALLS, 10);
    drop(mirror);
}
