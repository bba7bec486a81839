//! A session beside a slow one over the hashed table that the ordered one replaced.
use crate::fixtures::assert_same;
use crate::hashed_table::HashedTable;
use crate::transcripts::{apply_event, new_session, options};
use prodash_base::messages::{Message, MessageCopyState, MessageLevel, Messages};
use prodash_base::progress::key::next_id;
use prodash_base::progress::{Id, Key, State, Step, UNKNOWN};
use prodash_base::unit::{Unit, label};
use prodash_base::{Refusal, Text};
use prodash_core::tree::{Counted, Counters, Event, Handle, Reply, Session};
use prodash_line::render::line::draw::MemoryScreen;
use std::alloc::Global;
use std::process::Abort;

/// How many messages are kept.
const KEPT: usize = 20;

/// An item of the slow session, or its root, which has no key, counter and life of its own.
#[derive(Clone, Copy)]
struct Place {
    key: Key,
    counter: Step,
    /// The number of the next child.
    number: u32,
    lives: bool,
}

/// The places of the root and all items by their handles.
#[derive(Drop)]
struct Places {
    places: Vec<Place>,
}

impl Counters<Handle> for Places {
    ghost shows = { λ _ counter n. Unit {0} };

    fn number(&self, counter: Handle) -> Step {
        match self.places.get(counter as usize) {
            None => 0,
            Some(place) => place.counter,
        }
    }
}

/// The slow session: the places of its handles, its tasks, the messages that are kept, and how many
/// were sent.
#[derive(Drop)]
struct Slow {
    places: Places,
    tasks: HashedTable,
    messages: Vec<Message>,
    sent: u64,
}

impl Slow {
    fn new(rt: &impl Abort, alloc: Global) -> Slow {
        let mut slow = Slow {
            places: Places {
                places: Vec::new(alloc),
            },
            tasks: HashedTable::new(alloc),
            messages: Vec::new(alloc),
            sent: 0,
        };
        slow.push_place(rt, Key::default());
        slow
    }

    fn push_place(&mut self, rt: &impl Abort, key: Key) {
        let place = Place {
            key,
            counter: 0,
            number: 0,
            lives: true,
        };
        self.places.places.push(place).expect(rt, "memory");
    }

    /// Returns the place of a root or an item that lives.
    fn place(&mut self, handle: Handle) -> Option<&mut Place> {
        let place = self.places.places.get_mut(handle as usize);
        place.filter(|place| place.lives)
    }

    /// Returns the place of an item that lives.
    fn item(&mut self, handle: Handle) -> Option<Place> {
        if handle == 0 {
            return None;
        }
        self.place(handle).map(|place| *place)
    }

    fn add_child(
        &mut self,
        rt: &impl Abort,
        alloc: Global,
        parent: Handle,
        name: &Text,
        id: Id,
    ) -> Reply {
        let made = self.places.places.len() as Handle;
        let Some(place) = self.place(parent) else {
            return Reply::Refused(Refusal::Gone);
        };
        let key = place.key.add_child(place.number);
        place.number = next_id(place.number);
        let inserted = self.tasks.insert(alloc, key, name.as_str(), id);
        inserted.expect(rt, "memory");
        self.push_place(rt, key);
        Reply::Made(made)
    }

    fn drop_place(&mut self, handle: Handle) -> Reply {
        if let Some(place) = self.place(handle) {
            place.lives = false;
        }
        Reply::Done
    }

    fn drop_item(&mut self, item: Handle, place: Place) -> Reply {
        self.tasks.remove(place.key);
        self.drop_place(item)
    }

    fn init(&mut self, item: Handle, place: Place, max: Option<Step>, unit: Option<Unit>) -> Reply {
        if self.tasks.init(place.key, Counted::begin(item, max, unit)) {
            self.set(item, 0);
        }
        Reply::Done
    }

    fn set(&mut self, item: Handle, step: Step) -> Reply {
        if let Some(place) = self.place(item) {
            place.counter = step;
        }
        Reply::Done
    }

    fn set_name(&mut self, rt: &impl Abort, alloc: Global, place: Place, name: &Text) -> Reply {
        let set = self.tasks.set_name(alloc, place.key, name.as_str());
        set.expect(rt, "memory");
        Reply::Done
    }

    fn set_state(&mut self, place: Place, state: State) -> Reply {
        self.tasks.set_state(place.key, state);
        Reply::Done
    }

    fn send(
        &mut self,
        rt: &impl Abort,
        alloc: Global,
        place: Place,
        time: u64,
        level: MessageLevel,
        text: &Text,
    ) -> Reply {
        let origin = match self.tasks.name(place.key) {
            Some(name) => Text::from_str(alloc, name),
            None => Text::from_str(alloc, ""),
        };
        let message = Message {
            time,
            level,
            origin: origin.expect(rt, "memory"),
            message: Text::from_str(alloc, text.as_str()).expect(rt, "memory"),
        };
        if self.messages.len() == KEPT {
            self.messages.remove(0);
        }
        self.messages.push(message).expect(rt, "memory");
        self.sent = self.sent.wrapping_add(1);
        Reply::Done
    }

    /// Returns the last messages, at most this many.
    fn last_messages(&self, rt: &impl Abort, alloc: Global, count: u64) -> Messages {
        let skipped = (self.messages.len() as u64).saturating_sub(count);
        let mut last = Vec::new(alloc);
        for message in self.messages.iter().skip(skipped as usize) {
            let message = message.clone().expect(rt, "memory");
            last.push(message).expect(rt, "memory");
        }
        Messages::new(last)
    }

    fn copy_new(
        &self,
        rt: &impl Abort,
        alloc: Global,
        previous: Option<MessageCopyState>,
    ) -> Reply {
        let seen = previous.map_or(0, |state| state.pushed());
        let new = self.last_messages(rt, alloc, self.sent.saturating_sub(seen));
        Reply::New(new, MessageCopyState::new(self.sent))
    }

    fn name(&self, rt: &impl Abort, alloc: Global, place: Place) -> Reply {
        Reply::Name(match self.tasks.name(place.key) {
            Some(name) => Some(Text::from_str(alloc, name).expect(rt, "memory")),
            None => None,
        })
    }

    fn rows(&self, rt: &impl Abort, alloc: Global) -> Reply {
        Reply::Rows(self.tasks.rows(alloc, &self.places).expect(rt, "memory"))
    }

    /// Applies an event of the root.
    fn apply_to_root(&mut self, rt: &impl Abort, alloc: Global, event: &Event) -> Reply {
        if self.place(0).is_none() {
            return Reply::Refused(Refusal::Gone);
        }
        match event {
            Event::NumTasks => Reply::Count(self.tasks.len()),
            Event::Snapshot => self.rows(rt, alloc),
            Event::CopyMessages => Reply::Messages(self.last_messages(rt, alloc, KEPT as u64)),
            Event::CopyNew { previous } => self.copy_new(rt, alloc, *previous),
            _ => self.drop_place(0),
        }
    }

    /// Applies an event of an item.
    fn apply_to_item(
        &mut self,
        rt: &impl Abort,
        alloc: Global,
        item: Handle,
        event: &Event,
    ) -> Reply {
        let Some(place) = self.item(item) else {
            return Reply::Refused(Refusal::Gone);
        };
        match event {
            Event::Init { max, unit, .. } => self.init(item, place, *max, *unit),
            Event::SetName { name, .. } => self.set_name(rt, alloc, place, name),
            Event::SetMax { max, .. } => Reply::Bound(self.tasks.set_max(place.key, *max)),
            Event::Set { step, .. } => self.set(item, *step),
            Event::IncBy { step, .. } => self.set(item, place.counter.wrapping_add(*step)),
            Event::Blocked { reason, eta, .. } => {
                self.set_state(place, State::Blocked(reason, *eta))
            }
            Event::Halted { reason, eta, .. } => self.set_state(place, State::Halted(reason, *eta)),
            Event::Running { .. } => self.set_state(place, State::Running),
            Event::Message {
                at,
                level,
                text,
                ..
            } => self.send(rt, alloc, place, *at, *level, text),
            Event::Name { .. } => self.name(rt, alloc, place),
            Event::Id { .. } => Reply::Id(self.tasks.id(place.key)),
            Event::Step { .. } => Reply::Step(place.counter),
            Event::Max { .. } => Reply::Bound(self.tasks.max(place.key)),
            Event::Unit { .. } => Reply::Unit(self.tasks.unit(place.key)),
            _ => self.drop_item(item, place),
        }
    }

    fn apply(&mut self, rt: &impl Abort, alloc: Global, event: &Event) -> Reply {
        match event {
            Event::AddChild { parent, name, id } => self.add_child(rt, alloc, *parent, name, *id),
            Event::Drop { item }
            | Event::Init { item, .. }
            | Event::SetName { item, .. }
            | Event::SetMax { item, .. }
            | Event::Set { item, .. }
            | Event::IncBy { item, .. }
            | Event::Blocked { item, .. }
            | Event::Halted { item, .. }
            | Event::Running { item }
            | Event::Message { item, .. }
            | Event::Name { item }
            | Event::Id { item }
            | Event::Step { item }
            | Event::Max { item }
            | Event::Unit { item } => self.apply_to_item(rt, alloc, *item, event),
            _ => self.apply_to_root(rt, alloc, event),
        }
    }
}

/// The texts of names and messages.
const TEXTS: &[&str] = &["alpha", "beta", "", "a longer name", "alpha"];

fn text(rt: &impl Abort, alloc: Global, word: u64) -> Text {
    let text = TEXTS.get((word % 5) as usize).copied().unwrap_or("");
    Text::from_str(alloc, text).expect(rt, "memory")
}

/// Returns a number, or none half of the time.
fn maybe(word: u64) -> Option<Step> {
    if word % 2 == 0 { None } else { Some(word / 2) }
}

/// An event that adds a child: below the root, below one of the latest items, or below the latest,
/// so that items come to the sixth level and take the places of their parents.
fn add_child(rt: &impl Abort, alloc: Global, word: u64, item: Handle, latest: Handle) -> Event {
    let parent = match word % 4 {
        0 => 0,
        1 => item,
        _ => latest,
    };
    let id = if word % 8 < 4 { UNKNOWN } else { *b"ITEM" };
    let name = text(rt, alloc, word / 8);
    Event::AddChild { parent, name, id }
}

/// An event that changes an item, or sends a message from it.
fn change(rt: &impl Abort, alloc: Global, kind: u64, word: u64, item: Handle) -> Event {
    let reason = "waits";
    match kind {
        0 => Event::SetMax {
            item,
            max: maybe(word),
        },
        1 => Event::SetName {
            item,
            name: text(rt, alloc, word),
        },
        2 => Event::Set { item, step: word },
        3 => Event::IncBy {
            item,
            step: u64::MAX - word,
        },
        4 => Event::Blocked {
            item,
            reason,
            eta: maybe(word),
        },
        5 => Event::Halted {
            item,
            reason,
            eta: maybe(word),
        },
        6 => Event::Running { item },
        7 => Event::Message {
            item,
            at: word,
            level: MessageLevel::Success,
            text: text(rt, alloc, word),
        },
        _ => Event::Init {
            item,
            max: maybe(word),
            unit: maybe(word / 2).map(|_| label("items")),
        },
    }
}

/// An event that changes nothing.
fn look(kind: u64, word: u64, item: Handle) -> Event {
    match kind {
        0 => Event::Name { item },
        1 => Event::Id { item },
        2 => Event::Step { item },
        3 => Event::Max { item },
        4 => Event::Unit { item },
        5 => Event::NumTasks,
        6 => Event::CopyMessages,
        _ => Event::CopyNew {
            previous: maybe(word).map(|seen| MessageCopyState::new(seen % 12_000)),
        },
    }
}

/// How many of the latest items events are of.
const LATEST: u64 = 64;

/// The event of a word, after which come as many items as there are.
fn event_of(rt: &impl Abort, alloc: Global, word: u64, items: u64) -> Event {
    let (kind, rest) = (word % 32, word / 32);
    let item = items.saturating_sub(rest % LATEST);
    let rest = rest / LATEST;
    match kind {
        0..=8 => add_child(rt, alloc, rest, item, items),
        9..=13 => Event::Drop { item },
        14..=22 => change(rt, alloc, kind - 14, rest, item),
        23..=30 => look(kind - 23, rest, item),
        _ => change(rt, alloc, 8, rest, item),
    }
}

/// Both sessions, and how many items they have made.
#[derive(Drop)]
struct Both {
    ordered: Session,
    screen: MemoryScreen,
    hashed: Slow,
    items: u64,
}

impl Both {
    /// Applies an event to both, and asserts that both reply the same.
    fn apply(&mut self, rt: &impl Abort, alloc: Global, event: &Event) {
        let got = apply_event(alloc, &mut self.ordered, event, &mut self.screen);
        let want = self.hashed.apply(rt, alloc, event);
        if let Reply::Made(handle) = got {
            self.items = handle;
        }
        assert_same(rt, got, want, event);
    }
}

/// How many events are applied, and after how many both list their rows.
const EVENTS: u64 = 70_000;

const LISTED: u64 = 2000;

/// The root is dropped after all but the last two thousand events.
#[test]
fn both_sessions_reply_the_same_to_70000_events(rt: HostRuntime) {
    let alloc = rt.alloc();
    let mut both = Both {
        ordered: new_session(&rt, alloc, &options(KEPT)),
        screen: MemoryScreen::new(alloc, 0).expect(&rt, "memory"),
        hashed: Slow::new(&rt, alloc),
        items: 0,
    };
    let mut word: u64 = 1;
    for n in 1..=EVENTS {
        word = word
            .wrapping_mul(6364136223846793005)
            .wrapping_add(1442695040888963407);
        let event = event_of(&rt, alloc, word >> 20, both.items);
        both.apply(&rt, alloc, &event);
        drop(event);
        if n % LISTED == 0 {
            both.apply(&rt, alloc, &Event::Snapshot);
        }
        if n == EVENTS - LISTED {
            both.apply(&rt, alloc, &Event::DropRoot);
        }
    }
    drop(both);
}
