//! The tree and its items, by handle.
use crate::line_fault::{LineFault, Unserved};
use crate::recorded_item::RecordedItem;
use crate::recording::Recording;
use crate::signs::Signs;
use prodash::messages::MessageLevel;
use prodash::progress::{Row, State, UNKNOWN, Value};
use prodash::time::Moment;
use prodash::tree::{Event, Handle, Item, Root};
use prodash::{Refusal, Text};
use prodash_script::{Change, Names, parse_step};
use std::alloc::{AllocError, Global};
use std::collections::HashMap;
use std::io::Write;
use std::sync::Wait;

/// The level of the items that have none below them. One below would take the place of another.
const LAST_LEVEL: u8 = 6;

/// An item of a script.
#[derive(Drop)]
struct Entry<R: Wait + Clone + Drop> {
    item: RecordedItem<R>,
    /// The level of the item, from 1 on.
    level: u8,
    /// The word by which the script names the item, if it names it.
    word: Option<String>,
    /// Whether items were added below it.
    has_children: bool,
}

/// The tree, its items by handle, and the handles by name.
#[derive(Drop)]
pub struct Items<R: Wait + Clone + Drop, W: Write + Drop> {
    alloc: Global,
    root: Option<Root<R>>,
    items: HashMap<Handle, Entry<R>>,
    names: Names,
    made: Handle,
    /// The item that sends the lines that are printed, once one was. It has no row.
    printer: Option<RecordedItem<R>>,
    /// The signs that say the severity of a message, as where there are no colours.
    signs: Signs,
    /// Whether an item whose word is given to another one is dropped.
    replaces_words: bool,
    /// The row of the item that was dropped last, while rows of dropped items are kept.
    dropped: Option<Row>,
    /// Whether they are.
    keeps_dropped: bool,
    recording: Recording<W>,
}

impl<R: Wait + Clone + Drop, W: Write + Drop> Items<R, W> {
    /// Returns a tree without items. `signs` stand before the origins of messages, and say
    /// their severity. If `replaces_words`, an item whose word is given to another one is dropped.
    pub fn new(
        alloc: Global,
        root: Root<R>,
        signs: Signs,
        replaces_words: bool,
        recording: Recording<W>,
    ) -> Items<R, W> {
        Items {
            alloc,
            root: Some(root),
            items: HashMap::new(alloc),
            names: Names::new(alloc),
            made: 0,
            printer: None,
            signs,
            replaces_words,
            dropped: None,
            keeps_dropped: false,
            recording,
        }
    }

    /// Keeps the row of each item that is dropped, from now on.
    pub fn keep_dropped(&mut self) {
        self.keeps_dropped = true;
    }

    /// Takes the row of the item that was dropped since the last call, if it was kept.
    pub fn take_dropped(&mut self) -> Option<Row> {
        self.dropped.take()
    }

    /// Returns the handle of the item that was added last, or 0.
    pub fn last(&self) -> Handle {
        self.made
    }

    /// Returns the row of an item, or `None` if it isn't there.
    ///
    /// # Errors
    ///
    /// `Memory`, if there is no memory for it.
    pub fn row(&self, alloc: Global, handle: Handle) -> Result<Option<Row>, Refusal> {
        match self.items.get(&handle) {
            None => Ok(None),
            Some(entry) => row_of(alloc, &entry.item.item),
        }
    }

    /// Returns the rows of all items, in the order of their keys; none without the root.
    ///
    /// # Errors
    ///
    /// `Memory`, if there is no memory for them.
    pub fn rows(&self) -> Result<Vec<Row>, Refusal> {
        let mut rows = Vec::new(self.alloc);
        if let Some(root) = &self.root {
            root.sorted_snapshot(self.alloc, &mut rows)?;
        }
        Ok(rows)
    }

    /// Returns the row of an item that has reached its bound.
    ///
    /// # Errors
    ///
    /// `Memory`, if there is no memory for it.
    pub fn finished_row(&self, alloc: Global, handle: Handle) -> Result<Option<Row>, Refusal> {
        match self.items.get(&handle) {
            Some(entry) if has_finished(&entry.item.item) => row_of(alloc, &entry.item.item),
            _ => Ok(None),
        }
    }

    /// Returns whether items were added below an item.
    pub fn has_children(&self, handle: Handle) -> bool {
        match self.items.get(&handle) {
            None => false,
            Some(entry) => entry.has_children,
        }
    }

    /// Returns the recording.
    pub fn recording(&mut self) -> &mut Recording<W> {
        &mut self.recording
    }

    /// Returns the handle of each name.
    pub fn names(&self) -> &Names {
        &self.names
    }

    /// Returns whether the tree has its root. Without it no frame is drawn.
    pub fn has_root(&self) -> bool {
        self.root.is_some()
    }

    /// Adds an item, which the script names by a word if it has one.
    pub fn add(
        &mut self,
        alloc: Global,
        word: Option<Text>,
        parent: Handle,
        name: Text,
    ) -> Result<(), Unserved<'static>> {
        let word = match word {
            Some(word) => Some(self.free_word(word)?),
            None => None,
        };
        let handle = if parent == 0 {
            self.add_to_root(alloc, name)?
        } else {
            self.add_to_item(alloc, parent, name)?
        };
        match word {
            Some(word) => self.set_word(alloc, word, handle),
            None => Ok(()),
        }
    }

    /// Returns a word that may be given to an item: no other one has it, or it is taken from that.
    fn free_word(&self, word: Text) -> Result<String, Unserved<'static>> {
        if !self.replaces_words && self.names.get(word.as_str()).is_some() {
            return Err(Unserved::Fault(LineFault::WordInUse(word)));
        }
        Ok(word.into_string()?)
    }

    /// Adds an item below the root, and returns its handle.
    fn add_to_root(&mut self, alloc: Global, name: Text) -> Result<Handle, Unserved<'static>> {
        let Some(root) = &self.root else {
            return Err(Unserved::Fault(LineFault::NoRoot));
        };
        let item = RecordedItem::below_root(alloc, root, name, &mut self.recording)?;
        Ok(self.insert(item, 1)?)
    }

    /// Adds an item below another one, and returns its handle.
    fn add_to_item(
        &mut self,
        alloc: Global,
        parent: Handle,
        name: Text,
    ) -> Result<Handle, Unserved<'static>> {
        let Some(entry) = self.items.get_mut(&parent) else {
            return Err(Unserved::Fault(LineFault::NoItem(parent)));
        };
        if entry.level >= LAST_LEVEL {
            let named = match &entry.word {
                Some(word) => format!(in alloc; "@{word}")?,
                None => format!(in alloc; "{parent}")?,
            };
            return Err(Unserved::Fault(LineFault::TooDeep(named)));
        }
        let level = entry.level.saturating_add(1);
        let item = entry.item.add_child(alloc, name, &mut self.recording)?;
        entry.has_children = true;
        Ok(self.insert(item, level)?)
    }

    /// Keeps a new item of a level, and returns its handle.
    fn insert(&mut self, item: RecordedItem<R>, level: u8) -> Result<Handle, AllocError> {
        let handle = self.made.saturating_add(1);
        let entry = Entry {
            item,
            level,
            word: None,
            has_children: false,
        };
        self.items.insert(handle, entry)?;
        self.made = handle;
        Ok(handle)
    }

    /// Names an item by a word. The item that had the word is dropped.
    fn set_word(
        &mut self,
        alloc: Global,
        word: String,
        handle: Handle,
    ) -> Result<(), Unserved<'static>> {
        let copy = String::from_str(alloc, word.as_str())?;
        if let Some(before) = self.names.insert(copy, handle)? {
            self.remove(before)?;
        }
        if let Some(entry) = self.items.get_mut(&handle) {
            entry.word = Some(word);
        }
        Ok(())
    }

    /// Drops an item, and its word.
    pub fn drop_item(&mut self, handle: Handle) -> Result<(), Unserved<'static>> {
        if let Some(word) = self.remove(handle)? {
            self.names.remove(word.as_str());
        }
        Ok(())
    }

    /// Drops an item, and returns its word.
    fn remove(&mut self, handle: Handle) -> Result<Option<String>, Unserved<'static>> {
        let Some(Entry { item, word, .. }) = self.items.remove(&handle) else {
            return Err(Unserved::Fault(LineFault::NoItem(handle)));
        };
        if self.keeps_dropped {
            self.dropped = row_of(self.alloc, &item.item)?;
        }
        item.remove(&mut self.recording)?;
        Ok(word)
    }

    /// Drops the root.
    pub fn drop_root(&mut self) -> Result<(), Unserved<'static>> {
        if self.root.take().is_none() {
            return Err(Unserved::Fault(LineFault::NoRoot));
        }
        self.recording.append_event(&Event::DropRoot)?;
        Ok(())
    }

    /// Changes the step of an item, if a line asks for that and the item is there. Returns its
    /// handle then.
    ///
    /// # Errors
    ///
    /// `AllocError`, if there is no memory for the recording.
    pub fn change_step(&mut self, line: &str) -> Result<Option<Handle>, AllocError> {
        let Some((item, step)) = parse_step(&self.names, line) else {
            return Ok(None);
        };
        match self.items.get(&item) {
            Some(entry) => entry.item.change_step(step, &mut self.recording)?,
            None => return Ok(None),
        }
        Ok(Some(item))
    }

    /// Changes an item, or sends its message.
    pub fn change(
        &mut self,
        alloc: Global,
        handle: Handle,
        change: Change,
    ) -> Result<(), Unserved<'static>> {
        let Some(entry) = self.items.get(&handle) else {
            return Err(Unserved::Fault(LineFault::NoItem(handle)));
        };
        let changed = entry
            .item
            .change(alloc, change, self.signs, &mut self.recording);
        unless_refused(changed)
    }

    /// Sends a failure that belongs to no item.
    pub fn send_failure(&mut self, alloc: Global, at: Moment, text: String) -> Result<(), Refusal> {
        self.send(alloc, "input", at, MessageLevel::Failure, Text::new(text))
    }

    /// Sends a message that belongs to no item, with this origin. Without the root none is sent.
    ///
    /// # Errors
    ///
    /// `Memory`, if there is no memory for it, and `TooManyMessages`, if the tree keeps no more.
    pub fn send(
        &mut self,
        alloc: Global,
        origin: &str,
        at: Moment,
        level: MessageLevel,
        text: Text,
    ) -> Result<(), Refusal> {
        let Some(root) = &self.root else {
            return Ok(());
        };
        let name = Text::from_str(alloc, origin)?;
        let item = RecordedItem::below_root(alloc, root, name, &mut self.recording)?;
        let message = Change::Message { at, level, text };
        item.change(alloc, message, self.signs, &mut self.recording)?;
        item.remove(&mut self.recording)?;
        Ok(())
    }

    /// Prints a line that belongs to no item: a message without an origin. Without the root nothing
    /// is printed.
    pub fn print(
        &mut self,
        alloc: Global,
        at: Moment,
        text: Text,
    ) -> Result<(), Unserved<'static>> {
        let Some(root) = &self.root else {
            return Ok(());
        };
        let printer = match self.printer.take() {
            Some(printer) => printer,
            None => without_row(alloc, root, &mut self.recording)?,
        };
        let level = MessageLevel::Info;
        let message = Change::Message { at, level, text };
        let sent = printer.change(alloc, message, self.signs, &mut self.recording);
        self.printer = Some(printer);
        unless_refused(sent)
    }
}

/// Returns the row of an item, or `None` if its task is gone.
fn row_of<R: Wait + Clone + Drop>(alloc: Global, item: &Item<R>) -> Result<Option<Row>, Refusal> {
    let Some(name) = item.name(alloc)? else {
        return Ok(None);
    };
    let (done_at, unit) = (item.max(), item.unit());
    let value = Value {
        step: item.step().unwrap_or(0),
        done_at,
        unit,
        state: State::Running,
    };
    let has_progress = done_at.is_some() || unit.is_some();
    Ok(Some(Row {
        key: item.key(),
        name: Text::new(name),
        id: UNKNOWN,
        progress: if has_progress { Some(value) } else { None },
    }))
}

/// Returns whether an item has reached its bound.
fn has_finished<R: Wait + Clone + Drop>(item: &Item<R>) -> bool {
    match (item.max(), item.step()) {
        (Some(bound), Some(step)) => bound <= step,
        _ => false,
    }
}

/// Adds an item that has no row, so that its messages have no origin. Below the last level an item
/// takes the place of the one above it, and when it is dropped, that one has none.
fn without_row<R: Wait + Clone + Drop, W: Write + Drop>(
    alloc: Global,
    root: &Root<R>,
    recording: &mut Recording<W>,
) -> Result<RecordedItem<R>, Refusal> {
    let mut item = RecordedItem::below_root(alloc, root, unnamed(alloc), recording)?;
    for _ in 1..LAST_LEVEL {
        let child = item.add_child(alloc, unnamed(alloc), recording)?;
        item.remove(recording)?;
        item = child;
    }
    let child = item.add_child(alloc, unnamed(alloc), recording)?;
    child.remove(recording)?;
    Ok(item)
}

/// Returns an empty name.
fn unnamed(alloc: Global) -> Text {
    Text::new(String::new(alloc))
}

/// Returns why a change of an item had no effect. A message that the tree has no number for is left
/// out.
fn unless_refused(changed: Result<(), Refusal>) -> Result<(), Unserved<'static>> {
    match changed {
        Ok(()) | Err(Refusal::TooManyMessages) => Ok(()),
        Err(refusal) => Err(Unserved::from(refusal)),
    }
}
