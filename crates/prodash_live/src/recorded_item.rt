//! Items whose changes are recorded.
use crate::recording::Recording;
use crate::signs::Signs;
use prodash::tree::{Event, Handle, Item, Root};
use prodash::{Refusal, Text};
use prodash_script::{Change, REASON, StepChange};
use std::alloc::{AllocError, Global};
use std::io::Write;
use std::sync::Wait;

/// An item, and its handle in the recording.
#[derive(Drop)]
pub struct RecordedItem<R: Wait + Clone + Drop> {
    /// The item.
    pub item: Item<R>,
    /// The handle that a replay of the recording has for it.
    pub handle: Handle,
}

impl<R: Wait + Clone + Drop> RecordedItem<R> {
    /// Adds an item below the root, and records it.
    ///
    /// # Errors
    ///
    /// `Memory`, if there is no memory for it.
    pub fn below_root<W: Write + Drop>(
        alloc: Global,
        root: &Root<R>,
        name: Text,
        recording: &mut Recording<W>,
    ) -> Result<RecordedItem<R>, Refusal> {
        let item = root.add_child(alloc, name.as_str())?;
        let handle = recording.append_item(0, name)?;
        Ok(RecordedItem { item, handle })
    }

    /// Adds an item below this one, and records it.
    ///
    /// # Errors
    ///
    /// `Memory`, if there is no memory for it.
    pub fn add_child<W: Write + Drop>(
        &mut self,
        alloc: Global,
        name: Text,
        recording: &mut Recording<W>,
    ) -> Result<RecordedItem<R>, Refusal> {
        let item = self.item.add_child(alloc, name.as_str())?;
        let handle = recording.append_item(self.handle, name)?;
        Ok(RecordedItem { item, handle })
    }

    /// Drops the item, and records it.
    ///
    /// # Errors
    ///
    /// `AllocError`, if there is no memory for its line.
    pub fn remove<W: Write + Drop>(self, recording: &mut Recording<W>) -> Result<(), AllocError> {
        let RecordedItem { item, handle } = self;
        drop(item);
        recording.append_event(&Event::Drop { item: handle })
    }

    /// Changes the step of the item, and records it.
    ///
    /// # Errors
    ///
    /// `AllocError`, if there is no memory for its line.
    pub fn change_step<W: Write + Drop>(
        &self,
        step: StepChange,
        recording: &mut Recording<W>,
    ) -> Result<(), AllocError> {
        self.apply_step(step);
        recording.append_change(self.handle, step)
    }

    /// Changes the step of the item.
    fn apply_step(&self, step: StepChange) {
        match step {
            StepChange::Set(step) => self.item.set(step),
            StepChange::IncBy(step) => self.item.inc_by(step),
        }
    }

    /// Makes a change of the item, and records it. If the severity of a message has a sign, its
    /// origin has that before it: the item has both for a name while the message is sent.
    ///
    /// # Errors
    ///
    /// `Memory`, if there is no memory for it, and `TooManyMessages`, if the tree keeps no more.
    pub fn change<W: Write + Drop>(
        &self,
        alloc: Global,
        change: Change,
        signs: Signs,
        recording: &mut Recording<W>,
    ) -> Result<(), Refusal> {
        let sign = match &change {
            Change::Message { level, .. } => signs.of(*level),
            _ => None,
        };
        match sign {
            Some(sign) => self.send_signed(alloc, sign, change, recording),
            None => self.apply(alloc, change, recording),
        }
    }

    /// Sends a message whose origin has a sign before it.
    fn send_signed<W: Write + Drop>(
        &self,
        alloc: Global,
        sign: &str,
        message: Change,
        recording: &mut Recording<W>,
    ) -> Result<(), Refusal> {
        let Some(name) = self.item.name(alloc)? else {
            return Err(Refusal::Gone);
        };
        let origin = format!(in alloc; "{sign} {name}")?;
        self.apply(alloc, Change::SetName(Text::new(origin)), recording)?;
        let sent = self.apply(alloc, message, recording);
        self.apply(alloc, Change::SetName(Text::new(name)), recording)?;
        sent
    }

    /// Makes a change of the item, and records it.
    fn apply<W: Write + Drop>(
        &self,
        alloc: Global,
        change: Change,
        recording: &mut Recording<W>,
    ) -> Result<(), Refusal> {
        let item = &self.item;
        match &change {
            Change::Init { max, unit } => item.init(*max, *unit),
            Change::SetName(name) => item.set_name(alloc, name.as_str())?,
            Change::SetMax(max) => {
                item.set_max(*max);
            }
            Change::Set(step) => self.apply_step(StepChange::Set(*step)),
            Change::IncBy(step) => self.apply_step(StepChange::IncBy(*step)),
            Change::Blocked => item.blocked(REASON, None),
            Change::Halted => item.halted(REASON, None),
            Change::Running => item.running(),
            Change::Message { at, level, text } => {
                item.message(alloc, *at, *level, text.as_str())?
            }
        }
        recording.append_change(self.handle, change)?;
        Ok(())
    }
}
