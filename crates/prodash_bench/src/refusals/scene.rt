//! A made-up tree: it has a row, which changes from turn to turn, and a message of each turn.
ghost use Rattle.std.specs.Prelude.{IsOkUnless};

use prodash::messages::{Message, MessageCopyState, MessageLevel, Messages};
use prodash::progress::{Key, Row, Rows, State, UNKNOWN, Value};
use prodash::unit::display::Mode;
use prodash::unit::label_and_mode;
use prodash::{Refusal, Root, Text, WeakRoot};
use std::alloc::Global;
use std::sync::Arc;
use std::sync::atomic::{AtomicU64, Ordering};

/// The tree at a turn.
#[derive(Drop)]
pub(crate) struct Scene {
    turn: u64,
}

impl Scene {
    /// Returns the row of a task, whose name gets longer.
    fn row(&self, alloc: Global) -> Result<Row, Refusal>
        ensures { IsOkUnless result Refusal.Memory }
    {
        let name = if self.turn < 3 {
            "a task that compresses all of the files"
        } else {
            "another task, which compresses all of the other files"
        };
        Ok(Row {
            key: Key::default().add_child(0),
            name: Text::from_str(alloc, name)?,
            id: UNKNOWN,
            progress: Some(Value {
                step: self.turn,
                done_at: Some(40),
                unit: Some(label_and_mode("items", Mode::with_throughput())),
                state: State::Running,
            }),
        })
    }

    /// Returns the message of the turn, unless it was copied before.
    fn messages(
        &self,
        alloc: Global,
        previous: Option<MessageCopyState>,
    ) -> Result<Vec<Message>, Refusal>
        ensures { IsOkUnless result Refusal.Memory }
    {
        let mut messages = Vec::new(alloc);
        if previous.is_none_or(|it| it.pushed() <= self.turn) {
            messages.push(Message {
                time: 0,
                level: MessageLevel::Info,
                origin: Text::from_str(alloc, "a task that compresses all of the files")?,
                message: Text::from_str(alloc, "is on its way to the last of all the files")?,
            })?;
        }
        Ok(messages)
    }
}

impl Root for Scene {
    type WeakRoot = WeakScene;

    fn messages_capacity(&self) -> usize {
        1
    }

    fn num_tasks(&self) -> usize {
        1
    }

    fn sorted_snapshot(&self, alloc: Global, out: &mut Vec<Row>) -> Result<(), Refusal> {
        let mut rows = Vec::new(alloc);
        rows.push(self.row(alloc)?)?;
        *out = rows;
        Ok(())
    }

    fn copy_messages(&self, alloc: Global, out: &mut Vec<Message>) -> Result<(), Refusal> {
        *out = self.messages(alloc, None)?;
        Ok(())
    }

    fn copy_new_messages(
        &self,
        alloc: Global,
        out: &mut Vec<Message>,
        previous: Option<MessageCopyState>,
    ) -> Result<MessageCopyState, Refusal> {
        *out = self.messages(alloc, previous)?;
        Ok(MessageCopyState::new(self.turn.wrapping_add(1)))
    }

    fn look(
        &self,
        alloc: Global,
        _spare: (Rows, Messages),
        previous: Option<MessageCopyState>,
    ) -> Result<(Rows, Messages, MessageCopyState), Refusal> {
        let mut rows = Vec::new(alloc);
        rows.push(self.row(alloc)?)?;
        let messages = Messages::new(self.messages(alloc, previous)?);
        let state = MessageCopyState::new(self.turn.wrapping_add(1));
        Ok((Rows::new(rows), messages, state))
    }

    fn downgrade(&self) -> Result<WeakScene, Refusal> {
        Err(Refusal::Memory)
    }
}

/// What finds the tree at its present turn.
#[derive(Drop)]
pub(crate) struct WeakScene {
    turn: Arc<AtomicU64>,
}

impl WeakScene {
    /// Returns what finds the tree at this turn.
    pub(crate) fn new(turn: Arc<AtomicU64>) -> WeakScene {
        WeakScene { turn }
    }
}

impl WeakRoot for WeakScene {
    type Root = Scene;

    fn upgrade(&self) -> Result<Option<Scene>, Refusal> {
        let turn = self.turn.load(Ordering::SeqCst);
        Ok(Some(Scene { turn }))
    }
}
