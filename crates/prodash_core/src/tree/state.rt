ghost use Rattle.std.specs.Prelude.{◌≡◌, IfOk, false, IsOkUnless};
ghost use Rattle.prodash_base.specs.Rings.{messages_since};
ghost use Rattle.prodash_base.specs.Rows.{phase_of};
ghost use Rattle.prodash_core.specs.Tables.{ListsEachOnce};
ghost use Rattle.prodash_core.specs.Trees.{Tree, new_tree, slot_at, item_at, tree_rows, snapshot_of, set_phase, is_frame, Returns, Applies};
ghost use Rattle.prodash_core.specs.plumbing.Handles.{or_gone, done_if_ok};
ghost use Rattle.prodash_core.specs.Refusals.{refusal_of};
ghost use Rattle.prodash_core.specs.plumbing.MessageRefusals.{IsRefusalOfMessage};

use crate::tree::event::{Event, Handle, Reply};
use crate::tree::handles::Handles;
use crate::tree::options::RootOptions;
use crate::tree::slot::Slot;
use crate::tree::table::{Counted, TreeCore};
use prodash_base::messages::{MessageCopyState, MessageLevel, MessageRingBuffer, Messages};
use prodash_base::progress::{Id, Rows, State, Step};
use prodash_base::time::Moment;
use prodash_base::unit::Unit;
use prodash_base::{Refusal, Text};
use std::alloc::Global;
use std::marker::Model;

/// The table of tasks, the handles and the messages of a session. Contracts see a `Tree`.
///
/// ```rust
/// let mut tree = TreeState::new(alloc, &RootOptions::default())?;
/// let name = Text::from_str(alloc, "task")?;
/// tree.apply(alloc, &Event::AddChild { parent: 0, name, id: UNKNOWN })?;
/// let rows = tree.rows(alloc)?;
/// ```
#[derive(Drop)]
pub struct TreeState {
    table: TreeCore<Handle>,
    handles: Handles,
    ring: MessageRingBuffer,
}

impl Model for TreeState {
    ghost use Rattle.prodash_core.specs.Trees.{Tree};
    ghost use Rattle.std.specs.Coded.{codes};
    ghost use Rattle.std.specs.FinMap as finite;

    ghost Value = { Tree };

    ghost coded = { Prim.hlevel (codes, finite.code) };

    ghost view = { λ s. record { table = s.table; slots = s.handles; ring = s.ring } };
}

impl TreeState {
    /// Returns a tree with nothing but its root.
    ///
    /// # Errors
    ///
    /// `Memory`, if there is no memory for it.
    pub fn new(alloc: Global, options: &RootOptions) -> Result<TreeState, Refusal>
        ensures ok { IfOk result (λ t. t ≡ new_tree options.now.message_buffer_capacity) }
        ensures reason { IsOkUnless result Refusal.Memory }
    {
        Ok(TreeState {
            table: TreeCore::new(alloc),
            handles: Handles::new(alloc)?,
            ring: MessageRingBuffer::with_capacity(alloc, options.message_buffer_capacity)?,
        })
    }

    /// Returns an equal tree with counters of its own.
    ///
    /// # Errors
    ///
    /// `Memory`, if there is no memory for it.
    pub fn deep_clone(&self, alloc: Global) -> Result<TreeState, Refusal>
        ensures ok { IfOk result (λ copy. copy ≡ self.now) }
        ensures reason { IsOkUnless result Refusal.Memory }
    {
        Ok(TreeState {
            table: self.table.clone()?,
            handles: self.handles.clone()?,
            ring: self.ring.deep_clone(alloc)?,
        })
    }

    /// Applies an event that is no frame, and returns the reply.
    ///
    /// # Errors
    ///
    /// `Gone`, if the handle isn't valid, if the event needs an item and the handle is the root's,
    /// or if the event needs the root and it was dropped. `TooManyMessages`, if no further message
    /// can be counted. `Memory`, if there is no memory for the event or its reply. An event that is
    /// refused leaves the tree as it was.
    pub fn apply(&mut self, alloc: Global, event: &Event) -> Result<Reply, Refusal>
        requires { is_frame event.now ≡ false }
        ensures { Applies self.old event.now result self.new }
    {
        match event {
            Event::AddChild { parent, name, id } => {
                self.add_child(alloc, *parent, name.as_str(), *id)
            }
            Event::Drop { item } => self.drop_item(*item),
            Event::Init { item, max, unit } => self.init(*item, *max, *unit),
            Event::SetName { item, name } => self.set_name(alloc, *item, name.as_str()),
            Event::SetMax { item, max } => self.set_max(*item, *max),
            Event::Set { item, step } => {
                self.set(*item, *step)?;
                Ok(Reply::Done)
            }
            Event::IncBy { item, step } => {
                self.inc_by(*item, *step)?;
                Ok(Reply::Done)
            }
            Event::Blocked { item, reason, eta } => {
                self.set_state(*item, State::Blocked(reason, *eta))
            }
            Event::Halted { item, reason, eta } => {
                self.set_state(*item, State::Halted(reason, *eta))
            }
            Event::Running { item } => self.set_state(*item, State::Running),
            Event::Message {
                item,
                at,
                level,
                text,
            } => self.message(alloc, *item, *at, *level, text.as_str()),
            Event::Name { item } => self.name(alloc, *item),
            Event::Id { item } => self.id(*item),
            Event::Step { item } => self.step(*item),
            Event::Max { item } => self.max(*item),
            Event::Unit { item } => self.unit(*item),
            Event::NumTasks => self.num_tasks(),
            Event::Snapshot => self.snapshot(alloc),
            Event::CopyMessages => self.copy_messages(alloc),
            Event::CopyNew { previous } => self.copy_new(alloc, *previous),
            Event::DropRoot => self.drop_root(),
            Event::Tick { .. } | Event::Resize { .. } | Event::Quit { .. } => unreachable!(),
        }
    }

    /// Applies a `Set`, whose reply is `Done`, as `apply` does.
    pub(crate) fn set(&mut self, item: Handle, step: Step) -> Result<(), Refusal>
        ensures { Applies self.old (Event.Set item step) (done_if_ok result) self.new }
    {
        if item == 0 || !self.handles.set_counter(item, step) {
            return Err(Refusal::Gone);
        }
        Ok(())
    }

    /// Applies an `IncBy`, whose reply is `Done`, as `apply` does.
    pub(crate) fn inc_by(&mut self, item: Handle, step: Step) -> Result<(), Refusal>
        ensures { Applies self.old (Event.IncBy item step) (done_if_ok result) self.new }
    {
        if item == 0 || !self.handles.add_steps(item, step) {
            return Err(Refusal::Gone);
        }
        Ok(())
    }

    /// Returns the refusal of an event that is no frame, if `apply` refuses it however much memory
    /// there is. Allocates nothing.
    pub fn refusal(&self, event: &Event) -> Option<Refusal>
        requires { is_frame event.now ≡ false }
        ensures { result ≡ refusal_of self.now event.now }
    {
        match event {
            Event::AddChild { parent, .. } => self.slot(*parent).err(),
            Event::Message { item, .. } => self.refusal_of_message(*item),
            Event::Drop { item }
            | Event::Init { item, .. }
            | Event::SetName { item, .. }
            | Event::SetMax { item, .. }
            | Event::Set { item, .. } => self.item(*item).err(),
            Event::IncBy { item, .. }
            | Event::Blocked { item, .. }
            | Event::Halted { item, .. }
            | Event::Running { item } => self.item(*item).err(),
            Event::Name { item }
            | Event::Id { item }
            | Event::Step { item }
            | Event::Max { item }
            | Event::Unit { item } => self.item(*item).err(),
            Event::NumTasks
            | Event::Snapshot
            | Event::CopyMessages
            | Event::CopyNew { .. }
            | Event::DropRoot => self.root().err(),
            Event::Tick { .. } | Event::Resize { .. } | Event::Quit { .. } => unreachable!(),
        }
    }

    /// Returns the rows, in ascending order of their keys.
    ///
    /// # Errors
    ///
    /// `Memory`, if there is no memory for the rows.
    pub fn rows(&self, alloc: Global) -> Result<Rows, Refusal>
        ensures ok { IfOk result (λ rows. rows ≡ tree_rows self.now) }
        ensures each { IfOk result (λ rows. ListsEachOnce self.now.table rows) }
        ensures reason { IsOkUnless result Refusal.Memory }
    {
        self.rows_reusing(Rows::new(Vec::new(alloc)))
    }

    /// Returns the rows as `rows` does, in the memory of `spare`, whose contents don't matter.
    fn rows_reusing(&self, spare: Rows) -> Result<Rows, Refusal>
        ensures ok { IfOk result (λ rows. rows ≡ tree_rows self.now) }
        ensures each { IfOk result (λ rows. ListsEachOnce self.now.table rows) }
        ensures reason { IsOkUnless result Refusal.Memory }
    {
        self.table.rows_reusing(&self.handles, spare)
    }

    /// Returns what a frame sees: the rows, the messages that are new since an earlier frame, and
    /// the state for the next one. Returns `None` if the root was dropped.
    ///
    /// # Errors
    ///
    /// `Memory`, if there is no memory for the copies.
    pub fn snapshot_and_new_messages(
        &self,
        alloc: Global,
        previous: Option<MessageCopyState>,
    ) -> Result<Option<(Rows, Messages, MessageCopyState)>, Refusal>
        ensures ok { IfOk result (λ seen. seen ≡ snapshot_of self.now previous) }
        ensures reason { IsOkUnless result Refusal.Memory }
    {
        let spare = (Rows::new(Vec::new(alloc)), Messages::new(Vec::new(alloc)));
        self.look(spare, previous)
    }

    /// Returns what `snapshot_and_new_messages` returns, with the rows and the messages in the
    /// memory of `spare`, whose contents don't matter. A name is copied only if it differs from the
    /// one that `spare` has in its place.
    ///
    /// # Errors
    ///
    /// `Memory`, if there is no memory for the copies.
    pub fn look(
        &self,
        spare: (Rows, Messages),
        previous: Option<MessageCopyState>,
    ) -> Result<Option<(Rows, Messages, MessageCopyState)>, Refusal>
        ensures ok { IfOk result (λ seen. seen ≡ snapshot_of self.now previous) }
        ensures reason { IsOkUnless result Refusal.Memory }
    {
        if self.root().is_err() {
            return Ok(None);
        }
        let (spare_rows, spare_messages) = spare;
        let rows = self.rows_reusing(spare_rows)?;
        let (messages, state) = self.ring.new_messages(spare_messages, previous)?;
        Ok(Some((rows, messages, state)))
    }

    /// Returns the slot of a handle that is valid.
    fn slot(&self, handle: Handle) -> Result<Slot, Refusal>
        ensures { result ≡ or_gone (slot_at self.now handle) }
    {
        self.handles.valid(handle).ok_or(Refusal::Gone)
    }

    /// Returns the root's slot.
    fn root(&self) -> Result<Slot, Refusal>
        ensures { result ≡ or_gone (slot_at self.now 0) }
    {
        self.slot(0)
    }

    /// Returns the slot of an item whose handle is valid.
    fn item(&self, item: Handle) -> Result<Slot, Refusal>
        ensures { result ≡ or_gone (item_at self.now item) }
    {
        if item == 0 {
            Err(Refusal::Gone)
        } else {
            self.slot(item)
        }
    }

    /// Returns the refusal of a message of an item, if it is refused however much memory there is.
    fn refusal_of_message(&self, item: Handle) -> Option<Refusal>
        ensures { IsRefusalOfMessage self.now item result }
    {
        match self.item(item) {
            Err(refusal) => Some(refusal),
            Ok(_) => {
                if self.ring.pushed() == u64::MAX {
                    Some(Refusal::TooManyMessages)
                } else {
                    None
                }
            }
        }
    }

    fn add_child(
        &mut self,
        alloc: Global,
        parent: Handle,
        name: &str,
        id: Id,
    ) -> Result<Reply, Refusal>
        ensures { Applies self.old (Event.AddChild parent name.now id) result self.new }
    {
        let slot = self.slot(parent)?;
        let key = slot.key.add_child(slot.next_child);
        let made = self.handles.len();
        self.handles.push(Slot::new(key))?;
        if let Err(refusal) = self.table.insert(alloc, key, name, id) {
            self.handles.pop();
            return Err(refusal);
        }
        self.handles.put(parent, slot.with_child());
        Ok(Reply::Made(made))
    }

    fn drop_item(&mut self, item: Handle) -> Result<Reply, Refusal>
        ensures { Applies self.old (Event.Drop item) result self.new }
    {
        let slot = self.item(item)?;
        self.table.remove(slot.key);
        self.handles.put(item, slot.invalidated());
        Ok(Reply::Done)
    }

    fn init(
        &mut self,
        item: Handle,
        max: Option<Step>,
        unit: Option<Unit>,
    ) -> Result<Reply, Refusal>
        ensures { Applies self.old (Event.Init item max unit) result self.new }
    {
        let slot = self.item(item)?;
        if self.table.init(slot.key, Counted::begin(item, max, unit)) {
            self.handles.put(item, slot.with_counter(0));
        }
        Ok(Reply::Done)
    }

    fn set_name(&mut self, alloc: Global, item: Handle, name: &str) -> Result<Reply, Refusal>
        ensures { Applies self.old (Event.SetName item name.now) result self.new }
    {
        let slot = self.item(item)?;
        self.table.set_name(alloc, slot.key, name)?;
        Ok(Reply::Done)
    }

    fn set_max(&mut self, item: Handle, max: Option<Step>) -> Result<Reply, Refusal>
        ensures { Applies self.old (Event.SetMax item max) result self.new }
    {
        let slot = self.item(item)?;
        Ok(Reply::Bound(self.table.set_max(slot.key, max)))
    }

    fn set_state(&mut self, item: Handle, state: State) -> Result<Reply, Refusal>
        ensures { Returns self.old false (set_phase self.old item (phase_of state))
            result self.new }
    {
        let slot = self.item(item)?;
        self.table.set_state(slot.key, state);
        Ok(Reply::Done)
    }

    fn message(
        &mut self,
        alloc: Global,
        item: Handle,
        at: Moment,
        level: MessageLevel,
        text: &str,
    ) -> Result<Reply, Refusal>
        ensures { Applies self.old (Event.Message item at level text.now) result self.new }
    {
        let slot = self.item(item)?;
        let origin = self.table.name(slot.key).unwrap_or("");
        self.ring.push_overwrite(alloc, at, level, origin, text)?;
        Ok(Reply::Done)
    }

    fn name(&self, alloc: Global, item: Handle) -> Result<Reply, Refusal>
        ensures { Applies self.now (Event.Name item) result self.now }
    {
        let slot = self.item(item)?;
        Ok(Reply::Name(match self.table.name(slot.key) {
            None => None,
            Some(name) => Some(Text::from_str(alloc, name)?),
        }))
    }

    fn id(&self, item: Handle) -> Result<Reply, Refusal>
        ensures { Applies self.now (Event.Id item) result self.now }
    {
        let slot = self.item(item)?;
        Ok(Reply::Id(self.table.id(slot.key)))
    }

    fn step(&self, item: Handle) -> Result<Reply, Refusal>
        ensures { Applies self.now (Event.Step item) result self.now }
    {
        let slot = self.item(item)?;
        Ok(Reply::Step(slot.counter))
    }

    fn max(&self, item: Handle) -> Result<Reply, Refusal>
        ensures { Applies self.now (Event.Max item) result self.now }
    {
        let slot = self.item(item)?;
        Ok(Reply::Bound(self.table.max(slot.key)))
    }

    fn unit(&self, item: Handle) -> Result<Reply, Refusal>
        ensures { Applies self.now (Event.Unit item) result self.now }
    {
        let slot = self.item(item)?;
        Ok(Reply::Unit(self.table.unit(slot.key)))
    }

    fn num_tasks(&self) -> Result<Reply, Refusal>
        ensures { Applies self.now Event.NumTasks result self.now }
    {
        self.root()?;
        Ok(Reply::Count(self.table.len()))
    }

    fn snapshot(&self, alloc: Global) -> Result<Reply, Refusal>
        ensures { Applies self.now Event.Snapshot result self.now }
    {
        self.root()?;
        Ok(Reply::Rows(self.rows(alloc)?))
    }

    fn copy_messages(&self, alloc: Global) -> Result<Reply, Refusal>
        ensures { Applies self.now Event.CopyMessages result self.now }
    {
        self.root()?;
        let mut messages = Vec::new(alloc);
        self.ring.copy_all(alloc, &mut messages)?;
        Ok(Reply::Messages(Messages::new(messages)))
    }

    fn copy_new(&self, alloc: Global, previous: Option<MessageCopyState>) -> Result<Reply, Refusal>
        ensures { Applies self.now (Event.CopyNew previous) result self.now }
    {
        self.root()?;
        let spare = Messages::new(Vec::new(alloc));
        let (messages, state) = self.ring.new_messages(spare, previous)?;
        Ok(Reply::New(messages, state))
    }

    fn drop_root(&mut self) -> Result<Reply, Refusal>
        ensures { Applies self.old Event.DropRoot result self.new }
    {
        let slot = self.root()?;
        self.handles.put(0, slot.invalidated());
        Ok(Reply::Done)
    }
}
