//! The traits of progress and of roots for the locked tree. A call means what it finds or changes
//! in one turn at the lock of the tree.
ghost use Rattle.std.specs.Prelude.{◌≡◌, is_some};
ghost use Rattle.prodash.specs.Items.{new_place, next_path, with_child};
ghost use Rattle.prodash.specs.Turns.{Finds, Changes, HasTasks, KeepsAtMost, HasRows, HasMessages, HasNews, HasRowsAndNews, HasName, HasId, HasBound, HasUnit, Begins, SetsName, SetsBound, Sends, AddsBelow, Upgrades};

use crate::messages::{Message, MessageCopyState, MessageLevel, Messages};
use crate::progress::{Id, Row, Rows, Step, StepShared};
use crate::time::Moment;
use crate::tree::item::Item;
use crate::tree::root::{Root, WeakHandle};
use crate::tree::turns::TakesTurns;
use crate::unit::{Unit, throughput_message};
use prodash_base::Refusal;
use prodash_core::traits;
use prodash_core::traits::{Count, NestedProgress, Progress};
use std::alloc::Global;

impl<R: TakesTurns> Count for Item<R> {
    fn set(&self, step: Step) {
        self.steps().set(step)
    }

    fn step(&self) -> Step {
        self.steps().step()
    }

    fn inc_by(&self, step: Step) {
        self.steps().inc_by(step)
    }

    fn inc(&self) {
        self.steps().inc()
    }

    fn counter(&self, _alloc: Global) -> Result<StepShared, Refusal> {
        self.steps().counter()
    }
}

impl<R: TakesTurns + Send + Sync> Progress for Item<R> {
    ghost begins = { λ item max unit after.
        (after ≡ item) × Changes R.found R.left (Begins item.path max unit) };

    ghost has_unit = { λ item unit. Finds R.found (HasUnit item.path unit) };

    ghost has_bound = { λ item max. Finds R.found (HasBound item.path max) };

    ghost gets_bound = { λ item max before after.
        (after ≡ item) × Changes R.found R.left (SetsBound item.path max before) };

    ghost gets_name = { λ item name after.
        (after ≡ item) × Changes R.found R.left (SetsName item.path name) };

    ghost has_name = { λ item name. Finds R.found (HasName item.path name) };

    ghost has_id = { λ item id. Finds R.found (HasId item.path id) };

    ghost was_sent = { λ item at level text.
        Changes R.found R.left (Sends item.path at level text) };

    fn id(&self) -> Id {
        Item::id(self)
    }

    fn name(&self, alloc: Global) -> Result<Option<String>, Refusal> {
        Item::name(self, alloc)
    }

    fn set_name(&mut self, alloc: Global, name: &str) -> Result<(), Refusal> {
        Item::set_name(self, alloc, name)
    }

    fn init(&mut self, max: Option<Step>, unit: Option<Unit>) {
        Item::init(self, max, unit)
    }

    fn max(&self) -> Option<Step> {
        Item::max(self)
    }

    fn set_max(&mut self, max: Option<Step>) -> Option<Step> {
        Item::set_max(self, max)
    }

    fn unit(&self) -> Option<Unit> {
        Item::unit(self)
    }

    fn message(
        &self,
        alloc: Global,
        at: Moment,
        level: MessageLevel,
        message: &str,
    ) -> Result<(), Refusal> {
        Item::message(self, alloc, at, level, message)
    }

    fn show_throughput_with(
        &self,
        alloc: Global,
        start: Moment,
        now: Moment,
        step: Step,
        unit: Option<Unit>,
        level: MessageLevel,
    ) -> Result<(), Refusal> {
        let text = throughput_message(alloc, start, now, step, unit.as_ref())?;
        Item::message(self, alloc, now, level, &text)
    }
}

impl<R: TakesTurns + Send + Sync> NestedProgress for Item<R> {
    type SubProgress = Item<R>;

    ghost gets_child = { λ item name id after child. (after ≡ with_child item)
        × (child ≡ new_place (next_path item))
        × Changes R.found R.left (AddsBelow item name id) };

    fn add_child(&mut self, alloc: Global, name: &str) -> Result<Item<R>, Refusal> {
        Item::add_child(self, alloc, name)
    }

    fn add_child_with_id(&mut self, alloc: Global, name: &str, id: Id) -> Result<Item<R>, Refusal> {
        Item::add_child_with_id(self, alloc, name, id)
    }
}

impl<R: TakesTurns> traits::Root for Root<R> {
    type WeakRoot = WeakHandle<R>;

    ghost looks = { λ root previous rows messages sent.
        Finds R.found (HasRowsAndNews previous rows messages sent) };

    ghost has_rows = { λ root rows. Finds R.found (HasRows rows) };

    ghost has_messages = { λ root messages. Finds R.found (HasMessages messages) };

    ghost has_news = { λ root previous messages sent.
        Finds R.found (HasNews previous messages sent) };

    ghost has_tasks = { λ root tasks. Finds R.found (HasTasks tasks) };

    ghost keeps_at_most = { λ root capacity. Finds R.found (KeepsAtMost capacity) };

    fn messages_capacity(&self) -> usize {
        Root::messages_capacity(self)
    }

    fn num_tasks(&self) -> usize {
        Root::num_tasks(self)
    }

    fn sorted_snapshot(&self, alloc: Global, out: &mut Vec<Row>) -> Result<(), Refusal> {
        Root::sorted_snapshot(self, alloc, out)
    }

    fn copy_messages(&self, alloc: Global, out: &mut Vec<Message>) -> Result<(), Refusal> {
        Root::copy_messages(self, alloc, out)
    }

    fn copy_new_messages(
        &self,
        alloc: Global,
        out: &mut Vec<Message>,
        previous: Option<MessageCopyState>,
    ) -> Result<MessageCopyState, Refusal> {
        Root::copy_new_messages(self, alloc, out, previous)
    }

    fn look(
        &self,
        _alloc: Global,
        spare: (Rows, Messages),
        previous: Option<MessageCopyState>,
    ) -> Result<(Rows, Messages, MessageCopyState), Refusal> {
        Root::look(self, spare, previous)
    }

    fn look_at_steps(
        &self,
        rows: &Rows,
        spare: (Vec<Step>, Messages),
        previous: Option<MessageCopyState>,
    ) -> Result<Option<(Vec<Step>, Messages, MessageCopyState)>, Refusal> {
        Root::look_at_steps(self, rows, spare, previous)
    }

    fn snapshot_and_new_messages(
        &self,
        alloc: Global,
        rows: &mut Vec<Row>,
        messages: &mut Vec<Message>,
        previous: Option<MessageCopyState>,
    ) -> Result<MessageCopyState, Refusal> {
        Root::snapshot_and_new_messages(self, alloc, rows, messages, previous)
    }

    fn downgrade(&self) -> Result<WeakHandle<R>, Refusal> {
        Root::downgrade(self)
    }
}

impl<R: TakesTurns> traits::WeakRoot for WeakHandle<R> {
    type Root = Root<R>;

    ghost finds = { λ handle root. Changes R.found R.left (Upgrades (is_some root)) };

    fn upgrade(&self) -> Result<Option<Root<R>>, Refusal> {
        WeakHandle::upgrade(self)
    }
}
