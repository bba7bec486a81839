//! The traits of roots for views of recorded trees.
ghost use Rattle.std.specs.Prelude.{◌≡◌, is_some};
ghost use Rattle.prodash.specs.Views.{InOneTurn, Reads, HasLook, ShowsTasks, FindsView, LooksRows, LooksMessages, LooksNews};

use crate::messages::{Message, MessageCopyState, Messages};
use crate::progress::{Row, Rows, Step};
use crate::tree::recorded::ledgers::TreeLedger;
use crate::tree::recorded::turns::TakesViewTurns;
use crate::tree::recorded::view::{RecordedView, WeakView};
use prodash_base::Refusal;
use prodash_core::traits::{Root, WeakRoot};
use std::alloc::Global;
use std::sync::ledger::Ledger;

impl<R: TakesViewTurns, C: TreeLedger, S: Ledger> Root for RecordedView<R, C, S> {
    type WeakRoot = WeakView<R, C, S>;

    ghost looks = { λ view previous rows messages sent. Reads R.found R.left
        (HasLook C.message_buffer_capacity previous (rows, messages, sent)) };

    ghost has_rows = { λ view rows.
        Reads R.found R.left (LooksRows C.message_buffer_capacity rows) };

    ghost has_messages = { λ view messages.
        Reads R.found R.left (LooksMessages C.message_buffer_capacity messages) };

    ghost has_news = { λ view previous messages sent.
        Reads R.found R.left (LooksNews C.message_buffer_capacity previous messages sent) };

    ghost has_tasks = { λ view tasks. Reads R.found R.left (ShowsTasks tasks) };

    ghost keeps_at_most = { λ view capacity. capacity ≡ C.message_buffer_capacity };

    fn messages_capacity(&self) -> usize {
        RecordedView::messages_capacity(self)
    }

    fn num_tasks(&self) -> usize {
        RecordedView::num_tasks(self)
    }

    fn sorted_snapshot(&self, _alloc: Global, out: &mut Vec<Row>) -> Result<(), Refusal> {
        RecordedView::sorted_snapshot(self, out)
    }

    fn copy_messages(&self, _alloc: Global, out: &mut Vec<Message>) -> Result<(), Refusal> {
        RecordedView::copy_messages(self, out)
    }

    fn copy_new_messages(
        &self,
        _alloc: Global,
        out: &mut Vec<Message>,
        previous: Option<MessageCopyState>,
    ) -> Result<MessageCopyState, Refusal> {
        RecordedView::copy_new_messages(self, out, previous)
    }

    fn look(
        &self,
        _alloc: Global,
        spare: (Rows, Messages),
        previous: Option<MessageCopyState>,
    ) -> Result<(Rows, Messages, MessageCopyState), Refusal> {
        RecordedView::look(self, spare, previous)
    }

    fn look_at_steps(
        &self,
        _rows: &Rows,
        _spare: (Vec<Step>, Messages),
        _previous: Option<MessageCopyState>,
    ) -> Result<Option<(Vec<Step>, Messages, MessageCopyState)>, Refusal> {
        Ok(None)
    }

    fn snapshot_and_new_messages(
        &self,
        _alloc: Global,
        rows: &mut Vec<Row>,
        messages: &mut Vec<Message>,
        previous: Option<MessageCopyState>,
    ) -> Result<MessageCopyState, Refusal> {
        RecordedView::snapshot_and_new_messages(self, rows, messages, previous)
    }

    fn downgrade(&self) -> Result<WeakView<R, C, S>, Refusal> {
        RecordedView::downgrade(self)
    }
}

impl<R: TakesViewTurns, C: TreeLedger, S: Ledger> WeakRoot for WeakView<R, C, S> {
    type Root = RecordedView<R, C, S>;

    ghost finds = { λ handle view. InOneTurn R.found R.left (FindsView (is_some view)) };

    fn upgrade(&self) -> Result<Option<RecordedView<R, C, S>>, Refusal> {
        WeakView::upgrade(self)
    }
}
