ghost use Rattle.std.specs.Prelude.{◌≡◌, ◌+◌, ◌^◌, ◌<◌, ◌↔◌, min, IsTrue, Some, length, drop, OnOk, OnErr, IfOk, IfErr, IsOkUnless};
ghost use Rattle.prodash_base.specs.Refusals.{RefusesMessage};
ghost use Rattle.circular_buffer.specs.Buffer.{buffer};
ghost use Rattle.prodash_base.specs.Messages.{message_of};
ghost use Rattle.prodash_base.specs.Rings.{is_push_limit_reached, new_ring, push, messages_since, keep_last};

use crate::messages::{Message, MessageLevel, Messages};
use crate::refusal::Refusal;
use crate::text::Text;
use crate::time::Moment;
use circular_buffer::HeapCircularBuffer;
use std::alloc::{AllocError, Global};
use std::fmt;
use std::marker::Model;

/// The number of pushes that a copy has seen. The next copy takes it and returns later messages
/// only. Contracts see the number.
#[derive(Clone, Copy, Debug, PartialEq, Eq)]
pub struct MessageCopyState {
    seen: u64,
}

impl Model for MessageCopyState {
    ghost use Rattle.std.specs.Prelude.{ℕ};

    ghost Value = { ℕ };

    ghost view = { λ s. s.seen };

    ghost inverse = { λ n. record { seen = n } };
}

impl MessageCopyState {
    /// Returns the state of a copy that has seen `pushed` pushes.
    pub fn new(pushed: u64) -> MessageCopyState
        ensures { result ≡ pushed }
    {
        MessageCopyState { seen: pushed }
    }

    /// Returns the number of pushes that the copy has seen.
    pub fn pushed(&self) -> u64
        ensures { result ≡ self.now }
    {
        self.seen
    }
}

/// A ring of the latest messages, which also counts all pushes. Once it is full, a push replaces
/// the oldest message. Contracts see its capacity, its messages and the count.
///
/// ```rust
/// let mut ring = MessageRingBuffer::with_capacity(alloc, 20)?;
/// let mut messages = Vec::new(alloc);
/// ring.push_overwrite(alloc, 0, MessageLevel::Info, "task", "started")?;
/// let state = ring.copy_new(alloc, &mut messages, None)?;
/// ring.push_overwrite(alloc, 5, MessageLevel::Success, "task", "done")?;
/// ring.copy_new(alloc, &mut messages, Some(state))?;
/// assert_eq!(rt; messages.len(), 1);
/// assert_eq!(rt; messages[0].message.as_str(), "done");
/// ```
#[derive(Drop)]
pub struct MessageRingBuffer {
    ring: HeapCircularBuffer<Message>,
    pushed: u64,
    /// The message that was replaced last, whose memory the next one is copied into.
    replaced: Option<Message>,
}

impl Model for MessageRingBuffer {
    ghost use Rattle.std.specs.Prelude.{◌≡◌, min, length};
    ghost use Rattle.prodash_base.specs.Rings.{Ring};

    ghost Value = { Ring };

    ghost view = { λ b.
        record { capacity = b.ring.capacity; messages = b.ring.items; pushed = b.pushed } };

    ghost invariant = { λ b. length b.ring.items ≡ min b.ring.capacity b.pushed };
}

impl MessageRingBuffer {
    /// Returns an empty ring for at most `capacity` messages, or `Refusal::Memory` if out of
    /// memory.
    pub fn with_capacity(alloc: Global, capacity: usize) -> Result<MessageRingBuffer, Refusal>
        ensures ok { IfOk result (λ ring. ring ≡ new_ring capacity) }
        ensures reason { IsOkUnless result Refusal.Memory }
    {
        let ring = HeapCircularBuffer::with_capacity(alloc, capacity)?;
        Ok(MessageRingBuffer {
            ring,
            pushed: 0,
            replaced: None,
        })
    }

    /// Returns the greatest number of messages that the ring keeps.
    pub fn capacity(&self) -> usize
        ensures value { result ≡ self.now.capacity }
        ensures bound { result < 2 ^ 63 }
    {
        self.ring.capacity()
    }

    /// Returns the number of messages that were ever pushed, including those replaced since.
    pub fn pushed(&self) -> u64
        ensures value { result ≡ self.now.pushed }
        ensures kept { length self.now.messages ≡ min self.now.capacity result }
    {
        self.pushed
    }

    /// Adds a message, which replaces the oldest if the ring is full. Returns
    /// `Refusal::TooManyMessages` if 2^64 - 1 messages were pushed already, and else
    /// `Refusal::Memory` if out of memory. A refusal leaves the ring unchanged.
    #[inline(always)]
    pub fn push_overwrite(
        &mut self,
        alloc: Global,
        at: Moment,
        level: MessageLevel,
        origin: &str,
        message: &str,
    ) -> Result<(), Refusal>
        ensures ok { OnOk result
            (self.new ≡ push self.old (message_of at level origin.now message.now)) }
        ensures limit { (result ≡ Err Refusal.TooManyMessages)
            ↔ IsTrue (is_push_limit_reached self.old) }
        ensures reason { IfErr result RefusesMessage }
        ensures err { OnErr result (self.new ≡ self.old) }
    {
        if self.pushed == u64::MAX {
            return Err(Refusal::TooManyMessages);
        }
        fill(&mut self.replaced, alloc, at, level, origin, message)?;
        if let Some(message) = self.replaced.take() {
            self.replaced = self.ring.push_back(message);
        }
        self.pushed += 1;
        Ok(())
    }

    /// Replaces the contents of `out` with all messages of the ring, the oldest first. Returns
    /// `Refusal::Memory` if out of memory, and then leaves `out` unchanged.
    pub fn copy_all(&self, alloc: Global, out: &mut Vec<Message>) -> Result<(), Refusal>
        ensures ok { OnOk result (out.new.items ≡ self.now.messages) }
        ensures reason { IsOkUnless result Refusal.Memory }
        ensures err { OnErr result (out.new.items ≡ out.old.items) }
    {
        *out = copies(&self.ring, 0, Vec::new(alloc))?;
        Ok(())
    }

    /// Replaces the contents of `out` with the messages of the ring that were pushed since the
    /// copy that returned `previous`, the oldest first, or with all its messages if `previous` is
    /// `None`. Returns the state for the next copy. A state that has seen more pushes than there
    /// were leaves `out` empty. Returns `Refusal::Memory` if out of memory, and then leaves `out`
    /// unchanged.
    pub fn copy_new(
        &self,
        alloc: Global,
        out: &mut Vec<Message>,
        previous: Option<MessageCopyState>,
    ) -> Result<MessageCopyState, Refusal>
        ensures state { IfOk result (λ state. state ≡ self.now.pushed) }
        ensures ok { OnOk result (out.new.items ≡ messages_since self.now previous) }
        ensures reason { IsOkUnless result Refusal.Memory }
        ensures err { OnErr result (out.new.items ≡ out.old.items) }
    {
        let (new, state) = self.new_messages(Messages::new(Vec::new(alloc)), previous)?;
        *out = new.into_vec();
        Ok(state)
    }

    /// Returns the messages that `copy_new` copies, in the memory of `spare`, whose contents don't
    /// matter, and the state for the next copy. Returns `Refusal::Memory` if out of memory.
    pub fn new_messages(
        &self,
        spare: Messages,
        previous: Option<MessageCopyState>,
    ) -> Result<(Messages, MessageCopyState), Refusal>
        ensures messages { IfOk result (λ new. new.0 ≡ messages_since self.now previous) }
        ensures state { IfOk result (λ new. new.1 ≡ self.now.pushed) }
        ensures reason { IsOkUnless result Refusal.Memory }
    {
        let seen = previous.map_or(0, |state| state.seen);
        let new = self.pushed.saturating_sub(seen);
        let skipped = (self.ring.len() as u64).saturating_sub(new) as usize;
        let messages = copies(&self.ring, skipped, spare.into_vec())?;
        let state = MessageCopyState { seen: self.pushed };
        Ok((Messages::new(messages), state))
    }

    /// Returns a ring of the same capacity, with copies of the messages and the same count of
    /// pushes. Returns `Refusal::Memory` if out of memory.
    pub fn deep_clone(&self, alloc: Global) -> Result<MessageRingBuffer, Refusal>
        ensures ok { IfOk result (λ copy. copy ≡ self.now) }
        ensures reason { IsOkUnless result Refusal.Memory }
    {
        Ok(MessageRingBuffer {
            ring: copied(alloc, &self.ring)?,
            pushed: self.pushed,
            replaced: None,
        })
    }
}

impl fmt::Debug for MessageRingBuffer {
    /// Writes the messages and the count of pushes.
    fn fmt<W: fmt::Write>(&self, f: &mut fmt::Formatter<W>) -> fmt::Result {
        f.debug_struct("MessageRingBuffer")
            .field("ring", &self.ring)
            .field("pushed", &self.pushed)
            .finish()
    }
}

/// Makes the spare message the given one, in its memory if there is one. Fails if out of memory.
#[inline(always)]
fn fill(
    spare: &mut Option<Message>,
    alloc: Global,
    at: Moment,
    level: MessageLevel,
    origin: &str,
    message: &str,
) -> Result<(), AllocError>
    ensures { OnOk result (spare.new ≡ Some (message_of at level origin.now message.now)) }
{
    match spare {
        Some(spare) => {
            spare.time = at;
            spare.level = level;
            spare.origin.replace(origin)?;
            spare.message.replace(message)?;
        }
        None => {
            *spare = Some(Message {
                time: at,
                level,
                origin: Text::from_str(alloc, origin)?,
                message: Text::from_str(alloc, message)?,
            });
        }
    }
    Ok(())
}

/// Replaces a message with a copy of another, in the memory that it has. Fails if out of memory.
fn overwrite(message: &mut Message, by: &Message) -> Result<(), AllocError>
    ensures { OnOk result (message.new ≡ by.now) }
{
    message.time = by.time;
    message.level = by.level;
    message.origin.replace_with(&by.origin)?;
    message.message.replace_with(&by.message)
}

/// Returns a buffer of the same capacity with copies of the messages, or an `AllocError` if out of
/// memory.
fn copied(
    alloc: Global,
    ring: &HeapCircularBuffer<Message>,
) -> Result<HeapCircularBuffer<Message>, AllocError>
    ensures { IfOk result (λ copy. copy
        ≡ buffer (keep_last ring.now.capacity ring.now.items) ring.now.capacity) }
{
    let mut copy = HeapCircularBuffer::with_capacity(alloc, ring.capacity())?;
    for message in ring.iter() {
        copy.push_back(message.clone()?);
    }
    Ok(copy)
}

/// Returns copies of all messages but the `skipped` oldest ones, in the memory of a list whose
/// contents don't matter, or an `AllocError` if out of memory.
fn copies(
    ring: &HeapCircularBuffer<Message>,
    skipped: usize,
    mut list: Vec<Message>,
) -> Result<Vec<Message>, AllocError>
    ensures { IfOk result (λ list. list.items ≡ drop skipped ring.now.items) }
{
    let mut copied = 0;
    for message in ring.iter().skip(skipped) {
        if copied < list.len() {
            overwrite(&mut list[copied], message)?;
        } else {
            list.push(message.clone()?)?;
        }
        copied += 1;
    }
    list.truncate(copied);
    Ok(list)
}
