//! Calls on a ring of messages.
use prodash::Refusal;
use prodash::messages::{Message, MessageCopyState, MessageLevel, MessageRingBuffer};
use prodash_fixtures::Calls;
use prodash_programs::Fault;
use std::alloc::Global;

/// The greatest number of messages that the ring keeps.
const CAPACITY: usize = 3;

/// The origin of the messages, which takes memory of its own.
const ORIGIN: &str = "a task that compresses all of the files";

/// The texts that are pushed, of which the last replace the first. They take memory of their own.
const TEXTS: &[&str] = &[
    "begins with the first of all the files",
    "is at a third of what there is to be done",
    "is at a half of what there is to be done",
    "is done with the last of all the files",
    "ends now that nothing is left to be done",
];

/// Makes each call on a ring.
pub(crate) fn run(alloc: Global, calls: &mut Calls) -> Result<(), Fault> {
    let mut ring = with_capacity(alloc, calls)?;
    for text in TEXTS {
        push(alloc, &mut ring, text, calls)?;
    }
    calls.expect(ring.pushed() == TEXTS.len() as u64);
    copy_all(alloc, &ring, calls)?;
    copy_new(alloc, &ring, calls)?;
    deep_clone(alloc, &ring, calls)
}

/// Makes the ring.
fn with_capacity(alloc: Global, calls: &mut Calls) -> Result<MessageRingBuffer, Fault> {
    calls.begin("MessageRingBuffer::with_capacity");
    match MessageRingBuffer::with_capacity(alloc, CAPACITY) {
        Ok(ring) => Ok(ring),
        Err(refusal) => {
            let again = MessageRingBuffer::with_capacity(alloc, CAPACITY);
            calls.refuse(refusal, again.is_ok());
            Ok(again?)
        }
    }
}

/// Pushes a message.
fn push(
    alloc: Global,
    ring: &mut MessageRingBuffer,
    text: &str,
    calls: &mut Calls,
) -> Result<(), Fault> {
    calls.begin("MessageRingBuffer::push_overwrite");
    let (before, pushed) = (contents(alloc, ring)?, ring.pushed());
    if let Err(refusal) = push_info(alloc, ring, text) {
        let is_unchanged = ring.pushed() == pushed && contents(alloc, ring)? == before;
        let again = push_info(alloc, ring, text);
        calls.refuse(refusal, is_unchanged && again.is_ok());
        again?;
    }
    let after = contents(alloc, ring)?;
    calls.expect(ends_with(&after, text));
    Ok(())
}

fn push_info(alloc: Global, ring: &mut MessageRingBuffer, text: &str) -> Result<(), Refusal> {
    ring.push_overwrite(alloc, 5, MessageLevel::Info, ORIGIN, text)
}

/// Returns copies of all messages of a ring.
fn contents(alloc: Global, ring: &MessageRingBuffer) -> Result<Vec<Message>, Refusal> {
    let mut messages = Vec::new(alloc);
    ring.copy_all(alloc, &mut messages)?;
    Ok(messages)
}

/// Returns whether the last of the messages has this text.
fn ends_with(messages: &[Message], text: &str) -> bool {
    messages
        .last()
        .is_some_and(|it| it.message.as_str() == text)
}

/// Returns whether the messages have these texts, in their order.
fn have_texts(messages: &[Message], texts: &[&str]) -> bool {
    messages.len() == texts.len()
        && messages
            .iter()
            .zip(texts)
            .all(|(it, text)| it.message.as_str() == *text)
}

/// Copies all messages into a list that holds only the oldest.
fn copy_all(alloc: Global, ring: &MessageRingBuffer, calls: &mut Calls) -> Result<(), Fault> {
    calls.begin("MessageRingBuffer::copy_all");
    let mut messages = contents(alloc, ring)?;
    messages.truncate(1);
    if let Err(refusal) = ring.copy_all(alloc, &mut messages) {
        let is_unchanged = have_texts(&messages, &TEXTS[2..3]);
        let again = ring.copy_all(alloc, &mut messages);
        calls.refuse(refusal, is_unchanged && again.is_ok());
        again?;
    }
    calls.expect(have_texts(&messages, &TEXTS[2..]));
    Ok(())
}

/// Copies the messages after the third into a list that holds only the oldest.
fn copy_new(alloc: Global, ring: &MessageRingBuffer, calls: &mut Calls) -> Result<(), Fault> {
    calls.begin("MessageRingBuffer::copy_new");
    let mut messages = contents(alloc, ring)?;
    messages.truncate(1);
    let state = match copy_latest(alloc, ring, &mut messages) {
        Ok(state) => state,
        Err(refusal) => {
            let is_unchanged = have_texts(&messages, &TEXTS[2..3]);
            let again = copy_latest(alloc, ring, &mut messages);
            calls.refuse(refusal, is_unchanged && again.is_ok());
            again?
        }
    };
    calls.expect(state.pushed() == 5 && have_texts(&messages, &TEXTS[3..]));
    Ok(())
}

fn copy_latest(
    alloc: Global,
    ring: &MessageRingBuffer,
    out: &mut Vec<Message>,
) -> Result<MessageCopyState, Refusal> {
    ring.copy_new(alloc, out, Some(MessageCopyState::new(3)))
}

/// Copies the ring.
fn deep_clone(alloc: Global, ring: &MessageRingBuffer, calls: &mut Calls) -> Result<(), Fault> {
    calls.begin("MessageRingBuffer::deep_clone");
    let copy = match ring.deep_clone(alloc) {
        Ok(copy) => copy,
        Err(refusal) => {
            let again = ring.deep_clone(alloc);
            calls.refuse(refusal, again.is_ok());
            again?
        }
    };
    let is_same = contents(alloc, &copy)? == contents(alloc, ring)?;
    calls.expect(is_same && copy.pushed() == ring.pushed());
    Ok(())
}
