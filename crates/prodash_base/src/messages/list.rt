ghost use Rattle.std.specs.Prelude.{◌≡◌, ◌↔◌, IsTrue};
ghost use Rattle.std.specs.Cmp.{partial_equiv_from_equiv};
ghost use Rattle.prodash_base.specs.plumbing.EqualityTests.{equivalence};
ghost use Rattle.prodash_base.specs.plumbing.SameMessages as same;
ghost use Rattle.prodash_base.specs.Messages.{same_messages};

use crate::messages::Message;
use std::alloc::AllocError;
use std::fmt;
use std::marker::Model;

/// Messages that were copied from a ring. Contracts see the list.
#[derive(Drop)]
pub struct Messages {
    messages: Vec<Message>,
}

impl Model for Messages {
    ghost use Rattle.std.specs.Prelude.{List};
    ghost use Rattle.prodash_base.specs.declared.messages.Message.{Message};

    ghost Value = { List Message };

    ghost view = { λ s. s.messages.items };
}

impl Messages {
    /// Returns the messages of a list.
    pub fn new(messages: Vec<Message>) -> Messages
        ensures { result ≡ messages.items }
    {
        Messages { messages }
    }

    /// Returns the messages as a slice.
    pub fn as_slice(&self) -> &[Message]
        ensures { result.now ≡ self.now }
    {
        &self.messages
    }

    /// Returns the messages as a list.
    pub fn into_vec(self) -> Vec<Message>
        ensures { result.items ≡ self }
    {
        self.messages
    }
}

impl Clone for Messages {
    ghost is_clone = { λ a b. b ≡ a };

    fn clone(&self) -> Result<Messages, AllocError> {
        let messages = self.messages.clone()?;
        Ok(Messages { messages })
    }
}

impl PartialEq for Messages {
    ghost eq = { same_messages };

    ghost laws = { partial_equiv_from_equiv (equivalence same.messages) };

    /// Returns whether both have the same messages in the same order.
    fn eq(&self, other: &Messages) -> bool
        ensures value { result ≡ same_messages self.now other.now }
        ensures exact { IsTrue result ↔ (self.now ≡ other.now) }
    {
        self.messages == other.messages
    }
}

impl Eq for Messages {
    ghost laws = { equivalence same.messages };
}

impl fmt::Debug for Messages {
    /// Writes the messages, as `Messages [Message 7 Info "task" "text"]`.
    fn fmt<W: fmt::Write>(&self, f: &mut fmt::Formatter<W>) -> fmt::Result {
        write!(f, "Messages {:?}", self.as_slice())
    }
}
