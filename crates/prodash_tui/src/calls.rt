//! The calls that drew on a row of a grid, as the row remembers them.
ghost use Rattle.std.specs.Prelude.{◌≡◌, true, ◌≤◌, [], ◌∷◌, ◌++◌, length, take, IfOk, OnErr, OnOk};

use crate::grid_row::Span;
use crate::style::Style;
use crate::word::{Word, same_word};
use std::alloc::{AllocError, Global};
use std::marker::Model;

/// For how many calls a row has memory from the beginning. More are seldom made.
const ROOM: usize = 16;

/// A call: what it drew, in which columns, and its text. Contracts see these three.
#[derive(Drop)]
pub(crate) struct Call {
    word: Word,
    columns: Span,
    text: String,
}

impl Model for Call {
    ghost use Rattle.std.specs.Prelude.{string_bytes};
    ghost use Rattle.prodash_tui.specs.plumbing.Calls.{Drawing};

    ghost Value = { Drawing };

    ghost view = { λ call. record {
      word = call.word;
      columns = call.columns;
      text = string_bytes call.text;
    } };
}

impl Call {
    /// Returns a call. Fails if out of memory.
    fn new(alloc: Global, word: Word, columns: Span, text: &str) -> Result<Call, AllocError>
        ensures { IfOk result
            (λ call. call ≡ record { word = word; columns = columns; text = text.now }) }
    {
        Ok(Call {
            word,
            columns,
            text: String::from_str(alloc, text)?,
        })
    }

    /// Returns a call that drew nothing, with memory for a text of that many bytes. Fails if out of
    /// memory.
    fn blank(alloc: Global, length: usize) -> Result<Call, AllocError> {
        Ok(Call {
            word: Word::Text(Style::new()),
            columns: Span { first: 0, last: 0 },
            text: String::with_capacity(alloc, length)?,
        })
    }

    /// Returns what it drew.
    pub(crate) fn word(&self) -> Word
        ensures { result ≡ self.now.word }
    {
        self.word
    }

    /// Returns the columns that it drew in.
    pub(crate) fn columns(&self) -> Span
        ensures { result ≡ self.now.columns }
    {
        self.columns
    }

    /// Returns its text.
    pub(crate) fn text(&self) -> &str
        ensures { result.now ≡ self.now.text }
    {
        self.text.as_str()
    }

    /// Returns whether it is a call of this word in these columns, with this text.
    #[inline(always)]
    pub(crate) fn is(&self, word: Word, columns: Span, text: &str) -> bool
        ensures { result ≡ true
            → self.now ≡ record { word = word; columns = columns; text = text.now } }
    {
        self.columns.first == columns.first
            && self.columns.last == columns.last
            && same_word(self.word, word)
            && self.text.len() == text.len()
            && (text.is_empty() || self.text.as_str() == text)
    }

    /// Makes it another call, in the memory that it has if that is enough. Fails if out of memory.
    fn replace(&mut self, word: Word, columns: Span, text: &str) -> Result<(), AllocError>
        ensures { OnOk result
            (self.new ≡ record { word = word; columns = columns; text = text.now }) }
    {
        self.word = word;
        self.columns = columns;
        self.text.clear();
        self.text.push_str(text)
    }
}

/// The calls that drew on a row, in their order. The memory of those that are forgotten is kept for
/// others. Contracts see the list of the calls.
#[derive(Drop)]
pub(crate) struct Calls {
    alloc: Global,
    slots: Vec<Call>,
    /// How many of them are calls that are remembered: the first ones.
    count: usize,
}

impl Model for Calls {
    ghost use Rattle.std.specs.Prelude.{List, ◌≤◌, length, take};
    ghost use Rattle.prodash_tui.specs.plumbing.Calls.{Drawing};

    ghost Value = { List Drawing };

    ghost view = { λ calls. take calls.count calls.slots.items };

    ghost invariant = { λ calls. calls.count ≤ length calls.slots.items };
}

impl Calls {
    /// Returns no calls, with memory for some whose texts have up to that many bytes. Fails if out
    /// of memory.
    pub(crate) fn with_room(alloc: Global, length: usize) -> Result<Calls, AllocError>
        ensures { IfOk result (λ calls. calls ≡ []) }
    {
        let mut slots = Vec::with_capacity(alloc, ROOM)?;
        for _ in 0..ROOM {
            slots.push(Call::blank(alloc, length)?)?;
        }
        Ok(Calls {
            alloc,
            slots,
            count: 0,
        })
    }

    /// Returns the calls.
    #[inline(always)]
    pub(crate) fn as_slice(&self) -> &[Call]
        ensures { result.now ≡ self.now }
    {
        &self.slots[..self.count]
    }

    /// Forgets all but the first calls.
    pub(crate) fn truncate(&mut self, count: usize)
        requires { count ≤ length self.old }
        ensures { self.new ≡ take count self.old }
    {
        self.count = count;
    }

    /// Remembers one more call. Fails if out of memory, and then remembers those that it did.
    pub(crate) fn push(&mut self, word: Word, columns: Span, text: &str) -> Result<(), AllocError>
        ensures ok { OnOk result (self.new
            ≡ self.old ++ record { word = word; columns = columns; text = text.now } ∷ []) }
        ensures err { OnErr result (self.new ≡ self.old) }
    {
        if self.count < self.slots.len() {
            self.slots[self.count].replace(word, columns, text)?;
        } else {
            self.slots
                .push(Call::new(self.alloc, word, columns, text)?)?;
        }
        self.count += 1;
        Ok(())
    }
}
