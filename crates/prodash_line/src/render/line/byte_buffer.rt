//! A buffer that bytes are appended to.
ghost use Rattle.std.specs.Prelude.{◌≡◌, ◌+◌, ◌∷◌, [], ◌++◌, ◌≤◌, ◌<◌, length, replicate, take, vec_len, OnOk, IfOk};
ghost use Rattle.std.specs.Fmt.{decimal};
ghost use Rattle.prodash_line.specs.ProgressRows.{fraction_of};
ghost use Rattle.prodash_line.specs.plumbing.Writing.{indented};
ghost use Rattle.prodash_line.specs.plumbing.RowWriting.{two_digits, plain_bar, colored_bar, styled_run, padded_bytes, values_bytes, values_opening, values_reset, whole_text, text_length, length_of, progress_bytes};

use crate::render::line::draw::plain_progress::{PlainProgress, PlainText};
use itoa::Buffer;
use prodash_base::progress::Step;
use std::alloc::{AllocError, Global};
use std::marker::Model;
use std::mem;

/// How many bytes are initialized in advance if there is memory for them.
const AHEAD: usize = 2048;

/// The character ESC, which begins a control sequence.
pub(crate) const ESCAPE: u8 = 0x1b;

/// How many bytes begin and end the style of values.
const STYLED_VALUES: usize = 10;

/// How many bytes a bar in a colour has at most besides its cells.
const COLORED_BAR: usize = 33;

/// Bytes that others are appended to. Memory past them is initialized in advance, so that an append
/// is one comparison and one copy. Contracts see the list of the bytes.
#[derive(Drop)]
pub(crate) struct ByteBuffer {
    /// The bytes, and after them others that appends overwrite.
    initialized: Vec<u8>,
    /// How many bytes there are.
    length: usize,
}

impl Model for ByteBuffer {
    ghost use Rattle.std.specs.Prelude.{◌≤◌, List, ℕ, take, vec_len};

    ghost Value = { List ℕ };

    ghost view = { λ b. take b.length b.initialized.items };

    ghost invariant = { λ b. b.length ≤ vec_len b.initialized };
}

impl ByteBuffer {
    /// Returns an empty buffer.
    pub(crate) fn new(alloc: Global) -> ByteBuffer
        ensures { result ≡ [] }
    {
        ByteBuffer {
            initialized: Vec::new(alloc),
            length: 0,
        }
    }

    /// Returns a buffer of the first `length` of these bytes.
    pub(crate) fn from_first(bytes: Vec<u8>, length: usize) -> ByteBuffer
        requires { length ≤ vec_len bytes }
        ensures { result ≡ take length bytes.items }
    {
        ByteBuffer {
            initialized: bytes,
            length,
        }
    }

    /// Returns the bytes.
    pub(crate) fn as_slice(&self) -> &[u8]
        ensures { result.now ≡ self.now }
    {
        &self.initialized[..self.length]
    }

    /// Returns how many bytes there are.
    pub(crate) fn len(&self) -> usize
        ensures { result ≡ length self.now }
    {
        self.length
    }

    /// Returns the memory that is initialized, and how many bytes there are, with which it begins.
    pub(crate) fn into_initialized(self) -> (Vec<u8>, usize)
        ensures bytes { take result.1 result.0.items ≡ self }
        ensures length { result.1 ≤ vec_len result.0 }
    {
        (self.initialized, self.length)
    }

    /// Returns the bytes without a copy.
    pub(crate) fn into_vec(self) -> Vec<u8>
        ensures { result.items ≡ self }
    {
        let ByteBuffer {
            mut initialized,
            length,
        } = self;
        initialized.truncate(length);
        initialized
    }

    /// Takes the bytes and their memory. The buffer is empty then.
    pub(crate) fn take(&mut self) -> ByteBuffer
        ensures taken { result ≡ self.old }
        ensures none { self.new ≡ [] }
    {
        let none = ByteBuffer::new(*self.initialized.allocator());
        mem::replace(self, none)
    }

    /// Moves the bytes into the memory of another buffer, if it has more. Fails if out of memory.
    pub(crate) fn move_into(&mut self, other: ByteBuffer) -> Result<(), AllocError>
        ensures { OnOk result (self.new ≡ self.old) }
    {
        if self.initialized.len() < other.initialized.len() {
            let mut other = other;
            other.clear();
            other.extend_from_slice(self.as_slice())?;
            *self = other;
        }
        Ok(())
    }

    /// Empties the buffer and keeps its memory.
    pub(crate) fn clear(&mut self)
        ensures { self.new ≡ [] }
    {
        self.length = 0;
    }

    /// Appends a byte. Fails if out of memory.
    #[inline(always)]
    pub(crate) fn push(&mut self, byte: u8) -> Result<(), AllocError>
        ensures { OnOk result (self.new ≡ self.old ++ byte ∷ []) }
    {
        let end = make_room(&mut self.initialized, self.length, 1)?;
        self.initialized[self.length] = byte;
        self.length = end;
        Ok(())
    }

    /// Appends some bytes. Fails if out of memory.
    #[inline(always)]
    pub(crate) fn extend_from_slice(&mut self, bytes: &[u8]) -> Result<(), AllocError>
        ensures { OnOk result (self.new ≡ self.old ++ bytes.now) }
    {
        let end = make_room(&mut self.initialized, self.length, bytes.len())?;
        self.initialized[self.length..end].copy_from_slice(bytes);
        self.length = end;
        Ok(())
    }

    /// Appends `indent` spaces and then some bytes. Fails if out of memory.
    #[inline(always)]
    pub(crate) fn push_indented(&mut self, indent: u16, bytes: &[u8]) -> Result<(), AllocError>
        requires { length bytes.now ≤ 65535 }
        ensures { OnOk result (self.new ≡ self.old ++ indented indent bytes.now) }
    {
        let count = usize::from(indent) + bytes.len();
        make_room(&mut self.initialized, self.length, count)?;
        let room = self.initialized.as_mut_slice();
        let at = put_copies(room, self.length, b' ', indent);
        self.length = put_bytes(room, at, bytes);
        Ok(())
    }

    /// Appends a progress without styles. Fails if out of memory.
    #[inline(always)]
    pub(crate) fn push_progress(&mut self, progress: &PlainProgress<'_>) -> Result<(), AllocError>
        requires columns { progress.now.columns ≡ text_length progress.now.text }
        requires within { progress.now.filled ≤ progress.now.cells }
        requires short { length_of progress.now ≤ 65535 }
        ensures { OnOk result (self.new ≡ self.old ++ progress_bytes progress.now) }
    {
        let length = usize::from(progress.len());
        make_room(&mut self.initialized, self.length, length)?;
        let gap = 1 + progress.padding;
        let bytes = self.initialized.as_mut_slice();
        let at = put_copies(bytes, self.length, b' ', gap);
        let at = put_text(bytes, at, &progress.text);
        self.length = put_bar(bytes, at, progress.cells, progress.filled);
        Ok(())
    }

    /// Appends a bar of `cells` cells in a colour, of which the first `filled` are filled. `digit`
    /// is the last digit of the code of the colour. Fails if out of memory.
    #[inline(always)]
    pub(crate) fn push_colored_bar(
        &mut self,
        digit: u8,
        cells: u16,
        filled: u16,
    ) -> Result<(), AllocError>
        requires { filled ≤ cells }
        ensures { OnOk result (self.new ≡ self.old ++ colored_bar digit cells filled) }
    {
        let length = usize::from(cells) + COLORED_BAR;
        make_room(&mut self.initialized, self.length, length)?;
        let bytes = self.initialized.as_mut_slice();
        self.length = put_colored_bar(bytes, self.length, digit, cells, filled);
        Ok(())
    }

    /// Appends a step, and a slash and its bound if it has one, which are this long together. Fails
    /// if out of memory.
    #[inline(always)]
    pub(crate) fn push_fraction(
        &mut self,
        step: Step,
        done_at: Option<Step>,
        count: u16,
    ) -> Result<(), AllocError>
        requires { count ≡ length (fraction_of step done_at) }
        ensures { OnOk result (self.new ≡ self.old ++ fraction_of step done_at) }
    {
        make_room(&mut self.initialized, self.length, usize::from(count))?;
        let bytes = self.initialized.as_mut_slice();
        self.length = put_fraction(bytes, self.length, step, done_at);
        Ok(())
    }

    /// Appends a space, padding, and a step, and a slash and its bound if it has one, which are
    /// this long together, in the style of values if they are coloured. Fails if out of memory.
    #[inline(always)]
    pub(crate) fn push_padded_fraction(
        &mut self,
        colored: bool,
        padding: u16,
        step: Step,
        done_at: Option<Step>,
        count: u16,
    ) -> Result<(), AllocError>
        requires count { count ≡ length (fraction_of step done_at) }
        requires short { 1 + padding ≤ 65535 }
        ensures { OnOk result (self.new
            ≡ self.old ++ padded_bytes padding (values_bytes colored (fraction_of step done_at))) }
    {
        let length = usize::from(padding) + usize::from(count) + (1 + STYLED_VALUES);
        make_room(&mut self.initialized, self.length, length)?;
        let bytes = self.initialized.as_mut_slice();
        let at = put_copies(bytes, self.length, b' ', 1 + padding);
        let at = put_values_opening(bytes, at, colored);
        let at = put_fraction(bytes, at, step, done_at);
        self.length = put_values_reset(bytes, at, colored);
        Ok(())
    }

    /// Appends a space, padding, values in their style if they are coloured, a space and a unit.
    /// Fails if out of memory.
    #[inline(always)]
    pub(crate) fn push_padded_pair(
        &mut self,
        colored: bool,
        padding: u16,
        values: &[u8],
        unit: &[u8],
    ) -> Result<(), AllocError>
        requires short { 1 + padding ≤ 65535 }
        requires values { length values.now ≤ 65535 }
        requires unit { length unit.now ≤ 65535 }
        ensures { OnOk result (self.new ≡ self.old
            ++ padded_bytes padding (values_bytes colored values.now ++ 32 ∷ unit.now)) }
    {
        let length = usize::from(padding) + values.len() + unit.len() + (2 + STYLED_VALUES);
        make_room(&mut self.initialized, self.length, length)?;
        let bytes = self.initialized.as_mut_slice();
        let at = put_copies(bytes, self.length, b' ', 1 + padding);
        let at = put_values_opening(bytes, at, colored);
        let at = put_bytes(bytes, at, values);
        let at = put_values_reset(bytes, at, colored);
        let at = put_byte(bytes, at, b' ');
        self.length = put_bytes(bytes, at, unit);
        Ok(())
    }

    /// Appends a byte `count` times. Fails if out of memory.
    #[inline(always)]
    pub(crate) fn push_copies(&mut self, byte: u8, count: u16) -> Result<(), AllocError>
        ensures { OnOk result (self.new ≡ self.old ++ replicate count byte) }
    {
        if count == 0 {
            return Ok(());
        }
        let end = make_room(&mut self.initialized, self.length, usize::from(count))?;
        self.initialized[self.length..end].fill(byte);
        self.length = end;
        Ok(())
    }
}

/// Makes room for `additional` bytes after the first `length`, and returns where they end.
#[inline(always)]
fn make_room(
    initialized: &mut Vec<u8>,
    length: usize,
    additional: usize,
) -> Result<usize, AllocError>
    requires { length ≤ vec_len initialized.old }
    ensures end { IfOk result (λ end. end ≡ length + additional) }
    ensures room { IfOk result (λ end. end ≤ vec_len initialized.new) }
    ensures kept { take length initialized.new.items ≡ take length initialized.old.items }
    ensures within { length ≤ vec_len initialized.new }
{
    let spare = initialized.len() - length;
    if additional > spare {
        initialize(initialized, additional - spare)?;
    }
    Ok(length + additional)
}

/// Writes a byte at an index, and returns the index after it.
#[inline(always)]
fn put_byte(bytes: &mut [u8], at: usize, byte: u8) -> usize
    requires { at < length bytes.old }
    ensures end { result ≡ at + 1 }
    ensures length { length bytes.new ≡ length bytes.old }
    ensures put { take result bytes.new ≡ take at bytes.old ++ byte ∷ [] }
{
    bytes[at] = byte;
    at + 1
}

/// Writes a byte `count` times from an index on, and returns the index after them.
#[inline(always)]
fn put_copies(bytes: &mut [u8], at: usize, byte: u8, count: u16) -> usize
    requires { at + count ≤ length bytes.old }
    ensures end { result ≡ at + count }
    ensures length { length bytes.new ≡ length bytes.old }
    ensures put { take result bytes.new ≡ take at bytes.old ++ replicate count byte }
{
    let end = at + usize::from(count);
    bytes[at..end].fill(byte);
    end
}

/// Writes some bytes from an index on, and returns the index after them.
#[inline(always)]
fn put_bytes(bytes: &mut [u8], at: usize, others: &[u8]) -> usize
    requires { at + length others.now ≤ length bytes.old }
    ensures end { result ≡ at + length others.now }
    ensures length { length bytes.new ≡ length bytes.old }
    ensures put { take result bytes.new ≡ take at bytes.old ++ others.now }
{
    let end = at + others.len();
    bytes[at..end].copy_from_slice(others);
    end
}

/// Writes a text from an index on, and returns the index after it.
#[inline(always)]
fn put_text(bytes: &mut [u8], at: usize, text: &PlainText<'_>) -> usize
    requires { at + text_length text.now ≤ length bytes.old }
    ensures end { result ≡ at + text_length text.now }
    ensures length { length bytes.new ≡ length bytes.old }
    ensures put { take result bytes.new ≡ take at bytes.old ++ whole_text text.now }
{
    match *text {
        PlainText::Fraction(step, done_at) => put_fraction(bytes, at, step, done_at),
        PlainText::Labelled(step, done_at, label) => {
            let at = put_fraction(bytes, at, step, done_at);
            let at = put_byte(bytes, at, b' ');
            put_bytes(bytes, at, label)
        }
        PlainText::Other(text) => put_bytes(bytes, at, text),
    }
}

/// Writes a step, and a slash and its bound if it has one, from an index on, and returns the index
/// after them.
#[inline(always)]
fn put_fraction(bytes: &mut [u8], at: usize, step: Step, done_at: Option<Step>) -> usize
    requires { at + length (fraction_of step done_at) ≤ length bytes.old }
    ensures end { result ≡ at + length (fraction_of step done_at) }
    ensures length { length bytes.new ≡ length bytes.old }
    ensures put { take result bytes.new ≡ take at bytes.old ++ fraction_of step done_at }
{
    match done_at {
        None => put_decimal(bytes, at, step),
        Some(bound) => {
            let at = put_decimal(bytes, at, step);
            let at = put_byte(bytes, at, b'/');
            put_decimal(bytes, at, bound)
        }
    }
}

/// Writes a number in decimal digits from an index on, and returns the index after them.
#[inline(always)]
fn put_decimal(bytes: &mut [u8], at: usize, n: u64) -> usize
    requires { at + length (decimal n) ≤ length bytes.old }
    ensures end { result ≡ at + length (decimal n) }
    ensures length { length bytes.new ≡ length bytes.old }
    ensures put { take result bytes.new ≡ take at bytes.old ++ decimal n }
{
    if n < 100 {
        put_below_100(bytes, at, n)
    } else if n < 10_000 {
        let at = put_below_100(bytes, at, n / 100);
        put_two_digits(bytes, at, n % 100)
    } else {
        put_large(bytes, at, n)
    }
}

/// Does what `put_decimal` does for a number below 100.
#[inline(always)]
fn put_below_100(bytes: &mut [u8], at: usize, n: u64) -> usize
    requires small { n < 100 }
    requires room { at + length (decimal n) ≤ length bytes.old }
    ensures end { result ≡ at + length (decimal n) }
    ensures length { length bytes.new ≡ length bytes.old }
    ensures put { take result bytes.new ≡ take at bytes.old ++ decimal n }
{
    if n < 10 {
        return put_byte(bytes, at, b'0' + n as u8);
    }
    put_two_digits(bytes, at, n)
}

/// Writes the two digits of a number below 100, the first of which may be a zero, from an index on,
/// and returns the index after them.
#[inline(always)]
fn put_two_digits(bytes: &mut [u8], at: usize, n: u64) -> usize
    requires small { n < 100 }
    requires room { at + 2 ≤ length bytes.old }
    ensures end { result ≡ at + 2 }
    ensures length { length bytes.new ≡ length bytes.old }
    ensures put { take result bytes.new ≡ take at bytes.old ++ two_digits n }
{
    let at = put_byte(bytes, at, b'0' + (n / 10) as u8);
    put_byte(bytes, at, b'0' + (n % 10) as u8)
}

/// Does what `put_decimal` does for a large number.
#[cold]
#[inline(never)]
fn put_large(bytes: &mut [u8], at: usize, n: u64) -> usize
    requires { at + length (decimal n) ≤ length bytes.old }
    ensures end { result ≡ at + length (decimal n) }
    ensures length { length bytes.new ≡ length bytes.old }
    ensures put { take result bytes.new ≡ take at bytes.old ++ decimal n }
{
    put_bytes(bytes, at, Buffer::new().format(n).as_bytes())
}

/// Writes a bar of `cells` cells, of which the first `filled` are filled, from an index on, and
/// returns the index after it.
#[inline(always)]
fn put_bar(bytes: &mut [u8], at: usize, cells: u16, filled: u16) -> usize
    requires within { filled ≤ cells }
    requires room { at + cells + 4 ≤ length bytes.old }
    ensures end { result ≡ at + cells + 4 }
    ensures put { take result bytes.new
        ≡ take at bytes.old ++ plain_bar cells filled }
    ensures within { result ≤ length bytes.new }
{
    let at = put_byte(bytes, at, b' ');
    let at = put_byte(bytes, at, b'[');
    let at = put_copies(bytes, at, b'=', filled);
    let at = put_byte(bytes, at, b'>');
    let at = put_copies(bytes, at, b'-', cells - filled);
    put_byte(bytes, at, b']')
}

/// Writes what begins the style of values from an index on, if they are coloured, and returns the
/// index after it.
#[inline(always)]
fn put_values_opening(bytes: &mut [u8], at: usize, colored: bool) -> usize
    requires { at + 6 ≤ length bytes.old }
    ensures end { result ≡ at + length (values_opening colored) }
    ensures length { length bytes.new ≡ length bytes.old }
    ensures put { take result bytes.new ≡ take at bytes.old ++ values_opening colored }
{
    if !colored {
        return at;
    }
    let at = put_byte(bytes, at, ESCAPE);
    let at = put_byte(bytes, at, b'[');
    let at = put_byte(bytes, at, b'1');
    let at = put_byte(bytes, at, b';');
    let at = put_byte(bytes, at, b'2');
    put_byte(bytes, at, b'm')
}

/// Writes what ends the style of values from an index on, if they are coloured, and returns the
/// index after it.
#[inline(always)]
fn put_values_reset(bytes: &mut [u8], at: usize, colored: bool) -> usize
    requires { at + 4 ≤ length bytes.old }
    ensures end { result ≡ at + length (values_reset colored) }
    ensures length { length bytes.new ≡ length bytes.old }
    ensures put { take result bytes.new ≡ take at bytes.old ++ values_reset colored }
{
    if colored { put_reset(bytes, at) } else { at }
}

/// Writes what ends a style from an index on, and returns the index after it.
#[inline(always)]
fn put_reset(bytes: &mut [u8], at: usize) -> usize
    requires { at + 4 ≤ length bytes.old }
    ensures end { result ≡ at + 4 }
    ensures length { length bytes.new ≡ length bytes.old }
    ensures put { take result bytes.new ≡ take at bytes.old ++ 27 ∷ 91 ∷ 48 ∷ 109 ∷ [] }
{
    let at = put_byte(bytes, at, ESCAPE);
    let at = put_byte(bytes, at, b'[');
    let at = put_byte(bytes, at, b'0');
    put_byte(bytes, at, b'm')
}

/// Writes what `push_colored_bar` appends from an index on, and returns the index after it.
#[inline(always)]
fn put_colored_bar(bytes: &mut [u8], at: usize, digit: u8, cells: u16, filled: u16) -> usize
    requires within { filled ≤ cells }
    requires room { at + cells + 33 ≤ length bytes.old }
    ensures put { take result bytes.new
        ≡ take at bytes.old ++ colored_bar digit cells filled }
    ensures within { result ≤ length bytes.new }
{
    let open = [ESCAPE, b'[', b'3', digit, b'm'];
    let open_dimmed = [ESCAPE, b'[', b'2', b';', b'3', digit, b'm'];
    let at = put_byte(bytes, at, b' ');
    let at = put_byte(bytes, at, b'[');
    let at = put_styled(bytes, at, &open, b'=', filled);
    let at = put_styled(bytes, at, &open, b'>', 1);
    let at = put_styled(bytes, at, &open_dimmed, b'-', cells - filled);
    put_byte(bytes, at, b']')
}

/// Writes a byte `count` times from an index on, between what begins a style and what ends it, or
/// nothing if `count` is 0. Returns the index after them.
#[inline(always)]
fn put_styled(bytes: &mut [u8], at: usize, opening: &[u8], byte: u8, count: u16) -> usize
    requires { at + length opening.now + count + 4 ≤ length bytes.old }
    ensures end { result ≡ at + length (styled_run opening.now byte count) }
    ensures length { length bytes.new ≡ length bytes.old }
    ensures put { take result bytes.new
        ≡ take at bytes.old ++ styled_run opening.now byte count }
{
    if count == 0 {
        return at;
    }
    let at = put_bytes(bytes, at, opening);
    let at = put_copies(bytes, at, byte, count);
    put_reset(bytes, at)
}

/// Initializes at least `missing` more bytes.
#[cold]
#[inline(never)]
fn initialize(bytes: &mut Vec<u8>, missing: usize) -> Result<(), AllocError>
    ensures more { OnOk result (vec_len bytes.old + missing ≤ vec_len bytes.new) }
    ensures kept { take (vec_len bytes.old) bytes.new.items ≡ bytes.old.items }
    ensures within { vec_len bytes.old ≤ vec_len bytes.new }
{
    bytes.reserve(missing)?;
    let length = bytes.len();
    let room = bytes.capacity() - length;
    bytes.resize(length + missing.max(AHEAD).min(room), 0)
}
