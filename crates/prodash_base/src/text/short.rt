//! Short texts, whose bytes lie in the value.
ghost use Rattle.std.specs.Prelude.{◌≡◌, ◌≤◌, ◌↔◌, IsTrue, nat_eq};
ghost use Rattle.std.specs.Cmp.Lexicographic.{pointwise};
ghost use Rattle.std.specs.Int.{w64, from_le_bytes};
ghost use lib.Lanes.{chunk};
ghost use Rattle.prodash_base.specs.Texts.{IsShort};

use std::alloc::Global;
use std::marker::Model;
use std::str;

/// The greatest number of bytes of a short text.
pub(super) const LONGEST_SHORT: usize = 30;

/// A text of at most `LONGEST_SHORT` bytes, behind which lie zeros. Contracts see its bytes.
#[derive(Drop)]
pub(super) struct ShortText {
    count: u8,
    bytes: [u8; 30],
}

impl Model for ShortText {
    ghost use Rattle.std.specs.Prelude.{List, ℕ, ◌≡◌, ◌≤◌, ◌-◌, take, drop, replicate, length, IsUtf8};

    ghost Value = { List ℕ };

    ghost view = { λ t. take t.count t.bytes };

    ghost invariant = { λ t. (t.count ≤ 30) × (length t.bytes ≡ 30)
        × ∥ IsUtf8 (take t.count t.bytes) ∥₁
        × (drop t.count t.bytes ≡ replicate (30 - t.count) 0) };
}

impl ShortText {
    /// Returns a copy of a text that is short.
    pub(super) fn new(text: &str) -> ShortText
        requires { IsShort text.now }
        ensures { result ≡ text.now }
    {
        let mut bytes = [0; 30];
        bytes[..text.len()].copy_from_slice(text.as_bytes());
        ShortText {
            count: text.len() as u8,
            bytes,
        }
    }

    /// Replaces the text with a copy of one that is short.
    #[inline]
    pub(super) fn replace(&mut self, text: &str)
        requires { IsShort text.now }
        ensures { self.new ≡ text.now }
    {
        self.bytes = [0; 30];
        self.bytes[..text.len()].copy_from_slice(text.as_bytes());
        self.count = text.len() as u8;
    }

    /// Returns a copy of the text.
    #[inline]
    pub(super) fn copy(&self) -> ShortText
        ensures { result ≡ self.now }
    {
        ShortText {
            count: self.count,
            bytes: self.bytes,
        }
    }

    /// Returns whether both are the same text.
    #[inline]
    pub(super) fn equals(&self, other: &ShortText) -> bool
        ensures { result ≡ pointwise nat_eq self.now other.now }
    {
        (self.count == other.count) & same_bytes(&self.bytes, &other.bytes)
    }

    /// Returns the text as a string slice.
    #[inline]
    pub(super) fn as_str(&self) -> &str
        ensures { result.now ≡ self.now }
    {
        unsafe { str::from_utf8_unchecked(&self.bytes[..self.count as usize]) }
    }
}

/// Returns whether both arrays have the same bytes. Four words, two of which overlap, cover them.
#[inline(always)]
fn same_bytes(a: &[u8; 30], b: &[u8; 30]) -> bool
    ensures { result ≡ pointwise nat_eq a.now b.now }
{
    same_word(a, b, 0) & same_word(a, b, 8) & same_word(a, b, 16) & same_word(a, b, 22)
}

/// Returns whether both arrays have the same eight bytes from `at` on.
#[inline(always)]
fn same_word(a: &[u8; 30], b: &[u8; 30], at: usize) -> bool
    requires { at ≤ 22 }
    ensures { IsTrue result ↔ (chunk at 8 a.now ≡ chunk at 8 b.now) }
{
    word(a, at) == word(b, at)
}

/// Returns the eight bytes from `at` on as a number.
#[inline(always)]
fn word(bytes: &[u8; 30], at: usize) -> u64
    requires { at ≤ 22 }
    ensures { result ≡ from_le_bytes w64 (chunk at 8 bytes.now) }
{
    u64::from_le_bytes([
        bytes[at],
        bytes[at + 1],
        bytes[at + 2],
        bytes[at + 3],
        bytes[at + 4],
        bytes[at + 5],
        bytes[at + 6],
        bytes[at + 7],
    ])
}

/// A text in one of its two forms: in the value, beside the allocator of a longer one that takes
/// its place, or on the heap.
#[derive(Drop)]
pub(super) enum Form {
    Short(Global, ShortText),
    Long(String),
}
