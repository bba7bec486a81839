//! A buffer in which a list takes the place of an earlier one.
ghost use Rattle.std.specs.Prelude.{◌≡◌, ◌+◌, [], ◌∷◌, ◌++◌, ◌≤◌, drop, length, take, vec_len, OnOk, IfOk};

use std::alloc::AllocError;
use std::marker::Model;

/// How many items a gap has at least once it is too small.
const LEAST: usize = 64;

/// The items of a list that is written, a gap, and those that are left of an earlier list. The list is
/// written in the memory of the earlier one, so that both together take little more than one of
/// them. Contracts see both lists.
#[derive(Drop)]
pub(crate) struct GapBuffer<T> {
    items: Vec<T>,
    /// How many items are written, which is where the gap begins.
    written: usize,
    /// Where the gap ends, and what is left begins.
    left: usize,
}

impl<T> Model for GapBuffer<T> {
    ghost use Rattle.std.specs.Prelude.{◌≤◌, List, take, drop, vec_len};

    ghost Value = { List T × List T };

    ghost view = { λ b. (take b.written b.items.items, drop b.left b.items.items) };

    ghost invariant = { λ b. (b.written ≤ b.left) × (b.left ≤ vec_len b.items) };
}

impl<T: Copy> GapBuffer<T> {
    /// Returns a buffer in which nothing is written, and all of these items are left.
    pub(crate) fn over(earlier: Vec<T>) -> GapBuffer<T>
        ensures { result ≡ ([], earlier.items) }
    {
        GapBuffer {
            items: earlier,
            written: 0,
            left: 0,
        }
    }

    /// Returns a buffer in which the first `written` of these items are written, and none is left.
    pub(crate) fn after(items: Vec<T>, written: usize) -> GapBuffer<T>
        requires { written ≤ vec_len items }
        ensures { result ≡ (take written items.items, []) }
    {
        GapBuffer {
            left: items.len(),
            items,
            written,
        }
    }

    /// Returns how many items are written.
    pub(crate) fn len(&self) -> usize
        ensures { result ≡ length self.now.0 }
    {
        self.written
    }

    /// Returns the items that are left.
    #[inline(always)]
    pub(crate) fn left(&self) -> &[T]
        ensures { result.now ≡ self.now.1 }
    {
        &self.items[self.left..]
    }

    /// Gives up the first items of those that are left.
    #[inline(always)]
    pub(crate) fn give_up(&mut self, count: usize)
        requires { count ≤ length self.old.1 }
        ensures { self.new ≡ (self.old.0, drop count self.old.1) }
    {
        self.left += count;
    }

    /// Writes the first items of those that are left, which are then left no longer.
    pub(crate) fn write_left(&mut self, count: usize)
        requires { count ≤ length self.old.1 }
        ensures { self.new ≡ (self.old.0 ++ take count self.old.1, drop count self.old.1) }
    {
        let (written, left) = (self.written + count, self.left + count);
        if self.written == self.left {
            self.written = written;
            self.left = left;
            return;
        }
        self.items.copy_within(self.left..left, self.written);
        self.written = written;
        self.left = left;
    }

    /// Writes an item. Fails if out of memory.
    #[inline(always)]
    pub(crate) fn push(&mut self, item: T) -> Result<(), AllocError>
        ensures { OnOk result (self.new ≡ (self.old.0 ++ item ∷ [], self.old.1)) }
    {
        self.left = make_room(&mut self.items, self.written, self.left, 1, item)?;
        self.items[self.written] = item;
        self.written += 1;
        Ok(())
    }

    /// Writes an item in place of the first of those that are left, which is then left no longer.
    #[inline(always)]
    pub(crate) fn replace_first(&mut self, item: T)
        requires { 1 ≤ length self.old.1 }
        ensures { self.new ≡ (self.old.0 ++ item ∷ [], drop 1 self.old.1) }
    {
        self.items[self.written] = item;
        self.written += 1;
        self.left += 1;
    }

    /// Writes some items. Fails if out of memory.
    pub(crate) fn extend_from_slice(&mut self, items: &[T]) -> Result<(), AllocError>
        ensures { OnOk result (self.new ≡ (self.old.0 ++ items.now, self.old.1)) }
    {
        let Some(first) = items.first() else {
            return Ok(());
        };
        let count = items.len();
        self.left = make_room(&mut self.items, self.written, self.left, count, *first)?;
        self.written = put_items(&mut self.items, self.written, items);
        Ok(())
    }

    /// Returns the items, of which the first ones are written, and how many these are.
    pub(crate) fn into_items(self) -> (Vec<T>, usize)
        ensures written { take result.1 result.0.items ≡ self.0 }
        ensures within { result.1 ≤ vec_len result.0 }
    {
        (self.items, self.written)
    }

    /// Returns what is written.
    pub(crate) fn into_written(self) -> Vec<T>
        ensures { result.items ≡ self.0 }
    {
        let mut items = self.items;
        items.truncate(self.written);
        items
    }
}

/// Writes some items from an index on, and returns the index after them.
#[inline(always)]
fn put_items<T: Copy>(items: &mut Vec<T>, at: usize, others: &[T]) -> usize
    requires { at + length others.now ≤ vec_len items.old }
    ensures end { result ≡ at + length others.now }
    ensures length { vec_len items.new ≡ vec_len items.old }
    ensures put { take result items.new.items ≡ take at items.old.items ++ others.now }
    ensures after { drop result items.new.items ≡ drop result items.old.items }
{
    let end = at + others.len();
    items[at..end].copy_from_slice(others);
    end
}

/// Makes a gap of at least `count` items between those that are written and those that are left, and
/// returns where the latter begin then.
#[inline(always)]
fn make_room<T: Copy>(
    items: &mut Vec<T>,
    written: usize,
    left: usize,
    count: usize,
    filler: T,
) -> Result<usize, AllocError>
    requires gap { written ≤ left }
    requires left { left ≤ vec_len items.old }
    ensures wide { IfOk result (λ begin. written + count ≤ begin) }
    ensures within { IfOk result (λ begin. begin ≤ vec_len items.new) }
    ensures written { OnOk result (take written items.new.items ≡ take written items.old.items) }
    ensures left { IfOk result (λ begin. drop begin items.new.items ≡ drop left items.old.items) }
    ensures length { vec_len items.old ≤ vec_len items.new }
{
    if count <= left - written {
        Ok(left)
    } else {
        widen(items, left, count, filler)
    }
}

/// Moves what is left back by at least `missing` items, and returns where it begins then. The gap is
/// filled with copies of an item first.
#[cold]
#[inline(never)]
fn widen<T: Copy>(
    items: &mut Vec<T>,
    left: usize,
    missing: usize,
    filler: T,
) -> Result<usize, AllocError>
    requires { left ≤ vec_len items.old }
    ensures wide { IfOk result (λ begin. left + missing ≤ begin) }
    ensures within { IfOk result (λ begin. begin ≤ vec_len items.new) }
    ensures written { OnOk result (take left items.new.items ≡ take left items.old.items) }
    ensures left { IfOk result (λ begin. drop begin items.new.items ≡ drop left items.old.items) }
    ensures length { vec_len items.old ≤ vec_len items.new }
{
    let length = items.len();
    // an eighth of what there is, so that a list that grows is moved a few times only
    let more = missing.max(length / 8).max(LEAST);
    items.reserve(more)?;
    let room = items.capacity() - length;
    let by = more.min(room);
    items.resize(length + by, filler)?;
    items.copy_within(left..length, left + by);
    Ok(left + by)
}
