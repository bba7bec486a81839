//! A screen in memory.
ghost use Rattle.std.specs.Prelude.{◌≡◌, ◌<◌, [], false, length, is_err, IfOk, OnErr, IsOkUnless};
ghost use Rattle.prodash_line.specs.Screens.{Takes, TakesPrefix, StaysBroken, FitsRoom, memory_state};

use crate::render::line::draw::screen::Screen;
use prodash_base::Refusal;
use std::alloc::Global;
use std::marker::Model;

/// A screen that collects bytes in memory. Never breaks within its capacity; beyond it, the screen
/// breaks if memory runs out.
///
/// ```rust
/// let mut screen = MemoryScreen::new(alloc, 4096)?;
/// let count = screen.put(b"ab\n")?;
/// // All three bytes are taken.
/// let bytes = screen.bytes();
/// ```
#[derive(Debug, Drop)]
pub struct MemoryScreen {
    bytes: Vec<u8>,
    room: usize,
    broken: bool,
}

impl Model for MemoryScreen {
    ghost use Rattle.std.specs.Prelude.{◌≤◌, vec_capacity};
    ghost use Rattle.prodash_line.specs.Screens.{MemoryScreenState};

    ghost Value = { MemoryScreenState };

    ghost view = { λ s. record { bytes = s.bytes.items; room = s.room; broken = s.broken } };

    ghost invariant = { λ s. s.room ≤ vec_capacity s.bytes };
}

impl MemoryScreen {
    /// Returns an empty screen with a capacity of `room` bytes.
    ///
    /// `Memory`: out of memory.
    pub fn new(alloc: Global, room: usize) -> Result<MemoryScreen, Refusal>
        ensures ok { IfOk result (λ s. s ≡ record { bytes = []; room = room; broken = false }) }
        ensures reason { IsOkUnless result Refusal.Memory }
    {
        Ok(MemoryScreen {
            bytes: Vec::with_capacity(alloc, room)?,
            room,
            broken: false,
        })
    }

    /// Returns the bytes taken so far.
    pub fn bytes(&self) -> &[u8]
        ensures { result.now ≡ self.now.bytes }
    {
        &self.bytes
    }
}

impl Screen for MemoryScreen {
    ghost state = { memory_state };

    fn put(&mut self, bytes: &[u8]) -> Result<usize, Refusal>
        ensures ok { IfOk result
            (Takes bytes.now (memory_state self.old) (memory_state self.new)) }
        ensures some { IfOk result (λ n. 0 < length bytes.now → 0 < n) }
        ensures err { OnErr result (TakesPrefix bytes.now self.old.bytes self.new.bytes) }
        ensures reason { IsOkUnless result Refusal.Broken }
        ensures exact { is_err result ≡ self.new.broken }
        ensures stays { StaysBroken (memory_state self.old) (memory_state self.new) }
        ensures room { self.new.room ≡ self.old.room }

        // It takes all bytes, unless it breaks.
        ensures whole { IfOk result (λ n. n ≡ length bytes.now) }

        // It doesn't break if the bytes fit within its capacity.
        ensures fits { FitsRoom bytes.now self.old → self.new.broken ≡ self.old.broken }
    {
        if self.broken || self.bytes.extend_from_slice(bytes).is_err() {
            self.broken = true;
            return Err(Refusal::Broken);
        }
        Ok(bytes.len())
    }

    fn flush(&mut self) -> Result<(), Refusal>
        ensures unchanged { self.new ≡ self.old }
        ensures reason { IsOkUnless result Refusal.Broken }
        ensures exact { is_err result ≡ self.new.broken }
    {
        if self.broken {
            Err(Refusal::Broken)
        } else {
            Ok(())
        }
    }

    fn is_broken(&self) -> bool {
        self.broken
    }
}
