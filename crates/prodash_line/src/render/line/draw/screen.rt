//! Where frames are written to.
ghost use Rattle.std.specs.Prelude.{◌≡◌, ◌<◌, length, is_err, IsTrue, IfOk, IsOkUnless, OnOk, OnErr};
ghost use Rattle.prodash_line.specs.Screens.{ScreenState, Takes, TakesPrefix, StaysBroken, IsFlushed, WritesFrame, BreaksDuring};

use prodash_base::Refusal;

/// A sink for the bytes of frames. Once broken, it stays broken and takes no more bytes.
///
/// A screen that hands another one at most 16 bytes at a time:
///
/// ```rust
/// struct SlowScreen {
///     inner: MemoryScreen,
/// }
///
/// impl Screen for SlowScreen {
///     ghost use Rattle.prodash_line.specs.Screens.{ScreenState};
///
///     ghost state = { λ s. record {
///       bytes = s.inner.bytes;
///       flushed = s.inner.bytes;
///       broken = s.inner.broken;
///     } };
///
///     fn put(&mut self, bytes: &[u8]) -> Result<usize, Refusal> {
///         let count = bytes.len().min(16);
///         self.inner.put(&bytes[..count])
///     }
///
///     fn flush(&mut self) -> Result<(), Refusal> {
///         self.inner.flush()
///     }
///
///     fn is_broken(&self) -> bool {
///         self.inner.is_broken()
///     }
/// }
/// ```
pub trait Screen {
    /// The bytes taken so far, those flushed so far, and whether the screen is broken.
    ghost state: { Self → ScreenState };

    /// Takes a prefix of the bytes and returns its length, at least 1 if there are any bytes.
    ///
    /// `Broken`: the screen is broken. It has taken a prefix of the bytes, and none of them if it
    /// was broken before.
    fn put(&mut self, bytes: &[u8]) -> Result<usize, Refusal>
        ensures ok { IfOk result (Takes bytes.now (state self.old) (state self.new)) }
        ensures some { IfOk result (λ n. 0 < length bytes.now → 0 < n) }
        ensures err { OnErr result
            (TakesPrefix bytes.now (state self.old).bytes (state self.new).bytes) }
        ensures reason { IsOkUnless result Refusal.Broken }
        ensures exact { is_err result ≡ (state self.new).broken }
        ensures stays { StaysBroken (state self.old) (state self.new) };

    /// Flushes all bytes taken so far.
    ///
    /// `Broken`: the screen is broken, and the bytes taken may not have been flushed.
    fn flush(&mut self) -> Result<(), Refusal>
        ensures same { (state self.new).bytes ≡ (state self.old).bytes }
        ensures flushed { OnOk result (IsFlushed (state self.new)) }
        ensures reason { IsOkUnless result Refusal.Broken }
        ensures exact { is_err result ≡ (state self.new).broken }
        ensures stays { StaysBroken (state self.old) (state self.new) };

    /// Returns whether the screen is broken.
    fn is_broken(&self) -> bool
        ensures { result ≡ (state self.now).broken };
}

/// The most bytes per `put`.
const PIECE_SIZE: usize = 4096;

/// Writes all bytes of a frame to the screen, in pieces of at most 4096 bytes, and flushes them. If
/// a piece was taken in part, the next one begins after that part. A frame without bytes does
/// nothing to the screen.
///
/// `Broken`: the screen is broken. It has taken a prefix of the frame.
pub fn write_frame<S: Screen>(screen: &mut S, frame: &[u8]) -> Result<(), Refusal>
    ensures ok { OnOk result (WritesFrame frame.now (S.state screen.old) (S.state screen.new)) }
    ensures err { OnErr result (BreaksDuring frame.now (S.state screen.old) (S.state screen.new)) }
    ensures reason { IsOkUnless result Refusal.Broken }
{
    if frame.is_empty() {
        return Ok(());
    }
    let mut done = 0;
    while done < frame.len() {
        let size = (frame.len() - done).min(PIECE_SIZE);
        done += screen.put(&frame[done..done + size])?;
    }
    screen.flush()
}
