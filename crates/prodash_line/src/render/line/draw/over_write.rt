//! A screen that wraps a writer.
ghost use Rattle.std.specs.Prelude.{◌≡◌, ◌<◌, ◌∷◌, length, is_ok, is_err, IsTrue, IsFalse, IfOk, IsOkUnless, OnOk, OnErr};
ghost use Rattle.prodash_line.specs.Screens.{Takes, TakesPrefix, StaysBroken, IsFlushed};
ghost use Rattle.prodash_line.specs.Writers.{Flush, WritesOnce, screen_of};

mod calls;
mod traced_write;
mod writer;

use crate::render::line::draw::screen::Screen;
use prodash_base::Refusal;
pub use traced_write::TracedWrite;
pub use writer::OverWrite;

impl<W: TracedWrite> Screen for OverWrite<W> {
    ghost state = { screen_of W.contents };

    fn put(&mut self, bytes: &[u8]) -> Result<usize, Refusal>
        ensures ok { IfOk result
            (Takes bytes.now (screen_of W.contents self.old) (screen_of W.contents self.new)) }
        ensures some { IfOk result (λ n. 0 < length bytes.now → 0 < n) }
        ensures err { OnErr result (TakesPrefix bytes.now
            (screen_of W.contents self.old).bytes (screen_of W.contents self.new).bytes) }
        ensures reason { IsOkUnless result Refusal.Broken }
        ensures exact { is_err result ≡ (screen_of W.contents self.new).broken }
        ensures stays { StaysBroken
            (screen_of W.contents self.old) (screen_of W.contents self.new) }

        // It calls its writer once. If it is broken it doesn't call it.
        ensures call { IsFalse (screen_of W.contents self.old).broken
            → WritesOnce bytes.now result self.old.calls self.new.calls }
        ensures idle { IsTrue (screen_of W.contents self.old).broken → self.new ≡ self.old }
        ensures made_with { self.new.made_with ≡ self.old.made_with }
    {
        if self.has_failed() {
            return Err(Refusal::Broken);
        }
        match self.write(bytes) {
            Ok(count) if !self.has_failed() => Ok(count),
            _ => Err(Refusal::Broken),
        }
    }

    fn flush(&mut self) -> Result<(), Refusal>
        ensures same { (screen_of W.contents self.new).bytes
            ≡ (screen_of W.contents self.old).bytes }
        ensures flushed { OnOk result (IsFlushed (screen_of W.contents self.new)) }
        ensures reason { IsOkUnless result Refusal.Broken }
        ensures exact { is_err result ≡ (screen_of W.contents self.new).broken }
        ensures stays { StaysBroken
            (screen_of W.contents self.old) (screen_of W.contents self.new) }

        // It calls its writer once. If it is broken it doesn't call it.
        ensures call { IsFalse (screen_of W.contents self.old).broken
            → self.new.calls ≡ Flush (is_ok result) ∷ self.old.calls }
        ensures idle { IsTrue (screen_of W.contents self.old).broken → self.new ≡ self.old }
        ensures made_with { self.new.made_with ≡ self.old.made_with }
    {
        if self.has_failed() || self.flush_writer().is_err() {
            return Err(Refusal::Broken);
        }
        Ok(())
    }

    fn is_broken(&self) -> bool {
        self.has_failed()
    }
}
