//! Writers of which contracts see each call.
ghost use Rattle.std.specs.Prelude.{◌≡◌, is_ok};
ghost use Rattle.std.specs.Result.{result_ok};
ghost use Rattle.std.specs.Io.{WritesAtMost};
ghost use Rattle.std.specs.Io.KnownBytes.{WriteAppends, Keeps};
ghost use Rattle.prodash_line.specs.Writers.{Write, Flush};

use std::io;

/// A writer of which contracts see each call. Each [`io::Write`] is one.
///
/// What a call led to is known only of the calls of this trait. So code that has no other bound of
/// a writer's can make no call that its contract doesn't name.
pub trait TracedWrite {
    ghost use Rattle.std.specs.Prelude.{ℕ, List, Option};
    ghost use Rattle.prodash_line.specs.Writers.{WriterCall};

    /// The bytes that the writer holds, where they are known.
    ghost contents: { Self → Option (List ℕ) };

    /// The call was made on the one writer, and led to the other.
    ghost leads: { Self → WriterCall → Self → Type 0 };

    /// Writes bytes once, as [`io::Write::write`] does.
    fn traced_write(&mut self, bytes: &[u8]) -> io::Result<usize>
        ensures bound { WritesAtMost result bytes.now }
        ensures bytes { WriteAppends (contents self.old) (contents self.new) result bytes.now }
        ensures call { leads self.old (Write bytes.now (result_ok result)) self.new };

    /// Flushes once, as [`io::Write::flush`] does.
    fn traced_flush(&mut self) -> io::Result<()>
        ensures bytes { Keeps (contents self.old) (contents self.new) }
        ensures call { leads self.old (Flush (is_ok result)) self.new };
}

impl<W: io::Write> TracedWrite for W {
    ghost contents = { W.contents };

    ghost leads = { λ _ call after. Unit {0} };

    fn traced_write(&mut self, bytes: &[u8]) -> io::Result<usize> {
        self.write(bytes)
    }

    fn traced_flush(&mut self) -> io::Result<()> {
        self.flush()
    }
}
