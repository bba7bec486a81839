//! A writer with the list of the calls made on it.
ghost use Rattle.std.specs.Prelude.{◌≡◌, [], ◌∷◌, is_ok};
ghost use Rattle.std.specs.Result.{result_ok};
ghost use Rattle.std.specs.Io.{WritesAtMost};
ghost use Rattle.prodash_line.specs.Writers.{Write, Flush, HoldsTaken, screen_of};

use super::calls::{Call, Calls};
use super::traced_write::TracedWrite;
use std::fmt::{self, Debug, Formatter};
use std::io;
use std::marker::Model;
use std::snapshot::Snapshot;

/// A screen that wraps any writer. Each `put` is one write of its bytes, and each `flush` one
/// flush. The screen breaks if such a call returns an error of any kind, even `Interrupted`, or if
/// a write takes none of its bytes. Nothing else breaks it. Once broken, it never calls the writer
/// again.
///
/// ```rust
/// let mut screen = OverWrite::new(Vec::new(alloc));
/// let count = screen.put(b"ab\n")?;
/// screen.flush()?;
/// // All three bytes are in the list.
/// let bytes = screen.into_inner();
/// ```
#[derive(Drop)]
pub struct OverWrite<W: TracedWrite> {
    writer: W,
    /// The writer as it was when the screen was made.
    made_with: Snapshot<W>,
    /// The calls made on the writer since.
    calls: Calls,
    /// Whether one of them failed.
    failed: bool,
}

impl<W: TracedWrite> Model for OverWrite<W> {
    ghost use Rattle.std.specs.Prelude.{◌≡◌};
    ghost use Rattle.prodash_line.specs.Writers.{OverWriteState, Holds, Leads, screen_after};

    ghost Value = { OverWriteState W };

    ghost view = { λ s. record {
      writer = s.writer;
      made_with = s.made_with.value;
      calls = s.calls.made;
    } };

    ghost invariant = { λ s.
        Leads W.leads s.made_with.value s.calls.made s.writer
        × (s.failed ≡ (screen_after (W.contents s.made_with.value) s.calls.made).broken)
        × Holds (W.contents s.made_with.value) (W.contents s.writer)
        (screen_after (W.contents s.made_with.value) s.calls.made).bytes };
}

impl<W: TracedWrite> OverWrite<W> {
    /// Returns a screen over the writer. If the bytes that the writer holds are known, as those of
    /// a list are, the screen counts them as taken.
    pub fn new(writer: W) -> OverWrite<W>
        ensures { result ≡ record { writer = writer; made_with = writer; calls = [] } }
    {
        let made_with = Snapshot::of(&writer);
        OverWrite {
            writer,
            made_with,
            calls: Calls::new(),
            failed: false,
        }
    }

    /// Returns the writer. If the bytes that it held were known when the screen was made, it holds
    /// those that the screen has taken.
    pub fn into_inner(self) -> W
        ensures writer { result ≡ self.writer }
        ensures bytes { HoldsTaken W.contents self result }
    {
        let OverWrite { writer, .. } = self;
        writer
    }

    /// Hands the bytes to the writer once, and adds that call to the list.
    pub(crate) fn write(&mut self, bytes: &[u8]) -> io::Result<usize>
        ensures bound { WritesAtMost result bytes.now }
        ensures call { self.new.calls ≡ Write bytes.now (result_ok result) ∷ self.old.calls }
        ensures made_with { self.new.made_with ≡ self.old.made_with }
    {
        let written = self.writer.traced_write(bytes);
        let taken = match &written {
            Ok(count) => Some(*count),
            Err(_) => None,
        };
        self.calls = self.calls.with_call(&Call::Write(bytes, taken));
        match taken {
            Some(count) if count > 0 || bytes.is_empty() => {}
            _ => self.failed = true,
        }
        written
    }

    /// Asks the writer to flush once, and adds that call to the list.
    pub(crate) fn flush_writer(&mut self) -> io::Result<()>
        ensures call { self.new.calls ≡ Flush (is_ok result) ∷ self.old.calls }
        ensures made_with { self.new.made_with ≡ self.old.made_with }
    {
        let flushed = self.writer.traced_flush();
        self.calls = self.calls.with_call(&Call::Flush(flushed.is_ok()));
        if flushed.is_err() {
            self.failed = true;
        }
        flushed
    }

    /// Whether a call on the writer returned an error, or took none of its bytes though there were
    /// some.
    pub(crate) fn has_failed(&self) -> bool
        ensures { result ≡ (screen_of W.contents self.now).broken }
    {
        self.failed
    }
}

impl<W: TracedWrite + Debug> Debug for OverWrite<W> {
    fn fmt<F: fmt::Write>(&self, f: &mut Formatter<F>) -> fmt::Result {
        f.debug_struct("OverWrite")
            .field("writer", &self.writer)
            .field("broken", &self.failed)
            .finish()
    }
}
