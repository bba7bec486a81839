//! Lines of a stream of bytes.
ghost use Rattle.std.specs.Prelude.{◌≡◌, ◌≤◌, ◌-◌, [], None, Ok, drop, slice_range, vec_len, length, IfOk, OnErr, if◌then◌else◌};
ghost use Rattle.prodash_script.specs.declared.next.Next.TheVariants.{Line, TooLong};
ghost use Rattle.std.specs.Option.{option_map_or};
ghost use Rattle.prodash_script.specs.Streams.{Advances, LinesOf, TakesWaiting, has_line_feed};
ghost use Rattle.prodash_script.specs.plumbing.Streams.{EndsAs, Extends, Fills, FindsLineFeed, Holds, TakesPart, TakesWhole};
ghost use Rattle.prodash_script.specs.declared.next.TheConstants.{LIMIT};
ghost use Rattle.prodash_script.specs.declared.stream.TheConstants.{CHUNK};

use crate::next::{LIMIT, Next};
use crate::part::Part;
use memchr::memchr;
use std::alloc::{AllocError, Global};
use std::io::{ErrorKind, Read};
use std::marker::Model;
use std::{io, mem};

/// The maximum number of bytes that are read at a time.
const CHUNK: usize = 0x4000;

/// Reads lines, and keeps only the latest.
///
/// ```rust
/// let mut lines = Lines::new(alloc, stream);
/// while lines.advance()? == Next::Line {
///     print(lines.line())?;
/// }
/// ```
#[derive(Drop)]
pub struct Lines<I: Read + Drop> {
    alloc: Global,
    input: I,
    chunk: [u8; CHUNK],
    at: usize,
    end: usize,
    /// Where the latest line lies in the chunk, if it is there as a whole.
    place: Option<Place>,
    /// The latest line otherwise.
    line: Part,
}

impl<I: Read + Drop> Model for Lines<I> {
    ghost Value = { LinesOf };

    ghost view = { λ s. record {
      latest = option_map_or (λ p. slice_range s.chunk p.from p.to) s.place s.line.bytes.items;
      waiting = slice_range s.chunk s.at s.end;
      to_come = I.Read.remaining s.input;
    } };

    ghost invariant = { λ s. (s.at ≤ s.end) × (s.end ≤ CHUNK) };
}

/// Where a line begins and ends in the chunk.
#[derive(Clone, Copy)]
struct Place {
    from: usize,
    to: usize,
    ghost ordered: { from ≤ to },
    ghost inside: { to ≤ CHUNK },
}

impl Part {
    fn new(alloc: Global) -> Part
        ensures { Holds result [] }
    {
        Part {
            bytes: Vec::new(alloc),
            is_too_long: false,
        }
    }

    /// Returns what a line is that ends with this part.
    fn outcome(&self) -> Next
        ensures { result ≡ if self.now.is_too_long then TooLong else Line }
    {
        if self.is_too_long {
            Next::TooLong
        } else {
            Next::Line
        }
    }

    /// Returns what this part is if the stream ends after it.
    fn outcome_at_end(&self) -> Next
        ensures { EndsAs self.now result }
    {
        if self.is_too_long || !self.bytes.is_empty() {
            Next::CutOff
        } else {
            Next::End
        }
    }

    fn clear(&mut self)
        ensures { Holds self.new [] }
    {
        self.bytes.clear();
        self.is_too_long = false;
    }

    /// Appends bytes, unless the line becomes too long.
    fn push(&mut self, bytes: &[u8]) -> Result<(), AllocError>
        ensures { IfOk result (λ _. Extends self.old self.new bytes.now) }
    {
        if self.is_too_long || bytes.len() > LIMIT.saturating_sub(self.bytes.len()) {
            self.is_too_long = true;
            return Ok(());
        }
        self.bytes.extend_from_slice(bytes)
    }

    /// Appends bytes up to the line feed. Returns how many it took, and whether the line ends.
    fn extend_to_line_feed(&mut self, bytes: &[u8]) -> Result<(usize, bool), AllocError>
        ensures count { IfOk result (λ taken. taken.0 ≤ length bytes.now) }
        ensures part { IfOk result (λ r.
            TakesPart bytes.now r.1 (drop r.0 bytes.now) self.old self.new) }
    {
        match find_line_feed(bytes) {
            Some(n) => {
                self.push(&bytes[..n])?;
                Ok((n + 1, true))
            }
            None => {
                self.push(bytes)?;
                Ok((bytes.len(), false))
            }
        }
    }
}

/// Returns where the first line feed is.
fn find_line_feed(bytes: &[u8]) -> Option<usize>
    ensures { FindsLineFeed bytes.now result }
{
    memchr(b'\n', bytes)
}

impl<I: Read + Drop> Lines<I> {
    /// Returns the lines of a stream, of which nothing is read yet.
    pub fn new(alloc: Global, input: I) -> Lines<I>
        ensures { result ≡ record {
          latest = [];
          waiting = [];
          to_come = I.Read.remaining input;
        } }
    {
        Lines {
            alloc,
            input,
            chunk: [0; CHUNK],
            at: 0,
            end: 0,
            place: None,
            line: Part::new(alloc),
        }
    }

    /// Returns the bytes of the latest line, without its line feed.
    pub fn line(&self) -> &[u8]
        ensures bytes { result.now ≡ self.now.latest }
        ensures short { length result.now ≤ LIMIT }
    {
        match self.place {
            Some(Place { from, to }) => &self.chunk[from..to],
            None => self.line.bytes.as_slice(),
        }
    }

    /// Returns whether the next line has been read whole, so that `advance` doesn't wait for it.
    pub fn has_line(&self) -> bool
        ensures { result ≡ has_line_feed self.now.waiting }
    {
        find_line_feed(&self.chunk[self.at..self.end]).is_some()
    }

    /// Reads up to the end of the next line. Without a line feed what ends the stream is no line,
    /// but `CutOff`.
    ///
    /// # Errors
    ///
    /// That of the read that failed, `OutOfMemory`, or `Interrupted` after 2^64 - 1 reads without a
    /// line feed. What it took of the line is dropped.
    pub fn advance(&mut self) -> io::Result<Next>
        ensures reads { Advances self.old result self.new }
        ensures at_once { TakesWaiting self.old result self.new }
    {
        if self.take_whole() {
            return Ok(Next::Line);
        }
        let mut line = mem::replace(&mut self.line, Part::new(self.alloc));
        let next = self.read_line(&mut line);
        self.place = None;
        self.line = line;
        next
    }

    /// Takes the next line if it lies in the chunk as a whole, where it is left. Returns whether it
    /// does.
    fn take_whole(&mut self) -> bool
        ensures { TakesWhole self.old result self.new }
    {
        let Some(count) = find_line_feed(&self.chunk[self.at..self.end]) else {
            return false;
        };
        let (from, to) = (self.at, self.at + count);
        self.place = Some(Place { from, to });
        self.at = to + 1;
        true
    }

    /// Reads up to the end of the next line, of which `line` then has what is kept.
    fn read_line(&mut self, line: &mut Part) -> io::Result<Next>
        ensures { Advances self.old result (record self.new { latest = line.new.bytes.items }) }
    {
        line.clear();
        for _ in 0..u64::MAX {
            if !self.fill()? {
                return Ok(line.outcome_at_end());
            }
            if self.take_part(line)? {
                return Ok(line.outcome());
            }
        }
        Err(ErrorKind::Interrupted.into())
    }

    /// Reads more bytes, if all are taken. Returns whether the stream may have more; a call that
    /// was interrupted has read none.
    fn fill(&mut self) -> io::Result<bool>
        ensures { Fills self.old result self.new }
    {
        if self.at < self.end {
            return Ok(true);
        }
        self.at = 0;
        self.end = 0;
        match self.input.read(&mut self.chunk) {
            Ok(count) => {
                self.end = count;
                Ok(count > 0)
            }
            Err(error) if error.kind() == ErrorKind::Interrupted => Ok(true),
            Err(error) => Err(error),
        }
    }

    /// Takes bytes up to the line feed. Returns whether there is one.
    fn take_part(&mut self, line: &mut Part) -> Result<bool, AllocError>
        ensures ok { IfOk result (λ r.
            TakesPart self.old.waiting r self.new.waiting line.old line.new) }
        ensures err { OnErr result (self.new ≡ self.old) }
        ensures to_come { self.new.to_come ≡ self.old.to_come }
    {
        let (count, is_whole) = line.extend_to_line_feed(&self.chunk[self.at..self.end])?;
        self.at += count;
        Ok(is_whole)
    }
}
