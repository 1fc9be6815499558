//! Bytes put to a stream of the system.

ghost use Rattle.std.specs.Prelude.{◌≡◌, ◌≢◌, ◌≤◌, ◌<◌, ℕ, None, Ok, IfOk, OnErr, length, take};
ghost use Rattle.std.specs.Io.{WritesAtMost};
ghost use Rattle.std.specs.Io.KnownBytes.{Appends, Keeps};
ghost use Rattle.edge_io.specs.Faults.{HasCause};
ghost use Rattle.edge_io.specs.Counts.{raised};

use crate::sink::{Failed, Sink};
use std::io;
use std::io::{ErrorKind, Write};
use std::marker::Model;

/// A stream of the system, as standard output, of which nothing is told. Contracts see the stream and the count of faults.
#[derive(Drop)]
pub struct OutSink<W: Write + Drop> {
    out: W,
    faults: u64,
}

impl<W: Write + Drop> Model for OutSink<W> {
    ghost use Rattle.std.specs.Prelude.{ℕ};

    ghost Value = { W × ℕ };

    ghost view = { λ s. (s.out, s.faults) };
}

impl<W: Write + Drop> OutSink<W> {
    /// A sink over a stream. It has had no fault.
    pub fn new(out: W) -> OutSink<W>
        ensures { result ≡ (out, 0) }
    {
        OutSink { out, faults: 0 }
    }
}

/// One write, tried again where a signal interrupts it.
fn write_again<W: Write>(out: &mut W, piece: &[u8]) -> io::Result<usize>
    ensures bound { WritesAtMost result piece.now }
    ensures taken { IfOk result (λ n. Appends (W.contents out.old) (W.contents out.new) (take n piece.now)) }
    ensures refused { OnErr result (Keeps (W.contents out.old) (W.contents out.new)) }
{
    for _ in 0..u64::MAX {
        match out.write(piece) {
            Ok(count) => return Ok(count),
            Err(error) if error.kind() == ErrorKind::Interrupted => {}
            Err(error) => return Err(error),
        }
    }
    Err(io::Error::from(ErrorKind::Interrupted))
}

/// Writes a piece, and answers how many bytes the stream took before it took no more or failed.
fn write_front<W: Write>(out: &mut W, piece: &[u8]) -> usize
    ensures short { result ≤ length piece.now }
    ensures front { Appends (W.contents out.old) (W.contents out.new) (take result piece.now) }
{
    let mut at = 0;
    while at < piece.len() {
        match write_again(out, &piece[at..]) {
            Ok(count) if count > 0 => at += count,
            _ => break,
        }
    }
    at
}

impl<W: Write + Drop> Sink for OutSink<W> {
    ghost written = { λ _. None };

    ghost faults = { λ s. s.1 };

    /// Writes the piece and flushes. A write that the stream refuses, one that takes nothing, and a flush that fails
    /// are faults; what was written before a refused write is answered.
    fn put(&mut self, piece: &[u8]) -> Result<usize, Failed>
        ensures empty { length piece.now ≡ 0 → (result ≡ Ok 0) × (self.new ≡ self.old) }
        ensures taken { IfOk result (λ n. (n ≤ length piece.now) × (0 < length piece.now → 0 < n)) }
        ensures streamed { IfOk result (λ n. Appends (W.contents self.old.0) (W.contents self.new.0) (take n piece.now)) }
        ensures front { OnErr result ((n : ℕ) × (n ≤ length piece.now)
            × Appends (W.contents self.old.0) (W.contents self.new.0) (take n piece.now)) }
        ensures whole { result ≡ Ok (length piece.now) → self.new.1 ≡ self.old.1 }
        ensures raised { result ≢ Ok (length piece.now) → self.new.1 ≡ raised self.old.1 }
        ensures cause { HasCause self.old.1 self.new.1 result }
    {
        if piece.is_empty() {
            return Ok(0);
        }
        let count = write_front(&mut self.out, piece);
        let is_flushed = self.out.flush().is_ok();
        if count < piece.len() || !is_flushed {
            self.faults = self.faults.saturating_add(1);
        }
        if count == 0 || !is_flushed {
            return Err(Failed);
        }
        Ok(count)
    }
}
