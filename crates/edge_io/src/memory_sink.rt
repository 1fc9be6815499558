//! Bytes put to memory.

ghost use Rattle.std.specs.Prelude.{◌≡◌, ◌≤◌, ◌<◌, ◌+◌, ℕ, List, [], Some, IfOk, IsErr, MatchOption, OnErr, min, length};
ghost use Rattle.edge_io.specs.Faults.{HasCause, Puts};
ghost use Rattle.edge_io.specs.Memory.{after_put, next_count};

use crate::failing_calls::fails_next;
use crate::sink::{Failed, Sink};
use std::alloc::{AllocError, Global};
use std::marker::Model;

/// A sink in memory that tells its bytes, takes them in pieces of a chosen size, has room for so many, and fails at
/// the calls of chosen numbers.
#[derive(Drop)]
pub struct MemorySink {
    bytes: Vec<u8>,
    piece: usize,
    room: usize,
    fails: Vec<u32>,
    calls: u64,
    faults: u64,
}

impl Model for MemorySink {
    ghost use Rattle.std.specs.Prelude.{◌≤◌, ◌<◌, vec_capacity, vec_len};
    ghost use Rattle.edge_io.specs.Memory.{MemoryBytes};

    ghost Value = { MemoryBytes };

    ghost view = { λ s.
        record { piece = s.piece; room = s.room; fails = s.fails.items; calls = s.calls; faults = s.faults; written = s.bytes.items } };

    ghost invariant = { λ s. (0 < s.piece) × (s.room ≤ vec_capacity s.bytes) };
}

impl MemorySink {
    /// A sink that takes at most `piece` bytes at once and `room` bytes in all, and fails at the calls of these
    /// numbers. The first put of a piece that has bytes has the number 1. All memory is taken here, and `AllocError` comes for want of it
    /// alone.
    pub fn new(
        alloc: Global,
        piece: usize,
        room: usize,
        fails: Vec<u32>,
    ) -> Result<MemorySink, AllocError>
        requires { 1 ≤ piece }
        ensures { IfOk result (λ s. s ≡ record { piece = piece; room = room; fails = fails.items; calls = 0; faults = 0; written = [] }) }
    {
        let bytes = Vec::with_capacity(alloc, room)?;
        Ok(MemorySink {
            bytes,
            piece,
            room,
            fails,
            calls: 0,
            faults: 0,
        })
    }

    /// The bytes that were put, in order. It takes no memory.
    pub fn bytes(&self) -> &[u8]
        ensures { result.now ≡ self.now.written }
    {
        self.bytes.as_slice()
    }
}

impl Sink for MemorySink {
    ghost written = { λ s. Some s.written };

    ghost faults = { λ s. s.faults };

    /// `Failed` comes exactly where the piece has bytes and the call's number is listed or the room is full. A piece
    /// without bytes changes nothing. It takes no memory.
    fn put(&mut self, piece: &[u8]) -> Result<usize, Failed>
        ensures empty { length piece.now ≡ 0 → (result ≡ Ok 0) × (self.new ≡ self.old) }
        ensures count { 0 < length piece.now → MatchOption (next_count self.old piece.now) (IsErr result) (λ n. result ≡ Ok n) }
        ensures after { 0 < length piece.now → self.new ≡ after_put self.old piece.now }
        ensures puts { IfOk result (Puts (Some self.old.written) piece.now (Some self.new.written)) }
        ensures kept { OnErr result (Some self.new.written ≡ Some self.old.written) }
        ensures cause { HasCause self.old.faults self.new.faults result }
    {
        if piece.is_empty() {
            return Ok(0);
        }
        let is_failing = fails_next(self.fails.as_slice(), self.calls);
        self.calls = self.calls.saturating_add(1);
        if is_failing || self.bytes.len() >= self.room {
            self.faults = self.faults.saturating_add(1);
            return Err(Failed);
        }
        let count = piece
            .len()
            .min(self.piece)
            .min(self.room - self.bytes.len());
        let _ = self.bytes.extend_from_slice(&piece[..count]);
        Ok(count)
    }
}
