//! Sources and sinks in memory, whose calls fail where a list says so. Their contracts tell all that a call does, so
//! that a caller can know what a run will do.
ghost use Rattle.std.specs.Io.{ReadsAtMost, WritesAtMost};
ghost use Rattle.std.specs.Io.KnownBytes.{ReadConsumes, WriteAppends};
ghost use Rattle.fcg_bytes.specs.Causes.{HasCause};
ghost use Rattle.fcg_bytes.specs.Objects.{aside_of_none, count_given, after_read, after_failed_read, after_write, after_failed_write};
ghost use Rattle.std.specs.Prelude.{◌≡◌, ◌↔◌, ◌≤◌, ◌<◌, ◌+◌, ◌-◌, ◌++◌, ◌⊎◌, [], length, take, drop, min, IfOk, IsErr, Some, Contains, max, MatchResult};

use crate::{Failed, Sink, Source};
use fcg_views::NoMemory;
use std::alloc::Global;
use std::marker::Model;

/// Bytes to read in pieces, for tests of what reads. A call costs the bytes that it gives and the length of the list of
/// calls that fail.
#[derive(Drop)]
pub struct MemorySource {
    bytes: Vec<u8>,
    at: usize,
    piece: usize,
    fail: Vec<u64>,
    calls: u64,
    faults: u64,
}

impl Model for MemorySource {
    ghost use Rattle.std.specs.Prelude.{◌≤◌, drop, vec_len, ◌<◌};
    ghost use Rattle.fcg_bytes.specs.Objects.{SourceState};

    ghost Value = { SourceState };

    ghost view = { λ s. record {
      left = drop s.at s.bytes.items;
      faults = s.faults;
      calls = s.calls;
      piece = s.piece;
      fail = s.fail.items;
    } };

    ghost invariant = { λ s. (s.at ≤ vec_len s.bytes) × (0 < s.piece) };
}

impl MemorySource {
    /// A source of these bytes that gives at most `piece` bytes a call, where 0 counts as 1, and fails at the calls
    /// whose numbers stand in `fail`. Calls are numbered from 0 up to the last `u64`, which is the number of every
    /// call from there on.
    pub fn new(bytes: Vec<u8>, piece: usize, fail: Vec<u64>) -> MemorySource
        ensures { result ≡ record { left = bytes.items; faults = 0; calls = 0; piece = max piece 1; fail = fail.items } }
    {
        MemorySource {
            bytes,
            at: 0,
            piece: piece.max(1),
            fail,
            calls: 0,
            faults: 0,
        }
    }
}

// Puts the next bytes into the front of the buffer, and says how many.
fn give(bytes: &[u8], at: usize, piece: usize, buf: &mut [u8]) -> usize
    requires at { at ≤ length bytes.now }
    requires piece { 0 < piece }
    ensures count { result ≡ min piece (min (length buf.old) (length (drop at bytes.now))) }
    ensures within { at + result ≤ length bytes.now }
    ensures bound { (result ≤ length buf.new) × (result ≡ length (take result buf.new)) }
    ensures buffer { buf.new ≡ take result (drop at bytes.now) ++ drop result buf.old }
    ensures bytes { drop at bytes.now ≡ take result buf.new ++ drop (at + result) bytes.now }
    ensures some { result ≡ 0 → 0 < length buf.new → drop (at + result) bytes.now ≡ [] }
{
    let (_, left) = bytes.split_at(at);
    let count = piece.min(buf.len().min(left.len()));
    let (front, _) = left.split_at(count);
    let (target, _) = buf.split_at_mut(count);
    target.copy_from_slice(front);
    count
}

impl Source for MemorySource {
    ghost left = { λ s. Some s.left };

    ghost faults = { λ s. s.faults };

    ghost aside = { λ _. aside_of_none };

    fn read(&mut self, buf: &mut [u8]) -> Result<usize, Failed>
        ensures bound { ReadsAtMost result buf.new }
        ensures bytes { ReadConsumes (Some self.old.left) (Some self.new.left) result buf.new }
        ensures cause { HasCause self.old.faults self.new.faults result }

        // It fails at the calls that the list names, and at no other.
        ensures fails { IsErr result ↔ Contains self.old.fail self.old.calls }
        ensures given { IfOk result (λ n. n ≡ count_given self.old (length buf.old)) }
        ensures buffer { MatchResult result (λ n. buf.new ≡ take n self.old.left ++ drop n buf.old)
            (λ _. buf.new ≡ buf.old) }
        ensures state { MatchResult result (λ n. self.new ≡ after_read self.old n)
            (λ _. self.new ≡ after_failed_read self.old) }
    {
        let call = self.calls;
        self.calls = self.calls.saturating_add(1);
        if self.fail.contains(&call) {
            self.faults = self.faults.saturating_add(1);
            return Err(Failed);
        }
        let count = give(&self.bytes, self.at, self.piece, buf);
        self.at += count;
        Ok(count)
    }
}

/// Bytes that were written, up to a number that is fixed at first, for tests of what writes. A write takes all of its
/// bytes, or fails and takes none. It costs those bytes and the length of the list of calls that fail.
#[derive(Drop)]
pub struct MemorySink {
    bytes: Vec<u8>,
    room: usize,
    fail: Vec<u64>,
    calls: u64,
    faults: u64,
}

impl Model for MemorySink {
    ghost use Rattle.std.specs.Prelude.{◌≤◌, ◌+◌, vec_len, vec_capacity};
    ghost use Rattle.fcg_bytes.specs.Objects.{SinkState};

    ghost Value = { SinkState };

    ghost view = { λ s. record { taken = s.bytes.items; room = s.room; faults = s.faults; calls = s.calls; fail = s.fail.items } };

    ghost invariant = { λ s. vec_len s.bytes + s.room ≤ vec_capacity s.bytes };
}

impl MemorySink {
    /// A sink with room for `room` bytes, which fails at the calls whose numbers stand in `fail`, and at a call whose
    /// bytes don't fit in the room that is left. Calls are numbered from 0 up to the last `u64`, which is the number of
    /// every call from there on. The room is made here, so that no write takes memory: `NoMemory` comes where there is
    /// none for it.
    pub fn new(alloc: Global, room: usize, fail: Vec<u64>) -> Result<MemorySink, NoMemory>
        ensures { IfOk result (λ sink. sink ≡ record { taken = []; room = room; faults = 0; calls = 0; fail = fail.items }) }
    {
        let bytes = Vec::with_capacity(alloc, room)?;
        Ok(MemorySink {
            bytes,
            room,
            fail,
            calls: 0,
            faults: 0,
        })
    }

    /// The bytes that it took.
    pub fn bytes(&self) -> &[u8]
        ensures { result.now ≡ self.now.taken }
    {
        &self.bytes
    }
}

impl Sink for MemorySink {
    ghost taken = { λ s. Some s.taken };

    ghost faults = { λ s. s.faults };

    ghost aside = { λ _. aside_of_none };

    fn write(&mut self, bytes: &[u8]) -> Result<usize, Failed>
        ensures bound { WritesAtMost result bytes.now }
        ensures some { IfOk result (λ n. 0 < length bytes.now → 0 < n) }
        ensures bytes { WriteAppends (Some self.old.taken) (Some self.new.taken) result bytes.now }
        ensures cause { HasCause self.old.faults self.new.faults result }

        // It fails at the calls that the list names and where the bytes don't fit, and at no other.
        ensures fails { IsErr result ↔ (Contains self.old.fail self.old.calls ⊎ (self.old.room < length bytes.now)) }
        ensures whole { IfOk result (λ n. n ≡ length bytes.now) }
        ensures state { MatchResult result (λ _. self.new ≡ after_write self.old bytes.now)
            (λ _. self.new ≡ after_failed_write self.old) }
    {
        let call = self.calls;
        self.calls = self.calls.saturating_add(1);
        if self.fail.contains(&call) || bytes.len() > self.room {
            self.faults = self.faults.saturating_add(1);
            return Err(Failed);
        }
        self.bytes.extend_from_slice(bytes).unwrap();
        self.room -= bytes.len();
        Ok(bytes.len())
    }
}
