//! The entries of an office, with the copies that it has still to give.
ghost use Rattle.std.specs.Prelude.{◌≡◌, ◌≤◌, ◌<◌, ◌+◌, ◌++◌, ◌∷◌, [], length, None, Some, OnOk, drop, slice_get};
ghost use Rattle.std.specs.HashMap.{spare};
ghost use Rattle.fcg_book.specs.Internal.Index.{AreNumbered};
ghost use Rattle.fcg_book.specs.Spelling.{entry_text};
ghost use Rattle.fcg_book.specs.Log.{number_of, bytes_of};

use crate::entry::Entry;
use crate::log::{Log, MOST_STORE_BYTES};
use crate::pending::Pending;
use std::alloc::{AllocError, Global};
use std::collections::{HashMap, VecDeque};
use std::marker::Model;

/// The log of an office, the bytes of its records, and copies of the entries that were not given yet.
#[derive(Drop)]
pub(crate) struct Register {
    log: Log,
    // the entries by their request numbers
    numbers: HashMap<u64, u64>,
    bytes: u64,
    fresh: VecDeque<Entry>,
}

impl Model for Register {
    ghost use Rattle.std.specs.Prelude.{◌-◌};
    ghost use Rattle.std.specs.VecDeque.{deque_len, deque_capacity};
    ghost use Rattle.fcg_book.specs.Internal.Register.{Register as State, IsRegister};

    ghost Value = { State };

    ghost view = { λ r. record { entries = r.log.entries; fresh = r.fresh.items; spare = r.log.spare } };

    ghost invariant = { λ r. IsRegister r.log r.numbers r.bytes r.fresh.items (deque_capacity r.fresh - deque_len r.fresh) };
}

// Adds an entry to a log and to the numbers of its requests.
fn enter_log(log: &mut Log, numbers: &mut HashMap<u64, u64>, entry: Entry)
    requires spare { (0 < log.old.spare) × (0 < spare numbers.old) }
    requires fresh { number_of log.old.entries entry.request ≡ None }
    requires numbered { AreNumbered numbers.old log.old.entries }
    ensures entries { log.new.entries ≡ log.old.entries ++ entry ∷ [] }
    ensures spare { log.new.spare + 1 ≡ log.old.spare }
    ensures numbered { AreNumbered numbers.new log.new.entries }
    ensures number_spare { spare numbers.old ≤ spare numbers.new + 1 }
{
    let number = log.len() + 1;
    let Ok(_) = numbers.insert(entry.request(), number) else {
        unreachable!()
    };
    log.push(entry);
}

impl Register {
    pub(crate) fn new(alloc: Global) -> Register
        ensures { result ≡ record { entries = []; fresh = []; spare = 0 } }
    {
        Register {
            log: Log::new(alloc),
            numbers: HashMap::new(alloc),
            bytes: 0,
            fresh: VecDeque::new(alloc),
        }
    }

    pub(crate) fn log(&self) -> &Log
        ensures { result.now.entries ≡ self.now.entries }
    {
        &self.log
    }

    /// The number of the entry of a request.
    pub(crate) fn number_of(&self, request: u64) -> Option<u64>
        ensures { result ≡ number_of self.now.entries request }
    {
        self.numbers.get(&request).copied()
    }

    /// The bytes of all records.
    pub(crate) fn bytes(&self) -> u64
        ensures bytes { result ≡ bytes_of self.now.entries }
        ensures small { result ≤ MOST_STORE_BYTES }
    {
        self.bytes
    }

    /// Makes room for an entry.
    pub(crate) fn reserve(&mut self) -> Result<(), AllocError>
        ensures entries { self.new.entries ≡ self.old.entries }
        ensures fresh { self.new.fresh ≡ self.old.fresh }
        ensures ok { OnOk result (0 < self.new.spare) }
    {
        self.fresh.reserve(1)?;
        self.numbers.reserve(1)?;
        self.log.reserve(1)?;
        Ok(())
    }

    /// Adds an entry. Takes no memory.
    pub(crate) fn add(&mut self, pending: Pending)
        requires spare { 0 < self.old.spare }
        requires fresh { number_of self.old.entries pending.entry.request ≡ None }
        requires bytes { bytes_of self.old.entries + length (entry_text pending.entry) ≤ MOST_STORE_BYTES }
        ensures entries { self.new.entries ≡ self.old.entries ++ pending.entry ∷ [] }
        ensures fresh { self.new.fresh ≡ self.old.fresh ++ pending.entry ∷ [] }
    {
        let size = pending.row().body.as_slice().len() as u64;
        let (entry, copy) = pending.into_entries();
        let Ok(()) = self.fresh.push_back(copy) else {
            unreachable!()
        };
        enter_log(&mut self.log, &mut self.numbers, entry);
        self.bytes += size;
    }

    /// Adds an entry that counts as given.
    pub(crate) fn restore(&mut self, entry: Entry, size: u64) -> Result<(), AllocError>
        requires given { self.old.fresh ≡ [] }
        requires size { size ≡ length (entry_text entry) }
        requires fresh { number_of self.old.entries entry.request ≡ None }
        requires bytes { bytes_of self.old.entries + size ≤ MOST_STORE_BYTES }
        ensures entries { OnOk result (self.new.entries ≡ self.old.entries ++ entry ∷ []) }
        ensures fresh { self.new.fresh ≡ [] }
    {
        self.reserve()?;
        enter_log(&mut self.log, &mut self.numbers, entry);
        self.bytes += size;
        Ok(())
    }

    /// The next entry that was not given yet. Takes no memory.
    pub(crate) fn give(&mut self) -> Option<Entry>
        ensures entries { self.new.entries ≡ self.old.entries }
        ensures spare { self.new.spare ≡ self.old.spare }
        ensures given { result ≡ slice_get self.old.fresh 0 }
        ensures fresh { self.new.fresh ≡ drop 1 self.old.fresh }
    {
        self.fresh.pop_front()
    }
}
