//! A command that is to be entered, with all that takes memory made before.
ghost use Rattle.std.specs.Prelude.{◌≡◌, IfOk};
ghost use Rattle.fcg_book.specs.Entries.{entry_of};
ghost use Rattle.fcg_book.specs.Log.{record_of};

use crate::entry::{Command, Entry};
use crate::write::write_entry;
use fcg_keeper::Record;
use fcg_views::NoMemory;
use std::alloc::Global;
use std::marker::Model;

/// A command that is to be entered: its entry, a copy of it to be given, and its record.
#[derive(Drop)]
pub(crate) struct Pending {
    entry: Entry,
    copy: Entry,
    row: Record,
}

impl Model for Pending {
    ghost use Rattle.std.specs.Prelude.{◌≡◌};
    ghost use Rattle.fcg_book.specs.Log.{record_of};
    ghost use Rattle.fcg_book.specs.Internal.Register.{Waiting};

    ghost Value = { Waiting };

    ghost view = { λ p. record { seq = p.row.seq; entry = p.entry } };

    ghost invariant = { λ p. (p.copy ≡ p.entry) × (p.row ≡ record_of p.row.seq p.entry) };
}

impl Pending {
    pub(crate) fn new(
        alloc: Global,
        seq: u64,
        request: u64,
        command: Command,
    ) -> Result<Pending, NoMemory>
        ensures { IfOk result (λ p. p ≡ record { seq = seq; entry = entry_of request command }) }
    {
        let body = write_entry(alloc, request, &command)?;
        let entry = Entry::new(request, command)?;
        let copy = entry.copy()?;
        Ok(Pending {
            entry,
            copy,
            row: Record { seq, body },
        })
    }

    /// Its record.
    pub(crate) fn row(&self) -> &Record
        ensures { result.now ≡ record_of self.now.seq self.now.entry }
    {
        &self.row
    }

    /// Its entry, twice.
    pub(crate) fn into_entries(self) -> (Entry, Entry)
        ensures entry { result.0 ≡ self.entry }
        ensures copy { result.1 ≡ self.entry }
    {
        (self.entry, self.copy)
    }
}
