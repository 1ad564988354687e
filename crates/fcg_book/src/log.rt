//! A log in memory, and what is looked up in it.
ghost use Rattle.std.specs.Prelude.{◌≡◌, ℕ, List, ◌≤◌, ◌<◌, ◌+◌, ◌^◌, ◌++◌, ◌∷◌, [], length, IfOk, OnOk, OnErr, max};
ghost use Rattle.std.specs.Option.{option_map};
ghost use Rattle.fcg_book.specs.Entries.{coordinate_in, command_of};
ghost use Rattle.fcg_views.specs.Valid.{is_same};
ghost use Rattle.std.specs.HashMap.{get, spare};
ghost use Rattle.fcg_grammar.specs.Table.{table};
ghost use Rattle.fcg_book.specs.Log.{live, live_after, entry_in};
ghost use Rattle.fcg_book.specs.Sets.{live_coordinates};
ghost use Rattle.fcg_book.specs.Internal.Asked.{imported};

use crate::entry::{Command, Entry, StoredEntry};
use fcg_partial::Part;
use fcg_views::Coordinate;
use std::alloc::{AllocError, Global};
use std::collections::HashMap;
use std::marker::Model;

/// The most entries of a log.
pub const MOST_ENTRIES: u64 = 1_000_000;

/// The most bytes of the stored graph of a release.
pub const MOST_RELEASE_BYTES: u64 = 67_108_864;

/// The most bytes of all records.
pub const MOST_STORE_BYTES: u64 = 1_073_741_824;

/// The entries of a log, and the live ones by their coordinates. A look-up hashes its key once.
#[derive(Drop)]
pub(crate) struct Log {
    entries: Vec<StoredEntry>,
    live: HashMap<Coordinate, u64>,
    // how many more entries there is room for
    spare: usize,
}

impl Model for Log {
    ghost use Rattle.std.specs.Prelude.{vec_len, vec_capacity, ◌-◌};
    ghost use Rattle.fcg_book.specs.Internal.Index.{LogState, IsIndexed};

    ghost Value = { LogState };

    ghost view = { λ l. record { entries = l.entries.items; spare = l.spare } };

    ghost invariant = { λ l. IsIndexed l.entries.items (vec_capacity l.entries - vec_len l.entries) l.live l.spare };
}

// Looks a release up at a new entry that imports it, and no longer at any where the entry withdraws it.
fn set_live(
    lives: &mut HashMap<Coordinate, u64>,
    command: &Command,
    coordinate: Coordinate,
    number: u64,
)
    requires spare { 0 < spare lives.old }
    requires coordinate { coordinate ≡ coordinate_in (command_of command.now) }
    ensures live { (q : List ℕ) → get is_same lives.new q ≡ live_after q number (command_of command.now) (get is_same lives.old q) }
    ensures spare { spare lives.old ≤ spare lives.new + 1 }
{
    match command {
        Command::Import { .. } => {
            let Ok(_) = lives.insert(coordinate, number) else {
                unreachable!()
            };
        }
        Command::Withdraw { .. } => {
            let _ = lives.remove(&coordinate);
        }
    }
}

// Each release once, in their order.
fn sort_releases(mut releases: Vec<Coordinate>) -> Vec<Coordinate>
    ensures { result.items ≡ table releases.items }
{
    releases.sort_unstable();
    releases.dedup();
    releases
}

impl Log {
    pub(crate) fn new(alloc: Global) -> Log
        ensures { result ≡ record { entries = []; spare = 0 } }
    {
        Log {
            entries: Vec::new(alloc),
            live: HashMap::new(alloc),
            spare: 0,
        }
    }

    /// How many entries it has.
    pub(crate) fn len(&self) -> u64
        ensures len { result ≡ length self.now.entries }
        ensures small { result + 1 < 2 ^ 64 }
    {
        self.entries.len() as u64
    }

    /// The entry of a number from 1.
    pub(crate) fn entry(&self, number: u64) -> Option<&StoredEntry>
        ensures { option_map (λ e. e.now) result ≡ entry_in self.now.entries number }
    {
        if number == 0 {
            return None;
        }
        self.entries.get((number - 1) as usize)
    }

    /// The number of the live entry of a release.
    pub(crate) fn live(&self, coordinate: &Coordinate) -> Option<u64>
        ensures { result ≡ live self.now.entries coordinate.now }
    {
        self.live.get(coordinate).copied()
    }

    /// The release of an entry that is an import. It shares the graph.
    pub(crate) fn part(&self, number: u64) -> Result<Option<Part>, AllocError>
        ensures { IfOk result (λ part. part ≡ imported (entry_in self.now.entries number)) }
    {
        match self.entry(number) {
            None => Ok(None),
            Some(entry) => entry.part(),
        }
    }

    /// The live releases, each once, by the bytes of their texts.
    pub(crate) fn releases(&self, alloc: Global) -> Result<Vec<Coordinate>, AllocError>
        ensures { IfOk result (λ releases. releases.items ≡ live_coordinates self.now.entries) }
    {
        let mut releases = Vec::new(alloc);
        for coordinate in self.live.keys() {
            releases.push(coordinate.clone()?)?;
        }
        Ok(sort_releases(releases))
    }

    /// Makes room for some more entries, where there isn't yet.
    pub(crate) fn reserve(&mut self, more: usize) -> Result<(), AllocError>
        ensures entries { self.new.entries ≡ self.old.entries }
        ensures ok { OnOk result (self.new.spare ≡ max self.old.spare more) }
        ensures err { OnErr result (self.new.spare ≡ self.old.spare) }
    {
        if self.spare < more {
            self.entries.reserve(more)?;
            self.live.reserve(more)?;
            self.spare = more;
        }
        Ok(())
    }

    /// Adds an entry. Takes no memory.
    pub(crate) fn push(&mut self, entry: Entry)
        requires spare { 0 < self.old.spare }
        ensures entries { self.new.entries ≡ self.old.entries ++ entry ∷ [] }
        ensures spare { self.new.spare + 1 ≡ self.old.spare }
    {
        let number = self.len() + 1;
        let (stored, key) = entry.into_parts();
        self.spare -= 1;
        set_live(&mut self.live, &stored.command, key, number);
        let Ok(()) = self.entries.push(stored) else {
            unreachable!()
        };
    }
}
