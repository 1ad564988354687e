//! The entries of a pool, each once.
ghost use Rattle.std.specs.Prelude.{◌≡◌, ◌≤◌, [], IfOk, OnOk, length};
ghost use Rattle.fcg_make.specs.Entries.{added, index_of};

use crate::entry::Entry;
use std::alloc::{AllocError, Global};
use std::collections::BTreeMap;
use std::marker::Model;

/// The entries of a pool in their order, each once.
#[derive(Drop)]
pub struct EntryTable {
    entries: Vec<Entry>,
    // by the entry its place from 0
    places: BTreeMap<Entry, usize>,
}

impl Model for EntryTable {
    ghost use Rattle.std.specs.Prelude.{List};
    ghost use Rattle.fcg_make.specs.declared.entry.Entry.{Entry};
    ghost use Rattle.fcg_make.specs.Internal.Places.{ArePlaces};

    ghost Value = { List Entry };

    ghost view = { λ t. t.entries.items };

    ghost invariant = { λ t. ArePlaces ⟦<Entry as Ord>⟧.cmp t.entries.items t.places };
}

impl EntryTable {
    /// No entry.
    pub fn new(alloc: Global) -> EntryTable
        ensures { result ≡ [] }
    {
        EntryTable {
            entries: Vec::new(alloc),
            places: BTreeMap::new(alloc),
        }
    }

    /// Adds an entry, if it isn't there. Compares a logarithm of their number of entries.
    pub fn add(&mut self, entry: Entry) -> Result<(), AllocError>
        ensures { OnOk result (self.new ≡ added self.old entry) }
    {
        if self.places.contains_key(&entry) {
            return Ok(());
        }
        let place = self.entries.as_slice().len();
        let copy = entry.clone()?;
        self.entries.reserve(1)?;
        self.places.insert(entry, place)?;
        self.entries.push(copy).unwrap();
        Ok(())
    }

    /// The index of an entry in the pool: one more than its place, or 0 where it isn't there. Compares a logarithm of their number of entries.
    pub fn index(&self, entry: &Entry) -> u16
        requires { length self.now ≤ 65534 }
        ensures { result ≡ index_of self.now entry.now }
    {
        let Some(place) = self.places.get(entry) else {
            return 0;
        };
        *place as u16 + 1
    }

    /// The entries.
    pub fn as_slice(&self) -> &[Entry]
        ensures { result.now ≡ self.now }
    {
        self.entries.as_slice()
    }
}
