//! A book: the log as queries see it.
ghost use Rattle.std.specs.Prelude.{◌≡◌, ◌<◌, ℕ, [], length, IfOk, OnOk, OnErr, max, map};
ghost use Rattle.fcg_grammar.specs.Reading.{Gives};
ghost use Rattle.fcg_views.specs.Set.{releases_of};
ghost use Rattle.fcg_book.specs.Books.{AsksAs, IsMadeIn, after_ask, posted, index_of};
ghost use Rattle.fcg_book.specs.Sets.{keys_of, parts_named, live_coordinates};
ghost use Rattle.fcg_book.specs.Internal.Asked.{keys_by_index, AreLive};

use crate::entry::Entry;
use crate::log::Log;
use fcg_grammar::ReadError;
use fcg_partial::{Derived, Part, Parts};
use fcg_views::{Coordinate, NoMemory, Set};
use std::alloc::{AllocError, Global};
use std::marker::{Model, PhantomData};
use std::sync::Arc;

/// The numbers of the live entries of a set, in its order.
#[derive(Drop)]
pub struct SetKey {
    numbers: Vec<u64>,
}

impl Model for SetKey {
    ghost use Rattle.std.specs.Prelude.{ℕ, List};

    ghost Value = { List ℕ };

    ghost view = { λ key. key.numbers.items };
}

impl SetKey {
    /// The numbers. Takes no memory.
    pub fn as_slice(&self) -> &[u64]
        ensures { result.now ≡ self.now }
    {
        &self.numbers
    }
}

/// What a book has for a set.
#[derive(Drop)]
pub enum Ask<V> {
    /// A value that is kept for the set.
    Hit { key: SetKey, value: Arc<V> },
    /// The releases to make one from.
    Parts { key: SetKey, parts: Parts },
    /// The first release that isn't live, by its place in the set from 0.
    AbsentRelease { index: u32 },
}

/// A log for queries, which takes entries in their order, and values that are made from its releases.
#[derive(Drop)]
pub struct Book<V: Derived> {
    log: Log,
    values: PhantomData<V>,
}

impl<V: Derived> Model for Book<V> {
    ghost use Rattle.std.specs.Prelude.{[]};
    ghost use Rattle.fcg_book.specs.Books.{Books};

    ghost Value = { Books V };

    ghost view = { λ b. record { log = b.log.entries; spare = b.log.spare; cached = [] } };
}

// The numbers of the live entries of a set, or the place of the first release that isn't live.
fn find_live(alloc: Global, log: &Log, set: &[Coordinate]) -> Result<Vec<u64>, ReadError<u32>>
    ensures { Gives (λ numbers. numbers.items) result (keys_by_index log.now.entries set.now) }
{
    let mut numbers = Vec::new(alloc);
    for coordinate in set {
        match log.live(coordinate) {
            Some(number) => numbers.push(number)?,
            None => {
                let index = u32::try_from(numbers.len()).unwrap_or(u32::MAX);
                return Err(ReadError::Fault(index));
            }
        }
    }
    Ok(numbers)
}

// The releases of live entries.
fn copy_parts(alloc: Global, log: &Log, numbers: &[u64]) -> Result<Vec<Part>, AllocError>
    requires { AreLive log.now.entries numbers.now }
    ensures { IfOk result (λ parts. parts.items ≡ parts_named log.now.entries numbers.now) }
{
    let mut parts = Vec::new(alloc);
    for number in numbers {
        let Some(part) = log.part(*number)? else {
            unreachable!()
        };
        parts.push(part)?;
    }
    Ok(parts)
}

impl<V: Derived> Book<V> {
    /// An empty book.
    pub fn new(alloc: Global) -> Result<Book<V>, NoMemory>
        ensures { IfOk result (λ book. book ≡ record { log = []; spare = 0; cached = [] }) }
    {
        Ok(Book {
            log: Log::new(alloc),
            values: PhantomData,
        })
    }

    /// Makes room for so many more entries, where there isn't yet.
    pub fn reserve(&mut self, more: u32) -> Result<(), NoMemory>
        ensures ok { OnOk result (self.new ≡ record self.old { spare = max self.old.spare more }) }
        ensures err { OnErr result (self.new ≡ self.old) }
    {
        Ok(self.log.reserve(more as usize)?)
    }

    /// Adds an entry where room was made, and forgets the values that are made from the one that it replaces or
    /// withdraws. Takes no memory.
    pub fn post(&mut self, entry: Entry)
        requires { 0 < self.old.spare }
        ensures { self.new ≡ posted self.old entry }
    {
        self.log.push(entry);
    }

    /// How many entries the log has. Takes no memory.
    pub fn len(&self) -> u64
        ensures { result ≡ length self.now.log }
    {
        self.log.len()
    }

    /// The live releases, each once, by the bytes of their texts. It sorts them, and walks over no other entry.
    pub fn releases(&self, alloc: Global) -> Result<Set, NoMemory>
        ensures { IfOk result (λ set. releases_of set ≡ live_coordinates self.now.log) }
    {
        Ok(self.log.releases(alloc)?.into())
    }

    /// What there is for a set: a value that is kept for it, or the releases to make one from, which share their graphs
    /// with the log. It costs a look-up for each release of the set.
    pub fn ask(&mut self, alloc: Global, set: &Set) -> Result<Ask<V>, NoMemory>
        ensures answer { IfOk result (AsksAs self.old (releases_of set.now)) }
        ensures made { IfOk result (IsMadeIn V.made_from self.old.log) }
        ensures log { self.new.log ≡ self.old.log }
        ensures spare { self.new.spare ≡ self.old.spare }
        ensures cached { OnOk result (self.new.cached ≡ after_ask self.old (releases_of set.now)) }
        ensures kept { OnErr result (self.new.cached ≡ self.old.cached) }
    {
        let numbers = match find_live(alloc, &self.log, set.as_slice()) {
            Ok(numbers) => numbers,
            Err(ReadError::NoMemory) => return Err(NoMemory),
            Err(ReadError::Fault(index)) => return Ok(Ask::AbsentRelease { index }),
        };
        let parts = copy_parts(alloc, &self.log, &numbers)?;
        Ok(Ask::Parts {
            key: SetKey { numbers },
            parts: parts.into(),
        })
    }
}
