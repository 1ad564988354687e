//! Which texts of a constant pool are the same, so that they are compared once for each Utf8 and not for each use.
ghost use Rattle.std.specs.Prelude.{◌≡◌, ℕ, List, IfOk, OnErr, Ok, Some, slice_index_or};
ghost use Rattle.std.specs.Option.{unwrap_or};
ghost use Rattle.std.specs.BTreeMap.{IsEmpty};
ghost use Rattle.fcg_classfile.specs.Breaks.Pool.{text_of};
ghost use Rattle.fcg_reader.specs.Internal.FirstIndexes.{first_in, Adds, Grows, AreAsked, AllUnasked};

use fcg_pool::{Pool, Text};
use std::alloc::{AllocError, Global};
use std::collections::BTreeMap;

/// The texts of a pool that were added, each with the first index that it was added by.
#[derive(Drop)]
pub struct FirstTexts<'a> {
    pub pool: &'a Pool<'a>,
    // by the length first, which tells most texts apart without a look at their bytes
    pub known: BTreeMap<(usize, &'a [u8]), u16>,
    /// By the index of a Utf8 the first index of its text, or 0 where the Utf8 wasn't added.
    pub firsts: Vec<u16>,
}

impl<'a> FirstTexts<'a> {
    /// No text yet. It takes memory for each index of the pool.
    pub fn new(alloc: Global, pool: &'a Pool<'a>) -> Result<FirstTexts<'a>, AllocError>
        ensures pool { IfOk result (λ texts. texts.pool.now ≡ pool.now) }
        ensures none { IfOk result (λ texts. IsEmpty texts.known) }
        ensures asked { IfOk result (λ texts. AreAsked texts.pool.now texts.known texts.firsts.items) }
    {
        let firsts = unasked(alloc, pool.len() + 1)?;
        Ok(FirstTexts {
            pool,
            known: BTreeMap::new(alloc),
            firsts,
        })
    }

    /// Adds a text, and gives its first index. Of a Utf8 that was added it takes constant time, of another a logarithm of
    /// the number of texts in comparisons of lengths, and of bytes where these are the same.
    pub fn add(&mut self, text: &Text<'a>) -> Result<u16, AllocError>
        requires asked { AreAsked self.old.pool.now self.old.known self.old.firsts.items }
        requires text { text_of self.old.pool.now text.now.index ≡ Ok text.now.bytes.now }
        ensures first { IfOk result (λ first. first_in self.new.known text.now.bytes.now ≡ Some first) }
        ensures kept { Grows self.old.known self.new.known }
        ensures asked { AreAsked self.new.pool.now self.new.known self.new.firsts.items }
        ensures same { self.new.pool.now ≡ self.old.pool.now }
    {
        let first = self.find_or_insert(text)?;
        if let Some(slot) = self.firsts.get_mut(usize::from(text.index)) {
            *slot = first;
        }
        Ok(first)
    }

    // The first index of a text, which the map has afterwards.
    fn find_or_insert(&mut self, text: &Text<'a>) -> Result<u16, AllocError>
        requires asked { AreAsked self.old.pool.now self.old.known self.old.firsts.items }
        requires text { text_of self.old.pool.now text.now.index ≡ Ok text.now.bytes.now }
        ensures first { IfOk result (λ first. first_in self.new.known text.now.bytes.now ≡ Some first) }
        ensures kept { Grows self.old.known self.new.known }
        ensures asked { AreAsked self.new.pool.now self.new.known self.new.firsts.items }
        ensures same { self.new.pool.now ≡ self.old.pool.now }
    {
        let first = first_of(&self.firsts, text.index);
        if first != 0 {
            return Ok(first);
        }
        first_or_insert(&mut self.known, text)
    }

    /// Adds a name and a descriptor, as `add` does, and gives their first indexes.
    pub fn add_both(&mut self, name: &Text<'a>, desc: &Text<'a>) -> Result<(u16, u16), AllocError>
        requires asked { AreAsked self.old.pool.now self.old.known self.old.firsts.items }
        requires name { text_of self.old.pool.now name.now.index ≡ Ok name.now.bytes.now }
        requires desc { text_of self.old.pool.now desc.now.index ≡ Ok desc.now.bytes.now }
        ensures name { IfOk result (λ firsts. first_in self.new.known name.now.bytes.now ≡ Some firsts.0) }
        ensures desc { IfOk result (λ firsts. first_in self.new.known desc.now.bytes.now ≡ Some firsts.1) }
        ensures kept { Grows self.old.known self.new.known }
        ensures asked { AreAsked self.new.pool.now self.new.known self.new.firsts.items }
        ensures same { self.new.pool.now ≡ self.old.pool.now }
    {
        let first = self.add(name)?;
        let second = self.add(desc)?;
        Ok((first, second))
    }
}

/// So many Utf8s that weren't added.
pub fn unasked(alloc: Global, count: usize) -> Result<Vec<u16>, AllocError>
    ensures { IfOk result (λ firsts. AllUnasked firsts.items) }
{
    Ok(vec![in alloc; 0; count]?)
}

/// The number at an index, or 0.
#[inline(always)]
pub fn first_of(firsts: &[u16], index: u16) -> u16
    ensures { result ≡ slice_index_or firsts.now index 0 }
{
    match firsts.get(usize::from(index)) {
        Some(first) => *first,
        None => 0,
    }
}

// The index that a map has for a text; where it has none, it has that of the text afterwards.
fn first_or_insert<'a>(
    known: &mut BTreeMap<(usize, &'a [u8]), u16>,
    text: &Text<'a>,
) -> Result<u16, AllocError>
    ensures first { IfOk result (λ first. first ≡ unwrap_or (first_in known.old text.now.bytes.now) text.now.index) }
    ensures adds { IfOk result (λ first. Adds known.old known.new text.now.bytes.now first) }
    ensures err { OnErr result ((t : List ℕ) → first_in known.new t ≡ first_in known.old t) }
{
    let first = known
        .entry((text.bytes.len(), text.bytes))?
        .or_insert(text.index);
    Ok(*first)
}
