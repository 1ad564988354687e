//! Names by numbers: the distinct ones of some texts are numbered in the order of their bytes.
ghost use Rattle.std.specs.Prelude.{◌≡◌, ◌<◌, ◌+◌, ◌^◌, ◌↔◌, length, map, All, IfOk, OnOk, IsTrue};
ghost use Rattle.fcg_join.specs.Names.{texts_of, AreNumbered};
ghost use Rattle.fcg_join.specs.Internal.Numbering.{AreKeys, EndsWith, AddsPlace};

use std::alloc::{AllocError, Global};

// A text, and its place among the texts.
type Key<'a> = (&'a [u8], u32);

/// Numbers for the distinct ones of some texts.
#[derive(Drop)]
pub struct NameNumbers {
    /// Of each text its number. Numbers rise with the bytes.
    pub numbers: Vec<u32>,
    /// Of each number the place of a text that has it.
    pub places: Vec<u32>,
}

// The texts with their places, sorted by the texts.
fn sort_keys<'a>(alloc: Global, texts: &[&'a [u8]]) -> Result<Vec<Key<'a>>, AllocError>
    requires { length texts.now < 2 ^ 32 }
    ensures { IfOk result (λ keys. AreKeys texts.now keys.items) }
{
    let mut keys = Vec::with_capacity(alloc, texts.len())?;
    for place in 0..texts.len() {
        keys.push((texts[place], place as u32))?;
    }
    keys.sort()?;
    Ok(keys)
}

// Whether the last of the places is that of this text.
fn ends_with(texts: &[&[u8]], places: &[u32], text: &[u8]) -> bool
    requires { All (λ p. p < length texts.now) places.now }
    ensures { IsTrue result ↔ EndsWith (texts_of texts.now) places.now text.now }
{
    match places.last() {
        Some(place) => texts[*place as usize] == text,
        None => false,
    }
}

// Adds the place of a key whose text isn't the last.
fn add_place(texts: &[&[u8]], places: &mut Vec<u32>, key: Key) -> Result<(), AllocError>
    requires { All (λ p. p < length texts.now) places.old.items }
    ensures { OnOk result (AddsPlace (texts_of texts.now) places.old.items places.new.items key.entry) }
{
    if !ends_with(texts, places, key.0) {
        places.push(key.1)?;
    }
    Ok(())
}

// Numbers the texts of the keys one after the other.
fn number_keys(alloc: Global, texts: &[&[u8]], keys: &[Key]) -> Result<NameNumbers, AllocError>
    requires few { length texts.now < 2 ^ 32 }
    requires keys { AreKeys texts.now keys.now }
    ensures { IfOk result (λ n. AreNumbered (texts_of texts.now) n.numbers.items n.places.items) }
{
    let mut numbers = vec![in alloc; 0; texts.len()]?;
    let mut places = Vec::new(alloc);
    for key in keys {
        add_place(texts, &mut places, *key)?;
        numbers[key.1 as usize] = (places.len() - 1) as u32;
    }
    Ok(NameNumbers { numbers, places })
}

/// Numbers the distinct ones of some texts in the order of their bytes, by one sort of all of them.
///
/// It compares texts as often as a sort does, and once more each. No hash is used, so nobody can choose texts for which it
/// takes longer. The only error is want of memory.
pub fn number_names(alloc: Global, texts: &[&[u8]]) -> Result<NameNumbers, AllocError>
    requires { length texts.now < 2 ^ 32 }
    ensures { IfOk result (λ n. AreNumbered (texts_of texts.now) n.numbers.items n.places.items) }
{
    let keys = sort_keys(alloc, texts)?;
    number_keys(alloc, texts, &keys)
}
