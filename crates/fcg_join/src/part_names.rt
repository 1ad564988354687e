//! The names of parts, by numbers of the set.
ghost use Rattle.std.specs.Prelude.{◌≡◌, ◌<◌, ◌≤◌, ◌+◌, ◌^◌, ◌++◌, length, map, All, Contains, Some, None, IfOk, OnOk, IfSome, slice_get, slice_index_or};
ghost use Rattle.fcg_grammar.specs.Table.{order, place, Rises};
ghost use Rattle.fcg_join.specs.Names.{texts_of};
ghost use Rattle.fcg_join.specs.Internal.Collected.{collected};
ghost use Rattle.fcg_join.specs.SetNames.{part_names, all_names, set_names};
ghost use Rattle.fcg_join.specs.Internal.PartNames.{names_by_number, places_in, no_place, IsNamePlace, AreSetNames, name_there};

use crate::names::number_names;
use fcg_order::Links as Rows;
use fcg_partial::Part;
use std::alloc::{AllocError, Global};
use std::cmp::Ordering;

/// Where a name stands: a part, by its place, and the name's number in the part's graph.
#[derive(Clone, Copy)]
pub struct NamePlace {
    pub part: u32,
    pub number: u32,
}

// Adds the places of the names of a part.
fn push_places(places: &mut Vec<NamePlace>, i: u32, part: &Part) -> Result<(), AllocError>
    ensures { OnOk result (places.new.items ≡ places.old.items ++ places_in i part.now) }
{
    for number in 0..part.graph.name_count() {
        places.push(NamePlace { part: i, number })?;
    }
    Ok(())
}

// The places of all names of the parts.
fn find_places(alloc: Global, parts: &[Part]) -> Result<Vec<NamePlace>, AllocError>
    requires { length parts.now < 2 ^ 32 }
    ensures { IfOk result (λ places. places.items ≡ collected places_in 0 parts.now) }
{
    let mut places = Vec::new(alloc);
    for i in 0..parts.len() {
        push_places(&mut places, i as u32, &parts[i])?;
    }
    Ok(places)
}

// The name that stands at a place.
pub(crate) fn name_there(parts: &[Part], place: NamePlace) -> &[u8]
    requires { IsNamePlace parts.now place }
    ensures { result.now ≡ name_there parts.now place }
{
    let part = &parts[place.part as usize];
    part.graph.name_at(place.number)
}

// The names at some places.
fn collect_names<'a>(
    alloc: Global,
    parts: &'a [Part],
    places: &[NamePlace],
) -> Result<Vec<&'a [u8]>, AllocError>
    requires { All (IsNamePlace parts.now) places.now }
    ensures { IfOk result (λ texts. texts_of texts.items ≡ map (name_there parts.now) places.now) }
{
    let mut texts = Vec::with_capacity(alloc, places.len())?;
    for place in places {
        texts.push(name_there(parts, *place))?;
    }
    Ok(texts)
}

// How many names a part has.
fn count_names(part: &Part) -> usize
    ensures { result ≡ length (part_names part.now) }
{
    part.graph.name_count() as usize
}

// The numbers of the names of all parts, cut into a row for each part.
fn cut_rows(alloc: Global, parts: &[Part], numbers: &[u32]) -> Result<Rows, AllocError>
    requires { numbers.now ≡ map (place (set_names parts.now)) (all_names parts.now) }
    ensures { IfOk result (λ rows. rows ≡ names_by_number (set_names parts.now) parts.now) }
{
    let mut rows = Rows::new(alloc)?;
    let mut rest = numbers;
    for i in 0..parts.len() {
        let (own, later) = rest.split_at(count_names(&parts[i]));
        rows.push_row(own)?;
        rest = later;
    }
    Ok(rows)
}

// Those of the places that have these numbers.
fn pick_places(
    alloc: Global,
    places: &[NamePlace],
    numbers: &[u32],
) -> Result<Vec<NamePlace>, AllocError>
    requires { All (λ k. k < length places.now) numbers.now }
    ensures { IfOk result (λ picked. picked.items ≡ map (λ k. slice_index_or places.now k no_place) numbers.now) }
{
    let mut picked = Vec::with_capacity(alloc, numbers.len())?;
    for k in numbers {
        picked.push(places[*k as usize])?;
    }
    Ok(picked)
}

/// The names of some parts by numbers of the set, which rise with the bytes.
#[derive(Drop)]
pub struct SetNames {
    /// Of each part the numbers of its names, in the order of its own numbers.
    pub numbers: Rows,
    /// Of each number a place where its name stands.
    pub places: Vec<NamePlace>,
}

// Numbers the names of all parts, by one sort of all of them.
pub(crate) fn number_part_names(alloc: Global, parts: &[Part]) -> Result<SetNames, AllocError>
    requires parts { length parts.now < 2 ^ 32 }
    requires names { length (all_names parts.now) < 2 ^ 32 }
    ensures { IfOk result (λ names. AreSetNames parts.now names) }
{
    let places = find_places(alloc, parts)?;
    let texts = collect_names(alloc, parts, &places)?;
    let found = number_names(alloc, &texts)?;
    Ok(SetNames {
        numbers: cut_rows(alloc, parts, &found.numbers)?,
        places: pick_places(alloc, &places, &found.places)?,
    })
}

// How the name at a place compares with a name.
fn compare_name(parts: &[Part], place: NamePlace, name: &[u8]) -> Ordering
    requires { IsNamePlace parts.now place }
    ensures { result ≡ order (name_there parts.now place) name.now }
{
    name_there(parts, place).cmp(name)
}

// The number of a name, by a search in the places of names that rise.
pub(crate) fn find_name(parts: &[Part], places: &[NamePlace], name: &[u8]) -> Option<u32>
    requires there { All (IsNamePlace parts.now) places.now }
    requires few { length places.now < 2 ^ 32 }
    requires rise { Rises (map (name_there parts.now) places.now) }
    ensures found { IfSome result (λ k. slice_get (map (name_there parts.now) places.now) k ≡ Some name.now) }
    ensures none { result ≡ None → Contains (map (name_there parts.now) places.now) name.now → ⊥ }
{
    let mut low = 0;
    let mut high = places.len();
    while low < high {
        let middle = low + (high - low) / 2;
        match compare_name(parts, places[middle], name) {
            Ordering::Equal => return Some(middle as u32),
            Ordering::Less => low = middle + 1,
            Ordering::Greater => high = middle,
        }
    }
    None
}
