//! Where the rows of a stored graph stand.
ghost use Rattle.std.specs.Prelude.{◌≡◌, ◌≤◌, ◌<◌, ◌^◌, ◌+◌, ◌*◌, ℕ, List, length, false, map, replicate, IfOk};
ghost use Rattle.std.specs.List.{AllByRecursion};
ghost use Rattle.fcg_partial.specs.Reading.{graph_at, unused_at, name_place};
ghost use Rattle.fcg_partial.specs.Internal.UsedNumbers.{first_unmarked};
ghost use Rattle.fcg_partial.specs.Internal.RowPlaces.{text_at, HasText, Follow};
ghost use Rattle.fcg_partial.specs.Internal.Representation.{GivesIndex, GivesPlaces, HasNames, HasRefs, no_marks};

use crate::fault::{RecordFault, RecordRule, fault_at};
use crate::marks::find_unmarked;
use crate::names::read_name_table;
use crate::number::{read_u2, read_u4};
use crate::refs::read_refs;
use crate::types::{Places, read_types};
use fcg_grammar::ReadError;
use std::alloc::{AllocError, Global};

// The bytes `FCGR`, as a number.
pub(crate) const MAGIC: u32 = 0x4643_4752;

// The places of the rows of a stored graph.
#[derive(Drop)]
pub(crate) struct Index {
    // of each name's length
    pub(crate) names: Vec<u32>,
    // of the count of the references
    pub(crate) refs: usize,
    pub(crate) places: Places,
}

// No number is used yet.
fn make_marks(alloc: Global, count: usize) -> Result<Vec<bool>, AllocError>
    ensures { IfOk result (λ marks. marks.items ≡ replicate count false) }
{
    Ok(vec![in alloc; false; count]?)
}

// Each name is used, or else the fault at the first that isn't.
fn check_names(bytes: &[u8], names: &[u32], used: &[bool]) -> Result<(), RecordFault>
    requires texts { AllByRecursion (HasText bytes.now) names.now }
    requires follow { (end : ℕ) × Follow bytes.now 10 names.now end }
    requires long { length used.now ≡ length names.now }
    ensures { result ≡ unused_at (name_place (map (text_at bytes.now) names.now)) (first_unmarked used.now 0) }
{
    match find_unmarked(used) {
        Some(n) => Err(fault_at(names[n] as usize, RecordRule::Unused)),
        None => Ok(()),
    }
}

// Each reference is used, or else the fault at the first that isn't. The first stands at a place, and each has 13 bytes.
fn check_refs(at: usize, used: &[bool]) -> Result<(), RecordFault>
    requires { at + 13 * length used.now < 2 ^ 64 }
    ensures { result ≡ unused_at (λ k. at + 13 * k) (first_unmarked used.now 0) }
{
    match find_unmarked(used) {
        Some(n) => Err(fault_at(at + 13 * n, RecordRule::Unused)),
        None => Ok(()),
    }
}

// The places of the types, where the names and the references were read, or the first fault.
fn find_types(
    alloc: Global,
    bytes: &[u8],
    names: &[u32],
    refs: usize,
    at: usize,
    used: &mut [bool],
    used_refs: &mut [bool],
) -> Result<Places, ReadError<RecordFault>>
    requires small { length bytes.now < 2 ^ 32 }
    requires names { HasNames bytes.now names.now refs }
    requires refs { HasRefs bytes.now names.now refs at used.old (length used_refs.old) }
    requires no_marks { used_refs.old ≡ replicate (length used_refs.old) false }
    requires inside { (at ≤ length bytes.now) × (at ≡ refs + 4 + 13 * length used_refs.old) }
    ensures { GivesPlaces bytes.now names.now refs result }
{
    let count = read_u4(bytes, at)?;
    let (places, end) = read_types(alloc, bytes, count, at + 4, used, used_refs)?;
    if end != bytes.len() {
        return Err(fault_at(end, RecordRule::Trailing).into());
    }
    check_names(bytes, names, used)?;
    check_refs(refs + 4, used_refs)?;
    Ok(places)
}

// The places of the types, where the names were read, or the first fault.
fn find_refs(
    alloc: Global,
    bytes: &[u8],
    names: &[u32],
    at: usize,
    used: &mut [bool],
) -> Result<Places, ReadError<RecordFault>>
    requires small { length bytes.now < 2 ^ 32 }
    requires names { HasNames bytes.now names.now at }
    requires no_marks { used.old ≡ no_marks bytes.now names.now }
    requires inside { at ≤ length bytes.now }
    ensures { GivesPlaces bytes.now names.now at result }
{
    let count = read_u4(bytes, at)?;
    let after = read_refs(bytes, count, at + 4, used)?;
    let mut used_refs = make_marks(alloc, count as usize)?;
    find_types(alloc, bytes, names, at, after, used, &mut used_refs)
}

// The places of the rows of a stored graph, or its first fault. Makes one pass over the bytes, and takes a logarithm of
// the number of a type's methods in comparisons for each of these.
#[tactic(auto, unfolding(crate::specs::Reading::graph_at))]
pub(crate) fn find_rows(alloc: Global, bytes: &[u8]) -> Result<Index, ReadError<RecordFault>>
    requires { length bytes.now < 2 ^ 32 }
    ensures { GivesIndex bytes.now result }
{
    if read_u4(bytes, 0)? != MAGIC {
        return Err(fault_at(0, RecordRule::Magic).into());
    }
    if read_u2(bytes, 4)? != 1 {
        return Err(fault_at(4, RecordRule::Version).into());
    }
    let (names, refs) = read_name_table(alloc, bytes, 6)?;
    let mut used = make_marks(alloc, names.len())?;
    let places = find_refs(alloc, bytes, &names, refs, &mut used)?;
    Ok(Index {
        names,
        refs,
        places,
    })
}
