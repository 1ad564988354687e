//! The methods of a type, no two of which have one name and descriptor.
ghost use Rattle.std.specs.Prelude.{◌≡◌, ◌≤◌, ◌<◌, ◌^◌, ◌+◌, ℕ, List, length, IfOk};
ghost use Rattle.fcg_partial.specs.Reading.{method_at};
ghost use Rattle.fcg_partial.specs.Internal.UsedNumbers.{used_marks, AreKeys, PassesMethod, PassesMethods, earlier, methods_read};

use crate::fault::{RecordFault, RecordRule, fault_at};
use crate::marks::read_index;
use crate::number::{read_u2, read_u4};
use crate::rows::read_sites;
use fcg_grammar::ReadError;
use std::alloc::Global;
use std::collections::BTreeSet;

// The most sites of a type.
const MOST_SITES: u32 = 1_000_000;

// The method at a place, and the place after it, with the sites of the type so far.
#[tactic(auto, unfolding(crate::specs::Reading::method_at))]
fn read_method(
    bytes: &[u8],
    at: usize,
    names: &mut [bool],
    refs: &mut [bool],
    keys: &mut BTreeSet<(u32, u32)>,
    sites: u32,
) -> Result<(usize, u32), ReadError<RecordFault>>
    requires inside { at ≤ length bytes.now }
    requires few { sites ≤ 1000000 }
    ensures value { (k : ℕ) (before : List (List ℕ)) → AreKeys keys.old before → PassesMethod (method_at bytes.now (length names.old) (length refs.old) k (earlier at before sites)) (used_marks names.old refs.old) (used_marks names.new refs.new) keys.new result }
    ensures inside { IfOk result (λ x. (at < x.0) × (x.0 ≤ length bytes.now)) }
    ensures few { IfOk result (λ x. x.1 ≤ 1000000) }
{
    let name = read_index(bytes, at, names)?;
    let desc = read_index(bytes, at + 4, names)?;
    if !keys.insert((name, desc))? {
        return Err(fault_at(at, RecordRule::DoubleMethod).into());
    }
    let _flags = read_u2(bytes, at + 4 + 4)?;
    let count = read_u4(bytes, at + 4 + 4 + 2)?;
    if count > MOST_SITES - sites {
        return Err(fault_at(at + 4 + 4 + 2, RecordRule::ManySites).into());
    }
    let after = read_sites(bytes, count, at + 4 + 4 + 2 + 4, refs)?;
    Ok((after, sites + count))
}

// So many methods. Their places are added to those of the types before. Takes a logarithm of the number of the methods
// in comparisons for each of them.
pub(crate) fn read_methods(
    alloc: Global,
    bytes: &[u8],
    count: u16,
    at: usize,
    names: &mut [bool],
    refs: &mut [bool],
    places: &mut Vec<u32>,
) -> Result<usize, ReadError<RecordFault>>
    requires inside { at ≤ length bytes.now }
    requires small { length bytes.now < 2 ^ 32 }
    ensures value { PassesMethods bytes.now (length names.old) (length refs.old) (methods_read bytes.now (length names.old) (length refs.old) count at) (used_marks names.old refs.old) (used_marks names.new refs.new) places.old.items places.new.items result }
    ensures inside { IfOk result (λ after. (at ≤ after) × (after ≤ length bytes.now)) }
    ensures few { IfOk result (λ after. length places.new.items + at ≤ length places.old.items + after) }
{
    let mut keys = BTreeSet::new(alloc);
    let mut sites = 0;
    let mut place = at;
    for _ in 0..count {
        let (after, more) = read_method(bytes, place, names, refs, &mut keys, sites)?;
        places.push(place as u32)?;
        place = after;
        sites = more;
    }
    Ok(place)
}
