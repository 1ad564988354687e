//! The types of a stored graph, with the places of their rows.
ghost use Rattle.std.specs.Prelude.{◌≡◌, ◌≤◌, ◌<◌, ◌^◌, ◌+◌, ℕ, [], ◌∷◌, ◌++◌, length, IfOk, OnOk};
ghost use Rattle.fcg_partial.specs.Reading.{type_at};
ghost use Rattle.fcg_partial.specs.Internal.UsedNumbers.{used_marks, HavePlaces, PassesType, PassesTypes, types_read};

use crate::fault::RecordFault;
use crate::marks::read_index;
use crate::methods::read_methods;
use crate::number::{read_u2, read_u4};
use crate::rows::{read_fields, read_interfaces, read_super};
use fcg_grammar::ReadError;
use std::alloc::{AllocError, Global};

// The places of types and of their methods.
#[derive(Drop)]
pub(crate) struct Places {
    // of each type
    pub(crate) types: Vec<u32>,
    // of each type the number of its first method, among the methods of all types
    pub(crate) firsts: Vec<u32>,
    // of each method of all types
    pub(crate) methods: Vec<u32>,
}

// The type at a place, and the place after it. The places of its methods are added to those of the types before.
#[tactic(auto, unfolding(crate::specs::Reading::type_at))]
fn read_type(
    alloc: Global,
    bytes: &[u8],
    at: usize,
    names: &mut [bool],
    refs: &mut [bool],
    methods: &mut Vec<u32>,
) -> Result<usize, ReadError<RecordFault>>
    requires inside { at ≤ length bytes.now }
    requires small { length bytes.now < 2 ^ 32 }
    ensures value { (k : ℕ) → PassesType bytes.now (length names.old) (length refs.old) (type_at bytes.now (length names.old) (length refs.old) k at) (used_marks names.old refs.old) (used_marks names.new refs.new) methods.old.items methods.new.items result }
    ensures inside { IfOk result (λ after. (at ≤ after) × (after ≤ length bytes.now)) }
    ensures few { IfOk result (λ after. length methods.new.items + at ≤ length methods.old.items + after) }
{
    let _name = read_index(bytes, at, names)?;
    let _flags = read_u2(bytes, at + 4)?;
    let after_super = read_super(bytes, at + 4 + 2, names)?;
    let many = read_u2(bytes, after_super)?;
    let after_interfaces = read_interfaces(bytes, many, after_super + 2, names)?;
    let more = read_u2(bytes, after_interfaces)?;
    let after_fields = read_fields(bytes, more, after_interfaces + 2, names)?;
    let most = read_u2(bytes, after_fields)?;
    read_methods(alloc, bytes, most, after_fields + 2, names, refs, methods)
}

// No places yet, with room for so many types.
fn make_places(alloc: Global, room: usize) -> Result<Places, AllocError>
    ensures { IfOk result (λ p. HavePlaces p [] [] []) }
{
    let types = Vec::with_capacity(alloc, room)?;
    let firsts = Vec::with_capacity(alloc, room)?;
    Ok(Places {
        types,
        firsts,
        methods: Vec::new(alloc),
    })
}

// Adds the place of a type, and the number of its first method.
fn push_type(places: &mut Places, place: u32, first: u32) -> Result<(), AllocError>
    ensures { OnOk result (HavePlaces places.new (places.old.types.items ++ place ∷ []) (places.old.firsts.items ++ first ∷ []) places.old.methods.items) }
{
    places.types.push(place)?;
    places.firsts.push(first)?;
    Ok(())
}

// So many types, and the place after them. A type takes 22 bytes or more: its row, and its name.
pub(crate) fn read_types(
    alloc: Global,
    bytes: &[u8],
    count: u32,
    at: usize,
    names: &mut [bool],
    refs: &mut [bool],
) -> Result<(Places, usize), ReadError<RecordFault>>
    requires inside { at ≤ length bytes.now }
    requires small { length bytes.now < 2 ^ 32 }
    ensures value { PassesTypes bytes.now (length names.old) (length refs.old) (types_read bytes.now (length names.old) (length refs.old) count at) (used_marks names.old refs.old) (used_marks names.new refs.new) result }
    ensures inside { IfOk result (λ x. x.1 ≤ length bytes.now) }
{
    let mut places = make_places(alloc, (count as usize).min(bytes.len() / 22))?;
    let mut place = at;
    for _ in 0..count {
        let first = places.methods.len();
        let after = read_type(alloc, bytes, place, names, refs, &mut places.methods)?;
        push_type(&mut places, place as u32, first as u32)?;
        place = after;
    }
    Ok((places, place))
}
