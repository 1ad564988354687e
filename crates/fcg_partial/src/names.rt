//! The table of names.
ghost use Rattle.std.specs.Prelude.{◌≡◌, ◌≤◌, ◌<◌, ◌+◌, ◌^◌, ℕ, length, map, IfOk};
ghost use Rattle.std.specs.List.{AllByRecursion};
ghost use Rattle.fcg_grammar.specs.Number.{u2};
ghost use Rattle.fcg_grammar.specs.Reading.{seen, Gives};
ghost use Rattle.fcg_partial.specs.Reading.{is_above, name_at, names_at};
ghost use Rattle.fcg_partial.specs.Internal.RowPlaces.{text_at, HasText, Follow, after_row, of_last, names_read};

use crate::fault::{RecordFault, RecordRule, fault_at};
use crate::number::{read_part, read_u2, read_u4};
use fcg_grammar::ReadError;
use std::alloc::Global;

// Whether a name comes after the one before it.
fn comes_after(last: Option<&[u8]>, name: &[u8]) -> bool
    ensures { result ≡ is_above (of_last last.entry) name.now }
{
    match last {
        None => true,
        Some(before) => before.cmp(name).is_lt(),
    }
}

// The name at a place, and where the next begins.
#[tactic(auto, unfolding(crate::specs::Reading::name_at), using(crate::proofs::TableRows::text_is))]
fn read_name<'a>(
    bytes: &'a [u8],
    at: usize,
    last: Option<&[u8]>,
) -> Result<(&'a [u8], usize), RecordFault>
    requires { at ≤ length bytes.now }
    ensures value { (k : ℕ) → seen (λ x. (x.0.now, after_row x.1 x.0.now)) result ≡ name_at bytes.now k (record { at = at; last = of_last last.entry }) }
    ensures inside { IfOk result (λ x. x.1 ≤ length bytes.now) }
    ensures text { IfOk result (λ x. (text_at bytes.now at ≡ x.0.now) × HasText bytes.now at) }
    ensures next { IfOk result (λ x. x.1 ≡ at + 2 + u2 bytes.now at) }
{
    let size = read_u2(bytes, at)?;
    let name = read_part(bytes, at + 2, usize::from(size))?;
    if !comes_after(last, name) {
        return Err(fault_at(at, RecordRule::Order));
    }
    Ok((name, at + 2 + usize::from(size)))
}

// The places of so many names. A name takes six bytes or more: its length, and four where its number stands.
fn read_names(
    alloc: Global,
    bytes: &[u8],
    count: u32,
    at: usize,
) -> Result<(Vec<u32>, usize), ReadError<RecordFault>>
    requires inside { at ≤ length bytes.now }
    requires small { length bytes.now < 2 ^ 32 }
    ensures value { Gives (λ x. (map (text_at bytes.now) x.0.items, x.1)) result (names_read bytes.now count at) }
    ensures inside { IfOk result (λ x. x.1 ≤ length bytes.now) }
    ensures texts { IfOk result (λ x. AllByRecursion (HasText bytes.now) x.0.items) }
    ensures follow { IfOk result (λ x. Follow bytes.now at x.0.items x.1) }
{
    let mut places = Vec::with_capacity(alloc, (count as usize).min(bytes.len() / 6))?;
    let mut place = at;
    let mut last: Option<&[u8]> = None;
    for _ in 0..count {
        let (name, after) = read_name(bytes, place, last)?;
        places.push(place as u32)?;
        last = Some(name);
        place = after;
    }
    Ok((places, place))
}

// The places of the names of the table at a place, and where it ends.
#[tactic(auto, unfolding(crate::specs::Reading::names_at))]
pub(crate) fn read_name_table(
    alloc: Global,
    bytes: &[u8],
    at: usize,
) -> Result<(Vec<u32>, usize), ReadError<RecordFault>>
    requires inside { at ≤ length bytes.now }
    requires small { length bytes.now < 2 ^ 32 }
    ensures value { Gives (λ x. (map (text_at bytes.now) x.0.items, x.1)) result (names_at bytes.now at) }
    ensures inside { IfOk result (λ x. x.1 ≤ length bytes.now) }
    ensures texts { IfOk result (λ x. AllByRecursion (HasText bytes.now) x.0.items) }
    ensures follow { IfOk result (λ x. Follow bytes.now (at + 4) x.0.items x.1) }
{
    let count = read_u4(bytes, at)?;
    read_names(alloc, bytes, count, at + 4)
}
