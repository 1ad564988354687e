//! The constants of a pool, each by its index.
ghost use Rattle.std.specs.Prelude.{◌≡◌, ℕ, ◌≤◌, ◌-◌, length, false, map, Some, Ok, IfOk, IfSome};
ghost use Rattle.fcg_grammar.specs.Reading.{seen, Gives};
ghost use Rattle.fcg_grammar.specs.Rows.{rows};
ghost use Rattle.fcg_classfile.specs.Breaks.Pool.{slot_at};
ghost use Rattle.fcg_pool.specs.Internal.ConstantAt.{slot_in, Lies, IsInside, IsPool};
ghost use Rattle.fcg_pool.specs.Internal.Entry.{next_of, before_first};

use crate::constant::{part_in, read_constant, u2_in};
use crate::groups::are_single;
use fcg_classfile::PoolFault;
use fcg_grammar::ReadError;
use std::alloc::Global;

/// Where the next constant stands, and whether the next index is the second of a Long or Double.
#[derive(Clone, Copy)]
pub struct Next {
    pub at: usize,
    pub second: bool,
}

// The place after the Utf8 that stands at a place, where each of its bytes is a group of its own. It is None for a Utf8
// with other bytes, for any other constant, and for one that passes the end. Most constants are such texts, and they are
// read here in a few steps.
#[tactic(auto, using(crate::proofs::ConstantLemmas::single_slot, crate::proofs::ConstantLemmas::single_lies))]
fn single_text_end(bytes: &[u8], at: usize) -> Option<usize>
    requires { at ≤ length bytes.now }
    ensures value { IfSome result (λ after. (index : ℕ) → slot_at bytes.now index (before_first at) ≡ Ok (slot_in bytes.now (Some at), before_first after)) }
    ensures inside { IfSome result (λ after. (after ≤ length bytes.now) × Lies bytes.now at) }
{
    if bytes.len() - at < 3 || bytes[at] != 1 {
        return None;
    }
    let len = usize::from(u2_in(bytes, at + 1));
    if bytes.len() - at - 3 < len || !are_single(part_in(bytes, at + 3, len)) {
        return None;
    }
    Some(at + 3 + len)
}

// The place of the constant of an index, and what comes next.
#[tactic(auto, unfolding(fcg_classfile::specs::Breaks::Pool::slot_at))]
fn read_slot(bytes: &[u8], index: u16, next: Next) -> Result<(Option<usize>, Next), PoolFault>
    requires { next.at ≤ length bytes.now }
    ensures value { seen (λ x. (slot_in bytes.now x.0, next_of x.1)) result ≡ slot_at bytes.now index (next_of next) }
    ensures inside { IfOk result (λ x. (x.1.at ≤ length bytes.now) × IsInside bytes.now x.0) }
{
    if next.second {
        return Ok((
            None,
            Next {
                at: next.at,
                second: false,
            },
        ));
    }
    if let Some(after) = single_text_end(bytes, next.at) {
        return Ok((
            Some(next.at),
            Next {
                at: after,
                second: false,
            },
        ));
    }
    let (entry, after) = read_constant(bytes, index, next.at)?;
    Ok((
        Some(next.at),
        Next {
            at: after,
            second: entry.is_wide(),
        },
    ))
}

/// The places of the constants, by their indexes from 1 on, and the place after the last.
pub fn read_slots(
    alloc: Global,
    bytes: &[u8],
    count: u16,
    at: usize,
) -> Result<(Vec<Option<usize>>, Next), ReadError<PoolFault>>
    requires { at ≤ length bytes.now }
    ensures value { Gives (λ x. (map (slot_in bytes.now) x.0.items, next_of x.1)) result (rows (slot_at bytes.now) (count - 1) 1 (before_first at)) }
    ensures inside { IfOk result (λ x. (x.1.at ≤ length bytes.now) × IsPool bytes.now x.0.items) }
{
    let mut places = Vec::with_capacity(alloc, usize::from(count))?;
    let mut next = Next { at, second: false };
    for index in 1..count {
        let (place, after) = read_slot(bytes, index, next)?;
        places.push(place)?;
        next = after;
    }
    Ok((places, next))
}
