//! Stitching.
ghost use Rattle.std.specs.Prelude.{◌≡◌, ◌≤◌, ◌+◌, ◌-◌, ◌^◌, IfOk, IfErr, min};
ghost use Rattle.fcg_partial.specs.Parts.{encoded_len};
ghost use Rattle.fcg_join.specs.Parts.{types_of};
ghost use Rattle.fcg_stitch.specs.Limits.{IsStitchable, Refuses, call_sites};

use crate::callers::stitch_nodes;
use crate::refusal::StitchRefusal;
use crate::status::{count_failed, count_phantoms};
use crate::stitched::Stitched;
use fcg_join::Joined;
use fcg_partial::{Part, Parts};
use fcg_views::Steps;
use std::alloc::Global;
use std::sync::ledger::Ledger;

// How many bytes the graphs of the parts have in sum, at most 2^64 - 1.
fn count_bytes(parts: &[Part]) -> u64
    ensures { result ≡ min (encoded_len parts.now) (2 ^ 64 - 1) }
{
    let mut bytes = 0u64;
    for part in parts {
        bytes = bytes.saturating_add(part.graph.encoded_len());
    }
    bytes
}

/// The call graph of the parts, of which the first that has a type decides.
///
/// It joins the parts, and then goes once over the sites of the known types. Each reference of a part with which some of
/// these call is resolved once, and counts one step; where a virtual or interface site calls with it, a method is selected
/// once for each class at or below its owner. Lists of targets are shared, and edges are counted without being listed. It is
/// refused where the graphs have more than 268,435,456 bytes in sum, before anything is made, and where there are more than
/// 32,000,000 edges, as soon as so many are counted.
pub fn stitch<L: Ledger>(
    alloc: Global,
    parts: &Parts,
    steps: &mut Steps<L>,
) -> Result<Stitched, StitchRefusal>
    ensures made { IfOk result (λ s. s ≡ parts.now) }
    ensures fits { IfOk result (λ s. IsStitchable parts.now) }
    ensures refused { IfErr result (Refuses parts.now) }
    ensures cost { steps.new ≤ steps.old + call_sites (types_of parts.now) }
    ensures rises { steps.old ≤ steps.new }
{
    if !Joined::fits(parts) {
        return Err(StitchRefusal::SetTooLarge {
            bytes: count_bytes(parts.as_slice()),
        });
    }
    let joined = Joined::new(alloc, parts)?;
    let tables = stitch_nodes(alloc, &joined, steps)?;
    let phantoms = count_phantoms(tables.statuses.as_slice());
    let failed = count_failed(tables.statuses.as_slice());
    Ok(Stitched {
        joined,
        rows: tables.rows,
        statuses: tables.statuses,
        firsts: tables.firsts,
        phantoms,
        failed,
    })
}
