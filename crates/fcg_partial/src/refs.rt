//! The table of references.
ghost use Rattle.std.specs.Prelude.{◌≡◌, ◌≤◌, ◌+◌, ◌*◌, ℕ, length, OnOk, IfOk};
ghost use Rattle.fcg_grammar.specs.Reading.{seen};
ghost use Rattle.fcg_partial.specs.Reading.{ref_at, is_above};
ghost use Rattle.fcg_partial.specs.Graph.{ref_uses};
ghost use Rattle.fcg_partial.specs.Internal.UsedNumbers.{marked, Passes, refs_read, refs_uses};
ghost use Rattle.fcg_partial.specs.Internal.RowPlaces.{after_row, same_row, first_row};

use crate::fault::{RecordFault, RecordRule, fault_at};
use crate::marks::{read_flag, read_index};

// Whether a row comes after the one before it.
fn row_after(last: &Option<[u32; 4]>, row: &[u32; 4]) -> bool
    ensures { result ≡ is_above last.now row.now }
{
    match last {
        None => true,
        Some(before) => before.cmp(row).is_lt(),
    }
}

// The reference at a place. Its names are marked as used.
#[tactic(auto, unfolding(crate::specs::Reading::ref_at))]
fn read_ref(
    bytes: &[u8],
    at: usize,
    last: &Option<[u32; 4]>,
    used: &mut [bool],
) -> Result<[u32; 4], RecordFault>
    requires { at ≤ length bytes.now }
    ensures value { (k : ℕ) → seen (λ row. (same_row row, after_row (at + 4 + 1 + 4 + 4) row)) result ≡ ref_at bytes.now (length used.old) k (record { at = at; last = last.now }) }
    ensures inside { OnOk result (at + 4 + 1 + 4 + 4 ≤ length bytes.now) }
    ensures marks { IfOk result (λ row. used.new ≡ marked used.old (ref_uses row)) }
{
    let owner = read_index(bytes, at, used)?;
    let interface = read_flag(bytes, at + 4)?;
    let name = read_index(bytes, at + 4 + 1, used)?;
    let desc = read_index(bytes, at + 4 + 1 + 4, used)?;
    let row = [owner, u32::from(interface), name, desc];
    if !row_after(last, &row) {
        return Err(fault_at(at, RecordRule::Order));
    }
    Ok(row)
}

// So many references, and where they end.
pub(crate) fn read_refs(
    bytes: &[u8],
    count: u32,
    at: usize,
    used: &mut [bool],
) -> Result<usize, RecordFault>
    requires { at ≤ length bytes.now }
    ensures value { Passes refs_uses (refs_read bytes.now (length used.old) count (first_row at)) used.old used.new result }
    ensures inside { IfOk result (λ after. (after ≤ length bytes.now) × (after ≡ at + 13 * count)) }
{
    let mut place = at;
    let mut last: Option<[u32; 4]> = None;
    for _ in 0..count {
        let row = read_ref(bytes, place, &last, used)?;
        last = Some(row);
        place += 4 + 1 + 4 + 4;
    }
    Ok(place)
}
