//! The lists that a caller uses.
ghost use Rattle.std.specs.Prelude.{◌≡◌, ◌<◌, ℕ, All, IfOk, OnOk, length, ◌++◌, flat_map};
ghost use Rattle.std.specs.List.Sorted.{IsPermutation};
ghost use Rattle.fcg_order.specs.Links.{row};
ghost use Rattle.fcg_edges.specs.Rows.{IsList, has, any_has};
ghost use Rattle.fcg_edges.specs.Internal.Making.{AreKept, AreMarkedBy, AreUses, AreWithLists};

use crate::edge_rows::EdgeRows;
use crate::marking::{mark_list, sort_distinct};
use std::alloc::{AllocError, Global};
use std::cmp::Reverse;

// Lists that a caller uses, and whether two of them may have a target in common.
#[derive(Drop)]
struct KeptLists {
    lists: Vec<u32>,
    overlap: bool,
}

// How many targets a list has, or 0 where there is no list.
fn list_len(rows: &EdgeRows, l: u32) -> usize {
    if l < rows.list_count() {
        rows.list(l).len()
    } else {
        0
    }
}

// Sorts lists by how many targets they have, the longest first.
fn sort_by_length(uses: &mut Vec<u32>, rows: &EdgeRows)
    ensures { IsPermutation uses.old.items uses.new.items }
{
    uses.sort_unstable_by_key(|l| Reverse(list_len(rows, *l)));
}

// Keeps the lists that have a target without a mark of this turn, and marks their targets.
fn keep_lists(
    alloc: Global,
    rows: &EdgeRows,
    marks: &mut [u32],
    uses: &[u32],
    turn: u32,
) -> Result<KeptLists, AllocError>
    requires uses { All (λ l. l < length rows.now.lists) uses.now }
    requires long { length marks.old ≡ rows.now.count }
    requires unmarked { All (λ mark. mark < turn) marks.old }
    ensures marked { OnOk result (AreMarkedBy turn (any_has rows.now.lists uses.now) marks.old marks.new) }
    ensures kept { IfOk result (λ k. AreKept rows.now.lists uses.now k.lists.items k.overlap) }
{
    let mut lists = Vec::new(alloc);
    let mut overlap = false;
    for l in uses {
        let list = rows.list(*l);
        let fresh = mark_list(marks, list, turn);
        if fresh > 0 {
            lists.push(*l)?;
            overlap |= fresh < list.len();
        }
    }
    Ok(KeptLists { lists, overlap })
}

// Adds the targets of lists.
fn push_targets(numbers: &mut Vec<u32>, rows: &EdgeRows, uses: &[u32]) -> Result<(), AllocError>
    requires { All (λ l. l < length rows.now.lists) uses.now }
    ensures items { OnOk result (numbers.new.items ≡ numbers.old.items ++ flat_map (row rows.now.lists) uses.now) }
    ensures below { OnOk result (All (λ b. b < rows.now.count) numbers.old.items → All (λ b. b < rows.now.count) numbers.new.items) }
{
    for l in uses {
        numbers.extend_from_slice(rows.list(*l))?;
    }
    Ok(())
}

// The targets of lists, as one list.
fn join_targets(alloc: Global, rows: &EdgeRows, uses: &[u32]) -> Result<Vec<u32>, AllocError>
    requires { All (λ l. l < length rows.now.lists) uses.now }
    ensures list { IfOk result (λ numbers. IsList rows.now.count numbers.items) }
    ensures same { IfOk result (λ numbers. (b : ℕ) → has numbers.items b ≡ any_has rows.now.lists uses.now b) }
{
    let mut numbers = Vec::new(alloc);
    push_targets(&mut numbers, rows, uses)?;
    sort_distinct(&mut numbers);
    Ok(numbers)
}

// Writes lists out as one list more, which alone is used in their place.
fn join_lists(alloc: Global, rows: &mut EdgeRows, uses: &[u32]) -> Result<Vec<u32>, AllocError>
    requires { All (λ l. l < length rows.old.lists) uses.now }
    ensures rows { OnOk result (AreWithLists rows.old rows.new) }
    ensures uses { IfOk result (λ kept. AreUses rows.old.lists rows.new.lists uses.now kept.items) }
{
    let numbers = join_targets(alloc, rows, uses)?;
    let l = rows.push_list(&numbers)?;
    vec![in alloc; l; 1]
}

// The lists that a caller uses in place of those that it names, no two with a target in common. Their targets get the mark of
// this turn.
pub(crate) fn find_uses(
    alloc: Global,
    rows: &mut EdgeRows,
    marks: &mut [u32],
    uses: &mut Vec<u32>,
    turn: u32,
) -> Result<Vec<u32>, AllocError>
    requires uses { All (λ l. l < length rows.old.lists) uses.old.items }
    requires long { length marks.old ≡ rows.old.count }
    requires unmarked { All (λ mark. mark < turn) marks.old }
    ensures rows { OnOk result (AreWithLists rows.old rows.new) }
    ensures marked { OnOk result (AreMarkedBy turn (any_has rows.old.lists uses.old.items) marks.old marks.new) }
    ensures uses { IfOk result (λ kept. AreUses rows.old.lists rows.new.lists uses.old.items kept.items) }
{
    sort_by_length(uses, rows);
    let kept = keep_lists(alloc, rows, marks, uses, turn)?;
    if kept.overlap {
        return join_lists(alloc, rows, &kept.lists);
    }
    Ok(kept.lists)
}
