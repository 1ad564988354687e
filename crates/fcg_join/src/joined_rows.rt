//! Rows of numbers that are joined along links.
ghost use Rattle.std.specs.Prelude.{◌≡◌, ◌<◌, ◌^◌, ◌++◌, ◌∷◌, [], ℕ, All, Contains, IfOk, OnOk, flat_map, length, map, slice_set};
ghost use Rattle.std.specs.List.{range_with_len};
ghost use Rattle.std.specs.List.Sorted.{IsStrictlyIncreasing};
ghost use Rattle.fcg_order.specs.Links.{row, IsWithin, IsCircular};
ghost use Rattle.fcg_order.specs.Order.{IsOrder};
ghost use Rattle.fcg_join.specs.Internal.Mentions.{row_of, HasRow, AreSorted, AreJoinedRows, AreTurnedRows};

use fcg_order::{Links, Links as Rows, turn_rows};
use std::alloc::{AllocError, Global};

// How many numbers the rows have in sum at most.
const LIMIT: usize = 67_108_864;

/// Of each node a row of numbers.
#[derive(Drop)]
pub struct JoinedRows {
    /// The rows, in the order against the links.
    pub rows: Rows,
    /// Of each node the place of its row.
    pub places: Vec<u32>,
}

// Sorts a row, and drops repeats.
pub(crate) fn sort_distinct(row: &mut Vec<u32>)
    ensures { AreSorted row.old.items row.new.items }
{
    row.sort_unstable();
    row.dedup();
}

impl JoinedRows {
    // The row of a node.
    pub(crate) fn row(&self, node: u32) -> &[u32]
        requires { HasRow self.now node }
        ensures { result.now ≡ row_of self.now node }
    {
        self.rows.row(self.places[node as usize] as usize)
    }

    // Adds the rows of the nodes to which a node links. There is no memory for a row above the limit.
    fn push_linked(
        &self,
        row: &mut Vec<u32>,
        linked: &[u32],
        limit: usize,
    ) -> Result<(), AllocError>
        requires { All (HasRow self.now) linked.now }
        ensures { OnOk result (row.new.items ≡ row.old.items ++ flat_map (row_of self.now) linked.now) }
    {
        for node in linked {
            let inherited = self.row(*node);
            if inherited.len() > limit.saturating_sub(row.len()) {
                return Err(AllocError);
            }
            row.extend_from_slice(inherited)?;
        }
        Ok(())
    }

    // Fills a row with a node's own numbers and those of the rows to which the node links.
    fn fill_row(
        &self,
        row: &mut Vec<u32>,
        own: &[u32],
        linked: &[u32],
        limit: usize,
    ) -> Result<(), AllocError>
        requires { All (HasRow self.now) linked.now }
        ensures { OnOk result (AreSorted (own.now ++ flat_map (row_of self.now) linked.now) row.new.items) }
    {
        row.clear();
        row.extend_from_slice(own)?;
        self.push_linked(row, linked, limit)?;
        sort_distinct(row);
        Ok(())
    }

    // Adds the row of a node.
    fn add(&mut self, node: u32, row: &[u32]) -> Result<(), AllocError>
        requires node { node < length self.old.places.items }
        requires few { length self.old.rows < 2 ^ 32 }
        ensures places { OnOk result (self.new.places.items ≡ slice_set self.old.places.items node (length self.old.rows)) }
        ensures rows { OnOk result (self.new.rows ≡ self.old.rows ++ row.now ∷ []) }
    {
        self.places[node as usize] = self.rows.len() as u32;
        self.rows.push_row(row)
    }

    // The rows in the order of the nodes.
    fn list_rows(&self, alloc: Global) -> Result<Rows, AllocError>
        requires few { length self.now.places.items < 2 ^ 32 }
        requires there { (x : ℕ) → x < length self.now.places.items → HasRow self.now x }
        ensures { IfOk result (λ rows. rows ≡ map (row_of self.now) (range_with_len 0 (length self.now.places.items))) }
    {
        let mut rows = Rows::new(alloc)?;
        for node in 0..self.places.len() {
            rows.push_row(self.row(node as u32))?;
        }
        Ok(rows)
    }

    // Of each number below the count the nodes whose rows have it.
    pub(crate) fn turn(&self, alloc: Global, count: usize) -> Result<Rows, AllocError>
        requires few { length self.now.places.items < 2 ^ 32 }
        requires few_numbers { count < 2 ^ 32 }
        requires there { (x : ℕ) → x < length self.now.places.items → HasRow self.now x }
        requires below { (x n : ℕ) → x < length self.now.places.items → Contains (row_of self.now x) n → n < count }
        requires rise { (x : ℕ) → x < length self.now.places.items → IsStrictlyIncreasing (row_of self.now x) }
        ensures { IfOk result (λ turned. AreTurnedRows self.now count turned) }
    {
        let rows = self.list_rows(alloc)?;
        turn_rows(alloc, &rows, count)
    }
}

// Of each node its own numbers and those of the rows to which it links, where no links lead in a circle.
//
// It goes over each link once, and sorts for each node what it has and what it gets. There is no memory for rows above the
// limit in sum.
pub(crate) fn join_rows(
    alloc: Global,
    own: &Rows,
    links: &Links,
    order: &[u32],
) -> Result<JoinedRows, AllocError>
    requires few { length links.now < 2 ^ 32 }
    requires long { length own.now ≡ length links.now }
    requires within { IsWithin links.now }
    requires acyclic { (x : ℕ) → x < length links.now → ¬ IsCircular links.now x }
    requires order { IsOrder links.now order.now }
    ensures { IfOk result (λ r. AreJoinedRows links.now own.now r) }
{
    let places = vec![in alloc; 0; links.len()]?;
    let rows = Rows::new(alloc)?;
    let mut joined = JoinedRows { rows, places };
    let mut row = Vec::new(alloc);
    let mut left = LIMIT;
    for node in order {
        let place = *node as usize;
        joined.fill_row(&mut row, own.row(place), links.row(place), left)?;
        left = left.checked_sub(row.len()).ok_or(AllocError)?;
        joined.add(*node, &row)?;
    }
    Ok(joined)
}
