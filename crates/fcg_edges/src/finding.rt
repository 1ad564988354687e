//! Edges by their places.
ghost use Rattle.std.specs.Prelude.{◌≡◌, ℕ, ◌+◌, ◌<◌, ◌≤◌, ◌||◌, Bool, true, length, filter, slice_get, Some};
ghost use Rattle.std.specs.List.{range_with_len};
ghost use Rattle.std.specs.List.Sorted.{IsStrictlyIncreasing};
ghost use Rattle.fcg_order.specs.Links.{row};
ghost use Rattle.fcg_edges.specs.Rows.{has, any_has, leads, edges_of};
ghost use Rattle.fcg_edges.specs.Internal.Counts.{edges_before, IsNext};

use crate::edge_rows::EdgeRows;

impl EdgeRows {
    /// Whether a caller leads to a node. Takes no memory, and searches each of the caller's lists.
    pub fn has_edge(&self, a: u32, b: u32) -> bool
        requires { a < length self.now.targets }
        ensures { result ≡ leads self.now a b }
    {
        has_number(self.targets(a), b) || self.has_listed(a, b)
    }

    /// The edge of a place, from 0, by caller and then by target. Takes no memory: it searches the callers, and then for
    /// each bit of the number of nodes the lists of the caller.
    pub fn edge(&self, k: u64) -> (u32, u32)
        requires { k < length (edges_of self.now) }
        ensures { slice_get (edges_of self.now) k ≡ Some result }
    {
        let a = self.find_caller(k);
        let first = self.firsts[a as usize];
        (a, self.find_target(a, (k - first) as u32))
    }

    /// The edge after an edge, by caller and then by target. Takes no memory, and searches each of the caller's lists; where
    /// it was the caller's last edge, it costs as much as `edge`.
    pub fn next_edge(&self, a: u32, b: u32) -> Option<(u32, u32)>
        requires { a < length self.now.targets }
        ensures { (k : ℕ) → slice_get (edges_of self.now) k ≡ Some (a, b) → result ≡ slice_get (edges_of self.now) (k + 1) }
    {
        // The proof knows from here on how rows are kept.
        let _firsts = &self.firsts;
        match self.next_target(a, b) {
            Some(target) => Some((a, target)),
            None => self.first_after(a),
        }
    }

    // Whether one of the lists of a caller has a node.
    fn has_listed(&self, a: u32, b: u32) -> bool
        requires { a < length self.now.targets }
        ensures { result ≡ any_has self.now.lists (row self.now.uses a) b }
    {
        for l in self.uses(a) {
            if has_number(self.list(*l), b) {
                return true;
            }
        }
        false
    }

    // The caller of the edge of a place.
    fn find_caller(&self, k: u64) -> u32
        requires { k < length (edges_of self.now) }
        ensures there { result < length self.now.targets }
        ensures from { edges_before self.now result ≤ k }
        ensures until { k < edges_before self.now (result + 1) }
    {
        (self.firsts.partition_point(|first| *first <= k) - 1) as u32
    }

    // The target of a caller that has so many targets before it.
    fn find_target(&self, a: u32, j: u32) -> u32
        requires caller { a < length self.now.targets }
        requires more { j < length (filter (leads self.now a) (range_with_len 0 self.now.count)) }
        ensures node { result < self.now.count }
        ensures target { leads self.now a result ≡ true }
        ensures before { length (filter (leads self.now a) (range_with_len 0 result)) ≡ j }
    {
        let mut low = 0;
        let mut high = self.node_count();
        while high - low > 1 {
            let middle = low + (high - low) / 2;
            if self.count_before(a, middle) <= j {
                low = middle;
            } else {
                high = middle;
            }
        }
        low
    }

    // The first target of a caller after a node.
    fn next_target(&self, a: u32, b: u32) -> Option<u32>
        requires { a < length self.now.targets }
        ensures { IsNext (leads self.now a) b result }
    {
        let mut next = first_above(self.targets(a), b);
        for l in self.uses(a) {
            next = lesser(next, first_above(self.list(*l), b));
        }
        next
    }

    // The first edge of the callers after a caller.
    fn first_after(&self, a: u32) -> Option<(u32, u32)>
        requires { a < length self.now.targets }
        ensures { result ≡ slice_get (edges_of self.now) (edges_before self.now (a + 1)) }
    {
        let place = self.firsts[a as usize + 1];
        if place == self.edge_count() {
            return None;
        }
        Some(self.edge(place))
    }
}

// Whether a row that rises has a number.
fn has_number(row: &[u32], number: u32) -> bool
    requires { IsStrictlyIncreasing row.now }
    ensures { result ≡ has row.now number }
{
    row.binary_search(&number).is_ok()
}

// The first number of a row that rises above a bound.
fn first_above(row: &[u32], bound: u32) -> Option<u32>
    requires { IsStrictlyIncreasing row.now }
    ensures { IsNext (has row.now) bound result }
{
    let place = row.partition_point(|number| *number <= bound);
    row.get(place).copied()
}

// The lesser of two numbers, where there is one.
fn lesser(x: Option<u32>, y: Option<u32>) -> Option<u32>
    ensures { (p q : ℕ → Bool) (b : ℕ) → IsNext p b x → IsNext q b y → IsNext (λ k. p k || q k) b result }
{
    match (x, y) {
        (Some(x), Some(y)) => Some(x.min(y)),
        (Some(x), None) => Some(x),
        (None, y) => y,
    }
}
