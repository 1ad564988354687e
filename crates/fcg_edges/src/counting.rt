//! How many edges there are.
ghost use Rattle.std.specs.Prelude.{◌≡◌, ◌≤◌, ◌<◌, length, filter};
ghost use Rattle.std.specs.List.{range_with_len};
ghost use Rattle.std.specs.List.Sorted.{IsStrictlyIncreasing};
ghost use Rattle.fcg_edges.specs.Rows.{has, leads, edges_of};
ghost use Rattle.fcg_edges.specs.Internal.Counts.{count_to};

use crate::edge_rows::EdgeRows;

impl EdgeRows {
    /// How many edges there are. Takes no memory, and is one look in a table.
    pub fn edge_count(&self) -> u64
        ensures { result ≡ length (edges_of self.now) }
    {
        self.firsts[self.firsts.len() - 1]
    }

    // How many targets of a caller stand before a node.
    pub(crate) fn count_before(&self, a: u32, b: u32) -> u32
        requires caller { a < length self.now.targets }
        requires node { b ≤ self.now.count }
        ensures { result ≡ length (filter (leads self.now a) (range_with_len 0 b)) }
    {
        // The proof knows from here on how rows are kept.
        let _firsts = &self.firsts;
        let mut count = count_below(self.targets(a), b);
        for l in self.uses(a) {
            count += count_below(self.list(*l), b);
        }
        count
    }
}

// How many numbers of a row that rises are below a bound.
fn count_below(row: &[u32], bound: u32) -> u32
    requires { IsStrictlyIncreasing row.now }
    ensures { result ≡ count_to (has row.now) bound }
{
    row.partition_point(|number| *number < bound) as u32
}
