//! Links between numbered nodes.
ghost use Rattle.std.specs.Prelude.{◌≡◌, ◌<◌, ◌++◌, ◌∷◌, ◌↔◌, [], length, All, IfOk, OnOk, OnErr, IsTrue};
ghost use Rattle.fcg_order.specs.Links.{row, IsWithin};
ghost use Rattle.fcg_order.specs.Internal.Rows.{rows_of, AreStarts};

use std::alloc::{AllocError, Global};
use std::marker::Model;

/// Of each node the nodes to which it links. Nodes are numbered from 0 on in the order in which they are added, and
/// contracts see the list of their rows. A node has eight bytes, and a link four.
#[derive(Drop)]
pub struct Links {
    // where each row starts among the targets, and where the last ends
    starts: Vec<usize>,
    targets: Vec<u32>,
}

impl Model for Links {
    ghost use Rattle.std.specs.Prelude.{ℕ, List};
    ghost use Rattle.fcg_order.specs.Internal.Rows.{rows_of, AreStarts};

    ghost Value = { List (List ℕ) };

    ghost view = { λ l. rows_of l.starts.items l.targets.items };

    ghost invariant = { λ l. AreStarts l.starts.items l.targets.items };
}

// Whether each of the numbers is below a count.
fn are_below(numbers: &[u32], count: usize) -> bool
    ensures { IsTrue result ↔ All (λ x. x < count) numbers.now }
{
    numbers.iter().all(|number| (*number as usize) < count)
}

impl Links {
    /// Links of no node. The only error is want of memory.
    pub fn new(alloc: Global) -> Result<Links, AllocError>
        ensures { IfOk result (λ l. l ≡ []) }
    {
        let starts = vec![in alloc; 0; 1]?;
        let targets = Vec::new(alloc);
        Ok(Links { starts, targets })
    }

    // The rows between these starts.
    pub(crate) fn from_starts(starts: Vec<usize>, targets: Vec<u32>) -> Links
        requires { AreStarts starts.items targets.items }
        ensures { result ≡ rows_of starts.items targets.items }
    {
        Links { starts, targets }
    }

    /// Adds a node with those to which it links, in any order, also ones that are added later. The only error is want of
    /// memory.
    pub fn push_row(&mut self, row: &[u32]) -> Result<(), AllocError>
        ensures ok { OnOk result (self.new ≡ self.old ++ row.now ∷ []) }
        ensures err { OnErr result (self.new ≡ self.old) }
    {
        self.starts.reserve(1)?;
        self.targets.extend_from_slice(row)?;
        self.starts.push(self.targets.len()).unwrap();
        Ok(())
    }

    /// How many nodes there are.
    pub fn len(&self) -> usize
        ensures { result ≡ length self.now }
    {
        self.starts.len() - 1
    }

    /// Whether there is no node.
    pub fn is_empty(&self) -> bool
        ensures { IsTrue result ↔ (self.now ≡ []) }
    {
        self.len() == 0
    }

    /// The nodes to which a node links.
    pub fn row(&self, node: usize) -> &[u32]
        requires { node < length self.now }
        ensures { result.now ≡ row self.now node }
    {
        let (front, _) = self.targets.split_at(self.starts[node + 1]);
        let (_, row) = front.split_at(self.starts[node]);
        row
    }

    /// Whether each link leads to a node. It goes over all links.
    pub fn is_within(&self) -> bool
        ensures { IsTrue result ↔ IsWithin self.now }
    {
        let count = self.len();
        for node in 0..count {
            if !are_below(self.row(node), count) {
                return false;
            }
        }
        true
    }
}
