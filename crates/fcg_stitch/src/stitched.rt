//! Stitched sets: the call graph of some parts.
ghost use Rattle.std.specs.Prelude.{◌≡◌, ◌<◌, ◌+◌, ℕ, Some, length, slice_get};
ghost use Rattle.fcg_views.specs.declared.view.Site.{Site};
ghost use Rattle.fcg_analysis.specs.Declarations.{Placed};
ghost use Rattle.fcg_analysis.specs.Nodes.{Node};
ghost use Rattle.fcg_analysis.specs.Edges.{edge, edges, status, phantoms, failed};
ghost use Rattle.fcg_join.specs.Parts.{types_of, nodes_of};
ghost use Rattle.fcg_join.specs.Joined.{HasType};
ghost use Rattle.fcg_edges.specs.Rows.{edges_of};
ghost use Rattle.fcg_stitch.specs.Names.{IsNodeAt, IsNameOf, GivesNamed};
ghost use Rattle.fcg_stitch.specs.Status.{status_shown};

use crate::place::{count_sites, find_place};
use crate::status::SiteStatus;
use fcg_edges::EdgeRows;
use fcg_join::{Joined, MethodId, TypeId};
use fcg_partial::{Derived, Part, Parts};
use fcg_views::{Coordinate, MethodUri};
use std::marker::Model;

/// The call graph of some parts. Contracts see it as the parts: its types, nodes, edges and statuses are those of class
/// hierarchy analysis over their views, read together.
#[derive(Drop)]
pub struct Stitched {
    pub(crate) joined: Joined,
    pub(crate) rows: EdgeRows,
    // one for each site, node after node
    pub(crate) statuses: Vec<SiteStatus>,
    // of each node how many sites stand before its own
    pub(crate) firsts: Vec<usize>,
    pub(crate) phantoms: u64,
    pub(crate) failed: u64,
}

impl Model for Stitched {
    ghost use Rattle.std.specs.Prelude.{List};
    ghost use Rattle.fcg_partial.specs.Parts.{PartShown};
    ghost use Rattle.fcg_stitch.specs.Internal.Tables.{AreTables};

    ghost Value = { List PartShown };

    ghost view = { λ s. s.joined };

    ghost invariant = { λ s. AreTables s.joined s.rows s.statuses.items s.firsts.items s.phantoms s.failed };
}

/// It is made from the parts that it is seen as, and these are within the limits of `stitch`.
impl Derived for Stitched {
    ghost use Rattle.std.specs.Prelude.{◌≡◌};
    ghost use Rattle.fcg_stitch.specs.Limits.{IsStitchable};

    ghost made_from = { λ s parts. (s ≡ parts) × IsStitchable parts };
}

/// What a node is named by: the coordinate of its release, its class, its name and its descriptor.
#[derive(Clone, Copy)]
pub struct NodeName<'a> {
    pub coordinate: &'a Coordinate,
    pub class: &'a [u8],
    pub name: &'a [u8],
    pub desc: &'a [u8],
}

// The coordinate of a part.
fn coordinate(part: &Part) -> &Coordinate
    ensures { result.now ≡ part.now.coordinate }
{
    &part.coordinate
}

impl Stitched {
    /// The parts that it is made from. Takes no memory.
    pub fn parts(&self) -> &Parts
        ensures { result.now ≡ self.now }
    {
        self.joined.parts()
    }

    /// The edges, by callers, which are all nodes. Takes no memory.
    pub fn rows(&self) -> &EdgeRows
        ensures count { result.now.count ≡ length (nodes_of self.now) }
        ensures callers { length result.now.targets ≡ length (nodes_of self.now) }
        ensures edges { edges_of result.now ≡ edges (types_of self.now) }
    {
        &self.rows
    }

    /// How many known types there are. Takes no memory.
    pub fn type_count(&self) -> u32
        ensures { result ≡ length (types_of self.now) }
    {
        self.joined.type_count()
    }

    /// How many nodes there are: methods of known types. Takes no memory.
    pub fn node_count(&self) -> u32
        ensures { result ≡ length (nodes_of self.now) }
    {
        self.joined.method_count()
    }

    // The coordinate of the release that a type is of.
    fn coordinate_of(&self, t: TypeId) -> &Coordinate
        requires { t.0 < length (types_of self.now) }
        ensures { (x : Placed) → HasType self.now t x → result.now ≡ x.coordinate }
    {
        let part = self.joined.origin(t).part;
        coordinate(&self.joined.parts().as_slice()[part as usize])
    }

    /// What a node is named by. Takes no memory, and is some looks in tables.
    pub fn node(&self, k: u32) -> NodeName<'_>
        requires { k < length (nodes_of self.now) }
        ensures { (n : Node) → IsNodeAt self.now k n → IsNameOf result n }
    {
        let m = MethodId(k);
        let owner = self.joined.owner(m);
        NodeName {
            coordinate: self.coordinate_of(owner),
            class: self.joined.type_name(owner),
            name: self.joined.method_name(m),
            desc: self.joined.method_desc(m),
        }
    }

    /// The node that is named so. Takes no memory. It looks for the class, the name and the descriptor, each with a logarithm
    /// of the number of all names in comparisons, and compares the coordinate once.
    pub fn find_node(&self, uri: &MethodUri) -> Option<u32>
        ensures { GivesNamed self.now result uri.now }
    {
        let Some(owner) = self.joined.find(uri.class.as_slice()) else {
            return None;
        };
        if self.coordinate_of(owner) != &uri.coordinate {
            return None;
        }
        match self
            .joined
            .declared(owner, uri.name.as_slice(), uri.desc.as_slice())
        {
            Some(m) => Some(m.0),
            None => None,
        }
    }

    /// How many edges there are. Takes no memory, and is one look in a table.
    pub fn edge_count(&self) -> u64
        ensures { result ≡ length (edges (types_of self.now)) }
    {
        self.rows.edge_count()
    }

    /// The edge of a place, from 0, by caller and then by target. Takes no memory: it searches the callers, and then for
    /// each bit of the number of nodes the lists of the caller.
    pub fn edge(&self, k: u64) -> (u32, u32)
        requires { k < length (edges (types_of self.now)) }
        ensures { slice_get (edges (types_of self.now)) k ≡ Some result }
    {
        self.rows.edge(k)
    }

    /// The edge after an edge, by caller and then by target. Takes no memory, and searches each of the caller's lists; after
    /// the caller's last edge it costs as much as `edge`.
    pub fn next_edge(&self, a: u32, b: u32) -> Option<(u32, u32)>
        requires { a < length (nodes_of self.now) }
        ensures { (k : ℕ) → slice_get (edges (types_of self.now)) k ≡ Some (a, b) → result ≡ slice_get (edges (types_of self.now)) (k + 1) }
    {
        self.rows.next_edge(a, b)
    }

    /// Whether an edge leads from a node to another. Takes no memory, and searches each of the caller's lists.
    pub fn has_edge(&self, a: u32, b: u32) -> bool
        requires caller { a < length (nodes_of self.now) }
        requires target { b < length (nodes_of self.now) }
        ensures { (x y : Node) → IsNodeAt self.now a x → IsNodeAt self.now b y → result ≡ edge (types_of self.now) x y }
    {
        self.rows.has_edge(a, b)
    }

    /// How many sites a node has. Takes no memory, and is some looks in tables.
    pub fn site_count(&self, node: u32) -> u32
        requires { node < length (nodes_of self.now) }
        ensures { (n : Node) → IsNodeAt self.now node n → result ≡ length n.method.sites }
    {
        let at = find_place(&self.joined, MethodId(node));
        count_sites(self.joined.parts().as_slice(), at)
    }

    /// What becomes of a site of a node, by its place among the node's. Takes no memory, and is two looks in tables.
    pub fn site_status(&self, node: u32, k: u32) -> SiteStatus
        requires node { node < length (nodes_of self.now) }
        requires site { (n : Node) → IsNodeAt self.now node n → k < length n.method.sites }
        ensures { (n : Node) (site : Site) → IsNodeAt self.now node n → slice_get n.method.sites k ≡ Some site → status_shown result ≡ status (types_of self.now) site }
    {
        self.statuses[self.firsts[node as usize] + k as usize]
    }

    /// How many sites of all nodes are phantoms. Takes no memory.
    pub fn phantoms(&self) -> u64
        ensures { result ≡ phantoms (types_of self.now) }
    {
        self.phantoms
    }

    /// How many sites of all nodes fail. Takes no memory.
    pub fn failed(&self) -> u64
        ensures { result ≡ failed (types_of self.now) }
    {
        self.failed
    }
}
