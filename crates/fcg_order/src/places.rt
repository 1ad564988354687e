//! Places of the nodes of a forest.
ghost use Rattle.std.specs.Prelude.{◌≡◌, ◌<◌, ◌+◌, ◌^◌, length, IfOk, OnOk};
ghost use Rattle.fcg_order.specs.Places.{IsForest, ArePlaces};
ghost use Rattle.fcg_order.specs.Internal.Places.{slot, AreSizes, AreEntered};

use std::alloc::{AllocError, Global};

/// Of each node of a forest an interval of places, which has the places of the nodes below it.
#[derive(Drop)]
pub struct Places {
    /// Of each node its place.
    pub enter: Vec<u32>,
    /// Of each node the place after that of the last node below it. At the end stands one number more.
    pub leave: Vec<u32>,
    /// The node at each place.
    pub nodes: Vec<u32>,
}

// The parent of a node, or the count of nodes.
fn slot(parents: &[Option<u32>], node: u32) -> usize
    requires { node < length parents.now }
    ensures { result ≡ slot parents.now node }
{
    match parents[node as usize] {
        Some(parent) => parent as usize,
        None => parents.len(),
    }
}

// Adds the size of a node to that of its parent, where the nodes after it have added theirs.
fn add_size(sizes: &mut [u32], parents: &[Option<u32>], order: &[u32], i: usize)
    requires few { length parents.now < 2 ^ 32 }
    requires forest { IsForest parents.now order.now }
    requires there { i < length order.now }
    requires sizes { AreSizes parents.now order.now sizes.old (i + 1) }
    ensures { AreSizes parents.now order.now sizes.new i }
{
    let node = order[i];
    let size = sizes[node as usize];
    sizes[slot(parents, node)] += size;
}

// Of each node how many nodes have it on their lines, and at the end a number for all.
fn find_sizes(alloc: Global, parents: &[Option<u32>], order: &[u32]) -> Result<Vec<u32>, AllocError>
    requires few { length parents.now < 2 ^ 32 }
    requires forest { IsForest parents.now order.now }
    ensures { IfOk result (λ sizes. AreSizes parents.now order.now sizes.items 0) }
{
    let mut sizes = vec![in alloc; 1u32; parents.len() + 1]?;
    sizes[parents.len()] = 0;
    let mut i = order.len();
    while i > 0 {
        i -= 1;
        add_size(&mut sizes, parents, order, i);
    }
    Ok(sizes)
}

// Gives a node the next place at its parent, where the nodes before it have theirs.
fn enter_node(
    enter: &mut [u32],
    next: &mut [u32],
    parents: &[Option<u32>],
    order: &[u32],
    sizes: &[u32],
    i: usize,
)
    requires few { length parents.now < 2 ^ 32 }
    requires forest { IsForest parents.now order.now }
    requires there { i < length order.now }
    requires sizes { AreSizes parents.now order.now sizes.now 0 }
    requires entered { AreEntered parents.now order.now sizes.now enter.old next.old i }
    ensures { AreEntered parents.now order.now sizes.now enter.new next.new (i + 1) }
{
    let node = order[i];
    let slot = slot(parents, node);
    let place = next[slot];
    next[slot] = place + sizes[node as usize];
    enter[node as usize] = place;
    next[node as usize] = place + 1;
}

// The node at each place.
fn list_nodes(
    alloc: Global,
    parents: &[Option<u32>],
    order: &[u32],
    sizes: &[u32],
    enter: &[u32],
    leave: &[u32],
) -> Result<Vec<u32>, AllocError>
    requires few { length parents.now < 2 ^ 32 }
    requires forest { IsForest parents.now order.now }
    requires sizes { AreSizes parents.now order.now sizes.now 0 }
    requires entered { AreEntered parents.now order.now sizes.now enter.now leave.now (length order.now) }
    ensures { IfOk result (λ nodes. ArePlaces parents.now enter.now leave.now nodes.items) }
{
    let mut nodes = vec![in alloc; 0u32; order.len()]?;
    for x in 0..enter.len() {
        nodes[enter[x] as usize] = x as u32;
    }
    Ok(nodes)
}

/// Gives the nodes of a forest places, so that the nodes that have a node on their lines, the node itself among them, are
/// those of an interval of places.
///
/// `parents` has the parent of each node, and `order` has all nodes, each after its parent. It goes three times over the
/// nodes, without recursion, and takes 12 bytes a node, and 4 meanwhile. The only error is want of memory.
pub fn find_places(
    alloc: Global,
    parents: &[Option<u32>],
    order: &[u32],
) -> Result<Places, AllocError>
    requires few { length parents.now < 2 ^ 32 }
    requires forest { IsForest parents.now order.now }
    ensures { IfOk result (λ places. ArePlaces parents.now places.enter.items places.leave.items places.nodes.items) }
{
    let sizes = find_sizes(alloc, parents, order)?;
    let mut enter = vec![in alloc; 0u32; parents.len()]?;
    let mut leave = vec![in alloc; 0u32; sizes.len()]?;
    for i in 0..order.len() {
        enter_node(&mut enter, &mut leave, parents, order, &sizes, i);
    }
    let nodes = list_nodes(alloc, parents, order, &sizes, &enter, &leave)?;
    Ok(Places {
        enter,
        leave,
        nodes,
    })
}
