//! The nodes on circles, and the order against the links.
ghost use Rattle.std.specs.Prelude.{◌<◌, ◌^◌, length, IfOk};
ghost use Rattle.fcg_order.specs.Links.{IsWithin};
ghost use Rattle.fcg_order.specs.Order.{IsOrder, MarksCircles};

use crate::links::Links;
use crate::search::begin;
use std::alloc::{AllocError, Global};

/// The nodes in an order, and a mark for each that lies on a circle.
#[derive(Drop)]
pub struct Order {
    /// All nodes, each once. One that lies on no circle stands after all to which it links, so what a node gathers from
    /// these can be worked out in one pass from the front.
    pub nodes: Vec<u32>,
    /// Of each node, by its number, whether it lies on a circle: whether one or more links lead from it back to itself.
    /// It isn't enough that it leads to a circle and is led to from another.
    pub circular: Vec<bool>,
}

/// Finds the nodes that lie on circles, and an order of all nodes.
///
/// A node lies on a circle where its strongly connected component has another node, or where it links to itself. The search
/// goes over each node and each link once, and keeps at most some 100 bytes for each node meanwhile. The only error is want
/// of memory.
pub fn find_order(alloc: Global, links: &Links) -> Result<Order, AllocError>
    requires few { length links.now < 2 ^ 32 }
    requires within { IsWithin links.now }
    ensures circles { IfOk result (λ o. MarksCircles links.now o.circular.items) }
    ensures order { IfOk result (λ o. IsOrder links.now o.nodes.items) }
{
    let mut search = begin(alloc, links)?;
    for node in 0..links.len() {
        search.visit(links, node as u32)?;
    }
    Ok(Order {
        nodes: search.order,
        circular: search.circular,
    })
}
