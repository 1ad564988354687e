//! The nodes of types, by numbers.
ghost use Rattle.std.specs.Prelude.{◌≡◌, ◌<◌, ◌^◌, ◌++◌, List, length, replicate, IfOk, OnOk};
ghost use Rattle.fcg_analysis.specs.Declarations.{Placed};
ghost use Rattle.fcg_analysis.specs.Laws.Methods.{method_total};
ghost use Rattle.fcg_join.specs.Internal.Nodes.{HaveMethods, AreNodeTables};

use crate::heads::TypeHead;
use std::alloc::{AllocError, Global};

/// The nodes of types: one for each method, type after type.
#[derive(Drop)]
pub struct NodeTables {
    /// Of each type the number of its first node.
    pub firsts: Vec<u32>,
    /// Of each node the number of its type.
    pub owners: Vec<u32>,
}

// Adds the type of so many nodes.
fn push_owner(owners: &mut Vec<u32>, y: u32, methods: u16) -> Result<(), AllocError>
    ensures { OnOk result (owners.new.items ≡ owners.old.items ++ replicate methods y) }
{
    for _ in 0..methods {
        owners.push(y)?;
    }
    Ok(())
}

// Numbers the methods of the types.
pub(crate) fn number_nodes(alloc: Global, heads: &[TypeHead]) -> Result<NodeTables, AllocError>
    requires few { length heads.now < 2 ^ 32 }
    requires methods { (types : List Placed) × HaveMethods heads.now types × (method_total types < 2 ^ 32) }
    ensures { (types : List Placed) → HaveMethods heads.now types → IfOk result (λ n. AreNodeTables types n.firsts.items n.owners.items) }
{
    let mut firsts = Vec::with_capacity(alloc, heads.len())?;
    let mut owners = Vec::new(alloc);
    for y in 0..heads.len() {
        firsts.push(owners.len() as u32)?;
        push_owner(&mut owners, y as u32, heads[y].methods)?;
    }
    Ok(NodeTables { firsts, owners })
}
