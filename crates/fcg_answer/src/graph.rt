//! Pages of stitched sets.
ghost use Rattle.std.specs.Prelude.{◌≡◌, ◌<◌, length, map, slice_get, Some, IfOk};
ghost use Rattle.fcg_analysis.specs.Nodes.{identity};
ghost use Rattle.fcg_analysis.specs.Edges.{edges};
ghost use Rattle.fcg_join.specs.Parts.{types_of, nodes_of};
ghost use Rattle.fcg_stitch.specs.Names.{IsNodeAt};
ghost use Rattle.fcg_answer.specs.Answer.{page, page_of};

use fcg_json::{GraphQuery, NodeRows, Page, Pairs, Reply};
use fcg_stitch::Stitched;
use fcg_views::{MethodUri, Name, NoMemory};
use std::alloc::Global;

// A node as a row of a page.
fn copy_node(alloc: Global, stitched: &Stitched, k: u32) -> Result<MethodUri, NoMemory>
    requires { k < length (nodes_of stitched.now) }
    ensures { IfOk result (λ uri. slice_get (map identity (nodes_of stitched.now)) k ≡ Some uri) }
{
    let name = stitched.node(k);
    Ok(MethodUri {
        coordinate: name.coordinate.clone()?,
        class: Name::from_slice(alloc, name.class)?,
        name: Name::from_slice(alloc, name.name)?,
        desc: Name::from_slice(alloc, name.desc)?,
    })
}

// The nodes from a place on, at most so many.
fn copy_nodes(
    alloc: Global,
    stitched: &Stitched,
    from: u64,
    count: u32,
) -> Result<NodeRows, NoMemory>
    ensures { IfOk result (λ rows. rows ≡ page from count (map identity (nodes_of stitched.now))) }
{
    let mut rows = Vec::new(alloc);
    let end = u64::from(stitched.node_count()).min(from.saturating_add(u64::from(count)));
    for k in from..end {
        rows.push(copy_node(alloc, stitched, k as u32)?)?;
    }
    Ok(rows.into())
}

// The edges from a place on, at most so many. The first is looked up, and each other follows the one before it.
fn copy_edges(alloc: Global, stitched: &Stitched, from: u64, count: u32) -> Result<Pairs, NoMemory>
    ensures { IfOk result (λ rows. rows ≡ page from count (edges (types_of stitched.now))) }
{
    let mut rows = Vec::new(alloc);
    let mut next = if from < stitched.edge_count() {
        Some(stitched.edge(from))
    } else {
        None
    };
    for taken in 0..count {
        let Some((a, b)) = next else {
            return Ok(rows.into());
        };
        rows.push((a, b))?;
        next = stitched.next_edge(a, b);
    }
    Ok(rows.into())
}

/// A page of a stitched set, with its counts. It takes time in the page.
pub(crate) fn print_page(
    alloc: Global,
    at: u64,
    query: &GraphQuery,
    stitched: &Stitched,
) -> Result<Reply, NoMemory>
    ensures { IfOk result (λ reply. reply ≡ page_of query.now.part at query.now (types_of stitched.now)) }
{
    let edges = stitched.edge_count();
    let failed = stitched.failed();
    let from = query.from;
    let nodes = stitched.node_count();
    let phantoms = stitched.phantoms();
    match query.part {
        Page::Nodes => Ok(Reply::Nodes {
            at,
            edges,
            failed,
            from,
            nodes,
            phantoms,
            rows: copy_nodes(alloc, stitched, from, query.count)?,
        }),
        Page::Edges => Ok(Reply::Edges {
            at,
            edges,
            failed,
            from,
            nodes,
            phantoms,
            rows: copy_edges(alloc, stitched, from, query.count)?,
        }),
    }
}
