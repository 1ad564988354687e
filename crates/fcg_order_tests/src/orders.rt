ghost use Rattle.std.specs.Prelude.{IfOk, OnOk};
ghost use Rattle.fcg_order.specs.Links.{IsWithin};
ghost use Rattle.fcg_order.specs.Order.{IsOrder, MarksCircles};

use fcg_order::{Links, Order, fill_upward, find_order};
use std::alloc::{AllocError, Global};
use std::test::Fail;

// The links of these rows.
fn links_of(alloc: Global, rows: &[&[u32]]) -> Result<Links, AllocError> {
    let mut links = Links::new(alloc)?;
    for row in rows {
        links.push_row(row)?;
    }
    Ok(links)
}

// What is found of links, none of which leads past the nodes.
fn order_of(alloc: Global, links: &Links) -> Result<Order, Fail>
    ensures circles { IfOk result (λ o. MarksCircles links.now o.circular.items) }
    ensures order { IfOk result (λ o. IsOrder links.now o.nodes.items) }
    ensures within { OnOk result (IsWithin links.now) }
{
    if links.len() > 10_000 || !links.is_within() {
        return Err("each link leads to a node".into());
    }
    Ok(find_order(alloc, links)?)
}

// Whether the second node is found before the first.
fn is_behind(nodes: &[u32], behind: u32, ahead: u32) -> bool {
    let later = nodes.iter().position(|node| *node == behind);
    let earlier = nodes.iter().position(|node| *node == ahead);
    match (later, earlier) {
        (Some(later), Some(earlier)) => later > earlier,
        _ => false,
    }
}

// Rows of links, whether each node lies on a circle, and pairs of which the first has to stand behind the second.
const SETS: &[(&str, &[&[u32]], &[bool], &[(u32, u32)])] = &[
    ("no node", &[], &[], &[]),
    ("a node", &[&[]], &[false], &[]),
    (
        "a chain",
        &[&[1], &[2], &[]],
        &[false, false, false],
        &[(0, 1), (1, 2)],
    ),
    (
        "a chain the other way",
        &[&[], &[0], &[1]],
        &[false, false, false],
        &[(1, 0), (2, 1)],
    ),
    ("a link to itself", &[&[0]], &[true], &[]),
    (
        "a link to one that links to itself",
        &[&[1], &[1]],
        &[false, true],
        &[(0, 1)],
    ),
    ("a circle of two", &[&[1], &[0]], &[true, true], &[]),
    (
        "a node between two circles",
        &[&[1], &[0, 2], &[3], &[4], &[3]],
        &[true, true, false, true, true],
        &[(2, 3)],
    ),
    (
        "nodes that lead to a circle",
        &[&[1], &[2], &[3], &[2]],
        &[false, false, true, true],
        &[(0, 1), (1, 2)],
    ),
    (
        "nodes that are led to from a circle",
        &[&[1], &[0, 2], &[3], &[]],
        &[true, true, false, false],
        &[(2, 3)],
    ),
    (
        "two circles through one node",
        &[&[1, 2], &[0], &[0]],
        &[true, true, true],
        &[],
    ),
    (
        "a circle that is closed from its second half",
        &[&[1], &[2, 3], &[0], &[2], &[0]],
        &[true, true, true, true, false],
        &[(4, 0)],
    ),
    (
        "two ways to one node, by doubled links",
        &[&[1, 2, 1], &[3, 3], &[3], &[]],
        &[false, false, false, false],
        &[(0, 1), (0, 2), (1, 3), (2, 3)],
    ),
];

// Whether what was found has these marks, each node, and these pairs.
fn is_found(found: &Order, circular: &[bool], behind: &[(u32, u32)]) -> bool {
    let nodes = found.nodes.as_slice();
    found.circular.as_slice() == circular
        && nodes.len() == circular.len()
        && behind.iter().all(|pair| is_behind(nodes, pair.0, pair.1))
}

#[test]
fn worked_sets(rt: HostRuntime) -> Result<(), Fail> {
    for (name, rows, circular, behind) in SETS {
        let links = links_of(rt.alloc(), rows)?;
        let found = order_of(rt.alloc(), &links)?;
        assert!(rt; is_found(&found, circular, behind), "at {name}");
    }
    Ok(())
}

// Whether these are the rows.
fn has_rows(links: &Links, rows: &[&[u32]]) -> bool {
    if links.len() != rows.len() {
        return false;
    }
    for (node, row) in rows.iter().enumerate() {
        if links.row(node) != *row {
            return false;
        }
    }
    true
}

#[test]
fn keeps_rows(rt: HostRuntime) -> Result<(), Fail> {
    for (name, rows, _, _) in SETS {
        let links = links_of(rt.alloc(), rows)?;
        assert!(rt; has_rows(&links, rows), "at {name}");
        assert!(rt; links.is_empty() == rows.is_empty(), "at {name}");
    }
    Ok(())
}

// Rows with a link past the nodes.
const PAST: &[&[&[u32]]] = &[&[&[1]], &[&[], &[0, 2]], &[&[2, 1], &[0]]];

#[test]
fn tells_links_past_the_nodes(rt: HostRuntime) -> Result<(), Fail> {
    for rows in PAST {
        let links = links_of(rt.alloc(), rows)?;
        assert!(rt; !links.is_within());
    }
    Ok(())
}

// Rows of links without a circle, the nodes that have a mark, and those that have one afterwards.
const MARKS: &[(&str, &[&[u32]], &[bool], &[bool])] = &[
    ("no node", &[], &[], &[]),
    (
        "no mark",
        &[&[1], &[2], &[]],
        &[false, false, false],
        &[false, false, false],
    ),
    (
        "at the end of a chain",
        &[&[1], &[2], &[]],
        &[false, false, true],
        &[true, true, true],
    ),
    (
        "within a chain",
        &[&[1], &[2], &[]],
        &[false, true, false],
        &[true, true, false],
    ),
    (
        "at the front of a chain",
        &[&[1], &[2], &[]],
        &[true, false, false],
        &[true, false, false],
    ),
    (
        "on one of two ways",
        &[&[1, 2], &[3], &[3], &[], &[2]],
        &[false, false, true, false, false],
        &[true, false, true, false, true],
    ),
];

// The marks after they were handed on.
fn filled(alloc: Global, rows: &[&[u32]], marks: &[bool]) -> Result<Vec<bool>, Fail> {
    let links = links_of(alloc, rows)?;
    let found = order_of(alloc, &links)?;
    let mut marks = marks.to_vec(alloc)?;
    if marks.len() != links.len() {
        return Err("each node has a mark".into());
    }
    fill_upward(&links, &found.nodes, &mut marks);
    Ok(marks)
}

#[test]
fn hands_marks_on(rt: HostRuntime) -> Result<(), Fail> {
    for (name, rows, marks, want) in MARKS {
        let new = filled(rt.alloc(), rows, marks)?;
        assert!(rt; new.as_slice() == *want, "at {name}");
    }
    Ok(())
}

// A chain of 10,000 nodes, each of which links to the next, and the last to these.
fn long_chain(alloc: Global, last: &[u32]) -> Result<Links, AllocError> {
    let mut links = Links::new(alloc)?;
    for node in 1..10_000 {
        links.push_row(&[node])?;
    }
    links.push_row(last)?;
    Ok(links)
}

// How many nodes are marked.
fn count_marks(marks: &[bool]) -> usize {
    marks.iter().filter(|mark| **mark).count()
}

#[test]
fn walks_along_a_long_chain(rt: HostRuntime) -> Result<(), Fail> {
    let links = long_chain(rt.alloc(), &[])?;
    let found = order_of(rt.alloc(), &links)?;
    let nodes = found.nodes.as_slice();
    assert!(rt; count_marks(&found.circular) == 0);
    assert!(rt; nodes.first() == Some(&9_999) && nodes.last() == Some(&0));
    Ok(())
}

#[test]
fn walks_round_a_long_circle(rt: HostRuntime) -> Result<(), Fail> {
    let links = long_chain(rt.alloc(), &[0])?;
    let found = order_of(rt.alloc(), &links)?;
    assert!(rt; count_marks(&found.circular) == 10_000 && found.nodes.len() == 10_000);
    Ok(())
}
