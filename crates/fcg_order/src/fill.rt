//! Marks that are handed on along the order.
ghost use Rattle.std.specs.Prelude.{◌≡◌, ◌<◌, ◌||◌, false, length, All, slice_index_or};
ghost use Rattle.fcg_order.specs.Links.{row, IsWithin};
ghost use Rattle.fcg_order.specs.Order.{IsOrder};
ghost use Rattle.fcg_order.specs.Fill.{any_marked, IsFilled};

use crate::links::Links;

// Whether one of the nodes has a mark.
fn any_marked(marks: &[bool], nodes: &[u32]) -> bool
    requires { All (λ x. x < length marks.now) nodes.now }
    ensures { result ≡ any_marked marks.now nodes.now }
{
    for node in nodes {
        if marks[*node as usize] {
            return true;
        }
    }
    false
}

// Whether a node has a mark, or links to one that has.
fn has_or_meets_mark(links: &Links, marks: &[bool], node: u32) -> bool
    requires within { IsWithin links.now }
    requires long { length marks.now ≡ length links.now }
    requires node { node < length links.now }
    ensures { result ≡ (slice_index_or marks.now node false || any_marked marks.now (row links.now node)) }
{
    marks[node as usize] || any_marked(marks, links.row(node as usize))
}

/// Hands marks on against the links: a node that links to one with a mark gets one too, and so on. `marks` has a mark for
/// each node by its number, and `order` is what `find_order` answers.
///
/// One pass can't follow links round a circle, so the nodes on circles may stay without a mark; all others get theirs. It
/// goes over each node and each link once, and takes no memory.
pub fn fill_upward(links: &Links, order: &[u32], marks: &mut [bool])
    requires within { IsWithin links.now }
    requires long { length marks.old ≡ length links.now }
    requires order { IsOrder links.now order.now }
    ensures { IsFilled links.now marks.old marks.new }
{
    for node in order {
        let marked = has_or_meets_mark(links, marks, *node);
        marks[*node as usize] = marked;
    }
}
