//! The winners among the types of parts, and the known types.
ghost use Rattle.std.specs.Prelude.{◌≡◌, ◌<◌, ◌^◌, List, length, map, not, IfOk, All};
ghost use Rattle.std.specs.List.{IsDistinct};
ghost use Rattle.fcg_analysis.specs.Declarations.{Placed, is_type};
ghost use Rattle.fcg_analysis.specs.Types.{winners, known};
ghost use Rattle.fcg_join.specs.Parts.{placed};
ghost use Rattle.fcg_join.specs.SetNames.{set_names};
ghost use Rattle.fcg_join.specs.Internal.PartNames.{AreSetNames};
ghost use Rattle.fcg_join.specs.Internal.TypeHeads.{IsFirstHead};
ghost use Rattle.fcg_join.specs.Internal.TypeNumbers.{AreHeads, FindsFirst, FindsHeads};
ghost use Rattle.fcg_join.specs.TypeLinks.{HasLinks};
ghost use Rattle.fcg_join.specs.Winners.{marked};

use crate::heads::{TypeHead, find_heads};
use crate::part_names::SetNames;
use crate::type_links::make_links;
use crate::winners::mark_firsts;
use fcg_order::{Links, find_order};
use fcg_partial::Part;
use std::alloc::{AllocError, Global};

// The numbers of the names of types.
fn collect_head_names(alloc: Global, heads: &[TypeHead]) -> Result<Vec<u32>, AllocError>
    ensures { IfOk result (λ names. names.items ≡ map (λ h. h.name) heads.now) }
{
    let mut names = Vec::with_capacity(alloc, heads.len())?;
    for head in heads {
        names.push(head.name)?;
    }
    Ok(names)
}

// The types with a mark.
fn keep_marked(
    alloc: Global,
    heads: &[TypeHead],
    marks: &[bool],
) -> Result<Vec<TypeHead>, AllocError>
    requires { length marks.now ≡ length heads.now }
    ensures { IfOk result (λ kept. kept.items ≡ marked marks.now heads.now) }
{
    let mut kept = Vec::new(alloc);
    for y in 0..heads.len() {
        if marks[y] {
            kept.push(heads[y])?;
        }
    }
    Ok(kept)
}

// The marks turned round.
fn turn_marks(alloc: Global, marks: &[bool]) -> Result<Vec<bool>, AllocError>
    ensures { IfOk result (λ turned. turned.items ≡ map not marks.now) }
{
    let mut turned = Vec::with_capacity(alloc, marks.len())?;
    for mark in marks {
        turned.push(!*mark)?;
    }
    Ok(turned)
}

// Of each number of a name the type that has it.
pub(crate) fn index_names(
    alloc: Global,
    heads: &[TypeHead],
    count: usize,
) -> Result<Vec<Option<u32>>, AllocError>
    requires few { length heads.now < 2 ^ 32 }
    requires names { All (λ h. h.name < count) heads.now }
    ensures { IfOk result (λ by_name. FindsHeads heads.now by_name.items count) }
{
    let mut by_name = vec![in alloc; None; count]?;
    for y in 0..heads.len() {
        by_name[heads[y].name as usize] = Some(y as u32);
    }
    Ok(by_name)
}

// The winners.
fn find_winners(
    alloc: Global,
    parts: &[Part],
    names: &SetNames,
) -> Result<Vec<TypeHead>, AllocError>
    requires few { length parts.now < 2 ^ 32 }
    requires names { AreSetNames parts.now names.now }
    ensures value { IfOk result (λ heads. AreHeads parts.now heads.items (winners (placed parts.now))) }
    ensures first { IfOk result (λ heads. All (IsFirstHead parts.now) heads.items) }
{
    let heads = find_heads(alloc, parts, &names.numbers)?;
    let numbers = collect_head_names(alloc, &heads)?;
    let firsts = mark_firsts(alloc, &numbers, names.places.len())?;
    keep_marked(alloc, &heads, &firsts)
}

/// The types of names, and the links of types.
#[derive(Drop)]
pub struct TypeLinks {
    /// Of each number of a name the type that has it, if any.
    pub by_name: Vec<Option<u32>>,
    /// Of each type the types to which it links.
    pub links: Links,
}

// The links of types, of which each has a name of its own.
pub(crate) fn link_types(
    alloc: Global,
    parts: &[Part],
    names: &SetNames,
    heads: &[TypeHead],
) -> Result<TypeLinks, AllocError>
    requires few { length heads.now < 2 ^ 32 }
    requires heads { (types : List Placed) × AreHeads parts.now heads.now types }
    requires names { AreSetNames parts.now names.now }
    ensures by_name { IfOk result (λ l. FindsHeads heads.now l.by_name.items (length (set_names parts.now))) }
    ensures links { (types : List Placed) → AreHeads parts.now heads.now types → IsDistinct is_type types → IfOk result (λ l. HasLinks types l.links) }
{
    let by_name = index_names(alloc, heads, names.places.len())?;
    let links = make_links(alloc, parts, &names.numbers, heads, by_name.as_slice())?;
    Ok(TypeLinks { by_name, links })
}

// The known types: the winners that lie on no circle of links.
pub(crate) fn find_known(
    alloc: Global,
    parts: &[Part],
    names: &SetNames,
) -> Result<Vec<TypeHead>, AllocError>
    requires few { length parts.now < 2 ^ 32 }
    requires types { length (placed parts.now) < 2 ^ 32 }
    requires names { AreSetNames parts.now names.now }
    ensures value { IfOk result (λ heads. AreHeads parts.now heads.items (known (placed parts.now))) }
    ensures first { IfOk result (λ heads. All (IsFirstHead parts.now) heads.items) }
{
    let winners = find_winners(alloc, parts, names)?;
    let heads = winners.as_slice();
    let linked = link_types(alloc, parts, names, heads)?;
    let order = find_order(alloc, &linked.links)?;
    let sound = turn_marks(alloc, order.circular.as_slice())?;
    keep_marked(alloc, heads, sound.as_slice())
}
