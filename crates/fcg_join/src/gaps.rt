//! Gaps of types, by their numbers.
ghost use Rattle.std.specs.Prelude.{◌≡◌, ◌<◌, ◌^◌, List, All, IfOk, IfSome, length, map, option_to_list};
ghost use Rattle.std.specs.List.{IsDistinct};
ghost use Rattle.fcg_analysis.specs.Declarations.{Placed, is_type};
ghost use Rattle.fcg_analysis.specs.Types.{uses_unlinked_name};
ghost use Rattle.fcg_analysis.specs.Laws.Statements.{IsAcyclic};
ghost use Rattle.fcg_order.specs.Order.{IsOrder};
ghost use Rattle.fcg_join.specs.SetNames.{set_names};
ghost use Rattle.fcg_join.specs.Internal.PartNames.{names_by_number};
ghost use Rattle.fcg_join.specs.TypeLinks.{HasLinks};
ghost use Rattle.fcg_join.specs.Internal.TypeNumbers.{AreHeads, FindsHeads, type_numbered};
ghost use Rattle.fcg_join.specs.Internal.Gaps.{has_number, is_link, lacks_interface, lacks_link, AreGaps};

use crate::heads::{TypeHead, is_interface};
use crate::known::TypeLinks;
use crate::used_names::fill_interface_names;
use fcg_order::{Links as Rows, fill_upward};
use fcg_partial::Part;
use std::alloc::{AllocError, Global};

// Whether this is the number of the superclass name.
fn is_superclass_name(superclass: Option<u32>, name: u32) -> bool
    ensures { result ≡ has_number name (option_to_list superclass) }
{
    match superclass {
        Some(superclass) => superclass == name,
        None => false,
    }
}

// Whether a type that uses a name, as its superclass's or as an interface's, links to the type of the name.
fn is_link(
    heads: &[TypeHead],
    by_name: &[Option<u32>],
    name: u32,
    as_superclass: bool,
    as_interface: bool,
) -> bool
    requires name { name < length by_name.now }
    requires found { FindsHeads heads.now by_name.now (length by_name.now) }
    ensures { result ≡ is_link heads.now as_superclass as_interface (type_numbered by_name.now name) }
{
    match by_name[name as usize] {
        Some(y) => {
            if is_interface(heads[y as usize].flags) {
                as_interface
            } else {
                as_superclass
            }
        }
        None => false,
    }
}

// Whether a type has no link for one of its interfaces' names.
fn lacks_interface(
    heads: &[TypeHead],
    by_name: &[Option<u32>],
    superclass: Option<u32>,
    interfaces: &[u32],
) -> bool
    requires names { All (λ n. n < length by_name.now) interfaces.now }
    requires found { FindsHeads heads.now by_name.now (length by_name.now) }
    ensures { result ≡ lacks_interface heads.now by_name.now (option_to_list superclass) interfaces.now }
{
    for name in interfaces {
        let as_superclass = is_superclass_name(superclass, *name);
        if !is_link(heads, by_name, *name, as_superclass, true) {
            return true;
        }
    }
    false
}

// Whether a type has no link for one of the names that it uses.
fn lacks_link(
    heads: &[TypeHead],
    by_name: &[Option<u32>],
    superclass: Option<u32>,
    interfaces: &[u32],
) -> bool
    requires superclass { IfSome superclass (λ n. n < length by_name.now) }
    requires names { All (λ n. n < length by_name.now) interfaces.now }
    requires found { FindsHeads heads.now by_name.now (length by_name.now) }
    ensures { result ≡ lacks_link heads.now by_name.now (option_to_list superclass) interfaces.now }
{
    if lacks_interface(heads, by_name, superclass, interfaces) {
        return true;
    }
    match superclass {
        Some(name) => !is_link(heads, by_name, name, true, interfaces.contains(&name)),
        None => false,
    }
}

// Of each type whether it uses a name to which it has no link.
fn mark_unlinked(
    alloc: Global,
    parts: &[Part],
    numbers: &Rows,
    heads: &[TypeHead],
    by_name: &[Option<u32>],
) -> Result<Vec<bool>, AllocError>
    requires heads { (types : List Placed) × AreHeads parts.now heads.now types }
    requires numbers { numbers.now ≡ names_by_number (set_names parts.now) parts.now }
    requires found { FindsHeads heads.now by_name.now (length (set_names parts.now)) }
    ensures { (types : List Placed) → AreHeads parts.now heads.now types → IsDistinct is_type types
        → IfOk result (λ marks. marks.items ≡ map (uses_unlinked_name types) types) }
{
    let mut marks = Vec::with_capacity(alloc, heads.len())?;
    let mut interfaces = Vec::new(alloc);
    for head in heads {
        fill_interface_names(&mut interfaces, parts, numbers, head)?;
        marks.push(lacks_link(heads, by_name, head.superclass, &interfaces))?;
    }
    Ok(marks)
}

// Of each type whether it, or a type above it, uses a name to which it has no link.
pub(crate) fn find_gaps(
    alloc: Global,
    parts: &[Part],
    numbers: &Rows,
    heads: &[TypeHead],
    linked: &TypeLinks,
    order: &[u32],
) -> Result<Vec<bool>, AllocError>
    requires heads { (types : List Placed) × AreHeads parts.now heads.now types × IsDistinct is_type types × HasLinks types linked.now.links }
    requires numbers { numbers.now ≡ names_by_number (set_names parts.now) parts.now }
    requires found { FindsHeads heads.now linked.now.by_name.items (length (set_names parts.now)) }
    requires order { IsOrder linked.now.links order.now }
    ensures { (types : List Placed) → AreHeads parts.now heads.now types → IsDistinct is_type types → IsAcyclic types → HasLinks types linked.now.links
        → IfOk result (λ marks. AreGaps types marks.items) }
{
    let by_name = linked.by_name.as_slice();
    let mut gaps = mark_unlinked(alloc, parts, numbers, heads, by_name)?;
    fill_upward(&linked.links, order, &mut gaps);
    Ok(gaps)
}
