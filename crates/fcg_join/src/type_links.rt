//! The links of types, by their numbers.
ghost use Rattle.std.specs.Prelude.{◌≡◌, ◌<◌, ◌^◌, ◌++◌, ℕ, List, length, map, All, IfOk, OnOk, IfSome, option_to_list};
ghost use Rattle.fcg_grammar.specs.Table.{place};
ghost use Rattle.fcg_views.specs.declared.view.View.{View};
ghost use Rattle.fcg_analysis.specs.Declarations.{Placed, interface_names};
ghost use Rattle.fcg_join.specs.SetNames.{part_names, set_names};
ghost use Rattle.fcg_join.specs.Internal.PartNames.{names_by_number};
ghost use Rattle.fcg_join.specs.Internal.PartRows.{HasView};
ghost use Rattle.fcg_join.specs.Internal.TypeHeads.{IsHead};
ghost use Rattle.fcg_join.specs.Internal.TypeNumbers.{FindsHeads, AreHeads, class_numbered, interface_numbered, superclass_numbered, interfaces_numbered, links_numbered};

use crate::heads::{TypeHead, count_interfaces, is_interface, load_interface};
use fcg_order::{Links, Links as Rows};
use fcg_partial::Part;
use std::alloc::{AllocError, Global};

// Adds what was found.
fn push_found(row: &mut Vec<u32>, found: Option<u32>) -> Result<(), AllocError>
    ensures { OnOk result (row.new.items ≡ row.old.items ++ option_to_list found) }
{
    if let Some(y) = found {
        row.push(y)?;
    }
    Ok(())
}

// The class that has the name of a number.
pub(crate) fn find_class(heads: &[TypeHead], by_name: &[Option<u32>], name: u32) -> Option<u32>
    requires name { name < length by_name.now }
    requires found { FindsHeads heads.now by_name.now (length by_name.now) }
    ensures { result ≡ class_numbered heads.now by_name.now name }
{
    let y = by_name[name as usize]?;
    if is_interface(heads[y as usize].flags) {
        return None;
    }
    Some(y)
}

// The interface that has the name of a number.
fn find_interface(heads: &[TypeHead], by_name: &[Option<u32>], name: u32) -> Option<u32>
    requires name { name < length by_name.now }
    requires found { FindsHeads heads.now by_name.now (length by_name.now) }
    ensures { result ≡ interface_numbered heads.now by_name.now name }
{
    let y = by_name[name as usize]?;
    if !is_interface(heads[y as usize].flags) {
        return None;
    }
    Some(y)
}

// The class of a superclass name.
fn find_superclass(heads: &[TypeHead], by_name: &[Option<u32>], used: Option<u32>) -> Option<u32>
    requires name { IfSome used (λ n. n < length by_name.now) }
    requires found { FindsHeads heads.now by_name.now (length by_name.now) }
    ensures { result ≡ superclass_numbered heads.now by_name.now used }
{
    find_class(heads, by_name, used?)
}

// Adds the interfaces that the type at a place of a part names as interfaces.
fn push_interfaces(
    row: &mut Vec<u32>,
    heads: &[TypeHead],
    by_name: &[Option<u32>],
    part: &Part,
    numbers: &[u32],
    k: u32,
) -> Result<(), AllocError>
    requires there { k < length part.now.views }
    requires long { length numbers.now ≡ length (part_names part.now) }
    requires numbers { All (λ n. n < length by_name.now) numbers.now }
    requires found { FindsHeads heads.now by_name.now (length by_name.now) }
    ensures { (names : List (List ℕ)) (v : View) → numbers.now ≡ map (place names) (part_names part.now) → HasView part.now k v
        → OnOk result (row.new.items ≡ row.old.items ++ interfaces_numbered names heads.now by_name.now v.interfaces) }
{
    for j in 0..count_interfaces(part, k) {
        let name = numbers[load_interface(part, k, j) as usize];
        push_found(row, find_interface(heads, by_name, name))?;
    }
    Ok(())
}

// Adds the interfaces to which a type links: Object links to none.
fn push_used_interfaces(
    row: &mut Vec<u32>,
    parts: &[Part],
    numbers: &Rows,
    heads: &[TypeHead],
    by_name: &[Option<u32>],
    head: &TypeHead,
) -> Result<(), AllocError>
    requires head { (t : Placed) × IsHead parts.now (set_names parts.now) head.now t }
    requires numbers { numbers.now ≡ names_by_number (set_names parts.now) parts.now }
    requires found { FindsHeads heads.now by_name.now (length (set_names parts.now)) }
    ensures { (t : Placed) → IsHead parts.now (set_names parts.now) head.now t
        → OnOk result (row.new.items ≡ row.old.items ++ interfaces_numbered (set_names parts.now) heads.now by_name.now (interface_names t)) }
{
    if head.is_object {
        return Ok(());
    }
    let part = &parts[head.part as usize];
    let own = numbers.row(head.part as usize);
    push_interfaces(row, heads, by_name, part, own, head.place)
}

// Fills a row with the types to which a type links.
fn fill_row(
    row: &mut Vec<u32>,
    parts: &[Part],
    numbers: &Rows,
    heads: &[TypeHead],
    by_name: &[Option<u32>],
    head: &TypeHead,
) -> Result<(), AllocError>
    requires head { (t : Placed) × IsHead parts.now (set_names parts.now) head.now t }
    requires numbers { numbers.now ≡ names_by_number (set_names parts.now) parts.now }
    requires found { FindsHeads heads.now by_name.now (length (set_names parts.now)) }
    ensures { (t : Placed) → IsHead parts.now (set_names parts.now) head.now t
        → OnOk result (row.new.items ≡ links_numbered (set_names parts.now) heads.now by_name.now t) }
{
    row.clear();
    push_used_interfaces(row, parts, numbers, heads, by_name, head)?;
    push_found(row, find_superclass(heads, by_name, head.superclass))
}

// The links of all types, of which each has a name of its own.
pub(crate) fn make_links(
    alloc: Global,
    parts: &[Part],
    numbers: &Rows,
    heads: &[TypeHead],
    by_name: &[Option<u32>],
) -> Result<Links, AllocError>
    requires heads { (types : List Placed) × AreHeads parts.now heads.now types }
    requires numbers { numbers.now ≡ names_by_number (set_names parts.now) parts.now }
    requires found { FindsHeads heads.now by_name.now (length (set_names parts.now)) }
    ensures { (types : List Placed) → AreHeads parts.now heads.now types
        → IfOk result (λ links. links ≡ map (links_numbered (set_names parts.now) heads.now by_name.now) types) }
{
    let mut links = Links::new(alloc)?;
    let mut row = Vec::new(alloc);
    for head in heads {
        fill_row(&mut row, parts, numbers, heads, by_name, head)?;
        links.push_row(&row)?;
    }
    Ok(links)
}

// Of each type the class of the superclass name that it uses.
pub(crate) fn find_superclasses(
    alloc: Global,
    heads: &[TypeHead],
    by_name: &[Option<u32>],
) -> Result<Vec<Option<u32>>, AllocError>
    requires used { All (λ h. IfSome h.superclass (λ n. n < length by_name.now)) heads.now }
    requires found { FindsHeads heads.now by_name.now (length by_name.now) }
    ensures { IfOk result (λ found. found.items ≡ map (λ h. superclass_numbered heads.now by_name.now h.superclass) heads.now) }
{
    let mut superclasses = Vec::with_capacity(alloc, heads.len())?;
    for head in heads {
        superclasses.push(find_superclass(heads, by_name, head.superclass))?;
    }
    Ok(superclasses)
}
