//! The names that types mention, by numbers.
ghost use Rattle.std.specs.Prelude.{◌≡◌, ◌<◌, ◌^◌, ◌++◌, ◌∷◌, [], All, IfOk, IfSome, OnOk, flat_map, length, map, if◌then◌else◌};
ghost use Rattle.fcg_grammar.specs.Table.{place};
ghost use Rattle.fcg_analysis.specs.Declarations.{Placed, interface_names};
ghost use Rattle.fcg_order.specs.Order.{IsOrder};
ghost use Rattle.fcg_join.specs.Parts.{types_of};
ghost use Rattle.fcg_join.specs.SetNames.{set_names};
ghost use Rattle.fcg_join.specs.Internal.PartNames.{names_by_number};
ghost use Rattle.fcg_join.specs.TypeLinks.{HasLinks};
ghost use Rattle.fcg_join.specs.Internal.TypeNumbers.{AreHeads, FindsHeads};
ghost use Rattle.fcg_join.specs.TypeTables.{own_mentions};
ghost use Rattle.fcg_join.specs.Internal.Mentions.{absent_number, own_numbered, AreMentions};

use crate::heads::{TypeHead, is_interface};
use crate::joined_rows::{JoinedRows, join_rows};
use crate::known::TypeLinks;
use crate::used_names::fill_interface_names;
use fcg_order::Links as Rows;
use fcg_partial::Part;
use std::alloc::{AllocError, Global};

// Adds a number that passes.
pub(crate) fn push_if(row: &mut Vec<u32>, number: u32, passes: bool) -> Result<(), AllocError>
    ensures { OnOk result (row.new.items ≡ row.old.items ++ (if passes then number ∷ [] else [])) }
{
    if passes {
        row.push(number)?;
    }
    Ok(())
}

// Adds a number of a name that no known type has.
fn push_absent(row: &mut Vec<u32>, by_name: &[Option<u32>], name: u32) -> Result<(), AllocError>
    requires { name < length by_name.now }
    ensures { OnOk result (row.new.items ≡ row.old.items ++ absent_number by_name.now name) }
{
    push_if(row, name, by_name[name as usize].is_none())
}

// Adds those of the numbers of names that no known type has.
fn push_all_absent(
    row: &mut Vec<u32>,
    by_name: &[Option<u32>],
    names: &[u32],
) -> Result<(), AllocError>
    requires { All (λ n. n < length by_name.now) names.now }
    ensures { OnOk result (row.new.items ≡ row.old.items ++ flat_map (absent_number by_name.now) names.now) }
{
    for name in names {
        push_absent(row, by_name, *name)?;
    }
    Ok(())
}

// Fills a row with the numbers of names that a type mentions itself, by the numbers of its interfaces' names.
fn fill_own(
    row: &mut Vec<u32>,
    by_name: &[Option<u32>],
    head: &TypeHead,
    interfaces: &[u32],
) -> Result<(), AllocError>
    requires superclass { IfSome head.now.superclass (λ n. n < length by_name.now) }
    requires names { All (λ n. n < length by_name.now) interfaces.now }
    ensures { OnOk result (row.new.items ≡ own_numbered by_name.now head.now interfaces.now) }
{
    row.clear();
    push_if(row, head.name, is_interface(head.flags))?;
    push_all_absent(row, by_name, interfaces)?;
    match head.superclass {
        Some(name) => push_absent(row, by_name, name),
        None => Ok(()),
    }
}

// Of each type the numbers of the names that it mentions itself.
fn find_own_mentions(
    alloc: Global,
    parts: &[Part],
    numbers: &Rows,
    heads: &[TypeHead],
    by_name: &[Option<u32>],
) -> Result<Rows, AllocError>
    requires heads { AreHeads parts.now heads.now (types_of parts.now) }
    requires numbers { numbers.now ≡ names_by_number (set_names parts.now) parts.now }
    requires found { FindsHeads heads.now by_name.now (length (set_names parts.now)) }
    ensures { IfOk result (λ own. own ≡ map (own_mentions (set_names parts.now) (types_of parts.now)) (types_of parts.now)) }
{
    let mut own = Rows::new(alloc)?;
    let mut row = Vec::new(alloc);
    let mut interfaces = Vec::new(alloc);
    for head in heads {
        fill_interface_names(&mut interfaces, parts, numbers, head)?;
        fill_own(&mut row, by_name, head, &interfaces)?;
        own.push_row(&row)?;
    }
    Ok(own)
}

// Of each type the numbers of the names that it or a type above it mentions: of interfaces at or above it, and of absent
// names that it uses or that a type above it uses.
pub(crate) fn find_mentions(
    alloc: Global,
    parts: &[Part],
    numbers: &Rows,
    heads: &[TypeHead],
    linked: &TypeLinks,
    order: &[u32],
) -> Result<JoinedRows, AllocError>
    requires few { length (types_of parts.now) < 2 ^ 32 }
    requires heads { AreHeads parts.now heads.now (types_of parts.now) }
    requires numbers { numbers.now ≡ names_by_number (set_names parts.now) parts.now }
    requires found { FindsHeads heads.now linked.now.by_name.items (length (set_names parts.now)) }
    requires links { HasLinks (types_of parts.now) linked.now.links }
    requires order { IsOrder linked.now.links order.now }
    ensures { IfOk result (λ rows. AreMentions (set_names parts.now) (types_of parts.now) rows) }
{
    let by_name = linked.by_name.as_slice();
    let own = find_own_mentions(alloc, parts, numbers, heads, by_name)?;
    join_rows(alloc, &own, &linked.links, order)
}
