//! The names that types use, by numbers.
ghost use Rattle.std.specs.Prelude.{◌≡◌, ◌<◌, ◌++◌, List, ℕ, length, map, OnOk};
ghost use Rattle.fcg_grammar.specs.Table.{place};
ghost use Rattle.fcg_views.specs.declared.view.View.{View};
ghost use Rattle.fcg_analysis.specs.Declarations.{Placed, interface_names};
ghost use Rattle.fcg_join.specs.SetNames.{part_names, set_names};
ghost use Rattle.fcg_join.specs.Internal.PartNames.{names_by_number};
ghost use Rattle.fcg_join.specs.Internal.PartRows.{HasView};
ghost use Rattle.fcg_join.specs.Internal.TypeHeads.{IsHead};

use crate::heads::{TypeHead, count_interfaces, load_interface};
use fcg_order::Links as Rows;
use fcg_partial::Part;
use std::alloc::AllocError;

// Adds the numbers of the names that the type at a place of a part names as interfaces.
fn push_interface_names(
    row: &mut Vec<u32>,
    part: &Part,
    numbers: &[u32],
    k: u32,
) -> Result<(), AllocError>
    requires there { k < length part.now.views }
    requires long { length numbers.now ≡ length (part_names part.now) }
    ensures { (names : List (List ℕ)) (v : View) → numbers.now ≡ map (place names) (part_names part.now) → HasView part.now k v
        → OnOk result (row.new.items ≡ row.old.items ++ map (place names) v.interfaces) }
{
    for j in 0..count_interfaces(part, k) {
        row.push(numbers[load_interface(part, k, j) as usize])?;
    }
    Ok(())
}

// Fills a row with the numbers of the names that a type uses as those of interfaces: Object uses none.
pub(crate) fn fill_interface_names(
    row: &mut Vec<u32>,
    parts: &[Part],
    numbers: &Rows,
    head: &TypeHead,
) -> Result<(), AllocError>
    requires head { (t : Placed) × IsHead parts.now (set_names parts.now) head.now t }
    requires numbers { numbers.now ≡ names_by_number (set_names parts.now) parts.now }
    ensures { (t : Placed) → IsHead parts.now (set_names parts.now) head.now t
        → OnOk result (row.new.items ≡ map (place (set_names parts.now)) (interface_names t)) }
{
    row.clear();
    if head.is_object {
        return Ok(());
    }
    let part = &parts[head.part as usize];
    let own = numbers.row(head.part as usize);
    push_interface_names(row, part, own, head.place)
}
