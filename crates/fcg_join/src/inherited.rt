//! What types have from the types above them.
ghost use Rattle.std.specs.Prelude.{◌≡◌, ◌<◌, ◌^◌, length, IfOk};
ghost use Rattle.fcg_join.specs.Parts.{types_of};
ghost use Rattle.fcg_join.specs.SetNames.{set_names};
ghost use Rattle.fcg_join.specs.Internal.PartNames.{names_by_number};
ghost use Rattle.fcg_join.specs.TypeLinks.{HasLinks};
ghost use Rattle.fcg_join.specs.Internal.TypeNumbers.{AreHeads, FindsHeads};
ghost use Rattle.fcg_join.specs.Internal.Below.{AreSuperclasses};
ghost use Rattle.fcg_join.specs.Internal.Inherited.{AreInherited};

use crate::gaps::find_gaps;
use crate::heads::TypeHead;
use crate::joined_rows::JoinedRows;
use crate::known::TypeLinks;
use crate::mentions::find_mentions;
use fcg_order::{Links as Rows, Places, find_order, find_places};
use fcg_partial::Part;
use std::alloc::{AllocError, Global};

/// What types have from the types above them.
#[derive(Drop)]
pub struct InheritedTables {
    /// Of each type whether it or a type above it uses a name to which it has no link.
    pub gaps: Vec<bool>,
    /// Of each type the numbers of the names that it or a type above it mentions.
    pub mentions: JoinedRows,
    /// Of each of these numbers the types whose rows have it.
    pub mentioned: Rows,
    /// Of each type an interval of places, which has those of a class's subclasses, of theirs, and so on.
    pub places: Places,
}

// What the known types have from the types above them, along the order against their links.
pub(crate) fn find_inherited(
    alloc: Global,
    parts: &[Part],
    numbers: &Rows,
    heads: &[TypeHead],
    linked: &TypeLinks,
    superclasses: &[Option<u32>],
) -> Result<InheritedTables, AllocError>
    requires few { length (types_of parts.now) < 2 ^ 32 }
    requires few_names { length (set_names parts.now) < 2 ^ 32 }
    requires heads { AreHeads parts.now heads.now (types_of parts.now) }
    requires numbers { numbers.now ≡ names_by_number (set_names parts.now) parts.now }
    requires found { FindsHeads heads.now linked.now.by_name.items (length (set_names parts.now)) }
    requires links { HasLinks (types_of parts.now) linked.now.links }
    requires many { length superclasses.now ≡ length (types_of parts.now) }
    requires superclasses { AreSuperclasses (types_of parts.now) superclasses.now }
    ensures { IfOk result (λ tables. AreInherited parts.now tables) }
{
    let order = find_order(alloc, &linked.links)?;
    let nodes = order.nodes.as_slice();
    let places = find_places(alloc, superclasses, nodes)?;
    let gaps = find_gaps(alloc, parts, numbers, heads, linked, nodes)?;
    let mentions = find_mentions(alloc, parts, numbers, heads, linked, nodes)?;
    let mentioned = mentions.turn(alloc, linked.by_name.len())?;
    Ok(InheritedTables {
        gaps,
        mentions,
        mentioned,
        places,
    })
}
