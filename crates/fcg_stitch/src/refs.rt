//! References of parts by the numbers of the set.
ghost use Rattle.std.specs.Prelude.{◌≡◌, ◌<◌, length};
ghost use Rattle.fcg_views.specs.declared.view.Ref.{Ref};
ghost use Rattle.fcg_analysis.specs.Declarations.{has_array_owner};
ghost use Rattle.fcg_join.specs.Numbers.{HasRef};
ghost use Rattle.fcg_stitch.specs.Internal.References.{IsReference, IsReferenceAt, IsRefRow, IsRefWithin};

use crate::place::graph;
use fcg_join::{Joined, NumberedRef};
use fcg_partial::{Part, RefRow};

// The row of a reference of a part.
fn load_ref(part: &Part, r: u32) -> RefRow
    requires { (reference : Ref) × IsReference part.now r reference }
    ensures { (reference : Ref) → IsReference part.now r reference → IsRefRow part.now result reference }
{
    graph(part).ref_at(r)
}

// A reference of a part by the numbers of its names in the set.
pub(crate) fn number_ref(joined: &Joined, part: u32, r: u32) -> NumberedRef
    requires { (reference : Ref) × IsReferenceAt joined.now part r reference }
    ensures value { (reference : Ref) → IsReferenceAt joined.now part r reference → HasRef joined.now result reference }
    ensures within { IsRefWithin joined.now result }
{
    let row = load_ref(&joined.parts().as_slice()[part as usize], r);
    NumberedRef {
        owner: joined.part_name(part, row.owner),
        owner_is_interface_ref: row.owner_is_interface_ref,
        name: joined.part_name(part, row.name),
        desc: joined.part_name(part, row.desc),
    }
}

// Whether the owner of a reference is an array.
pub(crate) fn has_array_owner(joined: &Joined, reference: NumberedRef) -> bool
    requires { IsRefWithin joined.now reference }
    ensures { (r : Ref) → HasRef joined.now reference r → result ≡ has_array_owner r }
{
    match joined.name(reference.owner) {
        [first, ..] => *first == b'[',
        [] => false,
    }
}
