//! The methods of types, as they stand in the graphs of parts.
ghost use Rattle.std.specs.Prelude.{◌≡◌, ◌<◌, length, All};
ghost use Rattle.fcg_views.specs.declared.view.Method.{Method};
ghost use Rattle.fcg_views.specs.Valid.{IsValid};
ghost use Rattle.fcg_analysis.specs.Laws.Methods.{AreApart};
ghost use Rattle.fcg_join.specs.Parts.{types_of};
ghost use Rattle.fcg_join.specs.SetNames.{part_names};
ghost use Rattle.fcg_join.specs.Internal.MethodRows.{HasOwnMethod, row_of_own, IsMethodPlace};

use crate::heads::graph;
use fcg_partial::{MethodRow, Part};

/// Where a method stands: a part, by its place, the type's place in the part's graph, and the method's place in the type.
#[derive(Clone, Copy)]
pub struct MethodPlace {
    pub part: u32,
    pub place: u32,
    pub index: u16,
}

// The row of a method of a type.
pub(crate) fn load_method(part: &Part, k: u32, j: u16) -> MethodRow
    requires { (m : Method) × HasOwnMethod part.now k j m }
    ensures row { (m : Method) → HasOwnMethod part.now k j m → result ≡ row_of_own part.now m }
    ensures name { result.name < length (part_names part.now) }
    ensures desc { result.desc < length (part_names part.now) }
{
    graph(part).method_at(k, j)
}

// The flags of a method of the parts.
pub(crate) fn flags_of_method(parts: &[Part], at: MethodPlace) -> u16
    requires { (m : Method) × IsMethodPlace parts.now at m }
    ensures { (m : Method) → IsMethodPlace parts.now at m → result ≡ m.flags }
{
    load_method(&parts[at.part as usize], at.place, at.index).flags
}

// The name of a method of a type.
fn method_name(part: &Part, k: u32, j: u16) -> &[u8]
    requires { (m : Method) × HasOwnMethod part.now k j m }
    ensures { (m : Method) → HasOwnMethod part.now k j m → result.now ≡ m.name }
{
    graph(part).name_at(load_method(part, k, j).name)
}

// The descriptor of a method of a type.
fn method_desc(part: &Part, k: u32, j: u16) -> &[u8]
    requires { (m : Method) × HasOwnMethod part.now k j m }
    ensures { (m : Method) → HasOwnMethod part.now k j m → result.now ≡ m.desc }
{
    graph(part).name_at(load_method(part, k, j).desc)
}

// The name of a method of the parts.
pub(crate) fn name_of_method(parts: &[Part], at: MethodPlace) -> &[u8]
    requires { (m : Method) × IsMethodPlace parts.now at m }
    ensures { (m : Method) → IsMethodPlace parts.now at m → result.now ≡ m.name }
{
    method_name(&parts[at.part as usize], at.place, at.index)
}

// The descriptor of a method of the parts.
pub(crate) fn desc_of_method(parts: &[Part], at: MethodPlace) -> &[u8]
    requires { (m : Method) × IsMethodPlace parts.now at m }
    ensures { (m : Method) → IsMethodPlace parts.now at m → result.now ≡ m.desc }
{
    method_desc(&parts[at.part as usize], at.place, at.index)
}

// Tells of a part, for proofs, that its views are valid. It does nothing.
fn tell_part(part: &Part)
    ensures { All IsValid part.now.views }
{
    graph(part).tell_graph();
}

// Tells of the parts, for proofs, that the methods of each of their types are apart. It does nothing.
pub(crate) fn tell_parts(parts: &[Part])
    ensures { AreApart (types_of parts.now) }
{
    for i in 0..parts.len() {
        tell_part(&parts[i]);
    }
}
