//! Where methods stand in the graphs of parts, and their sites.
ghost use Rattle.std.specs.Prelude.{◌≡◌, ◌<◌, Some, All, length, slice_get};
ghost use Rattle.fcg_views.specs.declared.view.Method.{Method};
ghost use Rattle.fcg_views.specs.declared.view.Site.{Site};
ghost use Rattle.fcg_views.specs.Valid.{IsValid};
ghost use Rattle.fcg_analysis.specs.Nodes.{Node};
ghost use Rattle.fcg_join.specs.Parts.{nodes_of};
ghost use Rattle.fcg_join.specs.Joined.{HasNode};
ghost use Rattle.fcg_stitch.specs.Internal.References.{StandsAt, IsSiteRow};

use fcg_join::{Joined, MethodId};
use fcg_partial::{Part, PartialGraph, SiteRow};

/// Where a method stands: a part, by its place, the type's place in the part's graph, and the method's place in the type.
#[derive(Clone, Copy)]
pub struct MethodPlace {
    pub part: u32,
    pub place: u32,
    pub index: u16,
}

// The graph of a part.
pub(crate) fn graph(part: &Part) -> &PartialGraph
    ensures { result.now ≡ part.now.views }
{
    &part.graph
}

// Tells of a part, for proofs, that its views are valid. It does nothing.
fn tell_part(part: &Part)
    ensures { All IsValid part.now.views }
{
    graph(part).tell_graph();
}

// Where a method stands.
pub(crate) fn find_place(joined: &Joined, m: MethodId) -> MethodPlace
    requires { m.0 < length (nodes_of joined.now) }
    ensures { (n : Node) → HasNode joined.now m n → StandsAt joined.now result n.method }
{
    let origin = joined.origin(joined.owner(m));
    tell_part(&joined.parts().as_slice()[origin.part as usize]);
    MethodPlace {
        part: origin.part,
        place: origin.place,
        index: (m.0 - origin.first) as u16,
    }
}

// How many sites a method has.
pub(crate) fn count_sites(parts: &[Part], at: MethodPlace) -> u32
    requires { (m : Method) × StandsAt parts.now at m }
    ensures { (m : Method) → StandsAt parts.now at m → result ≡ length m.sites }
{
    graph(&parts[at.part as usize])
        .method_at(at.place, at.index)
        .sites
}

// A site of a method.
pub(crate) fn find_site(parts: &[Part], at: MethodPlace, k: u32) -> SiteRow
    requires { (m : Method) × StandsAt parts.now at m × (k < length m.sites) }
    ensures { (m : Method) (site : Site) → StandsAt parts.now at m → slice_get m.sites k ≡ Some site → IsSiteRow parts.now at.part result site }
{
    graph(&parts[at.part as usize]).site_at(at.place, at.index, k)
}
