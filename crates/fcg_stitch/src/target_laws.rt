//! Laws between edges and the targets of sites, of which a row of a stitched graph is made.
ghost use Rattle.std.specs.Prelude.{◌≡◌, ◌↔◌, ◌<◌, ◌++◌, [], ◌∷◌, ℕ, List, Bool, true, false, All, Contains, filter, length};
ghost use Rattle.fcg_views.specs.declared.view.Ref.{Ref};
ghost use Rattle.fcg_views.specs.declared.view.Site.{Site};
ghost use Rattle.fcg_analysis.specs.Declarations.{Placed};
ghost use Rattle.fcg_analysis.specs.Types.{is_below};
ghost use Rattle.fcg_analysis.specs.Nodes.{Node, nodes};
ghost use Rattle.fcg_analysis.specs.Resolution.{resolved};
ghost use Rattle.fcg_analysis.specs.Edges.{is_dispatched, meets_dispatch, meets, edge, edges};
ghost use Rattle.fcg_analysis.specs.Laws.Tables.{edges_in};
ghost use Rattle.fcg_stitch.specs.Targets.{receiver_target, targets_over, site_targets, caller_targets};

/// The targets of a reference are made type by type, and of the types at or below its owner's name alone.
pub fn targets_by_receivers()
    ensures go_on { (types : List Placed) (r : Ref) (ds : List Placed) (d : Placed) → is_dispatched (resolved types r) ≡ true → targets_over types r (ds ++ d ∷ []) ≡ targets_over types r ds ++ receiver_target types r d }
    ensures below { (types : List Placed) (r : Ref) → targets_over types r (filter (λ d. is_below types d r.owner) types) ≡ targets_over types r types }
    ensures none { (types : List Placed) (r : Ref) (ds : List Placed) → is_dispatched (resolved types r) ≡ false → targets_over types r ds ≡ [] }
{}

/// The targets of a reference are the numbers of the nodes to which a virtual or interface call with it leads.
pub fn targets_are_dispatched()
    ensures members { (types : List Placed) (site : Site) (b : Node) → Contains (nodes types) b → Contains (targets_over types site.target types) b.number ↔ (meets_dispatch types site b ≡ true) }
    ensures within { (types : List Placed) (r : Ref) (ds : List Placed) → All (λ k. k < length (nodes types)) (targets_over types r ds) }
{}

/// The targets of a site are the numbers of the nodes to which it leads, and those of a caller the ends of its edges. So a
/// table that has them of each node has the list of edges.
pub fn callers_have_targets()
    ensures of_site { (types : List Placed) (a b : Node) (site : Site) → Contains (nodes types) b → Contains (site_targets types a.owner site) b.number ↔ (meets types a site b ≡ true) }
    ensures of_caller { (types : List Placed) (a b : Node) → Contains (nodes types) b → Contains (caller_targets types a) b.number ↔ (edge types a b ≡ true) }
    ensures within { (types : List Placed) (a : Node) → All (λ k. k < length (nodes types)) (caller_targets types a) }
    ensures table { (types : List Placed) (leads : ℕ → ℕ → Bool) → ((a b : Node) → Contains (nodes types) a → Contains (nodes types) b → (leads a.number b.number ≡ true) ↔ Contains (caller_targets types a) b.number) → edges_in (length (nodes types)) leads ≡ edges types }
{}
