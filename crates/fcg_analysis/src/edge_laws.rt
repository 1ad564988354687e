//! Laws of edges, of what becomes of sites, and of the rows of those that reach a target.
ghost use Rattle.std.specs.Prelude.{◌≡◌, ◌↔◌, ◌⊎◌, ◌<◌, ◌≤◌, ◌+◌, ℕ, true, false, Bool, List, Contains, filter, map, length, sum_by, count_by, Some, is_some};
ghost use Rattle.std.specs.List.{range_with_len};
ghost use Rattle.fcg_views.specs.declared.view.Site.{Site};
ghost use Rattle.fcg_analysis.specs.Declarations.{Placed, signature_in, has_signature, has_array_owner, is_static, is_instance, is_abstract};
ghost use Rattle.fcg_analysis.specs.Nodes.{Node, nodes};
ghost use Rattle.fcg_analysis.specs.Resolution.{Cause, resolved};
ghost use Rattle.fcg_analysis.specs.Edges.{VirtualCall, InterfaceCall, StaticCall, call_of, is_dispatched, meets, edge, edges, IsNoCall, IsFailed, status, statuses_of, statuses, is_phantom_status, is_failed_status, phantoms, failed};
ghost use Rattle.fcg_analysis.specs.Reach.{Edges, dist, next, Row, rows};
ghost use Rattle.fcg_analysis.specs.Laws.Searches.{HasReceiver};
ghost use Rattle.fcg_analysis.specs.Laws.Tables.{edges_in};

/// A site that makes no call, or whose reference fails, has no edge; and its edges depend on how it calls, on what it names, and
/// on the class that it stands in.
pub fn edges_have_outcomes()
    ensures no_call { (types : List Placed) (a b : Node) (site : Site) → status types site ≡ IsNoCall → meets types a site b ≡ false }
    ensures of_failure { (types : List Placed) (a b : Node) (site : Site) (cause : Cause) → status types site ≡ IsFailed cause → meets types a site b ≡ false }
    ensures of_class { (types : List Placed) (a other b : Node) (site : Site) → a.owner ≡ other.owner → meets types a site b ≡ meets types other site b }
    ensures of_kind { (types : List Placed) (a b : Node) (site other : Site) → call_of site.kind ≡ call_of other.kind → site.target ≡ other.target → meets types a site b ≡ meets types a other b }
{}

/// Static sites lead to static methods, and other sites to instance methods that aren't abstract; and each to one of its
/// reference's name and descriptor.
pub fn targets_by_their_flags()
    ensures of_statics { (types : List Placed) (a b : Node) (site : Site) → meets types a site b ≡ true → call_of site.kind ≡ StaticCall → is_static b.method ≡ true }
    ensures of_others { (types : List Placed) (a b : Node) (site : Site) → Contains (nodes types) b → meets types a site b ≡ true → (call_of site.kind ≡ StaticCall → ⊥) → (is_instance b.method ≡ true) × (is_abstract b.method ≡ false) }
    ensures of_name { (types : List Placed) (a b : Node) (site : Site) → Contains (nodes types) b → meets types a site b ≡ true → has_signature (signature_in site.target) b.method ≡ true }
{}

/// A virtual or interface call leads to a method that isn't abstract where some receiver selects it.
pub fn dispatched_by_receivers()
    ensures { (types : List Placed) (a b : Node) (site : Site) → has_array_owner site.target ≡ false → (call_of site.kind ≡ VirtualCall) ⊎ (call_of site.kind ≡ InterfaceCall) → is_abstract b.method ≡ false → is_dispatched (resolved types site.target) ≡ true → (meets types a site b ≡ true) ↔ HasReceiver types site b }
{}

/// A table of pairs of numbers that agrees with the relation on each two nodes has the list of edges.
pub fn tables_have_the_edges()
    ensures { (types : List Placed) (leads : ℕ → ℕ → Bool) → ((a b : Node) → Contains (nodes types) a → Contains (nodes types) b → leads a.number b.number ≡ edge types a b) → edges_in (length (nodes types)) leads ≡ edges types }
{}

/// The counts are sums over the nodes, and a site counts to one of them at most.
pub fn counts_are_sums()
    ensures sites { (types : List Placed) → length (statuses types) ≡ sum_by (λ m. length m.method.sites) (nodes types) }
    ensures phantom_sites { (types : List Placed) → phantoms types ≡ sum_by (λ m. count_by is_phantom_status (statuses_of types m)) (nodes types) }
    ensures of_failure { (types : List Placed) → failed types ≡ sum_by (λ m. count_by is_failed_status (statuses_of types m)) (nodes types) }
    ensures no_more { (types : List Placed) → phantoms types + failed types ≤ length (statuses types) }
{}

/// The rows are the nodes that have a distance, in their order, each with its distance and its next, which has a row too; and no
/// distance is as great as the count.
pub fn rows_are_distances()
    ensures node_rows { (es : Edges) (count target : ℕ) → map (λ r. r.node) (rows es count target) ≡ filter (λ m. is_some (dist es count target m)) (range_with_len 0 count) }
    ensures row { (es : Edges) (count target : ℕ) (r : Row) → Contains (rows es count target) r ↔ ((r.node < count) × (dist es count target r.node ≡ Some r.steps) × (r.next ≡ next es count target r.node)) }
    ensures next_row { (es : Edges) (count target u : ℕ) (r : Row) → Contains (rows es count target) r → r.next ≡ Some u → Contains (map (λ q. q.node) (rows es count target)) u }
    ensures small { (es : Edges) (count target m d : ℕ) → target < count → dist es count target m ≡ Some d → d < count }
{}
