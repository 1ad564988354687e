//! Laws of the definitions.
ghost use Rattle.std.specs.Prelude.{◌≡◌, ◌↔◌, ◌<◌, ◌+◌, ℕ, List, ◌∷◌, Contains, find, map, length, IsTrue, Bool, ◌&&◌, ◌||◌, Some, None};
ghost use Rattle.std.specs.List.{IsDistinct, list_any, range_with_len};
ghost use Rattle.std.specs.List.Sorted.{IsStrictlySortedBy};
ghost use Rattle.fcg_analysis.specs.Declarations.{Placed, Signature, is_named, is_type, is_class, is_interface};
ghost use Rattle.fcg_analysis.specs.Types.{winners, known, type_named, links, extends, implements, above, line, chain, superclass};
ghost use Rattle.fcg_analysis.specs.Walks.{Walk};
ghost use Rattle.fcg_analysis.specs.Nodes.{Node, nodes};
ghost use Rattle.fcg_analysis.specs.Resolution.{Found, Phantom};
ghost use Rattle.fcg_analysis.specs.Selection.{can_override, selected};
ghost use Rattle.fcg_analysis.specs.Edges.{edges};
ghost use Rattle.fcg_analysis.specs.Reach.{Edges, dist, next};
ghost use Rattle.fcg_analysis.specs.Laws.Statements.{IsAcyclic, line_above, chain_above, overrides_shortly, overrides_by_cases, unless_circular, IsEdge, edge_cmp, DistIsLeast, IsNext, IsSelected, IsSelectedForPhantom};

/// The winner of a name is the first view of the name, and no two winners have one name.
pub fn winners_are_first()
    ensures first { (views : List Placed) (n : List ℕ) → find (is_named n) (winners views) ≡ find (is_named n) views }
    ensures distinct { (views : List Placed) → IsDistinct is_type (winners views) }
{}

/// The known type of a name is the first view of the name, unless that is circular; and no two have one name.
pub fn known_types_are_first()
    ensures distinct { (views : List Placed) → IsDistinct is_type (known views) }
    ensures first { (views : List Placed) (n : List ℕ) → type_named (known views) n ≡ unless_circular (winners views) (find (is_named n) views) }
{}

/// No walk of links leads from a known type back to itself: it isn't above itself.
pub fn known_types_are_acyclic()
    ensures walks { (views : List Placed) → IsAcyclic (known views) }
    ensures above { (views : List Placed) (t : Placed) → Contains (known views) t → Contains (above (known views) t) t → ⊥ }
{}

/// What is above a type is what walks of links lead to.
pub fn above_is_walks()
    ensures { (types : List Placed) (t u : Placed) → Contains (above types t) u ↔ Walk links types t u }
{}

/// What is above a type that is above a third is above the third.
pub fn above_is_transitive()
    ensures { (types : List Placed) (t u v : Placed) → Contains (above types t) u → Contains (above types u) v → Contains (above types t) v }
{}

/// What passes above a type is what a link leads to, or passes above that.
pub fn above_goes_on()
    ensures { (types : List Placed) (p : Placed → Bool) (t : Placed) → list_any p (above types t) ≡ list_any (λ u. links t u && (p u || list_any p (above types u))) types }
{}

/// A circle of links has classes alone, each the superclass of the one before, or interfaces alone.
pub fn circles_are_of_one_kind()
    ensures classes { (types : List Placed) (t : Placed) → IsTrue (is_class t) → Walk links types t t → Walk extends types t t }
    ensures interfaces { (types : List Placed) (t : Placed) → IsTrue (is_interface t) → Walk links types t t → Walk implements types t t }
{}

/// The line of a type among types without a circle is the type, and the line of its linked superclass.
pub fn lines_go_on()
    ensures { (types : List Placed) → IsAcyclic types → (t : Placed) → Contains types t → line types t ≡ t ∷ line_above types (superclass types t) }
{}

/// Its chain is the type, and the chain of its linked superclass or else Object.
pub fn chains_go_on()
    ensures { (types : List Placed) → IsAcyclic types → (t : Placed) → Contains types t → chain types t ≡ t ∷ chain_above types t (superclass types t) }
{}

/// The four cases of overriding, put shortly.
pub fn overriding_put_shortly()
    ensures { (types : List Placed) → IsAcyclic types → IsDistinct is_type types → (c a : Node) → Contains types c.owner → can_override types c a ≡ overrides_shortly types c a }
{}

/// By its four cases, as they are: the number of classes between is enough for the fourth.
pub fn overriding_is_its_cases()
    ensures { (types : List Placed) → IsAcyclic types → IsDistinct is_type types → (c a : Node) → Contains types c.owner → can_override types c a ≡ overrides_by_cases types c a }
{}

/// A selected method is the private resolved one; or it is of a class of the chain and can override; or it is the one
/// default.
pub fn selected_methods_override()
    ensures method { (types : List Placed) (d : Placed) (a : Node) (s : Signature) (c : Node) → selected types d (Found a) s ≡ Some c → IsSelected types d a s c }
    ensures phantom { (types : List Placed) (d : Placed) (s : Signature) (c : Node) → selected types d Phantom s ≡ Some c → IsSelectedForPhantom types d s c }
{}

/// A node's number is its place.
pub fn numbers_are_places()
    ensures { (types : List Placed) → map (λ m. m.number) (nodes types) ≡ range_with_len 0 (length (nodes types)) }
{}

/// The list of edges has the pairs of the relation, and no others: the ends of each are nodes.
pub fn edges_are_pairs()
    ensures { (types : List Placed) (e : ℕ × ℕ) → Contains (edges types) e ↔ IsEdge types e }
{}

/// The ends of each edge are numbers of nodes.
pub fn ends_are_nodes()
    ensures { (types : List Placed) (e : ℕ × ℕ) → Contains (edges types) e → (e.0 < length (nodes types)) × (e.1 < length (nodes types)) }
{}

/// The list of edges is sorted by caller and then by target, with each pair once; and no other such list has its pairs.
pub fn edges_are_sorted()
    ensures sorted { (types : List Placed) → IsStrictlySortedBy edge_cmp (edges types) }
    ensures only { (types : List Placed) (es : Edges) → IsStrictlySortedBy edge_cmp es → ((e : ℕ × ℕ) → Contains es e ↔ IsEdge types e) → es ≡ edges types }
{}

/// The distance is the least number of edges of a walk to the target, and a node without one has no walk.
pub fn distances_are_least()
    ensures { (es : Edges) (count target m : ℕ) → DistIsLeast es count target m }
{}

/// A next has one step less, and is the first such node to which an edge leads; each node but the target that has a
/// distance has a next.
pub fn nexts_are_nearer()
    ensures nearer { (es : Edges) (count target m u : ℕ) → next es count target m ≡ Some u → IsNext es count target m u }
    ensures there { (es : Edges) (count target m steps : ℕ) → target < count → dist es count target m ≡ Some (steps + 1) → next es count target m ≡ None → ⊥ }
    ensures target { (es : Edges) (count target : ℕ) → next es count target target ≡ None }
{}
