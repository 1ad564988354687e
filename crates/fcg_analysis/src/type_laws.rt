//! Laws of the types that a set has, and of how they stand to one another.
ghost use Rattle.std.specs.Prelude.{◌≡◌, ◌↔◌, ◌⊎◌, ℕ, true, false, List, [], ◌∷◌, ◌++◌, Contains, filter, drop, Bool, not, ◌&&◌, ◌||◌, Some, is_none, if◌then◌else◌};
ghost use Rattle.std.specs.List.{IsDistinct, list_any};
ghost use Rattle.fcg_analysis.specs.NamesAndFlags.{same};
ghost use Rattle.fcg_analysis.specs.Walks.{Walk};
ghost use Rattle.fcg_analysis.specs.Declarations.{Placed, object_name, is_type, is_object, is_class, is_interface, superclass_names, interface_names, names_of};
ghost use Rattle.fcg_analysis.specs.Types.{winners, known, type_named, object, links, implements, above, is_above, superclass, uses_unlinked_name, has_gap, chain, is_below};
ghost use Rattle.fcg_analysis.specs.Laws.Statements.{IsAcyclic};
ghost use Rattle.fcg_analysis.specs.Laws.ByName.{class_named, interface_passes, links_to, is_below_itself, is_below_next};
ghost use Rattle.fcg_analysis.specs.Laws.ChainParts.{IsShared, EndsWith, next_in_chain, chain_of};

/// A view more at the end wins where no earlier view has its name. So the winners stand in the order of the views.
pub fn winners_go_on()
    ensures none { winners [] ≡ [] }
    ensures more { (views : List Placed) (t : Placed) → winners (views ++ t ∷ []) ≡ winners views ++ (if list_any (is_type t) views then [] else (t ∷ [])) }
{}

/// The known types are the winners from which no walk of links leads back.
pub fn known_types_are_winners()
    ensures { (views : List Placed) (t : Placed) → Contains (known views) t ↔ (Contains (winners views) t × (Walk links (winners views) t t → ⊥)) }
{}

/// Where no two views have one name and no links lead in a circle, all views are known.
pub fn all_views_are_known()
    ensures { (views : List Placed) → IsDistinct is_type views → IsAcyclic views → known views ≡ views }
{}

/// The linked superclass is the known class of the superclass's name, and the linked interfaces are the known interfaces of
/// the interfaces' names.
pub fn links_are_found_by_name()
    ensures superclass { (types : List Placed) → IsDistinct is_type types → (t : Placed) → superclass types t ≡ class_named types (superclass_names t) }
    ensures interfaces { (types : List Placed) → IsDistinct is_type types → (p : Placed → Bool) (t : Placed) → list_any (λ u. implements t u && p u) types ≡ list_any (λ n. interface_passes p (type_named types n)) (interface_names t) }
{}

/// A type is above another by its name where it is above it; and what is above stands in the order of the types.
pub fn above_by_name()
    ensures alike { (types : List Placed) → IsDistinct is_type types → (t u : Placed) → Contains types u → is_above types t u ≡ true ↔ Contains (above types t) u }
    ensures in_order { (types : List Placed) → IsDistinct is_type types → (t : Placed) → above types t ≡ filter (is_above types t) types }
{}

/// A type has a gap where Object is absent, where it uses a name to which it has no link, or where a type to which it links
/// has a gap.
pub fn gaps_go_on()
    ensures { (types : List Placed) (t : Placed) → has_gap types t ≡ (is_none (object types) || uses_unlinked_name types t || list_any (λ u. links t u && has_gap types u) types) }
{}

/// A name to which a type has no link is one that no known type has, or the name of a type to which it doesn't link.
pub fn unlinked_names_by_name()
    ensures { (types : List Placed) → IsDistinct is_type types → (t : Placed) → uses_unlinked_name types t ≡ list_any (λ n. not (links_to t (type_named types n))) (names_of t) }
{}

/// At or below the name of a known type are that type and those that it is above; all are at or below Object's name; and at or
/// below any name is what is so by its own names, or links to what is.
pub fn below_is_above()
    ensures of_known { (types : List Placed) (d u : Placed) → Contains types u → same u.view.name object_name ≡ false → is_below types d u.view.name ≡ (is_type u d || is_above types d u) }
    ensures of_object { (types : List Placed) (d : Placed) → is_below types d object_name ≡ true }
    ensures on { (types : List Placed) (d : Placed) (n : List ℕ) → is_below types d n ≡ (is_below_itself types d n || list_any (λ u. links d u && is_below types u n) types) }
{}

/// The types of a chain are known, each once, and classes but for the first; those after the first are above it, or Object. The
/// chain of an interface is the interface alone.
pub fn chains_are_of_types()
    ensures members { (types : List Placed) → IsAcyclic types → (t u : Placed) → Contains types t → Contains (chain types t) u → Contains types u }
    ensures once { (types : List Placed) → IsAcyclic types → IsDistinct is_type types → (t : Placed) → Contains types t → IsDistinct is_type (chain types t) }
    ensures classes { (types : List Placed) → IsAcyclic types → (t u : Placed) → Contains types t → Contains (drop 1 (chain types t)) u → is_class u ≡ true }
    ensures interface { (types : List Placed) (t : Placed) → Contains types t → is_interface t ≡ true → chain types t ≡ t ∷ [] }
    ensures are_above { (types : List Placed) → IsAcyclic types → (t u : Placed) → Contains types t → Contains (drop 1 (chain types t)) u → Contains (above types t) u ⊎ (is_object u ≡ true) }
{}

/// From a type of a chain on it is that type's chain; and the chain of a class ends with Object, where Object is present.
pub fn chains_are_shared()
    ensures shared { (types : List Placed) → IsAcyclic types → (t u : Placed) → Contains types t → Contains (chain types t) u → IsShared types t u }
    ensures ends { (types : List Placed) → IsAcyclic types → IsDistinct is_type types → (t o : Placed) → Contains types t → is_class t ≡ true → object types ≡ Some o → EndsWith types t o }
{}

/// A chain is its type and the chain of the next type in it, which is known.
pub fn chains_are_walked()
    ensures walked { (types : List Placed) → IsAcyclic types → (t : Placed) → Contains types t → chain types t ≡ t ∷ chain_of types (next_in_chain types t) }
    ensures next_is_known { (types : List Placed) → IsAcyclic types → (t u : Placed) → Contains types t → next_in_chain types t ≡ Some u → Contains types u }
{}

/// Object is the known type of its name, where that is a class.
pub fn object_is_named()
    ensures { (types : List Placed) → IsDistinct is_type types → object types ≡ class_named types (object_name ∷ []) }
{}

/// At or below the name of a known class, but Object's, are the types that have the class in their chains, so that a
/// walk of a chain finds it. At or below Object's name are all types.
pub fn classes_stand_in_chains()
    ensures in_chain { (types : List Placed) → IsAcyclic types → IsDistinct is_type types → (d u : Placed) → Contains types d → Contains types u → is_class u ≡ true → same u.view.name object_name ≡ false
        → is_below types d u.view.name ≡ list_any (is_type u) (chain types d) }
    ensures walked { (types : List Placed) → IsAcyclic types → IsDistinct is_type types → (d u : Placed) → Contains types d → Contains types u → is_class u ≡ true → same u.view.name object_name ≡ false
        → is_below types d u.view.name ≡ (is_type u d || is_below_next types u.view.name (next_in_chain types d)) }
    ensures in_order { (types : List Placed) → IsAcyclic types → IsDistinct is_type types → (u : Placed) → Contains types u → is_class u ≡ true → same u.view.name object_name ≡ false
        → filter (λ d. is_below types d u.view.name) types ≡ filter (λ d. list_any (is_type u) (chain types d)) types }
    ensures of_object { (types : List Placed) → filter (λ d. is_below types d object_name) types ≡ types }
{}
