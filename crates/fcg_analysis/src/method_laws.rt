//! Laws of the nodes, and of the methods that a type has from the interfaces above it.
ghost use Rattle.std.specs.Prelude.{◌≡◌, ◌↔◌, ◌+◌, ◌-◌, ◌≤◌, ◌<◌, ℕ, true, false, List, [], ◌∷◌, ◌++◌, Contains, All, filter, map, length, take, drop, slice_get, not, Some, None, is_some};
ghost use Rattle.std.specs.List.{IsDistinct, list_any};
ghost use Rattle.fcg_views.specs.declared.view.Method.{Method};
ghost use Rattle.fcg_views.specs.Valid.{IsValid};
ghost use Rattle.fcg_analysis.specs.Declarations.{Placed, Signature, signature_of, has_signature, is_type, is_abstract};
ghost use Rattle.fcg_analysis.specs.Types.{known};
ghost use Rattle.fcg_analysis.specs.Nodes.{Node, nodes, nodes_from, is_node, identity, declared, super_methods, specific, one_default, first_super_method};
ghost use Rattle.fcg_analysis.specs.Laws.Statements.{IsAcyclic};
ghost use Rattle.fcg_analysis.specs.Laws.Methods.{methods_of, method_total, first_node, node_at, IsMethodNode, IsMethodAt, AreApart, IsSingle, IsSuperMethod, IsMaximal, HasSpecific, SameInterfaces};

/// The nodes are the methods of the types; two of one number are one; and the numbers go on from type to type.
pub fn nodes_are_methods()
    ensures owners { (types : List Placed) (m : Node) → Contains (nodes types) m → Contains types m.owner × Contains m.owner.view.methods m.method }
    ensures there { (types : List Placed) (t : Placed) (m : Method) → Contains types t → Contains t.view.methods m → IsMethodNode types t m }
    ensures one { (types : List Placed) (m n : Node) → Contains (nodes types) m → Contains (nodes types) n → is_node m n ≡ true → m ≡ n }
    ensures go_on { (ts us : List Placed) → nodes (ts ++ us) ≡ nodes ts ++ nodes_from (length (nodes ts)) (methods_of us) }
{}

/// The nodes of a type stand in a row, in the order of its methods, after the nodes of the types before it; and each
/// node stands at the place of its number.
pub fn nodes_are_in_rows()
    ensures count { (types : List Placed) → length (nodes types) ≡ method_total types }
    ensures there { (types : List Placed) (x k : ℕ) (t : Placed) (m : Method) → slice_get types x ≡ Some t → slice_get t.view.methods k ≡ Some m
        → slice_get (nodes types) (first_node types x + k) ≡ Some (node_at (first_node types x + k) t m) }
    ensures each { (types : List Placed) (n : ℕ) (m : Node) → slice_get (nodes types) n ≡ Some m → IsMethodAt types n m }
    ensures of_row { (types : List Placed) (x n : ℕ) (t : Placed) (m : Node) → slice_get types x ≡ Some t → first_node types x ≤ n → n < first_node types x + length t.view.methods
        → slice_get (nodes types) n ≡ Some m → (m.owner ≡ t) × (slice_get t.view.methods (n - first_node types x) ≡ Some m.method) }
    ensures go_on { (types : List Placed) (x : ℕ) (t : Placed) → slice_get types x ≡ Some t → first_node types (x + 1) ≡ first_node types x + length t.view.methods }
    ensures number { (types : List Placed) (m : Node) → Contains (nodes types) m → slice_get (nodes types) m.number ≡ Some m }
    ensures row { (types : List Placed) (x : ℕ) (t : Placed) → IsDistinct is_type types → slice_get types x ≡ Some t
        → filter (λ m. is_type t m.owner) (nodes types) ≡ take (length t.view.methods) (drop (first_node types x) (nodes types)) }
    ensures methods { (types : List Placed) (t : Placed) → IsDistinct is_type types → Contains types t → map (λ m. m.method) (filter (λ m. is_type t m.owner) (nodes types)) ≡ t.view.methods }
{}

/// The known types of valid views each have methods apart by their names and descriptors.
pub fn valid_views_are_apart()
    ensures { (views : List Placed) → All (λ t. IsValid t.view) views → AreApart (known views) }
{}

/// Where no view has two methods of one name and descriptor, as no valid view has, no type has two such nodes; and then no two
/// nodes have one identity.
pub fn identities_are_distinct()
    ensures of_valid_views { (types : List Placed) → IsDistinct is_type types → AreApart types → IsSingle types }
    ensures distinct { (types : List Placed) → IsDistinct is_type types → IsSingle types → (m n : Node) → Contains (nodes types) m → Contains (nodes types) n → identity m ≡ identity n → m ≡ n }
{}

/// A declared method is one of the type's own, it is there where the type has one of the signature, and it is the only one.
pub fn declared_methods_are_own()
    ensures found { (types : List Placed) → IsDistinct is_type types → (t : Placed) (s : Signature) (m : Node) → Contains types t → declared types s t ≡ Some m → (m.owner ≡ t) × Contains (nodes types) m × (has_signature s m.method ≡ true) }
    ensures there { (types : List Placed) → IsDistinct is_type types → (t : Placed) (s : Signature) → Contains types t → is_some (declared types s t) ≡ list_any (has_signature s) t.view.methods }
    ensures only { (types : List Placed) → IsDistinct is_type types → IsSingle types → (m : Node) → Contains (nodes types) m → declared types (signature_of m.method) m.owner ≡ Some m }
{}

/// Where a type's methods are apart, the declared method of a signature is the one at the place of that method among
/// the type's own, and the one among the nodes of the signature; and there is none where there is none of these.
pub fn declared_methods_are_found()
    ensures at_place { (types : List Placed) → IsDistinct is_type types → AreApart types → (x k : ℕ) (t : Placed) (m : Method) (s : Signature) → slice_get types x ≡ Some t → slice_get t.view.methods k ≡ Some m
        → has_signature s m ≡ true → declared types s t ≡ Some (node_at (first_node types x + k) t m) }
    ensures not_own { (types : List Placed) → IsDistinct is_type types → (t : Placed) (s : Signature) → Contains types t → declared types s t ≡ None ↔ ((m : Method) → Contains t.view.methods m → has_signature s m ≡ false) }
    ensures of_nodes { (types : List Placed) → IsDistinct is_type types → AreApart types → (t : Placed) (s : Signature) (m : Node) → Contains (nodes types) m → is_type t m.owner ≡ true
        → has_signature s m.method ≡ true → declared types s t ≡ Some m }
    ensures no_node { (types : List Placed) (t : Placed) (s : Signature) → declared types s t ≡ None ↔ ((m : Node) → Contains (nodes types) m → has_signature s m.method ≡ true → is_type t m.owner ≡ false) }
{}

/// The superinterface methods are those of the interfaces above, and depend on these alone.
pub fn superinterface_methods_are_above()
    ensures members { (types : List Placed) → IsDistinct is_type types → (t : Placed) (s : Signature) (m : Node) → Contains (super_methods types t s) m ↔ IsSuperMethod types t s m }
    ensures alike { (types : List Placed) (t u : Placed) → SameInterfaces types t u → (s : Signature) → super_methods types t s ≡ super_methods types u s }
    ensures same_default { (types : List Placed) (t u : Placed) → SameInterfaces types t u → (s : Signature) → one_default types t s ≡ one_default types u s }
{}

/// The maximally-specific methods are those of JVMS 5.4.3.3: no other maximally-specific method is declared in an interface
/// below. And of each superinterface method there is a maximally-specific one, which it is or which is declared in an interface
/// below.
pub fn maximally_specific_as_in_jvms()
    ensures alike { (types : List Placed) → IsAcyclic types → IsDistinct is_type types → (t : Placed) (s : Signature) (m : Node) → Contains (specific types t s) m ↔ IsMaximal types t s m }
    ensures there { (types : List Placed) → IsAcyclic types → IsDistinct is_type types → (t : Placed) (s : Signature) (m : Node) → Contains (super_methods types t s) m → HasSpecific types t s m }
{}

/// The one default is the only maximally-specific method that isn't abstract; the first superinterface method is the one of
/// least number; and where there is none there is no default.
pub fn one_default_is_the_only()
    ensures only { (types : List Placed) (t : Placed) (s : Signature) (m : Node) → one_default types t s ≡ Some m ↔ (filter (λ n. not (is_abstract n.method)) (specific types t s) ≡ m ∷ []) }
    ensures first_one { (types : List Placed) (t : Placed) (s : Signature) (m n : Node) → first_super_method types t s ≡ Some m → Contains (super_methods types t s) n → m.number ≤ n.number }
    ensures none { (types : List Placed) (t : Placed) (s : Signature) → first_super_method types t s ≡ None → one_default types t s ≡ None }
{}
