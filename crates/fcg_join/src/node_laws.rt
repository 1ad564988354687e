//! Laws between nodes and tables by their numbers: the first node of each type, the type of each node, the nodes that
//! declare a signature, and the superinterface methods among these.
ghost use Rattle.std.specs.Prelude.{◌≡◌, ◌≢◌, ◌↔◌, ◌+◌, ◌-◌, ◌<◌, ◌≤◌, ◌==◌, ℕ, true, List, [], ◌∷◌, ◌++◌, Bool, not, ◌&&◌, ◌||◌, Contains, All, Option, Some, None, filter, find, length, option_map, replicate, slice_get, slice_index_or};
ghost use Rattle.std.specs.List.{IsDistinct, list_any, range_with_len};
ghost use Rattle.std.specs.List.Sorted.{IsStrictlyIncreasing};
ghost use Rattle.fcg_analysis.specs.NamesAndFlags.{first_of_list, one};
ghost use Rattle.fcg_analysis.specs.Declarations.{Placed, Signature, is_type, is_interface, is_private, is_static, is_abstract, has_signature};
ghost use Rattle.fcg_analysis.specs.Types.{is_above};
ghost use Rattle.fcg_analysis.specs.Nodes.{Node, nodes, declared, super_methods, specific, one_default, first_super_method};
ghost use Rattle.fcg_analysis.specs.Laws.Statements.{IsAcyclic};
ghost use Rattle.fcg_analysis.specs.Laws.Methods.{method_total, first_node, AreApart};
ghost use Rattle.fcg_join.specs.TypeLinks.{HasTypeAt};
ghost use Rattle.fcg_join.specs.NodeTables.{HasNodeAt, IsNumberOf, first_nodes, owners, numbers_of, declarers, IsDeclarer, owner_in_row};
ghost use Rattle.fcg_join.specs.TypeTables.{AreUpwardRows, AreTypeNames, mentions_at};

/// The first nodes of the types are the sums of the methods before.
pub fn first_nodes_are_sums()
    ensures go_on { (types : List Placed) (t : Placed) → first_nodes (types ++ t ∷ []) ≡ first_nodes types ++ method_total types ∷ [] }
    ensures total_goes_on { (types : List Placed) (t : Placed) → method_total (types ++ t ∷ []) ≡ method_total types + length t.view.methods }
    ensures long { (types : List Placed) → length (first_nodes types) ≡ length types }
    ensures at_place { (types : List Placed) (x : ℕ) (t : Placed) → HasTypeAt types x t → slice_index_or (first_nodes types) x 0 ≡ first_node types x }
{}

/// The table of owners has of each node the number of its type, and a node is of a type where its number is in the row
/// of that: it is the type's method at the place in the row.
pub fn owners_are_types()
    ensures go_on { (types : List Placed) (t : Placed) → owners (types ++ t ∷ []) ≡ owners types ++ replicate (length t.view.methods) (length types) }
    ensures long { (types : List Placed) → length (owners types) ≡ length (nodes types) }
    ensures within { (types : List Placed) → All (λ x. x < length types) (owners types) }
    ensures owner { (types : List Placed) (k : ℕ) (m : Node) → HasNodeAt types k m → HasTypeAt types (slice_index_or (owners types) k 0) m.owner }
    ensures row { (types : List Placed) (k x : ℕ) (m : Node) (t : Placed) → HasNodeAt types k m → HasTypeAt types x t → slice_index_or (owners types) k 0 ≡ x ↔ ((first_node types x ≤ k) × (k < first_node types x + length t.view.methods)) }
    ensures method { (types : List Placed) (k first : ℕ) (m : Node) → HasNodeAt types k m → slice_index_or (first_nodes types) (slice_index_or (owners types) k 0) 0 ≡ first
        → (first ≤ k) × (k < first + length m.owner.view.methods) × (slice_get m.owner.view.methods (k - first) ≡ Some m.method) }
{}

/// The declarers of a signature are the numbers of the nodes that have it, and rise. Where signatures have numbers,
/// these are the nodes with the number of the signature.
pub fn declarers_are_nodes()
    ensures members { (types : List Placed) (s : Signature) (k : ℕ) → Contains (declarers types s) k ↔ IsDeclarer types s k }
    ensures rise { (types : List Placed) (s : Signature) → IsStrictlyIncreasing (declarers types s) }
    ensures within { (types : List Placed) (s : Signature) → All (λ k. k < length (nodes types)) (declarers types s) }
    ensures by_numbers { (types : List Placed) (s : Signature) (signatures : List ℕ) (number : ℕ) → ((k : ℕ) (m : Node) → HasNodeAt types k m → slice_index_or signatures k 0 ≡ number ↔ (has_signature s m.method ≡ true))
        → declarers types s ≡ filter (λ k. slice_index_or signatures k 0 == number) (range_with_len 0 (length (nodes types))) }
{}

/// The declared method of a type and a signature is the declarer whose owner is the type, where there is one.
pub fn declared_by_declarers()
    ensures first { (types : List Placed) → IsDistinct is_type types → (s : Signature) (x : ℕ) (t : Placed) → HasTypeAt types x t → option_map (λ m. m.number) (declared types s t) ≡ find (λ k. slice_index_or (owners types) k 0 == x) (declarers types s) }
    ensures found { (types : List Placed) → IsDistinct is_type types → AreApart types → (s : Signature) (x k : ℕ) (t : Placed) (m : Node) → HasTypeAt types x t → HasNodeAt types k m → Contains (declarers types s) k
        → slice_index_or (owners types) k 0 ≡ x → declared types s t ≡ Some m }
    ensures none { (types : List Placed) → IsDistinct is_type types → (s : Signature) (x : ℕ) (t : Placed) → HasTypeAt types x t → ((k : ℕ) → Contains (declarers types s) k → slice_index_or (owners types) k 0 ≢ x)
        → declared types s t ≡ None }
    ensures number { (types : List Placed) → IsDistinct is_type types → (s : Signature) (k : ℕ) (t : Placed) (m : Node) → Contains types t → declared types s t ≡ Some m → m.number ≡ k → HasNodeAt types k m × Contains (declarers types s) k }
{}

/// The superinterface methods of a type and a signature are the declarers that are neither private nor static and whose
/// owners are interfaces above the type, in their order; the maximally-specific ones are those below whose owner is no
/// owner of these; the one default is the only one of them that isn't abstract; and the first is the first that passes.
pub fn super_methods_by_declarers()
    ensures members { (types : List Placed) (t : Placed) (s : Signature) (passes : ℕ → Bool)
        → ((k : ℕ) (m : Node) → HasNodeAt types k m → has_signature s m.method ≡ true → passes k ≡ (not (is_private m.method || is_static m.method) && (is_interface m.owner && is_above types t m.owner)))
        → numbers_of (super_methods types t s) ≡ filter passes (declarers types s) }
    ensures first { (types : List Placed) (t : Placed) (s : Signature) (passes : ℕ → Bool)
        → ((k : ℕ) (m : Node) → HasNodeAt types k m → has_signature s m.method ≡ true → passes k ≡ (not (is_private m.method || is_static m.method) && (is_interface m.owner && is_above types t m.owner)))
        → option_map (λ m. m.number) (first_super_method types t s) ≡ find passes (declarers types s) }
    ensures first_of_all { (types : List Placed) (t : Placed) (s : Signature) → option_map (λ m. m.number) (first_super_method types t s) ≡ first_of_list (numbers_of (super_methods types t s)) }
    ensures specific { (types : List Placed) (t : Placed) (s : Signature) (below : ℕ → ℕ → Bool)
        → ((j k : ℕ) (o m : Node) → HasNodeAt types j o → HasNodeAt types k m → Contains (super_methods types t s) o → Contains (super_methods types t s) m → below j k ≡ is_above types o.owner m.owner)
        → numbers_of (specific types t s) ≡ filter (λ k. not (list_any (λ j. below j k) (numbers_of (super_methods types t s)))) (numbers_of (super_methods types t s)) }
    ensures default { (types : List Placed) (t : Placed) (s : Signature) (below : ℕ → ℕ → Bool) (abstract_at : ℕ → Bool)
        → ((j k : ℕ) (o m : Node) → HasNodeAt types j o → HasNodeAt types k m → Contains (super_methods types t s) o → Contains (super_methods types t s) m → below j k ≡ is_above types o.owner m.owner)
        → ((k : ℕ) (m : Node) → HasNodeAt types k m → abstract_at k ≡ is_abstract m.method)
        → option_map (λ m. m.number) (one_default types t s)
        ≡ one (filter (λ k. not (abstract_at k)) (filter (λ k. not (list_any (λ j. below j k) (numbers_of (super_methods types t s)))) (numbers_of (super_methods types t s)))) }
{}

/// By rows of mentions: a declarer of an interface, neither private nor static, is a superinterface method of a type
/// where its owner is another type and the type's row has the number of the owner's name. One of these is
/// maximally-specific where this isn't so of its owner and the owner of any other.
pub fn super_methods_by_rows()
    ensures members { (names : List (List ℕ)) (types : List Placed) → IsAcyclic types → IsDistinct is_type types → (rows : ℕ → List ℕ) (name_at : ℕ → ℕ) → AreUpwardRows types (mentions_at names types) rows → AreTypeNames names types name_at
        → (open_at : ℕ → Bool) → ((k : ℕ) (m : Node) → HasNodeAt types k m → open_at k ≡ (not (is_private m.method || is_static m.method) && is_interface m.owner)) → (x : ℕ) (t : Placed) (s : Signature) → HasTypeAt types x t
        → numbers_of (super_methods types t s) ≡ filter (λ k. open_at k && owner_in_row rows name_at (owners types) x k) (declarers types s) }
    ensures first { (names : List (List ℕ)) (types : List Placed) → IsAcyclic types → IsDistinct is_type types → (rows : ℕ → List ℕ) (name_at : ℕ → ℕ) → AreUpwardRows types (mentions_at names types) rows → AreTypeNames names types name_at
        → (open_at : ℕ → Bool) → ((k : ℕ) (m : Node) → HasNodeAt types k m → open_at k ≡ (not (is_private m.method || is_static m.method) && is_interface m.owner)) → (x : ℕ) (t : Placed) (s : Signature) → HasTypeAt types x t
        → option_map (λ m. m.number) (first_super_method types t s) ≡ find (λ k. open_at k && owner_in_row rows name_at (owners types) x k) (declarers types s) }
    ensures default { (names : List (List ℕ)) (types : List Placed) → IsAcyclic types → IsDistinct is_type types → (rows : ℕ → List ℕ) (name_at : ℕ → ℕ) → AreUpwardRows types (mentions_at names types) rows → AreTypeNames names types name_at
        → (abstract_at : ℕ → Bool) → ((k : ℕ) (m : Node) → HasNodeAt types k m → abstract_at k ≡ is_abstract m.method) → (t : Placed) (s : Signature) (ks : List ℕ) → ks ≡ numbers_of (super_methods types t s)
        → option_map (λ m. m.number) (one_default types t s)
        ≡ one (filter (λ k. not (abstract_at k)) (filter (λ k. not (list_any (λ j. owner_in_row rows name_at (owners types) (slice_index_or (owners types) j 0) k) ks)) ks)) }
{}

/// What is found by its number stands there among the nodes.
pub fn found_nodes_have_numbers()
    ensures declared { (types : List Placed) (s : Signature) (t : Placed) (found : Option ℕ) → option_map (λ m. m.number) (declared types s t) ≡ found → IsNumberOf types found (declared types s t) }
    ensures default { (types : List Placed) (t : Placed) (s : Signature) (found : Option ℕ) → option_map (λ m. m.number) (one_default types t s) ≡ found → IsNumberOf types found (one_default types t s) }
    ensures first { (types : List Placed) (t : Placed) (s : Signature) (found : Option ℕ) → option_map (λ m. m.number) (first_super_method types t s) ≡ found → IsNumberOf types found (first_super_method types t s) }
{}
