//! Laws of rows of numbers that are joined along the links of types, and of what is at or below a name by such rows, by
//! chains and by subclasses.
ghost use Rattle.std.specs.Prelude.{◌≡◌, ◌↔◌, ◌<◌, ℕ, true, false, List, [], ◌∷◌, ◌++◌, Bool, not, ◌&&◌, ◌||◌, ◌==◌, Contains, All, Some, filter, flat_map, map, length, slice_get, slice_index_or};
ghost use Rattle.std.specs.List.{IsDistinct, list_any, range_with_len};
ghost use Rattle.std.specs.List.Sorted.{IsStrictlyIncreasing};
ghost use Rattle.fcg_grammar.specs.Table.{table};
ghost use Rattle.fcg_analysis.specs.NamesAndFlags.{same};
ghost use Rattle.fcg_analysis.specs.Declarations.{Placed, object_name, is_type, is_class, is_interface, names_of};
ghost use Rattle.fcg_analysis.specs.Types.{is_above, is_below};
ghost use Rattle.fcg_analysis.specs.Nodes.{Node};
ghost use Rattle.fcg_analysis.specs.Laws.Statements.{IsAcyclic};
ghost use Rattle.fcg_order.specs.Links.{row, HasLink};
ghost use Rattle.fcg_order.specs.Order.{IsOrder};
ghost use Rattle.fcg_join.specs.Names.{text_at};
ghost use Rattle.fcg_join.specs.TypeLinks.{HasTypeAt, HasLinks};
ghost use Rattle.fcg_join.specs.NodeTables.{HasNodeAt, owners};
ghost use Rattle.fcg_join.specs.TypeTables.{HasOwnRows, IsUpwardRow, AreUpwardRows, IsJoinedRow, AreJoined, HasNames, AreTypeNames, AreSubclasses, mentions_at, own_mentions, is_class_name};

/// A row that has a type's own numbers and those of the rows to which the type links has the numbers that the type or
/// one above it has of its own, where those rows do. Along the order against the links those rows are there before; and
/// all rows do, where each is so joined.
pub fn rows_are_joined_upward()
    ensures step { (types : List Placed) (links : List (List ℕ)) (own rows : ℕ → List ℕ) (says : ℕ → Placed → Bool) → HasLinks types links → HasOwnRows types says own → (x : ℕ) (t : Placed) (numbers : List ℕ) → HasTypeAt types x t
        → ((y : ℕ) (u : Placed) → HasLink links x y → HasTypeAt types y u → IsUpwardRow types says u (rows y)) → IsJoinedRow links own rows x numbers → IsUpwardRow types says t numbers }
    ensures joined { (links : List (List ℕ)) (own rows : ℕ → List ℕ) (x : ℕ) → IsJoinedRow links own rows x (own x ++ flat_map rows (row links x)) }
    ensures in_order { (types : List Placed) (links : List (List ℕ)) (own rows : ℕ → List ℕ) (says : ℕ → Placed → Bool) → IsAcyclic types → IsDistinct is_type types → HasLinks types links → HasOwnRows types says own
        → (order before later : List ℕ) → IsOrder links order → (x : ℕ) (t : Placed) (numbers : List ℕ) → order ≡ before ++ x ∷ later → HasTypeAt types x t
        → ((y : ℕ) (u : Placed) → Contains before y → HasTypeAt types y u → IsUpwardRow types says u (rows y)) → IsJoinedRow links own rows x numbers → IsUpwardRow types says t numbers }
    ensures each { (types : List Placed) (links : List (List ℕ)) (own rows : ℕ → List ℕ) (says : ℕ → Placed → Bool) → IsAcyclic types → HasLinks types links → HasOwnRows types says own → AreJoined links own rows → AreUpwardRows types says rows }
{}

/// What a type mentions itself, by numbers of names: its own name, where it is an interface, and the names it uses that
/// no known type has. The table of all names of some types and of those that they use has these numbers.
pub fn mentions_are_numbered()
    ensures own { (names : List (List ℕ)) (types : List Placed) → HasNames names types → IsDistinct is_type types → (t : Placed) (n : ℕ) → Contains types t → Contains (own_mentions names types t) n ↔ (mentions_at names types n t ≡ true) }
    ensures names { (texts : List (List ℕ)) (types : List Placed) → ((t : Placed) → Contains types t → Contains texts t.view.name) → ((t : Placed) (n : List ℕ) → Contains types t → Contains (names_of t) n → Contains texts n) → HasNames (table texts) types }
{}

/// A type is at or below a name that isn't a known class's where it is Object's, or the row of the type has its number.
/// At or below a name that no type has or uses is none, unless it is Object's.
pub fn below_by_rows()
    ensures value { (names : List (List ℕ)) (types : List Placed) (d : Placed) (numbers : List ℕ) → IsUpwardRow types (mentions_at names types) d numbers → (n : ℕ) → n < length names → is_class_name types (text_at names n) ≡ false
        → is_below types d (text_at names n) ≡ (same (text_at names n) object_name || list_any (λ k. k == n) numbers) }
    ensures contained { (n : ℕ) (numbers : List ℕ) → (list_any (λ k. k == n) numbers ≡ true) ↔ Contains numbers n }
    ensures unmentioned { (names : List (List ℕ)) (types : List Placed) → HasNames names types → (n : List ℕ) → (Contains names n → ⊥) → (d : Placed) → Contains types d → is_below types d n ≡ same n object_name }
{}

/// An interface is above another type where the row of that has the number of its name, as of the
/// owner of a node; and types of one number are one.
pub fn interfaces_above_by_rows()
    ensures of_row { (names : List (List ℕ)) (types : List Placed) → IsAcyclic types → IsDistinct is_type types → (t u : Placed) (n : ℕ) (numbers : List ℕ) → Contains types t → Contains types u → is_interface u ≡ true
        → n < length names → text_at names n ≡ u.view.name → IsUpwardRow types (mentions_at names types) t numbers → is_above types t u ≡ (not (is_type u t) && list_any (λ k. k == n) numbers) }
    ensures by_numbers { (names : List (List ℕ)) (types : List Placed) → IsAcyclic types → IsDistinct is_type types → (rows : ℕ → List ℕ) (name_at : ℕ → ℕ) → AreUpwardRows types (mentions_at names types) rows → AreTypeNames names types name_at
        → (x y : ℕ) (t u : Placed) → HasTypeAt types x t → HasTypeAt types y u → is_interface u ≡ true → is_above types t u ≡ (not (x == y) && list_any (λ k. k == name_at y) (rows x)) }
    ensures of_node { (names : List (List ℕ)) (types : List Placed) → IsAcyclic types → IsDistinct is_type types → (rows : ℕ → List ℕ) (name_at : ℕ → ℕ) → AreUpwardRows types (mentions_at names types) rows → AreTypeNames names types name_at
        → (x k : ℕ) (t : Placed) (m : Node) → HasTypeAt types x t → HasNodeAt types k m
        → (is_interface m.owner && is_above types t m.owner) ≡ (is_interface m.owner && (not (x == slice_index_or (owners types) k 0) && list_any (λ j. j == name_at (slice_index_or (owners types) k 0)) (rows x))) }
    ensures same { (types : List Placed) → IsDistinct is_type types → (x y : ℕ) (t u : Placed) → HasTypeAt types x t → HasTypeAt types y u → is_type t u ≡ (x == y) }
{}

/// The types at or below a name, in order: a list that rises and has their numbers has these types. They are those
/// whose rows have the number of the name; of a class those that have its number or that of a subclass, of one of
/// theirs, and so on; and all, where the name is Object's.
pub fn below_in_order()
    ensures listed { (types : List Placed) (n : List ℕ) (numbers : List ℕ) → IsStrictlyIncreasing numbers → All (λ x. x < length types) numbers → ((x : ℕ) (t : Placed) → HasTypeAt types x t → Contains numbers x ↔ (is_below types t n ≡ true))
        → map (slice_get types) numbers ≡ map Some (filter (λ t. is_below types t n) types) }
    ensures by_rows { (names : List (List ℕ)) (types : List Placed) (rows : ℕ → List ℕ) → AreUpwardRows types (mentions_at names types) rows
        → (n : ℕ) (numbers : List ℕ) → n < length names → is_class_name types (text_at names n) ≡ false → same (text_at names n) object_name ≡ false
        → IsStrictlyIncreasing numbers → All (λ x. x < length types) numbers → ((x : ℕ) → x < length types → Contains numbers x ↔ Contains (rows x) n)
        → map (slice_get types) numbers ≡ map Some (filter (λ t. is_below types t (text_at names n)) types) }
    ensures subclasses { (types : List Placed) → IsAcyclic types → IsDistinct is_type types → (x : ℕ) (u : Placed) → HasTypeAt types x u → is_class u ≡ true → same u.view.name object_name ≡ false
        → (numbers : List ℕ) → AreSubclasses types x numbers → (z : ℕ) (t : Placed) → HasTypeAt types z t → Contains numbers z ↔ (is_below types t u.view.name ≡ true) }
    ensures of_object { (types : List Placed) → map (slice_get types) (range_with_len 0 (length types)) ≡ map Some (filter (λ t. is_below types t object_name) types) }
    ensures unmentioned { (names : List (List ℕ)) (types : List Placed) → HasNames names types → (n : List ℕ) → (Contains names n → ⊥) → same n object_name ≡ false → filter (λ t. is_below types t n) types ≡ [] }
{}
