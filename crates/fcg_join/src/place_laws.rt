//! Laws of rows of links by the names that types use, and of the places of types among the views.
ghost use Rattle.std.specs.Prelude.{◌≡◌, ◌↔◌, ℕ, true, List, Bool, Contains, Some, map, length, position, slice_get};
ghost use Rattle.std.specs.List.{IsDistinct, range_with_len};
ghost use Rattle.fcg_analysis.specs.Declarations.{Placed, is_type};
ghost use Rattle.fcg_analysis.specs.Types.{links};
ghost use Rattle.fcg_order.specs.Links.{row};
ghost use Rattle.fcg_join.specs.Winners.{name_number, first_marks, marked};
ghost use Rattle.fcg_join.specs.Places.{ArePlaces};
ghost use Rattle.fcg_join.specs.TypeLinks.{HasTypeAt, HasLinks, linked_types};

/// The types to which a type links are the known class of its superclass's name and the known interfaces of its
/// interfaces' names. So rows of the numbers of these have the links.
pub fn links_by_rows()
    ensures linked { (types : List Placed) → IsDistinct is_type types → (t u : Placed) → Contains (linked_types types t) u ↔ (Contains types u × (links t u ≡ true)) }
    ensures rows { (types : List Placed) → IsDistinct is_type types → (rows : List (List ℕ)) → length rows ≡ length types → ((x : ℕ) (t : Placed) → HasTypeAt types x t → map (slice_get types) (row rows x) ≡ map Some (linked_types types t)) → HasLinks types rows }
{}

/// What is marked among types is marked among their places; and the place of a winner is that of the first view of its
/// name.
pub fn places_are_marked()
    ensures all { (views : List Placed) → ArePlaces views (range_with_len 0 (length views)) views }
    ensures marked { (views types : List Placed) (places : List ℕ) (marks : List Bool) → ArePlaces views places types → ArePlaces views (marked marks places) (marked marks types) }
    ensures first { (names : List (List ℕ)) (views : List Placed) → ((u : Placed) → Contains views u → Contains names u.view.name) → (k : ℕ) (t : Placed)
        → slice_get views k ≡ Some t → slice_get (first_marks (map (name_number names) views)) k ≡ Some true → position (is_type t) views ≡ Some k }
{}
