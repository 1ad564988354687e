//! Laws between tables by numbers and the definitions: what each table has to hold, and what it then says of the types.
ghost use Rattle.std.specs.Prelude.{◌≡◌, ◌↔◌, ℕ, true, List, Contains, Bool, ◌&&◌, ◌||◌, map, not, is_none, length, false, slice_index_or};
ghost use Rattle.std.specs.List.{IsDistinct, list_any};
ghost use Rattle.fcg_analysis.specs.NamesAndFlags.{same};
ghost use Rattle.fcg_analysis.specs.Declarations.{Placed, is_type, is_named, object_name};
ghost use Rattle.fcg_analysis.specs.Types.{known, links, above, is_circular, winners, type_named, object, uses_unlinked_name, has_gap, is_below};
ghost use Rattle.fcg_analysis.specs.Laws.Statements.{IsAcyclic};
ghost use Rattle.fcg_analysis.specs.Laws.ByName.{links_to};
ghost use Rattle.fcg_order.specs.Links.{IsCircular};
ghost use Rattle.fcg_order.specs.Order.{MarksCircles};
ghost use Rattle.fcg_order.specs.Fill.{IsFilled};
ghost use Rattle.fcg_join.specs.Winners.{name_number, first_marks, marked};
ghost use Rattle.fcg_join.specs.TypeLinks.{HasTypeAt, HasLinks};
ghost use Rattle.fcg_join.specs.TypeTables.{IsUpward, mark_of, mentions};

/// The winners are the views whose name's number isn't that of an earlier view.
pub fn winners_by_numbers()
    ensures { (names : List (List ℕ)) (views : List Placed) → ((t : Placed) → Contains views t → Contains names t.view.name) → winners views ≡ marked (first_marks (map (name_number names) views)) views }
{}

/// A type is circular where its number lies on a circle of links.
pub fn circles_by_numbers()
    ensures { (types : List Placed) (rows : List (List ℕ)) → IsDistinct is_type types → HasLinks types rows → (x : ℕ) (t : Placed) → HasTypeAt types x t → IsCircular rows x ↔ (is_circular types t ≡ true) }
{}

/// The known types are the winners without a mark of circles, in their order.
pub fn known_by_marks()
    ensures { (views : List Placed) (rows : List (List ℕ)) (circular : List Bool) → HasLinks (winners views) rows → MarksCircles rows circular → known views ≡ marked (map not circular) (winners views) }
{}

/// A type links to one of a name where it links to the known type of that name.
pub fn links_by_names()
    ensures { (types : List Placed) → IsDistinct is_type types → (t : Placed) (n : List ℕ) → list_any (λ u. is_named n u && links t u) types ≡ links_to t (type_named types n) }
{}

/// A table that has for each type what the type itself says, or what it has for a type to which that one links, has what the
/// type or one above it says. So there is one such table.
pub fn upward_tables()
    ensures { (types : List Placed) (says table : Placed → Bool) → IsAcyclic types → IsUpward types says table → (t : Placed) → Contains types t → table t ≡ (says t || list_any says (above types t)) }
{}

/// Marks that are handed on along the links of numbers are such a table: the mark of a number has what its type or one above
/// it says.
pub fn marks_are_upward()
    ensures upward { (types : List Placed) (rows : List (List ℕ)) (says : Placed → Bool) (old new : List Bool) → IsDistinct is_type types → IsAcyclic types → HasLinks types rows
        → ((x : ℕ) (t : Placed) → HasTypeAt types x t → slice_index_or old x false ≡ says t) → IsFilled rows old new → IsUpward types says (mark_of types new) }
    ensures mark { (types : List Placed) (marks : List Bool) (x : ℕ) (t : Placed) → IsDistinct is_type types → length marks ≡ length types → HasTypeAt types x t → mark_of types marks t ≡ slice_index_or marks x false }
    ensures above { (types : List Placed) (rows : List (List ℕ)) (says : Placed → Bool) (old new : List Bool) → IsDistinct is_type types → IsAcyclic types → HasLinks types rows
        → ((x : ℕ) (t : Placed) → HasTypeAt types x t → slice_index_or old x false ≡ says t) → IsFilled rows old new
        → (x : ℕ) (t : Placed) → HasTypeAt types x t → slice_index_or new x false ≡ (says t || list_any says (above types t)) }
{}

/// A type has a gap where Object isn't present, or the table of unlinked names says so.
pub fn gaps_by_tables()
    ensures { (types : List Placed) (table : Placed → Bool) → IsAcyclic types → IsUpward types (uses_unlinked_name types) table → (t : Placed) → Contains types t → has_gap types t ≡ (is_none (object types) || table t) }
{}

/// A type is at or below a name that is Object's, or that the table of what mentions it has for the type.
pub fn below_by_tables()
    ensures { (types : List Placed) (n : List ℕ) (table : Placed → Bool) → IsAcyclic types → IsUpward types (mentions types n) table → (d : Placed) → Contains types d → is_below types d n ≡ (same n object_name || table d) }
{}
