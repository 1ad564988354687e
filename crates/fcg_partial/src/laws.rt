//! Laws of stored graphs.
ghost use Rattle.std.specs.Prelude.{◌≡◌, ◌<◌, ◌^◌, ℕ, List, All, Ok, length};
ghost use Rattle.fcg_grammar.specs.Spell.{IsBytes};
ghost use Rattle.fcg_views.specs.declared.view.View.{View};
ghost use Rattle.fcg_views.specs.Valid.{IsValid, name_count};
ghost use Rattle.fcg_partial.specs.SmallNumbers.{IsSmallView};
ghost use Rattle.fcg_partial.specs.Graph.{Graph, IsGraph, spelling};
ghost use Rattle.fcg_partial.specs.Views.{shown, graph_of, text_of};
ghost use Rattle.fcg_partial.specs.Reading.{graph_at};
ghost use Rattle.fcg_partial.specs.Sizes.{HasAtMost};

/// A string of bytes is read as a graph exactly where it is the spelling of that graph, and the graph is well formed.
pub fn reading_is_exact()
    ensures found { (bytes : List ℕ) (g : Graph) → IsBytes bytes → graph_at bytes ≡ Ok g → (bytes ≡ spelling g) × IsGraph g }
    ensures only { (bytes : List ℕ) (g : Graph) → IsBytes bytes → IsGraph g → bytes ≡ spelling g → graph_at bytes ≡ Ok g }
{}

/// Each list of views has one stored graph. It is well formed where each view is valid, the names are fewer than 2^32,
/// and flags and places have two bytes, as the types of the views' fields have it.
pub fn one_graph_each()
    ensures views { (views : List View) → shown (graph_of views) ≡ views }
    ensures formed { (views : List View) → All IsValid views → All IsSmallView views → name_count views < 2 ^ 32 → IsGraph (graph_of views) }
    ensures graphs { (g : Graph) → IsGraph g → graph_of (shown g) ≡ g }
{}

/// A graph that is well formed shows valid views. What it has is at most as many as its spelling has bytes: so the views
/// of a graph of fewer than 2^32 bytes fit.
pub fn graphs_show_valid_views()
    ensures valid { (g : Graph) → IsGraph g → All IsValid (shown g) }
    ensures few { (views : List View) → HasAtMost (length (text_of views)) views }
{}
