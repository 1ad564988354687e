//! Laws of the definitions.
ghost use Rattle.std.specs.Prelude.{◌≡◌, ◌+◌, ◌≤◌, ℕ, List, length, Option, Err, sum_by};
ghost use Rattle.std.specs.List.{AllZip};
ghost use Rattle.fcg_grammar.specs.Spell.{IsBytes};
ghost use Rattle.fcg_bytes.specs.Files.{File};
ghost use Rattle.fcg_views.specs.declared.view.View.{View};
ghost use Rattle.fcg_views.specs.Valid.{name_count};
ghost use Rattle.fcg_class.specs.Bundle.{BundleVerdict, Content, Entry, bundle, bundle_of, sites_in, views_of};
ghost use Rattle.fcg_class.specs.declared.bundle.BundleFault.{BundleFault};
ghost use Rattle.fcg_class.specs.Pack.{ArePacked, HoldsIn, IsOfContent, ReadsAs};

/// Each string of bytes is a bundle with one content, or has one fault, and never both.
pub fn one_bundle_verdict()
    ensures { (bytes : List ℕ) → IsBytes bytes → BundleVerdict bytes }
{}

/// The views of a bundle have at most as many names as the bundle has bytes, beside three for each of 4,000,000 sites.
/// Those of at most 67,108,864 bytes are fewer than 2 ^ 32, so that such views fit.
pub fn bundles_have_few_names()
    ensures { (bytes : List ℕ) (views : List View) → Content bytes views → name_count views ≤ length bytes + 12000000 }
{}

/// What a folder is packed as reads as the files that were packed: where each class file of it is read, and they have at
/// most 4,000,000 sites, the bundle shows their views; whatever it shows are the views of its class files; and its only
/// faults are those of its class files, and that they have too many sites.
pub fn packed_bundles_read()
    ensures read { (told : Option (List File)) (folder : List ℕ) (entries : List Entry) → ArePacked told folder entries →
        (reads : List (Option View)) → AllZip HoldsIn entries reads → sum_by sites_in reads ≤ 4000000 → Content (bundle entries) (views_of entries reads) }
    ensures only { (told : Option (List File)) (folder : List ℕ) (entries : List Entry) → ArePacked told folder entries →
        (views : List View) → Content (bundle entries) views → ReadsAs entries views }
    ensures faults { (told : Option (List File)) (folder : List ℕ) (entries : List Entry) → ArePacked told folder entries → IsBytes (bundle entries) →
        (f : BundleFault) → bundle_of (bundle entries) ≡ Err f → IsOfContent f }
{}
