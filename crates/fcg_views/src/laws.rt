//! What holds of coordinates and of method URIs, whatever reads them.
ghost use Rattle.std.specs.Prelude.{◌≡◌, ℕ, List, Ok};
ghost use Rattle.fcg_views.specs.declared.uri.MethodUri.{MethodUri};
ghost use Rattle.fcg_views.specs.Coordinate.{CoordinateVerdict, IsCoordinate};
ghost use Rattle.fcg_views.specs.Uri.{UriVerdict, IsMethod, uri_text, uri_of};

/// Each text is a coordinate, or has one fault, and never both.
pub fn one_coordinate_verdict()
    ensures { (text : List ℕ) → CoordinateVerdict text }
{}

/// Each text is the URI of one method, or has one fault, and never both. What is printed of a method is read as that
/// method, and what is read is printed as it was.
pub fn one_uri_verdict()
    ensures verdict { (text : List ℕ) → UriVerdict text }
    ensures read { (u : MethodUri) → IsCoordinate u.coordinate → IsMethod u → uri_of (uri_text u) ≡ Ok u }
    ensures printed { (text : List ℕ) (u : MethodUri) → uri_of text ≡ Ok u → uri_text u ≡ text }
{}
