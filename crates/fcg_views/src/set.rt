//! Sets of releases.
ghost use Rattle.std.specs.Prelude.{◌≡◌};
ghost use Rattle.fcg_views.specs.Set.{releases_of};

use crate::coordinate::Coordinate;
use crate::items::Items;

/// The releases that a question is about, in the order in which they are searched: the first that has a class decides.
/// A release may stand in it more than once.
#[derive(Clone, Drop, PartialEq)]
pub struct Set {
    releases: Items<Coordinate>,
}

impl Set {
    /// The releases, in their order. Takes no memory.
    pub fn as_slice(&self) -> &[Coordinate]
        ensures { result.now ≡ releases_of self.now }
    {
        self.releases.as_slice()
    }

    /// The `Vec` of the releases. Takes no memory.
    pub fn into_vec(self) -> Vec<Coordinate>
        ensures { result.items ≡ releases_of self }
    {
        self.releases.into_vec()
    }
}

impl From<Vec<Coordinate>> for Set {
    ghost from_gives = { λ releases set. releases_of set ≡ releases.items };

    fn from(releases: Vec<Coordinate>) -> Set {
        Set {
            releases: Items::from(releases),
        }
    }
}
