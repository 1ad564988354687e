//! Numbered nodes with links between them: which nodes lie on circles of links, an order in which each other node stands
//! after all to which it links, and marks that are handed on along that order. One depth-first search finds circles and
//! order. All of it takes time linear in the nodes and the links, and nothing recurses, so that a chain or a circle of any
//! length takes no more stack than a short one. In specs/ stand walks of links, circles and the order; how the search goes
//! about it is said in specs/Internal alone. The crate stands on the library alone.
#![tactic(auto)]

mod fill;
mod links;
mod order;
mod places;
mod search;
mod turn;

pub use fill::fill_upward;
pub use links::Links;
pub use order::{Order, find_order};
pub use places::{Places, find_places};
pub use turn::turn_rows;
