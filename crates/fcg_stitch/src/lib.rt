//! Stitching: the call graph of an ordered set of releases, by class hierarchy analysis over their stored graphs. The parts
//! are joined, each reference of a part is resolved once, and the targets of its virtual and interface calls are found once;
//! edges are kept by their callers, with lists of targets that callers share. What was stitched is seen as its parts, and
//! each accessor by the rules of the analysis. Laws say that the targets of callers are the edges. The crate stands on
//! joining, resolution and selection, and on rows of edges.
#![tactic(auto)]

mod callers;
mod calls;
mod place;
mod refs;
mod refusal;
mod sites;
mod states;
mod status;
mod stitched;
mod stitching;
mod target_laws;
mod targets;

pub use refusal::StitchRefusal;
pub use status::SiteStatus;
pub use stitched::{NodeName, Stitched};
pub use stitching::stitch;
pub use target_laws::{callers_have_targets, targets_are_dispatched, targets_by_receivers};
