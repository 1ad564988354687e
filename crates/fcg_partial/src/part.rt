//! The releases of a set, with their graphs.
ghost use Rattle.std.specs.Prelude.{◌≡◌, IfOk};

use crate::graph::PartialGraph;
use fcg_views::{Coordinate, Items};
use std::alloc::AllocError;
use std::marker::Model;
use std::sync::Arc;

/// A release, with its graph, which others may share. Contracts see its coordinate and the views of the graph.
#[derive(Drop)]
pub struct Part {
    /// What the release is named by.
    pub coordinate: Coordinate,
    /// Its graph.
    pub graph: Arc<PartialGraph>,
}

impl Model for Part {
    ghost use Rattle.std.specs.Arc.{arc_value};
    ghost use Rattle.fcg_partial.specs.Parts.{PartShown};

    ghost Value = { PartShown };

    ghost view = { λ p. record { coordinate = p.coordinate; views = arc_value p.graph } };
}

/// A copy shares the text of the coordinate and the graph. The only error is want of memory.
impl Clone for Part {
    ghost is_clone = { λ part copy. copy ≡ part };

    fn clone(&self) -> Result<Part, AllocError> {
        Ok(Part {
            coordinate: self.coordinate.clone()?,
            graph: self.graph.clone()?,
        })
    }
}

/// The releases of a set, in its order.
pub type Parts = Items<Part>;
