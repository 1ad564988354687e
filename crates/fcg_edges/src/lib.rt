//! Edges between numbered nodes, kept by their callers: each caller has targets of its own, and uses lists of targets that
//! callers share, so that many edges take little memory. Rows are made caller by caller; edges are counted without being
//! listed, and are found by their places. The crate stands on rows of numbers, and on the laws of edges from tables.
#![tactic(auto)]

mod counting;
mod edge_rows;
mod finding;
mod kept_lists;
mod marking;
mod row_laws;
mod row_maker;

pub use edge_rows::EdgeRows;
pub use row_laws::{disjoint_rows_add_up, sorted_rows_are_filters};
pub use row_maker::RowMaker;
