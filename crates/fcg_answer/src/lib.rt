//! Queries, answered over a book: what is answered is a function of the log and the query. The crate stands on the book and
//! on stitching.
#![tactic(auto)]

mod answer;
mod graph;
mod query;

pub use answer::answer_query;
pub use query::Query;
