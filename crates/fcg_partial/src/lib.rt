//! Stored graphs: the views of a release, with each name and each reference once. A graph is kept as the bytes that
//! spell it, with the places of its rows beside, and contracts see it as the list of its views. In specs/ stand the
//! grammar of stored graphs, the order in which they are read, and how numbers stand for names. The crate stands on the
//! words of formats and on the views.
#![tactic(auto)]

mod derived;
mod fault;
mod graph;
mod index;
mod intern;
mod laws;
mod marks;
mod mentions;
mod methods;
mod name_numbers;
mod names;
mod number;
mod part;
mod refs;
mod row;
mod rows;
mod shown;
mod types;
mod write;

pub use derived::Derived;
pub use fault::{RecordFault, RecordRule};
pub use graph::PartialGraph;
pub use laws::{graphs_show_valid_views, one_graph_each, reading_is_exact};
pub use part::{Part, Parts};
pub use row::{FieldRow, MethodRow, RefRow, SiteRow, TypeRow};
