//! Joining: the types of a set, read together from stored graphs by numbers. Names are numbered in the order of their bytes
//! over all parts, winners are found by the numbers of their names, circular types by one search, links, chains, nodes and
//! their signatures by tables of numbers, and gaps and what is at or below a name by tables that are filled along the order
//! against the links. What was joined is seen as its parts, and each accessor by the rules of the analysis. Laws say which
//! tables by numbers are those of these rules: circles and known types, links, gaps, what is at or below a name, nodes,
//! declared methods and superinterface methods. The crate stands on the words of formats, on the views and the stored
//! graphs, on the rules of the analysis, and on links by numbers.
#![tactic(auto)]

mod below;
mod gaps;
mod heads;
mod id;
mod inherited;
mod joined;
mod joined_below;
mod joined_methods;
mod joined_names;
mod joined_rows;
mod joined_signatures;
mod joined_supers;
mod known;
mod laws;
mod mentions;
mod methods;
mod names;
mod node_laws;
mod nodes;
mod outcome;
mod part_names;
mod place_laws;
mod signatures;
mod table_laws;
mod tables;
mod type_links;
mod used_names;
mod winners;

pub use id::{MethodId, NameId, NumberedRef, SignatureId, TypeId, TypeOrigin};
pub use joined::Joined;
pub use laws::{
    below_by_tables, circles_by_numbers, gaps_by_tables, known_by_marks, links_by_names,
    marks_are_upward, upward_tables, winners_by_numbers,
};
pub use names::{NameNumbers, number_names};
pub use node_laws::{
    declared_by_declarers, declarers_are_nodes, first_nodes_are_sums, found_nodes_have_numbers,
    owners_are_types, super_methods_by_declarers, super_methods_by_rows,
};
pub use outcome::{Cause, Outcome};
pub use place_laws::{links_by_rows, places_are_marked};
pub use table_laws::{
    below_by_rows, below_in_order, interfaces_above_by_rows, mentions_are_numbered,
    rows_are_joined_upward,
};
pub use winners::mark_firsts;
