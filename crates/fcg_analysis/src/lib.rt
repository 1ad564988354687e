//! The rules of the analysis, over a list of views with their coordinates: which types a set has, what a site's reference
//! resolves to, which methods a call may reach, the edges between methods, and the methods that reach a target. specs/ has
//! a definition for each. Beside them stand worked cases, which the definitions compute to their numbers; cases that tell
//! two readings of a rule apart, and a rule from one with a condition less; and laws that hold of all lists of views. The
//! crate has no code that runs: each function is empty, and its contract is the law. It stands on the words of formats and
//! on the views.
//! In proofs/General are lemmas on lists, on numbers in a row, on lists that rise and on walks, for every crate above.
#![tactic(auto)]

mod cases;
mod choices;
pub mod conditions;
pub mod edge_laws;
mod laws;
pub mod method_laws;
pub mod selection_laws;
pub mod type_laws;

pub use cases::{
    absent_interface_case, circular_types_case, default_below_case, default_beside_abstract_case,
    doubled_class_case, doubled_class_turned_case, identity_case, lambda_case, logging_set_case,
    object_present_case, package_private_case, private_and_static_case, resolution_outcomes_case,
    self_call_case, special_super_case, special_super_moved_case, two_chains_case,
    two_defaults_case,
};
pub use choices::{
    absent_superclass_case, abstract_before_default_case, array_abstract_case, array_named_case,
    array_sites_case, circle_before_sound_case, failures_case, first_not_specific_case,
    handed_on_case, handle_kinds_case, handle_receivers_case, hidden_by_static_case,
    hidden_in_interface_case, inherited_init_case, interface_alone_case, interface_and_object_case,
    interface_not_abstract_case, interface_not_between_case, interface_superclass_case,
    named_as_interface_case, named_twice_case, no_edge_case, no_package_case, object_absent_case,
    object_at_the_end_case, object_below_absent_case, object_interface_case,
    object_names_interface_case, package_private_default_case, past_private_case,
    private_receivers_case, release_twice_case, special_absent_superclass_case,
    special_interface_case, special_of_object_case, special_search_case,
    static_beside_default_case, static_between_case, superclass_interface_case, unrelated_case,
    virtual_init_case,
};
pub use laws::{
    above_goes_on, above_is_transitive, above_is_walks, chains_go_on, circles_are_of_one_kind,
    distances_are_least, edges_are_pairs, edges_are_sorted, ends_are_nodes,
    known_types_are_acyclic, known_types_are_first, lines_go_on, nexts_are_nearer,
    numbers_are_places, overriding_is_its_cases, overriding_put_shortly, selected_methods_override,
    winners_are_first,
};
