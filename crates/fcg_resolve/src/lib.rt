//! Method resolution (JVMS 5.4.3.3 and 5.4.3.4): what a reference stands for among the known types of a set. A reference is
//! given by its names, or by their numbers in the set. The crate stands on the rules of the analysis and on joining.
#![tactic(auto)]

mod found;
mod outcome;

pub use outcome::{resolve, resolve_numbered};
