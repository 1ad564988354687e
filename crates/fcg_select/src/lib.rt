//! Overriding, selection and special calls (JVMS 5.4.5, 5.4.6 and 6.5): which method a call selects among the known types of
//! a set. Names are given by their bytes, or by their numbers in the set. The crate stands on the rules of the analysis and on
//! joining.
#![tactic(auto)]

mod chain;
mod line;
mod overriding;
mod package;
mod selection;
mod special_call;

pub use overriding::can_override;
pub use selection::{is_instance_of, select, select_as};
pub use special_call::{special, special_numbered};
