//! Views of class files from a line of text, for the tests of every crate above. The crate stands on the values that
//! every layer speaks of.
#![tactic(auto)]

mod short_form;

pub use short_form::{ShortFormError, views_of};
