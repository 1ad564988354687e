//! Single commands over a store: it is opened, one command is submitted or one query answered, and it is closed, whatever
//! comes of it. The crate stands on the office, on the answers and on the values of replies.
#![tactic(auto)]

mod ask;
mod outcome;
mod submit;
mod words;

pub use ask::ask_once;
pub use outcome::Outcome;
pub use submit::submit_once;
pub use words::{read_number, read_query};
