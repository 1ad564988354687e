//! The JSON of queries and replies: what a query asks, what it is answered or why it is refused, and the text of a reply.
//! In specs/ stand the value of each reply, as an object whose fields stand in the order of their bytes, and its text. The
//! crate stands on the values of `fcg_views`, and prints by `serde_json`.
#![tactic(auto)]

mod answer;
mod name;
mod print;
mod query;
mod refusal;
mod reply;
mod row;

pub use print::print_reply;
pub use query::{FieldName, GraphQuery, Page};
pub use reply::{Allow, CommandOutcome, NodeRows, Pairs, Reply};
