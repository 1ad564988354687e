//! The commands, from the bytes in to the bytes out. `run` is the top call of the program: its contract says what it
//! writes for the bytes that it reads, and which status it ends with. The crate stands on the readers of class files and
//! bundles and on all crates below them.
#![tactic(auto)]

mod command;
mod refusal;
mod status;
mod text;
mod text_buffer;
mod words;

pub use command::{run, tell_no_memory};
pub use status::Status;
