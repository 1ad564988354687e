//! The words of binary formats, generic in the fault: numbers and strings of bytes at a place, rows that stand one
//! after the other, and the first item that breaks its rule. A format states its grammar and its reading order in
//! these words, and takes their laws. The crate stands on no other crate of the project.
#![tactic(auto)]

mod error;
mod number;

pub use error::ReadError;
pub use number::{read_part, read_u1, read_u2, read_u4};
