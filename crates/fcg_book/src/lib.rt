//! The log of accepted commands, and the office that enters them over a keeper of records. In specs/ stand what a log
//! is, how an entry is spelled as a record and read back, how a command is decided, and which releases a set names. The
//! crate stands on keepers, on stored graphs and on the values.
#![tactic(auto)]

mod answer;
mod book;
mod decide;
mod entry;
mod log;
mod office;
mod opening;
mod pending;
mod read;
mod register;
mod write;

pub use answer::{Accepted, Refused};
pub use book::{Ask, Book, SetKey};
pub use entry::{Command, Entry};
pub use log::{MOST_ENTRIES, MOST_RELEASE_BYTES, MOST_STORE_BYTES};
pub use office::Office;
pub use opening::{OpenFailed, OpenRefusal};
