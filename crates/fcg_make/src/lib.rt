//! Class files that are written from views, such as tests and measurements read. `write_class` checks a view
//! (`check`), collects the entries of its pool (`needs`, `table`), and writes the file part by part (`write`, `member`,
//! `class`). The crate stands on the words of formats, on the views, on what a class file is with the laws of it, and on
//! the reader of pools for what is modified UTF-8.
#![tactic(auto)]

mod check;
mod class;
mod entry;
mod member;
mod needs;
mod refusal;
mod step;
mod table;
mod words;
mod write;

pub use class::write_class;
pub use refusal::{NotWritable, WriteError};
