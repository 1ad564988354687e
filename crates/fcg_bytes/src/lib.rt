//! Bytes that come in and go out: what is read from and what is written to, and files that are listed and read; the
//! same in memory for tests, and adapters over the readers and writers of std and over the host's file system. A call
//! that fails is counted by its object, so that a caller's contract can say that a failure was the cause of a refusal.
//! The crate stands on the lists of `fcg_views`.
#![tactic(auto)]

mod files;
mod host_files;
mod memory;
mod memory_files;
mod sink;
mod source;
mod standard;

pub use files::{Files, FilesRefusal, MOST_FILES, listed_paths_are_files};
pub use host_files::HostFiles;
pub use memory::{MemorySink, MemorySource};
pub use memory_files::MemoryFiles;
pub use sink::{Sink, write_whole};
pub use source::{READ_BUFFER, ReadAllRefusal, Source, read_all};
pub use standard::{StdSink, StdSource};

/// A call of a source or a sink failed, and the object has counted it.
#[derive(Clone, Copy, Debug, PartialEq, Eq)]
pub struct Failed;
