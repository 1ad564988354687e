//! Files that are listed and read.
ghost use Rattle.std.specs.Prelude.{◌≡◌, ◌≤◌, ◌↔◌, ℕ, List, Option, length, Contains, IfOk, IfSome, IsSome};
ghost use Rattle.std.specs.List.{IsDistinct};
ghost use Rattle.fcg_bytes.specs.Files.{File, Answers, Counts, file_at, list_answer, path_in, paths_below, read_answer, texts};
ghost use Rattle.fcg_views.specs.Valid.{is_same};
ghost use Rattle.fcg_bytes.specs.declared.files.FilesRefusal.TheVariants as refusals;

use fcg_views::{Bytes, Paths};
use std::alloc::{AllocError, AllocFailed, Global};

/// The most files of a folder that can be listed.
pub const MOST_FILES: usize = 100_000;

/// Why files weren't listed or read. `Absent` is tried before `TooLong`; `Failed` and `NoMemory` can come before both.
#[derive(Clone, Copy, Debug, PartialEq, Eq)]
pub enum FilesRefusal {
    /// There was no memory for the answer.
    NoMemory,
    /// There is no such folder, or no such file.
    Absent,
    /// The call failed, and the files counted it.
    Failed,
    /// The folder has more than [`MOST_FILES`] files, or the file more bytes than the limit.
    TooLong,
}

impl From<AllocError> for FilesRefusal {
    ghost from_gives = { λ _ e. e ≡ refusals.NoMemory };

    fn from(_: AllocError) -> FilesRefusal {
        FilesRefusal::NoMemory
    }
}

impl<T: Drop> From<AllocFailed<T>> for FilesRefusal {
    ghost from_gives = { λ _ e. e ≡ refusals.NoMemory };

    fn from(_: AllocFailed<T>) -> FilesRefusal {
        FilesRefusal::NoMemory
    }
}

/// Files, named by paths: a file system, or files in memory. A file is below a folder where its path begins with the
/// folder and a slash; the rest of the path is the one relative to the folder. Of several files with one path the first
/// counts. No call changes the files that are told.
pub trait Files {
    /// The files, where they are told.
    ghost told: { Self → Option (List File) };

    /// How often a call has failed: a u64 that begins below its last value, never falls, and stays at its last value.
    ghost faults: { Self → ℕ };

    /// The paths of all files below a folder at any depth, relative to it, each once, in the order in which the files
    /// are told. Over files that are told it is `Absent` exactly where none is below the folder, and else `TooLong`
    /// exactly where more than [`MOST_FILES`] paths are; `Failed` is counted.
    fn list(&mut self, alloc: Global, folder: &str) -> Result<Paths, FilesRefusal>
        ensures answer { IfSome (told self.old) (λ files. Answers texts result (list_answer files folder.now)) }
        ensures cause { Counts (faults self.old) (faults self.new) result }
        ensures told { told self.new ≡ told self.old };

    /// The bytes of the file at a path, such as a folder, a slash, and a path that was listed for the folder. Over files
    /// that are told it is `Absent` exactly where no file has the path, and else `TooLong` exactly where the file has
    /// more than `limit` bytes; `Failed` is counted. No files give more than `limit` bytes.
    fn read(&mut self, alloc: Global, path: &str, limit: usize) -> Result<Bytes, FilesRefusal>
        ensures answer { IfSome (told self.old) (λ files. Answers (λ bytes. bytes) result (read_answer files path.now limit)) }
        ensures within { IfOk result (λ bytes. length bytes ≤ limit) }
        ensures cause { Counts (faults self.old) (faults self.new) result }
        ensures told { told self.new ≡ told self.old };
}

/// What a list of told files gives: the paths at which there is a file below the folder, and no two of them are the
/// same. So each path that is listed can be read.
pub fn listed_paths_are_files()
    ensures files { (files : List File) (folder path : List ℕ) → Contains (paths_below files folder) path ↔ IsSome (file_at files (path_in folder path)) }
    ensures once { (files : List File) (folder : List ℕ) → IsDistinct is_same (paths_below files folder) }
{}
