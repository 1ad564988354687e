//! Files of the host's file system. What it holds and when it fails no contract says: here stands that failures are
//! counted.
ghost use Rattle.std.specs.Prelude.{◌≡◌, ◌≤◌, length, None, IfOk};

use crate::{Files, FilesRefusal, MOST_FILES, ReadAllRefusal, StdSource, read_all};
use fcg_views::{Bytes, Paths};
use std::alloc::{AllocError, Global};
use std::fs::{DirEntry, Metadata};
use std::io::{ErrorKind, Read};
use std::{fs, io, rt};

/// Files of the host's file system, whose paths the system reads: one that doesn't begin with a slash begins at the
/// folder that the program runs in.
///
/// A list has the regular files of a folder at any depth. A link to a regular file counts as one. A link to a folder
/// isn't followed, but where the folder that is listed is one itself; so no loop of links is walked. All else, such as
/// a device, is passed over. A folder that isn't there, or that is no folder, is `Absent`, and an empty one has the
/// empty list. A read takes a regular file, or a link to one, and no more than `limit + 1` bytes of it; all else is
/// `Absent`. Every other error of the system is a failure, and so are a name that isn't UTF-8 and a link that leads
/// nowhere; but where the system has no memory to open a file or to walk a folder, that is `NoMemory`.
///
/// A list makes one or two calls of the system for each entry of the folders, and takes memory for the paths alone. A
/// read costs the bytes that it reads.
#[derive(Drop)]
pub struct HostFiles<R> {
    rt: R,
    faults: u64,
}

impl<R: rt::Files> HostFiles<R> {
    ghost use Rattle.fcg_bytes.specs.Standard.{files_faults};

    /// The files of this runtime's file system, which have not failed yet.
    pub fn new(rt: R) -> HostFiles<R>
        ensures { files_faults result ≡ 0 }
    {
        HostFiles { rt, faults: 0 }
    }
}

impl<R: rt::Files> Files for HostFiles<R> {
    ghost told = { λ _. None };

    ghost faults = { λ s. s.faults };

    fn list(&mut self, alloc: Global, folder: &str) -> Result<Paths, FilesRefusal> {
        match list_folder(&self.rt, alloc, folder) {
            Err(FilesRefusal::Failed) => {
                self.faults = self.faults.saturating_add(1);
                Err(FilesRefusal::Failed)
            }
            answer => answer,
        }
    }

    fn read(&mut self, alloc: Global, path: &str, limit: usize) -> Result<Bytes, FilesRefusal> {
        match read_path(&self.rt, alloc, path, limit) {
            Err(FilesRefusal::Failed) => {
                self.faults = self.faults.saturating_add(1);
                Err(FilesRefusal::Failed)
            }
            answer => answer,
        }
    }
}

// What an error of the system comes to.
fn failure(error: io::Error) -> FilesRefusal {
    match error.kind() {
        ErrorKind::OutOfMemory => FilesRefusal::NoMemory,
        _ => FilesRefusal::Failed,
    }
}

// What an error comes to where what is asked for may not be there.
fn absence(error: io::Error) -> FilesRefusal {
    match error.kind() {
        ErrorKind::NotFound | ErrorKind::NotADirectory => FilesRefusal::Absent,
        _ => failure(error),
    }
}

// What it comes to that a file wasn't read.
fn unread(refusal: ReadAllRefusal) -> FilesRefusal {
    match refusal {
        ReadAllRefusal::NoMemory => FilesRefusal::NoMemory,
        ReadAllRefusal::Failed => FilesRefusal::Failed,
        ReadAllRefusal::TooLong => FilesRefusal::TooLong,
    }
}

// What stands at a path, or at the end of the links there.
fn look<R: rt::Files>(rt: &R, path: &str) -> Result<Metadata, FilesRefusal> {
    fs::metadata(rt, path).map_err(absence)
}

fn read_path<R: rt::Files>(
    rt: &R,
    alloc: Global,
    path: &str,
    limit: usize,
) -> Result<Bytes, FilesRefusal>
    ensures { IfOk result (λ bytes. length bytes ≤ limit) }
{
    if !look(rt, path)?.is_file() {
        return Err(FilesRefusal::Absent);
    }
    let file = fs::open(rt, path).map_err(absence)?;
    let most = (limit as u64).saturating_add(1);
    read_all(alloc, &mut StdSource::new(file.take(most)), limit).map_err(unread)
}

// A walk over a folder: the files that were found, and the folders that are still to be read. All paths are relative
// to the folder that is listed, and a folder's ends in a slash, but for the empty one of that folder itself.
#[derive(Drop)]
struct Walk {
    files: Vec<String>,
    folders: Vec<String>,
}

fn list_folder<R: rt::Files>(rt: &R, alloc: Global, folder: &str) -> Result<Paths, FilesRefusal> {
    if !look(rt, folder)?.is_dir() {
        return Err(FilesRefusal::Absent);
    }
    let mut walk = Walk {
        files: Vec::new(alloc),
        folders: Vec::new(alloc),
    };
    walk.folders.push(String::new(alloc))?;
    for _ in 0..u64::MAX {
        let Some(at) = walk.folders.pop() else {
            return Ok(Paths::from(walk.files));
        };
        walk.read_folder(rt, alloc, folder, at.as_str())?;
    }
    Err(FilesRefusal::Failed)
}

impl Walk {
    // Adds what a folder has.
    fn read_folder<R: rt::Files>(
        &mut self,
        rt: &R,
        alloc: Global,
        folder: &str,
        at: &str,
    ) -> Result<(), FilesRefusal> {
        let mut path = join(alloc, folder, "/")?;
        path.push_str(at)?;
        for entry in fs::read_dir(&(rt, alloc), path.as_str()).map_err(failure)? {
            let entry = entry.map_err(failure)?;
            self.add(rt, join(alloc, at, entry.file_name())?, &entry)?;
        }
        Ok(())
    }

    // Adds an entry of a folder, whose path this is.
    fn add<R: rt::Files, Q: rt::Files>(
        &mut self,
        rt: &R,
        mut path: String,
        entry: &DirEntry<Q>,
    ) -> Result<(), FilesRefusal> {
        let kind = entry.file_type().map_err(failure)?;
        if kind.is_dir() {
            path.push('/')?;
            self.folders.push(path)?;
        } else if kind.is_file() || (kind.is_symlink() && leads_to_file(rt, entry)?) {
            if self.files.len() >= MOST_FILES {
                return Err(FilesRefusal::TooLong);
            }
            self.files.push(path)?;
        }
        Ok(())
    }
}

// Whether a link leads to a regular file.
fn leads_to_file<R: rt::Files, Q: rt::Files>(
    rt: &R,
    entry: &DirEntry<Q>,
) -> Result<bool, FilesRefusal> {
    let end = fs::metadata(rt, entry.path()).map_err(failure)?;
    Ok(end.is_file())
}

fn join(alloc: Global, front: &str, rest: &str) -> Result<String, AllocError> {
    let mut text = String::from_str(alloc, front)?;
    text.push_str(rest)?;
    Ok(text)
}
