//! Files in memory, whose calls fail where a list says so. Their contracts tell all that a call does.
ghost use Rattle.std.specs.Prelude.{◌≡◌, ◌↔◌, ◌≤◌, map, length, Some, Contains, IfOk, OnOk, IsErrOf, IsTrue};
ghost use Rattle.std.specs.List.{find};
ghost use Rattle.std.specs.Option.{option_map};
ghost use Rattle.fcg_bytes.specs.Files.{Answers, Counts, after_call, paths_below, file_of, list_answer, read_answer, relative, texts};
ghost use Rattle.fcg_views.specs.Valid.{is_same};
ghost use Rattle.fcg_bytes.specs.Known.{Knows, after_count, bytes_of, with_path, with_some};

use crate::{Files, FilesRefusal, MOST_FILES};
use fcg_views::{Bytes, Paths};
use std::alloc::{AllocError, Global};
use std::collections::BTreeSet;
use std::marker::Model;

/// Files in memory, for tests of what reads files. A call costs the length of the list of calls that fail and a pass
/// over the files. A list makes some comparisons of paths more for each file below the folder, about the logarithm of
/// their number, and copies the paths; a read copies the bytes.
#[derive(Drop)]
pub struct MemoryFiles {
    files: Vec<(String, Vec<u8>)>,
    fail: Vec<u64>,
    calls: u64,
    faults: u64,
}

impl Model for MemoryFiles {
    ghost use Rattle.std.specs.Prelude.{map};
    ghost use Rattle.fcg_bytes.specs.Files.{FilesState, file_of};

    ghost Value = { FilesState };

    ghost view = { λ s. record { files = map file_of s.files.items; faults = s.faults; calls = s.calls; fail = s.fail.items } };
}

impl MemoryFiles {
    /// Files of these paths and bytes, of which several with one path are the first of them. The calls whose numbers
    /// stand in `fail` fail. Calls of both kinds are numbered from 0 up to the last `u64`, which is the number of every
    /// call from there on.
    pub fn new(files: Vec<(String, Vec<u8>)>, fail: Vec<u64>) -> MemoryFiles
        ensures { result ≡ record { files = map file_of files.items; faults = 0; calls = 0; fail = fail.items } }
    {
        MemoryFiles {
            files,
            fail,
            calls: 0,
            faults: 0,
        }
    }

    // Counts a call, and says whether it fails.
    fn count_call(&mut self) -> bool
        ensures fails { IsTrue result ↔ Contains self.old.fail self.old.calls }
        ensures state { self.new ≡ after_count self.old result }
        ensures later { self.old.faults ≤ self.new.faults }
    {
        let call = self.calls;
        self.calls = self.calls.saturating_add(1);
        let fails = self.fail.contains(&call);
        if fails {
            self.faults = self.faults.saturating_add(1);
        }
        fails
    }
}

// The path relative to a folder, where the path begins with the folder and a slash.
fn relative_to<'a>(folder: &str, path: &'a str) -> Option<&'a str>
    ensures { option_map (λ p. p.now) result ≡ relative folder.now path.now }
{
    let rest = path.strip_prefix(folder)?;
    rest.strip_prefix('/')
}

// The bytes of the first file at a path.
fn find_file<'a>(files: &'a [(String, Vec<u8>)], path: &str) -> Option<&'a (String, Vec<u8>)>
    ensures { option_map (λ f. f.now) result ≡ find (λ f. is_same (file_of f).path path.now) files.now }
{
    files.iter().find(|file| file.0.as_str() == path)
}

impl Files for MemoryFiles {
    ghost told = { λ s. Some s.files };

    ghost faults = { λ s. s.faults };

    fn list(&mut self, alloc: Global, folder: &str) -> Result<Paths, FilesRefusal>
        ensures answer { Answers texts result (list_answer self.old.files folder.now) }
        ensures cause { Counts self.old.faults self.new.faults result }

        // It fails at the calls that the list names, and at no other.
        ensures fails { IsErrOf result FilesRefusal.Failed ↔ Contains self.old.fail self.old.calls }
        ensures state { self.new ≡ after_call self.old result }
    {
        if self.count_call() {
            return Err(FilesRefusal::Failed);
        }
        list_files(alloc, &self.files, folder)
    }

    fn read(&mut self, alloc: Global, path: &str, limit: usize) -> Result<Bytes, FilesRefusal>
        ensures answer { Answers (λ bytes. bytes) result (read_answer self.old.files path.now limit) }
        ensures within { IfOk result (λ bytes. length bytes ≤ limit) }
        ensures cause { Counts self.old.faults self.new.faults result }

        // It fails at the calls that the list names, and at no other.
        ensures fails { IsErrOf result FilesRefusal.Failed ↔ Contains self.old.fail self.old.calls }
        ensures state { self.new ≡ after_call self.old result }
    {
        if self.count_call() {
            return Err(FilesRefusal::Failed);
        }
        read_file(alloc, &self.files, path, limit)
    }
}

// What a list answers where it doesn't fail.
fn list_files(
    alloc: Global,
    files: &[(String, Vec<u8>)],
    folder: &str,
) -> Result<Paths, FilesRefusal>
    ensures answer { Answers texts result (list_answer (map file_of files.now) folder.now) }
    ensures no_failure { ¬ (IsErrOf result FilesRefusal.Failed) }
{
    let found = find_below(alloc, files, folder)?;
    if found.is_empty() {
        return Err(FilesRefusal::Absent);
    }
    if found.len() > MOST_FILES {
        return Err(FilesRefusal::TooLong);
    }
    Ok(copy_paths(alloc, &found)?)
}

// What a read answers where it doesn't fail.
fn read_file(
    alloc: Global,
    files: &[(String, Vec<u8>)],
    path: &str,
    limit: usize,
) -> Result<Bytes, FilesRefusal>
    ensures answer { Answers (λ bytes. bytes) result (read_answer (map file_of files.now) path.now limit) }
    ensures within { IfOk result (λ bytes. length bytes ≤ limit) }
    ensures no_failure { ¬ (IsErrOf result FilesRefusal.Failed) }
{
    let Some((_, bytes)) = find_file(files, path) else {
        return Err(FilesRefusal::Absent);
    };
    if bytes.len() > limit {
        return Err(FilesRefusal::TooLong);
    }
    Ok(Bytes::from(Vec::from_slice(alloc, bytes)?))
}

// The paths below a folder, relative to it, each once.
fn find_below<'a>(
    alloc: Global,
    files: &'a [(String, Vec<u8>)],
    folder: &str,
) -> Result<Vec<&'a str>, AllocError>
    ensures { IfOk result (λ found. bytes_of found.items ≡ paths_below (map file_of files.now) folder.now) }
{
    let mut found = Vec::new(alloc);
    let mut known = BTreeSet::new(alloc);
    for (path, _) in files {
        add_below(&mut found, &mut known, folder, path.as_str())?;
    }
    Ok(found)
}

// Adds the path relative to a folder, where the path is below it and isn't known yet.
fn add_below<'a>(
    found: &mut Vec<&'a str>,
    known: &mut BTreeSet<&'a str>,
    folder: &str,
    path: &'a str,
) -> Result<(), AllocError>
    ensures known { Knows known.old (bytes_of found.old.items) → OnOk result (Knows known.new (bytes_of found.new.items)) }
    ensures found { Knows known.old (bytes_of found.old.items) →
        OnOk result (bytes_of found.new.items ≡ with_some (bytes_of found.old.items) (relative folder.now path.now)) }
{
    match relative_to(folder, path) {
        Some(path) => add_once(found, known, path),
        None => Ok(()),
    }
}

// Adds a path that isn't known yet.
fn add_once<'a>(
    found: &mut Vec<&'a str>,
    known: &mut BTreeSet<&'a str>,
    path: &'a str,
) -> Result<(), AllocError>
    ensures known { Knows known.old (bytes_of found.old.items) → OnOk result (Knows known.new (bytes_of found.new.items)) }
    ensures found { Knows known.old (bytes_of found.old.items) →
        OnOk result (bytes_of found.new.items ≡ with_path (bytes_of found.old.items) path.now) }
{
    if known.insert(path)? {
        found.push(path)?;
    }
    Ok(())
}

// The same paths as texts of their own.
fn copy_paths(alloc: Global, found: &[&str]) -> Result<Paths, AllocError>
    ensures { IfOk result (λ paths. texts paths ≡ bytes_of found.now) }
{
    let mut paths = Vec::new(alloc);
    for path in found {
        paths.push(String::from_str(alloc, path)?)?;
    }
    Ok(Paths::from(paths))
}
