//! Bundles of the files of a folder.
ghost use Rattle.std.specs.Prelude.{◌≡◌, ◌≤◌, ◌<◌, ◌+◌, ◌^◌, ◌++◌, map, length, true, not, None, IfOk, IfErr, IfSome, IfNone, IsSome, OnOk, IsErrOf, string_bytes};
ghost use Rattle.std.specs.List.{position};
ghost use Rattle.fcg_bytes.specs.Causes.{Rose};
ghost use Rattle.fcg_bytes.specs.Files.{file_at, path_in, texts};
ghost use Rattle.fcg_grammar.specs.Reading.{seen};
ghost use Rattle.fcg_class.specs.Bundle.{bundle, entry};
ghost use Rattle.fcg_class.specs.Pack.{ArePacked, IsRefusal, Writes, bad_path, bundle_limit, entry_in, is_packed, pack_of, packed};
ghost use Rattle.fcg_class.specs.Internal.Packing.{AreThere, GivesCheck, GivesFile, GivesFiles, bundle_size, entry_of, entry_size, head};
ghost use Rattle.fcg_class.specs.Path.{is_path};
ghost use Rattle.fcg_class.specs.declared.packing.PackRefusal.TheVariants as refusals;

use crate::path::{is_class_path, is_path, is_path_length};
use fcg_bytes::{Failed, Files, FilesRefusal, Sink, write_whole};
use fcg_views::{Bytes, Paths};
use std::alloc::{AllocError, AllocFailed, Global};

/// The length in bytes of the longest bundle.
pub const BUNDLE_LIMIT: usize = 67_108_864;

/// Why a folder wasn't packed. `Absent` is tried before `TooLong`, and this before `BadPath`; the others can come before
/// any of them, but `WriteFailed` only after all.
#[derive(Clone, Copy, Debug, PartialEq, Eq)]
pub enum PackRefusal {
    /// There was no memory for the files.
    NoMemory,
    /// There is no such folder.
    Absent,
    /// A call of the files failed, and they counted it.
    FilesFailed,
    /// The folder has more than 100,000 files, or the bundle would have more than 67,108,864 bytes.
    TooLong,
    /// A path isn't one that a bundle may have.
    BadPath {
        /// The number of the first such path, from 0, among those of the bundle.
        entry: u32,
    },
    /// A write failed, and the sink counted it. It took a front of the bundle.
    WriteFailed,
}

impl From<FilesRefusal> for PackRefusal {
    ghost use Rattle.fcg_class.specs.Pack.{refusal_of};

    ghost from_gives = { λ refusal e. e ≡ refusal_of refusal };

    fn from(refusal: FilesRefusal) -> PackRefusal {
        match refusal {
            FilesRefusal::NoMemory => PackRefusal::NoMemory,
            FilesRefusal::Absent => PackRefusal::Absent,
            FilesRefusal::Failed => PackRefusal::FilesFailed,
            FilesRefusal::TooLong => PackRefusal::TooLong,
        }
    }
}

impl From<Failed> for PackRefusal {
    ghost from_gives = { λ _ e. e ≡ refusals.WriteFailed };

    fn from(_: Failed) -> PackRefusal {
        PackRefusal::WriteFailed
    }
}

impl From<AllocError> for PackRefusal {
    ghost from_gives = { λ _ e. e ≡ refusals.NoMemory };

    fn from(_: AllocError) -> PackRefusal {
        PackRefusal::NoMemory
    }
}

impl<T: Drop> From<AllocFailed<T>> for PackRefusal {
    ghost from_gives = { λ _ e. e ≡ refusals.NoMemory };

    fn from(_: AllocFailed<T>) -> PackRefusal {
        PackRefusal::NoMemory
    }
}

// Whether the file of a path is packed.
fn is_packed(path: &[u8]) -> bool
    ensures { result ≡ is_packed path.now }
{
    is_class_path(path) || path == b"META-INF/MANIFEST.MF".as_slice()
}

// Those of the paths that are packed, in the order of their bytes.
fn choose_paths(paths: Paths) -> Vec<String>
    ensures { texts result.items ≡ packed (texts paths) }
{
    let mut paths = paths.into_vec();
    paths.retain(|path| is_packed(path.as_bytes()));
    paths.sort_unstable();
    paths.dedup();
    paths
}

// A file that was read, with its path below the folder.
#[derive(Drop)]
struct PackedFile {
    path: String,
    body: Bytes,
}

// How many bytes the body of an entry with this path may have where so many bytes of the bundle stand before the entry,
// or `None` where the path is too long already.
fn room_for(size: usize, path: &str) -> Option<usize>
    requires { size ≤ bundle_limit }
    ensures some { IfSome result (λ room. size + 6 + length path.now + room ≡ bundle_limit) }
    ensures none { IfNone result (bundle_limit < size + 6 + length path.now) }
{
    let left = BUNDLE_LIMIT - size;
    left.checked_sub(6)?.checked_sub(path.len())
}

// The path of a file below a folder.
fn join(alloc: Global, folder: &str, path: &str) -> Result<String, AllocError>
    ensures { IfOk result (λ whole. string_bytes whole ≡ path_in folder.now path.now) }
{
    let mut whole = String::from_str(alloc, folder)?;
    whole.push('/')?;
    whole.push_str(path)?;
    Ok(whole)
}

// Reads the file at a path below a folder, where so many bytes of the bundle stand before its entry.
fn read_file<F: Files>(
    alloc: Global,
    files: &mut F,
    folder: &str,
    path: String,
    size: usize,
) -> Result<PackedFile, PackRefusal>
    requires { size ≤ bundle_limit }
    ensures path { IfOk result (λ f. string_bytes f.path ≡ string_bytes path) }
    ensures short { IfOk result (λ f. size + entry_size (entry_of f) ≤ bundle_limit) }
    ensures answer { IfSome (F.told files.old) (λ told. IsSome (file_at told (path_in folder.now (string_bytes path))) → GivesFile size (entry_in told folder.now (string_bytes path)) result) }
    ensures failed { IsErrOf result PackRefusal.FilesFailed → Rose (F.faults files.old) (F.faults files.new) }
    ensures unwritten { ¬ IsErrOf result PackRefusal.WriteFailed }
    ensures later { F.faults files.old ≤ F.faults files.new }
    ensures told { F.told files.new ≡ F.told files.old }
{
    let Some(room) = room_for(size, path.as_str()) else {
        return Err(PackRefusal::TooLong);
    };
    let whole = join(alloc, folder, path.as_str())?;
    let body = files.read(alloc, whole.as_str(), room)?;
    Ok(PackedFile { path, body })
}

// How many bytes of the bundle there are with this entry, where so many stand before it.
fn size_with(size: usize, file: &PackedFile) -> usize
    requires { size + entry_size (entry_of file.now) ≤ bundle_limit }
    ensures { result ≡ size + entry_size (entry_of file.now) }
{
    size + 6 + file.path.len() + file.body.as_slice().len()
}

// Reads the files at these paths below a folder.
fn read_files<F: Files>(
    alloc: Global,
    files: &mut F,
    folder: &str,
    paths: Vec<String>,
) -> Result<Vec<PackedFile>, PackRefusal>
    ensures paths { IfOk result (λ read. map (λ f. string_bytes f.path) read.items ≡ texts paths.items) }
    ensures short { IfOk result (λ read. bundle_size (map entry_of read.items) ≤ bundle_limit) }
    ensures answer { IfSome (F.told files.old) (λ told. AreThere told folder.now (texts paths.items) → GivesFiles (map (entry_in told folder.now) (texts paths.items)) (seen (λ read. map entry_of read.items) result)) }
    ensures failed { IsErrOf result PackRefusal.FilesFailed → Rose (F.faults files.old) (F.faults files.new) }
    ensures unwritten { ¬ IsErrOf result PackRefusal.WriteFailed }
    ensures later { F.faults files.old ≤ F.faults files.new }
    ensures told { F.told files.new ≡ F.told files.old }
{
    let mut read = Vec::new(alloc);
    let mut size = 10;
    for path in paths {
        let file = read_file(alloc, files, folder, path, size)?;
        size = size_with(size, &file);
        read.push(file)?;
    }
    Ok(read)
}

// Whether the path of a file is one that a bundle may have.
fn has_path(file: &PackedFile) -> bool
    ensures { result ≡ is_path (string_bytes file.now.path) }
{
    let path = file.path.as_bytes();
    is_path_length(path.len()) && is_path(path)
}

// The place of the first file whose path a bundle may not have.
fn find_bad(files: &[PackedFile]) -> Option<usize>
    ensures { result ≡ position (λ f. not (is_path (string_bytes f.path))) files.now }
{
    files.iter().position(|file| !has_path(file))
}

// Checks the paths of the files that were read.
fn check_paths(files: &[PackedFile]) -> Result<(), PackRefusal>
    requires { bundle_size (map entry_of files.now) ≤ bundle_limit }
    ensures { GivesCheck (bad_path (map entry_of files.now)) result }
{
    match find_bad(files) {
        Some(entry) => Err(PackRefusal::BadPath {
            entry: entry as u32,
        }),
        None => Ok(()),
    }
}

// Adds the entry of a file to a bundle.
fn push_entry(out: &mut Vec<u8>, file: PackedFile) -> Result<(), AllocError>
    requires short { entry_size (entry_of file) ≤ bundle_limit }
    requires path { is_path (string_bytes file.path) ≡ true }
    ensures { OnOk result (out.new.items ≡ out.old.items ++ entry (entry_of file)) }
{
    let path = file.path.as_bytes();
    let body = file.body.as_slice();
    out.extend_from_slice(&(path.len() as u16).to_be_bytes())?;
    out.extend_from_slice(path)?;
    out.extend_from_slice(&(body.len() as u32).to_be_bytes())?;
    out.extend_from_slice(body)
}

// Adds what stands before the entries of a bundle.
fn push_head(out: &mut Vec<u8>, count: usize) -> Result<(), AllocError>
    requires { count < 2 ^ 32 }
    ensures { OnOk result (out.new.items ≡ out.old.items ++ head count) }
{
    out.extend_from_slice(&0x4643_4742_u32.to_be_bytes())?;
    out.extend_from_slice(&1_u16.to_be_bytes())?;
    out.extend_from_slice(&(count as u32).to_be_bytes())
}

// The bundle of files. Each is freed when it stands in the bundle.
fn spell(alloc: Global, files: Vec<PackedFile>) -> Result<Vec<u8>, AllocError>
    requires short { bundle_size (map entry_of files.items) ≤ bundle_limit }
    requires paths { bad_path (map entry_of files.items) ≡ None }
    ensures { IfOk result (λ bytes. bytes.items ≡ bundle (map entry_of files.items)) }
{
    let mut out = Vec::new(alloc);
    push_head(&mut out, files.len())?;
    for file in files {
        push_entry(&mut out, file)?;
    }
    Ok(out)
}

/// Writes the bundle of a folder's files whose paths end `.class`, at any depth, and of its `META-INF/MANIFEST.MF`, in
/// the order of the bytes of their paths, and returns how many they are. All of the files are read before the first byte
/// is written.
///
/// The error is `Absent` where there is no such folder, else `TooLong` where it has more than 100,000 files of any path
/// or where its bundle would have more than 67,108,864 bytes, else `BadPath` where a path is none that a bundle may have.
/// The files of a bundle aren't looked into: [`read_bundle`](crate::read_bundle) may find faults of their class files.
///
/// It reads each file once and copies it once; the paths are sorted. Its memory is that of the files and the bundle.
pub fn pack<F: Files, W: Sink>(
    alloc: Global,
    files: &mut F,
    folder: &str,
    sink: &mut W,
) -> Result<u32, PackRefusal>
    // What was written is the bundle of the files that are packed, or a front of it where the sink failed.
    ensures wrote { Writes (ArePacked (F.told files.old) folder.now) result (W.taken sink.old) (W.taken sink.new) }
    // Over files that are told a refusal is the one that these give.
    ensures refused { IfSome (F.told files.old) (λ told. IfErr result (λ e. IsRefusal e (pack_of told folder.now))) }
    // Each fault has its cause. Want of memory alone is free.
    ensures files_failed { IsErrOf result PackRefusal.FilesFailed → Rose (F.faults files.old) (F.faults files.new) }
    ensures write_failed { IsErrOf result PackRefusal.WriteFailed → Rose (W.faults sink.old) (W.faults sink.new) }
    ensures later { (F.faults files.old ≤ F.faults files.new) × (W.faults sink.old ≤ W.faults sink.new) }
    ensures told { F.told files.new ≡ F.told files.old }
    ensures aside { W.aside sink.new ≡ W.aside sink.old }
{
    let paths = choose_paths(files.list(alloc, folder)?);
    let read = read_files(alloc, files, folder, paths)?;
    check_paths(&read)?;
    let count = read.len() as u32;
    let bundle = spell(alloc, read)?;
    write_whole(sink, bundle.as_slice())?;
    Ok(count)
}
