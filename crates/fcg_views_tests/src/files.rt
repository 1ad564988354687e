//! What no clause says of files: that calls succeed where there is memory, and what the files of a real folder and of a
//! file system that fails come to.
ghost use Rattle.std.specs.Prelude.{◌≡◌, length, IfOk, IfSome};
ghost use Rattle.fcg_bytes.specs.Files.{paths_below};

use fcg_bytes::{Files, FilesRefusal, HostFiles, MemoryFiles};
use fcg_views::Paths;
use std::alloc::{AllocError, Allocator, Global};
use std::fs::{File, Metadata, OpenOptions};
use std::io::{ErrorKind, Read};
use std::os::unix::fs::symlink;
use std::test::Fail;
use std::{env, fs, io, process, rt};

// Files in memory, and their bytes.
const FILES: &[(&str, &str)] = &[
    ("a/x", "first"),
    ("ab/y", "y"),
    ("a/b/z", ""),
    ("a/x", "second"),
    ("top", "top"),
];

fn file_of(alloc: Global, path: &str, bytes: &str) -> Result<(String, Vec<u8>), AllocError> {
    let path = String::from_str(alloc, path)?;
    let bytes = Vec::from_slice(alloc, bytes.as_bytes())?;
    Ok((path, bytes))
}

fn make_files(alloc: Global, fail: &[u64]) -> Result<MemoryFiles, AllocError> {
    let mut files = Vec::new(alloc);
    for (path, bytes) in FILES {
        files.push(file_of(alloc, path, bytes)?)?;
    }
    Ok(MemoryFiles::new(files, fail.to_vec(alloc)?))
}

// The paths in order, each ended by a space.
fn sorted(alloc: Global, paths: Paths) -> Result<String, AllocError> {
    let mut paths = paths.into_vec();
    paths.sort()?;
    let mut text = String::new(alloc);
    for path in paths {
        text.push_str(path.as_str())?;
        text.push(' ')?;
    }
    Ok(text)
}

// What is found: a text, or why it isn't.
type Found = Result<&'static str, FilesRefusal>;

const ABSENT: Found = Err(FilesRefusal::Absent);

const TOO_LONG: Found = Err(FilesRefusal::TooLong);

const FAILED: Found = Err(FilesRefusal::Failed);

// Whether the paths below a folder, in order, are these, or are refused so.
fn lists<F: Files>(
    alloc: Global,
    files: &mut F,
    folder: &str,
    want: Found,
) -> Result<bool, AllocError> {
    match files.list(alloc, folder) {
        Ok(paths) => {
            let text = sorted(alloc, paths)?;
            Ok(want == Ok(text.as_str()))
        }
        Err(refusal) => Ok(want == Err(refusal)),
    }
}

// Whether a file has these bytes, or is refused so.
fn reads<F: Files>(alloc: Global, files: &mut F, path: &str, limit: usize, want: Found) -> bool {
    match files.read(alloc, path, limit) {
        Ok(bytes) => want.is_ok_and(|text| bytes.as_slice() == text.as_bytes()),
        Err(refusal) => want == Err(refusal),
    }
}

const LISTED: &[(&str, Found)] = &[
    ("a", Ok("b/z x ")),
    ("ab", Ok("y ")),
    ("a/b", Ok("z ")),
    ("", ABSENT),
    ("top", ABSENT),
    ("b", ABSENT),
    ("a/", ABSENT),
    ("a/x", ABSENT),
];

#[test]
fn lists_memory(rt: HostRuntime) -> Result<(), Fail> {
    let mut files = make_files(rt.alloc(), &[])?;
    for (folder, want) in LISTED {
        let listed = lists(rt.alloc(), &mut files, folder, *want)?;
        assert!(rt; listed, "below {folder}");
    }
    let count = count_files(rt.alloc(), &mut files, "a");
    assert!(rt; count == Ok(2));
    Ok(())
}

// Paths, with the most bytes that are wanted.
const READ: &[(&str, usize, Found)] = &[
    ("a/x", 5, Ok("first")),
    ("a/x", 4, TOO_LONG),
    ("a", 0, ABSENT),
    ("x", 0, ABSENT),
    ("a/y", 0, ABSENT),
    ("a/x/", 0, ABSENT),
];

#[test]
fn reads_memory(rt: HostRuntime) -> Result<(), Fail> {
    let mut files = make_files(rt.alloc(), &[])?;
    for (path, limit, want) in READ {
        let read = reads(rt.alloc(), &mut files, path, *limit, *want);
        assert!(rt; read, "at {path}");
    }
    Ok(())
}

#[test]
fn fails_where_it_is_told_to(rt: HostRuntime) -> Result<(), Fail> {
    let mut files = make_files(rt.alloc(), &[1, 2])?;
    assert!(rt; lists(rt.alloc(), &mut files, "b", ABSENT)?);
    assert!(rt; lists(rt.alloc(), &mut files, "b", FAILED)?);
    assert!(rt; reads(rt.alloc(), &mut files, "top", 3, FAILED));
    assert!(rt; reads(rt.alloc(), &mut files, "top", 3, Ok("top")));
    Ok(())
}

// A name of a folder that no other test has.
fn root_of(rt: &HostRuntime, name: &str) -> io::Result<String> {
    let temp = env::temp_dir(rt)?;
    let id = process::id(rt.process());
    Ok(format!(in rt.alloc(); "{}/fcg-bytes-{name}-{id}", temp.as_str())?)
}

fn below(alloc: Global, root: &str, path: &str) -> Result<String, AllocError> {
    format!(in alloc; "{root}{path}")
}

// Makes a folder with a file, files at two depths below it, an empty folder, and links to a file and back to the
// folder.
fn fill_folder(rt: &HostRuntime, root: &str) -> io::Result<()> {
    let alloc = rt.alloc();
    fs::create_dir_all(rt, below(alloc, root, "/sub/deep")?)?;
    fs::create_dir(rt, below(alloc, root, "/empty")?)?;
    fs::write(rt, below(alloc, root, "/a.txt")?, "sixbyt")?;
    fs::write(rt, below(alloc, root, "/sub/b")?, "")?;
    fs::write(rt, below(alloc, root, "/sub/deep/ç")?, "deep")?;
    symlink(rt, "../a.txt", below(alloc, root, "/sub/link")?)?;
    symlink(rt, "..", below(alloc, root, "/sub/loop")?)?;
    Ok(())
}

fn make_folder(rt: &HostRuntime, name: &str) -> io::Result<String> {
    let root = root_of(rt, name)?;
    fill_folder(rt, root.as_str())?;
    Ok(root)
}

fn lists_below<F: Files>(
    alloc: Global,
    files: &mut F,
    root: &str,
    folder: &str,
    want: Found,
) -> Result<bool, AllocError> {
    let folder = below(alloc, root, folder)?;
    lists(alloc, files, folder.as_str(), want)
}

fn reads_below<F: Files>(
    alloc: Global,
    files: &mut F,
    root: &str,
    path: &str,
    limit: usize,
    want: Found,
) -> Result<bool, AllocError> {
    let path = below(alloc, root, path)?;
    Ok(reads(alloc, files, path.as_str(), limit, want))
}

const LISTED_BELOW: &[(&str, Found)] = &[
    ("", Ok("a.txt sub/b sub/deep/ç sub/link ")),
    ("/sub", Ok("b deep/ç link ")),
    ("/sub/loop/sub/deep/", Ok("ç ")),
    ("/empty", Ok("")),
    ("/absent", ABSENT),
    ("/a.txt", ABSENT),
    ("/a.txt/below", ABSENT),
    ("/sub/link", ABSENT),
];

// With a link that leads nowhere: it fails, and the next call goes on.
const LISTED_PAST_A_LINK: &[(&str, Found)] = &[("", FAILED), ("/sub/deep", Ok("ç "))];

// The first folder whose paths are others, if there is one.
fn first_unlike<F: Files>(
    alloc: Global,
    files: &mut F,
    root: &str,
    rows: &[(&'static str, Found)],
) -> Result<Option<&'static str>, AllocError> {
    for (folder, want) in rows {
        if !lists_below(alloc, files, root, folder, *want)? {
            return Ok(Some(*folder));
        }
    }
    Ok(None)
}

#[test]
fn lists_a_folder(rt: HostRuntime) -> Result<(), Fail> {
    let alloc = rt.alloc();
    let root = make_folder(&rt, "lists")?;
    let mut files = HostFiles::new(rt);
    let unlike = first_unlike(alloc, &mut files, root.as_str(), LISTED_BELOW)?;
    assert!(rt; unlike.is_none(), "{unlike:?}");
    symlink(&rt, "absent", below(alloc, root.as_str(), "/sub/broken")?)?;
    let unlike = first_unlike(alloc, &mut files, root.as_str(), LISTED_PAST_A_LINK)?;
    assert!(rt; unlike.is_none(), "{unlike:?}");
    fs::remove_dir_all(&rt, root)?;
    Ok(())
}

const READ_BELOW: &[(&str, usize, Found)] = &[
    ("/a.txt", 6, Ok("sixbyt")),
    ("/sub/link", 100, Ok("sixbyt")),
    ("/sub/b", 0, Ok("")),
    ("/a.txt", 5, TOO_LONG),
    ("/sub/deep/ç", 0, TOO_LONG),
    ("/absent", 0, ABSENT),
    ("/a.txt/below", 0, ABSENT),
    ("/sub", 0, ABSENT),
];

#[test]
fn reads_in_a_folder(rt: HostRuntime) -> Result<(), Fail> {
    let alloc = rt.alloc();
    let root = make_folder(&rt, "reads")?;
    let mut files = HostFiles::new(rt);
    for (path, limit, want) in READ_BELOW {
        let read = reads_below(alloc, &mut files, root.as_str(), path, *limit, *want)?;
        assert!(rt; read, "at {path}");
    }
    fs::remove_dir_all(&rt, root)?;
    Ok(())
}

// How the names of a folder end.
#[derive(Clone, Copy, Debug, PartialEq, Eq)]
enum End {
    Whole,
    NoText,
    Broken,
}

// A file system with one folder, which has so many empty files, and may have one whose name isn't UTF-8, or fail while
// it is read.
#[derive(Clone, Copy, Drop)]
struct Crowd {
    files: u32,
    end: End,
}

impl Read for Crowd {
    fn read(&mut self, buf: &mut [u8]) -> io::Result<usize> {
        let Some(name) = buf.get_mut(..2) else {
            return Err(ErrorKind::Other.into());
        };
        if self.files > 0 {
            self.files -= 1;
            name.copy_from_slice(b"f\0");
            return Ok(2);
        }
        match self.end {
            End::Whole => Ok(0),
            End::NoText => {
                self.end = End::Whole;
                name.copy_from_slice(b"\xff\0");
                Ok(2)
            }
            End::Broken => Err(ErrorKind::Other.into()),
        }
    }
}

impl rt::Files for Crowd {
    type File = File;

    type Dir = Crowd;

    fn open_file(&self, _how: &OpenOptions, _path: &str) -> io::Result<File> {
        Err(ErrorKind::PermissionDenied.into())
    }

    fn open_dir(&self, _path: &str) -> io::Result<Crowd> {
        Ok(*self)
    }

    fn metadata(&self, path: &str) -> io::Result<Metadata> {
        if path == "folder" {
            Ok(Metadata::of_dir())
        } else {
            Ok(Metadata::of_file(0))
        }
    }

    fn symlink_metadata(&self, path: &str) -> io::Result<Metadata> {
        self.metadata(path)
    }

    fn copy(&self, _from: &str, _to: &str) -> io::Result<u64> {
        Err(ErrorKind::Unsupported.into())
    }

    fn rename(&self, _from: &str, _to: &str) -> io::Result<()> {
        Err(ErrorKind::Unsupported.into())
    }

    fn remove_file(&self, _path: &str) -> io::Result<()> {
        Err(ErrorKind::Unsupported.into())
    }

    fn create_dir(&self, _path: &str) -> io::Result<()> {
        Err(ErrorKind::Unsupported.into())
    }

    fn remove_dir(&self, _path: &str) -> io::Result<()> {
        Err(ErrorKind::Unsupported.into())
    }

    fn remove_dir_all<B: Allocator>(&self, _alloc: B, _path: &str) -> io::Result<()> {
        Err(ErrorKind::Unsupported.into())
    }
}

// How many files a folder has. The contract shows what a caller knows of files that are told.
fn count_files<F: Files>(alloc: Global, files: &mut F, folder: &str) -> Result<usize, FilesRefusal>
    ensures { IfSome (F.told files.old) (λ told. IfOk result (λ n. n ≡ length (paths_below told folder.now))) }
{
    let paths = files.list(alloc, folder)?;
    Ok(paths.as_slice().len())
}

const CROWDS: &[(u32, End, Result<usize, FilesRefusal>)] = &[
    (0, End::Whole, Ok(0)),
    (100_000, End::Whole, Ok(100_000)),
    (100_001, End::Whole, Err(FilesRefusal::TooLong)),
    (1, End::NoText, Err(FilesRefusal::Failed)),
    (1, End::Broken, Err(FilesRefusal::Failed)),
];

fn crowd_of(files: u32, end: End) -> HostFiles<Crowd> {
    HostFiles::new(Crowd { files, end })
}

#[test]
fn lists_no_more_than_the_limit(rt: HostRuntime) -> Result<(), Fail> {
    for (files, end, want) in CROWDS {
        let listed = count_files(rt.alloc(), &mut crowd_of(*files, *end), "folder");
        assert!(rt; listed == *want, "of {files} and {end:?}");
    }
    let mut closed = crowd_of(0, End::Whole);
    assert!(rt; reads(rt.alloc(), &mut closed, "file", 0, FAILED));
    Ok(())
}
