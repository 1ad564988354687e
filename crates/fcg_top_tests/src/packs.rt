//! Packing folders: which bundle it gives, each refusal, and what is left where the files or the output fail in
//! mid-stream.

use crate::bundles::SMALLEST;
use crate::runs::{Outcome, outcome_of};
use fcg_bytes::{MemoryFiles, MemorySource};
use fcg_top::{Status, run};
use fcg_views::NoMemory;
use std::alloc::{AllocError, Global};
use std::test::Fail;

// The smallest bundle's class file stands after its head and its path.
const CLASS_AT: usize = 23;

// The body that a word stands for: `@` for the smallest class file, and else its own bytes.
fn body_of(word: &str) -> &[u8] {
    if word == "@" {
        &SMALLEST[CLASS_AT..]
    } else {
        word.as_bytes()
    }
}

/// A file more.
pub fn push_file(
    files: &mut Vec<(String, Vec<u8>)>,
    alloc: Global,
    path: &str,
    body: &[u8],
) -> Result<(), AllocError> {
    let path = String::from_str(alloc, path)?;
    files.push((path, body.to_vec(alloc)?))?;
    Ok(())
}

// The files of a text whose words are a path and a body in turn.
fn files_of(alloc: Global, text: &str) -> Result<Vec<(String, Vec<u8>)>, AllocError> {
    let mut files = Vec::new(alloc);
    let mut words = text.split(' ');
    while let Some(path) = words.next() {
        push_file(&mut files, alloc, path, body_of(words.next().unwrap_or("")))?;
    }
    Ok(files)
}

// The words `pack d`.
fn words_of(alloc: Global) -> Result<Vec<String>, AllocError> {
    let mut words = Vec::new(alloc);
    words.push(String::from_str(alloc, "pack")?)?;
    words.push(String::from_str(alloc, "d")?)?;
    Ok(words)
}

// Runs `pack d` over files.
fn run_pack(
    alloc: Global,
    files: &mut MemoryFiles,
    outcome: &mut Outcome,
) -> Result<(), AllocError> {
    let words = words_of(alloc)?;
    let mut input = MemorySource::new(Vec::new(alloc), 10, Vec::new(alloc));
    outcome.status = run(
        alloc,
        &words,
        &mut input,
        &mut outcome.output,
        &mut outcome.errors,
        files,
    );
    Ok(())
}

/// Runs `pack d` over files whose call with a number fails, into an output whose call with a number fails.
pub fn pack_over(
    alloc: Global,
    files: Vec<(String, Vec<u8>)>,
    fail: u64,
    fail_output: u64,
) -> Result<Outcome, NoMemory> {
    let mut files = MemoryFiles::new(files, [fail].to_vec(alloc)?);
    let mut outcome = outcome_of(alloc, 67_108_864, &[fail_output])?;
    run_pack(alloc, &mut files, &mut outcome)?;
    Ok(outcome)
}

// The files, the numbers of the calls of the files and of the output that fail, and then the status, the output and the
// errors.
const PACKS: &[(&str, u64, u64, Status, &[u8], &str)] = &[
    ("d/I.class @ d/a.txt text", 9, 9, Status::Ok, SMALLEST, ""),
    (
        "d/a.txt text d/manifest.MF no",
        9,
        9,
        Status::Ok,
        b"FCGB\0\x01\0\0\0\0",
        "",
    ),
    (
        "d/b.class 1 d/META-INF/MANIFEST.MF  e/a.class 2 d/a/z.class 34 d/a.class 5 d/sub/META-INF/MANIFEST.MF 6 d/Z.CLASS 7 d/b.class 8",
        9,
        9,
        Status::Ok,
        b"FCGB\0\x01\0\0\0\x04\0\x14META-INF/MANIFEST.MF\0\0\0\0\0\x07a.class\0\0\0\x015\0\x09a/z.class\0\0\0\x0234\0\x07b.class\0\0\0\x011",
        "",
    ),
    (
        "dd/a.class 1",
        9,
        9,
        Status::Refused,
        b"",
        "{\"fault\":\"Absent\"}\n",
    ),
    (
        "d/a/../b.class 1 d/A.class 2",
        9,
        9,
        Status::Refused,
        b"",
        "{\"entry\":1,\"fault\":\"BadPath\"}\n",
    ),
    (
        "d/x.class 1 d//y.class 2 d/y.class 3",
        9,
        9,
        Status::Refused,
        b"",
        "{\"entry\":0,\"fault\":\"BadPath\"}\n",
    ),
    (
        "d/a.class 1 d/b.class 2",
        0,
        9,
        Status::ReadFailed,
        b"",
        "read failed\n",
    ),
    (
        "d/a.class 1 d/b.class 2",
        2,
        9,
        Status::ReadFailed,
        b"",
        "read failed\n",
    ),
    (
        "d/a.class 1 d/b.class 2",
        9,
        0,
        Status::WriteFailed,
        b"",
        "write failed\n",
    ),
];

#[test]
fn packs_or_refuses(rt: HostRuntime) -> Result<(), Fail> {
    for (text, fail, fail_output, status, output, errors) in PACKS {
        let files = files_of(rt.alloc(), text)?;
        let outcome = pack_over(rt.alloc(), files, *fail, *fail_output)?;
        assert!(rt; outcome.is(*status, output, errors.as_bytes()), "{text}");
    }
    Ok(())
}

// The longest body of a class file `a.class` that a bundle has room for.
const MOST: usize = 67_108_864 - 10 - 6 - 7;

// A path, the length of its body, and then the status, the length of the output and the errors. A body of a byte more than
// the most is too long, even with a path that a bundle may not have.
const LENGTHS: &[(&str, usize, Status, usize, &str)] = &[
    ("d/a.class", MOST, Status::Ok, 67_108_864, ""),
    ("d/a.class", MOST + 1, Status::Refused, 0, TOO_LONG),
    ("d/../a.class", MOST + 1, Status::Refused, 0, TOO_LONG),
];

const TOO_LONG: &str = "{\"fault\":\"TooLong\"}\n";

// A file of zeros.
fn zeros(alloc: Global, path: &str, len: usize) -> Result<Vec<(String, Vec<u8>)>, AllocError> {
    let mut files = Vec::new(alloc);
    let path = String::from_str(alloc, path)?;
    files.push((path, vec![in alloc; 0u8; len]?))?;
    Ok(files)
}

#[test]
fn packs_up_to_the_limit(rt: HostRuntime) -> Result<(), Fail> {
    for (path, len, status, written, errors) in LENGTHS {
        let files = zeros(rt.alloc(), path, *len)?;
        let outcome = pack_over(rt.alloc(), files, 9, 9)?;
        let told = outcome.errors.bytes() == errors.as_bytes();
        let same = outcome.status == *status && outcome.output.bytes().len() == *written && told;
        assert!(rt; same, "{path} of {len} bytes");
    }
    Ok(())
}
