use crate::samples::{SMALLEST, changed};
use fcg_class::{BundleFault, BundleRule, read_bundle};
use fcg_classfile::{ClassFault, ClassRule};
use fcg_grammar::ReadError;
use fcg_views::Views;
use std::alloc::Global;
use std::test::Fail;

// Adds an entry with the smallest class file at a path.
fn push_entry(bytes: &mut Vec<u8>, path: &[u8]) -> Result<(), Fail> {
    bytes.extend_from_slice(&u16::try_from(path.len())?.to_be_bytes())?;
    bytes.extend_from_slice(path)?;
    bytes.extend_from_slice(&[0, 0, 0, 53])?;
    bytes.extend_from_slice(&SMALLEST)?;
    Ok(())
}

// A bundle with the smallest class file at each of some paths.
fn make_bundle(alloc: Global, paths: &[&[u8]]) -> Result<Vec<u8>, Fail> {
    let mut bytes = b"FCGB\x00\x01\x00\x00\x00".to_vec(alloc)?;
    bytes.push(u8::try_from(paths.len())?)?;
    for path in paths {
        push_entry(&mut bytes, path)?;
    }
    Ok(bytes)
}

fn views_of(alloc: Global, bytes: &[u8]) -> Result<Views, Fail> {
    let views = read_bundle(alloc, bytes).ok().ok_or("it is a bundle")?;
    Ok(views)
}

// How many views a bundle shows, if it is one.
fn count_views(alloc: Global, bytes: &[u8]) -> Option<usize> {
    let views = read_bundle(alloc, bytes).ok()?;
    Some(views.as_slice().len())
}

fn shows_one(alloc: Global, bytes: &[u8]) -> Result<bool, Fail> {
    let views = views_of(alloc, bytes)?;
    match views.as_slice() {
        [view] => Ok(view.name.as_slice() == b"I".as_slice()),
        _ => Ok(false),
    }
}

#[test]
fn bundles(rt: HostRuntime) -> Result<(), Fail> {
    assert!(rt; count_views(rt.alloc(), b"FCGB\x00\x01\x00\x00\x00\x00") == Some(0));
    let one = make_bundle(rt.alloc(), &[b"I.class"])?;
    assert!(rt; one.len() == 76 && shows_one(rt.alloc(), &one)?);
    Ok(())
}

#[test]
fn two_class_files(rt: HostRuntime) -> Result<(), Fail> {
    let two = make_bundle(rt.alloc(), &[b"a/I.class", b"b/I.class"])?;
    assert!(rt; count_views(rt.alloc(), &two) == Some(2));
    // the flag of a module, in the first of them
    let module = changed(rt.alloc(), &two, &[(64, 0x80)])?;
    assert!(rt; count_views(rt.alloc(), &module) == Some(1));
    Ok(())
}

// Paths, and whether a class file there is shown.
const SHOWN: &[(&[u8], bool)] = &[
    (b"a.class", true),
    (b".class", true),
    (b"META-INF/versions.class", true),
    (b"META-INF/versions/9/a.class", false),
    (b"META-INF/versions/.class", false),
    (b"a.CLASS", false),
    (b"a.class.txt", false),
];

// What is passed over need be no class file, but all class files are read.
fn is_shown(alloc: Global, path: &[u8], shown: bool) -> Result<bool, Fail> {
    let mut bytes = make_bundle(alloc, &[path])?;
    let count = count_views(alloc, &bytes);
    if let Some(last) = bytes.last_mut() {
        *last = 1;
    }
    let broken = read_bundle(alloc, &bytes).is_err();
    Ok(count == Some(usize::from(shown)) && broken == path.ends_with(b".class"))
}

#[test]
fn shown_paths(rt: HostRuntime) -> Result<(), Fail> {
    for (path, shown) in SHOWN {
        assert!(rt; is_shown(rt.alloc(), path, *shown)?, "{path:?}");
    }
    Ok(())
}

// Bytes, and the fault that they have as a bundle: its place, its entry and its rule.
const BROKEN: &[(&[u8], u32, u32, BundleRule)] = &[
    (b"", 0, 0, BundleRule::Cut),
    (b"FCG", 0, 0, BundleRule::Cut),
    (b"FCGC", 0, 0, BundleRule::Magic),
    (b"FCGB\x00", 4, 0, BundleRule::Cut),
    (b"FCGB\x01\x00", 4, 0, BundleRule::Version),
    (b"FCGB\x00\x01\x00\x00\x00", 6, 0, BundleRule::Cut),
    (b"FCGB\x00\x01\xff\xff\xff\xff", 10, 0, BundleRule::Cut),
    (
        b"FCGB\x00\x01\x00\x00\x00\x01\x00\x02a",
        12,
        0,
        BundleRule::Cut,
    ),
    (
        b"FCGB\x00\x01\x00\x00\x00\x01\x00\x01a\x00",
        13,
        0,
        BundleRule::Cut,
    ),
    (
        b"FCGB\x00\x01\x00\x00\x00\x01\x00\x01a\x00\x00\x00\x02b",
        17,
        0,
        BundleRule::Cut,
    ),
    (
        b"FCGB\x00\x01\x00\x00\x00\x02\x00\x01a\x00\x00\x00\x01b\x00\x01/",
        20,
        1,
        BundleRule::Path,
    ),
];

/// The fault of bytes that are no bundle.
pub fn fault_of(alloc: Global, bytes: &[u8]) -> Option<BundleFault> {
    match read_bundle(alloc, bytes) {
        Err(ReadError::Fault(fault)) => Some(fault),
        _ => None,
    }
}

/// Whether bytes are refused as a bundle with this fault of the bundle.
pub fn is_refused(alloc: Global, bytes: &[u8], offset: u32, entry: u32, rule: BundleRule) -> bool {
    let want = BundleFault::Bundle {
        offset,
        entry,
        rule,
    };
    fault_of(alloc, bytes) == Some(want)
}

#[test]
fn broken_bundles(rt: HostRuntime) -> Result<(), Fail> {
    assert!(rt; fault_of(rt.alloc(), b"PK\x03\x04") == Some(BundleFault::Jar));
    for (bytes, offset, entry, rule) in BROKEN {
        assert!(rt;
            is_refused(rt.alloc(), bytes, *offset, *entry, *rule),
            "{bytes:?}"
        );
    }
    Ok(())
}

#[test]
fn longer(rt: HostRuntime) -> Result<(), Fail> {
    let mut bytes = make_bundle(rt.alloc(), &[b"I.class"])?;
    bytes.push(0)?;
    assert!(rt; is_refused(rt.alloc(), &bytes, 76, 1, BundleRule::Trailing));
    Ok(())
}

#[test]
fn same_path_twice(rt: HostRuntime) -> Result<(), Fail> {
    let bytes = make_bundle(rt.alloc(), &[b"I.class", b"I.class"])?;
    assert!(rt; is_refused(rt.alloc(), &bytes, 78, 1, BundleRule::Path));
    Ok(())
}

#[test]
fn broken_class_file(rt: HostRuntime) -> Result<(), Fail> {
    let bytes = make_bundle(rt.alloc(), &[b"I.class", b"J.class"])?;
    // a byte of the second name of the second class file
    let bytes = changed(rt.alloc(), &bytes, &[(111, 0)])?;
    let want = BundleFault::Class {
        entry: 1,
        fault: ClassFault {
            offset: 22,
            index: 3,
            rule: ClassRule::BadUtf8,
        },
    };
    assert!(rt; fault_of(rt.alloc(), &bytes) == Some(want));
    Ok(())
}

// Paths with an empty part, a part `.` or `..`, a byte below 20, a byte 5c and a byte 7f.
const BAD_PATHS: &[&[u8]] = &[
    b"/I.class",
    b"a//I.class",
    b"a/",
    b"./I.class",
    b"a/../I.class",
    b"a\x1f.class",
    b"a\\I.class",
    b"\x7f.class",
];

#[test]
fn broken_paths(rt: HostRuntime) -> Result<(), Fail> {
    for path in BAD_PATHS {
        let bytes = make_bundle(rt.alloc(), &[path])?;
        assert!(rt;
            is_refused(rt.alloc(), &bytes, 12, 0, BundleRule::Path),
            "{path:?}"
        );
    }
    Ok(())
}

// Lengths of a path, and whether a path may have them.
const LENGTHS: &[(usize, bool)] = &[(0, false), (1, true), (1024, true), (1025, false)];

fn has_path(alloc: Global, len: usize, kept: bool) -> Result<bool, Fail> {
    let path = vec![in alloc; b'a'; len]?;
    let bytes = make_bundle(alloc, &[path.as_slice()])?;
    if kept {
        Ok(read_bundle(alloc, &bytes).is_ok())
    } else {
        Ok(is_refused(alloc, &bytes, 10, 0, BundleRule::Path))
    }
}

#[test]
fn lengths_of_paths(rt: HostRuntime) -> Result<(), Fail> {
    for (len, kept) in LENGTHS {
        assert!(rt; has_path(rt.alloc(), *len, *kept)?, "{len}");
    }
    Ok(())
}
