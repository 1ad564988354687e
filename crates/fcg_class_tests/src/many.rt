//! Sites up to the limits and beyond them, and the order of their checks.

use crate::bundle::{fault_of, is_refused};
use crate::samples::{CALL, has_fault, view_of};
use fcg_class::{BundleFault, BundleRule};
use fcg_classfile::{ClassFault, ClassRule};
use fcg_views::View;
use std::alloc::Global;
use std::test::Fail;

// The magic and the version, and constants. 1 is `T`, 2 its Class, 3 `m`, 4 `()V`, 5 both, 6 the Methodref of these; 7 is an
// empty text, 8 the NameAndType of it and `()V`, 9 the Methodref of that. 10 and 11 are MethodHandles of the kind
// REF_invokeStatic of 6 and 9; 12 to 14 InvokeDynamics of the rows 0 to 2; 15 and 16 the names of attributes.
const HEAD: [u8; 99] = [
    0xca, 0xfe, 0xba, 0xbe, 0x00, 0x00, 0x00, 0x41, 0x00, 0x42, 0x01, 0x00, 0x01, 0x54, 0x07, 0x00,
    0x01, 0x01, 0x00, 0x01, 0x6d, 0x01, 0x00, 0x03, 0x28, 0x29, 0x56, 0x0c, 0x00, 0x03, 0x00, 0x04,
    0x0a, 0x00, 0x02, 0x00, 0x05, 0x01, 0x00, 0x00, 0x0c, 0x00, 0x07, 0x00, 0x04, 0x0a, 0x00, 0x02,
    0x00, 0x08, 0x0f, 0x06, 0x00, 0x06, 0x0f, 0x06, 0x00, 0x09, 0x12, 0x00, 0x00, 0x00, 0x05, 0x12,
    0x00, 0x01, 0x00, 0x05, 0x12, 0x00, 0x02, 0x00, 0x05, 0x01, 0x00, 0x04, 0x43, 0x6f, 0x64, 0x65,
    0x01, 0x00, 0x10, 0x42, 0x6f, 0x6f, 0x74, 0x73, 0x74, 0x72, 0x61, 0x70, 0x4d, 0x65, 0x74, 0x68,
    0x6f, 0x64, 0x73,
];

// 46 names follow, from 17 on, at 64 a Methodref of `m` with the descriptor `m`, and at 65 a MethodHandle of that; then the
// flags of a class, its name `T`, no superclass, interfaces and fields, and the count of its methods.
fn head(alloc: Global, methods: u8) -> Result<Vec<u8>, Fail> {
    let mut bytes = HEAD.to_vec(alloc)?;
    for name in 0x30..0x5eu8 {
        bytes.extend_from_slice(&[1, 0, 1, name])?;
    }
    bytes.extend_from_slice(&[12, 0, 3, 0, 3, 10, 0, 2, 0, 63, 15, 6, 0, 64])?;
    bytes.extend_from_slice(&[0, 0x21, 0, 2, 0, 0, 0, 0, 0, 0, 0, methods])?;
    Ok(bytes)
}

// Adds a method with the descriptor `()V`, the name at an index, and this code.
fn push_method(bytes: &mut Vec<u8>, name: u8, code: &[u8]) -> Result<(), Fail> {
    let len = u32::try_from(code.len())?;
    let content = len.checked_add(12).ok_or("it is short")?;
    bytes.extend_from_slice(&[0, 9, 0, name, 0, 4, 0, 1, 0, 15])?;
    bytes.extend_from_slice(&content.to_be_bytes())?;
    bytes.extend_from_slice(&[0, 0, 0, 0])?;
    bytes.extend_from_slice(&len.to_be_bytes())?;
    bytes.extend_from_slice(code)?;
    bytes.extend_from_slice(&[0, 0, 0, 0])?;
    Ok(())
}

// So many calls, and what follows them.
fn calls_of(alloc: Global, count: u32, last: &[u8]) -> Result<Vec<u8>, Fail> {
    let mut code = Vec::new(alloc);
    for _ in 0..count {
        code.extend_from_slice(&[184, 0, 6])?;
    }
    code.extend_from_slice(last)?;
    Ok(code)
}

// A class with 1,000,000 calls: 21,845 in each of 45 methods, which have as many bytes as a code can have, and 16,975 in
// one more, where something follows them.
fn many_calls(alloc: Global, last: &[u8]) -> Result<Vec<u8>, Fail> {
    let mut bytes = head(alloc, 46)?;
    let full = calls_of(alloc, 21_845, &[])?;
    for name in 17..62u8 {
        push_method(&mut bytes, name, &full)?;
    }
    let rest = calls_of(alloc, 16_975, last)?;
    push_method(&mut bytes, 62, &rest)?;
    bytes.extend_from_slice(&[0, 0])?;
    Ok(bytes)
}

// What follows the calls, and the rule that its first instruction breaks.
const LASTS: &[(&[u8], ClassRule)] = &[
    // a call of an empty name; a call, and an opcode that nothing has
    (&[184, 0, 9], ClassRule::EmptyName),
    (&[184, 0, 6, 202], ClassRule::ManySites),
];

// Two counts of two bytes follow the code, and one follows the method.
fn breaks_at_last(alloc: Global, last: &[u8], rule: ClassRule) -> Result<bool, Fail> {
    let bytes = many_calls(alloc, last)?;
    let after = last.len().saturating_add(6);
    let at = u32::try_from(bytes.len().saturating_sub(after))?;
    Ok(has_fault(alloc, &bytes, at, 0, rule))
}

#[test]
fn order_of_faults_of_many_calls(rt: HostRuntime) -> Result<(), Fail> {
    for (last, rule) in LASTS {
        assert!(rt; breaks_at_last(rt.alloc(), last, *rule)?, "{rule:?}");
    }
    Ok(())
}

// Adds a bootstrap method: the handle 10, and so many arguments of it.
fn push_row(bytes: &mut Vec<u8>, arguments: u16) -> Result<(), Fail> {
    bytes.extend_from_slice(&[0, 10])?;
    bytes.extend_from_slice(&arguments.to_be_bytes())?;
    for _ in 0..arguments {
        bytes.extend_from_slice(&[0, 10])?;
    }
    Ok(())
}

// Fifteen calls of the first row, and one of the second: their handle sites are 1,000,000.
fn dynamic_calls(alloc: Global, last: &[u8]) -> Result<Vec<u8>, Fail> {
    let mut code = Vec::new(alloc);
    for _ in 0..15 {
        code.extend_from_slice(&[186, 0, 12, 0, 0])?;
    }
    code.extend_from_slice(&[186, 0, 13, 0, 0])?;
    code.extend_from_slice(last)?;
    Ok(code)
}

// A class whose code has these calls, and something more. The code begins at 331. Of its bootstrap methods the first has
// 65,536 handles, the second 16,960, and the third this one.
fn many_handles(alloc: Global, last: &[u8], third: u8) -> Result<Vec<u8>, Fail> {
    let mut bytes = head(alloc, 1)?;
    let code = dynamic_calls(alloc, last)?;
    push_method(&mut bytes, 17, &code)?;
    bytes.extend_from_slice(&[0, 1, 0, 16])?;
    bytes.extend_from_slice(&165_002u32.to_be_bytes())?;
    bytes.extend_from_slice(&[0, 3])?;
    push_row(&mut bytes, 65_535)?;
    push_row(&mut bytes, 16_959)?;
    bytes.extend_from_slice(&[0, third, 0, 0])?;
    Ok(bytes)
}

// What follows these calls, and the third row's handle; and the fault: its place and its rule. In each a byte stands
// after the class file.
const HANDLES: &[(&[u8], u8, u32, ClassRule)] = &[
    // a call of the third row, whose handle names an empty name, a bad descriptor, or nothing broken
    (&[186, 0, 14, 0, 0, 177], 11, 411, ClassRule::EmptyName),
    (&[186, 0, 14, 0, 0, 177], 65, 411, ClassRule::Descriptor),
    (&[186, 0, 14, 0, 0, 177], 10, 411, ClassRule::ManySites),
    // the count begins with the sites of all instructions: with one of these the last of the sixteenth call is too many
    (
        &[186, 0, 14, 0, 0, 184, 0, 6, 177],
        11,
        406,
        ClassRule::ManySites,
    ),
];

fn breaks_at(alloc: Global, row: &(&[u8], u8, u32, ClassRule)) -> Result<bool, Fail> {
    let (last, third, offset, rule) = row;
    let mut bytes = many_handles(alloc, last, *third)?;
    bytes.push(0)?;
    Ok(has_fault(alloc, &bytes, *offset, 0, *rule))
}

#[test]
fn order_of_faults_of_many_handles(rt: HostRuntime) -> Result<(), Fail> {
    for row in HANDLES {
        assert!(rt; breaks_at(rt.alloc(), row)?, "{row:?}");
    }
    Ok(())
}

fn count_sites(view: &View) -> usize {
    match view.methods.as_slice() {
        [method] => method.sites.as_slice().len(),
        _ => 0,
    }
}

#[test]
fn as_many_sites_as_may_be(rt: HostRuntime) -> Result<(), Fail> {
    let bytes = many_handles(rt.alloc(), &[177], 10)?;
    let view = view_of(rt.alloc(), &bytes)?;
    assert!(rt; count_sites(&view) == 1_000_000);
    Ok(())
}

// Adds an entry of a bundle.
fn push_entry(bytes: &mut Vec<u8>, path: &[u8], body: &[u8]) -> Result<(), Fail> {
    bytes.extend_from_slice(&u16::try_from(path.len())?.to_be_bytes())?;
    bytes.extend_from_slice(path)?;
    bytes.extend_from_slice(&u32::try_from(body.len())?.to_be_bytes())?;
    bytes.extend_from_slice(body)?;
    Ok(())
}

const PATHS: &[&[u8]] = &[
    b"META-INF/versions/1/a.class",
    b"META-INF/versions/2/a.class",
    b"META-INF/versions/3/a.class",
    b"META-INF/versions/4/a.class",
];

// A bundle of six entries. Four class files of 1,000,000 sites each, then one whose first byte stands at the answered
// place, and a path of no byte.
fn many_classes(alloc: Global, fifth: &[u8]) -> Result<(Vec<u8>, usize), Fail> {
    let full = many_handles(alloc, &[177], 10)?;
    let mut bytes = b"FCGB\0\x01\0\0\0\x06".to_vec(alloc)?;
    for path in PATHS {
        push_entry(&mut bytes, path, &full)?;
    }
    push_entry(&mut bytes, b"a.class", fifth)?;
    let at = bytes.len().saturating_sub(fifth.len());
    bytes.extend_from_slice(&[0, 0])?;
    Ok((bytes, at))
}

// A path of no byte stands behind the class file that is too much.
#[test]
fn order_of_faults_of_many_classes(rt: HostRuntime) -> Result<(), Fail> {
    let (bytes, at) = many_classes(rt.alloc(), &CALL)?;
    assert!(rt;
        is_refused(
            rt.alloc(),
            &bytes,
            u32::try_from(at)?,
            4,
            BundleRule::ManySites
        )
    );
    Ok(())
}

// The class file that is too much has a byte after its end.
#[test]
fn order_of_faults_of_many_classes_and_a_broken_one(rt: HostRuntime) -> Result<(), Fail> {
    let fifth = [CALL.as_slice(), &[0]].concat(rt.alloc())?;
    let (bytes, _) = many_classes(rt.alloc(), &fifth)?;
    let want = BundleFault::Class {
        entry: 4,
        fault: ClassFault {
            offset: 144,
            index: 0,
            rule: ClassRule::Trailing,
        },
    };
    assert!(rt; fault_of(rt.alloc(), &bytes) == Some(want));
    Ok(())
}
