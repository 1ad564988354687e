//! Bytes with two faults each: the one that is told is the first in the order of the checks. The rows follow the pages on
//! class files and on bundles, sentence by sentence; those of more sites than may be stand in `many`.

use crate::bundle::{fault_of, is_refused};
use crate::samples::{changed, has_fault, view_of};
use fcg_class::{BundleFault, BundleRule};
use fcg_classfile::{ClassFault, ClassRule};
use fcg_reader::read_class;
use fcg_views::{Field, HandleKind, Method, Site, SiteKind, View};
use std::alloc::Global;
use std::test::Fail;

// A class `T` with the superclass and the interface `T`, and a field `m` of type `I`. Its first method, `m()V` at 197, has
// two attributes: at 205 a Code, whose instructions at 219 are `invokestatic` 12, `invokedynamic` 22, `invokedynamic` 23 and
// `return`, with a row in the exception table and an attribute; and at 253 another. The second, `I()V` at 261, has a Code
// of sixteen `nop`, `invokedynamic` 22 and `return`, at 283. The class has three attributes: at 319 its bootstrap methods,
// of which the first, at 327, is 19 with the arguments 19, 2 and 19, and the second, at 337, 19 with none; and one before
// and one after it.
//
// In its pool 1 is `T`, 2 its Class, 3 an empty text, 4 the Class of it, 5 `m`, 6 `()V`, 7 `I`; 8 to 11 are the
// NameAndTypes of `m` and `()V`, of an empty name and `()V`, of `m` and `m`, and of an empty name and `m`. 12 is a
// Methodref of 2 and 8, 13 an InterfaceMethodref of 2 and 9, 14 a Methodref of 2 and 11, 15 a Methodref of 4 and 10, 16 an
// InterfaceMethodref of 2 and 10, 17 one of 4 and 8, 18 a Fieldref of 2 and 9. 19 to 21 are MethodHandles of the kind
// REF_invokeStatic of 12, 14 and 15; 22 to 24 InvokeDynamics of the rows 0, 1 and 9, of which the last isn't there. 25 to 27
// are the names of attributes, and 28 is a Long.
const BASE: [u8; 349] = [
    0xca, 0xfe, 0xba, 0xbe, 0x00, 0x00, 0x00, 0x41, 0x00, 0x1e, 0x01, 0x00, 0x01, 0x54, 0x07, 0x00,
    0x01, 0x01, 0x00, 0x00, 0x07, 0x00, 0x03, 0x01, 0x00, 0x01, 0x6d, 0x01, 0x00, 0x03, 0x28, 0x29,
    0x56, 0x01, 0x00, 0x01, 0x49, 0x0c, 0x00, 0x05, 0x00, 0x06, 0x0c, 0x00, 0x03, 0x00, 0x06, 0x0c,
    0x00, 0x05, 0x00, 0x05, 0x0c, 0x00, 0x03, 0x00, 0x05, 0x0a, 0x00, 0x02, 0x00, 0x08, 0x0b, 0x00,
    0x02, 0x00, 0x09, 0x0a, 0x00, 0x02, 0x00, 0x0b, 0x0a, 0x00, 0x04, 0x00, 0x0a, 0x0b, 0x00, 0x02,
    0x00, 0x0a, 0x0b, 0x00, 0x04, 0x00, 0x08, 0x09, 0x00, 0x02, 0x00, 0x09, 0x0f, 0x06, 0x00, 0x0c,
    0x0f, 0x06, 0x00, 0x0e, 0x0f, 0x06, 0x00, 0x0f, 0x12, 0x00, 0x00, 0x00, 0x08, 0x12, 0x00, 0x01,
    0x00, 0x08, 0x12, 0x00, 0x09, 0x00, 0x08, 0x01, 0x00, 0x04, 0x43, 0x6f, 0x64, 0x65, 0x01, 0x00,
    0x10, 0x42, 0x6f, 0x6f, 0x74, 0x73, 0x74, 0x72, 0x61, 0x70, 0x4d, 0x65, 0x74, 0x68, 0x6f, 0x64,
    0x73, 0x01, 0x00, 0x0a, 0x53, 0x6f, 0x75, 0x72, 0x63, 0x65, 0x46, 0x69, 0x6c, 0x65, 0x05, 0x00,
    0x00, 0x00, 0x00, 0x00, 0x00, 0x00, 0x00, 0x00, 0x21, 0x00, 0x02, 0x00, 0x02, 0x00, 0x01, 0x00,
    0x02, 0x00, 0x01, 0x00, 0x00, 0x00, 0x05, 0x00, 0x07, 0x00, 0x01, 0x00, 0x1b, 0x00, 0x00, 0x00,
    0x02, 0x00, 0x05, 0x00, 0x02, 0x00, 0x09, 0x00, 0x05, 0x00, 0x06, 0x00, 0x02, 0x00, 0x19, 0x00,
    0x00, 0x00, 0x2a, 0x00, 0x00, 0x00, 0x00, 0x00, 0x00, 0x00, 0x0e, 0xb8, 0x00, 0x0c, 0xba, 0x00,
    0x16, 0x00, 0x00, 0xba, 0x00, 0x17, 0x00, 0x00, 0xb1, 0x00, 0x01, 0x00, 0x00, 0x00, 0x00, 0x00,
    0x00, 0x00, 0x00, 0x00, 0x01, 0x00, 0x1b, 0x00, 0x00, 0x00, 0x02, 0x00, 0x05, 0x00, 0x1b, 0x00,
    0x00, 0x00, 0x02, 0x00, 0x05, 0x00, 0x09, 0x00, 0x07, 0x00, 0x06, 0x00, 0x01, 0x00, 0x19, 0x00,
    0x00, 0x00, 0x22, 0x00, 0x00, 0x00, 0x00, 0x00, 0x00, 0x00, 0x16, 0x00, 0x00, 0x00, 0x00, 0x00,
    0x00, 0x00, 0x00, 0x00, 0x00, 0x00, 0x00, 0x00, 0x00, 0x00, 0x00, 0xba, 0x00, 0x16, 0x00, 0x00,
    0xb1, 0x00, 0x00, 0x00, 0x00, 0x00, 0x03, 0x00, 0x1b, 0x00, 0x00, 0x00, 0x02, 0x00, 0x05, 0x00,
    0x1a, 0x00, 0x00, 0x00, 0x10, 0x00, 0x02, 0x00, 0x13, 0x00, 0x03, 0x00, 0x13, 0x00, 0x02, 0x00,
    0x13, 0x00, 0x13, 0x00, 0x00, 0x00, 0x1b, 0x00, 0x00, 0x00, 0x02, 0x00, 0x05,
];

// Some of its bytes by their places, what they are changed to, and the fault: its place, the index of the pool, its rule.
type Row = (&'static [(usize, u8)], u32, u16, ClassRule);

const ROWS: &[Row] = &[
    // The file is read from front to back.
    (&[(0, 0), (7, 66)], 0, 0, ClassRule::Magic),
    (&[(7, 66), (10, 2)], 6, 0, ClassRule::Version),
    (&[(10, 2), (26, 128)], 10, 1, ClassRule::BadTag),
    (&[(26, 128), (37, 2)], 26, 5, ClassRule::BadUtf8),
    // - the text of a Utf8 is one string of bytes
    (&[(11, 255), (13, 128)], 13, 0, ClassRule::Cut),
    // After the last entry of the pool the constants are checked, in their order: of a Long its second index, of a method
    // handle its kind, and then what their indexes name, in the order of the fields.
    (&[(16, 0), (158, 2)], 158, 28, ClassRule::BadTag),
    (&[(16, 2), (22, 0)], 14, 2, ClassRule::WrongKind),
    // - the Long is the last entry, and has no second index
    (&[(22, 0), (9, 29)], 20, 4, ClassRule::BadIndex),
    (&[(9, 29), (170, 1)], 158, 28, ClassRule::BadIndex),
    (&[(93, 0), (95, 0)], 92, 19, ClassRule::WrongKind),
    (&[(59, 1), (61, 0)], 57, 12, ClassRule::WrongKind),
    (&[(59, 0), (61, 1)], 57, 12, ClassRule::BadIndex),
    (&[(39, 2), (41, 0)], 37, 8, ClassRule::WrongKind),
    (&[(39, 0), (41, 2)], 37, 8, ClassRule::BadIndex),
    (&[(22, 0), (170, 1)], 20, 4, ClassRule::BadIndex),
    // Each later index and name is checked as soon as it is read.
    (&[(170, 4), (172, 1)], 169, 0, ClassRule::EmptyName),
    (&[(172, 1), (176, 0)], 171, 1, ClassRule::WrongKind),
    (&[(172, 4), (176, 0)], 171, 0, ClassRule::EmptyName),
    (&[(176, 4), (182, 0)], 175, 0, ClassRule::EmptyName),
    (&[(176, 1), (182, 0)], 175, 1, ClassRule::WrongKind),
    (&[(312, 2), (313, 1)], 311, 2, ClassRule::WrongKind),
    // Of a field or a method its name comes first, then its descriptor, ..
    (&[(182, 2), (184, 0)], 181, 2, ClassRule::WrongKind),
    (&[(182, 3), (184, 0)], 181, 0, ClassRule::EmptyName),
    (&[(182, 3), (184, 6)], 181, 0, ClassRule::EmptyName),
    (&[(184, 6), (188, 0)], 183, 0, ClassRule::Descriptor),
    (&[(188, 2), (189, 1)], 187, 2, ClassRule::WrongKind),
    (&[(200, 3), (202, 0)], 199, 0, ClassRule::EmptyName),
    (&[(200, 3), (202, 7)], 199, 0, ClassRule::EmptyName),
    (&[(202, 7), (206, 0)], 201, 0, ClassRule::Descriptor),
    // .. then, of a method, whether an earlier one is alike, then its attributes.
    (&[(264, 5), (270, 0)], 261, 0, ClassRule::DoubleMethod),
    (&[(264, 5), (283, 202)], 261, 0, ClassRule::DoubleMethod),
    (&[(219, 202), (264, 5)], 219, 0, ClassRule::BadOpcode),
    // A `Code` is read when it is met, ..
    // - its content is one string of bytes
    (&[(207, 1), (218, 0)], 211, 0, ClassRule::Cut),
    (&[(219, 202), (254, 0)], 219, 0, ClassRule::BadOpcode),
    // - a second one is refused at its name
    (&[(254, 25), (255, 1)], 253, 0, ClassRule::DoubleCode),
    // .. its sizes and the code's length, ..
    (&[(218, 0), (246, 0)], 215, 0, ClassRule::CodeLength),
    // - it passes the content too
    (&[(216, 1), (219, 202)], 215, 0, ClassRule::CodeLength),
    // - the code is one string of bytes
    (&[(217, 4), (219, 202)], 219, 0, ClassRule::Cut),
    // .. then the instructions in their order, then the exception table, the attributes, and the end of the content.
    (&[(221, 8), (222, 202)], 219, 8, ClassRule::WrongKind),
    (&[(232, 184), (234, 9)], 232, 0, ClassRule::CodeCut),
    // - two rows are there, and the third is cut
    (&[(234, 9), (254, 0)], 251, 0, ClassRule::Cut),
    (&[(246, 2), (210, 43)], 245, 2, ClassRule::WrongKind),
    (&[(210, 43), (264, 0)], 253, 0, ClassRule::Trailing),
    // Of an instruction its bytes come first; ..
    (
        &[(219, 185), (221, 0), (218, 4)],
        219,
        0,
        ClassRule::CodeCut,
    ),
    // - up to high, which is below low; and with no offset behind it
    (
        &[(283, 170), (294, 1), (282, 15)],
        283,
        0,
        ClassRule::CodeCut,
    ),
    (
        &[(283, 170), (294, 1), (282, 16)],
        283,
        0,
        ClassRule::BadSwitch,
    ),
    // - up to the number of pairs, which is negative; and with no pair behind it
    (
        &[(283, 171), (291, 128), (282, 11)],
        283,
        0,
        ClassRule::CodeCut,
    ),
    (
        &[(283, 171), (291, 128), (282, 12)],
        283,
        0,
        ClassRule::BadSwitch,
    ),
    // - up to the opcode after a wide, which can't be made wide
    (&[(283, 196), (282, 1)], 283, 0, ClassRule::CodeCut),
    (&[(283, 196), (282, 2)], 283, 0, ClassRule::BadWide),
    // .. then, for a site, the index, the kind of the constant, the name of the type, the name of the member, and its
    // descriptor; ..
    // - no Methodref, with an empty name, a bad descriptor, an empty type
    (&[(219, 182), (221, 13)], 219, 13, ClassRule::WrongKind),
    (&[(219, 182), (221, 16)], 219, 16, ClassRule::WrongKind),
    (&[(219, 182), (221, 17)], 219, 17, ClassRule::WrongKind),
    (&[(221, 18)], 219, 18, ClassRule::WrongKind),
    // - a bad descriptor, with an empty name, an empty type
    (&[(221, 14)], 219, 0, ClassRule::EmptyName),
    (&[(221, 15)], 219, 0, ClassRule::EmptyName),
    (&[(219, 178), (221, 18)], 219, 0, ClassRule::EmptyName),
    // .. for an `invokedynamic` the index and the kind of the constant.
    (&[(224, 12), (229, 0)], 222, 12, ClassRule::WrongKind),
    // - its row is looked for later
    (&[(224, 24), (229, 0)], 227, 0, ClassRule::BadIndex),
    // `BootstrapMethods` is read when it is met, without a look at what its indexes name.
    (&[(328, 0), (342, 0)], 341, 0, ClassRule::BadIndex),
    // - its content is one string of bytes
    (&[(321, 1), (326, 3)], 325, 0, ClassRule::Cut),
    (&[(326, 3), (342, 0)], 341, 0, ClassRule::Cut),
    (&[(326, 1), (342, 0)], 337, 0, ClassRule::Trailing),
    // - the first of two has five rows, of which none is there
    (&[(312, 26), (342, 0)], 319, 0, ClassRule::Cut),
    // - a second one is refused at its name
    (&[(342, 26), (343, 1)], 341, 0, ClassRule::Bootstrap),
    // After the last attribute of the class come the handle sites, by method and by place: ..
    (&[(338, 0), (301, 24)], 227, 0, ClassRule::BadIndex),
    (&[(224, 24), (338, 0)], 222, 0, ClassRule::Bootstrap),
    (&[(336, 0), (229, 24)], 222, 0, ClassRule::BadIndex),
    // .. of each `invokedynamic` whether its row is there, then the row's own index and the static arguments in their order,
    // each with the index, the kind of the constant, and of a handle what it names as of any site.
    (&[(328, 2), (332, 0)], 222, 2, ClassRule::WrongKind),
    (&[(328, 20), (332, 0)], 222, 0, ClassRule::EmptyName),
    (&[(328, 21), (332, 0)], 222, 0, ClassRule::EmptyName),
    (&[(332, 20), (336, 0)], 222, 0, ClassRule::EmptyName),
    (&[(332, 0), (336, 20)], 222, 0, ClassRule::BadIndex),
    (&[(334, 30), (336, 0)], 222, 30, ClassRule::BadIndex),
    // Bytes after the end come last.
    (&[(310, 2), (224, 24)], 222, 0, ClassRule::Bootstrap),
    (&[(310, 2), (336, 20)], 222, 0, ClassRule::EmptyName),
];

fn is_first(alloc: Global, row: &Row) -> Result<bool, Fail> {
    let (changes, offset, index, rule) = row;
    let bytes = changed(alloc, &BASE, changes)?;
    Ok(has_fault(alloc, &bytes, *offset, *index, *rule))
}

// Bytes, and the fault that they have as a bundle: its place, its entry and its rule.
const BUNDLES: &[(&[u8], u32, u32, BundleRule)] = &[
    // three bytes, which aren't those of the magic
    (b"FCX", 0, 0, BundleRule::Cut),
    // another magic, and a version that is cut
    (b"FCGX\x00", 0, 0, BundleRule::Magic),
    // a version that is cut, and isn't 1
    (b"FCGB\x02", 4, 0, BundleRule::Cut),
    // another version, and a count that is cut
    (b"FCGB\x00\x02\x00", 4, 0, BundleRule::Version),
    // a count that is cut
    (b"FCGB\x00\x01\x00\x00\x00", 6, 0, BundleRule::Cut),
    // the length of a path that is cut
    (b"FCGB\x00\x01\x00\x00\x00\x01\x00", 10, 0, BundleRule::Cut),
    // a path of no byte, and the length of a body that is cut; one of 1,025 bytes, which are cut
    (
        b"FCGB\x00\x01\x00\x00\x00\x01\x00\x00\x00",
        10,
        0,
        BundleRule::Path,
    ),
    (
        b"FCGB\x00\x01\x00\x00\x00\x01\x04\x01a",
        10,
        0,
        BundleRule::Path,
    ),
    // a path that is cut, and has an empty part and a bad byte
    (
        b"FCGB\x00\x01\x00\x00\x00\x01\x00\x03/\x1f",
        12,
        0,
        BundleRule::Cut,
    ),
    // such a path, and the length of a body that is cut
    (
        b"FCGB\x00\x01\x00\x00\x00\x01\x00\x02/\x1f\x00",
        12,
        0,
        BundleRule::Path,
    ),
    // the path of an earlier entry, and the length of a body that is cut
    (
        b"FCGB\x00\x01\x00\x00\x00\x02\x00\x01a\x00\x00\x00\x00\x00\x01a\x00",
        19,
        1,
        BundleRule::Path,
    ),
    // the length of a body that is cut, with a second entry of which nothing is there
    (
        b"FCGB\x00\x01\x00\x00\x00\x02\x00\x07a.class\x00\x00",
        19,
        0,
        BundleRule::Cut,
    ),
    // a body that is cut, and is no class file
    (
        b"FCGB\x00\x01\x00\x00\x00\x01\x00\x07a.class\x00\x00\x00\x05\xca",
        23,
        0,
        BundleRule::Cut,
    ),
];

// A body of one byte, which is no class file: before an entry whose path has no byte, and before a byte after the end.
const BROKEN_BODIES: &[&[u8]] = &[
    b"FCGB\x00\x01\x00\x00\x00\x02\x00\x07a.class\x00\x00\x00\x01\xca\x00\x00\x00",
    b"FCGB\x00\x01\x00\x00\x00\x01\x00\x07a.class\x00\x00\x00\x01\xca\xff",
];

const BROKEN_BODY: BundleFault = BundleFault::Class {
    entry: 0,
    fault: ClassFault {
        offset: 0,
        index: 0,
        rule: ClassRule::Cut,
    },
};

// The first row of which another fault is told, if there is one.
fn first_unlike_class(alloc: Global) -> Result<Option<&'static Row>, Fail> {
    for row in ROWS {
        if !is_first(alloc, row)? {
            return Ok(Some(row));
        }
    }
    Ok(None)
}

fn first_unlike_bundle(alloc: Global) -> Option<&'static [u8]> {
    for (bytes, offset, entry, rule) in BUNDLES {
        if !is_refused(alloc, bytes, *offset, *entry, *rule) {
            return Some(*bytes);
        }
    }
    for bytes in BROKEN_BODIES {
        if fault_of(alloc, bytes) != Some(BROKEN_BODY) {
            return Some(*bytes);
        }
    }
    None
}

#[test]
fn order_of_faults(rt: HostRuntime) -> Result<(), Fail> {
    let class = first_unlike_class(rt.alloc())?;
    assert!(rt; class.is_none(), "{class:?}");
    // a jar is no bundle, and it has no version
    assert!(rt; fault_of(rt.alloc(), b"PK\x03\x04") == Some(BundleFault::Jar));
    let bundle = first_unlike_bundle(rt.alloc());
    assert!(rt; bundle.is_none(), "{bundle:?}");
    Ok(())
}

// The sites of the first method: its place, and its kind.
const SITES: &[(u16, SiteKind)] = &[
    (0, SiteKind::Static),
    (3, SiteKind::Handle(HandleKind::K6)),
    (3, SiteKind::Handle(HandleKind::K6)),
    (3, SiteKind::Handle(HandleKind::K6)),
    (8, SiteKind::Handle(HandleKind::K6)),
];

fn names_method(site: &Site) -> bool {
    site.target.owner.as_slice() == b"T".as_slice()
        && site.target.name.as_slice() == b"m".as_slice()
        && site.target.desc.as_slice() == b"()V".as_slice()
        && !site.target.owner_is_interface_ref
}

fn are_sites(sites: &[Site], want: &[(u16, SiteKind)]) -> bool {
    let mut alike = sites.len() == want.len();
    for (site, (pc, kind)) in sites.iter().zip(want) {
        alike = alike && site.pc == *pc && site.kind == *kind && names_method(site);
    }
    alike
}

fn is_field(field: &Field) -> bool {
    field.name.as_slice() == b"m".as_slice()
        && field.desc.as_slice() == b"I".as_slice()
        && field.flags == 0
}

fn is_method(method: &Method, name: &[u8], sites: usize) -> bool {
    method.name.as_slice() == name
        && method.desc.as_slice() == b"()V".as_slice()
        && method.flags == 9
        && method.sites.as_slice().len() == sites
}

fn has_members(view: &View) -> bool {
    match (view.fields.as_slice(), view.methods.as_slice()) {
        ([field], [first, second]) => {
            is_field(field)
                && is_method(first, b"m", 5)
                && is_method(second, b"I", 3)
                && are_sites(first.sites.as_slice(), SITES)
        }
        _ => false,
    }
}

// What the rows change has no fault: its view; as a module none; and a fault.
#[test]
fn reads_a_class(rt: HostRuntime) -> Result<(), Fail> {
    let view = view_of(rt.alloc(), &BASE)?;
    assert!(rt; view.name.as_slice() == b"T".as_slice() && has_members(&view));
    let module = changed(rt.alloc(), &BASE, &[(167, 0x80)])?;
    assert!(rt; read_class(rt.alloc(), &module).is_ok_and(|read| read.is_none()));
    assert!(rt; has_fault(rt.alloc(), &BASE[..348], 347, 0, ClassRule::Cut));
    Ok(())
}
