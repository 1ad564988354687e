use crate::samples::{changed, has_fault, view_of};
use fcg_classfile::ClassRule;
use fcg_reader::read_class;
use fcg_views::{HandleKind, Method, Site, SiteKind};
use std::alloc::Global;
use std::test::Fail;

// The magic, the version, and the count of the constants.
const HEAD: [u8; 10] = [0xca, 0xfe, 0xba, 0xbe, 0x00, 0x00, 0x00, 0x41, 0x00, 0x16];

// `a` at 1, its Class at 2, `()V` at 3, both at 4, and their Methodref and InterfaceMethodref at 5 and 6; `I` at 7, a
// Fieldref of it at 9. MethodHandles at 10 to 12: REF_invokeStatic of 5, REF_invokeInterface of 6, REF_getField of 9. An
// Integer at 13.
const POOL: [u8; 59] = [
    0x01, 0x00, 0x01, 0x61, 0x07, 0x00, 0x01, 0x01, 0x00, 0x03, 0x28, 0x29, 0x56, 0x0c, 0x00, 0x01,
    0x00, 0x03, 0x0a, 0x00, 0x02, 0x00, 0x04, 0x0b, 0x00, 0x02, 0x00, 0x04, 0x01, 0x00, 0x01, 0x49,
    0x0c, 0x00, 0x01, 0x00, 0x07, 0x09, 0x00, 0x02, 0x00, 0x08, 0x0f, 0x06, 0x00, 0x05, 0x0f, 0x09,
    0x00, 0x06, 0x0f, 0x01, 0x00, 0x09, 0x03, 0x00, 0x00, 0x00, 0x07,
];

// `Code` at 14, `BootstrapMethods` at 15, InvokeDynamics of the rows 0, 1 and 2 at 16 to 18; `b` at 19, its Class at 20, and
// `m` at 21. No constant is at 22.
const MORE: [u8; 52] = [
    0x01, 0x00, 0x04, 0x43, 0x6f, 0x64, 0x65, 0x01, 0x00, 0x10, 0x42, 0x6f, 0x6f, 0x74, 0x73, 0x74,
    0x72, 0x61, 0x70, 0x4d, 0x65, 0x74, 0x68, 0x6f, 0x64, 0x73, 0x12, 0x00, 0x00, 0x00, 0x04, 0x12,
    0x00, 0x01, 0x00, 0x04, 0x12, 0x00, 0x02, 0x00, 0x04, 0x01, 0x00, 0x01, 0x62, 0x07, 0x00, 0x13,
    0x01, 0x00, 0x01, 0x6d,
];

// The flags of a class, its name `a`, no superclass, interfaces and fields.
const CLASS: [u8; 10] = [0x00, 0x21, 0x00, 0x02, 0x00, 0x00, 0x00, 0x00, 0x00, 0x00];

// Two bootstrap methods: 10 with the arguments 13, 12, 11 and 5; and 12 with none.
const ROWS: [u8; 18] = [
    0x00, 0x02, 0x00, 0x0a, 0x00, 0x04, 0x00, 0x0d, 0x00, 0x0c, 0x00, 0x0b, 0x00, 0x05, 0x00, 0x0c,
    0x00, 0x00,
];

// Adds a method with the descriptor `()V`, the name at an index, and this code.
fn push_method(bytes: &mut Vec<u8>, name: u8, code: &[u8]) -> Result<(), Fail> {
    let len = u8::try_from(code.len())?;
    let content = len.checked_add(12).ok_or("it is short")?;
    bytes.extend_from_slice(&[0, 9, 0, name, 0, 3, 0, 1])?;
    bytes.extend_from_slice(&[0, 14, 0, 0, 0, content, 0, 0, 0, 0, 0, 0, 0, len])?;
    bytes.extend_from_slice(code)?;
    bytes.extend_from_slice(&[0, 0, 0, 0])?;
    Ok(())
}

// A class with methods of these names and codes, and with these bytes as its bootstrap methods. The code of the first
// method begins at 155; without a method the bootstrap methods begin at 141.
fn class_of(alloc: Global, methods: &[(u8, &[u8])], rows: &[u8]) -> Result<Vec<u8>, Fail> {
    let count = [0, u8::try_from(methods.len())?];
    let mut bytes = [HEAD.as_slice(), &POOL, &MORE, &CLASS, &count].concat(alloc)?;
    for (name, code) in methods {
        push_method(&mut bytes, *name, code)?;
    }
    let len = u8::try_from(rows.len())?;
    bytes.extend_from_slice(&[0, 1, 0, 15, 0, 0, 0, len])?;
    bytes.extend_from_slice(rows)?;
    Ok(bytes)
}

fn table_has_fault(alloc: Global, rows: &[u8], offset: u32, rule: ClassRule) -> Result<bool, Fail> {
    let bytes = class_of(alloc, &[], rows)?;
    Ok(has_fault(alloc, &bytes, offset, 0, rule))
}

// Where its first n bytes are cut, for each n.
const CUTS: [u32; 18] = [
    141, 141, 143, 143, 145, 145, 147, 147, 149, 149, 151, 151, 153, 153, 155, 155, 157, 157,
];

#[test]
fn cut_rows(rt: HostRuntime) -> Result<(), Fail> {
    for (n, cut) in CUTS.iter().enumerate() {
        let is_cut = table_has_fault(rt.alloc(), &ROWS[..n], *cut, ClassRule::Cut)?;
        assert!(rt; is_cut, "at {n}");
    }
    Ok(())
}

#[test]
fn whole_rows(rt: HostRuntime) -> Result<(), Fail> {
    let longer = [ROWS.as_slice(), &[0]].concat(rt.alloc())?;
    assert!(rt; table_has_fault(rt.alloc(), &longer, 159, ClassRule::Trailing)?);
    let whole = class_of(rt.alloc(), &[], &ROWS)?;
    assert!(rt; read_class(rt.alloc(), &whole).is_ok());
    Ok(())
}

// Two calls of the first row, at 6 and at 16.
const CALLS: &[u8] = b"\0\0\0\0\0\0\xba\0\x10\0\0\0\0\0\0\0\xba\0\x10\0\0\xb1";

// The sites: the place, the kind of the handle, and whether it names an interface's method.
const SITES: &[(u16, HandleKind, bool)] = &[
    (6, HandleKind::K6, false),
    (6, HandleKind::K9, true),
    (16, HandleKind::K6, false),
    (16, HandleKind::K9, true),
];

fn is_site(site: &Site, pc: u16, kind: HandleKind, interface: bool) -> bool {
    site.pc == pc
        && site.kind == SiteKind::Handle(kind)
        && site.target.owner_is_interface_ref == interface
        && site.target.owner.as_slice() == b"a".as_slice()
        && site.target.desc.as_slice() == b"()V".as_slice()
}

fn are_sites(sites: &[Site], want: &[(u16, HandleKind, bool)]) -> bool {
    let mut alike = sites.len() == want.len();
    for (site, (pc, kind, interface)) in sites.iter().zip(want) {
        alike = alike && is_site(site, *pc, *kind, *interface);
    }
    alike
}

fn has_sites(methods: &[Method]) -> bool {
    match methods {
        [method] => are_sites(method.sites.as_slice(), SITES),
        _ => false,
    }
}

#[test]
fn calls(rt: HostRuntime) -> Result<(), Fail> {
    let bytes = class_of(rt.alloc(), &[(21, CALLS)], &ROWS)?;
    let view = view_of(rt.alloc(), &bytes)?;
    assert!(rt; has_sites(view.methods.as_slice()));
    Ok(())
}

// A call of the second row, at 11; one of the first, at 6.
const SECOND: &[u8] = b"\0\0\0\0\0\0\0\0\0\0\0\xba\0\x11\0\0\xb1";

const FIRST: &[u8] = b"\0\0\0\0\0\0\xba\0\x10\0\0\xb1";

// A byte of the rows by its place, what it is changed to, and the fault of a call of the first at 204, the place 6 of the
// second method: its rule and its index.
const CHANGES: &[(usize, u8, ClassRule, u16)] = &[
    // no method handle, and no constant
    (3, 13, ClassRule::WrongKind, 13),
    (3, 0, ClassRule::BadIndex, 0),
    (3, 22, ClassRule::BadIndex, 22),
    // an argument without a constant, the last too
    (7, 0, ClassRule::BadIndex, 0),
    (7, 22, ClassRule::BadIndex, 22),
    (13, 22, ClassRule::BadIndex, 22),
];

fn is_refused(
    alloc: Global,
    place: usize,
    byte: u8,
    rule: ClassRule,
    index: u16,
) -> Result<bool, Fail> {
    let rows = changed(alloc, &ROWS, &[(place, byte)])?;
    let bytes = class_of(alloc, &[(21, SECOND), (1, FIRST)], &rows)?;
    Ok(has_fault(alloc, &bytes, 204, index, rule))
}

#[test]
fn broken_calls(rt: HostRuntime) -> Result<(), Fail> {
    for (place, byte, rule, index) in CHANGES {
        assert!(rt;
            is_refused(rt.alloc(), *place, *byte, *rule, *index)?,
            "{byte} at {place}"
        );
    }
    Ok(())
}

// A call of the first row, at 6, and one of a third, at 11.
const NO_ROW: &[u8] = b"\0\0\0\0\0\0\xba\0\x10\0\0\xba\0\x12\0\0\xb1";

#[test]
fn no_such_row(rt: HostRuntime) -> Result<(), Fail> {
    let bytes = class_of(rt.alloc(), &[(21, NO_ROW)], &ROWS)?;
    assert!(rt; has_fault(rt.alloc(), &bytes, 166, 0, ClassRule::Bootstrap));
    Ok(())
}

// A call of the first row, at 6, and a `new`, at 11; and a `new` alone, at 5.
const CALL_AND_NEW: &[u8] = b"\0\0\0\0\0\0\xba\0\x10\0\0\xbb\0\x14\xb1";

const NEW: &[u8] = b"\0\0\0\0\0\xbb\0\x14\xb1";

fn has_pcs(method: &Method, pcs: &[u16]) -> bool {
    let sites = method.sites.as_slice();
    let mut alike = sites.len() == pcs.len();
    for (site, pc) in sites.iter().zip(pcs) {
        alike = alike && site.pc == *pc;
    }
    alike
}

fn are_finished(methods: &[Method]) -> bool {
    match methods {
        [first, second] => has_pcs(first, &[6, 6, 11]) && has_pcs(second, &[5]),
        _ => false,
    }
}

// The handle sites stand among the sites of instructions, by their places.
#[test]
fn finished(rt: HostRuntime) -> Result<(), Fail> {
    let bytes = class_of(rt.alloc(), &[(21, CALL_AND_NEW), (1, NEW)], &ROWS)?;
    let view = view_of(rt.alloc(), &bytes)?;
    assert!(rt; are_finished(view.methods.as_slice()));
    Ok(())
}
