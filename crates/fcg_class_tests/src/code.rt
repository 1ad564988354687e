use crate::samples::{CALL, changed, has_fault, view_of};
use fcg_classfile::ClassRule;
use fcg_views::{Site, SiteKind, View};
use std::alloc::Global;
use std::test::Fail;

// A site: its kind, whether it names an interface's method, and the name and the descriptor of what it names.
type Row = (SiteKind, bool, &'static [u8], &'static [u8]);

// An opcode in place of the first of a call, the index after it, and the site.
const SITES: &[(u8, u8, Row)] = &[
    (182, 7, (SiteKind::Virtual, false, b"m", b"()V")),
    (183, 7, (SiteKind::Special, false, b"m", b"()V")),
    (183, 8, (SiteKind::Special, true, b"m", b"()V")),
    (184, 7, (SiteKind::Static, false, b"m", b"()V")),
    (184, 8, (SiteKind::Static, true, b"m", b"()V")),
    (185, 8, (SiteKind::Interface, true, b"m", b"()V")),
    (178, 19, (SiteKind::StaticField, false, b"m", b"I")),
    (179, 19, (SiteKind::StaticField, false, b"m", b"I")),
    (187, 2, (SiteKind::New, false, b"", b"")),
];

fn is_site(site: &Site, row: &Row) -> bool {
    let (kind, interface, name, desc) = row;
    site.pc == 0
        && site.kind == *kind
        && site.target.owner_is_interface_ref == *interface
        && site.target.owner.as_slice() == b"T".as_slice()
        && site.target.name.as_slice() == *name
        && site.target.desc.as_slice() == *desc
}

// The sites of the one method.
fn sites_of(view: &View) -> &[Site] {
    match view.methods.as_slice() {
        [method] => method.sites.as_slice(),
        _ => &[],
    }
}

fn has_site(alloc: Global, opcode: u8, index: u8, row: &Row) -> Result<bool, Fail> {
    let bytes = changed(alloc, &CALL, &[(133, opcode), (135, index)])?;
    let view = view_of(alloc, &bytes)?;
    match sites_of(&view) {
        [site] => Ok(is_site(site, row)),
        _ => Ok(false),
    }
}

#[test]
fn reads_sites(rt: HostRuntime) -> Result<(), Fail> {
    for (opcode, index, row) in SITES {
        assert!(rt; has_site(rt.alloc(), *opcode, *index, row)?, "{opcode}");
    }
    Ok(())
}

// Two bytes of the call by their places, what they are changed to, and the fault.
type Change = (usize, u8, usize, u8, ClassRule, u32, u16);

const BROKEN_CODE: &[Change] = &[
    // what an opcode may not name: a constant of another kind, index 0, an index past the pool
    (133, 182, 135, 8, ClassRule::WrongKind, 133, 8),
    (133, 182, 135, 6, ClassRule::WrongKind, 133, 6),
    (133, 183, 135, 6, ClassRule::WrongKind, 133, 6),
    (133, 184, 135, 6, ClassRule::WrongKind, 133, 6),
    (133, 185, 135, 7, ClassRule::WrongKind, 133, 7),
    (133, 185, 135, 6, ClassRule::WrongKind, 133, 6),
    (133, 184, 135, 2, ClassRule::WrongKind, 133, 2),
    (133, 184, 135, 0, ClassRule::BadIndex, 133, 0),
    (133, 184, 135, 20, ClassRule::BadIndex, 133, 20),
    // an empty type, an empty name, a bad descriptor
    (133, 184, 135, 14, ClassRule::EmptyName, 133, 0),
    (133, 184, 135, 15, ClassRule::EmptyName, 133, 0),
    (133, 184, 135, 16, ClassRule::Descriptor, 133, 0),
    // of a field: a Methodref, the descriptor `()V`; of a type: a Fieldref, an empty name
    (133, 178, 135, 7, ClassRule::WrongKind, 133, 7),
    (133, 179, 135, 6, ClassRule::Descriptor, 133, 0),
    (133, 187, 135, 19, ClassRule::WrongKind, 133, 19),
    (133, 187, 135, 11, ClassRule::EmptyName, 133, 0),
    // of a bootstrap method: a Methodref, a NameAndType, index 0, an index past the pool
    (133, 186, 135, 7, ClassRule::WrongKind, 133, 7),
    (133, 186, 135, 5, ClassRule::WrongKind, 133, 5),
    (133, 186, 135, 0, ClassRule::BadIndex, 133, 0),
    (133, 186, 135, 20, ClassRule::BadIndex, 133, 20),
    // instructions that break a rule, the last after the site
    (133, 202, 135, 7, ClassRule::BadOpcode, 133, 0),
    (133, 196, 135, 7, ClassRule::BadWide, 133, 0),
    (133, 170, 135, 7, ClassRule::CodeCut, 133, 0),
    (133, 184, 137, 17, ClassRule::CodeCut, 137, 0),
    // the length of the code: 0, and 65,541; 6, so that the count of the attributes passes the content
    (132, 0, 135, 7, ClassRule::CodeLength, 129, 0),
    (130, 1, 135, 7, ClassRule::CodeLength, 129, 0),
    (132, 6, 135, 7, ClassRule::Cut, 141, 0),
    // a row of the exception table, and an attribute, that pass the content
    (139, 1, 135, 7, ClassRule::Cut, 140, 0),
    (141, 1, 135, 7, ClassRule::Cut, 142, 0),
    // a content that is longer than the code needs, and that passes the file
    (124, 18, 135, 7, ClassRule::Trailing, 142, 0),
    (124, 20, 135, 7, ClassRule::Cut, 125, 0),
    // another attribute than Code, whose name is no Utf8, or is missing
    (120, 2, 135, 7, ClassRule::WrongKind, 119, 2),
    (120, 0, 135, 7, ClassRule::BadIndex, 119, 0),
];

fn is_refused(alloc: Global, change: &Change) -> Result<bool, Fail> {
    let (one, to, other, too, rule, offset, index) = change;
    let bytes = changed(alloc, &CALL, &[(*one, *to), (*other, *too)])?;
    Ok(has_fault(alloc, &bytes, *offset, *index, *rule))
}

#[test]
fn broken_code(rt: HostRuntime) -> Result<(), Fail> {
    for change in BROKEN_CODE {
        assert!(rt; is_refused(rt.alloc(), change)?, "{change:?}");
    }
    Ok(())
}

// Its one attribute again, after it.
#[test]
fn second_code(rt: HostRuntime) -> Result<(), Fail> {
    let twice = [&CALL[..142], &CALL[119..]].concat(rt.alloc())?;
    let bytes = changed(rt.alloc(), &twice, &[(118, 2)])?;
    assert!(rt; has_fault(rt.alloc(), &bytes, 142, 0, ClassRule::DoubleCode));
    Ok(())
}

// An attribute BootstrapMethods without a row, and one of one byte, which is no table.
const NO_ROWS: [u8; 8] = [0x00, 0x14, 0x00, 0x00, 0x00, 0x02, 0x00, 0x00];

const NO_TABLE: [u8; 7] = [0x00, 0x14, 0x00, 0x00, 0x00, 0x01, 0xff];

// The bytes of the call with the text `BootstrapMethods` as a constant more, 20, which takes 19 bytes; of these some are
// changed.
fn with_bootstrap_name(alloc: Global, changes: &[(usize, u8)]) -> Result<Vec<u8>, Fail> {
    let name = b"\x01\x00\x10BootstrapMethods".as_slice();
    let bytes = [&CALL[..99], name, &CALL[99..]].concat(alloc)?;
    let counted = changed(alloc, &bytes, &[(9, 21)])?;
    Ok(changed(alloc, &counted, changes)?)
}

// The changes by which it stands twice in a code, and twice in a method.
const IN_OTHERS: &[&[(usize, u8)]] = &[&[(143, 31), (160, 2)], &[(137, 3)]];

fn with_two_inside(alloc: Global, changes: &[(usize, u8)]) -> Result<Vec<u8>, Fail> {
    let bytes = with_bootstrap_name(alloc, changes)?;
    let front = bytes.get(..161).ok_or("it is longer")?;
    Ok([front, &NO_TABLE, &NO_TABLE, &[0, 0]].concat(alloc)?)
}

fn has_one_site(alloc: Global, bytes: &[u8]) -> Result<bool, Fail> {
    let view = view_of(alloc, bytes)?;
    Ok(sites_of(&view).len() == 1)
}

// Of a code and of a method it is passed over, whatever its content, and however often it stands there.
#[test]
fn other_bootstrap_methods(rt: HostRuntime) -> Result<(), Fail> {
    for changes in IN_OTHERS {
        let bytes = with_two_inside(rt.alloc(), changes)?;
        assert!(rt; has_one_site(rt.alloc(), &bytes)?, "{changes:?}");
    }
    Ok(())
}

// What the class has after its count of attributes.
fn with_attributes(alloc: Global, count: u8, attributes: &[u8]) -> Result<Vec<u8>, Fail> {
    let bytes = with_bootstrap_name(alloc, &[(162, count)])?;
    Ok([bytes.as_slice(), attributes].concat(alloc)?)
}

// The class has one that is no table, or two.
#[test]
fn broken_bootstrap_methods(rt: HostRuntime) -> Result<(), Fail> {
    let cut = with_attributes(rt.alloc(), 1, &NO_TABLE)?;
    assert!(rt; has_fault(rt.alloc(), &cut, 169, 0, ClassRule::Cut));
    let two = [NO_ROWS.as_slice(), &NO_TABLE].concat(rt.alloc())?;
    let twice = with_attributes(rt.alloc(), 2, &two)?;
    assert!(rt; has_fault(rt.alloc(), &twice, 171, 0, ClassRule::Bootstrap));
    Ok(())
}
