use crate::samples::{BODY, FIELDS, METHODS, SMALLEST, changed, has_fault, view_of};
use fcg_classfile::ClassRule;
use fcg_grammar::ReadError;
use fcg_reader::read_class;
use fcg_views::{Field, Method, Name, View};
use std::alloc::Global;
use std::test::Fail;

fn is_name(name: Option<&Name>, want: &[u8]) -> bool {
    match name {
        Some(name) => name.as_slice() == want,
        None => false,
    }
}

fn is_smallest(view: &View) -> bool {
    view.name.as_slice() == b"I".as_slice()
        && view.flags == 0x0601
        && is_name(view.superclass.as_ref(), b"java/lang/Object")
        && view.interfaces.as_slice().is_empty()
        && view.fields.as_slice().is_empty()
        && view.methods.as_slice().is_empty()
}

#[test]
fn smallest(rt: HostRuntime) -> Result<(), Fail> {
    let view = view_of(rt.alloc(), &SMALLEST)?;
    assert!(rt; is_smallest(&view));
    Ok(())
}

// Its flags are those of a module.
const MODULE: &[(usize, u8)] = &[(39, 0x80)];

// And its name's index is 0.
const BROKEN_MODULE: &[(usize, u8)] = &[(39, 0x80), (42, 0)];

#[test]
fn module(rt: HostRuntime) -> Result<(), Fail> {
    let bytes = changed(rt.alloc(), &SMALLEST, MODULE)?;
    assert!(rt; read_class(rt.alloc(), &bytes).is_ok_and(|read| read.is_none()));
    let broken = changed(rt.alloc(), &SMALLEST, BROKEN_MODULE)?;
    assert!(rt; has_fault(rt.alloc(), &broken, 41, 0, ClassRule::BadIndex));
    Ok(())
}

// Where the first n bytes of it are cut, for each n.
const CUTS: [u32; 53] = [
    0, 0, 0, 0, 4, 4, 6, 6, 8, 8, 10, 11, 11, 13, 14, 15, 15, 17, 18, 18, 20, 20, 20, 20, 20, 20,
    20, 20, 20, 20, 20, 20, 20, 20, 20, 20, 36, 37, 37, 39, 39, 41, 41, 43, 43, 45, 45, 47, 47, 49,
    49, 51, 51,
];

// Where bytes are cut, if that is their fault.
fn cut_at(alloc: Global, bytes: &[u8]) -> Option<u32> {
    match read_class(alloc, bytes) {
        Err(ReadError::Fault(fault)) if fault.rule == ClassRule::Cut => Some(fault.offset),
        _ => None,
    }
}

#[test]
fn cut_at_each_length(rt: HostRuntime) {
    for (n, cut) in CUTS.iter().enumerate() {
        assert!(rt; cut_at(rt.alloc(), &SMALLEST[..n]) == Some(*cut), "at {n}");
    }
    for n in 0..BODY.len() {
        assert!(rt; cut_at(rt.alloc(), &BODY[..n]).is_some(), "at {n}");
    }
}

#[test]
fn longer(rt: HostRuntime) -> Result<(), Fail> {
    let bytes = [SMALLEST.as_slice(), &[0]].concat(rt.alloc())?;
    assert!(rt; has_fault(rt.alloc(), &bytes, 53, 0, ClassRule::Trailing));
    Ok(())
}

fn is_method(method: &Method, name: &[u8], desc: &[u8]) -> bool {
    method.name.as_slice() == name
        && method.desc.as_slice() == desc
        && method.flags == 0x0401
        && method.sites.as_slice().is_empty()
}

fn are_methods(methods: &[Method]) -> bool {
    match methods {
        [first, second] => {
            is_method(first, b"a", b"()V") && is_method(second, b"a", b"(Ljava/lang/String;)I")
        }
        _ => false,
    }
}

fn are_interfaces(names: &[Name]) -> bool {
    match names {
        [name] => name.as_slice() == b"java/lang/Runnable".as_slice(),
        _ => false,
    }
}

#[test]
fn methods(rt: HostRuntime) -> Result<(), Fail> {
    let view = view_of(rt.alloc(), &METHODS)?;
    assert!(rt; view.name.as_slice() == b"J".as_slice() && view.flags == 0x0600);
    assert!(rt; are_interfaces(view.interfaces.as_slice()));
    assert!(rt; are_methods(view.methods.as_slice()));
    Ok(())
}

fn is_field(field: &Field, name: &[u8], desc: &[u8], flags: u16) -> bool {
    field.name.as_slice() == name && field.desc.as_slice() == desc && field.flags == flags
}

fn are_fields(fields: &[Field]) -> bool {
    match fields {
        [first, second] => {
            is_field(first, b"a", b"I", 0x001a) && is_field(second, b"b", b"[LT;", 0x0002)
        }
        _ => false,
    }
}

#[test]
fn fields(rt: HostRuntime) -> Result<(), Fail> {
    let view = view_of(rt.alloc(), &FIELDS)?;
    assert!(rt; are_fields(view.fields.as_slice()) && view.methods.as_slice().is_empty());
    Ok(())
}

// A byte of a file by its place, what it is changed to, and the fault: its rule, its place and the index of the pool.
type Change = (usize, u8, ClassRule, u32, u16);

// Of the methods.
const CHANGES: &[Change] = &[
    (3, 0xbf, ClassRule::Magic, 0, 0),
    (7, 44, ClassRule::Version, 6, 0),
    (7, 66, ClassRule::Version, 6, 0),
    // the constants: a tag 2; a name's index that is 0, past the pool, of a Class; a lone byte 80
    (10, 2, ClassRule::BadTag, 10, 1),
    (19, 0, ClassRule::BadIndex, 17, 3),
    (19, 17, ClassRule::BadIndex, 17, 3),
    (19, 1, ClassRule::WrongKind, 17, 3),
    (16, 0x80, ClassRule::BadUtf8, 16, 2),
    // the type's index, its empty name, an interface's index, a count of the fields, of which the first is read where the
    // methods stand
    (170, 0, ClassRule::BadIndex, 169, 0),
    (170, 15, ClassRule::WrongKind, 169, 15),
    (12, 15, ClassRule::EmptyName, 169, 0),
    (176, 7, ClassRule::WrongKind, 175, 7),
    (178, 1, ClassRule::BadIndex, 181, 1025),
    // the methods: an empty name, the descriptor `()X`, a descriptor's index, a Code that is cut
    // before its length, the same twice
    (184, 15, ClassRule::EmptyName, 183, 0),
    (72, 0x58, ClassRule::Descriptor, 185, 0),
    (186, 17, ClassRule::BadIndex, 185, 17),
    (190, 16, ClassRule::Cut, 199, 0),
    (204, 8, ClassRule::DoubleMethod, 199, 0),
    // the class's attributes: a content past the end, and one that ends before it
    (212, 1, ClassRule::Cut, 215, 0),
    (214, 3, ClassRule::Cut, 215, 0),
    (214, 1, ClassRule::Trailing, 216, 0),
];

// Of the fields.
const BROKEN_FIELDS: &[Change] = &[
    // of the first: an empty name, the descriptors `V` and `()V`, a descriptor that is no Utf8, the attribute's length
    (78, 8, ClassRule::EmptyName, 77, 0),
    (80, 9, ClassRule::Descriptor, 79, 0),
    (80, 10, ClassRule::Descriptor, 79, 0),
    (80, 2, ClassRule::WrongKind, 79, 2),
    (88, 100, ClassRule::Cut, 89, 0),
    // of the second: a name's index past the pool, the descriptor `a`
    (94, 11, ClassRule::BadIndex, 93, 11),
    (96, 3, ClassRule::Descriptor, 95, 0),
];

// Of a class with a body: its version, texts of the pool, its own index, the code's length, an opcode, and the operand of
// a call.
const BROKEN_BODY: &[Change] = &[
    (7, 0x42, ClassRule::Version, 6, 0),
    (22, 0x00, ClassRule::BadUtf8, 22, 3),
    (28, 0x58, ClassRule::Descriptor, 62, 0),
    (49, 0x01, ClassRule::WrongKind, 48, 1),
    (79, 0x05, ClassRule::Cut, 87, 0),
    (80, 0xca, ClassRule::BadOpcode, 80, 0),
    (82, 0x05, ClassRule::WrongKind, 80, 5),
    (82, 0x00, ClassRule::BadIndex, 80, 0),
];

const FILES: &[(&[u8], &[Change])] = &[
    (&METHODS, CHANGES),
    (&FIELDS, BROKEN_FIELDS),
    (&BODY, BROKEN_BODY),
];

fn is_refused(alloc: Global, file: &[u8], change: &Change) -> Result<bool, Fail> {
    let (at, byte, rule, offset, index) = change;
    let bytes = changed(alloc, file, &[(*at, *byte)])?;
    Ok(has_fault(alloc, &bytes, *offset, *index, *rule))
}

#[test]
fn changed_bytes(rt: HostRuntime) -> Result<(), Fail> {
    for (file, changes) in FILES {
        for change in *changes {
            assert!(rt; is_refused(rt.alloc(), file, change)?, "{change:?}");
        }
    }
    Ok(())
}

// A name that stands twice in the pool: the second method is named by the other.
const EQUAL_TEXTS: &[(usize, u8)] = &[(16, 0x61), (202, 2)];

// And both have one descriptor.
const EQUAL_METHODS: &[(usize, u8)] = &[(16, 0x61), (202, 2), (204, 8)];

#[test]
fn equal_texts(rt: HostRuntime) -> Result<(), Fail> {
    let bytes = changed(rt.alloc(), &METHODS, EQUAL_TEXTS)?;
    let view = view_of(rt.alloc(), &bytes)?;
    assert!(rt; view.methods.as_slice().len() == 2);
    let alike = changed(rt.alloc(), &METHODS, EQUAL_METHODS)?;
    assert!(rt; has_fault(rt.alloc(), &alike, 199, 0, ClassRule::DoubleMethod));
    Ok(())
}
