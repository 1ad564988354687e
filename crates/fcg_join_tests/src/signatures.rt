use crate::sets::{Ask, holds};
use fcg_join::{Joined, MethodId};
use std::alloc::Global;
use std::test::Fail;

// The releases: p/A has two methods of one name, and java/lang/Object, p/A and p/I have one of one signature.
const RELEASES: &[(&str, &str)] = &[
    (
        "j:b:1",
        "class java/lang/Object without superclass pub hashCode()I static m()V",
    ),
    (
        "g:a:1",
        "class p/A extends p/absent pub m()V pub m(I)V interface p/I abs m()V",
    ),
];

// A name, its number, and the number of the known type that has the name.
const NAMES: &[(&str, Option<u32>, Option<u32>)] = &[
    ("()I", Some(0), None),
    ("()V", Some(1), None),
    ("(I)V", Some(2), None),
    ("hashCode", Some(3), None),
    ("java/lang/Object", Some(4), Some(0)),
    ("m", Some(5), None),
    ("p/A", Some(6), Some(1)),
    ("p/I", Some(7), Some(2)),
    ("p/absent", Some(8), None),
    ("absent", None, None),
];

// A name and a descriptor, the number of the signature, and the methods that have it.
const SIGNATURES: &[(&str, &str, Option<u32>, &[u32])] = &[
    ("hashCode", "()I", Some(0), &[0]),
    ("m", "()V", Some(1), &[1, 2, 4]),
    ("m", "(I)V", Some(2), &[3]),
    ("m", "()I", None, &[]),
    ("absent", "()V", None, &[]),
];

// A type, a name and a descriptor, the method that the type declares, and the public instance method of Object.
const DECLARED: &[(&str, &str, &str, Option<u32>, Option<u32>)] = &[
    ("java/lang/Object", "hashCode", "()I", Some(0), Some(0)),
    ("java/lang/Object", "m", "()V", Some(1), None),
    ("p/A", "m", "()V", Some(2), None),
    ("p/A", "m", "(I)V", Some(3), None),
    ("p/A", "hashCode", "()I", None, Some(0)),
    ("p/I", "m", "()V", Some(4), None),
    ("p/I", "m", "(I)V", None, None),
    ("p/I", "absent", "()V", None, None),
];

// A type, the number of the name of its superclass, and whether it is an interface.
const TYPES: &[(&str, Option<u32>, bool)] = &[
    ("java/lang/Object", None, false),
    ("p/A", Some(8), false),
    ("p/I", Some(4), true),
];

// Whether a name has this number, and the known type of the name that.
fn is_name(joined: &Joined, name: &str, number: Option<u32>, class: Option<u32>) -> bool {
    match joined.name_id(name.as_bytes()) {
        Some(id) => {
            number == Some(id.0)
                && joined.name(id) == name.as_bytes()
                && joined.type_named(id).map(|t| t.0) == class
        }
        None => number.is_none(),
    }
}

// The number of a signature by the numbers of its names.
fn by_names(joined: &Joined, name: &str, desc: &str) -> Option<u32> {
    let name = joined.name_id(name.as_bytes())?;
    let desc = joined.name_id(desc.as_bytes())?;
    joined.signature_of_names(name, desc).map(|s| s.0)
}

// Whether a signature has this number, and these methods have it.
fn is_signature(
    joined: &Joined,
    name: &str,
    desc: &str,
    number: Option<u32>,
    declarers: &[u32],
) -> bool {
    match joined.signature(name.as_bytes(), desc.as_bytes()) {
        Some(s) => number == Some(s.0) && joined.declarers(s) == declarers,
        None => number.is_none(),
    }
}

// Whether the method of a number has the signature of a number.
fn has_signature(joined: &Joined, method: u32, number: u32) -> bool {
    method < joined.method_count() && joined.method_signature(MethodId(method)).0 == number
}

// The method of a signature that a type declares.
fn declared_in(joined: &Joined, class: &str, name: &str, desc: &str) -> Option<u32> {
    let t = joined.find(class.as_bytes())?;
    let s = joined.signature(name.as_bytes(), desc.as_bytes());
    joined.declared_as(t, s).map(|m| m.0)
}

// The public instance method of a signature that Object declares.
fn in_object(joined: &Joined, name: &str, desc: &str) -> Option<u32> {
    let s = joined.signature(name.as_bytes(), desc.as_bytes());
    joined.object_method(s).map(|m| m.0)
}

// Whether a type has this superclass name, and is an interface or not.
fn is_type(joined: &Joined, name: &str, superclass: Option<u32>, interface: bool) -> bool {
    match joined.find(name.as_bytes()) {
        Some(t) => {
            joined.superclass_name(t).map(|n| n.0) == superclass
                && joined.is_interface(t) == interface
        }
        None => false,
    }
}

// What is told by numbers, of names and types, and of signatures.
enum Numbered {
    Names,
    Signatures,
}

fn are_names_numbered(joined: &Joined) -> bool {
    let names = NAMES.iter().all(|row| is_name(joined, row.0, row.1, row.2));
    let types = TYPES.iter().all(|row| is_type(joined, row.0, row.1, row.2));
    names && types && joined.object().map(|t| t.0) == Some(0)
}

fn are_signatures_numbered(joined: &Joined) -> bool {
    let signatures = SIGNATURES.iter().all(|row| {
        is_signature(joined, row.0, row.1, row.2, row.3) && by_names(joined, row.0, row.1) == row.2
    });
    let methods = has_signature(joined, 1, 1) && has_signature(joined, 3, 2);
    let declared = DECLARED.iter().all(|row| {
        declared_in(joined, row.0, row.1, row.2) == row.3
            && in_object(joined, row.1, row.2) == row.4
    });
    signatures && methods && declared && joined.signature_count() == 3
}

impl Ask for Numbered {
    fn holds(&self, _: Global, joined: &Joined) -> Result<bool, Fail> {
        match self {
            Numbered::Names => Ok(are_names_numbered(joined)),
            Numbered::Signatures => Ok(are_signatures_numbered(joined)),
        }
    }
}

#[test]
fn numbers_names_of_sets(rt: HostRuntime) -> Result<(), Fail> {
    let numbered = holds(rt.alloc(), RELEASES, &Numbered::Names)?;
    assert!(rt; numbered);
    Ok(())
}

#[test]
fn numbers_signatures(rt: HostRuntime) -> Result<(), Fail> {
    let numbered = holds(rt.alloc(), RELEASES, &Numbered::Signatures)?;
    assert!(rt; numbered);
    Ok(())
}
