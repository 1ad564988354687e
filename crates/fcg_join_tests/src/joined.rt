use crate::sets::{Ask, holds};
use fcg_join::{Joined, MethodId, TypeId, TypeOrigin};
use std::alloc::Global;
use std::test::Fail;

// The number of the type of a name.
fn number_of(joined: &Joined, name: &str) -> Option<u32> {
    joined.find(name.as_bytes()).map(|t| t.0)
}

// The flags of the type of a name.
fn flags_of(joined: &Joined, name: &str) -> Option<u16> {
    match joined.find(name.as_bytes()) {
        Some(t) => Some(joined.type_flags(t)),
        None => None,
    }
}

// The number of the superclass of the type of a name.
fn superclass_of(joined: &Joined, name: &str) -> Option<u32> {
    let t = joined.find(name.as_bytes())?;
    joined.superclass(t).map(|s| s.0)
}

// The number of the next in the chain of the type of a name.
fn next_of(joined: &Joined, name: &str) -> Option<u32> {
    let t = joined.find(name.as_bytes())?;
    joined.chain_next(t).map(|s| s.0)
}

// A name, and the number of its type, of the superclass and of the next in the chain.
type Row = (&'static str, Option<u32>, Option<u32>, Option<u32>);

// How many known types there are and how many methods these have, and what names are of.
struct Types(u32, u32, &'static [Row]);

// Releases, with their types.
const SETS: &[(&[(&str, &str)], Types)] = &[
    // p/A and p/B extend each other, and p/C and p/T are known
    (
        &[
            ("g:a:1", "class p/A extends p/B pub m()V"),
            ("g:b:1", "class p/B extends p/A"),
            (
                "g:c:1",
                "class p/C extends p/A pub m()V class p/T static t()V [ virtual p/A.m()V ]",
            ),
        ],
        Types(
            2,
            2,
            &[
                ("p/A", None, None, None),
                ("p/B", None, None, None),
                ("p/C", Some(0), None, None),
                ("p/T", Some(1), None, None),
                ("m", None, None, None),
            ],
        ),
    ),
    // the first p/X decides
    (
        &[
            (
                "g:b:1",
                "class p/X static f()V static g()V class p/Y extends p/X",
            ),
            ("g:a:1", "interface p/X pub f()V"),
        ],
        Types(
            2,
            2,
            &[
                ("p/X", Some(0), None, None),
                ("p/Y", Some(1), Some(0), Some(0)),
            ],
        ),
    ),
    // and turned round: an interface is no superclass
    (
        &[
            ("g:a:1", "interface p/X pub f()V"),
            (
                "g:b:1",
                "class p/X static f()V static g()V class p/Y extends p/X",
            ),
        ],
        Types(
            2,
            1,
            &[("p/X", Some(0), None, None), ("p/Y", Some(1), None, None)],
        ),
    ),
    // Object stands at the end of the chains of classes, and uses no names itself
    (
        &[
            (
                "j:b:1",
                "class java/lang/Object extends p/A pub hashCode()I class p/A interface p/I",
            ),
            ("a:a:1", "class p/B extends p/A class p/C extends p/absent"),
        ],
        Types(
            5,
            1,
            &[
                ("java/lang/Object", Some(0), None, None),
                ("p/A", Some(1), Some(0), Some(0)),
                ("p/I", Some(2), None, None),
                ("p/B", Some(3), Some(1), Some(1)),
                ("p/C", Some(4), None, Some(0)),
            ],
        ),
    ),
    // what stands between two circles isn't circular, nor is what leads to one
    (
        &[(
            "g:a:1",
            "class p/A extends p/B class p/B extends p/A implements p/K class p/M extends p/A implements p/I \
             interface p/I implements p/J interface p/J implements p/I class p/N extends p/M interface p/K",
        )],
        Types(
            3,
            0,
            &[
                ("p/M", Some(0), None, None),
                ("p/N", Some(1), Some(0), Some(0)),
                ("p/K", Some(2), None, None),
                ("p/I", None, None, None),
            ],
        ),
    ),
    // the first p/A stands in a circle, and a later one doesn't
    (
        &[
            ("g:a:1", "class p/A extends p/B class p/B extends p/A"),
            ("g:b:1", "class p/A static m()V class p/T"),
        ],
        Types(
            1,
            0,
            &[("p/A", None, None, None), ("p/T", Some(0), None, None)],
        ),
    ),
    // the first Object is an interface
    (
        &[
            ("g:a:1", "interface java/lang/Object pub m()V"),
            (
                "g:b:1",
                "class java/lang/Object pub n()V class p/A extends java/lang/Object implements java/lang/Object class p/B",
            ),
        ],
        Types(
            3,
            1,
            &[
                ("java/lang/Object", Some(0), None, None),
                ("p/A", Some(1), None, None),
                ("p/B", Some(2), None, None),
            ],
        ),
    ),
    // one release twice
    (
        &[
            ("g:a:1", "class p/A static m()V class p/B extends p/A"),
            ("g:a:1", "class p/A static m()V class p/B extends p/A"),
        ],
        Types(
            2,
            1,
            &[
                ("p/A", Some(0), None, None),
                ("p/B", Some(1), Some(0), Some(0)),
            ],
        ),
    ),
];

// Whether the type of a name has these numbers.
fn is_row(joined: &Joined, row: &Row) -> bool {
    number_of(joined, row.0) == row.1
        && superclass_of(joined, row.0) == row.2
        && next_of(joined, row.0) == row.3
}

impl Ask for Types {
    fn holds(&self, _: Global, joined: &Joined) -> Result<bool, Fail> {
        let counts = joined.type_count() == self.0 && joined.method_count() == self.1;
        Ok(counts && self.2.iter().all(|row| is_row(joined, row)))
    }
}

#[test]
fn joins_sets(rt: HostRuntime) -> Result<(), Fail> {
    for (releases, types) in SETS {
        let joined = holds(rt.alloc(), releases, types)?;
        assert!(rt; joined, "{releases:?}");
    }
    Ok(())
}

// Whether the type of a number has this name, and this name of a superclass.
fn is_named(joined: &Joined, number: u32, name: &str, superclass: Option<&[u8]>) -> bool {
    number < joined.type_count()
        && joined.type_name(TypeId(number)) == name.as_bytes()
        && joined.named_superclass(TypeId(number)) == superclass
}

// Whether the method of a number is of the type of a number.
fn is_owned(joined: &Joined, number: u32, owner: u32) -> bool {
    number < joined.method_count() && joined.owner(MethodId(number)) == TypeId(owner)
}

// What types are told to be.
struct TypesTold;

impl Ask for TypesTold {
    fn holds(&self, _: Global, joined: &Joined) -> Result<bool, Fail> {
        let names = is_named(joined, 0, "p/Y", Some(b"p/X"))
            && is_named(joined, 2, "p/X", Some(b"java/lang/Object"));
        let flags = flags_of(joined, "p/Y") == Some(0x0021)
            && flags_of(joined, "p/Z") == Some(0x0601);
        let owners = is_owned(joined, 0, 0) && is_owned(joined, 1, 1) && is_owned(joined, 3, 2);
        Ok(names && flags && owners && joined.parts().as_slice().len() == 2)
    }
}

#[test]
fn tells_types(rt: HostRuntime) -> Result<(), Fail> {
    let releases = [
        (
            "g:b:1",
            "class p/Y extends p/X pub f()V interface p/Z abs g()V",
        ),
        ("g:a:1", "class p/Y class p/X pub f()V pub g()V"),
    ];
    let told = holds(rt.alloc(), &releases, &TypesTold)?;
    assert!(rt; told);
    Ok(())
}

// Whether the method of a number has this name and this descriptor.
fn is_method(joined: &Joined, number: u32, name: &str, desc: &str) -> bool {
    number < joined.method_count()
        && joined.method_name(MethodId(number)) == name.as_bytes()
        && joined.method_desc(MethodId(number)) == desc.as_bytes()
}

// Whether the type of a number has this origin.
fn is_from(joined: &Joined, number: u32, origin: &TypeOrigin) -> bool {
    number < joined.type_count() && joined.origin(TypeId(number)) == *origin
}

// The number of the method that the type of a name declares.
fn declared_in(joined: &Joined, class: &str, name: &str, desc: &str) -> Option<u32> {
    let t = joined.find(class.as_bytes())?;
    joined
        .declared(t, name.as_bytes(), desc.as_bytes())
        .map(|m| m.0)
}

// Of each type that comes from a part: its number, the part, the place in it, its first method and how many it has.
const ORIGINS: &[(u32, TypeOrigin)] = &[
    (
        0,
        TypeOrigin {
            part: 0,
            place: 0,
            first: 0,
            methods: 1,
        },
    ),
    (
        1,
        TypeOrigin {
            part: 0,
            place: 1,
            first: 1,
            methods: 1,
        },
    ),
    (
        2,
        TypeOrigin {
            part: 1,
            place: 1,
            first: 2,
            methods: 2,
        },
    ),
];

// A type, the name and the descriptor of a method, and the number of the method that the type declares.
const DECLARED: &[(&str, &str, &str, Option<u32>)] = &[
    ("p/Y", "f", "()V", Some(0)),
    ("p/Y", "g", "()V", None),
    ("p/Z", "g", "()V", Some(1)),
    ("p/X", "g", "(I)V", Some(3)),
    ("p/X", "g", "()V", None),
    ("p/X", "absent", "()V", None),
];

// What methods are told to be.
struct MethodsTold;

impl Ask for MethodsTold {
    fn holds(&self, _: Global, joined: &Joined) -> Result<bool, Fail> {
        let origins = ORIGINS.iter().all(|row| is_from(joined, row.0, &row.1));
        let declared = DECLARED
            .iter()
            .all(|row| declared_in(joined, row.0, row.1, row.2) == row.3);
        let names = is_method(joined, 1, "g", "()V") && is_method(joined, 3, "g", "(I)V");
        Ok(origins && declared && names)
    }
}

#[test]
fn tells_methods(rt: HostRuntime) -> Result<(), Fail> {
    let releases = [
        (
            "g:b:1",
            "class p/Y extends p/X pub f()V interface p/Z abs g()V",
        ),
        ("g:a:1", "class p/Y pub h()V class p/X pub f()V pub g(I)V"),
    ];
    let told = holds(rt.alloc(), &releases, &MethodsTold)?;
    assert!(rt; told);
    Ok(())
}

// The flags of p/X, and how many methods there are, all of p/X.
struct First(u16, u32);

impl Ask for First {
    fn holds(&self, _: Global, joined: &Joined) -> Result<bool, Fail> {
        let first = flags_of(joined, "p/X") == Some(self.0) && joined.method_count() == self.1;
        Ok(first && is_owned(joined, 0, 0))
    }
}

// Releases that both have p/X, and what the first has.
const DOUBLED: &[(&[(&str, &str)], First)] = &[
    (
        &[
            ("g:b:1", "class p/X static f()V static g()V"),
            ("g:a:1", "interface p/X pub f()V"),
        ],
        First(0x0021, 2),
    ),
    (
        &[
            ("g:a:1", "interface p/X pub f()V"),
            ("g:b:1", "class p/X static f()V static g()V"),
        ],
        First(0x0601, 1),
    ),
];

#[test]
fn tells_flags_of_the_first(rt: HostRuntime) -> Result<(), Fail> {
    for (releases, first) in DOUBLED {
        let told = holds(rt.alloc(), releases, first)?;
        assert!(rt; told, "{releases:?}");
    }
    Ok(())
}
