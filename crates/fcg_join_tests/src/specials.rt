use crate::outcomes::{Target, new_ref, number_ref, resolve_by_numbers, resolve_named};
use crate::sets::{Ask, holds};
use fcg_join::{Joined, MethodId};
use fcg_select::{special, special_numbered};
use fcg_views::Ref;
use std::alloc::Global;
use std::test::Fail;

// The method of a special call in a class, by the names of the reference.
fn special_named(joined: &Joined, class: &str, reference: &Ref) -> Option<MethodId> {
    let current = joined.find(class.as_bytes())?;
    special(joined, current, reference, resolve_named(joined, reference))
}

// The same by their numbers, which the set has.
fn special_by_numbers(joined: &Joined, class: &str, target: &Target) -> Option<MethodId> {
    let current = joined.find(class.as_bytes())?;
    let reference = number_ref(joined, target)?;
    special_numbered(
        joined,
        current,
        reference,
        resolve_by_numbers(joined, reference),
    )
}

const CALLER: (&str, &str) = (
    "a:a:1",
    "class p/C extends p/P pub m()V [ special p/P.m()V ]",
);

const INITS: &[(&str, &str)] = &[(
    "g:a:1",
    "class p/A pub <init>()V class p/B extends p/A class p/C extends p/B pub <init>()V \
     [ special p/A.<init>()V special p/B.<init>()V ]",
)];

const SEARCHES: &[(&str, &str)] = &[(
    "g:a:1",
    "class p/A pub m()V class p/B extends p/A private m()V class p/C extends p/B pub m()V \
     class p/T static t()V [ special p/B.m()V special p/A.m()V special p/N.m()V ] \
     class p/N extends p/A static m()V class p/Y extends x/Absent pub m()V [ special x/Absent.m()V ] \
     class p/Z extends p/Y",
)];

// A class and a reference of its, and the method that its special call takes.
struct Calls(&'static str, Target, Option<MethodId>);

// Releases, with a special call of theirs.
const CASES: &[(&[(&str, &str)], Calls)] = &[
    // the superclass of the class as it is linked decides
    (
        &[
            ("l:l:1", "class p/G pub m()V class p/P extends p/G"),
            CALLER,
        ],
        Calls("p/C", ("p/P", false, "m", "()V"), Some(MethodId(0))),
    ),
    (
        &[
            (
                "l:l:2",
                "class p/G pub m()V class p/H pub m()V class p/P extends p/H",
            ),
            CALLER,
        ],
        Calls("p/C", ("p/P", false, "m", "()V"), Some(MethodId(1))),
    ),
    // an `<init>` isn't inherited
    (
        INITS,
        Calls("p/C", ("p/A", false, "<init>", "()V"), Some(MethodId(0))),
    ),
    (INITS, Calls("p/C", ("p/B", false, "<init>", "()V"), None)),
    // a superclass further up: the search begins at the superclass, and takes a private method
    (
        SEARCHES,
        Calls("p/C", ("p/A", false, "m", "()V"), Some(MethodId(1))),
    ),
    // no superclass: it begins at the named class
    (
        SEARCHES,
        Calls("p/T", ("p/A", false, "m", "()V"), Some(MethodId(0))),
    ),
    // a static method is resolved
    (SEARCHES, Calls("p/T", ("p/N", false, "m", "()V"), None)),
    // an absent superclass counts by its name: of p/Z the search begins at p/Y, and of p/Y nowhere
    (
        SEARCHES,
        Calls("p/Z", ("x/Absent", false, "m", "()V"), Some(MethodId(5))),
    ),
    (
        SEARCHES,
        Calls("p/Y", ("x/Absent", false, "m", "()V"), None),
    ),
];

impl Ask for Calls {
    fn holds(&self, alloc: Global, joined: &Joined) -> Result<bool, Fail> {
        let reference = new_ref(alloc, &self.1)?;
        let named = special_named(joined, self.0, &reference);
        Ok(named == self.2 && special_by_numbers(joined, self.0, &self.1) == self.2)
    }
}

#[test]
fn calls_superclasses(rt: HostRuntime) -> Result<(), Fail> {
    for (releases, call) in CASES {
        let taken = holds(rt.alloc(), releases, call)?;
        assert!(rt; taken, "{}", call.0);
    }
    Ok(())
}
