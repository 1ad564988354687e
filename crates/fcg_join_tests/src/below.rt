use crate::sets::{Ask, holds};
use fcg_join::Joined;
use std::alloc::Global;
use std::test::Fail;

// A type, whether it has a gap, names that it is at or below, and names that it isn't.
struct Above(
    &'static str,
    bool,
    &'static [&'static str],
    &'static [&'static str],
);

// The types of a release, and what is above one of these.
const CASES: &[(&str, Above)] = &[
    // an absent interface two links up
    (
        "class java/lang/Object class p/A extends p/B class p/B implements x/I",
        Above(
            "p/A",
            true,
            &["p/A", "p/B", "x/I", "java/lang/Object"],
            &["p/C", "x/J"],
        ),
    ),
    // the names of Object aren't used
    (
        "class java/lang/Object implements x/I class p/A",
        Above("p/A", false, &["p/A", "java/lang/Object"], &["x/I"]),
    ),
    // a class that is named as an interface
    (
        "class java/lang/Object class p/A implements p/K class p/K",
        Above("p/A", true, &["p/A"], &["p/K"]),
    ),
    // an interface that is named as the superclass and as an interface
    (
        "class java/lang/Object class p/A extends p/I implements p/I interface p/I",
        Above("p/A", false, &["p/A", "p/I"], &["p/J"]),
    ),
    // a class that is named as the superclass and as an interface
    (
        "class java/lang/Object class p/A extends p/N implements p/N class p/N",
        Above("p/A", false, &["p/A", "p/N"], &["p/T"]),
    ),
    // a superclass that is an interface
    (
        "class java/lang/Object class p/A extends p/I interface p/I",
        Above("p/A", true, &["p/A", "java/lang/Object"], &["p/I"]),
    ),
    // an absent superclass of the class above, and an absent interface of an interface above
    (
        "class java/lang/Object class p/A extends p/B implements p/I class p/B extends x/S interface p/I implements x/I",
        Above("p/A", true, &["p/A", "p/B", "p/I", "x/S", "x/I"], &["x/T"]),
    ),
    // Object isn't known
    (
        "class p/A implements p/I interface p/I",
        Above("p/A", true, &["p/A", "p/I", "java/lang/Object"], &["p/J"]),
    ),
];

// Whether the type of a name is at or below another name.
fn is_below(joined: &Joined, name: &str, other: &str) -> bool {
    match joined.find(name.as_bytes()) {
        Some(t) => joined.at_or_below(t, other.as_bytes()),
        None => false,
    }
}

// Whether the type of a name is told to have a gap.
fn has_gap(joined: &Joined, name: &str) -> bool {
    match joined.find(name.as_bytes()) {
        Some(t) => joined.has_gap(t),
        None => false,
    }
}

impl Ask for Above {
    fn holds(&self, _: Global, joined: &Joined) -> Result<bool, Fail> {
        let told = has_gap(joined, self.0) == self.1;
        let all = self.2.iter().all(|other| is_below(joined, self.0, other));
        let none = !self.3.iter().any(|other| is_below(joined, self.0, other));
        Ok(told && all && none)
    }
}

#[test]
fn tells_gaps_and_what_is_below(rt: HostRuntime) -> Result<(), Fail> {
    for (types, above) in CASES {
        let told = holds(rt.alloc(), &[("g:a:1", *types)], above)?;
        assert!(rt; told, "{types}");
    }
    Ok(())
}

// Whether the types at or below a name have these names, in this order.
fn has_below(alloc: Global, joined: &Joined, name: &str, names: &[&str]) -> Result<bool, Fail> {
    let below = joined
        .below(alloc, name.as_bytes())
        .ok()
        .ok_or("no memory")?;
    let mut same = below.len() == names.len();
    for i in 0..below.len().min(names.len()) {
        same = same && joined.find(names[i].as_bytes()) == Some(below[i]);
    }
    Ok(same)
}

// Names, each with the types at or below it.
struct Below(&'static [(&'static str, &'static [&'static str])]);

impl Ask for Below {
    fn holds(&self, alloc: Global, joined: &Joined) -> Result<bool, Fail> {
        let mut all = true;
        for row in self.0 {
            all = has_below(alloc, joined, row.0, row.1)? && all;
        }
        Ok(all)
    }
}

const LISTED: Below = Below(&[
    ("p/A", &["p/C", "p/A"]),
    ("x/I", &["p/C", "p/A"]),
    ("x/J", &[]),
    (
        "java/lang/Object",
        &["java/lang/Object", "p/C", "p/A", "p/J", "p/B"],
    ),
]);

#[test]
fn lists_types_below(rt: HostRuntime) -> Result<(), Fail> {
    let types =
        "class java/lang/Object class p/C extends p/A class p/A implements x/I interface p/J class p/B";
    let listed = holds(rt.alloc(), &[("g:a:1", types)], &LISTED)?;
    assert!(rt; listed);
    Ok(())
}

// Two classes that extend each other, and one that extends the first of them.
const CIRCULAR: &[(&str, &str)] = &[
    ("g:a:1", "class p/A extends p/B pub m()V"),
    ("g:b:1", "class p/B extends p/A"),
    (
        "g:c:1",
        "class p/C extends p/A pub m()V class p/T static t()V [ virtual p/A.m()V ]",
    ),
];

const LISTED_BELOW_CIRCLES: Below = Below(&[
    ("p/A", &["p/C"]),
    ("java/lang/Object", &["p/C", "p/T"]),
]);

#[test]
fn lists_types_below_circular_ones(rt: HostRuntime) -> Result<(), Fail> {
    let listed = holds(rt.alloc(), CIRCULAR, &LISTED_BELOW_CIRCLES)?;
    let above = holds(
        rt.alloc(),
        CIRCULAR,
        &Above("p/C", true, &["p/A"], &["p/B"]),
    )?;
    assert!(rt; listed && above);
    Ok(())
}
