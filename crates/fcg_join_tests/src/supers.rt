use crate::sets::{Ask, holds};
use fcg_join::{Joined, MethodId};
use std::alloc::Global;
use std::string::String;
use std::test::Fail;

// A type, and the owners of the one default and of the first superinterface method of `m()V`.
struct Above(&'static str, Option<&'static str>, Option<&'static str>);

// The types of a release, with what is above one of these.
const CASES: &[(&str, Above)] = &[
    // two defaults of unrelated interfaces
    (
        "class p/A implements p/I implements p/J interface p/J pub m()V interface p/I pub m()V",
        Above("p/A", None, Some("p/J")),
    ),
    // a default below another
    (
        "interface p/I pub m()V interface p/J implements p/I pub m()V class p/A implements p/I implements p/J",
        Above("p/A", Some("p/J"), Some("p/I")),
    ),
    // the same, with the names the other way round
    (
        "interface p/J pub m()V interface p/I implements p/J pub m()V class p/A implements p/I implements p/J",
        Above("p/A", Some("p/I"), Some("p/J")),
    ),
    // an abstract one beside a default
    (
        "interface p/I abs m()V interface p/J pub m()V class p/A implements p/I implements p/J",
        Above("p/A", Some("p/J"), Some("p/I")),
    ),
    // an abstract one below a default
    (
        "interface p/I pub m()V interface p/J implements p/I abs m()V class p/A implements p/J",
        Above("p/A", None, Some("p/I")),
    ),
    // a default that an abstract one is below, and another
    (
        "interface p/I pub m()V interface p/J implements p/I abs m()V interface p/K pub m()V \
         class p/A implements p/J implements p/K",
        Above("p/A", Some("p/K"), Some("p/I")),
    ),
    // static and private ones don't count, not even below a default
    (
        "interface p/I static m()V interface p/J implements p/K private m()V interface p/K pub m()V \
         class p/A implements p/I implements p/J",
        Above("p/A", Some("p/K"), Some("p/K")),
    ),
    // nor do those of classes, and of the type itself
    (
        "class p/B pub m()V interface p/I pub m()V interface p/J implements p/K pub m()V class p/A extends p/B implements p/J \
         interface p/K",
        Above("p/J", None, None),
    ),
    // the interfaces of a superclass count
    (
        "class p/B pub m()V implements p/I interface p/I pub m()V class p/A extends p/B",
        Above("p/A", Some("p/I"), Some("p/I")),
    ),
    // another descriptor, a class named as an interface, and an absent interface
    (
        "interface p/I pub m(I)V class p/K pub m()V class p/A implements p/I implements p/K implements x/I",
        Above("p/A", None, None),
    ),
    // no method has the signature
    (
        "interface p/I class p/A implements p/I",
        Above("p/A", None, None),
    ),
];

// Whether the owner of what is found has this name.
fn is_owned(joined: &Joined, found: Option<MethodId>, owner: Option<&str>) -> bool {
    match (found, owner) {
        (Some(m), Some(owner)) => {
            m.0 < joined.method_count() && joined.type_name(joined.owner(m)) == owner.as_bytes()
        }
        (None, None) => true,
        _ => false,
    }
}

// Whether the one default and the first superinterface method of the type of a name have these owners.
fn has_above(joined: &Joined, name: &str, default: Option<&str>, first: Option<&str>) -> bool {
    match joined.find(name.as_bytes()) {
        Some(t) => {
            is_owned(joined, joined.one_default(t, b"m", b"()V"), default)
                && is_owned(joined, joined.first_above(t, b"m", b"()V"), first)
        }
        None => false,
    }
}

impl Ask for Above {
    fn holds(&self, _: Global, joined: &Joined) -> Result<bool, Fail> {
        Ok(has_above(joined, self.0, self.1, self.2))
    }
}

#[test]
fn finds_superinterface_methods(rt: HostRuntime) -> Result<(), Fail> {
    for (types, above) in CASES {
        let found = holds(rt.alloc(), &[("g:a:1", *types)], above)?;
        assert!(rt; found, "{types}");
    }
    Ok(())
}

// Two interfaces of a level, which implement both of the level before.
fn level(alloc: Global, below: u32, n: u32, method: &str) -> Result<String, Fail> {
    Ok(format!(in alloc;
        " interface p/A{n} implements p/A{below} implements p/B{below}{method} interface p/B{n} implements p/A{below} implements p/B{below}"
    )?)
}

// 30 levels of two interfaces from level 0, of which an interface of level 0 and one of level 20 have a default, and a class
// that implements both of level 29.
fn levels(alloc: Global) -> Result<String, Fail> {
    let mut text = String::from_str(alloc, "interface p/A0 pub m()V interface p/B0")?;
    for below in 0..29 {
        let method = if below == 19 { " pub m()V" } else { "" };
        text.push_str(level(alloc, below, below + 1, method)?.as_str())?;
    }
    text.push_str(" class p/C implements p/A29 implements p/B29")?;
    Ok(text)
}

const LAST: Above = Above("p/C", Some("p/A20"), Some("p/A0"));

const MIDDLE: Above = Above("p/B20", Some("p/A0"), Some("p/A0"));

#[test]
fn finds_methods_over_levels(rt: HostRuntime) -> Result<(), Fail> {
    let types = levels(rt.alloc())?;
    let releases = [("g:a:1", types.as_str())];
    let last = holds(rt.alloc(), &releases, &LAST)?;
    let middle = holds(rt.alloc(), &releases, &MIDDLE)?;
    assert!(rt; last && middle);
    Ok(())
}
