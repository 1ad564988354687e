ghost use Rattle.std.specs.Prelude.{◌<◌, length};
ghost use Rattle.fcg_join.specs.Parts.{types_of, nodes_of};
ghost use Rattle.fcg_join.specs.Outcomes.{IfMethod};

use crate::outcomes::{Target, new_ref, resolve_named};
use crate::sets::{Ask, holds};
use fcg_join::{Joined, MethodId, Outcome, TypeId};
use fcg_select::{can_override, is_instance_of, select, select_as};
use fcg_views::Ref;
use std::alloc::Global;
use std::fmt::Write;
use std::test::Fail;

// The number of the method that is selected, by the names and by the number of the signature.
fn select_both(
    joined: &Joined,
    receiver: TypeId,
    outcome: Outcome,
    name: &[u8],
    desc: &[u8],
) -> Option<(Option<MethodId>, Option<MethodId>)>
    requires there { receiver.0 < length (types_of joined.now) }
    requires range { IfMethod outcome (λ m. m.0 < length (nodes_of joined.now)) }
{
    if !is_instance_of(joined, outcome, name, desc) {
        return None;
    }
    let named = select(joined, receiver, outcome, name, desc);
    let numbered = select_as(joined, receiver, outcome, joined.signature(name, desc));
    Some((named, numbered))
}

// Whether for a class the reference takes this method.
fn takes(joined: &Joined, reference: &Ref, class: &str, selected: Option<MethodId>) -> bool {
    let outcome = resolve_named(joined, reference);
    let Some(receiver) = joined.find(class.as_bytes()) else {
        return false;
    };
    let (name, desc) = (reference.name.as_slice(), reference.desc.as_slice());
    select_both(joined, receiver, outcome, name, desc) == Some((selected, selected))
}

const PACKAGES: &str =
    "class p/A package m()V class p/B extends p/A pub m()V class q/C extends p/B pub m()V \
     class q/D extends p/A pub m()V class p/T static t()V [ virtual p/A.m()V ]";

const TWO_DEFAULTS: &str = "interface p/I pub m()V interface p/J pub m()V \
     class p/K implements p/I implements p/J class p/T static t()V [ virtual p/K.m()V ]";

const ONE_DEFAULT: &str = "interface p/I pub m()V interface p/J abs m()V \
     class p/K implements p/I implements p/J class p/T static t()V [ virtual p/K.m()V ]";

const DEFAULT_BELOW: &str = "interface p/I pub m()V interface p/J pub m()V \
     interface p/L implements p/I implements p/J pub m()V class p/K implements p/L \
     class p/T static t()V [ virtual p/K.m()V ]";

const PRIVATE_AND_STATIC: &str = "class p/A pub m()V class p/B extends p/A private m()V \
     class p/C extends p/A static m()V class p/T static t()V [ virtual p/A.m()V ]";

const A_METHOD: Target = ("p/A", false, "m", "()V");

const K_METHOD: Target = ("p/K", false, "m", "()V");

// A reference, and what it takes for classes.
struct Taken(Target, &'static [(&'static str, Option<MethodId>)]);

// Types, with what a reference of theirs takes.
const CASES: &[(&str, Taken)] = &[
    // q/C overrides what p/B hands on, and q/D nothing
    (
        PACKAGES,
        Taken(
            A_METHOD,
            &[
                ("p/A", Some(MethodId(0))),
                ("p/B", Some(MethodId(1))),
                ("q/C", Some(MethodId(2))),
                ("q/D", Some(MethodId(0))),
                ("p/T", None),
            ],
        ),
    ),
    (TWO_DEFAULTS, Taken(K_METHOD, &[("p/K", None)])),
    (ONE_DEFAULT, Taken(K_METHOD, &[("p/K", Some(MethodId(0)))])),
    (
        DEFAULT_BELOW,
        Taken(K_METHOD, &[("p/K", Some(MethodId(2)))]),
    ),
    // what is private or static is passed over
    (
        PRIVATE_AND_STATIC,
        Taken(
            A_METHOD,
            &[
                ("p/A", Some(MethodId(0))),
                ("p/B", Some(MethodId(0))),
                ("p/C", Some(MethodId(0))),
            ],
        ),
    ),
    // a private resolved method is taken itself
    (
        PRIVATE_AND_STATIC,
        Taken(
            ("p/B", false, "m", "()V"),
            &[("p/A", Some(MethodId(1))), ("p/B", Some(MethodId(1)))],
        ),
    ),
    // a phantom is overridden by what is open
    (
        PRIVATE_AND_STATIC,
        Taken(
            ("x/Absent", false, "m", "()V"),
            &[("p/B", Some(MethodId(0))), ("p/T", None)],
        ),
    ),
];

impl Ask for Taken {
    fn holds(&self, alloc: Global, joined: &Joined) -> Result<bool, Fail> {
        let reference = new_ref(alloc, &self.0)?;
        Ok(
            self.1
                .iter()
                .all(|row| takes(joined, &reference, row.0, row.1)),
        )
    }
}

#[test]
fn selects(rt: HostRuntime) -> Result<(), Fail> {
    for (types, taken) in CASES {
        let all = holds(rt.alloc(), &[("g:a:1", *types)], taken)?;
        assert!(rt; all, "{types}");
    }
    Ok(())
}

// Whether of two methods the first can override the second.
fn overrides(joined: &Joined, over: u32, under: u32) -> bool {
    over < joined.method_count()
        && under < joined.method_count()
        && can_override(joined, MethodId(over), MethodId(under))
}

// Pairs of methods of which the first can override the second, and pairs of which it can't.
struct Pairs(&'static [(u32, u32)], &'static [(u32, u32)]);

// Types, with pairs of their methods.
const OVERRIDES: &[(&str, Pairs)] = &[
    (
        PACKAGES,
        Pairs(
            &[(0, 0), (1, 0), (2, 0), (0, 1), (2, 1), (3, 1)],
            &[(3, 0), (4, 0), (0, 4)],
        ),
    ),
    (
        PRIVATE_AND_STATIC,
        Pairs(&[(0, 0)], &[(1, 0), (2, 0), (0, 1), (1, 1), (0, 2)]),
    ),
];

impl Ask for Pairs {
    fn holds(&self, _: Global, joined: &Joined) -> Result<bool, Fail> {
        let all = self.0.iter().all(|pair| overrides(joined, pair.0, pair.1));
        let any = self.1.iter().any(|pair| overrides(joined, pair.0, pair.1));
        Ok(all && !any)
    }
}

#[test]
fn tells_overriding(rt: HostRuntime) -> Result<(), Fail> {
    for (types, pairs) in OVERRIDES {
        let told = holds(rt.alloc(), &[("g:a:1", *types)], pairs)?;
        assert!(rt; told, "{types}");
    }
    Ok(())
}

// Object, and so many classes of two packages in turn, each of which extends the one before and declares a package-private
// method.
fn two_packages(alloc: Global, count: u32) -> Result<String, Fail> {
    let mut text = String::new(alloc);
    write!(text, "class java/lang/Object class p/C0 package m()V")?;
    for number in 1..count {
        let before = number - 1;
        let (own, other) = if number % 2 == 0 {
            ("p", "q")
        } else {
            ("q", "p")
        };
        write!(
            text,
            " class {own}/C{number} extends {other}/C{before} package m()V"
        )?;
    }
    Ok(text)
}

const DEEP: Taken = Taken(
    ("p/C0", false, "m", "()V"),
    &[
        ("p/C0", Some(MethodId(0))),
        ("q/C1", Some(MethodId(0))),
        ("p/C998", Some(MethodId(998))),
        ("q/C999", Some(MethodId(998))),
    ],
);

const DEEP_OVERRIDES: Pairs = Pairs(&[(2, 0), (998, 0), (999, 1)], &[(1, 0), (999, 0)]);

#[test]
fn selects_in_deep_hierarchies(rt: HostRuntime) -> Result<(), Fail> {
    let text = two_packages(rt.alloc(), 1_000)?;
    let releases = [("g:a:1", text.as_str())];
    let selected = holds(rt.alloc(), &releases, &DEEP)?;
    let overridden = holds(rt.alloc(), &releases, &DEEP_OVERRIDES)?;
    assert!(rt; selected && overridden);
    Ok(())
}
