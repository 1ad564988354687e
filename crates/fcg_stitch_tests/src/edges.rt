use crate::sets::{Ask, LOGGING, holds};
use fcg_stitch::Stitched;
use std::alloc::Global;
use std::test::Fail;

/// How many types, nodes, phantoms and failed sites there are, and the edges.
pub(crate) struct Graph(
    pub u32,
    pub u32,
    pub u64,
    pub u64,
    pub &'static [(u32, u32)],
);

// Whether the edges of all places are these.
fn lists(stitched: &Stitched, edges: &[(u32, u32)]) -> bool {
    if stitched.edge_count() != edges.len() as u64 {
        return false;
    }
    for k in 0..stitched.edge_count() {
        if stitched.edge(k) != edges[k as usize] {
            return false;
        }
    }
    true
}

// The edge after an edge.
fn after(stitched: &Stitched, edge: (u32, u32)) -> Option<(u32, u32)> {
    if edge.0 < stitched.node_count() {
        return stitched.next_edge(edge.0, edge.1);
    }
    None
}

// Whether each of the edges is followed by the one behind it, and the last by none.
fn follow(stitched: &Stitched, edges: &[(u32, u32)]) -> bool {
    for k in 0..edges.len() {
        if after(stitched, edges[k]) != edges.get(k + 1).copied() {
            return false;
        }
    }
    true
}

// Whether of all pairs of nodes just these are edges.
fn has_only(stitched: &Stitched, edges: &[(u32, u32)]) -> bool {
    let count = stitched.node_count();
    for a in 0..count {
        for b in 0..count {
            if stitched.has_edge(a, b) != edges.contains(&(a, b)) {
                return false;
            }
        }
    }
    true
}

impl Ask for Graph {
    fn holds(&self, _: Global, stitched: &Stitched) -> Result<bool, Fail> {
        let counts = stitched.type_count() == self.0
            && stitched.node_count() == self.1
            && stitched.phantoms() == self.2
            && stitched.failed() == self.3;
        Ok(
            counts
                && lists(stitched, self.4)
                && follow(stitched, self.4)
                && has_only(stitched, self.4),
        )
    }
}

const PACKAGES: &str =
    "class p/A package m()V class p/B extends p/A pub m()V class q/C extends p/B pub m()V \
     class q/D extends p/A pub m()V class p/T static t()V [ virtual p/A.m()V ]";

const TWO_DEFAULTS: &str = "interface p/I pub m()V interface p/J pub m()V \
     class p/K implements p/I implements p/J class p/T static t()V [ virtual p/K.m()V ]";

const ONE_DEFAULT: &str = "interface p/I pub m()V interface p/J abs m()V \
     class p/K implements p/I implements p/J class p/T static t()V [ virtual p/K.m()V ]";

const DEFAULT_BELOW: &str = "interface p/I pub m()V interface p/J pub m()V \
     interface p/L implements p/I implements p/J pub m()V class p/K implements p/L \
     class p/T static t()V [ virtual p/K.m()V ]";

const PRIVATE_AND_STATIC: &str = "class p/A pub m()V class p/B extends p/A private m()V \
     class p/C extends p/A static m()V class p/T static t()V [ virtual p/A.m()V ]";

const SPECIAL: (&str, &str) = (
    "a:a:1",
    "class p/C extends p/P pub m()V [ special p/P.m()V ]",
);

const CIRCLE: (&str, &str) = (
    "g:c:1",
    "class p/C extends p/A pub m()V class p/T static t()V [ virtual p/A.m()V ]",
);

const TWO_CHAINS: &str = "class p/T static t()V [ static p/L.l()V static p/R.r()V ] \
     class p/L static l()V [ static p/Z.z()V ] class p/R static r()V [ static p/Z.z()V ] \
     class p/Z static z()V";

// Two interfaces, and classes of the one, of the other and of both.
const OVERLAPPING: &str = "interface p/I abs m()V interface p/J abs m()V \
     class p/K implements p/I implements p/J pub m()V class p/L implements p/I pub m()V \
     class p/M implements p/J pub m()V \
     class p/T static t()V [ interface p/I.m()V interface p/J.m()V ]";

// What a special call leads to is also the target of a virtual call, and a list stands within another.
const NESTED: &str =
    "class p/A pub m()V class p/B extends p/A pub m()V class p/C extends p/B pub m()V \
     class p/T static t()V [ virtual p/B.m()V special p/A.m()V virtual p/A.m()V static p/T.u()V ] \
     static u()V static v()V [ virtual p/C.m()V virtual p/C.m()V ]";

const HANDLES: &str =
    "interface p/I abs m()V class p/A pub m()V class p/B extends p/A implements p/I pub m()V \
     class p/T static five()V [ handle5 p/A.m()V ] static six()V [ handle6 p/T.five()V ] \
     static seven()V [ handle7 p/A.m()V ] static eight()V [ handle8 p/A.m()V ] \
     static nine()V [ handle9 p/I.m()V ]";

// A static call of an instance method and dispatched calls of a static one lead nowhere.
const FLAGS: &str = "class p/A pub m()V static s()V \
     class p/T static t()V [ static p/A.m()V virtual p/A.s()V special p/A.s()V new p/A ]";

// Abstract methods and what is absent.
const ABSTRACT: &str =
    "interface p/I abs m()V class p/A implements p/I class p/B extends p/A abs m()V \
     class p/T static t()V [ interface p/I.m()V virtual p/A.m()V special p/B.m()V static x/X.m()V ]";

// Releases, with their graphs.
const SETS: &[(&[(&str, &str)], Graph)] = &[
    (&[], Graph(0, 0, 0, 0, &[])),
    (
        &[("g:a:1", "class p/A static m()V [ static p/A.m()V ]")],
        Graph(1, 1, 0, 0, &[(0, 0)]),
    ),
    // the sites of a type that is dropped call nothing
    (
        &[
            ("g:a:1", "class p/X static f()V"),
            (
                "g:b:1",
                "class p/X static f()V [ static p/Y.g()V ] class p/Y static g()V [ static p/X.f()V ]",
            ),
        ],
        Graph(2, 2, 0, 0, &[(1, 0)]),
    ),
    (
        &[
            (
                "g:b:1",
                "class p/X static f()V [ static p/Y.g()V ] class p/Y static g()V [ static p/X.f()V ]",
            ),
            ("g:a:1", "class p/X static f()V"),
        ],
        Graph(2, 2, 0, 0, &[(0, 1), (1, 0)]),
    ),
    // an absent interface has its implementers
    (
        &[(
            "g:a:1",
            "class p/R1 implements java/lang/Runnable pub run()V \
             class p/R2 implements java/lang/Runnable pub run()V \
             class p/M static m()V [ interface java/lang/Runnable.run()V ]",
        )],
        Graph(3, 3, 1, 0, &[(2, 0), (2, 1)]),
    ),
    // q/C overrides what p/B hands on, and q/D nothing
    (
        &[("g:a:1", PACKAGES)],
        Graph(5, 5, 0, 0, &[(4, 0), (4, 1), (4, 2)]),
    ),
    (&[("g:a:1", TWO_DEFAULTS)], Graph(4, 3, 0, 0, &[])),
    (&[("g:a:1", ONE_DEFAULT)], Graph(4, 3, 0, 0, &[(2, 0)])),
    (&[("g:a:1", DEFAULT_BELOW)], Graph(5, 4, 0, 0, &[(3, 2)])),
    (
        &[("g:a:1", PRIVATE_AND_STATIC)],
        Graph(4, 4, 0, 0, &[(3, 0)]),
    ),
    // a special call starts at the superclass of the release that is in the set
    (
        &[
            ("l:l:1", "class p/G pub m()V class p/P extends p/G"),
            SPECIAL,
        ],
        Graph(3, 2, 0, 0, &[(1, 0)]),
    ),
    (
        &[
            (
                "l:l:2",
                "class p/G pub m()V class p/H pub m()V class p/P extends p/H",
            ),
            SPECIAL,
        ],
        Graph(4, 3, 0, 0, &[(2, 1)]),
    ),
    (
        LOGGING,
        Graph(6, 7, 1, 0, &[(0, 2), (0, 5), (2, 3), (3, 4), (5, 6)]),
    ),
    // types on circles count as absent
    (
        &[
            ("g:a:1", "class p/A extends p/B pub m()V"),
            ("g:b:1", "class p/B extends p/A"),
            CIRCLE,
        ],
        Graph(2, 2, 1, 0, &[(1, 0)]),
    ),
    (
        &[("g:d:1", TWO_CHAINS)],
        Graph(4, 4, 0, 0, &[(0, 1), (0, 2), (1, 3), (2, 3)]),
    ),
    (
        &[(
            "g:a:1",
            "class p/L static main()V [ handle6 java/lang/invoke/LambdaMetafactory.metafactory()V \
             handle6 p/L.lambda$main$0()V ] static lambda$main$0()V",
        )],
        Graph(1, 2, 1, 0, &[(0, 1)]),
    ),
    // an array has Object's methods
    (
        &[
            (
                "j:b:1",
                "class java/lang/Object without superclass pub hashCode()I",
            ),
            (
                "a:a:1",
                "class p/T static t()V [ virtual [I.hashCode()I virtual p/T.none()V static [I.hashCode()I ]",
            ),
        ],
        Graph(2, 2, 0, 1, &[(1, 0)]),
    ),
    (
        &[("g:a:1", OVERLAPPING)],
        Graph(6, 6, 0, 0, &[(5, 2), (5, 3), (5, 4)]),
    ),
    (
        &[("g:a:1", NESTED)],
        Graph(4, 6, 0, 0, &[(3, 0), (3, 1), (3, 2), (3, 4), (5, 2)]),
    ),
    (
        &[("g:a:1", HANDLES)],
        Graph(
            4,
            8,
            0,
            0,
            &[(3, 1), (3, 2), (4, 3), (5, 1), (6, 1), (7, 2)],
        ),
    ),
    (&[("g:a:1", FLAGS)], Graph(2, 3, 0, 0, &[])),
    (&[("g:a:1", ABSTRACT)], Graph(4, 3, 1, 0, &[])),
];

#[test]
fn stitches_sets(rt: HostRuntime) -> Result<(), Fail> {
    for (releases, graph) in SETS {
        let all = holds(rt.alloc(), releases, graph)?;
        assert!(rt; all, "{releases:?}");
    }
    Ok(())
}
