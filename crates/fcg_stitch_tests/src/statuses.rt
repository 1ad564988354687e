ghost use Rattle.std.specs.Prelude.{◌<◌, length};
ghost use Rattle.fcg_join.specs.Parts.{nodes_of};

use crate::sets::{Ask, LOGGING, holds};
use fcg_join::Cause;
use fcg_stitch::{SiteStatus, Stitched};
use std::alloc::Global;
use std::test::Fail;

// The statuses of the sites of the nodes.
struct Statuses(&'static [&'static [SiteStatus]]);

// Whether the sites of a node have these statuses, and no others.
fn has_statuses(stitched: &Stitched, node: u32, statuses: &[SiteStatus]) -> bool
    requires { node < length (nodes_of stitched.now) }
{
    let count = stitched.site_count(node);
    for k in 0..count {
        if statuses.get(k as usize) != Some(&stitched.site_status(node, k)) {
            return false;
        }
    }
    count as usize == statuses.len()
}

impl Ask for Statuses {
    fn holds(&self, _: Global, stitched: &Stitched) -> Result<bool, Fail> {
        for node in 0..stitched.node_count() {
            let statuses = self.0.get(node as usize).ok_or("a node has no statuses")?;
            if !has_statuses(stitched, node, statuses) {
                return Ok(false);
            }
        }
        Ok(stitched.node_count() as usize == self.0.len())
    }
}

const METHOD: SiteStatus = SiteStatus::Method;

const ABSENT: SiteStatus = SiteStatus::Failed(Cause::NoSuchMethod);

const OF_OTHER_KIND: SiteStatus = SiteStatus::Failed(Cause::KindMismatch);

// Releases, with the statuses of their nodes' sites.
const SETS: &[(&[(&str, &str)], Statuses)] = &[
    (
        &[
            (
                "j:b:1",
                "class java/lang/Object without superclass pub hashCode()I",
            ),
            (
                "a:a:1",
                "class p/T static t()V [ virtual [I.hashCode()I virtual p/T.none()V ]",
            ),
        ],
        Statuses(&[&[], &[METHOD, ABSENT]]),
    ),
    (
        &[("g:a:1", "class p/A static m()V [ static p/A.m()V ]")],
        Statuses(&[&[METHOD]]),
    ),
    (
        LOGGING,
        Statuses(&[
            &[METHOD, METHOD],
            &[],
            &[METHOD],
            &[SiteStatus::NoCall, METHOD],
            &[SiteStatus::Phantom],
            &[METHOD],
            &[],
        ]),
    ),
    // a node without sites stands between others
    (
        &[(
            "g:a:1",
            "interface p/I abs m()V \
             class p/A static a()V [ new p/A interface p/I.m()V virtual p/I.m()V interface p/A.a()V ] static b()V \
             static c()V [ static x/X.m()V static p/A.b()V ]",
        )],
        Statuses(&[
            &[],
            &[SiteStatus::NoCall, METHOD, OF_OTHER_KIND, OF_OTHER_KIND],
            &[],
            &[SiteStatus::Phantom, METHOD],
        ]),
    ),
];

#[test]
fn tells_statuses(rt: HostRuntime) -> Result<(), Fail> {
    for (releases, statuses) in SETS {
        let all = holds(rt.alloc(), releases, statuses)?;
        assert!(rt; all, "{releases:?}");
    }
    Ok(())
}
