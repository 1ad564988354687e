ghost use Rattle.std.specs.Prelude.{◌≡◌, ◌<◌};

use fcg_cases::views_of;
use fcg_partial::{Part, PartialGraph, Parts};
use fcg_stitch::{StitchRefusal, Stitched, stitch};
use fcg_views::{Coordinate, Steps, View, Views, is_valid};
use std::alloc::Global;
use std::marker::Brand;
use std::sync::Arc;
use std::sync::ledger::{Blank, Ledger};
use std::test::Fail;

/// A program, the interface by which it logs, and what stands behind it.
pub(crate) const LOGGING: &[(&str, &str)] = &[
    (
        "shop:app:1",
        "class shop/Main static main([Ljava/lang/String;)V [ static log/Factory.get()Llog/Logger; \
         interface log/Logger.info(Ljava/lang/String;)V ]",
    ),
    (
        "log:api:1",
        "interface log/Logger abs info(Ljava/lang/String;)V \
         class log/Factory static get()Llog/Logger; [ static log/Binder.get()Llog/Logger; ]",
    ),
    (
        "log:impl:1",
        "class log/Binder static get()Llog/Logger; [ new impl/Simple special impl/Simple.<init>()V ] \
         class impl/Simple implements log/Logger pub <init>()V [ special java/lang/Object.<init>()V ] \
         pub info(Ljava/lang/String;)V [ static impl/Out.write(Ljava/lang/String;)V ] \
         class impl/Out static write(Ljava/lang/String;)V",
    ),
];

// The graph of views.
fn graph_of(alloc: Global, views: Vec<View>) -> Result<PartialGraph, Fail> {
    let views = Views::from(views);
    if !views.fits() || !views.as_slice().iter().all(|view| is_valid(view)) {
        return Err("the views are valid".into());
    }
    Ok(
        PartialGraph::from_views(alloc, views)
            .ok()
            .ok_or("no memory")?,
    )
}

/// A release of views.
pub(crate) fn part_of(alloc: Global, coordinate: &str, views: Vec<View>) -> Result<Part, Fail> {
    let graph = graph_of(alloc, views)?;
    let coordinate = Coordinate::parse(alloc, coordinate.as_bytes())
        .ok()
        .ok_or("it is a coordinate")?;
    Ok(Part {
        coordinate,
        graph: Arc::new(alloc, graph)?,
    })
}

// Releases, each a coordinate and its types.
fn parts_of(alloc: Global, releases: &[(&str, &str)]) -> Result<Parts, Fail> {
    let mut parts = Vec::new(alloc);
    for (coordinate, types) in releases {
        let views = views_of(alloc, types).ok().ok_or("it is in short form")?;
        parts.push(part_of(alloc, coordinate, views)?)?;
    }
    Ok(Parts::from(parts))
}

fn stitch_with<L: Ledger>(
    alloc: Global,
    parts: &Parts,
    blank: Blank,
) -> Result<Stitched, StitchRefusal>
    requires one { (blank.parts ≡ L.parts) × (0 < blank.parts) }
    requires name { blank.name ≡ L.name }
{
    let mut steps = Steps::<L>::open(blank);
    stitch(alloc, parts, &mut steps)
}

/// What stitching answers, where no steps are counted.
pub(crate) fn stitch_parts(alloc: Global, parts: &Parts) -> Result<Stitched, StitchRefusal> {
    stitch_with::<Brand>(alloc, parts, Blank::new(1))
}

/// Why releases, each a coordinate and its types, aren't stitched.
pub(crate) fn refusal_of(
    alloc: Global,
    releases: &[(&str, &str)],
) -> Result<Option<StitchRefusal>, Fail> {
    let parts = parts_of(alloc, releases)?;
    Ok(stitch_parts(alloc, &parts).err())
}

/// What is asked of a stitched set.
pub(crate) trait Ask {
    /// Whether it holds of the set.
    fn holds(&self, alloc: Global, stitched: &Stitched) -> Result<bool, Fail>;
}

/// Whether what is asked holds of releases, each a coordinate and its types, when they are stitched. It owns the stitched
/// set, so that no other function has to give its tables back.
pub(crate) fn holds<A: Ask>(
    alloc: Global,
    releases: &[(&str, &str)],
    asked: &A,
) -> Result<bool, Fail> {
    let parts = parts_of(alloc, releases)?;
    let stitched = stitch_parts(alloc, &parts).ok().ok_or("it is stitched")?;
    asked.holds(alloc, &stitched)
}
