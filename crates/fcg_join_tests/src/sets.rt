use fcg_cases::views_of;
use fcg_join::Joined;
use fcg_partial::{Part, PartialGraph, Parts};
use fcg_views::{Coordinate, View, Views, is_valid};
use std::alloc::Global;
use std::sync::Arc;
use std::test::Fail;

// The graph of views.
fn graph_of(alloc: Global, views: Vec<View>) -> Result<PartialGraph, Fail> {
    let views = Views::from(views);
    if !views.fits() || !views.as_slice().iter().all(|view| is_valid(view)) {
        return Err("the views are valid".into());
    }
    Ok(
        PartialGraph::from_views(alloc, views)
            .ok()
            .ok_or("no memory")?,
    )
}

// A release with the types of a text in short form.
fn part_of(alloc: Global, coordinate: &str, types: &str) -> Result<Part, Fail> {
    let views = views_of(alloc, types).ok().ok_or("it is in short form")?;
    let graph = graph_of(alloc, views)?;
    let coordinate = Coordinate::parse(alloc, coordinate.as_bytes())
        .ok()
        .ok_or("it is a coordinate")?;
    Ok(Part {
        coordinate,
        graph: Arc::new(alloc, graph)?,
    })
}

// Releases, each a coordinate and its types, joined.
fn join(alloc: Global, releases: &[(&str, &str)]) -> Result<Joined, Fail> {
    let mut parts = Vec::new(alloc);
    for (coordinate, types) in releases {
        parts.push(part_of(alloc, coordinate, types)?)?;
    }
    let parts = Parts::from(parts);
    if !Joined::fits(&parts) {
        return Err("the set is small".into());
    }
    Ok(Joined::new(alloc, &parts).ok().ok_or("no memory")?)
}

/// What is asked of a joined set.
pub(crate) trait Ask {
    /// Whether it holds of the set.
    fn holds(&self, alloc: Global, joined: &Joined) -> Result<bool, Fail>;
}

/// Whether what is asked holds of releases, each a coordinate and its types, when they are joined. It owns the joined set,
/// so that no other function has to give its tables back.
pub(crate) fn holds<A: Ask>(
    alloc: Global,
    releases: &[(&str, &str)],
    asked: &A,
) -> Result<bool, Fail> {
    let joined = join(alloc, releases)?;
    asked.holds(alloc, &joined)
}
