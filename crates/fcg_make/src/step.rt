//! The instructions of a method that is written.
ghost use Rattle.std.specs.Prelude.{◌≡◌, ◌≤◌, ◌<◌, ◌++◌, length, IfOk, OnOk};
ghost use Rattle.std.specs.List.{flat_map};
ghost use Rattle.fcg_make.specs.Steps.{is_handle, is_joined, joined_after, calls, steps_of, size_of};
ghost use Rattle.fcg_make.specs.Needs.{rows_of};
ghost use Rattle.fcg_make.specs.Internal.Splits.{Splits};

use fcg_views::{Method, Site, SiteKind};
use std::alloc::{AllocError, Global};
use std::marker::Model;

/// An instruction of a method's code: its site; of an `invokedynamic` the first of its handle sites, and the others.
#[derive(Drop)]
pub struct Step<'a> {
    pub first: &'a Site,
    pub more: &'a [Site],
}

impl<'a> Model for Step<'a> {
    ghost use Rattle.fcg_make.specs.Steps.{Step};

    ghost Value = { Step };

    ghost view = { λ t. record { first = t.first.now; more = t.more.now } };
}

impl<'a> Step<'a> {
    /// The first site.
    pub fn first(&self) -> &'a Site
        ensures { result.now ≡ self.now.first }
    {
        self.first
    }

    /// The handle sites after the first.
    pub fn more(&self) -> &'a [Site]
        ensures { result.now ≡ self.now.more }
    {
        self.more
    }
}

/// Whether sites of a kind are method handles.
pub fn is_handle(kind: SiteKind) -> bool
    ensures { result ≡ is_handle kind }
{
    matches!(kind, SiteKind::Handle(_))
}

/// How many bytes an instruction of a kind has.
pub fn size_of(kind: SiteKind) -> usize
    ensures value { result ≡ size_of kind }
    ensures few { result ≤ 5 }
{
    match kind {
        SiteKind::Interface | SiteKind::Handle(_) => 5,
        _ => 3,
    }
}

// Whether both are handle sites of one place.
fn is_joined(one: &Site, other: &Site) -> bool
    ensures { result ≡ is_joined one.now other.now }
{
    is_handle(one.kind) && is_handle(other.kind) && one.pc == other.pc
}

// How many of the sites after a site are joined to it, one after the other.
fn count_joined(first: &Site, others: &[Site]) -> usize
    ensures value { result ≡ joined_after first.now others.now }
    ensures within { result ≤ length others.now }
{
    let mut count = 0;
    let mut rest = others;
    while let Some((site, after)) = rest.split_first() {
        if !is_joined(first, site) {
            return count;
        }
        count += 1;
        rest = after;
    }
    count
}

/// The first instruction of some sites, and the sites after it.
pub fn split_step(sites: &[Site]) -> Option<(Step<'_>, &[Site])>
    ensures { Splits sites.now result }
{
    let Some((first, others)) = sites.split_first() else {
        return None;
    };
    let count = count_joined(first, others);
    let (more, rest) = others.split_at(count);
    Some((Step { first, more }, rest))
}

// Adds the calls of bootstrap methods among the instructions of some sites.
fn push_calls<'a>(rows: &mut Vec<Step<'a>>, sites: &'a [Site]) -> Result<(), AllocError>
    ensures { OnOk result (rows.new.items ≡ rows.old.items ++ calls (steps_of sites.now)) }
{
    let mut rest = sites;
    while let Some((step, others)) = split_step(rest) {
        if is_handle(step.first().kind) {
            rows.push(step)?;
        }
        rest = others;
    }
    Ok(())
}

/// The calls of bootstrap methods, in their order. Takes one pass over the sites.
pub fn collect_rows(alloc: Global, methods: &[Method]) -> Result<Vec<Step<'_>>, AllocError>
    ensures { IfOk result (λ rows. rows.items ≡ rows_of methods.now) }
{
    let mut rows = Vec::new(alloc);
    for method in methods {
        push_calls(&mut rows, method.sites.as_slice())?;
    }
    Ok(rows)
}
