//! The rows of callers, and the statuses of their sites.
ghost use Rattle.std.specs.Prelude.{◌≡◌, ◌<◌, ◌≤◌, ◌+◌, ◌∷◌, [], ◌⊎◌, ℕ, List, IfOk, IfErr, OnOk, length, filter, take};
ghost use Rattle.fcg_views.specs.declared.view.Site.{Site};
ghost use Rattle.fcg_analysis.specs.Declarations.{Placed};
ghost use Rattle.fcg_analysis.specs.Nodes.{Node};
ghost use Rattle.fcg_analysis.specs.Edges.{status, statuses_of, edges};
ghost use Rattle.fcg_join.specs.Parts.{types_of, nodes_of};
ghost use Rattle.fcg_join.specs.Joined.{HasNode};
ghost use Rattle.fcg_edges.specs.Rows.{Rows, IsWithCaller, edges_of};
ghost use Rattle.fcg_stitch.specs.Targets.{site_targets, caller_targets};
ghost use Rattle.fcg_stitch.specs.Limits.{calls, call_sites};
ghost use Rattle.fcg_stitch.specs.Internal.Rows.{HaveMoreLists, IsRowWithin, AreStates};
ghost use Rattle.fcg_stitch.specs.Internal.Calling.{IsCallSite, CallsAs, IsWork, AddsTargets, AddsStatuses};
ghost use Rattle.fcg_stitch.specs.Internal.Tables.{AreOfNodes};
ghost use Rattle.fcg_stitch.specs.declared.refusal.StitchRefusal.TheVariants as refusals;

use crate::calls::{Call, call_of};
use crate::place::{count_sites, find_place, find_site};
use crate::refusal::StitchRefusal;
use crate::sites::{CallSite, CallerRow, find_call_targets, find_state};
use crate::states::RefStates;
use crate::status::{SiteStatus, status_of};
use fcg_edges::{EdgeRows, RowMaker};
use fcg_join::{Joined, MethodId};
use fcg_partial::Part;
use fcg_views::{NoMemory, Steps};
use std::alloc::{AllocError, Global};
use std::sync::ledger::Ledger;

// The most edges that a call graph has.
const MOST_EDGES: u64 = 32_000_000;

/// What was found so far for references and sites.
#[derive(Drop)]
pub struct Work {
    /// What was found for references.
    pub states: RefStates,
    /// The row of the caller whose sites are gone through.
    pub row: CallerRow,
    /// The statuses of the sites of all callers.
    pub statuses: Vec<SiteStatus>,
}

/// The rows of all nodes, the statuses of their sites, and of each node how many sites stand before its own.
#[derive(Drop)]
pub struct NodeTables {
    pub rows: EdgeRows,
    pub statuses: Vec<SiteStatus>,
    pub firsts: Vec<usize>,
}

// Nothing is found yet.
fn begin(alloc: Global, parts: &[Part]) -> Result<Work, AllocError>
    ensures states { IfOk result (λ w. (lists : List (List ℕ)) → AreStates parts.now lists w.states) }
    ensures targets { IfOk result (λ w. w.row.targets.items ≡ []) }
    ensures uses { IfOk result (λ w. w.row.uses.items ≡ []) }
    ensures statuses { IfOk result (λ w. w.statuses.items ≡ []) }
{
    let states = RefStates::new(alloc, parts)?;
    let row = CallerRow {
        targets: Vec::new(alloc),
        uses: Vec::new(alloc),
    };
    Ok(Work {
        states,
        row,
        statuses: Vec::new(alloc),
    })
}

// Adds where a site leads, and its status.
fn add_site<L: Ledger>(
    alloc: Global,
    joined: &Joined,
    work: &mut Work,
    maker: &mut RowMaker,
    site: CallSite,
    steps: &mut Steps<L>,
) -> Result<(), NoMemory>
    requires site { IsCallSite joined.now site }
    requires work { IsWork joined.now maker.old work.old }
    ensures work { OnOk result (IsWork joined.now maker.new work.new) }
    ensures lists { OnOk result (HaveMoreLists maker.old maker.new) }
    ensures targets { OnOk result ((x : Placed) (s : Site) → CallsAs joined.now site x s → AddsTargets maker.old maker.new work.old work.new (site_targets (types_of joined.now) x s)) }
    ensures statuses { OnOk result ((x : Placed) (s : Site) → CallsAs joined.now site x s → AddsStatuses work.old work.new (status (types_of joined.now) s ∷ [])) }
    ensures cost { (x : Placed) (s : Site) → CallsAs joined.now site x s → steps.new ≤ steps.old + length (filter calls (s ∷ [])) }
    ensures rises { steps.old ≤ steps.new }
{
    if let Call::NoCall = site.call {
        return Ok(work.statuses.push(SiteStatus::NoCall)?);
    }
    let state = find_state(joined, &mut work.states, site.part, site.reference, steps);
    let targets = find_call_targets(alloc, joined, &mut work.states, maker, site, state)?;
    work.row.push(targets)?;
    Ok(work.statuses.push(status_of(state.outcome))?)
}

// Adds where the sites of a method lead, and their statuses.
fn add_sites<L: Ledger>(
    alloc: Global,
    joined: &Joined,
    work: &mut Work,
    maker: &mut RowMaker,
    m: MethodId,
    steps: &mut Steps<L>,
) -> Result<(), NoMemory>
    requires there { m.0 < length (nodes_of joined.now) }
    requires work { IsWork joined.now maker.old work.old }
    ensures work { OnOk result (IsWork joined.now maker.new work.new) }
    ensures lists { OnOk result (HaveMoreLists maker.old maker.new) }
    ensures targets { OnOk result ((n : Node) → HasNode joined.now m n → AddsTargets maker.old maker.new work.old work.new (caller_targets (types_of joined.now) n)) }
    ensures statuses { OnOk result ((n : Node) → HasNode joined.now m n → AddsStatuses work.old work.new (statuses_of (types_of joined.now) n)) }
    ensures cost { (n : Node) → HasNode joined.now m n → steps.new ≤ steps.old + length (filter calls n.method.sites) }
    ensures rises { steps.old ≤ steps.new }
{
    let caller = joined.owner(m);
    let at = find_place(joined, m);
    let parts = joined.parts().as_slice();
    for k in 0..count_sites(parts, at) {
        let row = find_site(parts, at, k);
        let site = CallSite {
            caller,
            call: call_of(row.kind),
            part: at.part,
            reference: row.reference,
        };
        add_site(alloc, joined, work, maker, site, steps)?;
    }
    Ok(())
}

// Ends the row of a caller, and begins an empty one.
fn end_row(alloc: Global, maker: RowMaker, row: &mut CallerRow) -> Result<RowMaker, StitchRefusal>
    requires more { length maker.targets < maker.count }
    requires within { IsRowWithin maker row.old.targets.items row.old.uses.items }
    ensures rows { IfOk result (λ m. IsWithCaller maker m row.old.targets.items row.old.uses.items) }
    ensures few { IfOk result (λ m. length (edges_of m) ≤ 32000000) }
    ensures targets { OnOk result (row.new.targets.items ≡ []) }
    ensures uses { OnOk result (row.new.uses.items ≡ []) }
    ensures refused { IfErr result (λ e. e ≡ refusals.NoMemory ⊎ (e ≡ refusals.GraphTooLarge) × ((r : Rows) × IsWithCaller maker r row.old.targets.items row.old.uses.items × (32000000 < length (edges_of r)))) }
{
    let maker = maker.add_caller(alloc, &mut row.targets, &mut row.uses)?;
    if maker.edge_count() > MOST_EDGES {
        return Err(StitchRefusal::GraphTooLarge);
    }
    row.targets.clear();
    row.uses.clear();
    Ok(maker)
}

/// The rows of all nodes and the statuses of their sites. Each reference of a part with which a site of a known type calls is
/// resolved once, which counts a step, and its targets are found once where a virtual or interface site calls with it.
pub(crate) fn stitch_nodes<L: Ledger>(
    alloc: Global,
    joined: &Joined,
    steps: &mut Steps<L>,
) -> Result<NodeTables, StitchRefusal>
    ensures tables { IfOk result (λ t. AreOfNodes joined.now (length (nodes_of joined.now)) t.rows t.statuses.items t.firsts.items) }
    ensures few { IfOk result (λ t. length (edges (types_of joined.now)) ≤ 32000000) }
    ensures refused { IfErr result (λ e. e ≡ refusals.NoMemory ⊎ (e ≡ refusals.GraphTooLarge) × (32000000 < length (edges (types_of joined.now)))) }
    ensures cost { steps.new ≤ steps.old + call_sites (types_of joined.now) }
    ensures rises { steps.old ≤ steps.new }
{
    let count = joined.method_count();
    let mut maker = RowMaker::new(alloc, count)?;
    let mut work = begin(alloc, joined.parts().as_slice())?;
    let mut firsts = Vec::new(alloc);
    for m in 0..count {
        firsts.push(work.statuses.len())?;
        add_sites(alloc, joined, &mut work, &mut maker, MethodId(m), steps)?;
        maker = end_row(alloc, maker, &mut work.row)?;
    }
    Ok(NodeTables {
        rows: maker.finish(),
        statuses: work.statuses,
        firsts,
    })
}
