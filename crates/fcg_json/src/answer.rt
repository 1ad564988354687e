//! The values of answers.
ghost use Rattle.std.specs.Prelude.{◌≡◌, ℕ, List, IfOk, map};
ghost use Rattle.serde_json.specs.Data.{Data, array};
ghost use Rattle.serde_json.specs.View.{view, items_of};
ghost use Rattle.fcg_views.specs.Set.{releases_of};
ghost use Rattle.fcg_json.specs.Reply.{command_data, releases_data, page_data, Totals};

use crate::reply::CommandOutcome;
use crate::row::texts_value;
use fcg_views::Set;
use serde_json::{Value, json};
use std::alloc::{AllocError, Global};

// What became of a command.
#[tactic(auto, unfolding(crate::specs::Reply::command_data))]
pub(crate) fn command_value(
    alloc: Global,
    at: u64,
    entry: u64,
    outcome: CommandOutcome,
) -> Result<Value, AllocError>
    ensures { IfOk result (λ v. view v ≡ command_data at entry outcome) }
{
    let outcome = outcome.name();
    json!(in alloc; {"at": at, "entry": entry, "outcome": outcome})
}

// The live releases.
#[tactic(auto, unfolding(crate::specs::Reply::releases_data))]
pub(crate) fn releases_value(alloc: Global, at: u64, releases: &Set) -> Result<Value, AllocError>
    ensures { IfOk result (λ v. view v ≡ releases_data at (releases_of releases.now)) }
{
    let list = texts_value(alloc, releases.as_slice())?;
    json!(in alloc; {"at": at, "releases": list})
}

// How many of each kind a graph has.
#[derive(Clone, Copy)]
pub(crate) struct Counts {
    pub(crate) edges: u64,
    pub(crate) failed: u64,
    pub(crate) nodes: u32,
    pub(crate) phantoms: u64,
}

// A page of a graph, of which this is the list of its rows.
#[tactic(auto, unfolding(crate::specs::Reply::page_data))]
pub(crate) fn page_value(
    alloc: Global,
    at: u64,
    counts: Counts,
    from: u64,
    part: &str,
    rows: Value,
) -> Result<Value, AllocError>
    ensures { (list : List Data) → view rows ≡ array (items_of list) → IfOk result (λ v. view v ≡ page_data at (record { edges = counts.edges; failed = counts.failed; nodes = counts.nodes; phantoms = counts.phantoms }) from part.now list) }
{
    let Counts {
        edges,
        failed,
        nodes,
        phantoms,
    } = counts;
    json!(in alloc; {"at": at, "edges": edges, "failed": failed, "from": from, "nodes": nodes, "part": part, "phantoms": phantoms, "rows": rows})
}
