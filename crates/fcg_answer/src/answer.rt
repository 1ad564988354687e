//! Answers to queries.
ghost use Rattle.std.specs.Prelude.{◌≡◌, ◌≤◌, ◌+◌, IfOk};
ghost use Rattle.fcg_answer.specs.Answer.{answer, graph_of_parts, graph_answer};

use crate::graph::print_page;
use crate::query::Query;
use fcg_book::{Ask, Book};
use fcg_json::{GraphQuery, Reply};
use fcg_partial::Parts;
use fcg_stitch::{StitchRefusal, Stitched, stitch};
use fcg_views::{NoMemory, Steps};
use std::alloc::Global;
use std::sync::ledger::Ledger;

// What a set whose releases are live is answered.
fn answer_parts<L: Ledger>(
    alloc: Global,
    at: u64,
    query: &GraphQuery,
    parts: &Parts,
    steps: &mut Steps<L>,
) -> Result<Reply, NoMemory>
    ensures { IfOk result (λ reply. reply ≡ graph_of_parts at query.now parts.now) }
{
    match stitch(alloc, parts, steps) {
        Ok(stitched) => print_page(alloc, at, query, &stitched),
        Err(StitchRefusal::SetTooLarge { bytes }) => Ok(Reply::SetTooLarge { bytes }),
        Err(StitchRefusal::GraphTooLarge) => Ok(Reply::GraphTooLarge { limit: 32_000_000 }),
        Err(StitchRefusal::NoMemory) => Err(NoMemory),
    }
}

// What is answered to a query for a graph.
fn answer_graph<L: Ledger>(
    alloc: Global,
    book: &mut Book<Stitched>,
    query: &GraphQuery,
    steps: &mut Steps<L>,
) -> Result<Reply, NoMemory>
    ensures answer { IfOk result (λ reply. reply ≡ graph_answer book.old.log query.now) }
    ensures log { book.new.log ≡ book.old.log }
{
    let at = book.len();
    if at < query.min {
        return Ok(Reply::Behind { at });
    }
    match book.ask(alloc, &query.releases)? {
        Ask::Hit { value, .. } => print_page(alloc, at, query, &value),
        Ask::Parts { parts, .. } => answer_parts(alloc, at, query, &parts, steps),
        Ask::AbsentRelease { index } => Ok(Reply::AbsentRelease {
            at,
            coordinate: query.releases.as_slice()[index as usize].clone()?,
        }),
    }
}

/// What is answered to a query by the log of a book. A query for a graph costs as much as stitching its set, and the page;
/// one for the releases as much as sorting them.
#[tactic(auto, unfolding(crate::specs::Answer::answer))]
pub fn answer_query<L: Ledger>(
    alloc: Global,
    book: &mut Book<Stitched>,
    query: &Query,
    steps: &mut Steps<L>,
) -> Result<Reply, NoMemory>
    ensures answer { IfOk result (λ reply. reply ≡ answer book.old.log query.now) }
    ensures log { book.new.log ≡ book.old.log }
{
    match query {
        Query::Graph(query) => answer_graph(alloc, book, query, steps),
        Query::Releases => Ok(Reply::Releases {
            at: book.len(),
            releases: book.releases(alloc)?,
        }),
    }
}
