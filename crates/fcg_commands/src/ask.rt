//! One query over a store.
ghost use Rattle.std.specs.Prelude.{◌≡◌, ◌≤◌, IfOk};
ghost use Rattle.fcg_keeper.specs.Causes.{Rose};
ghost use Rattle.fcg_answer.specs.Answer.{answer};
ghost use Rattle.fcg_commands.specs.Outcomes.{query_outcome, AnswersAs};
ghost use Rattle.fcg_commands.specs.Once.{store_of, ask_over, EndsOver, EndsOnce};

use crate::outcome::{Outcome, opening_outcome, query_outcome};
use fcg_answer::{Query, answer_query};
use fcg_book::{Book, Office, OpenFailed};
use fcg_keeper::{Keeper, Stores};
use fcg_stitch::Stitched;
use fcg_views::{NoMemory, Steps};
use std::alloc::Global;
use std::sync::ledger::Ledger;

// A book with the entries of an office, which shares their graphs.
fn copy_log<K: Keeper + Drop>(alloc: Global, office: &Office<K>) -> Result<Book<Stitched>, NoMemory>
    ensures { IfOk result (λ book. book.log ≡ office.now.log) }
{
    let mut book = Book::new(alloc)?;
    for number in 0..office.len() {
        book.reserve(1)?;
        book.post(office.entry(number + 1)?);
    }
    Ok(book)
}

// What is answered to a query by the log of an office.
fn answer_over<K: Keeper + Drop, L: Ledger>(
    alloc: Global,
    office: &Office<K>,
    query: &Query,
    steps: &mut Steps<L>,
) -> Outcome
    ensures { AnswersAs (query_outcome (answer office.now.log query.now)) result }
{
    let Ok(book) = copy_log(alloc, office) else {
        return Outcome::NoMemory;
    };
    let mut book = book;
    match answer_query(alloc, &mut book, query, steps) {
        Ok(reply) => query_outcome(reply),
        Err(_) => Outcome::NoMemory,
    }
}

// Opens an office over a keeper, answers a query, and gives the keeper back.
fn ask_over<K: Keeper + Drop, L: Ledger>(
    alloc: Global,
    keeper: K,
    query: &Query,
    steps: &mut Steps<L>,
) -> (K, Outcome)
    ensures told { EndsOver (ask_over query.now) (store_of (K.told keeper) (K.script keeper)) result.1 (store_of (K.told result.0) (K.script result.0)) }
    ensures cause { result.1 ≡ Outcome.KeeperFailed → Rose (K.faults keeper) (K.faults result.0) }
    ensures later { K.faults keeper ≤ K.faults result.0 }
{
    match Office::open(alloc, keeper) {
        Ok(office) => {
            let outcome = answer_over(alloc, &office, query, steps);
            (office.into_keeper(), outcome)
        }
        Err(OpenFailed { keeper, refusal }) => (keeper, opening_outcome(refusal)),
    }
}

/// Opens the store at a path, answers a query by its log, and closes the store. It costs what opening the store does, and
/// the answer.
pub fn ask_once<T: Stores, L: Ledger>(
    alloc: Global,
    stores: &mut T,
    path: &str,
    query: &Query,
    steps: &mut Steps<L>,
) -> Outcome
    ensures told { EndsOnce (ask_over query.now) path.now (T.told stores.old) result (T.told stores.new) }
    ensures cause { result ≡ Outcome.KeeperFailed → Rose (T.faults stores.old) (T.faults stores.new) }
    ensures later { T.faults stores.old ≤ T.faults stores.new }
{
    match stores.open(alloc, path) {
        Ok(keeper) => {
            let (keeper, outcome) = ask_over(alloc, keeper, query, steps);
            stores.close(keeper);
            outcome
        }
        Err(refusal) => refusal.into(),
    }
}
