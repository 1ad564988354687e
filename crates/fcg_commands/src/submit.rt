//! One submit over a store.
ghost use Rattle.std.specs.Prelude.{◌≡◌, ◌≤◌};
ghost use Rattle.fcg_keeper.specs.Causes.{Rose};
ghost use Rattle.fcg_book.specs.Entries.{coordinate_in, command_of, entry_of};
ghost use Rattle.fcg_commands.specs.Once.{store_of, submit_over, EndsOver, EndsOnce};

use crate::outcome::{Outcome, opening_outcome, submit_outcome};
use fcg_book::{Command, Office, OpenFailed};
use fcg_keeper::{Keeper, Stores};
use fcg_views::Coordinate;
use std::alloc::Global;

// Opens an office over a keeper, submits a command, and gives the keeper back.
fn submit_over<K: Keeper + Drop>(
    alloc: Global,
    keeper: K,
    request: u64,
    command: Command,
    release: Coordinate,
) -> (K, Outcome)
    requires { release ≡ coordinate_in (command_of command) }
    ensures told { EndsOver (submit_over (entry_of request command)) (store_of (K.told keeper) (K.script keeper)) result.1 (store_of (K.told result.0) (K.script result.0)) }
    ensures cause { result.1 ≡ Outcome.KeeperFailed → Rose (K.faults keeper) (K.faults result.0) }
    ensures later { K.faults keeper ≤ K.faults result.0 }
{
    match Office::open(alloc, keeper) {
        Ok(office) => {
            let mut office = office;
            let answer = office.submit(alloc, request, command);
            let outcome = submit_outcome(office.len(), release, answer);
            (office.into_keeper(), outcome)
        }
        Err(OpenFailed { keeper, refusal }) => (keeper, opening_outcome(refusal)),
    }
}

/// Opens the store at a path, submits a command, and closes the store. It costs what opening the store does, and the
/// submit.
pub fn submit_once<T: Stores>(
    alloc: Global,
    stores: &mut T,
    path: &str,
    request: u64,
    command: Command,
) -> Outcome
    ensures told { EndsOnce (submit_over (entry_of request command)) path.now (T.told stores.old) result (T.told stores.new) }
    ensures cause { result ≡ Outcome.KeeperFailed → Rose (T.faults stores.old) (T.faults stores.new) }
    ensures later { T.faults stores.old ≤ T.faults stores.new }
{
    let Ok(release) = command.coordinate().clone() else {
        return Outcome::NoMemory;
    };
    match stores.open(alloc, path) {
        Ok(keeper) => {
            let (keeper, outcome) = submit_over(alloc, keeper, request, command, release);
            stores.close(keeper);
            outcome
        }
        Err(refusal) => refusal.into(),
    }
}
