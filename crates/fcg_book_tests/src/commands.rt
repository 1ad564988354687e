ghost use Rattle.std.specs.Prelude.{◌≡◌, IfOk};
ghost use Rattle.fcg_keeper.specs.Records.{BySeq};

use fcg_book::{Accepted, Command, Office, Refused};
use fcg_cases::views_of;
use fcg_keeper::{FailMode, MemoryKeeper, Record, Records};
use fcg_partial::PartialGraph;
use fcg_views::{Bytes, Coordinate, View, Views, is_valid};
use std::alloc::Global;
use std::sync::Arc;
use std::test::Fail;

/// A class with a method that calls itself.
pub(crate) const CLASS: &str = "class p/A static m()V [ static p/A.m()V ]";

/// An interface below `java/lang/Object`.
pub(crate) const INTERFACE: &str = "interface I";

/// What is answered to a command.
#[derive(Clone, Copy, PartialEq)]
pub(crate) enum Answer {
    Entered(u64),
    Repeated(u64),
    Standing(u64),
    Clash(u64),
    Absent,
    TooLarge(u64),
    Full,
    Failed,
    Other,
}

/// The number of a request, its release, the types of an import or none of a withdrawal, what is answered, and how many
/// entries there are then.
pub(crate) struct Step(
    pub u64,
    pub &'static str,
    pub &'static str,
    pub Answer,
    pub u64,
);

/// The coordinate of a text.
pub(crate) fn coordinate_of(alloc: Global, text: &str) -> Result<Coordinate, Fail> {
    Ok(
        Coordinate::parse(alloc, text.as_bytes())
            .ok()
            .ok_or("it is a coordinate")?,
    )
}

/// The graph of views.
pub(crate) fn graph_of(alloc: Global, views: Vec<View>) -> Result<Arc<PartialGraph>, Fail> {
    let views = Views::from(views);
    if !views.fits() || !views.as_slice().iter().all(|view| is_valid(view)) {
        return Err("the views are valid".into());
    }
    let graph = PartialGraph::from_views(alloc, views)
        .ok()
        .ok_or("no memory")?;
    Ok(Arc::new(alloc, graph)?)
}

/// The import of a release with types, or its withdrawal where there are none.
pub(crate) fn command_of(alloc: Global, coordinate: &str, types: &str) -> Result<Command, Fail> {
    let coordinate = coordinate_of(alloc, coordinate)?;
    if types.is_empty() {
        return Ok(Command::Withdraw { coordinate });
    }
    let views = views_of(alloc, types).ok().ok_or("it is in short form")?;
    Ok(Command::Import {
        coordinate,
        graph: graph_of(alloc, views)?,
    })
}

fn answer_of(submitted: Result<Accepted, Refused>) -> Answer {
    match submitted {
        Ok(Accepted::Entered { entry }) => Answer::Entered(entry),
        Ok(Accepted::Repeated { entry }) => Answer::Repeated(entry),
        Ok(Accepted::Standing { entry }) => Answer::Standing(entry),
        Err(Refused::RequestClash { entry }) => Answer::Clash(entry),
        Err(Refused::AbsentRelease) => Answer::Absent,
        Err(Refused::ReleaseTooLarge { bytes }) => Answer::TooLarge(bytes),
        Err(Refused::LogFull) => Answer::Full,
        Err(Refused::KeeperFailed) => Answer::Failed,
        Err(_) => Answer::Other,
    }
}

/// What an office answers to a command.
pub(crate) fn submitted(
    alloc: Global,
    office: &mut Office<MemoryKeeper>,
    request: u64,
    command: Command,
) -> Answer {
    answer_of(office.submit(alloc, request, command))
}

// Whether a step is answered so.
fn takes(alloc: Global, office: &mut Office<MemoryKeeper>, step: &Step) -> Result<bool, Fail> {
    let command = command_of(alloc, step.1, step.2)?;
    let answer = submitted(alloc, office, step.0, command);
    Ok(answer == step.3 && office.len() == step.4)
}

/// How many of the steps are answered so, up to the first that isn't.
pub(crate) fn taken(
    alloc: Global,
    office: &mut Office<MemoryKeeper>,
    steps: &[Step],
) -> Result<usize, Fail> {
    for (n, step) in steps.iter().enumerate() {
        if !takes(alloc, office, step)? {
            return Ok(n);
        }
    }
    Ok(steps.len())
}

/// Takes steps, each of which is answered so.
pub(crate) fn take(
    alloc: Global,
    office: &mut Office<MemoryKeeper>,
    steps: &[Step],
) -> Result<(), Fail> {
    if taken(alloc, office, steps)? != steps.len() {
        return Err("the steps are answered so".into());
    }
    Ok(())
}

fn record(alloc: Global, seq: u64, body: &[u8]) -> Result<Record, Fail>
    ensures { IfOk result (λ r. r.seq ≡ seq) }
{
    Ok(Record {
        seq,
        body: Bytes::from(body.to_vec(alloc)?),
    })
}

// At most two records, by their numbers.
fn records_of(alloc: Global, rows: &[(u64, &[u8])]) -> Result<Records, Fail>
    ensures { IfOk result BySeq }
{
    let mut records = Vec::new(alloc);
    match rows {
        [] => Ok(Records::from(records)),
        [(seq, body)] => {
            records.push(record(alloc, *seq, body)?)?;
            Ok(Records::from(records))
        }
        [(first, body), (second, other)] if *first <= *second => {
            records.push(record(alloc, *first, body)?)?;
            records.push(record(alloc, *second, other)?)?;
            Ok(Records::from(records))
        }
        _ => Err("there are two records at most, by their numbers".into()),
    }
}

/// A keeper of at most two records, whose calls fail so.
pub(crate) fn keeper_of(
    alloc: Global,
    rows: &[(u64, &[u8])],
    fail: &[(u64, FailMode)],
) -> Result<MemoryKeeper, Fail> {
    let records = records_of(alloc, rows)?;
    Ok(MemoryKeeper::new(records, fail.to_vec(alloc)?))
}

/// An office over a keeper.
pub(crate) fn office_over(
    alloc: Global,
    keeper: MemoryKeeper,
) -> Result<Office<MemoryKeeper>, Fail> {
    Ok(Office::open(alloc, keeper).ok().ok_or("it opens")?)
}

// How many of the steps are answered so over a keeper without records, whose calls fail so.
fn taken_anew(alloc: Global, fail: &[(u64, FailMode)], steps: &[Step]) -> Result<usize, Fail> {
    let mut office = office_over(alloc, keeper_of(alloc, &[], fail)?)?;
    office.tell_records();
    taken(alloc, &mut office, steps)
}

const REQUESTS: &[Step] = &[
    Step(7, "g:a:1", CLASS, Answer::Entered(1), 1),
    Step(7, "g:a:1", CLASS, Answer::Repeated(1), 1),
    Step(8, "g:a:1", CLASS, Answer::Standing(1), 1),
    Step(7, "g:b:1", CLASS, Answer::Clash(1), 1),
    Step(9, "g:a:1", "", Answer::Entered(2), 2),
    Step(7, "g:a:1", CLASS, Answer::Repeated(1), 2),
    Step(10, "g:a:1", "", Answer::Absent, 2),
];

// The first append fails, and the record was added then or not.
const AFTER: &[Step] = &[
    Step(7, "g:a:1", CLASS, Answer::Failed, 0),
    Step(7, "g:a:1", CLASS, Answer::Repeated(1), 1),
];

const BEFORE: &[Step] = &[
    Step(7, "g:a:1", CLASS, Answer::Failed, 0),
    Step(7, "g:a:1", CLASS, Answer::Entered(1), 1),
];

// The calls that fail, and what is answered. Opening is call 0.
const CASES: &[(&[(u64, FailMode)], &[Step])] = &[
    (&[], REQUESTS),
    (&[(1, FailMode::After)], AFTER),
    (&[(1, FailMode::Before)], BEFORE),
];

#[test]
fn answers_commands(rt: HostRuntime) -> Result<(), Fail> {
    for (n, (fail, steps)) in CASES.iter().enumerate() {
        let taken = taken_anew(rt.alloc(), fail, steps)?;
        assert!(rt; taken == steps.len(), "case {n}: step {taken}");
    }
    Ok(())
}
