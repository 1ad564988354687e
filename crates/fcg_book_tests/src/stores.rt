use crate::commands::{Answer, CLASS, INTERFACE, Step, keeper_of, office_over, taken};
use fcg_keeper::{FailMode, KeeperRefusal, MemoryKeeper, MemoryStores, Stores};
use std::alloc::Global;
use std::test::Fail;

fn opened<S: Stores>(alloc: Global, stores: &mut S) -> Result<S::K, KeeperRefusal> {
    stores.open(alloc, "store")
}

// Whether an open fails.
fn fails(alloc: Global, stores: &mut MemoryStores) -> bool {
    match opened(alloc, stores) {
        Err(KeeperRefusal::Failed) => true,
        _ => false,
    }
}

// Stores of which the open of a number fails, with a keeper of no records whose calls fail so.
fn stores_of(alloc: Global, open: u64, fail: &[(u64, FailMode)]) -> Result<MemoryStores, Fail> {
    let keeper = keeper_of(alloc, &[], fail)?;
    let mut opens = Vec::new(alloc);
    opens.push(open)?;
    Ok(MemoryStores::new(alloc, keeper, opens))
}

// Whether an open fails while the keeper is out, which is closed then.
fn fails_while_out(alloc: Global, stores: &mut MemoryStores) -> Result<bool, Fail> {
    let keeper = opened(alloc, stores).ok().ok_or("it opens")?;
    let fails = fails(alloc, stores);
    stores.close(keeper);
    Ok(fails)
}

// Whether the first open fails, as it is to, and one while the keeper is out, and none after that.
fn hands_one_out(alloc: Global) -> Result<bool, Fail> {
    let mut stores = stores_of(alloc, 0, &[])?;
    let first = fails(alloc, &mut stores);
    let second = fails_while_out(alloc, &mut stores)?;
    Ok(first && second && !fails(alloc, &mut stores))
}

#[test]
fn hands_one_keeper_out(rt: HostRuntime) -> Result<(), Fail> {
    assert!(rt; hands_one_out(rt.alloc())?);
    Ok(())
}

// How many of the steps are answered so between an open and a close.
fn taken_between(alloc: Global, stores: &mut MemoryStores, steps: &[Step]) -> Result<usize, Fail> {
    let keeper = opened(alloc, stores).ok().ok_or("it opens")?;
    let mut office = office_over(alloc, keeper)?;
    let taken = taken(alloc, &mut office, steps)?;
    stores.close(office.into_keeper());
    Ok(taken)
}

// What is answered each time that the keeper is out. Each time begins with a load, so the second append is call 3.
const TIMES: &[&[Step]] = &[
    &[Step(7, "g:i:1", INTERFACE, Answer::Entered(1), 1)],
    &[Step(8, "g:a:1", CLASS, Answer::Failed, 1)],
    &[
        Step(7, "g:i:1", INTERFACE, Answer::Repeated(1), 1),
        Step(8, "g:a:1", CLASS, Answer::Entered(2), 2),
    ],
];

// How many times the steps are answered so, up to the first that they aren't.
fn times_taken(alloc: Global, times: &[&[Step]]) -> Result<usize, Fail> {
    let mut stores = stores_of(alloc, 9, &[(3, FailMode::Before)])?;
    for (n, steps) in times.iter().enumerate() {
        if taken_between(alloc, &mut stores, steps)? != steps.len() {
            return Ok(n);
        }
    }
    Ok(times.len())
}

#[test]
fn gives_keepers_back(rt: HostRuntime) -> Result<(), Fail> {
    let taken = times_taken(rt.alloc(), TIMES)?;
    assert!(rt; taken == TIMES.len(), "time {taken}");
    Ok(())
}
