//! A keeper in memory, whose calls fail where a list says so. Its contracts tell all that a call does.
ghost use Rattle.std.specs.Prelude.{◌≡◌, ◌≤◌, ◌<◌, ◌^◌, IfOk, OnOk, OnErr, IsErrOf, not, ◌==◌};
ghost use Rattle.fcg_keeper.specs.Records.{BySeq, NoneAbove, loaded};
ghost use Rattle.fcg_keeper.specs.Objects.{mode_of, rested};
ghost use Rattle.fcg_keeper.specs.Internal.Steps.{after_call, after_fault, with_record, with_one};

use crate::keeper::{Keeper, KeeperRefusal, MOST_LOADED};
use crate::record::{Record, Records};
use std::alloc::{AllocError, Global};
use std::marker::Model;

/// How a call of a keeper in memory fails.
#[derive(Clone, Copy, Debug, PartialEq, Eq)]
pub enum FailMode {
    /// Nothing is done.
    Before,
    /// The call is done, and then it fails.
    After,
}

/// A keeper in memory, for tests of what keeps records. A call goes over the list of calls that fail. A load goes over
/// all records too, and costs besides the bytes of those that it gives; an append costs the bytes of its record.
#[derive(Drop)]
pub struct MemoryKeeper {
    records: Vec<Record>,
    fail: Vec<(u64, FailMode)>,
    calls: u64,
    faults: u64,
}

impl Model for MemoryKeeper {
    ghost use Rattle.std.specs.Prelude.{◌≤◌, ◌^◌, ◌<◌};
    ghost use Rattle.fcg_keeper.specs.Objects.{KeeperState};
    ghost use Rattle.fcg_keeper.specs.Records.{BySeq};

    ghost Value = { KeeperState };

    ghost view = { λ k. record { records = k.records.items; faults = k.faults; calls = k.calls; fail = k.fail.items } };

    ghost invariant = { λ k. BySeq k.records.items };
}

fn copied(row: &Record) -> Result<Record, AllocError>
    ensures { IfOk result (λ copy. copy ≡ row.now) }
{
    row.clone()
}

// A record more, where there is room and its number is high enough.
fn copy_one(out: &mut Vec<Record>, row: &Record, from: u64) -> Result<(), AllocError>
    ensures { OnOk result (out.new.items ≡ with_one from out.old.items row.now) }
{
    if out.len() < MOST_LOADED && from <= row.seq {
        out.push(copied(row)?)?;
    }
    Ok(())
}

// The records from a number on.
fn copy_from(alloc: Global, records: &[Record], from: u64) -> Result<Vec<Record>, AllocError>
    ensures { IfOk result (λ out. out.items ≡ loaded from records.now) }
{
    let mut out = Vec::new(alloc);
    for row in records {
        copy_one(&mut out, row, from)?;
    }
    Ok(out)
}

impl MemoryKeeper {
    /// A keeper of these records, none of which has a number above that of a later one. The calls whose numbers stand in
    /// `fail` fail, and of two ways for one number the first counts. Calls are numbered from 0 up to the last `u64`,
    /// which is the number of every call from there on.
    pub fn new(records: Records, fail: Vec<(u64, FailMode)>) -> MemoryKeeper
        requires { BySeq records }
        ensures { result ≡ record { records = records; faults = 0; calls = 0; fail = fail.items } }
    {
        MemoryKeeper {
            records: records.into_vec(),
            fail,
            calls: 0,
            faults: 0,
        }
    }

    // Counts a call, and says how it fails.
    fn count_call(&mut self) -> Option<FailMode>
        ensures mode { result ≡ mode_of self.old.fail self.old.calls }
        ensures state { self.new ≡ after_call self.old }
        ensures order { BySeq self.new.records }
        ensures small { self.old.calls < 2 ^ 64 }
    {
        let call = self.calls;
        self.calls = self.calls.saturating_add(1);
        self.fail
            .iter()
            .find(|fail| fail.0 == call)
            .map(|fail| fail.1)
    }

    // The keeper with no fault counted, its calls numbered on.
    pub(crate) fn rest(self) -> MemoryKeeper
        ensures { result ≡ rested self }
    {
        MemoryKeeper { faults: 0, ..self }
    }

    // Whether a call failed.
    pub(crate) fn has_failed(&self) -> bool
        ensures { result ≡ not (self.now.faults == 0) }
    {
        self.faults != 0
    }

    // Adds a copy of a record.
    fn add(&mut self, row: &Record) -> Result<(), KeeperRefusal>
        requires { NoneAbove row.now.seq self.old.records }
        ensures no_failure { ¬ (IsErrOf result KeeperRefusal.Failed) }
        ensures ok { OnOk result (self.new ≡ with_record self.old row.now) }
        ensures err { OnErr result (self.new ≡ self.old) }
        ensures order { BySeq self.new.records }
    {
        self.records.push(copied(row)?)?;
        Ok(())
    }

    fn count_fault(&mut self)
        ensures state { self.new ≡ after_fault self.old }
        ensures order { BySeq self.new.records }
        ensures later { self.old.faults ≤ self.new.faults }
    {
        self.faults = self.faults.saturating_add(1);
    }
}

impl Keeper for MemoryKeeper {
    ghost use Rattle.std.specs.Prelude.{Some};
    ghost use Rattle.fcg_keeper.specs.Objects.{script_of};

    ghost faults = { λ k. k.faults };

    ghost told = { λ k. Some k.records };

    ghost script = { λ k. Some (script_of k) };

    fn load(&mut self, alloc: Global, from: u64) -> Result<Records, KeeperRefusal> {
        if self.count_call().is_some() {
            self.count_fault();
            return Err(KeeperRefusal::Failed);
        }
        Ok(copy_from(alloc, &self.records, from)?.into())
    }

    fn append(&mut self, _alloc: Global, row: &Record) -> Result<(), KeeperRefusal> {
        match self.count_call() {
            None => self.add(row),
            Some(FailMode::Before) => {
                self.count_fault();
                Err(KeeperRefusal::Failed)
            }
            Some(FailMode::After) => {
                self.add(row)?;
                self.count_fault();
                Err(KeeperRefusal::Failed)
            }
        }
    }
}
