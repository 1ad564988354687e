//! What keeps records.
ghost use Rattle.std.specs.Prelude.{◌≡◌, ℕ, List, Option, Bool, None, false, IfSome};
ghost use Rattle.fcg_keeper.specs.Causes.{Counts};
ghost use Rattle.fcg_keeper.specs.Records.{NoneAbove, BySeq, Loads, Appends};
ghost use Rattle.fcg_keeper.specs.Script.{Script, Takes, AppendsAsScripted};
ghost use Rattle.fcg_keeper.specs.Crash.{LoadLeaves, AppendLeaves};

use crate::record::{Record, Records};
use std::alloc::{AllocError, AllocFailed, Global};

/// The most records that a load gives. It is one more than a log may have, so that a longer one is noticed.
pub const MOST_LOADED: usize = 1_000_001;

/// Why a keeper refused a call.
#[derive(Clone, Copy, Debug, PartialEq, Eq)]
pub enum KeeperRefusal {
    /// There was no memory for the call. It isn't counted.
    NoMemory,
    /// The call failed, and the keeper counted it.
    Failed,
}

impl From<AllocError> for KeeperRefusal {
    ghost use Rattle.fcg_keeper.specs.declared.keeper.KeeperRefusal.TheVariants as refusals;

    ghost from_gives = { λ _ e. e ≡ refusals.NoMemory };

    fn from(_: AllocError) -> KeeperRefusal {
        KeeperRefusal::NoMemory
    }
}

impl<T: Drop> From<AllocFailed<T>> for KeeperRefusal {
    ghost use Rattle.fcg_keeper.specs.declared.keeper.KeeperRefusal.TheVariants as refusals;

    ghost from_gives = { λ _ e. e ≡ refusals.NoMemory };

    fn from(_: AllocFailed<T>) -> KeeperRefusal {
        KeeperRefusal::NoMemory
    }
}

/// A keeper of records, by their numbers.
pub trait Keeper {
    ghost use Rattle.fcg_keeper.specs.declared.record.Record.{Record};

    /// How often the keeper has failed: a u64 that begins below its last value, never falls, and stays at its last
    /// value.
    ghost faults: { Self → ℕ };

    /// The records that it has, where it tells them now. One that tells them after a call told them before it.
    ghost told: { Self → Option (List Record) };

    /// What each call to come does, where it tells that.
    ghost script: { Self → Option Script } = { λ _. None };

    /// Whether it tells now what a crash may leave.
    ghost tells_crash: { Self → Bool } = { λ _. false };

    /// The lists of records that a later open may find if the run stops now.
    ghost survives: { Self → List Record → Type 0 } = { λ _ _. Unit {0} };

    /// The records from a number on, by their numbers, at most the first [`MOST_LOADED`]. The records stay, whatever it
    /// answers.
    fn load(&mut self, alloc: Global, from: u64) -> Result<Records, KeeperRefusal>
        ensures cause { Counts (faults self.old) (faults self.new) result }
        ensures records { Loads (told self.old) from result (told self.new) }
        ensures order { IfSome (told self.new) BySeq }
        ensures script { Takes (script self.old) result (script self.new) }
        ensures crash { LoadLeaves (survives self.old) (told self.old) (tells_crash self.old) (survives self.new) (tells_crash self.new) };

    /// Adds a record at the end, where none stands that has a number above its own. After `Failed` it may have been
    /// added or not, unless the keeper tells what a crash may leave; after `NoMemory` it wasn't.
    fn append(&mut self, alloc: Global, row: &Record) -> Result<(), KeeperRefusal>
        requires last { IfSome (told self.old) (NoneAbove row.now.seq) }
        ensures cause { Counts (faults self.old) (faults self.new) result }
        ensures records { Appends (tells_crash self.new) (told self.old) row.now result (told self.new) }
        ensures order { IfSome (told self.new) BySeq }
        ensures script { Takes (script self.old) result (script self.new) }
        ensures scripted { AppendsAsScripted (script self.old) (told self.old) row.now result (told self.new) }
        ensures crash { AppendLeaves (survives self.old) (told self.old) (tells_crash self.old) row.now result (survives self.new) (tells_crash self.new) };
}
