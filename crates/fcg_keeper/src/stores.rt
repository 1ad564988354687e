//! Stores: what hands keepers out by their paths, and takes them back.
ghost use Rattle.std.specs.Prelude.{◌≡◌, ◌≤◌, [], ℕ, Option, None, Some, IfOk, OnOk, OnErr, IsErrOf};
ghost use Rattle.fcg_keeper.specs.Causes.{Counts, after_close};
ghost use Rattle.fcg_keeper.specs.Opening.{StoresTold, Opens, Closes};
ghost use Rattle.fcg_keeper.specs.Objects.{rested, IsRested};
ghost use Rattle.fcg_keeper.specs.Internal.Steps.{with_path, handed, after_open};

use crate::keeper::{Keeper, KeeperRefusal};
use crate::memory::MemoryKeeper;
use fcg_views::Bytes;
use std::alloc::Global;
use std::marker::Model;

/// What hands keepers out by their paths, and takes them back.
pub trait Stores {
    /// The keepers that they hand out.
    type K: Keeper + Drop;

    /// How often the stores have failed, and how many keepers that had failed were given back: a u64 that begins below
    /// its last value, never falls, and stays at its last value.
    ghost faults: { Self → ℕ };

    /// What they tell of the next open, where they tell it.
    ghost told: { Self → Option StoresTold } = { λ _. None };

    /// Opens the store at a path. Its keeper hasn't failed yet. [`KeeperRefusal::NoMemory`] comes where there was no memory,
    /// and [`KeeperRefusal::Failed`] where the open failed.
    fn open(&mut self, alloc: Global, path: &str) -> Result<Self::K, KeeperRefusal>
        ensures cause { Counts (faults self.old) (faults self.new) result }
        ensures fresh { IfOk result (λ keeper. Self.K.faults keeper ≡ 0) }
        ensures told { Opens Self.K.told Self.K.script (told self.old) path.now result (told self.new) };

    /// Takes a keeper back. Takes no memory, and always succeeds. The count rises where the keeper has failed.
    fn close(&mut self, keeper: Self::K)
        ensures count { faults self.new ≡ after_close (faults self.old) (Self.K.faults keeper) }
        ensures later { faults self.old ≤ faults self.new }
        ensures told { Closes Self.K.told Self.K.script (told self.old) keeper (told self.new) };
}

/// Stores with one keeper in memory, which they hand out at any path, for tests of what opens stores. An open costs the
/// bytes of its path and the length of the list of opens that fail.
#[derive(Drop)]
pub struct MemoryStores {
    held: Option<MemoryKeeper>,
    fail: Vec<u64>,
    calls: u64,
    faults: u64,
    paths: Vec<Bytes>,
}

impl Model for MemoryStores {
    ghost use Rattle.fcg_keeper.specs.Objects.{StoresState, IsRested};

    ghost Value = { StoresState };

    ghost view = { λ s. record { held = s.held; faults = s.faults; calls = s.calls; fail = s.fail.items; paths = s.paths.items } };

    ghost invariant = { λ s. IsRested s.held };
}

impl MemoryStores {
    /// Stores that hand out this keeper, where it isn't out. An open while it is out fails, and so does one whose number
    /// stands in `fail`. Opens that there was memory for are numbered from 0 up to the last `u64`, which is the number of
    /// every open from there on.
    pub fn new(alloc: Global, keeper: MemoryKeeper, fail: Vec<u64>) -> MemoryStores
        ensures { result ≡ record { held = Some (rested keeper); faults = 0; calls = 0; fail = fail.items; paths = [] } }
    {
        MemoryStores {
            held: Some(keeper.rest()),
            fail,
            calls: 0,
            faults: 0,
            paths: Vec::new(alloc),
        }
    }

    /// The paths of all opens that there was memory for, in their order.
    pub fn paths(&self) -> &[Bytes]
        ensures { result.now ≡ self.now.paths }
    {
        &self.paths
    }

    // Keeps a copy of a path.
    fn keep_path(&mut self, alloc: Global, path: &str) -> Result<(), KeeperRefusal>
        ensures ok { OnOk result (self.new ≡ with_path self.old path.now) }
        ensures err { OnErr result (self.new ≡ self.old) }
        ensures no_failure { ¬ (IsErrOf result KeeperRefusal.Failed) }
    {
        let copy = Vec::from_slice(alloc, path.as_bytes())?;
        self.paths.push(Bytes::from(copy))?;
        Ok(())
    }

    // Counts an open, and hands the keeper out unless it fails.
    fn hand_out(&mut self) -> Option<MemoryKeeper>
        ensures keeper { result ≡ handed self.old }
        ensures state { self.new ≡ after_open self.old }
        ensures rested { IsRested result }
        ensures later { self.old.faults ≤ self.new.faults }
    {
        let fails = self.fail.contains(&self.calls);
        self.calls = self.calls.saturating_add(1);
        if !fails {
            let keeper = self.held.take();
            if keeper.is_some() {
                return keeper;
            }
        }
        self.faults = self.faults.saturating_add(1);
        None
    }
}

impl Stores for MemoryStores {
    ghost use Rattle.std.specs.Prelude.{Some};
    ghost use Rattle.fcg_keeper.specs.Objects.{stores_told};

    type K = MemoryKeeper;

    ghost faults = { λ s. s.faults };

    ghost told = { λ s. Some (stores_told s) };

    fn open(&mut self, alloc: Global, path: &str) -> Result<MemoryKeeper, KeeperRefusal> {
        self.keep_path(alloc, path)?;
        self.hand_out().ok_or(KeeperRefusal::Failed)
    }

    fn close(&mut self, keeper: MemoryKeeper) {
        if keeper.has_failed() {
            self.faults = self.faults.saturating_add(1);
        }
        self.held = Some(keeper.rest());
    }
}
