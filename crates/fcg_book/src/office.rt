//! The office, which decides commands and enters them in the log and the keeper.
ghost use Rattle.std.specs.Prelude.{◌≡◌, ◌≤◌, ◌<◌, ◌+◌, ◌++◌, ◌∷◌, [], ℕ, List, Bool, Option, length, None, Some, Ok, IfOk, IfSome, IsErrOf, drop, slice_get};
ghost use Rattle.fcg_keeper.specs.declared.record.Record.{Record};
ghost use Rattle.fcg_keeper.specs.Causes.{Rose};
ghost use Rattle.fcg_book.specs.Entries.{entry_of};
ghost use Rattle.fcg_book.specs.Log.{entry_in, records_of};
ghost use Rattle.fcg_book.specs.Accept.{first_other, decided};
ghost use Rattle.fcg_book.specs.Told.{told_of, SubmitsTold};
ghost use Rattle.fcg_book.specs.Office.{Submits, GainsFresh, Differs, Matches, state_of};
ghost use Rattle.fcg_book.specs.Internal.Steps.{Settles, SettlesTold, Enters, EntersTold, FoundAs};

use crate::answer::{Accepted, Refused};
use crate::decide::decide;
use crate::entry::{Command, Entry};
use crate::pending::Pending;
use crate::register::Register;
use fcg_keeper::{Keeper, KeeperRefusal, Record, Records};
use fcg_views::NoMemory;
use std::alloc::Global;
use std::marker::Model;

/// The office: the log of the accepted commands, over the keeper of their records.
///
/// After a failed append the office is in doubt whether the record was added. The next command begins with a load that
/// settles it. Over a keeper that tells its records, these are those of the log, and where there is a doubt its record
/// after them or not.
#[derive(Drop)]
pub struct Office<K: Keeper + Drop> {
    keeper: K,
    register: Register,
    doubt: Option<Pending>,
}

impl<K: Keeper + Drop> Model for Office<K> {
    ghost use Rattle.fcg_book.specs.Office.{Shown};
    ghost use Rattle.fcg_book.specs.Internal.Register.{doubted, IsOffice};

    ghost Value = { Shown K };

    ghost view = { λ o. record { keeper = o.keeper; log = o.register.entries; fresh = o.register.fresh; doubt = doubted o.doubt } };

    ghost invariant = { λ o. IsOffice (K.told o.keeper) (K.tells_crash o.keeper) o.register.entries o.register.spare o.doubt };
}

// What a load says of the record that a failed append may have added.
#[derive(Drop)]
enum Found {
    // It isn't there, nor any other.
    Nothing,
    // It is there alone.
    Record,
    // The first record that isn't the one that was to stand there.
    Other(Record),
}

fn find_record(loaded: Records, expected: &Record) -> Found
    ensures { FoundAs loaded (first_other expected.now loaded) result }
{
    let mut rows = loaded.into_vec().into_iter();
    match rows.next() {
        None => Found::Nothing,
        Some(first) if first != *expected => Found::Other(first),
        Some(_) => match rows.next() {
            None => Found::Record,
            Some(second) => Found::Other(second),
        },
    }
}

impl<K: Keeper + Drop> Office<K> {
    // The office over a keeper whose records are those of the entries.
    pub(crate) fn over(keeper: K, register: Register) -> Office<K>
        requires { IfSome (K.told keeper) (λ rs. rs ≡ records_of register.entries) }
        ensures { result ≡ record { keeper = keeper; log = register.entries; fresh = register.fresh; doubt = None } }
    {
        Office {
            keeper,
            register,
            doubt: None,
        }
    }

    // Settles a doubt. After a refusal the office is as before.
    fn settle(&mut self, alloc: Global) -> Result<(), Refused>
        ensures settles { (rs : Option (List Record)) × Settles (state_of self.old) rs result (state_of self.new) }
        ensures told { SettlesTold (told_of (state_of self.old) (K.told self.old.keeper) (K.script self.old.keeper)) result
            (told_of (state_of self.new) (K.told self.new.keeper) (K.script self.new.keeper)) }
        ensures gains { GainsFresh self.old.log self.old.fresh self.new.log self.new.fresh }
        ensures agrees { IfSome (K.told self.new.keeper) (λ _. ¬ (Differs result)) }
        ensures cause { IsErrOf result Refused.KeeperFailed → Rose (K.faults self.old.keeper) (K.faults self.new.keeper) }
        ensures later { K.faults self.old.keeper ≤ K.faults self.new.keeper }
    {
        let Some(pending) = self.doubt.take() else {
            return Ok(());
        };
        match self.keeper.load(alloc, pending.row().seq) {
            Ok(loaded) => match find_record(loaded, pending.row()) {
                Found::Nothing => Ok(()),
                Found::Record => {
                    self.register.add(pending);
                    Ok(())
                }
                Found::Other(found) => {
                    self.doubt = Some(pending);
                    Err(Refused::StoreDiffers { found })
                }
            },
            Err(refusal) => {
                self.doubt = Some(pending);
                Err(refusal.into())
            }
        }
    }

    // Enters a command. Where the keeper fails, the office is in doubt.
    fn enter(&mut self, alloc: Global, request: u64, command: Command) -> Result<Accepted, Refused>
        requires sure { self.old.doubt ≡ None }
        requires decided { decided self.old.log (entry_of request command) ≡ Ok None }
        ensures enters { (passed : Bool) × Enters self.old.log (entry_of request command) passed result (state_of self.new) }
        ensures told { EntersTold (told_of (state_of self.old) (K.told self.old.keeper) (K.script self.old.keeper)) (entry_of request command) result
            (told_of (state_of self.new) (K.told self.new.keeper) (K.script self.new.keeper)) }
        ensures gains { GainsFresh self.old.log self.old.fresh self.new.log self.new.fresh }
        ensures agrees { ¬ (Differs result) }
        ensures cause { IsErrOf result Refused.KeeperFailed → Rose (K.faults self.old.keeper) (K.faults self.new.keeper) }
        ensures later { K.faults self.old.keeper ≤ K.faults self.new.keeper }
    {
        let entry = self.register.log().len() + 1;
        let pending = Pending::new(alloc, entry, request, command)?;
        self.register.reserve()?;
        match self.keeper.append(alloc, pending.row()) {
            Ok(()) => {
                self.register.add(pending);
                Ok(Accepted::Entered { entry })
            }
            Err(KeeperRefusal::Failed) => {
                self.doubt = Some(pending);
                Err(Refused::KeeperFailed)
            }
            Err(KeeperRefusal::NoMemory) => Err(Refused::NoMemory),
        }
    }

    /// Decides a command, and enters it where nothing else answers it. After a failed append the records after the log's
    /// are loaded first. It costs the command's bytes, a look-up in maps, and no walk over the log.
    pub fn submit(
        &mut self,
        alloc: Global,
        request: u64,
        command: Command,
    ) -> Result<Accepted, Refused>
        ensures accepts { (rs : Option (List Record)) × (passed : Bool) × Submits (state_of self.old) (entry_of request command) rs passed result (state_of self.new) }
        ensures told { SubmitsTold (told_of (state_of self.old) (K.told self.old.keeper) (K.script self.old.keeper)) (entry_of request command) result
            (told_of (state_of self.new) (K.told self.new.keeper) (K.script self.new.keeper)) }
        ensures gains { GainsFresh self.old.log self.old.fresh self.new.log self.new.fresh }
        ensures agrees { IfSome (K.told self.new.keeper) (λ _. ¬ (Differs result)) }
        ensures cause { IsErrOf result Refused.KeeperFailed → Rose (K.faults self.old.keeper) (K.faults self.new.keeper) }
        ensures later { K.faults self.old.keeper ≤ K.faults self.new.keeper }
    {
        self.settle(alloc)?;
        match decide(&self.register, request, &command)? {
            Some(answer) => Ok(answer),
            None => self.enter(alloc, request, command),
        }
    }

    /// How many entries the log has. Takes no memory.
    pub fn len(&self) -> u64
        ensures { result ≡ length self.now.log }
    {
        self.register.log().len()
    }

    /// A copy of the entry of a number, which shares its graph.
    pub fn entry(&self, number: u64) -> Result<Entry, NoMemory>
        requires { (1 ≤ number) × (number ≤ length self.now.log) }
        ensures { IfOk result (λ entry. entry_in self.now.log number ≡ Some entry) }
    {
        match self.register.log().entry(number) {
            Some(entry) => entry.copy(),
            None => unreachable!(),
        }
    }

    /// What the records of a keeper that tells them are to the log. Takes no memory, and does nothing else.
    pub fn tell_records(&self)
        ensures { IfSome (K.told self.now.keeper) (Matches (K.tells_crash self.now.keeper) self.now.log self.now.doubt) }
    {
        let _ = &self.keeper;
    }

    /// The next of the entries since the office was opened that was not given yet. Takes no memory.
    pub fn fresh(&mut self) -> Option<Entry>
        ensures given { result ≡ slice_get self.old.fresh 0 }
        ensures fresh { self.new.fresh ≡ drop 1 self.old.fresh }
        ensures state { state_of self.new ≡ state_of self.old }
        ensures keeper { self.new.keeper ≡ self.old.keeper }
    {
        self.register.give()
    }

    /// The keeper, with its records and its count. Takes no memory.
    pub fn into_keeper(self) -> K
        ensures { result ≡ self.keeper }
    {
        self.keeper
    }
}
