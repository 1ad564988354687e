//! How an office is opened: the records of its keeper are read as a log.
ghost use Rattle.std.specs.Prelude.{◌≡◌, ◌≤◌, [], length, Err, IfOk, IsErrOf};
ghost use Rattle.fcg_keeper.specs.Causes.{Rose};
ghost use Rattle.fcg_book.specs.Entries.{command_of};
ghost use Rattle.fcg_book.specs.Spelling.{entry_text};
ghost use Rattle.fcg_book.specs.Opening.{in_sequence, can_stand, fits_log, next_entry, log_after, opened};
ghost use Rattle.fcg_book.specs.Opened.{keeper_in, log_in, BeginsAnew, OpensOver, OpensTold, OpensScripted};
ghost use Rattle.fcg_book.specs.Internal.Restored.{Restores, Reads, IsReadFrom};

use crate::decide::content_len;
use crate::entry::{Command, Entry};
use crate::log::{MOST_ENTRIES, MOST_RELEASE_BYTES, MOST_STORE_BYTES};
use crate::office::Office;
use crate::read::read_entry;
use crate::register::Register;
use fcg_grammar::ReadError;
use fcg_keeper::{Keeper, KeeperRefusal, Record};
use fcg_partial::RecordRule;
use std::alloc::Global;

/// Why no office could be opened.
#[derive(Clone, Copy, Debug, PartialEq, Eq)]
pub enum OpenRefusal {
    /// There was no memory.
    NoMemory,
    /// The keeper failed, and counted it.
    KeeperFailed,
    /// The first record whose number isn't its place from 1. It is looked for in all records before the first is read.
    Sequence { seq: u64 },
    /// The first record that breaks a rule.
    BadRecord { seq: u64, rule: RecordRule },
}

/// The keeper that no office could be opened over, and why.
#[derive(Drop)]
pub struct OpenFailed<K> {
    pub keeper: K,
    pub refusal: OpenRefusal,
}

impl From<KeeperRefusal> for OpenRefusal {
    ghost use Rattle.fcg_book.specs.Opened.{open_refused_by};

    ghost from_gives = { λ refusal e. e ≡ open_refused_by refusal };

    fn from(refusal: KeeperRefusal) -> OpenRefusal {
        match refusal {
            KeeperRefusal::NoMemory => OpenRefusal::NoMemory,
            KeeperRefusal::Failed => OpenRefusal::KeeperFailed,
        }
    }
}

// Each record has its place from 1 as its number.
fn check_sequence(records: &[Record]) -> Result<(), OpenRefusal>
    ensures value { result ≡ in_sequence 1 records.now }
    ensures no_failure { ¬ (IsErrOf result OpenRefusal.KeeperFailed) }
{
    let mut last = 0;
    for row in records {
        if row.seq == 0 || row.seq - 1 != last {
            return Err(OpenRefusal::Sequence { seq: row.seq });
        }
        last = row.seq;
    }
    Ok(())
}

// A withdrawal names a release that is live.
fn can_stand(register: &Register, command: &Command) -> bool
    ensures { result ≡ can_stand register.now.entries (command_of command.now) }
{
    match command {
        Command::Import { .. } => true,
        Command::Withdraw { coordinate } => register.log().live(coordinate).is_some(),
    }
}

// The rules that come after a record was read whole.
fn check_fits(register: &Register, entry: &Entry, size: u64) -> Result<(), RecordRule>
    requires { size ≡ length (entry_text entry.now) }
    ensures { result ≡ fits_log register.now.entries entry.now }
{
    if register.number_of(entry.request()).is_some() {
        return Err(RecordRule::Number);
    }
    if !can_stand(register, entry.command()) {
        return Err(RecordRule::Withdraw);
    }
    let fits = register.log().len() < MOST_ENTRIES
        && size <= MOST_STORE_BYTES - register.bytes()
        && content_len(entry.command()) <= MOST_RELEASE_BYTES;
    if !fits {
        return Err(RecordRule::Limit);
    }
    Ok(())
}

// Reads a record as the next entry, and adds it.
fn restore_next(alloc: Global, register: &mut Register, row: &Record) -> Result<(), OpenRefusal>
    requires { register.old.fresh ≡ [] }
    ensures next { Restores register.old.entries row.now result register.new.entries }
    ensures fresh { register.new.fresh ≡ [] }
    ensures no_failure { ¬ (IsErrOf result OpenRefusal.KeeperFailed) }
{
    let body = row.body.as_slice();
    let entry = match read_entry(alloc, body) {
        Ok(entry) => entry,
        Err(ReadError::NoMemory) => return Err(OpenRefusal::NoMemory),
        Err(ReadError::Fault(rule)) => return Err(OpenRefusal::BadRecord { seq: row.seq, rule }),
    };
    let size = body.len() as u64;
    if let Err(rule) = check_fits(register, &entry, size) {
        return Err(OpenRefusal::BadRecord { seq: row.seq, rule });
    }
    if register.restore(entry, size).is_err() {
        return Err(OpenRefusal::NoMemory);
    }
    Ok(())
}

// The log that records spell, or the first fault.
fn read_log(alloc: Global, records: &[Record]) -> Result<Register, OpenRefusal>
    ensures reads { Reads (opened records.now) result }
    ensures back { IfOk result (λ register. IsReadFrom records.now register.entries) }
    ensures no_failure { ¬ (IsErrOf result OpenRefusal.KeeperFailed) }
{
    check_sequence(records)?;
    let mut register = Register::new(alloc);
    for row in records {
        restore_next(alloc, &mut register, row)?;
    }
    Ok(register)
}

impl<K: Keeper + Drop> Office<K> {
    /// The office over a keeper: its log is what the records say. The keeper comes back where they have a fault, it
    /// fails, or there is no memory. It costs the bytes of the records, and a look-up in maps for each.
    pub fn open(alloc: Global, keeper: K) -> Result<Office<K>, OpenFailed<K>>
        ensures log { OpensOver (log_in result) }
        ensures records { OpensTold (K.told keeper) (log_in result) (K.told (keeper_in result)) }
        ensures script { OpensScripted (K.script keeper) (K.told (keeper_in result)) (log_in result) (K.script (keeper_in result)) }
        ensures anew { BeginsAnew result }
        ensures cause { log_in result ≡ Err OpenRefusal.KeeperFailed → Rose (K.faults keeper) (K.faults (keeper_in result)) }
        ensures later { K.faults keeper ≤ K.faults (keeper_in result) }
    {
        let mut keeper = keeper;
        match keeper.load(alloc, 0) {
            Ok(records) => match read_log(alloc, records.as_slice()) {
                Ok(register) => Ok(Office::over(keeper, register)),
                Err(refusal) => Err(OpenFailed { keeper, refusal }),
            },
            Err(refusal) => Err(OpenFailed {
                keeper,
                refusal: refusal.into(),
            }),
        }
    }
}
