use crate::commands::{Answer, INTERFACE, Step, keeper_of, office_over, take, taken};
use fcg_book::{Command, Entry, Office, OpenFailed, OpenRefusal};
use fcg_keeper::{FailMode, Keeper, KeeperRefusal, MemoryKeeper, Records};
use fcg_partial::RecordRule;
use std::alloc::{AllocError, Global};
use std::test::Fail;

/// The record of the import of the interface `I` for `g:i:1` with the number 7. The version stands at 4, the number at
/// 6, the kind at 14, the coordinate at 15 and the graph at 22.
pub(crate) const RECORD: [u8; 77] = [
    0x46, 0x43, 0x47, 0x4b, 0x00, 0x01, 0x00, 0x00, 0x00, 0x00, 0x00, 0x00, 0x00, 0x07, 0x01, 0x00,
    0x05, 0x67, 0x3a, 0x69, 0x3a, 0x31, 0x46, 0x43, 0x47, 0x52, 0x00, 0x01, 0x00, 0x00, 0x00, 0x02,
    0x00, 0x01, 0x49, 0x00, 0x10, 0x6a, 0x61, 0x76, 0x61, 0x2f, 0x6c, 0x61, 0x6e, 0x67, 0x2f, 0x4f,
    0x62, 0x6a, 0x65, 0x63, 0x74, 0x00, 0x00, 0x00, 0x00, 0x00, 0x00, 0x00, 0x01, 0x00, 0x00, 0x00,
    0x00, 0x06, 0x01, 0x00, 0x00, 0x00, 0x01, 0x00, 0x00, 0x00, 0x00, 0x00, 0x00,
];

const IMPORT: &[Step] = &[Step(7, "g:i:1", INTERFACE, Answer::Entered(1), 1)];

const REPEAT: &[Step] = &[Step(7, "g:i:1", INTERFACE, Answer::Repeated(1), 1)];

// The keeper after an import.
fn after_import(alloc: Global) -> Result<MemoryKeeper, Fail> {
    let mut office = office_over(alloc, keeper_of(alloc, &[], &[])?)?;
    take(alloc, &mut office, IMPORT)?;
    Ok(office.into_keeper())
}

// What a keeper has from a number on.
fn loaded<K: Keeper>(alloc: Global, keeper: &mut K, from: u64) -> Result<Records, KeeperRefusal> {
    keeper.load(alloc, from)
}

// Whether these are one record with the number 1 and this body.
fn is_only(records: &Records, body: &[u8]) -> bool {
    match records.as_slice() {
        [record] => record.seq == 1 && record.body.as_slice() == body,
        _ => false,
    }
}

// What the keeper has from a number on after an import.
fn written(alloc: Global, from: u64) -> Result<Records, Fail> {
    let mut keeper = after_import(alloc)?;
    Ok(loaded(alloc, &mut keeper, from).ok().ok_or("it loads")?)
}

// Whether the keeper has the record after an import, and none with a greater number.
fn writes_one(alloc: Global) -> Result<bool, Fail> {
    let later = written(alloc, 2)?;
    Ok(later.as_slice().is_empty() && is_only(&written(alloc, 1)?, &RECORD))
}

#[test]
fn writes_records(rt: HostRuntime) -> Result<(), Fail> {
    assert!(rt; writes_one(rt.alloc())?);
    Ok(())
}

// Whether an entry is the import that the record spells.
fn is_import(entry: &Entry) -> bool {
    match entry.command() {
        Command::Import { coordinate, graph } => {
            entry.request() == 7
                && coordinate.text() == "g:i:1".as_bytes()
                && entry.command().coordinate() == coordinate
                && graph.as_bytes() == &RECORD[22..]
        }
        Command::Withdraw { .. } => false,
    }
}

// A copy of the entry of a number, copied once more.
fn entry_of(office: &Office<MemoryKeeper>, number: u64) -> Result<Entry, Fail> {
    if number == 0 || number > office.len() {
        return Err("there is such an entry".into());
    }
    let entry = office.entry(number).ok().ok_or("no memory")?;
    Ok(entry.copy().ok().ok_or("no memory")?)
}

// Whether the first entry is the import that the record spells.
fn has_import(office: &Office<MemoryKeeper>) -> Result<bool, Fail> {
    let entry = entry_of(office, 1)?;
    Ok(is_import(&entry))
}

// Whether an office over the record has its entry, and nothing to give.
fn reads_one(alloc: Global) -> Result<bool, Fail> {
    let mut office = office_over(alloc, keeper_of(alloc, &[(1, &RECORD)], &[])?)?;
    let is_given = office.fresh().is_some();
    let is_entered = has_import(&office)?;
    let taken = taken(alloc, &mut office, REPEAT)?;
    Ok(!is_given && is_entered && taken == 1)
}

#[test]
fn reads_records(rt: HostRuntime) -> Result<(), Fail> {
    assert!(rt; reads_one(rt.alloc())?);
    Ok(())
}

// The first bytes of the record, with other bytes at places.
fn changed(alloc: Global, len: usize, changes: &[(usize, u8)]) -> Result<Vec<u8>, AllocError> {
    let mut bytes = RECORD.get(..len).unwrap_or(&[]).to_vec(alloc)?;
    for (at, byte) in changes {
        if let Some(old) = bytes.get_mut(*at) {
            *old = *byte;
        }
    }
    Ok(bytes)
}

// Whether this is the refusal, and the keeper comes back with so many records.
fn is_failure(
    alloc: Global,
    failed: OpenFailed<MemoryKeeper>,
    refusal: OpenRefusal,
    count: usize,
) -> bool {
    let mut keeper = failed.keeper;
    match loaded(alloc, &mut keeper, 0) {
        Ok(records) => failed.refusal == refusal && records.as_slice().len() == count,
        Err(_) => false,
    }
}

// Whether no office opens over the records, and this is why.
fn is_refused(
    alloc: Global,
    rows: &[(u64, &[u8])],
    fail: &[(u64, FailMode)],
    refusal: OpenRefusal,
) -> Result<bool, Fail> {
    match Office::open(alloc, keeper_of(alloc, rows, fail)?) {
        Ok(_) => Ok(false),
        Err(failed) => Ok(is_failure(alloc, failed, refusal, rows.len())),
    }
}

// How many of the first bytes there are, bytes that are changed, and the first rule that is broken then.
const FAULTS: &[(usize, &[(usize, u8)], RecordRule)] = &[
    (
        77,
        &[(3, 0x53), (5, 2), (14, 3), (18, 0x78)],
        RecordRule::Magic,
    ),
    (77, &[(5, 2), (14, 3), (18, 0x78)], RecordRule::Version),
    (77, &[(14, 3), (18, 0x78)], RecordRule::Command),
    (77, &[(18, 0x78), (22, 0)], RecordRule::Coordinate),
    (77, &[(22, 0)], RecordRule::Magic),
    (15, &[(14, 3)], RecordRule::Command),
    (0, &[], RecordRule::Cut),
    (3, &[], RecordRule::Cut),
    (5, &[], RecordRule::Cut),
    (13, &[], RecordRule::Cut),
    (14, &[], RecordRule::Cut),
    (16, &[], RecordRule::Cut),
    (21, &[(18, 0x78)], RecordRule::Cut),
    (22, &[], RecordRule::Cut),
    (76, &[], RecordRule::Cut),
    // a withdrawal with a byte more, and of a release that isn't live
    (23, &[(14, 2)], RecordRule::Trailing),
    (22, &[(14, 2)], RecordRule::Withdraw),
];

#[test]
fn refuses_bodies(rt: HostRuntime) -> Result<(), Fail> {
    for (n, (len, changes, rule)) in FAULTS.iter().enumerate() {
        let body = changed(rt.alloc(), *len, changes)?;
        let refusal = OpenRefusal::BadRecord {
            seq: 1,
            rule: *rule,
        };
        let is_refused = is_refused(rt.alloc(), &[(1, body.as_slice())], &[], refusal)?;
        assert!(rt; is_refused, "fault {n}");
    }
    Ok(())
}

// Records, the calls that fail, and why no office opens.
const REFUSALS: &[(&[(u64, &[u8])], &[(u64, FailMode)], OpenRefusal)] = &[
    (
        &[(1, &RECORD), (2, &RECORD)],
        &[],
        OpenRefusal::BadRecord {
            seq: 2,
            rule: RecordRule::Number,
        },
    ),
    (&[(2, &RECORD)], &[], OpenRefusal::Sequence { seq: 2 }),
    (
        &[(1, &[0]), (3, &RECORD)],
        &[],
        OpenRefusal::Sequence { seq: 3 },
    ),
    (
        &[(1, &[0])],
        &[],
        OpenRefusal::BadRecord {
            seq: 1,
            rule: RecordRule::Cut,
        },
    ),
    (
        &[(1, &RECORD)],
        &[(0, FailMode::Before)],
        OpenRefusal::KeeperFailed,
    ),
];

#[test]
fn refuses_stores(rt: HostRuntime) -> Result<(), Fail> {
    for (n, (rows, fail, refusal)) in REFUSALS.iter().enumerate() {
        let is_refused = is_refused(rt.alloc(), rows, fail, *refusal)?;
        assert!(rt; is_refused, "refusal {n}");
    }
    Ok(())
}
