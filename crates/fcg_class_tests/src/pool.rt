use fcg_grammar::ReadError;
use fcg_pool::{Pool, PoolFault, PoolRule, RefSpan};
use std::alloc::{AllocError, Global};
use std::test::Fail;

// A Long at 1, a Double at 3, `A` at 5, its Class at 6, `f` at 7, `I` at 8, both at 9, and the Fieldref of these.
const WIDE: [u8; 45] = [
    0x00, 0x0b, 0x05, 0x00, 0x00, 0x00, 0x00, 0x00, 0x00, 0x00, 0x01, 0x06, 0x00, 0x00, 0x00, 0x00,
    0x00, 0x00, 0x00, 0x00, 0x01, 0x00, 0x01, 0x41, 0x07, 0x00, 0x05, 0x01, 0x00, 0x01, 0x66, 0x01,
    0x00, 0x01, 0x49, 0x0c, 0x00, 0x07, 0x00, 0x08, 0x09, 0x00, 0x06, 0x00, 0x09,
];

// Where the first n bytes of it are cut, for each n.
const CUTS: [u32; 45] = [
    0, 0, 2, 3, 3, 3, 3, 3, 3, 3, 3, 11, 12, 12, 12, 12, 12, 12, 12, 12, 20, 21, 21, 23, 24, 25,
    25, 27, 28, 28, 30, 31, 32, 32, 34, 35, 36, 36, 38, 38, 40, 41, 41, 43, 43,
];

// `a` at 1, its Class at 2, a NameAndType at 3, a Fieldref at 4, a Methodref at 5, an InterfaceMethodref at 6; and
// one constant more, which stands at 29.
const BASE: [u8; 29] = [
    0x00, 0x08, 0x01, 0x00, 0x01, 0x61, 0x07, 0x00, 0x01, 0x0c, 0x00, 0x01, 0x00, 0x01, 0x09, 0x00,
    0x02, 0x00, 0x03, 0x0a, 0x00, 0x02, 0x00, 0x03, 0x0b, 0x00, 0x02, 0x00, 0x03,
];

// A constant that stands there, the place of one of its indexes, an index that it may be, and one of another kind.
const INDEXES: &[(&[u8], usize, u8, u8)] = &[
    (b"\x07\x00\x01", 2, 1, 2),
    (b"\x08\x00\x01", 2, 1, 2),
    (b"\x10\x00\x01", 2, 1, 2),
    (b"\x13\x00\x01", 2, 1, 2),
    (b"\x14\x00\x01", 2, 1, 2),
    (b"\x09\x00\x02\x00\x03", 2, 2, 1),
    (b"\x09\x00\x02\x00\x03", 4, 3, 1),
    (b"\x0a\x00\x02\x00\x03", 2, 2, 1),
    (b"\x0a\x00\x02\x00\x03", 4, 3, 1),
    (b"\x0b\x00\x02\x00\x03", 2, 2, 1),
    (b"\x0b\x00\x02\x00\x03", 4, 3, 1),
    (b"\x0c\x00\x01\x00\x01", 2, 1, 2),
    (b"\x0c\x00\x01\x00\x01", 4, 1, 2),
    (b"\x11\x00\x00\x00\x03", 4, 3, 1),
    (b"\x12\x00\x00\x00\x03", 4, 3, 1),
    (b"\x0f\x01\x00\x04", 3, 4, 5),
    (b"\x0f\x02\x00\x04", 3, 4, 6),
    (b"\x0f\x03\x00\x04", 3, 4, 5),
    (b"\x0f\x04\x00\x04", 3, 4, 6),
    (b"\x0f\x05\x00\x05", 3, 5, 6),
    (b"\x0f\x06\x00\x05", 3, 5, 4),
    (b"\x0f\x06\x00\x06", 3, 6, 1),
    (b"\x0f\x07\x00\x05", 3, 5, 4),
    (b"\x0f\x07\x00\x06", 3, 6, 1),
    (b"\x0f\x08\x00\x05", 3, 5, 6),
    (b"\x0f\x09\x00\x06", 3, 6, 5),
    (b"\x0f\x09\x00\x06", 3, 6, 4),
];

// The base with one constant more.
fn with_constant(alloc: Global, constant: &[u8]) -> Result<Vec<u8>, AllocError> {
    [BASE.as_slice(), constant].concat(alloc)
}

fn pool_of(alloc: Global, bytes: &[u8]) -> Result<Pool<'_>, Fail> {
    let (pool, _) = Pool::read(alloc, bytes, 0).ok().ok_or("it is a pool")?;
    Ok(pool)
}

// The fault of bytes that are no pool.
fn fault_in(alloc: Global, bytes: &[u8]) -> Option<PoolFault> {
    match Pool::read(alloc, bytes, 0) {
        Err(ReadError::Fault(fault)) => Some(fault),
        _ => None,
    }
}

fn is_refused(alloc: Global, bytes: &[u8], offset: u32, index: u16, rule: PoolRule) -> bool {
    let want = PoolFault {
        offset,
        index,
        rule,
    };
    fault_in(alloc, bytes) == Some(want)
}

fn is_span(span: &RefSpan<'_>, tag: u8, owner: &[u8], name: &[u8], desc: &[u8]) -> bool {
    span.tag == tag && span.owner == owner && span.name == name && span.desc == desc
}

fn has_field(pool: &Pool<'_>) -> bool {
    match pool.reference(10) {
        Ok(named) => is_span(&named, 9, b"A", b"f", b"I"),
        Err(_) => false,
    }
}

#[test]
fn two_indexes(rt: HostRuntime) -> Result<(), Fail> {
    let (pool, after) = Pool::read(rt.alloc(), &WIDE, 0).ok().ok_or("it is a pool")?;
    assert!(rt; after == 45 && pool.len() == 10 && pool.bytes().len() == 45);
    assert!(rt; has_field(&pool));
    assert!(rt; pool.class_index(6) == Ok(5) && pool.class_name(6) == Ok(b"A".as_slice()));
    assert!(rt; pool.utf8(1) == Err(PoolRule::WrongKind));
    assert!(rt;
        pool.utf8(2) == Err(PoolRule::BadIndex) && pool.utf8(11) == Err(PoolRule::BadIndex)
    );
    Ok(())
}

// Whether the Class may not name this index.
fn names_nothing(alloc: Global, index: u8) -> Result<bool, Fail> {
    let mut bytes = WIDE.to_vec(alloc)?;
    if let Some(low) = bytes.get_mut(26) {
        *low = index;
    }
    Ok(is_refused(alloc, &bytes, 24, 6, PoolRule::BadIndex))
}

#[test]
fn second_index(rt: HostRuntime) -> Result<(), Fail> {
    // the Class names the second index of the Long or the Double
    assert!(rt; names_nothing(rt.alloc(), 2)? && names_nothing(rt.alloc(), 4)?);
    // a Long with one index
    let last = b"\x00\x02\x05\x00\x00\x00\x00\x00\x00\x00\x00";
    assert!(rt; is_refused(rt.alloc(), last, 2, 1, PoolRule::BadIndex));
    Ok(())
}

// Where bytes are cut, if that is their fault.
fn cut_at(alloc: Global, bytes: &[u8]) -> Option<u32> {
    let fault = fault_in(alloc, bytes)?;
    if fault.rule == PoolRule::Cut {
        Some(fault.offset)
    } else {
        None
    }
}

#[test]
fn cut_at_each_length(rt: HostRuntime) {
    for (n, at) in CUTS.iter().enumerate() {
        assert!(rt; cut_at(rt.alloc(), &WIDE[..n]) == Some(*at), "at {n}");
    }
}

// The base with a constant more, of which one index is changed.
fn with_index(alloc: Global, constant: &[u8], place: usize, index: u8) -> Result<Vec<u8>, Fail> {
    let mut changed = constant.to_vec(alloc)?;
    if let Some(low) = changed.get_mut(place) {
        *low = index;
    }
    Ok(with_constant(alloc, &changed)?)
}

fn may_name(alloc: Global, constant: &[u8], place: usize, index: u8) -> Result<bool, Fail> {
    let bytes = with_index(alloc, constant, place, index)?;
    Ok(Pool::read(alloc, &bytes, 0).is_ok())
}

fn may_not_name(
    alloc: Global,
    constant: &[u8],
    place: usize,
    index: u8,
    rule: PoolRule,
) -> Result<bool, Fail> {
    let bytes = with_index(alloc, constant, place, index)?;
    Ok(is_refused(alloc, &bytes, 29, 7, rule))
}

#[test]
fn what_indexes_name(rt: HostRuntime) -> Result<(), Fail> {
    let alloc = rt.alloc();
    for (constant, place, right, wrong) in INDEXES {
        assert!(rt; may_name(alloc, constant, *place, *right)?, "{constant:?}");
        assert!(rt;
            may_not_name(alloc, constant, *place, *wrong, PoolRule::WrongKind)?
                && may_not_name(alloc, constant, *place, 0, PoolRule::BadIndex)?
                && may_not_name(alloc, constant, *place, 8, PoolRule::BadIndex)?,
            "{constant:?}"
        );
    }
    Ok(())
}

// Constants that no pool may have: method handles of no kind, whose index is 0; tags that no constant has; and a text
// whose second byte begins no group.
const BAD_CONSTANTS: &[(&[u8], u32, PoolRule)] = &[
    (&[15, 0, 0, 0], 29, PoolRule::WrongKind),
    (&[15, 10, 0, 0], 29, PoolRule::WrongKind),
    (&[0, 0, 1], 29, PoolRule::BadTag),
    (&[2, 0, 1], 29, PoolRule::BadTag),
    (&[13, 0, 1], 29, PoolRule::BadTag),
    (&[14, 0, 1], 29, PoolRule::BadTag),
    (&[21, 0, 1], 29, PoolRule::BadTag),
    (&[255, 0, 1], 29, PoolRule::BadTag),
    (b"\x01\x00\x02\x61\x80", 33, PoolRule::BadUtf8),
];

#[test]
fn bad_constants(rt: HostRuntime) -> Result<(), Fail> {
    for (constant, offset, rule) in BAD_CONSTANTS {
        let bytes = with_constant(rt.alloc(), constant)?;
        assert!(rt;
            is_refused(rt.alloc(), &bytes, *offset, 7, *rule),
            "{constant:?}"
        );
    }
    Ok(())
}

fn has_handle(pool: &Pool<'_>) -> bool {
    match pool.handle(7) {
        Ok((kind, named)) => kind == 6 && is_span(&named, 10, b"a", b"a", b"a"),
        Err(_) => false,
    }
}

#[test]
fn handles(rt: HostRuntime) -> Result<(), Fail> {
    let bytes = with_constant(rt.alloc(), b"\x0f\x06\x00\x05")?;
    let pool = pool_of(rt.alloc(), &bytes)?;
    assert!(rt; has_handle(&pool));
    Ok(())
}

#[test]
fn dynamic(rt: HostRuntime) -> Result<(), Fail> {
    let bytes = with_constant(rt.alloc(), b"\x12\x00\x09\x00\x03")?;
    let pool = pool_of(rt.alloc(), &bytes)?;
    assert!(rt; pool.dynamic(7) == Ok(9) && pool.dynamic(3) == Err(PoolRule::WrongKind));
    let bytes = with_constant(rt.alloc(), b"\x11\x00\x09\x00\x03")?;
    let pool = pool_of(rt.alloc(), &bytes)?;
    assert!(rt; pool.dynamic(7) == Err(PoolRule::WrongKind));
    Ok(())
}

fn is_absent(pool: &Pool<'_>, index: u16) -> bool {
    pool.handle_pair(index) == Err(PoolRule::BadIndex)
        && pool.handle_indexes(index) == Err(PoolRule::BadIndex)
}

fn has_indexes(pool: &Pool<'_>) -> bool {
    pool.handle_pair(7) == Ok((6, 5)) && pool.handle_indexes(7) == Ok(Some((6, 5)))
}

fn is_other(pool: &Pool<'_>) -> bool {
    pool.handle_pair(5) == Err(PoolRule::WrongKind) && pool.handle_indexes(5) == Ok(None)
}

#[test]
fn indexes_of_handles(rt: HostRuntime) -> Result<(), Fail> {
    let bytes = with_constant(rt.alloc(), b"\x0f\x06\x00\x05")?;
    let pool = pool_of(rt.alloc(), &bytes)?;
    // the handle, a Methodref, and indexes that name nothing
    assert!(rt;
        has_indexes(&pool) && is_other(&pool) && is_absent(&pool, 0) && is_absent(&pool, 8)
    );
    Ok(())
}
