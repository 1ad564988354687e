//! What the indexes of a constant name.
ghost use Rattle.std.specs.Prelude.{◌≡◌, ◌∷◌, []};
ghost use Rattle.fcg_classfile.specs.ClassFile.{is_one_of, handle_tags, pair_wants, wants};
ghost use Rattle.fcg_classfile.specs.Breaks.Pool.{want_kept, wants_kept, is_kind, has_room, constant_kept, at_tag, slot_kept};
ghost use Rattle.fcg_pool.specs.Internal.Entry.{entry_constant};
ghost use Rattle.fcg_pool.specs.Internal.ConstantAt.{slot_in, IsInside};

use crate::constant::{Entry, find_constant};
use crate::pool::Pool;
use fcg_classfile::{PoolFault, PoolRule, pool_fault_at};

/// Whether a tag is one of these.
#[inline(always)]
pub fn is_one_of(tags: &[u8], tag: u8) -> bool
    ensures { result ≡ is_one_of tags.now tag }
{
    tags.contains(&tag)
}

// An index names a constant of one of these tags.
#[tactic(auto, unfolding(fcg_classfile::specs::Breaks::Pool::want_kept), using(crate::proofs::TagLemmas::want_tag))]
fn check_want(pool: &Pool<'_>, index: u16, tags: &[u8]) -> Result<(), PoolRule>
    ensures { result ≡ want_kept pool.now (index, tags.now) }
{
    let tag = pool.tag(index)?;
    if !is_one_of(tags, tag) {
        return Err(PoolRule::WrongKind);
    }
    Ok(())
}

// What a method handle of a kind may name (JVMS 4.4.8).
fn handle_tags(kind: u8) -> &'static [u8]
    ensures { result.now ≡ handle_tags kind }
{
    match kind {
        1..=4 => &[9],
        5 | 8 => &[10],
        6 | 7 => &[10, 11],
        9 => &[11],
        _ => &[],
    }
}

// The two indexes of a constant of a tag (JVMS 4.4.2, 4.4.6, 4.4.10).
fn check_pair(pool: &Pool<'_>, tag: u8, i: u16, j: u16) -> Result<(), PoolRule>
    ensures { result ≡ wants_kept pool.now (pair_wants tag i j) }
{
    match tag {
        12 => {
            check_want(pool, i, &[1])?;
            check_want(pool, j, &[1])?;
        }
        17 | 18 => check_want(pool, j, &[12])?,
        _ => {
            check_want(pool, i, &[7])?;
            check_want(pool, j, &[12])?;
        }
    }
    Ok(())
}

// The indexes of a constant.
fn check_wants(pool: &Pool<'_>, constant: Entry<'_>) -> Result<(), PoolRule>
    ensures { result ≡ wants_kept pool.now (wants (entry_constant constant.entry)) }
{
    match constant {
        Entry::Utf8(_) => Ok(()),
        Entry::Plain(_, _) => Ok(()),
        Entry::Named(_, i) => {
            check_want(pool, i, &[1])?;
            Ok(())
        }
        Entry::Pair(tag, i, j) => check_pair(pool, tag, i, j),
        Entry::Handle(kind, i) => {
            check_want(pool, i, handle_tags(kind))?;
            Ok(())
        }
    }
}

// A method handle is of a kind from 1 to 9.
fn is_kind(constant: Entry<'_>) -> bool
    ensures { result ≡ is_kind (entry_constant constant.entry) }
{
    match constant {
        Entry::Utf8(_) => true,
        Entry::Plain(_, _) => true,
        Entry::Named(_, _) => true,
        Entry::Pair(_, _, _) => true,
        Entry::Handle(kind, _) => 1 <= kind && kind <= 9,
    }
}

// The second index of a Long or Double is in the pool.
fn has_room(pool: &Pool<'_>, index: u16, constant: Entry<'_>) -> bool
    ensures { result ≡ has_room pool.now index (entry_constant constant.entry) }
{
    !constant.is_wide() || usize::from(index) < pool.len()
}

#[tactic(auto, unfolding(fcg_classfile::specs::Breaks::Pool::constant_kept))]
fn check_constant(pool: &Pool<'_>, index: u16, constant: Entry<'_>) -> Result<(), PoolRule>
    ensures { result ≡ constant_kept pool.now index (entry_constant constant.entry) }
{
    if !has_room(pool, index, constant) {
        return Err(PoolRule::BadIndex);
    }
    if !is_kind(constant) {
        return Err(PoolRule::WrongKind);
    }
    check_wants(pool, constant)
}

// A rule that an index broke, as a fault at the tag of its constant.
fn at_tag(at: usize, index: u16, kept: Result<(), PoolRule>) -> Result<(), PoolFault>
    ensures { result ≡ at_tag at index kept }
{
    match kept {
        Ok(()) => Ok(()),
        Err(rule) => Err(pool_fault_at(at, index, rule)),
    }
}

/// The indexes of the constant at a place, whose own index is given.
#[tactic(auto, unfolding(fcg_classfile::specs::Breaks::Pool::slot_kept))]
pub fn check_slot(pool: &Pool<'_>, index: u16, place: Option<usize>) -> Result<(), PoolFault>
    requires { IsInside pool.now.bytes place }
    ensures { result ≡ slot_kept pool.now index (slot_in pool.now.bytes place) }
{
    match place {
        None => Ok(()),
        Some(at) => {
            let constant = find_constant(pool.bytes(), at);
            at_tag(at, index, check_constant(pool, index, constant))
        }
    }
}
