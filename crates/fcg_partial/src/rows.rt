//! The rows of a type that keep no place: its superclass, interfaces and fields, and the sites of its methods. Each
//! reader answers where the item ends, and marks the numbers in it.
ghost use Rattle.std.specs.Prelude.{◌≡◌, ◌≤◌, ◌+◌, ℕ, length, IfOk};
ghost use Rattle.fcg_partial.specs.Reading.{kind_of, kind_at, site_at, field_at, interface_at};
ghost use Rattle.fcg_partial.specs.Graph.{super_uses, field_uses};
ghost use Rattle.fcg_partial.specs.Internal.UsedNumbers.{Passes, super_read, one_use, interfaces_uses, interfaces_read, fields_uses, fields_read, site_target, sites_targets, sites_read};

use crate::fault::{RecordFault, RecordRule, fault_at};
use crate::marks::read_index;
use crate::number::{read_u1, read_u2, read_u4};
use fcg_views::{HandleKind, SiteKind};

// The number that stands for no superclass.
pub(crate) const NO_SUPERCLASS: u32 = 0xffff_ffff;

// The kind of a byte.
#[tactic(auto, unfolding(crate::specs::Reading::kind_of))]
pub(crate) fn kind_of(byte: u8) -> Option<SiteKind>
    ensures { result ≡ kind_of byte }
{
    match byte {
        0 => Some(SiteKind::Virtual),
        1 => Some(SiteKind::Interface),
        2 => Some(SiteKind::Special),
        3 => Some(SiteKind::Static),
        4 => Some(SiteKind::New),
        5 => Some(SiteKind::StaticField),
        0x15 => Some(SiteKind::Handle(HandleKind::K5)),
        0x16 => Some(SiteKind::Handle(HandleKind::K6)),
        0x17 => Some(SiteKind::Handle(HandleKind::K7)),
        0x18 => Some(SiteKind::Handle(HandleKind::K8)),
        0x19 => Some(SiteKind::Handle(HandleKind::K9)),
        _ => None,
    }
}

// The superclass at a place.
#[tactic(auto, unfolding(crate::specs::Reading::super_at))]
pub(crate) fn read_super(bytes: &[u8], at: usize, used: &mut [bool]) -> Result<usize, RecordFault>
    requires { at ≤ length bytes.now }
    ensures value { Passes super_uses (super_read bytes.now (length used.old) at) used.old used.new result }
    ensures inside { IfOk result (λ after. (after ≡ at + 4) × (after ≤ length bytes.now)) }
{
    if read_u4(bytes, at)? == NO_SUPERCLASS {
        return Ok(at + 4);
    }
    read_index(bytes, at, used)?;
    Ok(at + 4)
}

// The interface at a place.
#[tactic(auto, unfolding(crate::specs::Reading::interface_at))]
fn read_interface(bytes: &[u8], at: usize, used: &mut [bool]) -> Result<usize, RecordFault>
    requires { at ≤ length bytes.now }
    ensures value { (k : ℕ) → Passes one_use (interface_at bytes.now (length used.old) k at) used.old used.new result }
    ensures forward { IfOk result (λ after. at ≤ after) }
    ensures inside { IfOk result (λ after. after ≤ length bytes.now) }
{
    read_index(bytes, at, used)?;
    Ok(at + 4)
}

// So many interfaces.
pub(crate) fn read_interfaces(
    bytes: &[u8],
    count: u16,
    at: usize,
    used: &mut [bool],
) -> Result<usize, RecordFault>
    requires { at ≤ length bytes.now }
    ensures value { Passes interfaces_uses (interfaces_read bytes.now (length used.old) count at) used.old used.new result }
    ensures forward { IfOk result (λ after. at ≤ after) }
    ensures inside { IfOk result (λ after. after ≤ length bytes.now) }
{
    let mut place = at;
    for _ in 0..count {
        place = read_interface(bytes, place, used)?;
    }
    Ok(place)
}

// The field at a place.
#[tactic(auto, unfolding(crate::specs::Reading::field_at))]
fn read_field(bytes: &[u8], at: usize, used: &mut [bool]) -> Result<usize, RecordFault>
    requires { at ≤ length bytes.now }
    ensures value { (k : ℕ) → Passes field_uses (field_at bytes.now (length used.old) k at) used.old used.new result }
    ensures forward { IfOk result (λ after. at ≤ after) }
    ensures inside { IfOk result (λ after. after ≤ length bytes.now) }
{
    let _name = read_index(bytes, at, used)?;
    let _desc = read_index(bytes, at + 4, used)?;
    let _flags = read_u2(bytes, at + 4 + 4)?;
    Ok(at + 4 + 4 + 2)
}

// So many fields.
pub(crate) fn read_fields(
    bytes: &[u8],
    count: u16,
    at: usize,
    used: &mut [bool],
) -> Result<usize, RecordFault>
    requires { at ≤ length bytes.now }
    ensures value { Passes fields_uses (fields_read bytes.now (length used.old) count at) used.old used.new result }
    ensures forward { IfOk result (λ after. at ≤ after) }
    ensures inside { IfOk result (λ after. after ≤ length bytes.now) }
{
    let mut place = at;
    for _ in 0..count {
        place = read_field(bytes, place, used)?;
    }
    Ok(place)
}

// The kind whose byte stands at a place.
fn read_kind(bytes: &[u8], at: usize) -> Result<SiteKind, RecordFault>
    requires { at ≤ length bytes.now }
    ensures value { result ≡ kind_at bytes.now at }
    ensures inside { IfOk result (λ kind. at + 1 ≤ length bytes.now) }
{
    let byte = read_u1(bytes, at)?;
    match kind_of(byte) {
        Some(kind) => Ok(kind),
        None => Err(fault_at(at, RecordRule::Kind)),
    }
}

// The site at a place. Its reference is marked.
#[tactic(auto, unfolding(crate::specs::Reading::site_at))]
fn read_site(bytes: &[u8], at: usize, used: &mut [bool]) -> Result<usize, RecordFault>
    requires { at ≤ length bytes.now }
    ensures value { (k : ℕ) → Passes site_target (site_at bytes.now (length used.old) k at) used.old used.new result }
    ensures forward { IfOk result (λ after. at ≤ after) }
    ensures inside { IfOk result (λ after. after ≤ length bytes.now) }
{
    let _pc = read_u2(bytes, at)?;
    let _kind = read_kind(bytes, at + 2)?;
    let _reference = read_index(bytes, at + 2 + 1, used)?;
    Ok(at + 2 + 1 + 4)
}

// So many sites.
pub(crate) fn read_sites(
    bytes: &[u8],
    count: u32,
    at: usize,
    used: &mut [bool],
) -> Result<usize, RecordFault>
    requires { at ≤ length bytes.now }
    ensures value { Passes sites_targets (sites_read bytes.now (length used.old) count at) used.old used.new result }
    ensures forward { IfOk result (λ after. at ≤ after) }
    ensures inside { IfOk result (λ after. after ≤ length bytes.now) }
{
    let mut place = at;
    for _ in 0..count {
        place = read_site(bytes, place, used)?;
    }
    Ok(place)
}
