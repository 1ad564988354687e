//! The rows of a stored graph's tables, and how they are read where they stand.
ghost use Rattle.std.specs.Prelude.{◌≡◌, ◌<◌, ◌≤◌, ◌+◌, ◌*◌, ◌^◌, ℕ, List, length, Ok};
ghost use Rattle.fcg_partial.specs.Fault.{u1_at, u2_at, u4_at};
ghost use Rattle.fcg_partial.specs.Graph.{StoredType, StoredField, StoredMethod, StoredSite};
ghost use Rattle.fcg_partial.specs.Accessors.{row_of_type, row_of_field, row_of_method, row_of_site, row_of_ref};
ghost use Rattle.fcg_partial.specs.Internal.StandingRows.{super_of, IsTypeAt, IsFieldAt, IsMethodAt, IsSiteAt, IsRefAt};

use crate::number::{read_u1, read_u2, read_u4};
use crate::rows::{NO_SUPERCLASS, kind_of};
use fcg_views::SiteKind;

/// A type, by the numbers of its names and the counts of its rows.
#[derive(Clone, Copy, PartialEq, Eq)]
pub struct TypeRow {
    pub name: u32,
    pub flags: u16,
    pub superclass: Option<u32>,
    /// How many interfaces it has.
    pub interfaces: u16,
    /// How many fields it has.
    pub fields: u16,
    /// How many methods it has.
    pub methods: u16,
}

/// A field, by the numbers of its name and its descriptor.
#[derive(Clone, Copy, PartialEq, Eq)]
pub struct FieldRow {
    pub name: u32,
    pub desc: u32,
    pub flags: u16,
}

/// A method, by the numbers of its name and its descriptor.
#[derive(Clone, Copy, PartialEq, Eq)]
pub struct MethodRow {
    pub name: u32,
    pub desc: u32,
    pub flags: u16,
    /// How many sites it has.
    pub sites: u32,
}

/// A site, by the number of its reference.
#[derive(Clone, Copy, PartialEq, Eq)]
pub struct SiteRow {
    pub pc: u16,
    pub kind: SiteKind,
    pub reference: u32,
}

/// A reference, by the numbers of its names.
#[derive(Clone, Copy, PartialEq, Eq)]
pub struct RefRow {
    pub owner: u32,
    pub owner_is_interface_ref: bool,
    pub name: u32,
    pub desc: u32,
}

// The numbers that stand at a place, where it was read before.
fn load_u1(bytes: &[u8], at: usize) -> u8
    requires { (n : ℕ) × (u1_at bytes.now at ≡ Ok n) }
    ensures { (n : ℕ) → u1_at bytes.now at ≡ Ok n → result ≡ n }
{
    read_u1(bytes, at).unwrap_or(0)
}

fn load_u2(bytes: &[u8], at: usize) -> u16
    requires { (n : ℕ) × (u2_at bytes.now at ≡ Ok n) }
    ensures { (n : ℕ) → u2_at bytes.now at ≡ Ok n → result ≡ n }
{
    read_u2(bytes, at).unwrap_or(0)
}

pub(crate) fn load_u4(bytes: &[u8], at: usize) -> u32
    requires { (n : ℕ) × (u4_at bytes.now at ≡ Ok n) }
    ensures { (n : ℕ) → u4_at bytes.now at ≡ Ok n → result ≡ n }
{
    read_u4(bytes, at).unwrap_or(0)
}

// The superclass whose number stands at a place.
fn superclass_of(number: u32) -> Option<u32>
    ensures { result ≡ super_of number }
{
    if number == NO_SUPERCLASS {
        None
    } else {
        Some(number)
    }
}

// Where the count of the fields of a type stands.
pub(crate) fn find_fields(bytes: &[u8], at: usize) -> usize
    requires small { at < 2 ^ 32 }
    requires there { (t : StoredType) × IsTypeAt bytes.now at t }
    ensures value { (t : StoredType) → IsTypeAt bytes.now at t → result ≡ at + 12 + 4 * length t.interfaces }
    ensures small { result < 2 ^ 33 }
{
    at + 12 + 4 * usize::from(load_u2(bytes, at + 10))
}

// Where the count of the methods of a type stands.
fn find_methods(bytes: &[u8], fields: usize) -> usize
    requires small { fields < 2 ^ 33 }
    requires there { (n : ℕ) × (u2_at bytes.now fields ≡ Ok n) }
    ensures { (n : ℕ) → u2_at bytes.now fields ≡ Ok n → result ≡ fields + 2 + 10 * n }
{
    fields + 2 + 10 * usize::from(load_u2(bytes, fields))
}

// The type that stands at a place.
pub(crate) fn load_type(bytes: &[u8], at: usize) -> TypeRow
    requires small { at < 2 ^ 32 }
    requires there { (t : StoredType) × IsTypeAt bytes.now at t }
    ensures { (t : StoredType) → IsTypeAt bytes.now at t → result ≡ row_of_type t }
{
    let fields = find_fields(bytes, at);
    let methods = find_methods(bytes, fields);
    TypeRow {
        name: load_u4(bytes, at),
        flags: load_u2(bytes, at + 4),
        superclass: superclass_of(load_u4(bytes, at + 6)),
        interfaces: load_u2(bytes, at + 10),
        fields: load_u2(bytes, fields),
        methods: load_u2(bytes, methods),
    }
}

// The field that stands at a place.
pub(crate) fn load_field(bytes: &[u8], at: usize) -> FieldRow
    requires small { at < 2 ^ 34 }
    requires there { (f : StoredField) × IsFieldAt bytes.now at f }
    ensures { (f : StoredField) → IsFieldAt bytes.now at f → result ≡ row_of_field f }
{
    FieldRow {
        name: load_u4(bytes, at),
        desc: load_u4(bytes, at + 4),
        flags: load_u2(bytes, at + 8),
    }
}

// The method that stands at a place.
pub(crate) fn load_method(bytes: &[u8], at: usize) -> MethodRow
    requires small { at < 2 ^ 32 }
    requires there { (m : StoredMethod) × IsMethodAt bytes.now at m }
    ensures { (m : StoredMethod) → IsMethodAt bytes.now at m → result ≡ row_of_method m }
{
    MethodRow {
        name: load_u4(bytes, at),
        desc: load_u4(bytes, at + 4),
        flags: load_u2(bytes, at + 8),
        sites: load_u4(bytes, at + 10),
    }
}

// The site that stands at a place.
pub(crate) fn load_site(bytes: &[u8], at: usize) -> SiteRow
    requires small { at < 2 ^ 36 }
    requires there { (s : StoredSite) × IsSiteAt bytes.now at s }
    ensures { (s : StoredSite) → IsSiteAt bytes.now at s → result ≡ row_of_site s }
{
    SiteRow {
        pc: load_u2(bytes, at),
        kind: kind_of(load_u1(bytes, at + 2)).unwrap_or(SiteKind::Virtual),
        reference: load_u4(bytes, at + 3),
    }
}

// The reference that stands at a place.
pub(crate) fn load_ref(bytes: &[u8], at: usize) -> RefRow
    requires small { at < 2 ^ 37 }
    requires there { (row : List ℕ) × IsRefAt bytes.now at row }
    ensures { (row : List ℕ) → IsRefAt bytes.now at row → result ≡ row_of_ref row }
{
    RefRow {
        owner: load_u4(bytes, at),
        owner_is_interface_ref: load_u1(bytes, at + 4) == 1,
        name: load_u4(bytes, at + 5),
        desc: load_u4(bytes, at + 9),
    }
}
