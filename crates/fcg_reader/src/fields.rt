//! Fields (JVMS 4.5).
ghost use Rattle.std.specs.Prelude.{◌≡◌, ◌≤◌, ℕ, length, map, IfOk};
ghost use Rattle.fcg_grammar.specs.Reading.{seen, Gives};
ghost use Rattle.fcg_grammar.specs.Rows.{rows};
ghost use Rattle.fcg_classfile.specs.Breaks.Members.{field_of, field_at, fields_at};
ghost use Rattle.fcg_classfile.specs.Breaks.Pool.{Entries};
ghost use Rattle.fcg_reader.specs.Internal.Rows.{field_in};
ghost use Rattle.fcg_reader.specs.Internal.Members.{declared_of, AreTextsOf};

use crate::attributes::pass_attributes;
use crate::declared::{Declared, find_declared};
use crate::names::{ClassTexts, DescKind};
use crate::number::read_u2;
use crate::rows::FieldRow;
use fcg_classfile::ClassFault;
use fcg_grammar::ReadError;
use std::alloc::Global;

// The field that a row declares.
fn row_of(declared: &Declared<'_>) -> FieldRow
    ensures { (pool : Entries) → AreTextsOf pool declared.now → field_in pool result ≡ field_of (declared_of declared.now) }
{
    FieldRow {
        name: declared.name.index,
        desc: declared.desc.index,
        flags: declared.flags,
    }
}

// The field that stands at a place, and the place after it.
#[tactic(auto, unfolding(fcg_classfile::specs::Breaks::Members::field_at))]
fn read_field(names: &mut ClassTexts<'_>, at: usize) -> Result<(FieldRow, usize), ClassFault>
    requires { at ≤ length names.old.bytes }
    ensures value { (k : ℕ) → seen (λ x. (field_in names.old x.0, x.1)) result ≡ field_at names.old k at }
    ensures inside { IfOk result (λ x. x.1 ≤ length names.old.bytes) }
    ensures same { names.new ≡ names.old }
{
    let pool = names.pool();
    let bytes = pool.bytes();
    prove!(at <= bytes.len());
    let declared = find_declared(names, DescKind::Field, at)?;
    let after = pass_attributes(pool, bytes, at + 6)?;
    Ok((row_of(&declared), after))
}

// So many fields, and the place after them.
fn read_field_rows(
    alloc: Global,
    names: &mut ClassTexts<'_>,
    count: u16,
    at: usize,
) -> Result<(Vec<FieldRow>, usize), ReadError<ClassFault>>
    requires { at ≤ length names.old.bytes }
    ensures value { Gives (λ x. (map (field_in names.old) x.0.items, x.1)) result (rows (field_at names.old) count 0 at) }
    ensures inside { IfOk result (λ x. x.1 ≤ length names.old.bytes) }
    ensures same { names.new ≡ names.old }
{
    let mut fields = Vec::with_capacity(alloc, usize::from(count))?;
    let mut place = at;
    for _ in 0..count {
        let (field, after) = read_field(names, place)?;
        fields.push(field)?;
        place = after;
    }
    Ok((fields, place))
}

/// The fields whose count stands at a place, in the order of the file, and the place after them.
///
/// The first fault in reading order is one of these: a row passes the file's end, or an index of it names no Utf8; a
/// name is empty, or a descriptor is no field descriptor, at the place of its index; the name of an attribute is no
/// Utf8, or its content passes the file's end.
///
/// It makes one pass over the rows, and passes over the attributes by their lengths. A descriptor is read once for each
/// Utf8 of the pool. It takes memory for as many fields as the count says.
#[tactic(auto, unfolding(fcg_classfile::specs::Breaks::Members::fields_at))]
pub fn read_fields(
    alloc: Global,
    names: &mut ClassTexts<'_>,
    at: usize,
) -> Result<(Vec<FieldRow>, usize), ReadError<ClassFault>>
    requires { at ≤ length names.old.bytes }
    ensures value { Gives (λ x. (map (field_in names.old) x.0.items, x.1)) result (fields_at names.old at) }
    ensures inside { IfOk result (λ x. x.1 ≤ length names.old.bytes) }
    ensures same { names.new ≡ names.old }
{
    let count = read_u2(names.pool().bytes(), at, 0)?;
    read_field_rows(alloc, names, count, at + 2)
}
