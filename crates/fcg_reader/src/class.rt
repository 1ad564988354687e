//! Class files.
ghost use Rattle.std.specs.Prelude.{◌≡◌, ◌≤◌, ◌+◌, ℕ, List, length, map, codes, Option, None, OnOk, IfOk, IfSome};
ghost use Rattle.std.specs.Option.{option_map};
ghost use Rattle.fcg_grammar.specs.Reading.{seen, Gives};
ghost use Rattle.fcg_grammar.specs.Rows.{rows, ended};
ghost use Rattle.fcg_views.specs.Valid.{IsValid};
ghost use Rattle.fcg_classfile.specs.declared.fault.ClassRule.TheVariants.{Bootstrap};
ghost use Rattle.fcg_classfile.specs.ClassFile.{BootstrapMethod};
ghost use Rattle.fcg_classfile.specs.Breaks.Attributes.{one_at, ones_at};
ghost use Rattle.fcg_classfile.specs.Breaks.Bootstrap.{rows_at};
ghost use Rattle.fcg_classfile.specs.Reads.{Reads};
ghost use Rattle.fcg_classfile.specs.Breaks.Fault.{in_pool};
ghost use Rattle.fcg_classfile.specs.Breaks.Pool.{pool_at};
ghost use Rattle.fcg_classfile.specs.Breaks.Class.{header_kept, type_at, super_at, interface_at, interfaces_at, rows_or_none, members_at, body_at, shown, class_of};
ghost use Rattle.fcg_reader.specs.Internal.Rows.{text_in, field_in, method_in, view_in};
ghost use Rattle.fcg_reader.specs.Internal.Class.{rows_if_read, rows_if_any, rows_before, rows_ended, GivesRows};

use crate::attributes::pass_named;
use crate::bootstrap::{Row, read_rows};
use crate::fields::read_fields;
use crate::finish::finish_methods;
use crate::members::read_methods;
use crate::names::ClassTexts;
use crate::naming::name_view;
use crate::number::{read_u2, read_u4};
use crate::rows::{FieldRow, MethodRow, ViewRows};
use crate::text::find_type;
use fcg_classfile::{ClassFault, ClassRule, fault_at};
use fcg_grammar::ReadError;
use fcg_pool::Pool;
use fcg_views::{NoMemory, NumberedView, View};
use std::alloc::Global;

// The magic number and the version.
#[tactic(auto, unfolding(fcg_classfile::specs::Breaks::Class::header_kept))]
fn read_header(bytes: &[u8]) -> Result<(), ClassFault>
    ensures value { result ≡ header_kept bytes.now }
    ensures inside { OnOk result (8 ≤ length bytes.now) }
{
    if read_u4(bytes, 0, 0)? != 0xcafe_babe {
        return Err(fault_at(0, 0, ClassRule::Magic));
    }
    read_u2(bytes, 4, 0)?;
    let major = read_u2(bytes, 6, 0)?;
    if major < 45 || major > 65 {
        return Err(fault_at(6, 0, ClassRule::Version));
    }
    Ok(())
}

// The constant pool whose count stands at a place, and the place after it.
fn read_pool(
    alloc: Global,
    bytes: &[u8],
    at: usize,
) -> Result<(Pool<'_>, usize), ReadError<ClassFault>>
    requires { at ≤ length bytes.now }
    ensures value { Gives (λ x. (x.0, x.1)) result (in_pool (pool_at bytes.now at)) }
    ensures inside { IfOk result (λ x. (x.1 ≤ length x.0.bytes) × (x.0.bytes ≡ bytes.now)) }
{
    match Pool::read(alloc, bytes, at) {
        Ok(read) => Ok(read),
        Err(ReadError::NoMemory) => Err(ReadError::NoMemory),
        Err(ReadError::Fault(fault)) => Err(ReadError::Fault(ClassFault::from(fault))),
    }
}

// The name of the type whose index stands at a place.
fn read_type(pool: &Pool<'_>, at: usize) -> Result<u16, ClassFault>
    requires { at ≤ length pool.now.bytes }
    ensures value { seen (text_in pool.now) result ≡ type_at pool.now at }
    ensures inside { OnOk result (at + 2 ≤ length pool.now.bytes) }
{
    let text = find_type(pool, at)?;
    Ok(text.index)
}

// The name of the superclass, where there is one.
#[tactic(auto, unfolding(fcg_classfile::specs::Breaks::Class::super_at))]
fn read_super(pool: &Pool<'_>, at: usize) -> Result<Option<u16>, ClassFault>
    requires { at ≤ length pool.now.bytes }
    ensures value { seen (option_map (text_in pool.now)) result ≡ super_at pool.now at }
    ensures inside { OnOk result (at + 2 ≤ length pool.now.bytes) }
{
    let index = read_u2(pool.bytes(), at, 0)?;
    if index == 0 {
        return Ok(None);
    }
    Ok(Some(read_type(pool, at)?))
}

#[tactic(auto, unfolding(fcg_classfile::specs::Breaks::Class::interface_at))]
fn read_interface(pool: &Pool<'_>, at: usize) -> Result<(u16, usize), ClassFault>
    requires { at ≤ length pool.now.bytes }
    ensures value { (k : ℕ) → seen (λ x. (text_in pool.now x.0, x.1)) result ≡ interface_at pool.now k at }
    ensures inside { IfOk result (λ x. x.1 ≤ length pool.now.bytes) }
{
    let bytes = pool.bytes();
    prove!(at <= bytes.len());
    let name = read_type(pool, at)?;
    Ok((name, at + 2))
}

// So many interfaces, and the place after them.
fn read_interface_rows(
    alloc: Global,
    pool: &Pool<'_>,
    count: u16,
    at: usize,
) -> Result<(Vec<u16>, usize), ReadError<ClassFault>>
    requires { at ≤ length pool.now.bytes }
    ensures value { Gives (λ x. (map (text_in pool.now) x.0.items, x.1)) result (rows (interface_at pool.now) count 0 at) }
    ensures inside { IfOk result (λ x. x.1 ≤ length pool.now.bytes) }
{
    let mut interfaces = Vec::with_capacity(alloc, usize::from(count))?;
    let mut place = at;
    for _ in 0..count {
        let (name, after) = read_interface(pool, place)?;
        interfaces.push(name)?;
        place = after;
    }
    Ok((interfaces, place))
}

// The interfaces whose count stands at a place, and the place after them.
#[tactic(auto, unfolding(fcg_classfile::specs::Breaks::Class::interfaces_at))]
fn read_interfaces(
    alloc: Global,
    pool: &Pool<'_>,
    at: usize,
) -> Result<(Vec<u16>, usize), ReadError<ClassFault>>
    requires { at ≤ length pool.now.bytes }
    ensures value { Gives (λ x. (map (text_in pool.now) x.0.items, x.1)) result (interfaces_at pool.now at) }
    ensures inside { IfOk result (λ x. x.1 ≤ length pool.now.bytes) }
{
    let count = read_u2(pool.bytes(), at, 0)?;
    read_interface_rows(alloc, pool, count, at + 2)
}

// The place after the attribute of a class that stands at a place, and the bootstrap methods so far. A second attribute
// BootstrapMethods is the fault `Bootstrap`.
fn read_attribute(
    alloc: Global,
    pool: &Pool<'_>,
    at: usize,
    found: Option<Vec<Row>>,
) -> Result<(usize, Option<Vec<Row>>), ReadError<ClassFault>>
    requires { at ≤ length pool.now.bytes }
    ensures value { (k : ℕ) (read : Option (ℕ × List BootstrapMethod)) → rows_if_read read ≡ rows_if_any found → GivesRows result (one_at (codes "BootstrapMethods") Bootstrap rows_at pool.now k (rows_before at read)) }
    ensures inside { IfOk result (λ x. x.0 ≤ length pool.now.bytes) }
{
    let bytes = pool.bytes();
    let again = found.is_some();
    let (named, after) = pass_named(
        pool,
        bytes,
        at,
        b"BootstrapMethods".as_slice(),
        ClassRule::Bootstrap,
        again,
    )?;
    if !named {
        return Ok((after, found));
    }
    let rows = read_rows(alloc, &bytes[..after], at + 6)?;
    Ok((after, Some(rows)))
}

// The bootstrap methods, or none.
fn rows_or_none(alloc: Global, found: Option<Vec<Row>>) -> Vec<Row>
    ensures { (read : Option (ℕ × List BootstrapMethod)) → rows_if_read read ≡ rows_if_any found → result.items ≡ rows_or_none read }
{
    match found {
        Some(rows) => rows,
        None => Vec::new(alloc),
    }
}

// The bootstrap methods among so many attributes of a class, and the place after these.
fn read_attribute_rows(
    alloc: Global,
    pool: &Pool<'_>,
    attributes: u16,
    at: usize,
) -> Result<(Vec<Row>, usize), ReadError<ClassFault>>
    requires { at ≤ length pool.now.bytes }
    ensures { Gives (λ x. (x.0.items, x.1)) result (seen rows_ended (ended (rows (one_at (codes "BootstrapMethods") Bootstrap rows_at pool.now) attributes 0 (rows_before at None)))) }
{
    let mut place = at;
    let mut found = None;
    for _ in 0..attributes {
        let (after, rows) = read_attribute(alloc, pool, place, found)?;
        place = after;
        found = rows;
    }
    Ok((rows_or_none(alloc, found), place))
}

// The bootstrap methods among the attributes of a class whose count stands at a place, and the place after these.
#[tactic(auto, unfolding(fcg_classfile::specs::Breaks::Attributes::ones_at))]
fn read_attributes(
    alloc: Global,
    pool: &Pool<'_>,
    at: usize,
) -> Result<(Vec<Row>, usize), ReadError<ClassFault>>
    requires { at ≤ length pool.now.bytes }
    ensures { Gives (λ x. (x.0.items, x.1)) result (seen rows_ended (ones_at (codes "BootstrapMethods") Bootstrap rows_at pool.now at)) }
{
    let attributes = read_u2(pool.bytes(), at, 0)?;
    read_attribute_rows(alloc, pool, attributes, at + 2)
}

// The fields and the methods, and what stands after them up to the file's end.
#[tactic(auto, unfolding(fcg_classfile::specs::Breaks::Class::members_at))]
fn read_members(
    alloc: Global,
    names: &mut ClassTexts<'_>,
    at: usize,
) -> Result<(Vec<FieldRow>, Vec<MethodRow>), ReadError<ClassFault>>
    requires { at ≤ length names.old.bytes }
    ensures { Gives (λ x. (map (field_in names.old) x.0.items, map (method_in names.old) x.1.items)) result (members_at names.old at) }
{
    let pool = names.pool();
    let (fields, methods_at) = read_fields(alloc, names, at)?;
    let (unfinished, attributes_at) = read_methods(alloc, names, methods_at)?;
    let (rows, end) = read_attributes(alloc, pool, attributes_at)?;
    let methods = finish_methods(alloc, names, rows, unfinished)?;
    if pool.bytes().len() != end {
        return Err(ReadError::Fault(fault_at(end, 0, ClassRule::Trailing)));
    }
    Ok((fields, methods))
}

// What stands after the pool.
#[tactic(auto, unfolding(fcg_classfile::specs::Breaks::Class::body_at))]
fn read_body(
    alloc: Global,
    names: &mut ClassTexts<'_>,
    at: usize,
) -> Result<ViewRows, ReadError<ClassFault>>
    requires { at ≤ length names.old.bytes }
    ensures { Gives (view_in names.old) result (body_at names.old at) }
{
    let pool = names.pool();
    let bytes = pool.bytes();
    prove!(at <= bytes.len());
    let flags = read_u2(bytes, at, 0)?;
    let name = read_type(pool, at + 2)?;
    let superclass = read_super(pool, at + 4)?;
    let (interfaces, after) = read_interfaces(alloc, pool, at + 6)?;
    let (fields, methods) = read_members(alloc, names, after)?;
    Ok(ViewRows {
        name,
        flags,
        superclass,
        interfaces,
        fields,
        methods,
    })
}

// The view of rows. A module has none.
fn show(alloc: Global, pool: &Pool<'_>, rows: &ViewRows) -> Result<Option<NumberedView>, NoMemory>
    ensures { IfOk result (λ view. view ≡ shown (view_in pool.now rows.now)) }
{
    if rows.flags < 0x8000 {
        Ok(Some(name_view(alloc, pool, rows)?))
    } else {
        Ok(None)
    }
}

#[tactic(auto, unfolding(fcg_classfile::specs::Breaks::Class::class_of))]
fn read_whole(alloc: Global, bytes: &[u8]) -> Result<Option<NumberedView>, ReadError<ClassFault>>
    ensures { Gives (λ view. view) result (class_of bytes.now) }
{
    read_header(bytes)?;
    let (pool, after) = read_pool(alloc, bytes, 8)?;
    let mut names = ClassTexts::new(alloc, &pool)?;
    let rows = read_body(alloc, &mut names, after)?;
    Ok(show(alloc, &pool, &rows)?)
}

/// The view of a class file (JVMS 4.1) with its names by the numbers of their texts, or `None` for a module, which has the
/// flag 8000h.
///
/// The error is [`ReadError::Fault`] where the bytes are no class file: the first rule that they break, as
/// [`ClassRule`](fcg_classfile::ClassRule) has them, the place of the item that breaks it, and the index of the pool that
/// was in hand. The file is read from front to back, and what the indexes of constants name is checked after the last
/// constant, the handle sites of `invokedynamic` after the last attribute, and that nothing follows at the end. The error
/// is [`ReadError::NoMemory`] where memory ran out.
///
/// It makes one pass over the bytes, and for each method some comparisons more, about the logarithm of the number of
/// methods. Each name takes constant time, however long it is. It takes memory for the pool's entries, for the bootstrap
/// methods and the calls of them, for the sites some bytes for each byte of code, and for the view, whose names share one
/// copy of the bytes and have a number of two bytes each.
pub fn read_numbered(
    alloc: Global,
    bytes: &[u8],
) -> Result<Option<NumberedView>, ReadError<ClassFault>>
    // What is read is a class file with that view.
    ensures found { IfOk result (Reads bytes.now) }
    // A class file is read with its view, unless memory runs out.
    ensures only { (view : Option View) → Reads bytes.now view → Gives (λ v. v) result (Ok view) }
    // Which fault it is.
    ensures exact { Gives (λ view. view) result (class_of bytes.now) }
    // The view is one that a class file could have.
    ensures valid { IfOk result (λ view. IfSome view IsValid) }
{
    read_whole(alloc, bytes)
}

/// The view of a class file, as [`read_numbered`] reads it, without the numbers of its names.
pub fn read_class(alloc: Global, bytes: &[u8]) -> Result<Option<View>, ReadError<ClassFault>>
    // What is read is a class file with that view.
    ensures found { IfOk result (Reads bytes.now) }
    // A class file is read with its view, unless memory runs out.
    ensures only { (view : Option View) → Reads bytes.now view → Gives (λ v. v) result (Ok view) }
    // Which fault it is.
    ensures exact { Gives (λ view. view) result (class_of bytes.now) }
    // The view is one that a class file could have.
    ensures valid { IfOk result (λ view. IfSome view IsValid) }
{
    match read_numbered(alloc, bytes)? {
        Some(numbered) => Ok(Some(numbered.into_view())),
        None => Ok(None),
    }
}
