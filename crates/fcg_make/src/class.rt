//! Class files that are written.
ghost use Rattle.std.specs.Prelude.{◌≡◌, ◌≤◌, ◌<◌, ◌^◌, ◌++◌, length, true, Some, All, IfOk, OnOk};
ghost use Rattle.std.specs.List.{list_all};
ghost use Rattle.fcg_classfile.specs.Reads.{Reads};
ghost use Rattle.fcg_views.specs.Valid.{IsValid};
ghost use Rattle.fcg_make.specs.Needs.{rows_of, pool_of};
ghost use Rattle.fcg_make.specs.Unwritable.{is_named, is_typed, is_kind, is_placed, is_placed_method};
ghost use Rattle.fcg_make.specs.Layout.{written};
ghost use Rattle.fcg_make.specs.Internal.Small.{IsShortText, HasFewHandles, IsFlagged};
ghost use Rattle.fcg_make.specs.Internal.Parts.{pool_part, types_part, members_part, rows_part, file_part};
ghost use Rattle.fcg_make.specs.Answers.{Answers};

use crate::check::{is_kind, is_named, is_placed, is_typed};
use crate::member::{push_class_attributes, push_fields, push_methods};
use crate::needs::collect_entries;
use crate::refusal::{NotWritable, WriteError};
use crate::step::{Step, collect_rows};
use crate::table::EntryTable;
use crate::words::Words;
use crate::write::{
    push_constants, push_super_index, push_type_index, push_type_indexes, push_u2, push_u4,
};
use fcg_views::{Bytes, View};
use std::alloc::{AllocError, Global};

// The most entries of a pool.
const MOST_ENTRIES: usize = 65_534;

// The most rows of bootstrap methods.
const MOST_ROWS: usize = 65_535;

// The magic number, the version and the pool.
fn push_pool(out: &mut Vec<u8>, table: &EntryTable, words: &Words) -> Result<(), AllocError>
    requires few { length table.now ≤ 65534 }
    requires short { All IsShortText table.now }
    ensures { OnOk result (out.new.items ≡ out.old.items ++ pool_part table.now) }
{
    push_u4(out, 0xcafe_babe)?;
    push_u2(out, 0)?;
    push_u2(out, 65)?;
    push_u2(out, table.as_slice().len() as u16 + 1)?;
    push_constants(out, table, words)
}

// The flags, the names of the type and of its superclass, and the interfaces.
fn push_types(out: &mut Vec<u8>, table: &EntryTable, view: &View) -> Result<(), AllocError>
    requires few { length table.now ≤ 65534 }
    requires interfaces { length view.now.interfaces ≤ 65535 }
    ensures { OnOk result (out.new.items ≡ out.old.items ++ types_part table.now view.now) }
{
    push_u2(out, view.flags)?;
    push_type_index(out, table, &view.name)?;
    push_super_index(out, table, view)?;
    push_u2(out, view.interfaces.as_slice().len() as u16)?;
    push_type_indexes(out, table, view.interfaces.as_slice())
}

// The fields and the methods.
fn push_members(
    alloc: Global,
    out: &mut Vec<u8>,
    table: &EntryTable,
    words: &Words,
    view: &View,
) -> Result<(), AllocError>
    requires few { length table.now ≤ 65534 }
    requires fields { length view.now.fields ≤ 65535 }
    requires methods { length view.now.methods ≤ 65535 }
    requires rows { length (rows_of view.now.methods) ≤ 65535 }
    requires placed { list_all is_placed_method view.now.methods ≡ true }
    ensures bytes { OnOk result (out.new.items ≡ out.old.items ++ members_part table.now view.now) }
    ensures flags { OnOk result (IsFlagged view.now) }
{
    push_u2(out, view.fields.as_slice().len() as u16)?;
    push_fields(out, table, view.fields.as_slice())?;
    push_u2(out, view.methods.as_slice().len() as u16)?;
    push_methods(alloc, out, table, words, view.methods.as_slice())
}

// The whole class file, by the entries of its pool and its rows of bootstrap methods.
#[tactic(auto, unfolding(crate::specs::Internal::Parts::file_part))]
fn write_file(
    alloc: Global,
    table: &EntryTable,
    words: &Words,
    view: &View,
    rows: &[Step<'_>],
) -> Result<Vec<u8>, AllocError>
    requires few { length table.now ≤ 65534 }
    requires short { All IsShortText table.now }
    requires interfaces { length view.now.interfaces ≤ 65535 }
    requires fields { length view.now.fields ≤ 65535 }
    requires methods { length view.now.methods ≤ 65535 }
    requires rows { rows.now ≡ rows_of view.now.methods }
    requires few_rows { length (rows_of view.now.methods) ≤ 65535 }
    requires placed { list_all is_placed_method view.now.methods ≡ true }
    requires handles { All HasFewHandles (rows_of view.now.methods) }
    requires short_rows { length (rows_part table.now (rows_of view.now.methods)) < 2 ^ 32 }
    ensures bytes { IfOk result (λ bytes. bytes.items ≡ file_part table.now view.now) }
    ensures flags { OnOk result (IsFlagged view.now) }
{
    let mut out = Vec::new(alloc);
    push_pool(&mut out, table, words)?;
    push_types(&mut out, table, view)?;
    push_members(alloc, &mut out, table, words, view)?;
    push_class_attributes(alloc, &mut out, table, words, rows)?;
    Ok(out)
}

// A view that breaks no rule but that of the pool.
fn write_placed(alloc: Global, view: &View) -> Result<Bytes, WriteError>
    requires valid { IsValid view.now }
    requires named { is_named view.now ≡ true }
    requires typed { is_typed view.now ≡ true }
    requires kind { is_kind view.now ≡ true }
    requires placed { is_placed view.now ≡ true }
    ensures exact { Answers result (written view.now) }
    ensures flags { OnOk result (IsFlagged view.now) }
{
    let collected = collect_rows(alloc, view.methods.as_slice())?;
    let rows = collected.as_slice();
    if rows.len() > MOST_ROWS {
        return Err(WriteError::NotWritable(NotWritable::PoolFull));
    }
    let words = Words::new(alloc)?;
    let table = collect_entries(alloc, &words, view, rows)?;
    if table.as_slice().len() > MOST_ENTRIES {
        return Err(WriteError::NotWritable(NotWritable::PoolFull));
    }
    let out = write_file(alloc, &table, &words, view, rows)?;
    Ok(Bytes::from(out))
}

#[tactic(auto, unfolding(crate::specs::Unwritable::unwritable, crate::specs::Layout::written))]
fn write_exact(alloc: Global, view: &View) -> Result<Bytes, WriteError>
    requires valid { IsValid view.now }
    ensures exact { Answers result (written view.now) }
    ensures flags { OnOk result (IsFlagged view.now) }
{
    if !is_named(view) {
        return Err(WriteError::NotWritable(NotWritable::Name));
    }
    if !is_typed(view) {
        return Err(WriteError::NotWritable(NotWritable::Descriptor));
    }
    if !is_kind(view) {
        return Err(WriteError::NotWritable(NotWritable::Kind));
    }
    if !is_placed(view) {
        return Err(WriteError::NotWritable(NotWritable::Places));
    }
    write_placed(alloc, view)
}

/// Writes a view as a class file of version 65.0 (JVMS 4.1), or refuses it by the first rule of `NotWritable` that it
/// breaks, in the order Name, Descriptor, Kind, Places, PoolFull, each over the whole view.
///
/// The pool has each constant once, in the order in which the file first needs them, each after its parts. The code of
/// a method has its sites' instructions at their places, with nops before and between them and `return` at the end.
///
/// Takes one pass over the view for each of the checks, one for the pool and one for the bytes, and in the last two for
/// each constant that is named a logarithm of their number in comparisons. It takes memory for the pool's constants,
/// whose names share the view's bytes, and for the bytes that are written.
pub fn write_class(alloc: Global, view: &View) -> Result<Bytes, WriteError>
    requires valid { IsValid view.now }
    // The bytes are those that the layout gives, and a refusal is the first rule that the view breaks.
    ensures exact { Answers result (written view.now) }
    // What is written is a class file with this view.
    ensures read { IfOk result (λ bytes. Reads bytes (Some view.now)) }
{
    write_exact(alloc, view)
}
