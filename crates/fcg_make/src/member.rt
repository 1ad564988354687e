//! The fields, methods and attributes of a class file that is written, each at the end of the bytes so far.
ghost use Rattle.std.specs.Prelude.{◌≡◌, ◌≤◌, ◌<◌, ◌+◌, ◌^◌, ◌++◌, length, true, All, IfOk, OnOk};
ghost use Rattle.std.specs.List.{flat_map, list_all, AllByRecursion};
ghost use Rattle.fcg_classfile.specs.ClassFile.{member_info};
ghost use Rattle.fcg_make.specs.Steps.{calls, steps_of, method_rows, numbered};
ghost use Rattle.fcg_make.specs.Needs.{rows_of};
ghost use Rattle.fcg_make.specs.Unwritable.{is_placed_from, is_placed_method};
ghost use Rattle.fcg_make.specs.Layout.{field_of};
ghost use Rattle.fcg_make.specs.Internal.Small.{HasFewHandles, IsFlaggedField, IsFlaggedMethod};
ghost use Rattle.fcg_make.specs.Internal.Parts.{code_part, code_attributes_part, method_part, row_part, rows_part, class_attributes_part};

use crate::step::{Step, is_handle, split_step};
use crate::table::EntryTable;
use crate::words::Words;
use crate::write::{
    code_of, push_handle_index, push_handle_indexes, push_text_index, push_u2, push_u4,
};
use fcg_views::{Field, Method, Site};
use std::alloc::{AllocError, Global};

fn push_field(out: &mut Vec<u8>, table: &EntryTable, field: &Field) -> Result<(), AllocError>
    requires few { length table.now ≤ 65534 }
    ensures bytes { OnOk result (out.new.items ≡ out.old.items ++ member_info (field_of table.now field.now)) }
    ensures flags { IsFlaggedField field.now }
{
    push_u2(out, field.flags)?;
    push_text_index(out, table, &field.name)?;
    push_text_index(out, table, &field.desc)?;
    push_u2(out, 0)
}

/// Fields.
pub fn push_fields(
    out: &mut Vec<u8>,
    table: &EntryTable,
    fields: &[Field],
) -> Result<(), AllocError>
    requires few { length table.now ≤ 65534 }
    ensures bytes { OnOk result (out.new.items ≡ out.old.items ++ flat_map (λ field. member_info (field_of table.now field)) fields.now) }
    ensures flags { OnOk result (AllByRecursion IsFlaggedField fields.now) }
{
    for field in fields {
        push_field(out, table, field)?;
    }
    Ok(())
}

// The content of a Code attribute, with its length.
fn push_code_content(out: &mut Vec<u8>, code: &[u8]) -> Result<(), AllocError>
    requires short { length code.now ≤ 65535 }
    ensures { OnOk result (out.new.items ≡ out.old.items ++ code_part code.now) }
{
    push_u4(out, code.len() as u32 + 12)?;
    push_u2(out, u16::MAX)?;
    push_u2(out, u16::MAX)?;
    push_u4(out, code.len() as u32)?;
    out.extend_from_slice(code)?;
    push_u2(out, 0)?;
    push_u2(out, 0)?;
    Ok(())
}

// The attributes of a method with these sites, of which the first that calls a bootstrap method has this row.

fn push_code(
    alloc: Global,
    out: &mut Vec<u8>,
    table: &EntryTable,
    words: &Words,
    first: u16,
    sites: &[Site],
) -> Result<(), AllocError>
    requires few { length table.now ≤ 65534 }
    requires rows { first + length (calls (steps_of sites.now)) ≤ 65535 }
    requires placed { is_placed_from 0 (steps_of sites.now) ≡ true }
    ensures { OnOk result (out.new.items ≡ out.old.items ++ code_attributes_part table.now first (steps_of sites.now)) }
{
    if sites.is_empty() {
        return push_u2(out, 0);
    }
    let code = code_of(alloc, table, first, sites)?;
    push_u2(out, 1)?;
    push_text_index(out, table, words.code())?;
    push_code_content(out, code.as_slice())?;
    Ok(())
}

fn push_method(
    alloc: Global,
    out: &mut Vec<u8>,
    table: &EntryTable,
    words: &Words,
    first: u16,
    method: &Method,
) -> Result<(), AllocError>
    requires few { length table.now ≤ 65534 }
    requires rows { first + method_rows method.now ≤ 65535 }
    requires placed { is_placed_method method.now ≡ true }
    ensures bytes { OnOk result (out.new.items ≡ out.old.items ++ method_part table.now (first, method.now)) }
    ensures flags { IsFlaggedMethod method.now }
{
    push_u2(out, method.flags)?;
    push_text_index(out, table, &method.name)?;
    push_text_index(out, table, &method.desc)?;
    push_code(alloc, out, table, words, first, method.sites.as_slice())
}

// The row after those of the calls of bootstrap methods among the instructions of some sites.
fn pass_rows(first: u16, sites: &[Site]) -> u16
    requires rows { first + length (calls (steps_of sites.now)) ≤ 65535 }
    ensures { result ≡ first + length (calls (steps_of sites.now)) }
{
    let mut row = first;
    let mut rest = sites;
    while let Some((step, others)) = split_step(rest) {
        if is_handle(step.first().kind) {
            row += 1;
        }
        rest = others;
    }
    row
}

/// Methods.
pub fn push_methods(
    alloc: Global,
    out: &mut Vec<u8>,
    table: &EntryTable,
    words: &Words,
    methods: &[Method],
) -> Result<(), AllocError>
    requires few { length table.now ≤ 65534 }
    requires rows { length (rows_of methods.now) ≤ 65535 }
    requires placed { list_all is_placed_method methods.now ≡ true }
    ensures bytes { OnOk result (out.new.items ≡ out.old.items ++ flat_map (method_part table.now) (numbered method_rows 0 methods.now)) }
    ensures flags { OnOk result (AllByRecursion IsFlaggedMethod methods.now) }
{
    let mut row = 0;
    let mut rest = methods;
    while let Some((method, others)) = rest.split_first() {
        push_method(alloc, out, table, words, row, method)?;
        row = pass_rows(row, method.sites.as_slice());
        rest = others;
    }
    Ok(())
}

fn push_row(out: &mut Vec<u8>, table: &EntryTable, row: &Step<'_>) -> Result<(), AllocError>
    requires few { length table.now ≤ 65534 }
    requires handles { HasFewHandles row.now }
    ensures { OnOk result (out.new.items ≡ out.old.items ++ row_part table.now row.now) }
{
    push_handle_index(out, table, row.first())?;
    push_u2(out, row.more().len() as u16)?;
    push_handle_indexes(out, table, row.more())
}

fn push_rows(out: &mut Vec<u8>, table: &EntryTable, rows: &[Step<'_>]) -> Result<(), AllocError>
    requires few { length table.now ≤ 65534 }
    requires handles { All HasFewHandles rows.now }
    ensures { OnOk result (out.new.items ≡ out.old.items ++ flat_map (row_part table.now) rows.now) }
{
    for row in rows {
        push_row(out, table, row)?;
    }
    Ok(())
}

// The content of a BootstrapMethods attribute.
fn rows_content(alloc: Global, table: &EntryTable, rows: &[Step<'_>]) -> Result<Vec<u8>, AllocError>
    requires few { length table.now ≤ 65534 }
    requires rows { length rows.now ≤ 65535 }
    requires handles { All HasFewHandles rows.now }
    ensures { IfOk result (λ content. content.items ≡ rows_part table.now rows.now) }
{
    let mut content = Vec::new(alloc);
    push_u2(&mut content, rows.len() as u16)?;
    push_rows(&mut content, table, rows)?;
    Ok(content)
}

/// The attributes of a class with these rows of bootstrap methods.
pub fn push_class_attributes(
    alloc: Global,
    out: &mut Vec<u8>,
    table: &EntryTable,
    words: &Words,
    rows: &[Step<'_>],
) -> Result<(), AllocError>
    requires few { length table.now ≤ 65534 }
    requires rows { length rows.now ≤ 65535 }
    requires handles { All HasFewHandles rows.now }
    requires short { length (rows_part table.now rows.now) < 2 ^ 32 }
    ensures { OnOk result (out.new.items ≡ out.old.items ++ class_attributes_part table.now rows.now) }
{
    if rows.is_empty() {
        return push_u2(out, 0);
    }
    let content = rows_content(alloc, table, rows)?;
    push_u2(out, 1)?;
    push_text_index(out, table, words.rows())?;
    let bytes = content.as_slice();
    push_u4(out, bytes.len() as u32)?;
    out.extend_from_slice(bytes)?;
    Ok(())
}
