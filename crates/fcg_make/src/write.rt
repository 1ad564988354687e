//! Constants and instructions that are written, each at the end of the bytes so far.
ghost use Rattle.std.specs.Prelude.{◌≡◌, ◌≤◌, ◌<◌, ◌+◌, ◌-◌, ◌^◌, ◌++◌, ◌∷◌, length, replicate, All, IfOk, OnOk};
ghost use Rattle.std.specs.List.{flat_map};
ghost use Rattle.fcg_grammar.specs.Spell.{u2, u4};
ghost use Rattle.fcg_classfile.specs.ClassFile.{constant};
ghost use Rattle.fcg_classfile.specs.Instructions.{instruction};
ghost use Rattle.fcg_make.specs.declared.entry.Entry.TheVariants as entries;
ghost use Rattle.fcg_make.specs.Entries.{index_of};
ghost use Rattle.fcg_make.specs.Steps.{calls, steps_of, row_count, numbered};
ghost use Rattle.fcg_make.specs.Layout.{constant_of, tail_of, opcode_of, instruction_of, code_bytes, text_index, type_index, super_index, handle_index};
ghost use Rattle.fcg_make.specs.Internal.Small.{IsShortText};

use crate::entry::Entry;
use crate::step::{is_handle, size_of, split_step};
use crate::table::EntryTable;
use crate::words::Words;
use fcg_views::{Name, Site, SiteKind, View};
use std::alloc::{AllocError, Global};

/// A number of two bytes.
pub fn push_u2(out: &mut Vec<u8>, n: u16) -> Result<(), AllocError>
    ensures { OnOk result (out.new.items ≡ out.old.items ++ u2 n) }
{
    out.extend_from_slice(&n.to_be_bytes())
}

/// A number of four bytes.
pub fn push_u4(out: &mut Vec<u8>, n: u32) -> Result<(), AllocError>
    ensures { OnOk result (out.new.items ≡ out.old.items ++ u4 n) }
{
    out.extend_from_slice(&n.to_be_bytes())
}

/// The index of an entry.
pub fn push_index(out: &mut Vec<u8>, table: &EntryTable, entry: Entry) -> Result<(), AllocError>
    requires few { length table.now ≤ 65534 }
    ensures { OnOk result (out.new.items ≡ out.old.items ++ u2 (index_of table.now entry)) }
{
    push_u2(out, table.index(&entry))
}

/// The index of a text.
pub fn push_text_index(out: &mut Vec<u8>, table: &EntryTable, text: &Name) -> Result<(), AllocError>
    requires few { length table.now ≤ 65534 }
    ensures { OnOk result (out.new.items ≡ out.old.items ++ u2 (text_index table.now text.now)) }
{
    push_index(out, table, Entry::text(text)?)
}

/// The index of a type's name.
pub fn push_type_index(out: &mut Vec<u8>, table: &EntryTable, name: &Name) -> Result<(), AllocError>
    requires few { length table.now ≤ 65534 }
    ensures { OnOk result (out.new.items ≡ out.old.items ++ u2 (type_index table.now name.now)) }
{
    push_index(out, table, Entry::class(name)?)
}

/// The index of the superclass, or 0.
pub fn push_super_index(
    out: &mut Vec<u8>,
    table: &EntryTable,
    view: &View,
) -> Result<(), AllocError>
    requires few { length table.now ≤ 65534 }
    ensures { OnOk result (out.new.items ≡ out.old.items ++ u2 (super_index table.now view.now.superclass)) }
{
    match &view.superclass {
        Some(name) => push_type_index(out, table, name),
        None => push_u2(out, 0),
    }
}

/// The indexes of some types' names.
pub fn push_type_indexes(
    out: &mut Vec<u8>,
    table: &EntryTable,
    names: &[Name],
) -> Result<(), AllocError>
    requires few { length table.now ≤ 65534 }
    ensures { OnOk result (out.new.items ≡ out.old.items ++ flat_map (λ name. u2 (type_index table.now name)) names.now) }
{
    for name in names {
        push_type_index(out, table, name)?;
    }
    Ok(())
}

/// The index of the method handle of a handle site.
pub fn push_handle_index(
    out: &mut Vec<u8>,
    table: &EntryTable,
    site: &Site,
) -> Result<(), AllocError>
    requires few { length table.now ≤ 65534 }
    ensures { OnOk result (out.new.items ≡ out.old.items ++ u2 (handle_index table.now site.now)) }
{
    push_index(out, table, Entry::handle(site)?)
}

/// The indexes of the method handles of some.
pub fn push_handle_indexes(
    out: &mut Vec<u8>,
    table: &EntryTable,
    sites: &[Site],
) -> Result<(), AllocError>
    requires few { length table.now ≤ 65534 }
    ensures { OnOk result (out.new.items ≡ out.old.items ++ flat_map (λ site. u2 (handle_index table.now site)) sites.now) }
{
    for site in sites {
        push_handle_index(out, table, site)?;
    }
    Ok(())
}

// ---- constants

fn push_utf8(out: &mut Vec<u8>, table: &EntryTable, text: &Name) -> Result<(), AllocError>
    requires short { length text.now < 2 ^ 16 }
    ensures { OnOk result (out.new.items ≡ out.old.items ++ constant (constant_of table.now (entries.Text text.now))) }
{
    out.push(1)?;
    push_u2(out, text.as_slice().len() as u16)?;
    out.extend_from_slice(text.as_slice())
}

fn push_class(out: &mut Vec<u8>, table: &EntryTable, name: &Name) -> Result<(), AllocError>
    requires few { length table.now ≤ 65534 }
    ensures { OnOk result (out.new.items ≡ out.old.items ++ constant (constant_of table.now (entries.Class name.now))) }
{
    out.push(7)?;
    push_text_index(out, table, name)
}

fn push_member(
    out: &mut Vec<u8>,
    table: &EntryTable,
    name: &Name,
    desc: &Name,
) -> Result<(), AllocError>
    requires few { length table.now ≤ 65534 }
    ensures { OnOk result (out.new.items ≡ out.old.items ++ constant (constant_of table.now (entries.Member name.now desc.now))) }
{
    out.push(12)?;
    push_text_index(out, table, name)?;
    push_text_index(out, table, desc)
}

fn push_reference(
    out: &mut Vec<u8>,
    table: &EntryTable,
    tag: u8,
    owner: &Name,
    name: &Name,
    desc: &Name,
) -> Result<(), AllocError>
    requires few { length table.now ≤ 65534 }
    ensures { OnOk result (out.new.items ≡ out.old.items ++ constant (constant_of table.now (entries.Reference tag owner.now name.now desc.now))) }
{
    out.push(tag)?;
    push_type_index(out, table, owner)?;
    push_index(out, table, Entry::member(name, desc)?)
}

fn push_handle(
    out: &mut Vec<u8>,
    table: &EntryTable,
    kind: u8,
    reference: Entry,
) -> Result<(), AllocError>
    requires few { length table.now ≤ 65534 }
    ensures { OnOk result (out.new.items ≡ out.old.items ++ 15 ∷ kind ∷ u2 (index_of table.now reference)) }
{
    out.push(15)?;
    out.push(kind)?;
    push_index(out, table, reference)
}

fn push_dynamic(
    out: &mut Vec<u8>,
    table: &EntryTable,
    words: &Words,
    row: u16,
) -> Result<(), AllocError>
    requires few { length table.now ≤ 65534 }
    ensures { OnOk result (out.new.items ≡ out.old.items ++ constant (constant_of table.now (entries.Dynamic row))) }
{
    out.push(18)?;
    push_u2(out, row)?;
    push_index(out, table, Entry::member(words.name(), words.desc())?)
}

fn push_constant(
    out: &mut Vec<u8>,
    table: &EntryTable,
    words: &Words,
    entry: &Entry,
) -> Result<(), AllocError>
    requires few { length table.now ≤ 65534 }
    requires short { IsShortText entry.now }
    ensures { OnOk result (out.new.items ≡ out.old.items ++ constant (constant_of table.now entry.now)) }
{
    match entry {
        Entry::Text(text) => push_utf8(out, table, text),
        Entry::Class(name) => push_class(out, table, name),
        Entry::Member(name, desc) => push_member(out, table, name, desc),
        Entry::Reference(tag, owner, name, desc) => {
            push_reference(out, table, *tag, owner, name, desc)
        }
        Entry::Handle(kind, tag, owner, name, desc) => {
            let reference = Entry::named(*tag, owner, name, desc)?;
            push_handle(out, table, *kind, reference)
        }
        Entry::Dynamic(row) => push_dynamic(out, table, words, *row),
    }
}

/// The constants of a pool.
pub fn push_constants(
    out: &mut Vec<u8>,
    table: &EntryTable,
    words: &Words,
) -> Result<(), AllocError>
    requires few { length table.now ≤ 65534 }
    requires short { All IsShortText table.now }
    ensures { OnOk result (out.new.items ≡ out.old.items ++ flat_map (λ entry. constant (constant_of table.now entry)) table.now) }
{
    for entry in table.as_slice() {
        push_constant(out, table, words, entry)?;
    }
    Ok(())
}

// ---- code

// The opcode of a kind (JVMS 6.5).
fn opcode_of(kind: SiteKind) -> u8
    ensures { result ≡ opcode_of kind }
{
    match kind {
        SiteKind::Virtual => 182,
        SiteKind::Special => 183,
        SiteKind::Static => 184,
        SiteKind::Interface => 185,
        SiteKind::Handle(_) => 186,
        SiteKind::New => 187,
        SiteKind::StaticField => 178,
    }
}

// What follows the index of an instruction.
fn push_tail(out: &mut Vec<u8>, kind: SiteKind) -> Result<(), AllocError>
    ensures { OnOk result (out.new.items ≡ out.old.items ++ tail_of kind) }
{
    match kind {
        SiteKind::Interface => out.extend_from_slice(&[1, 0]),
        SiteKind::Handle(_) => out.extend_from_slice(&[0, 0]),
        _ => Ok(()),
    }
}

fn push_instruction(
    out: &mut Vec<u8>,
    table: &EntryTable,
    row: u16,
    site: &Site,
) -> Result<(), AllocError>
    requires few { length table.now ≤ 65534 }
    ensures { OnOk result (out.new.items ≡ out.old.items ++ instruction (instruction_of table.now row site.now)) }
{
    out.push(opcode_of(site.kind))?;
    push_index(out, table, Entry::operand(row, site)?)?;
    push_tail(out, site.kind)
}

fn push_nops(out: &mut Vec<u8>, count: usize) -> Result<(), AllocError>
    ensures { OnOk result (out.new.items ≡ out.old.items ++ replicate count 0) }
{
    for _index in 0..count {
        out.push(0)?;
    }
    Ok(())
}

// Nops from a place up to that of an instruction, and the instruction.
fn push_step(
    out: &mut Vec<u8>,
    table: &EntryTable,
    at: usize,
    row: u16,
    site: &Site,
) -> Result<(), AllocError>
    requires few { length table.now ≤ 65534 }
    ensures { OnOk result (out.new.items ≡ out.old.items ++ (replicate (site.now.pc - at) 0 ++ instruction (instruction_of table.now row site.now))) }
{
    push_nops(out, usize::from(site.pc).saturating_sub(at))?;
    push_instruction(out, table, row, site)?;
    Ok(())
}

/// The code of some sites, of which the first that calls a bootstrap method has this row. Takes one pass over them and
/// over the code.
pub fn code_of(
    alloc: Global,
    table: &EntryTable,
    first: u16,
    sites: &[Site],
) -> Result<Vec<u8>, AllocError>
    requires few { length table.now ≤ 65534 }
    requires rows { first + length (calls (steps_of sites.now)) ≤ 65535 }
    ensures { IfOk result (λ code. code.items ≡ code_bytes table.now 0 (numbered row_count first (steps_of sites.now))) }
{
    let mut code = Vec::new(alloc);
    let mut at = 0;
    let mut row = first;
    let mut rest = sites;
    while let Some((step, others)) = split_step(rest) {
        let site = step.first();
        push_step(&mut code, table, at, row, site)?;
        at = usize::from(site.pc) + size_of(site.kind);
        if is_handle(site.kind) {
            row += 1;
        }
        rest = others;
    }
    code.push(177)?;
    Ok(code)
}
