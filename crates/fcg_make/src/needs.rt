//! The entries that a class file needs in its pool, in its order.
ghost use Rattle.std.specs.Prelude.{◌≡◌, ◌≤◌, ◌+◌, length, IfOk, OnOk};
ghost use Rattle.std.specs.List.{flat_map};
ghost use Rattle.fcg_make.specs.Entries.{added_all};
ghost use Rattle.fcg_make.specs.Steps.{calls, steps_of, row_count, method_rows, numbered};
ghost use Rattle.fcg_make.specs.Needs.{type_needs, member_needs, reference_needs, handle_needs, dynamic_needs, site_needs, code_needs, field_needs, method_needs, super_needs, step_needs, row_needs, rows_of, rows_needs, pool_of};

use crate::entry::{Entry, method_tag};
use crate::step::{Step, is_handle, split_step};
use crate::table::EntryTable;
use crate::words::Words;
use fcg_views::{Field, Method, Name, Ref, Site, SiteKind, View};
use std::alloc::{AllocError, Global};

fn add_type(table: &mut EntryTable, name: &Name) -> Result<(), AllocError>
    ensures { OnOk result (table.new ≡ added_all table.old (type_needs name.now)) }
{
    table.add(Entry::text(name)?)?;
    table.add(Entry::class(name)?)
}

fn add_member(table: &mut EntryTable, name: &Name, desc: &Name) -> Result<(), AllocError>
    ensures { OnOk result (table.new ≡ added_all table.old (member_needs name.now desc.now)) }
{
    table.add(Entry::text(name)?)?;
    table.add(Entry::text(desc)?)?;
    table.add(Entry::member(name, desc)?)
}

fn add_reference(table: &mut EntryTable, tag: u8, target: &Ref) -> Result<(), AllocError>
    ensures { OnOk result (table.new ≡ added_all table.old (reference_needs tag target.now)) }
{
    add_type(table, &target.owner)?;
    add_member(table, &target.name, &target.desc)?;
    table.add(Entry::reference(tag, target)?)
}

fn add_handle(table: &mut EntryTable, site: &Site) -> Result<(), AllocError>
    ensures { OnOk result (table.new ≡ added_all table.old (handle_needs site.now)) }
{
    add_reference(table, method_tag(&site.target), &site.target)?;
    table.add(Entry::handle(site)?)
}

fn add_handles(table: &mut EntryTable, sites: &[Site]) -> Result<(), AllocError>
    ensures { OnOk result (table.new ≡ added_all table.old (flat_map handle_needs sites.now)) }
{
    for site in sites {
        add_handle(table, site)?;
    }
    Ok(())
}

fn add_dynamic(table: &mut EntryTable, words: &Words, row: u16) -> Result<(), AllocError>
    ensures { OnOk result (table.new ≡ added_all table.old (dynamic_needs row)) }
{
    add_member(table, words.name(), words.desc())?;
    table.add(Entry::Dynamic(row))
}

fn add_site(table: &mut EntryTable, words: &Words, row: u16, site: &Site) -> Result<(), AllocError>
    ensures { OnOk result (table.new ≡ added_all table.old (site_needs row site.now.kind site.now.target)) }
{
    match site.kind {
        SiteKind::New => add_type(table, &site.target.owner),
        SiteKind::StaticField => add_reference(table, 9, &site.target),
        SiteKind::Handle(_) => add_dynamic(table, words, row),
        _ => add_reference(table, method_tag(&site.target), &site.target),
    }
}

// Adds what the instructions of some sites need, of which the first that calls a bootstrap method has this row. Answers
// the row of the next.
fn add_sites(
    table: &mut EntryTable,
    words: &Words,
    first: u16,
    sites: &[Site],
) -> Result<u16, AllocError>
    requires few { first + length (calls (steps_of sites.now)) ≤ 65535 }
    ensures table { OnOk result (table.new ≡ added_all table.old (flat_map step_needs (numbered row_count first (steps_of sites.now)))) }
    ensures row { IfOk result (λ row. row ≡ first + length (calls (steps_of sites.now))) }
{
    let mut row = first;
    let mut rest = sites;
    while let Some((step, others)) = split_step(rest) {
        add_site(table, words, row, step.first())?;
        if is_handle(step.first().kind) {
            row += 1;
        }
        rest = others;
    }
    Ok(row)
}

// The same for the code of a method, which has one where it has sites.
#[tactic(auto, using(crate::proofs::AddLemmas::with_code))]
fn add_code(
    table: &mut EntryTable,
    words: &Words,
    first: u16,
    sites: &[Site],
) -> Result<u16, AllocError>
    requires few { first + length (calls (steps_of sites.now)) ≤ 65535 }
    ensures table { OnOk result (table.new ≡ added_all table.old (code_needs first (steps_of sites.now))) }
    ensures row { IfOk result (λ row. row ≡ first + length (calls (steps_of sites.now))) }
{
    if sites.is_empty() {
        return Ok(first);
    }
    table.add(Entry::text(words.code())?)?;
    add_sites(table, words, first, sites)
}

// The same for a method.
fn add_method(
    table: &mut EntryTable,
    words: &Words,
    first: u16,
    method: &Method,
) -> Result<u16, AllocError>
    requires few { first + method_rows method.now ≤ 65535 }
    ensures table { OnOk result (table.new ≡ added_all table.old (method_needs (first, method.now))) }
    ensures row { IfOk result (λ row. row ≡ first + method_rows method.now) }
{
    table.add(Entry::text(&method.name)?)?;
    table.add(Entry::text(&method.desc)?)?;
    add_code(table, words, first, method.sites.as_slice())
}

fn add_methods(table: &mut EntryTable, words: &Words, methods: &[Method]) -> Result<(), AllocError>
    requires few { length (rows_of methods.now) ≤ 65535 }
    ensures { OnOk result (table.new ≡ added_all table.old (flat_map method_needs (numbered method_rows 0 methods.now))) }
{
    let mut row = 0;
    let mut rest = methods;
    while let Some((method, others)) = rest.split_first() {
        row = add_method(table, words, row, method)?;
        rest = others;
    }
    Ok(())
}

fn add_field(table: &mut EntryTable, field: &Field) -> Result<(), AllocError>
    ensures { OnOk result (table.new ≡ added_all table.old (field_needs field.now)) }
{
    table.add(Entry::text(&field.name)?)?;
    table.add(Entry::text(&field.desc)?)
}

fn add_fields(table: &mut EntryTable, fields: &[Field]) -> Result<(), AllocError>
    ensures { OnOk result (table.new ≡ added_all table.old (flat_map field_needs fields.now)) }
{
    for field in fields {
        add_field(table, field)?;
    }
    Ok(())
}

fn add_types(table: &mut EntryTable, names: &[Name]) -> Result<(), AllocError>
    ensures { OnOk result (table.new ≡ added_all table.old (flat_map type_needs names.now)) }
{
    for name in names {
        add_type(table, name)?;
    }
    Ok(())
}

fn add_super(table: &mut EntryTable, view: &View) -> Result<(), AllocError>
    ensures { OnOk result (table.new ≡ added_all table.old (super_needs view.now.superclass)) }
{
    match &view.superclass {
        Some(name) => add_type(table, name),
        None => Ok(()),
    }
}

#[tactic(auto, using(crate::proofs::AddLemmas::added_all_append))]
fn add_row(table: &mut EntryTable, row: &Step<'_>) -> Result<(), AllocError>
    ensures { OnOk result (table.new ≡ added_all table.old (row_needs row.now)) }
{
    add_handle(table, row.first())?;
    add_handles(table, row.more())
}

fn add_row_list(table: &mut EntryTable, rows: &[Step<'_>]) -> Result<(), AllocError>
    ensures { OnOk result (table.new ≡ added_all table.old (flat_map row_needs rows.now)) }
{
    for row in rows {
        add_row(table, row)?;
    }
    Ok(())
}

fn add_rows(table: &mut EntryTable, words: &Words, rows: &[Step<'_>]) -> Result<(), AllocError>
    ensures { OnOk result (table.new ≡ added_all table.old (rows_needs rows.now)) }
{
    if rows.is_empty() {
        return Ok(());
    }
    table.add(Entry::text(words.rows())?)?;
    add_row_list(table, rows)
}

/// The entries of the pool of a view, whose rows of bootstrap methods are these. Takes one pass over the view, and for
/// each entry that is needed a logarithm of their number in comparisons, as often as it is needed.
pub fn collect_entries(
    alloc: Global,
    words: &Words,
    view: &View,
    rows: &[Step<'_>],
) -> Result<EntryTable, AllocError>
    requires rows { rows.now ≡ rows_of view.now.methods }
    requires few { length rows.now ≤ 65535 }
    ensures { IfOk result (λ table. table ≡ pool_of view.now) }
{
    let mut table = EntryTable::new(alloc);
    add_type(&mut table, &view.name)?;
    add_super(&mut table, view)?;
    add_types(&mut table, view.interfaces.as_slice())?;
    add_fields(&mut table, view.fields.as_slice())?;
    add_methods(&mut table, words, view.methods.as_slice())?;
    add_rows(&mut table, words, rows)?;
    Ok(table)
}
