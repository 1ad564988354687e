//! How a stored graph is written.
ghost use Rattle.std.specs.Prelude.{◌≡◌, ◌<◌, ◌≤◌, ◌^◌, ◌++◌, ◌∷◌, [], ℕ, List, All, length, OnOk, IfOk};
ghost use Rattle.std.specs.List.{flat_map};
ghost use Rattle.fcg_grammar.specs.Spell.{u2, u4};
ghost use Rattle.fcg_views.specs.NamesIn.{names_of_site, names_of_field, names_of_method, names_of_super, names_in};
ghost use Rattle.fcg_partial.specs.Graph.{kind_number, name_text, ref_text, super_number, FitsName, FitsRef};
ghost use Rattle.fcg_partial.specs.Views.{super_number_of};
ghost use Rattle.fcg_partial.specs.SmallNumbers.{IsSmallSite, IsSmallField, IsSmallMethod, IsSmallView};
ghost use Rattle.fcg_partial.specs.Internal.Written.{AreTables, HasCounts, HasFewSites, collected, names_of_head, names_of_members, Takes, numbers_of, written_site, written_field, written_method, written_name, written_head, written_members, written_type, written_tables, written};

use crate::index::MAGIC;
use crate::intern::{RefRow4, RefTable, make_row};
use crate::name_numbers::NameNumbers;
use crate::rows::NO_SUPERCLASS;
use fcg_views::{Field, HandleKind, Method, Name, Site, SiteKind, View};
use std::alloc::{AllocError, Global};

fn push_u2(out: &mut Vec<u8>, n: u16) -> Result<(), AllocError>
    ensures { OnOk result (out.new.items ≡ out.old.items ++ u2 n) }
{
    out.extend_from_slice(&n.to_be_bytes())
}

fn push_u4(out: &mut Vec<u8>, n: u32) -> Result<(), AllocError>
    ensures { OnOk result (out.new.items ≡ out.old.items ++ u4 n) }
{
    out.extend_from_slice(&n.to_be_bytes())
}

fn push_name_row(out: &mut Vec<u8>, name: &Name) -> Result<(), AllocError>
    requires { FitsName name.now }
    ensures { OnOk result (out.new.items ≡ out.old.items ++ name_text name.now) }
{
    let bytes = name.as_slice();
    push_u2(out, bytes.len() as u16)?;
    out.extend_from_slice(bytes)
}

fn push_name_rows(out: &mut Vec<u8>, names: &[Name]) -> Result<(), AllocError>
    requires { All FitsName names.now }
    ensures { OnOk result (out.new.items ≡ out.old.items ++ flat_map name_text names.now) }
{
    for name in names {
        push_name_row(out, name)?;
    }
    Ok(())
}

fn push_ref_row(out: &mut Vec<u8>, row: &RefRow4) -> Result<(), AllocError>
    requires { FitsRef row.now }
    ensures { OnOk result (out.new.items ≡ out.old.items ++ ref_text row.now) }
{
    push_u4(out, row[0])?;
    out.push(row[1] as u8)?;
    push_u4(out, row[2])?;
    push_u4(out, row[3])?;
    Ok(())
}

fn push_ref_rows(out: &mut Vec<u8>, refs: &[RefRow4]) -> Result<(), AllocError>
    requires { All FitsRef refs.now }
    ensures { OnOk result (out.new.items ≡ out.old.items ++ flat_map ref_text refs.now) }
{
    for row in refs {
        push_ref_row(out, row)?;
    }
    Ok(())
}

// The magic number, the version and the tables.
#[tactic(auto, unfolding(crate::specs::Internal::Written::written_tables))]
fn push_tables(out: &mut Vec<u8>, names: &[Name], refs: &[RefRow4]) -> Result<(), AllocError>
    requires tables { AreTables names.now refs.now }
    requires names { All FitsName names.now }
    requires refs { All FitsRef refs.now }
    ensures { OnOk result (out.new.items ≡ out.old.items ++ written_tables names.now refs.now) }
{
    push_u4(out, MAGIC)?;
    push_u2(out, 1)?;
    push_u4(out, names.len() as u32)?;
    push_name_rows(out, names)?;
    push_u4(out, refs.len() as u32)?;
    push_ref_rows(out, refs)?;
    Ok(())
}

fn byte_of(kind: SiteKind) -> u8
    ensures { result ≡ kind_number kind }
{
    match kind {
        SiteKind::Virtual => 0,
        SiteKind::Interface => 1,
        SiteKind::Special => 2,
        SiteKind::Static => 3,
        SiteKind::New => 4,
        SiteKind::StaticField => 5,
        SiteKind::Handle(HandleKind::K5) => 0x15,
        SiteKind::Handle(HandleKind::K6) => 0x16,
        SiteKind::Handle(HandleKind::K7) => 0x17,
        SiteKind::Handle(HandleKind::K8) => 0x18,
        SiteKind::Handle(HandleKind::K9) => 0x19,
    }
}

fn push_site(
    out: &mut Vec<u8>,
    refs: &RefTable,
    site: &Site,
    numbers: &mut NameNumbers<'_>,
) -> Result<(), AllocError>
    ensures text { OnOk result (Takes (names_of_site site.now) numbers.old numbers.new (λ names. out.new.items ≡ out.old.items ++ written_site names refs.now site.now)) }
    ensures small { OnOk result (IsSmallSite site.now) }
{
    push_u2(out, site.pc)?;
    out.push(byte_of(site.kind))?;
    let row = make_row(&site.target, numbers);
    push_u4(out, refs.number_of(&row))?;
    Ok(())
}

fn push_sites(
    out: &mut Vec<u8>,
    refs: &RefTable,
    sites: &[Site],
    numbers: &mut NameNumbers<'_>,
) -> Result<(), AllocError>
    ensures text { OnOk result (Takes (flat_map names_of_site sites.now) numbers.old numbers.new (λ names. out.new.items ≡ out.old.items ++ flat_map (written_site names refs.now) sites.now)) }
    ensures small { OnOk result (All IsSmallSite sites.now) }
{
    for site in sites {
        push_site(out, refs, site, numbers)?;
    }
    Ok(())
}

#[tactic(auto, unfolding(crate::specs::Internal::Written::written_method))]
fn push_method(
    out: &mut Vec<u8>,
    refs: &RefTable,
    method: &Method,
    numbers: &mut NameNumbers<'_>,
) -> Result<(), AllocError>
    requires { HasFewSites method.now }
    ensures text { OnOk result (Takes (names_of_method method.now) numbers.old numbers.new (λ names. out.new.items ≡ out.old.items ++ written_method names refs.now method.now)) }
    ensures small { OnOk result (IsSmallMethod method.now) }
{
    let sites = method.sites.as_slice();
    push_u4(out, numbers.next())?;
    push_u4(out, numbers.next())?;
    push_u2(out, method.flags)?;
    push_u4(out, sites.len() as u32)?;
    push_sites(out, refs, sites, numbers)?;
    Ok(())
}

fn push_methods(
    out: &mut Vec<u8>,
    refs: &RefTable,
    methods: &[Method],
    numbers: &mut NameNumbers<'_>,
) -> Result<(), AllocError>
    requires { All HasFewSites methods.now }
    ensures text { OnOk result (Takes (flat_map names_of_method methods.now) numbers.old numbers.new (λ names. out.new.items ≡ out.old.items ++ flat_map (written_method names refs.now) methods.now)) }
    ensures small { OnOk result (All IsSmallMethod methods.now) }
{
    for method in methods {
        push_method(out, refs, method, numbers)?;
    }
    Ok(())
}

fn push_field(
    out: &mut Vec<u8>,
    field: &Field,
    numbers: &mut NameNumbers<'_>,
) -> Result<(), AllocError>
    ensures text { OnOk result (Takes (names_of_field field.now) numbers.old numbers.new (λ names. out.new.items ≡ out.old.items ++ written_field names field.now)) }
    ensures small { OnOk result (IsSmallField field.now) }
{
    push_u4(out, numbers.next())?;
    push_u4(out, numbers.next())?;
    push_u2(out, field.flags)?;
    Ok(())
}

fn push_fields(
    out: &mut Vec<u8>,
    fields: &[Field],
    numbers: &mut NameNumbers<'_>,
) -> Result<(), AllocError>
    ensures text { OnOk result (Takes (flat_map names_of_field fields.now) numbers.old numbers.new (λ names. out.new.items ≡ out.old.items ++ flat_map (written_field names) fields.now)) }
    ensures small { OnOk result (All IsSmallField fields.now) }
{
    for field in fields {
        push_field(out, field, numbers)?;
    }
    Ok(())
}

fn push_interfaces(
    out: &mut Vec<u8>,
    interfaces: &[Name],
    numbers: &mut NameNumbers<'_>,
) -> Result<(), AllocError>
    ensures { OnOk result (Takes interfaces.now numbers.old numbers.new (λ names. out.new.items ≡ out.old.items ++ flat_map (written_name names) interfaces.now)) }
{
    for _name in interfaces {
        push_u4(out, numbers.next())?;
    }
    Ok(())
}

// The number of a superclass, or the one that stands for none.
fn super_number(superclass: &Option<Name>, numbers: &mut NameNumbers<'_>) -> u32
    ensures { Takes (names_of_super superclass.now) numbers.old numbers.new (λ names. result ≡ super_number (super_number_of names superclass.now)) }
{
    match superclass {
        Some(_) => numbers.next(),
        None => NO_SUPERCLASS,
    }
}

// A type up to its interfaces.
#[tactic(auto, unfolding(crate::specs::Internal::Written::written_head))]
fn push_head(
    out: &mut Vec<u8>,
    view: &View,
    numbers: &mut NameNumbers<'_>,
) -> Result<(), AllocError>
    requires { HasCounts view.now }
    ensures text { OnOk result (Takes (names_of_head view.now) numbers.old numbers.new (λ names. out.new.items ≡ out.old.items ++ written_head names view.now)) }
    ensures small { OnOk result (view.now.flags < 2 ^ 16) }
{
    let interfaces = view.interfaces.as_slice();
    push_u4(out, numbers.next())?;
    push_u2(out, view.flags)?;
    push_u4(out, super_number(&view.superclass, numbers))?;
    push_u2(out, interfaces.len() as u16)?;
    push_interfaces(out, interfaces, numbers)?;
    Ok(())
}

// The fields and the methods of a type.
#[tactic(auto, unfolding(crate::specs::Internal::Written::written_members))]
fn push_members(
    out: &mut Vec<u8>,
    refs: &RefTable,
    view: &View,
    numbers: &mut NameNumbers<'_>,
) -> Result<(), AllocError>
    requires { HasCounts view.now }
    ensures text { OnOk result (Takes (names_of_members view.now) numbers.old numbers.new (λ names. out.new.items ≡ out.old.items ++ written_members names refs.now view.now)) }
    ensures small { OnOk result ((All IsSmallField view.now.fields) × (All IsSmallMethod view.now.methods)) }
{
    let fields = view.fields.as_slice();
    let methods = view.methods.as_slice();
    push_u2(out, fields.len() as u16)?;
    push_fields(out, fields, numbers)?;
    push_u2(out, methods.len() as u16)?;
    push_methods(out, refs, methods, numbers)?;
    Ok(())
}

#[tactic(auto, unfolding(crate::specs::Internal::Written::written_type))]
fn push_type(
    out: &mut Vec<u8>,
    refs: &RefTable,
    view: &View,
    numbers: &mut NameNumbers<'_>,
) -> Result<(), AllocError>
    requires { HasCounts view.now }
    ensures text { OnOk result (Takes (names_in view.now) numbers.old numbers.new (λ names. out.new.items ≡ out.old.items ++ written_type names refs.now view.now)) }
    ensures small { OnOk result (IsSmallView view.now) }
{
    push_head(out, view, numbers)?;
    push_members(out, refs, view, numbers)?;
    Ok(())
}

fn push_types(
    out: &mut Vec<u8>,
    refs: &RefTable,
    views: &[View],
    numbers: &mut NameNumbers<'_>,
) -> Result<(), AllocError>
    requires { All HasCounts views.now }
    ensures text { OnOk result (Takes (collected views.now) numbers.old numbers.new (λ names. out.new.items ≡ out.old.items ++ flat_map (written_type names refs.now) views.now)) }
    ensures small { OnOk result (All IsSmallView views.now) }
{
    for view in views {
        push_type(out, refs, view, numbers)?;
    }
    Ok(())
}

// The bytes that spell the views, with the numbers of their names in these tables.
#[tactic(auto, unfolding(crate::specs::Internal::Written::written))]
pub(crate) fn write_graph(
    alloc: Global,
    names: &[Name],
    refs: &RefTable,
    views: &[View],
    numbers: &[u32],
) -> Result<Vec<u8>, AllocError>
    requires tables { AreTables names.now refs.now }
    requires names { All FitsName names.now }
    requires refs { All FitsRef refs.now }
    requires few { length views.now < 2 ^ 32 }
    requires counts { All HasCounts views.now }
    requires numbers { numbers.now ≡ numbers_of names.now (collected views.now) }
    ensures text { IfOk result (λ out. out.items ≡ written names.now refs.now views.now) }
    ensures small { IfOk result (λ out. All IsSmallView views.now) }
{
    let mut out = Vec::new(alloc);
    push_tables(&mut out, names, refs.as_slice())?;
    push_u4(&mut out, views.len() as u32)?;
    push_types(&mut out, refs, views, &mut NameNumbers::new(numbers))?;
    Ok(out)
}
