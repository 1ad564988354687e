//! The tables of names and of references of some views.
ghost use Rattle.std.specs.Prelude.{◌≡◌, ◌<◌, ◌^◌, ◌++◌, ◌∷◌, [], ℕ, List, length, OnOk, IfOk, IsTrue};
ghost use Rattle.std.specs.List.{flat_map};
ghost use Rattle.fcg_grammar.specs.Table.{table, place, Rises};
ghost use Rattle.fcg_views.specs.NamesIn.{names_of_ref, names_of_site, names_of_field, names_of_method, names_of_super, names_in, names_by};
ghost use Rattle.fcg_partial.specs.Views.{ref_row};
ghost use Rattle.fcg_partial.specs.Internal.Written.{Takes, numbers_of, names_with, site_rows, method_rows, view_rows, collected};
ghost use Rattle.fcg_partial.specs.Internal.Mentions.{IsTextOf};

use crate::mentions::Mentions;
use crate::name_numbers::NameNumbers;
use fcg_views::{Field, Method, Name, NameList, Ref, Site, View, Views};
use std::alloc::{AllocError, Global};
use std::marker::Model;

// How many rows the table of texts has for each view without a list of its names.
const TEXTS_OF_A_VIEW: usize = 64;

// The rows of a reference: the numbers of its owner, of its interface, of its name and of its descriptor.
pub(crate) type RefRow4 = [u32; 4];

fn push_ref_names(names: &mut Mentions, target: &Ref) -> Result<(), AllocError>
    ensures { OnOk result (names.new ≡ names.old ++ names_of_ref target.now) }
{
    names.push(&target.owner)?;
    names.push(&target.name)?;
    names.push(&target.desc)?;
    Ok(())
}

fn push_site_names(names: &mut Mentions, sites: &[Site]) -> Result<(), AllocError>
    ensures { OnOk result (names.new ≡ names.old ++ flat_map names_of_site sites.now) }
{
    for site in sites {
        push_ref_names(names, &site.target)?;
    }
    Ok(())
}

fn push_superclass(names: &mut Mentions, superclass: &Option<Name>) -> Result<(), AllocError>
    ensures { OnOk result (names.new ≡ names.old ++ names_of_super superclass.now) }
{
    if let Some(name) = superclass {
        names.push(name)?;
    }
    Ok(())
}

fn push_interfaces(names: &mut Mentions, interfaces: &[Name]) -> Result<(), AllocError>
    ensures { OnOk result (names.new ≡ names.old ++ interfaces.now) }
{
    for name in interfaces {
        names.push(name)?;
    }
    Ok(())
}

fn push_field_names(names: &mut Mentions, fields: &[Field]) -> Result<(), AllocError>
    ensures { OnOk result (names.new ≡ names.old ++ flat_map names_of_field fields.now) }
{
    for field in fields {
        names.push(&field.name)?;
        names.push(&field.desc)?;
    }
    Ok(())
}

fn push_method_names(names: &mut Mentions, method: &Method) -> Result<(), AllocError>
    ensures { OnOk result (names.new ≡ names.old ++ names_of_method method.now) }
{
    names.push(&method.name)?;
    names.push(&method.desc)?;
    push_site_names(names, method.sites.as_slice())
}

fn push_methods_names(names: &mut Mentions, methods: &[Method]) -> Result<(), AllocError>
    ensures { OnOk result (names.new ≡ names.old ++ flat_map names_of_method methods.now) }
{
    for method in methods {
        push_method_names(names, method)?;
    }
    Ok(())
}

fn push_view_names(names: &mut Mentions, view: &View) -> Result<(), AllocError>
    ensures { OnOk result (names.new ≡ names.old ++ names_in view.now) }
{
    names.push(&view.name)?;
    push_superclass(names, &view.superclass)?;
    push_interfaces(names, view.interfaces.as_slice())?;
    push_field_names(names, view.fields.as_slice())?;
    push_methods_names(names, view.methods.as_slice())
}

fn push_names(names: &mut Mentions, views: &[View]) -> Result<(), AllocError>
    ensures { OnOk result (names.new ≡ names.old ++ collected views.now) }
{
    for view in views {
        push_view_names(names, view)?;
    }
    Ok(())
}

fn push_lists(names: &mut Mentions, alloc: Global, lists: &[NameList]) -> Result<(), AllocError>
    ensures { OnOk result (names.new ≡ names.old ++ flat_map names_by lists.now) }
{
    for list in lists {
        names.push_list(alloc, list)?;
    }
    Ok(())
}

// How many texts the lists have.
fn count_texts(lists: &[NameList]) -> usize {
    let mut count: usize = 0;
    for list in lists {
        count = count.saturating_add(list.text_count());
    }
    count
}

fn collect_listed(alloc: Global, lists: &[NameList]) -> Result<Mentions, AllocError>
    ensures { IfOk result (λ names. names ≡ flat_map names_by lists.now) }
{
    let mut names = Mentions::new(alloc, count_texts(lists))?;
    push_lists(&mut names, alloc, lists)?;
    Ok(names)
}

fn collect_walked(alloc: Global, views: &[View]) -> Result<Mentions, AllocError>
    ensures { IfOk result (λ names. names ≡ collected views.now) }
{
    let mut names = Mentions::new(alloc, views.len().saturating_mul(TEXTS_OF_A_VIEW))?;
    push_names(&mut names, views)?;
    Ok(names)
}

// The names in the views, each as often as it stands, in the order in which the types are written.
pub(crate) fn collect_names(alloc: Global, views: &Views) -> Result<Mentions, AllocError>
    ensures { IfOk result (λ names. names ≡ collected views.now) }
{
    match views.names() {
        Some(lists) => collect_listed(alloc, lists),
        None => collect_walked(alloc, views.as_slice()),
    }
}

// Each name once, in their order.
fn sort_names(mut names: Vec<Name>) -> Vec<Name>
    ensures { result.items ≡ table names.items }
{
    names.sort_unstable();
    names.dedup();
    names
}

// The table of the names in the views.
pub(crate) fn make_name_table(alloc: Global, mentions: &Mentions) -> Result<Vec<Name>, AllocError>
    ensures { IfOk result (λ names. names.items ≡ table mentions.now) }
{
    Ok(sort_names(mentions.copy_texts(alloc)?))
}

// Whether a text of a list is the name.
pub(crate) fn is_text(texts: &[Name], number: u32, name: &Name) -> bool
    ensures { IsTrue result → IsTextOf texts.now number name.now }
{
    match texts.get(number as usize) {
        Some(text) => text == name,
        None => false,
    }
}

// The number of a name: the one that it probably has, or else by a search in the table; the number past its end for a
// name that isn't there.
pub(crate) fn number_of(names: &[Name], name: &Name, hint: u32) -> u32
    requires rises { Rises names.now }
    requires few { length names.now < 2 ^ 32 }
    ensures { result ≡ place names.now name.now }
{
    if is_text(names, hint, name) {
        return hint;
    }
    names.binary_search(name).unwrap_or(names.len()) as u32
}

// The row of a reference, whose names have the next numbers.
pub(crate) fn make_row(target: &Ref, numbers: &mut NameNumbers<'_>) -> RefRow4
    ensures { Takes (names_of_ref target.now) numbers.old numbers.new (λ names. result ≡ ref_row names target.now) }
{
    let owner = numbers.next();
    let name = numbers.next();
    let desc = numbers.next();
    [owner, u32::from(target.owner_is_interface_ref), name, desc]
}

fn push_site_rows(
    rows: &mut Vec<RefRow4>,
    sites: &[Site],
    numbers: &mut NameNumbers<'_>,
) -> Result<(), AllocError>
    ensures { OnOk result (Takes (flat_map names_of_site sites.now) numbers.old numbers.new (λ names. rows.new.items ≡ rows.old.items ++ flat_map (site_rows names) sites.now)) }
{
    for site in sites {
        let row = make_row(&site.target, numbers);
        rows.push(row)?;
    }
    Ok(())
}

fn push_method_rows(
    rows: &mut Vec<RefRow4>,
    method: &Method,
    numbers: &mut NameNumbers<'_>,
) -> Result<(), AllocError>
    ensures { OnOk result (Takes (names_of_method method.now) numbers.old numbers.new (λ names. rows.new.items ≡ rows.old.items ++ method_rows names method.now)) }
{
    numbers.skip(2);
    push_site_rows(rows, method.sites.as_slice(), numbers)?;
    Ok(())
}

fn push_methods_rows(
    rows: &mut Vec<RefRow4>,
    methods: &[Method],
    numbers: &mut NameNumbers<'_>,
) -> Result<(), AllocError>
    ensures { OnOk result (Takes (flat_map names_of_method methods.now) numbers.old numbers.new (λ names. rows.new.items ≡ rows.old.items ++ flat_map (method_rows names) methods.now)) }
{
    for method in methods {
        push_method_rows(rows, method, numbers)?;
    }
    Ok(())
}

fn skip_superclass(superclass: &Option<Name>, numbers: &mut NameNumbers<'_>)
    ensures { (names : List (List ℕ)) (more : List ℕ) → numbers.old ≡ numbers_of names (names_of_super superclass.now) ++ more → numbers.new ≡ more }
{
    if superclass.is_some() {
        numbers.skip(1);
    }
}

// Passes the numbers of a view over, up to those of its methods.
fn skip_to_methods(view: &View, numbers: &mut NameNumbers<'_>)
    ensures { (names methods : List (List ℕ)) (more : List ℕ) → numbers.old ≡ numbers_of names (names_with view.now methods) ++ more → numbers.new ≡ numbers_of names methods ++ more }
{
    numbers.skip(1);
    skip_superclass(&view.superclass, numbers);
    numbers.skip(view.interfaces.as_slice().len());
    let fields = view.fields.as_slice().len();
    numbers.skip(fields);
    numbers.skip(fields);
}

fn push_view_rows(
    rows: &mut Vec<RefRow4>,
    view: &View,
    numbers: &mut NameNumbers<'_>,
) -> Result<(), AllocError>
    ensures { OnOk result (Takes (names_in view.now) numbers.old numbers.new (λ names. rows.new.items ≡ rows.old.items ++ view_rows names view.now)) }
{
    skip_to_methods(view, numbers);
    push_methods_rows(rows, view.methods.as_slice(), numbers)?;
    Ok(())
}

fn push_rows(
    rows: &mut Vec<RefRow4>,
    views: &[View],
    numbers: &mut NameNumbers<'_>,
) -> Result<(), AllocError>
    ensures { OnOk result (Takes (collected views.now) numbers.old numbers.new (λ names. rows.new.items ≡ rows.old.items ++ flat_map (view_rows names) views.now)) }
{
    for view in views {
        push_view_rows(rows, view, numbers)?;
    }
    Ok(())
}

// Each reference once, in their order.
fn sort_rows(mut rows: Vec<RefRow4>) -> Vec<RefRow4>
    ensures { result.items ≡ table rows.items }
{
    rows.sort_unstable();
    rows.dedup();
    rows
}

// The rows of the references in the views, whose names have these numbers. Sorts them.
pub(crate) fn collect_rows(
    alloc: Global,
    views: &[View],
    numbers: &[u32],
) -> Result<Vec<RefRow4>, AllocError>
    ensures { (names : List (List ℕ)) → numbers.now ≡ numbers_of names (collected views.now) → IfOk result (λ rows. rows.items ≡ table (flat_map (view_rows names) views.now)) }
{
    let mut rows = Vec::with_capacity(alloc, numbers.len() / 3)?;
    push_rows(&mut rows, views, &mut NameNumbers::new(numbers))?;
    Ok(sort_rows(rows))
}

// The table of the references of some views. For a row there is, by a hash of it, the number that it probably has.
#[derive(Drop)]
pub(crate) struct RefTable {
    rows: Vec<RefRow4>,
    by_hash: Vec<u32>,
}

impl Model for RefTable {
    ghost use Rattle.std.specs.Prelude.{ℕ, List, ◌<◌, ◌^◌, length};
    ghost use Rattle.fcg_grammar.specs.Table.{Rises};

    ghost Value = { List (List ℕ) };

    ghost view = { λ t. t.rows.items };

    ghost invariant = { λ t. (Rises t.rows.items) × (length t.rows.items < 2 ^ 32) };
}

// Which of so many rows of a table is that of a reference.
fn hash_of_row(row: &RefRow4, rows: usize) -> usize {
    let mixed = row[0].wrapping_mul(0x9e37_79b1)
        ^ row[2].wrapping_mul(0x85eb_ca77)
        ^ row[3].wrapping_mul(0xc2b2_ae3d);
    mixed as usize % rows.max(1)
}

impl RefTable {
    pub(crate) fn new(alloc: Global, rows: Vec<RefRow4>) -> Result<RefTable, AllocError>
        requires rises { Rises rows.items }
        requires few { length rows.items < 2 ^ 32 }
        ensures { IfOk result (λ refs. refs ≡ rows.items) }
    {
        let many = rows.len().saturating_mul(2);
        let mut by_hash = vec![in alloc; 0; many]?;
        for i in 0..rows.len() {
            if let Some(number) = by_hash.get_mut(hash_of_row(&rows[i], many)) {
                *number = i as u32;
            }
        }
        Ok(RefTable { rows, by_hash })
    }

    pub(crate) fn as_slice(&self) -> &[RefRow4]
        ensures { result.now ≡ self.now }
    {
        self.rows.as_slice()
    }

    // The number of a reference; the number past the end for one that isn't there.
    pub(crate) fn number_of(&self, row: &RefRow4) -> u32
        ensures { result ≡ place self.now row.now }
    {
        let at = hash_of_row(row, self.by_hash.len());
        let guess = self.by_hash.get(at).copied().unwrap_or(0);
        ref_number_of(self.rows.as_slice(), row, guess)
    }
}

// Whether the row of a number is this.
fn is_row(refs: &[RefRow4], number: u32, row: &RefRow4) -> bool
    ensures { IsTrue result → IsTextOf refs.now number row.now }
{
    match refs.get(number as usize) {
        Some(other) => other == row,
        None => false,
    }
}

// The number of a reference: the one that it probably has, or else by a search in the table; the number past its end for
// one that isn't there.
fn ref_number_of(refs: &[RefRow4], row: &RefRow4, hint: u32) -> u32
    requires rises { Rises refs.now }
    requires few { length refs.now < 2 ^ 32 }
    ensures { result ≡ place refs.now row.now }
{
    if is_row(refs, hint, row) {
        return hint;
    }
    refs.binary_search(row).unwrap_or(refs.len()) as u32
}
