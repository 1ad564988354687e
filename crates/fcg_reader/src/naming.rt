//! The view that rows stand for, with its names by the numbers of their texts. The text of each Utf8 is looked at once,
//! however many names it is of.
ghost use Rattle.std.specs.Prelude.{◌≡◌, ◌≤◌, ◌+◌, ◌∷◌, [], length, map, IfOk};
ghost use Rattle.std.specs.List.{flat_map};
ghost use Rattle.std.specs.Option.{option_map};
ghost use Rattle.fcg_grammar.specs.Number.{part};
ghost use Rattle.fcg_views.specs.NamesIn.{names_in, names_of_ref, names_of_site, names_of_super, names_of_field, names_of_method};
ghost use Rattle.fcg_reader.specs.Internal.Rows.{text_in, ref_in, site_in, sites_in, field_in, method_in, view_in};
ghost use Rattle.fcg_reader.specs.Internal.Naming.{IsNumberOf, NumberKept, NamesMore};

use crate::firsts::{first_of, unasked};
use crate::rows::{FieldRow, MethodRow, RefRow, SiteRow, ViewRows};
use fcg_pool::Pool;
use fcg_views::{
    Field, Fields, Method, Methods, Name, NameList, Names, NoMemory, NumberedView, Ref, Site,
    Sites, View,
};
use std::alloc::{AllocError, Global};
use std::marker::Model;

// Where the text of the Utf8 at an index begins in the file, and its length. Where no Utf8 is, it is the empty text.
fn find_span(pool: &Pool<'_>, index: u16) -> (usize, usize)
    ensures within { result.0 + result.1 ≤ length pool.now.bytes }
    ensures text { part pool.now.bytes result.0 result.1 ≡ text_in pool.now index }
{
    match pool.text(index) {
        Ok(text) => (text.at, text.bytes.len()),
        Err(_) => (0, 0),
    }
}

// Keeps the number of the text of the Utf8 at an index, where there is a place for it.
fn keep_number(numbers: &mut Vec<u16>, index: u16, number: u16)
    ensures { NumberKept index number numbers.old.items numbers.new.items }
{
    if number < u16::MAX
        && let Some(slot) = numbers.get_mut(usize::from(index))
    {
        *slot = number + 1;
    }
}

// How many names a view from rows has, which room is made for.
fn count_names(rows: &ViewRows) -> usize {
    let members = rows.fields.len().saturating_add(rows.methods.len());
    let mut count = members
        .saturating_mul(2)
        .saturating_add(rows.interfaces.len())
        .saturating_add(2);
    for method in rows.methods.as_slice() {
        count = count.saturating_add(method.sites.as_slice().len().saturating_mul(3));
    }
    count
}

// The names that were made of the texts of a pool, in the order in which they were made.
#[derive(Drop)]
struct Naming<'a> {
    pool: &'a Pool<'a>,
    list: NameList,
    // by the index of a Utf8 one more than the number of its text, or 0 where it has none yet
    numbers: Vec<u16>,
}

impl<'a> Model for Naming<'a> {
    ghost use Rattle.fcg_reader.specs.Internal.Naming.{Named, IsNamed};

    ghost Value = { Named };

    ghost view = { λ n. record { pool = n.pool.now; list = n.list } };

    ghost invariant = { λ n. IsNamed (record { pool = n.pool.now; list = n.list }) n.numbers.items };
}

impl<'a> Naming<'a> {
    // No name yet. It takes memory for the file's bytes, for each index of the pool and for this many names.
    fn new(alloc: Global, pool: &'a Pool<'a>, names: usize) -> Result<Naming<'a>, NoMemory>
        ensures { IfOk result (λ naming. naming ≡ record { pool = pool.now; list = record { block = pool.now.bytes; texts = []; numbers = [] } }) }
    {
        let file = Name::from_slice(alloc, pool.bytes())?;
        let numbers = unasked(alloc, pool.len() + 1)?;
        let mut list = NameList::new(alloc, file);
        list.reserve(pool.len() / 2, names)?;
        Ok(Naming {
            pool,
            list,
            numbers,
        })
    }

    // Adds the text of the Utf8 at an index, and gives its number.
    #[inline(never)]
    fn add_text(&mut self, index: u16) -> Result<u16, AllocError>
        ensures number { IfOk result (IsNumberOf self.new index) }
        ensures names { NamesMore self.old self.new [] }
    {
        let (begin, len) = find_span(self.pool, index);
        let number = self.list.add_text(begin, len)?;
        keep_number(&mut self.numbers, index, number);
        Ok(number)
    }

    // The number of the text of the Utf8 at an index. The text is added where it has none.
    #[inline(always)]
    fn number(&mut self, index: u16) -> Result<u16, AllocError>
        ensures number { IfOk result (IsNumberOf self.new index) }
        ensures names { NamesMore self.old self.new [] }
    {
        let kept = first_of(&self.numbers, index);
        if kept > 0 {
            return Ok(kept - 1);
        }
        self.add_text(index)
    }

    // The name that is the text of the Utf8 at an index.
    #[inline(always)]
    fn name(&mut self, index: u16) -> Result<Name, AllocError>
        ensures value { IfOk result (λ name. name ≡ text_in self.old.pool index) }
        ensures names { IfOk result (λ name. NamesMore self.old self.new (name ∷ [])) }
    {
        let number = self.number(index)?;
        self.list.push(number)?;
        self.list.text(usize::from(number))
    }

    // What a site names.
    #[inline(always)]
    fn name_ref(&mut self, row: RefRow) -> Result<Ref, AllocError>
        ensures value { IfOk result (λ target. target ≡ ref_in self.old.pool row) }
        ensures names { IfOk result (λ target. NamesMore self.old self.new (names_of_ref target)) }
    {
        let owner = self.name(row.owner)?;
        let name = self.name(row.name)?;
        let desc = self.name(row.desc)?;
        Ok(Ref {
            owner,
            owner_is_interface_ref: row.owner_is_interface_ref,
            name,
            desc,
        })
    }

    // A site.
    #[inline(always)]
    fn name_site(&mut self, row: SiteRow) -> Result<Site, AllocError>
        ensures value { IfOk result (λ site. site ≡ site_in self.old.pool row) }
        ensures names { IfOk result (λ site. NamesMore self.old self.new (names_of_site site)) }
    {
        Ok(Site {
            pc: row.pc,
            kind: row.kind,
            target: self.name_ref(row.target)?,
        })
    }

    // The sites of a method.
    fn name_sites(&mut self, alloc: Global, rows: &[SiteRow]) -> Result<Sites, AllocError>
        ensures value { IfOk result (λ sites. sites ≡ sites_in self.old.pool rows.now) }
        ensures names { IfOk result (λ sites. NamesMore self.old self.new (flat_map names_of_site sites)) }
    {
        let mut sites = Vec::with_capacity(alloc, rows.len())?;
        for row in rows {
            let site = self.name_site(*row)?;
            sites.push(site)?;
        }
        Ok(Sites::from(sites))
    }

    // A field.
    fn name_field(&mut self, row: FieldRow) -> Result<Field, AllocError>
        ensures value { IfOk result (λ field. field ≡ field_in self.old.pool row) }
        ensures names { IfOk result (λ field. NamesMore self.old self.new (names_of_field field)) }
    {
        let name = self.name(row.name)?;
        let desc = self.name(row.desc)?;
        Ok(Field {
            name,
            desc,
            flags: row.flags,
        })
    }

    // The fields.
    fn name_fields(&mut self, alloc: Global, rows: &[FieldRow]) -> Result<Fields, AllocError>
        ensures value { IfOk result (λ fields. fields ≡ map (field_in self.old.pool) rows.now) }
        ensures names { IfOk result (λ fields. NamesMore self.old self.new (flat_map names_of_field fields)) }
    {
        let mut fields = Vec::with_capacity(alloc, rows.len())?;
        for row in rows {
            let field = self.name_field(*row)?;
            fields.push(field)?;
        }
        Ok(Fields::from(fields))
    }

    // A method.
    fn name_method(&mut self, alloc: Global, row: &MethodRow) -> Result<Method, AllocError>
        ensures value { IfOk result (λ method. method ≡ method_in self.old.pool row.now) }
        ensures names { IfOk result (λ method. NamesMore self.old self.new (names_of_method method)) }
    {
        let name = self.name(row.name)?;
        let desc = self.name(row.desc)?;
        let sites = self.name_sites(alloc, row.sites.as_slice())?;
        Ok(Method {
            name,
            desc,
            flags: row.flags,
            sites,
        })
    }

    // The methods.
    fn name_methods(&mut self, alloc: Global, rows: &[MethodRow]) -> Result<Methods, AllocError>
        ensures value { IfOk result (λ methods. methods ≡ map (method_in self.old.pool) rows.now) }
        ensures names { IfOk result (λ methods. NamesMore self.old self.new (flat_map names_of_method methods)) }
    {
        let mut methods = Vec::with_capacity(alloc, rows.len())?;
        for row in rows {
            let method = self.name_method(alloc, row)?;
            methods.push(method)?;
        }
        Ok(Methods::from(methods))
    }

    // The superclass, where there is one.
    fn name_super(&mut self, index: Option<u16>) -> Result<Option<Name>, AllocError>
        ensures value { IfOk result (λ name. name ≡ option_map (text_in self.old.pool) index) }
        ensures names { IfOk result (λ name. NamesMore self.old self.new (names_of_super name)) }
    {
        match index {
            None => Ok(None),
            Some(index) => Ok(Some(self.name(index)?)),
        }
    }

    // The interfaces.
    fn name_interfaces(&mut self, alloc: Global, indexes: &[u16]) -> Result<Names, AllocError>
        ensures value { IfOk result (λ names. names ≡ map (text_in self.old.pool) indexes.now) }
        ensures names { IfOk result (λ names. NamesMore self.old self.new names) }
    {
        let mut names = Vec::with_capacity(alloc, indexes.len())?;
        for index in indexes {
            let name = self.name(*index)?;
            names.push(name)?;
        }
        Ok(Names::from(names))
    }

    // The view.
    fn name_view(&mut self, alloc: Global, rows: &ViewRows) -> Result<View, AllocError>
        ensures value { IfOk result (λ view. view ≡ view_in self.old.pool rows.now) }
        ensures names { IfOk result (λ view. NamesMore self.old self.new (names_in view)) }
    {
        let name = self.name(rows.name)?;
        let superclass = self.name_super(rows.superclass)?;
        let interfaces = self.name_interfaces(alloc, &rows.interfaces)?;
        let fields = self.name_fields(alloc, &rows.fields)?;
        let methods = self.name_methods(alloc, &rows.methods)?;
        Ok(View {
            name,
            flags: rows.flags,
            superclass,
            interfaces,
            fields,
            methods,
        })
    }

    // The list of the names.
    fn into_list(self) -> NameList
        ensures { result ≡ self.entry.list }
    {
        let mut list = self.list;
        list.shrink_to_fit();
        list
    }
}

/// The view that rows stand for, with its names by the numbers of their texts. They are parts of one copy of the file's
/// bytes.
///
/// Takes constant time for each name, and looks at no byte of a text but in this copy. Beside the view it takes memory for
/// each index of the pool, and for the number of each name.
pub fn name_view(alloc: Global, pool: &Pool<'_>, rows: &ViewRows) -> Result<NumberedView, NoMemory>
    ensures { IfOk result (λ view. view ≡ view_in pool.now rows.now) }
{
    let mut naming = Naming::new(alloc, pool, count_names(rows))?;
    let view = naming.name_view(alloc, rows)?;
    Ok(NumberedView::new(view, naming.into_list()))
}
