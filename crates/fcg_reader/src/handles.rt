//! The handle sites of calls of bootstrap methods (JVMS 4.4.8, 4.7.23).
ghost use Rattle.std.specs.Prelude.{◌≡◌, ◌≤◌, ◌<◌, ◌+◌, ◌^◌, length, IfOk, OnOk};
ghost use Rattle.fcg_grammar.specs.Reading.{seen, Gives};
ghost use Rattle.fcg_classfile.specs.Sites.{handle_form};
ghost use Rattle.fcg_classfile.specs.Breaks.Pool.{Entries};
ghost use Rattle.fcg_classfile.specs.Breaks.Bootstrap.{index_sites, row_sites, call_sites};
ghost use Rattle.fcg_reader.specs.Internal.Sites.{form_if_any};
ghost use Rattle.fcg_reader.specs.Internal.Rows.{sites_in};
ghost use Rattle.fcg_reader.specs.Internal.Handles.{site_list, bootstraps, moved_row, all_moved_at, counted, GivesMore};

use crate::bootstrap::Row;
use crate::kept::{find_kept, keep, nothing_kept};
use crate::names::ClassTexts;
use crate::rows::{SiteRow, SiteRows};
use crate::site::{MOST_SITES, SiteForm, Target, read_site_of};
use fcg_classfile::{ClassFault, ClassRule, DynamicCall, at_index, fault_at};
use fcg_grammar::ReadError;
use fcg_pool::Pool;
use fcg_views::{HandleKind, SiteKind};
use std::alloc::{AllocError, Global};
use std::marker::Model;

// What the sites of a kind of method handles have, or `None` where such a handle calls no method. A Methodref has the
// tag 10, an InterfaceMethodref 11.
fn handle_form(kind: u8) -> Option<SiteForm>
    ensures { form_if_any result ≡ handle_form kind }
{
    let (kind, target) = match kind {
        5 => (HandleKind::K5, Target::Method(&[10])),
        6 => (HandleKind::K6, Target::Method(&[10, 11])),
        7 => (HandleKind::K7, Target::Method(&[10, 11])),
        8 => (HandleKind::K8, Target::Method(&[10])),
        9 => (HandleKind::K9, Target::Method(&[11])),
        _ => return None,
    };
    Some(SiteForm {
        kind: SiteKind::Handle(kind),
        target,
    })
}

// The site of an index of a bootstrap method, or `None` where the constant there is no method handle that calls a
// method. `count` sites of the class are before it.
fn read_index_site(
    names: &mut ClassTexts<'_>,
    at: usize,
    pc: u16,
    index: u16,
    count: usize,
) -> Result<Option<SiteRow>, ClassFault>
    ensures value { seen (λ site. counted names.old count (site_list site)) result ≡ index_sites names.old at pc index count }
    ensures few { IfOk result (λ site. count ≤ 1000000 → count + length (site_list site) ≤ 1000000) }
    ensures same { names.new ≡ names.old }
{
    let handle = at_index(at, index, names.pool().handle_indexes(index))?;
    let Some((kind, named)) = handle else {
        return Ok(None);
    };
    let Some(form) = handle_form(kind) else {
        return Ok(None);
    };
    let site = read_site_of(names, form, at, pc, named, count)?;
    Ok(Some(site))
}

// Adds the site of an index of a bootstrap method, where it has one. `count` sites of the class are before those of the
// list.
fn push_index_site(
    names: &mut ClassTexts<'_>,
    at: usize,
    pc: u16,
    index: u16,
    count: usize,
    sites: &mut Vec<SiteRow>,
) -> Result<(), ReadError<ClassFault>>
    requires few { count + length sites.old.items ≤ 1000000 }
    ensures value { GivesMore names.old result count sites.old.items sites.new.items (index_sites names.old at pc index (count + length sites.old.items)) }
    ensures few { OnOk result (count + length sites.new.items ≤ 1000000) }
    ensures same { names.new ≡ names.old }
{
    let before = count + sites.len();
    if let Some(site) = read_index_site(names, at, pc, index, before)? {
        sites.push(site)?;
    }
    Ok(())
}

// The sites of a call at a pc, by its bootstrap method. The opcode stands at the place `at` of the file, and `count`
// sites of the class are before them.
#[tactic(auto, unfolding(fcg_classfile::specs::Breaks::Bootstrap::row_sites))]
fn read_row_sites(
    alloc: Global,
    names: &mut ClassTexts<'_>,
    row: &Row,
    at: usize,
    pc: u16,
    count: usize,
) -> Result<Vec<SiteRow>, ReadError<ClassFault>>
    requires few { count ≤ 1000000 }
    ensures value { Gives (λ sites. counted names.old count sites.items) result (row_sites names.old at pc row.now count) }
    ensures few { IfOk result (λ sites. count + length sites.items ≤ 1000000) }
    ensures same { names.new ≡ names.old }
{
    at_index(at, row.handle(), names.pool().handle_pair(row.handle()))?;
    let mut sites = Vec::new(alloc);
    push_index_site(names, at, pc, row.handle(), count, &mut sites)?;
    for index in row.arguments() {
        push_index_site(names, at, pc, *index, count, &mut sites)?;
    }
    Ok(sites)
}

// The same site at another pc.
fn move_site(site: SiteRow, pc: u16) -> SiteRow
    ensures { result ≡ moved_row pc site }
{
    SiteRow {
        pc,
        kind: site.kind,
        target: site.target,
    }
}

// Adds the sites of a bootstrap method as those of a call at a pc. `count` sites of the class are before those of the
// list.
fn push_moved(
    found: &[SiteRow],
    at: usize,
    pc: u16,
    count: usize,
    sites: &mut Vec<SiteRow>,
) -> Result<(), ReadError<ClassFault>>
    requires few { count + length sites.old.items ≤ 1000000 }
    ensures value { (pool : Entries) → GivesMore pool result count sites.old.items sites.new.items (all_moved_at at pc (sites_in pool found.now) (count + length sites.old.items)) }
    ensures few { OnOk result (count + length sites.new.items ≤ 1000000) }
{
    for site in found {
        if count + sites.len() >= MOST_SITES {
            return Err(ReadError::Fault(fault_at(at, 0, ClassRule::ManySites)));
        }
        sites.push(move_site(*site, pc))?;
    }
    Ok(())
}

/// The bootstrap methods of a class, with the sites of those that calls have used: what the indexes of one name is
/// looked up once, however many calls use it.
#[derive(Drop)]
pub struct Bootstraps<'a> {
    pool: &'a Pool<'a>,
    rows: Vec<Row>,
    // by the number of the row the sites of its calls, each at the pc of the first call
    kept: Vec<Option<SiteRows>>,
}

impl<'a> Model for Bootstraps<'a> {
    ghost use Rattle.fcg_reader.specs.Internal.Handles.{BootstrapsIn, bootstraps, AreKept};

    ghost Value = { BootstrapsIn };

    ghost view = { λ b. bootstraps b.pool.now b.rows.items };

    ghost invariant = { λ b. AreKept b.pool.now b.rows.items b.kept.items };
}

impl<'a> Bootstraps<'a> {
    /// No call has used one yet. It takes memory for each row.
    pub fn new(
        alloc: Global,
        pool: &'a Pool<'a>,
        rows: Vec<Row>,
    ) -> Result<Bootstraps<'a>, AllocError>
        ensures { IfOk result (λ made. made ≡ bootstraps pool.now rows.items) }
    {
        let kept = nothing_kept(alloc, rows.len())?;
        Ok(Bootstraps { pool, rows, kept })
    }

    /// Adds the handle sites of a call in the code that begins at a place of the file. `count` sites of the class are
    /// before those of the list.
    ///
    /// A fault is at the place of the call's opcode. It is the first of these, in the order of the row: there is no row
    /// of the call's number (`Bootstrap`); the first index names no method handle; an argument names no constant; a
    /// method handle that calls a method names none as it should, or the class has as many sites as it may have.
    ///
    /// The first call of a row takes constant time for each of its indexes, a later one for each of its sites.
    pub fn push_call(
        &mut self,
        alloc: Global,
        names: &mut ClassTexts<'_>,
        begin: usize,
        call: DynamicCall,
        count: usize,
        sites: &mut Vec<SiteRow>,
    ) -> Result<(), ReadError<ClassFault>>
        requires pool { names.old ≡ self.old.pool }
        requires place { begin + call.pc < 2 ^ 64 }
        requires few { count + length sites.old.items ≤ 1000000 }
        ensures value { GivesMore self.old.pool result count sites.old.items sites.new.items (call_sites self.old.pool self.old.rows begin call (count + length sites.old.items)) }
        ensures few { OnOk result (count + length sites.new.items ≤ 1000000) }
        ensures same { self.new ≡ self.old }
        ensures names { names.new ≡ names.old }
    {
        let at = begin + usize::from(call.pc);
        let Some(row) = self.rows.get(usize::from(call.bootstrap)) else {
            return Err(ReadError::Fault(fault_at(at, 0, ClassRule::Bootstrap)));
        };
        if let Some(found) = find_kept(&self.kept, call.bootstrap) {
            return push_moved(found.as_slice(), at, call.pc, count, sites);
        }
        let before = count + sites.len();
        let found = read_row_sites(alloc, names, row, at, call.pc, before)?;
        push_moved(&found, at, call.pc, count, sites)?;
        keep(&mut self.kept, call.bootstrap, SiteRows::from(found));
        Ok(())
    }
}
