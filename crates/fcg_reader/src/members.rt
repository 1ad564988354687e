//! Methods (JVMS 4.6), with the sites of their instructions and their calls of bootstrap methods.
ghost use Rattle.std.specs.Prelude.{◌≡◌, ◌≤◌, ◌+◌, ℕ, [], length, sum_by, codes, None, IfOk};
ghost use Rattle.fcg_grammar.specs.Reading.{Gives};
ghost use Rattle.fcg_grammar.specs.Rows.{rows, ended};
ghost use Rattle.fcg_classfile.specs.declared.fault.ClassRule.TheVariants.{DoubleCode};
ghost use Rattle.fcg_classfile.specs.Breaks.Attributes.{one_at, ones_at};
ghost use Rattle.fcg_classfile.specs.Breaks.Code.{code_at};
ghost use Rattle.fcg_classfile.specs.Breaks.Members.{unfinished, method_at, methods_at};
ghost use Rattle.fcg_classfile.specs.Breaks.Pool.{Entries};
ghost use Rattle.fcg_reader.specs.Internal.Calls.{parts_of, unfinished_in, all_unfinished_in};
ghost use Rattle.fcg_reader.specs.Internal.Members.{declared_of, AreTextsOf, GivesNext, methods_before, code_of, code_before, code_sites};

use crate::attributes::pass_named;
use crate::calls::{CodeCalls, Unfinished};
use crate::code::{MethodCode, read_code};
use crate::declared::{Declared, find_declared};
use crate::methods::MethodTable;
use crate::names::{ClassTexts, DescKind};
use crate::number::read_u2;
use crate::rows::{MethodRow, SiteRows};
use fcg_classfile::{ClassFault, ClassRule, fault_at};
use fcg_grammar::ReadError;
use std::alloc::Global;

// The place after the attribute that stands at a place, and the code so far. A method's second Code is the fault
// `DoubleCode`.
fn read_attribute(
    alloc: Global,
    names: &mut ClassTexts<'_>,
    count: usize,
    at: usize,
    code: Option<MethodCode>,
) -> Result<(usize, Option<MethodCode>), ReadError<ClassFault>>
    requires place { at ≤ length names.old.bytes }
    requires few { count ≤ 1000000 }
    requires counted { count + length (code_sites code) ≤ 1000000 }
    ensures value { (k : ℕ) → Gives (λ x. (tt, code_before names.old x.0 x.1)) result (one_at (codes "Code") DoubleCode (code_at count) names.old k (code_before names.old at code)) }
    ensures few { IfOk result (λ x. count + length (code_sites x.1) ≤ 1000000) }
    ensures inside { IfOk result (λ x. x.0 ≤ length names.old.bytes) }
    ensures same { names.new ≡ names.old }
{
    let pool = names.pool();
    let bytes = pool.bytes();
    let again = code.is_some();
    let (named, after) = pass_named(
        pool,
        bytes,
        at,
        b"Code".as_slice(),
        ClassRule::DoubleCode,
        again,
    )?;
    if !named {
        return Ok((after, code));
    }
    let code = read_code(alloc, names, &bytes[..after], at, count)?;
    Ok((after, Some(code)))
}

// The place after so many attributes of a method, and its code.
fn read_attribute_rows(
    alloc: Global,
    names: &mut ClassTexts<'_>,
    count: usize,
    attributes: u16,
    at: usize,
) -> Result<(usize, Option<MethodCode>), ReadError<ClassFault>>
    requires place { at ≤ length names.old.bytes }
    requires few { count ≤ 1000000 }
    ensures value { Gives (λ x. code_before names.old x.0 x.1) result (ended (rows (one_at (codes "Code") DoubleCode (code_at count) names.old) attributes 0 (code_before names.old at None))) }
    ensures few { IfOk result (λ x. count + length (code_sites x.1) ≤ 1000000) }
    ensures inside { IfOk result (λ x. x.0 ≤ length names.old.bytes) }
    ensures same { names.new ≡ names.old }
{
    let mut place = at;
    let mut code = None;
    for _ in 0..attributes {
        let (after, found) = read_attribute(alloc, names, count, place, code)?;
        place = after;
        code = found;
    }
    Ok((place, code))
}

// The place after the attributes of a method whose count stands at a place, and its code.
#[tactic(auto, unfolding(fcg_classfile::specs::Breaks::Attributes::ones_at))]
fn read_attributes(
    alloc: Global,
    names: &mut ClassTexts<'_>,
    count: usize,
    at: usize,
) -> Result<(usize, Option<MethodCode>), ReadError<ClassFault>>
    requires place { at ≤ length names.old.bytes }
    requires few { count ≤ 1000000 }
    ensures value { Gives (λ x. code_before names.old x.0 x.1) result (ones_at (codes "Code") DoubleCode (code_at count) names.old at) }
    ensures few { IfOk result (λ x. count + length (code_sites x.1) ≤ 1000000) }
    ensures inside { IfOk result (λ x. x.0 ≤ length names.old.bytes) }
    ensures same { names.new ≡ names.old }
{
    let attributes = read_u2(names.pool().bytes(), at, 0)?;
    read_attribute_rows(alloc, names, count, attributes, at + 2)
}

// The sites and the calls of a code, or none.
fn parts_or_none(alloc: Global, code: Option<MethodCode>) -> (SiteRows, CodeCalls)
    ensures { result ≡ parts_of code }
{
    match code {
        Some(code) => code.into_parts(),
        None => (SiteRows::from(Vec::new(alloc)), CodeCalls::none(alloc)),
    }
}

// The method that a row declares, with this code.
fn make_method(alloc: Global, declared: &Declared<'_>, code: Option<MethodCode>) -> Unfinished
    ensures value { (pool : Entries) → AreTextsOf pool declared.now → unfinished_in pool result ≡ unfinished (declared_of declared.now) (code_of pool code) }
    ensures name { result.0.name ≡ declared.now.name.index }
    ensures desc { result.0.desc ≡ declared.now.desc.index }
    ensures sites { result.0.sites ≡ code_sites code }
{
    let (sites, calls) = parts_or_none(alloc, code);
    let method = MethodRow {
        name: declared.name.index,
        desc: declared.desc.index,
        flags: declared.flags,
        sites,
    };
    (method, calls)
}

// Adds the method that stands at a place, and gives the place after it.
#[tactic(auto, unfolding(fcg_classfile::specs::Breaks::Members::method_at))]
fn read_method<'a>(
    alloc: Global,
    names: &mut ClassTexts<'a>,
    table: &mut MethodTable<'a>,
    at: usize,
) -> Result<usize, ReadError<ClassFault>>
    requires place { at ≤ length table.old.pool.bytes }
    requires pool { names.old ≡ table.old.pool }
    ensures value { (k : ℕ) → GivesNext result table.old.methods table.new.methods (method_at table.old.pool k (methods_before at table.old.methods)) }
    ensures inside { IfOk result (λ after. after ≤ length table.old.pool.bytes) }
    ensures same { (names.new ≡ names.old) × (table.new.pool ≡ table.old.pool) }
{
    let bytes = table.pool().bytes();
    prove!(at <= bytes.len());
    let declared = find_declared(names, DescKind::Method, at)?;
    let doubled = table.has(&declared.name, &declared.desc)?;
    if doubled {
        return Err(ReadError::Fault(fault_at(at, 0, ClassRule::DoubleMethod)));
    }
    let (after, code) = read_attributes(alloc, names, table.site_count(), at + 6)?;
    let method = make_method(alloc, &declared, code);
    table.push(method, &declared.name, &declared.desc)?;
    Ok(after)
}

// So many methods, and the place after them.
fn read_method_rows(
    alloc: Global,
    names: &mut ClassTexts<'_>,
    count: u16,
    at: usize,
) -> Result<(Vec<Unfinished>, usize), ReadError<ClassFault>>
    requires { at ≤ length names.old.bytes }
    ensures value { Gives (λ x. (all_unfinished_in names.old x.0.items, methods_before x.1 (all_unfinished_in names.old x.0.items))) result (rows (method_at names.old) count 0 (methods_before at [])) }
    ensures few { IfOk result (λ x. sum_by (λ m. length m.0.sites) x.0.items ≤ 1000000) }
    ensures inside { IfOk result (λ x. x.1 ≤ length names.old.bytes) }
    ensures same { names.new ≡ names.old }
{
    let mut table = MethodTable::new(alloc, names.pool(), count)?;
    let mut place = at;
    for _ in 0..count {
        place = read_method(alloc, names, &mut table, place)?;
    }
    Ok((table.into_methods(), place))
}

/// The methods whose count stands at a place, with the sites of their instructions and their calls, and the place after
/// them. It makes one pass over the code of each, and for each method a logarithm of their number in comparisons of
/// indexes; texts are compared, and descriptors read, once for each Utf8 of the pool. It takes memory for as many methods
/// as the count says, for their sites and their calls.
#[tactic(auto, unfolding(fcg_classfile::specs::Breaks::Members::methods_at))]
pub fn read_methods(
    alloc: Global,
    names: &mut ClassTexts<'_>,
    at: usize,
) -> Result<(Vec<Unfinished>, usize), ReadError<ClassFault>>
    requires { at ≤ length names.old.bytes }
    ensures value { Gives (λ x. (all_unfinished_in names.old x.0.items, x.1)) result (methods_at names.old at) }
    ensures few { IfOk result (λ x. sum_by (λ m. length m.0.sites) x.0.items ≤ 1000000) }
    ensures inside { IfOk result (λ x. x.1 ≤ length names.old.bytes) }
    ensures same { names.new ≡ names.old }
{
    let count = read_u2(names.pool().bytes(), at, 0)?;
    read_method_rows(alloc, names, count, at + 2)
}
