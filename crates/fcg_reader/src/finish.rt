//! Methods with the handle sites of their calls.
ghost use Rattle.std.specs.Prelude.{◌≡◌, ◌≤◌, ◌+◌, ◌++◌, [], length, map, sum_by, IfOk, IfNone};
ghost use Rattle.std.specs.Option.{option_to_list};
ghost use Rattle.fcg_grammar.specs.Reading.{Gives};
ghost use Rattle.fcg_grammar.specs.Rows.{carried};
ghost use Rattle.fcg_classfile.specs.Breaks.Members.{finished, all_finished};
ghost use Rattle.fcg_classfile.specs.Breaks.Bootstrap.{call_sites};
ghost use Rattle.fcg_reader.specs.Internal.Rows.{method_in};
ghost use Rattle.fcg_reader.specs.Internal.Calls.{unfinished_in};
ghost use Rattle.fcg_reader.specs.Internal.Handles.{counted, all_joined, is_second, merged_rows};

use crate::bootstrap::Row;
use crate::calls::{CodeCalls, Unfinished};
use crate::handles::Bootstraps;
use crate::names::ClassTexts;
use crate::rows::{MethodRow, SiteRow, SiteRows};
use fcg_classfile::ClassFault;
use fcg_grammar::ReadError;
use std::alloc::{AllocError, Global};
use std::collections::VecDeque;

// Whether the next site of two lists in the order of pc is one of the second list: where both are at one pc it is that
// of the first list.
fn is_handle_next(own: &VecDeque<SiteRow>, handles: &VecDeque<SiteRow>) -> bool
    ensures { result ≡ is_second own.now.items handles.now.items }
{
    match (own.front(), handles.front()) {
        (Some(site), Some(handle)) => handle.pc < site.pc,
        (Some(_), None) => false,
        (None, _) => true,
    }
}

// Takes the next site of two lists in the order of pc.
fn next_site(own: &mut VecDeque<SiteRow>, handles: &mut VecDeque<SiteRow>) -> Option<SiteRow>
    ensures value { merged_rows own.old.items handles.old.items ≡ option_to_list result ++ merged_rows own.new.items handles.new.items }
    ensures end { IfNone result (merged_rows own.old.items handles.old.items ≡ []) }
{
    if is_handle_next(own, handles) {
        handles.pop_front()
    } else {
        own.pop_front()
    }
}

// Two lists in the order of pc as one in this order, in linear time.
fn merge(alloc: Global, own: SiteRows, handles: Vec<SiteRow>) -> Result<SiteRows, AllocError>
    ensures { IfOk result (λ sites. sites ≡ merged_rows own handles.items) }
{
    let mut sites = Vec::with_capacity(alloc, own.as_slice().len() + handles.len())?;
    let mut own = VecDeque::from_vec(own.into_vec());
    let mut handles = VecDeque::from_vec(handles);
    while let Some(site) = next_site(&mut own, &mut handles) {
        sites.push(site)?;
    }
    Ok(SiteRows::from(sites))
}

// The handle sites of the calls of a method, where so many sites of the class are before them.
fn read_calls(
    alloc: Global,
    names: &mut ClassTexts<'_>,
    bootstraps: &mut Bootstraps<'_>,
    calls: &CodeCalls,
    count: usize,
) -> Result<Vec<SiteRow>, ReadError<ClassFault>>
    requires pool { names.old ≡ bootstraps.old.pool }
    requires few { count ≤ 1000000 }
    ensures value { Gives (λ sites. counted bootstraps.old.pool count sites.items) result (all_joined (carried (call_sites bootstraps.old.pool bootstraps.old.rows calls.now.begin) calls.now.calls count)) }
    ensures few { IfOk result (λ sites. count + length sites.items ≤ 1000000) }
    ensures kept { bootstraps.new ≡ bootstraps.old }
    ensures same { names.new ≡ names.old }
{
    let mut sites = Vec::new(alloc);
    let begin = calls.begin();
    for call in calls.calls() {
        bootstraps.push_call(alloc, names, begin, *call, count, &mut sites)?;
    }
    Ok(sites)
}

// A method with the handle sites of its calls, where so many sites of the class are before these, and how many there are
// with them.
#[tactic(auto, unfolding(fcg_classfile::specs::Breaks::Members::finished))]
fn finish_method(
    alloc: Global,
    names: &mut ClassTexts<'_>,
    bootstraps: &mut Bootstraps<'_>,
    unfinished: Unfinished,
    count: usize,
) -> Result<(MethodRow, usize), ReadError<ClassFault>>
    requires pool { names.old ≡ bootstraps.old.pool }
    requires few { count ≤ 1000000 }
    ensures value { Gives (λ x. (method_in bootstraps.old.pool x.0, x.1)) result (finished bootstraps.old.pool bootstraps.old.rows (unfinished_in bootstraps.old.pool unfinished) count) }
    ensures few { IfOk result (λ x. x.1 ≤ 1000000) }
    ensures kept { bootstraps.new ≡ bootstraps.old }
    ensures same { names.new ≡ names.old }
{
    let (method, calls) = unfinished;
    let handles = read_calls(alloc, names, bootstraps, &calls, count)?;
    if handles.is_empty() {
        return Ok((method, count));
    }
    let after = count + handles.len();
    let sites = merge(alloc, method.sites, handles)?;
    let method = MethodRow {
        name: method.name,
        desc: method.desc,
        flags: method.flags,
        sites,
    };
    Ok((method, after))
}

// How many sites methods have.
fn count_sites(methods: &[Unfinished]) -> usize
    requires { sum_by (λ m. length m.0.sites) methods.now ≤ 1000000 }
    ensures { result ≡ sum_by (λ m. length m.0.sites) methods.now }
{
    let mut count = 0;
    for unfinished in methods {
        count += unfinished.0.sites.as_slice().len();
    }
    count
}

/// The methods with the handle sites of their calls, by the bootstrap methods of the class. The sites of a method stay
/// in the order of pc, a site of the call's own instruction before a handle site.
///
/// The sites of all methods count before the first handle site. A fault is at the place of a call's opcode, and the
/// first in the order of the methods, of the calls of each and of the indexes of its bootstrap method: no bootstrap
/// method has the call's number; its first index names no method handle; an argument names no constant; a method handle
/// that calls a method names none as it should; the class has more than 1,000,000 sites.
///
/// Takes constant time for each site of a method with calls, for each call, and for each index of a bootstrap method
/// that is used, however many calls use it. A method without handle sites keeps its sites as they are.
#[tactic(auto, unfolding(fcg_classfile::specs::Breaks::Members::all_finished))]
pub fn finish_methods(
    alloc: Global,
    names: &mut ClassTexts<'_>,
    rows: Vec<Row>,
    methods: Vec<Unfinished>,
) -> Result<Vec<MethodRow>, ReadError<ClassFault>>
    requires few { sum_by (λ m. length m.0.sites) methods.items ≤ 1000000 }
    ensures value { Gives (λ done. map (method_in names.old) done.items) result (all_finished names.old rows.items (map (unfinished_in names.old) methods.items)) }
    ensures same { names.new ≡ names.old }
{
    let mut count = count_sites(&methods);
    let mut bootstraps = Bootstraps::new(alloc, names.pool(), rows)?;
    let mut done = Vec::with_capacity(alloc, methods.len())?;
    for unfinished in methods {
        let (method, after) = finish_method(alloc, names, &mut bootstraps, unfinished, count)?;
        done.push(method)?;
        count = after;
    }
    Ok(done)
}
