//! Where a site leads, and what its reference stands for.
ghost use Rattle.std.specs.Prelude.{◌≡◌, ◌<◌, ◌≤◌, ◌+◌, ◌||◌, ℕ, List, IfOk, IfSome, OnOk, length};
ghost use Rattle.fcg_views.specs.declared.view.Ref.{Ref};
ghost use Rattle.fcg_views.specs.declared.view.Site.{Site};
ghost use Rattle.fcg_analysis.specs.Declarations.{Placed};
ghost use Rattle.fcg_join.specs.Parts.{types_of, nodes_of};
ghost use Rattle.fcg_edges.specs.Rows.{Rows, IsList};
ghost use Rattle.fcg_stitch.specs.Targets.{targets_over, site_targets};
ghost use Rattle.fcg_stitch.specs.Internal.References.{IsReferenceAt};
ghost use Rattle.fcg_stitch.specs.Internal.Rows.{listed, AreTargets, IsState, AreStates, HaveMoreLists, row_has, IsRowWithin, AreWithin, targets_have};
ghost use Rattle.fcg_stitch.specs.Internal.Calling.{IsCallSite, CallsAs};

use crate::calls::{Call, array_target, call_target};
use crate::refs::{has_array_owner, number_ref};
use crate::states::{RefState, RefStates, Targets};
use crate::targets::find_targets;
use fcg_edges::RowMaker;
use fcg_join::{Joined, TypeId};
use fcg_resolve::resolve_numbered;
use fcg_views::{NoMemory, Steps};
use std::alloc::{AllocError, Global};
use std::sync::ledger::Ledger;

/// A site of a class: how it calls, and its reference, by a part and the number in the part's graph.
#[derive(Clone, Copy)]
pub struct CallSite {
    pub caller: TypeId,
    pub call: Call,
    pub part: u32,
    pub reference: u32,
}

/// The row of a caller while its sites are gone through: single targets, and numbers of lists of targets.
#[derive(Drop)]
pub struct CallerRow {
    pub targets: Vec<u32>,
    pub uses: Vec<u32>,
}

impl CallerRow {
    // Adds targets.
    pub(crate) fn push(&mut self, targets: Targets) -> Result<(), AllocError>
        ensures has { OnOk result ((lists : List (List ℕ)) (b : ℕ) → row_has lists self.new.targets.items self.new.uses.items b ≡ (row_has lists self.old.targets.items self.old.uses.items b || targets_have lists targets b)) }
        ensures within { OnOk result ((r : Rows) → IsRowWithin r self.old.targets.items self.old.uses.items → AreWithin r.count r.lists targets → IsRowWithin r self.new.targets.items self.new.uses.items) }
    {
        match targets {
            Targets::Nothing => Ok(()),
            Targets::One(target) => Ok(self.targets.push(target)?),
            Targets::List(list) => Ok(self.uses.push(list)?),
        }
    }
}

// One target or none.
fn one_or_none(target: Option<u32>) -> Targets
    ensures { (count : ℕ) (lists : List (List ℕ)) → IfSome target (λ k. k < count) → AreTargets count lists result (listed target) }
{
    match target {
        Some(target) => Targets::One(target),
        None => Targets::Nothing,
    }
}

// Targets that rise, as a list where they are two or more.
fn share_targets(maker: &mut RowMaker, found: &[u32]) -> Result<Targets, AllocError>
    requires { IsList maker.old.count found.now }
    ensures lists { OnOk result (HaveMoreLists maker.old maker.new) }
    ensures targets { IfOk result (λ t. AreTargets maker.new.count maker.new.lists t found.now) }
{
    match found {
        [] => Ok(Targets::Nothing),
        [target] => Ok(Targets::One(*target)),
        _ => Ok(Targets::List(maker.add_list(found)?)),
    }
}

// What is known of a reference of a part, which is resolved where nothing is.
pub(crate) fn find_state<L: Ledger>(
    joined: &Joined,
    states: &mut RefStates,
    part: u32,
    r: u32,
    steps: &mut Steps<L>,
) -> RefState
    requires { (reference : Ref) × IsReferenceAt joined.now part r reference }
    ensures state { (lists : List (List ℕ)) (reference : Ref) → AreStates joined.now lists states.old → IsReferenceAt joined.now part r reference → IsState joined.now lists result reference }
    ensures states { (lists : List (List ℕ)) → AreStates joined.now lists states.old → AreStates joined.now lists states.new }
    ensures cost { steps.new ≤ steps.old + 1 }
    ensures rises { steps.old ≤ steps.new }
{
    if let Some(state) = states.get(part, r) {
        return state;
    }
    let outcome = resolve_numbered(joined, number_ref(joined, part, r), steps);
    let state = RefState {
        outcome,
        targets: None,
    };
    states.set(part, r, state);
    state
}

// Where virtual and interface calls with a reference of a part lead, which is found where that isn't known.
fn find_shared(
    alloc: Global,
    joined: &Joined,
    states: &mut RefStates,
    maker: &mut RowMaker,
    part: u32,
    r: u32,
    state: RefState,
) -> Result<Targets, NoMemory>
    requires there { (reference : Ref) × IsReferenceAt joined.now part r reference }
    requires count { maker.old.count ≡ length (nodes_of joined.now) }
    requires states { AreStates joined.now maker.old.lists states.old }
    requires state { (reference : Ref) → IsReferenceAt joined.now part r reference → IsState joined.now maker.old.lists state reference }
    ensures lists { OnOk result (HaveMoreLists maker.old maker.new) }
    ensures states { OnOk result (AreStates joined.now maker.new.lists states.new) }
    ensures targets { IfOk result (λ t. (reference : Ref) → IsReferenceAt joined.now part r reference → AreTargets maker.new.count maker.new.lists t (targets_over (types_of joined.now) reference (types_of joined.now))) }
{
    if let Some(targets) = state.targets {
        return Ok(targets);
    }
    let found = find_targets(alloc, joined, number_ref(joined, part, r), state.outcome)?;
    let targets = share_targets(maker, found.as_slice())?;
    let state = RefState {
        outcome: state.outcome,
        targets: Some(targets),
    };
    states.set(part, r, state);
    Ok(targets)
}

// Where a call in a class with a reference of a part leads, by what is known of the reference.
pub(crate) fn find_call_targets(
    alloc: Global,
    joined: &Joined,
    states: &mut RefStates,
    maker: &mut RowMaker,
    site: CallSite,
    state: RefState,
) -> Result<Targets, NoMemory>
    requires site { IsCallSite joined.now site }
    requires count { maker.old.count ≡ length (nodes_of joined.now) }
    requires states { AreStates joined.now maker.old.lists states.old }
    requires state { (reference : Ref) → IsReferenceAt joined.now site.part site.reference reference → IsState joined.now maker.old.lists state reference }
    ensures lists { OnOk result (HaveMoreLists maker.old maker.new) }
    ensures states { OnOk result (AreStates joined.now maker.new.lists states.new) }
    ensures targets { IfOk result (λ t. (x : Placed) (s : Site) → CallsAs joined.now site x s → AreTargets maker.new.count maker.new.lists t (site_targets (types_of joined.now) x s)) }
{
    let reference = number_ref(joined, site.part, site.reference);
    if has_array_owner(joined, reference) {
        return Ok(one_or_none(array_target(joined, state.outcome, site.call)));
    }
    match site.call {
        Call::Dispatched => find_shared(
            alloc,
            joined,
            states,
            maker,
            site.part,
            site.reference,
            state,
        ),
        call => Ok(one_or_none(call_target(joined, site.caller, reference, state.outcome, call))),
    }
}
