//! The nodes to which virtual and interface calls lead.
ghost use Rattle.std.specs.Prelude.{◌≡◌, ℕ, ◌<◌, ◌&&◌, ◌++◌, true, Option, IfSome, IfOk, OnOk, length, not};
ghost use Rattle.fcg_views.specs.declared.view.Ref.{Ref};
ghost use Rattle.fcg_analysis.specs.Declarations.{Placed, signature_in, is_class, is_abstract_type};
ghost use Rattle.fcg_analysis.specs.Types.{is_below};
ghost use Rattle.fcg_analysis.specs.Resolution.{resolved};
ghost use Rattle.fcg_analysis.specs.Resolution as rules;
ghost use Rattle.fcg_analysis.specs.Edges.{is_dispatched};
ghost use Rattle.fcg_join.specs.Parts.{types_of, nodes_of};
ghost use Rattle.fcg_join.specs.Joined.{HasType};
ghost use Rattle.fcg_join.specs.Numbers.{HasRef, GivesSignature, set_signatures};
ghost use Rattle.fcg_join.specs.Outcomes.{GivesOutcome, IfMethod};
ghost use Rattle.fcg_edges.specs.Rows.{IsList, has};
ghost use Rattle.fcg_select.specs.Instance.{IsInstanceAs};
ghost use Rattle.fcg_stitch.specs.Targets.{receiver_target, targets_over};
ghost use Rattle.fcg_stitch.specs.Internal.References.{IsRefWithin};
ghost use Rattle.fcg_stitch.specs.Internal.Distinct.{AreDistinct};

use crate::calls::{ABSTRACT, STATIC, concrete_target};
use fcg_join::{Joined, NumberedRef, Outcome, SignatureId, TypeId};
use fcg_select::select_as;
use fcg_views::NoMemory;
use std::alloc::{AllocError, Global};

// Whether receivers are asked: whether an outcome is an instance method or a phantom.
fn is_dispatched(joined: &Joined, outcome: Outcome) -> bool
    requires { IfMethod outcome (λ m. m.0 < length (nodes_of joined.now)) }
    ensures { (o : rules.Outcome) → GivesOutcome joined.now outcome o → result ≡ is_dispatched o }
{
    match outcome {
        Outcome::Method(m) => joined.method_flags(m) & STATIC == 0,
        Outcome::Phantom => true,
        Outcome::Failed(_) => false,
    }
}

// Whether a type is a class that isn't abstract.
fn is_concrete_class(joined: &Joined, d: TypeId) -> bool
    requires { d.0 < length (types_of joined.now) }
    ensures { (x : Placed) → HasType joined.now d x → result ≡ (is_class x && not (is_abstract_type x)) }
{
    !joined.is_interface(d) && joined.type_flags(d) & ABSTRACT == 0
}

// Adds what is selected for a type at or below the owner of a reference, where that is a receiver.
fn push_target(
    joined: &Joined,
    targets: &mut Vec<u32>,
    d: TypeId,
    outcome: Outcome,
    s: Option<SignatureId>,
) -> Result<(), AllocError>
    requires there { d.0 < length (types_of joined.now) }
    requires range { IfMethod outcome (λ m. m.0 < length (nodes_of joined.now)) }
    requires signature { IfSome s (λ s. s.0 < length (set_signatures joined.now)) }
    requires method { IsInstanceAs joined.now outcome s }
    ensures { (x : Placed) (r : Ref) → HasType joined.now d x → is_below (types_of joined.now) x r.owner ≡ true → GivesOutcome joined.now outcome (resolved (types_of joined.now) r) → GivesSignature joined.now s (signature_in r) → OnOk result (targets.new.items ≡ targets.old.items ++ receiver_target (types_of joined.now) r x) }
{
    if !is_concrete_class(joined, d) {
        return Ok(());
    }
    match concrete_target(joined, select_as(joined, d, outcome, s)) {
        Some(target) => Ok(targets.push(target)?),
        None => Ok(()),
    }
}

// Sorts numbers, and drops repeats.
fn sort_distinct(numbers: &mut Vec<u32>)
    ensures { AreDistinct numbers.old.items numbers.new.items }
{
    numbers.sort_unstable();
    numbers.dedup();
}

/// The nodes to which virtual and interface calls with a reference lead, once each, in their order: it asks `select` for
/// each class at or below the owner that isn't abstract. The only error is want of memory.
pub(crate) fn find_targets(
    alloc: Global,
    joined: &Joined,
    reference: NumberedRef,
    outcome: Outcome,
) -> Result<Vec<u32>, NoMemory>
    requires within { IsRefWithin joined.now reference }
    requires there { (r : Ref) × HasRef joined.now reference r }
    requires range { IfMethod outcome (λ m. m.0 < length (nodes_of joined.now)) }
    requires outcome { (r : Ref) → HasRef joined.now reference r → GivesOutcome joined.now outcome (resolved (types_of joined.now) r) }
    ensures list { IfOk result (λ targets. IsList (length (nodes_of joined.now)) targets.items) }
    ensures members { (r : Ref) → HasRef joined.now reference r → IfOk result (λ targets. (b : ℕ) → has targets.items b ≡ has (targets_over (types_of joined.now) r (types_of joined.now)) b) }
{
    let mut targets = Vec::new(alloc);
    if !is_dispatched(joined, outcome) {
        return Ok(targets);
    }
    let s = joined.signature_of_names(reference.name, reference.desc);
    let types = joined.below(alloc, joined.name(reference.owner))?;
    for d in types.as_slice() {
        push_target(joined, &mut targets, *d, outcome, s)?;
    }
    sort_distinct(&mut targets);
    Ok(targets)
}
