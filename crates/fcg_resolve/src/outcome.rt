//! What a reference stands for.
ghost use Rattle.std.specs.Prelude.{◌≡◌, ◌+◌, ◌<◌, Option, IfSome, length};
ghost use Rattle.fcg_views.specs.declared.view.Ref.{Ref};
ghost use Rattle.fcg_analysis.specs.Declarations.{Placed, Signature, signature_in, begins_with_bracket};
ghost use Rattle.fcg_analysis.specs.Types.{type_named};
ghost use Rattle.fcg_analysis.specs.Nodes.{Node};
ghost use Rattle.fcg_analysis.specs.Resolution.{resolved, method_of_class, method_of_interface, method_of_array, method_of_owner, nothing_found, found_or};
ghost use Rattle.fcg_join.specs.Parts.{types_of, nodes_of};
ghost use Rattle.fcg_join.specs.Joined.{HasType, GivesType, GivesNode};
ghost use Rattle.fcg_join.specs.SetNames.{set_names};
ghost use Rattle.fcg_join.specs.Numbers.{set_signatures, GivesSignature, HasRef};
ghost use Rattle.fcg_join.specs.Outcomes.{GivesOutcome, IfMethod};

use crate::found::{find_for_class, find_for_interface};
use fcg_join::{Cause, Joined, MethodId, NumberedRef, Outcome, SignatureId, TypeId};
use fcg_views::{Ref, Steps};
use std::sync::ledger::Ledger;

// What was found from a type, or what there is where nothing was.
fn outcome_from(joined: &Joined, t: TypeId, found: Option<MethodId>) -> Outcome
    requires there { t.0 < length (types_of joined.now) }
    requires found { IfSome found (λ m. m.0 < length (nodes_of joined.now)) }
    ensures value { (x : Placed) (o : Option Node) → HasType joined.now t x → GivesNode joined.now found o → GivesOutcome joined.now result (found_or (nothing_found (types_of joined.now) x) o) }
    ensures range { IfMethod result (λ m. m.0 < length (nodes_of joined.now)) }
{
    match found {
        Some(m) => Outcome::Method(m),
        None if joined.has_gap(t) => Outcome::Phantom,
        None => Outcome::Failed(Cause::NoSuchMethod),
    }
}

// JVMS 5.4.3.3
fn resolve_in_class(joined: &Joined, t: TypeId, s: Option<SignatureId>) -> Outcome
    requires there { t.0 < length (types_of joined.now) }
    requires signature { IfSome s (λ s. s.0 < length (set_signatures joined.now)) }
    ensures value { (x : Placed) (sig : Signature) → HasType joined.now t x → GivesSignature joined.now s sig → GivesOutcome joined.now result (method_of_class (types_of joined.now) sig x) }
    ensures range { IfMethod result (λ m. m.0 < length (nodes_of joined.now)) }
{
    if joined.is_interface(t) {
        return Outcome::Failed(Cause::KindMismatch);
    }
    outcome_from(joined, t, find_for_class(joined, t, s))
}

// JVMS 5.4.3.4
fn resolve_in_interface(joined: &Joined, t: TypeId, s: Option<SignatureId>) -> Outcome
    requires there { t.0 < length (types_of joined.now) }
    requires signature { IfSome s (λ s. s.0 < length (set_signatures joined.now)) }
    ensures value { (x : Placed) (sig : Signature) → HasType joined.now t x → GivesSignature joined.now s sig → GivesOutcome joined.now result (method_of_interface (types_of joined.now) sig x) }
    ensures range { IfMethod result (λ m. m.0 < length (nodes_of joined.now)) }
{
    if !joined.is_interface(t) {
        return Outcome::Failed(Cause::KindMismatch);
    }
    outcome_from(joined, t, find_for_interface(joined, t, s))
}

// An array has the methods that Object declares.
fn resolve_in_array(joined: &Joined, by_interface: bool, s: Option<SignatureId>) -> Outcome
    requires signature { IfSome s (λ s. s.0 < length (set_signatures joined.now)) }
    ensures value { (r : Ref) → by_interface ≡ r.owner_is_interface_ref → GivesSignature joined.now s (signature_in r) → GivesOutcome joined.now result (method_of_array (types_of joined.now) r) }
    ensures range { IfMethod result (λ m. m.0 < length (nodes_of joined.now)) }
{
    if by_interface {
        return Outcome::Failed(Cause::KindMismatch);
    }
    let Some(object) = joined.object() else {
        return Outcome::Phantom;
    };
    match joined.declared_as(object, s) {
        Some(m) => Outcome::Method(m),
        None => Outcome::Failed(Cause::NoSuchMethod),
    }
}

// What a signature stands for at an owner that is no array: a known type, or an absent one.
fn resolve_at(
    joined: &Joined,
    owner: Option<TypeId>,
    by_interface: bool,
    s: Option<SignatureId>,
) -> Outcome
    requires owner { IfSome owner (λ t. t.0 < length (types_of joined.now)) }
    requires signature { IfSome s (λ s. s.0 < length (set_signatures joined.now)) }
    ensures value { (r : Ref) (o : Option Placed) → by_interface ≡ r.owner_is_interface_ref → GivesType joined.now owner o → GivesSignature joined.now s (signature_in r) → GivesOutcome joined.now result (method_of_owner (types_of joined.now) r o) }
    ensures range { IfMethod result (λ m. m.0 < length (nodes_of joined.now)) }
{
    match owner {
        None => Outcome::Phantom,
        Some(t) if by_interface => resolve_in_interface(joined, t, s),
        Some(t) => resolve_in_class(joined, t, s),
    }
}

// Whether a name is that of an array.
fn is_array(name: &[u8]) -> bool
    ensures { result ≡ begins_with_bracket name.now }
{
    match name {
        [first, ..] => *first == b'[',
        [] => false,
    }
}

// What a reference stands for by the name of its owner, the known type of that name, and the number of its signature. It
// adds one step.
fn resolve_by<L: Ledger>(
    joined: &Joined,
    name: &[u8],
    owner: Option<TypeId>,
    by_interface: bool,
    s: Option<SignatureId>,
    steps: &mut Steps<L>,
) -> Outcome
    requires owner { IfSome owner (λ t. t.0 < length (types_of joined.now)) }
    requires signature { IfSome s (λ s. s.0 < length (set_signatures joined.now)) }
    ensures value { (r : Ref) → name.now ≡ r.owner → by_interface ≡ r.owner_is_interface_ref → GivesType joined.now owner (type_named (types_of joined.now) name.now) → GivesSignature joined.now s (signature_in r) → GivesOutcome joined.now result (resolved (types_of joined.now) r) }
    ensures range { IfMethod result (λ m. m.0 < length (nodes_of joined.now)) }
    ensures step { steps.new ≡ steps.old + 1 }
{
    steps.tick();
    if is_array(name) {
        return resolve_in_array(joined, by_interface, s);
    }
    resolve_at(joined, owner, by_interface, s)
}

/// What a reference stands for: a method, a phantom, or a failure with its cause. It adds one step.
///
/// Takes no memory. It looks the names up once, and then goes once up the chain of the owner, where each class costs as
/// much as `declared_as`, and once over the interfaces above it.
pub fn resolve<L: Ledger>(joined: &Joined, reference: &Ref, steps: &mut Steps<L>) -> Outcome
    ensures outcome { GivesOutcome joined.now result (resolved (types_of joined.now) reference.now) }
    ensures range { IfMethod result (λ m. m.0 < length (nodes_of joined.now)) }
    ensures step { steps.new ≡ steps.old + 1 }
{
    let s = joined.signature(reference.name.as_slice(), reference.desc.as_slice());
    let name = reference.owner.as_slice();
    let owner = joined.find(name);
    resolve_by(
        joined,
        name,
        owner,
        reference.owner_is_interface_ref,
        s,
        steps,
    )
}

/// What a reference by the numbers of its names stands for: a method, a phantom, or a failure with its cause. It adds one
/// step.
///
/// Takes no memory. It looks the signature up once, and then goes once up the chain of the owner, where each class costs
/// as much as `declared_as`, and once over the interfaces above it.
pub fn resolve_numbered<L: Ledger>(
    joined: &Joined,
    reference: NumberedRef,
    steps: &mut Steps<L>,
) -> Outcome
    requires owner { reference.owner.0 < length (set_names joined.now) }
    requires name { reference.name.0 < length (set_names joined.now) }
    requires desc { reference.desc.0 < length (set_names joined.now) }
    ensures outcome { (r : Ref) → HasRef joined.now reference r → GivesOutcome joined.now result (resolved (types_of joined.now) r) }
    ensures range { IfMethod result (λ m. m.0 < length (nodes_of joined.now)) }
    ensures step { steps.new ≡ steps.old + 1 }
{
    let s = joined.signature_of_names(reference.name, reference.desc);
    let name = joined.name(reference.owner);
    let owner = joined.type_named(reference.owner);
    resolve_by(
        joined,
        name,
        owner,
        reference.owner_is_interface_ref,
        s,
        steps,
    )
}
