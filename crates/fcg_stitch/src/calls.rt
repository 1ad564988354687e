//! How sites call, and the method to which a call leads that asks no receiver.
ghost use Rattle.std.specs.Prelude.{◌≡◌, ◌<◌, ◌&&◌, ◌∷◌, [], Option, IfSome, length, not, if◌then◌else◌};
ghost use Rattle.fcg_views.specs.declared.view.Ref.{Ref};
ghost use Rattle.fcg_analysis.specs.NamesAndFlags.{has};
ghost use Rattle.fcg_analysis.specs.Declarations.{Placed, is_static, is_instance, has_array_owner};
ghost use Rattle.fcg_analysis.specs.Nodes.{Node};
ghost use Rattle.fcg_analysis.specs.Resolution.{resolved};
ghost use Rattle.fcg_analysis.specs.Resolution as rules;
ghost use Rattle.fcg_analysis.specs.Edges.{call_of};
ghost use Rattle.fcg_analysis.specs.Edges as edges;
ghost use Rattle.fcg_join.specs.Parts.{types_of, nodes_of};
ghost use Rattle.fcg_join.specs.Joined.{HasType, HasNode, GivesNode};
ghost use Rattle.fcg_join.specs.Numbers.{HasRef};
ghost use Rattle.fcg_join.specs.Outcomes.{GivesOutcome, IfMethod};
ghost use Rattle.fcg_stitch.specs.Targets.{number_where, is_concrete, method_of, array_target, call_targets};
ghost use Rattle.fcg_stitch.specs.Internal.References.{IsRefWithin};
ghost use Rattle.fcg_stitch.specs.Internal.Rows.{call_kind, listed};
ghost use Rattle.fcg_stitch.specs.declared.calls.Call.TheVariants as kinds;

use fcg_join::{Joined, MethodId, NumberedRef, Outcome, TypeId};
use fcg_select::special_numbered;
use fcg_views::{HandleKind, SiteKind};

// The flags of static and of abstract methods (JVMS 4.6).
pub(crate) const STATIC: u16 = 0x0008;

pub(crate) const ABSTRACT: u16 = 0x0400;

/// How a site calls, a handle site as the kind that it counts as.
#[derive(Clone, Copy)]
pub enum Call {
    /// As a virtual or an interface call.
    Dispatched,
    /// As `invokespecial`.
    Special,
    /// As `invokestatic`.
    Static,
    /// It makes no call.
    NoCall,
}

// How a site calls.
pub(crate) fn call_of(kind: SiteKind) -> Call
    ensures { result ≡ call_kind (call_of kind) }
{
    match kind {
        SiteKind::Virtual => Call::Dispatched,
        SiteKind::Interface => Call::Dispatched,
        SiteKind::Special => Call::Special,
        SiteKind::Static => Call::Static,
        SiteKind::New => Call::NoCall,
        SiteKind::StaticField => Call::NoCall,
        SiteKind::Handle(kind) => call_of_handle(kind),
    }
}

// How a handle site calls.
fn call_of_handle(kind: HandleKind) -> Call
    ensures { result ≡ call_kind (edges.handle_call kind) }
{
    match kind {
        HandleKind::K5 => Call::Dispatched,
        HandleKind::K6 => Call::Static,
        HandleKind::K7 => Call::Special,
        HandleKind::K8 => Call::Special,
        HandleKind::K9 => Call::Dispatched,
    }
}

// Whether a method is static.
fn is_static(joined: &Joined, m: MethodId) -> bool
    requires { m.0 < length (nodes_of joined.now) }
    ensures { (n : Node) → HasNode joined.now m n → result ≡ is_static n.method }
{
    joined.method_flags(m) & STATIC != 0
}

// Whether a method isn't abstract.
fn is_concrete(joined: &Joined, m: MethodId) -> bool
    requires { m.0 < length (nodes_of joined.now) }
    ensures { (n : Node) → HasNode joined.now m n → result ≡ is_concrete n }
{
    joined.method_flags(m) & ABSTRACT == 0
}

// The number of a method that isn't abstract.
pub(crate) fn concrete_target(joined: &Joined, found: Option<MethodId>) -> Option<u32>
    requires { IfSome found (λ m. m.0 < length (nodes_of joined.now)) }
    ensures value { (n : Option Node) → GivesNode joined.now found n → listed result ≡ number_where is_concrete n }
    ensures range { IfSome result (λ k. k < length (nodes_of joined.now)) }
{
    match found {
        Some(m) if is_concrete(joined, m) => Some(m.0),
        Some(_) => None,
        None => None,
    }
}

// The number of the static method for which a reference stands.
fn static_target(joined: &Joined, outcome: Outcome) -> Option<u32>
    requires { IfMethod outcome (λ m. m.0 < length (nodes_of joined.now)) }
    ensures value { (o : rules.Outcome) → GivesOutcome joined.now outcome o → listed result ≡ number_where (λ m. is_static m.method) (method_of o) }
    ensures range { IfSome result (λ k. k < length (nodes_of joined.now)) }
{
    match outcome {
        Outcome::Method(m) if is_static(joined, m) => Some(m.0),
        Outcome::Method(_) => None,
        Outcome::Phantom => None,
        Outcome::Failed(_) => None,
    }
}

// Whether a call of this kind leads to a method that a reference with an array owner stands for.
fn fits_array(joined: &Joined, m: MethodId, call: Call) -> bool
    requires { m.0 < length (nodes_of joined.now) }
    ensures { (n : Node) (o : rules.Outcome) (c : edges.Call) → HasNode joined.now m n → o ≡ rules.Found n → call ≡ call_kind c → array_target o c ≡ (if result then n.number ∷ [] else []) }
{
    match call {
        Call::Static => is_concrete(joined, m) && is_static(joined, m),
        Call::NoCall => false,
        Call::Dispatched => is_concrete(joined, m) && !is_static(joined, m),
        Call::Special => is_concrete(joined, m) && !is_static(joined, m),
    }
}

// The number of the method to which a call leads whose reference has an array owner.
pub(crate) fn array_target(joined: &Joined, outcome: Outcome, call: Call) -> Option<u32>
    requires { IfMethod outcome (λ m. m.0 < length (nodes_of joined.now)) }
    ensures value { (o : rules.Outcome) (c : edges.Call) → GivesOutcome joined.now outcome o → call ≡ call_kind c → listed result ≡ array_target o c }
    ensures range { IfSome result (λ k. k < length (nodes_of joined.now)) }
{
    match outcome {
        Outcome::Method(m) if fits_array(joined, m, call) => Some(m.0),
        Outcome::Method(_) => None,
        Outcome::Phantom => None,
        Outcome::Failed(_) => None,
    }
}

// The number of the method to which a special or static call in a class leads whose reference has no array owner.
pub(crate) fn call_target(
    joined: &Joined,
    current: TypeId,
    reference: NumberedRef,
    outcome: Outcome,
    call: Call,
) -> Option<u32>
    requires there { current.0 < length (types_of joined.now) }
    requires within { IsRefWithin joined.now reference }
    requires range { IfMethod outcome (λ m. m.0 < length (nodes_of joined.now)) }
    requires outcome { (r : Ref) → HasRef joined.now reference r → GivesOutcome joined.now outcome (resolved (types_of joined.now) r) }
    ensures value { (x : Placed) (r : Ref) (c : edges.Call) → HasType joined.now current x → HasRef joined.now reference r → call ≡ call_kind c → (call ≡ kinds.Dispatched → ⊥) → listed result ≡ call_targets (types_of joined.now) x r c }
    ensures range { IfSome result (λ k. k < length (nodes_of joined.now)) }
{
    match call {
        Call::Special => concrete_target(
            joined,
            special_numbered(joined, current, reference, outcome),
        ),
        Call::Static => static_target(joined, outcome),
        Call::Dispatched => None,
        Call::NoCall => None,
    }
}
