//! Selection (JVMS 5.4.6).
ghost use Rattle.std.specs.Prelude.{◌≡◌, ◌<◌, ◌&&◌, ◌↔◌, true, false, IfSome, IsTrue, length};
ghost use Rattle.fcg_analysis.specs.NamesAndFlags.{found_in, or_else};
ghost use Rattle.fcg_analysis.specs.Declarations.{Placed, Signature, signature_of, has_signature, is_instance, is_private};
ghost use Rattle.fcg_analysis.specs.Types.{chain};
ghost use Rattle.fcg_analysis.specs.Nodes.{Node, declared, one_default};
ghost use Rattle.fcg_analysis.specs.Resolution as rules;
ghost use Rattle.fcg_analysis.specs.Selection.{can_override, searched, selected};
ghost use Rattle.fcg_analysis.specs.Laws.HandedOn.{where_passes};
ghost use Rattle.fcg_join.specs.Parts.{types_of, nodes_of};
ghost use Rattle.fcg_join.specs.Joined.{HasType, HasNode, GivesNode, signature};
ghost use Rattle.fcg_join.specs.Numbers.{set_signatures, GivesSignature};
ghost use Rattle.fcg_join.specs.Outcomes.{GivesOutcome, IfMethod};
ghost use Rattle.fcg_select.specs.Instance.{IsInstanceOf, IsInstanceAs};
ghost use Rattle.fcg_select.specs.Internal.Wanted.{is_wanted, WantedIsKnown};

use crate::chain::{STATIC, Wanted, find_wanted};
use crate::overriding::{is_handed_on, is_open_to_all, is_private};
use fcg_join::{Joined, MethodId, Outcome, SignatureId, TypeId};

// Whether a method is an instance method of a name and descriptor.
fn is_instance_with(joined: &Joined, m: MethodId, name: &[u8], desc: &[u8]) -> bool
    requires { m.0 < length (nodes_of joined.now) }
    ensures { (n : Node) → HasNode joined.now m n → result ≡ (is_instance n.method && has_signature (signature name.now desc.now) n.method) }
{
    joined.method_flags(m) & STATIC == 0
        && name == joined.method_name(m)
        && desc == joined.method_desc(m)
}

/// Whether an outcome is no method, or an instance method of a name and descriptor, as `select` asks. Takes no memory. It
/// compares the name and the descriptor once.
pub fn is_instance_of(joined: &Joined, outcome: Outcome, name: &[u8], desc: &[u8]) -> bool
    requires { IfMethod outcome (λ m. m.0 < length (nodes_of joined.now)) }
    ensures { IsTrue result ↔ IsInstanceOf joined.now outcome (signature name.now desc.now) }
{
    match outcome {
        Outcome::Method(m) => is_instance_with(joined, m, name, desc),
        Outcome::Phantom => true,
        Outcome::Failed(_) => true,
    }
}

// Which methods of the receiver's chain can override an instance method that isn't private.
fn wanted_for(joined: &Joined, receiver: TypeId, ma: MethodId) -> Wanted
    requires there { receiver.0 < length (types_of joined.now) }
    requires method { ma.0 < length (nodes_of joined.now) }
    ensures package { WantedIsKnown joined.now result }
    ensures overrides { (d : Placed) (a : Node) → HasType joined.now receiver d → HasNode joined.now ma a → is_instance a.method ≡ true → is_private a.method ≡ false → searched (types_of joined.now) (λ c. can_override (types_of joined.now) c a) (chain (types_of joined.now) d) ≡ found_in (λ t. where_passes (is_wanted joined.now result) (declared (types_of joined.now) (signature_of a.method) t)) (chain (types_of joined.now) d) }
{
    joined.tell_apart();
    if is_open_to_all(joined.method_flags(ma)) {
        return Wanted::Open;
    }
    if is_handed_on(joined, Some(receiver), ma) {
        return Wanted::Open;
    }
    Wanted::OpenIn(joined.owner(ma))
}

// The first wanted method of the receiver's chain, or else its one default.
fn select_wanted(
    joined: &Joined,
    receiver: TypeId,
    wanted: &Wanted,
    s: Option<SignatureId>,
) -> Option<MethodId>
    requires there { receiver.0 < length (types_of joined.now) }
    requires package { WantedIsKnown joined.now wanted.now }
    requires signature { IfSome s (λ s. s.0 < length (set_signatures joined.now)) }
    ensures value { (d : Placed) (sig : Signature) → HasType joined.now receiver d → GivesSignature joined.now s sig → GivesNode joined.now result (or_else (found_in (λ t. where_passes (is_wanted joined.now wanted.now) (declared (types_of joined.now) sig t)) (chain (types_of joined.now) d)) (one_default (types_of joined.now) d sig)) }
    ensures range { IfSome result (λ m. m.0 < length (nodes_of joined.now)) }
{
    match find_wanted(joined, receiver, wanted, s) {
        Some(m) => Some(m),
        None => joined.one_default_as(receiver, s),
    }
}

/// The method that a call takes for a receiver of a type, where its reference stands for this outcome: a private method
/// itself; else the first of the type's chain that can override it; else the type's one default. A method outcome is an
/// instance method of the signature, which is given by its number, or by none where no method has it.
///
/// Takes no memory. It goes up the receiver's chain twice at most, and once over the interfaces above it. Each class costs
/// as much as `declared_as`, and for a package-private method a comparison of packages where it declares such a method.
pub fn select_as(
    joined: &Joined,
    receiver: TypeId,
    outcome: Outcome,
    s: Option<SignatureId>,
) -> Option<MethodId>
    requires there { receiver.0 < length (types_of joined.now) }
    requires range { IfMethod outcome (λ m. m.0 < length (nodes_of joined.now)) }
    requires signature { IfSome s (λ s. s.0 < length (set_signatures joined.now)) }
    requires method { IsInstanceAs joined.now outcome s }
    ensures value { (d : Placed) (o : rules.Outcome) (sig : Signature) → HasType joined.now receiver d → GivesOutcome joined.now outcome o → GivesSignature joined.now s sig → GivesNode joined.now result (selected (types_of joined.now) d o sig) }
    ensures range { IfSome result (λ m. m.0 < length (nodes_of joined.now)) }
{
    joined.tell_apart();
    match outcome {
        Outcome::Failed(_) => None,
        Outcome::Phantom => select_wanted(joined, receiver, &Wanted::Open, s),
        Outcome::Method(m) => {
            if is_private(joined.method_flags(m)) {
                return Some(m);
            }
            let wanted = wanted_for(joined, receiver, m);
            select_wanted(joined, receiver, &wanted, s)
        }
    }
}

/// The method that a call takes for a receiver of a type, where its reference stands for this outcome: a private method
/// itself; else the first of the type's chain that can override it; else the type's one default. A method outcome is an
/// instance method of the name and descriptor, which `is_instance_of` tells.
///
/// Takes no memory. It looks the signature up once, and then costs as much as `select_as`.
pub fn select(
    joined: &Joined,
    receiver: TypeId,
    outcome: Outcome,
    name: &[u8],
    desc: &[u8],
) -> Option<MethodId>
    requires there { receiver.0 < length (types_of joined.now) }
    requires range { IfMethod outcome (λ m. m.0 < length (nodes_of joined.now)) }
    requires method { IsInstanceOf joined.now outcome (signature name.now desc.now) }
    ensures value { (d : Placed) (o : rules.Outcome) → HasType joined.now receiver d → GivesOutcome joined.now outcome o → GivesNode joined.now result (selected (types_of joined.now) d o (signature name.now desc.now)) }
    ensures range { IfSome result (λ m. m.0 < length (nodes_of joined.now)) }
{
    select_as(joined, receiver, outcome, joined.signature(name, desc))
}
