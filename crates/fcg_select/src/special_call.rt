//! Special calls (JVMS 6.5, invokespecial).
ghost use Rattle.std.specs.Prelude.{◌≡◌, ◌<◌, ℕ, List, Option, IfSome, length, codes};
ghost use Rattle.fcg_views.specs.declared.view.Ref.{Ref};
ghost use Rattle.fcg_analysis.specs.NamesAndFlags.{same};
ghost use Rattle.fcg_analysis.specs.Declarations.{Placed, Signature, is_named};
ghost use Rattle.fcg_analysis.specs.Types.{type_named};
ghost use Rattle.fcg_analysis.specs.Resolution as rules;
ghost use Rattle.fcg_analysis.specs.Resolution.{resolved};
ghost use Rattle.fcg_analysis.specs.Special.{search_start, found_from, special_init, goes_on, special};
ghost use Rattle.fcg_join.specs.Parts.{types_of, nodes_of};
ghost use Rattle.fcg_join.specs.Joined.{HasType, GivesType, GivesNode};
ghost use Rattle.fcg_join.specs.SetNames.{set_names};
ghost use Rattle.fcg_join.specs.Numbers.{set_signatures, GivesSignature, HasRef};
ghost use Rattle.fcg_join.specs.Outcomes.{GivesOutcome, IfMethod};
ghost use Rattle.fcg_select.specs.Internal.Target.{IsTarget, IsInRange, past_chain};

use crate::chain::{STATIC, Wanted, find_wanted};
use crate::line::is_superclass_name;
use fcg_join::{Joined, MethodId, NameId, NumberedRef, Outcome, SignatureId, TypeId};
use fcg_views::Ref;

const INIT: &[u8] = b"<init>";

// What a reference names, by numbers.
#[derive(Clone, Copy)]
pub(crate) struct Target {
    // The known type of the owner's name.
    pub(crate) owner: Option<TypeId>,
    // The owner's name, where some part has it.
    pub(crate) owner_name: Option<NameId>,
    // Whether it is an InterfaceMethodref.
    pub(crate) by_interface: bool,
    // Whether the method is an `<init>`.
    pub(crate) is_init: bool,
    // The method's signature, where some method has it.
    pub(crate) signature: Option<SignatureId>,
}

// Where the search for the method starts.
fn search_start(joined: &Joined, current: TypeId, target: &Target) -> Option<TypeId>
    requires current { current.0 < length (types_of joined.now) }
    requires range { IsInRange joined.now target.now }
    ensures value { (x : Placed) (r : Ref) → HasType joined.now current x → IsTarget joined.now target.now r → GivesType joined.now result (search_start (types_of joined.now) x r) }
    ensures range { IfSome result (λ t. t.0 < length (types_of joined.now)) }
{
    if target.by_interface {
        return target.owner;
    }
    if is_superclass_name(joined, current, target.owner, target.owner_name) {
        return joined.superclass(current);
    }
    target.owner
}

// What a search takes past the chain: of an interface the public instance method of Object, or else the one default.
fn find_past_chain(joined: &Joined, start: TypeId, s: Option<SignatureId>) -> Option<MethodId>
    requires there { start.0 < length (types_of joined.now) }
    requires signature { IfSome s (λ s. s.0 < length (set_signatures joined.now)) }
    ensures value { (x : Placed) (sig : Signature) → HasType joined.now start x → GivesSignature joined.now s sig → GivesNode joined.now result (past_chain (types_of joined.now) sig x) }
    ensures range { IfSome result (λ m. m.0 < length (nodes_of joined.now)) }
{
    if !joined.is_interface(start) {
        return joined.one_default_as(start, s);
    }
    match joined.object_method(s) {
        Some(m) => Some(m),
        None => joined.one_default_as(start, s),
    }
}

// The method that a search from a type takes.
fn find_from(joined: &Joined, start: TypeId, s: Option<SignatureId>) -> Option<MethodId>
    requires there { start.0 < length (types_of joined.now) }
    requires signature { IfSome s (λ s. s.0 < length (set_signatures joined.now)) }
    ensures value { (x : Placed) (sig : Signature) → HasType joined.now start x → GivesSignature joined.now s sig → GivesNode joined.now result (found_from (types_of joined.now) sig x) }
    ensures range { IfSome result (λ m. m.0 < length (nodes_of joined.now)) }
{
    joined.tell_apart();
    match find_wanted(joined, start, &Wanted::Instance, s) {
        Some(m) => Some(m),
        None => find_past_chain(joined, start, s),
    }
}

// Whether an outcome is an instance method or a phantom.
fn goes_on(joined: &Joined, outcome: Outcome) -> bool
    requires { IfMethod outcome (λ m. m.0 < length (nodes_of joined.now)) }
    ensures { (o : rules.Outcome) → GivesOutcome joined.now outcome o → result ≡ goes_on o }
{
    match outcome {
        Outcome::Failed(_) => false,
        Outcome::Phantom => true,
        Outcome::Method(m) => joined.method_flags(m) & STATIC == 0,
    }
}

// Whether a type is the known one of a name.
fn is_owner(joined: &Joined, owner: Option<TypeId>, t: TypeId) -> bool
    requires { t.0 < length (types_of joined.now) }
    ensures { (n : List ℕ) (x : Placed) → GivesType joined.now owner (type_named (types_of joined.now) n) → HasType joined.now t x → result ≡ is_named n x }
{
    match owner {
        Some(owner) => owner == t,
        None => false,
    }
}

// The resolved `<init>`, where the class that is named declares it.
fn find_init(joined: &Joined, owner: Option<TypeId>, outcome: Outcome) -> Option<MethodId>
    requires { IfMethod outcome (λ m. m.0 < length (nodes_of joined.now)) }
    ensures value { (r : Ref) (o : rules.Outcome) → GivesType joined.now owner (type_named (types_of joined.now) r.owner) → GivesOutcome joined.now outcome o → GivesNode joined.now result (special_init r o) }
    ensures range { IfSome result (λ m. m.0 < length (nodes_of joined.now)) }
{
    match outcome {
        Outcome::Failed(_) => None,
        Outcome::Phantom => None,
        Outcome::Method(m) => {
            let class = joined.owner(m);
            if is_owner(joined, owner, class) && !joined.is_interface(class) {
                Some(m)
            } else {
                None
            }
        }
    }
}

fn is_init(name: &[u8]) -> bool
    ensures { result ≡ same (codes "<init>") name.now }
{
    INIT == name
}

// The method of a special call by what it names.
fn special_by(
    joined: &Joined,
    current: TypeId,
    target: &Target,
    outcome: Outcome,
) -> Option<MethodId>
    requires current { current.0 < length (types_of joined.now) }
    requires range { IsInRange joined.now target.now }
    requires outcome { IfMethod outcome (λ m. m.0 < length (nodes_of joined.now)) }
    ensures value { (x : Placed) (r : Ref) → HasType joined.now current x → IsTarget joined.now target.now r → GivesOutcome joined.now outcome (resolved (types_of joined.now) r) → GivesNode joined.now result (special (types_of joined.now) x r) }
    ensures range { IfSome result (λ m. m.0 < length (nodes_of joined.now)) }
{
    if !goes_on(joined, outcome) {
        return None;
    }
    if target.is_init {
        return find_init(joined, target.owner, outcome);
    }
    match search_start(joined, current, target) {
        Some(start) => find_from(joined, start, target.signature),
        None => None,
    }
}

/// The method of an `invokespecial` in a class, for a reference and its outcome: an `<init>` that the named class
/// declares; else what a search finds that starts at the class's linked superclass, where a Methodref names a superclass,
/// or at the named type.
///
/// Takes no memory. It looks the names up once, and then goes once along the superclasses of the calling class, once up
/// the chain of the type where the search starts, where each class costs as much as `declared_as`, and once over the
/// interfaces above that.
pub fn special(
    joined: &Joined,
    current: TypeId,
    reference: &Ref,
    outcome: Outcome,
) -> Option<MethodId>
    requires there { current.0 < length (types_of joined.now) }
    requires outcome { GivesOutcome joined.now outcome (resolved (types_of joined.now) reference.now) }
    ensures value { (x : Placed) → HasType joined.now current x → GivesNode joined.now result (special (types_of joined.now) x reference.now) }
    ensures range { IfSome result (λ m. m.0 < length (nodes_of joined.now)) }
{
    let (owner, name) = (reference.owner.as_slice(), reference.name.as_slice());
    let target = Target {
        owner: joined.find(owner),
        owner_name: joined.name_id(owner),
        by_interface: reference.owner_is_interface_ref,
        is_init: is_init(name),
        signature: joined.signature(name, reference.desc.as_slice()),
    };
    special_by(joined, current, &target, outcome)
}

/// The method of an `invokespecial` in a class, for a reference by the numbers of its names and for its outcome: an `<init>`
/// that the named class declares; else what a search finds that starts at the class's linked superclass, where a Methodref
/// names a superclass, or at the named type.
///
/// Takes no memory. It looks the signature up once, and then goes once along the superclasses of the calling class, once
/// up the chain of the type where the search starts, where each class costs as much as `declared_as`, and once over the
/// interfaces above that.
pub fn special_numbered(
    joined: &Joined,
    current: TypeId,
    reference: NumberedRef,
    outcome: Outcome,
) -> Option<MethodId>
    requires there { current.0 < length (types_of joined.now) }
    requires owner { reference.owner.0 < length (set_names joined.now) }
    requires name { reference.name.0 < length (set_names joined.now) }
    requires desc { reference.desc.0 < length (set_names joined.now) }
    requires outcome { (r : Ref) → HasRef joined.now reference r → GivesOutcome joined.now outcome (resolved (types_of joined.now) r) }
    ensures value { (x : Placed) (r : Ref) → HasType joined.now current x → HasRef joined.now reference r → GivesNode joined.now result (special (types_of joined.now) x r) }
    ensures range { IfSome result (λ m. m.0 < length (nodes_of joined.now)) }
{
    let target = Target {
        owner: joined.type_named(reference.owner),
        owner_name: Some(reference.owner),
        by_interface: reference.owner_is_interface_ref,
        is_init: is_init(joined.name(reference.name)),
        signature: joined.signature_of_names(reference.name, reference.desc),
    };
    special_by(joined, current, &target, outcome)
}
