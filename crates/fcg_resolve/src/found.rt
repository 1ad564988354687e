//! Methods that are found from a class or an interface on.
ghost use Rattle.std.specs.Prelude.{◌≡◌, ◌<◌, IfSome, length};
ghost use Rattle.fcg_analysis.specs.NamesAndFlags.{found_in, or_else};
ghost use Rattle.fcg_analysis.specs.Declarations.{Placed, Signature};
ghost use Rattle.fcg_analysis.specs.Types.{chain};
ghost use Rattle.fcg_analysis.specs.Nodes.{declared, one_default, first_super_method};
ghost use Rattle.fcg_analysis.specs.Resolution.{public_of_object};
ghost use Rattle.fcg_join.specs.Parts.{types_of, nodes_of};
ghost use Rattle.fcg_join.specs.Joined.{HasType, GivesNode};
ghost use Rattle.fcg_join.specs.Numbers.{set_signatures, GivesSignature};

use fcg_join::{Joined, MethodId, SignatureId, TypeId};

// The first method of the signature that a type of a chain declares.
fn find_in_chain(joined: &Joined, start: TypeId, s: Option<SignatureId>) -> Option<MethodId>
    requires there { start.0 < length (types_of joined.now) }
    requires signature { IfSome s (λ s. s.0 < length (set_signatures joined.now)) }
    ensures value { (x : Placed) (sig : Signature) → HasType joined.now start x → GivesSignature joined.now s sig → GivesNode joined.now result (found_in (declared (types_of joined.now) sig) (chain (types_of joined.now) x)) }
    ensures range { IfSome result (λ m. m.0 < length (nodes_of joined.now)) }
{
    let mut at = Some(start);
    while let Some(t) = at {
        match joined.declared_as(t, s) {
            Some(m) => return Some(m),
            None => at = joined.chain_next(t),
        }
    }
    None
}

// The one default of a type, or else its first superinterface method.
fn find_above(joined: &Joined, t: TypeId, s: Option<SignatureId>) -> Option<MethodId>
    requires there { t.0 < length (types_of joined.now) }
    requires signature { IfSome s (λ s. s.0 < length (set_signatures joined.now)) }
    ensures value { (x : Placed) (sig : Signature) → HasType joined.now t x → GivesSignature joined.now s sig → GivesNode joined.now result (or_else (one_default (types_of joined.now) x sig) (first_super_method (types_of joined.now) x sig)) }
    ensures range { IfSome result (λ m. m.0 < length (nodes_of joined.now)) }
{
    match joined.one_default_as(t, s) {
        Some(m) => Some(m),
        None => joined.first_above_as(t, s),
    }
}

// What a class has: a method of its chain, or else one of the interfaces above it.
pub(crate) fn find_for_class(joined: &Joined, t: TypeId, s: Option<SignatureId>) -> Option<MethodId>
    requires there { t.0 < length (types_of joined.now) }
    requires signature { IfSome s (λ s. s.0 < length (set_signatures joined.now)) }
    ensures value { (x : Placed) (sig : Signature) → HasType joined.now t x → GivesSignature joined.now s sig → GivesNode joined.now result (or_else (found_in (declared (types_of joined.now) sig) (chain (types_of joined.now) x)) (or_else (one_default (types_of joined.now) x sig) (first_super_method (types_of joined.now) x sig))) }
    ensures range { IfSome result (λ m. m.0 < length (nodes_of joined.now)) }
{
    match find_in_chain(joined, t, s) {
        Some(m) => Some(m),
        None => find_above(joined, t, s),
    }
}

// What an interface has: its own method, or else the public instance method of Object, or else one of the interfaces above
// it.
pub(crate) fn find_for_interface(
    joined: &Joined,
    t: TypeId,
    s: Option<SignatureId>,
) -> Option<MethodId>
    requires there { t.0 < length (types_of joined.now) }
    requires signature { IfSome s (λ s. s.0 < length (set_signatures joined.now)) }
    ensures value { (x : Placed) (sig : Signature) → HasType joined.now t x → GivesSignature joined.now s sig → GivesNode joined.now result (or_else (declared (types_of joined.now) sig x) (or_else (public_of_object (types_of joined.now) sig) (or_else (one_default (types_of joined.now) x sig) (first_super_method (types_of joined.now) x sig)))) }
    ensures range { IfSome result (λ m. m.0 < length (nodes_of joined.now)) }
{
    if let Some(m) = joined.declared_as(t, s) {
        return Some(m);
    }
    match joined.object_method(s) {
        Some(m) => Some(m),
        None => find_above(joined, t, s),
    }
}
