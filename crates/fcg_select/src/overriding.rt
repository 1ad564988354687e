//! Overriding (JVMS 5.4.5).
ghost use Rattle.std.specs.Prelude.{◌≡◌, ◌<◌, ◌||◌, Option, Some, IfSome, length};
ghost use Rattle.fcg_analysis.specs.NamesAndFlags.{has};
ghost use Rattle.fcg_analysis.specs.Declarations.{Placed, signature_of};
ghost use Rattle.fcg_analysis.specs.Nodes.{Node};
ghost use Rattle.fcg_analysis.specs.Selection.{is_candidate, same_package, can_override};
ghost use Rattle.fcg_analysis.specs.Laws.ChainParts.{chain_of};
ghost use Rattle.fcg_analysis.specs.Laws.HandedOn.{is_handing, hands, handed_on};
ghost use Rattle.fcg_join.specs.Parts.{types_of, nodes_of};
ghost use Rattle.fcg_join.specs.Joined.{HasType, HasNode, GivesType};
ghost use Rattle.fcg_join.specs.Numbers.{set_signatures, HasSignature};

use crate::chain::{PRIVATE, PROTECTED, PUBLIC, STATIC, is_open};
use crate::package::is_same_package;
use fcg_join::{Joined, MethodId, SignatureId, TypeId};

// Whether the types of two methods have one package.
fn is_package_shared(joined: &Joined, one: MethodId, other: MethodId) -> bool
    requires first { one.0 < length (nodes_of joined.now) }
    requires second { other.0 < length (nodes_of joined.now) }
    ensures { (m n : Node) → HasNode joined.now one m → HasNode joined.now other n → result ≡ same_package m n }
{
    is_same_package(
        joined.type_name(joined.owner(one)),
        joined.type_name(joined.owner(other)),
    )
}

// Whether a method of these flags may be overridden from any package.
pub(crate) fn is_open_to_all(flags: u16) -> bool
    ensures { result ≡ (has 1 flags || has 4 flags) }
{
    flags & PUBLIC != 0 || flags & PROTECTED != 0
}

pub(crate) fn is_private(flags: u16) -> bool
    ensures { result ≡ has 2 flags }
{
    flags & PRIVATE != 0
}

// Whether both are instance methods of one name and descriptor, and the first isn't private.
fn is_candidate(joined: &Joined, mc: MethodId, ma: MethodId) -> bool
    requires over { mc.0 < length (nodes_of joined.now) }
    requires under { ma.0 < length (nodes_of joined.now) }
    ensures { (c a : Node) → HasNode joined.now mc c → HasNode joined.now ma a → result ≡ is_candidate c a }
{
    let flags = joined.method_flags(mc);
    flags & STATIC == 0
        && joined.method_flags(ma) & STATIC == 0
        && joined.method_name(ma) == joined.method_name(mc)
        && joined.method_desc(ma) == joined.method_desc(mc)
        && flags & PRIVATE == 0
}

// Whether a method is public or protected, overridable, and in the package of another.
fn is_handing(joined: &Joined, m: MethodId, ma: MethodId) -> bool
    requires over { m.0 < length (nodes_of joined.now) }
    requires under { ma.0 < length (nodes_of joined.now) }
    ensures { (b a : Node) → HasNode joined.now m b → HasNode joined.now ma a → result ≡ is_handing a b }
{
    let flags = joined.method_flags(m);
    is_open(flags) && is_open_to_all(flags) && is_package_shared(joined, m, ma)
}

// Whether a type declares a method that hands another, of this signature, on.
fn hands_on(joined: &Joined, t: TypeId, s: SignatureId, ma: MethodId) -> bool
    requires there { t.0 < length (types_of joined.now) }
    requires signature { s.0 < length (set_signatures joined.now) }
    requires under { ma.0 < length (nodes_of joined.now) }
    ensures { (a : Node) → HasNode joined.now ma a → HasSignature joined.now s (signature_of a.method) → (y : Placed) → HasType joined.now t y → result ≡ hands (types_of joined.now) a y }
{
    match joined.declared_as(t, Some(s)) {
        Some(m) => is_handing(joined, m, ma),
        None => false,
    }
}

// Whether a type of a chain, before that of the method, hands the method on: it declares one that overrides it in its
// package and is public or protected, so that others may override that one from any package.
pub(crate) fn is_handed_on(joined: &Joined, start: Option<TypeId>, ma: MethodId) -> bool
    requires under { ma.0 < length (nodes_of joined.now) }
    requires there { IfSome start (λ t. t.0 < length (types_of joined.now)) }
    ensures { (a : Node) → HasNode joined.now ma a → (o : Option Placed) → GivesType joined.now start o → result ≡ handed_on (types_of joined.now) a (chain_of (types_of joined.now) o) }
{
    let home = joined.owner(ma);
    let s = joined.method_signature(ma);
    let mut met = false;
    let mut at = start;
    while let Some(t) = at {
        if t == home {
            return met;
        }
        if hands_on(joined, t, s, ma) {
            met = true;
        }
        at = joined.chain_next(t);
    }
    false
}

/// Whether a method can override another: both are instance methods of one name and descriptor, the first isn't private,
/// and the second is public or protected, or package-private and of the same package, or handed on to other packages by
/// a class that stands between the two.
///
/// Takes no memory. It compares the two names, descriptors and packages, and goes once up the chain of the first at most:
/// each class costs as much as `declared_as`, and a comparison of packages where it declares such a method.
pub fn can_override(joined: &Joined, mc: MethodId, ma: MethodId) -> bool
    requires over { mc.0 < length (nodes_of joined.now) }
    requires under { ma.0 < length (nodes_of joined.now) }
    ensures { (c a : Node) → HasNode joined.now mc c → HasNode joined.now ma a → result ≡ can_override (types_of joined.now) c a }
{
    joined.tell_apart();
    if !is_candidate(joined, mc, ma) {
        return false;
    }
    let flags = joined.method_flags(ma);
    if is_open_to_all(flags) {
        return true;
    }
    if is_private(flags) {
        return false;
    }
    is_package_shared(joined, mc, ma)
        || is_handed_on(joined, joined.chain_next(joined.owner(mc)), ma)
}
