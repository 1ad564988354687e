//! Wanted methods of a chain.
ghost use Rattle.std.specs.Prelude.{◌≡◌, ◌<◌, ◌&&◌, not, IfSome, length};
ghost use Rattle.fcg_analysis.specs.NamesAndFlags.{found_in, has};
ghost use Rattle.fcg_analysis.specs.Declarations.{Placed, Signature};
ghost use Rattle.fcg_analysis.specs.Types.{chain};
ghost use Rattle.fcg_analysis.specs.Nodes.{Node, declared};
ghost use Rattle.fcg_analysis.specs.Laws.HandedOn.{where_passes};
ghost use Rattle.fcg_join.specs.Parts.{types_of, nodes_of};
ghost use Rattle.fcg_join.specs.Joined.{HasType, HasNode, GivesNode};
ghost use Rattle.fcg_join.specs.Numbers.{set_signatures, GivesSignature};
ghost use Rattle.fcg_select.specs.Internal.Wanted.{is_wanted, WantedIsKnown};

use crate::package::is_same_package;
use fcg_join::{Joined, MethodId, SignatureId, TypeId};

// The flags of JVMS 4.6, table 4.6-A.
pub(crate) const PUBLIC: u16 = 0x0001;

pub(crate) const PRIVATE: u16 = 0x0002;

pub(crate) const PROTECTED: u16 = 0x0004;

pub(crate) const STATIC: u16 = 0x0008;

// Which methods of a chain are wanted.
#[derive(Clone, Copy)]
pub(crate) enum Wanted {
    // Instance methods.
    Instance,
    // Instance methods that aren't private.
    Open,
    // Those of types in the package of this type.
    OpenIn(TypeId),
}

// Whether a method of these flags is an instance method that isn't private.
pub(crate) fn is_open(flags: u16) -> bool
    ensures { result ≡ (not (has 8 flags) && not (has 2 flags)) }
{
    flags & STATIC == 0 && flags & PRIVATE == 0
}

fn is_wanted(joined: &Joined, m: MethodId, wanted: &Wanted) -> bool
    requires there { m.0 < length (nodes_of joined.now) }
    requires package { WantedIsKnown joined.now wanted.now }
    ensures { (n : Node) → HasNode joined.now m n → result ≡ is_wanted joined.now wanted.now n }
{
    let flags = joined.method_flags(m);
    match wanted {
        Wanted::Instance => flags & STATIC == 0,
        Wanted::Open => is_open(flags),
        Wanted::OpenIn(t) => {
            is_open(flags)
                && is_same_package(joined.type_name(joined.owner(m)), joined.type_name(*t))
        }
    }
}

// The method of the signature that a type declares, where it is wanted.
fn find_wanted_in(
    joined: &Joined,
    t: TypeId,
    wanted: &Wanted,
    s: Option<SignatureId>,
) -> Option<MethodId>
    requires there { t.0 < length (types_of joined.now) }
    requires package { WantedIsKnown joined.now wanted.now }
    requires signature { IfSome s (λ s. s.0 < length (set_signatures joined.now)) }
    ensures value { (x : Placed) (sig : Signature) → HasType joined.now t x → GivesSignature joined.now s sig → GivesNode joined.now result (where_passes (is_wanted joined.now wanted.now) (declared (types_of joined.now) sig x)) }
    ensures range { IfSome result (λ m. m.0 < length (nodes_of joined.now)) }
{
    match joined.declared_as(t, s) {
        Some(m) if is_wanted(joined, m, wanted) => Some(m),
        Some(_) => None,
        None => None,
    }
}

// The wanted method of the signature, of the first type of a chain that declares one.
pub(crate) fn find_wanted(
    joined: &Joined,
    start: TypeId,
    wanted: &Wanted,
    s: Option<SignatureId>,
) -> Option<MethodId>
    requires there { start.0 < length (types_of joined.now) }
    requires package { WantedIsKnown joined.now wanted.now }
    requires signature { IfSome s (λ s. s.0 < length (set_signatures joined.now)) }
    ensures value { (x : Placed) (sig : Signature) → HasType joined.now start x → GivesSignature joined.now s sig → GivesNode joined.now result (found_in (λ t. where_passes (is_wanted joined.now wanted.now) (declared (types_of joined.now) sig t)) (chain (types_of joined.now) x)) }
    ensures range { IfSome result (λ m. m.0 < length (nodes_of joined.now)) }
{
    let mut at = Some(start);
    while let Some(t) = at {
        match find_wanted_in(joined, t, wanted, s) {
            Some(m) => return Some(m),
            None => at = joined.chain_next(t),
        }
    }
    None
}
