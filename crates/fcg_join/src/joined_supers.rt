//! The methods that a type has from the interfaces above it.
ghost use Rattle.std.specs.Prelude.{◌≡◌, ◌<◌, ◌||◌, true, None, Some, Contains, IfSome, length, not};
ghost use Rattle.std.specs.List.{list_any};
ghost use Rattle.std.specs.List.Sorted.{IsStrictlyIncreasing};
ghost use Rattle.fcg_analysis.specs.NamesAndFlags.{has};
ghost use Rattle.fcg_analysis.specs.Declarations.{Placed, Signature, is_interface, is_private, is_static, is_abstract};
ghost use Rattle.fcg_analysis.specs.Types.{is_above};
ghost use Rattle.fcg_analysis.specs.Nodes.{Node, super_methods, one_default, first_super_method};
ghost use Rattle.fcg_join.specs.TypeTables.{IsUpwardRow, mentions_at};
ghost use Rattle.fcg_join.specs.Parts.{types_of, nodes_of};
ghost use Rattle.fcg_join.specs.Joined.{HasType, HasNode, GivesNode, signature};
ghost use Rattle.fcg_join.specs.Numbers.{set_signatures, GivesSignature};
ghost use Rattle.fcg_join.specs.SetNames.{set_names};
ghost use Rattle.fcg_join.specs.Internal.Supers.{IsMentioned, is_of, is_of_any, IsOnly, first_of, defaults};

use crate::below::has_number;
use crate::id::{MethodId, NameId, SignatureId, TypeId};
use crate::joined::Joined;

// The flags of methods (JVMS 4.6).
const PRIVATE: u16 = 0x0002;

const STATIC: u16 = 0x0008;

const ABSTRACT: u16 = 0x0400;

// Whether a flag is set.
fn has_flag(flag: u16, flags: u16) -> bool
    ensures { result ≡ has flag flags }
{
    flags & flag != 0
}

// The first of two methods.
fn first_of(a: Option<MethodId>, b: Option<MethodId>) -> Option<MethodId>
    ensures { result ≡ first_of a b }
{
    match (a, b) {
        (Some(a), Some(b)) if b.0 < a.0 => Some(b),
        (Some(a), _) => Some(a),
        (None, b) => b,
    }
}

impl Joined {
    // The numbers of the names of interfaces at or above a type, and of absent names that it or a type above it uses. They
    // rise.
    fn mentioned(&self, t: TypeId) -> &[u32]
        requires { t.0 < length (types_of self.now) }
        ensures rise { IsStrictlyIncreasing result.now }
        ensures upward { (x : Placed) → HasType self.now t x → IsUpwardRow (types_of self.now) (mentions_at (set_names self.now) (types_of self.now)) x result.now }
        ensures supers { (x : Placed) (sig : Signature) → HasType self.now t x → (m : Node) → Contains (super_methods (types_of self.now) x sig) m → is_of_any self.now result.now m ≡ true }
    {
        self.tables.inherited.mentions.row(t.0)
    }

    // Whether a method is neither private nor static.
    fn is_open(&self, m: MethodId) -> bool
        requires { m.0 < length (nodes_of self.now) }
        ensures { (n : Node) → HasNode self.now m n → result ≡ not (is_private n.method || is_static n.method) }
    {
        let flags = self.method_flags(m);
        !(has_flag(PRIVATE, flags) || has_flag(STATIC, flags))
    }

    // Whether a method is abstract.
    fn is_abstract(&self, m: MethodId) -> bool
        requires { m.0 < length (nodes_of self.now) }
        ensures { (n : Node) → HasNode self.now m n → result ≡ is_abstract n.method }
    {
        has_flag(ABSTRACT, self.method_flags(m))
    }

    // The superinterface method of a type that the interface of a name declares. The type or one above it mentions the
    // name.
    fn declared_above(&self, t: TypeId, s: Option<SignatureId>, name: u32) -> Option<MethodId>
        requires there { t.0 < length (types_of self.now) }
        requires signature { IfSome s (λ s. s.0 < length (set_signatures self.now)) }
        requires mentioned { (x : Placed) → HasType self.now t x → IsMentioned self.now x name }
        ensures value { (x : Placed) (sig : Signature) → HasType self.now t x → GivesSignature self.now s sig → IsOnly self.now (super_methods (types_of self.now) x sig) (is_of self.now name) result }
        ensures range { IfSome result (λ m. m.0 < length (nodes_of self.now)) }
    {
        self.tell_apart();
        let owner = self.type_named(NameId(name))?;
        if owner.0 == t.0 {
            return None;
        }
        let m = self.declared_as(owner, s)?;
        if self.is_open(m) { Some(m) } else { None }
    }

    // Whether the owner of a method is below the owner of another, which is an interface.
    fn is_owned_below(&self, o: MethodId, m: MethodId) -> bool
        requires lower { o.0 < length (nodes_of self.now) }
        requires upper { m.0 < length (nodes_of self.now) }
        ensures { (a b : Node) → HasNode self.now o a → HasNode self.now m b → is_interface b.owner ≡ true → result ≡ is_above (types_of self.now) a.owner b.owner }
    {
        let lower = self.owner(o);
        let upper = self.owner(m);
        lower.0 != upper.0 && has_number(self.mentioned(lower), self.head(upper).name)
    }

    // Whether a superinterface method of a type is maximally-specific: whether no other's owner is below its owner.
    fn is_specific(&self, t: TypeId, s: Option<SignatureId>, m: MethodId) -> bool
        requires there { t.0 < length (types_of self.now) }
        requires signature { IfSome s (λ s. s.0 < length (set_signatures self.now)) }
        requires method { m.0 < length (nodes_of self.now) }
        ensures { (x : Placed) (sig : Signature) (n : Node) → HasType self.now t x → GivesSignature self.now s sig → HasNode self.now m n → Contains (super_methods (types_of self.now) x sig) n
            → result ≡ not (list_any (λ o. is_above (types_of self.now) o.owner n.owner) (super_methods (types_of self.now) x sig)) }
    {
        for name in self.mentioned(t) {
            if let Some(o) = self.declared_above(t, s, *name) {
                if self.is_owned_below(o, m) {
                    return false;
                }
            }
        }
        true
    }

    // The method that the interface of a name declares, where it is a maximally-specific superinterface method of a type
    // and isn't abstract. The type or one above it mentions the name.
    fn default_of(&self, t: TypeId, s: Option<SignatureId>, name: u32) -> Option<MethodId>
        requires there { t.0 < length (types_of self.now) }
        requires signature { IfSome s (λ s. s.0 < length (set_signatures self.now)) }
        requires mentioned { (x : Placed) → HasType self.now t x → IsMentioned self.now x name }
        ensures value { (x : Placed) (sig : Signature) → HasType self.now t x → GivesSignature self.now s sig → IsOnly self.now (defaults (types_of self.now) x sig) (is_of self.now name) result }
        ensures range { IfSome result (λ m. m.0 < length (nodes_of self.now)) }
    {
        let m = self.declared_above(t, s, name)?;
        if !self.is_abstract(m) && self.is_specific(t, s, m) {
            Some(m)
        } else {
            None
        }
    }

    /// The one maximally-specific superinterface method of a type that isn't abstract, by the number of its signature.
    ///
    /// Takes no memory. It goes over the names of interfaces at or above the type and of absent names that it or a type above
    /// it uses, each with a logarithm of the number of methods that have the signature. For each superinterface method that
    /// isn't abstract it goes over them once more, until the owner of another such method is below, with a logarithm of the
    /// number of such names of that owner. It ends with none at the second method of the kind sought.
    pub fn one_default_as(&self, t: TypeId, s: Option<SignatureId>) -> Option<MethodId>
        requires there { t.0 < length (types_of self.now) }
        requires signature { IfSome s (λ s. s.0 < length (set_signatures self.now)) }
        ensures value { (x : Placed) (sig : Signature) → HasType self.now t x → GivesSignature self.now s sig → GivesNode self.now result (one_default (types_of self.now) x sig) }
        ensures range { IfSome result (λ m. m.0 < length (nodes_of self.now)) }
    {
        let mut found = None;
        for name in self.mentioned(t) {
            let more = self.default_of(t, s, *name);
            if found.is_some() && more.is_some() {
                return None;
            }
            found = found.or(more);
        }
        found
    }

    /// The first superinterface method of a type, by the number of its signature.
    ///
    /// Takes no memory. It goes once over the names of interfaces at or above the type and of absent names that it or a type
    /// above it uses, each with a logarithm of the number of methods that have the signature.
    pub fn first_above_as(&self, t: TypeId, s: Option<SignatureId>) -> Option<MethodId>
        requires there { t.0 < length (types_of self.now) }
        requires signature { IfSome s (λ s. s.0 < length (set_signatures self.now)) }
        ensures value { (x : Placed) (sig : Signature) → HasType self.now t x → GivesSignature self.now s sig → GivesNode self.now result (first_super_method (types_of self.now) x sig) }
        ensures range { IfSome result (λ m. m.0 < length (nodes_of self.now)) }
    {
        let mut first = None;
        for name in self.mentioned(t) {
            first = first_of(first, self.declared_above(t, s, *name));
        }
        first
    }

    /// The one maximally-specific superinterface method of a type that isn't abstract.
    ///
    /// Takes no memory. It looks for the number of the signature, and then costs as much as `one_default_as`.
    pub fn one_default(&self, t: TypeId, name: &[u8], desc: &[u8]) -> Option<MethodId>
        requires { t.0 < length (types_of self.now) }
        ensures value { (x : Placed) → HasType self.now t x → GivesNode self.now result (one_default (types_of self.now) x (signature name.now desc.now)) }
        ensures range { IfSome result (λ m. m.0 < length (nodes_of self.now)) }
    {
        self.one_default_as(t, self.signature(name, desc))
    }

    /// The first superinterface method of a type, maximally-specific or not.
    ///
    /// Takes no memory. It looks for the number of the signature, and then costs as much as `first_above_as`.
    pub fn first_above(&self, t: TypeId, name: &[u8], desc: &[u8]) -> Option<MethodId>
        requires { t.0 < length (types_of self.now) }
        ensures value { (x : Placed) → HasType self.now t x → GivesNode self.now result (first_super_method (types_of self.now) x (signature name.now desc.now)) }
        ensures range { IfSome result (λ m. m.0 < length (nodes_of self.now)) }
    {
        self.first_above_as(t, self.signature(name, desc))
    }
}
