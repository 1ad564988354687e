//! Signatures by numbers, and the methods that have them.
ghost use Rattle.std.specs.Prelude.{◌≡◌, ◌<◌, ◌+◌, ◌&&◌, ℕ, List, None, Some, IfSome, length, not, option_map};
ghost use Rattle.fcg_analysis.specs.NamesAndFlags.{has};
ghost use Rattle.fcg_analysis.specs.Laws.Methods.{first_node};
ghost use Rattle.fcg_analysis.specs.Declarations.{Placed, Signature, signature_of};
ghost use Rattle.fcg_analysis.specs.Nodes.{Node, declared};
ghost use Rattle.fcg_analysis.specs.Resolution.{public_of_object};
ghost use Rattle.fcg_join.specs.Parts.{types_of, nodes_of};
ghost use Rattle.fcg_join.specs.Joined.{HasType, HasNode, GivesNode, signature};
ghost use Rattle.fcg_join.specs.NodeTables.{declarers};
ghost use Rattle.fcg_join.specs.SetNames.{set_names};
ghost use Rattle.fcg_join.specs.Numbers.{HasName, set_signatures, HasSignature, GivesSignature};

use crate::id::{MethodId, NameId, SignatureId, TypeId};
use crate::joined::Joined;
use crate::signatures::{find_between, find_pair};

// The flags of public and of static methods (JVMS 4.6).
const PUBLIC: u16 = 0x0001;

const STATIC: u16 = 0x0008;

// The number as that of a signature.
fn signature_id(number: Option<u32>) -> Option<SignatureId>
    ensures { option_map (λ id. id.0) result ≡ number }
{
    match number {
        Some(number) => Some(SignatureId(number)),
        None => None,
    }
}

// The number as that of a method.
fn method_id(number: Option<u32>) -> Option<MethodId>
    ensures { option_map (λ id. id.0) result ≡ number }
{
    match number {
        Some(number) => Some(MethodId(number)),
        None => None,
    }
}

// Whether these are the flags of a public instance method.
fn is_public_instance(flags: u16) -> bool
    ensures { result ≡ (has 0x0001 flags && not (has 0x0008 flags)) }
{
    flags & PUBLIC != 0 && flags & STATIC == 0
}

impl Joined {
    /// How many signatures the methods of the known types have. Takes no memory.
    pub fn signature_count(&self) -> u32
        ensures { result ≡ length (set_signatures self.now) }
    {
        self.tables.signatures.keys.len() as u32
    }

    /// The number of a signature, where some method has it. Takes no memory. It looks for the two names, each with a
    /// logarithm of the number of all names in comparisons, and for the pair of their numbers.
    pub fn signature(&self, name: &[u8], desc: &[u8]) -> Option<SignatureId>
        ensures value { GivesSignature self.now result (signature name.now desc.now) }
        ensures range { IfSome result (λ s. s.0 < length (set_signatures self.now)) }
    {
        let name = self.name_id(name)?;
        let desc = self.name_id(desc)?;
        self.signature_of_names(name, desc)
    }

    /// The number of a signature by the numbers of its names, where some method has it. Takes no memory. It takes a
    /// logarithm of the number of signatures.
    pub fn signature_of_names(&self, name: NameId, desc: NameId) -> Option<SignatureId>
        requires name { name.0 < length (set_names self.now) }
        requires desc { desc.0 < length (set_names self.now) }
        ensures value { (n d : List ℕ) → HasName self.now name n → HasName self.now desc d → GivesSignature self.now result (signature n d) }
        ensures range { IfSome result (λ s. s.0 < length (set_signatures self.now)) }
    {
        let keys = self.tables.signatures.keys.as_slice();
        signature_id(find_pair(keys, (name.0, desc.0)))
    }

    /// The signature of a method. Takes no memory, and is one look in a table.
    pub fn method_signature(&self, m: MethodId) -> SignatureId
        requires { m.0 < length (nodes_of self.now) }
        ensures value { (n : Node) → HasNode self.now m n → HasSignature self.now result (signature_of n.method) }
        ensures range { result.0 < length (set_signatures self.now) }
    {
        SignatureId(self.tables.signatures.of_nodes[m.0 as usize])
    }

    /// The methods that have a signature, by their numbers, which rise. Takes no memory, and is one look in a table.
    pub fn declarers(&self, s: SignatureId) -> &[u32]
        requires { s.0 < length (set_signatures self.now) }
        ensures { (sig : Signature) → HasSignature self.now s sig → result.now ≡ declarers (types_of self.now) sig }
    {
        self.tables.signatures.declarers.row(s.0 as usize)
    }

    // The number after that of a type's last method.
    fn end_of_methods(&self, t: TypeId) -> u32
        requires { t.0 < length (types_of self.now) }
        ensures { (x : Placed) → HasType self.now t x → result ≡ first_node (types_of self.now) t.0 + length x.view.methods }
    {
        self.first_method(t) + u32::from(self.head(t).methods)
    }

    /// The method of a signature that a type declares; none where no method has the signature. Takes no memory. It takes a
    /// logarithm of the number of methods that have the signature.
    pub fn declared_as(&self, t: TypeId, s: Option<SignatureId>) -> Option<MethodId>
        requires there { t.0 < length (types_of self.now) }
        requires signature { IfSome s (λ s. s.0 < length (set_signatures self.now)) }
        ensures value { (x : Placed) (sig : Signature) → HasType self.now t x → GivesSignature self.now s sig → GivesNode self.now result (declared (types_of self.now) sig x) }
        ensures range { IfSome result (λ m. m.0 < length (nodes_of self.now)) }
    {
        self.tell_apart();
        match s {
            Some(s) => method_id(find_between(
                self.declarers(s),
                self.first_method(t),
                self.end_of_methods(t),
            )),
            None => None,
        }
    }

    /// The public instance method of a signature that Object declares, where Object is known as a class. Takes no memory,
    /// and costs as much as `declared_as`.
    pub fn object_method(&self, s: Option<SignatureId>) -> Option<MethodId>
        requires { IfSome s (λ s. s.0 < length (set_signatures self.now)) }
        ensures value { (sig : Signature) → GivesSignature self.now s sig → GivesNode self.now result (public_of_object (types_of self.now) sig) }
        ensures range { IfSome result (λ m. m.0 < length (nodes_of self.now)) }
    {
        let object = self.object()?;
        let m = self.declared_as(object, s)?;
        if is_public_instance(self.method_flags(m)) {
            return Some(m);
        }
        None
    }
}
