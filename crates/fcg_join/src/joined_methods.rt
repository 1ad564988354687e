//! The methods of the known types of some parts.
ghost use Rattle.std.specs.Prelude.{◌≡◌, ◌<◌, length, IfSome};
ghost use Rattle.fcg_analysis.specs.Declarations.{Placed};
ghost use Rattle.fcg_analysis.specs.Nodes.{Node, declared};
ghost use Rattle.fcg_join.specs.Parts.{types_of, nodes_of};
ghost use Rattle.fcg_join.specs.Joined.{HasType, HasNode, GivesNode, IsOrigin, signature};
ghost use Rattle.fcg_join.specs.Internal.MethodRows.{IsMethodPlace};

use crate::id::{MethodId, TypeId, TypeOrigin};
use crate::joined::Joined;
use crate::methods::{MethodPlace, desc_of_method, flags_of_method, name_of_method};

impl Joined {
    /// Where a type comes from: the part and the place in it, which are those of the first view of its name, and the
    /// numbers of its methods, which follow one another. Takes no memory, and is one look in a table.
    pub fn origin(&self, t: TypeId) -> TypeOrigin
        requires { t.0 < length (types_of self.now) }
        ensures { (x : Placed) → HasType self.now t x → IsOrigin self.now t x result }
    {
        let head = self.head(t);
        TypeOrigin {
            part: head.part,
            place: head.place,
            first: self.first_method(t),
            methods: u32::from(head.methods),
        }
    }

    // Where a method stands.
    fn method_place(&self, m: MethodId) -> MethodPlace
        requires { m.0 < length (nodes_of self.now) }
        ensures { (n : Node) → HasNode self.now m n → IsMethodPlace self.now result n.method }
    {
        let owner = self.owner(m);
        let head = self.head(owner);
        MethodPlace {
            part: head.part,
            place: head.place,
            index: (m.0 - self.first_method(owner)) as u16,
        }
    }

    /// The flags of a method. Takes no memory.
    pub fn method_flags(&self, m: MethodId) -> u16
        requires { m.0 < length (nodes_of self.now) }
        ensures { (n : Node) → HasNode self.now m n → result ≡ n.method.flags }
    {
        flags_of_method(self.parts().as_slice(), self.method_place(m))
    }

    /// The name of a method. Takes no memory.
    pub fn method_name(&self, m: MethodId) -> &[u8]
        requires { m.0 < length (nodes_of self.now) }
        ensures { (n : Node) → HasNode self.now m n → result.now ≡ n.method.name }
    {
        name_of_method(self.parts().as_slice(), self.method_place(m))
    }

    /// The descriptor of a method. Takes no memory.
    pub fn method_desc(&self, m: MethodId) -> &[u8]
        requires { m.0 < length (nodes_of self.now) }
        ensures { (n : Node) → HasNode self.now m n → result.now ≡ n.method.desc }
    {
        desc_of_method(self.parts().as_slice(), self.method_place(m))
    }

    /// The method of a name and a descriptor that a type declares. Takes no memory. It looks for the two names, each with
    /// a logarithm of the number of all names in comparisons, for the pair of their numbers, and among the methods that
    /// have it.
    pub fn declared(&self, t: TypeId, name: &[u8], desc: &[u8]) -> Option<MethodId>
        requires { t.0 < length (types_of self.now) }
        ensures value { (x : Placed) → HasType self.now t x → GivesNode self.now result (declared (types_of self.now) (signature name.now desc.now) x) }
        ensures range { IfSome result (λ m. m.0 < length (nodes_of self.now)) }
    {
        self.declared_as(t, self.signature(name, desc))
    }
}
