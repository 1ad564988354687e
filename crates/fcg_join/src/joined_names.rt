//! Names and types by the numbers of the set.
ghost use Rattle.std.specs.Prelude.{◌≡◌, ◌<◌, ℕ, List, None, Some, IfSome, length, option_map, slice_get};
ghost use Rattle.fcg_partial.specs.Parts.{PartShown};
ghost use Rattle.fcg_analysis.specs.Declarations.{Placed, is_interface};
ghost use Rattle.fcg_analysis.specs.Types.{object, type_named};
ghost use Rattle.fcg_join.specs.Parts.{types_of};
ghost use Rattle.fcg_join.specs.Joined.{HasType, GivesType};
ghost use Rattle.fcg_join.specs.SetNames.{part_names, set_names};
ghost use Rattle.fcg_join.specs.Numbers.{HasName, GivesName};

use crate::heads::{is_interface, superclass_number};
use crate::id::{NameId, TypeId};
use crate::joined::{Joined, type_id};
use crate::part_names::{find_name, name_there};

// The number as that of a name.
fn name_id(number: Option<u32>) -> Option<NameId>
    ensures { option_map (λ id. id.0) result ≡ number }
{
    match number {
        Some(number) => Some(NameId(number)),
        None => None,
    }
}

impl Joined {
    /// The number of a name, where some part has it. Takes no memory. It compares the name with a logarithm of the number
    /// of all names.
    pub fn name_id(&self, name: &[u8]) -> Option<NameId>
        ensures value { GivesName self.now result name.now }
        ensures range { IfSome result (λ n. n.0 < length (set_names self.now)) }
    {
        let places = self.tables.names.places.as_slice();
        name_id(find_name(self.parts.as_slice(), places, name))
    }

    /// The name of a number. Takes no memory, and is two looks in tables.
    pub fn name(&self, id: NameId) -> &[u8]
        requires { id.0 < length (set_names self.now) }
        ensures { HasName self.now id result.now }
    {
        let place = self.tables.names.places[id.0 as usize];
        name_there(self.parts.as_slice(), place)
    }

    /// The number of a part's name. Takes no memory, and is one look in a table.
    pub fn part_name(&self, part: u32, name: u32) -> NameId
        requires { (p : PartShown) × (slice_get self.now part ≡ Some p) × (name < length (part_names p)) }
        ensures value { (p : PartShown) → slice_get self.now part ≡ Some p → (n : List ℕ) → slice_get (part_names p) name ≡ Some n → HasName self.now result n }
        ensures range { result.0 < length (set_names self.now) }
    {
        NameId(self.part_numbers(part)[name as usize])
    }

    /// The known type of the name of a number. Takes no memory, and is one look in a table.
    pub fn type_named(&self, id: NameId) -> Option<TypeId>
        requires { id.0 < length (set_names self.now) }
        ensures value { (n : List ℕ) → HasName self.now id n → GivesType self.now result (type_named (types_of self.now) n) }
        ensures range { IfSome result (λ t. t.0 < length (types_of self.now)) }
    {
        type_id(self.tables.linked.by_name[id.0 as usize])
    }

    /// The number of the name of a type's superclass, linked or not. Takes no memory, and is one look in a table.
    pub fn superclass_name(&self, t: TypeId) -> Option<NameId>
        requires { t.0 < length (types_of self.now) }
        ensures none { (x : Placed) → HasType self.now t x → result ≡ None → x.view.superclass ≡ None }
        ensures value { (x : Placed) (id : NameId) → HasType self.now t x → result ≡ Some id → (n : List ℕ) → HasName self.now id n → x.view.superclass ≡ Some n }
        ensures range { IfSome result (λ n. n.0 < length (set_names self.now)) }
    {
        let head = self.head(t);
        match superclass_number(self.parts.as_slice(), &head) {
            Some(number) => Some(self.part_name(head.part, number)),
            None => None,
        }
    }

    /// Whether a type is an interface. Takes no memory, and is one look in a table.
    pub fn is_interface(&self, t: TypeId) -> bool
        requires { t.0 < length (types_of self.now) }
        ensures { (x : Placed) → HasType self.now t x → result ≡ is_interface x }
    {
        is_interface(self.head(t).flags)
    }

    /// Object, where it is known as a class. Takes no memory.
    pub fn object(&self) -> Option<TypeId>
        ensures value { GivesType self.now result (object (types_of self.now)) }
        ensures range { IfSome result (λ t. t.0 < length (types_of self.now)) }
    {
        type_id(self.tables.object)
    }
}
