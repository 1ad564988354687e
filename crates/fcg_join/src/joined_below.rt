//! Gaps of types, and what is at or below a name.
ghost use Rattle.std.specs.Prelude.{◌≡◌, ◌<◌, All, IfOk, Some, filter, length, map, slice_get};
ghost use Rattle.fcg_analysis.specs.Declarations.{Placed};
ghost use Rattle.fcg_analysis.specs.Types.{has_gap, is_below};
ghost use Rattle.fcg_join.specs.Parts.{types_of};
ghost use Rattle.fcg_join.specs.Joined.{HasType};

use crate::below::{is_below, list_below};
use crate::id::TypeId;
use crate::joined::Joined;
use fcg_views::NoMemory;
use std::alloc::{AllocError, Global};

// The numbers as those of types.
fn type_ids(alloc: Global, numbers: &[u32]) -> Result<Vec<TypeId>, AllocError>
    ensures { IfOk result (λ ids. map (λ id. id.0) ids.items ≡ numbers.now) }
{
    let mut ids = Vec::with_capacity(alloc, numbers.len())?;
    for number in numbers {
        ids.push(TypeId(*number))?;
    }
    Ok(ids)
}

impl Joined {
    /// Whether a type has a gap: whether Object isn't known as a class, or the type or one above it uses a name to which it
    /// has no link. Takes no memory, and is one look in a table.
    pub fn has_gap(&self, t: TypeId) -> bool
        requires { t.0 < length (types_of self.now) }
        ensures { (x : Placed) → HasType self.now t x → result ≡ has_gap (types_of self.now) x }
    {
        self.tables.object.is_none() || self.tables.inherited.gaps[t.0 as usize]
    }

    /// Whether a type is at or below a name: whether it or a type above it has the name, or uses it where no known type has
    /// it. All types are at or below Object's name.
    ///
    /// Takes no memory. It compares the name with a logarithm of the number of all names; it then compares two places where
    /// the name is that of a known class, and else searches the row of names that the type mentions.
    pub fn at_or_below(&self, d: TypeId, name: &[u8]) -> bool
        requires { d.0 < length (types_of self.now) }
        ensures { (x : Placed) → HasType self.now d x → result ≡ is_below (types_of self.now) x name.now }
    {
        is_below(self.parts.as_slice(), &self.tables, d.0, name)
    }

    /// The types at or below a name, in their order.
    ///
    /// It looks the name up as `at_or_below` does, and then takes the time of its answer, which it sorts where the name is
    /// that of a known class. The only error is want of memory.
    pub fn below(&self, alloc: Global, name: &[u8]) -> Result<Vec<TypeId>, NoMemory>
        ensures value { IfOk result (λ ids. map (λ id. slice_get (types_of self.now) id.0) ids.items ≡ map Some (filter (λ t. is_below (types_of self.now) t name.now) (types_of self.now))) }
        ensures range { IfOk result (λ ids. All (λ id. id.0 < length (types_of self.now)) ids.items) }
    {
        let numbers = list_below(alloc, self.parts.as_slice(), &self.tables, name)?;
        let ids = type_ids(alloc, &numbers)?;
        Ok(ids)
    }
}
