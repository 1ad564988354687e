//! Names as class files have them.
ghost use Rattle.std.specs.Prelude.{◌≡◌, ◌≤◌, ◌+◌, length, nat_eq, IfOk};
ghost use Rattle.fcg_grammar.specs.Number.{part};
ghost use Rattle.std.proofs.Common.{rules};
ghost use Rattle.std.specs.Cmp.{partial_order_from_own_ties};
ghost use Rattle.std.specs.Cmp.Rules.{comparing, hashing};
ghost use Rattle.std.specs.Cmp.Lexicographic.{pointwise, slice_cmp, nat_list_eq_equiv};
ghost use Rattle.std.specs.Ordering.{nat_cmp, as_partial_cmp};

use crate::memory::NoMemory;
use std::alloc::{AllocError, Global};
use std::cmp::Ordering;
use std::hash::{Hash, Hasher};
use std::marker::Model;
use std::sync::ArcSlice;

/// The bytes of a name. They are a part of a block, which the names that are made of this one share: neither a copy
/// nor a part copies a byte, or makes an allocation. The block is kept as long as one of its names is. Names are
/// compared and ordered by their bytes.
#[derive(Drop)]
pub struct Name {
    block: ArcSlice<u8>,
    // the first byte in the block
    begin: u32,
    len: u32,
}

impl Model for Name {
    ghost use Rattle.std.specs.Prelude.{ℕ, List, ◌+◌, ◌^◌, ◌≤◌, ◌<◌, length};
    ghost use Rattle.std.specs.Arc.{arc_slice_items};
    ghost use Rattle.fcg_grammar.specs.Number.{part};

    ghost Value = { List ℕ };

    ghost view = { λ n. part (arc_slice_items n.block) n.begin n.len };

    ghost invariant = { λ n. (n.begin + n.len ≤ length (arc_slice_items n.block)) × (n.begin + n.len < 2 ^ 32) };
}

impl Name {
    /// A name with a block of its own for these bytes, which are copied. A name has less than 2 ^ 32 bytes: there is no
    /// memory for a longer one.
    pub fn from_slice(alloc: Global, bytes: &[u8]) -> Result<Name, NoMemory>
        ensures { IfOk result (λ name. name ≡ bytes.now) }
    {
        let Ok(len) = u32::try_from(bytes.len()) else {
            return Err(NoMemory);
        };
        Ok(Name {
            block: ArcSlice::from_slice(alloc, bytes)?,
            begin: 0,
            len,
        })
    }

    /// The name of `len` of these bytes from a place on, in the same block.
    pub fn part(&self, begin: usize, len: usize) -> Result<Name, AllocError>
        requires { begin + len ≤ length self.now }
        ensures { IfOk result (λ name. name ≡ part self.now begin len) }
    {
        Ok(Name {
            block: self.block.clone()?,
            begin: self.begin + begin as u32,
            len: len as u32,
        })
    }

    /// Where the name begins in its block, and its length, in bytes. Where two names of one block have one place, they are
    /// equal; names of different blocks may have one place and differ.
    pub fn place(&self) -> (u32, u32)
        ensures { result.1 ≡ length self.now }
    {
        (self.begin, self.len)
    }

    /// The bytes.
    pub fn as_slice(&self) -> &[u8]
        ensures { result.now ≡ self.now }
    {
        let begin = self.begin as usize;
        let end = begin + self.len as usize;
        &self.block.as_slice()[begin..end]
    }
}

impl Clone for Name {
    ghost is_clone = { λ name copy. copy ≡ name };

    fn clone(&self) -> Result<Name, AllocError> {
        Ok(Name {
            block: self.block.clone()?,
            begin: self.begin,
            len: self.len,
        })
    }
}

impl PartialEq for Name {
    ghost eq = { pointwise nat_eq };

    ghost laws = { Prim.search (comparing, rules) };

    fn eq(&self, other: &Name) -> bool {
        self.as_slice() == other.as_slice()
    }
}

impl Eq for Name {
    ghost laws = { nat_list_eq_equiv };
}

impl PartialOrd for Name {
    ghost partial_cmp = { as_partial_cmp (slice_cmp nat_cmp) };

    ghost laws = { partial_order_from_own_ties (Prim.search (comparing, rules)) (Prim.search (comparing, rules)) };

    fn partial_cmp(&self, other: &Name) -> Option<Ordering> {
        Some(self.cmp(other))
    }
}

impl Ord for Name {
    ghost cmp = { slice_cmp nat_cmp };

    ghost total = { Prim.search (comparing, rules) };

    ghost matches_partial_cmp = { Prim.search (comparing, rules) };

    ghost matches_eq = { Prim.search (comparing, rules) };

    fn cmp(&self, other: &Name) -> Ordering {
        self.as_slice().cmp(other.as_slice())
    }
}

impl Hash for Name {
    ghost use Rattle.std.specs.Hash as fed;

    ghost hash_input = { fed.str };

    ghost respects_eq = { Prim.search (hashing, rules) };

    fn hash<H: Hasher>(&self, state: &mut H) {
        state.write(self.as_slice());
        state.write_u8(0xff);
    }
}
