//! The known types of some parts.
ghost use Rattle.std.specs.Prelude.{◌≡◌, ◌||◌, ◌↔◌, ◌<◌, ◌≤◌, ◌^◌, None, Some, length, map, option_map, slice_get, IfOk, IfSome, IsTrue};
ghost use Rattle.fcg_grammar.specs.Table.{place};
ghost use Rattle.fcg_partial.specs.Parts.{PartShown, encoded_len};
ghost use Rattle.fcg_partial.specs.Views.{text_of};
ghost use Rattle.fcg_analysis.specs.NamesAndFlags.{has};
ghost use Rattle.fcg_analysis.specs.Declarations.{Placed};
ghost use Rattle.fcg_analysis.specs.Types.{superclass, type_named};
ghost use Rattle.fcg_analysis.specs.Nodes.{Node};
ghost use Rattle.fcg_analysis.specs.Laws.ChainParts.{next_in_chain};
ghost use Rattle.fcg_analysis.specs.Laws.Methods.{first_node, AreApart};
ghost use Rattle.fcg_join.specs.Parts.{types_of, nodes_of};
ghost use Rattle.fcg_join.specs.SetNames.{part_names, set_names};
ghost use Rattle.fcg_join.specs.Internal.TypeHeads.{IsHead, IsFirstHead};
ghost use Rattle.fcg_join.specs.Joined.{HasType, HasNode, GivesType};
ghost use Rattle.fcg_join.specs.Internal.Tables.{next_numbered};

use crate::heads::{TypeHead, is_interface, name_of_head, superclass_name_of_head};
use crate::id::{MethodId, TypeId};
use crate::part_names::find_name;
use crate::tables::{TypeTables, make_tables};
use fcg_partial::{Part, Parts};
use fcg_views::NoMemory;
use std::alloc::Global;
use std::marker::Model;

// The most bytes that the encodings of the parts have in sum.
const MOST_BYTES: u64 = 268_435_456;

/// The known types of some parts, with their links and their methods. Contracts see it as the parts.
#[derive(Drop)]
pub struct Joined {
    pub(crate) parts: Parts,
    pub(crate) tables: TypeTables,
}

impl Model for Joined {
    ghost use Rattle.std.specs.Prelude.{List};
    ghost use Rattle.fcg_partial.specs.Parts.{PartShown};
    ghost use Rattle.fcg_join.specs.Internal.Tables.{IsJoined};

    ghost Value = { List PartShown };

    ghost view = { λ j. j.parts };

    ghost invariant = { λ j. IsJoined j.parts j.tables };
}

// How many bytes spell the graph of a part.
fn count_bytes(part: &Part) -> u64
    ensures { result ≡ length (text_of part.now.views) }
{
    part.graph.encoded_len()
}

// The number as that of a type.
pub(crate) fn type_id(number: Option<u32>) -> Option<TypeId>
    ensures { option_map (λ id. id.0) result ≡ number }
{
    match number {
        Some(number) => Some(TypeId(number)),
        None => None,
    }
}

// The next of a chain, by the superclass, and else Object, unless the chain ends.
fn next_number(superclass: Option<u32>, ends: bool, object: Option<u32>) -> Option<u32>
    ensures { result ≡ next_numbered superclass ends object }
{
    match superclass {
        Some(superclass) => Some(superclass),
        None if ends => None,
        None => object,
    }
}

// Whether a chain doesn't go on to Object from a type that links to no class.
fn ends_chain(head: &TypeHead) -> bool
    ensures { result ≡ (head.now.is_object || has 0x0200 head.now.flags) }
{
    head.is_object || is_interface(head.flags)
}

impl Joined {
    /// Whether the encodings of the parts have at most 268,435,456 bytes in sum. Takes no memory.
    pub fn fits(parts: &Parts) -> bool
        ensures { IsTrue result ↔ (encoded_len parts.now ≤ 268435456) }
    {
        let mut left = MOST_BYTES;
        for part in parts.as_slice() {
            let size = count_bytes(part);
            if size > left {
                return false;
            }
            left -= size;
        }
        true
    }

    /// Joins the parts, of which the first that has a type decides. Their encodings have at most 268,435,456 bytes in sum,
    /// which `fits` tells.
    ///
    /// It shares the graphs. It goes over the tables of the parts a few times, and sorts the names of all parts once and the
    /// signatures of all methods once. For each type it takes time and 8 bytes, 12 meanwhile, for each name of an interface
    /// at or above it and each absent name that these use, which are 67,108,864 in sum at most. Circles of any length are
    /// found by one search without recursion.
    pub fn new(alloc: Global, parts: &Parts) -> Result<Joined, NoMemory>
        requires { encoded_len parts.now ≤ 268435456 }
        ensures { IfOk result (λ j. j ≡ parts.now) }
    {
        let parts = parts.clone()?;
        let tables = make_tables(alloc, parts.as_slice())?;
        Ok(Joined { parts, tables })
    }

    /// The parts that it is made from. Takes no memory.
    pub fn parts(&self) -> &Parts
        ensures { result.now ≡ self.now }
    {
        &self.parts
    }

    /// How many known types there are. Takes no memory.
    pub fn type_count(&self) -> u32
        ensures { result ≡ length (types_of self.now) }
    {
        self.tables.heads.len() as u32
    }

    /// The known type of a name. Takes no memory. It compares the name with a logarithm of the number of all names.
    pub fn find(&self, name: &[u8]) -> Option<TypeId>
        ensures value { GivesType self.now result (type_named (types_of self.now) name.now) }
        ensures range { IfSome result (λ t. t.0 < length (types_of self.now)) }
    {
        let places = self.tables.names.places.as_slice();
        match find_name(self.parts.as_slice(), places, name) {
            Some(number) => type_id(self.tables.linked.by_name[number as usize]),
            None => None,
        }
    }

    // The type of a number, by the numbers of names.
    pub(crate) fn head(&self, t: TypeId) -> TypeHead
        requires { t.0 < length (types_of self.now) }
        ensures value { (x : Placed) → HasType self.now t x → IsHead self.now (set_names self.now) result x }
        ensures first { IsFirstHead self.now result }
    {
        self.tables.heads[t.0 as usize]
    }

    /// The flags of a type. Takes no memory.
    pub fn type_flags(&self, t: TypeId) -> u16
        requires { t.0 < length (types_of self.now) }
        ensures { (x : Placed) → HasType self.now t x → result ≡ x.view.flags }
    {
        self.head(t).flags
    }

    /// The name of a type. Takes no memory.
    pub fn type_name(&self, t: TypeId) -> &[u8]
        requires { t.0 < length (types_of self.now) }
        ensures { (x : Placed) → HasType self.now t x → result.now ≡ x.view.name }
    {
        name_of_head(self.parts.as_slice(), &self.head(t))
    }

    /// The name of a type's superclass, linked or not. Takes no memory.
    pub fn named_superclass(&self, t: TypeId) -> Option<&[u8]>
        requires { t.0 < length (types_of self.now) }
        ensures { (x : Placed) → HasType self.now t x → option_map (λ n. n.now) result ≡ x.view.superclass }
    {
        superclass_name_of_head(self.parts.as_slice(), &self.head(t))
    }

    /// The class to which a type links as its superclass. Takes no memory, and is one look in a table.
    pub fn superclass(&self, t: TypeId) -> Option<TypeId>
        requires { t.0 < length (types_of self.now) }
        ensures value { (x : Placed) → HasType self.now t x → GivesType self.now result (superclass (types_of self.now) x) }
        ensures range { IfSome result (λ s. s.0 < length (types_of self.now)) }
    {
        type_id(self.tables.superclasses[t.0 as usize])
    }

    /// The type after a type in its chain: its superclass, or else Object after a class. Takes no memory, and is one look
    /// in a table.
    pub fn chain_next(&self, t: TypeId) -> Option<TypeId>
        requires { t.0 < length (types_of self.now) }
        ensures value { (x : Placed) → HasType self.now t x → GivesType self.now result (next_in_chain (types_of self.now) x) }
        ensures range { IfSome result (λ s. s.0 < length (types_of self.now)) }
    {
        let ends = ends_chain(&self.head(t));
        let superclass = self.tables.superclasses[t.0 as usize];
        type_id(next_number(superclass, ends, self.tables.object))
    }
    /// How many methods the known types have. Takes no memory.
    pub fn method_count(&self) -> u32
        ensures { result ≡ length (nodes_of self.now) }
    {
        self.tables.nodes.owners.len() as u32
    }

    /// The type that declares a method. Takes no memory, and is one look in a table.
    pub fn owner(&self, m: MethodId) -> TypeId
        requires { m.0 < length (nodes_of self.now) }
        ensures value { (n : Node) → HasNode self.now m n → HasType self.now result n.owner }
        ensures range { result.0 < length (types_of self.now) }
    {
        TypeId(self.tables.nodes.owners[m.0 as usize])
    }

    // The number of a type's first method.
    pub(crate) fn first_method(&self, t: TypeId) -> u32
        requires { t.0 < length (types_of self.now) }
        ensures value { result ≡ first_node (types_of self.now) t.0 }
        ensures few { length (nodes_of self.now) < 2 ^ 32 }
    {
        self.tables.nodes.firsts[t.0 as usize]
    }

    // Of a part's names the numbers of the set.
    pub(crate) fn part_numbers(&self, i: u32) -> &[u32]
        requires { i < length self.now }
        ensures { (p : PartShown) → slice_get self.now i ≡ Some p → result.now ≡ map (place (set_names self.now)) (part_names p) }
    {
        self.tables.names.numbers.row(i as usize)
    }

    /// Tells, for proofs, that the methods of each type have names and descriptors of their own. It does nothing.
    pub fn tell_apart(&self)
        ensures { AreApart (types_of self.now) }
    {
        let _tables = &self.tables;
    }
}
