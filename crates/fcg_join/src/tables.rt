//! The tables of the known types of some parts.
ghost use Rattle.std.specs.Prelude.{◌≡◌, ◌<◌, ◌≤◌, ◌^◌, length, All, IfOk, IfSome, List, None, false, true};
ghost use Rattle.fcg_partial.specs.Parts.{encoded_len};
ghost use Rattle.fcg_join.specs.Internal.Tables.{is_object_class, IsJoined};
ghost use Rattle.fcg_join.specs.Internal.TypeNumbers.{head_at};

use crate::heads::{TypeHead, is_interface};
use crate::inherited::{InheritedTables, find_inherited};
use crate::known::{TypeLinks, find_known, link_types};
use crate::methods::tell_parts;
use crate::nodes::{NodeTables, number_nodes};
use crate::part_names::{SetNames, number_part_names};
use crate::signatures::{SignatureTables, number_signatures};
use crate::type_links::find_superclasses;
use fcg_partial::Part;
use std::alloc::{AllocError, Global};

/// The known types of some parts, in their order, with their names, their links and their nodes.
#[derive(Drop)]
pub struct TypeTables {
    pub names: SetNames,
    pub heads: Vec<TypeHead>,
    pub linked: TypeLinks,
    /// Of each type the class to which it links.
    pub superclasses: Vec<Option<u32>>,
    /// Object, where it is known as a class.
    pub object: Option<u32>,
    pub nodes: NodeTables,
    pub inherited: InheritedTables,
    pub signatures: SignatureTables,
}

// Whether it is Object, and a class.
fn is_object_class(head: &TypeHead) -> bool
    ensures { result ≡ is_object_class head.now }
{
    head.is_object && !is_interface(head.flags)
}

// The first type that is Object, and a class.
fn find_object(heads: &[TypeHead]) -> Option<u32>
    requires { length heads.now < 2 ^ 32 }
    ensures found { IfSome result (λ y. (y < length heads.now) × (is_object_class (head_at heads.now y) ≡ true)) }
    ensures none { result ≡ None → All (λ h. is_object_class h ≡ false) heads.now }
{
    for y in 0..heads.len() {
        if is_object_class(&heads[y]) {
            return Some(y as u32);
        }
    }
    None
}

// The tables of the known types of the parts.
pub(crate) fn make_tables(alloc: Global, parts: &[Part]) -> Result<TypeTables, AllocError>
    requires { encoded_len parts.now ≤ 268435456 }
    ensures { IfOk result (λ tables. IsJoined parts.now tables) }
{
    let names = number_part_names(alloc, parts)?;
    let heads = find_known(alloc, parts, &names)?;
    let linked = link_types(alloc, parts, &names, heads.as_slice())?;
    let superclasses = find_superclasses(alloc, heads.as_slice(), linked.by_name.as_slice())?;
    let object = find_object(heads.as_slice());
    let nodes = number_nodes(alloc, heads.as_slice())?;
    let inherited = find_inherited(
        alloc,
        parts,
        &names.numbers,
        heads.as_slice(),
        &linked,
        superclasses.as_slice(),
    )?;
    let signatures = number_signatures(alloc, parts, &names.numbers, heads.as_slice(), &nodes)?;
    tell_parts(parts);
    Ok(TypeTables {
        names,
        heads,
        linked,
        superclasses,
        object,
        nodes,
        inherited,
        signatures,
    })
}
