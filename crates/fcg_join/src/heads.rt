//! Types by numbers, without the lists of interfaces and of methods.
ghost use Rattle.std.specs.Prelude.{◌≡◌, ◌<◌, ◌^◌, ◌++◌, ◌||◌, ℕ, List, None, Some, slice_get, length, map, option_map, slice_index_or, IfOk, OnOk, IfSome, if◌then◌else◌};
ghost use Rattle.fcg_grammar.specs.Table.{place};
ghost use Rattle.fcg_views.specs.declared.view.View.{View};
ghost use Rattle.fcg_partial.specs.Parts.{PartShown};
ghost use Rattle.fcg_partial.specs.Views.{super_number_of};
ghost use Rattle.fcg_analysis.specs.NamesAndFlags.{same, has};
ghost use Rattle.fcg_analysis.specs.Declarations.{Placed, object_name};
ghost use Rattle.fcg_join.specs.Parts.{placed_view};
ghost use Rattle.fcg_join.specs.SetNames.{part_names, set_names};
ghost use Rattle.fcg_join.specs.Internal.PartNames.{names_by_number};
ghost use Rattle.fcg_join.specs.Internal.PartRows.{HasView, row_of_view};
ghost use Rattle.fcg_join.specs.Internal.TypeHeads.{head_of, heads_in, heads_of, IsHead};

use fcg_order::Links as Rows;
use fcg_partial::{Part, PartialGraph, TypeRow};
use std::alloc::{AllocError, Global};

const OBJECT: &[u8] = b"java/lang/Object";

// The flag of interfaces (JVMS 4.1).
const INTERFACE: u16 = 0x0200;

/// A type of a part, by the numbers of names.
#[derive(Clone, Copy)]
pub struct TypeHead {
    /// The part, by its place.
    pub part: u32,
    /// The type, by its place in the part.
    pub place: u32,
    /// The number of its name.
    pub name: u32,
    pub flags: u16,
    /// Whether it has the name of Object.
    pub is_object: bool,
    /// The number of the superclass name that it uses: Object and interfaces use none.
    pub superclass: Option<u32>,
    /// How many methods it has.
    pub methods: u16,
}

// Whether these are the flags of an interface.
pub(crate) fn is_interface(flags: u16) -> bool
    ensures { result ≡ has 0x0200 flags }
{
    flags & INTERFACE != 0
}

pub(crate) fn is_object_name(name: &[u8]) -> bool
    ensures { result ≡ same object_name name.now }
{
    OBJECT == name
}

// The graph of a part.
pub(crate) fn graph(part: &Part) -> &PartialGraph
    ensures { result.now ≡ part.now.views }
{
    &part.graph
}

// The row of a type.
fn load_type(part: &Part, k: u32) -> TypeRow
    requires { k < length part.now.views }
    ensures row { (v : View) → HasView part.now k v → result ≡ row_of_view part.now v }
    ensures name { result.name < length (part_names part.now) }
    ensures superclass { IfSome result.superclass (λ n. n < length (part_names part.now)) }
{
    graph(part).type_at(k)
}

// The name of a type.
pub(crate) fn type_name(part: &Part, k: u32) -> &[u8]
    requires { k < length part.now.views }
    ensures { (v : View) → HasView part.now k v → result.now ≡ v.name }
{
    graph(part).name_at(load_type(part, k).name)
}

// The name of a type's superclass.
fn superclass_name(part: &Part, k: u32) -> Option<&[u8]>
    requires { k < length part.now.views }
    ensures { (v : View) → HasView part.now k v → option_map (λ n. n.now) result ≡ v.superclass }
{
    match load_type(part, k).superclass {
        Some(n) => Some(graph(part).name_at(n)),
        None => None,
    }
}

// The name of a type of the parts.
pub(crate) fn name_of_head<'a>(parts: &'a [Part], head: &TypeHead) -> &'a [u8]
    requires { (t : Placed) × IsHead parts.now (set_names parts.now) head.now t }
    ensures { (t : Placed) → IsHead parts.now (set_names parts.now) head.now t → result.now ≡ t.view.name }
{
    let part = &parts[head.part as usize];
    type_name(part, head.place)
}

// The name of its superclass.
pub(crate) fn superclass_name_of_head<'a>(parts: &'a [Part], head: &TypeHead) -> Option<&'a [u8]>
    requires { (t : Placed) × IsHead parts.now (set_names parts.now) head.now t }
    ensures { (t : Placed) → IsHead parts.now (set_names parts.now) head.now t → option_map (λ n. n.now) result ≡ t.view.superclass }
{
    let part = &parts[head.part as usize];
    superclass_name(part, head.place)
}

// The number that its part has for the name of its superclass.
pub(crate) fn superclass_number(parts: &[Part], head: &TypeHead) -> Option<u32>
    requires { (t : Placed) × IsHead parts.now (set_names parts.now) head.now t }
    ensures value { (p : PartShown) (v : View) → slice_get parts.now head.now.part ≡ Some p → HasView p head.now.place v → result ≡ super_number_of (part_names p) v.superclass }
    ensures below { (p : PartShown) → slice_get parts.now head.now.part ≡ Some p → IfSome result (λ n. n < length (part_names p)) }
{
    let part = &parts[head.part as usize];
    load_type(part, head.place).superclass
}

// How many interfaces a type has.
pub(crate) fn count_interfaces(part: &Part, k: u32) -> u16
    requires { k < length part.now.views }
    ensures { (v : View) → HasView part.now k v → result ≡ length v.interfaces }
{
    load_type(part, k).interfaces
}

// The number of the name of an interface of a type.
pub(crate) fn load_interface(part: &Part, k: u32, j: u16) -> u32
    requires { (v : View) × HasView part.now k v × (j < length v.interfaces) }
    ensures value { (v : View) (n : List ℕ) → HasView part.now k v → slice_get v.interfaces j ≡ Some n → result ≡ place (part_names part.now) n }
    ensures below { result < length (part_names part.now) }
{
    graph(part).interface_at(k, j)
}

// How many types a part has.
fn count_types(part: &Part) -> u32
    ensures { result ≡ length part.now.views }
{
    graph(part).type_count()
}

// The number of the set for a number of a part.
fn pick_number(numbers: &[u32], n: Option<u32>) -> Option<u32>
    requires { IfSome n (λ k. k < length numbers.now) }
    ensures { result ≡ option_map (λ k. slice_index_or numbers.now k 0) n }
{
    match n {
        Some(n) => Some(numbers[n as usize]),
        None => None,
    }
}

// The number of the superclass name that a type uses.
fn pick_superclass(numbers: &[u32], row: &TypeRow, is_object: bool) -> Option<u32>
    requires { IfSome row.now.superclass (λ k. k < length numbers.now) }
    ensures { result ≡ (if is_object || has 0x0200 row.now.flags then None else option_map (λ k. slice_index_or numbers.now k 0) row.now.superclass) }
{
    if is_object || is_interface(row.flags) {
        return None;
    }
    pick_number(numbers, row.superclass)
}

// The type at a place of a part, by the numbers of the part's names.
fn make_head(part: &Part, numbers: &[u32], i: u32, k: u32) -> TypeHead
    requires there { k < length part.now.views }
    requires long { length numbers.now ≡ length (part_names part.now) }
    ensures { (names : List (List ℕ)) (v : View) → numbers.now ≡ map (place names) (part_names part.now) → HasView part.now k v → result ≡ head_of names i k (placed_view part.now v) }
{
    let row = load_type(part, k);
    let is_object = is_object_name(type_name(part, k));
    TypeHead {
        part: i,
        place: k,
        name: numbers[row.name as usize],
        flags: row.flags,
        is_object,
        superclass: pick_superclass(numbers, &row, is_object),
        methods: row.methods,
    }
}

// Adds the types of a part.
fn push_heads(
    heads: &mut Vec<TypeHead>,
    part: &Part,
    numbers: &[u32],
    i: u32,
) -> Result<(), AllocError>
    requires { length numbers.now ≡ length (part_names part.now) }
    ensures { (names : List (List ℕ)) → numbers.now ≡ map (place names) (part_names part.now) → OnOk result (heads.new.items ≡ heads.old.items ++ heads_in names i part.now) }
{
    for k in 0..count_types(part) {
        heads.push(make_head(part, numbers, i, k))?;
    }
    Ok(())
}

// The types of all parts.
pub(crate) fn find_heads(
    alloc: Global,
    parts: &[Part],
    numbers: &Rows,
) -> Result<Vec<TypeHead>, AllocError>
    requires few { length parts.now < 2 ^ 32 }
    requires numbers { numbers.now ≡ names_by_number (set_names parts.now) parts.now }
    ensures { IfOk result (λ heads. heads.items ≡ heads_of (set_names parts.now) parts.now) }
{
    let mut heads = Vec::new(alloc);
    for i in 0..parts.len() {
        push_heads(&mut heads, &parts[i], numbers.row(i), i as u32)?;
    }
    Ok(heads)
}
