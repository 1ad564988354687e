//! What is at or below a name, by numbers.
ghost use Rattle.std.specs.Prelude.{◌≡◌, ◌<◌, ◌==◌, ◌^◌, ℕ, List, IfOk, IfSome, false, length};
ghost use Rattle.std.specs.List.{list_any, range_with_len};
ghost use Rattle.std.specs.List.Sorted.{IsStrictlyIncreasing};
ghost use Rattle.fcg_analysis.specs.Declarations.{Placed, object_name};
ghost use Rattle.fcg_analysis.specs.NamesAndFlags.{same};
ghost use Rattle.fcg_analysis.specs.Types.{is_below};
ghost use Rattle.fcg_join.specs.Names.{text_at};
ghost use Rattle.fcg_join.specs.Parts.{types_of};
ghost use Rattle.fcg_join.specs.SetNames.{set_names};
ghost use Rattle.fcg_join.specs.TypeLinks.{HasTypeAt};
ghost use Rattle.fcg_join.specs.Internal.Mentions.{AreSorted};
ghost use Rattle.fcg_join.specs.Internal.Below.{is_under, interval, HasInterval, IsNameNumber, AreBelow};
ghost use Rattle.fcg_join.specs.Internal.Tables.{IsJoined};

use crate::heads::is_object_name;
use crate::joined_rows::sort_distinct;
use crate::part_names::{find_name, name_there};
use crate::tables::TypeTables;
use crate::type_links::find_class;
use fcg_order::Places;
use fcg_partial::Part;
use std::alloc::{AllocError, Global};

// Whether a sorted row has a number.
pub(crate) fn has_number(row: &[u32], number: u32) -> bool
    requires { IsStrictlyIncreasing row.now }
    ensures { result ≡ list_any (λ k. k == number) row.now }
{
    row.binary_search(&number).is_ok()
}

// Whether a type enters within the interval of a class.
fn is_under(places: &Places, class: u32, x: u32) -> bool
    requires class { HasInterval places.now class }
    requires there { x < length places.now.enter.items }
    ensures { result ≡ is_under places.now class x }
{
    let place = places.enter[x as usize];
    places.enter[class as usize] <= place && place < places.leave[class as usize]
}

// Whether a type is at or below the name of a number.
pub(crate) fn is_below_number(parts: &[Part], tables: &TypeTables, x: u32, number: u32) -> bool
    requires tables { IsJoined parts.now tables.now }
    requires there { x < length (types_of parts.now) }
    requires name { number < length (set_names parts.now) }
    ensures { (t : Placed) → HasTypeAt (types_of parts.now) x t → result ≡ is_below (types_of parts.now) t (text_at (set_names parts.now) number) }
{
    let place = tables.names.places[number as usize];
    if is_object_name(name_there(parts, place)) {
        return true;
    }
    let by_name = tables.linked.by_name.as_slice();
    match find_class(tables.heads.as_slice(), by_name, number) {
        Some(class) => is_under(&tables.inherited.places, class, x),
        None => has_number(tables.inherited.mentions.row(x), number),
    }
}

// The number of a name, where some part has it.
fn find_number(parts: &[Part], tables: &TypeTables, name: &[u8]) -> Option<u32>
    requires { IsJoined parts.now tables.now }
    ensures value { IsNameNumber (set_names parts.now) name.now result }
    ensures range { IfSome result (λ n. n < length (set_names parts.now)) }
{
    find_name(parts, tables.names.places.as_slice(), name)
}

// Whether a type is at or below a name, by whether it is Object's, and by its number.
fn is_below_found(
    parts: &[Part],
    tables: &TypeTables,
    x: u32,
    is_object: bool,
    number: Option<u32>,
) -> bool
    requires tables { IsJoined parts.now tables.now }
    requires there { x < length (types_of parts.now) }
    requires name { IfSome number (λ n. n < length (set_names parts.now)) }
    ensures { (t : Placed) (name : List ℕ) → HasTypeAt (types_of parts.now) x t → IsNameNumber (set_names parts.now) name number → is_object ≡ same object_name name → result ≡ is_below (types_of parts.now) t name }
{
    if is_object {
        return true;
    }
    match number {
        Some(number) => is_below_number(parts, tables, x, number),
        None => false,
    }
}

// Whether a type is at or below a name.
pub(crate) fn is_below(parts: &[Part], tables: &TypeTables, x: u32, name: &[u8]) -> bool
    requires tables { IsJoined parts.now tables.now }
    requires there { x < length (types_of parts.now) }
    ensures { (t : Placed) → HasTypeAt (types_of parts.now) x t → result ≡ is_below (types_of parts.now) t name.now }
{
    let number = find_number(parts, tables, name);
    is_below_found(parts, tables, x, is_object_name(name), number)
}

// The numbers below a count.
fn list_all(alloc: Global, count: usize) -> Result<Vec<u32>, AllocError>
    requires { count < 2 ^ 32 }
    ensures { IfOk result (λ numbers. numbers.items ≡ range_with_len 0 count) }
{
    let mut numbers = Vec::with_capacity(alloc, count)?;
    for x in 0..count {
        numbers.push(x as u32)?;
    }
    Ok(numbers)
}

// A copy of a row.
fn copy_row(alloc: Global, row: &[u32]) -> Result<Vec<u32>, AllocError>
    ensures { IfOk result (λ numbers. numbers.items ≡ row.now) }
{
    Vec::from_slice(alloc, row)
}

// The types of the interval of a class, in their order.
fn list_class(alloc: Global, places: &Places, class: u32) -> Result<Vec<u32>, AllocError>
    requires { HasInterval places.now class }
    ensures { IfOk result (λ numbers. AreSorted (interval places.now class) numbers.items) }
{
    let (front, _) = places.nodes.split_at(places.leave[class as usize] as usize);
    let (_, nodes) = front.split_at(places.enter[class as usize] as usize);
    let mut numbers = nodes.to_vec(alloc)?;
    sort_distinct(&mut numbers);
    Ok(numbers)
}

// The types at or below the name of a number, which isn't Object's, in their order.
fn list_below_number(
    alloc: Global,
    parts: &[Part],
    tables: &TypeTables,
    number: u32,
) -> Result<Vec<u32>, AllocError>
    requires tables { IsJoined parts.now tables.now }
    requires name { number < length (set_names parts.now) }
    requires other { same object_name (text_at (set_names parts.now) number) ≡ false }
    ensures { IfOk result (λ numbers. AreBelow (types_of parts.now) (text_at (set_names parts.now) number) numbers.items) }
{
    let by_name = tables.linked.by_name.as_slice();
    match find_class(tables.heads.as_slice(), by_name, number) {
        Some(class) => list_class(alloc, &tables.inherited.places, class),
        None => copy_row(alloc, tables.inherited.mentioned.row(number as usize)),
    }
}

// The types at or below a name, in their order.
pub(crate) fn list_below(
    alloc: Global,
    parts: &[Part],
    tables: &TypeTables,
    name: &[u8],
) -> Result<Vec<u32>, AllocError>
    requires { IsJoined parts.now tables.now }
    ensures { IfOk result (λ numbers. AreBelow (types_of parts.now) name.now numbers.items) }
{
    if is_object_name(name) {
        return list_all(alloc, tables.heads.len());
    }
    match find_number(parts, tables, name) {
        Some(number) => list_below_number(alloc, parts, tables, number),
        None => Ok(Vec::new(alloc)),
    }
}
