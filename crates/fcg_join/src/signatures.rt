//! Signatures by numbers: of each node the pair of the numbers of its name and of its descriptor, by one sort.
ghost use Rattle.std.specs.Prelude.{◌≡◌, ◌<◌, ◌≤◌, ◌^◌, ℕ, [], All, Contains, None, Some, IfOk, IfSome, OnOk, length, map, replicate, slice_get, vec_len};
ghost use Rattle.std.specs.List.{prefix_len};
ghost use Rattle.std.specs.List.Sorted.{IsStrictlyIncreasing};
ghost use Rattle.fcg_grammar.specs.Table.{Rises};
ghost use Rattle.fcg_views.specs.declared.view.Method.{Method};
ghost use Rattle.fcg_analysis.specs.Nodes.{Node};
ghost use Rattle.fcg_join.specs.Parts.{types_of, nodes_of};
ghost use Rattle.fcg_join.specs.SetNames.{set_names};
ghost use Rattle.fcg_join.specs.Internal.PartNames.{names_by_number};
ghost use Rattle.fcg_join.specs.Internal.TypeNumbers.{AreHeads, head_at};
ghost use Rattle.fcg_join.specs.Internal.Nodes.{AreNodeTables};
ghost use Rattle.fcg_join.specs.Internal.MethodRows.{IsMethodPlace};
ghost use Rattle.fcg_join.specs.Internal.Signatures.{pair_of, key_of, row_of_pair, same_pair, AreSortedKeys, Ascends, pairs_of_keys, nodes_of_row, set_all, set_rows, AreSignatures};

use crate::heads::TypeHead;
use crate::methods::{MethodPlace, load_method};
use crate::nodes::NodeTables;
use fcg_order::Links as Rows;
use fcg_partial::Part;
use std::alloc::{AllocError, Global};

// The numbers of a name and of a descriptor.
type Pair = (u32, u32);

// The pair of a node's method, and the node.
type Key = (Pair, u32);

/// The signatures of nodes: each pair of a name and a descriptor that a node has, once.
#[derive(Drop)]
pub struct SignatureTables {
    /// Of each signature the numbers of its name and of its descriptor, in their order.
    pub keys: Vec<(u32, u32)>,
    /// Of each node its signature.
    pub of_nodes: Vec<u32>,
    /// Of each signature the nodes that have it, rising.
    pub declarers: Rows,
}

// The type of a number.
fn load_head(heads: &[TypeHead], y: u32) -> TypeHead
    requires { y < length heads.now }
    ensures { result ≡ head_at heads.now y }
{
    heads[y as usize]
}

// Where the method of a node stands.
fn node_place(parts: &[Part], heads: &[TypeHead], nodes: &NodeTables, m: u32) -> MethodPlace
    requires heads { AreHeads parts.now heads.now (types_of parts.now) }
    requires nodes { AreNodeTables (types_of parts.now) nodes.now.firsts.items nodes.now.owners.items }
    requires there { m < length (nodes_of parts.now) }
    ensures { (n : Node) → slice_get (nodes_of parts.now) m ≡ Some n → IsMethodPlace parts.now result n.method }
{
    let owner = nodes.owners[m as usize];
    let head = load_head(heads, owner);
    MethodPlace {
        part: head.part,
        place: head.place,
        index: (m - nodes.firsts[owner as usize]) as u16,
    }
}

// The numbers of a method's name and of its descriptor.
fn load_pair(parts: &[Part], numbers: &Rows, at: MethodPlace) -> Pair
    requires there { (m : Method) × IsMethodPlace parts.now at m }
    requires numbers { numbers.now ≡ names_by_number (set_names parts.now) parts.now }
    ensures { (m : Method) → IsMethodPlace parts.now at m → result ≡ pair_of (set_names parts.now) m }
{
    let row = load_method(&parts[at.part as usize], at.place, at.index);
    let own = numbers.row(at.part as usize);
    (own[row.name as usize], own[row.desc as usize])
}

// The keys of all nodes.
fn make_keys(
    alloc: Global,
    parts: &[Part],
    numbers: &Rows,
    heads: &[TypeHead],
    nodes: &NodeTables,
) -> Result<Vec<Key>, AllocError>
    requires numbers { numbers.now ≡ names_by_number (set_names parts.now) parts.now }
    requires heads { AreHeads parts.now heads.now (types_of parts.now) }
    requires nodes { AreNodeTables (types_of parts.now) nodes.now.firsts.items nodes.now.owners.items }
    requires few { length (nodes_of parts.now) < 2 ^ 32 }
    ensures { IfOk result (λ keys. keys.items ≡ map (key_of (set_names parts.now)) (nodes_of parts.now)) }
{
    let mut keys = Vec::with_capacity(alloc, nodes.owners.len())?;
    for m in 0..nodes.owners.len() as u32 {
        let place = node_place(parts, heads, nodes, m);
        keys.push((load_pair(parts, numbers, place), m))?;
    }
    Ok(keys)
}

// Sorts the keys by their pairs. Those of one pair keep their order.
fn sort_keys(keys: &mut Vec<Key>) -> Result<(), AllocError>
    ensures { OnOk result (AreSortedKeys keys.old.items keys.new.items) }
{
    keys.sort_by_key(|key| key.0)?;
    Ok(())
}

// Whether a key has the pair.
fn has_pair(key: &Key, pair: Pair) -> bool
    ensures { result ≡ same_pair pair key.now.0 }
{
    pair.0 == key.0.0 && pair.1 == key.0.1
}

// How many of the first keys have the pair.
fn run_length(keys: &[Key], pair: Pair) -> usize
    ensures { result ≡ prefix_len (λ k. same_pair pair k.0) keys.now }
{
    for place in 0..keys.len() {
        if !has_pair(&keys[place], pair) {
            return place;
        }
    }
    keys.len()
}

// Fills a row with the nodes of some keys.
fn fill_row(row: &mut Vec<u32>, keys: &[Key]) -> Result<(), AllocError>
    ensures { OnOk result (row.new.items ≡ map (λ k. k.1) keys.now) }
{
    row.clear();
    for key in keys {
        row.push(key.1)?;
    }
    Ok(())
}

// Cuts sorted keys into a row of nodes for each pair, and adds the pairs.
fn cut_keys(alloc: Global, pairs: &mut Vec<Pair>, keys: &[Key]) -> Result<Rows, AllocError>
    requires none { pairs.old.items ≡ [] }
    requires sorted { Ascends keys.now }
    ensures pairs { OnOk result (map row_of_pair pairs.new.items ≡ pairs_of_keys keys.now) }
    ensures rows { IfOk result (λ rows. rows ≡ map (nodes_of_row keys.now) (pairs_of_keys keys.now)) }
{
    let mut rows = Rows::new(alloc)?;
    let mut row = Vec::new(alloc);
    let mut rest = keys;
    while !rest.is_empty() {
        let pair = rest[0].0;
        let (run, later) = rest.split_at(run_length(rest, pair));
        fill_row(&mut row, run)?;
        pairs.push(pair)?;
        rows.push_row(&row)?;
        rest = later;
    }
    Ok(rows)
}

// Sets the number at the places in a row.
fn number_row(numbers: &mut Vec<u32>, row: &[u32], s: u32)
    requires { All (λ k. k < vec_len numbers.old) row.now }
    ensures { numbers.new.items ≡ set_all s row.now numbers.old.items }
{
    for place in row {
        numbers[*place as usize] = s;
    }
}

// Of each place below a count the row that has it.
fn number_rows(alloc: Global, rows: &Rows, count: usize) -> Result<Vec<u32>, AllocError>
    requires few { length rows.now < 2 ^ 32 }
    requires within { All (λ row. All (λ k. k < count) row) rows.now }
    ensures { IfOk result (λ numbers. numbers.items ≡ set_rows 0 rows.now (replicate count 0)) }
{
    let mut numbers = vec![in alloc; 0; count]?;
    for s in 0..rows.len() {
        number_row(&mut numbers, rows.row(s), s as u32);
    }
    Ok(numbers)
}

/// Numbers the signatures of all nodes, by one sort of their keys. It takes time linear in the nodes but for that.
pub(crate) fn number_signatures(
    alloc: Global,
    parts: &[Part],
    numbers: &Rows,
    heads: &[TypeHead],
    nodes: &NodeTables,
) -> Result<SignatureTables, AllocError>
    requires numbers { numbers.now ≡ names_by_number (set_names parts.now) parts.now }
    requires heads { AreHeads parts.now heads.now (types_of parts.now) }
    requires nodes { AreNodeTables (types_of parts.now) nodes.now.firsts.items nodes.now.owners.items }
    requires few { length (nodes_of parts.now) < 2 ^ 32 }
    ensures { IfOk result (λ t. AreSignatures parts.now t) }
{
    let mut keys = make_keys(alloc, parts, numbers, heads, nodes)?;
    sort_keys(&mut keys)?;
    let mut pairs = Vec::new(alloc);
    let declarers = cut_keys(alloc, &mut pairs, &keys)?;
    let of_nodes = number_rows(alloc, &declarers, keys.len())?;
    Ok(SignatureTables {
        keys: pairs,
        of_nodes,
        declarers,
    })
}

// The place of a pair among pairs that rise.
pub(crate) fn find_pair(pairs: &[Pair], pair: Pair) -> Option<u32>
    requires few { length pairs.now < 2 ^ 32 }
    requires rise { Rises (map row_of_pair pairs.now) }
    ensures found { IfSome result (λ s. slice_get (map row_of_pair pairs.now) s ≡ Some (row_of_pair pair)) }
    ensures none { result ≡ None → Contains (map row_of_pair pairs.now) (row_of_pair pair) → ⊥ }
{
    match pairs.binary_search(&pair) {
        Ok(place) => Some(place as u32),
        Err(_) => None,
    }
}

// The first number of a rising row from one on, where it is below another.
pub(crate) fn find_between(row: &[u32], from: u32, until: u32) -> Option<u32>
    requires { IsStrictlyIncreasing row.now }
    ensures found { IfSome result (λ k. Contains row.now k × (from ≤ k) × (k < until)) }
    ensures none { result ≡ None → (k : ℕ) → Contains row.now k → from ≤ k → k < until → ⊥ }
{
    let place = row.partition_point(|k| *k < from);
    if place == row.len() {
        return None;
    }
    let number = row[place];
    if number < until { Some(number) } else { None }
}
