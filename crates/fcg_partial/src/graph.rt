//! Stored graphs.
ghost use Rattle.std.specs.Prelude.{◌≡◌, ◌↔◌, ◌<◌, ◌^◌, ℕ, List, All, length, slice_get, Some, Ok, IfOk, IsTrue};
ghost use Rattle.fcg_grammar.specs.Reading.{seen, Gives};
ghost use Rattle.fcg_grammar.specs.Spell.{IsBytes};
ghost use Rattle.fcg_grammar.specs.Table.{table};
ghost use Rattle.fcg_partial.specs.Graph.{Graph, StoredType, StoredField, StoredMethod, StoredSite, IsGraph, spelling};
ghost use Rattle.fcg_views.specs.Valid.{IsValid, name_count};
ghost use Rattle.fcg_partial.specs.Views.{shown, graph_of, text_of};
ghost use Rattle.fcg_partial.specs.Reading.{graph_at};
ghost use Rattle.fcg_partial.specs.Internal.RowPlaces.{text_at, HasText};
ghost use Rattle.fcg_partial.specs.Accessors.{row_of_type, row_of_field, row_of_method, row_of_site, row_of_ref, HasType, HasInterface, HasField, HasMethod, HasSite, HasRef, type_in, method_in, HasCountsOf, AreBelow, IsRowBelow, IsSuperBelow};
ghost use Rattle.fcg_partial.specs.Internal.Written.{collected, numbers_of};
ghost use Rattle.fcg_partial.specs.Internal.StandingRows.{IsTypeAt, IsMethodAt, IsRefAt};
ghost use Rattle.fcg_partial.specs.Sizes.{HasAtMost};

use crate::fault::RecordFault;
use crate::index::{Index, find_rows};
use crate::intern::{RefTable, collect_names, collect_rows, make_name_table};
use crate::row::{
    FieldRow, MethodRow, RefRow, SiteRow, TypeRow, find_fields, load_field, load_method, load_ref,
    load_site, load_type, load_u4,
};
use crate::write::write_graph;
use fcg_grammar::ReadError;
use fcg_views::{Bytes, Name, NoMemory, View, Views};
use std::alloc::{AllocError, Global};
use std::marker::Model;

// The most bytes of a stored graph, since places have four bytes.
const MOST_BYTES: usize = 4_294_967_295;

/// The graph of a release: its views, with each name and each reference once. It is kept as its spelling, with the places
/// of the rows beside, and contracts see it as the list of its views. It holds plain fields alone, and so can be shared
/// between threads behind an `Arc`.
#[derive(Drop)]
pub struct PartialGraph {
    bytes: Vec<u8>,
    index: Index,
}

// The name whose length stands at a place.
fn find_text(bytes: &[u8], at: usize) -> &[u8]
    requires { HasText bytes.now at }
    ensures { result.now ≡ text_at bytes.now at }
{
    let size = usize::from(bytes[at]) * 256 + usize::from(bytes[at + 1]);
    let (_, rest) = bytes.split_at(at + 2);
    let (text, _) = rest.split_at(size);
    text
}

// Tells what the type of bytes says of them, for proofs; it does nothing.
fn tell_bytes(bytes: &[u8])
    ensures { IsBytes bytes.now }
{}

// The bytes that spell the views, by the table of their names and the number in it of each name.
fn write_views(
    alloc: Global,
    views: &[View],
    names: &[Name],
    numbers: &[u32],
) -> Result<Vec<u8>, AllocError>
    requires fits { name_count views.now < 2 ^ 32 }
    requires valid { All IsValid views.now }
    requires names { names.now ≡ table (collected views.now) }
    requires numbers { numbers.now ≡ numbers_of names.now (collected views.now) }
    ensures text { IfOk result (λ out. out.items ≡ text_of views.now) }
    ensures graph { IfOk result (λ out. IsGraph (graph_of views.now)) }
{
    let rows = collect_rows(alloc, views, numbers)?;
    let refs = RefTable::new(alloc, rows)?;
    write_graph(alloc, names, &refs, views, numbers)
}

// The bytes that spell the views.
fn spell_views(alloc: Global, views: &Views) -> Result<Vec<u8>, AllocError>
    requires fits { name_count views.now < 2 ^ 32 }
    requires valid { All IsValid views.now }
    ensures text { IfOk result (λ out. out.items ≡ text_of views.now) }
    ensures graph { IfOk result (λ out. IsGraph (graph_of views.now)) }
{
    let mentions = collect_names(alloc, views)?;
    let names = make_name_table(alloc, &mentions)?;
    let numbers = mentions.numbers_in(alloc, names.as_slice())?;
    write_views(
        alloc,
        views.as_slice(),
        names.as_slice(),
        numbers.as_slice(),
    )
}

impl Model for PartialGraph {
    ghost use Rattle.std.specs.Prelude.{List};
    ghost use Rattle.fcg_views.specs.declared.view.View.{View};
    ghost use Rattle.fcg_partial.specs.Reading.{views_in};
    ghost use Rattle.fcg_partial.specs.Internal.Representation.{IsKept};

    ghost Value = { List View };

    ghost view = { λ g. views_in g.bytes.items };

    ghost invariant = { λ g. IsKept g.bytes.items g.index };
}

impl PartialGraph {
    /// The graph of these views. The names in them are fewer than 2^32, which `Views::fits` tells, and each is valid,
    /// which `is_valid` tells.
    ///
    /// Where the views keep their names by the numbers of texts, as those of class files do, each text of a class is
    /// hashed once, and compared once with the text that is found; else a name is hashed and compared each time that it
    /// stands. The distinct texts are sorted, and each is looked for in the table once. For each time that a name stands
    /// no more is done than its number is taken, three times. The references are sorted, each as often as a site names
    /// it; then the bytes are written, and one pass is made over them. More than 4,294,967,295 bytes are refused as want
    /// of memory.
    pub fn from_views(alloc: Global, views: Views) -> Result<PartialGraph, NoMemory>
        requires fits { name_count views < 2 ^ 32 }
        requires valid { All IsValid views }
        ensures { IfOk result (λ g. g ≡ views) }
    {
        let bytes = spell_views(alloc, &views)?;
        let written = bytes.as_slice();
        if written.len() > MOST_BYTES {
            return Err(NoMemory);
        }
        tell_bytes(written);
        match find_rows(alloc, written) {
            Ok(index) => Ok(PartialGraph { bytes, index }),
            Err(ReadError::NoMemory) => Err(NoMemory),
            Err(ReadError::Fault(_)) => unreachable!(),
        }
    }

    /// The stored graph that the bytes spell, or their first fault in reading order.
    ///
    /// A fault is one of these. `Magic` at 0, `Version` at 4. `Cut` where a number or a name passes the end, at its first
    /// byte. `Order` where a name, at its length, or a reference isn't above the one before it. `Index` where a number of
    /// a name or of a reference is past its table. `Kind` where the byte of an interface or of a site's kind is outside
    /// its list. `DoubleMethod` where an earlier method of the type has the row's name and descriptor, at the row.
    /// `ManySites` at the count with which a type has more than 1,000,000 sites. `Trailing` at the first byte after the
    /// types. Last `Unused`, at the first name that nothing names, and else at the first reference that no site names.
    /// More than 4,294,967,295 bytes are refused as want of memory, since no place among them could be kept.
    ///
    /// Makes one pass over the bytes, with a logarithm of the number of a type's methods in comparisons for each of them.
    /// It keeps a copy of the bytes, four bytes for each name and for each method, and eight for each type.
    pub fn decode(alloc: Global, bytes: &[u8]) -> Result<PartialGraph, ReadError<RecordFault>>
        ensures found { IfOk result (λ g. bytes.now ≡ text_of g) }
        ensures only { (g : Graph) → IsGraph g → bytes.now ≡ spelling g → Gives (λ views. views) result (Ok (shown g)) }
        ensures exact { Gives (λ views. views) result (seen shown (graph_at bytes.now)) }
    {
        if bytes.len() > MOST_BYTES {
            return Err(ReadError::NoMemory);
        }
        let index = find_rows(alloc, bytes)?;
        let bytes = Vec::from_slice(alloc, bytes)?;
        Ok(PartialGraph { bytes, index })
    }

    /// The bytes that spell it. Takes no memory.
    pub fn as_bytes(&self) -> &[u8]
        ensures { result.now ≡ text_of self.now }
    {
        self.bytes.as_slice()
    }

    /// How many bytes spell it. It has at most so many names, references, types, methods and sites. Takes no memory.
    pub fn encoded_len(&self) -> u64
        ensures long { result ≡ length (text_of self.now) }
        ensures few { HasAtMost result self.now }
    {
        self.bytes.len() as u64
    }

    /// A copy of the bytes that spell it. Decoding it gives this graph again.
    pub fn encode(&self, alloc: Global) -> Result<Bytes, NoMemory>
        ensures text { IfOk result (λ bytes. bytes ≡ text_of self.now) }
        ensures again { IfOk result (λ bytes. seen shown (graph_at bytes) ≡ Ok self.now) }
    {
        Ok(Bytes::from(Vec::from_slice(alloc, self.bytes.as_slice())?))
    }

    /// Whether both have equal lists of views. Takes no memory, and compares the bytes once.
    pub fn same(&self, other: &PartialGraph) -> bool
        ensures { IsTrue result ↔ (self.now ≡ other.now) }
    {
        self.bytes.as_slice() == other.bytes.as_slice()
    }

    /// Tells of the graph, for proofs, that it is well formed, that its views are valid and fit, and that it has at most
    /// as much as its spelling has bytes. It does nothing.
    pub fn tell_graph(&self)
        ensures graph { IsGraph (graph_of self.now) }
        ensures valid { All IsValid self.now }
        ensures fits { name_count self.now < 2 ^ 32 }
        ensures few { HasAtMost (length (text_of self.now)) self.now }
    {
        let _bytes = self.bytes.as_slice();
    }

    // Where the type of a number stands.
    fn type_place(&self, i: u32) -> usize
        requires { (t : StoredType) × HasType (graph_of self.now) i t }
        ensures there { (t : StoredType) → HasType (graph_of self.now) i t → IsTypeAt (text_of self.now) result t }
        ensures small { result < 2 ^ 32 }
    {
        self.index.places.types[i as usize] as usize
    }

    // Where a method of a type stands.
    fn method_place(&self, i: u32, k: u16) -> usize
        requires { (m : StoredMethod) × HasMethod (graph_of self.now) i k m }
        ensures there { (m : StoredMethod) → HasMethod (graph_of self.now) i k m → IsMethodAt (text_of self.now) result m }
        ensures small { result < 2 ^ 32 }
    {
        let first = self.index.places.firsts[i as usize] as usize;
        self.index.places.methods[first + usize::from(k)] as usize
    }

    // Where the reference of a number stands.
    fn ref_place(&self, r: u32) -> usize
        requires { (row : List ℕ) × HasRef (graph_of self.now) r row }
        ensures there { (row : List ℕ) → HasRef (graph_of self.now) r row → IsRefAt (text_of self.now) result row }
        ensures small { result < 2 ^ 37 }
    {
        self.index.refs + 4 + 13 * r as usize
    }

    /// How many names it has. Takes no memory.
    pub fn name_count(&self) -> u32
        ensures { result ≡ length (graph_of self.now).names }
    {
        self.index.names.len() as u32
    }

    /// The name of a number below `name_count`. Takes no memory, and loads from two places.
    pub fn name_at(&self, n: u32) -> &[u8]
        requires { n < length (graph_of self.now).names }
        ensures { slice_get (graph_of self.now).names n ≡ Some result.now }
    {
        find_text(self.bytes.as_slice(), self.index.names[n as usize] as usize)
    }

    /// How many references it has. Takes no memory.
    pub fn ref_count(&self) -> u32
        ensures { result ≡ length (graph_of self.now).refs }
    {
        load_u4(self.bytes.as_slice(), self.index.refs)
    }

    /// The reference of a number below `ref_count`. Takes no memory.
    pub fn ref_at(&self, r: u32) -> RefRow
        requires { r < length (graph_of self.now).refs }
        ensures row { (row : List ℕ) → HasRef (graph_of self.now) r row → result ≡ row_of_ref row }
        ensures below { IsRowBelow (graph_of self.now) result }
    {
        self.tell_graph();
        load_ref(self.as_bytes(), self.ref_place(r))
    }

    /// How many types it has. Takes no memory.
    pub fn type_count(&self) -> u32
        ensures { result ≡ length (graph_of self.now).types }
    {
        self.index.places.types.len() as u32
    }

    /// The type of a number below `type_count`, in the order of the views. Takes no memory.
    pub fn type_at(&self, i: u32) -> TypeRow
        requires { i < length (graph_of self.now).types }
        ensures row { (t : StoredType) → HasType (graph_of self.now) i t → result ≡ row_of_type t }
        ensures counts { HasCountsOf (type_in (graph_of self.now) i) result }
        ensures name { result.name < length (graph_of self.now).names }
        ensures superclass { IsSuperBelow (graph_of self.now) result }
    {
        self.tell_graph();
        load_type(self.as_bytes(), self.type_place(i))
    }

    /// The name of an interface of a type, by its place below the type's count of interfaces. Takes no memory.
    pub fn interface_at(&self, i: u32, j: u16) -> u32
        requires { j < length (type_in (graph_of self.now) i).interfaces }
        ensures row { (n : ℕ) → HasInterface (graph_of self.now) i j n → result ≡ n }
        ensures below { result < length (graph_of self.now).names }
    {
        self.tell_graph();
        load_u4(
            self.as_bytes(),
            self.type_place(i) + 12 + 4 * usize::from(j),
        )
    }

    /// A field of a type, by its place below the type's count of fields. Takes no memory.
    pub fn field_at(&self, i: u32, j: u16) -> FieldRow
        requires { j < length (type_in (graph_of self.now) i).fields }
        ensures row { (f : StoredField) → HasField (graph_of self.now) i j f → result ≡ row_of_field f }
        ensures below { AreBelow (length (graph_of self.now).names) result.name result.desc }
    {
        self.tell_graph();
        let bytes = self.as_bytes();
        let fields = find_fields(bytes, self.type_place(i));
        load_field(bytes, fields + 2 + 10 * usize::from(j))
    }

    /// A method of a type, by its place below the type's count of methods. Takes no memory.
    pub fn method_at(&self, i: u32, k: u16) -> MethodRow
        requires { k < length (type_in (graph_of self.now) i).methods }
        ensures row { (m : StoredMethod) → HasMethod (graph_of self.now) i k m → result ≡ row_of_method m }
        ensures sites { result.sites ≡ length (method_in (graph_of self.now) i k).sites }
        ensures below { AreBelow (length (graph_of self.now).names) result.name result.desc }
    {
        self.tell_graph();
        load_method(self.as_bytes(), self.method_place(i, k))
    }

    /// A site of a method, by its place below the method's count of sites. Takes no memory.
    pub fn site_at(&self, i: u32, k: u16, s: u32) -> SiteRow
        requires { s < length (method_in (graph_of self.now) i k).sites }
        ensures row { (x : StoredSite) → HasSite (graph_of self.now) i k s x → result ≡ row_of_site x }
        ensures below { result.reference < length (graph_of self.now).refs }
    {
        self.tell_graph();
        load_site(
            self.as_bytes(),
            self.method_place(i, k) + 14 + 7 * s as usize,
        )
    }
}
