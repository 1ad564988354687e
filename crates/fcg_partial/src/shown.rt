//! The views of a stored graph, made again from its rows.
ghost use Rattle.std.specs.Prelude.{◌≡◌, ◌<◌, ℕ, List, length, map, IfOk, IfSome};
ghost use Rattle.fcg_partial.specs.Graph.{StoredType, StoredField, StoredMethod, StoredSite};
ghost use Rattle.fcg_partial.specs.Views.{name_in, super_in, shown_ref, shown_site, shown_field, shown_method, shown_type, graph_of};
ghost use Rattle.fcg_partial.specs.Accessors.{HasType, HasInterface, HasField, HasMethod, HasSite, HasRef};
ghost use Rattle.fcg_partial.specs.Internal.NameTable.{AreNames};

use crate::graph::PartialGraph;
use fcg_views::{
    Field, Fields, Method, Methods, Name, Names, NoMemory, Ref, Site, Sites, View, Views,
};
use std::alloc::Global;

// The names of the table, each made once.
fn make_names(alloc: Global, graph: &PartialGraph) -> Result<Vec<Name>, NoMemory>
    ensures { IfOk result (λ names. AreNames (graph_of graph.now) names.items) }
{
    graph.tell_graph();
    let count = graph.name_count();
    let mut names = Vec::with_capacity(alloc, count as usize)?;
    for n in 0..count {
        names.push(Name::from_slice(alloc, graph.name_at(n))?)?;
    }
    Ok(names)
}

// The name of a number, which shares its bytes with the table.
fn pick_name(names: &[Name], n: u32) -> Result<Name, NoMemory>
    requires { n < length names.now }
    ensures { IfOk result (λ name. name ≡ name_in names.now n) }
{
    Ok(names[n as usize].clone()?)
}

// The name of a superclass.
fn pick_super(names: &[Name], superclass: Option<u32>) -> Result<Option<Name>, NoMemory>
    requires { IfSome superclass (λ n. n < length names.now) }
    ensures { IfOk result (λ name. name ≡ super_in names.now superclass) }
{
    match superclass {
        None => Ok(None),
        Some(n) => Ok(Some(pick_name(names, n)?)),
    }
}

// The reference of a number.
fn make_ref(graph: &PartialGraph, names: &[Name], r: u32) -> Result<Ref, NoMemory>
    requires names { AreNames (graph_of graph.now) names.now }
    requires there { (row : List ℕ) × HasRef (graph_of graph.now) r row }
    ensures { (row : List ℕ) → HasRef (graph_of graph.now) r row → IfOk result (λ target. target ≡ shown_ref (graph_of graph.now).names row) }
{
    let row = graph.ref_at(r);
    Ok(Ref {
        owner: pick_name(names, row.owner)?,
        owner_is_interface_ref: row.owner_is_interface_ref,
        name: pick_name(names, row.name)?,
        desc: pick_name(names, row.desc)?,
    })
}

// A site of a method.
fn make_site(graph: &PartialGraph, names: &[Name], i: u32, k: u16, s: u32) -> Result<Site, NoMemory>
    requires names { AreNames (graph_of graph.now) names.now }
    requires there { (x : StoredSite) × HasSite (graph_of graph.now) i k s x }
    ensures { (x : StoredSite) → HasSite (graph_of graph.now) i k s x → IfOk result (λ site. site ≡ shown_site (graph_of graph.now) x) }
{
    let row = graph.site_at(i, k, s);
    Ok(Site {
        pc: row.pc,
        kind: row.kind,
        target: make_ref(graph, names, row.reference)?,
    })
}

// The sites of a method, by their count.
fn make_sites(
    alloc: Global,
    graph: &PartialGraph,
    names: &[Name],
    i: u32,
    k: u16,
    count: u32,
) -> Result<Vec<Site>, NoMemory>
    requires names { AreNames (graph_of graph.now) names.now }
    requires there { (m : StoredMethod) × HasMethod (graph_of graph.now) i k m }
    requires count { (m : StoredMethod) → HasMethod (graph_of graph.now) i k m → count ≡ length m.sites }
    ensures { (m : StoredMethod) → HasMethod (graph_of graph.now) i k m → IfOk result (λ sites. sites.items ≡ map (shown_site (graph_of graph.now)) m.sites) }
{
    let mut sites = Vec::with_capacity(alloc, count as usize)?;
    for s in 0..count {
        sites.push(make_site(graph, names, i, k, s)?)?;
    }
    Ok(sites)
}

// A method of a type.
fn make_method(
    alloc: Global,
    graph: &PartialGraph,
    names: &[Name],
    i: u32,
    k: u16,
) -> Result<Method, NoMemory>
    requires names { AreNames (graph_of graph.now) names.now }
    requires there { (m : StoredMethod) × HasMethod (graph_of graph.now) i k m }
    ensures { (m : StoredMethod) → HasMethod (graph_of graph.now) i k m → IfOk result (λ method. method ≡ shown_method (graph_of graph.now) m) }
{
    let row = graph.method_at(i, k);
    Ok(Method {
        name: pick_name(names, row.name)?,
        desc: pick_name(names, row.desc)?,
        flags: row.flags,
        sites: Sites::from(make_sites(alloc, graph, names, i, k, row.sites)?),
    })
}

// The methods of a type, by their count.
fn make_methods(
    alloc: Global,
    graph: &PartialGraph,
    names: &[Name],
    i: u32,
    count: u16,
) -> Result<Vec<Method>, NoMemory>
    requires names { AreNames (graph_of graph.now) names.now }
    requires there { (t : StoredType) × HasType (graph_of graph.now) i t }
    requires count { (t : StoredType) → HasType (graph_of graph.now) i t → count ≡ length t.methods }
    ensures { (t : StoredType) → HasType (graph_of graph.now) i t → IfOk result (λ methods. methods.items ≡ map (shown_method (graph_of graph.now)) t.methods) }
{
    let mut methods = Vec::with_capacity(alloc, usize::from(count))?;
    for k in 0..count {
        methods.push(make_method(alloc, graph, names, i, k)?)?;
    }
    Ok(methods)
}

// A field of a type.
fn make_field(graph: &PartialGraph, names: &[Name], i: u32, j: u16) -> Result<Field, NoMemory>
    requires names { AreNames (graph_of graph.now) names.now }
    requires there { (f : StoredField) × HasField (graph_of graph.now) i j f }
    ensures { (f : StoredField) → HasField (graph_of graph.now) i j f → IfOk result (λ field. field ≡ shown_field (graph_of graph.now) f) }
{
    let row = graph.field_at(i, j);
    Ok(Field {
        name: pick_name(names, row.name)?,
        desc: pick_name(names, row.desc)?,
        flags: row.flags,
    })
}

// The fields of a type, by their count.
fn make_fields(
    alloc: Global,
    graph: &PartialGraph,
    names: &[Name],
    i: u32,
    count: u16,
) -> Result<Vec<Field>, NoMemory>
    requires names { AreNames (graph_of graph.now) names.now }
    requires there { (t : StoredType) × HasType (graph_of graph.now) i t }
    requires count { (t : StoredType) → HasType (graph_of graph.now) i t → count ≡ length t.fields }
    ensures { (t : StoredType) → HasType (graph_of graph.now) i t → IfOk result (λ fields. fields.items ≡ map (shown_field (graph_of graph.now)) t.fields) }
{
    let mut fields = Vec::with_capacity(alloc, usize::from(count))?;
    for j in 0..count {
        fields.push(make_field(graph, names, i, j)?)?;
    }
    Ok(fields)
}

// The name of an interface of a type.
fn make_interface(graph: &PartialGraph, names: &[Name], i: u32, j: u16) -> Result<Name, NoMemory>
    requires names { AreNames (graph_of graph.now) names.now }
    requires there { (n : ℕ) × HasInterface (graph_of graph.now) i j n }
    ensures { (n : ℕ) → HasInterface (graph_of graph.now) i j n → IfOk result (λ name. name ≡ name_in (graph_of graph.now).names n) }
{
    pick_name(names, graph.interface_at(i, j))
}

// The names of the interfaces of a type, by their count.
fn make_interfaces(
    alloc: Global,
    graph: &PartialGraph,
    names: &[Name],
    i: u32,
    count: u16,
) -> Result<Vec<Name>, NoMemory>
    requires names { AreNames (graph_of graph.now) names.now }
    requires there { (t : StoredType) × HasType (graph_of graph.now) i t }
    requires count { (t : StoredType) → HasType (graph_of graph.now) i t → count ≡ length t.interfaces }
    ensures { (t : StoredType) → HasType (graph_of graph.now) i t → IfOk result (λ interfaces. interfaces.items ≡ map (name_in (graph_of graph.now).names) t.interfaces) }
{
    let mut interfaces = Vec::with_capacity(alloc, usize::from(count))?;
    for j in 0..count {
        interfaces.push(make_interface(graph, names, i, j)?)?;
    }
    Ok(interfaces)
}

// The view of a type.
fn make_view(alloc: Global, graph: &PartialGraph, names: &[Name], i: u32) -> Result<View, NoMemory>
    requires names { AreNames (graph_of graph.now) names.now }
    requires there { (t : StoredType) × HasType (graph_of graph.now) i t }
    ensures { (t : StoredType) → HasType (graph_of graph.now) i t → IfOk result (λ view. view ≡ shown_type (graph_of graph.now) t) }
{
    let row = graph.type_at(i);
    let interfaces = make_interfaces(alloc, graph, names, i, row.interfaces)?;
    let fields = make_fields(alloc, graph, names, i, row.fields)?;
    let methods = make_methods(alloc, graph, names, i, row.methods)?;
    Ok(View {
        name: pick_name(names, row.name)?,
        flags: row.flags,
        superclass: pick_super(names, row.superclass)?,
        interfaces: Names::from(interfaces),
        fields: Fields::from(fields),
        methods: Methods::from(methods),
    })
}

// The views of all types.
fn make_views(alloc: Global, graph: &PartialGraph, names: &[Name]) -> Result<Vec<View>, NoMemory>
    requires names { AreNames (graph_of graph.now) names.now }
    ensures { IfOk result (λ views. views.items ≡ map (shown_type (graph_of graph.now)) (graph_of graph.now).types) }
{
    let count = graph.type_count();
    let mut views = Vec::with_capacity(alloc, count as usize)?;
    for i in 0..count {
        views.push(make_view(alloc, graph, names, i)?)?;
    }
    Ok(views)
}

impl PartialGraph {
    /// The views of the graph, in the order of its types.
    ///
    /// Makes one pass over the rows. It copies the bytes of each name of the table once, and every place in the views
    /// that has the name shares that copy, so the views take memory in proportion to `encoded_len`.
    pub fn views(&self, alloc: Global) -> Result<Views, NoMemory>
        ensures { IfOk result (λ views. views ≡ self.now) }
    {
        let names = make_names(alloc, self)?;
        let views = make_views(alloc, self, names.as_slice())?;
        Ok(Views::from(views))
    }
}
