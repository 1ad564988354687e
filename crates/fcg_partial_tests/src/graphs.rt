ghost use Rattle.std.specs.Prelude.{◌<◌, length};
ghost use Rattle.fcg_partial.specs.Views.{graph_of};
ghost use Rattle.fcg_partial.specs.Accessors.{type_in};

use fcg_grammar::ReadError;
use fcg_partial::{FieldRow, MethodRow, PartialGraph, RecordRule, RefRow, SiteRow, TypeRow};
use fcg_views::{
    Field, Fields, HandleKind, Method, Methods, Name, Names, Ref, Site, SiteKind, Sites, View,
    Views, is_valid,
};
use std::alloc::{AllocError, Global};
use std::sync::Arc;
use std::test::Fail;

// The graph of an interface `I` that extends java/lang/Object, with the flags 0601.
const INTERFACE: [u8; 55] = [
    0x46, 0x43, 0x47, 0x52, 0x00, 0x01, 0x00, 0x00, 0x00, 0x02, 0x00, 0x01, 0x49, 0x00, 0x10, 0x6a,
    0x61, 0x76, 0x61, 0x2f, 0x6c, 0x61, 0x6e, 0x67, 0x2f, 0x4f, 0x62, 0x6a, 0x65, 0x63, 0x74, 0x00,
    0x00, 0x00, 0x00, 0x00, 0x00, 0x00, 0x01, 0x00, 0x00, 0x00, 0x00, 0x06, 0x01, 0x00, 0x00, 0x00,
    0x01, 0x00, 0x00, 0x00, 0x00, 0x00, 0x00,
];

// Where the first n bytes of it are cut, for each n.
const CUTS: [u32; 55] = [
    0, 0, 0, 0, 4, 4, 6, 6, 6, 6, 10, 10, 12, 13, 13, 15, 15, 15, 15, 15, 15, 15, 15, 15, 15, 15,
    15, 15, 15, 15, 15, 31, 31, 31, 31, 35, 35, 35, 35, 39, 39, 39, 39, 43, 43, 45, 45, 45, 45, 49,
    49, 51, 51, 53, 53,
];

// A class `A` that implements `A`, with a field `m` of the type `I` and a method `m()V` that calls itself. The names
// stand at 10, 15, 18 and 21, the reference at 28, the type at 45, its interface at 57, its field at 63, its method at
// 75 and the site at 89.
const CLASS: [u8; 96] = [
    0x46, 0x43, 0x47, 0x52, 0x00, 0x01, 0x00, 0x00, 0x00, 0x04, 0x00, 0x03, 0x28, 0x29, 0x56, 0x00,
    0x01, 0x41, 0x00, 0x01, 0x49, 0x00, 0x01, 0x6d, 0x00, 0x00, 0x00, 0x01, 0x00, 0x00, 0x00, 0x01,
    0x00, 0x00, 0x00, 0x00, 0x03, 0x00, 0x00, 0x00, 0x00, 0x00, 0x00, 0x00, 0x01, 0x00, 0x00, 0x00,
    0x01, 0x00, 0x21, 0xff, 0xff, 0xff, 0xff, 0x00, 0x01, 0x00, 0x00, 0x00, 0x01, 0x00, 0x01, 0x00,
    0x00, 0x00, 0x03, 0x00, 0x00, 0x00, 0x02, 0x00, 0x01, 0x00, 0x01, 0x00, 0x00, 0x00, 0x03, 0x00,
    0x00, 0x00, 0x00, 0x00, 0x09, 0x00, 0x00, 0x00, 0x01, 0x00, 0x00, 0x03, 0x00, 0x00, 0x00, 0x00,
];

// A byte of it by its place, what it is changed to, and the fault.
const CHANGES: &[(usize, u8, RecordRule, u32)] = &[
    (3, 0x53, RecordRule::Magic, 0),
    (5, 2, RecordRule::Version, 4),
    // the third name is the second, and the fourth is before the third
    (17, 0x49, RecordRule::Order, 18),
    (23, 0x48, RecordRule::Order, 21),
    // the reference: the number of its owner, its interface, the numbers of its name and descriptor
    (31, 4, RecordRule::Index, 28),
    (32, 2, RecordRule::Kind, 32),
    (36, 4, RecordRule::Index, 33),
    (40, 4, RecordRule::Index, 37),
    // the type: its name, its superclass, its interface, the name and the descriptor of its field and of its method
    (48, 4, RecordRule::Index, 45),
    (54, 0xfe, RecordRule::Index, 51),
    (60, 4, RecordRule::Index, 57),
    (66, 4, RecordRule::Index, 63),
    (70, 4, RecordRule::Index, 67),
    (78, 4, RecordRule::Index, 75),
    (82, 4, RecordRule::Index, 79),
    // the site: its kind, its reference
    (91, 6, RecordRule::Kind, 91),
    (91, 0x14, RecordRule::Kind, 91),
    (91, 0x1a, RecordRule::Kind, 91),
    (95, 1, RecordRule::Index, 92),
    // the number of sites: too many, none
    (85, 1, RecordRule::ManySites, 85),
    (88, 0, RecordRule::Trailing, 89),
    // two methods, two fields, two types: the bytes end
    (74, 2, RecordRule::Cut, 96),
    (62, 2, RecordRule::Index, 73),
    (44, 2, RecordRule::Cut, 96),
    // the name `I` isn't used
    (70, 0, RecordRule::Unused, 18),
];

// Pieces of one of the two graphs from one place to another, a place with the byte that stands there then, and the
// fault.
const PIECES: &[(&[u8], &[(usize, usize)], usize, u8, RecordRule, u32)] = &[
    // the two names exchanged
    (
        &INTERFACE,
        &[(0, 10), (13, 31), (10, 13), (31, 55)],
        3,
        0x52,
        RecordRule::Order,
        28,
    ),
    // the reference twice
    (&CLASS, &[(0, 41), (28, 96)], 27, 2, RecordRule::Order, 41),
    // the method twice
    (
        &CLASS,
        &[(0, 96), (75, 96)],
        74,
        2,
        RecordRule::DoubleMethod,
        96,
    ),
    // no site, so that the reference isn't used
    (&CLASS, &[(0, 89)], 88, 0, RecordRule::Unused, 28),
    // a byte more
    (
        &CLASS,
        &[(0, 96), (4, 5)],
        3,
        0x52,
        RecordRule::Trailing,
        96,
    ),
];

// Whether a decode of the bytes answers this fault.
fn is_fault(alloc: Global, bytes: &[u8], rule: RecordRule, offset: u32) -> bool {
    match PartialGraph::decode(alloc, bytes) {
        Err(ReadError::Fault(fault)) => fault.rule == rule && fault.offset == offset,
        _ => false,
    }
}

fn decoded(alloc: Global, bytes: &[u8]) -> Result<PartialGraph, Fail> {
    Ok(
        PartialGraph::decode(alloc, bytes)
            .ok()
            .ok_or("it is a graph")?,
    )
}

// Bytes with another one at a place.
fn changed(alloc: Global, bytes: &[u8], at: usize, byte: u8) -> Result<Vec<u8>, AllocError> {
    let mut changed = bytes.to_vec(alloc)?;
    if let Some(old) = changed.get_mut(at) {
        *old = byte;
    }
    Ok(changed)
}

// Pieces of bytes, one after the other.
fn pieced(alloc: Global, bytes: &[u8], pieces: &[(usize, usize)]) -> Result<Vec<u8>, AllocError> {
    let mut all = Vec::new(alloc);
    for (from, to) in pieces {
        all.extend_from_slice(bytes.get(*from..*to).unwrap_or(&[]))?;
    }
    Ok(all)
}

#[test]
fn cut_at_each_length(rt: HostRuntime) -> Result<(), Fail> {
    for (n, cut) in CUTS.iter().enumerate() {
        assert!(rt;
            is_fault(rt.alloc(), &INTERFACE[..n], RecordRule::Cut, *cut),
            "at {n}"
        );
    }
    Ok(())
}

#[test]
fn changed_bytes(rt: HostRuntime) -> Result<(), Fail> {
    for (at, byte, rule, offset) in CHANGES {
        let bytes = changed(rt.alloc(), &CLASS, *at, *byte)?;
        assert!(rt;
            is_fault(rt.alloc(), &bytes, *rule, *offset),
            "{byte} at {at}"
        );
    }
    Ok(())
}

#[test]
fn broken_tables(rt: HostRuntime) -> Result<(), Fail> {
    for (graph, pieces, at, byte, rule, offset) in PIECES {
        let all = pieced(rt.alloc(), graph, pieces)?;
        let bytes = changed(rt.alloc(), &all, *at, *byte)?;
        assert!(rt;
            is_fault(rt.alloc(), &bytes, *rule, *offset),
            "the fault at {offset}"
        );
    }
    Ok(())
}

fn name(alloc: Global, text: &str) -> Result<Name, Fail> {
    Ok(
        Name::from_slice(alloc, text.as_bytes())
            .ok()
            .ok_or("no memory")?,
    )
}

fn interface(alloc: Global) -> Result<View, Fail> {
    Ok(View {
        name: name(alloc, "I")?,
        flags: 0x0601,
        superclass: Some(name(alloc, "java/lang/Object")?),
        interfaces: Names::from(Vec::new(alloc)),
        fields: Fields::from(Vec::new(alloc)),
        methods: Methods::from(Vec::new(alloc)),
    })
}

// The graph of views.
fn made(alloc: Global, views: Vec<View>) -> Result<PartialGraph, Fail> {
    let views = Views::from(views);
    if !views.fits() || !views.as_slice().iter().all(|view| is_valid(view)) {
        return Err("the views are valid".into());
    }
    Ok(
        PartialGraph::from_views(alloc, views)
            .ok()
            .ok_or("no memory")?,
    )
}

fn interface_graph(alloc: Global) -> Result<PartialGraph, Fail> {
    let mut views = Vec::new(alloc);
    views.push(interface(alloc)?)?;
    made(alloc, views)
}

// Whether the bytes spell a graph.
fn is_spelled(graph: &PartialGraph, bytes: &[u8]) -> bool {
    graph.as_bytes() == bytes && graph.encoded_len() == bytes.len() as u64
}

// Whether a graph is the one that the bytes spell.
fn is_graph_of(alloc: Global, graph: &PartialGraph, bytes: &[u8]) -> Result<bool, Fail> {
    let other = decoded(alloc, bytes)?;
    Ok(graph.same(&other))
}

// Whether the graph's own bytes are these, in a copy.
fn is_encoded(alloc: Global, graph: &PartialGraph, bytes: &[u8]) -> Result<bool, Fail> {
    let encoded = graph.encode(alloc).ok().ok_or("no memory")?;
    Ok(encoded.as_slice() == bytes)
}

#[test]
fn made_of_views(rt: HostRuntime) -> Result<(), Fail> {
    let graph = interface_graph(rt.alloc())?;
    assert!(rt; is_spelled(&graph, &INTERFACE));
    assert!(rt; is_encoded(rt.alloc(), &graph, &INTERFACE)?);
    Ok(())
}

#[test]
fn same_graphs(rt: HostRuntime) -> Result<(), Fail> {
    let graph = interface_graph(rt.alloc())?;
    assert!(rt; is_graph_of(rt.alloc(), &graph, &INTERFACE)?);
    assert!(rt; !is_graph_of(rt.alloc(), &graph, &CLASS)?);
    Ok(())
}

#[test]
fn one_name_apart(rt: HostRuntime) -> Result<(), Fail> {
    let graph = decoded(rt.alloc(), &CLASS)?;
    let bytes = changed(rt.alloc(), &CLASS, 17, 0x42)?;
    assert!(rt; !is_graph_of(rt.alloc(), &graph, &bytes)?);
    Ok(())
}

const NAMES: &[(u32, &str)] = &[(0, "()V"), (1, "A"), (2, "I"), (3, "m")];

const REFERENCE: RefRow = RefRow {
    owner: 1,
    owner_is_interface_ref: false,
    name: 3,
    desc: 0,
};

const TYPE: TypeRow = TypeRow {
    name: 1,
    flags: 0x21,
    superclass: None,
    interfaces: 1,
    fields: 1,
    methods: 1,
};

const FIELD: FieldRow = FieldRow {
    name: 3,
    desc: 2,
    flags: 1,
};

const METHOD: MethodRow = MethodRow {
    name: 3,
    desc: 0,
    flags: 9,
    sites: 1,
};

const SITE: SiteRow = SiteRow {
    pc: 0,
    kind: SiteKind::Static,
    reference: 0,
};

// Whether a number has this name.
fn is_name(graph: &PartialGraph, n: u32, text: &str) -> bool {
    n < graph.name_count() && graph.name_at(n) == text.as_bytes()
}

// Whether the graph has one reference, and it is this.
fn is_only_ref(graph: &PartialGraph, row: RefRow) -> bool {
    graph.ref_count() == 1 && graph.ref_at(0) == row
}

// Whether the graph has one type, and it is this.
fn is_only_type(graph: &PartialGraph, row: TypeRow) -> bool {
    graph.type_count() == 1 && graph.type_at(0) == row
}

// Whether the first type has one interface, by its number, and one field.
fn is_only_field(graph: &PartialGraph, interface: u32, row: FieldRow) -> bool {
    if graph.type_count() == 0 {
        return false;
    }
    let first = graph.type_at(0);
    first.interfaces == 1
        && graph.interface_at(0, 0) == interface
        && first.fields == 1
        && graph.field_at(0, 0) == row
}

// Whether the first type has one method, and it has one site.
fn is_only_site(graph: &PartialGraph, row: MethodRow, site: SiteRow) -> bool {
    if graph.type_count() == 0 || graph.type_at(0).methods != 1 {
        return false;
    }
    let first = graph.method_at(0, 0);
    first == row && first.sites == 1 && graph.site_at(0, 0, 0) == site
}

#[test]
fn names_of_a_class(rt: HostRuntime) -> Result<(), Fail> {
    let graph = decoded(rt.alloc(), &CLASS)?;
    assert!(rt; graph.name_count() == 4);
    for (n, text) in NAMES {
        assert!(rt; is_name(&graph, *n, text), "name {n}");
    }
    Ok(())
}

#[test]
fn each_row_of_a_class(rt: HostRuntime) -> Result<(), Fail> {
    let graph = decoded(rt.alloc(), &CLASS)?;
    assert!(rt; is_only_ref(&graph, REFERENCE), "the reference");
    assert!(rt; is_only_type(&graph, TYPE), "the type");
    assert!(rt;
        is_only_field(&graph, 1, FIELD),
        "the interface and the field"
    );
    assert!(rt;
        is_only_site(&graph, METHOD, SITE),
        "the method and the site"
    );
    Ok(())
}

// The sites of a method, each looked at with its reference.
fn count_sites(graph: &PartialGraph, i: u32, k: u16) -> u32
    requires { k < length (type_in (graph_of graph.now) i).methods }
{
    let method = graph.method_at(i, k);
    let _desc = graph.name_at(method.desc);
    let mut count = 0_u32;
    for s in 0..method.sites {
        let site = graph.site_at(i, k, s);
        let target = graph.ref_at(site.reference);
        let _owner = graph.name_at(target.owner);
        count = count.saturating_add(1);
    }
    count
}

// The interfaces, the fields and the sites of a type, each looked at with its names.
fn count_members(graph: &PartialGraph, i: u32) -> u32
    requires { i < length (graph_of graph.now).types }
{
    let row = graph.type_at(i);
    let _name = graph.name_at(row.name);
    let mut count = 0_u32;
    for j in 0..row.interfaces {
        let _interface = graph.name_at(graph.interface_at(i, j));
        count = count.saturating_add(1);
    }
    for j in 0..row.fields {
        let field = graph.field_at(i, j);
        let _desc = graph.name_at(field.desc);
        count = count.saturating_add(1);
    }
    for k in 0..row.methods {
        count = count.saturating_add(count_sites(graph, i, k));
    }
    count
}

// The interfaces, the fields and the sites of all types. No loop over a graph needs a proof of its own.
fn count_all(graph: &PartialGraph) -> u32 {
    let mut count = 0_u32;
    for i in 0..graph.type_count() {
        count = count.saturating_add(count_members(graph, i));
    }
    count
}

// Whether a graph can be shared between threads.
fn is_shared<T: Send + Sync>(_: &T) -> bool {
    true
}

#[test]
fn counts_of_a_class(rt: HostRuntime) -> Result<(), Fail> {
    let graph = decoded(rt.alloc(), &CLASS)?;
    let graph = Arc::new(rt.alloc(), graph).ok().ok_or("no memory")?;
    assert!(rt; is_shared(&graph) && count_all(&graph) == 3);
    Ok(())
}

// The method `m()V` of `A`.
fn target(alloc: Global) -> Result<Ref, Fail> {
    Ok(Ref {
        owner: name(alloc, "A")?,
        owner_is_interface_ref: false,
        name: name(alloc, "m")?,
        desc: name(alloc, "()V")?,
    })
}

// Sites of these kinds at one place, which name it.
fn sites(alloc: Global, pc: u16, kinds: &[SiteKind]) -> Result<Vec<Site>, Fail> {
    let mut sites = Vec::new(alloc);
    for kind in kinds {
        sites.push(Site {
            pc,
            kind: *kind,
            target: target(alloc)?,
        })?;
    }
    Ok(sites)
}

// A method `m()V` with these sites.
fn method(alloc: Global, sites: Vec<Site>) -> Result<Method, Fail> {
    Ok(Method {
        name: name(alloc, "m")?,
        desc: name(alloc, "()V")?,
        flags: 9,
        sites: Sites::from(sites),
    })
}

fn methods(alloc: Global, sites: Vec<Site>) -> Result<Vec<Method>, Fail> {
    let mut methods = Vec::new(alloc);
    methods.push(method(alloc, sites)?)?;
    Ok(methods)
}

fn fields(alloc: Global) -> Result<Vec<Field>, Fail> {
    let mut fields = Vec::new(alloc);
    fields.push(Field {
        name: name(alloc, "m")?,
        desc: name(alloc, "I")?,
        flags: 1,
    })?;
    Ok(fields)
}

fn interfaces(alloc: Global) -> Result<Vec<Name>, Fail> {
    let mut interfaces = Vec::new(alloc);
    interfaces.push(name(alloc, "A")?)?;
    Ok(interfaces)
}

// The class whose graph stands above.
fn class(alloc: Global, sites: Vec<Site>) -> Result<View, Fail> {
    let interfaces = interfaces(alloc)?;
    let fields = fields(alloc)?;
    let methods = methods(alloc, sites)?;
    Ok(View {
        name: name(alloc, "A")?,
        flags: 0x21,
        superclass: None,
        interfaces: Names::from(interfaces),
        fields: Fields::from(fields),
        methods: Methods::from(methods),
    })
}

#[test]
fn views_of_a_class(rt: HostRuntime) -> Result<(), Fail> {
    let graph = decoded(rt.alloc(), &CLASS)?;
    let views = graph.views(rt.alloc()).ok().ok_or("no memory")?;
    let sites = sites(rt.alloc(), 0, &[SiteKind::Static])?;
    let mut want = Vec::new(rt.alloc());
    want.push(class(rt.alloc(), sites)?)?;
    assert!(rt; views.as_slice() == want.as_slice());
    Ok(())
}

// The kinds of sites.
const KINDS: [SiteKind; 11] = [
    SiteKind::Virtual,
    SiteKind::Interface,
    SiteKind::Special,
    SiteKind::Static,
    SiteKind::New,
    SiteKind::StaticField,
    SiteKind::Handle(HandleKind::K5),
    SiteKind::Handle(HandleKind::K6),
    SiteKind::Handle(HandleKind::K7),
    SiteKind::Handle(HandleKind::K8),
    SiteKind::Handle(HandleKind::K9),
];

// An interface, and a class with a site of each kind.
fn two_views(alloc: Global) -> Result<Vec<View>, Fail> {
    let sites = sites(alloc, 300, &KINDS)?;
    let mut views = Vec::new(alloc);
    views.push(interface(alloc)?)?;
    views.push(class(alloc, sites)?)?;
    Ok(views)
}

#[test]
fn views_again(rt: HostRuntime) -> Result<(), Fail> {
    let graph = made(rt.alloc(), two_views(rt.alloc())?)?;
    let again = graph.views(rt.alloc()).ok().ok_or("no memory")?;
    assert!(rt; again.as_slice() == two_views(rt.alloc())?.as_slice());
    Ok(())
}
