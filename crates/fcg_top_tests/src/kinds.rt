//! The sites that a listing prints, of each kind, with names that are escaped.

use crate::class_files::{Member, push_method, push_site, view_of, written};
use crate::runs::{begin_bundle, push_entry, run_over};
use fcg_top::Status;
use fcg_views::{HandleKind, Method, NoMemory, Site, SiteKind, View};
use std::alloc::Global;
use std::test::Fail;

// A site that each instruction of its own makes: its place, its kind and what it names.
const INSTRUCTIONS: &[(u16, SiteKind, Member<'static>)] = &[
    (0, SiteKind::New, ("p/B.C", false, "", "")),
    (
        10,
        SiteKind::Virtual,
        ("[I", false, "clone", "()Ljava/lang/Object;"),
    ),
    (
        200,
        SiteKind::Interface,
        ("java/util/List", true, "add", "(ILjava/lang/Object;)V"),
    ),
    (3000, SiteKind::Static, ("p/A$B", false, "go-on", "([[J)V")),
    (65531, SiteKind::StaticField, ("p/B_C", false, "a b", "I")),
];

const CONSTRUCTOR: &[(u16, SiteKind, Member<'static>)] = &[(
    1,
    SiteKind::Special,
    ("java/lang/Object", false, "<init>", "()V"),
)];

// A site of each kind of method handle at one instruction.
const HANDLES: &[(u16, SiteKind, Member<'static>)] = &[
    (7, SiteKind::Handle(HandleKind::K5), HANDLED),
    (7, SiteKind::Handle(HandleKind::K6), HANDLED),
    (7, SiteKind::Handle(HandleKind::K7), HANDLED),
    (7, SiteKind::Handle(HandleKind::K8), HANDLED),
    (
        7,
        SiteKind::Handle(HandleKind::K9),
        ("q/%", true, "x/y", "(Z)V"),
    ),
];

const HANDLED: Member<'static> = ("q/%", false, "x/y", "(Z)V");

fn sites_of(
    alloc: Global,
    rows: &[(u16, SiteKind, Member<'static>)],
) -> Result<Vec<Site>, NoMemory> {
    let mut sites = Vec::new(alloc);
    for (pc, kind, member) in rows {
        push_site(&mut sites, alloc, *pc, *kind, *member)?;
    }
    Ok(sites)
}

// A constructor, a method that has no site, and one that has each site an instruction of its own makes.
fn instructions(alloc: Global) -> Result<Vec<Method>, NoMemory> {
    let mut methods = Vec::new(alloc);
    let first = sites_of(alloc, CONSTRUCTOR)?;
    push_method(&mut methods, alloc, "<init>", "()V", 0, first)?;
    push_method(&mut methods, alloc, "none", "()I", 0, Vec::new(alloc))?;
    let second = sites_of(alloc, INSTRUCTIONS)?;
    push_method(&mut methods, alloc, "go.on", "(Lp/\u{e9};)[I", 0, second)?;
    Ok(methods)
}

fn handles(alloc: Global) -> Result<Vec<Method>, NoMemory> {
    let mut methods = Vec::new(alloc);
    let sites = sites_of(alloc, HANDLES)?;
    push_method(&mut methods, alloc, "m", "()V", 0, sites)?;
    Ok(methods)
}

// An entry more, of a view's class file.
fn push_view(bundle: &mut Vec<u8>, alloc: Global, path: &[u8], view: &View) -> Result<(), Fail> {
    match written(alloc, view) {
        Some(Ok(bytes)) => push_entry(bundle, path, bytes.as_slice()),
        _ => Err(Fail::new("the view isn't written")),
    }
}

// A bundle of three types: one with the handles, one with no method, and one with the instructions.
fn bundle_of(alloc: Global) -> Result<Vec<u8>, Fail> {
    let mut bundle = begin_bundle(alloc, 3)?;
    let view = view_of(alloc, "q/\u{1}", 0x21, handles(alloc)?)?;
    push_view(&mut bundle, alloc, b"a.class", &view)?;
    let view = view_of(alloc, "p/Empty", 0x21, Vec::new(alloc))?;
    push_view(&mut bundle, alloc, b"b.class", &view)?;
    let view = view_of(alloc, "p/A$B", 0x21, instructions(alloc)?)?;
    push_view(&mut bundle, alloc, b"c.class", &view)?;
    Ok(bundle)
}

const EXPECTED: &str = concat!(
    "site q/%01.m()V 7 handle5 q/%25.x%2Fy(Z)V\n",
    "site q/%01.m()V 7 handle6 q/%25.x%2Fy(Z)V\n",
    "site q/%01.m()V 7 handle7 q/%25.x%2Fy(Z)V\n",
    "site q/%01.m()V 7 handle8 q/%25.x%2Fy(Z)V\n",
    "site q/%01.m()V 7 handle9 q/%25.x%2Fy(Z)V\n",
    "site p/A$B.%3Cinit%3E()V 1 special java/lang/Object.%3Cinit%3E()V\n",
    "site p/A$B.go%2Eon(Lp/%C3%A9;)[I 0 new p/B%2EC\n",
    "site p/A$B.go%2Eon(Lp/%C3%A9;)[I 10 virtual %5BI.clone()Ljava/lang/Object;\n",
    "site p/A$B.go%2Eon(Lp/%C3%A9;)[I 200 interface java/util/List.add(ILjava/lang/Object;)V\n",
    "site p/A$B.go%2Eon(Lp/%C3%A9;)[I 3000 static p/A$B.go-on([[J)V\n",
    "site p/A$B.go%2Eon(Lp/%C3%A9;)[I 65531 staticfield p/B_C.a%20bI\n",
    "sites 11\n",
);

#[test]
fn prints_each_kind_of_site(rt: HostRuntime) -> Result<(), Fail> {
    let bundle = bundle_of(rt.alloc())?;
    let outcome = run_over(rt.alloc(), "sites", &bundle, &[])?;
    assert!(rt; outcome.is(Status::Ok, EXPECTED.as_bytes(), b""));
    Ok(())
}
