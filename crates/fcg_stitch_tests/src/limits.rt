use crate::sets::{Ask, holds, part_of, refusal_of, stitch_parts};
use fcg_partial::{Part, Parts};
use fcg_stitch::{StitchRefusal, Stitched};
use fcg_views::{Fields, Methods, Name, Names, View};
use std::alloc::Global;
use std::fmt::Write;
use std::test::Fail;

// A class with so many below it, each with a method that calls that of the class; and a method that calls so many others.
fn many_calls(alloc: Global, classes: u32, others: u32) -> Result<String, Fail> {
    let mut text = String::new(alloc);
    write!(text, "class p/B pub m()V")?;
    for number in 0..classes {
        write!(
            text,
            " class p/C{number} extends p/B pub m()V [ virtual p/B.m()V ]"
        )?;
    }
    write!(text, " class p/T static t()V [")?;
    for number in 0..others {
        write!(text, " static p/S.s{number}()V")?;
    }
    write!(text, " ] class p/S")?;
    for number in 0..others {
        write!(text, " static s{number}()V")?;
    }
    Ok(text)
}

// How many edges there are.
struct Edges(u64);

impl Ask for Edges {
    fn holds(&self, _: Global, stitched: &Stitched) -> Result<bool, Fail> {
        Ok(stitched.edge_count() == self.0)
    }
}

#[test]
fn stitches_the_most_edges(rt: HostRuntime) -> Result<(), Fail> {
    let text = many_calls(rt.alloc(), 5_656, 4_008)?;
    assert!(rt; holds(rt.alloc(), &[("g:a:1", text.as_str())], &Edges(32_000_000))?);
    Ok(())
}

#[test]
fn refuses_more_edges(rt: HostRuntime) -> Result<(), Fail> {
    for (classes, others) in [(5_656, 4_009), (6_000, 0)] {
        let text = many_calls(rt.alloc(), classes, others)?;
        let refusal = refusal_of(rt.alloc(), &[("g:a:1", text.as_str())])?;
        assert!(rt; refusal == Some(StitchRefusal::GraphTooLarge), "{classes}");
    }
    Ok(())
}

// A name of 65,535 bytes that begins with a text.
fn long_name(alloc: Global, text: &str) -> Result<Name, Fail> {
    let mut bytes = Vec::from_slice(alloc, text.as_bytes())?;
    bytes.resize(65_535, b'x')?;
    Ok(Name::from_slice(alloc, bytes.as_slice())?)
}

// An interface without a superclass and without members.
fn interface_of(alloc: Global, name: Name) -> View {
    View {
        name,
        flags: 0x0601,
        superclass: None,
        interfaces: Names::from(Vec::new(alloc)),
        fields: Fields::from(Vec::new(alloc)),
        methods: Methods::from(Vec::new(alloc)),
    }
}

// A release of a thousand interfaces with names of 65,535 bytes, which begin with the number of the release.
fn large_part(alloc: Global, release: u32) -> Result<Part, Fail> {
    let mut views = Vec::new(alloc);
    for number in 0..1_000u32 {
        let mut text = String::new(alloc);
        write!(text, "p/I{release}n{number}n")?;
        let name = long_name(alloc, text.as_str())?;
        views.push(interface_of(alloc, name))?;
    }
    let mut coordinate = String::new(alloc);
    write!(coordinate, "g:a:{release}")?;
    part_of(alloc, coordinate.as_str(), views)
}

#[test]
fn refuses_large_sets(rt: HostRuntime) -> Result<(), Fail> {
    let mut parts = Vec::new(rt.alloc());
    for release in 0..5u32 {
        parts.push(large_part(rt.alloc(), release)?)?;
    }
    let refusal = stitch_parts(rt.alloc(), &Parts::from(parts)).err();
    assert!(rt; refusal == Some(StitchRefusal::SetTooLarge { bytes: 327_765_090 }));
    Ok(())
}
