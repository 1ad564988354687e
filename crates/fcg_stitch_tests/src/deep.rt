use crate::edges::Graph;
use crate::sets::{Ask, holds};
use fcg_stitch::Stitched;
use std::alloc::Global;
use std::fmt::Write;
use std::test::Fail;

// So many classes, the first with a method, of which each other is below the one before it; and a call of the last's.
fn long_chain(alloc: Global, first: &str) -> Result<String, Fail> {
    let mut text = String::new(alloc);
    write!(text, "class p/C0 extends {first} pub m()V")?;
    for number in 1..10_000u32 {
        let before = number - 1;
        write!(text, " class p/C{number} extends p/C{before}")?;
    }
    write!(text, " class p/T static t()V [ virtual p/C9999.m()V ]")?;
    Ok(text)
}

// Two rows of interfaces, of which each has two above it, and those one method; and a call of a class below the last.
fn diamonds(alloc: Global) -> Result<String, Fail> {
    let mut text = String::new(alloc);
    write!(text, "interface p/A0 pub m()V interface p/B0")?;
    for number in 1..31u32 {
        let before = number - 1;
        for row in ["A", "B"] {
            write!(
                text,
                " interface p/{row}{number} implements p/A{before} implements p/B{before}"
            )?;
        }
    }
    write!(
        text,
        " class p/K implements p/A30 implements p/B30 class p/T static t()V [ virtual p/K.m()V ]"
    )?;
    Ok(text)
}

// The package of the class of a number.
fn package(number: u32) -> &'static str {
    if number % 2 == 0 { "p" } else { "q" }
}

// Classes of two packages by turns, each below the one before it, with package-private methods; and a call of the first's.
fn alternating(alloc: Global) -> Result<String, Fail> {
    let mut text = String::new(alloc);
    write!(text, "class p/C0 package m()V")?;
    for number in 1..1000u32 {
        let before = number - 1;
        let (own, other) = (package(number), package(before));
        write!(
            text,
            " class {own}/C{number} extends {other}/C{before} package m()V"
        )?;
    }
    write!(text, " class p/T static t()V [ virtual p/C0.m()V ]")?;
    Ok(text)
}

const CHAIN: Graph = Graph(10_001, 2, 0, 0, &[(1, 0)]);

const CIRCLE: Graph = Graph(1, 1, 1, 0, &[]);

const DIAMONDS: Graph = Graph(64, 2, 0, 0, &[(1, 0)]);

#[test]
fn stitches_long_chains(rt: HostRuntime) -> Result<(), Fail> {
    let text = long_chain(rt.alloc(), "java/lang/Object")?;
    assert!(rt; holds(rt.alloc(), &[("g:a:1", text.as_str())], &CHAIN)?);
    Ok(())
}

#[test]
fn stitches_long_circles(rt: HostRuntime) -> Result<(), Fail> {
    let text = long_chain(rt.alloc(), "p/C9999")?;
    assert!(rt; holds(rt.alloc(), &[("g:a:1", text.as_str())], &CIRCLE)?);
    Ok(())
}

#[test]
fn stitches_diamonds(rt: HostRuntime) -> Result<(), Fail> {
    let text = diamonds(rt.alloc())?;
    assert!(rt; holds(rt.alloc(), &[("g:a:1", text.as_str())], &DIAMONDS)?);
    Ok(())
}

// An edge from the last node to each even node below it, and no other.
struct EvenTargets;

impl Ask for EvenTargets {
    fn holds(&self, _: Global, stitched: &Stitched) -> Result<bool, Fail> {
        if stitched.node_count() != 1001 || stitched.edge_count() != 500 {
            return Ok(false);
        }
        for k in 0..stitched.edge_count() {
            if stitched.edge(k) != (1000, 2 * k as u32) {
                return Ok(false);
            }
        }
        Ok(true)
    }
}

#[test]
fn stitches_alternating_packages(rt: HostRuntime) -> Result<(), Fail> {
    let text = alternating(rt.alloc())?;
    assert!(rt; holds(rt.alloc(), &[("g:a:1", text.as_str())], &EvenTargets)?);
    Ok(())
}
