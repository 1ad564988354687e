use crate::commands::{
    Answer, INTERFACE, Step, coordinate_of, graph_of, keeper_of, office_over, submitted, taken,
};
use fcg_book::{Command, Office};
use fcg_cases::views_of;
use fcg_keeper::MemoryKeeper;
use fcg_partial::PartialGraph;
use fcg_views::{Coordinate, Fields, Methods, Name, Names, View};
use std::alloc::Global;
use std::fmt::Write;
use std::sync::Arc;
use std::test::Fail;

// A name of 65,535 bytes that begins with a number.
fn long_name(alloc: Global, number: u32) -> Result<Name, Fail> {
    let mut text = String::new(alloc);
    write!(text, "p/I{number}n")?;
    let mut bytes = Vec::from_slice(alloc, text.as_bytes())?;
    bytes.resize(65_535, b'x')?;
    Ok(Name::from_slice(alloc, bytes.as_slice())?)
}

// An interface without a superclass and without members.
fn interface_of(alloc: Global, name: Name) -> View {
    View {
        name,
        flags: 0x0601,
        superclass: None,
        interfaces: Names::from(Vec::new(alloc)),
        fields: Fields::from(Vec::new(alloc)),
        methods: Methods::from(Vec::new(alloc)),
    }
}

// The graph of 1,100 interfaces with names of 65,535 bytes.
fn large_graph(alloc: Global) -> Result<Arc<PartialGraph>, Fail> {
    let mut views = Vec::new(alloc);
    for number in 0..1_100u32 {
        views.push(interface_of(alloc, long_name(alloc, number)?))?;
    }
    graph_of(alloc, views)
}

fn large_import(alloc: Global) -> Result<Command, Fail> {
    Ok(Command::Import {
        coordinate: coordinate_of(alloc, "g:i:1")?,
        graph: large_graph(alloc)?,
    })
}

// What is answered to a release that is too large.
fn large_answer(alloc: Global) -> Result<Answer, Fail> {
    let command = large_import(alloc)?;
    let mut office = office_over(alloc, keeper_of(alloc, &[], &[])?)?;
    Ok(submitted(alloc, &mut office, 7, command))
}

#[test]
fn refuses_large_releases(rt: HostRuntime) -> Result<(), Fail> {
    let answer = large_answer(rt.alloc())?;
    assert!(rt; answer == Answer::TooLarge(72_108_318));
    Ok(())
}

// Whether the import of a release is entered, and then its withdrawal, under the numbers of the entries. The entries are
// given away.
fn enters_both(
    alloc: Global,
    office: &mut Office<MemoryKeeper>,
    number: u64,
    coordinate: &Coordinate,
    graph: &Arc<PartialGraph>,
) -> Result<bool, Fail> {
    let import = Command::Import {
        coordinate: coordinate.clone()?,
        graph: graph.clone()?,
    };
    if submitted(alloc, office, number, import) != Answer::Entered(number) {
        return Ok(false);
    }
    let withdrawal = Command::Withdraw {
        coordinate: coordinate.clone()?,
    };
    let next = number.saturating_add(1);
    let answer = submitted(alloc, office, next, withdrawal);
    Ok(answer == Answer::Entered(next) && office.fresh().is_some() && office.fresh().is_some())
}

// How many times an import and its withdrawal are entered, up to the first time that they aren't.
fn entered(alloc: Global, office: &mut Office<MemoryKeeper>, times: u64) -> Result<u64, Fail> {
    let coordinate = coordinate_of(alloc, "g:i:1")?;
    let views = views_of(alloc, INTERFACE)
        .ok()
        .ok_or("it is in short form")?;
    let graph = graph_of(alloc, views)?;
    for n in 0..times {
        let number = n.saturating_mul(2).saturating_add(1);
        if !enters_both(alloc, office, number, &coordinate, &graph)? {
            return Ok(n);
        }
    }
    Ok(times)
}

// No more is entered in a full log, and what isn't live is found before that.
const FULL: &[Step] = &[
    Step(1_000_001, "g:i:1", "", Answer::Absent, 1_000_000),
    Step(1_000_002, "g:i:1", INTERFACE, Answer::Full, 1_000_000),
    Step(1, "g:i:1", INTERFACE, Answer::Repeated(1), 1_000_000),
];

// As many imports, each with its withdrawal, as fill a log.
const PAIRS: u64 = 500_000;

// Enters so many imports and their withdrawals.
fn fill(alloc: Global, office: &mut Office<MemoryKeeper>, pairs: u64) -> Result<(), Fail> {
    if entered(alloc, office, pairs)? != pairs {
        return Err("each is entered".into());
    }
    Ok(())
}

// How many of the steps are answered so after them.
fn taken_after(
    alloc: Global,
    office: &mut Office<MemoryKeeper>,
    pairs: u64,
    steps: &[Step],
) -> Result<usize, Fail> {
    fill(alloc, office, pairs)?;
    taken(alloc, office, steps)
}

// How many of them are answered so in a full log.
fn taken_full(alloc: Global, steps: &[Step]) -> Result<usize, Fail> {
    let mut office = office_over(alloc, keeper_of(alloc, &[], &[])?)?;
    taken_after(alloc, &mut office, PAIRS, steps)
}

#[test]
fn refuses_more_entries(rt: HostRuntime) -> Result<(), Fail> {
    let taken = taken_full(rt.alloc(), FULL)?;
    assert!(rt; taken == FULL.len(), "step {taken}");
    Ok(())
}
