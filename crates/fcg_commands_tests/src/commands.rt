ghost use Rattle.std.specs.Prelude.{◌≡◌, ◌<◌, IfOk};
ghost use Rattle.fcg_keeper.specs.Records.{BySeq};

use fcg_answer::Query;
use fcg_book::Command;
use fcg_cases::views_of;
use fcg_commands::{Outcome, ask_once, submit_once};
use fcg_json::{GraphQuery, Page, print_reply};
use fcg_keeper::{MemoryKeeper, MemoryStores, Record, Records};
use fcg_partial::PartialGraph;
use fcg_views::{Bytes, Coordinate, Set, Steps, Views, is_valid};
use std::alloc::Global;
use std::marker::Brand;
use std::sync::Arc;
use std::sync::ledger::{Blank, Ledger};
use std::test::Fail;

// A class with a method that calls itself.
const CLASS: &str = "class p/A static m()V [ static p/A.m()V ]";

// A record, or none of an empty body.
fn records_of(alloc: Global, body: &[u8]) -> Result<Records, Fail>
    ensures { IfOk result BySeq }
{
    let mut records = Vec::new(alloc);
    if !body.is_empty() {
        records.push(Record {
            seq: 1,
            body: Bytes::from(body.to_vec(alloc)?),
        })?;
    }
    Ok(Records::from(records))
}

// Stores with a record of this body, or with none, whose opens of these numbers fail.
fn stores_of(alloc: Global, body: &[u8], fail: &[u64]) -> Result<MemoryStores, Fail> {
    let keeper = MemoryKeeper::new(records_of(alloc, body)?, Vec::new(alloc));
    Ok(MemoryStores::new(alloc, keeper, fail.to_vec(alloc)?))
}

fn coordinate_of(alloc: Global, text: &str) -> Result<Coordinate, Fail> {
    Ok(
        Coordinate::parse(alloc, text.as_bytes())
            .ok()
            .ok_or("it is a coordinate")?,
    )
}

fn graph_of(alloc: Global, types: &str) -> Result<Arc<PartialGraph>, Fail> {
    let views = Views::from(views_of(alloc, types).ok().ok_or("it is in short form")?);
    if !views.fits() || !views.as_slice().iter().all(|view| is_valid(view)) {
        return Err("the views are valid".into());
    }
    let graph = PartialGraph::from_views(alloc, views)
        .ok()
        .ok_or("no memory")?;
    Ok(Arc::new(alloc, graph)?)
}

// The import of a release with types, or its withdrawal where there are none.
fn command_of(alloc: Global, coordinate: &str, types: &str) -> Result<Command, Fail> {
    let coordinate = coordinate_of(alloc, coordinate)?;
    if types.is_empty() {
        return Ok(Command::Withdraw { coordinate });
    }
    Ok(Command::Import {
        coordinate,
        graph: graph_of(alloc, types)?,
    })
}

// Whether an outcome is a reply with this text, by its kind: `a` answered, `r` refused, `b` a bad store; `k` is a keeper
// that failed.
fn is_outcome(alloc: Global, outcome: &Outcome, kind: char, text: &str) -> Result<bool, Fail> {
    let (found, reply) = match outcome {
        Outcome::Answered(reply) => ('a', reply),
        Outcome::Refused(reply) => ('r', reply),
        Outcome::BadStore(reply) => ('b', reply),
        Outcome::KeeperFailed => return Ok(kind == 'k'),
        Outcome::NoMemory => return Ok(false),
    };
    let printed = print_reply(alloc, reply).ok().ok_or("no memory")?;
    Ok(found == kind && printed.as_slice() == text.as_bytes())
}

// The number of a request, its release, the types of an import or none of a withdrawal, and what it comes to.
#[derive(Drop)]
struct Step(u64, &'static str, &'static str, char, &'static str);

fn takes(alloc: Global, stores: &mut MemoryStores, step: &Step) -> Result<bool, Fail> {
    let command = command_of(alloc, step.1, step.2)?;
    let outcome = submit_once(alloc, stores, "store", step.0, command);
    is_outcome(alloc, &outcome, step.3, step.4)
}

// How many of the steps come to that, each with an opening of its own.
fn taken(alloc: Global, stores: &mut MemoryStores, steps: &[Step]) -> Result<usize, Fail> {
    for (n, step) in steps.iter().enumerate() {
        if !takes(alloc, stores, step)? {
            return Ok(n);
        }
    }
    Ok(steps.len())
}

const REQUESTS: &[Step] = &[
    Step(
        7,
        "g:a:1",
        CLASS,
        'a',
        "{\"at\":1,\"entry\":1,\"outcome\":\"entered\"}",
    ),
    Step(
        7,
        "g:a:1",
        CLASS,
        'a',
        "{\"at\":1,\"entry\":1,\"outcome\":\"repeated\"}",
    ),
    Step(
        8,
        "g:a:1",
        CLASS,
        'a',
        "{\"at\":1,\"entry\":1,\"outcome\":\"standing\"}",
    ),
    Step(
        7,
        "g:b:1",
        CLASS,
        'r',
        "{\"entry\":1,\"fault\":\"RequestClash\"}",
    ),
    Step(
        9,
        "g:a:1",
        "",
        'a',
        "{\"at\":2,\"entry\":2,\"outcome\":\"entered\"}",
    ),
    Step(
        7,
        "g:a:1",
        CLASS,
        'a',
        "{\"at\":2,\"entry\":1,\"outcome\":\"repeated\"}",
    ),
    Step(
        10,
        "g:a:1",
        "",
        'r',
        "{\"at\":2,\"coordinate\":\"g:a:1\",\"fault\":\"AbsentRelease\"}",
    ),
];

#[test]
fn submits_commands(rt: HostRuntime) -> Result<(), Fail> {
    let mut stores = stores_of(rt.alloc(), &[], &[])?;
    let taken = taken(rt.alloc(), &mut stores, REQUESTS)?;
    assert!(rt; taken == REQUESTS.len(), "step {taken}");
    Ok(())
}

// A record that is none, opens that fail, and what a withdrawal comes to.
const STORES: &[(&[u8], &[u64], char, &str)] = &[
    (
        &[0],
        &[],
        'b',
        "{\"fault\":\"BadRecord\",\"rule\":\"Cut\",\"seq\":1}",
    ),
    (&[], &[0], 'k', ""),
];

fn comes_to(
    alloc: Global,
    body: &[u8],
    fail: &[u64],
    kind: char,
    text: &'static str,
) -> Result<bool, Fail> {
    let mut stores = stores_of(alloc, body, fail)?;
    takes(alloc, &mut stores, &Step(7, "g:a:1", "", kind, text))
}

#[test]
fn refuses_stores(rt: HostRuntime) -> Result<(), Fail> {
    for (n, (body, fail, kind, text)) in STORES.iter().enumerate() {
        assert!(rt; comes_to(rt.alloc(), body, fail, *kind, text)?, "store {n}");
    }
    Ok(())
}

// A program, the interface by which it logs, and what stands behind it.
const LOGGING: &[Step] = &[
    Step(
        1,
        "shop:app:1",
        "class shop/Main static main([Ljava/lang/String;)V [ static log/Factory.get()Llog/Logger; \
         interface log/Logger.info(Ljava/lang/String;)V ]",
        'a',
        "{\"at\":1,\"entry\":1,\"outcome\":\"entered\"}",
    ),
    Step(
        2,
        "log:api:1",
        "interface log/Logger abs info(Ljava/lang/String;)V \
         class log/Factory static get()Llog/Logger; [ static log/Binder.get()Llog/Logger; ]",
        'a',
        "{\"at\":2,\"entry\":2,\"outcome\":\"entered\"}",
    ),
    Step(
        3,
        "log:impl:1",
        "class log/Binder static get()Llog/Logger; [ new impl/Simple special impl/Simple.<init>()V ] \
         class impl/Simple implements log/Logger pub <init>()V [ special java/lang/Object.<init>()V ] \
         pub info(Ljava/lang/String;)V [ static impl/Out.write(Ljava/lang/String;)V ] \
         class impl/Out static write(Ljava/lang/String;)V",
        'a',
        "{\"at\":3,\"entry\":3,\"outcome\":\"entered\"}",
    ),
];

// The releases of a query, its part, the first row, how many, the least length of the log, and what it comes to.
#[derive(Drop)]
struct Asked(
    &'static [&'static str],
    Page,
    u64,
    u32,
    u64,
    char,
    &'static str,
);

const SET: &[&str] = &["shop:app:1", "log:api:1", "log:impl:1"];

const ASKED: &[Asked] = &[
    Asked(
        SET,
        Page::Edges,
        0,
        100_000,
        0,
        'a',
        "{\"at\":3,\"edges\":5,\"failed\":0,\"from\":0,\"nodes\":7,\"part\":\"edges\",\"phantoms\":1,\"rows\":[[0,2],[0,5],[2,3],[3,4],[5,6]]}",
    ),
    Asked(
        SET,
        Page::Edges,
        3,
        1,
        3,
        'a',
        "{\"at\":3,\"edges\":5,\"failed\":0,\"from\":3,\"nodes\":7,\"part\":\"edges\",\"phantoms\":1,\"rows\":[[3,4]]}",
    ),
    Asked(
        SET,
        Page::Edges,
        5,
        9,
        0,
        'a',
        "{\"at\":3,\"edges\":5,\"failed\":0,\"from\":5,\"nodes\":7,\"part\":\"edges\",\"phantoms\":1,\"rows\":[]}",
    ),
    Asked(
        SET,
        Page::Nodes,
        4,
        1,
        0,
        'a',
        "{\"at\":3,\"edges\":5,\"failed\":0,\"from\":4,\"nodes\":7,\"part\":\"nodes\",\"phantoms\":1,\"rows\":[\"fasten://mvn!log:impl$1/impl/Simple.%3Cinit%3E()V\"]}",
    ),
    Asked(
        SET,
        Page::Edges,
        0,
        1,
        4,
        'r',
        "{\"at\":3,\"fault\":\"Behind\"}",
    ),
    Asked(
        &["log:api:1", "log:api:2"],
        Page::Edges,
        0,
        1,
        0,
        'r',
        "{\"at\":3,\"coordinate\":\"log:api:2\",\"fault\":\"AbsentRelease\"}",
    ),
    Asked(
        &[],
        Page::Edges,
        0,
        1,
        0,
        'a',
        "{\"at\":3,\"edges\":0,\"failed\":0,\"from\":0,\"nodes\":0,\"part\":\"edges\",\"phantoms\":0,\"rows\":[]}",
    ),
];

fn query_of(alloc: Global, asked: &Asked) -> Result<Query, Fail> {
    let mut releases = Vec::new(alloc);
    for text in asked.0 {
        releases.push(coordinate_of(alloc, text)?)?;
    }
    Ok(Query::Graph(GraphQuery {
        releases: Set::from(releases),
        part: asked.1,
        from: asked.2,
        count: asked.3,
        min: asked.4,
    }))
}

fn ask_with<L: Ledger>(
    alloc: Global,
    stores: &mut MemoryStores,
    query: &Query,
    blank: Blank,
) -> Outcome
    requires one { (blank.parts ≡ L.parts) × (0 < blank.parts) }
    requires name { blank.name ≡ L.name }
{
    let mut steps = Steps::<L>::open(blank);
    ask_once(alloc, stores, "store", query, &mut steps)
}

// What a query comes to, where no steps are counted.
fn ask(alloc: Global, stores: &mut MemoryStores, query: &Query) -> Outcome {
    ask_with::<Brand>(alloc, stores, query, Blank::new(1))
}

// How many of the queries come to that.
fn answered(alloc: Global, stores: &mut MemoryStores, all: &[Asked]) -> Result<usize, Fail> {
    for (n, asked) in all.iter().enumerate() {
        let query = query_of(alloc, asked)?;
        let outcome = ask(alloc, stores, &query);
        if !is_outcome(alloc, &outcome, asked.5, asked.6)? {
            return Ok(n);
        }
    }
    Ok(all.len())
}

#[test]
fn answers_queries(rt: HostRuntime) -> Result<(), Fail> {
    let mut stores = stores_of(rt.alloc(), &[], &[])?;
    let taken = taken(rt.alloc(), &mut stores, LOGGING)?;
    assert!(rt; taken == LOGGING.len(), "step {taken}");
    let answered = answered(rt.alloc(), &mut stores, ASKED)?;
    assert!(rt; answered == ASKED.len(), "query {answered}");
    Ok(())
}

#[test]
fn lists_releases(rt: HostRuntime) -> Result<(), Fail> {
    let mut stores = stores_of(rt.alloc(), &[], &[])?;
    let _ = taken(rt.alloc(), &mut stores, LOGGING)?;
    let outcome = ask(rt.alloc(), &mut stores, &Query::Releases);
    let text = "{\"at\":3,\"releases\":[\"log:api:1\",\"log:impl:1\",\"shop:app:1\"]}";
    assert!(rt; is_outcome(rt.alloc(), &outcome, 'a', text)?);
    Ok(())
}
