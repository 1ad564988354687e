use fcg_json::{CommandOutcome, NodeRows, Pairs, Reply, print_reply};
use fcg_views::{Coordinate, MethodUri, Set};
use std::alloc::Global;
use std::test::Fail;

// Whether a reply is printed as a text.
fn prints(alloc: Global, reply: &Reply, text: &str) -> Result<bool, Fail> {
    Ok(print_reply(alloc, reply)?.as_slice() == text.as_bytes())
}

// What became of a command, and how that is printed.
const COMMANDS: &[(u64, u64, CommandOutcome, &str)] = &[
    (
        1,
        1,
        CommandOutcome::Entered,
        r#"{"at":1,"entry":1,"outcome":"entered"}"#,
    ),
    (
        2,
        1,
        CommandOutcome::Repeated,
        r#"{"at":2,"entry":1,"outcome":"repeated"}"#,
    ),
    (
        1,
        1,
        CommandOutcome::Standing,
        r#"{"at":1,"entry":1,"outcome":"standing"}"#,
    ),
    (
        18_446_744_073_709_551_615,
        18_446_744_073_709_551_614,
        CommandOutcome::Entered,
        r#"{"at":18446744073709551615,"entry":18446744073709551614,"outcome":"entered"}"#,
    ),
];

#[test]
fn prints_commands(rt: HostRuntime) -> Result<(), Fail> {
    for (at, entry, outcome, text) in COMMANDS {
        let reply = Reply::Command {
            at: *at,
            entry: *entry,
            outcome: *outcome,
        };
        assert!(rt; prints(rt.alloc(), &reply, text)?, "{text}");
    }
    Ok(())
}

// The set of these releases.
fn set_of(alloc: Global, texts: &[&str]) -> Result<Set, Fail> {
    let mut releases = Vec::new(alloc);
    for text in texts {
        let release = Coordinate::parse(alloc, text.as_bytes())
            .ok()
            .ok_or("it is a coordinate")?;
        releases.push(release)?;
    }
    Ok(Set::from(releases))
}

// Releases, and how they are printed.
const RELEASES: &[(u64, &[&str], &str)] = &[
    (2, &[], r#"{"at":2,"releases":[]}"#),
    (1, &["g:a:1"], r#"{"at":1,"releases":["g:a:1"]}"#),
    (
        7,
        &["g.h:a_b:1.0-r+2~3", "g:a:1", "log:api:1"],
        r#"{"at":7,"releases":["g.h:a_b:1.0-r+2~3","g:a:1","log:api:1"]}"#,
    ),
];

#[test]
fn prints_releases(rt: HostRuntime) -> Result<(), Fail> {
    for (at, releases, text) in RELEASES {
        let reply = Reply::Releases {
            at: *at,
            releases: set_of(rt.alloc(), releases)?,
        };
        assert!(rt; prints(rt.alloc(), &reply, text)?, "{text}");
    }
    Ok(())
}

// A page of the edges of a graph, from the fourth on.
fn edges_page(
    alloc: Global,
    at: u64,
    nodes: u32,
    phantoms: u64,
    rows: &[(u32, u32)],
) -> Result<Reply, Fail> {
    let rows = Pairs::from(rows.to_vec(alloc)?);
    Ok(Reply::Edges {
        at,
        edges: 5,
        failed: 2,
        from: 3,
        nodes,
        phantoms,
        rows,
    })
}

// Pages of edges, and how they are printed.
const EDGES: &[(u64, u32, u64, &[(u32, u32)], &str)] = &[
    (
        1,
        0,
        0,
        &[],
        r#"{"at":1,"edges":5,"failed":2,"from":3,"nodes":0,"part":"edges","phantoms":0,"rows":[]}"#,
    ),
    (
        3,
        7,
        1,
        &[(0, 2)],
        r#"{"at":3,"edges":5,"failed":2,"from":3,"nodes":7,"part":"edges","phantoms":1,"rows":[[0,2]]}"#,
    ),
    (
        3,
        7,
        1,
        &[(0, 2), (0, 5), (2, 3), (3, 4), (5, 4_294_967_295)],
        r#"{"at":3,"edges":5,"failed":2,"from":3,"nodes":7,"part":"edges","phantoms":1,"rows":[[0,2],[0,5],[2,3],[3,4],[5,4294967295]]}"#,
    ),
];

#[test]
fn prints_edges(rt: HostRuntime) -> Result<(), Fail> {
    for (at, nodes, phantoms, rows, text) in EDGES {
        let reply = edges_page(rt.alloc(), *at, *nodes, *phantoms, rows)?;
        assert!(rt; prints(rt.alloc(), &reply, text)?, "{text}");
    }
    Ok(())
}

// The page of an empty set.
#[test]
fn prints_an_empty_page(rt: HostRuntime) -> Result<(), Fail> {
    let reply = Reply::Edges {
        at: 0,
        edges: 0,
        failed: 0,
        from: 0,
        nodes: 0,
        phantoms: 0,
        rows: Pairs::from(Vec::new(rt.alloc())),
    };
    let text =
        r#"{"at":0,"edges":0,"failed":0,"from":0,"nodes":0,"part":"edges","phantoms":0,"rows":[]}"#;
    assert!(rt; prints(rt.alloc(), &reply, text)? && text.len() == 86);
    Ok(())
}

// The methods of these URIs.
fn methods_of(alloc: Global, texts: &[&str]) -> Result<NodeRows, Fail> {
    let mut rows = Vec::new(alloc);
    for text in texts {
        let method = MethodUri::parse(alloc, text.as_bytes())
            .ok()
            .ok_or("it is a URI")?;
        rows.push(method)?;
    }
    Ok(NodeRows::from(rows))
}

// Pages of nodes from a row on, and how they are printed. No byte of a URI is escaped in JSON.
const NODES: &[(u64, &[&str], &str)] = &[
    (
        7,
        &[],
        r#"{"at":3,"edges":5,"failed":0,"from":7,"nodes":7,"part":"nodes","phantoms":1,"rows":[]}"#,
    ),
    (
        4,
        &["fasten://mvn!log:impl$1/impl/Simple.%3Cinit%3E()V"],
        r#"{"at":3,"edges":5,"failed":0,"from":4,"nodes":7,"part":"nodes","phantoms":1,"rows":["fasten://mvn!log:impl$1/impl/Simple.%3Cinit%3E()V"]}"#,
    ),
    (
        0,
        &[
            "fasten://mvn!g:a$1/p/A.%22%5C()V",
            "fasten://mvn!g:a$1/p/%C3%84%2E.m(Lp/%E2%82%AC;)V",
        ],
        r#"{"at":3,"edges":5,"failed":0,"from":0,"nodes":7,"part":"nodes","phantoms":1,"rows":["fasten://mvn!g:a$1/p/A.%22%5C()V","fasten://mvn!g:a$1/p/%C3%84%2E.m(Lp/%E2%82%AC;)V"]}"#,
    ),
];

#[test]
fn prints_nodes(rt: HostRuntime) -> Result<(), Fail> {
    for (from, methods, text) in NODES {
        let reply = Reply::Nodes {
            at: 3,
            edges: 5,
            failed: 0,
            from: *from,
            nodes: 7,
            phantoms: 1,
            rows: methods_of(rt.alloc(), methods)?,
        };
        assert!(rt; prints(rt.alloc(), &reply, text)?, "{text}");
    }
    Ok(())
}
