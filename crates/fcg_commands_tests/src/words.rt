use fcg_commands::{read_number, read_query};
use fcg_grammar::ReadError;
use fcg_json::{Page, print_reply};
use fcg_views::Bytes;
use std::alloc::Global;
use std::test::Fail;

// Words, and the numbers that they are.
const NUMBERS: &[(&str, Option<u64>)] = &[
    ("0", Some(0)),
    ("00000000000000000007", Some(7)),
    ("18446744073709551615", Some(u64::MAX)),
    ("18446744073709551616", None),
    ("000000000000000000007", None),
    ("", None),
    ("+7", None),
    ("-7", None),
    ("7 ", None),
];

#[test]
fn reads_numbers(rt: HostRuntime) -> Result<(), Fail> {
    for (word, number) in NUMBERS {
        assert!(rt; read_number(word) == *number, "the word {word}");
    }
    Ok(())
}

// The words of a part, a first row, how many, and a release, and why they are refused.
const REFUSED: &[(&str, &str, &str, &str, &str)] = &[
    (
        "edges",
        "0",
        "0",
        "g:i:1",
        "{\"fault\":\"BadField\",\"name\":\"count\"}",
    ),
    (
        "edges",
        "0",
        "100001",
        "g:i:1",
        "{\"fault\":\"BadField\",\"name\":\"count\"}",
    ),
    (
        "nodes",
        "0",
        "1001",
        "g:i:1",
        "{\"fault\":\"BadField\",\"name\":\"count\"}",
    ),
    (
        "nodes",
        "x",
        "0",
        "g:i:1",
        "{\"fault\":\"BadField\",\"name\":\"from\"}",
    ),
    (
        "node",
        "x",
        "0",
        "g:i:1",
        "{\"fault\":\"BadField\",\"name\":\"part\"}",
    ),
    (
        "node",
        "x",
        "0",
        "g:i",
        "{\"fault\":\"BadCoordinate\",\"index\":0,\"offset\":0,\"rule\":\"Colons\"}",
    ),
];

// What a query of one release is refused with.
fn refusal_of(
    alloc: Global,
    part: &str,
    from: &str,
    count: &str,
    release: &str,
) -> Result<Bytes, Fail> {
    let mut releases = Vec::new(alloc);
    releases.push(release.to_string(alloc)?)?;
    match read_query(alloc, part, from, count, &releases) {
        Err(ReadError::Fault(reply)) => Ok(print_reply(alloc, &reply).ok().ok_or("no memory")?),
        _ => Err("it is refused".into()),
    }
}

fn is_refused(alloc: Global, words: (&str, &str, &str, &str), text: &str) -> Result<bool, Fail> {
    let found = refusal_of(alloc, words.0, words.1, words.2, words.3)?;
    Ok(found.as_slice() == text.as_bytes())
}

#[test]
fn refuses_words(rt: HostRuntime) -> Result<(), Fail> {
    for (n, (part, from, count, release, text)) in REFUSED.iter().enumerate() {
        assert!(rt;
            is_refused(rt.alloc(), (part, from, count, release), text)?,
            "words {n}"
        );
    }
    Ok(())
}

// Whether the greatest page of nodes is asked for.
fn asks_for_nodes(alloc: Global) -> Result<bool, Fail> {
    let query = read_query(alloc, "nodes", "5", "1000", &[])
        .ok()
        .ok_or("it is a query")?;
    Ok(query.part == Page::Nodes && query.from == 5 && query.count == 1000 && query.min == 0)
}

#[test]
fn reads_words(rt: HostRuntime) -> Result<(), Fail> {
    assert!(rt; asks_for_nodes(rt.alloc())?);
    Ok(())
}
