use crate::commands::{
    Answer, CLASS, INTERFACE, Step, coordinate_of, keeper_of, office_over, take,
};
use crate::records::RECORD;
use fcg_book::{Ask, Book, Entry, Office};
use fcg_keeper::MemoryKeeper;
use fcg_partial::{Derived, Part};
use fcg_views::{Coordinate, Set};
use std::alloc::Global;
use std::test::Fail;

// A value that is made from any set.
#[derive(Drop)]
struct Nothing;

impl Derived for Nothing {
    ghost made_from = { λ _ _. Unit {0} };
}

// The first release is withdrawn, and of the others the later one by its text comes first.
const RELEASES: &[Step] = &[
    Step(7, "g:c:1", CLASS, Answer::Entered(1), 1),
    Step(8, "g:b:1", CLASS, Answer::Entered(2), 2),
    Step(9, "g:c:1", "", Answer::Entered(3), 3),
    Step(10, "g:a:1", INTERFACE, Answer::Entered(4), 4),
];

// An office whose keeper had these records, after steps that are answered so.
fn office_after(
    alloc: Global,
    rows: &[(u64, &[u8])],
    steps: &[Step],
) -> Result<Office<MemoryKeeper>, Fail> {
    let mut office = office_over(alloc, keeper_of(alloc, rows, &[])?)?;
    take(alloc, &mut office, steps)?;
    Ok(office)
}

// Adds an entry to a book.
fn post(book: &mut Book<Nothing>, entry: Entry) -> Result<(), Fail> {
    book.reserve(1).ok().ok_or("no memory")?;
    book.post(entry);
    Ok(())
}

// A book with the entries that an office has to give.
fn book_of(alloc: Global, steps: &[Step]) -> Result<Book<Nothing>, Fail> {
    let mut office = office_after(alloc, &[], steps)?;
    let mut book = Book::new(alloc).ok().ok_or("no memory")?;
    for _ in 0..office.len() {
        if let Some(entry) = office.fresh() {
            post(&mut book, entry)?;
        }
    }
    Ok(book)
}

// Whether coordinates have these texts.
fn are_named(coordinates: &[Coordinate], texts: &[&str]) -> bool {
    if coordinates.len() != texts.len() {
        return false;
    }
    for k in 0..texts.len() {
        if coordinates[k].text() != texts[k].as_bytes() {
            return false;
        }
    }
    true
}

// Whether a book has so many entries after steps, and these releases are live.
fn lists(alloc: Global, steps: &[Step], len: u64, releases: &[&str]) -> Result<bool, Fail> {
    let book = book_of(alloc, steps)?;
    let set = book.releases(alloc).ok().ok_or("no memory")?;
    Ok(book.len() == len && are_named(set.as_slice(), releases))
}

const WITHDRAWN: &[Step] = &[
    Step(7, "g:a:1", CLASS, Answer::Entered(1), 1),
    Step(9, "g:a:1", "", Answer::Entered(2), 2),
];

// Steps, and how many entries there are then and which releases are live.
const LISTS: &[(&[Step], u64, &[&str])] = &[
    (&[], 0, &[]),
    (RELEASES, 4, &["g:a:1", "g:b:1"]),
    (WITHDRAWN, 2, &[]),
];

#[test]
fn lists_releases(rt: HostRuntime) -> Result<(), Fail> {
    for (steps, len, releases) in LISTS {
        assert!(rt; lists(rt.alloc(), steps, *len, releases)?, "{releases:?}");
    }
    Ok(())
}

// Whether a part is a release.
fn is_part(part: &Part, text: &str) -> bool {
    let is_interface = part.graph.as_bytes() == &RECORD[22..];
    part.coordinate.text() == text.as_bytes() && is_interface == (text == "g:a:1")
}

// Whether parts are these releases.
fn are_parts(parts: &[Part], texts: &[&str]) -> bool {
    if parts.len() != texts.len() {
        return false;
    }
    for k in 0..texts.len() {
        if !is_part(&parts[k], texts[k]) {
            return false;
        }
    }
    true
}

fn set_of(alloc: Global, texts: &[&str]) -> Result<Set, Fail> {
    let mut releases = Vec::new(alloc);
    for text in texts {
        releases.push(coordinate_of(alloc, text)?)?;
    }
    Ok(Set::from(releases))
}

// Whether a book has the parts of a set, under these numbers.
fn has_parts(
    alloc: Global,
    book: &mut Book<Nothing>,
    set: &[&str],
    numbers: &[u64],
) -> Result<bool, Fail> {
    match book.ask(alloc, &set_of(alloc, set)?) {
        Ok(Ask::Parts { key, parts }) => {
            Ok(key.as_slice() == numbers && are_parts(parts.as_slice(), set))
        }
        _ => Ok(false),
    }
}

// Whether the release of a place is the first of a set that a book doesn't have.
fn is_absent(
    alloc: Global,
    book: &mut Book<Nothing>,
    set: &[&str],
    place: u32,
) -> Result<bool, Fail> {
    match book.ask(alloc, &set_of(alloc, set)?) {
        Ok(Ask::AbsentRelease { index }) => Ok(index == place),
        _ => Ok(false),
    }
}

// Whether a book answers a set of two releases of which one stands twice, one of none, and one whose second is the first
// that isn't live.
fn answers_three(alloc: Global, book: &mut Book<Nothing>) -> Result<bool, Fail> {
    let twice = has_parts(alloc, book, &["g:b:1", "g:a:1", "g:b:1"], &[2, 4, 2])?;
    let none = has_parts(alloc, book, &[], &[])?;
    let absent = is_absent(alloc, book, &["g:a:1", "g:c:1", "g:d:1"], 1)?;
    Ok(twice && none && absent)
}

// Whether a book with the releases does.
fn answers_all(alloc: Global) -> Result<bool, Fail> {
    let mut book = book_of(alloc, RELEASES)?;
    answers_three(alloc, &mut book)
}

#[test]
fn answers_sets(rt: HostRuntime) -> Result<(), Fail> {
    assert!(rt; answers_all(rt.alloc())?);
    Ok(())
}

// Whether an office has the entries of these requests to give, in this order, and then no more.
fn gives(office: &mut Office<MemoryKeeper>, requests: &[u64]) -> bool {
    for request in requests {
        match office.fresh() {
            Some(entry) if entry.request() == *request => {}
            _ => return false,
        }
    }
    office.fresh().is_none()
}

// What comes after an entry of the opening.
const LATER: &[Step] = &[
    Step(8, "g:a:1", CLASS, Answer::Entered(2), 2),
    Step(9, "g:a:1", "", Answer::Entered(3), 3),
];

// Whether an office over a record gives the entries after it.
fn gives_later(alloc: Global) -> Result<bool, Fail> {
    let mut office = office_after(alloc, &[(1, &RECORD)], LATER)?;
    Ok(gives(&mut office, &[8, 9]) && gives(&mut office, &[]))
}

#[test]
fn gives_later_entries(rt: HostRuntime) -> Result<(), Fail> {
    assert!(rt; gives_later(rt.alloc())?);
    Ok(())
}
