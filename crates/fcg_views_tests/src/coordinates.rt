use crate::descriptors::{Text, text_of};
use fcg_grammar::ReadError;
use fcg_views::{Coordinate, CoordinateFault, Set};
use std::alloc::Global;
use std::collections::HashMap;
use std::test::Fail;

pub fn coordinate_of(alloc: Global, text: &[u8]) -> Result<Coordinate, Fail> {
    let coordinate = Coordinate::parse(alloc, text)
        .ok()
        .ok_or("it is a coordinate")?;
    Ok(coordinate)
}

const COORDINATES: &[Text] = &[
    ("g:a:1", b'v', 0, ""),
    ("org.slf4j:slf4j-api:2.0.9", b'v', 0, ""),
    ("A_z-0+9~:.:1.0-SNAPSHOT", b'v', 0, ""),
    ("g:a:", b'v', 251, ""),
];

fn is_kept(alloc: Global, text: &Text) -> Result<bool, Fail> {
    let text = text_of(alloc, text)?;
    Ok(coordinate_of(alloc, &text)?.text() == text.as_slice())
}

#[test]
fn reads_coordinates(rt: HostRuntime) -> Result<(), Fail> {
    for text in COORDINATES {
        assert!(rt; is_kept(rt.alloc(), text)?, "{text:?}");
    }
    Ok(())
}

// A text that breaks several rules has the first of them as its fault.
const BROKEN: &[(Text, CoordinateFault)] = &[
    (("", b'v', 0, ""), CoordinateFault::Colons),
    (("g:a", b'v', 0, ""), CoordinateFault::Colons),
    (("g:a:1:2", b'v', 0, ""), CoordinateFault::Colons),
    ((":::", b'v', 0, ""), CoordinateFault::Colons),
    (("::", b'v', 0, ""), CoordinateFault::EmptyPart),
    ((":a:1", b'v', 0, ""), CoordinateFault::EmptyPart),
    (("g::1", b'v', 0, ""), CoordinateFault::EmptyPart),
    (("g:a:", b'v', 0, ""), CoordinateFault::EmptyPart),
    (("%::1", b'v', 0, ""), CoordinateFault::EmptyPart),
    (
        ("g:a%zz:1", b'v', 0, ""),
        CoordinateFault::BadByte { offset: 3 },
    ),
    (
        ("$:a:1 ", b'v', 0, ""),
        CoordinateFault::BadByte { offset: 0 },
    ),
    (
        ("g:a:1/", b'v', 0, ""),
        CoordinateFault::BadByte { offset: 5 },
    ),
    (("g:a:", b'v', 250, "\u{e4}"), CoordinateFault::TooLong),
    (
        ("g:a:", b'v', 249, "\u{e4}"),
        CoordinateFault::BadByte { offset: 253 },
    ),
    (("g:a:", b'v', 252, ""), CoordinateFault::TooLong),
    (("", b':', 256, ""), CoordinateFault::TooLong),
];

fn has_fault(alloc: Global, text: &Text, want: CoordinateFault) -> Result<bool, Fail> {
    let text = text_of(alloc, text)?;
    let refused = Coordinate::parse(alloc, &text).err();
    Ok(refused == Some(ReadError::Fault(want)))
}

#[test]
fn tells_where_coordinates_break(rt: HostRuntime) -> Result<(), Fail> {
    for (text, fault) in BROKEN {
        assert!(rt; has_fault(rt.alloc(), text, *fault)?, "{text:?}");
    }
    Ok(())
}

fn set_of(alloc: Global, texts: &[&str]) -> Result<Set, Fail> {
    let mut releases = Vec::new(alloc);
    for text in texts {
        releases.push(coordinate_of(alloc, text.as_bytes())?)?;
    }
    Ok(Set::from(releases))
}

fn are_ordered(coordinates: &[Coordinate]) -> bool {
    match coordinates {
        [first, second, third] => first == third && second < first,
        _ => false,
    }
}

#[test]
fn keeps_sets(rt: HostRuntime) -> Result<(), Fail> {
    let set = set_of(rt.alloc(), &["g:b:1", "g:a:1", "g:b:1"])?;
    assert!(rt; set.clone()? == set);
    assert!(rt; are_ordered(set.as_slice()));
    assert!(rt; set.into_vec().len() == 3);
    Ok(())
}

// How many keys these coordinates are.
fn count_keys(alloc: Global, texts: &[&str]) -> Result<usize, Fail> {
    let mut map = HashMap::new(alloc);
    for text in texts {
        map.insert(coordinate_of(alloc, text.as_bytes())?, ())?;
    }
    Ok(map.len())
}

#[test]
fn equal_coordinates_are_one_key(rt: HostRuntime) -> Result<(), Fail> {
    let count = count_keys(rt.alloc(), &["g:a:1", "g:a:2", "g:b:1", "g:a:1"])?;
    assert!(rt; count == 3);
    Ok(())
}
