use fcg_join::{mark_firsts, number_names};
use std::test::Fail;

// Texts, the number of each, and of each number the places that may be given for it.
const NAMES: &[(&[&[u8]], &[u32], &[&[u32]])] = &[
    (&[], &[], &[]),
    (&[b""], &[0], &[&[0]]),
    (&[b"p/B", b"p/A", b"p/B"], &[1, 0, 1], &[&[1], &[0, 2]]),
    (&[b"p", b"p/A", b"p"], &[0, 1, 0], &[&[0, 2], &[1]]),
    // two tables, one after the other
    (
        &[b"", b"a", b"c", b"", b"b", b"c"],
        &[0, 1, 3, 0, 2, 3],
        &[&[0, 3], &[1], &[4], &[2, 5]],
    ),
    // bytes aren't signed
    (
        &[b"\xff", b"\x7f", b"\x00"],
        &[2, 1, 0],
        &[&[2], &[1], &[0]],
    ),
];

// Whether each place is one of those that may be given.
fn are_among(places: &[u32], allowed: &[&[u32]]) -> bool {
    places.len() == allowed.len()
        && places
            .iter()
            .zip(allowed)
            .all(|(place, given)| given.contains(place))
}

#[test]
fn numbers_names(rt: HostRuntime) -> Result<(), Fail> {
    for (texts, numbers, places) in NAMES {
        if texts.len() > 10 {
            return Err("no set has so many texts".into());
        }
        let found = number_names(rt.alloc(), texts)?;
        let given = found.numbers.as_slice() == *numbers;
        assert!(rt; given && are_among(&found.places, places), "{texts:?}");
    }
    Ok(())
}

#[test]
fn marks_firsts(rt: HostRuntime) -> Result<(), Fail> {
    let marks = mark_firsts(rt.alloc(), &[3, 0, 3, 1, 0, 2], 4)?;
    assert!(rt; marks.as_slice() == [true, true, false, true, false, true].as_slice());
    Ok(())
}
