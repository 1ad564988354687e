use fcg_views::{Name, Place, escape, push_escaped};
use std::alloc::Global;
use std::collections::HashMap;
use std::test::Fail;

const NAME: &[u8] = b"azAZ09_-$./();[%<\x00 \xff";

const ESCAPED: &[(Place, &str)] = &[
    (Place::Class, "azAZ09_-$%2E/%28%29%3B%5B%25%3C%00%20%FF"),
    (Place::Member, "azAZ09_-$%2E%2F%28%29%3B%5B%25%3C%00%20%FF"),
    (Place::Desc, "azAZ09_-$%2E/();[%25%3C%00%20%FF"),
];

fn is_escaped(alloc: Global, place: Place, want: &str) -> Result<bool, Fail> {
    Ok(escape(alloc, NAME, place)?.as_slice() == want.as_bytes())
}

#[test]
fn escapes_names(rt: HostRuntime) -> Result<(), Fail> {
    for (place, want) in ESCAPED {
        assert!(rt; is_escaped(rt.alloc(), *place, want)?, "{want}");
    }
    Ok(())
}

// Names after one another in one text: one that stands as it is, and two with bytes that are escaped.
fn escaped_text(alloc: Global) -> Result<String, Fail> {
    let mut text = String::new(alloc);
    push_escaped(&mut text, b"p/A", Place::Class)?;
    push_escaped(&mut text, b"<init>", Place::Member)?;
    push_escaped(&mut text, b"(Lp/A;)Lp/\xc3\xa9;", Place::Desc)?;
    Ok(text)
}

#[test]
fn pushes_escaped_names(rt: HostRuntime) -> Result<(), Fail> {
    assert!(rt; escaped_text(rt.alloc())?.as_str() == "p/A%3Cinit%3E(Lp/A;)Lp/%C3%A9;");
    Ok(())
}

#[test]
fn keeps_names(rt: HostRuntime) -> Result<(), Fail> {
    let copy = Name::from_slice(rt.alloc(), b"<init>")?.clone()?;
    assert!(rt; copy.as_slice() == b"<init>".as_slice());
    Ok(())
}

// A part of the block `p/Abp/A`: where it begins and its length, and its bytes.
const PARTS: &[(u32, u32, &[u8])] = &[
    (0, 7, b"p/Abp/A"),
    (0, 3, b"p/A"),
    (4, 3, b"p/A"),
    (3, 1, b"b"),
    (7, 0, b""),
];

fn block(alloc: Global) -> Result<Name, Fail> {
    let name = Name::from_slice(alloc, b"p/Abp/A")?;
    Ok(name)
}

// A part of the block.
fn part_of(alloc: Global, begin: u32, len: u32) -> Result<Name, Fail> {
    let block = block(alloc)?;
    let all = block.as_slice().len();
    let (begin, len) = (begin as usize, len as usize);
    if begin > all || len > all - begin {
        return Err("it passes the block".into());
    }
    Ok(block.part(begin, len)?)
}

fn stands_at(name: &Name, begin: u32, len: u32, bytes: &[u8]) -> bool {
    name.place() == (begin, len) && name.as_slice() == bytes
}

#[test]
fn takes_parts_of_names(rt: HostRuntime) -> Result<(), Fail> {
    for (begin, len, bytes) in PARTS {
        let part = part_of(rt.alloc(), *begin, *len)?;
        assert!(rt; stands_at(&part, *begin, *len, bytes), "{begin}");
    }
    Ok(())
}

// Each part of a block as a key, and how often it was met.
fn count_parts(alloc: Global) -> Result<HashMap<Name, u32>, Fail> {
    let mut map = HashMap::new(alloc);
    for (begin, len, _) in PARTS {
        let count = map.entry(part_of(alloc, *begin, *len)?)?.or_insert(0u32);
        *count = count.saturating_add(1);
    }
    Ok(map)
}

// Parts of different blocks, and at different places.
#[test]
fn equal_names_are_one_key(rt: HostRuntime) -> Result<(), Fail> {
    let map = count_parts(rt.alloc())?;
    let key = Name::from_slice(rt.alloc(), b"p/A")?;
    assert!(rt; map.len() == 4 && map.get(&key) == Some(&2));
    Ok(())
}
