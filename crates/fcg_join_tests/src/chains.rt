use crate::sets::{Ask, holds};
use fcg_join::Joined;
use std::alloc::Global;
use std::fmt::Write;
use std::test::Fail;

const MANY: u32 = 10_000;

// Object, and so many types in a row, each of which has the one before above it, and the first the type of a name.
fn row_of(alloc: Global, kind: &str, link: &str, first: &str) -> Result<String, Fail> {
    let mut text = String::new(alloc);
    write!(text, "class java/lang/Object {kind} p/T0 {link} {first}")?;
    for number in 1..MANY {
        let before = number - 1;
        write!(text, " {kind} p/T{number} {link} p/T{before}")?;
    }
    Ok(text)
}

// Whether the last of a row is below the first and not the other way round, and the first has all of them below it.
fn is_row(alloc: Global, joined: &Joined) -> Result<bool, Fail> {
    let (Some(first), Some(last)) = (joined.find(b"p/T0"), joined.find(b"p/T9999")) else {
        return Ok(false);
    };
    let below = joined.at_or_below(last, b"p/T0") && !joined.at_or_below(first, b"p/T9999");
    let all = joined.below(alloc, b"p/T0").ok().ok_or("no memory")?.len();
    let half = joined
        .below(alloc, b"p/T5000")
        .ok()
        .ok_or("no memory")?
        .len();
    Ok(below && all == 10_000 && half == 5_000)
}

// Whether the types stand in a row, or are a circle of which none is known.
enum Kept {
    All,
    None,
}

impl Ask for Kept {
    fn holds(&self, alloc: Global, joined: &Joined) -> Result<bool, Fail> {
        match self {
            Kept::All => Ok(joined.type_count() == MANY + 1 && is_row(alloc, joined)?),
            Kept::None => Ok(joined.type_count() == 1),
        }
    }
}

#[test]
fn joins_long_chains(rt: HostRuntime) -> Result<(), Fail> {
    for (kind, link) in [("class", "extends"), ("interface", "implements")] {
        let text = row_of(rt.alloc(), kind, link, "java/lang/Object")?;
        let row = holds(rt.alloc(), &[("g:a:1", text.as_str())], &Kept::All)?;
        assert!(rt; row, "{kind}");
    }
    Ok(())
}

#[test]
fn drops_long_circles(rt: HostRuntime) -> Result<(), Fail> {
    for (kind, link) in [("class", "extends"), ("interface", "implements")] {
        let text = row_of(rt.alloc(), kind, link, "p/T9999")?;
        let circle = holds(rt.alloc(), &[("g:a:1", text.as_str())], &Kept::None)?;
        assert!(rt; circle, "{kind}");
    }
    Ok(())
}
