use fcg_grammar::ReadError;
use fcg_views::{MethodUri, UriFault, UriRule};
use std::alloc::Global;
use std::test::Fail;

// Each is read with these parts, and printed as it was.
const URIS: &[(&str, &str, &str, &str, &str)] = &[
    ("fasten://mvn!g:a$1/p/A.m()V", "g:a:1", "p/A", "m", "()V"),
    (
        "fasten://mvn!g:a$1/p/A.%3Cinit%3E(I[Lp/B;)V",
        "g:a:1",
        "p/A",
        "<init>",
        "(I[Lp/B;)V",
    ),
    (
        "fasten://mvn!g.h:a_b$1.0-r+2~3/A$1.a-b_$9()J",
        "g.h:a_b:1.0-r+2~3",
        "A$1",
        "a-b_$9",
        "()J",
    ),
    (
        "fasten://mvn!g:a$1/p/%C3%84%2E.%2F%28%25(Lp/%E2%82%AC;)Lp/%3A;",
        "g:a:1",
        "p/\u{c4}.",
        "/(%",
        "(Lp/\u{20ac};)Lp/:;",
    ),
];

fn uri_of(alloc: Global, text: &str) -> Result<MethodUri, Fail> {
    let uri = MethodUri::parse(alloc, text.as_bytes())
        .ok()
        .ok_or("it is a URI")?;
    Ok(uri)
}

fn has_parts(uri: &MethodUri, coordinate: &str, class: &str, name: &str, desc: &str) -> bool {
    uri.coordinate.text() == coordinate.as_bytes()
        && uri.class.as_slice() == class.as_bytes()
        && uri.name.as_slice() == name.as_bytes()
        && uri.desc.as_slice() == desc.as_bytes()
}

fn is_printed(alloc: Global, uri: &MethodUri, text: &str) -> Result<bool, Fail> {
    Ok(uri.print(alloc)?.as_slice() == text.as_bytes())
}

#[test]
fn reads_and_prints_uris(rt: HostRuntime) -> Result<(), Fail> {
    for (text, coordinate, class, name, desc) in URIS {
        let uri = uri_of(rt.alloc(), text)?;
        let printed = is_printed(rt.alloc(), &uri, text)?;
        assert!(rt;
            printed && has_parts(&uri, coordinate, class, name, desc),
            "{text}"
        );
    }
    Ok(())
}

const BROKEN: &[(&str, u32, UriRule)] = &[
    ("x", 0, UriRule::Scheme),
    ("fasten://mvn", 0, UriRule::Scheme),
    ("Fasten://mvn!g:a$1/p/A.m()V", 0, UriRule::Scheme),
    ("fasten://mvn!", 13, UriRule::Shape),
    ("fasten://mvn!g:a$1", 18, UriRule::Shape),
    ("fasten://mvn!g:a:1/p/A.m()V", 13, UriRule::Coordinate),
    ("fasten://mvn!g$a$1/p/A.m()V", 13, UriRule::Coordinate),
    ("fasten://mvn!g$a:1/p/A.m()V", 13, UriRule::Coordinate),
    ("fasten://mvn!:a$1/", 13, UriRule::Coordinate),
    ("fasten://mvn!/.", 13, UriRule::Coordinate),
    ("fasten://mvn!g:a$1/.", 19, UriRule::Shape),
    ("fasten://mvn!g:a$1/p/A", 22, UriRule::Shape),
    ("fasten://mvn!g:a$1/p/A.", 23, UriRule::Shape),
    ("fasten://mvn!g:a$1/%.m", 22, UriRule::Shape),
    ("fasten://mvn!g:a$1/p/A.()V", 23, UriRule::Shape),
    ("fasten://mvn!g:a$1/p/A.%6d()V", 23, UriRule::Escape),
    ("fasten://mvn!g:a$1/p/A.%6D()V", 23, UriRule::Escape),
    ("fasten://mvn!g:a$1/p/A.a%3c()V", 24, UriRule::Escape),
    ("fasten://mvn!g:a$1/p/A.a%3()V", 24, UriRule::Escape),
    ("fasten://mvn!g:a$1/p/A.a/b()V", 24, UriRule::Escape),
    ("fasten://mvn!g:a$1/p%2FA.m()V", 20, UriRule::Escape),
    ("fasten://mvn!g:a$1/p/A.m(:)W", 25, UriRule::Escape),
    ("fasten://mvn!g:a$1/p/A.m()%", 26, UriRule::Escape),
    ("fasten://mvn!g:a$1/p/A.m()W", 24, UriRule::Descriptor),
    ("fasten://mvn!g:a$1/p/A.m()Lp/%3B", 29, UriRule::Escape),
];

fn has_fault(alloc: Global, text: &str, want: UriFault) -> bool {
    MethodUri::parse(alloc, text.as_bytes()).err() == Some(ReadError::Fault(want))
}

#[test]
fn tells_where_uris_break(rt: HostRuntime) -> Result<(), Fail> {
    for (text, offset, rule) in BROKEN {
        let want = UriFault {
            offset: *offset,
            rule: *rule,
        };
        assert!(rt; has_fault(rt.alloc(), text, want), "{text}");
    }
    Ok(())
}
