use fcg_json::{Allow, FieldName, Reply, print_reply};
use fcg_views::{Coordinate, CoordinateFault, UriFault, UriRule};
use std::alloc::Global;
use std::test::Fail;

// Whether a reply is printed as a text.
fn prints(alloc: Global, reply: &Reply, text: &str) -> Result<bool, Fail> {
    Ok(print_reply(alloc, reply)?.as_slice() == text.as_bytes())
}

// The refusal of a name that has no field.
fn plain(name: &str) -> Option<Reply> {
    match name {
        "BadHead" => Some(Reply::BadHead),
        "BadLength" => Some(Reply::BadLength),
        "BadNumber" => Some(Reply::BadNumber),
        "NotJson" => Some(Reply::NotJson),
        "NoRoute" => Some(Reply::NoRoute),
        "NoLength" => Some(Reply::NoLength),
        "Jar" => Some(Reply::Jar),
        "Coded" => Some(Reply::Coded),
        "KeeperFailed" => Some(Reply::KeeperFailed),
        "NoMemory" => Some(Reply::NoMemory),
        "Absent" => Some(Reply::Absent),
        "TooLong" => Some(Reply::TooLong),
        "WrongMethod" => Some(Reply::WrongMethod { allow: Allow::Post }),
        _ => None,
    }
}

// Names of refusals without fields, and how each is printed.
const PLAIN: &[(&str, &str)] = &[
    ("BadHead", r#"{"fault":"BadHead"}"#),
    ("BadLength", r#"{"fault":"BadLength"}"#),
    ("BadNumber", r#"{"fault":"BadNumber"}"#),
    ("NotJson", r#"{"fault":"NotJson"}"#),
    ("NoRoute", r#"{"fault":"NoRoute"}"#),
    ("NoLength", r#"{"fault":"NoLength"}"#),
    ("Jar", r#"{"fault":"Jar"}"#),
    ("Coded", r#"{"fault":"Coded"}"#),
    ("KeeperFailed", r#"{"fault":"KeeperFailed"}"#),
    ("NoMemory", r#"{"fault":"NoMemory"}"#),
    ("Absent", r#"{"fault":"Absent"}"#),
    ("TooLong", r#"{"fault":"TooLong"}"#),
    ("WrongMethod", r#"{"fault":"WrongMethod"}"#),
];

#[test]
fn prints_refusals(rt: HostRuntime) -> Result<(), Fail> {
    for (name, text) in PLAIN {
        let reply = plain(name).ok_or("it is a refusal")?;
        assert!(rt; prints(rt.alloc(), &reply, text)?, "{text}");
    }
    Ok(())
}

// The refusal of a name with a number.
fn numbered(name: &str, number: u64) -> Option<Reply> {
    match name {
        "RequestClash" => Some(Reply::RequestClash { entry: number }),
        "Behind" => Some(Reply::Behind { at: number }),
        "StoreDiffers" => Some(Reply::StoreDiffers { seq: number }),
        "ReleaseTooLarge" => Some(Reply::ReleaseTooLarge { bytes: number }),
        "StoreFull" => Some(Reply::StoreFull { bytes: number }),
        "SetTooLarge" => Some(Reply::SetTooLarge { bytes: number }),
        "LogFull" => Some(Reply::LogFull { entries: number }),
        "GraphTooLarge" => Some(Reply::GraphTooLarge { limit: number }),
        "Sequence" => Some(Reply::Sequence { seq: number }),
        _ => None,
    }
}

// Names of refusals, their numbers, and how each is printed.
const NUMBERED: &[(&str, u64, &str)] = &[
    ("RequestClash", 1, r#"{"entry":1,"fault":"RequestClash"}"#),
    ("Behind", 0, r#"{"at":0,"fault":"Behind"}"#),
    ("StoreDiffers", 3, r#"{"fault":"StoreDiffers","seq":3}"#),
    (
        "ReleaseTooLarge",
        72_108_318,
        r#"{"bytes":72108318,"fault":"ReleaseTooLarge"}"#,
    ),
    (
        "StoreFull",
        1_073_741_825,
        r#"{"bytes":1073741825,"fault":"StoreFull"}"#,
    ),
    (
        "SetTooLarge",
        327_765_090,
        r#"{"bytes":327765090,"fault":"SetTooLarge"}"#,
    ),
    (
        "LogFull",
        1_000_000,
        r#"{"entries":1000000,"fault":"LogFull"}"#,
    ),
    (
        "GraphTooLarge",
        32_000_000,
        r#"{"fault":"GraphTooLarge","limit":32000000}"#,
    ),
    ("Sequence", 2, r#"{"fault":"Sequence","seq":2}"#),
];

#[test]
fn prints_numbers(rt: HostRuntime) -> Result<(), Fail> {
    for (name, number, text) in NUMBERED {
        let reply = numbered(name, *number).ok_or("it is a refusal")?;
        assert!(rt; prints(rt.alloc(), &reply, text)?, "{text}");
    }
    Ok(())
}

#[test]
fn prints_short_numbers(rt: HostRuntime) -> Result<(), Fail> {
    let alloc = rt.alloc();
    let many = r#"{"count":513,"fault":"TooManyReleases"}"#;
    let long = r#"{"fault":"BodyTooLong","limit":67108864}"#;
    let path = r#"{"entry":2,"fault":"BadPath"}"#;
    assert!(rt; prints(alloc, &Reply::TooManyReleases { count: 513 }, many)?);
    assert!(rt; prints(alloc, &Reply::BodyTooLong { limit: 67_108_864 }, long)?);
    assert!(rt; prints(alloc, &Reply::BadPath { entry: 2 }, path)?);
    Ok(())
}

// Fields, and how a query is refused that lacks one and that has a bad one.
const FIELDS: &[(FieldName, &str, &str)] = &[
    (
        FieldName::Body,
        r#"{"fault":"MissingField","name":"body"}"#,
        r#"{"fault":"BadField","name":"body"}"#,
    ),
    (
        FieldName::Releases,
        r#"{"fault":"MissingField","name":"releases"}"#,
        r#"{"fault":"BadField","name":"releases"}"#,
    ),
    (
        FieldName::Target,
        r#"{"fault":"MissingField","name":"target"}"#,
        r#"{"fault":"BadField","name":"target"}"#,
    ),
    (
        FieldName::Part,
        r#"{"fault":"MissingField","name":"part"}"#,
        r#"{"fault":"BadField","name":"part"}"#,
    ),
    (
        FieldName::From,
        r#"{"fault":"MissingField","name":"from"}"#,
        r#"{"fault":"BadField","name":"from"}"#,
    ),
    (
        FieldName::Count,
        r#"{"fault":"MissingField","name":"count"}"#,
        r#"{"fault":"BadField","name":"count"}"#,
    ),
    (
        FieldName::Min,
        r#"{"fault":"MissingField","name":"min"}"#,
        r#"{"fault":"BadField","name":"min"}"#,
    ),
];

#[test]
fn prints_fields(rt: HostRuntime) -> Result<(), Fail> {
    for (name, missing, bad) in FIELDS {
        assert!(rt;
            prints(rt.alloc(), &Reply::MissingField { name: *name }, missing)?,
            "{missing}"
        );
        assert!(rt;
            prints(rt.alloc(), &Reply::BadField { name: *name }, bad)?,
            "{bad}"
        );
    }
    Ok(())
}

// Places of texts that are no coordinates, their faults, and how each is printed.
const COORDINATES: &[(u32, CoordinateFault, &str)] = &[
    (
        0,
        CoordinateFault::Colons,
        r#"{"fault":"BadCoordinate","index":0,"offset":0,"rule":"Colons"}"#,
    ),
    (
        0,
        CoordinateFault::BadByte { offset: 3 },
        r#"{"fault":"BadCoordinate","index":0,"offset":3,"rule":"BadByte"}"#,
    ),
    (
        7,
        CoordinateFault::EmptyPart,
        r#"{"fault":"BadCoordinate","index":7,"offset":0,"rule":"EmptyPart"}"#,
    ),
    (
        511,
        CoordinateFault::TooLong,
        r#"{"fault":"BadCoordinate","index":511,"offset":0,"rule":"TooLong"}"#,
    ),
];

#[test]
fn prints_coordinate_faults(rt: HostRuntime) -> Result<(), Fail> {
    for (index, fault, text) in COORDINATES {
        let reply = Reply::BadCoordinate {
            index: *index,
            fault: *fault,
        };
        assert!(rt; prints(rt.alloc(), &reply, text)?, "{text}");
    }
    Ok(())
}

// Places and rules that texts break as URIs, and how each is printed.
const URIS: &[(u32, UriRule, &str)] = &[
    (
        0,
        UriRule::Scheme,
        r#"{"fault":"BadUri","offset":0,"rule":"Scheme"}"#,
    ),
    (
        13,
        UriRule::Coordinate,
        r#"{"fault":"BadUri","offset":13,"rule":"Coordinate"}"#,
    ),
    (
        19,
        UriRule::Shape,
        r#"{"fault":"BadUri","offset":19,"rule":"Shape"}"#,
    ),
    (
        23,
        UriRule::Escape,
        r#"{"fault":"BadUri","offset":23,"rule":"Escape"}"#,
    ),
    (
        24,
        UriRule::Descriptor,
        r#"{"fault":"BadUri","offset":24,"rule":"Descriptor"}"#,
    ),
];

#[test]
fn prints_uri_faults(rt: HostRuntime) -> Result<(), Fail> {
    for (offset, rule, text) in URIS {
        let fault = UriFault {
            offset: *offset,
            rule: *rule,
        };
        assert!(rt;
            prints(rt.alloc(), &Reply::BadUri { fault }, text)?,
            "{text}"
        );
    }
    Ok(())
}

// Numbers of rules of bundles, and how each is printed: the first, the last, and none.
const BUNDLES: &[(u8, &str)] = &[
    (
        1,
        r#"{"entry":3,"fault":"BadBundle","offset":70,"rule":"Magic"}"#,
    ),
    (
        4,
        r#"{"entry":3,"fault":"BadBundle","offset":70,"rule":"Path"}"#,
    ),
    (
        6,
        r#"{"entry":3,"fault":"BadBundle","offset":70,"rule":"ManySites"}"#,
    ),
    (
        7,
        r#"{"entry":3,"fault":"BadBundle","offset":70,"rule":""}"#,
    ),
];

#[test]
fn prints_rules_of_bundles(rt: HostRuntime) -> Result<(), Fail> {
    for (rule, text) in BUNDLES {
        let reply = Reply::BadBundle {
            entry: 3,
            offset: 70,
            rule: *rule,
        };
        assert!(rt; prints(rt.alloc(), &reply, text)?, "{text}");
    }
    Ok(())
}

// Numbers of rules of class files, and how each is printed.
const CLASSES: &[(u8, &str)] = &[
    (
        0,
        r#"{"entry":1,"fault":"BadClass","index":9,"offset":53,"rule":""}"#,
    ),
    (
        7,
        r#"{"entry":1,"fault":"BadClass","index":9,"offset":53,"rule":"WrongKind"}"#,
    ),
    (
        18,
        r#"{"entry":1,"fault":"BadClass","index":9,"offset":53,"rule":"Trailing"}"#,
    ),
    (
        19,
        r#"{"entry":1,"fault":"BadClass","index":9,"offset":53,"rule":"ManySites"}"#,
    ),
    (
        255,
        r#"{"entry":1,"fault":"BadClass","index":9,"offset":53,"rule":""}"#,
    ),
];

#[test]
fn prints_rules_of_class_files(rt: HostRuntime) -> Result<(), Fail> {
    for (rule, text) in CLASSES {
        let reply = Reply::BadClass {
            entry: 1,
            index: 9,
            offset: 53,
            rule: *rule,
        };
        assert!(rt; prints(rt.alloc(), &reply, text)?, "{text}");
    }
    Ok(())
}

// Numbers of rules of records, and how each is printed.
const RECORDS: &[(u8, &str)] = &[
    (3, r#"{"fault":"BadRecord","rule":"Cut","seq":1}"#),
    (12, r#"{"fault":"BadRecord","rule":"Number","seq":1}"#),
    (15, r#"{"fault":"BadRecord","rule":"Command","seq":1}"#),
    (16, r#"{"fault":"BadRecord","rule":"","seq":1}"#),
];

#[test]
fn prints_rules_of_records(rt: HostRuntime) -> Result<(), Fail> {
    for (rule, text) in RECORDS {
        let reply = Reply::BadRecord {
            rule: *rule,
            seq: 1,
        };
        assert!(rt; prints(rt.alloc(), &reply, text)?, "{text}");
    }
    Ok(())
}

#[test]
fn prints_absent_releases(rt: HostRuntime) -> Result<(), Fail> {
    let coordinate = Coordinate::parse(rt.alloc(), b"g:a:1")
        .ok()
        .ok_or("it is a coordinate")?;
    let reply = Reply::AbsentRelease { at: 2, coordinate };
    let text = r#"{"at":2,"coordinate":"g:a:1","fault":"AbsentRelease"}"#;
    assert!(rt; prints(rt.alloc(), &reply, text)?);
    Ok(())
}

#[test]
fn lists_methods(rt: HostRuntime) -> Result<(), Fail> {
    assert!(rt; Allow::Get.text() == "GET" && Allow::Post.text() == "POST");
    assert!(rt; Allow::PutDelete.text() == "PUT, DELETE");
    Ok(())
}
