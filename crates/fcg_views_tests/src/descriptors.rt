use fcg_views::{DescFault, DescSpan, read_descriptor, read_field_descriptor};
use std::alloc::{AllocError, Global};
use std::test::Fail;

/// A text with one byte many times in its middle: its front, the byte, how often it stands there, and its back.
pub type Text = (&'static str, u8, usize, &'static str);

pub fn text_of(alloc: Global, text: &Text) -> Result<Vec<u8>, AllocError> {
    let (front, byte, count, back) = text;
    let middle = vec![in alloc; *byte; *count]?;
    [front.as_bytes(), middle.as_slice(), back.as_bytes()].concat(alloc)
}

fn is_read_as(
    alloc: Global,
    text: &Text,
    want: Result<DescSpan, DescFault>,
) -> Result<bool, AllocError> {
    let text = text_of(alloc, text)?;
    Ok(read_descriptor(&text) == want)
}

// The numbers are the parameters, their units and the place of the result.
const DESCRIPTORS: &[(Text, u16, u16, u32)] = &[
    (("()V", b'I', 0, ""), 0, 0, 2),
    (("(IJ[D)V", b'I', 0, ""), 3, 4, 6),
    (("(BCDFIJSZ)[Z", b'I', 0, ""), 8, 10, 10),
    (("(Lp/A;[[Lp/B;D)Lp/C;", b'I', 0, ""), 3, 4, 15),
    (("(La)b;)V", b'I', 0, ""), 1, 1, 7),
    (("(", b'[', 255, "I)V"), 1, 1, 258),
    (("()", b'[', 255, "I"), 0, 0, 2),
    (("(", b'I', 255, ")V"), 255, 255, 257),
    (("(", b'I', 253, "J)V"), 254, 255, 256),
];

#[test]
fn reads_descriptors(rt: HostRuntime) -> Result<(), Fail> {
    for (text, parameters, units, result_at) in DESCRIPTORS {
        let want = DescSpan {
            parameters: *parameters,
            units: *units,
            result_at: *result_at,
        };
        assert!(rt; is_read_as(rt.alloc(), text, Ok(want))?, "{text:?}");
    }
    Ok(())
}

// The number is the place of the fault.
const BROKEN: &[(Text, u32)] = &[
    (("", b'I', 0, ""), 0),
    (("(", b'I', 0, ""), 1),
    (("()", b'I', 0, ""), 2),
    (("(V)V", b'I', 0, ""), 1),
    (("(L;)V", b'I', 0, ""), 2),
    (("()VV", b'I', 0, ""), 3),
    (("()Lp/C", b'I', 0, ""), 6),
    (("()Lp/C;V", b'I', 0, ""), 7),
    (("(", b'I', 254, "J)V"), 255),
    (("(", b'I', 255, "["), 256),
    (("(", b'[', 256, "I)V"), 256),
    (("()", b'[', 256, "I"), 257),
];

#[test]
fn tells_where_descriptors_break(rt: HostRuntime) -> Result<(), Fail> {
    for (text, offset) in BROKEN {
        let want = Err(DescFault { offset: *offset });
        assert!(rt; is_read_as(rt.alloc(), text, want)?, "{text:?}");
    }
    Ok(())
}

// Where the text of a field's descriptor breaks, or nowhere.
const FIELDS: &[(Text, Option<u32>)] = &[
    (("B", b'[', 0, ""), None),
    (("C", b'[', 0, ""), None),
    (("D", b'[', 0, ""), None),
    (("F", b'[', 0, ""), None),
    (("I", b'[', 0, ""), None),
    (("J", b'[', 0, ""), None),
    (("S", b'[', 0, ""), None),
    (("Z", b'[', 0, ""), None),
    (("La;", b'[', 0, ""), None),
    (("[[I", b'[', 0, ""), None),
    (("", b'[', 255, "I"), None),
    (("", b'[', 0, ""), Some(0)),
    (("V", b'[', 0, ""), Some(0)),
    (("VI", b'[', 0, ""), Some(0)),
    (("X", b'[', 0, ""), Some(0)),
    (("(", b'[', 0, ""), Some(0)),
    (("L;", b'[', 0, ""), Some(1)),
    (("La", b'[', 0, ""), Some(2)),
    (("[", b'[', 0, ""), Some(1)),
    (("[V", b'[', 0, ""), Some(1)),
    (("II", b'[', 0, ""), Some(1)),
    (("", b'[', 256, "I"), Some(255)),
];

fn breaks_at(alloc: Global, text: &Text) -> Result<Option<u32>, AllocError> {
    let text = text_of(alloc, text)?;
    Ok(read_field_descriptor(&text).err().map(|fault| fault.offset))
}

#[test]
fn reads_field_descriptors(rt: HostRuntime) -> Result<(), Fail> {
    for (text, place) in FIELDS {
        assert!(rt; breaks_at(rt.alloc(), text)? == *place, "{text:?}");
    }
    Ok(())
}
