//! Names read back from the texts that they are escaped in.
ghost use Rattle.std.specs.Prelude.{◌≡◌, ◌+◌, ◌<◌, ◌≤◌, ◌^◌, length, IfSome};
ghost use Rattle.fcg_grammar.specs.Reading.{Gives};
ghost use Rattle.fcg_views.specs.Escape.{digit_of, byte_of, escaped_as, front, unescaped};

use crate::escaping::Place;
use fcg_grammar::ReadError;
use std::alloc::Global;

// The number of an upper-case hexadecimal digit.
fn digit_of(byte: u8) -> Option<u8>
    ensures value { result ≡ digit_of byte }
    ensures small { IfSome result (λ n. n < 16) }
{
    match byte {
        b'0'..=b'9' => Some(byte - b'0'),
        b'A'..=b'F' => Some(byte - 55),
        _ => None,
    }
}

// The byte that two digits name.
fn byte_of(high: u8, low: u8) -> Option<u8>
    ensures { result ≡ byte_of (digit_of high) (digit_of low) }
{
    let high = digit_of(high)?;
    let low = digit_of(low)?;
    Some(high * 16 + low)
}

// The byte that is escaped as these three.
fn escaped_as(place: Place, percent: u8, high: u8, low: u8) -> Option<u8>
    ensures { result ≡ escaped_as place percent high low }
{
    if percent != b'%' {
        return None;
    }
    let byte = byte_of(high, low)?;
    if place.may_stand(byte) {
        None
    } else {
        Some(byte)
    }
}

// The byte that a text begins with, and how many bytes of the text it takes; or none, where the first byte of the text
// breaks a rule.
fn front(place: Place, text: &[u8]) -> Option<(u8, usize)>
    ensures value { result ≡ front place text.now }
    ensures some { IfSome result (λ p. 0 < p.1) }
    ensures within { IfSome result (λ p. p.1 ≤ length text.now) }
{
    match text {
        [byte, ..] if place.may_stand(*byte) => Some((*byte, 1)),
        [percent, high, low, ..] => {
            let byte = escaped_as(place, *percent, *high, *low)?;
            Some((byte, 3))
        }
        _ => None,
    }
}

/// The name that a text is escaped from, where the text begins at a number. A fault is the number of the first byte
/// that breaks a rule: one that neither stands as it is at such a place, nor is the `%` of an escape of a byte that may
/// not. Takes one pass over the text.
pub fn unescape(
    alloc: Global,
    place: Place,
    text: &[u8],
    at: usize,
) -> Result<Vec<u8>, ReadError<usize>>
    requires { at + length text.now < 2 ^ 64 }
    ensures { Gives (λ bytes. bytes.items) result (unescaped place at text.now) }
{
    let mut bytes = Vec::new(alloc);
    let mut rest = text;
    let mut here = at;
    while !rest.is_empty() {
        let Some((byte, count)) = front(place, rest) else {
            return Err(ReadError::Fault(here));
        };
        bytes.push(byte)?;
        here += count;
        let (_, after) = rest.split_at(count);
        rest = after;
    }
    Ok(bytes)
}
