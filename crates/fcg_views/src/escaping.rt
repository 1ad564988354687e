//! Names in the texts that are printed.
ghost use Rattle.std.specs.Prelude.{◌≡◌, ◌++◌, OnOk, OnErr, IfOk, string_bytes};
ghost use Rattle.std.specs.List.{list_all};
ghost use Rattle.fcg_views.specs.Escape.{escaped, may_stand};

use crate::items::Bytes;
use crate::memory::NoMemory;
use percent_encoding::{AsciiSet, NON_ALPHANUMERIC, ascii_set, ascii_str, percent_encode};
use std::alloc::{AllocError, Global};

/// What a name is in the text that it stands in: this says which bytes stand as they are. Letters, digits, `_`, `-`
/// and `$` always do.
#[derive(Clone, Copy, Debug, PartialEq, Eq)]
pub enum Place {
    /// The name of a type, in which `/` stands too.
    Class,
    /// The name of a method or a field.
    Member,
    /// A descriptor, in which `/` `(` `)` `;` `[` stand too.
    Desc,
}

const MEMBER: AsciiSet = ascii_set!(NON_ALPHANUMERIC.remove(b'_').remove(b'-').remove(b'$'));

const CLASS: AsciiSet = ascii_set!(MEMBER.remove(b'/'));

const DESC: AsciiSet = ascii_set!(CLASS.remove(b'(').remove(b')').remove(b';').remove(b'['));

// Whether a byte stands as it is in the name of a type.
static STANDS_IN_CLASS: [bool; 256] = [
    false, false, false, false, false, false, false, false, false, false, false, false, false,
    false, false, false, false, false, false, false, false, false, false, false, false, false,
    false, false, false, false, false, false, false, false, false, false, true, false, false,
    false, false, false, false, false, false, true, false, true, true, true, true, true, true,
    true, true, true, true, true, false, false, false, false, false, false, false, true, true,
    true, true, true, true, true, true, true, true, true, true, true, true, true, true, true, true,
    true, true, true, true, true, true, true, true, false, false, false, false, true, false, true,
    true, true, true, true, true, true, true, true, true, true, true, true, true, true, true, true,
    true, true, true, true, true, true, true, true, true, false, false, false, false, false, false,
    false, false, false, false, false, false, false, false, false, false, false, false, false,
    false, false, false, false, false, false, false, false, false, false, false, false, false,
    false, false, false, false, false, false, false, false, false, false, false, false, false,
    false, false, false, false, false, false, false, false, false, false, false, false, false,
    false, false, false, false, false, false, false, false, false, false, false, false, false,
    false, false, false, false, false, false, false, false, false, false, false, false, false,
    false, false, false, false, false, false, false, false, false, false, false, false, false,
    false, false, false, false, false, false, false, false, false, false, false, false, false,
    false, false, false, false, false, false, false, false, false, false, false, false, false,
    false, false, false, false, false, false, false, false, false, false,
];

// Whether a byte stands as it is in the name of a method or a field.
static STANDS_IN_MEMBER: [bool; 256] = [
    false, false, false, false, false, false, false, false, false, false, false, false, false,
    false, false, false, false, false, false, false, false, false, false, false, false, false,
    false, false, false, false, false, false, false, false, false, false, true, false, false,
    false, false, false, false, false, false, true, false, false, true, true, true, true, true,
    true, true, true, true, true, false, false, false, false, false, false, false, true, true,
    true, true, true, true, true, true, true, true, true, true, true, true, true, true, true, true,
    true, true, true, true, true, true, true, true, false, false, false, false, true, false, true,
    true, true, true, true, true, true, true, true, true, true, true, true, true, true, true, true,
    true, true, true, true, true, true, true, true, true, false, false, false, false, false, false,
    false, false, false, false, false, false, false, false, false, false, false, false, false,
    false, false, false, false, false, false, false, false, false, false, false, false, false,
    false, false, false, false, false, false, false, false, false, false, false, false, false,
    false, false, false, false, false, false, false, false, false, false, false, false, false,
    false, false, false, false, false, false, false, false, false, false, false, false, false,
    false, false, false, false, false, false, false, false, false, false, false, false, false,
    false, false, false, false, false, false, false, false, false, false, false, false, false,
    false, false, false, false, false, false, false, false, false, false, false, false, false,
    false, false, false, false, false, false, false, false, false, false, false, false, false,
    false, false, false, false, false, false, false, false, false, false,
];

// Whether a byte stands as it is in a descriptor.
static STANDS_IN_DESC: [bool; 256] = [
    false, false, false, false, false, false, false, false, false, false, false, false, false,
    false, false, false, false, false, false, false, false, false, false, false, false, false,
    false, false, false, false, false, false, false, false, false, false, true, false, false,
    false, true, true, false, false, false, true, false, true, true, true, true, true, true, true,
    true, true, true, true, false, true, false, false, false, false, false, true, true, true, true,
    true, true, true, true, true, true, true, true, true, true, true, true, true, true, true, true,
    true, true, true, true, true, true, true, false, false, false, true, false, true, true, true,
    true, true, true, true, true, true, true, true, true, true, true, true, true, true, true, true,
    true, true, true, true, true, true, true, false, false, false, false, false, false, false,
    false, false, false, false, false, false, false, false, false, false, false, false, false,
    false, false, false, false, false, false, false, false, false, false, false, false, false,
    false, false, false, false, false, false, false, false, false, false, false, false, false,
    false, false, false, false, false, false, false, false, false, false, false, false, false,
    false, false, false, false, false, false, false, false, false, false, false, false, false,
    false, false, false, false, false, false, false, false, false, false, false, false, false,
    false, false, false, false, false, false, false, false, false, false, false, false, false,
    false, false, false, false, false, false, false, false, false, false, false, false, false,
    false, false, false, false, false, false, false, false, false, false, false, false, false,
    false, false, false, false, false, false, false, false, false,
];

impl Place {
    ghost use Rattle.fcg_views.specs.Internal.EscapeTables.{set_of, table_of};
    ghost use Rattle.fcg_views.specs.Escape.{others, may_stand};
    ghost use Rattle.std.specs.Prelude.{◌==◌};
    ghost use Rattle.std.specs.List.{list_any};

    // Whether a byte that is no letter and no digit stands as it is there.
    fn is_other(self, byte: u8) -> bool
        ensures { result ≡ list_any (λ c. c == byte) (others self) }
    {
        match self {
            Place::Class => b"_-$/".contains(&byte),
            Place::Member => b"_-$".contains(&byte),
            Place::Desc => b"_-$/();[".contains(&byte),
        }
    }

    /// Whether a byte stands as it is there.
    pub fn may_stand(self, byte: u8) -> bool
        ensures { result ≡ may_stand self byte }
    {
        byte.is_ascii_alphanumeric() || self.is_other(byte)
    }

    // By the byte, whether it stands as it is there.
    fn table(self) -> &'static [bool; 256]
        ensures { result.now ≡ table_of self }
    {
        match self {
            Place::Class => &STANDS_IN_CLASS,
            Place::Member => &STANDS_IN_MEMBER,
            Place::Desc => &STANDS_IN_DESC,
        }
    }

    // The bytes that are escaped there.
    fn set(self) -> AsciiSet
        ensures { result ≡ set_of self }
    {
        match self {
            Place::Class => CLASS,
            Place::Member => MEMBER,
            Place::Desc => DESC,
        }
    }
}

// Whether each byte stands as it is there.
fn all_stand(bytes: &[u8], place: Place) -> bool
    ensures { result ≡ list_all (may_stand place) bytes.now }
{
    let table = place.table();
    let mut all = true;
    for byte in bytes {
        all &= table[usize::from(*byte)];
    }
    all
}

/// Adds a name to a text. Each byte that may not stand is `%` and two upper-case hexadecimal digits. Takes the time
/// of one pass over the name. After an `Err` the text is as it was.
pub fn push_escaped(out: &mut String, bytes: &[u8], place: Place) -> Result<(), AllocError>
    ensures ok { OnOk result (string_bytes out.new ≡ string_bytes out.old ++ escaped place bytes.now) }
    ensures err { OnErr result (string_bytes out.new ≡ string_bytes out.old) }
{
    // most names stand as they are, which a table tells in the fewest steps
    if all_stand(bytes, place) {
        return out.push_str(ascii_str(bytes));
    }
    percent_encode(bytes, place.set()).append_to(out)
}

/// The text of a name, as `push_escaped` adds it.
pub fn escape(alloc: Global, bytes: &[u8], place: Place) -> Result<Bytes, NoMemory>
    ensures { IfOk result (λ text. text ≡ escaped place bytes.now) }
{
    let mut text = String::new(alloc);
    push_escaped(&mut text, bytes, place)?;
    Ok(Bytes::from(text.into_bytes()))
}
