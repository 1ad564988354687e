//! Coordinates of releases.
ghost use Rattle.std.specs.Prelude.{◌≡◌, ◌≤◌, ◌<◌, nat_eq, length, IfOk, IfSome, IsOk, Ok};
ghost use Rattle.std.specs.List.{position};
ghost use Rattle.std.proofs.Common.{rules};
ghost use Rattle.std.specs.Cmp.{partial_order_from_own_ties};
ghost use Rattle.std.specs.Cmp.Rules.{comparing, hashing};
ghost use Rattle.std.specs.Cmp.Lexicographic.{pointwise, slice_cmp, nat_list_eq_equiv};
ghost use Rattle.std.specs.Ordering.{nat_cmp, as_partial_cmp};
ghost use Rattle.fcg_grammar.specs.Reading.{seen, Gives};
ghost use Rattle.fcg_views.specs.Coordinate.{IsCoordinate, is_part_byte, is_bad, has_byte, none_bad, coordinate_of};

use crate::name::Name;
use crate::parting::part_at;
use fcg_grammar::ReadError;
use std::alloc::{AllocError, Global};
use std::cmp::Ordering;
use std::hash::{Hash, Hasher};
use std::marker::Model;

// The most bytes of a coordinate.
const MOST: usize = 255;

/// A rule of coordinates that a text breaks. They are checked in this order: the length, the colons, the parts, the
/// bytes.
#[derive(Clone, Copy, Debug, PartialEq, Eq)]
pub enum CoordinateFault {
    /// There are fewer or more than two colons.
    Colons,
    /// A part has no byte.
    EmptyPart,
    /// A byte is no colon, and none that a part may have.
    BadByte {
        /// The place of the first such byte, in bytes from the text's start.
        offset: u32,
    },
    /// The text has more than 255 bytes.
    TooLong,
}

impl From<CoordinateFault> for ReadError<CoordinateFault> {
    ghost use Rattle.fcg_grammar.specs.declared.error.ReadError.TheVariants as errors;

    ghost from_gives = { λ f e. e ≡ errors.Fault f };

    fn from(fault: CoordinateFault) -> ReadError<CoordinateFault> {
        ReadError::Fault(fault)
    }
}

/// What a release is named by: a text `group:artifact:version` of at most 255 bytes. Each part has one or more bytes,
/// each a letter or a digit of ASCII or one of `.` `_` `-` `+` `~`.
///
/// A copy shares the text and takes no memory. Coordinates are equal where their texts are, and ordered by the bytes
/// of these.
#[derive(Drop)]
pub struct Coordinate {
    text: Name,
}

impl Model for Coordinate {
    ghost use Rattle.std.specs.Prelude.{ℕ, List};
    ghost use Rattle.fcg_views.specs.Coordinate.{IsCoordinate};

    ghost Value = { List ℕ };

    ghost view = { λ c. c.text };

    ghost invariant = { λ c. IsCoordinate c.text };
}

fn is_part_byte(byte: u8) -> bool
    ensures { result ≡ is_part_byte byte }
{
    byte.is_ascii_alphanumeric() || b"._-+~".contains(&byte)
}

// Whether a byte is neither in a part, nor between two.
fn is_bad(byte: u8) -> bool
    ensures { result ≡ is_bad byte }
{
    byte != b':' && !is_part_byte(byte)
}

fn find_bad_byte(text: &[u8]) -> Option<usize>
    ensures value { result ≡ position is_bad text.now }
    ensures within { IfSome result (λ at. at < length text.now) }
{
    text.iter().position(|byte| is_bad(*byte))
}

fn has_byte(part: &[u8]) -> bool
    ensures { result ≡ has_byte part.now }
{
    !part.is_empty()
}

// The first byte that may not stand in a text, where that isn't too long.
fn check_bytes(text: &[u8]) -> Result<(), CoordinateFault>
    requires { length text.now ≤ 255 }
    ensures { result ≡ none_bad (position is_bad text.now) }
{
    match find_bad_byte(text) {
        Some(at) => Err(CoordinateFault::BadByte { offset: at as u32 }),
        None => Ok(()),
    }
}

// The first rule that a text breaks, where it isn't too long.
#[tactic(auto, unfolding(crate::specs::Coordinate::coordinate_of))]
fn check_short(text: &[u8]) -> Result<(), CoordinateFault>
    requires { length text.now ≤ 255 }
    ensures { seen (λ _. text.now) result ≡ coordinate_of text.now }
{
    let (group, rest) = part_at(text, b':').ok_or(CoordinateFault::Colons)?;
    let (artifact, version) = part_at(rest, b':').ok_or(CoordinateFault::Colons)?;
    if version.contains(&b':') {
        return Err(CoordinateFault::Colons);
    }
    if !(has_byte(group) && has_byte(artifact) && has_byte(version)) {
        return Err(CoordinateFault::EmptyPart);
    }
    check_bytes(text)
}

// The first rule that a text breaks.
#[tactic(auto, unfolding(crate::specs::Coordinate::coordinate_of))]
fn check(text: &[u8]) -> Result<(), CoordinateFault>
    ensures { seen (λ _. text.now) result ≡ coordinate_of text.now }
{
    if text.len() > MOST {
        return Err(CoordinateFault::TooLong);
    }
    check_short(text)
}

impl Coordinate {
    /// Reads a coordinate. The error is the first rule that the text breaks, in the order that [`CoordinateFault`]
    /// says, or [`ReadError::NoMemory`] where memory ran out. The bytes are copied.
    ///
    /// A text of more than 255 bytes is refused by its length alone; any other is gone over a few times.
    pub fn parse(alloc: Global, text: &[u8]) -> Result<Coordinate, ReadError<CoordinateFault>>
        // What is read is a coordinate.
        ensures found { IsOk result → IsCoordinate text.now }
        // A coordinate is read, unless memory runs out.
        ensures only { IsCoordinate text.now → Gives (λ c. c) result (Ok text.now) }
        // Which fault it is.
        ensures exact { Gives (λ c. c) result (coordinate_of text.now) }
    {
        check(text)?;
        Ok(Coordinate {
            text: Name::from_slice(alloc, text)?,
        })
    }

    /// The text. Takes no memory.
    pub fn text(&self) -> &[u8]
        ensures bytes { result.now ≡ self.now }
        ensures is { IsCoordinate self.now }
    {
        self.text.as_slice()
    }
}

impl Clone for Coordinate {
    ghost is_clone = { λ coordinate copy. copy ≡ coordinate };

    fn clone(&self) -> Result<Coordinate, AllocError> {
        Ok(Coordinate {
            text: self.text.clone()?,
        })
    }
}

impl PartialEq for Coordinate {
    ghost eq = { pointwise nat_eq };

    ghost laws = { Prim.search (comparing, rules) };

    fn eq(&self, other: &Coordinate) -> bool {
        self.text == other.text
    }
}

impl Eq for Coordinate {
    ghost laws = { nat_list_eq_equiv };
}

impl PartialOrd for Coordinate {
    ghost partial_cmp = { as_partial_cmp (slice_cmp nat_cmp) };

    ghost laws = { partial_order_from_own_ties (Prim.search (comparing, rules)) (Prim.search (comparing, rules)) };

    fn partial_cmp(&self, other: &Coordinate) -> Option<Ordering> {
        Some(self.cmp(other))
    }
}

impl Ord for Coordinate {
    ghost cmp = { slice_cmp nat_cmp };

    ghost total = { Prim.search (comparing, rules) };

    ghost matches_partial_cmp = { Prim.search (comparing, rules) };

    ghost matches_eq = { Prim.search (comparing, rules) };

    fn cmp(&self, other: &Coordinate) -> Ordering {
        self.text.cmp(&other.text)
    }
}

impl Hash for Coordinate {
    ghost use Rattle.std.specs.Hash as fed;

    ghost hash_input = { fed.str };

    ghost respects_eq = { Prim.search (hashing, rules) };

    fn hash<H: Hasher>(&self, state: &mut H) {
        self.text.hash(state);
    }
}
