//! URIs of methods.
ghost use Rattle.std.specs.Prelude.{◌≡◌, ◌++◌, ◌+◌, ◌<◌, ◌^◌, ℕ, List, length, OnOk, IfOk, IfSome, Result, Ok};
ghost use Rattle.std.specs.Option.{option_map};
ghost use Rattle.fcg_grammar.specs.Reading.{seen, Gives};
ghost use Rattle.fcg_views.specs.Coordinate.{IsCoordinate};
ghost use Rattle.fcg_views.specs.Escape.{escaped, unescaped};
ghost use Rattle.fcg_views.specs.Internal.UriParts.{desc_at, method_with};
ghost use Rattle.fcg_views.specs.Uri.{Spells, Names, uri_text, with_dollar, fault, after_scheme, at_escape, broken_coordinate, coordinate_in, part_to, method_of, member_at, uri_of};

use crate::coordinate::{Coordinate, CoordinateFault};
use crate::descriptor::read_descriptor;
use crate::escaping::{Place, escape};
use crate::items::Bytes;
use crate::memory::NoMemory;
use crate::name::Name;
use crate::parting::part_at;
use crate::unescaping::unescape;
use fcg_grammar::ReadError;
use std::alloc::{AllocError, Global};

// What each URI begins with.
const SCHEME: &[u8] = b"fasten://mvn!";

// The place of the coordinate.
const COORDINATE_AT: usize = 13;

/// A rule of method URIs that a text breaks.
#[derive(Clone, Copy, Debug, PartialEq, Eq)]
pub enum UriRule {
    /// The text doesn't begin with `fasten://mvn!`. The place is 0.
    Scheme,
    /// The bytes up to the first `/` aren't the group, `:`, the artifact, `$` and the version of a coordinate. The place
    /// is the coordinate's.
    Coordinate,
    /// No `/` ends the coordinate, no `.` the class or no `(` the name, and the place is the text's end; or the class or
    /// the name has no byte, and the place is its own.
    Shape,
    /// A byte of the class, the name or the descriptor neither stands as it is nor is the `%` of an escape of a byte
    /// that may not. The place is the byte's.
    Escape,
    /// The descriptor is outside the grammar of method descriptors (JVMS 4.3.3). The place is the descriptor's.
    Descriptor,
}

/// The first rule that is broken, in the order in which a method URI is read.
#[derive(Clone, Copy, Debug, PartialEq, Eq)]
pub struct UriFault {
    /// The place, in bytes from the text's start. A place that is too large is given as the last value.
    pub offset: u32,
    pub rule: UriRule,
}

impl From<UriFault> for ReadError<UriFault> {
    ghost use Rattle.fcg_grammar.specs.declared.error.ReadError.TheVariants as errors;

    ghost from_gives = { λ f e. e ≡ errors.Fault f };

    fn from(fault: UriFault) -> ReadError<UriFault> {
        ReadError::Fault(fault)
    }
}

/// What a method is named by: its release, its class, and its name and descriptor there.
#[derive(Drop, PartialEq)]
pub struct MethodUri {
    pub coordinate: Coordinate,
    /// The binary name of the class in its internal form, as `java/lang/Object`.
    pub class: Name,
    pub name: Name,
    /// The method descriptor (JVMS 4.3.3).
    pub desc: Name,
}

// What a URI says after its coordinate.
#[derive(Drop)]
struct Member {
    class: Name,
    name: Name,
    desc: Name,
}

// The fault at a place.
fn fault_at(at: usize, rule: UriRule) -> UriFault
    ensures { result ≡ fault at rule }
{
    UriFault {
        offset: u32::try_from(at).unwrap_or(u32::MAX),
        rule,
    }
}

// What follows the scheme, where a text begins with it.
fn after_scheme(text: &[u8]) -> Option<&[u8]>
    ensures value { option_map (λ rest. rest.now) result ≡ after_scheme text.now }
    ensures within { IfSome result (λ rest. 13 + length rest.now ≡ length text.now) }
{
    match text.strip_prefix(SCHEME) {
        Some(rest) => Some(rest),
        None => None,
    }
}

// What the URI is told of its coordinate.
fn tell(
    found: Result<Coordinate, ReadError<CoordinateFault>>,
) -> Result<Coordinate, ReadError<UriFault>>
    ensures { (read : Result (List ℕ) CoordinateFault) → Gives (λ c. c) found read → Gives (λ c. c) result (broken_coordinate read) }
{
    match found {
        Ok(coordinate) => Ok(coordinate),
        Err(ReadError::NoMemory) => Err(ReadError::NoMemory),
        Err(ReadError::Fault(_)) => {
            Err(ReadError::Fault(fault_at(COORDINATE_AT, UriRule::Coordinate)))
        }
    }
}

// The coordinate that stands in a URI as these bytes.
#[tactic(auto, unfolding(crate::specs::Uri::coordinate_in))]
fn read_coordinate(alloc: Global, text: &[u8]) -> Result<Coordinate, ReadError<UriFault>>
    ensures { Gives (λ c. c) result (coordinate_in text.now) }
{
    let (front, version) = part_at(text, b'$').ok_or(fault_at(COORDINATE_AT, UriRule::Coordinate))?;
    if version.contains(&b':') {
        return Err(ReadError::Fault(fault_at(COORDINATE_AT, UriRule::Coordinate)));
    }
    let mut joined = Vec::new(alloc);
    joined.extend_from_slice(front)?;
    joined.push(b':')?;
    joined.extend_from_slice(version)?;
    tell(Coordinate::parse(alloc, &joined))
}

// The part that goes up to a byte, and what follows that byte: it begins at a place of a text that has so many bytes.
#[tactic(auto, unfolding(crate::specs::Uri::part_to))]
fn read_part(byte: u8, end: usize, at: usize, rest: &[u8]) -> Result<(&[u8], &[u8]), UriFault>
    ensures value { seen (λ p. (p.0.now, p.1.now)) result ≡ part_to byte end at rest.now }
    ensures within { IfOk result (λ p. length p.0.now + 1 + length p.1.now ≡ length rest.now) }
{
    let (part, after) = part_at(rest, byte).ok_or(fault_at(end, UriRule::Shape))?;
    if part.is_empty() {
        return Err(fault_at(at, UriRule::Shape));
    }
    Ok((part, after))
}

// The name that a part of a URI is escaped from, which begins at a number.
fn read_name(
    alloc: Global,
    place: Place,
    text: &[u8],
    at: usize,
) -> Result<Name, ReadError<UriFault>>
    requires { at + length text.now < 2 ^ 64 }
    ensures { Gives (λ name. name) result (at_escape (unescaped place at text.now)) }
{
    match unescape(alloc, place, text, at) {
        Ok(bytes) => Ok(Name::from_slice(alloc, &bytes)?),
        Err(ReadError::NoMemory) => Err(ReadError::NoMemory),
        Err(ReadError::Fault(at)) => Err(ReadError::Fault(fault_at(at, UriRule::Escape))),
    }
}

// The descriptor that a part of a URI is escaped from, which begins at a number.
fn read_desc(alloc: Global, text: &[u8], at: usize) -> Result<Name, ReadError<UriFault>>
    requires { at + length text.now < 2 ^ 64 }
    ensures { Gives (λ desc. desc) result (desc_at at text.now) }
{
    let desc = read_name(alloc, Place::Desc, text, at)?;
    if read_descriptor(desc.as_slice()).is_err() {
        return Err(ReadError::Fault(fault_at(at, UriRule::Descriptor)));
    }
    Ok(desc)
}

// The class, the name and the descriptor of which these are the parts, escaped, where the class begins at a place.
#[tactic(auto, unfolding(crate::specs::Uri::method_of))]
fn read_parts(
    alloc: Global,
    at: usize,
    class: &[u8],
    name: &[u8],
    desc: &[u8],
) -> Result<Member, ReadError<UriFault>>
    requires { at + length class.now + 1 + length name.now + length desc.now < 2 ^ 64 }
    ensures { (coordinate : List ℕ) → Gives (method_with coordinate) result (method_of coordinate at class.now name.now desc.now) }
{
    let name_at = at + class.len() + 1;
    let desc_at = name_at + name.len();
    let class = read_name(alloc, Place::Class, class, at)?;
    let name = read_name(alloc, Place::Member, name, name_at)?;
    let desc = read_desc(alloc, desc, desc_at)?;
    Ok(Member { class, name, desc })
}

// What follows the coordinate, where the class begins at a place of a text that has so many bytes.
#[tactic(auto, unfolding(crate::specs::Uri::member_at))]
fn read_member(
    alloc: Global,
    end: usize,
    at: usize,
    rest: &[u8],
) -> Result<Member, ReadError<UriFault>>
    requires { at + length rest.now ≡ end }
    ensures { (coordinate : List ℕ) → Gives (method_with coordinate) result (member_at coordinate end at rest.now) }
{
    let (class, after) = read_part(b'.', end, at, rest)?;
    let (name, _) = read_part(b'(', end, at + class.len() + 1, after)?;
    let (_, desc) = after.split_at(name.len());
    read_parts(alloc, at, class, name, desc)
}

#[tactic(auto, unfolding(crate::specs::Uri::uri_of))]
fn read_uri(alloc: Global, text: &[u8]) -> Result<MethodUri, ReadError<UriFault>>
    ensures { Gives (λ u. u) result (uri_of text.now) }
{
    let rest = after_scheme(text).ok_or(fault_at(0, UriRule::Scheme))?;
    let (front, after) = part_at(rest, b'/').ok_or(fault_at(text.len(), UriRule::Shape))?;
    let coordinate = read_coordinate(alloc, front)?;
    let at = COORDINATE_AT + front.len() + 1;
    let Member { class, name, desc } = read_member(alloc, text.len(), at, after)?;
    Ok(MethodUri {
        coordinate,
        class,
        name,
        desc,
    })
}

// Adds a coordinate to a URI, with `$` in place of its second colon.
#[tactic(auto, unfolding(crate::specs::Uri::with_dollar))]
fn push_coordinate(out: &mut Vec<u8>, text: &[u8]) -> Result<(), AllocError>
    ensures { OnOk result (out.new.items ≡ out.old.items ++ with_dollar text.now) }
{
    let Some((group, rest)) = part_at(text, b':') else {
        return out.extend_from_slice(text);
    };
    out.extend_from_slice(group)?;
    out.push(b':')?;
    let Some((artifact, version)) = part_at(rest, b':') else {
        return out.extend_from_slice(rest);
    };
    out.extend_from_slice(artifact)?;
    out.push(b'$')?;
    out.extend_from_slice(version)
}

// Adds a name to a URI.
fn push_name(alloc: Global, out: &mut Vec<u8>, name: &Name, place: Place) -> Result<(), NoMemory>
    ensures { OnOk result (out.new.items ≡ out.old.items ++ escaped place name.now) }
{
    let text = escape(alloc, name.as_slice(), place)?;
    out.extend_from_slice(text.as_slice())?;
    Ok(())
}

#[tactic(auto, unfolding(crate::specs::Uri::uri_text))]
fn write_uri(alloc: Global, uri: &MethodUri) -> Result<Bytes, NoMemory>
    ensures exact { IfOk result (λ text. text ≡ uri_text uri.now) }
    ensures is { IfOk result (λ text. IsCoordinate uri.now.coordinate) }
{
    let mut text = Vec::new(alloc);
    text.extend_from_slice(SCHEME)?;
    push_coordinate(&mut text, uri.coordinate.text())?;
    text.push(b'/')?;
    push_name(alloc, &mut text, &uri.class, Place::Class)?;
    text.push(b'.')?;
    push_name(alloc, &mut text, &uri.name, Place::Member)?;
    push_name(alloc, &mut text, &uri.desc, Place::Desc)?;
    Ok(Bytes::from(text))
}

impl MethodUri {
    /// Reads a method URI: `fasten://mvn!`, the coordinate with `$` in place of its second colon, `/`, the class, `.`,
    /// the name and the descriptor. Letters and digits of ASCII and `_` `-` `$` stand as they are, in the class `/` too,
    /// in the descriptor `/` `(` `)` `;` `[` too. Each other byte is `%` and two upper-case hexadecimal digits.
    ///
    /// The error is the first fault: the scheme is looked at first, then whether a `/` ends the coordinate, the
    /// coordinate, whether the class and the name are ended and have a byte, the escapes from front to back, and last
    /// the descriptor. It is [`ReadError::NoMemory`] where memory ran out.
    ///
    /// It makes a few passes over the text, and copies what it keeps.
    pub fn parse(alloc: Global, text: &[u8]) -> Result<MethodUri, ReadError<UriFault>>
        // What is read is the URI of this method.
        ensures found { IfOk result (Names text.now) }
        // The URI of a method is read, unless memory runs out.
        ensures only { (u : MethodUri) → Names text.now u → Gives (λ v. v) result (Ok u) }
        // Which fault it is.
        ensures exact { Gives (λ u. u) result (uri_of text.now) }
    {
        read_uri(alloc, text)
    }

    /// The URI, as `parse` reads it where the class and the name have a byte and the descriptor is a method descriptor.
    /// Makes one pass over the names.
    pub fn print(&self, alloc: Global) -> Result<Bytes, NoMemory>
        ensures spelled { IfOk result (λ text. Spells text self.now) }
        ensures exact { IfOk result (λ text. text ≡ uri_text self.now) }
    {
        write_uri(alloc, self)
    }
}
