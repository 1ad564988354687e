//! Constants (JVMS 4.4.1 to 4.4.12). Nothing of them is copied.
ghost use Rattle.std.specs.Prelude.{◌≡◌, ◌≤◌, ◌<◌, ◌+◌, ℕ, List, length, slice_index, true, Some, IfOk};
ghost use Rattle.fcg_grammar.specs.Reading.{seen};
ghost use Rattle.fcg_grammar.specs.Number.{u2, part};
ghost use Rattle.fcg_classfile.specs.ClassFile as file;
ghost use Rattle.fcg_classfile.specs.ClassFile.{is_one_of, tag_of, is_wide};
ghost use Rattle.fcg_classfile.specs.Breaks.Pool.{shaped_at, constant_read, text_in, name_in, pair_in};
ghost use Rattle.fcg_pool.specs.Internal.Entry.{shape_if_any, entry_constant};
ghost use Rattle.fcg_pool.specs.Internal.Entry.{indexes_of};
ghost use Rattle.fcg_pool.specs.Internal.ConstantAt.{shaped_in, constant_in, ShapeLies, Lies};

use crate::check::is_one_of;
use crate::groups::find_bad_group;
use crate::number::{read_part, read_u1, read_u2};
use crate::pool::Indexes;
use fcg_classfile::{PoolFault, PoolRule, pool_fault_at};

/// What follows a tag: a length and a text, so many bytes, an index, two indexes, or a reference kind and an index.
#[derive(Clone, Copy)]
pub enum Shape {
    Text,
    Bytes(u8),
    One,
    Two,
    Kinded,
}

/// A constant, by its tag and what follows.
#[derive(Clone, Copy)]
pub enum Entry<'a> {
    /// A text, which is modified UTF-8 (JVMS 4.4.7).
    Utf8(&'a [u8]),
    /// A number (JVMS 4.4.4, 4.4.5).
    Plain(u8, &'a [u8]),
    /// An index (JVMS 4.4.1, 4.4.3, 4.4.9, 4.4.11, 4.4.12).
    Named(u8, u16),
    /// Two indexes (JVMS 4.4.2, 4.4.6, 4.4.10).
    Pair(u8, u16, u16),
    /// A reference kind and an index (JVMS 4.4.8).
    Handle(u8, u16),
}

impl<'a> Entry<'a> {
    /// The tag.
    pub fn tag(self) -> u8
        ensures { result ≡ tag_of (entry_constant self.entry) }
    {
        match self {
            Entry::Utf8(_) => 1,
            Entry::Plain(tag, _) => tag,
            Entry::Named(tag, _) => tag,
            Entry::Pair(tag, _, _) => tag,
            Entry::Handle(_, _) => 15,
        }
    }

    /// Whether it is a Long or a Double, which take two indexes.
    pub fn is_wide(self) -> bool
        ensures { result ≡ is_wide (entry_constant self.entry) }
    {
        let tag = self.tag();
        tag == 5 || tag == 6
    }
}

// The shape of a tag that is in the table (JVMS 4.4, table 4.4-A).
fn shape_of(tag: u8) -> Option<Shape>
    ensures { shape_if_any result ≡ file.shape_of tag }
{
    match tag {
        1 => Some(Shape::Text),
        3 | 4 => Some(Shape::Bytes(4)),
        5 | 6 => Some(Shape::Bytes(8)),
        7 | 8 | 16 | 19 | 20 => Some(Shape::One),
        9 | 10 | 11 | 12 | 17 | 18 => Some(Shape::Two),
        15 => Some(Shape::Kinded),
        _ => None,
    }
}

#[tactic(auto, unfolding(fcg_classfile::specs::Breaks::Pool::shaped_at))]
fn read_text(bytes: &[u8], index: u16, at: usize) -> Result<(Entry<'_>, usize), PoolFault>
    requires { at < length bytes.now }
    ensures { seen (λ x. (entry_constant x.0, x.1)) result ≡ shaped_at bytes.now index at 1 (Some file.Text) }
{
    let len = usize::from(read_u2(bytes, at + 1)?);
    let text = read_part(bytes, at + 3, len)?;
    if let Some(group) = find_bad_group(text, at + 3) {
        return Err(pool_fault_at(group, index, PoolRule::BadUtf8));
    }
    Ok((Entry::Utf8(text), at + 3 + len))
}

#[tactic(auto, unfolding(fcg_classfile::specs::Breaks::Pool::shaped_at))]
fn read_plain(
    bytes: &[u8],
    index: u16,
    at: usize,
    tag: u8,
    n: u8,
) -> Result<(Entry<'_>, usize), PoolFault>
    requires { at < length bytes.now }
    ensures { seen (λ x. (entry_constant x.0, x.1)) result ≡ shaped_at bytes.now index at tag (Some (file.Bytes n)) }
{
    let read = read_part(bytes, at + 1, usize::from(n))?;
    Ok((Entry::Plain(tag, read), at + 1 + usize::from(n)))
}

#[tactic(auto, unfolding(fcg_classfile::specs::Breaks::Pool::shaped_at))]
fn read_named(bytes: &[u8], index: u16, at: usize, tag: u8) -> Result<(Entry<'_>, usize), PoolFault>
    requires { at < length bytes.now }
    ensures { seen (λ x. (entry_constant x.0, x.1)) result ≡ shaped_at bytes.now index at tag (Some file.One) }
{
    let i = read_u2(bytes, at + 1)?;
    Ok((Entry::Named(tag, i), at + 3))
}

#[tactic(auto, unfolding(fcg_classfile::specs::Breaks::Pool::shaped_at))]
fn read_pair(bytes: &[u8], index: u16, at: usize, tag: u8) -> Result<(Entry<'_>, usize), PoolFault>
    requires { at < length bytes.now }
    ensures { seen (λ x. (entry_constant x.0, x.1)) result ≡ shaped_at bytes.now index at tag (Some file.Two) }
{
    let i = read_u2(bytes, at + 1)?;
    let j = read_u2(bytes, at + 3)?;
    Ok((Entry::Pair(tag, i, j), at + 5))
}

#[tactic(auto, unfolding(fcg_classfile::specs::Breaks::Pool::shaped_at))]
fn read_handle(bytes: &[u8], index: u16, at: usize) -> Result<(Entry<'_>, usize), PoolFault>
    requires { at < length bytes.now }
    ensures { seen (λ x. (entry_constant x.0, x.1)) result ≡ shaped_at bytes.now index at 15 (Some file.Kinded) }
{
    let kind = read_u1(bytes, at + 1)?;
    let i = read_u2(bytes, at + 2)?;
    Ok((Entry::Handle(kind, i), at + 4))
}

#[tactic(auto, unfolding(fcg_classfile::specs::Breaks::Pool::shaped_at))]
fn read_shaped(
    bytes: &[u8],
    index: u16,
    at: usize,
    tag: u8,
    shape: Option<Shape>,
) -> Result<(Entry<'_>, usize), PoolFault>
    requires { at < length bytes.now }
    ensures { seen (λ x. (entry_constant x.0, x.1)) result ≡ shaped_at bytes.now index at tag (shape_if_any shape) }
{
    match shape {
        None => Err(pool_fault_at(at, index, PoolRule::BadTag)),
        Some(Shape::Text) => read_text(bytes, index, at),
        Some(Shape::Bytes(n)) => read_plain(bytes, index, at, tag, n),
        Some(Shape::One) => read_named(bytes, index, at, tag),
        Some(Shape::Two) => read_pair(bytes, index, at, tag),
        Some(Shape::Kinded) => read_handle(bytes, index, at),
    }
}

/// The constant whose tag stands at a place, and the place after it.
#[tactic(auto, unfolding(fcg_classfile::specs::Breaks::Pool::constant_read))]
pub fn read_constant(bytes: &[u8], index: u16, at: usize) -> Result<(Entry<'_>, usize), PoolFault>
    requires { at ≤ length bytes.now }
    ensures { seen (λ x. (entry_constant x.0, x.1)) result ≡ constant_read bytes.now index at }
{
    let tag = read_u1(bytes, at)?;
    read_shaped(bytes, index, at, tag, shape_of(tag))
}

/// The number of two bytes at a place.
pub fn u2_in(bytes: &[u8], at: usize) -> u16
    requires { at + 2 ≤ length bytes.now }
    ensures { result ≡ u2 bytes.now at }
{
    u16::from(bytes[at]) * 256 + u16::from(bytes[at + 1])
}

/// So many bytes from a place on.
pub fn part_in(bytes: &[u8], at: usize, n: usize) -> &[u8]
    requires { at + n ≤ length bytes.now }
    ensures { result.now ≡ part bytes.now at n }
{
    let (_, rest) = bytes.split_at(at);
    let (part, _) = rest.split_at(n);
    part
}

/// Where the text of the constant begins that stands at a place, which is a Utf8, and how many bytes it has.
#[tactic(auto, using(crate::proofs::StandingLemmas::text_room, crate::proofs::StandingLemmas::text_inside, crate::proofs::StandingLemmas::text_stands, crate::proofs::StandingLemmas::no_text))]
pub fn find_text(bytes: &[u8], at: usize) -> Result<(usize, usize), PoolRule>
    requires { Lies bytes.now at }
    ensures value { seen (λ x. part bytes.now x.0 x.1) result ≡ text_in (constant_in bytes.now at) }
    ensures inside { IfOk result (λ x. x.0 + x.1 ≤ length bytes.now) }
{
    if bytes[at] == 1 {
        Ok((at + 3, usize::from(u2_in(bytes, at + 1))))
    } else {
        Err(PoolRule::WrongKind)
    }
}

/// The index of the name of the constant that stands at a place, which is a Class.
#[tactic(auto, using(crate::proofs::StandingLemmas::name_room, crate::proofs::StandingLemmas::name_stands, crate::proofs::StandingLemmas::no_name))]
pub fn name_at(bytes: &[u8], at: usize) -> Result<u16, PoolRule>
    requires { Lies bytes.now at }
    ensures { result ≡ name_in (constant_in bytes.now at) }
{
    if bytes[at] == 7 {
        Ok(u2_in(bytes, at + 1))
    } else {
        Err(PoolRule::WrongKind)
    }
}

// The two indexes of a constant of a shape and of a tag.
#[tactic(auto, unfolding(crate::specs::Internal::ConstantAt::shaped_in, crate::specs::Internal::ConstantAt::ShapeLies))]
fn shaped_pair(bytes: &[u8], at: usize, tag: u8, shape: Option<Shape>) -> Result<Indexes, PoolRule>
    requires { ShapeLies bytes.now at (shape_if_any shape) }
    ensures { (tags : List ℕ) → is_one_of tags tag ≡ true → seen indexes_of result ≡ pair_in tags (shaped_in bytes.now at tag (shape_if_any shape)) }
{
    match shape {
        None => unreachable!(),
        Some(Shape::Two) => {
            let first = u2_in(bytes, at + 1);
            let second = u2_in(bytes, at + 3);
            Ok(Indexes { tag, first, second })
        }
        Some(_) => Err(PoolRule::WrongKind),
    }
}

/// The two indexes of the constant that stands at a place, which is of one of these tags.
#[tactic(auto, unfolding(crate::specs::Internal::ConstantAt::constant_in), using(crate::proofs::StandingLemmas::no_pair))]
pub fn pair_at(bytes: &[u8], at: usize, tags: &[u8]) -> Result<Indexes, PoolRule>
    requires { Lies bytes.now at }
    ensures { seen indexes_of result ≡ pair_in tags.now (constant_in bytes.now at) }
{
    let tag = bytes[at];
    if !is_one_of(tags, tag) {
        return Err(PoolRule::WrongKind);
    }
    shaped_pair(bytes, at, tag, shape_of(tag))
}

#[tactic(auto, unfolding(crate::specs::Internal::ConstantAt::shaped_in, crate::specs::Internal::ConstantAt::ShapeLies))]
fn find_shaped(bytes: &[u8], at: usize, tag: u8, shape: Option<Shape>) -> Entry<'_>
    requires { ShapeLies bytes.now at (shape_if_any shape) }
    ensures { entry_constant result ≡ shaped_in bytes.now at tag (shape_if_any shape) }
{
    match shape {
        None => unreachable!(),
        Some(Shape::Text) => {
            let len = usize::from(u2_in(bytes, at + 1));
            Entry::Utf8(part_in(bytes, at + 3, len))
        }
        Some(Shape::Bytes(n)) => Entry::Plain(tag, part_in(bytes, at + 1, usize::from(n))),
        Some(Shape::One) => Entry::Named(tag, u2_in(bytes, at + 1)),
        Some(Shape::Two) => Entry::Pair(tag, u2_in(bytes, at + 1), u2_in(bytes, at + 3)),
        Some(Shape::Kinded) => Entry::Handle(bytes[at + 1], u2_in(bytes, at + 2)),
    }
}

/// The tag of the constant that stands at a place.
#[tactic(auto, using(crate::proofs::StandingLemmas::tag_stands))]
pub fn find_tag(bytes: &[u8], at: usize) -> u8
    requires { Lies bytes.now at }
    ensures { result ≡ tag_of (constant_in bytes.now at) }
{
    bytes[at]
}

/// The constant that stands at a place.
#[tactic(auto, unfolding(crate::specs::Internal::ConstantAt::constant_in))]
pub fn find_constant(bytes: &[u8], at: usize) -> Entry<'_>
    requires { Lies bytes.now at }
    ensures { entry_constant result ≡ constant_in bytes.now at }
{
    let tag = bytes[at];
    find_shaped(bytes, at, tag, shape_of(tag))
}
