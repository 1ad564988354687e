//! Attributes (JVMS 4.7).
ghost use Rattle.std.specs.Prelude.{◌≡◌, ◌≤◌, ◌+◌, ℕ, length, IfOk};
ghost use Rattle.fcg_grammar.specs.Reading.{seen};
ghost use Rattle.fcg_grammar.specs.Rows.{rows, ended};
ghost use Rattle.fcg_classfile.specs.Breaks.Pool.{Entries};
ghost use Rattle.fcg_views.specs.Valid.{is_same};
ghost use Rattle.fcg_classfile.specs.Breaks.Attributes.{over, content_at, attribute_at, attributes_at};
ghost use Rattle.fcg_reader.specs.Internal.Attributes.{one_named};

use crate::number::{read_part, read_u2, read_u4};
use crate::text::find_text;
use fcg_classfile::{ClassFault, ClassRule, fault_at};
use fcg_pool::Pool;

// The place after the content of the attribute that stands at a place. The content's length, in bytes, stands behind
// the name; a content that passes the end of the bytes is the fault `Cut`.
#[tactic(auto, unfolding(fcg_classfile::specs::Breaks::Attributes::content_at))]
fn pass_content(bytes: &[u8], at: usize) -> Result<usize, ClassFault>
    requires { at + 2 ≤ length bytes.now }
    ensures value { (pool : Entries) → result ≡ content_at (over bytes.now pool) at }
    ensures inside { IfOk result (λ after. (at + 6 ≤ after) × (after ≤ length bytes.now)) }
{
    let len = read_u4(bytes, at + 2, 0)? as usize;
    read_part(bytes, at + 6, len, 0)?;
    Ok(at + 6 + len)
}

// The place after the attribute that stands at a place.
#[tactic(auto, unfolding(fcg_classfile::specs::Breaks::Attributes::attribute_at))]
fn pass_attribute(pool: &Pool<'_>, bytes: &[u8], at: usize) -> Result<usize, ClassFault>
    requires { at ≤ length bytes.now }
    ensures value { (k : ℕ) → seen (λ after. (tt, after)) result ≡ attribute_at (over bytes.now pool.now) k at }
    ensures inside { IfOk result (λ after. after ≤ length bytes.now) }
{
    find_text(pool, bytes, at)?;
    pass_content(bytes, at)
}

// The place after so many attributes.
fn pass_rows(pool: &Pool<'_>, bytes: &[u8], count: u16, at: usize) -> Result<usize, ClassFault>
    requires { at ≤ length bytes.now }
    ensures value { result ≡ ended (rows (attribute_at (over bytes.now pool.now)) count 0 at) }
    ensures inside { IfOk result (λ after. after ≤ length bytes.now) }
{
    let mut place = at;
    for _ in 0..count {
        place = pass_attribute(pool, bytes, place)?;
    }
    Ok(place)
}

/// The place after the attributes whose count stands at a place of some bytes of the file. They are passed over by
/// their lengths: each takes a few loads, whatever the length of its content.
#[tactic(auto, unfolding(fcg_classfile::specs::Breaks::Attributes::attributes_at))]
pub fn pass_attributes(pool: &Pool<'_>, bytes: &[u8], at: usize) -> Result<usize, ClassFault>
    requires { at ≤ length bytes.now }
    ensures value { result ≡ attributes_at (over bytes.now pool.now) at }
    ensures inside { IfOk result (λ after. after ≤ length bytes.now) }
{
    let count = read_u2(bytes, at, 0)?;
    pass_rows(pool, bytes, count, at + 2)
}

// Whether a name is a word.
fn is_same(name: &[u8], word: &[u8]) -> bool
    ensures { result ≡ is_same name.now word.now }
{
    name == word
}

/// Whether the attribute that stands at a place of some bytes of the file has the name `word`, and the place after its
/// content. `again` says that an attribute of this name stood before: then a second one is the fault `twice` at its
/// name. Its content, from six bytes after its place on, isn't looked at. Takes a few loads and a comparison of its
/// name.
#[tactic(auto, unfolding(crate::specs::Internal::Attributes::one_named))]
pub fn pass_named(
    pool: &Pool<'_>,
    bytes: &[u8],
    at: usize,
    word: &[u8],
    twice: ClassRule,
    again: bool,
) -> Result<(bool, usize), ClassFault>
    requires { at ≤ length bytes.now }
    ensures value { result ≡ one_named (over bytes.now pool.now) at word.now twice again }
    ensures inside { IfOk result (λ x. (at + 6 ≤ x.1) × (x.1 ≤ length bytes.now)) }
{
    let name = find_text(pool, bytes, at)?;
    let named = is_same(name.bytes, word);
    if named && again {
        return Err(fault_at(at, 0, twice));
    }
    let after = pass_content(bytes, at)?;
    Ok((named, after))
}
