//! Texts that the items of a class file name.
ghost use Rattle.std.specs.Prelude.{◌≡◌, ◌≤◌, ◌+◌, length, OnOk, IfOk};
ghost use Rattle.fcg_grammar.specs.Reading.{seen};
ghost use Rattle.fcg_pool.specs.CodeValues.{IsTextOf};
ghost use Rattle.fcg_classfile.specs.Breaks.Names.{type_of};
ghost use Rattle.fcg_classfile.specs.Breaks.Attributes.{over, text_at};
ghost use Rattle.fcg_classfile.specs.Breaks.Class.{type_at};

use crate::number::read_u2;
use fcg_classfile::{ClassFault, ClassRule, at_index, fault_at};
use fcg_pool::{Pool, Text};

/// The text whose index stands at a place of some bytes of the file.
#[tactic(auto, using(crate::proofs::OverLemmas::text_over), unfolding(fcg_classfile::specs::Breaks::Attributes::text_at))]
pub fn find_text<'a>(pool: &Pool<'a>, bytes: &[u8], at: usize) -> Result<Text<'a>, ClassFault>
    requires { at ≤ length bytes.now }
    ensures value { seen (λ text. text.bytes.now) result ≡ text_at (over bytes.now pool.now) at }
    ensures named { IfOk result (IsTextOf pool.now) }
    ensures inside { OnOk result (at + 2 ≤ length bytes.now) }
{
    let index = read_u2(bytes, at, 0)?;
    at_index(at, index, pool.text(index))
}

/// The name of the type whose index stands at a place, which has a byte or more.
#[tactic(auto, unfolding(fcg_classfile::specs::Breaks::Class::type_at))]
pub fn find_type<'a>(pool: &Pool<'a>, at: usize) -> Result<Text<'a>, ClassFault>
    requires { at ≤ length pool.now.bytes }
    ensures value { seen (λ text. text.bytes.now) result ≡ type_at pool.now at }
    ensures named { IfOk result (IsTextOf pool.now) }
    ensures inside { OnOk result (at + 2 ≤ length pool.now.bytes) }
{
    let class = read_u2(pool.bytes(), at, 0)?;
    find_type_of(pool, at, class)
}

/// The name of the type that an index of a Class names, which has a byte or more. A fault is at the given place of the
/// file: of an index that names no Class it is `BadIndex` or `WrongKind`, of an empty name `EmptyName`.
#[tactic(auto, unfolding(fcg_classfile::specs::Breaks::Names::type_of))]
pub fn find_type_of<'a>(pool: &Pool<'a>, at: usize, class: u16) -> Result<Text<'a>, ClassFault>
    ensures value { seen (λ text. text.bytes.now) result ≡ type_of pool.now at class }
    ensures named { IfOk result (IsTextOf pool.now) }
{
    let index = at_index(at, class, pool.class_index(class))?;
    let text = at_index(at, class, pool.text(index))?;
    if text.bytes.is_empty() {
        return Err(fault_at(at, 0, ClassRule::EmptyName));
    }
    Ok(text)
}
