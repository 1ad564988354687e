//! What fields and methods declare (JVMS 4.5, 4.6).
ghost use Rattle.std.specs.Prelude.{◌≡◌, ◌≤◌, ◌+◌, length, OnOk, IfOk};
ghost use Rattle.fcg_grammar.specs.Reading.{seen};
ghost use Rattle.fcg_classfile.specs.Breaks.Members.{declared_at};
ghost use Rattle.fcg_reader.specs.Internal.Names.{is_of_kind};
ghost use Rattle.fcg_reader.specs.Internal.Members.{declared_of, AreTextsOf};

use crate::names::{ClassTexts, DescKind};
use crate::number::read_u2;
use crate::text::find_text;
use fcg_classfile::{ClassFault, ClassRule, fault_at};
use fcg_pool::Text;

/// What the row of a field or a method declares.
#[derive(Drop)]
pub struct Declared<'a> {
    pub flags: u16,
    pub name: Text<'a>,
    pub desc: Text<'a>,
}

/// The flags, the name and the descriptor of the field or the method that stands at a place; the descriptor is of the
/// given kind. An empty name is the fault `EmptyName` and another descriptor the fault `Descriptor`, each at the place
/// of its index. Takes constant time, but where a descriptor is needed for the first time: then it is read.
#[tactic(auto, unfolding(fcg_classfile::specs::Breaks::Members::declared_at))]
pub fn find_declared<'a>(
    names: &mut ClassTexts<'a>,
    kind: DescKind,
    at: usize,
) -> Result<Declared<'a>, ClassFault>
    requires { at ≤ length names.old.bytes }
    ensures value { seen declared_of result ≡ declared_at names.old (is_of_kind kind) at }
    ensures named { IfOk result (AreTextsOf names.old) }
    ensures inside { OnOk result (at + 6 ≤ length names.old.bytes) }
    ensures same { names.new ≡ names.old }
{
    let pool = names.pool();
    let flags = read_u2(pool.bytes(), at, 0)?;
    let name = find_text(pool, pool.bytes(), at + 2)?;
    if name.bytes.is_empty() {
        return Err(fault_at(at + 2, 0, ClassRule::EmptyName));
    }
    let desc = find_text(pool, pool.bytes(), at + 4)?;
    if !names.is_descriptor(kind, &desc) {
        return Err(fault_at(at + 4, 0, ClassRule::Descriptor));
    }
    Ok(Declared { flags, name, desc })
}
