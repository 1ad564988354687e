//! Numbers and strings of bytes of a class file. What passes the file's end is cut, at its first byte; `index` is
//! the pool's index that is in hand, or 0.
ghost use Rattle.std.specs.Prelude.{◌≡◌, ◌≤◌, ◌+◌, length, OnOk};
ghost use Rattle.fcg_grammar.specs.Reading.{seen};
ghost use Rattle.fcg_classfile.specs.Breaks.Number.{u2_at, u4_at, part_at};

use fcg_classfile::{ClassFault, ClassRule, fault_at};

pub fn read_u2(bytes: &[u8], at: usize, index: u16) -> Result<u16, ClassFault>
    requires { at ≤ length bytes.now }
    ensures value { result ≡ u2_at bytes.now at index }
    ensures inside { OnOk result (at + 2 ≤ length bytes.now) }
{
    fcg_grammar::read_u2(bytes, at, fault_at(at, index, ClassRule::Cut))
}

pub fn read_u4(bytes: &[u8], at: usize, index: u16) -> Result<u32, ClassFault>
    requires { at ≤ length bytes.now }
    ensures value { result ≡ u4_at bytes.now at index }
    ensures inside { OnOk result (at + 4 ≤ length bytes.now) }
{
    fcg_grammar::read_u4(bytes, at, fault_at(at, index, ClassRule::Cut))
}

pub fn read_part(bytes: &[u8], at: usize, n: usize, index: u16) -> Result<&[u8], ClassFault>
    requires { at ≤ length bytes.now }
    ensures value { seen (λ part. part.now) result ≡ part_at bytes.now at n index }
    ensures inside { OnOk result (at + n ≤ length bytes.now) }
{
    fcg_grammar::read_part(bytes, at, n, fault_at(at, index, ClassRule::Cut))
}
