//! Numbers and strings of bytes of a constant pool. What passes the file's end is cut, at its first byte.
ghost use Rattle.std.specs.Prelude.{◌≡◌, ◌≤◌, ◌+◌, length, OnOk};
ghost use Rattle.fcg_grammar.specs.Reading.{seen};
ghost use Rattle.fcg_classfile.specs.Breaks.Pool.{u1_at, u2_at, part_at};

use fcg_classfile::{PoolFault, PoolRule, pool_fault_at};

pub fn read_u1(bytes: &[u8], at: usize) -> Result<u8, PoolFault>
    requires { at ≤ length bytes.now }
    ensures value { result ≡ u1_at bytes.now at }
    ensures inside { OnOk result (at + 1 ≤ length bytes.now) }
{
    fcg_grammar::read_u1(bytes, at, pool_fault_at(at, 0, PoolRule::Cut))
}

pub fn read_u2(bytes: &[u8], at: usize) -> Result<u16, PoolFault>
    requires { at ≤ length bytes.now }
    ensures value { result ≡ u2_at bytes.now at }
    ensures inside { OnOk result (at + 2 ≤ length bytes.now) }
{
    fcg_grammar::read_u2(bytes, at, pool_fault_at(at, 0, PoolRule::Cut))
}

pub fn read_part(bytes: &[u8], at: usize, n: usize) -> Result<&[u8], PoolFault>
    requires { at ≤ length bytes.now }
    ensures value { seen (λ part. part.now) result ≡ part_at bytes.now at n }
    ensures inside { OnOk result (at + n ≤ length bytes.now) }
{
    fcg_grammar::read_part(bytes, at, n, pool_fault_at(at, 0, PoolRule::Cut))
}
