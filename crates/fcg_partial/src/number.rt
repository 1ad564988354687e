//! Numbers and strings of bytes of a stored graph. What passes the end is cut, at its first byte.
ghost use Rattle.std.specs.Prelude.{◌≡◌, ◌≤◌, ◌+◌, length, OnOk};
ghost use Rattle.fcg_grammar.specs.Reading.{seen};
ghost use Rattle.fcg_partial.specs.Fault.{u1_at, u2_at, u4_at, part_at};

use crate::fault::{RecordFault, RecordRule, fault_at};

pub(crate) fn read_u1(bytes: &[u8], at: usize) -> Result<u8, RecordFault>
    requires { at ≤ length bytes.now }
    ensures value { result ≡ u1_at bytes.now at }
    ensures inside { OnOk result (at + 1 ≤ length bytes.now) }
{
    fcg_grammar::read_u1(bytes, at, fault_at(at, RecordRule::Cut))
}

pub(crate) fn read_u2(bytes: &[u8], at: usize) -> Result<u16, RecordFault>
    requires { at ≤ length bytes.now }
    ensures value { result ≡ u2_at bytes.now at }
    ensures inside { OnOk result (at + 2 ≤ length bytes.now) }
{
    fcg_grammar::read_u2(bytes, at, fault_at(at, RecordRule::Cut))
}

pub(crate) fn read_u4(bytes: &[u8], at: usize) -> Result<u32, RecordFault>
    requires { at ≤ length bytes.now }
    ensures value { result ≡ u4_at bytes.now at }
    ensures inside { OnOk result (at + 4 ≤ length bytes.now) }
{
    fcg_grammar::read_u4(bytes, at, fault_at(at, RecordRule::Cut))
}

pub(crate) fn read_part(bytes: &[u8], at: usize, n: usize) -> Result<&[u8], RecordFault>
    requires { at ≤ length bytes.now }
    ensures value { seen (λ part. part.now) result ≡ part_at bytes.now at n }
    ensures inside { OnOk result (at + n ≤ length bytes.now) }
{
    fcg_grammar::read_part(bytes, at, n, fault_at(at, RecordRule::Cut))
}
