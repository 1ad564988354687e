//! Which names and references were used: a mark for each number.
ghost use Rattle.std.specs.Prelude.{◌≡◌, ◌≤◌, ◌<◌, ◌+◌, length, OnOk, IfOk, IfSome};
ghost use Rattle.fcg_partial.specs.Reading.{index_at, flag_at};
ghost use Rattle.fcg_partial.specs.Internal.UsedNumbers.{first_unmarked, marks_after};

use crate::fault::{RecordFault, RecordRule, fault_at};
use crate::number::{read_u1, read_u4};

// The number of a table that stands at a place, which is marked as used.
#[tactic(auto, unfolding(crate::specs::Reading::index_at))]
pub(crate) fn read_index(bytes: &[u8], at: usize, used: &mut [bool]) -> Result<u32, RecordFault>
    requires { at ≤ length bytes.now }
    ensures value { result ≡ index_at bytes.now (length used.old) at }
    ensures marks { used.new ≡ marks_after used.old result }
    ensures long { length used.new ≡ length used.old }
    ensures inside { OnOk result (at + 4 ≤ length bytes.now) }
    ensures below { IfOk result (λ k. k < length used.old) }
{
    let number = read_u4(bytes, at)?;
    if number as usize >= used.len() {
        return Err(fault_at(at, RecordRule::Index));
    }
    used[number as usize] = true;
    Ok(number)
}

// The byte of an interface that stands at a place.
#[tactic(auto, unfolding(crate::specs::Reading::flag_at))]
pub(crate) fn read_flag(bytes: &[u8], at: usize) -> Result<u8, RecordFault>
    requires { at ≤ length bytes.now }
    ensures value { result ≡ flag_at bytes.now at }
    ensures inside { OnOk result (at + 1 ≤ length bytes.now) }
{
    let flag = read_u1(bytes, at)?;
    if flag > 1 {
        return Err(fault_at(at, RecordRule::Kind));
    }
    Ok(flag)
}

// The first number that isn't marked.
pub(crate) fn find_unmarked(marks: &[bool]) -> Option<usize>
    ensures value { result ≡ first_unmarked marks.now 0 }
    ensures below { IfSome result (λ n. n < length marks.now) }
{
    for i in 0..marks.len() {
        if !marks[i] {
            return Some(i);
        }
    }
    None
}
