//! What is read from, and reading it to its end.
ghost use Rattle.std.specs.Prelude.{◌≡◌, ◌≤◌, ◌<◌, ◌+◌, ℕ, List, Option, length, IfOk, OnOk, OnErr, IfSome, IsErrOf};
ghost use Rattle.std.specs.Io.{ReadsAtMost};
ghost use Rattle.std.specs.Io.KnownBytes.{ReadConsumes, Consumes, IsAtEnd};
ghost use Rattle.fcg_bytes.specs.Causes.{Rose, HasCause};
ghost use Rattle.fcg_bytes.specs.Objects.{Aside};
ghost use Rattle.fcg_bytes.specs.declared.source.ReadAllRefusal.TheVariants as refusals;

use crate::Failed;
use fcg_views::Bytes;
use std::alloc::{AllocError, Global};

/// The length in bytes of the buffer that `read_all` reads through, which stands on the stack.
pub const READ_BUFFER: usize = 65_536;

/// A source of bytes: a file, a stream, or bytes in memory.
pub trait Source {
    /// The bytes that are left, where the source tells them.
    ghost left: { Self → Option (List ℕ) };

    /// How often the source has failed: a u64 that begins below its last value, never falls, and stays at its last
    /// value.
    ghost faults: { Self → ℕ };

    /// What no call of a source changes.
    ghost aside: { Self → Aside };

    /// Reads some bytes into the front of the buffer, and says how many. `Ok(0)` for a buffer that isn't empty is the
    /// end of input, and a source that tells its bytes gives it exactly where none is left. A call that answers
    /// `Failed` is counted, and takes nothing; the caller may read on.
    fn read(&mut self, buf: &mut [u8]) -> Result<usize, Failed>
        ensures bound { ReadsAtMost result buf.new }
        ensures bytes { ReadConsumes (left self.old) (left self.new) result buf.new }
        ensures cause { HasCause (faults self.old) (faults self.new) result }
        ensures aside { aside self.new ≡ aside self.old };
}

/// Why a source was not read to its end.
#[derive(Clone, Copy, Debug, PartialEq, Eq)]
pub enum ReadAllRefusal {
    /// There was no memory for the bytes.
    NoMemory,
    /// A read failed, and the source counted it.
    Failed,
    /// More bytes were left than the limit.
    TooLong,
}

impl From<AllocError> for ReadAllRefusal {
    ghost from_gives = { λ _ e. e ≡ refusals.NoMemory };

    fn from(_: AllocError) -> ReadAllRefusal {
        ReadAllRefusal::NoMemory
    }
}

impl From<Failed> for ReadAllRefusal {
    ghost from_gives = { λ _ e. e ≡ refusals.Failed };

    fn from(_: Failed) -> ReadAllRefusal {
        ReadAllRefusal::Failed
    }
}

/// Reads a source to its end, where that comes within `limit` bytes, and returns all of the bytes.
///
/// `TooLong` comes exactly where more than `limit` bytes were left, if neither of the other two came first: `Failed`
/// where a read failed, and `NoMemory` where there is no room to keep the bytes. After each of the three the bytes that
/// were read stay taken, which are at most `limit + READ_BUFFER`. It makes one call of `read` for each piece that the
/// source gives, and one more for the end; beside those the cost is linear in the bytes that were read.
pub fn read_all<S: Source>(
    alloc: Global,
    source: &mut S,
    limit: usize,
) -> Result<Bytes, ReadAllRefusal>
    ensures ok { IfOk result (λ bytes. Consumes (S.left source.old) (S.left source.new) bytes) }
    ensures end { OnOk result (IsAtEnd (S.left source.new)) }
    ensures within { IfOk result (λ bytes. length bytes ≤ limit) }

    // What was read stays taken.
    ensures err { OnErr result ((bytes : List ℕ) × Consumes (S.left source.old) (S.left source.new) bytes
        × (length bytes ≤ limit + READ_BUFFER)) }
    ensures too_long { IsErrOf result ReadAllRefusal.TooLong → IfSome (S.left source.old) (λ bytes. limit < length bytes) }
    ensures failed { IsErrOf result ReadAllRefusal.Failed → Rose (S.faults source.old) (S.faults source.new) }

    // Where no read failed, the count stands.
    ensures later { S.faults source.old ≤ S.faults source.new }
    ensures kept { ¬ IsErrOf result ReadAllRefusal.Failed → S.faults source.new ≡ S.faults source.old }
    ensures aside { S.aside source.new ≡ S.aside source.old }
{
    let mut bytes = Vec::new(alloc);
    let mut buf = [0u8; READ_BUFFER];
    while bytes.len() <= limit {
        let count = source.read(&mut buf)?;
        if count == 0 {
            return Ok(Bytes::from(bytes));
        }
        bytes.extend_from_slice(&buf[..count])?;
    }
    Err(ReadAllRefusal::TooLong)
}
