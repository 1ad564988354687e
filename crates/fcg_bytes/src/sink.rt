//! What is written to, and writing all of some bytes.
ghost use Rattle.std.specs.Prelude.{◌≡◌, ◌≤◌, ◌<◌, ℕ, List, Option, length, take, IfOk, OnOk, OnErr};
ghost use Rattle.std.specs.Io.{WritesAtMost};
ghost use Rattle.std.specs.Io.KnownBytes.{WriteAppends, Appends, Keeps};
ghost use Rattle.fcg_bytes.specs.Causes.{HasCause};
ghost use Rattle.fcg_bytes.specs.Objects.{Aside};
ghost use Rattle.fcg_bytes.specs.Internal.Streams.{Wrote};

use crate::Failed;

/// A sink of bytes: a file, a stream, or bytes in memory.
pub trait Sink {
    /// The bytes that it took, where the sink tells them.
    ghost taken: { Self → Option (List ℕ) };

    /// How often the sink has failed: a u64 that begins below its last value, never falls, and stays at its last
    /// value.
    ghost faults: { Self → ℕ };

    /// What no call of a sink changes.
    ghost aside: { Self → Aside };

    /// Takes the first of the bytes, and says how many: at least one, unless there are none. A call that answers
    /// `Failed` is counted, and takes nothing; the caller may write on.
    fn write(&mut self, bytes: &[u8]) -> Result<usize, Failed>
        ensures bound { WritesAtMost result bytes.now }
        ensures some { IfOk result (λ n. 0 < length bytes.now → 0 < n) }
        ensures bytes { WriteAppends (taken self.old) (taken self.new) result bytes.now }
        ensures cause { HasCause (faults self.old) (faults self.new) result }
        ensures aside { aside self.new ≡ aside self.old };
}

/// Writes all of the bytes, in as many calls of `write` as the sink needs, each over what is still to be written.
/// After `Failed`, which the sink has counted, it took a front of the bytes. The call takes no memory.
pub fn write_whole<W: Sink>(sink: &mut W, bytes: &[u8]) -> Result<(), Failed>
    ensures ok { OnOk result (Appends (W.taken sink.old) (W.taken sink.new) bytes.now) }
    ensures failed { OnErr result ((n : ℕ) × Appends (W.taken sink.old) (W.taken sink.new) (take n bytes.now)) }
    ensures cause { HasCause (W.faults sink.old) (W.faults sink.new) result }
    ensures aside { W.aside sink.new ≡ W.aside sink.old }
{
    let mut rest = bytes;
    while !rest.is_empty() {
        rest = write_some(sink, rest)?;
    }
    Ok(())
}

// Writes some of the bytes, and returns the others.
fn write_some<'a, W: Sink>(sink: &mut W, bytes: &'a [u8]) -> Result<&'a [u8], Failed>
    requires { 0 < length bytes.now }
    ensures wrote { IfOk result (λ rest. Wrote (W.taken sink.old) (W.taken sink.new) bytes.now rest.now) }
    ensures fewer { IfOk result (λ rest. length rest.now < length bytes.now) }
    ensures err { OnErr result (Keeps (W.taken sink.old) (W.taken sink.new)) }
    ensures cause { HasCause (W.faults sink.old) (W.faults sink.new) result }
    ensures aside { W.aside sink.new ≡ W.aside sink.old }
{
    let count = sink.write(bytes)?;
    let (_, rest) = bytes.split_at(count);
    Ok(rest)
}
