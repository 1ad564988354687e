//! Numbers and strings of bytes at a place of a file. Each call takes the fault that it answers where the item
//! passes the end.
ghost use Rattle.std.specs.Prelude.{◌≡◌, ◌≤◌, ◌+◌, length, OnOk};
ghost use Rattle.fcg_grammar.specs.Reading.{seen};
ghost use Rattle.fcg_grammar.specs.Number.{u1_at, u2_at, u4_at, part_at};

/// The byte at a place.
#[tactic(auto, unfolding(crate::specs::Number::u1_at))]
pub fn read_u1<F: Drop>(bytes: &[u8], at: usize, cut: F) -> Result<u8, F>
    requires { at ≤ length bytes.now }
    ensures value { result ≡ u1_at cut bytes.now at }
    ensures inside { OnOk result (at + 1 ≤ length bytes.now) }
{
    if bytes.len() - at < 1 {
        return Err(cut);
    }
    Ok(bytes[at])
}

/// The big-endian number of two bytes at a place.
#[tactic(auto, unfolding(crate::specs::Number::u2_at))]
pub fn read_u2<F: Drop>(bytes: &[u8], at: usize, cut: F) -> Result<u16, F>
    requires { at ≤ length bytes.now }
    ensures value { result ≡ u2_at cut bytes.now at }
    ensures inside { OnOk result (at + 2 ≤ length bytes.now) }
{
    if bytes.len() - at < 2 {
        return Err(cut);
    }
    Ok(u16::from(bytes[at]) * 256 + u16::from(bytes[at + 1]))
}

/// The big-endian number of four bytes at a place.
#[tactic(auto, unfolding(crate::specs::Number::u4_at))]
pub fn read_u4<F: Drop>(bytes: &[u8], at: usize, cut: F) -> Result<u32, F>
    requires { at ≤ length bytes.now }
    ensures value { result ≡ u4_at cut bytes.now at }
    ensures inside { OnOk result (at + 4 ≤ length bytes.now) }
{
    if bytes.len() - at < 4 {
        return Err(cut);
    }
    let high = u32::from(bytes[at]) * 256 + u32::from(bytes[at + 1]);
    let low = u32::from(bytes[at + 2]) * 256 + u32::from(bytes[at + 3]);
    Ok(high * 65536 + low)
}

/// The `n` bytes from a place on, which are a slice of the file.
#[tactic(auto, unfolding(crate::specs::Number::part_at))]
pub fn read_part<F: Drop>(bytes: &[u8], at: usize, n: usize, cut: F) -> Result<&[u8], F>
    requires { at ≤ length bytes.now }
    ensures value { seen (λ part. part.now) result ≡ part_at cut bytes.now at n }
    ensures inside { OnOk result (at + n ≤ length bytes.now) }
{
    if bytes.len() - at < n {
        return Err(cut);
    }
    let (_, rest) = bytes.split_at(at);
    let (part, _) = rest.split_at(n);
    Ok(part)
}
