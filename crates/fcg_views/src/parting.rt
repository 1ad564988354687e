//! Texts that are cut at a byte.
ghost use Rattle.std.specs.Prelude.{◌≡◌, ◌==◌, ◌+◌, ◌<◌, length, IfSome};
ghost use Rattle.std.specs.List.{position};
ghost use Rattle.std.specs.Option.{option_map};
ghost use Rattle.fcg_views.specs.Coordinate.{parted};

use memchr::memchr;

/// The place of the first byte that is this one.
#[tactic(auto, using(crate::proofs::PartLaws::first_byte))]
pub fn find_byte(text: &[u8], byte: u8) -> Option<usize>
    ensures value { result ≡ position (λ b. b == byte) text.now }
    ensures within { IfSome result (λ at. at < length text.now) }
{
    memchr(byte, text)
}

// The bytes before the first one that is this one, and those after it.
#[tactic(auto, using(crate::proofs::PartLaws::parted_at))]
pub fn part_at(text: &[u8], byte: u8) -> Option<(&[u8], &[u8])>
    ensures value { option_map (λ p. (p.0.now, p.1.now)) result ≡ parted byte text.now }
    ensures within { IfSome result (λ p. length p.0.now + 1 + length p.1.now ≡ length text.now) }
{
    let at = find_byte(text, byte)?;
    let (front, back) = text.split_at(at);
    let (_, after) = back.split_at(1);
    Some((front, after))
}
