//! Modified UTF-8.
ghost use Rattle.std.specs.Prelude.{◌≡◌, ◌+◌, ◌<◌, ◌≤◌, ◌^◌, length, IfSome};
ghost use Rattle.std.specs.List.{list_all};
ghost use Rattle.fcg_classfile.specs.Breaks.Groups.{is_single, bad_group};
ghost use Rattle.fcg_classfile.specs.Internal.Group.{group_len};

// How many bytes the group at the front has, or 0.
fn front_group(text: &[u8]) -> usize
    ensures { result ≡ group_len text.now }
{
    match text {
        [1..=0x7f, ..] => 1,
        [0xc0..=0xdf, 0x80..=0xbf, ..] => 2,
        [0xe0..=0xef, 0x80..=0xbf, 0x80..=0xbf, ..] => 3,
        _ => 0,
    }
}

// Whether each of a few bytes is a group of its own.
#[inline(always)]
fn are_few_single(bytes: &[u8]) -> bool
    ensures { result ≡ list_all is_single bytes.now }
{
    // without an end before the last byte, so that many are looked at in one instruction
    let mut single = true;
    for byte in bytes {
        single &= 1 <= *byte && *byte <= 0x7f;
    }
    single
}

// Whether each byte is a group of its own, N bytes at a time; the last N are looked at together too, though some of them
// were before. It is None for a text of fewer. It takes a step for each N bytes.
#[inline(always)]
fn are_single_by<const N: usize>(text: &[u8]) -> Option<bool>
    requires { (0 < N) × (N ≤ 16) }
    ensures { IfSome result (λ single. single ≡ list_all is_single text.now) }
{
    let last = text.last_chunk::<N>()?;
    let mut at = 0;
    while let Some(chunk) = text[at..].first_chunk::<N>() {
        if !are_few_single(chunk) {
            return Some(false);
        }
        at += N;
    }
    Some(are_few_single(last))
}

/// Whether each byte is a group of its own. It takes no memory, a step for each 16 bytes, and a few steps for a text of
/// fewer.
pub fn are_single(text: &[u8]) -> bool
    ensures { result ≡ list_all is_single text.now }
{
    if let Some(single) = are_single_by::<16>(text) {
        return single;
    }
    if let Some(single) = are_single_by::<8>(text) {
        return single;
    }
    if let Some(single) = are_single_by::<4>(text) {
        return single;
    }
    are_few_single(text)
}

/// The first bad group of a text that stands at a place.
#[tactic(auto, using(crate::proofs::GroupLemmas::single_none))]
pub fn find_bad_group(text: &[u8], at: usize) -> Option<usize>
    requires { at + length text.now < 2 ^ 64 }
    ensures { result ≡ bad_group at text.now }
{
    // most texts are of single bytes, which are looked at in the shortest loop
    if are_single(text) {
        return None;
    }
    scan_groups(text, at)
}

// The first bad group, found group by group.
fn scan_groups(text: &[u8], at: usize) -> Option<usize>
    requires { at + length text.now < 2 ^ 64 }
    ensures { result ≡ bad_group at text.now }
{
    let mut rest = text;
    let mut place = at;
    while !rest.is_empty() {
        let count = front_group(rest);
        if count == 0 {
            return Some(place);
        }
        place += count;
        let (_, after) = rest.split_at(count);
        rest = after;
    }
    None
}
