// Big-endian fields of a byte slice. A function for each width: each is one call of std, and a width that is passed would be a loop.
#![tactic(auto, unfolding(crate::specs::Bytes::be16, crate::specs::Bytes::be24, crate::specs::Bytes::be32))]

ghost use Rattle.std.specs.Prelude.{◌≡◌, ◌+◌, ◌<◌, ◌≤◌, ◌^◌, length, drop, MatchOption};
ghost use Rattle.records.specs.Bytes.{be16, be24, be32};

// The number in two bytes.
pub fn be16(s: &[u8], at: usize) -> u16
    requires { at + 2 ≤ length s.now }
    ensures { result ≡ be16 s.now at }
{
    u16::from_be_bytes([s[at], s[at + 1]])
}

// The number in three bytes.
pub fn be24(s: &[u8], at: usize) -> u32
    requires { at + 3 ≤ length s.now }
    ensures { (result ≡ be24 s.now at) × (result < 2 ^ 24) }
{
    u32::from_be_bytes([0, s[at], s[at + 1], s[at + 2]])
}

// The number in four bytes.
pub fn be32(s: &[u8], at: usize) -> u32
    requires { at + 4 ≤ length s.now }
    ensures { result ≡ be32 s.now at }
{
    u32::from_be_bytes([s[at], s[at + 1], s[at + 2], s[at + 3]])
}

// The number in two bytes, as a count.
pub fn count16(s: &[u8], at: usize) -> usize
    requires { at + 2 ≤ length s.now }
    ensures { (result ≡ be16 s.now at) × (result < 2 ^ 16) }
{
    usize::from(be16(s, at))
}

// The count in the two bytes at the front, and what is behind them, if there are two.
pub fn front_count(rest: &[u8]) -> Option<(usize, &[u8])>
    ensures { MatchOption result (length rest.now < 2) (λ front. (front.0 ≡ be16 rest.now 0) × (front.0 < 2 ^ 16) × (front.1.now ≡ drop 2 rest.now) × (length front.1.now + 2 ≡ length rest.now)) }
{
    let (count, behind) = rest.split_first_chunk::<2>()?;
    Some((usize::from(u16::from_be_bytes(*count)), behind))
}
